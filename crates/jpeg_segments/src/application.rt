//! Segments of applications, comments, and restart intervals.
ghost use Rattle.std.specs.Prelude.{◌≡◌, ◌≤◌, ℕ, None, Some, IfOk, IsErrAnd, drop, length};
ghost use Rattle.std.specs.Prelude.{option_map, true, Err, nat_le, if◌then◌else◌};
ghost use Rattle.jpeg_bits.specs.Reading.{Answers, Malformed, NamesFormat};
ghost use Rattle.jpeg_bits.specs.declared.error.Error.TheVariants.{OutOfMemory};
ghost use Rattle.jpeg_bits.specs.declared.marker.Marker.TheVariants.{APP};
ghost use Rattle.jpeg_segments.specs.Application.{Adobe, adobe_at, app_at, application_by, com_at};
ghost use Rattle.jpeg_segments.specs.Application.{dri_at, passed_over, transform_by};
ghost use Rattle.jpeg_segments.specs.Parts.{payload_at};
ghost use Rattle.jpeg_segments.specs.FrameView.{application_in};

use jpeg_bits::error::{Error, Result, format_error_of};
use jpeg_bits::marker::Marker;
use jpeg_bits::source::Source;
use jpeg_bits::source::reads::{read_bytes, read_length, read_u16_be, skip};
use std::alloc::{AllocError, Global};
use std::io::Read;

/// The colour transform that an Adobe segment names.
#[derive(Clone, Copy, Debug, PartialEq)]
pub enum AdobeColorTransform {
    /// Red, green and blue, or cyan, magenta, yellow and black.
    Unknown,
    /// Brightness and two colour differences.
    YCbCr,
    /// YCbCr and black.
    YCCK,
}

/// A part of an ICC profile.
#[derive(Debug, Drop)]
pub struct IccChunk {
    /// How many parts the profile has.
    pub num_markers: u8,
    /// The part's number, from 1.
    pub seq_no: u8,
    /// Its bytes of the profile.
    pub bytes: Vec<u8>,
}

impl IccChunk {
    ghost use Rattle.std.specs.Prelude.{◌≡◌, IfOk};
    ghost use Rattle.jpeg_segments.specs.FrameView.{chunk_in};

    /// Copies the part. The only error is a refused allocation.
    pub fn copied(&self, alloc: Global) -> std::result::Result<IccChunk, AllocError>
        ensures { IfOk result (λ chunk. chunk_in chunk ≡ chunk_in self.now) }
    {
        Ok(IccChunk {
            num_markers: self.num_markers,
            seq_no: self.seq_no,
            bytes: Vec::from_slice(alloc, &self.bytes)?,
        })
    }
}

/// What the segment of an application says.
#[derive(Debug, Drop)]
pub enum AppData {
    /// Adobe's segment, with the transform that it names.
    Adobe(AdobeColorTransform),
    /// A JFIF file.
    Jfif,
    /// A frame of an MJPEG stream, which may leave out its Huffman tables.
    Avi1,
    /// A part of an ICC profile.
    Icc(IccChunk),
    /// Exif data, from its TIFF header on.
    Exif(Vec<u8>),
    /// XMP data, without its name.
    Xmp(Vec<u8>),
    /// Photoshop's image resources.
    Psir(Vec<u8>),
}

/// What a payload says, if there is memory to hold it.
type Said = std::result::Result<Option<AppData>, AllocError>;

/// Returns the bytes after the first `count`.
fn bytes_after(
    alloc: Global,
    payload: &[u8],
    count: usize,
) -> std::result::Result<Vec<u8>, AllocError>
    requires { count ≤ length payload.now }
    ensures { IfOk result (λ v. v.items ≡ drop count payload.now) }
{
    Vec::from_slice(alloc, &payload[count..])
}

/// Reads APP0: a JFIF file, or a frame of an MJPEG stream.
#[tactic(auto, unfolding(crate::specs::Application::application_by))]
fn application_0(payload: &[u8]) -> Option<AppData>
    ensures { option_map application_in result ≡ application_by 0 payload.now }
{
    if payload.starts_with(b"JFIF\0") {
        Some(AppData::Jfif)
    } else if payload.starts_with(b"AVI1\0") {
        Some(AppData::Avi1)
    } else {
        None
    }
}

/// Reads APP1: Exif or XMP data.
#[tactic(auto, unfolding(crate::specs::Application::application_by))]
fn application_1(alloc: Global, payload: &[u8]) -> Said
    ensures { IfOk result (λ said. option_map application_in said ≡ application_by 1 payload.now) }
{
    if payload.starts_with(b"Exif\0\0") {
        Ok(Some(AppData::Exif(bytes_after(alloc, payload, 6)?)))
    } else if payload.starts_with(b"http://ns.adobe.com/xap/1.0/\0") {
        Ok(Some(AppData::Xmp(bytes_after(alloc, payload, 29)?)))
    } else {
        Ok(None)
    }
}

/// Reads APP2: a part of an ICC profile, of at least one byte.
#[tactic(auto, unfolding(crate::specs::Application::application_by))]
fn application_2(alloc: Global, payload: &[u8]) -> Said
    ensures { IfOk result (λ said. option_map application_in said ≡ application_by 2 payload.now) }
{
    if payload.len() > 14 && payload.starts_with(b"ICC_PROFILE\0") {
        Ok(Some(AppData::Icc(IccChunk {
            num_markers: payload[13],
            seq_no: payload[12],
            bytes: bytes_after(alloc, payload, 14)?,
        })))
    } else {
        Ok(None)
    }
}

/// Reads APP13: Photoshop's image resources.
#[tactic(auto, unfolding(crate::specs::Application::application_by))]
fn application_13(alloc: Global, payload: &[u8]) -> Said
    ensures { IfOk result (λ said. option_map application_in said ≡ application_by 13 payload.now) }
{
    if payload.starts_with(b"Photoshop 3.0\0") {
        Ok(Some(AppData::Psir(bytes_after(alloc, payload, 14)?)))
    } else {
        Ok(None)
    }
}

/// Returns what the payload after the marker `APP(number)` says.
#[tactic(auto, unfolding(crate::specs::Application::application_by))]
fn application_by(alloc: Global, number: u8, payload: &[u8]) -> Said
    ensures { IfOk result (λ said. option_map application_in said
        ≡ application_by number payload.now) }
{
    match number {
        0 => Ok(application_0(payload)),
        1 => application_1(alloc, payload),
        2 => application_2(alloc, payload),
        13 => application_13(alloc, payload),
        _ => Ok(None),
    }
}

/// Skips `left` bytes, which say nothing that is known.
fn pass_over<R: Read + Drop>(
    alloc: Global,
    source: &mut Source<R>,
    left: u16,
) -> Result<Option<AppData>>
    ensures { Answers (option_map application_in) (passed_over left None) source.old result
        source.new }
{
    skip(alloc, source, left)?;
    Ok(None)
}

/// Skips `left` bytes after a transform.
fn pass_over_after<R: Read + Drop>(
    alloc: Global,
    source: &mut Source<R>,
    left: u16,
    transform: AdobeColorTransform,
) -> Result<Option<AppData>>
    ensures { Answers (option_map application_in) (passed_over left (Some (Adobe transform)))
        source.old result source.new }
{
    skip(alloc, source, left)?;
    Ok(Some(AppData::Adobe(transform)))
}

fn transform_by(number: u8) -> Option<AdobeColorTransform>
    ensures { result ≡ transform_by number }
{
    match number {
        0 => Some(AdobeColorTransform::Unknown),
        1 => Some(AdobeColorTransform::YCbCr),
        2 => Some(AdobeColorTransform::YCCK),
        _ => None,
    }
}

/// Reads the payload after the marker `APP(14)`, if it has `left` bytes and at least twelve: an
/// Adobe segment, whose twelfth byte is the transform, or none.
#[tactic(auto, unfolding(crate::specs::Application::adobe_at))]
fn read_adobe<R: Read + Drop>(
    alloc: Global,
    source: &mut Source<R>,
    left: u16,
) -> Result<Option<AppData>>
    requires { 12 ≤ left }
    ensures { Answers (option_map application_in) (adobe_at left) source.old result source.new }
{
    let head = read_bytes(alloc, source, 12)?;
    if !head.starts_with(b"Adobe\0") {
        return pass_over(alloc, source, left - 12);
    }
    match transform_by(head[11]) {
        Some(transform) => pass_over_after(alloc, source, left - 12, transform),
        None => Err(transform_error(alloc, head[11])),
    }
}

/// Returns the refusal of a transform that no Adobe segment has.
#[cold]
#[inline(never)]
fn transform_error(alloc: Global, transform: u8) -> Error
    ensures { NamesFormat result }
{
    format_error_of(format!(in alloc; "transform {transform} in an Adobe segment, expected 0 to 2"))
}

/// Reads the payload after the marker `APP(14)`, of `left` bytes.
#[tactic(auto, using(crate::proofs::ApplicationLemmas::payload_passed))]
fn read_application_14<R: Read + Drop>(
    alloc: Global,
    source: &mut Source<R>,
    left: u16,
) -> Result<Option<AppData>>
    ensures { Answers (option_map application_in)
        (λ bytes. if nat_le 12 left then adobe_at left bytes else payload_at 14 left bytes)
        source.old result source.new }
{
    if left < 12 {
        pass_over(alloc, source, left)
    } else {
        read_adobe(alloc, source, left)
    }
}

/// Reads the payload after the marker `APP(number)`, of `left` bytes. It is kept only if it may say
/// something.
#[tactic(auto, using(crate::proofs::ApplicationLemmas::payload_passed))]
fn read_payload<R: Read + Drop>(
    alloc: Global,
    source: &mut Source<R>,
    number: u8,
    left: u16,
) -> Result<Option<AppData>>
    ensures { Answers (option_map application_in) (payload_at number left) source.old result
        source.new }
{
    if number <= 2 || number == 13 {
        read_known_payload(alloc, source, number, left)
    } else {
        pass_over(alloc, source, left)
    }
}

/// Reads the payload after the marker `APP(number)`, of `left` bytes.
#[tactic(auto, unfolding(crate::specs::Parts::payload_at))]
fn read_known_payload<R: Read + Drop>(
    alloc: Global,
    source: &mut Source<R>,
    number: u8,
    left: u16,
) -> Result<Option<AppData>>
    ensures { Answers (option_map application_in) (payload_at number left) source.old result
        source.new }
{
    let payload = read_bytes(alloc, source, left)?;
    Ok(application_by(alloc, number, &payload)?)
}

#[tactic(auto, unfolding(crate::specs::Application::app_at, crate::specs::Parts::payload_at))]
fn read_application<R: Read + Drop>(
    alloc: Global,
    source: &mut Source<R>,
    number: u8,
) -> Result<Option<AppData>>
    ensures { Answers (option_map application_in) (app_at number) source.old result source.new }
{
    let left = read_length(alloc, source)?;
    if number == 14 {
        read_application_14(alloc, source, left)
    } else {
        read_payload(alloc, source, number, left)
    }
}

/// Reads a segment after the marker `APP(number)` (T.81, B.2.4.6), and returns what it says, if
/// that is known: APP0 of JFIF or AVI1, APP1 of Exif or XMP, APP2 of an ICC profile, APP13 of
/// Photoshop, and APP14 of Adobe. The data is what follows the name, and in an ICC profile the
/// part's number and the count of the parts.
///
/// Errors: `Format` for another marker, if the length is below 2, and if an Adobe segment names a
/// transform above 2; `Io` if the bytes end or a read fails; `OutOfMemory`.
pub fn parse_app<R: Read + Drop>(
    alloc: Global,
    reader: &mut Source<R>,
    marker: Marker,
) -> Result<Option<AppData>>
    ensures answers { (number : ℕ) → marker ≡ APP number
        → Answers (option_map application_in) (app_at number) reader.old result reader.new }
    ensures others { ((number : ℕ) → marker ≡ APP number → ⊥) → IsErrAnd result NamesFormat
        × (reader.new ≡ reader.old) }
{
    match marker {
        Marker::APP(number) => read_application(alloc, reader, number),
        _ => Err(format_error_of(format!(in alloc; "found {marker}, expected APPn"))),
    }
}

/// Reads a comment (T.81, B.2.4.5): its bytes, which are the rest of its segment.
///
/// Errors: `Format` if the length is below 2; `Io` if the bytes end or a read fails; `OutOfMemory`.
#[tactic(auto, unfolding(crate::specs::Application::com_at))]
pub fn parse_com<R: Read + Drop>(alloc: Global, reader: &mut Source<R>) -> Result<Vec<u8>>
    ensures { Answers (λ v. v.items) com_at reader.old result reader.new }
{
    let left = read_length(alloc, reader)?;
    read_bytes(alloc, reader, left)
}

/// Reads a restart interval, in MCUs (T.81, B.2.4.4). 0 means none.
///
/// Errors: `Format` if the length is not 4; `Io` if the bytes end or a read fails; `OutOfMemory`.
#[tactic(auto, unfolding(crate::specs::Application::dri_at))]
pub fn parse_dri<R: Read + Drop>(alloc: Global, reader: &mut Source<R>) -> Result<u16>
    ensures answers { Answers (λ n. n) dri_at reader.old result reader.new }
    ensures room { reader.old.known ≡ true → result ≡ Err OutOfMemory
        → dri_at reader.old.bytes ≡ Err Malformed }
{
    let left = read_length(alloc, reader)?;
    if left != 2 {
        return Err(format_error_of(format!(in alloc;
            "restart interval segment length {}, expected 4",
            u32::from(left) + 2
        )));
    }
    read_u16_be(alloc, reader)
}
