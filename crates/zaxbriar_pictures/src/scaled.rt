//! Pictures of streams at a scale, as netpbm or PNG files, as they are stored or turned upright.
ghost use Rattle.std.specs.Prelude.{◌≡◌, ◌*◌, List, ℕ, IfErr, IfOk, IfSome, Some, option_map};
ghost use Rattle.std.specs.Prelude.{◌≤◌, false, is_some, true};
ghost use Rattle.jpeg_bits.specs.Reading.{Answers};
ghost use Rattle.jpeg_decoder.specs.Bytes.{decoding_bytes};
ghost use Rattle.jpeg_meaning.specs.Output.{Tells};
ghost use Rattle.jpeg_meaning.specs.Pixels.{info_by};
ghost use Rattle.jpeg_meaning.specs.States.{HasHeader, IsReading, ahead};
ghost use Rattle.jpeg_meaning.specs.Stream.{header_at, told_of};
ghost use Rattle.jpeg_meaning.specs.declared.progress.Progress.TheVariants.{Fresh, HeaderRead};
ghost use Rattle.zaxbriar_pictures.specs.Allowed.{allows, is_by_lines, made_bytes, taken_at};
ghost use Rattle.zaxbriar_pictures.specs.Allowed.{taken_for, taken_in_lines, taken_smaller};
ghost use Rattle.zaxbriar_pictures.specs.Allowed.{taken_whole};
ghost use Rattle.zaxbriar_pictures.specs.ByRows.{is_by_rows, read_at_scale, read_rest};
ghost use Rattle.zaxbriar_pictures.specs.Crops.{fits};
ghost use Rattle.zaxbriar_pictures.specs.Given.{WritesGiven, most_after};
ghost use Rattle.zaxbriar_pictures.specs.Reasons.{IsReason, LacksColours, NamesOrOutside};
ghost use Rattle.zaxbriar_pictures.specs.ScaledPictures.{settings_for};
ghost use Rattle.zaxbriar_pictures.specs.Steps.{IsSaid, ReadsForRequest, WritesFile};
ghost use Rattle.zaxbriar_pictures.specs.declared.extents.Extent.TheVariants.{Whole};
ghost use Rattle.zaxbriar_samples.specs.Files.{has_pixels};
ghost use Rattle.zaxbriar_samples.specs.Parts.{has_part};
ghost use Rattle.zaxbriar_samples.specs.Sizes.{luma_for};
ghost use Rattle.zaxbriar_samples.specs.declared.requests.Request.TheVariants.{At};

use crate::by_rows::write_rows;
use crate::extents::{Completeness, Extent, decode_wanted_lines};
use crate::lines::{area_for, check_crop, is_by_lines, part_for, write_file};
use jpeg_decoder::parser::Dimensions;
use jpeg_decoder::{Decoder, ImageInfo, Scale, error};
use jpeg_orientation::areas::Area;
use std::alloc::Global;
use std::io::{Read, Write};
use zaxbriar_files::limits::Limits;
use zaxbriar_files::refusal::Refusal;
use zaxbriar_samples::boxes::is_smaller;
use zaxbriar_samples::files::{PictureFormat, has_pixels};
use zaxbriar_samples::line_takers::{Form, Plan, Stored};
use zaxbriar_samples::netpbm::Picture;
use zaxbriar_samples::requests::{AtScale, Request};
use zaxbriar_samples::turns::bytes_of;

/// How many bytes of a stream are read ahead of what is decoded.
pub(crate) const READ_AHEAD: usize = 65536;

/// Decodes the picture of a decoder, at the scale that was set.
pub fn decode_picture<R: Read + Drop>(decoder: &mut Decoder<R>) -> error::Result<Picture>
    ensures reads { IsReading decoder.old.stage → Answers
        (λ p. (told_of decoder.new.found.said, p.pixels.items))
        (ahead decoder.old.stage decoder.old.settings decoder.old.found) decoder.old.source result
        decoder.new.source }
    ensures info { IfOk result (λ p. option_map (info_by decoder.new.settings)
        decoder.new.found.said.frame ≡ Some p.info) }
    ensures precision { IfOk result (λ p. option_map (λ f. f.precision) decoder.new.found.said.frame
        ≡ Some p.precision) }
{
    let pixels = decoder.decode()?;
    let info = decoder.info().unwrap();
    let precision = decoder.precision().unwrap();
    Ok(Picture {
        info,
        precision,
        pixels,
    })
}

/// Returns how many bytes decoding the picture of a decoder takes at most at a time, whose header
/// was read.
pub fn taken_by<R: Read + Drop>(decoder: &Decoder<R>) -> u64
    ensures { HasHeader decoder.now.stage → IfSome decoder.now.found.said.frame (λ f. result
        ≡ (decoding_bytes decoder.now.settings f).peak) }
{
    match decoder.decoding_bytes() {
        Some(bytes) => bytes.peak,
        None => 0,
    }
}

/// Returns how many bytes this takes where the lines of the picture are written one by one.
pub(crate) fn taken_by_lines<R: Read + Drop>(decoder: &Decoder<R>) -> u64
    ensures { HasHeader decoder.now.stage → IfSome decoder.now.found.said.frame (λ f. result
        ≡ taken_in_lines (decoding_bytes decoder.now.settings f)) }
{
    match decoder.decoding_bytes() {
        Some(bytes) => bytes.coefficients.saturating_add(bytes.planes),
        None => 0,
    }
}

/// Returns how many bytes this takes where the whole picture is made, and turned by an orientation
/// into another one, unless it is upright as it is.
pub(crate) fn taken_whole<R: Read + Drop>(decoder: &Decoder<R>, orientation: u8) -> u64
    ensures { HasHeader decoder.now.stage → IfSome decoder.now.found.said.frame (λ f. result
        ≡ taken_whole orientation (decoding_bytes decoder.now.settings f)) }
{
    match decoder.decoding_bytes() {
        Some(bytes) => {
            if orientation == 1 {
                bytes.peak
            } else {
                bytes.peak.saturating_add(bytes.picture)
            }
        }
        None => 0,
    }
}

/// What a request asks of a stream, by its header.
#[derive(Clone, Copy)]
pub struct Choice {
    /// What the header says of the whole picture.
    pub full: ImageInfo,
    /// The scale.
    pub scale: Scale,
    /// The requested size, which isn't greater than the picture at that scale.
    pub size: Dimensions,
    /// The orientation that the picture is to be turned by: 1 where it is none.
    pub orientation: u8,
}

/// Returns how many bytes a picture of this size takes, of the format and precision of another.
fn made_bytes(size: Dimensions, full: ImageInfo, precision: u8) -> u64
    ensures { result ≡ made_bytes size full precision }
{
    let pixel = bytes_of(full.pixel_format, precision);
    u64::from(size.width) * u64::from(size.height) * u64::from(pixel)
}

/// Returns how many bytes the picture of a decoder takes, whose header was read, for a file of a
/// format: without the picture where its lines are written one by one.
fn taken_at<R: Read + Drop>(
    decoder: &Decoder<R>,
    format: PictureFormat,
    precision: u8,
    orientation: u8,
) -> u64
    ensures { HasHeader decoder.now.stage → IfSome decoder.now.found.said.frame (λ f. result
        ≡ taken_at format precision orientation (decoding_bytes decoder.now.settings f)) }
{
    if is_by_lines(format, precision, orientation) {
        taken_by_lines(decoder)
    } else {
        taken_whole(decoder, orientation)
    }
}

/// Returns how many bytes the picture of a decoder takes, whose header was read, where it is made
/// smaller line by line, into one of so many bytes, which is then turned.
fn taken_smaller<R: Read + Drop>(decoder: &Decoder<R>, orientation: u8, made: u64) -> u64
    ensures { HasHeader decoder.now.stage → IfSome decoder.now.found.said.frame (λ f. result
        ≡ taken_smaller orientation (decoding_bytes decoder.now.settings f) made) }
{
    let boxed = taken_by_lines(decoder).saturating_add(made);
    if orientation == 1 {
        boxed
    } else {
        boxed.max(made.saturating_add(made))
    }
}

/// Returns how many bytes the picture of a decoder takes for a request, whose header was read and
/// whose scale was set.
#[tactic(auto, unfolding(crate::specs::Allowed::taken_for))]
fn bytes_for<R: Read + Drop>(
    decoder: &Decoder<R>,
    request: Request,
    format: PictureFormat,
    full: ImageInfo,
    size: Dimensions,
    orientation: u8,
) -> u64
    requires plain { decoder.now.settings ≡ settings_for (luma_for request) }
    requires header { HasHeader decoder.now.stage }
    ensures { IfSome decoder.now.found.said.frame (λ f. result
        ≡ taken_for request format full f size orientation) }
{
    let precision = decoder.precision().unwrap_or(8);
    let info = decoder.info().unwrap_or(full);
    match request {
        Request::At(_) => taken_at(decoder, format, precision, orientation),
        Request::Within(_, _) => {
            if is_smaller(size, info) {
                taken_smaller(decoder, orientation, made_bytes(size, full, precision))
            } else {
                taken_at(decoder, format, precision, orientation)
            }
        }
    }
}

/// Lets the scans of the stream of a decoder, whose header was read, code as many blocks as the
/// limits allow for its picture.
pub fn limit_blocks<R: Read + Drop>(decoder: &mut Decoder<R>, limits: Limits)
    ensures { HasHeader decoder.old.stage → decoder.new ≡ record decoder.old {
      settings = record decoder.old.settings
          { max_blocks = most_after limits decoder.old.found };
    } }
{
    let blocks = decoder.picture_blocks().unwrap_or(0);
    decoder.set_max_blocks(limits.most_blocks(blocks));
}

/// Returns what is said of the picture of a decoder, whose header was read, and is to be turned by an
/// orientation.
pub(crate) fn stored_in<R: Read + Drop>(decoder: &Decoder<R>, orientation: u8) -> Stored
    requires framed { is_some decoder.now.found.said.frame ≡ true }
    ensures said { IsSaid result decoder.now }
    ensures orientation { result.orientation ≡ orientation }
{
    Stored {
        info: decoder.info().unwrap(),
        precision: decoder.precision().unwrap(),
        orientation,
    }
}

/// Returns whether the lines of a picture are written as they are read: where the whole is wanted,
/// and they are written one by one.
fn is_by_rows(extent: Extent, format: PictureFormat, stored: Stored) -> bool
    ensures { result ≡ is_by_rows extent format stored.precision stored.orientation }
{
    match extent {
        Extent::Whole => is_by_lines(format, stored.precision, stored.orientation),
        Extent::Partial => false,
    }
}

/// Reads the header of the stream of a decoder, and sets the scale for the request and the limit of
/// blocks. A picture above the limits is refused.
pub(crate) fn choose<R: Read + Drop>(
    decoder: &mut Decoder<R>,
    request: Request,
    format: PictureFormat,
    limits: Limits,
) -> Result<Choice, Refusal>
    requires fresh { decoder.old.stage ≡ Fresh }
    requires plain { decoder.old.settings ≡ settings_for (luma_for request) }
    ensures reads { IfOk result (λ choice. ReadsForRequest request limits choice decoder.old
        decoder.new) }
    ensures asked { (at : _) → request ≡ At at
        → IfOk result (λ choice. choice.scale ≡ at.scale) }
    ensures orientation { IfOk result (λ choice. (1 ≤ choice.orientation)
        × (choice.orientation ≤ 8)) }
    ensures framed { IfOk result (λ _. is_some decoder.new.found.said.frame ≡ true) }
    ensures limited { IfOk result (λ _. decoder.old.source.known ≡ true
        → allows request format limits decoder.old.source.bytes ≡ true) }
    ensures refused { decoder.old.source.known ≡ true
        → IfErr result (IsReason (header_at decoder.old.source.bytes)
        (allows request format limits decoder.old.source.bytes) true ⊥) }
{
    decoder.read_info()?;
    let full = decoder.info().unwrap();
    let orientation = request.orientation_in(decoder.exif_data());
    let scale = request.scale(full, orientation);
    let size = request.size(full, orientation);
    decoder.set_scale(scale)?;
    limits.check(
        full.width,
        full.height,
        bytes_for(decoder, request, format, full, size, orientation),
    )?;
    limit_blocks(decoder, limits);
    Ok(Choice {
        full,
        scale,
        size,
        orientation,
    })
}

/// Writes the picture of a decoder, at the scale that was set, or the part of it that is asked for,
/// as a file that has its pixels, as its lines are read.
fn write_as_read<R: Read + Drop, W: Write>(
    alloc: Global,
    decoder: Decoder<R>,
    stored: Stored,
    crop: Option<Area>,
    format: PictureFormat,
    writer: &mut W,
) -> error::Result<Completeness>
    requires header { decoder.stage ≡ HeaderRead }
    requires said { IsSaid stored decoder }
    requires fits { has_part crop stored.orientation stored.info ≡ true }
    requires pixels { has_pixels format stored.info.pixel_format ≡ true }
    requires lines { is_by_lines format stored.precision stored.orientation ≡ true }
    ensures written { IfOk result (λ told. WritesFile Whole crop stored.orientation format decoder
        (W.contents writer.old) (W.contents writer.new) told) }
    ensures refused { decoder.source.known ≡ true → IfErr result (NamesOrOutside
        (read_rest true Whole decoder.settings decoder.found decoder.source.bytes)) }
{
    let plan = Plan {
        stored,
        area: area_for(stored, crop),
        form: Form::File(format),
    };
    write_rows(alloc, decoder, plan, writer)?;
    Ok(Completeness::of_whole(stored.info))
}

/// Decodes as much as is wanted of the picture of a decoder, at the scale that was set, writes it,
/// or the part of it that is asked for, as a file that has its pixels, turned upright, and returns
/// how much of it is complete, before it is turned.
fn write_lines<R: Read + Drop, W: Write>(
    alloc: Global,
    mut decoder: Decoder<R>,
    stored: Stored,
    crop: Option<Area>,
    extent: Extent,
    format: PictureFormat,
    writer: &mut W,
) -> error::Result<Completeness>
    requires header { decoder.stage ≡ HeaderRead }
    requires said { IsSaid stored decoder }
    requires fits { has_part crop stored.orientation stored.info ≡ true }
    requires pixels { has_pixels format stored.info.pixel_format ≡ true }
    ensures written { IfOk result (λ told. WritesFile extent crop stored.orientation format decoder
        (W.contents writer.old) (W.contents writer.new) told) }
    ensures refused { decoder.source.known ≡ true → IfErr result (NamesOrOutside
        (read_rest false extent decoder.settings decoder.found decoder.source.bytes)) }
{
    let decoded = decode_wanted_lines(&mut decoder, extent)?;
    let part = part_for(alloc, stored, decoded.lines, crop)?;
    write_file(alloc, part.stored, part.lines, format, writer)?;
    Ok(Completeness {
        info: stored.info,
        whole_rows: decoded.whole_rows,
        fault: decoded.fault,
    })
}

/// Writes the picture of a decoder, at the scale that was set, or the part of it that is asked for:
/// as its lines are read, where they are written so, or once as much as is wanted is decoded. It
/// returns how much of the picture is complete.
fn write_stored<R: Read + Drop, W: Write>(
    alloc: Global,
    decoder: Decoder<R>,
    stored: Stored,
    crop: Option<Area>,
    extent: Extent,
    format: PictureFormat,
    writer: &mut W,
) -> error::Result<Completeness>
    requires header { decoder.stage ≡ HeaderRead }
    requires said { IsSaid stored decoder }
    requires fits { has_part crop stored.orientation stored.info ≡ true }
    requires pixels { has_pixels format stored.info.pixel_format ≡ true }
    ensures written { IfOk result (λ told. WritesFile extent crop stored.orientation format decoder
        (W.contents writer.old) (W.contents writer.new) told) }
    ensures refused { decoder.source.known ≡ true → IfErr result (NamesOrOutside
        (read_rest (is_by_rows extent format stored.precision stored.orientation) extent
        decoder.settings decoder.found decoder.source.bytes)) }
{
    if is_by_rows(extent, format, stored) {
        write_as_read(alloc, decoder, stored, crop, format, writer)
    } else {
        write_lines(alloc, decoder, stored, crop, extent, format, writer)
    }
}

/// Decodes as much as is wanted of the stream of a decoder that has read nothing, writes its
/// picture at a scale, or the part of it that is asked for, and returns how much of it is complete.
fn write_chosen<R: Read + Drop, W: Write>(
    alloc: Global,
    mut decoder: Decoder<R>,
    at: AtScale,
    extent: Extent,
    limits: Limits,
    format: PictureFormat,
    writer: &mut W,
) -> Result<Completeness, Refusal>
    requires fresh { decoder.stage ≡ Fresh }
    requires plain { decoder.settings ≡ settings_for at.luma }
    ensures written { decoder.source.known ≡ true → IfOk result (WritesGiven extent limits at
        format decoder.source.bytes (W.contents writer.old) (W.contents writer.new)) }
    ensures limited { decoder.source.known ≡ true → IfOk result
        (λ _. allows (At at) format limits decoder.source.bytes ≡ true) }
    ensures fits { decoder.source.known ≡ true
        → IfOk result (λ _. fits at decoder.source.bytes ≡ true) }
    ensures refused { decoder.source.known ≡ true → IfErr result (IsReason
        (read_at_scale extent limits at format decoder.source.bytes)
        (allows (At at) format limits decoder.source.bytes) (fits at decoder.source.bytes)
        (LacksColours format at.luma decoder.source.bytes)) }
{
    let choice = choose(&mut decoder, Request::At(at), format, limits)?;
    let stored = stored_in(&decoder, choice.orientation);
    check_crop(at.crop, stored)?;
    if !has_pixels(format, stored.info.pixel_format) {
        return Err(Refusal::Cmyk);
    }
    let told = write_stored(alloc, decoder, stored, at.crop, extent, format, writer)?;
    Ok(told)
}

/// Decodes as much as is wanted of the stream that the reader gives, writes its picture at a scale,
/// or of one in colour the luma alone, turned upright by the orientation in its header's Exif data
/// (Exif 2.3, 4.6.4) if that is asked for, and returns how much of the picture is complete, before
/// it is turned, with the first fault of the stream. Of that picture the part is written that is
/// asked for. A picture above the limits is refused by its header, and so is a part that isn't
/// inside it; one whose pixels the format doesn't have before anything is written. A read that
/// fails is an error.
pub fn write_at<R: Read + Drop, W: Write>(
    alloc: Global,
    reader: R,
    at: AtScale,
    extent: Extent,
    limits: Limits,
    format: PictureFormat,
    writer: &mut W,
) -> Result<Completeness, Refusal>
    ensures written { (bytes : List ℕ) → Tells (R.remaining reader) bytes
        → IfOk result (WritesGiven extent limits at format bytes (W.contents writer.old)
        (W.contents writer.new)) }
    ensures limited { (bytes : List ℕ) → Tells (R.remaining reader) bytes
        → IfOk result (λ _. allows (At at) format limits bytes ≡ true) }

    // The part that is asked for lies in the picture.
    ensures fits { (bytes : List ℕ) → Tells (R.remaining reader) bytes
        → IfOk result (λ _. fits at bytes ≡ true) }

    // A refusal names the stream's fault, or a limit that it is above, or a part that isn't inside
    // its picture, or colours that the format lacks, or is one of the reader, the writer or memory.
    ensures refused { (bytes : List ℕ) → Tells (R.remaining reader) bytes → IfErr result (IsReason
        (read_at_scale extent limits at format bytes) (allows (At at) format limits bytes)
        (fits at bytes) (LacksColours format at.luma bytes)) }
{
    let mut decoder = Decoder::with_capacity(alloc, READ_AHEAD, reader)?;
    decoder.set_luma(at.luma);
    write_chosen(alloc, decoder, at, extent, limits, format, writer)
}
