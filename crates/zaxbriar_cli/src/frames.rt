//! Frames of a stream, one after the other.

use jpeg_decoder::Decoder;
use std::alloc::Global;
use std::io::Read;
use std::{fmt, io};
use zaxbriar_files::avi::{Video, is_avi, skip_rest};
use zaxbriar_files::limits::Limits;
use zaxbriar_files::refusal::Refusal;
use zaxbriar_pictures::scaled::{decode_picture, limit_blocks, taken_by};
use zaxbriar_samples::netpbm::Picture;

/// Why a frame isn't written.
#[derive(Drop)]
pub enum FrameRefusal {
    /// The frame of this number is refused.
    Frame(u64, Refusal),
    /// The frame of this number has another size or format than those before it.
    Other(u64),
    /// The stream begins like a RIFF file, but is not an AVI file.
    Riff,
    /// There is no JPEG frame.
    NoFrame,
}

impl fmt::Display for FrameRefusal {
    fn fmt<W: fmt::Write>(&self, f: &mut fmt::Formatter<W>) -> fmt::Result {
        match self {
            FrameRefusal::Frame(number, refusal) => write!(f, "frame {number}: {refusal}"),
            FrameRefusal::Other(number) => {
                write!(
                    f,
                    "frame {number}: another size or format than the frames before it"
                )
            }
            FrameRefusal::Riff => write!(f, "a RIFF file, but no AVI file"),
            FrameRefusal::NoFrame => write!(f, "no JPEG frame"),
        }
    }
}

/// The first byte of a JPEG image, that of the marker SOI.
const START: u8 = 0xff;

/// The second byte of a JPEG image, that of the marker SOI.
const SECOND: u8 = 0xd8;

/// What was read of a frame before it is decoded.
#[derive(Clone, Copy)]
struct Begun {
    /// Its first byte.
    first: u8,
    /// Whether its second byte was read too, that of the marker SOI.
    has_second: bool,
}

/// A place in an AVI file.
#[derive(Clone, Copy)]
struct Place {
    video: Video,
    /// The size of the chunk of the last frame.
    size: u32,
    /// How many bytes of that chunk are still to be read.
    left: u64,
}

/// How the frames stand in a stream.
#[derive(Clone, Copy)]
enum Layout {
    /// One after the other, with padding between them: the byte that was read of the next one.
    Plain(Option<u8>),
    /// In the chunks of an AVI file.
    Avi(Place),
}

/// The frames that a reader gives.
#[derive(Drop)]
pub struct Frames<R> {
    reader: R,
    layout: Layout,
    limits: Limits,
}

/// Decodes the frame of a decoder that has read nothing, unless it is above the limits.
fn decode_within<R: Read + Drop>(
    decoder: &mut Decoder<R>,
    limits: Limits,
) -> Result<Picture, Refusal> {
    decoder.read_info()?;
    let info = decoder.info().unwrap();
    limits.check(info.width, info.height, taken_by(decoder))?;
    limit_blocks(decoder, limits);
    Ok(decode_picture(decoder)?)
}

/// Decodes the frame that the reader gives.
fn decode_frame<R: Read + Drop>(
    alloc: Global,
    reader: R,
    limits: Limits,
) -> Result<Picture, Refusal> {
    let mut decoder = Decoder::new(alloc, reader)?;
    decode_within(&mut decoder, limits)
}

/// Decodes the frame that begins with what was read and continues in a reader that is lent.
fn decode_from<R: Read + Drop>(
    alloc: Global,
    begun: Begun,
    rest: &mut R,
    limits: Limits,
) -> Result<Picture, Refusal> {
    let seconds = if begun.has_second { 1 } else { 0 };
    let first = io::repeat(begun.first).take(1);
    let read = first.chain(io::repeat(SECOND).take(seconds));
    decode_frame(alloc, read.chain(rest), limits)
}

/// Reads the first byte after an image that is no padding, if there is one. Zero bytes and line
/// feeds are padding.
fn skip_padding<R: Read>(reader: &mut R) -> io::Result<Option<u8>> {
    let mut first = [0u8];
    for _ in 0..u64::MAX {
        if reader.read(&mut first)? == 0 {
            break;
        }
        if !matches!(first[0], 0 | b'\n') {
            return Ok(Some(first[0]));
        }
    }
    Ok(None)
}

/// Decodes the frame that begins with a byte that was read, or with the next one after padding, if
/// there is one.
fn next_plain<R: Read + Drop>(
    alloc: Global,
    reader: &mut R,
    read: Option<u8>,
    limits: Limits,
) -> Result<Option<Picture>, Refusal> {
    let first = match read {
        Some(byte) => Some(byte),
        None => skip_padding(reader)?,
    };
    match first {
        Some(byte) => Ok(Some(decode_from(alloc, Begun::with_first(byte), reader, limits)?)),
        None => Ok(None),
    }
}

/// Returns whether a reader gives an image, after padding. It gives its third byte next then.
fn begins_image<R: Read>(reader: &mut R) -> io::Result<bool> {
    if skip_padding(reader)? != Some(START) {
        return Ok(false);
    }
    let mut second = [0u8];
    Ok(reader.read(&mut second)? == 1 && second[0] == SECOND)
}

impl Begun {
    /// Returns what was read of a frame whose first byte this is.
    fn with_first(first: u8) -> Begun {
        Begun {
            first,
            has_second: false,
        }
    }
}

impl Place {
    /// Returns the beginning of a file.
    fn new() -> Place {
        Place {
            video: Video::new(),
            size: 0,
            left: 0,
        }
    }

    /// Returns whether another image follows in the chunk of the last frame, as a second field
    /// does. Its first two bytes are read then.
    fn has_field<R: Read>(&mut self, reader: &mut R) -> io::Result<bool> {
        let mut chunk = reader.by_ref().take(self.left);
        let begins = begins_image(&mut chunk);
        self.left = chunk.limit();
        begins
    }

    /// Reads as far as the chunk of the next frame, if there is one, and its first byte.
    fn next_chunk<R: Read>(&mut self, reader: &mut R) -> io::Result<Option<u8>> {
        skip_rest(reader, self.size, self.left)?;
        let Some(size) = self.video.find_frame(reader)? else {
            return Ok(None);
        };
        let mut first = [0u8];
        reader.read_exact(&mut first)?;
        self.size = size;
        self.left = u64::from(size.saturating_sub(1));
        Ok(Some(first[0]))
    }

    /// Reads as far as the next frame, if there is one, and returns what was read of it. Returns
    /// none if the first frame doesn't begin like a JPEG image.
    fn next<R: Read>(&mut self, reader: &mut R, is_first: bool) -> io::Result<Option<Begun>> {
        if self.has_field(reader)? {
            return Ok(Some(Begun {
                first: START,
                has_second: true,
            }));
        }
        match self.next_chunk(reader)? {
            Some(first) if !is_first || first == START => Ok(Some(Begun::with_first(first))),
            _ => Ok(None),
        }
    }

    /// Decodes the frame that begins with what was read and continues in the chunk.
    fn decode<R: Read + Drop>(
        &mut self,
        alloc: Global,
        begun: Begun,
        reader: &mut R,
        limits: Limits,
    ) -> Result<Picture, Refusal> {
        let mut chunk = reader.by_ref().take(self.left);
        let frame = decode_from(alloc, begun, &mut chunk, limits);
        self.left = chunk.limit();
        frame
    }
}

/// Decodes the next frame of an AVI file. Returns none if the first frame doesn't begin like a JPEG
/// image.
fn next_in_avi<R: Read + Drop>(
    alloc: Global,
    reader: &mut R,
    place: &mut Place,
    is_first: bool,
    limits: Limits,
) -> Result<Option<Picture>, Refusal> {
    match place.next(reader, is_first)? {
        Some(begun) => Ok(Some(place.decode(alloc, begun, reader, limits)?)),
        None => Ok(None),
    }
}

impl<R: Read + Drop> Frames<R> {
    /// Returns the frames that a reader gives: of an AVI file, or else one after the other.
    pub fn new(mut reader: R, limits: Limits) -> Result<Frames<R>, FrameRefusal> {
        match layout_of(&mut reader) {
            Ok(Some(layout)) => Ok(Frames {
                reader,
                layout,
                limits,
            }),
            Ok(None) => Err(FrameRefusal::Riff),
            Err(error) => Err(FrameRefusal::Frame(1, Refusal::from(error))),
        }
    }

    /// Decodes the next frame, which has this number, if there is one. A stream without any is
    /// refused.
    pub fn next_frame(
        &mut self,
        alloc: Global,
        number: u64,
    ) -> Result<Option<Picture>, FrameRefusal> {
        let limits = self.limits;
        let frame = match &mut self.layout {
            Layout::Plain(read) => next_plain(alloc, &mut self.reader, read.take(), limits),
            Layout::Avi(place) => {
                next_in_avi(alloc, &mut self.reader, place, number == 1, limits)
            }
        };
        match frame {
            Ok(None) if number == 1 => Err(FrameRefusal::NoFrame),
            Ok(frame) => Ok(frame),
            Err(refusal) => Err(FrameRefusal::Frame(number, refusal)),
        }
    }
}

/// Returns how the frames of a stream stand, unless it begins like a RIFF file but is not an AVI
/// file.
fn layout_of<R: Read>(reader: &mut R) -> io::Result<Option<Layout>> {
    let mut first = [0u8];
    if reader.read(&mut first)? == 0 {
        return Ok(Some(Layout::Plain(None)));
    }
    if first[0] != b'R' {
        return Ok(Some(Layout::Plain(Some(first[0]))));
    }
    Ok(if is_avi(reader)? {
        Some(Layout::Avi(Place::new()))
    } else {
        None
    })
}
