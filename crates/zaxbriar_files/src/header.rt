//! What the segments of a stream say up to its first scan.

use crate::metadata::{Metadata, Sizes};
use crate::multi_picture::{Index, index_in};
use jpeg_bits::error::{Error, Result, format_error_of};
use jpeg_bits::marker::{Marker, read_marker};
use jpeg_bits::source::Source;
use jpeg_bits::source::reads::{read_bytes, read_length, read_u16_be, skip};
use jpeg_segments::parser::{
    AdobeColorTransform, AppData, FrameInfo, parse_app, parse_com, parse_dri, parse_sof,
};
use std::alloc::Global;
use std::io::{ErrorKind, Read, Take};

/// The marker SOI.
const START: u16 = 0xffd8;

/// How many pixels a JFIF segment says that a length has.
#[derive(Clone, Copy)]
pub struct Density {
    /// The length.
    pub unit: Unit,
    /// How many pixels it has across.
    pub across: u16,
    /// How many it has down.
    pub down: u16,
}

/// A length by which pixels are counted (JFIF 1.02).
#[derive(Clone, Copy)]
pub enum Unit {
    /// None: the two numbers are the ratio of a pixel's sides.
    Ratio,
    /// An inch.
    Inch,
    /// A centimetre.
    Centimetre,
}

/// What the segments of a stream say up to its first scan. If data occur more than once, the last
/// counts, and of comments the first; Exif data may be those of several segments.
#[derive(Drop)]
pub struct Header {
    /// The frame header.
    pub frame: FrameInfo,
    /// How many MCUs a restart interval has: 0 if there are no restarts.
    pub restart_interval: u16,
    /// The colours that a segment names.
    pub colours: NamedColours,
    /// The density that a JFIF segment names.
    pub density: Option<Density>,
    /// The first comment.
    pub comment: Option<Vec<u8>>,
    /// What stands there beside the picture.
    pub data: Sizes,
    /// The index of the file's images.
    pub images: Option<Index>,
}

/// What the segments say about colours.
#[derive(Clone, Copy)]
pub struct NamedColours {
    /// Whether there is a JFIF segment.
    pub is_jfif: bool,
    /// The transform that Adobe's segment names.
    pub adobe: Option<AdobeColorTransform>,
}

impl Unit {
    /// Returns the unit that a JFIF segment has this number for.
    fn of(number: u8) -> Option<Unit> {
        match number {
            0 => Some(Unit::Ratio),
            1 => Some(Unit::Inch),
            2 => Some(Unit::Centimetre),
            _ => None,
        }
    }
}

/// Returns the density in a JFIF segment, without its marker and length: its name of five bytes,
/// its version of two, the unit, and two numbers of two bytes each.
fn density_in(segment: &[u8]) -> Option<Density> {
    if !segment.starts_with(b"JFIF\0") {
        return None;
    }
    let &[_, _, _, _, _, _, _, unit, a, b, c, d, ..] = segment else {
        return None;
    };
    Some(Density {
        unit: Unit::of(unit)?,
        across: u16::from_be_bytes([a, b]),
        down: u16::from_be_bytes([c, d]),
    })
}

/// Reads a segment with a length, of which nothing is said.
fn skip_segment<R: Read + Drop>(alloc: Global, source: &mut Source<R>) -> Result<()> {
    let length = read_length(alloc, source)?;
    skip(alloc, source, length)
}

/// Returns the source of a reader, which counts its bytes.
fn source_of<R: Read + Drop>(reader: R) -> Source<Take<R>> {
    Source::new(reader.take(u64::MAX))
}

/// Returns how many bytes were read of a source that may read `u64::MAX` of them.
fn position_of<R: Read + Drop>(source: &Source<Take<R>>) -> u64 {
    let (_, reader) = source.rest();
    u64::MAX - reader.limit()
}

/// What the segments have said so far.
#[derive(Drop)]
struct Found {
    frame: Option<FrameInfo>,
    restart_interval: u16,
    colours: NamedColours,
    density: Option<Density>,
    comment: Option<Vec<u8>>,
    metadata: Metadata,
    images: Option<Index>,
}

impl Found {
    /// Returns what was found before anything was read.
    fn nothing(alloc: Global) -> Found {
        Found {
            frame: None,
            restart_interval: 0,
            colours: NamedColours {
                is_jfif: false,
                adobe: None,
            },
            density: None,
            comment: None,
            metadata: Metadata::new(alloc),
            images: None,
        }
    }

    /// Adds what the segment APP0 says.
    fn add_application_0(&mut self, segment: &[u8]) {
        if segment.starts_with(b"JFIF\0") {
            self.colours.is_jfif = true;
        }
        if self.density.is_none() {
            self.density = density_in(segment);
        }
    }

    /// Adds the index of the file's images that the segment APP2 may have, whose bytes after its
    /// length begin at the offset `start` in the file.
    fn add_images(&mut self, alloc: Global, segment: &[u8], start: u64) -> Result<()> {
        if let Some(bytes) = segment.strip_prefix(b"MPF\0") {
            if let Some(index) = index_in(alloc, bytes, start.saturating_add(4))? {
                self.images = Some(index);
            }
        }
        Ok(())
    }

    /// Reads the segment of Adobe, which names a transform, if it is one.
    fn read_adobe<R: Read + Drop>(
        &mut self,
        alloc: Global,
        source: &mut Source<R>,
        marker: Marker,
    ) -> Result<()> {
        if let Some(AppData::Adobe(transform)) = parse_app(alloc, source, marker)? {
            self.colours.adobe = Some(transform);
        }
        Ok(())
    }

    /// Reads the segment of another application.
    fn read_application<R: Read + Drop>(
        &mut self,
        alloc: Global,
        source: &mut Source<Take<R>>,
        number: u8,
    ) -> Result<()> {
        let length = read_length(alloc, source)?;
        let start = position_of(source);
        let segment = read_bytes(alloc, source, length)?;
        match number {
            0 => self.add_application_0(segment.as_slice()),
            2 => self.add_images(alloc, segment.as_slice(), start)?,
            _ => {}
        }
        self.metadata.add(alloc, number, segment.as_slice())?;
        Ok(())
    }

    /// Reads a comment.
    fn read_comment<R: Read + Drop>(
        &mut self,
        alloc: Global,
        source: &mut Source<R>,
    ) -> Result<()> {
        let comment = parse_com(alloc, source)?;
        if self.comment.is_none() {
            self.comment = Some(comment);
        }
        Ok(())
    }

    /// Reads a frame header.
    fn read_frame<R: Read + Drop>(
        &mut self,
        alloc: Global,
        source: &mut Source<R>,
        marker: Marker,
    ) -> Result<()> {
        self.frame = Some(parse_sof(alloc, source, marker)?);
        Ok(())
    }

    /// Reads a restart interval.
    fn read_restart_interval<R: Read + Drop>(
        &mut self,
        alloc: Global,
        source: &mut Source<R>,
    ) -> Result<()> {
        self.restart_interval = parse_dri(alloc, source)?;
        Ok(())
    }

    /// Reads the segment after a marker.
    fn read_segment<R: Read + Drop>(
        &mut self,
        alloc: Global,
        source: &mut Source<Take<R>>,
        marker: Marker,
    ) -> Result<()> {
        match marker {
            Marker::SOF(_) => self.read_frame(alloc, source, marker),
            Marker::DRI => self.read_restart_interval(alloc, source),
            Marker::APP(14) => self.read_adobe(alloc, source, marker),
            Marker::APP(number) => self.read_application(alloc, source, number),
            Marker::COM => self.read_comment(alloc, source),
            _ if marker.has_length() => skip_segment(alloc, source),
            _ => Ok(()),
        }
    }

    /// Returns the header that was found before a marker.
    fn into_header(self, alloc: Global, marker: Marker) -> Result<Header> {
        let Found {
            frame,
            restart_interval,
            colours,
            density,
            comment,
            metadata,
            images,
        } = self;
        match frame {
            Some(frame) => Ok(Header {
                frame,
                restart_interval,
                colours,
                density,
                comment,
                data: metadata.sizes(alloc)?,
                images,
            }),
            None => Err(format_error_of(format!(in alloc; "found {marker}, expected SOFn"))),
        }
    }
}

/// Reads the marker SOI, with which a stream begins.
fn read_start<R: Read + Drop>(alloc: Global, source: &mut Source<R>) -> Result<()> {
    let start = read_u16_be(alloc, source)?;
    if start != START {
        return Err(format_error_of(format!(in alloc;
            "found {start:04X} at the start, expected SOI (FFD8)"
        )));
    }
    Ok(())
}

/// Reads segments up to the next scan, or up to the end of the image, and returns the marker there.
/// The data of a scan before them are passed over.
fn read_to_scan<R: Read + Drop>(
    alloc: Global,
    source: &mut Source<Take<R>>,
    found: &mut Found,
) -> Result<Marker> {
    for _ in 0..u64::MAX {
        let marker = read_marker(alloc, source)?;
        if matches!(marker, Marker::SOS | Marker::EOI) {
            return Ok(marker);
        }
        found.read_segment(alloc, source, marker)?;
    }
    Ok(Marker::EOI)
}

/// Reads the segments of a stream up to its first scan, or up to its end if it has none, and
/// returns the marker there.
fn read_segments<R: Read + Drop>(
    alloc: Global,
    source: &mut Source<Take<R>>,
    found: &mut Found,
) -> Result<Marker> {
    read_start(alloc, source)?;
    read_to_scan(alloc, source, found)
}

/// Returns whether an error is that the bytes end too soon.
fn is_end(error: &Error) -> bool {
    match error {
        Error::Io(error) => error.kind() == ErrorKind::UnexpectedEof,
        _ => false,
    }
}

/// Returns EOI in place of the error that the bytes end too soon, if a frame header was read: the
/// header is then described as far as it goes.
fn or_end(read: Result<Marker>, has_frame: bool) -> Result<Marker> {
    match read {
        Err(error) if has_frame && is_end(&error) => Ok(Marker::EOI),
        read => read,
    }
}

/// Reads the segments that the reader gives up to the first scan, and returns the marker there.
/// That is EOI where the bytes end after a frame header.
fn read_found<R: Read + Drop>(alloc: Global, reader: R, found: &mut Found) -> Result<Marker> {
    let mut source = source_of(reader);
    let read = read_segments(alloc, &mut source, found);
    or_end(read, found.frame.is_some())
}

/// Reads the segments of a stream up to its first scan, or up to its end if it has none. Bytes that
/// end after a frame header are described as far as they go.
pub fn read_header<R: Read + Drop>(alloc: Global, reader: R) -> Result<Header> {
    let mut found = Found::nothing(alloc);
    match read_found(alloc, reader, &mut found) {
        Ok(marker) => found.into_header(alloc, marker),
        Err(error) => Err(error),
    }
}

/// The segments of a stream that is read as far as it is needed, without decoding it.
#[derive(Drop)]
pub struct Segments<R: Read + Drop> {
    alloc: Global,
    source: Source<Take<R>>,
    found: Found,
    /// The marker that was read last.
    marker: Marker,
}

impl<R: Read + Drop> Segments<R> {
    /// Returns the segments of the stream that a reader gives. None of them has been read.
    pub fn new(alloc: Global, reader: R) -> Segments<R> {
        Segments {
            alloc,
            source: source_of(reader),
            found: Found::nothing(alloc),
            marker: Marker::SOI,
        }
    }

    /// Reads the segments up to the first scan, or up to the end of an image without scans.
    pub fn read_header(&mut self) -> Result<()> {
        self.marker = read_segments(self.alloc, &mut self.source, &mut self.found)?;
        Ok(())
    }

    /// Reads the other segments up to the end of the image, and passes over the data of its scans.
    pub fn read_rest(&mut self) -> Result<()> {
        for _ in 0..u64::MAX {
            if !matches!(self.marker, Marker::SOS) {
                return Ok(());
            }
            skip_segment(self.alloc, &mut self.source)?;
            self.marker = read_to_scan(self.alloc, &mut self.source, &mut self.found)?;
        }
        Ok(())
    }

    /// Returns the width and the height of the picture, if a frame header was read.
    pub fn size(&self) -> Option<(u16, u16)> {
        match &self.found.frame {
            Some(frame) => Some((frame.image_size.width, frame.image_size.height)),
            None => None,
        }
    }

    /// Returns what stands beside the picture in the segments that were read, also after an error.
    pub fn metadata(&self) -> &Metadata {
        &self.found.metadata
    }
}
