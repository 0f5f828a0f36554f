//! What stands in a stream beside its picture, as its segments give it.

use crate::kinds::Kind;
use jpeg_orientation::orientation_of;
use jpeg_segments::parser::IccChunk;
use std::alloc::{AllocError, Global};
use zaxbriar_metadata::collected::Collected;

/// The name of a segment with a part of an ICC profile.
const PROFILE: &[u8] = b"ICC_PROFILE\0";

/// The data of the segments so far, and the parts of an ICC profile among them.
#[derive(Drop)]
pub struct Metadata {
    collected: Collected,
    profile: Vec<IccChunk>,
}

/// How many bytes there are of each kind of data, and the orientation.
#[derive(Clone, Copy)]
pub struct Sizes {
    /// Of the parts of an ICC profile.
    pub icc: Option<usize>,
    /// Of Exif data.
    pub exif: Option<usize>,
    /// The orientation that the Exif data give.
    pub orientation: Option<u8>,
    /// Of the thumbnail in the Exif data.
    pub thumbnail: Option<usize>,
    /// Of XMP data.
    pub xmp: Option<usize>,
    /// Of the extended XMP data that these name.
    pub extended_xmp: Option<usize>,
    /// Of IPTC data.
    pub iptc: Option<usize>,
}

/// Returns how many bytes there are, if there are any data.
fn size_of(bytes: Option<&[u8]>) -> Option<usize> {
    match bytes {
        Some(bytes) => Some(bytes.len()),
        None => None,
    }
}

impl Metadata {
    /// Returns the data before any segment.
    pub fn new(alloc: Global) -> Metadata {
        Metadata {
            collected: Collected::new(alloc),
            profile: Vec::new(alloc),
        }
    }

    /// Adds what the segment APP2 says: a part of a profile, of at least one byte.
    fn add_application_2(&mut self, alloc: Global, segment: &[u8]) -> Result<(), AllocError> {
        if let Some(bytes) = segment.strip_prefix(PROFILE) {
            if bytes.len() > 2 {
                self.profile.push(IccChunk {
                    seq_no: bytes[0],
                    num_markers: bytes[1],
                    bytes: Vec::from_slice(alloc, &bytes[2..])?,
                })?;
            }
        }
        Ok(())
    }

    /// Adds what the segment of an application says, without its marker `APP(number)` and length.
    pub fn add(&mut self, alloc: Global, number: u8, segment: &[u8]) -> Result<(), AllocError> {
        match number {
            2 => self.add_application_2(alloc, segment),
            _ => self.collected.add(alloc, number, segment),
        }
    }

    /// Returns the extended XMP data that the main packet names, if all its parts are there.
    pub fn extended_xmp(&self, alloc: Global) -> Result<Option<Vec<u8>>, AllocError> {
        self.collected.extended_xmp(alloc)
    }

    /// Returns the parts of an ICC profile, in the order of the stream.
    pub fn profile_parts(&self) -> &[IccChunk] {
        self.profile.as_slice()
    }

    /// Returns data of a kind that isn't made of parts.
    pub fn kept(&self, kind: Kind) -> Option<&[u8]> {
        match kind {
            Kind::Exif => self.collected.exif(),
            Kind::Thumbnail => self.collected.thumbnail(),
            Kind::Xmp => self.collected.xmp(),
            Kind::Iptc => self.collected.iptc(),
            Kind::ExtendedXmp | Kind::Icc => None,
        }
    }

    /// Returns how many bytes the parts of an ICC profile have.
    fn profile_size(&self) -> Option<usize> {
        let mut size = None;
        for part in &self.profile {
            size = Some(size.unwrap_or(0_usize).saturating_add(part.bytes.len()));
        }
        size
    }

    /// Returns how many bytes there are of each kind of data. The only error is that memory runs
    /// out.
    pub fn sizes(&self, alloc: Global) -> Result<Sizes, AllocError> {
        let extended_xmp = self.extended_xmp(alloc)?;
        let orientation = match self.collected.exif() {
            Some(exif) => orientation_of(exif),
            None => None,
        };
        Ok(Sizes {
            icc: self.profile_size(),
            exif: size_of(self.collected.exif()),
            orientation,
            thumbnail: size_of(self.collected.thumbnail()),
            xmp: size_of(self.collected.xmp()),
            extended_xmp: size_of(extended_xmp.as_deref()),
            iptc: size_of(self.collected.iptc()),
        })
    }
}
