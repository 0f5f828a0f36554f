//! What the segments of applications have said.
ghost use Rattle.std.specs.Prelude.{◌≡◌, IfOk, map};
ghost use Rattle.jpeg_segments.specs.FrameView.{chunk_in};

use crate::copies::copied_list;
use jpeg_bits::error::Result;
use jpeg_segments::parser::{AdobeColorTransform, AppData, IccChunk};
use std::alloc::{AllocError, Global};

/// What the segments of applications have said: whether JFIF or an MJPEG frame was named, and the
/// last Adobe transform, Exif, XMP and Photoshop data; parts of ICC profiles add up.
#[derive(Drop)]
pub struct Metadata {
    /// Whether the stream is a JFIF file.
    pub jfif: bool,
    /// Whether the stream is a frame of an MJPEG stream.
    pub avi1: bool,
    /// The transform that the last Adobe segment named.
    pub adobe: Option<AdobeColorTransform>,
    /// The last Exif data.
    pub exif: Option<Vec<u8>>,
    /// The last XMP data.
    pub xmp: Option<Vec<u8>>,
    /// The last image resources of Photoshop.
    pub psir: Option<Vec<u8>>,
    /// The parts of ICC profiles, in the order of the stream.
    pub icc: Vec<IccChunk>,
}

/// Copies the parts of ICC profiles.
fn copied_chunks(
    alloc: Global,
    chunks: &[IccChunk],
) -> std::result::Result<Vec<IccChunk>, AllocError>
    ensures { IfOk result (λ v. map chunk_in v.items ≡ map chunk_in chunks.now) }
{
    let mut copies = Vec::with_capacity(alloc, chunks.len())?;
    for chunk in chunks {
        copies.push(chunk.copied(alloc)?)?;
    }
    Ok(copies)
}

impl Metadata {
    ghost use Rattle.std.specs.Prelude.{◌≡◌, IfOk, MatchResult, option_map};
    ghost use Rattle.jpeg_bits.specs.declared.error.Error.TheVariants.{OutOfMemory};
    ghost use Rattle.jpeg_segments.specs.FrameView.{application_in};
    ghost use Rattle.jpeg_meaning.specs.Segments.{with_application};
    ghost use Rattle.jpeg_meaning.specs.Found.{no_metadata};
    ghost use Rattle.jpeg_decoder.specs.Seen.{metadata_in};

    /// Makes the state in which nothing has been said.
    pub fn new(alloc: Global) -> Metadata
        ensures { metadata_in result ≡ no_metadata }
    {
        Metadata {
            jfif: false,
            avi1: false,
            adobe: None,
            exif: None,
            xmp: None,
            psir: None,
            icc: Vec::new(alloc),
        }
    }

    /// Copies all of it. The only error is a refused allocation.
    pub fn copied(&self, alloc: Global) -> std::result::Result<Metadata, AllocError>
        ensures { IfOk result (λ m. metadata_in m ≡ metadata_in self.now) }
    {
        Ok(Metadata {
            jfif: self.jfif,
            avi1: self.avi1,
            adobe: self.adobe,
            exif: copied_list(alloc, &self.exif)?,
            xmp: copied_list(alloc, &self.xmp)?,
            psir: copied_list(alloc, &self.psir)?,
            icc: copied_chunks(alloc, &self.icc)?,
        })
    }

    /// Adds what the segment of an application says. If memory runs out, nothing changes.
    pub fn add(&mut self, said: Option<AppData>) -> Result<()>
        ensures { MatchResult result (λ _. metadata_in self.new
            ≡ with_application (metadata_in self.old) (option_map application_in said)) (λ e. (e
            ≡ OutOfMemory) × (metadata_in self.new ≡ metadata_in self.old)) }
    {
        match said {
            None => {}
            Some(AppData::Adobe(transform)) => self.adobe = Some(transform),
            Some(AppData::Jfif) => self.jfif = true,
            Some(AppData::Avi1) => self.avi1 = true,
            Some(AppData::Icc(chunk)) => self.icc.push(chunk)?,
            Some(AppData::Exif(bytes)) => self.exif = Some(bytes),
            Some(AppData::Xmp(bytes)) => self.xmp = Some(bytes),
            Some(AppData::Psir(bytes)) => self.psir = Some(bytes),
        }
        Ok(())
    }
}
