//! The data of a stream's segments, collected one segment after the other.
ghost use Rattle.std.specs.Prelude.{◌≡◌, ◌∷◌, ◌++◌, [], IfOk, OnOk, Some, option_map};
ghost use Rattle.std.specs.Option.{option_copied};
ghost use Rattle.zaxbriar_metadata.specs.Collected.{extension_of, iptc_of, nothing, thumbnail_of};
ghost use Rattle.zaxbriar_metadata.specs.Collected.{with_segment};
ghost use Rattle.zaxbriar_metadata.specs.CollectedView.{bytes_in, collection_in, parts_in};
ghost use Rattle.zaxbriar_metadata.specs.Exif.{with_exif};

use crate::exif::{join_exif, thumbnail_of};
use crate::photoshop::iptc_of;
use crate::xmp::extended_xmp;
use std::alloc::{AllocError, Global};

/// The name of a segment with Exif data.
const EXIF: &[u8] = b"Exif\0\0";

/// The name of a segment with XMP data.
const XMP: &[u8] = b"http://ns.adobe.com/xap/1.0/\0";

/// The name of a segment with a part of extended XMP data.
const EXTENSION: &[u8] = b"http://ns.adobe.com/xmp/extension/\0";

/// The name of a segment with image resources.
const PHOTOSHOP: &[u8] = b"Photoshop 3.0\0";

/// What the segments of a stream have brought so far: Exif data joined from their segments, the
/// last XMP data, the parts of extended XMP data, and image resources.
#[derive(Drop)]
pub struct Collected {
    exif: Option<Vec<u8>>,
    xmp: Option<Vec<u8>>,
    extensions: Vec<Vec<u8>>,
    resources: Vec<u8>,
}

/// Continues Exif data by those of one more segment, or begins them anew.
fn put_exif(alloc: Global, exif: &mut Option<Vec<u8>>, segment: &[u8]) -> Result<(), AllocError>
    ensures { OnOk result (bytes_in exif.new ≡ with_exif (bytes_in exif.old) segment.now) }
{
    let bytes = Vec::from_slice(alloc, segment)?;
    *exif = Some(join_exif(exif.take(), bytes)?);
    Ok(())
}

/// Puts the XMP data of one more segment in place of those before.
fn put_xmp(alloc: Global, xmp: &mut Option<Vec<u8>>, segment: &[u8]) -> Result<(), AllocError>
    ensures { OnOk result (bytes_in xmp.new ≡ Some segment.now) }
{
    *xmp = Some(Vec::from_slice(alloc, segment)?);
    Ok(())
}

/// Appends one more part of extended XMP data.
fn put_extension(alloc: Global, parts: &mut Vec<Vec<u8>>, segment: &[u8]) -> Result<(), AllocError>
    ensures { OnOk result (parts_in parts.new.items
        ≡ parts_in parts.old.items ++ (segment.now ∷ [])) }
{
    let part = Vec::from_slice(alloc, segment)?;
    parts.push(part)?;
    Ok(())
}

/// Adds what a segment APP1 says: Exif data, XMP data or a part of extended XMP data.
#[tactic(auto, unfolding(crate::specs::Collected::with_segment))]
fn add_application_1(
    alloc: Global,
    collected: &mut Collected,
    segment: &[u8],
) -> Result<(), AllocError>
    ensures { OnOk result (collection_in collected.new
        ≡ with_segment (collection_in collected.old) (1, segment.now)) }
{
    if segment.starts_with(EXIF) {
        put_exif(alloc, &mut collected.exif, &segment[EXIF.len()..])?;
    } else if segment.starts_with(XMP) {
        put_xmp(alloc, &mut collected.xmp, &segment[XMP.len()..])?;
    } else if segment.starts_with(EXTENSION) {
        put_extension(
            alloc,
            &mut collected.extensions,
            &segment[EXTENSION.len()..],
        )?;
    }
    Ok(())
}

/// Adds what a segment APP13 says: image resources.
#[tactic(auto, unfolding(crate::specs::Collected::with_segment))]
fn add_application_13(collected: &mut Collected, segment: &[u8]) -> Result<(), AllocError>
    ensures { OnOk result (collection_in collected.new
        ≡ with_segment (collection_in collected.old) (13, segment.now)) }
{
    if segment.starts_with(PHOTOSHOP) {
        collected
            .resources
            .extend_from_slice(&segment[PHOTOSHOP.len()..])?;
    }
    Ok(())
}

impl Collected {
    /// Returns what there is before the first segment: nothing.
    pub fn new(alloc: Global) -> Collected
        ensures { collection_in result ≡ nothing }
    {
        Collected {
            exif: None,
            xmp: None,
            extensions: Vec::new(alloc),
            resources: Vec::new(alloc),
        }
    }

    /// Adds what the segment of an application says, by the number in its marker `APP(number)` and
    /// its bytes after the length field. The only error is that memory runs out; then what was
    /// collected before may be lost.
    #[tactic(auto, using(crate::proofs::Rules::others))]
    pub fn add(&mut self, alloc: Global, number: u8, segment: &[u8]) -> Result<(), AllocError>
        ensures { OnOk result (collection_in self.new
            ≡ with_segment (collection_in self.old) (number, segment.now)) }
    {
        match number {
            1 => add_application_1(alloc, self, segment),
            13 => add_application_13(self, segment),
            _ => Ok(()),
        }
    }

    /// Returns the Exif data, from their TIFF header on, joined from the last segment that begins
    /// with such a header and those after it that continue it.
    pub fn exif(&self) -> Option<&[u8]>
        ensures { option_copied result ≡ (collection_in self.now).exif }
    {
        match &self.exif {
            Some(bytes) => Some(bytes.as_slice()),
            None => None,
        }
    }

    /// Returns the XMP data of the last segment that has some: the main packet.
    pub fn xmp(&self) -> Option<&[u8]>
        ensures { option_copied result ≡ (collection_in self.now).xmp }
    {
        match &self.xmp {
            Some(bytes) => Some(bytes.as_slice()),
            None => None,
        }
    }

    /// Returns the thumbnail in the Exif data: a JPEG stream as a rule.
    pub fn thumbnail(&self) -> Option<&[u8]>
        ensures { option_copied result ≡ thumbnail_of (collection_in self.now) }
    {
        thumbnail_of(self.exif()?)
    }

    /// Returns the extended XMP data that the main packet names, joined from their parts, if all of
    /// them are there. The only error is that memory runs out.
    pub fn extended_xmp(&self, alloc: Global) -> Result<Option<Vec<u8>>, AllocError>
        ensures { IfOk result (λ whole. option_map (λ v. v.items) whole
            ≡ extension_of (collection_in self.now)) }
    {
        match self.xmp() {
            Some(packet) => extended_xmp(alloc, packet, self.extensions.as_slice()),
            None => Ok(None),
        }
    }

    /// Returns the IPTC data among the image resources.
    pub fn iptc(&self) -> Option<&[u8]>
        ensures { option_copied result ≡ iptc_of (collection_in self.now) }
    {
        iptc_of(self.resources.as_slice())
    }
}
