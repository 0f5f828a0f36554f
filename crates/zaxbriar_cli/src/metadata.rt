//! What stands in a stream beside its picture, by kinds.

use jpeg_decoder::error::Result;
use jpeg_decoder::join_profile;
use std::alloc::Global;
use std::io::Write;
use zaxbriar_files::kinds::Kind;
use zaxbriar_files::metadata::Metadata;

/// Returns data of a kind that is made of parts, if all its parts are there.
fn joined(alloc: Global, metadata: &Metadata, kind: Kind) -> Result<Option<Vec<u8>>> {
    match kind {
        Kind::ExtendedXmp => Ok(metadata.extended_xmp(alloc)?),
        Kind::Icc => join_profile(alloc, metadata.profile_parts()),
        Kind::Exif | Kind::Thumbnail | Kind::Xmp | Kind::Iptc => Ok(None),
    }
}

/// Returns whether there are data of a kind.
pub fn has_data(alloc: Global, metadata: &Metadata, kind: Kind) -> Result<bool> {
    Ok(metadata.kept(kind).is_some() || joined(alloc, metadata, kind)?.is_some())
}

/// Writes data of a kind, and returns whether there are any.
pub fn write_data<W: Write>(
    alloc: Global,
    metadata: &Metadata,
    kind: Kind,
    writer: &mut W,
) -> Result<bool> {
    if let Some(bytes) = metadata.kept(kind) {
        writer.write_all(bytes)?;
        return Ok(true);
    }
    match joined(alloc, metadata, kind)? {
        Some(bytes) => {
            writer.write_all(bytes.as_slice())?;
            Ok(true)
        }
        None => Ok(false),
    }
}
