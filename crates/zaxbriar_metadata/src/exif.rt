//! Exif data in several segments, and the thumbnail in Exif data (Exif 2.32, 4.5).
ghost use Rattle.std.specs.Prelude.{◌≡◌, IfOk, MatchOption, Some, [], option_map};
ghost use Rattle.std.specs.Option.{option_copied};
ghost use Rattle.jpeg_orientation.specs.Tiff.{entries_in, second_directory};
ghost use Rattle.zaxbriar_metadata.specs.Exif.{number_of, part_of, thumbnail_in, with_exif};

use jpeg_orientation::tiff::{directory_at, entry_of, long_at, next_of, number_in, order_of};
use std::alloc::AllocError;

/// The tag of a thumbnail's offset: JPEGInterchangeFormat.
const OFFSET: u16 = 0x0201;

/// The tag of a thumbnail's size: JPEGInterchangeFormatLength.
const SIZE: u16 = 0x0202;

/// Returns the Exif data of some segments and one more, by those of the segments before it: one
/// that begins with a TIFF header begins them anew, and another one continues them. The only error
/// is that memory runs out.
#[tactic(auto, unfolding(crate::specs::Exif::with_exif))]
pub fn join_exif(before: Option<Vec<u8>>, segment: Vec<u8>) -> Result<Vec<u8>, AllocError>
    ensures { IfOk result (λ exif. with_exif (option_map (λ v. v.items) before) segment.items
        ≡ Some exif.items) }
{
    match before {
        Some(mut exif) if order_of(segment.as_slice()).is_none() => {
            exif.extend_from_slice(segment.as_slice())?;
            Ok(exif)
        }
        _ => Ok(segment),
    }
}

/// Returns the number of the second directory's entries and the bytes that begin with them, if
/// there is one.
#[tactic(auto, using(crate::proofs::Rules::directories))]
fn second_directory(exif: &[u8], is_little: bool) -> Option<(u16, &[u8])>
    ensures { MatchOption result (second_directory is_little exif.now ≡ [])
        (λ d. entries_in d.0 d.1.now ≡ second_directory is_little exif.now) }
{
    let offset = long_at(exif, 4, is_little)?;
    let (_, directory) = exif.split_at_checked(offset as usize)?;
    let next = next_of(directory, is_little);
    if next == 0 {
        return None;
    }
    directory_at(exif, next, is_little)
}

/// Returns the number that the first entry of a tag in the second directory is.
#[tactic(auto, unfolding(crate::specs::Exif::number_of))]
fn number_of(exif: &[u8], tag: u16, is_little: bool) -> Option<u32>
    ensures { result ≡ number_of is_little tag (second_directory is_little exif.now) }
{
    let (count, entries) = second_directory(exif, is_little)?;
    let entry = entry_of(entries, count, tag, is_little)?;
    number_in(entry, is_little)
}

/// Returns so many bytes at an offset, if all are there and there is one.
#[tactic(auto, using(crate::proofs::Rules::parts))]
fn part_of(exif: &[u8], offset: u32, size: u32) -> Option<&[u8]>
    ensures { option_copied result ≡ part_of (Some offset) (Some size) exif.now }
{
    let (_, rest) = exif.split_at_checked(offset as usize)?;
    let (part, _) = rest.split_at_checked(size as usize)?;
    if part.is_empty() { None } else { Some(part) }
}

/// Returns the thumbnail in Exif data, which begin at their TIFF header: a JPEG stream as a rule,
/// whose place in the data is in their second directory.
#[tactic(auto, unfolding(crate::specs::Exif::thumbnail_in, crate::specs::Exif::part_of))]
pub fn thumbnail_of(exif: &[u8]) -> Option<&[u8]>
    ensures { option_copied result ≡ thumbnail_in exif.now }
{
    let is_little = order_of(exif)?;
    let offset = number_of(exif, OFFSET, is_little)?;
    let size = number_of(exif, SIZE, is_little)?;
    part_of(exif, offset, size)
}
