//! Extended XMP (XMP Specification, part 3, 1.1.3.1): packets above the size of a segment.
ghost use Rattle.std.specs.Prelude.{◌≡◌, ◌==◌, ◌&&◌, ◌||◌, [], IfOk, codes, filter, length};
ghost use Rattle.std.specs.Prelude.{false, map, not, option_map};
ghost use Rattle.std.specs.List.{find, list_all};
ghost use Rattle.std.specs.Option.{option_copied};
ghost use Rattle.jpeg_orientation.specs.Tiff.{number_at};
ghost use Rattle.zaxbriar_metadata.specs.Xmp.{after, all_name, extended_xmp, extension, guid_in};
ghost use Rattle.zaxbriar_metadata.specs.Xmp.{is_mark, is_of, joined, part_at, value_of};

use jpeg_orientation::tiff::long_at;
use std::alloc::{AllocError, Global};

/// The name of the GUID in a main packet.
const NAME: &[u8] = b"xmpNote:HasExtendedXMP";

/// How many digits a GUID has.
const GUID_BYTES: usize = 32;

/// How many bytes of a part there are before those of the packet: the GUID, the length of the whole
/// and the part's offset.
const HEAD_BYTES: usize = 40;

/// How many parts an extension may have. Joining them takes a look at each for each of them.
const MOST_PARTS: usize = 4096;

/// Returns the bytes after the name of the GUID.
#[tactic(auto, using(crate::proofs::Rules::names))]
fn after_name(packet: &[u8]) -> Option<&[u8]>
    ensures { option_copied result ≡ after (codes "xmpNote:HasExtendedXMP") packet.now }
{
    let mut rest = packet;
    for _ in 0..packet.len() {
        if rest.starts_with(NAME) {
            let (_, after) = rest.split_at_checked(NAME.len())?;
            return Some(after);
        }
        let (_, later) = rest.split_at_checked(1)?;
        rest = later;
    }
    None
}

/// Returns whether a byte is a quotation mark, an apostrophe or an angle bracket.
fn is_mark(byte: u8) -> bool
    ensures { result ≡ is_mark byte }
{
    byte == b'"' || (byte == b'\'' || byte == b'>')
}

/// Returns the bytes after the next mark.
#[tactic(auto, using(crate::proofs::Rules::values))]
fn value_of(bytes: &[u8]) -> &[u8]
    ensures { result.now ≡ value_of bytes.now }
{
    let mut rest = bytes;
    for _ in 0..bytes.len() {
        let Some((&first, later)) = rest.split_first() else {
            return rest;
        };
        rest = later;
        if is_mark(first) {
            return rest;
        }
    }
    rest
}

/// Returns the GUID of the extension that a main packet names.
#[tactic(auto, unfolding(crate::specs::Xmp::guid_in))]
fn guid_in(packet: &[u8]) -> Option<&[u8]>
    ensures { option_copied result ≡ guid_in packet.now }
{
    let value = value_of(after_name(packet)?);
    let (guid, _) = value.split_at_checked(GUID_BYTES)?;
    Some(guid)
}

/// Returns whether a part, of at least one byte, is of a GUID.
fn is_of(part: &[u8], guid: &[u8]) -> bool
    ensures { result ≡ is_of guid.now part.now }
{
    part.len() > HEAD_BYTES && part.starts_with(guid)
}

/// Returns whether a part is of a GUID and begins at an offset.
fn is_at(part: &[u8], guid: &[u8], offset: usize) -> bool
    ensures { result ≡ (is_of guid.now part.now && number_at false 36 4 part.now == offset) }
{
    is_of(part, guid)
        && match long_at(part, 36, false) {
            Some(number) => number as usize == offset,
            None => false,
        }
}

/// Returns whether a part isn't of a GUID, or names a length of the whole.
fn names(part: &[u8], guid: &[u8], size: usize) -> bool
    ensures { result ≡ (not (is_of guid.now part.now) || number_at false 32 4 part.now == size) }
{
    !is_of(part, guid)
        || match long_at(part, 32, false) {
            Some(number) => number as usize == size,
            None => false,
        }
}

/// Returns the first of several parts that is of a GUID and begins at an offset.
fn first_at<'a>(parts: &'a [Vec<u8>], guid: &[u8], offset: usize) -> Option<&'a Vec<u8>>
    ensures { option_copied result ≡ find (λ part. is_of guid.now part.items
        && number_at false 36 4 part.items == offset) parts.now }
{
    parts
        .iter()
        .find(|part| is_at(part.as_slice(), guid, offset))
}

/// Returns the first part of a GUID that begins at an offset.
fn part_at<'a>(parts: &'a [Vec<u8>], guid: &[u8], offset: usize) -> Option<&'a [u8]>
    ensures { option_copied result
        ≡ part_at guid.now offset (map (λ part. part.items) parts.now) }
{
    match first_at(parts, guid, offset) {
        Some(part) => Some(part.as_slice()),
        None => None,
    }
}

/// Returns how many parts are of a GUID.
fn count_of(parts: &[Vec<u8>], guid: &[u8]) -> usize
    ensures { result ≡ length (filter (is_of guid.now) (map (λ part. part.items) parts.now)) }
{
    let mut count = 0;
    for index in 0..parts.len() {
        if is_of(parts[index].as_slice(), guid) {
            count += 1;
        }
    }
    count
}

/// Returns whether each part names a length of the whole, or isn't of a GUID.
fn each_names(parts: &[Vec<u8>], guid: &[u8], size: usize) -> bool
    ensures { result ≡ list_all (λ part. not (is_of guid.now part.items)
        || number_at false 32 4 part.items == size) parts.now }
{
    parts.iter().all(|part| names(part.as_slice(), guid, size))
}

/// Returns whether each part of a GUID names a length of the whole.
fn all_name(parts: &[Vec<u8>], guid: &[u8], size: usize) -> bool
    ensures { result ≡ all_name guid.now size (map (λ part. part.items) parts.now) }
{
    each_names(parts, guid, size)
}

/// Returns so many parts of a GUID, each of which begins where those before it end.
#[tactic(auto, using(crate::proofs::Rules::joins))]
fn joined(
    alloc: Global,
    parts: &[Vec<u8>],
    guid: &[u8],
    count: usize,
) -> Result<Option<Vec<u8>>, AllocError>
    ensures { IfOk result (λ whole. option_map (λ v. v.items) whole
        ≡ joined count [] guid.now (map (λ part. part.items) parts.now)) }
{
    let mut whole = Vec::new(alloc);
    for _ in 0..count {
        let Some(part) = part_at(parts, guid, whole.len()) else {
            return Ok(None);
        };
        let Some((_, bytes)) = part.split_at_checked(HEAD_BYTES) else {
            return Ok(None);
        };
        whole.extend_from_slice(bytes)?;
    }
    Ok(Some(whole))
}

/// Returns the extension of a GUID.
#[tactic(auto, unfolding(crate::specs::Xmp::extension))]
fn extension(alloc: Global, parts: &[Vec<u8>], guid: &[u8]) -> Result<Option<Vec<u8>>, AllocError>
    ensures { IfOk result (λ whole. option_map (λ v. v.items) whole
        ≡ extension guid.now (map (λ part. part.items) parts.now)) }
{
    match joined(alloc, parts, guid, count_of(parts, guid))? {
        Some(whole) if !whole.is_empty() && all_name(parts, guid, whole.len()) => Ok(Some(whole)),
        _ => Ok(None),
    }
}

/// Returns the extension that a main packet names, joined from its parts, whose order is any: none
/// if a byte is missing or is there twice, if the parts don't agree on the length, or if there are
/// more than 4,096 of any extension. The only error is that memory runs out.
#[tactic(auto, unfolding(crate::specs::Xmp::extended_xmp))]
pub fn extended_xmp(
    alloc: Global,
    packet: &[u8],
    parts: &[Vec<u8>],
) -> Result<Option<Vec<u8>>, AllocError>
    ensures { IfOk result (λ whole. option_map (λ v. v.items) whole
        ≡ extended_xmp packet.now (map (λ part. part.items) parts.now)) }
{
    match guid_in(packet) {
        Some(guid) if parts.len() <= MOST_PARTS => extension(alloc, parts, guid),
        _ => Ok(None),
    }
}
