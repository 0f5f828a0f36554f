//! The index of a file of several images (MPO; CIPA DC-007, 5.2): a directory like those of TIFF
//! files, in the segment APP2 of the first image. It says where each image is.
ghost use Rattle.std.specs.Prelude.{◌≡◌, ◌≤◌, ◌*◌, ◌∷◌, [], IfOk, MatchOption, None, Some, drop};
ghost use Rattle.std.specs.Prelude.{false, length, option_map, take, true};
ghost use Rattle.jpeg_orientation.specs.Tiff.{entries_in, first_directory, number_at};
ghost use Rattle.zaxbriar_files.specs.MultiPicture.{describes, image_of, images_by, images_in};
ghost use Rattle.zaxbriar_files.specs.MultiPicture.{images_seen, index_in, index_of, is_index};
ghost use Rattle.zaxbriar_files.specs.MultiPicture.{is_whole, start_of};
ghost use Rattle.zaxbriar_files.specs.Worked.{worked_index};

use jpeg_orientation::tiff::{LONG, directory_at, entry_of, long_at, order_of, short_at};
use std::alloc::{AllocError, Global};

/// The tag of the number of images.
const NUMBER: u16 = 0xb001;

/// The tag of the table that has an entry for each image.
const TABLE: u16 = 0xb002;

/// The type of values that are bytes.
const UNDEFINED: u16 = 7;

/// How many bytes an entry of the table has.
const ENTRY_BYTES: usize = 16;

/// The bit of an image's attributes that says that it represents the others.
const REPRESENTATIVE: u32 = 0x2000_0000;

/// One more than the greatest type of an image, the lower three bytes of its attributes.
const KINDS: u32 = 0x0100_0000;

/// An image, as the index describes it.
#[derive(Clone, Copy)]
pub struct Image {
    /// What it is, a number of six hexadecimal digits: 030000 is a primary image.
    pub kind: u32,
    /// Whether it represents the others.
    pub is_representative: bool,
    /// The offset of its first byte in the file.
    pub start: u64,
    /// How many bytes it has.
    pub size: u32,
}

/// The index of a file of several images.
#[derive(Drop)]
pub enum Index {
    /// There is one, but it can't be read.
    Broken,
    /// It describes these images.
    Images(Vec<Image>),
}

/// Returns the offset in the file of an image whose offset is counted from `base` on, except where
/// it is 0, as that of the first image is: the beginning of the file.
fn start_of(base: u64, offset: u32) -> u64
    ensures { result ≡ start_of base offset }
{
    if offset == 0 {
        0
    } else {
        base.saturating_add(u64::from(offset))
    }
}

/// Returns the image that an entry of the table describes.
fn image_of(entry: &[u8], is_little: bool, base: u64) -> Image
    requires { length entry.now ≡ 16 }
    ensures { result ≡ image_of is_little base entry.now }
{
    let attributes = long_at(entry, 0, is_little).unwrap_or(0);
    let offset = long_at(entry, 8, is_little).unwrap_or(0);
    Image {
        kind: attributes % KINDS,
        is_representative: attributes / REPRESENTATIVE % 2 == 1,
        start: start_of(base, offset),
        size: long_at(entry, 4, is_little).unwrap_or(0),
    }
}

/// Returns the images of a table that has an entry for each of this many.
#[tactic(auto, using(crate::proofs::Rules::images))]
fn images_in(
    alloc: Global,
    table: &[u8],
    count: u32,
    is_little: bool,
    base: u64,
) -> Result<Vec<Image>, AllocError>
    requires { 16 * count ≤ length table.now }
    ensures { IfOk result (λ images. images.items ≡ images_in is_little base count table.now) }
{
    let mut images = Vec::new(alloc);
    let mut rest = table;
    for _ in 0..count {
        let (entry, others) = rest.split_at(ENTRY_BYTES);
        images.push(image_of(entry, is_little, base))?;
        rest = others;
    }
    Ok(images)
}

/// Returns the entries of the first directory and their number, if all of them are there.
#[tactic(auto, using(crate::proofs::Rules::directories))]
fn whole_directory(bytes: &[u8], is_little: bool) -> Option<(u16, &[u8])>
    ensures { MatchOption result (is_whole is_little bytes.now ≡ false) (λ d.
        (is_whole is_little bytes.now ≡ true)
        × (entries_in d.0 d.1.now ≡ first_directory is_little bytes.now)) }
{
    let offset = long_at(bytes, 4, is_little)?;
    let (count, entries) = directory_at(bytes, offset, is_little)?;
    if entries.len() < 12 * usize::from(count) {
        return None;
    }
    Some((count, entries))
}

/// Returns whether entries of these types and counts give this number of images, and a table of
/// them.
fn describes(kind: u16, count: u32, images: u32, table_kind: u16, table_count: u32) -> bool
    ensures { result ≡ describes kind count images table_kind table_count }
{
    kind == LONG
        && (count == 1
            && (images != 0
                && (table_kind == UNDEFINED && u64::from(table_count) == 16 * u64::from(images))))
}

/// Returns the number of images and the bytes from their table on, as the two entries of the
/// directory say.
#[tactic(auto, using(crate::proofs::Rules::tables))]
fn table_of<'a>(
    bytes: &'a [u8],
    number: &[u8],
    table: &[u8],
    is_little: bool,
) -> Option<(u32, &'a [u8])>
    requires number { length number.now ≡ 12 }
    requires table { length table.now ≡ 12 }
    ensures { MatchOption result (is_index is_little bytes.now number.now table.now ≡ false)
        (λ t. (is_index is_little bytes.now number.now table.now ≡ true)
        × (t.0 ≡ number_at is_little 8 4 number.now)
        × (t.1.now ≡ drop (number_at is_little 8 4 table.now) bytes.now)
        × (16 * t.0 ≤ length t.1.now)) }
{
    let images = long_at(number, 8, is_little)?;
    let (kind, count) = (
        short_at(number, 2, is_little)?,
        long_at(number, 4, is_little)?,
    );
    let (table_kind, size) = (
        short_at(table, 2, is_little)?,
        long_at(table, 4, is_little)?,
    );
    if !describes(kind, count, images, table_kind, size) {
        return None;
    }
    let offset = long_at(table, 8, is_little)?;
    let (_, entries) = bytes.split_at_checked(offset as usize)?;
    if entries.len() < size as usize {
        return None;
    }
    Some((images, entries))
}

/// Returns the index by the two entries of the directory, whose offsets are counted from `base` on.
#[tactic(auto, unfolding(crate::specs::MultiPicture::images_by))]
fn images_by(
    alloc: Global,
    bytes: &[u8],
    number: &[u8],
    table: &[u8],
    is_little: bool,
    base: u64,
) -> Result<Index, AllocError>
    requires number { length number.now ≡ 12 }
    requires table { length table.now ≡ 12 }
    ensures { IfOk result (λ index. images_seen index
        ≡ images_by is_little base bytes.now number.now table.now) }
{
    match table_of(bytes, number, table, is_little) {
        Some((count, table)) => Ok(Index::Images(images_in(alloc, table, count, is_little, base)?)),
        None => Ok(Index::Broken),
    }
}

/// Returns the index in bytes after their header, which is at `base` in the file.
#[tactic(auto, unfolding(crate::specs::MultiPicture::index_of, crate::specs::MultiPicture::index_by))]
fn index_of(
    alloc: Global,
    bytes: &[u8],
    is_little: bool,
    base: u64,
) -> Result<Option<Index>, AllocError>
    ensures { IfOk result (λ index. option_map images_seen index
        ≡ index_of is_little base bytes.now) }
{
    let Some((count, entries)) = whole_directory(bytes, is_little) else {
        return Ok(Some(Index::Broken));
    };
    let number = entry_of(entries, count, NUMBER, is_little);
    let table = entry_of(entries, count, TABLE, is_little);
    match (number, table) {
        (Some(number), Some(table)) => Ok(Some(images_by(
            alloc, bytes, number, table, is_little, base,
        )?)),
        (None, None) => Ok(None),
        _ => Ok(Some(Index::Broken)),
    }
}

/// Returns the index whose header begins these bytes, and stands at the offset `base` in the file.
/// There is none in the segment of another image than the first, whose directory describes that
/// image.
#[tactic(auto, unfolding(crate::specs::MultiPicture::index_in))]
pub fn index_in(alloc: Global, bytes: &[u8], base: u64) -> Result<Option<Index>, AllocError>
    ensures { IfOk result (λ index. option_map images_seen index ≡ index_in base bytes.now) }
{
    match order_of(bytes) {
        Some(is_little) => index_of(alloc, bytes, is_little, base),
        None => Ok(Some(Index::Broken)),
    }
}

/// An index of two images, of which the first represents the others, and stands at offset 100 in
/// the file. It is broken where its last byte or its header is missing; and a directory without
/// entries is no index.
#[tactic(auto, unfolding(crate::proofs::OnLiterals::indexes))]
pub fn known_index()
    ensures images { index_in 100 worked_index ≡ Some (Some (record {
      kind = 196608;
      is_representative = true;
      start = 0;
      size = 5;
    } ∷ record {
      kind = 131074;
      is_representative = false;
      start = 109;
      size = 7;
    } ∷ [])) }
    ensures broken { index_in 100 (take 69 worked_index) ∷ index_in 100 (drop 1 worked_index) ∷ []
        ≡ Some None ∷ Some None ∷ [] }
    ensures none { index_in 100 (73 ∷ 73 ∷ 42 ∷ 0 ∷ 8 ∷ 0 ∷ 0 ∷ 0 ∷ 0 ∷ 0 ∷ []) ≡ None }
{}
