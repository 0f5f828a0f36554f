//! The orientation given by Exif data (Exif 2.3, 4.6.4), the TIFF structures in which it is, and how
//! a picture is turned upright by it.
#![tactic(auto)]

ghost use Rattle.std.specs.Prelude.{◌≡◌, ◌≤◌, if◌then◌else◌};
ghost use Rattle.std.specs.Prelude.{IfSome, Some, None, length, true};
ghost use Rattle.jpeg_orientation.specs.Orientation.{is_orientation, is_orientation_by};
ghost use Rattle.jpeg_orientation.specs.Orientation.{orientation_among, orientation_in, value_by};
ghost use Rattle.jpeg_orientation.specs.Orientation.{value_of};
ghost use Rattle.jpeg_orientation.specs.Tiff.{entries_in, first_directory};

use crate::tiff::{SHORT, directory_at, long_at, order_of, short_at};

pub mod areas;
pub mod laws;
pub mod tiff;
pub mod turns;

/// The tag of the orientation.
const ORIENTATION: u16 = 0x0112;

/// The type of values of four bytes with a sign, which some writers use in place of `SHORT`.
const SLONG: u16 = 9;

/// Returns the value of an entry of this type.
fn value_at(entry: &[u8], kind: u16, is_little: bool) -> Option<u32>
    requires { length entry.now ≡ 12 }
    ensures { result ≡ Some (value_by is_little kind entry.now) }
{
    if kind == SLONG {
        return long_at(entry, 8, is_little);
    }
    match short_at(entry, 8, is_little) {
        Some(value) => Some(u32::from(value)),
        None => None,
    }
}

/// Returns whether an entry of this tag, type, count and value is an orientation.
fn is_orientation(tag: u16, kind: u16, count: u32, value: u32) -> bool
    ensures value { result ≡ is_orientation_by tag kind count value }
    ensures range { result ≡ true → (1 ≤ value) × (value ≤ 8) }
{
    tag == ORIENTATION
        && ((kind == SHORT || kind == SLONG) && (count == 1 && (1 <= value && value <= 8)))
}

/// Returns the value of an entry if it is an orientation.
#[tactic(auto, unfolding(crate::specs::Orientation::is_orientation))]
fn orientation_of_entry(entry: &[u8], is_little: bool) -> Option<u8>
    requires { length entry.now ≡ 12 }
    ensures value { result ≡ (if is_orientation is_little entry.now
        then Some (value_of is_little entry.now) else None) }
    ensures range { IfSome result (λ n. (1 ≤ n) × (n ≤ 8)) }
{
    let tag = short_at(entry, 0, is_little)?;
    let kind = short_at(entry, 2, is_little)?;
    let count = long_at(entry, 4, is_little)?;
    let value = value_at(entry, kind, is_little)?;
    if is_orientation(tag, kind, count, value) {
        Some(value as u8)
    } else {
        None
    }
}

/// Returns the first orientation among this many entries, or those that are there.
#[tactic(auto, using(crate::proofs::Rules::entries), unfolding(crate::proofs::Rules::listed))]
fn orientation_among(entries: &[u8], count: u16, is_little: bool) -> Option<u8>
    ensures value { result ≡ orientation_among is_little (entries_in count entries.now) }
    ensures range { IfSome result (λ n. (1 ≤ n) × (n ≤ 8)) }
{
    let mut rest = entries;
    for _ in 0..count {
        let (entry, others) = rest.split_at_checked(12)?;
        if let Some(value) = orientation_of_entry(entry, is_little) {
            return Some(value);
        }
        rest = others;
    }
    None
}

/// Returns the orientation of the first directory.
#[tactic(auto, using(crate::proofs::Rules::directories))]
fn orientation_by(exif: &[u8], is_little: bool) -> Option<u8>
    ensures value { result ≡ orientation_among is_little (first_directory is_little exif.now) }
    ensures range { IfSome result (λ n. (1 ≤ n) × (n ≤ 8)) }
{
    let offset = long_at(exif, 4, is_little)?;
    let (count, entries) = directory_at(exif, offset, is_little)?;
    orientation_among(entries, count, is_little)
}

/// Returns the orientation given by Exif data, 1 (upright) to 8: the value of the first entry of
/// their first directory that has the tag 0x0112 and one number of two bytes from 1 to 8, or of
/// four with a sign, which some files use.
///
/// The data begin at their TIFF header. If they are truncated or give no orientation, returns none.
#[tactic(auto, unfolding(crate::specs::Orientation::orientation_in))]
pub fn orientation_of(exif: &[u8]) -> Option<u8>
    ensures value { result ≡ orientation_in exif.now }
    ensures range { IfSome result (λ n. (1 ≤ n) × (n ≤ 8)) }
{
    let is_little = order_of(exif)?;
    orientation_by(exif, is_little)
}
