//! TIFF structures (TIFF 6.0, sections 2 and 8): their numbers, their header, and the entries of
//! their directories. Offsets are counted from the header on.
ghost use Rattle.std.specs.Prelude.{◌≡◌, ◌<◌, ◌≤◌, ◌+◌, MatchOption, IfSome, drop, length};
ghost use Rattle.std.specs.Option.{option_copied};
ghost use Rattle.jpeg_orientation.specs.Tiff.{entries_in, next_of, number_at, number_in};
ghost use Rattle.jpeg_orientation.specs.Tiff.{order_in, tagged};

/// The type of values of two bytes.
pub const SHORT: u16 = 3;

/// The type of values of four bytes.
pub const LONG: u16 = 4;

/// How many bytes an entry of a directory has.
const ENTRY_BYTES: usize = 12;

/// Returns the number of two bytes at an offset, if they are there.
#[tactic(auto, using(crate::proofs::Rules::shorts))]
pub fn short_at(bytes: &[u8], offset: usize, is_little: bool) -> Option<u16>
    ensures { MatchOption result (length bytes.now < offset + 2)
        (λ n. (offset + 2 ≤ length bytes.now) × (n ≡ number_at is_little offset 2 bytes.now)) }
{
    let (_, rest) = bytes.split_at_checked(offset)?;
    let &[first, second, ..] = rest else {
        return None;
    };
    let (first, second) = (u16::from(first), u16::from(second));
    Some(if is_little {
        first + 256 * second
    } else {
        256 * first + second
    })
}

/// Returns the number of four bytes at an offset, if they are there.
#[tactic(auto, using(crate::proofs::Rules::longs))]
pub fn long_at(bytes: &[u8], offset: usize, is_little: bool) -> Option<u32>
    ensures { MatchOption result (length bytes.now < offset + 4)
        (λ n. (offset + 4 ≤ length bytes.now) × (n ≡ number_at is_little offset 4 bytes.now)) }
{
    let (_, rest) = bytes.split_at_checked(offset)?;
    let &[first, second, third, fourth, ..] = rest else {
        return None;
    };
    let (first, second) = (u32::from(first), u32::from(second));
    let (third, fourth) = (u32::from(third), u32::from(fourth));
    Some(if is_little {
        first + 256 * second + 65536 * third + 16777216 * fourth
    } else {
        16777216 * first + 65536 * second + 256 * third + fourth
    })
}

/// Returns whether a number's lower byte is its first, if the bytes begin with the header of a TIFF
/// structure: `II` or `MM`, and the number 42.
#[tactic(auto, unfolding(crate::specs::Tiff::order_in))]
pub fn order_of(bytes: &[u8]) -> Option<bool>
    ensures { result ≡ order_in bytes.now }
{
    if bytes.starts_with(b"II*\0") {
        Some(true)
    } else if bytes.starts_with(b"MM\0*") {
        Some(false)
    } else {
        None
    }
}

/// Returns how many entries the directory at an offset has, and the bytes that begin with them.
pub fn directory_at(bytes: &[u8], offset: u32, is_little: bool) -> Option<(u16, &[u8])>
    ensures { MatchOption result (length bytes.now < offset + 2) (λ d. (offset + 2 ≤ length bytes.now)
        × (d.0 ≡ number_at is_little 0 2 (drop offset bytes.now))
        × (d.1.now ≡ drop 2 (drop offset bytes.now))) }
{
    let (_, directory) = bytes.split_at_checked(offset as usize)?;
    let count = short_at(directory, 0, is_little)?;
    let (_, entries) = directory.split_at_checked(2)?;
    Some((count, entries))
}

/// Returns the offset of the directory after the one with which these bytes begin: 0 if there is
/// none, or if that offset is truncated.
#[tactic(auto, using(crate::proofs::Rules::links))]
pub fn next_of(directory: &[u8], is_little: bool) -> u32
    ensures { result ≡ next_of is_little directory.now }
{
    let Some(count) = short_at(directory, 0, is_little) else {
        return 0;
    };
    let end = 2 + ENTRY_BYTES * usize::from(count);
    if directory.len() < end + 4 {
        return 0;
    }
    long_at(directory, end, is_little).unwrap_or(0)
}

/// Returns the first entry of this tag among this many, or those that are there.
#[tactic(auto, using(crate::proofs::Rules::tags), unfolding(crate::proofs::Rules::listed))]
pub fn entry_of(entries: &[u8], count: u16, tag: u16, is_little: bool) -> Option<&[u8]>
    ensures value { option_copied result ≡ tagged is_little tag (entries_in count entries.now) }
    ensures size { IfSome result (λ entry. length entry.now ≡ 12) }
{
    let mut rest = entries;
    for _ in 0..count {
        let (entry, others) = rest.split_at_checked(ENTRY_BYTES)?;
        if short_at(entry, 0, is_little)? == tag {
            return Some(entry);
        }
        rest = others;
    }
    None
}

/// Returns the number that an entry is, of the type SHORT or LONG.
#[tactic(auto, unfolding(crate::specs::Tiff::number_in))]
pub fn number_in(entry: &[u8], is_little: bool) -> Option<u32>
    requires { length entry.now ≡ 12 }
    ensures { result ≡ number_in is_little entry.now }
{
    if long_at(entry, 4, is_little)? != 1 {
        return None;
    }
    match short_at(entry, 2, is_little)? {
        SHORT => Some(u32::from(short_at(entry, 8, is_little)?)),
        LONG => long_at(entry, 8, is_little),
        _ => None,
    }
}
