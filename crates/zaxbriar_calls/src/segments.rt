//! The segments of a stream, as they are searched for in its bytes (T.81, B.1.1.2 and B.1.1.4).
ghost use Rattle.std.specs.Prelude.{◌≡◌, ◌≤◌, ◌<◌, ◌++◌, ℕ, List, Ok, Err, IsErr, MatchOption};
ghost use Rattle.std.specs.Prelude.{◌-◌, ◌&&◌, ◌==◌, nat_lt, length, slice_index};
ghost use Rattle.jpeg_bits.specs.Marker.{next_marker};
ghost use Rattle.jpeg_bits.specs.Reading.{Malformed, End};
ghost use Rattle.zaxbriar_calls.specs.Places.{ends_image};
ghost use Rattle.zaxbriar_calls.specs.StreamSegments.{NeedsMore, next_segment, payload_at};
ghost use Rattle.zaxbriar_calls.specs.StreamSegments.{payload_by};

use jpeg_bits::marker::Marker;

/// The first segment in some bytes: `zaxbriar_segment` of the header.
#[repr(C)]
#[derive(Clone, Copy)]
pub struct Segment {
    /// Where its payload begins, and the length of the payload in bytes.
    pub offset: u64,
    pub size: u64,
    /// The number of bytes up to its end.
    pub end: u64,
    /// The least number of further bytes that it needs, if the bytes end before it does.
    pub needed: u64,
    /// The number of bytes, from the first, that it doesn't depend on in that case.
    pub skipped: u64,
    /// The second byte of its marker's code, or 0.
    pub marker: u8,
    /// Zero.
    pub reserved: [u8; 23],
}

/// No segment.
pub const NO_SEGMENT: Segment = Segment {
    offset: 0,
    size: 0,
    end: 0,
    needed: 0,
    skipped: 0,
    marker: 0,
    reserved: [0; 23],
};

/// Returns the next marker, and the bytes after it.
#[tactic(auto, using(crate::proofs::Rules::markers))]
pub fn next_marker(bytes: &[u8]) -> Option<(Marker, &[u8])>
    ensures { MatchOption result (next_marker bytes.now ≡ Err End)
        (λ m. next_marker bytes.now ≡ Ok (m.0, m.1.now)) }
{
    let mut rest = bytes;
    for _ in 0..bytes.len() {
        let &[first, second, ..] = rest else {
            return None;
        };
        if first == 0xff {
            if let Some(marker) = Marker::from_u8(second) {
                let (_, after) = rest.split_at(2);
                return Some((marker, after));
            }
        }
        let (_, later) = rest.split_at(1);
        rest = later;
    }
    None
}

/// Returns the payload of a segment, after its marker, and the bytes after it.
#[tactic(auto, using(crate::proofs::Rules::payloads))]
pub fn next_payload(bytes: &[u8]) -> Option<(&[u8], &[u8])>
    ensures { MatchOption result (IsErr (payload_at bytes.now))
        (λ p. payload_at bytes.now ≡ Ok (p.0.now, p.1.now)) }
{
    let &[high, low, ..] = bytes else {
        return None;
    };
    let size = 256 * usize::from(high) + usize::from(low);
    if size < 2 {
        return None;
    }
    let (_, rest) = bytes.split_at(2);
    rest.split_at_checked(size - 2)
}

/// Returns the payload after any marker, and the bytes after it. Without a length field it is
/// empty.
#[tactic(auto, using(crate::proofs::Rules::lengths))]
pub fn payload_after(marker: Marker, bytes: &[u8]) -> Option<(&[u8], &[u8])>
    ensures { MatchOption result (IsErr (payload_by marker bytes.now))
        (λ p. payload_by marker bytes.now ≡ Ok (p.0.now, p.1.now)) }
{
    if marker.has_length() {
        next_payload(bytes)
    } else {
        Some(bytes.split_at(0))
    }
}

/// Returns the marker and the payload of the first segment in some bytes, and the bytes after it.
#[tactic(auto, using(crate::proofs::Rules::read_segments))]
pub fn next_segment(bytes: &[u8]) -> Option<(Marker, &[u8], &[u8])>
    ensures { MatchOption result (IsErr (next_segment bytes.now))
        (λ s. next_segment bytes.now ≡ Ok ((s.0, s.1.now), s.2.now)) }
{
    let (marker, after) = next_marker(bytes)?;
    let (payload, rest) = payload_after(marker, after)?;
    Some((marker, payload, rest))
}

/// Returns whether an image ends at a marker.
pub fn ends_image(marker: Marker) -> bool
    ensures { result ≡ ends_image marker }
{
    matches!(marker, Marker::EOI)
}

/// Returns the least number of further bytes that a payload needs, given the bytes after its
/// marker, or none if its length field is less than its own size.
#[tactic(auto, using(crate::proofs::Rules::needs))]
pub fn payload_needs(bytes: &[u8]) -> Option<usize>
    requires cut { IsErr (payload_at bytes.now) }
    ensures { MatchOption result (payload_at bytes.now ≡ Err Malformed)
        (λ n. NeedsMore payload_at bytes.now n × (payload_at bytes.now ≡ Err End)) }
{
    match *bytes {
        [] => Some(2),
        [high] => Some((256 * usize::from(high)).max(2) - 1),
        [high, low, ..] => {
            let size = 256 * usize::from(high) + usize::from(low);
            if size < 2 {
                None
            } else {
                Some(size - bytes.len())
            }
        }
    }
}

/// Returns whether the last byte is FF, which may begin a marker.
pub fn ends_by_ff(bytes: &[u8]) -> bool
    ensures { result ≡ (nat_lt 0 (length bytes.now)
        && (slice_index bytes.now (length bytes.now - 1) == 255)) }
{
    !bytes.is_empty() && bytes[bytes.len() - 1] == 0xff
}
