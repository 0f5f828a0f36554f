//! The density that the JFIF segment of a header gives (T.871, 10.1).
ghost use Rattle.std.specs.Prelude.{◌≡◌, ◌≤◌, length};
ghost use Rattle.zaxbriar_calls.specs.Density.{density_in, density_of, ends_header, first_density};
ghost use Rattle.zaxbriar_calls.specs.Density.{is_jfif};

use crate::segments::{next_marker, next_payload};
use jpeg_bits::marker::Marker;

/// How many samples a unit of length has, or, without a unit, the shape of a sample.
#[derive(Clone, Copy)]
pub struct Density {
    /// 1 for an inch, 2 for a centimetre, and 0 for none.
    pub unit: u8,
    pub horizontal: u16,
    pub vertical: u16,
}

/// What a caller is told where no segment gives a density.
pub const NO_DENSITY: Density = Density {
    unit: 0,
    horizontal: 0,
    vertical: 0,
};

/// Returns whether a header ends at a marker, or goes on without a length field.
fn ends_header(marker: Marker) -> bool
    ensures { result ≡ ends_header marker }
{
    matches!(
        marker,
        Marker::SOF(_) | Marker::RST(_) | Marker::SOI | Marker::EOI | Marker::TEM
    )
}

/// Returns whether a segment is that of JFIF.
fn is_jfif(marker: Marker, payload: &[u8]) -> bool
    ensures { result ≡ is_jfif marker payload.now }
{
    match marker {
        Marker::APP(number) => number == 0 && payload.len() >= 12 && payload.starts_with(b"JFIF\0"),
        _ => false,
    }
}

/// Returns the density in the payload of a JFIF segment.
fn density_in(payload: &[u8]) -> Density
    requires { 12 ≤ length payload.now }
    ensures { result ≡ density_in payload.now }
{
    Density {
        unit: payload[7],
        horizontal: 256 * u16::from(payload[8]) + u16::from(payload[9]),
        vertical: 256 * u16::from(payload[10]) + u16::from(payload[11]),
    }
}

/// Returns the density of the first JFIF segment up to the end of a header.
#[tactic(auto, using(crate::proofs::Rules::segments))]
fn first_density(bytes: &[u8], count: usize) -> Option<Density>
    ensures { result ≡ first_density count bytes.now }
{
    let mut rest = bytes;
    for _ in 0..count {
        let (marker, after) = next_marker(rest)?;
        if ends_header(marker) {
            return None;
        }
        let (payload, others) = next_payload(after)?;
        if is_jfif(marker, payload) {
            return Some(density_in(payload));
        }
        rest = others;
    }
    None
}

/// Returns the density that the JFIF segment of a stream's header gives, or none.
#[tactic(auto, using(crate::proofs::Rules::densities))]
pub fn density_of(stream: &[u8]) -> Density
    ensures { result ≡ density_of stream.now }
{
    let Some((_, rest)) = stream.split_at_checked(2) else {
        return NO_DENSITY;
    };
    match first_density(rest, stream.len()) {
        Some(density) => density,
        None => NO_DENSITY,
    }
}
