//! The limits of a caller, which are compared with a header.
ghost use Rattle.std.specs.Prelude.{◌≡◌, ◌+◌, ◌≤◌, ◌*◌, ◌||◌};
ghost use Rattle.zaxbriar_calls.specs.Limits.{bytes_beside, is_over};

use crate::lines::Lines;
use crate::options::Options;
use jpeg_decoder::DecodingBytes;

/// Returns the most memory for samples that decoding takes at a time beside the caller's: blocks
/// and planes. The lines of the picture are written from the planes.
pub fn bytes_beside(decoding: DecodingBytes) -> u64
    requires peak { decoding.coefficients + decoding.planes ≤ decoding.peak }
    ensures { result ≡ bytes_beside decoding }
{
    decoding.coefficients + decoding.planes
}

/// Returns whether a count is above a limit, where 0 is none.
fn is_over(limit: u64, count: u64) -> bool
    ensures { result ≡ is_over limit count }
{
    limit != 0 && count > limit
}

/// Returns whether a picture of these lines, with so many samples a pixel, for which decoding takes
/// this many bytes, is above a limit.
pub fn exceeds_limits(options: &Options, lines: Lines, components: u8, bytes: u64) -> bool
    ensures { result ≡ (is_over options.now.max_samples (lines.width * lines.height * components)
        || is_over options.now.max_bytes bytes) }
{
    let pixels = u64::from(lines.width) * u64::from(lines.height);
    let samples = pixels * u64::from(components);
    is_over(options.max_samples, samples) || is_over(options.max_bytes, bytes)
}
