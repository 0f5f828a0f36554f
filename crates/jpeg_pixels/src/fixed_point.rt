//! The numbers of the transforms: products of coefficients, and sums in fixed point.
ghost use Rattle.std.specs.Prelude.{◌≡◌, pos, ◌*ℤ◌};
ghost use Rattle.std.specs.Int.{int_shr};
ghost use Rattle.jpeg_pixels.specs.Samples.{clamped};

/// Half of the divisor 2^10, to round.
pub(crate) const COLUMN_BIAS: i32 = 512;

/// Half of the divisor 2^17, and 128 to be added to each sample.
pub(crate) const ROW_BIAS: i32 = 65536 + (128 << 17);

pub(crate) fn clamp_to_byte(x: i32) -> u8
    ensures { result ≡ clamped x }
{
    x.clamp(0, 255) as u8
}

/// Returns the sample of a sum in fixed point.
pub(crate) fn sample_of(sum: i32) -> u8
    ensures { result ≡ clamped (int_shr sum 17) }
{
    clamp_to_byte(sum >> 17)
}

pub(crate) fn dequantize(c: i16, q: u16) -> i32
    ensures { result ≡ c *ℤ pos q }
{
    i32::from(c) * i32::from(q)
}
