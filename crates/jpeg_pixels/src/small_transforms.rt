//! The transforms of a block to 2x2 and 1x1 samples, of only its first coefficients.
ghost use Rattle.std.specs.Prelude.{◌≡◌, ◌+◌, ◌<◌, ◌≤◌, pos, ◌+ℤ◌, length};
ghost use Rattle.std.specs.Int.{w32, int_wrap, int_shr};
ghost use Rattle.jpeg_pixels.specs.Samples.{clamped, dequantized};
ghost use Rattle.jpeg_pixels.specs.Scaled.{sample_of_2, sample_of_1};
ghost use Rattle.jpeg_pixels.specs.Blocks.{WritesBlock};

use crate::fixed_point::{clamp_to_byte, dequantize};
pub use crate::half_block::dequantize_and_idct_block_4x4;

/// What is added to each sample, in eighths.
const CENTRE: i32 = 128 << 3;

/// The same, with half of the divisor 2^3 to round.
const ROUNDED_CENTRE: i32 = CENTRE + 4;

/// Returns the coefficient of a row and a column, times its quantization value.
#[tactic(auto, unfolding(crate::specs::Samples::dequantized))]
fn product(
    coefficients: &[i16; 64],
    quantization_table: &[u16; 64],
    row: usize,
    column: usize,
) -> i32
    requires row { row < 8 }
    requires column { column < 8 }
    ensures { result ≡ dequantized coefficients.now quantization_table.now row column }
{
    let index = row * 8 + column;
    dequantize(coefficients[index], quantization_table[index])
}

/// Returns the sample of a sum in eighths.
#[tactic(auto, using(crate::proofs::LaneSums::shifted_back, crate::proofs::LaneSums::wrapped_more))]
fn sample_of_eighths(sum: i32) -> u8
    ensures { result ≡ clamped (int_shr (int_wrap w32 (sum +ℤ pos 1028)) 3) }
{
    clamp_to_byte(sum.wrapping_add(ROUNDED_CENTRE) >> 3)
}

/// Dequantizes a block of 8x8 coefficients and transforms the first two of its first two rows to
/// 2x2 samples from 0 to 255, with 128 added to each.
///
/// Coefficients and quantization values are in block order: row `v` and column `u` at
/// `8 * v + u`. The sample at `(x, y)` goes to byte `y * output_linestride + x` of the output,
/// which has room for a line of `output_linestride` bytes and two bytes more. Its other bytes stay
/// as they are. Sums that are too large for an `i32` wrap.
#[tactic(auto, using(crate::proofs::Rules::twos), unfolding(crate::specs::Scaled::sample_of_2))]
pub fn dequantize_and_idct_block_2x2(
    coefficients: &[i16; 64],
    quantization_table: &[u16; 64],
    output_linestride: usize,
    output: &mut [u8],
)
    requires wide { 2 ≤ output_linestride }
    requires room { output_linestride + 2 ≤ length output.old }
    ensures { WritesBlock 2 2 output_linestride
        (sample_of_2 coefficients.now quantization_table.now) output.old output.new }
{
    let mean = product(coefficients, quantization_table, 0, 0);
    let across = product(coefficients, quantization_table, 0, 1);
    let down = product(coefficients, quantization_table, 1, 0);
    let both = product(coefficients, quantization_table, 1, 1);
    let left = mean.wrapping_add(across);
    let right = mean.wrapping_sub(across);
    let left_down = down.wrapping_add(both);
    let right_down = down.wrapping_sub(both);
    output[0] = sample_of_eighths(left.wrapping_add(left_down));
    output[1] = sample_of_eighths(right.wrapping_add(right_down));
    output[output_linestride] = sample_of_eighths(left.wrapping_sub(left_down));
    output[output_linestride + 1] = sample_of_eighths(right.wrapping_sub(right_down));
}

/// Dequantizes the first coefficient of a block, which is eight times the mean of its samples, and
/// makes one sample from 0 to 255 of it, with 128 added.
///
/// The sample goes to the first byte of the output, whose other bytes stay as they are. The mean is
/// rounded down.
pub fn dequantize_and_idct_block_1x1(
    coefficients: &[i16; 64],
    quantization_table: &[u16; 64],
    output_linestride: usize,
    output: &mut [u8],
)
    requires wide { 1 ≤ output_linestride }
    requires room { 1 ≤ length output.old }
    ensures { WritesBlock 1 1 output_linestride
        (λ x y. sample_of_1 coefficients.now quantization_table.now) output.old output.new }
{
    let sum = product(coefficients, quantization_table, 0, 0).wrapping_add(CENTRE);
    output[0] = clamp_to_byte(sum >> 3);
}
