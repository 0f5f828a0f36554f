//! The inverse transform of a block to 4x4 samples, in lanes.
//!
//! Eight lanes hold two rows of four numbers. What rows 0 and 1 add to the part of the even
//! numbers, rows 3 and 2 subtract from it, so two vectors hold all four.
ghost use Rattle.std.specs.Prelude.{◌≡◌, ℕ, ◌+◌, ◌*◌, ◌<◌, ◌≤◌, ◌%◌, pos, ◌+ℤ◌, ◌-ℤ◌, ◌*ℤ◌, ℤ};
ghost use Rattle.std.specs.Prelude.{length, slice_index, List, [], ◌∷◌};
ghost use Rattle.std.specs.Int.{w32, int_wrap, int_shr};
ghost use Rattle.jpeg_pixels.specs.Samples.{clamped, dequantized};
ghost use Rattle.jpeg_pixels.specs.Lanes.{lanes, lane};
ghost use Rattle.jpeg_pixels.specs.Blocks.{WritesBlock};
ghost use Rattle.jpeg_pixels.specs.Scaled.{column_of_4, sample_of_4};
ghost use Rattle.jpeg_pixels.specs.HalfRows.{by_half, upper, lower, row_sum};

use crate::arch::products;
use crate::fixed_point::{COLUMN_BIAS, ROW_BIAS};
use std::simd::prelude::*;

/// Returns one number in the left half of the lanes and another in the right.
#[inline(always)]
fn halves(left: i32, right: i32) -> i32x8
    ensures { result ≡ lanes (by_half left right) }
{
    i32x8::from_array([left, left, left, left, right, right, right, right])
}

/// Returns the left half of the lanes twice.
#[inline(always)]
fn left_twice(v: i32x8) -> i32x8
    ensures { result ≡ lane v 0 ∷ lane v 1 ∷ lane v 2 ∷ lane v 3
        ∷ lane v 0 ∷ lane v 1 ∷ lane v 2 ∷ lane v 3 ∷ [] }
{
    v.swizzle([0, 1, 2, 3, 0, 1, 2, 3])
}

/// Returns the first four dequantized coefficients of a row, twice.
#[inline(always)]
fn products_twice(coefficients: [i16; 64], quantization_table: &[u16; 64], row: usize) -> i32x8
    requires { row < 8 }
    ensures { result ≡ lanes (λ j. dequantized coefficients quantization_table.now row (j % 4)) }
{
    left_twice(products(coefficients, quantization_table, row * 8))
}

/// Returns the sum of two products and a number, in each lane.
#[inline(always)]
fn weigh(a: i32x8, p: i32x8, b: i32x8, q: i32x8, bias: i32) -> i32x8
    ensures { result ≡ lanes (λ j. int_wrap w32
        (lane a j *ℤ lane p j +ℤ lane b j *ℤ lane q j +ℤ bias)) }
{
    a * p + b * q + i32x8::splat(bias)
}

/// Returns the sum and the difference in each lane.
#[inline(always)]
fn fold(even: i32x8, odd: i32x8) -> (i32x8, i32x8)
    ensures sum { result.0 ≡ lanes (λ j. int_wrap w32 (lane even j +ℤ lane odd j)) }
    ensures difference { result.1 ≡ lanes (λ j. int_wrap w32 (lane even j -ℤ lane odd j)) }
{
    (even + odd, even - odd)
}

/// Returns numbers in 1024ths, rounded down.
#[inline(always)]
fn descale(sums: i32x8) -> i32x8
    ensures { result ≡ lanes (λ j. int_shr (lane sums j) 10) }
{
    sums >> 10
}

/// Returns the values of the first four columns: of the rows 0 and 1, and of the rows 3 and 2.
#[inline(always)]
fn column_values(coefficients: [i16; 64], quantization_table: &[u16; 64]) -> (i32x8, i32x8)
    ensures upper { result.0 ≡ lanes (upper (column_of_4 coefficients quantization_table.now)) }
    ensures lower { result.1 ≡ lanes (lower (column_of_4 coefficients quantization_table.now)) }
{
    let s0 = products_twice(coefficients, quantization_table, 0);
    let s1 = products_twice(coefficients, quantization_table, 1);
    let s2 = products_twice(coefficients, quantization_table, 2);
    let s3 = products_twice(coefficients, quantization_table, 3);
    let even = weigh(s0, halves(4, 4), s2, halves(4, -4), 0);
    let odd = weigh(s1, halves(5352, 2217), s3, halves(2217, -5350), COLUMN_BIAS);
    fold(even, descale(odd))
}

/// Returns the lanes of two vectors in turn: the first two of each half, and the last two.
#[inline(always)]
fn interleave_halves(a: i32x8, b: i32x8) -> (i32x8, i32x8)
    ensures first { result.0 ≡ lane a 0 ∷ lane b 0 ∷ lane a 1 ∷ lane b 1
        ∷ lane a 4 ∷ lane b 4 ∷ lane a 5 ∷ lane b 5 ∷ [] }
    ensures last { result.1 ≡ lane a 2 ∷ lane b 2 ∷ lane a 3 ∷ lane b 3
        ∷ lane a 6 ∷ lane b 6 ∷ lane a 7 ∷ lane b 7 ∷ [] }
{
    (
        a.shuffle(b, [0, 8, 1, 9, 4, 12, 5, 13]),
        a.shuffle(b, [2, 10, 3, 11, 6, 14, 7, 15]),
    )
}

/// Returns the two columns of which such a vector has the numbers, each in both halves.
#[inline(always)]
fn split_columns(v: i32x8) -> (i32x8, i32x8)
    ensures first { result.0 ≡ lane v 0 ∷ lane v 4 ∷ lane v 5 ∷ lane v 1
        ∷ lane v 0 ∷ lane v 4 ∷ lane v 5 ∷ lane v 1 ∷ [] }
    ensures second { result.1 ≡ lane v 2 ∷ lane v 6 ∷ lane v 7 ∷ lane v 3
        ∷ lane v 2 ∷ lane v 6 ∷ lane v 7 ∷ lane v 3 ∷ [] }
{
    (
        v.swizzle([0, 4, 5, 1, 0, 4, 5, 1]),
        v.swizzle([2, 6, 7, 3, 2, 6, 7, 3]),
    )
}

/// Returns the sums of the samples of four rows, before the last shift: of the columns 0 and 1, and
/// of the columns 3 and 2.
#[inline(always)]
fn row_sums(rows: (i32x8, i32x8)) -> (i32x8, i32x8)
    ensures left { (f : ℕ → ℕ → ℤ) → rows.0 ≡ lanes (upper f) → rows.1 ≡ lanes (lower f)
        → result.0 ≡ lanes (upper (λ x y. row_sum (f y) x)) }
    ensures right { (f : ℕ → ℕ → ℤ) → rows.0 ≡ lanes (upper f) → rows.1 ≡ lanes (lower f)
        → result.1 ≡ lanes (lower (λ x y. row_sum (f y) x)) }
{
    let (low, high) = interleave_halves(rows.0, rows.1);
    let (s0, s1) = split_columns(low);
    let (s2, s3) = split_columns(high);
    let even = weigh(s0, halves(4096, 4096), s2, halves(4096, -4096), ROW_BIAS);
    let odd = weigh(s1, halves(5352, 2217), s3, halves(2217, -5350), 0);
    fold(even, odd)
}

/// Returns the samples of sums in fixed point.
#[inline(always)]
fn clamp_sums(sums: i32x8) -> u8x8
    ensures { result ≡ lanes (λ j. clamped (int_shr (lane sums j) 17)) }
{
    (sums >> 17)
        .simd_clamp(i32x8::splat(0), i32x8::splat(255))
        .cast::<u8>()
}

/// Returns the four lines of a block from the samples of its columns.
#[inline(always)]
fn lines_of(left: u8x8, right: u8x8) -> (u8x4, u8x4, u8x4, u8x4)
    ensures first { (f : ℕ → ℕ → ℕ) → left ≡ lanes (upper f) → right ≡ lanes (lower f)
        → (x : ℕ) → x < 4 → slice_index result.0 x ≡ f x 0 }
    ensures second { (f : ℕ → ℕ → ℕ) → left ≡ lanes (upper f) → right ≡ lanes (lower f)
        → (x : ℕ) → x < 4 → slice_index result.1 x ≡ f x 1 }
    ensures third { (f : ℕ → ℕ → ℕ) → left ≡ lanes (upper f) → right ≡ lanes (lower f)
        → (x : ℕ) → x < 4 → slice_index result.2 x ≡ f x 2 }
    ensures fourth { (f : ℕ → ℕ → ℕ) → left ≡ lanes (upper f) → right ≡ lanes (lower f)
        → (x : ℕ) → x < 4 → slice_index result.3 x ≡ f x 3 }
{
    (
        left.shuffle(right, [0, 4, 12, 8]),
        left.shuffle(right, [1, 5, 13, 9]),
        left.shuffle(right, [2, 6, 14, 10]),
        left.shuffle(right, [3, 7, 15, 11]),
    )
}

/// Writes four samples to the front of the bytes.
#[inline(always)]
fn copy_line(line: u8x4, output: &mut [u8])
    requires { 4 ≤ length output.old }
    ensures inside { (x : ℕ) → x < 4 → slice_index output.new x ≡ slice_index line x }
    ensures others { (i : ℕ) → 4 ≤ i → slice_index output.new i ≡ slice_index output.old i }
{
    line.copy_to_slice(output);
}

/// Writes four samples as a line of a block whose lines above are written.
#[inline(always)]
fn write_line(line: u8x4, y: usize, output_linestride: usize, output: &mut [u8])
    requires wide { 4 ≤ output_linestride }
    requires row { y < 4 }
    requires room { 3 * output_linestride + 4 ≤ length output.old }
    ensures { (f : ℕ → ℕ → ℕ) (old : List ℕ) → ((x : ℕ) → x < 4 → slice_index line x ≡ f x y)
        → WritesBlock 4 y output_linestride f old output.old
        → WritesBlock 4 (y + 1) output_linestride f old output.new }
{
    copy_line(line, &mut output[y * output_linestride..]);
}

/// Dequantizes a block of 8x8 coefficients and transforms the first four of its first four rows to
/// 4x4 samples from 0 to 255, with 128 added to each.
///
/// Coefficients and quantization values are in block order: row `v` and column `u` at
/// `8 * v + u`. The sample at `(x, y)` goes to byte `y * output_linestride + x` of the output,
/// which has room for three lines of `output_linestride` bytes and four bytes more. Its other bytes
/// stay as they are. Sums that are too large for an `i32` wrap.
pub fn dequantize_and_idct_block_4x4(
    coefficients: &[i16; 64],
    quantization_table: &[u16; 64],
    output_linestride: usize,
    output: &mut [u8],
)
    requires wide { 4 ≤ output_linestride }
    requires room { 3 * output_linestride + 4 ≤ length output.old }
    ensures { WritesBlock 4 4 output_linestride
        (sample_of_4 coefficients.now quantization_table.now) output.old output.new }
{
    let (left, right) = row_sums(column_values(*coefficients, quantization_table));
    let (line_0, line_1, line_2, line_3) = lines_of(clamp_sums(left), clamp_sums(right));
    write_line(line_0, 0, output_linestride, output);
    write_line(line_1, 1, output_linestride, output);
    write_line(line_2, 2, output_linestride, output);
    write_line(line_3, 3, output_linestride, output);
}
