//! The inverse transform of a block in lanes of 16 bits.
//!
//! If no dequantized coefficient is above 1095, the results of the columns fit 16 bits, and both
//! passes are exact with products of pairs. This holds in the blocks of photographs, whose samples
//! have 8 bits.
ghost use Rattle.std.specs.Prelude.{◌≡◌, ℕ, List, ◌+◌, ◌*◌, ◌<◌, ◌≤◌, ℤ, pos, negsuc, ◌+ℤ◌, ◌-ℤ◌};
ghost use Rattle.std.specs.Prelude.{◌*ℤ◌, ◌≤ℤ◌, length, slice_index_or, slice_index, IsTrue};
ghost use Rattle.std.specs.Prelude.{FitsSigned, unsigned_abs, ◌/◌, max};
ghost use Rattle.std.specs.Int.{w16, w32, int_wrap};
ghost use Rattle.jpeg_pixels.specs.Samples.{transformed, clamped, dequantized};
ghost use Rattle.jpeg_pixels.specs.Samples.{column_value, sample};
ghost use Rattle.jpeg_pixels.specs.Lanes.{lanes, lane};
ghost use Rattle.jpeg_pixels.specs.Blocks.{WritesBlock};
ghost use Rattle.jpeg_pixels.specs.LaneRows.{HasNumbers};
ghost use Rattle.jpeg_pixels.specs.ShortRows.{HasShorts, HasPairs, IsLimit, IsShortTable};
ghost use Rattle.jpeg_pixels.specs.ShortRows.{HasValues, HasShortProducts, line_value, sixteen};
ghost use Rattle.jpeg_pixels.specs.ShortRows.{paired, halves, fours};

use crate::arch::{Rows, dequantize_and_idct_block_8x8};
use crate::fixed_point::{COLUMN_BIAS, ROW_BIAS};
use std::simd::prelude::*;

/// Eight rows of eight short lanes.
#[derive(Clone, Copy)]
struct Shorts {
    r0: i16x8,
    r1: i16x8,
    r2: i16x8,
    r3: i16x8,
    r4: i16x8,
    r5: i16x8,
    r6: i16x8,
    r7: i16x8,
}

/// The numbers `k` and `k + 4` of each of eight columns, or of eight rows, side by side.
#[derive(Clone, Copy)]
struct Pairs {
    p04: i16x16,
    p15: i16x16,
    p26: i16x16,
    p37: i16x16,
}

/// Returns the sum of the products of each pair with two factors: the processor's product of pairs.
#[inline(always)]
fn pair_sums(pairs: i16x16, first: i32, second: i32) -> i32x8
    ensures { (f g : ℕ → ℤ) → pairs ≡ paired f g
        → result ≡ lanes (λ j. int_wrap w32 (f j *ℤ first +ℤ g j *ℤ second)) }
{
    let factors = i32x16::from_array([
        first, second, first, second, first, second, first, second, first, second, first, second,
        first, second, first, second,
    ]);
    let products = pairs.cast::<i32>() * factors;
    products.swizzle([0, 2, 4, 6, 8, 10, 12, 14]) + products.swizzle([1, 3, 5, 7, 9, 11, 13, 15])
}

/// Returns each pair with the complement of its second number.
#[inline(always)]
fn complemented(pairs: i16x16) -> i16x16
    ensures { (f g : ℕ → ℤ) → pairs ≡ paired f g → result ≡ paired f (λ j. negsuc 0 -ℤ g j) }
{
    pairs ^ i16x16::from_array([0, -1, 0, -1, 0, -1, 0, -1, 0, -1, 0, -1, 0, -1, 0, -1])
}

/// Returns the transform of each column's eight numbers, modulo 2^32, by products of pairs. The sum
/// with equal factors is computed from the complement, since the compiler would make shifts of it.
#[inline(always)]
fn pair_kernel(s: Pairs, x_scale: i32) -> Rows
    ensures { (f : ℕ → ℕ → ℤ) → HasPairs s f → HasNumbers result
        (λ index j. int_wrap w32 (transformed (λ k. f k j) index +ℤ x_scale)) }
{
    let e0 = pair_sums(complemented(s.p04), 4096, -4096)
        + (i32x8::splat(x_scale) - i32x8::splat(4096));
    let e1 = pair_sums(s.p04, 4096, -4096) + i32x8::splat(x_scale);
    let o0 = pair_sums(s.p26, 5352, 2217);
    let o1 = pair_sums(s.p26, 2217, -5350);
    let x0 = e0 + o0;
    let x1 = e1 + o1;
    let x2 = e1 - o1;
    let x3 = e0 - o0;
    let t0 = pair_sums(s.p15, 1131, 4816) + pair_sums(s.p37, -3218, -5680);
    let t1 = pair_sums(s.p15, 3219, 1132) + pair_sums(s.p37, -5681, 4816);
    let t2 = pair_sums(s.p15, 4816, -5681) + pair_sums(s.p37, -1129, -3218);
    let t3 = pair_sums(s.p15, 5683, 3219) + pair_sums(s.p37, 4816, 1131);
    Rows {
        r0: x0 + t3,
        r1: x1 + t2,
        r2: x2 + t1,
        r3: x3 + t0,
        r4: x3 - t0,
        r5: x2 - t1,
        r6: x1 - t2,
        r7: x0 - t3,
    }
}

/// A quantization table for the blocks of a strip: its values up to 1095, and the greatest
/// magnitudes of coefficients whose products with them are at most 1095.
#[derive(Clone, Copy)]
pub(crate) struct ShortTable {
    values: [i16; 64],
    limits: [i16; 64],
}

/// Returns how many times a number goes into 1095, and 1095 for 0. It divides bit by bit: a
/// compiler does these steps for several numbers at once, unlike divisions.
#[inline(always)]
fn limit_of(value: u16) -> u16
    ensures { result ≡ 1095 / max value 1 }
{
    let divisor = value.max(1);
    let mut limit = 0u16;
    let mut rest = 0u16;
    for step in 0..11u16 {
        limit = 2 * limit;
        rest = 2 * rest + (1095 >> (10 - step)) % 2;
        if rest >= divisor {
            limit += 1;
            rest -= divisor;
        }
    }
    limit
}

pub(crate) fn short_table(quantization_table: &[u16; 64]) -> ShortTable
    ensures { IsShortTable result quantization_table.now }
{
    let mut values = [0i16; 64];
    let mut limits = [0i16; 64];
    for k in 0..64 {
        let value = quantization_table[k];
        values[k] = value.min(1095) as i16;
        limits[k] = limit_of(value) as i16;
    }
    ShortTable { values, limits }
}

/// Returns how far sixteen coefficients are within their limits: less than 0 if one isn't.
#[inline(always)]
fn slack(coefficients: [i16; 64], limits: [i16; 64], at: usize) -> i16x16
    requires { at + 16 ≤ 64 }
    ensures { (j : ℕ) → j < 16 → IsLimit (slice_index_or limits (at + j) (pos 0))
        → pos 0 ≤ℤ lane result j → pos (unsigned_abs (slice_index_or coefficients (at + j) (pos 0)))
        ≤ℤ slice_index_or limits (at + j) (pos 0) }
{
    let c = i16x16::from_slice(&coefficients[at..]);
    let limit = i16x16::from_slice(&limits[at..]);
    (limit - c).simd_min(limit + c)
}

/// Returns whether every coefficient is within its limit.
#[inline(always)]
fn is_within(coefficients: [i16; 64], table: &ShortTable) -> bool
    ensures { (quantization : List ℕ) → IsShortTable table.now quantization → IsTrue result
        → HasShortProducts coefficients quantization }
{
    let limits = table.limits;
    let least = slack(coefficients, limits, 0)
        .simd_min(slack(coefficients, limits, 16))
        .simd_min(slack(coefficients, limits, 32))
        .simd_min(slack(coefficients, limits, 48));
    least.simd_ge(i16x16::splat(0)).all()
}

#[inline(always)]
fn short_products(coefficients: [i16; 64], values: [i16; 64], at: usize) -> i16x16
    requires { at + 16 ≤ 64 }
    ensures { (quantization : List ℕ) → HasValues values quantization
        → HasShortProducts coefficients quantization
        → result ≡ sixteen (λ j. slice_index_or coefficients (at + j) (pos 0) *ℤ pos
        (slice_index quantization (at + j))) }
{
    i16x16::from_slice(&coefficients[at..]) * i16x16::from_slice(&values[at..])
}

/// Returns the lanes of two vectors in turn: those of their first halves, and those of their
/// second.
#[inline(always)]
fn by_turns(a: i16x16, b: i16x16) -> (i16x16, i16x16)
    ensures first { (f g : ℕ → ℤ) → a ≡ sixteen f → b ≡ sixteen g → result.0 ≡ paired f g }
    ensures last { (f g : ℕ → ℤ) → a ≡ sixteen f → b ≡ sixteen g
        → result.1 ≡ paired (λ j. f (8 + j)) (λ j. g (8 + j)) }
{
    a.interleave(b)
}

/// Returns the dequantized coefficients of a block that is within its limits.
#[inline(always)]
#[tactic(auto, unfolding(crate::specs::Samples::dequantized))]
fn short_inputs(coefficients: [i16; 64], table: &ShortTable) -> Pairs
    ensures { (quantization : List ℕ) → IsShortTable table.now quantization
        → HasShortProducts coefficients quantization
        → HasPairs result (dequantized coefficients quantization) }
{
    let values = table.values;
    let (p04, p15) = by_turns(
        short_products(coefficients, values, 0),
        short_products(coefficients, values, 32),
    );
    let (p26, p37) = by_turns(
        short_products(coefficients, values, 16),
        short_products(coefficients, values, 48),
    );
    Pairs { p04, p15, p26, p37 }
}

/// Returns the same numbers in lanes of 16 bits, which they fit.
#[inline(always)]
fn narrowed(row: i32x8) -> i16x8
    ensures { ((j : ℕ) → j < 8 → FitsSigned w16 (lane row j)) → result ≡ row }
{
    row.simd_clamp(i32x8::splat(-32768), i32x8::splat(32767))
        .cast::<i16>()
}

#[inline(always)]
#[tactic(auto, using(crate::proofs::ShortLanes::narrow))]
fn narrowed_rows(rows: Rows) -> Shorts
    ensures { (f : ℕ → ℕ → ℤ) → ((k j : ℕ) → k < 8 → j < 8 → FitsSigned w16 (f k j))
        → HasNumbers rows f → HasShorts result f }
{
    Shorts {
        r0: narrowed(rows.r0),
        r1: narrowed(rows.r1),
        r2: narrowed(rows.r2),
        r3: narrowed(rows.r3),
        r4: narrowed(rows.r4),
        r5: narrowed(rows.r5),
        r6: narrowed(rows.r6),
        r7: narrowed(rows.r7),
    }
}

/// The places of lanes `k` and `k + 4` of two vectors of eight, side by side.
const LANE_PAIRS: [usize; 16] = [0, 4, 1, 5, 2, 6, 3, 7, 8, 12, 9, 13, 10, 14, 11, 15];

/// The places of the first two pairs, and of the last two, in each half of two vectors, in turn.
const FIRST_PAIRS: [usize; 16] = [0, 1, 16, 17, 2, 3, 18, 19, 8, 9, 24, 25, 10, 11, 26, 27];

const LAST_PAIRS: [usize; 16] = [4, 5, 20, 21, 6, 7, 22, 23, 12, 13, 28, 29, 14, 15, 30, 31];

/// The places of the first four lanes, and of the last four, in each half of two vectors, in turn.
const FIRST_FOURS: [usize; 16] = [0, 1, 2, 3, 16, 17, 18, 19, 8, 9, 10, 11, 24, 25, 26, 27];

const LAST_FOURS: [usize; 16] = [4, 5, 6, 7, 20, 21, 22, 23, 12, 13, 14, 15, 28, 29, 30, 31];

/// Exchanges rows and columns, and returns them by pairs.
#[inline(always)]
fn turned_pairs(rows: Shorts) -> Pairs
    ensures { (f : ℕ → ℕ → ℤ) → HasShorts rows f → HasPairs result (λ k j. f j k) }
{
    let v0 = rows.r0.shuffle(rows.r4, LANE_PAIRS);
    let v1 = rows.r1.shuffle(rows.r5, LANE_PAIRS);
    let v2 = rows.r2.shuffle(rows.r6, LANE_PAIRS);
    let v3 = rows.r3.shuffle(rows.r7, LANE_PAIRS);
    let a = v0.shuffle(v1, FIRST_PAIRS);
    let b = v0.shuffle(v1, LAST_PAIRS);
    let c = v2.shuffle(v3, FIRST_PAIRS);
    let d = v2.shuffle(v3, LAST_PAIRS);
    let p04 = a.shuffle(c, FIRST_FOURS);
    let p15 = a.shuffle(c, LAST_FOURS);
    let p26 = b.shuffle(d, FIRST_FOURS);
    let p37 = b.shuffle(d, LAST_FOURS);
    Pairs { p04, p15, p26, p37 }
}

/// Returns the columns of a block that is within its limits, turned so that each is a row.
#[inline(always)]
fn short_columns(inputs: Pairs) -> Pairs
    ensures { (coefficients : List ℤ) (quantization : List ℕ) → HasShortProducts coefficients
        quantization
        → HasPairs inputs (dequantized coefficients quantization)
        → HasPairs result (λ column row. column_value coefficients quantization row column) }
{
    let sums = pair_kernel(inputs, COLUMN_BIAS);
    let values = Rows {
        r0: sums.r0 >> 10,
        r1: sums.r1 >> 10,
        r2: sums.r2 >> 10,
        r3: sums.r3 >> 10,
        r4: sums.r4 >> 10,
        r5: sums.r5 >> 10,
        r6: sums.r6 >> 10,
        r7: sums.r7 >> 10,
    };
    turned_pairs(narrowed_rows(values))
}

/// Returns the lines of a block, before they are clamped, from its columns: a row for each `x`.
#[inline(always)]
fn short_lines(columns: Pairs) -> Shorts
    ensures { (f : ℕ → ℕ → ℤ) → HasPairs columns (λ column row. f row column)
        → HasShorts result (λ x y. line_value f y x) }
{
    let sums = pair_kernel(columns, ROW_BIAS);
    let values = Rows {
        r0: sums.r0 >> 17,
        r1: sums.r1 >> 17,
        r2: sums.r2 >> 17,
        r3: sums.r3 >> 17,
        r4: sums.r4 >> 17,
        r5: sums.r5 >> 17,
        r6: sums.r6 >> 17,
        r7: sums.r7 >> 17,
    };
    narrowed_rows(values)
}

/// Returns two rows as bytes: the first four lanes of each, and then the last four.
#[inline(always)]
fn byte_halves(a: i16x8, b: i16x8) -> u8x16
    ensures { (f g : ℕ → ℤ) → a ≡ lanes f → b ≡ lanes g
        → result ≡ halves (λ j. clamped (f j)) (λ j. clamped (g j)) }
{
    a.shuffle(b, [0, 1, 2, 3, 8, 9, 10, 11, 4, 5, 6, 7, 12, 13, 14, 15])
        .simd_clamp(i16x16::splat(0), i16x16::splat(255))
        .cast::<u8>()
}

/// Returns the lanes of four rows of bytes, column by column.
#[inline(always)]
fn byte_columns(a: u8x16, b: u8x16) -> u8x32
    ensures { (f : ℕ → ℕ → ℕ) → a ≡ halves (f 0) (f 1) → b ≡ halves (f 2) (f 3)
        → result ≡ fours f }
{
    a.shuffle(
        b,
        [
            0, 1, 2, 3, 4, 5, 6, 7, 16, 17, 18, 19, 20, 21, 22, 23, 8, 9, 10, 11, 12, 13, 14, 15,
            24, 25, 26, 27, 28, 29, 30, 31,
        ],
    )
    .swizzle([
        0, 4, 8, 12, 1, 5, 9, 13, 2, 6, 10, 14, 3, 7, 11, 15, 16, 20, 24, 28, 17, 21, 25, 29, 18,
        22, 26, 30, 19, 23, 27, 31,
    ])
}

/// Writes eight bytes to the front of the output.
#[inline(always)]
fn write_line(line: u8x8, output: &mut [u8])
    requires { 8 ≤ length output.old }
    ensures inside { (x : ℕ) → x < 8 → slice_index output.new x ≡ slice_index line x }
    ensures others { (i : ℕ) → 8 ≤ i → slice_index output.new i ≡ slice_index output.old i }
{
    line.copy_to_slice(output);
}

/// Writes the samples of eight lines, given by columns.
#[inline(always)]
fn write_lines(lines: Shorts, stride: usize, output: &mut [u8])
    requires wide { 8 ≤ stride }
    requires room { 7 * stride + 8 ≤ length output.old }
    ensures { (f : ℕ → ℕ → ℤ) → HasShorts lines f
        → WritesBlock 8 8 stride (λ x y. clamped (f x y)) output.old output.new }
{
    let left = byte_columns(
        byte_halves(lines.r0, lines.r1),
        byte_halves(lines.r2, lines.r3),
    );
    let right = byte_columns(
        byte_halves(lines.r4, lines.r5),
        byte_halves(lines.r6, lines.r7),
    );
    let low = left.shuffle(
        right,
        [
            0, 1, 2, 3, 32, 33, 34, 35, 4, 5, 6, 7, 36, 37, 38, 39, 16, 17, 18, 19, 48, 49, 50, 51,
            20, 21, 22, 23, 52, 53, 54, 55,
        ],
    );
    let high = left.shuffle(
        right,
        [
            8, 9, 10, 11, 40, 41, 42, 43, 12, 13, 14, 15, 44, 45, 46, 47, 24, 25, 26, 27, 56, 57,
            58, 59, 28, 29, 30, 31, 60, 61, 62, 63,
        ],
    );
    write_line(low.extract::<0, 8>(), &mut output[0..]);
    write_line(low.extract::<8, 8>(), &mut output[stride..]);
    write_line(high.extract::<0, 8>(), &mut output[2 * stride..]);
    write_line(high.extract::<8, 8>(), &mut output[3 * stride..]);
    write_line(low.extract::<16, 8>(), &mut output[4 * stride..]);
    write_line(low.extract::<24, 8>(), &mut output[5 * stride..]);
    write_line(high.extract::<16, 8>(), &mut output[6 * stride..]);
    write_line(high.extract::<24, 8>(), &mut output[7 * stride..]);
}

/// Writes the samples of a block, like `idct::dequantize_and_idct_block_8x8`, in lanes of 16 bits
/// if it is within its limits.
#[inline(always)]
#[tactic(auto, unfolding(crate::specs::Samples::sample, crate::specs::ShortRows::line_value))]
pub(crate) fn write_block(
    coefficients: &[i16; 64],
    quantization_table: &[u16; 64],
    table: &ShortTable,
    output_linestride: usize,
    output: &mut [u8],
)
    requires table { IsShortTable table.now quantization_table.now }
    requires wide { 8 ≤ output_linestride }
    requires room { 7 * output_linestride + 8 ≤ length output.old }
    ensures { WritesBlock 8 8 output_linestride (sample coefficients.now quantization_table.now)
        output.old output.new }
{
    if is_within(*coefficients, table) {
        let columns = short_columns(short_inputs(*coefficients, table));
        write_lines(short_lines(columns), output_linestride, output);
    } else {
        dequantize_and_idct_block_8x8(coefficients, quantization_table, output_linestride, output);
    }
}
