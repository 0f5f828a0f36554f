//! The inverse transform of a block, and the colours of a line, in lanes.
ghost use Rattle.std.specs.Prelude.{◌≡◌, ℕ, ◌+◌, ◌*◌, ◌<◌, ◌≤◌, pos, neg_ℤ, ◌+ℤ◌, ◌-ℤ◌, ◌*ℤ◌};
ghost use Rattle.std.specs.Prelude.{length, slice_index_or, [], ◌∷◌, map, ⊤, slice_index};
ghost use Rattle.std.specs.Prelude.{if◌then◌else◌, ◌%◌, ◌/◌, ◌==◌, IsTrue, ◌↔◌};
ghost use Rattle.std.specs.Int.{w32, int_wrap, int_shr};
ghost use Rattle.std.specs.List.{range_with_len};
ghost use Rattle.jpeg_pixels.specs.Samples.{transformed, clamped, is_flat_column, dequantized};
ghost use Rattle.jpeg_pixels.specs.Samples.{column_value, sample};
ghost use Rattle.jpeg_pixels.specs.Lanes.{lanes, lane, lane_is_zero};
ghost use Rattle.jpeg_pixels.specs.Blocks.{WritesBlock};
ghost use Rattle.jpeg_pixels.specs.LaneRows.{lane_at, HasNumbers, HasZeros, IsInCorner, IsTurned};

pub(crate) mod ycbcr;

use crate::fixed_point::{COLUMN_BIAS, ROW_BIAS, sample_of};
use std::simd::prelude::*;
pub use ycbcr::color_convert_line_ycbcr;

/// Eight rows of eight lanes.
#[derive(Clone, Copy)]
pub(crate) struct Rows {
    pub(crate) r0: i32x8,
    pub(crate) r1: i32x8,
    pub(crate) r2: i32x8,
    pub(crate) r3: i32x8,
    pub(crate) r4: i32x8,
    pub(crate) r5: i32x8,
    pub(crate) r6: i32x8,
    pub(crate) r7: i32x8,
}

/// Returns what the even numbers give, in each lane.
fn kernel_x(s: Rows, x_scale: i32) -> (i32x8, i32x8, i32x8, i32x8)
    ensures x0 { result.0 ≡ lanes (λ j. int_wrap w32
        (pos 4096 *ℤ lane s.r0 j +ℤ pos 5352 *ℤ lane s.r2 j +ℤ pos 4096 *ℤ lane s.r4 j +ℤ pos 2217
        *ℤ lane s.r6 j +ℤ x_scale)) }
    ensures x1 { result.1 ≡ lanes (λ j. int_wrap w32
        (pos 4096 *ℤ lane s.r0 j +ℤ pos 2217 *ℤ lane s.r2 j -ℤ pos 4096 *ℤ lane s.r4 j -ℤ pos 5350
        *ℤ lane s.r6 j +ℤ x_scale)) }
    ensures x2 { result.2 ≡ lanes (λ j. int_wrap w32
        (pos 4096 *ℤ lane s.r0 j -ℤ pos 2217 *ℤ lane s.r2 j -ℤ pos 4096 *ℤ lane s.r4 j +ℤ pos 5350
        *ℤ lane s.r6 j +ℤ x_scale)) }
    ensures x3 { result.3 ≡ lanes (λ j. int_wrap w32
        (pos 4096 *ℤ lane s.r0 j -ℤ pos 5352 *ℤ lane s.r2 j +ℤ pos 4096 *ℤ lane s.r4 j -ℤ pos 2217
        *ℤ lane s.r6 j +ℤ x_scale)) }
{
    let p1 = (s.r2 + s.r6) * i32x8::splat(2217);
    let t2 = p1 + s.r6 * i32x8::splat(-7567);
    let t3 = p1 + s.r2 * i32x8::splat(3135);
    let t0 = (s.r0 + s.r4) << 12;
    let t1 = (s.r0 - s.r4) << 12;
    let x_scale = i32x8::splat(x_scale);
    (
        t0 + t3 + x_scale,
        t1 + t2 + x_scale,
        t1 - t2 + x_scale,
        t0 - t3 + x_scale,
    )
}

/// Returns what the odd numbers give, in each lane.
fn kernel_t(s: Rows) -> (i32x8, i32x8, i32x8, i32x8)
    ensures t0 { result.0 ≡ lanes (λ j. int_wrap w32
        (pos 1131 *ℤ lane s.r1 j -ℤ pos 3218 *ℤ lane s.r3 j +ℤ pos 4816 *ℤ lane s.r5 j -ℤ pos 5680
        *ℤ lane s.r7 j)) }
    ensures t1 { result.1 ≡ lanes (λ j. int_wrap w32
        (pos 3219 *ℤ lane s.r1 j -ℤ pos 5681 *ℤ lane s.r3 j +ℤ pos 1132 *ℤ lane s.r5 j +ℤ pos 4816
        *ℤ lane s.r7 j)) }
    ensures t2 { result.2 ≡ lanes (λ j. int_wrap w32
        (pos 4816 *ℤ lane s.r1 j -ℤ pos 1129 *ℤ lane s.r3 j -ℤ pos 5681 *ℤ lane s.r5 j -ℤ pos 3218
        *ℤ lane s.r7 j)) }
    ensures t3 { result.3 ≡ lanes (λ j. int_wrap w32
        (pos 5683 *ℤ lane s.r1 j +ℤ pos 4816 *ℤ lane s.r3 j +ℤ pos 3219 *ℤ lane s.r5 j +ℤ pos 1131
        *ℤ lane s.r7 j)) }
{
    let p3 = s.r7 + s.r3;
    let p4 = s.r5 + s.r1;
    let p5 = (p3 + p4) * i32x8::splat(4816);
    let p1 = p5 + (s.r7 + s.r1) * i32x8::splat(-3685);
    let p2 = p5 + (s.r5 + s.r3) * i32x8::splat(-10497);
    let p3 = p3 * i32x8::splat(-8034);
    let p4 = p4 * i32x8::splat(-1597);
    (
        s.r7 * i32x8::splat(1223) + (p1 + p3),
        s.r5 * i32x8::splat(8410) + (p2 + p4),
        s.r3 * i32x8::splat(12586) + (p2 + p3),
        s.r1 * i32x8::splat(6149) + (p1 + p4),
    )
}

/// Returns the transform of each lane's eight numbers, modulo 2^32.
fn kernel(s: Rows, x_scale: i32) -> Rows
    ensures { HasNumbers result
        (λ index j. int_wrap w32 (transformed (λ k. lane_at s k j) index +ℤ x_scale)) }
{
    let (x0, x1, x2, x3) = kernel_x(s, x_scale);
    let (t0, t1, t2, t3) = kernel_t(s);
    Rows {
        r0: x0 + t3,
        r1: x1 + t2,
        r2: x2 + t1,
        r3: x3 + t0,
        r4: x3 - t0,
        r5: x2 - t1,
        r6: x1 - t2,
        r7: x0 - t3,
    }
}

fn transpose(rows: Rows) -> Rows
    ensures { IsTurned rows result }
{
    let (a0, a1) = rows.r0.interleave(rows.r4);
    let (b0, b1) = rows.r1.interleave(rows.r5);
    let (c0, c1) = rows.r2.interleave(rows.r6);
    let (d0, d1) = rows.r3.interleave(rows.r7);
    let (e0, e1) = a0.interleave(c0);
    let (e2, e3) = a1.interleave(c1);
    let (f0, f1) = b0.interleave(d0);
    let (f2, f3) = b1.interleave(d1);
    let (r0, r1) = e0.interleave(f0);
    let (r2, r3) = e1.interleave(f1);
    let (r4, r5) = e2.interleave(f2);
    let (r6, r7) = e3.interleave(f3);
    Rows {
        r0,
        r1,
        r2,
        r3,
        r4,
        r5,
        r6,
        r7,
    }
}

pub(crate) fn products(coefficients: [i16; 64], quantization_table: &[u16; 64], at: usize) -> i32x8
    requires { at + 8 ≤ 64 }
    ensures { result ≡ lanes (λ j. slice_index_or coefficients (at + j) (pos 0) *ℤ pos
        (slice_index quantization_table.now (at + j))) }
{
    let c = i16x8::from_slice(&coefficients[at..]).cast::<i32>();
    let q = u16x8::from_slice(&quantization_table[at..]).cast::<i32>();
    c * q
}

/// Returns whether every coefficient outside the top left 4x4 corner is 0.
fn is_in_corner(coefficients: [i16; 64]) -> bool
    ensures { IsTrue result ↔ IsInCorner coefficients }
{
    let upper = i16x8::from_slice(&coefficients[..])
        | i16x8::from_slice(&coefficients[8..])
        | i16x8::from_slice(&coefficients[16..])
        | i16x8::from_slice(&coefficients[24..]);
    let lower = i16x8::from_slice(&coefficients[32..])
        | i16x8::from_slice(&coefficients[40..])
        | i16x8::from_slice(&coefficients[48..])
        | i16x8::from_slice(&coefficients[56..]);
    let right = upper.swizzle([4, 5, 6, 7, 4, 5, 6, 7]);
    (lower | right).simd_eq(i16x8::splat(0)).all()
}

/// Returns the rows, whose last four are 0, unchanged. The zeros written here are constants, so the
/// compiler drops the products with them, and the code that computes the rows they replace.
#[inline(always)]
#[tactic(auto, using(crate::proofs::Rules::kept), unfolding(crate::specs::Lanes::lanes))]
fn with_zeros(rows: Rows) -> Rows
    requires { HasZeros rows }
    ensures { result ≡ rows }
{
    let zeros = i32x8::splat(0);
    Rows {
        r0: rows.r0,
        r1: rows.r1,
        r2: rows.r2,
        r3: rows.r3,
        r4: zeros,
        r5: zeros,
        r6: zeros,
        r7: zeros,
    }
}

/// Returns 0 in the lanes of the columns that have nothing below the first row.
fn below_first_row(coefficients: [i16; 64]) -> i32x8
    ensures { (j : ℕ) → j < 8 → lane_is_zero result j ≡ is_flat_column coefficients j }
{
    let any = i16x8::from_slice(&coefficients[8..])
        | i16x8::from_slice(&coefficients[16..])
        | i16x8::from_slice(&coefficients[24..])
        | i16x8::from_slice(&coefficients[32..])
        | i16x8::from_slice(&coefficients[40..])
        | i16x8::from_slice(&coefficients[48..])
        | i16x8::from_slice(&coefficients[56..]);
    any.cast::<i32>()
}

/// Returns the values of the flat columns.
fn flat_row(coefficients: [i16; 64], quantization_table: &[u16; 64]) -> i32x8
    ensures { result ≡ lanes (λ j. int_wrap w32 (pos 4 *ℤ dequantized coefficients
        quantization_table.now 0 j)) }
{
    products(coefficients, quantization_table, 0) << 2
}

#[tactic(auto, using(crate::proofs::Rules::kept), unfolding(crate::specs::Samples::dequantized))]
fn dequantized_rows(coefficients: [i16; 64], quantization_table: &[u16; 64]) -> Rows
    ensures { HasNumbers result (dequantized coefficients quantization_table.now) }
{
    Rows {
        r0: products(coefficients, quantization_table, 0),
        r1: products(coefficients, quantization_table, 8),
        r2: products(coefficients, quantization_table, 16),
        r3: products(coefficients, quantization_table, 24),
        r4: products(coefficients, quantization_table, 32),
        r5: products(coefficients, quantization_table, 40),
        r6: products(coefficients, quantization_table, 48),
        r7: products(coefficients, quantization_table, 56),
    }
}

/// Returns the columns of a block whose dequantized coefficients are given.
fn transform_columns(coefficients: [i16; 64], quantization_table: &[u16; 64], inputs: Rows) -> Rows
    requires { HasNumbers inputs (dequantized coefficients quantization_table.now) }
    ensures { HasNumbers result (column_value coefficients quantization_table.now) }
{
    let below = below_first_row(coefficients);
    let flat = flat_row(coefficients, quantization_table);
    let sums = kernel(inputs, COLUMN_BIAS);
    let is_flat = below.simd_eq(i32x8::splat(0));
    Rows {
        r0: is_flat.select(flat, sums.r0 >> 10),
        r1: is_flat.select(flat, sums.r1 >> 10),
        r2: is_flat.select(flat, sums.r2 >> 10),
        r3: is_flat.select(flat, sums.r3 >> 10),
        r4: is_flat.select(flat, sums.r4 >> 10),
        r5: is_flat.select(flat, sums.r5 >> 10),
        r6: is_flat.select(flat, sums.r6 >> 10),
        r7: is_flat.select(flat, sums.r7 >> 10),
    }
}

/// Returns the sums of the samples, before the last shift, of columns whose values are in rows.
fn transform_rows(turned: Rows) -> Rows
    ensures { HasNumbers result
        (λ y x. int_wrap w32 (transformed (λ k. lane_at turned k y) x +ℤ pos 16842752)) }
{
    transpose(kernel(turned, ROW_BIAS))
}

/// Returns the sums of the samples, by rows, before the last shift.
fn transform_whole(coefficients: [i16; 64], quantization_table: &[u16; 64]) -> Rows
    ensures { HasNumbers result (λ y x. int_wrap w32
        (transformed (column_value coefficients quantization_table.now y) x +ℤ pos 16842752)) }
{
    let inputs = dequantized_rows(coefficients, quantization_table);
    let columns = transform_columns(coefficients, quantization_table, inputs);
    transform_rows(transpose(columns))
}

/// Returns the same sums, for a block that is 0 outside its top left corner: half of the rows that
/// each pass takes are 0.
fn transform_corner(coefficients: [i16; 64], quantization_table: &[u16; 64]) -> Rows
    requires { IsInCorner coefficients }
    ensures { HasNumbers result (λ y x. int_wrap w32
        (transformed (column_value coefficients quantization_table.now y) x +ℤ pos 16842752)) }
{
    let inputs = with_zeros(dequantized_rows(coefficients, quantization_table));
    let columns = transform_columns(coefficients, quantization_table, inputs);
    transform_rows(with_zeros(transpose(columns)))
}

/// Returns the same sums, by the shorter way if the block allows it.
fn transform(coefficients: [i16; 64], quantization_table: &[u16; 64]) -> Rows
    ensures { HasNumbers result (λ y x. int_wrap w32
        (transformed (column_value coefficients quantization_table.now y) x +ℤ pos 16842752)) }
{
    if is_in_corner(coefficients) {
        transform_corner(coefficients, quantization_table)
    } else {
        transform_whole(coefficients, quantization_table)
    }
}

/// Returns the sums of the samples, before the last shift.
#[tactic(auto, using(crate::proofs::ShortLanes::rows))]
fn sums_of(coefficients: [i16; 64], quantization_table: &[u16; 64]) -> [[i32; 8]; 8]
    ensures { (y x : ℕ) → y < 8 → x < 8 → slice_index_or (slice_index_or result y []) x (pos 0)
        ≡ int_wrap w32 (transformed (column_value coefficients quantization_table.now y) x +ℤ pos
        16842752) }
{
    let rows = transform(coefficients, quantization_table);
    [
        rows.r0.to_array(),
        rows.r1.to_array(),
        rows.r2.to_array(),
        rows.r3.to_array(),
        rows.r4.to_array(),
        rows.r5.to_array(),
        rows.r6.to_array(),
        rows.r7.to_array(),
    ]
}

/// Writes the samples of a row to the front of the bytes.
fn write_samples(sums: &[i32; 8], output: &mut [u8])
    requires { 8 ≤ length output.old }
    ensures inside { (x : ℕ) → x < 8 → slice_index output.new x
        ≡ clamped (int_shr (slice_index_or sums.now x (pos 0)) 17) }
    ensures others { (i : ℕ) → 8 ≤ i → slice_index output.new i ≡ slice_index output.old i }
{
    for x in 0..8 {
        output[x] = sample_of(sums[x]);
    }
}

/// Returns the samples of a block, line by line. They are in an array of their own, which is known
/// to be apart from the sums, so that their clamps are vectorised.
fn samples_of(sums: &[[i32; 8]; 8]) -> [u8; 64]
    ensures { (x y : ℕ) → x < 8 → y < 8 → slice_index result (y * 8 + x)
        ≡ clamped (int_shr (slice_index_or (slice_index_or sums.now y []) x (pos 0)) 17) }
{
    let mut samples = [0u8; 64];
    for y in 0..8 {
        write_samples(&sums[y], &mut samples[y * 8..]);
    }
    samples
}

/// Copies eight samples to the front of the bytes.
fn copy_line(line: &[u8], output: &mut [u8])
    requires line { length line.now ≡ 8 }
    requires room { 8 ≤ length output.old }
    ensures inside { (x : ℕ) → x < 8 → slice_index output.new x ≡ slice_index line.now x }
    ensures others { (i : ℕ) → 8 ≤ i → slice_index output.new i ≡ slice_index output.old i }
{
    output[..8].copy_from_slice(line);
}

/// Copies the samples of a block, line by line.
fn copy_lines(samples: &[u8; 64], output_linestride: usize, output: &mut [u8])
    requires wide { 8 ≤ output_linestride }
    requires room { 7 * output_linestride + 8 ≤ length output.old }
    ensures { WritesBlock 8 8 output_linestride (λ x y. slice_index samples.now (y * 8 + x))
        output.old output.new }
{
    for y in 0..8 {
        let first = y * 8;
        copy_line(
            &samples[first..first + 8],
            &mut output[y * output_linestride..],
        );
    }
}

/// Dequantizes a block of 8x8 coefficients and transforms it to 8x8 samples, like
/// `idct::dequantize_and_idct_block_8x8`: eight columns side by side, and then eight rows.
#[inline(never)]
#[tactic(auto, unfolding(crate::specs::Samples::sample))]
pub fn dequantize_and_idct_block_8x8(
    coefficients: &[i16; 64],
    quantization_table: &[u16; 64],
    output_linestride: usize,
    output: &mut [u8],
)
    requires wide { 8 ≤ output_linestride }
    requires room { 7 * output_linestride + 8 ≤ length output.old }
    ensures { WritesBlock 8 8 output_linestride (sample coefficients.now quantization_table.now)
        output.old output.new }
{
    let samples = samples_of(&sums_of(*coefficients, quantization_table));
    copy_lines(&samples, output_linestride, output);
}
