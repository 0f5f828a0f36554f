//! Red, green and blue of brightness and two colour differences, in lanes of 16 bits.
ghost use Rattle.std.specs.Prelude.{◌≡◌, ℕ, ◌+◌, ◌-◌, ◌*◌, ◌/◌, ◌%◌, ◌<◌, ◌≤◌, length, slice_index};
ghost use Rattle.std.specs.Prelude.{◌+ℤ◌, ◌-ℤ◌, ◌*ℤ◌, ◌≤ℤ◌, pos, unsigned_abs, slice_index_or};
ghost use Rattle.std.specs.Int.{int_shr};
ghost use Rattle.jpeg_pixels.specs.Samples.{clamped};
ghost use Rattle.jpeg_pixels.specs.Colour.{centred_of, red_of, green_of, blue_of};

use crate::interleave::interleave_three;
use std::simd::prelude::*;

/// Returns a colour difference: its sample less 128.
fn centred(c: u8) -> i16
    ensures { result ≡ centred_of c }
{
    i16::from(c) - 128
}

/// Returns the upper half of a product.
fn upper_half(value: i16, factor: i16) -> i16
    ensures { result ≡ int_shr (value *ℤ factor) 16 }
{
    ((i32::from(value) * i32::from(factor)) >> 16) as i16
}

/// Returns half of a number, rounded up.
fn rounded(value: i16) -> i16
    requires { value ≤ℤ pos 32766 }
    ensures { result ≡ int_shr (value +ℤ pos 1) 1 }
{
    (value + 1) >> 1
}

/// Returns the sum of a brightness and the difference of a colour from it, as a byte.
fn added(y: u8, difference: i16) -> u8
    requires { unsigned_abs difference ≤ 1000 }
    ensures { result ≡ clamped (pos y +ℤ difference) }
{
    (i16::from(y) + difference).clamp(0, 255) as u8
}

#[tactic(auto, using(crate::proofs::LinesOfColour::reds))]
fn red(y: u8, cr: u8) -> u8
    ensures { result ≡ red_of y cr }
{
    added(y, rounded(upper_half(8 * centred(cr), 22971)))
}

/// Returns the difference of green from the brightness. In units of 1 / 2^20 its factors are
/// 44 * 2^13 + 6 * 2^6 + 25 and 91 * 2^13 + 52 * 2^6 + 30, so that each sum has at most 16 bits;
/// and each begins with a constant that keeps it from being negative, by 134 in all.
fn green_difference(cb: u8, cr: u8) -> i16
    ensures { result ≡ pos ((360857 * (255 - cb) + 748830 * (255 - cr) + 103223) / 1048576)
        -ℤ pos 134 }
{
    let cb = u16::from(cb);
    let cr = u16::from(cr);
    let fine = (14080 - 25 * cb - 30 * cr) >> 6;
    let middle = (14866 - 6 * cb - 52 * cr + fine) >> 7;
    ((34437 - 44 * cb - 91 * cr + middle) >> 7) as i16 - 134
}

#[tactic(auto, using(crate::proofs::LinesOfColour::green_by_parts))]
fn green(y: u8, cb: u8, cr: u8) -> u8
    ensures { result ≡ green_of y cb cr }
{
    added(y, green_difference(cb, cr))
}

#[tactic(auto, using(crate::proofs::LinesOfColour::blues))]
fn blue(y: u8, cb: u8) -> u8
    ensures { result ≡ blue_of y cb }
{
    added(y, rounded(upper_half(8 * centred(cb), 29033)))
}

/// Returns bytes from an index on, in lanes.
#[inline(always)]
fn load<const N: usize>(samples: &[u8], at: usize) -> Simd<u8, N>
    requires { at + N ≤ length samples.now }
    ensures { (x : ℕ) → x < N → slice_index result x ≡ slice_index samples.now (at + x) }
{
    Simd::from_slice(&samples[at..])
}

/// Writes bytes to the front of a row.
#[inline(always)]
fn store<const N: usize>(lanes: Simd<u8, N>, row: &mut [u8])
    requires { N ≤ length row.old }
    ensures inside { (x : ℕ) → x < N → slice_index row.new x ≡ slice_index lanes.entry x }
    ensures others { (i : ℕ) → N ≤ i → slice_index row.new i ≡ slice_index row.old i }
{
    lanes.copy_to_slice(row);
}

/// Returns the sums of brightnesses and the differences of a colour from them, as bytes.
#[inline(always)]
fn added_lanes<const N: usize>(y: Simd<u8, N>, differences: Simd<i16, N>) -> Simd<u8, N>
    requires { (x : ℕ) → x < N → unsigned_abs (slice_index_or differences x (pos 0)) ≤ 1000 }
    ensures { (x : ℕ) → x < N → slice_index result x
        ≡ clamped (pos (slice_index y.entry x) +ℤ slice_index_or differences.entry x (pos 0)) }
{
    (y.cast::<i16>() + differences)
        .simd_clamp(Simd::splat(0), Simd::splat(255))
        .cast::<u8>()
}

/// Returns the differences of red or blue from the brightness: colour differences times a factor
/// in units of 1 / 2^14, rounded.
#[inline(always)]
fn scaled_lanes<const N: usize>(c: Simd<u8, N>, factor: i16) -> Simd<i16, N>
    ensures small { (x : ℕ) → x < N → unsigned_abs (slice_index_or result x (pos 0)) ≤ 1000 }
    ensures value { (x : ℕ) → x < N → slice_index_or result x (pos 0) ≡
        int_shr (int_shr (pos 8 *ℤ centred_of (slice_index c.entry x) *ℤ factor) 16 +ℤ pos 1) 1 }
{
    let centred = c.cast::<i16>() - Simd::splat(128);
    let eighths = Simd::splat(8) * centred;
    let products = eighths.cast::<i32>() * Simd::splat(i32::from(factor));
    let upper = (products >> 16).cast::<i16>();
    (upper + Simd::splat(1)) >> 1
}

/// Returns the differences of green from the brightness, like `green_difference`.
#[inline(always)]
fn green_differences<const N: usize>(cb: Simd<u8, N>, cr: Simd<u8, N>) -> Simd<i16, N>
    ensures small { (x : ℕ) → x < N → unsigned_abs (slice_index_or result x (pos 0)) ≤ 1000 }
    ensures value { (x : ℕ) → x < N → slice_index_or result x (pos 0) ≡
        pos ((360857 * (255 - slice_index cb.entry x)
        + 748830 * (255 - slice_index cr.entry x) + 103223) / 1048576) -ℤ pos 134 }
{
    let cb = cb.cast::<u16>();
    let cr = cr.cast::<u16>();
    let fine = Simd::splat(14080) - Simd::splat(25) * cb - Simd::splat(30) * cr;
    let middle = Simd::splat(14866) - Simd::splat(6) * cb - Simd::splat(52) * cr + (fine >> 6);
    let sum = Simd::splat(34437) - Simd::splat(44) * cb - Simd::splat(91) * cr + (middle >> 7);
    (sum >> 7).cast::<i16>() - Simd::splat(134)
}

/// Returns the red of the pixels from an index on.
#[inline(always)]
fn red_at<const N: usize>(y: &[u8], cr: &[u8], at: usize) -> Simd<u8, N>
    requires few { N ≤ 64 }
    requires y_room { at + N ≤ length y.now }
    requires cr_room { at + N ≤ length cr.now }
    ensures { (x : ℕ) → x < N → slice_index result x
        ≡ red_of (slice_index y.now (at + x)) (slice_index cr.now (at + x)) }
{
    added_lanes(load(y, at), scaled_lanes(load(cr, at), 22971))
}

#[inline(always)]
fn green_at<const N: usize>(y: &[u8], cb: &[u8], cr: &[u8], at: usize) -> Simd<u8, N>
    requires few { N ≤ 64 }
    requires y_room { at + N ≤ length y.now }
    requires cb_room { at + N ≤ length cb.now }
    requires cr_room { at + N ≤ length cr.now }
    ensures { (x : ℕ) → x < N → slice_index result x ≡ green_of
        (slice_index y.now (at + x)) (slice_index cb.now (at + x)) (slice_index cr.now (at + x)) }
{
    added_lanes(load(y, at), green_differences(load(cb, at), load(cr, at)))
}

#[inline(always)]
fn blue_at<const N: usize>(y: &[u8], cb: &[u8], at: usize) -> Simd<u8, N>
    requires few { N ≤ 64 }
    requires y_room { at + N ≤ length y.now }
    requires cb_room { at + N ≤ length cb.now }
    ensures { (x : ℕ) → x < N → slice_index result x
        ≡ blue_of (slice_index y.now (at + x)) (slice_index cb.now (at + x)) }
{
    added_lanes(load(y, at), scaled_lanes(load(cb, at), 29033))
}

/// Red, green and blue of up to 64 pixels.
#[derive(Clone, Copy)]
pub(crate) struct ColorRows {
    pub(crate) red: [u8; 64],
    pub(crate) green: [u8; 64],
    pub(crate) blue: [u8; 64],
}

/// Writes red, green and blue of some pixels from `start` on, in chunks of eight.
#[inline(always)]
fn write_chunks(y: &[u8], cb: &[u8], cr: &[u8], start: usize, count: usize, rows: &mut ColorRows)
    requires most { count ≤ 64 }
    requires y_room { start + count ≤ length y.now }
    requires cb_room { start + count ≤ length cb.now }
    requires cr_room { start + count ≤ length cr.now }
    ensures red { (x : ℕ) → x < count → slice_index rows.new.red x
        ≡ red_of (slice_index y.now (start + x)) (slice_index cr.now (start + x)) }
    ensures green { (x : ℕ) → x < count → slice_index rows.new.green x ≡ green_of
        (slice_index y.now (start + x)) (slice_index cb.now (start + x))
        (slice_index cr.now (start + x)) }
    ensures blue { (x : ℕ) → x < count → slice_index rows.new.blue x
        ≡ blue_of (slice_index y.now (start + x)) (slice_index cb.now (start + x)) }
{
    let chunks = count / 8;
    for chunk in 0..chunks {
        let at = start + 8 * chunk;
        store(red_at::<8>(y, cr, at), &mut rows.red[8 * chunk..]);
        store(green_at::<8>(y, cb, cr, at), &mut rows.green[8 * chunk..]);
        store(blue_at::<8>(y, cb, at), &mut rows.blue[8 * chunk..]);
    }
    for x in 8 * chunks..count {
        let at = start + x;
        rows.red[x] = red(y[at], cr[at]);
        rows.green[x] = green(y[at], cb[at], cr[at]);
        rows.blue[x] = blue(y[at], cb[at]);
    }
}

/// Returns red, green and blue of some pixels from `start` on: of 64 in lanes at once.
#[inline(always)]
pub(crate) fn color_rows(y: &[u8], cb: &[u8], cr: &[u8], start: usize, count: usize) -> ColorRows
    requires most { count ≤ 64 }
    requires y_room { start + count ≤ length y.now }
    requires cb_room { start + count ≤ length cb.now }
    requires cr_room { start + count ≤ length cr.now }
    ensures red { (x : ℕ) → x < count → slice_index result.red x
        ≡ red_of (slice_index y.now (start + x)) (slice_index cr.now (start + x)) }
    ensures green { (x : ℕ) → x < count → slice_index result.green x ≡ green_of
        (slice_index y.now (start + x)) (slice_index cb.now (start + x))
        (slice_index cr.now (start + x)) }
    ensures blue { (x : ℕ) → x < count → slice_index result.blue x
        ≡ blue_of (slice_index y.now (start + x)) (slice_index cb.now (start + x)) }
{
    if count == 64 {
        ColorRows {
            red: red_at::<64>(y, cr, start).to_array(),
            green: green_at::<64>(y, cb, cr, start).to_array(),
            blue: blue_at::<64>(y, cb, start).to_array(),
        }
    } else {
        let mut rows = ColorRows {
            red: [0; 64],
            green: [0; 64],
            blue: [0; 64],
        };
        write_chunks(y, cb, cr, start, count, &mut rows);
        rows
    }
}

/// Writes red, green and blue of some pixels from `start` on, by rows of 64.
#[inline(always)]
fn write_ycbcr_rows(y: &[u8], cb: &[u8], cr: &[u8], start: usize, count: usize, output: &mut [u8])
    requires most { count ≤ 64 }
    requires y_room { start + count ≤ length y.now }
    requires cb_room { start + count ≤ length cb.now }
    requires cr_room { start + count ≤ length cr.now }
    requires room { 3 * (start + count) ≤ length output.old }
    ensures red { (x : ℕ) → x < count → slice_index output.new (3 * (start + x))
        ≡ red_of (slice_index y.now (start + x)) (slice_index cr.now (start + x)) }
    ensures green { (x : ℕ) → x < count → slice_index output.new (3 * (start + x) + 1) ≡ green_of
        (slice_index y.now (start + x)) (slice_index cb.now (start + x))
        (slice_index cr.now (start + x)) }
    ensures blue { (x : ℕ) → x < count → slice_index output.new (3 * (start + x) + 2)
        ≡ blue_of (slice_index y.now (start + x)) (slice_index cb.now (start + x)) }
    ensures before { (i : ℕ) → i < 3 * start → slice_index output.new i ≡ slice_index output.old i }
    ensures after { (i : ℕ) → 3 * (start + count) ≤ i → slice_index output.new i
        ≡ slice_index output.old i }
{
    let rows = color_rows(y, cb, cr, start, count);
    interleave_three(&rows.red, &rows.green, &rows.blue, count, output, start);
}

/// Like `write_ycbcr_rows`. Most pieces have 64 pixels: where the compiler knows their number, it
/// unrolls the loops over the rows, and keeps these in registers.
#[inline(never)]
pub(crate) fn write_ycbcr_piece(
    y: &[u8],
    cb: &[u8],
    cr: &[u8],
    start: usize,
    count: usize,
    output: &mut [u8],
)
    requires most { count ≤ 64 }
    requires y_room { start + count ≤ length y.now }
    requires cb_room { start + count ≤ length cb.now }
    requires cr_room { start + count ≤ length cr.now }
    requires room { 3 * (start + count) ≤ length output.old }
    ensures red { (x : ℕ) → x < count → slice_index output.new (3 * (start + x))
        ≡ red_of (slice_index y.now (start + x)) (slice_index cr.now (start + x)) }
    ensures green { (x : ℕ) → x < count → slice_index output.new (3 * (start + x) + 1) ≡ green_of
        (slice_index y.now (start + x)) (slice_index cb.now (start + x))
        (slice_index cr.now (start + x)) }
    ensures blue { (x : ℕ) → x < count → slice_index output.new (3 * (start + x) + 2)
        ≡ blue_of (slice_index y.now (start + x)) (slice_index cb.now (start + x)) }
    ensures before { (i : ℕ) → i < 3 * start → slice_index output.new i ≡ slice_index output.old i }
    ensures after { (i : ℕ) → 3 * (start + count) ≤ i → slice_index output.new i
        ≡ slice_index output.old i }
{
    if count == 64 {
        write_ycbcr_rows(y, cb, cr, start, 64, output);
    } else {
        write_ycbcr_rows(y, cb, cr, start, count, output);
    }
}

/// Writes red, green and blue of pixels from their brightness and two colour differences, in chunks
/// of eight: of the pixels for which the output has room, those that make whole chunks. Returns
/// their number. The output's other bytes stay as they are.
pub fn color_convert_line_ycbcr(y: &[u8], cb: &[u8], cr: &[u8], output: &mut [u8]) -> usize
    requires whole { 3 * (length output.old / 3) ≡ length output.old }
    requires y_long { length output.old ≤ 3 * length y.now }
    requires cb_long { length output.old ≤ 3 * length cb.now }
    requires cr_long { length output.old ≤ 3 * length cr.now }
    ensures count { result ≡ length output.old / 3 - length output.old / 3 % 8 }
    ensures red { (x : ℕ) → x < result → slice_index output.new (3 * x)
        ≡ red_of (slice_index y.now x) (slice_index cr.now x) }
    ensures green { (x : ℕ) → x < result → slice_index output.new (3 * x + 1)
        ≡ green_of (slice_index y.now x) (slice_index cb.now x) (slice_index cr.now x) }
    ensures blue { (x : ℕ) → x < result → slice_index output.new (3 * x + 2)
        ≡ blue_of (slice_index y.now x) (slice_index cb.now x) }
    ensures rest { (i : ℕ) → 3 * result ≤ i → slice_index output.new i ≡ slice_index output.old i }
{
    let pixels = output.len() / 3;
    let count = pixels - pixels % 8;
    let pieces = count / 64;
    for piece in 0..pieces {
        write_ycbcr_piece(y, cb, cr, 64 * piece, 64, output);
    }
    write_ycbcr_piece(y, cb, cr, 64 * pieces, count % 64, output);
    count
}
