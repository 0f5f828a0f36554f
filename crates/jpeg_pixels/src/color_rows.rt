//! The colours of a line (JFIF, and Adobe's transforms), in whole numbers.
ghost use Rattle.std.specs.Prelude.{◌≡◌, ℕ, ◌+◌, ◌-◌, ◌*◌, ◌<◌, ◌≤◌, length, slice_index};
ghost use Rattle.jpeg_pixels.specs.Colour.{red_of, green_of, blue_of};

use crate::arch::ycbcr::{color_convert_line_ycbcr, color_rows, write_ycbcr_piece};
use crate::interleave::{FourRows, interleave_four, interleave_three};

/// Writes 255 minus each sample from index `start` on.
fn inverted_row(lines: &[u8], start: usize, count: usize, row: &mut [u8; 64])
    requires most { count ≤ 64 }
    requires room { start + count ≤ length lines.now }
    ensures { (x : ℕ) → x < count → slice_index row.new x
        ≡ 255 - slice_index lines.now (start + x) }
{
    for x in 0..count {
        row[x] = 255 - lines[start + x];
    }
}

/// Writes red, green, blue and the inverse of the fourth component of some pixels from `start` on.
#[inline(always)]
fn write_ycck_piece(lines: &[u8], width: usize, start: usize, count: usize, output: &mut [u8])
    requires most { count ≤ 64 }
    requires inside { start + count ≤ width }
    requires lines { 4 * width ≤ length lines.now }
    requires room { 4 * width ≤ length output.old }
    ensures red { (x : ℕ) → x < count → slice_index output.new (4 * (start + x))
        ≡ red_of (slice_index lines.now (start + x))
        (slice_index lines.now (2 * width + (start + x))) }
    ensures green { (x : ℕ) → x < count → slice_index output.new (4 * (start + x) + 1)
        ≡ green_of (slice_index lines.now (start + x)) (slice_index lines.now (width + (start + x)))
        (slice_index lines.now (2 * width + (start + x))) }
    ensures blue { (x : ℕ) → x < count → slice_index output.new (4 * (start + x) + 2)
        ≡ blue_of (slice_index lines.now (start + x))
        (slice_index lines.now (width + (start + x))) }
    ensures black { (x : ℕ) → x < count → slice_index output.new (4 * (start + x) + 3)
        ≡ 255 - slice_index lines.now (3 * width + (start + x)) }
    ensures before { (i : ℕ) → i < 4 * start → slice_index output.new i ≡ slice_index output.old i }
{
    let cb = &lines[width..];
    let cr = &lines[2 * width..];
    let colors = color_rows(lines, cb, cr, start, count);
    let mut black = [0; 64];
    inverted_row(lines, 3 * width + start, count, &mut black);
    let rows = FourRows {
        first: &colors.red,
        second: &colors.green,
        third: &colors.blue,
        fourth: &black,
    };
    interleave_four(&rows, count, output, start);
}

/// Writes the inverse of each component of some pixels from `start` on.
#[inline(never)]
fn write_cmyk_piece(lines: &[u8], width: usize, start: usize, count: usize, output: &mut [u8])
    requires most { count ≤ 64 }
    requires inside { start + count ≤ width }
    requires lines { 4 * width ≤ length lines.now }
    requires room { 4 * width ≤ length output.old }
    ensures cyan { (x : ℕ) → x < count → slice_index output.new (4 * (start + x))
        ≡ 255 - slice_index lines.now (start + x) }
    ensures magenta { (x : ℕ) → x < count → slice_index output.new (4 * (start + x) + 1)
        ≡ 255 - slice_index lines.now (width + (start + x)) }
    ensures yellow { (x : ℕ) → x < count → slice_index output.new (4 * (start + x) + 2)
        ≡ 255 - slice_index lines.now (2 * width + (start + x)) }
    ensures black { (x : ℕ) → x < count → slice_index output.new (4 * (start + x) + 3)
        ≡ 255 - slice_index lines.now (3 * width + (start + x)) }
    ensures before { (i : ℕ) → i < 4 * start → slice_index output.new i ≡ slice_index output.old i }
{
    let mut cyan = [0; 64];
    let mut magenta = [0; 64];
    let mut yellow = [0; 64];
    let mut black = [0; 64];
    inverted_row(lines, start, count, &mut cyan);
    inverted_row(lines, width + start, count, &mut magenta);
    inverted_row(lines, 2 * width + start, count, &mut yellow);
    inverted_row(lines, 3 * width + start, count, &mut black);
    let rows = FourRows {
        first: &cyan,
        second: &magenta,
        third: &yellow,
        fourth: &black,
    };
    interleave_four(&rows, count, output, start);
}

/// Writes the pixels of a line of red, green and blue, whose components follow one another.
pub(crate) fn write_rgb(lines: &[u8], width: usize, output: &mut [u8])
    requires lines { 3 * width ≤ length lines.now }
    requires room { 3 * width ≤ length output.old }
    ensures red { (x : ℕ) → x < width → slice_index output.new (3 * x) ≡ slice_index lines.now x }
    ensures green { (x : ℕ) → x < width → slice_index output.new (3 * x + 1)
        ≡ slice_index lines.now (width + x) }
    ensures blue { (x : ℕ) → x < width → slice_index output.new (3 * x + 2)
        ≡ slice_index lines.now (2 * width + x) }
{
    interleave_three(
        lines,
        &lines[width..],
        &lines[2 * width..],
        width,
        output,
        0,
    );
}

/// Writes the pixels of a line of brightness and two colour differences, which follow one another:
/// red, green and blue.
pub(crate) fn write_ycbcr(lines: &[u8], width: usize, output: &mut [u8])
    requires lines { 3 * width ≤ length lines.now }
    requires room { length output.old ≡ 3 * width }
    ensures red { (x : ℕ) → x < width → slice_index output.new (3 * x)
        ≡ red_of (slice_index lines.now x) (slice_index lines.now (2 * width + x)) }
    ensures green { (x : ℕ) → x < width → slice_index output.new (3 * x + 1)
        ≡ green_of (slice_index lines.now x) (slice_index lines.now (width + x))
        (slice_index lines.now (2 * width + x)) }
    ensures blue { (x : ℕ) → x < width → slice_index output.new (3 * x + 2)
        ≡ blue_of (slice_index lines.now x) (slice_index lines.now (width + x)) }
{
    let cb = &lines[width..];
    let cr = &lines[2 * width..];
    let done = color_convert_line_ycbcr(lines, cb, cr, output);
    write_ycbcr_piece(lines, cb, cr, done, width - done, output);
}

/// Writes the pixels of a line of brightness, two colour differences and black, which follow one
/// another: red, green, blue, and black inverted.
pub(crate) fn write_ycck(lines: &[u8], width: usize, output: &mut [u8])
    requires lines { 4 * width ≤ length lines.now }
    requires room { 4 * width ≤ length output.old }
    ensures red { (x : ℕ) → x < width → slice_index output.new (4 * x)
        ≡ red_of (slice_index lines.now x) (slice_index lines.now (2 * width + x)) }
    ensures green { (x : ℕ) → x < width → slice_index output.new (4 * x + 1)
        ≡ green_of (slice_index lines.now x) (slice_index lines.now (width + x))
        (slice_index lines.now (2 * width + x)) }
    ensures blue { (x : ℕ) → x < width → slice_index output.new (4 * x + 2)
        ≡ blue_of (slice_index lines.now x) (slice_index lines.now (width + x)) }
    ensures black { (x : ℕ) → x < width → slice_index output.new (4 * x + 3)
        ≡ 255 - slice_index lines.now (3 * width + x) }
{
    let pieces = width / 64;
    for piece in 0..pieces {
        write_ycck_piece(lines, width, 64 * piece, 64, output);
    }
    write_ycck_piece(lines, width, 64 * pieces, width % 64, output);
}

/// Writes the pixels of a line of cyan, magenta, yellow and black, which follow one another, each
/// inverted.
pub(crate) fn write_cmyk(lines: &[u8], width: usize, output: &mut [u8])
    requires lines { 4 * width ≤ length lines.now }
    requires room { 4 * width ≤ length output.old }
    ensures cyan { (x : ℕ) → x < width → slice_index output.new (4 * x)
        ≡ 255 - slice_index lines.now x }
    ensures magenta { (x : ℕ) → x < width → slice_index output.new (4 * x + 1)
        ≡ 255 - slice_index lines.now (width + x) }
    ensures yellow { (x : ℕ) → x < width → slice_index output.new (4 * x + 2)
        ≡ 255 - slice_index lines.now (2 * width + x) }
    ensures black { (x : ℕ) → x < width → slice_index output.new (4 * x + 3)
        ≡ 255 - slice_index lines.now (3 * width + x) }
{
    let pieces = width / 64;
    for piece in 0..pieces {
        write_cmyk_piece(lines, width, 64 * piece, 64, output);
    }
    write_cmyk_piece(lines, width, 64 * pieces, width % 64, output);
}
