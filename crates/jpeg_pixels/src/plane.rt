//! Planes of samples: the samples of a component, line by line (T.81, A.1.1 and A.2).
ghost use Rattle.std.specs.Prelude.{◌≡◌, ℕ, ◌+◌, ◌≤◌, ◌<◌, ◌*◌, ◌++◌, OnOk, OnErr};
ghost use Rattle.std.specs.Prelude.{length, slice_index, slice_index_or, vec_capacity};
ghost use Rattle.jpeg_pixels.specs.Planes.{plane_of, strip_of, zero_coefficients, cropped};
ghost use Rattle.jpeg_pixels.specs.Scaled.{IsScale};

use crate::idct::dequantize_and_idct_block;
use crate::short_block::{ShortTable, short_table, write_block};
use std::alloc::AllocError;
use std::marker::Model;

/// A quantization table in block order, with what the transform of blocks needs of it.
#[derive(Drop)]
pub struct SampleTable {
    values: [u16; 64],
    short: ShortTable,
}

impl Model for SampleTable {
    ghost use Rattle.std.specs.Prelude.{ℕ, List};
    ghost use Rattle.jpeg_pixels.specs.ShortRows.{IsShortTable};

    ghost Value = { List ℕ };

    ghost view = { λ t. t.values };

    ghost invariant = { λ t. IsShortTable t.short t.values };
}

impl SampleTable {
    ghost use Rattle.std.specs.Prelude.{◌≡◌, ◌+◌, ◌-◌, ◌*◌, ◌≤◌, length};
    ghost use Rattle.jpeg_pixels.specs.Blocks.{WritesBlock};
    ghost use Rattle.jpeg_pixels.specs.Scaled.{IsScale, sample_at};

    /// Makes the table from a quantization table in block order.
    pub fn new(quantization_table: &[u16; 64]) -> SampleTable
        ensures { result ≡ quantization_table.now }
    {
        SampleTable {
            values: *quantization_table,
            short: short_table(quantization_table),
        }
    }

    /// Writes the samples of a block to the front of the output, `scale` to a line, in lines of
    /// `stride` bytes. All planes are written by this call.
    ///
    /// Of all coefficients and all quantization values it writes what is defined, whichever kernel
    /// runs. At full size a block with no dequantized coefficient above 1095, as in photographs, is
    /// transformed in lanes of 16 bits, and any other in the lanes of 32 bits of `arch`; at less
    /// than full size, each by the transforms of `idct`.
    #[inline(always)]
    #[tactic(auto, unfolding(crate::specs::Scaled::sample_at))]
    pub fn write_block(&self, scale: usize, block: &[i16; 64], stride: usize, output: &mut [u8])
        requires scale { IsScale scale }
        requires wide { scale ≤ stride }
        requires room { (scale - 1) * stride + scale ≤ length output.old }
        ensures { WritesBlock scale scale stride (sample_at scale block.now self.now) output.old
            output.new }
    {
        if scale == 8 {
            write_block(block, &self.values, &self.short, stride, output);
        } else {
            dequantize_and_idct_block(scale, block, &self.values, stride, output);
        }
    }
}

/// Appends the samples of a row of blocks to a plane: `scale` lines of `scale * blocks.len()`
/// samples.
///
/// A block gives `scale` samples per side: 1, 2, 4 or 8. The blocks and the quantization table are
/// in block order: row `v` and column `u` at `8 * v + u`. The only error is a refused allocation;
/// the plane then stays as it was.
pub fn append_row(
    plane: &mut Vec<u8>,
    scale: usize,
    blocks: &[[i16; 64]],
    quantization_table: &[u16; 64],
) -> Result<(), AllocError>
    requires scale { IsScale scale }
    requires few { length blocks.now ≤ 65536 }
    ensures ok { OnOk result
        (plane.new.items ≡ plane.old.items ++ strip_of scale quantization_table.now blocks.now) }
    ensures err { OnErr result (plane.new.items ≡ plane.old.items) }
{
    append_strip(plane, scale, blocks, &SampleTable::new(quantization_table))
}

/// Appends the samples of a row of blocks to a plane, like `append_row`, with a table that was made
/// for all rows. It doesn't fail where the plane has room for them.
pub fn append_strip(
    plane: &mut Vec<u8>,
    scale: usize,
    blocks: &[[i16; 64]],
    table: &SampleTable,
) -> Result<(), AllocError>
    requires scale { IsScale scale }
    requires few { length blocks.now ≤ 65536 }
    ensures ok { OnOk result
        (plane.new.items ≡ plane.old.items ++ strip_of scale table.now blocks.now) }
    ensures err { OnErr result (plane.new.items ≡ plane.old.items) }
    ensures full { OnErr result (vec_capacity plane.old
        < length plane.old.items + scale * scale * length blocks.now) }
    ensures cap { vec_capacity plane.old ≤ vec_capacity plane.new }
{
    append_strips(plane, scale, blocks.len(), 1, blocks, table)
}

/// Appends the samples of some rows of blocks to a plane, as `append_strip` does row by row. The
/// blocks stand in raster order, `blocks_wide` to a row.
///
/// It doesn't fail where the plane has room for all of them.
pub fn append_strips(
    plane: &mut Vec<u8>,
    scale: usize,
    blocks_wide: usize,
    rows: usize,
    blocks: &[[i16; 64]],
    table: &SampleTable,
) -> Result<(), AllocError>
    requires scale { IsScale scale }
    requires few { blocks_wide ≤ 65536 }
    requires few_rows { rows ≤ 65535 }
    requires blocks { length blocks.now ≡ blocks_wide * rows }
    ensures ok { OnOk result (plane.new.items ≡ plane.old.items
        ++ plane_of scale table.now blocks_wide rows
        (λ row column. slice_index_or blocks.now (row * blocks_wide + column) zero_coefficients)) }
    ensures err { OnErr result (plane.new.items ≡ plane.old.items) }
    ensures full { OnErr result (vec_capacity plane.old
        < length plane.old.items + scale * blocks_wide * (scale * rows)) }
    ensures cap { vec_capacity plane.old ≤ vec_capacity plane.new }
{
    let start = plane.len();
    plane.resize(start + scale * scale * blocks.len(), 0)?;
    write_strips(scale, &mut plane[start..], blocks, blocks_wide, rows, table);
    Ok(())
}

/// Writes the samples of some rows of blocks, one after the other.
#[tactic(auto, using(crate::proofs::PlaneRows::planes))]
fn write_strips(
    scale: usize,
    strips: &mut [u8],
    blocks: &[[i16; 64]],
    blocks_wide: usize,
    rows: usize,
    table: &SampleTable,
)
    requires scale { IsScale scale }
    requires few { blocks_wide ≤ 65536 }
    requires few_rows { rows ≤ 65535 }
    requires blocks { length blocks.now ≡ blocks_wide * rows }
    requires room { length strips.old ≡ scale * blocks_wide * (scale * rows) }
    ensures { strips.new ≡ plane_of scale table.now blocks_wide rows
        (λ row column. slice_index_or blocks.now (row * blocks_wide + column) zero_coefficients) }
{
    let size = scale * scale * blocks_wide;
    for row in 0..rows {
        let start = row * size;
        let first = row * blocks_wide;
        write_strip(
            scale,
            &mut strips[start..start + size],
            &blocks[first..first + blocks_wide],
            table,
        );
    }
}

/// Writes the samples of a row of blocks.
fn write_strip(scale: usize, strip: &mut [u8], blocks: &[[i16; 64]], table: &SampleTable)
    requires scale { IsScale scale }
    requires few { length blocks.now ≤ 65536 }
    requires room { length strip.old ≡ scale * scale * length blocks.now }
    ensures { strip.new ≡ strip_of scale table.now blocks.now }
{
    let stride = scale * blocks.len();
    for column in 0..blocks.len() {
        table.write_block(scale, &blocks[column], stride, &mut strip[scale * column..]);
    }
}

/// Crops a plane with lines of `stride` samples in place: the first `width` samples of the first
/// `height` lines are kept.
pub fn crop(plane: &mut Vec<u8>, stride: usize, width: usize, height: usize)
    requires width { width ≤ stride }
    requires room { height * stride ≤ length plane.old.items }
    ensures { plane.new.items ≡ cropped stride width height plane.old.items }
{
    if width < stride {
        close_lines(plane, stride, width, height);
    }
    plane.truncate(width * height);
}

/// Moves the first `width` samples of each line to the front, line after line.
fn close_lines(lines: &mut [u8], stride: usize, width: usize, height: usize)
    requires width { width ≤ stride }
    requires room { height * stride ≤ length lines.old }
    ensures { (y x : ℕ) → y < height → x < width →
        slice_index lines.new (y * width + x) ≡ slice_index lines.old (y * stride + x) }
{
    for y in 0..height {
        let start = y * stride;
        lines.copy_within(start..start + width, y * width);
    }
}
