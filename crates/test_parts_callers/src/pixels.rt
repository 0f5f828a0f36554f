//! Callers of `jpeg_pixels`.
ghost use Rattle.std.specs.Prelude.{◌≡◌, ◌+◌, ◌-◌, ◌*◌, ◌≤◌, ◌<◌, ℕ, ℤ, ◌∷◌, [], List, Ok, Some, None};
ghost use Rattle.std.specs.Prelude.{get_or, length, map, set, MatchResult, OnOk};
ghost use Rattle.std.specs.Iterator.{Drains, HoldsAlong, IsFinite};
ghost use Rattle.std.specs.declared.alloc.Global.{Global};
ghost use Rattle.std.specs.declared.vec.Vec.{Vec};
ghost use Rattle.jpeg_bits.specs.Reading.{Gives};
ghost use Rattle.jpeg_pixels.specs.Blocks.{WritesBlock};
ghost use Rattle.jpeg_pixels.specs.Colour.{conversion_of};
ghost use Rattle.jpeg_pixels.specs.Pictures.{AllCover, picture_line};
ghost use Rattle.jpeg_pixels.specs.PicturesView.{IsFor};
ghost use Rattle.jpeg_pixels.specs.Samples.{sample};
ghost use Rattle.jpeg_pixels.specs.Scaled.{IsScale, sample_at};
ghost use Rattle.jpeg_pixels.specs.Workers.{AreRows, IsRowAt, plane_at, with_row, with_rows};
ghost use Rattle.jpeg_pixels.specs.Workers.{work_of};
ghost use Rattle.jpeg_segments.specs.FrameView.{component_in};

use jpeg_bits::color_transform::ColorTransform;
use jpeg_bits::error::Result;
use jpeg_pixels::plane::SampleTable;
use jpeg_pixels::upsampler::{ColorConvert, Upsampler};
use jpeg_pixels::worker::{ImmediateWorker, RowData};
use jpeg_pixels::{arch, idct};
use std::alloc::Global;

/// Calls `idct::dequantize_and_idct_block_8x8`.
pub fn samples(
    coefficients: &[i16; 64],
    quantization_table: &[u16; 64],
    output_linestride: usize,
    output: &mut [u8],
)
    requires wide { 8 ≤ output_linestride }
    requires room { 7 * output_linestride + 8 ≤ length output.old }
    ensures { WritesBlock 8 8 output_linestride (sample coefficients.now quantization_table.now)
        output.old output.new }
{
    idct::dequantize_and_idct_block_8x8(coefficients, quantization_table, output_linestride, output)
}

/// Calls `arch::dequantize_and_idct_block_8x8`.
pub fn samples_by_lanes(
    coefficients: &[i16; 64],
    quantization_table: &[u16; 64],
    output_linestride: usize,
    output: &mut [u8],
)
    requires wide { 8 ≤ output_linestride }
    requires room { 7 * output_linestride + 8 ≤ length output.old }
    ensures { WritesBlock 8 8 output_linestride (sample coefficients.now quantization_table.now)
        output.old output.new }
{
    arch::dequantize_and_idct_block_8x8(coefficients, quantization_table, output_linestride, output)
}

/// Calls `SampleTable::write_block`.
pub fn samples_in_a_plane(
    table: &SampleTable,
    scale: usize,
    block: &[i16; 64],
    stride: usize,
    output: &mut [u8],
)
    requires scale { IsScale scale }
    requires wide { scale ≤ stride }
    requires room { (scale - 1) * stride + scale ≤ length output.old }
    ensures { WritesBlock scale scale stride (sample_at scale block.now table.now) output.old
        output.new }
{
    table.write_block(scale, block, stride, output)
}

/// Calls `ColorConvert::choose`.
pub fn conversion(
    alloc: Global,
    component_count: usize,
    color_transform: ColorTransform,
) -> Result<ColorConvert>
    ensures { Gives (conversion_of component_count color_transform) result }
{
    ColorConvert::choose(alloc, component_count, color_transform)
}

/// Calls `Upsampler::upsample_and_interleave_row`.
pub fn line(
    upsampler: &Upsampler,
    component_data: &[Vec<u8>],
    row: usize,
    output_width: usize,
    output: &mut [u8],
    color_convert: ColorConvert,
) -> Result<()>
    requires planes { length component_data.now ≡ length upsampler.now }
    requires cover { AllCover upsampler.now (map (λ v. v.items) component_data.now) output_width
        (row + 1) }
    requires fits { IsFor (length upsampler.now) color_convert }
    requires room { length output.old ≡ length upsampler.now * output_width }
    ensures { OnOk result
        (output.new ≡ picture_line color_convert upsampler.now
        (map (λ v. v.items) component_data.now) output_width row) }
{
    upsampler.upsample_and_interleave_row(component_data, row, output_width, output, color_convert)
}

/// Calls `ImmediateWorker::default_in_memory`.
pub fn worker(alloc: Global) -> Result<ImmediateWorker>
    ensures { result ≡ Ok (None ∷ None ∷ None ∷ None ∷ []) }
{
    ImmediateWorker::default_in_memory(alloc)
}

/// Calls `ImmediateWorker::start`.
pub fn start(worker: &mut ImmediateWorker, row_data: RowData) -> Result<()>
    requires index { row_data.index < 4 }
    requires none_kept { get_or worker.old row_data.index None ≡ None }
    requires scale { IsScale row_data.component.dct_scale }
    ensures { OnOk result (worker.new ≡ set worker.old row_data.index
        (Some (work_of (component_in row_data.component) row_data.quantization_table))) }
{
    worker.start(row_data)
}

/// Calls `ImmediateWorker::append_row`.
pub fn append_row(worker: &mut ImmediateWorker, row: (usize, Vec<i16>)) -> Result<()>
    requires index { row.0 < 4 }
    requires row { IsRowAt (get_or worker.old row.0 None) row.1.items }
    ensures { worker.new ≡ with_row worker.old row.0 row.1.items }
{
    worker.append_row(row)
}

/// Calls `ImmediateWorker::append_rows`.
pub fn append_rows<I: Iterator<Item = (usize, Vec<i16>)> + Drop>(
    worker: &mut ImmediateWorker,
    rows: I,
) -> Result<()>
    requires can { I.can_next rows }
    requires ends { IsFinite (I.remaining rows) }
    requires rows { HoldsAlong I.next_gives rows (AreRows worker.old) }
    ensures { (given : List (ℕ × Vec ℤ Global)) × Drains I.next_gives rows given
        × (worker.new ≡ with_rows worker.old given) }
{
    worker.append_rows(rows)
}

/// Calls `ImmediateWorker::get_result`, for the plane.
pub fn plane(worker: &mut ImmediateWorker, index: usize) -> Result<Vec<u8>>
    requires { index < 4 }
    ensures { MatchResult result
        (λ plane. plane.items ≡ plane_at (get_or worker.old index None)) (λ e. ⊥) }
{
    worker.get_result(index)
}

/// Calls `ImmediateWorker::get_result`, for what the worker has then.
pub fn drop_plane(worker: &mut ImmediateWorker, index: usize) -> Result<()>
    requires { index < 4 }
    ensures { worker.new ≡ set worker.old index None }
{
    worker.get_result(index)?;
    Ok(())
}
