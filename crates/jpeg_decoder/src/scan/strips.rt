//! Planes, as they grow by rows of blocks: in a sequential scan row by row of MCUs (T.81, A.2).
ghost use Rattle.std.specs.Prelude.{true, map, length, pos, replicate, All, IfOk, OnOk};
ghost use Rattle.std.specs.Prelude.{◌≡◌, ◌≤◌, ◌<◌, ◌*◌, ◌++◌};
ghost use Rattle.std.specs.List.{concat};
ghost use Rattle.jpeg_bits.specs.BlockView.{to_block};
ghost use Rattle.jpeg_bits.specs.Zigzag.{values_in_block_order};
ghost use Rattle.jpeg_pixels.specs.Planes.{plane_of, strip_of};
ghost use Rattle.jpeg_pixels.specs.Scaled.{IsScale};
ghost use Rattle.jpeg_meaning.specs.Rasters.{in_raster};
ghost use Rattle.jpeg_decoder.specs.Scanning.{arrays_in, filled, sizes_of, IsFull};
ghost use Rattle.jpeg_decoder.specs.Steps.{coding_in};
ghost use Rattle.jpeg_decoder.specs.Strips.{no_samples, plane_lists, row_sizes, zeros_of};
ghost use Rattle.jpeg_decoder.specs.Strips.{strips_of, tables_of, with_strips};
ghost use Rattle.jpeg_decoder.specs.GrowingView.{GrowsFor, growing_in, is_joint};

use crate::scan::block_array::BlockArray;
use crate::scan::coded::Coded;
use jpeg_pixels::joint_planes::JointPlanes;
use jpeg_pixels::plane;
use jpeg_pixels::plane::{SampleTable, append_strip};
use jpeg_pixels::zigzag::values_in_order;
use jpeg_segments::parser::Component;
use std::alloc::{AllocError, Global};

/// Returns room for the blocks of a row of MCUs: for each component of a scan, as many as it has
/// in one.
pub fn row_buffers(alloc: Global, codings: &[Coded<'_>]) -> Result<Vec<BlockArray>, AllocError>
    ensures { IfOk result (λ v. sizes_of v.items ≡ row_sizes (map coding_in codings.now)) }
{
    let mut rows = Vec::with_capacity(alloc, codings.len())?;
    for coded in codings {
        let component = coded.component;
        let high = usize::from(component.vertical_sampling_factor);
        let count = high * usize::from(component.block_size.width);
        rows.push(BlockArray::zeros(alloc, count)?)?;
    }
    Ok(rows)
}

/// Clears blocks.
fn clear_blocks(blocks: &mut [[i16; 64]])
    ensures { blocks.new ≡ replicate (length blocks.old) (replicate 64 (pos 0)) }
{
    for block in blocks.iter_mut() {
        *block = [0; 64];
    }
}

/// Clears all blocks of a row of MCUs.
pub fn clear_rows(rows: &mut Vec<BlockArray>)
    ensures sizes { sizes_of rows.new.items ≡ sizes_of rows.old.items }
    ensures zeros { arrays_in rows.new.items ≡ zeros_of (sizes_of rows.old.items) }
{
    for row in rows.iter_mut() {
        clear_blocks(&mut row.blocks);
    }
}

/// Returns the number of samples of a plane of some blocks across and down, of `scale` samples a
/// side.
pub fn plane_size(wide: u16, high: u16, scale: usize) -> usize
    requires { scale ≤ 8 }
    ensures { result ≡ (wide * scale) * (high * scale) }
{
    usize::from(wide) * scale * (usize::from(high) * scale)
}

/// Makes a plane without samples for each component of a scan, with room for all of them.
pub fn empty_planes(alloc: Global, codings: &[Coded<'_>]) -> Result<Vec<Vec<u8>>, AllocError>
    ensures { IfOk result (λ v. plane_lists v.items ≡ no_samples (map coding_in codings.now)) }
{
    let mut planes = Vec::with_capacity(alloc, codings.len())?;
    for coded in codings {
        let blocks = coded.component.block_size;
        let size = plane_size(blocks.width, blocks.height, coded.component.dct_scale);
        planes.push(Vec::with_capacity(alloc, size)?)?;
    }
    Ok(planes)
}

/// Makes the table by which a component's blocks are transformed, from its quantization table in
/// zigzag order.
pub fn sample_table(quantization: &[u16; 64]) -> SampleTable
    ensures { result ≡ values_in_block_order quantization.now }
{
    SampleTable::new(&values_in_order(quantization))
}

/// Makes the tables of a scan's components.
pub fn sample_tables(alloc: Global, codings: &[Coded<'_>]) -> Result<Vec<SampleTable>, AllocError>
    ensures { IfOk result (λ v. v.items ≡ tables_of (map coding_in codings.now)) }
{
    let mut tables = Vec::with_capacity(alloc, codings.len())?;
    for coded in codings {
        tables.push(sample_table(coded.quantization))?;
    }
    Ok(tables)
}

/// Appends the samples of `high` rows of a component's blocks, which stand in raster order, to its
/// plane, by the component's quantization table in block order.
pub fn append_rows(
    plane: &mut Vec<u8>,
    component: &Component,
    table: &SampleTable,
    blocks: &[[i16; 64]],
    high: u16,
) -> Result<(), AllocError>
    requires scale { IsScale component.now.dct_scale }
    requires size { length blocks.now ≡ high * component.now.block_size.width }
    ensures { OnOk result (plane.new.items ≡ plane.old.items
        ++ plane_of component.now.dct_scale table.now component.now.block_size.width high
        (in_raster component.now.block_size.width (map to_block blocks.now))) }
{
    let wide = usize::from(component.block_size.width);
    plane::append_strips(
        plane,
        component.dct_scale,
        wide,
        usize::from(high),
        blocks,
        table,
    )
}

/// Appends the samples of a row of a component's blocks to its plane. Blocks that are missing at
/// its end are zeros.
fn append_row(
    alloc: Global,
    plane: &mut Vec<u8>,
    component: &Component,
    table: &SampleTable,
    row: &[[i16; 64]],
) -> Result<(), AllocError>
    requires scale { IsScale component.now.dct_scale }
    requires within { length row.now ≤ component.now.block_size.width }
    ensures { OnOk result (plane.new.items ≡ plane.old.items
        ++ strip_of component.now.dct_scale table.now
        (filled component.now.block_size.width row.now)) }
{
    let wide = usize::from(component.block_size.width);
    if row.len() == wide {
        return append_strip(plane, component.dct_scale, row, table);
    }
    let mut blocks = Vec::with_capacity(alloc, wide)?;
    blocks.extend_from_slice(row)?;
    blocks.resize(wide, [0; 64])?;
    append_strip(plane, component.dct_scale, &blocks, table)
}

/// Appends the samples of all of a component's blocks to its plane, row by row. The first blocks
/// are given; the others are zeros, which take memory for one row.
pub fn append_stored(
    alloc: Global,
    plane: &mut Vec<u8>,
    component: &Component,
    table: &SampleTable,
    blocks: &[[i16; 64]],
) -> Result<(), AllocError>
    requires scale { IsScale component.now.dct_scale }
    requires within { length blocks.now
        ≤ component.now.block_size.height * component.now.block_size.width }
    ensures { let size = component.now.block_size in
        let all = filled (size.height * size.width) blocks.now in
        OnOk result (plane.new.items ≡ plane.old.items
        ++ plane_of component.now.dct_scale table.now size.width size.height
        (in_raster size.width (map to_block all))) }
{
    let wide = usize::from(component.block_size.width);
    let mut rest = blocks;
    for _ in 0..component.block_size.height {
        let (row, others) = rest.split_at(wide.min(rest.len()));
        append_row(alloc, plane, component, table, row)?;
        rest = others;
    }
    Ok(())
}

/// Planes that grow by rows of MCUs.
#[derive(Drop)]
pub enum GrowingPlanes {
    /// Each in memory of its own, those of a scan's first components.
    Own(Vec<Vec<u8>>),
    /// Those of like components in one buffer.
    Joint(JointPlanes),
}

/// Returns whether there are no planes.
fn are_none(planes: &GrowingPlanes) -> bool
    ensures { result ≡ true → length (growing_in planes.now) ≡ 0 }
{
    match planes {
        GrowingPlanes::Own(planes) => planes.is_empty(),
        GrowingPlanes::Joint(_) => false,
    }
}

/// Makes the tables by which a scan's blocks are transformed; none if there are no planes.
pub fn tables_for(
    alloc: Global,
    codings: &[Coded<'_>],
    planes: &GrowingPlanes,
) -> Result<Vec<SampleTable>, AllocError>
    ensures { IfOk result (λ v. 0 < length (growing_in planes.now)
        → v.items ≡ tables_of (map coding_in codings.now)) }
{
    if are_none(planes) {
        return Ok(Vec::new(alloc));
    }
    sample_tables(alloc, codings)
}

/// Appends the samples of the blocks of a row of MCUs to planes of the first components, each in
/// memory of its own.
pub fn append_to_each(
    planes: &mut [Vec<u8>],
    codings: &[Coded<'_>],
    tables: &[SampleTable],
    rows: &[BlockArray],
) -> Result<(), AllocError>
    requires planes { length planes.old ≤ length codings.now }
    requires tables { 0 < length planes.old → tables.now ≡ tables_of (map coding_in codings.now) }
    requires sizes { sizes_of rows.now ≡ row_sizes (map coding_in codings.now) }
    requires full { All IsFull rows.now }
    ensures { OnOk result (plane_lists planes.new
        ≡ with_strips (map coding_in codings.now) (arrays_in rows.now) (plane_lists planes.old)) }
{
    for slot in 0..planes.len() {
        let coded = &codings[slot];
        let component = coded.component;
        let high = u16::from(component.vertical_sampling_factor);
        append_rows(
            &mut planes[slot],
            component,
            &tables[slot],
            &rows[slot].blocks,
            high,
        )?;
    }
    Ok(())
}

/// Appends the samples of the blocks of a row of MCUs to planes in one buffer.
fn append_to_room(
    samples: &mut Vec<u8>,
    codings: &[Coded<'_>],
    tables: &[SampleTable],
    rows: &[BlockArray],
) -> Result<(), AllocError>
    requires tables { tables.now ≡ tables_of (map coding_in codings.now) }
    requires sizes { sizes_of rows.now ≡ row_sizes (map coding_in codings.now) }
    requires full { All IsFull rows.now }
    ensures { OnOk result (samples.new.items ≡ samples.old.items
        ++ concat (strips_of (map coding_in codings.now) (arrays_in rows.now))) }
{
    for slot in 0..codings.len() {
        let coded = &codings[slot];
        let component = coded.component;
        let high = u16::from(component.vertical_sampling_factor);
        append_rows(samples, component, &tables[slot], &rows[slot].blocks, high)?;
    }
    Ok(())
}

/// Appends the samples of the blocks of a row of MCUs to the planes of a scan's first components.
pub fn append_strips(
    planes: &mut GrowingPlanes,
    codings: &[Coded<'_>],
    tables: &[SampleTable],
    rows: &[BlockArray],
) -> Result<(), AllocError>
    requires planes { GrowsFor (map coding_in codings.now) planes.old }
    requires tables { 0 < length (growing_in planes.old)
        → tables.now ≡ tables_of (map coding_in codings.now) }
    requires sizes { sizes_of rows.now ≡ row_sizes (map coding_in codings.now) }
    requires full { All IsFull rows.now }
    ensures strips { OnOk result (growing_in planes.new
        ≡ with_strips (map coding_in codings.now) (arrays_in rows.now) (growing_in planes.old)) }
    ensures growing { OnOk result (GrowsFor (map coding_in codings.now) planes.new) }
    ensures kind { is_joint planes.new ≡ is_joint planes.old }
{
    match planes {
        GrowingPlanes::Own(planes) => append_to_each(planes, codings, tables, rows),
        GrowingPlanes::Joint(joint) => append_to_room(&mut joint.samples, codings, tables, rows),
    }
}
