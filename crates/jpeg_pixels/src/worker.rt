//! The planes of components, and the picture that is made from them.
//!
//! A decoder makes its planes with `plane`, a row of blocks at a time, and its pictures with
//! `lines`. What is here is for callers that read the scans of a stream themselves: the parts of
//! the original crate are public.
ghost use Rattle.std.specs.Prelude.{◌≡◌, ◌≤◌, List, map, length, Ok, MatchResult};
ghost use Rattle.jpeg_bits.specs.Reading.{Names};
ghost use Rattle.jpeg_segments.specs.FrameView.{component_in};
ghost use Rattle.jpeg_pixels.specs.Pictures.{Source, sources_of, AllCover, image_of};
ghost use Rattle.jpeg_segments.specs.Frame.{AllHaveSampling};

use crate::color_convert::ColorConvert;
use crate::reserved_plane::ReservedPlane;
use crate::upsampler::Upsampler;
use jpeg_bits::color_transform::ColorTransform;
use jpeg_bits::error::Result;
use jpeg_segments::parser::{Component, Dimensions};
use std::alloc::Global;
use std::marker::Model;

/// A component whose plane is to be made at an index of a worker.
#[derive(Drop)]
pub struct RowData {
    /// The index: 0 to 3.
    pub index: usize,
    /// The component, whose sizes the plane has.
    pub component: Component,
    /// The quantization table in block order: the value of row `v` and column `u` at `8 * v + u`.
    pub quantization_table: [u16; 64],
}

/// Makes the planes of up to four components, row by row, as the rows come.
#[derive(Drop)]
pub struct ImmediateWorker {
    alloc: Global,
    planes: [Option<ReservedPlane>; 4],
}

impl Model for ImmediateWorker {
    ghost use Rattle.std.specs.Prelude.{List, Option};
    ghost use Rattle.jpeg_pixels.specs.Workers.{Work};

    ghost Value = { List (Option Work) };

    ghost view = { λ w. w.planes };
}

impl ImmediateWorker {
    ghost use Rattle.std.specs.Prelude.{◌≡◌, ◌<◌, ℕ, ℤ, List, ◌∷◌, [], set, get_or, Some, None};
    ghost use Rattle.std.specs.Prelude.{Ok, MatchResult, OnOk, OnErr, IfErr};
    ghost use Rattle.std.specs.declared.vec.Vec.{Vec};
    ghost use Rattle.std.specs.declared.alloc.Global.{Global};
    ghost use Rattle.std.specs.Iterator.{Drains, HoldsAlong, IsFinite};
    ghost use Rattle.jpeg_bits.specs.declared.error.Error.TheVariants.{OutOfMemory};
    ghost use Rattle.jpeg_segments.specs.FrameView.{component_in};
    ghost use Rattle.jpeg_pixels.specs.Scaled.{IsScale};
    ghost use Rattle.jpeg_pixels.specs.Workers.{AreRows, IsRowAt, plane_at, with_row, with_rows};
    ghost use Rattle.jpeg_pixels.specs.Workers.{work_of};

    /// Makes a worker that has no plane at any of its four indices.
    pub fn default_in_memory(alloc: Global) -> Result<ImmediateWorker>
        ensures { result ≡ Ok (None ∷ None ∷ None ∷ None ∷ []) }
    {
        Ok(ImmediateWorker {
            alloc,
            planes: [None, None, None, None],
        })
    }

    /// Starts the plane of a component at an index that has none, and allocates all of it: each
    /// sample is 0 until its row comes.
    ///
    /// The only error is `OutOfMemory`; nothing has changed then.
    pub fn start(&mut self, row_data: RowData) -> Result<()>
        requires index { row_data.index < 4 }
        requires none_kept { get_or self.old row_data.index None ≡ None }
        requires scale { IsScale row_data.component.dct_scale }
        ensures ok { OnOk result (self.new ≡ set self.old row_data.index
            (Some (work_of (component_in row_data.component) row_data.quantization_table))) }
        ensures err { OnErr result (self.new ≡ self.old) }
        ensures memory { IfErr result (λ e. e ≡ OutOfMemory) }
    {
        let plane = ReservedPlane::new(
            self.alloc,
            &row_data.component,
            &row_data.quantization_table,
        )?;
        self.planes[row_data.index] = Some(plane);
        Ok(())
    }

    /// Appends the samples of a row to the plane at an index: as many rows of blocks as the
    /// vertical factor of the component says. It allocates nothing, and returns no error.
    ///
    /// The row has the coefficients of its blocks, block by block, from the left and row of
    /// blocks by row of blocks. Those of a block are in block order, as its quantization table
    /// does.
    pub fn append_row(&mut self, row: (usize, Vec<i16>)) -> Result<()>
        requires index { row.0 < 4 }
        requires row { IsRowAt (get_or self.old row.0 None) row.1.items }
        ensures ok { result ≡ Ok tt }
        ensures row { self.new ≡ with_row self.old row.0 row.1.items }
    {
        let (index, coefficients) = row;
        self.append(index, &coefficients)
    }

    /// Appends each row that an iterator yields, as `append_row` does. It returns no error.
    pub fn append_rows<I: Iterator<Item = (usize, Vec<i16>)> + Drop>(
        &mut self,
        rows: I,
    ) -> Result<()>
        requires can { I.can_next rows }
        requires ends { IsFinite (I.remaining rows) }
        requires rows { HoldsAlong I.next_gives rows (AreRows self.old) }
        ensures ok { result ≡ Ok tt }
        ensures rows { (given : List (ℕ × Vec ℤ Global)) × Drains I.next_gives rows given
            × (self.new ≡ with_rows self.old given) }
    {
        for (index, coefficients) in rows {
            self.append(index, &coefficients)?;
        }
        Ok(())
    }

    // Appends a row. There is room for it, so that it doesn't fail.
    fn append(&mut self, index: usize, coefficients: &[i16]) -> Result<()>
        requires index { index < 4 }
        requires row { IsRowAt (get_or self.old index None) coefficients.now }
        ensures ok { result ≡ Ok tt }
        ensures row { self.new ≡ with_row self.old index coefficients.now }
    {
        if let Some(plane) = &mut self.planes[index] {
            plane.append(coefficients)?;
        }
        Ok(())
    }

    /// Takes the plane at an index: its samples are 0 where no row has come yet. It is empty if the
    /// index has none. It allocates nothing, and returns no error.
    pub fn get_result(&mut self, index: usize) -> Result<Vec<u8>>
        requires index { index < 4 }
        ensures plane { MatchResult result
            (λ plane. plane.items ≡ plane_at (get_or self.old index None)) (λ e. ⊥) }
        ensures none_left { self.new ≡ set self.old index None }
    {
        match self.planes[index].take() {
            Some(plane) => Ok(plane.into_samples()?),
            None => Ok(Vec::new(self.alloc)),
        }
    }
}

/// Returns the picture of three or four components, each of which has a plane: its lines from the
/// top, each upsampled and converted.
///
/// A transform that doesn't fit is `Format` or `Unsupported(ColorTransform(..))`, a component for
/// which there is no rule `Unsupported(NonIntegerSubsamplingRatio)`, and a refused allocation
/// `OutOfMemory`.
#[tactic(auto, using(crate::proofs::Rules::images, crate::proofs::Rules::refusals))]
pub fn compute_image_rows(
    alloc: Global,
    components: &[Component],
    planes: &[Vec<u8>],
    output_size: Dimensions,
    color_transform: ColorTransform,
) -> Result<Vec<u8>>
    requires some { 3 ≤ length components.now }
    requires most { length components.now ≤ 4 }
    requires planes { length planes.now ≡ length components.now }
    requires factors { AllHaveSampling (map component_in components.now) }
    requires cover { (sources : List Source) →
        sources_of (map component_in components.now) output_size.width output_size.height
        ≡ Ok sources
        → AllCover sources (map (λ v. v.items) planes.now) output_size.width output_size.height }
    ensures { MatchResult result
        (λ v. image_of (map component_in components.now)
        (map (λ v. v.items) planes.now) output_size.width output_size.height color_transform
        ≡ Ok v.items)
        (λ e. Names e (image_of (map component_in components.now)
        (map (λ v. v.items) planes.now) output_size.width output_size.height color_transform)) }
{
    let color_convert = ColorConvert::choose(alloc, components.len(), color_transform)?;
    let upsampler = Upsampler::new(alloc, components, output_size.width, output_size.height)?;
    let width = usize::from(output_size.width);
    let height = usize::from(output_size.height);
    upsampler.picture(planes, width, height, color_convert)
}
