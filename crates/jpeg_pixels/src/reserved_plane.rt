//! A plane in memory that was reserved for all of it: what an index of `ImmediateWorker` holds.

use crate::plane::{SampleTable, append_strips};
use jpeg_segments::parser::Component;
use std::alloc::{AllocError, Global};
use std::marker::Model;

/// A plane that has the samples of the rows that were appended, and room for `room` samples.
#[derive(Drop)]
pub(crate) struct ReservedPlane {
    scale: usize,
    blocks_wide: usize,
    rows: usize,
    table: SampleTable,
    samples: Vec<u8>,
    room: usize,
}

impl Model for ReservedPlane {
    ghost use Rattle.jpeg_pixels.specs.Workers.{Work};

    ghost Value = { Work };

    ghost use Rattle.jpeg_pixels.specs.ReservedView.{work_in, IsReserved};

    ghost view = { work_in };

    ghost invariant = { IsReserved };
}

impl ReservedPlane {
    ghost use Rattle.std.specs.Prelude.{◌≡◌, Ok, MatchResult, IfOk, Some};
    ghost use Rattle.jpeg_segments.specs.FrameView.{component_in};
    ghost use Rattle.jpeg_pixels.specs.Scaled.{IsScale};
    ghost use Rattle.jpeg_pixels.specs.Workers.{IsRowOf, grown, plane_at, work_of};

    /// Makes a plane to which no row has been appended.
    pub(crate) fn new(
        alloc: Global,
        component: &Component,
        quantization_table: &[u16; 64],
    ) -> Result<ReservedPlane, AllocError>
        requires scale { IsScale component.now.dct_scale }
        ensures { IfOk result
            (λ plane. plane ≡ work_of (component_in component.now) quantization_table.now) }
    {
        let scale = component.dct_scale;
        let blocks_wide = usize::from(component.block_size.width);
        let blocks_high = usize::from(component.block_size.height);
        let room = scale * blocks_wide * (scale * blocks_high);
        Ok(ReservedPlane {
            scale,
            blocks_wide,
            rows: usize::from(component.vertical_sampling_factor),
            table: SampleTable::new(quantization_table),
            samples: Vec::with_capacity(alloc, room)?,
            room,
        })
    }

    /// Appends the samples of a row that comes. There is room for them, so that it doesn't fail.
    pub(crate) fn append(&mut self, coefficients: &[i16]) -> Result<(), AllocError>
        requires { IsRowOf self.old coefficients.now }
        ensures ok { result ≡ Ok tt }
        ensures row { self.new ≡ grown coefficients.now self.old }
    {
        let (blocks, _) = coefficients.as_chunks::<64>();
        append_strips(
            &mut self.samples,
            self.scale,
            self.blocks_wide,
            self.rows,
            blocks,
            &self.table,
        )
    }

    /// Returns the samples, with zeros for those that no row has brought. There is room for these
    /// too, so that it doesn't fail.
    pub(crate) fn into_samples(self) -> Result<Vec<u8>, AllocError>
        ensures { MatchResult result
            (λ samples. samples.items ≡ plane_at (Some self)) (λ e. ⊥) }
    {
        let mut samples = self.samples;
        samples.resize(self.room, 0)?;
        Ok(samples)
    }
}
