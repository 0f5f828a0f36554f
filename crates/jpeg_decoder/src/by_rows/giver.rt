//! Rows of MCUs that become lines of the picture as they are read.
ghost use Rattle.std.specs.Prelude.{◌≡◌, ◌<◌, ◌+◌, [], All, IfErr, IfOk, OnOk, length, map};
ghost use Rattle.jpeg_bits.specs.declared.error.Error.TheVariants.{OutOfMemory};
ghost use Rattle.jpeg_segments.specs.FrameView.{frame_in};
ghost use Rattle.jpeg_pixels.specs.PicturesView.{IsFor};
ghost use Rattle.jpeg_meaning.specs.ScanSegments.{components_of};
ghost use Rattle.jpeg_meaning.specs.Sound.{IsDecodedFrame};
ghost use Rattle.jpeg_decoder.specs.ByRows.{lines_decided};
ghost use Rattle.jpeg_decoder.specs.Givers.{GivesRow, IsEmpty, IsReady};
ghost use Rattle.jpeg_decoder.specs.Scanning.{IsFull};
ghost use Rattle.jpeg_decoder.specs.Steps.{coding_in};

use crate::by_rows::window::{Window, keep_last, lines_decided, make_lines};
use crate::scan::block_array::BlockArray;
use crate::scan::coded::Coded;
use crate::scan::strips::{append_to_each, row_buffers, sample_tables};
use jpeg_bits::error::Result;
use jpeg_pixels::plane::SampleTable;
use jpeg_pixels::upsampler::ColorConvert;
use jpeg_segments::parser::FrameInfo;
use std::alloc::Global;

/// What is kept between two rows of MCUs of a scan whose lines are given as it is read.
#[derive(Drop)]
pub struct RowGiver {
    /// The blocks of a row of MCUs.
    pub blocks: Vec<BlockArray>,
    /// The tables by which the components' blocks are transformed.
    tables: Vec<SampleTable>,
    /// Of each component the samples of the last two rows of MCUs, or of one.
    planes: Vec<Vec<u8>>,
    /// Room for a line of the picture.
    line: Vec<u8>,
    /// The lines that the last row of MCUs decided, one after the other.
    pub lines: Vec<u8>,
    /// How the colours are converted.
    pub convert: ColorConvert,
    /// How many rows of MCUs were taken.
    pub rows: u16,
}

/// Makes as many planes without samples.
fn no_planes(alloc: Global, count: usize) -> Result<Vec<Vec<u8>>>
    ensures empty { IfOk result (λ v. IsEmpty count v.items) }
    ensures err { IfErr result (λ e. e ≡ OutOfMemory) }
{
    let mut planes = Vec::with_capacity(alloc, count)?;
    for _ in 0..count {
        planes.push(Vec::new(alloc))?;
    }
    Ok(planes)
}

impl RowGiver {
    /// Makes what is kept before the first row of MCUs of a scan of all components of a frame. The
    /// only error is `OutOfMemory`.
    pub fn new(
        alloc: Global,
        frame: &FrameInfo,
        codings: &[Coded<'_>],
        convert: ColorConvert,
    ) -> Result<RowGiver>
        requires frame { IsDecodedFrame (frame_in frame.now) }
        requires components { components_of (map coding_in codings.now)
            ≡ (frame_in frame.now).components }
        ensures ready { IfOk result
            (IsReady (frame_in frame.now) (map coding_in codings.now) convert 0) }
        ensures none { IfOk result (λ g. g.lines.items ≡ []) }
        ensures err { IfErr result (λ e. e ≡ OutOfMemory) }
    {
        let width = usize::from(frame.output_size.width);
        Ok(RowGiver {
            blocks: row_buffers(alloc, codings)?,
            tables: sample_tables(alloc, codings)?,
            planes: no_planes(alloc, codings.len())?,
            line: vec![in alloc; 0; codings.len() * width]?,
            lines: Vec::new(alloc),
            convert,
            rows: 0,
        })
    }

    /// Takes the row of MCUs whose blocks were read, and makes the lines that it decides. The only
    /// error is `OutOfMemory`.
    pub fn take_row(
        &mut self,
        alloc: Global,
        frame: &FrameInfo,
        codings: &[Coded<'_>],
    ) -> Result<()>
        requires frame { IsDecodedFrame (frame_in frame.now) }
        requires components { components_of (map coding_in codings.now)
            ≡ (frame_in frame.now).components }
        requires convert { IsFor (length (frame_in frame.now).components) self.old.convert }
        requires ready { IsReady (frame_in frame.now) (map coding_in codings.now) self.old.convert
            self.old.rows self.old }
        requires more { self.old.rows < (frame_in frame.now).mcus_high }
        requires full { All IsFull self.old.blocks.items }
        ensures ready { OnOk result (IsReady (frame_in frame.now) (map coding_in codings.now)
            self.old.convert (self.old.rows + 1) self.new) }
        ensures given { OnOk result (GivesRow (frame_in frame.now) (map coding_in codings.now)
            self.old self.new) }
        ensures few { OnOk result (self.new.rows < 65536) }
        ensures err { IfErr result (λ e. e ≡ OutOfMemory) }
    {
        prove!(self.rows < frame.mcu_size.height);
        if self.rows > 1 {
            keep_last(&mut self.planes, &frame.components);
        }
        append_to_each(&mut self.planes, codings, &self.tables, &self.blocks)?;
        let first = lines_decided(frame, self.rows);
        let window = Window {
            convert: self.convert,
            above: self.rows.saturating_sub(1),
            rows: if self.rows == 0 { 1 } else { 2 },
            first,
            count: lines_decided(frame, self.rows + 1).saturating_sub(first),
        };
        make_lines(
            alloc,
            frame,
            window,
            &self.planes,
            &mut self.line,
            &mut self.lines,
        )?;
        self.rows += 1;
        Ok(())
    }
}
