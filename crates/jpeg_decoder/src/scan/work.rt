//! The work that scans ask for, counted in blocks, and a limit of it (T.81, A.2).
ghost use Rattle.std.specs.Prelude.{◌≡◌, ◌≤◌, ◌<◌, ◌*◌, All, MatchResult, false, length, true};
ghost use Rattle.std.specs.List.{AllByRecursion};
ghost use Rattle.jpeg_segments.specs.FrameView.{frame_in};
ghost use Rattle.jpeg_segments.specs.ScanHeader.{IsScanOf};
ghost use Rattle.jpeg_bits.specs.Reading.{NamesFormat};
ghost use Rattle.jpeg_meaning.specs.Order.{mcu_size, spots_of};
ghost use Rattle.jpeg_meaning.specs.Sound.{IsDecodedFrame};
ghost use Rattle.jpeg_meaning.specs.Work.{blocks_coded, components_at, is_above, left_after};
ghost use Rattle.jpeg_meaning.specs.Work.{picture_blocks, work_of_scan};
ghost use Rattle.jpeg_decoder.specs.Steps.{HasScale};

use crate::scan::lossless::mcus_of;
use jpeg_bits::error::{Error, Result, format_error_of};
use jpeg_meaning::grids::grid_of;
use jpeg_segments::parser::{CodingProcess, FrameInfo, ScanHeader};
use std::alloc::Global;

/// Returns how many blocks an MCU of some components has, or one if a component is alone.
fn mcu_blocks(frame: &FrameInfo, indices: &[usize]) -> u64
    requires within { All (λ index. index < length (frame_in frame.now).components) indices.now }
    requires most { length indices.now ≤ 4 }
    ensures blocks { result ≡ mcu_size (components_at (frame_in frame.now) indices.now) }
    ensures few { result ≤ 260100 }
{
    if indices.len() == 1 {
        return 1;
    }
    let mut blocks = 0;
    for slot in 0..indices.len() {
        let component = &frame.components[indices[slot]];
        blocks += u64::from(component.horizontal_sampling_factor)
            * u64::from(component.vertical_sampling_factor);
    }
    blocks
}

/// Returns how many MCUs of blocks a scan of some components has, across and down.
fn block_mcus(frame: &FrameInfo, indices: &[usize]) -> (u16, u16)
    requires some { 0 < length indices.now }
    requires within { All (λ index. index < length (frame_in frame.now).components) indices.now }
    requires scale { AllByRecursion HasScale (frame_in frame.now).components }
    ensures { (result.1 * result.0) * mcu_size (components_at (frame_in frame.now) indices.now)
        ≡ length (spots_of (frame_in frame.now) (components_at (frame_in frame.now) indices.now)) }
{
    if indices.len() == 1 {
        let grid = grid_of(&frame.components[indices[0]]);
        return (grid.own_wide, grid.own_high);
    }
    (frame.mcu_size.width, frame.mcu_size.height)
}

/// Returns how many blocks a scan of some components codes, where eight samples of a lossless one
/// count as a block.
fn blocks_coded(frame: &FrameInfo, indices: &[usize]) -> u64
    requires frame { IsDecodedFrame (frame_in frame.now) }
    requires some { 0 < length indices.now }
    requires most { length indices.now ≤ 4 }
    requires within { All (λ index. index < length (frame_in frame.now).components) indices.now }
    ensures { let seen = frame_in frame.now in
        result ≡ blocks_coded seen.process seen (components_at seen indices.now) }
{
    let blocks = mcu_blocks(frame, indices);
    if frame.coding_process == CodingProcess::Lossless {
        let (wide, high) = mcus_of(frame, indices);
        return (u64::from(high) * u64::from(wide) * blocks).div_ceil(8);
    }
    let (wide, high) = block_mcus(frame, indices);
    u64::from(high) * u64::from(wide) * blocks
}

/// Returns how many blocks one scan of all components of a frame would code.
pub fn picture_blocks(frame: &FrameInfo) -> u64
    requires { IsDecodedFrame (frame_in frame.now) }
    ensures { result ≡ picture_blocks (frame_in frame.now) }
{
    let all = [0, 1, 2, 3];
    blocks_coded(frame, &all[..frame.components.len()])
}

/// Returns the refusal of a scan that codes more blocks than are left.
#[cold]
#[inline(never)]
fn work_error(alloc: Global, blocks: u64, left: u64) -> Error
    ensures { NamesFormat result }
{
    format_error_of(format!(in alloc;
        "scan of {blocks} blocks, expected at most the {left} that the limit leaves"
    ))
}

/// The blocks that the scans of a stream may code.
#[derive(Clone, Copy)]
pub struct Budget {
    /// How many are left, if there is a limit.
    pub left: Option<u64>,
    /// Whether a scan was refused since it codes more.
    pub exceeded: bool,
}

impl Budget {
    /// Takes the blocks of a scan from those that are left, if there is a limit. A scan of more is
    /// refused.
    pub fn charge(&mut self, alloc: Global, frame: &FrameInfo, header: &ScanHeader) -> Result<()>
        requires frame { IsDecodedFrame (frame_in frame.now) }
        requires legal { IsScanOf (frame_in frame.now) header.now }
        ensures { let blocks = work_of_scan (frame_in frame.now) header.now in
            MatchResult result (λ _. (is_above self.old.left blocks ≡ false)
            × (self.new ≡ record self.old { left = left_after self.old.left blocks }))
            (λ e. (is_above self.old.left blocks ≡ true) × NamesFormat e
            × (self.new ≡ record self.old { exceeded = true })) }
    {
        let Some(most) = self.left else {
            return Ok(());
        };
        let blocks = blocks_coded(frame, header.components());
        if blocks > most {
            self.exceeded = true;
            return Err(work_error(alloc, blocks, most));
        }
        self.left = Some(most - blocks);
        Ok(())
    }
}

/// How far a walk over the segments of a stream has come.
#[derive(Clone, Copy)]
pub struct Walk {
    /// The blocks that scans may still code.
    pub budget: Budget,
    /// How many rows of the picture are complete, if a scan that counts up to its first fault lacks
    /// some blocks or lines.
    pub rows: Option<u16>,
}
