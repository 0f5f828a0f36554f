//! Frames: their components, processes and sizes (T.81, B.2.2).

use std::alloc::{AllocError, Global};

/// A width and a height, in the units of its use: pixels, samples, blocks or MCUs.
#[derive(Clone, Copy, Debug, PartialEq)]
pub struct Dimensions {
    /// How many a line has.
    pub width: u16,
    /// How many lines there are.
    pub height: u16,
}

/// How the symbols of a stream are coded.
#[derive(Clone, Copy, Debug, PartialEq)]
pub enum EntropyCoding {
    /// Huffman coding (T.81, Annex C and F.1.2).
    Huffman,
    /// Arithmetic coding (T.81, Annex D).
    Arithmetic,
}

/// The process of a frame (T.81, Table B.1).
#[derive(Clone, Copy, Debug, PartialEq)]
pub enum CodingProcess {
    /// Sequential coding of DCT coefficients (T.81, Annex F): SOF0, SOF1.
    DctSequential,
    /// Progressive coding of DCT coefficients (T.81, Annex G): SOF2.
    DctProgressive,
    /// Lossless coding by prediction (T.81, Annex H): SOF3.
    Lossless,
}

/// A component of a frame.
#[derive(Clone, Debug, Drop)]
pub struct Component {
    /// The number by which a scan header names it.
    pub identifier: u8,
    /// How many of its blocks an MCU has across: 1 to 4 (T.81, A.1.1).
    pub horizontal_sampling_factor: u8,
    /// How many of its blocks an MCU has down: 1 to 4.
    pub vertical_sampling_factor: u8,
    /// The destination of its quantization table: 0 to 3.
    pub quantization_table_index: usize,
    /// How many samples one side of a block gives: 1, 2, 4 or 8.
    pub dct_scale: usize,
    /// The size in samples.
    pub size: Dimensions,
    /// The size in blocks, of all MCUs.
    pub block_size: Dimensions,
}

/// A frame header, and the sizes that it gives.
#[derive(Drop)]
pub struct FrameInfo {
    /// Whether the frame is SOF0.
    pub is_baseline: bool,
    /// Whether the frame is a differential one of a hierarchical stream.
    pub is_differential: bool,
    /// The process of its scans.
    pub coding_process: CodingProcess,
    /// How the symbols of its scans are coded.
    pub entropy_coding: EntropyCoding,
    /// The bits of a sample.
    pub precision: u8,
    /// The size that the header gives, in pixels.
    pub image_size: Dimensions,
    /// The size of the picture that is made of it, in pixels: at a scale it is smaller.
    pub output_size: Dimensions,
    /// The number of MCUs across and down.
    pub mcu_size: Dimensions,
    /// Its components, in the header's order.
    pub components: Vec<Component>,
}

impl FrameInfo {
    ghost use Rattle.std.specs.Prelude.{◌≡◌, IfOk};
    ghost use Rattle.jpeg_segments.specs.FrameView.{frame_in};

    /// Copies the frame. The only error is a refused allocation.
    pub fn copied(&self, alloc: Global) -> Result<FrameInfo, AllocError>
        ensures { IfOk result (λ frame. frame_in frame ≡ frame_in self.now) }
    {
        Ok(FrameInfo {
            is_baseline: self.is_baseline,
            is_differential: self.is_differential,
            coding_process: self.coding_process,
            entropy_coding: self.entropy_coding,
            precision: self.precision,
            image_size: self.image_size,
            output_size: self.output_size,
            mcu_size: self.mcu_size,
            components: Vec::from_clones(alloc, &self.components)?,
        })
    }
}

/// What a frame header says of a component (T.81, B.2.2).
#[derive(Clone, Copy)]
pub(crate) struct Factors {
    /// The identifier: Ci.
    pub identifier: u8,
    /// The horizontal sampling factor: Hi.
    pub horizontal: u8,
    /// The vertical sampling factor: Vi.
    pub vertical: u8,
    /// The destination of the quantization table: Tqi.
    pub quantization: usize,
}
