//! The transform of a block over lanes, and the colours of a line in chunks of eight pixels. No
//! call of this module allocates.

pub use jpeg_pixels::arch::{color_convert_line_ycbcr, dequantize_and_idct_block_8x8};
