//! From the coefficients of a block to its samples (T.81, A.3.3), at four sizes. No call of this
//! module allocates.

pub use jpeg_pixels::idct::{
    choose_idct_size, dequantize_and_idct_block, dequantize_and_idct_block_1x1,
    dequantize_and_idct_block_2x2, dequantize_and_idct_block_4x4, dequantize_and_idct_block_8x8,
};
