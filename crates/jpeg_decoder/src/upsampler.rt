//! From planes of several components to lines of pixels.

pub use jpeg_pixels::upsampler::{ColorConvert, UpsampleRule, Upsampler};
