//! Predictions of lossless samples, and their pictures (T.81, Annex H).

pub use jpeg_lossless::lossless::{compute_image_lossless, predict};
