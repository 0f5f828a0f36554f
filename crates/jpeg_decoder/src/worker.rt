//! From coefficients to planes, and from planes to a picture.

pub use jpeg_pixels::worker::{ImmediateWorker, RowData, compute_image_rows};
