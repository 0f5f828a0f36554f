//! Errors, and the reader whose failures they name.

pub use jpeg_bits::error::{Error, Result, UnsupportedFeature};
pub use jpeg_bits::source::Source;
