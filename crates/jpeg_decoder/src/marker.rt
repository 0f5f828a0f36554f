//! Markers (T.81, B.1.1.3). No call of this module allocates.

pub use jpeg_bits::marker::Marker;
