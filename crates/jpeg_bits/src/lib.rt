//! The bytes of a JPEG stream: errors, markers and entropy-coded bits.
#![tactic(auto)]

pub mod beyond;
pub mod blocks;
pub mod color_transform;
pub mod error;
pub mod huffman;
pub mod laws;
pub mod marker;
pub mod scan;
pub mod source;
