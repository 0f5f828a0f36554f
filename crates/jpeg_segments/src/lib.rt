//! The segments of a JPEG stream.
#![tactic(auto)]

mod application;
mod frame;
mod frame_header;
mod huffman_tables;
pub mod laws;
pub mod parser;
mod quantization;
pub mod scale;
mod scan_header;
pub mod sizes;
