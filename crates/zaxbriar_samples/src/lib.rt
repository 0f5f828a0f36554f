//! The samples of decoded pictures, for the program `zaxbriar`: pictures made smaller and turned
//! upright, the sizes and scales for that, and netpbm and PNG files.
//!
//! It knows no decoder, so that the gate proves both at the same time.
#![tactic(auto)]

mod adler;
pub mod boxes;
mod crc;
pub mod files;
pub mod laws;
pub mod line_takers;
pub mod netpbm;
pub mod png;
pub mod requests;
pub mod samples;
pub mod sizes;
pub mod turns;
