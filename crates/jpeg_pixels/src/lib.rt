//! From coefficients to samples.
#![tactic(auto)]

pub mod arch;
mod color_convert;
mod color_rows;
mod fixed_point;
mod half_block;
pub mod idct;
mod interleave;
pub mod joint_planes;
pub mod laws;
pub mod lines;
mod picture_lines;
pub mod plane;
mod reserved_plane;
mod short_block;
mod small_transforms;
mod sources;
mod upsample_rows;
pub mod upsampler;
pub mod worker;
pub mod zigzag;
