//! Theorems about streams, each on a function without a body.

pub mod headline;
pub mod lossless;
pub mod order;
