//! Lossless scans and their pictures (T.81, Annex H): differences, predictions and samples.
#![tactic(auto)]

mod differences;
pub mod laws;
mod lines;
pub mod lossless;
mod parts;
mod picture;
mod pixels;
mod planes;
pub mod scan;
mod stretching;
