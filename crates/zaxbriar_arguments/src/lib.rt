//! The arguments of the program `zaxbriar`: its words and their options, parsed with the crate
//! `clap`, and what they request.
//!
//! What does as they request stands above the decoder, and this beside it, so that the gate proves
//! both at the same time.
#![tactic(auto)]

pub mod arguments;
pub mod check;
pub mod commands;
pub mod extraction;
pub mod frames;
pub mod info;
pub mod parameters;
pub mod pictures;
pub mod pnm;
pub mod raw;
pub mod thumbnail;
