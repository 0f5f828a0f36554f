//! What the C library does, as a library: the calls of `bindings/c/zaxbriar.h` over streams
//! in memory.
//!
//! `calls` has those that keep no state, and `handle_calls` the others. The crate `zaxbriar`
//! exports each under its name in C, and does nothing else.
#![tactic(auto)]

mod answers;
mod boxed;
pub mod calls;
mod copying;
mod counts;
mod crops;
mod decode;
mod decoders;
pub mod density;
mod description;
pub mod extents;
mod features;
pub mod fed;
pub mod fed_rows;
pub mod handle;
pub mod handle_calls;
mod header;
mod joined;
pub mod kept;
pub mod laws;
mod layouts;
mod limits;
mod lines;
mod loose;
mod metadata;
pub mod options;
pub mod picture;
pub mod places;
pub mod planes;
pub mod rows;
mod sampling;
pub mod segments;
