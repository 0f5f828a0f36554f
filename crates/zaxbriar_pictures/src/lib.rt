//! The pictures that the program `zaxbriar` writes: a stream's picture at a scale or within a size,
//! upright, as a netpbm or a PNG file or as its bytes.
//!
//! `write_at`, `write_thumbnail` and `write_raw` read a stream and write its picture, which they
//! refuse after its header where it is above the limits. Where nothing has to be made of the
//! picture, its lines are written as its stream is read, and where it is made smaller, each is
//! boxed as it comes: it is then never in memory as a whole, nor are its planes, unless the stream
//! needs them. A fault after the first lines is met once these are written.
//! `check_stream` says how much of a stream's picture is complete, and writes nothing.
//! `decode_picture`, `taken_by`, `Limits::check` and `write_picture` are the steps for a caller
//! that has a decoder of its own. The other functions are parts of these.
#![tactic(auto)]

mod by_rows;
pub mod check;
pub mod extents;
mod lines;
pub mod raw;
pub mod scaled;
pub mod thumbnails;
