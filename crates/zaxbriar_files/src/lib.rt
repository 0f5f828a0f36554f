//! What the program `zaxbriar` does with files without decoding them: how it opens, names, writes
//! and describes them, why one is refused, and how the program ends.
//!
//! It stands beside the decoder and not above it, so that the gate proves both at the same time.
#![tactic(auto)]

pub mod avi;
pub mod description;
pub mod ending;
pub mod files;
pub mod formats;
pub mod header;
pub mod images;
pub mod kinds;
pub mod limits;
pub mod lines;
pub mod listing;
pub mod machine;
pub mod metadata;
pub mod multi_picture;
pub mod names;
pub mod output;
pub mod refusal;
