//! What a JPEG stream means (ITU-T T.81), and which streams a writer emits for an image.
//!
//! The definitions are in `specs/`: `Stream` has the meaning of bytes and settings, `WrittenImages`
//! and `WrittenLossless` the streams that are written for coefficients and for samples. `proofs/`
//! has the theory of both, on which the theorems of the crate `jpeg_decoder` rest. The Rust here is
//! only the types that the definitions speak of.
#![tactic(auto)]

pub mod before;
pub mod grids;
pub mod images;
pub mod progress;
pub mod settings;
