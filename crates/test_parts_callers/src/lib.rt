//! Callers of public calls of `jpeg_bits`, `jpeg_segments`, `jpeg_pixels` and `jpeg_lossless`: a
//! place where the contracts of these calls are tried.
//!
//! A caller does nothing but make its call, and promises clauses of that call's contract. Each edit
//! of wrong/ puts a wrong body in place of a call, and the check has to refuse it; its twin puts a
//! right one there, and is proved. So a clause that is weakened in its library fails a caller here,
//! and a clause that lets a wrong body through fails the gate. tests/wrong_bodies/README.md says
//! more. Nothing stands on this crate.
#![tactic(auto)]

pub mod bits;
pub mod lossless;
pub mod pixels;
pub mod segments;
pub mod values;
