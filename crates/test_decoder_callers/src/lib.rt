//! Callers of the public calls of `jpeg_decoder`: a place where the contracts of these calls are
//! tried.
//!
//! A caller does nothing but make its call, and promises one clause of that call's contract, or one
//! field of the record `Decodes` or `DecodesPlanes`. Each edit of wrong/ puts a wrong body in place
//! of a call, and the check has to refuse it; its twin puts a right one there, and is proved. So a
//! clause that is weakened in its library fails a caller here, and a clause that lets a wrong body
//! through fails the gate. tests/wrong_bodies/README.md says more. Nothing stands on this crate.
//!
//! `decode`, `decode_into`, `decode_planes` and `run` have long contracts, and a failing search
//! tries every fact: so a caller keeps one clause, and the wrong body is put into a caller of that
//! caller.
#![tactic(auto)]

pub mod decoding;
pub mod headers;
pub mod lines;
pub mod luma;
pub mod partial;
pub mod pictures;
pub mod planes;
pub mod rows;
pub mod runs;
pub mod settings;
pub mod told;
