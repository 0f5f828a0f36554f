//! Callers of the public calls of `zaxbriar_pictures` and `zaxbriar_calls`: a place where the
//! contracts of these calls are tried.
//!
//! A caller does nothing but make its call, and promises clauses of that call's contract. Each edit
//! of wrong/ puts a wrong body in place of a call, and the check has to refuse it; its twin puts a
//! right one there, and is proved. So a clause that is weakened in a library fails a caller here,
//! and a clause that lets a wrong body through fails the gate. tests/wrong_bodies/README.md says
//! more. Nothing stands on this crate.
//!
//! What the other functions of the libraries promise is needed by the proofs of these calls.
#![tactic(auto)]

pub mod calls;
pub mod files;
pub mod pictures;
