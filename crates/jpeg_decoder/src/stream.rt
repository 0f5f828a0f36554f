//! A stream of segments: what each says, and the turn over them (T.81, B.2).

pub mod frames;
pub mod metadata;
pub mod profile;
pub mod state;
pub mod tables;
pub mod turns;
