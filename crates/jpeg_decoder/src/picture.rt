//! The picture of what a stream has brought.

pub mod color_choice;
pub mod first;
pub mod lines;
pub mod partial;
pub mod planes;
pub mod rest;
pub mod spared;
pub mod whole;
