//! Pictures whose lines are given as their first scan is read.

pub mod arriving;
pub mod first_scan;
pub mod giver;
pub mod rest;
pub mod shown;
pub mod window;
