//! Decodes the JPEG stream on standard input. Writes its picture to standard output: a line `WIDTH
//! HEIGHT FORMAT`, and then the pixels as they are, line by line from the top. A refusal is one
//! line on standard error, and the status is then 1. What follows the picture in a file is left to
//! the next reader.
#![tactic(auto)]

mod input;

use crate::input::Input;
use jpeg_decoder::error::Error;
use jpeg_decoder::run::{report, run};
use std::io::Lock;
use std::process::ExitCode;

fn main(rt: HostRuntime) -> ExitCode {
    let outcome = match Input::new(rt.alloc(), rt.stdin().lock()) {
        Ok(input) => run(rt.alloc(), input, &mut rt.stdout()),
        Err(_) => Err(Error::OutOfMemory),
    };
    ExitCode::from(report(rt.alloc(), &outcome, &mut rt.stderr()))
}
