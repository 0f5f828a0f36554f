//! Decodes JPEG files: `zaxbriar pnm photo.jpg -o photo.ppm`.
//!
//! Its words are `pnm` and `thumbnail`, which write pictures as files, `raw`, which writes
//! their bytes, `info`, which describes files and extracts their metadata, `check`, which says
//! whether they are whole, and `frames`, which decodes MJPEG streams. Each reads the files that are
//! named, or standard input, and writes to `-o` or standard output. It is silent on success. A
//! refusal is one line on standard error that names the file, or of `check` one of its output, and
//! the status is then 1; it is 2 for wrong arguments, and 3 if `--partial` has written the part of
//! a file before its fault, which a line names with how much of the picture is complete.
#![tactic(auto)]

mod commands;
mod findings;
mod frames;
mod metadata;
mod partial;
mod strictness;

use std::process::ExitCode;
use zaxbriar_files::ending::exit_code;

fn main(rt: HostRuntime) -> ExitCode {
    exit_code(commands::run(rt))
}
