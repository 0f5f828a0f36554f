//! The word `frames`.

use crate::arguments::Making;
use crate::parameters::{Form, INPUT, Parameter, word};
use std::alloc::Global;

/// The word.
pub const NAME: &str = "frames";

const ABOUT: &str =
    "Decodes the frames of an MJPEG stream, plain or in an AVI file, or the images of an MPO file";

const OUTPUT: &str = "The files to write, such as frame-%04d.ppm; or one file of rawvideo; \
    rawvideo on standard output by default, or for -";

const LIST: &str = "Write a line NUMBER WIDTH HEIGHT FORMAT for each frame instead of its pixels";

const PARAMETERS: [Parameter; 3] = [
    INPUT,
    Parameter {
        name: "output",
        form: Form::Output,
        help: OUTPUT,
    },
    Parameter {
        name: "list",
        form: Form::Flag,
        help: LIST,
    },
];

/// Returns what the word takes.
pub fn command<'a>(alloc: Global) -> Making<'a> {
    word(alloc, NAME, ABOUT, PARAMETERS.as_slice())
}
