//! The word `raw`.

use crate::arguments::Making;
use crate::parameters::{Form, INPUT, Parameter, word};
use crate::pictures;
use std::alloc::Global;

/// The word.
pub const NAME: &str = "raw";

const ABOUT: &str = "Decodes a JPEG file to a line WIDTH HEIGHT FORMAT, and then its pixels";

const OUTPUT: &str = "The file to write; standard output by default, or for -";

const PARAMETERS: [Parameter; 5] = [
    INPUT,
    Parameter {
        name: "output",
        form: Form::Output,
        help: OUTPUT,
    },
    pictures::UPRIGHT,
    pictures::CROP,
    pictures::LUMA,
];

/// Returns what the word takes.
pub fn command<'a>(alloc: Global) -> Making<'a> {
    word(alloc, NAME, ABOUT, PARAMETERS.as_slice())
}
