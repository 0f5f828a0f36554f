//! The word `check`.

use crate::arguments::Making;
use crate::parameters::{Form, INPUTS, JSON, Parameter, word};
use std::alloc::Global;

/// The word.
pub const NAME: &str = "check";

const ABOUT: &str = "Says which JPEG files are whole, and what is wrong with the others";

const OUTPUT: &str = "The file for the report; standard output by default, or for -";

const QUIET: &str = "Print nothing for files that are whole";

const STRICT: &str =
    "Say instead which files are exactly what T.81 defines, and where the others depart from it";

const PARAMETERS: [Parameter; 5] = [
    INPUTS,
    Parameter {
        name: "output",
        form: Form::Output,
        help: OUTPUT,
    },
    JSON,
    Parameter {
        name: "quiet",
        form: Form::Flag,
        help: QUIET,
    },
    Parameter {
        name: "strict",
        form: Form::Flag,
        help: STRICT,
    },
];

/// Returns what the word takes.
pub fn command<'a>(alloc: Global) -> Making<'a> {
    word(alloc, NAME, ABOUT, PARAMETERS.as_slice())
}
