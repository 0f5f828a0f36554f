//! The word `info`.

use crate::arguments::Making;
use crate::extraction;
use crate::parameters::{Form, INPUTS, JSON, Parameter, word};
use std::alloc::Global;

/// The word.
pub const NAME: &str = "info";

const ABOUT: &str = "Describes JPEG files, and extracts their Exif, XMP, IPTC and ICC data";

const OUTPUT: &str = "The file for the description; standard output by default, or for -";

const PARAMETERS: [Parameter; 9] = [
    INPUTS,
    Parameter {
        name: "output",
        form: Form::Output,
        help: OUTPUT,
    },
    JSON,
    extraction::EXIF,
    extraction::THUMBNAIL,
    extraction::XMP,
    extraction::EXTENDED_XMP,
    extraction::IPTC,
    extraction::ICC,
];

/// Returns what the word takes.
pub fn command<'a>(alloc: Global) -> Making<'a> {
    word(alloc, NAME, ABOUT, PARAMETERS.as_slice())
}
