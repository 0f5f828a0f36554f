//! The word `thumbnail`.

use crate::arguments::Making;
use crate::parameters::{Form, INPUTS, Parameter, word};
use crate::pictures;
use clap::ArgMatches;
use jpeg_segments::parser::Dimensions;
use std::alloc::Global;
use zaxbriar_samples::requests::{Request, Upright};

/// The word.
pub const NAME: &str = "thumbnail";

const ABOUT: &str = "Writes small pictures of JPEG files as PNG, or as PGM, PPM or, of CMYK, PAM";

const MAX: &str =
    "The size that the picture is to fit within: 640x480, 640x or x480 for one side, 640 for both; \
    it keeps its proportions, and is never enlarged";

const AS_STORED: &str = "Don't turn the picture by the orientation in its Exif data";

/// What the value of the option `--max` has to be.
pub const SIZES: &str = "WIDTHxHEIGHT, WIDTHx, xHEIGHT or SIDE, of 1 to 65535";

const PARAMETERS: [Parameter; 6] = [
    INPUTS,
    pictures::OUTPUT,
    Parameter {
        name: "max",
        form: Form::Needed("SIZE"),
        help: MAX,
    },
    Parameter {
        name: "as-stored",
        form: Form::Flag,
        help: AS_STORED,
    },
    pictures::PNG,
    pictures::PARTIAL,
];

/// Returns what the word takes.
pub fn command<'a>(alloc: Global) -> Making<'a> {
    word(alloc, NAME, ABOUT, PARAMETERS.as_slice())
}

/// Returns the length that a text names: an empty one is that of any side.
fn side_of(text: &str) -> Option<u16> {
    if text.is_empty() {
        return Some(u16::MAX);
    }
    text.parse::<u16>().ok()
}

/// Returns the size that a text names: `WIDTHxHEIGHT`, of which one may be left out, or one number
/// for both sides.
fn size_of(text: &str) -> Option<Dimensions> {
    let (width, height) = text.split_once('x').unwrap_or((text, text));
    if width.is_empty() && height.is_empty() {
        return None;
    }
    let width = side_of(width)?;
    let height = side_of(height)?;
    if width == 0 || height == 0 {
        return None;
    }
    Some(Dimensions { width, height })
}

/// Returns the request, if its size is valid.
pub fn request_of(matches: &ArgMatches<'_>) -> Option<Request> {
    let most = size_of(matches.get_str("max")?)?;
    let is_as_stored = matches.get_flag("as-stored");
    let upright = if is_as_stored {
        Upright::AsStored
    } else {
        Upright::Turned
    };
    Some(Request::Within(most, upright))
}
