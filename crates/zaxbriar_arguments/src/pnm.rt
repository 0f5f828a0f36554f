//! The word `pnm`.

use crate::arguments::Making;
use crate::parameters::{Form, INPUTS, Parameter, word};
use crate::pictures;
use clap::ArgMatches;
use jpeg_segments::scale::Scale;
use std::alloc::Global;
use zaxbriar_files::ending::Outcome;
use zaxbriar_samples::requests::{AtScale, Request};

/// The word.
pub const NAME: &str = "pnm";

const ABOUT: &str = "Converts JPEG files to PGM, PPM or, of CMYK, PAM, or to PNG";

const SCALE: Parameter = Parameter {
    name: "scale",
    form: Form::Scale,
    help: "The part of the picture's width and height",
};

const PARAMETERS: [Parameter; 8] = [
    INPUTS,
    pictures::OUTPUT,
    SCALE,
    pictures::UPRIGHT,
    pictures::CROP,
    pictures::LUMA,
    pictures::PNG,
    pictures::PARTIAL,
];

/// Returns what the word takes.
pub fn command<'a>(alloc: Global) -> Making<'a> {
    word(alloc, NAME, ABOUT, PARAMETERS.as_slice())
}

/// Returns what is requested of each picture.
pub fn request_of(rt: &HostRuntime, matches: &ArgMatches<'_>) -> Outcome<Request> {
    Ok(Request::At(AtScale {
        scale: scale_of(matches),
        upright: pictures::turning_of(matches),
        luma: pictures::wants_luma(matches),
        crop: pictures::crop_of(rt, matches)?,
    }))
}

/// Returns the requested scale.
fn scale_of(matches: &ArgMatches<'_>) -> Scale {
    match matches.get_str("scale") {
        Some("1/8") => Scale::Eighth,
        Some("1/4") => Scale::Quarter,
        Some("1/2") => Scale::Half,
        _ => Scale::Full,
    }
}
