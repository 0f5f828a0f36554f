//! The options of the word `info` that extract what stands beside the picture.

use crate::parameters::{Form, Parameter};
use clap::ArgMatches;
use zaxbriar_files::kinds::KINDS;

/// The option for Exif data.
pub const EXIF: Parameter = Parameter {
    name: "exif",
    form: Form::Data,
    help: "Write the Exif data to FILE, and nothing else",
};

/// The option for the thumbnail in Exif data.
pub const THUMBNAIL: Parameter = Parameter {
    name: "thumbnail",
    form: Form::Data,
    help: "Write the thumbnail in the Exif data to FILE, and nothing else",
};

/// The option for XMP data.
pub const XMP: Parameter = Parameter {
    name: "xmp",
    form: Form::Data,
    help: "Write the XMP data to FILE, and nothing else",
};

/// The option for extended XMP data.
pub const EXTENDED_XMP: Parameter = Parameter {
    name: "extended-xmp",
    form: Form::Data,
    help: "Write the extended XMP data to FILE, and nothing else",
};

/// The option for IPTC data.
pub const IPTC: Parameter = Parameter {
    name: "iptc",
    form: Form::Data,
    help: "Write the IPTC data to FILE, and nothing else",
};

/// The option for an ICC profile.
pub const ICC: Parameter = Parameter {
    name: "icc",
    form: Form::Data,
    help: "Write the ICC profile to FILE, and nothing else",
};

/// Returns whether data are requested, and not a description.
pub fn is_asked_for(matches: &ArgMatches<'_>) -> bool {
    KINDS.iter().any(|kind| matches.contains_id(kind.option()))
}
