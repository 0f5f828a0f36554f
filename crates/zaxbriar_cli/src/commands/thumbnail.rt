//! Writes small pictures of JPEG files: `zaxbriar thumbnail --max 640x480 photo.jpg -o thumb.png`.

use crate::commands::pictures;
use clap::ArgMatches;
use zaxbriar_arguments::arguments;
use zaxbriar_arguments::pictures::format_of;
use zaxbriar_arguments::thumbnail::{SIZES, request_of};
use zaxbriar_files::ending::Outcome;

/// Writes the thumbnails of the files that the arguments name.
pub fn run(rt: HostRuntime, matches: &ArgMatches<'_>) -> Outcome<()> {
    match request_of(matches) {
        Some(request) => pictures::write_all(rt, matches, request, format_of(matches)),
        None => Err(arguments::refuse_value(&rt, "max", SIZES)),
    }
}
