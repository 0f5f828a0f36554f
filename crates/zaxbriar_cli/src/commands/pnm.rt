//! Converts JPEG files to netpbm or PNG files: `zaxbriar pnm photo.jpg -o photo.ppm`.
//!
//! The picture's format decides the netpbm file's: PGM of a grey picture, PPM of red, green and
//! blue, and PAM of cyan, magenta, yellow and black, which PNG doesn't have. `--scale` writes it at
//! 1/8, 1/4 or 1/2 of its size, which takes less time than the whole picture. `--upright` turns it
//! by the orientation in its Exif data. `--crop` writes a part of the picture. `--luma` writes the
//! luma of a picture in colour, as a grey one. `--partial` writes the part of a truncated or damaged
//! file that can be decoded.

use crate::commands::pictures;
use clap::ArgMatches;
use zaxbriar_arguments::pictures::format_of;
use zaxbriar_arguments::pnm::request_of;
use zaxbriar_files::ending::Outcome;

/// Converts the files that the arguments name.
pub fn run(rt: HostRuntime, matches: &ArgMatches<'_>) -> Outcome<()> {
    let request = request_of(&rt, matches)?;
    pictures::write_all(rt, matches, request, format_of(matches))
}
