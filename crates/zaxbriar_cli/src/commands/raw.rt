//! Decodes a JPEG file to its bytes: `zaxbriar raw photo.jpg -o photo.raw` writes a line
//! `WIDTH HEIGHT FORMAT` and then the pixels, like `jpegraw` for standard input. `--upright` turns
//! the picture by the orientation in its Exif data, `--luma` writes the luma of one in colour, and
//! `--crop` a part of the picture.

use clap::ArgMatches;
use jpeg_orientation::areas::Area;
use zaxbriar_arguments::arguments;
use zaxbriar_arguments::pictures::{crop_of, turning_of, wants_luma};
use zaxbriar_files::ending::Outcome;
use zaxbriar_files::files;
use zaxbriar_files::limits::Limits;
use zaxbriar_files::output::Output;
use zaxbriar_files::refusal::Refusal;
use zaxbriar_pictures::raw::write_raw;
use zaxbriar_samples::requests::Upright;

/// What is requested of the file.
#[derive(Clone, Copy)]
struct Job {
    rt: HostRuntime,
    turning: Upright,
    luma: bool,
    crop: Option<Area>,
    limits: Limits,
}

impl Job {
    /// Opens a file and then the output, and writes to it the header line and the pixels. Returns
    /// why the file is refused, if it is.
    fn write(&self, input: Option<&str>, output: &mut Output<'_>) -> Result<(), Refusal> {
        match files::open_both(&self.rt, input, output) {
            Ok(reader) => {
                write_raw(
                    self.rt.alloc(),
                    reader,
                    self.turning,
                    self.luma,
                    self.crop,
                    self.limits,
                    output,
                )
            }
            Err(refusal) => Err(refusal),
        }
    }
}

/// Decodes the file that the arguments name.
pub fn run(rt: HostRuntime, matches: &ArgMatches<'_>) -> Outcome<()> {
    let job = Job {
        rt,
        turning: turning_of(matches),
        luma: wants_luma(matches),
        crop: crop_of(&rt, matches)?,
        limits: arguments::limits_of(&rt, matches)?,
    };
    let input = arguments::file_of(matches, arguments::FILE);
    let mut output = Output::new(rt, arguments::file_of(matches, "output"));
    let written = job.write(input, &mut output);
    files::finish(&rt, input, output, written)
}
