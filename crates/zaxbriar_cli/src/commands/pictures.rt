//! Writes the pictures of the given files, for the words `pnm` and `thumbnail`.

use crate::partial::{Rows, finish_with_fault};
use clap::ArgMatches;
use std::io::{Read, Write};
use zaxbriar_arguments::arguments;
use zaxbriar_arguments::pictures::check_output;
use zaxbriar_files::ending::{Outcome, worse_of};
use zaxbriar_files::limits::Limits;
use zaxbriar_files::output::Output;
use zaxbriar_files::refusal::Refusal;
use zaxbriar_files::{files, names};
use zaxbriar_pictures::extents::{Completeness, Extent};
use zaxbriar_pictures::scaled::write_at;
use zaxbriar_pictures::thumbnails::write_thumbnail;
use zaxbriar_samples::files::PictureFormat;
use zaxbriar_samples::requests::{Request, Upright};

/// Returns how much of a picture is requested.
fn extent_of(matches: &ArgMatches<'_>) -> Extent {
    if matches.get_flag("partial") {
        Extent::Partial
    } else {
        Extent::Whole
    }
}

/// What is requested of each file.
#[derive(Clone, Copy)]
struct Job {
    rt: HostRuntime,
    request: Request,
    extent: Extent,
    limits: Limits,
    format: PictureFormat,
}

impl Job {
    /// Writes the picture of the stream that the reader gives, and returns how much of it is
    /// complete.
    fn write_picture<R: Read + Drop, W: Write>(
        &self,
        reader: R,
        writer: &mut W,
    ) -> Result<Completeness, Refusal> {
        let alloc = self.rt.alloc();
        match self.request {
            Request::At(at) => {
                write_at(
                    alloc,
                    reader,
                    at,
                    self.extent,
                    self.limits,
                    self.format,
                    writer,
                )
            }
            Request::Within(_, _) => {
                write_thumbnail(
                    alloc,
                    reader,
                    self.request,
                    self.extent,
                    self.limits,
                    self.format,
                    writer,
                )
            }
        }
    }

    /// Returns whose rows are counted that are complete.
    fn rows(&self) -> Rows {
        match self.request {
            Request::At(at) => match (at.upright, at.crop) {
                (Upright::AsStored, None) => Rows::OfOutput,
                _ => Rows::OfStored,
            },
            Request::Within(_, _) => Rows::OfFile,
        }
    }

    /// Opens a file and the output, and writes the picture.
    fn write_opened(
        &self,
        input: Option<&str>,
        output: &mut Output<'_>,
    ) -> Result<Completeness, Refusal> {
        match files::open_both(&self.rt, input, output) {
            Ok(reader) => self.write_picture(reader, output),
            Err(refusal) => Err(refusal),
        }
    }

    /// Writes the picture of a file.
    fn write(&self, input: Option<&str>, output: Option<&str>) -> Outcome<()> {
        let mut output = Output::new(self.rt, output);
        let written = self.write_opened(input, &mut output);
        finish_with_fault(&self.rt, input, output, written, self.rows())
    }

    /// Writes the picture of a file to the output of its name.
    fn write_named(&self, input: Option<&str>, output: Option<&str>) -> Outcome<()> {
        let Some(output) = output else {
            return self.write(input, None);
        };
        match names::name_for(self.rt.alloc(), output, input) {
            Ok(name) => self.write(input, Some(name.as_str())),
            Err(error) => Err(files::report(&self.rt, input, &Refusal::from(error))),
        }
    }
}

/// Writes the requested pictures of the files that the arguments name in this format, and continues
/// after a file that is refused or has a fault.
pub fn write_all(
    rt: HostRuntime,
    matches: &ArgMatches<'_>,
    request: Request,
    format: PictureFormat,
) -> Outcome<()> {
    let limits = arguments::limits_of(&rt, matches)?;
    let Some(names) = matches.get_strs(arguments::FILE) else {
        return Ok(());
    };
    let output = arguments::file_of(matches, "output");
    check_output(&rt, names, "output", output)?;
    let job = Job {
        rt,
        request,
        extent: extent_of(matches),
        limits,
        format,
    };
    let mut outcome = Ok(());
    for name in names {
        outcome = worse_of(outcome, job.write_named(files::named(name), output));
    }
    outcome
}
