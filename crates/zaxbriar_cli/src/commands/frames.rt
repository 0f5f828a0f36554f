//! Decodes the frames of an MJPEG stream: JPEG images one after the other, or the chunks of an AVI
//! file.
//!
//! `zaxbriar frames stream.mjpeg -o frame-%04d.ppm` writes each frame as a netpbm file: the number
//! of the frame, from 1, takes the place of `%04d` in the file's name, with at least as many
//! digits. Without a `%` in the name, and without `-o`, the frames' pixels are written one after
//! the other into one file or to standard output: what `ffmpeg` calls rawvideo, of the pixel format
//! gray, gray16le or rgb24. All frames are then of one size and format. `--list` writes a line
//! `NUMBER WIDTH HEIGHT FORMAT` for each frame in place of its pixels.
//!
//! `decode` reads no byte after the end of an image, so one reader is lent to a decoder for each
//! frame. The first byte of a frame is read before, since the stream ends if there is none; zero
//! bytes and line feeds between frames, as in MPO files, are skipped: the frames of an MPO file are
//! its images, which are found without its index. The frames of an AVI file are
//! those of its first stream that has any (chunks such as `00dc`): each image of a chunk, which has
//! two if they are fields of interlaced video. Anything else in it, such as sound and indexes, is
//! skipped. A frame that is refused ends the program; the frames before it are written.

use crate::frames::{FrameRefusal, Frames};
use clap::ArgMatches;
use jpeg_decoder::ImageInfo;
use std::alloc::Global;
use std::io::Write;
use zaxbriar_arguments::arguments;
use zaxbriar_files::ending::Outcome;
use zaxbriar_files::files;
use zaxbriar_files::files::InputReader;
use zaxbriar_files::limits::Limits;
use zaxbriar_files::names::Numbered;
use zaxbriar_files::output::Output;
use zaxbriar_files::refusal::Refusal;
use zaxbriar_samples::netpbm::{Picture, write_picture};

/// The frames of a file or of standard input.
type InputFrames = Frames<InputReader>;

/// What is requested: a stream, and what is done with its frames.
#[derive(Clone, Copy)]
struct Job<'a> {
    rt: HostRuntime,
    input: Option<&'a str>,
    output: Option<&'a str>,
    is_list: bool,
    limits: Limits,
}

impl<'a> Job<'a> {
    /// Opens the stream, and returns its frames.
    fn frames(&self) -> Outcome<InputFrames> {
        let reader = match files::open(&self.rt, self.input) {
            Ok(reader) => reader,
            Err(refusal) => return Err(files::report(&self.rt, self.input, &refusal)),
        };
        match Frames::new(reader, self.limits) {
            Ok(frames) => Ok(frames),
            Err(refusal) => Err(files::report(&self.rt, self.input, &refusal)),
        }
    }

    /// Decodes the next frame, if there is one. A frame that is refused is reported.
    fn next(&self, frames: &mut InputFrames, number: u64) -> Outcome<Option<Picture>> {
        match frames.next_frame(self.rt.alloc(), number) {
            Ok(frame) => Ok(frame),
            Err(refusal) => Err(files::report(&self.rt, self.input, &refusal)),
        }
    }

    /// Writes a frame as a file of its own.
    fn write_file(&self, name: &str, frame: Picture) -> Outcome<()> {
        let mut output = Output::new(self.rt, Some(name));
        let written = write_picture(self.rt.alloc(), frame, &mut output);
        files::finish(&self.rt, self.input, output, written.map_err(Refusal::from))
    }

    /// Writes the frame of a number as the file that has it in its name.
    fn write_numbered(&self, names: Numbered<'_>, number: u64, frame: Picture) -> Outcome<()> {
        match names.with_number(self.rt.alloc(), number) {
            Ok(name) => self.write_file(name.as_str(), frame),
            Err(error) => Err(files::report(&self.rt, self.input, &Refusal::from(error))),
        }
    }

    /// Reports the file of the first frame if it can't be written.
    fn check_first(&self, names: Numbered<'_>) -> Outcome<()> {
        match names.with_number(self.rt.alloc(), 1) {
            Ok(name) => files::check_output(&self.rt, self.input, Some(name.as_str())),
            Err(error) => Err(files::report(&self.rt, self.input, &Refusal::from(error))),
        }
    }

    /// Writes each frame as a file of its own.
    fn write_files(&self, frames: &mut InputFrames, names: Numbered<'_>) -> Outcome<()> {
        self.check_first(names)?;
        for number in 1..u64::MAX {
            let Some(frame) = self.next(frames, number)? else {
                break;
            };
            self.write_numbered(names, number, frame)?;
        }
        Ok(())
    }

    /// Writes what is requested of a frame to the one file.
    fn write_frame(
        &self,
        number: u64,
        frame: &Picture,
        output: &mut Output<'_>,
    ) -> Result<(), Refusal> {
        if self.is_list {
            write_line(self.rt.alloc(), number, frame.info, output)
        } else {
            output
                .write_all(frame.pixels.as_slice())
                .map_err(Refusal::from)
        }
    }

    /// Decodes the next frame for the one file, if there is one: without a list it has the size and
    /// the format of the frames before it.
    fn next_alike(
        &self,
        frames: &mut InputFrames,
        number: u64,
        first: Option<ImageInfo>,
    ) -> Outcome<Option<Picture>> {
        let next = self.next(frames, number)?;
        match (&next, first) {
            (Some(frame), Some(info)) if !self.is_list && !is_alike(frame.info, info) => {
                Err(files::report(&self.rt, self.input, &FrameRefusal::Other(number)))
            }
            _ => Ok(next),
        }
    }

    /// Decodes the next frame, and writes what is requested of it to the one file. Returns what is
    /// said of the frame, if there is one that isn't refused.
    fn write_next(
        &self,
        frames: &mut InputFrames,
        number: u64,
        first: Option<ImageInfo>,
        output: &mut Output<'_>,
    ) -> Result<Outcome<Option<ImageInfo>>, Refusal> {
        match self.next_alike(frames, number, first) {
            Ok(Some(frame)) => {
                let info = frame.info;
                self.write_frame(number, &frame, output)
                    .and(Ok(Ok(Some(info))))
            }
            Ok(None) => Ok(Ok(None)),
            Err(failure) => Ok(Err(failure)),
        }
    }

    /// Writes what is requested of each frame to the one file. Returns whether there was a frame,
    /// and how the last one ended.
    fn write_each(
        &self,
        frames: &mut InputFrames,
        output: &mut Output<'_>,
    ) -> Result<(bool, Outcome<()>), Refusal> {
        let mut first = None;
        for number in 1..u64::MAX {
            match self.write_next(frames, number, first, output)? {
                Ok(Some(info)) => first = Some(info),
                Ok(None) => break,
                Err(failure) => return Ok((first.is_some(), Err(failure))),
            }
        }
        Ok((first.is_some(), Ok(())))
    }

    /// Writes what is requested of each frame to one file. The frames before one that is refused
    /// are kept.
    fn write_stream(&self, frames: &mut InputFrames) -> Outcome<()> {
        files::check_output(&self.rt, self.input, self.output)?;
        let mut output = Output::new(self.rt, self.output);
        match self.write_each(frames, &mut output) {
            Ok((true, outcome)) => files::finish(&self.rt, self.input, output, Ok(())).and(outcome),
            Ok((false, outcome)) => outcome,
            Err(refusal) => files::finish(&self.rt, self.input, output, Err(refusal)),
        }
    }

    /// Does what is requested to the one file.
    fn run_stream(&self) -> Outcome<()> {
        let mut frames = self.frames()?;
        self.write_stream(&mut frames)
    }

    /// Does what is requested to a file for each frame.
    fn run_files(&self, names: Numbered<'_>) -> Outcome<()> {
        let mut frames = self.frames()?;
        self.write_files(&mut frames, names)
    }
}

/// Returns whether two frames have one size and format, whatever the process of each.
fn is_alike(frame: ImageInfo, other: ImageInfo) -> bool {
    frame.width == other.width
        && frame.height == other.height
        && frame.pixel_format == other.pixel_format
}

/// Writes the line of a frame.
fn write_line<W: Write>(
    alloc: Global,
    number: u64,
    info: ImageInfo,
    writer: &mut W,
) -> Result<(), Refusal> {
    let width = info.width;
    let height = info.height;
    let format = info.pixel_format;
    let line = format!(in alloc; "{number} {width} {height} {format:?}\n")?;
    writer.write_all(line.as_bytes()).map_err(Refusal::from)
}

/// Decodes the stream that the arguments name.
pub fn run(rt: HostRuntime, matches: &ArgMatches<'_>) -> Outcome<()> {
    let output = arguments::file_of(matches, "output");
    let job = Job {
        rt,
        input: arguments::file_of(matches, arguments::FILE),
        output,
        is_list: matches.get_flag("list"),
        limits: arguments::limits_of(&rt, matches)?,
    };
    let names = match output {
        Some(name) if !job.is_list && name.contains('%') => Numbered::new(name),
        _ => return job.run_stream(),
    };
    match names {
        Some(names) => job.run_files(names),
        None => Err(arguments::refuse_value(&rt, "output", "one %d or %04d in the name")),
    }
}
