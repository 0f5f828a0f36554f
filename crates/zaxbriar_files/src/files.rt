//! The files that the program reads, and its messages about them.

use crate::ending::{Failure, Outcome};
use crate::formats::FileFormat;
use crate::lines::Line;
use crate::names::{is_text, shown};
use crate::output::Output;
use crate::refusal::Refusal;
use jpeg_bits::error::Error;
use jpeg_bits::source::byte_reader::ByteReader;
use std::fmt::Display;
use std::fs::File;
use std::io;
use std::io::{BufRead, BufReader, ErrorKind, Read};
use std::rt::Stdin;

/// The program's name.
pub const NAME: &str = "zaxbriar";

/// The bytes of a file or of standard input.
#[derive(Drop)]
pub enum Input {
    /// Standard input.
    Standard(Stdin),
    /// An open file.
    File(File),
}

impl Read for Input {
    fn read(&mut self, buf: &mut [u8]) -> io::Result<usize> {
        match self {
            Input::Standard(stdin) => stdin.read(buf),
            Input::File(file) => file.read(buf),
        }
    }
}

/// Returns the file that a text names: none if it is `-`.
pub fn named(text: &str) -> Option<&str> {
    if text == "-" { None } else { Some(text) }
}

/// The reader that the program gives to a decoder.
pub type InputReader = ByteReader<Input>;

/// Opens the file of this name, or standard input if there is none.
fn open_input(rt: &HostRuntime, name: Option<&str>) -> Result<Input, Refusal> {
    match name {
        Some(name) if !is_text(name) => Err(Refusal::Name),
        Some(name) => Ok(Input::File(File::open(rt, name)?)),
        None => Ok(Input::Standard(rt.stdin())),
    }
}

/// Refuses bytes that begin like a file of another format, by that format's name.
fn check_format<R: BufRead>(reader: &mut R) -> Result<(), Refusal> {
    match FileFormat::of(reader.fill_buf()?) {
        Some(format) => Err(Refusal::Format(format)),
        None => Ok(()),
    }
}

/// Returns the reader of a file that doesn't begin like one of another format.
fn reader_of(rt: &HostRuntime, input: Input) -> Result<InputReader, Refusal> {
    let mut reader = BufReader::new(rt.alloc(), input)?;
    match check_format(&mut reader) {
        Ok(()) => Ok(ByteReader::new(reader)),
        Err(refusal) => Err(refusal),
    }
}

/// Opens the file of this name, or standard input if there is none. A file that begins like one of
/// another format is refused by that format's name.
pub fn open(rt: &HostRuntime, name: Option<&str>) -> Result<InputReader, Refusal> {
    reader_of(rt, open_input(rt, name)?)
}

/// Opens the file of this name, or standard input if there is none, and then the output, so that
/// one that can't be written is refused before a picture is decoded.
pub fn open_both(
    rt: &HostRuntime,
    name: Option<&str>,
    output: &mut Output<'_>,
) -> Result<InputReader, Refusal> {
    let input = open_input(rt, name)?;
    output.open()?;
    reader_of(rt, input)
}

/// Returns whether the refusal is that nobody reads what is written.
fn is_broken_pipe(refusal: &Refusal) -> bool {
    match refusal {
        Refusal::Decoding(Error::Io(error)) => error.kind() == ErrorKind::BrokenPipe,
        _ => false,
    }
}

/// Reports in one line on standard error what is wrong with a file, or with standard input if none
/// is named, whatever characters the name has.
pub fn report<D: Display>(rt: &HostRuntime, name: Option<&str>, reason: &D) -> Failure {
    let name = Line(shown(name.unwrap_or("standard input")));
    let _ = eprintln!(rt; "{NAME}: {name}: {reason}");
    Failure::Refused
}

/// Returns how the program ends after a refusal of the file that was read. That a part isn't inside
/// its picture is said of the argument.
fn failure_of(refusal: &Refusal) -> Failure {
    match refusal {
        Refusal::Crop { .. } => Failure::WrongUse,
        _ => Failure::Refused,
    }
}

/// Reports a refusal in one line: it names the file that couldn't be written, otherwise the one
/// that was read. A pipe that nobody reads is not reported.
fn report_refusal(
    rt: &HostRuntime,
    input: Option<&str>,
    output: &Output<'_>,
    refusal: &Refusal,
) -> Failure {
    if !output.has_failed() {
        report(rt, input, refusal);
        return failure_of(refusal);
    }
    if is_broken_pipe(refusal) {
        return Failure::Refused;
    }
    report(
        rt,
        Some(output.name().unwrap_or("standard output")),
        refusal,
    )
}

/// Reports an output that can't be written, so that nothing is decoded for it. It stays as it was.
pub fn check_output(rt: &HostRuntime, input: Option<&str>, name: Option<&str>) -> Outcome<()> {
    let mut output = Output::new(*rt, name);
    match output.check() {
        Ok(()) => Ok(()),
        Err(error) => Err(report_refusal(rt, input, &output, &Refusal::from(error))),
    }
}

/// Puts what was written in place, unless its file is refused.
fn keep(output: &mut Output<'_>, outcome: Result<(), Refusal>) -> Result<(), Refusal> {
    match outcome {
        Ok(()) => output.keep().map_err(Refusal::from),
        refused => refused,
    }
}

/// Removes what was written for a file that is refused, and reports it.
fn discard_refused(
    rt: &HostRuntime,
    input: Option<&str>,
    output: &mut Output<'_>,
    outcome: &Result<(), Refusal>,
) -> Outcome<()> {
    let Err(refusal) = outcome else {
        return Ok(());
    };
    output.discard();
    Err(report_refusal(rt, input, output, refusal))
}

/// Ends an output whose file was read: after an Ok, what was written is put in place; after a
/// refusal, which is reported, it is removed.
pub fn finish(
    rt: &HostRuntime,
    input: Option<&str>,
    mut output: Output<'_>,
    outcome: Result<(), Refusal>,
) -> Outcome<()> {
    let kept = keep(&mut output, outcome);
    discard_refused(rt, input, &mut output, &kept)
}
