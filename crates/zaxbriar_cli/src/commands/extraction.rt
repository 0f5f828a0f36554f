//! Extracts what stands beside the picture, for the word `info`.
//!
//! Nothing is decoded. The data are as they stand in the stream, each joined from its parts. If the
//! header hasn't all of them, the segments are read to the end of the image, since such data may
//! stand anywhere in it; if the stream is refused, what stands before the fault is written all the
//! same.

use crate::metadata::{has_data, write_data};
use clap::ArgMatches;
use jpeg_decoder::error::Result;
use std::alloc::Global;
use std::io::Read;
use zaxbriar_arguments::arguments;
use zaxbriar_arguments::pictures::check_output;
use zaxbriar_files::ending::{Failure, Outcome};
use zaxbriar_files::header::Segments;
use zaxbriar_files::kinds::{KINDS, Kind};
use zaxbriar_files::limits::Limits;
use zaxbriar_files::metadata::Metadata;
use zaxbriar_files::output::Output;
use zaxbriar_files::refusal::Refusal;
use zaxbriar_files::{files, names};

/// Returns whether there are all requested data.
fn has_all(alloc: Global, metadata: &Metadata, matches: &ArgMatches<'_>) -> Result<bool> {
    for kind in KINDS {
        if matches.contains_id(kind.option()) && !has_data(alloc, metadata, kind)? {
            return Ok(false);
        }
    }
    Ok(true)
}

/// Reads the segments of a stream as far as the requested data need it.
fn read_data<R: Read + Drop>(
    alloc: Global,
    segments: &mut Segments<R>,
    matches: &ArgMatches<'_>,
    limits: Limits,
) -> std::result::Result<(), Refusal> {
    segments.read_header()?;
    if has_all(alloc, segments.metadata(), matches)? {
        return Ok(());
    }
    if let Some((width, height)) = segments.size() {
        limits.check(width, height, 0)?;
    }
    segments.read_rest()?;
    Ok(())
}

/// Says that there are no data of a kind, or why the stream was refused before them.
fn report_absence(
    rt: HostRuntime,
    input: Option<&str>,
    refusal: Option<&Refusal>,
    kind: Kind,
) -> Failure {
    match refusal {
        Some(refusal) => files::report(&rt, input, refusal),
        None => files::report(&rt, input, &kind.absence()),
    }
}

/// Writes the data of a kind to a file. If there are none, says so, or why the stream was refused
/// before them.
fn write_to(
    rt: HostRuntime,
    input: Option<&str>,
    metadata: &Metadata,
    refusal: Option<&Refusal>,
    kind: Kind,
    name: Option<&str>,
) -> Outcome<()> {
    let mut output = Output::new(rt, name);
    match write_data(rt.alloc(), metadata, kind, &mut output) {
        Ok(true) => files::finish(&rt, input, output, Ok(())),
        Ok(false) => Err(report_absence(rt, input, refusal, kind)),
        Err(error) => files::finish(&rt, input, output, Err(Refusal::from(error))),
    }
}

/// Returns the name of the file for data of a kind that the arguments name, or none for standard
/// output.
fn name_of(
    rt: HostRuntime,
    matches: &ArgMatches<'_>,
    input: Option<&str>,
    kind: Kind,
) -> Outcome<Option<String>> {
    let Some(name) = arguments::file_of(matches, kind.option()) else {
        return Ok(None);
    };
    match names::name_for(rt.alloc(), name, input) {
        Ok(name) => Ok(Some(name)),
        Err(error) => Err(files::report(&rt, input, &Refusal::from(error))),
    }
}

/// Reports the file for data of a kind if it can't be written.
fn check_kind(
    rt: HostRuntime,
    matches: &ArgMatches<'_>,
    input: Option<&str>,
    kind: Kind,
) -> Outcome<()> {
    let name = name_of(rt, matches, input, kind)?;
    files::check_output(&rt, input, name.as_deref())
}

/// Reports the files for the requested data that can't be written, before a stream is read for
/// them.
fn check_all(rt: HostRuntime, matches: &ArgMatches<'_>, input: Option<&str>) -> Outcome<()> {
    let mut outcome = Ok(());
    for kind in KINDS {
        if matches.contains_id(kind.option()) && check_kind(rt, matches, input, kind).is_err() {
            outcome = Err(Failure::Refused);
        }
    }
    outcome
}

/// Writes the data of a kind to the file that the arguments name.
fn write_kind(
    rt: HostRuntime,
    matches: &ArgMatches<'_>,
    input: Option<&str>,
    metadata: &Metadata,
    refusal: Option<&Refusal>,
    kind: Kind,
) -> Outcome<()> {
    let name = name_of(rt, matches, input, kind)?;
    write_to(rt, input, metadata, refusal, kind, name.as_deref())
}

/// Writes all requested data that there are.
fn write_kinds(
    rt: HostRuntime,
    matches: &ArgMatches<'_>,
    input: Option<&str>,
    metadata: &Metadata,
    refusal: Option<&Refusal>,
) -> Outcome<()> {
    let mut outcome = Ok(());
    for kind in KINDS {
        if matches.contains_id(kind.option())
            && write_kind(rt, matches, input, metadata, refusal, kind).is_err()
        {
            outcome = Err(Failure::Refused);
        }
    }
    outcome
}

/// Extracts the requested data of a file, as far as there are any.
fn extract(
    rt: HostRuntime,
    matches: &ArgMatches<'_>,
    input: Option<&str>,
    limits: Limits,
) -> Outcome<()> {
    let reader = match files::open(&rt, input) {
        Ok(reader) => reader,
        Err(refusal) => return Err(files::report(&rt, input, &refusal)),
    };
    check_all(rt, matches, input)?;
    let mut segments = Segments::new(rt.alloc(), reader);
    let refusal = read_data(rt.alloc(), &mut segments, matches, limits).err();
    write_kinds(rt, matches, input, segments.metadata(), refusal.as_ref())
}

/// Extracts the requested data of the files that the arguments name, and continues after one that
/// is refused.
pub fn run(rt: HostRuntime, matches: &ArgMatches<'_>) -> Outcome<()> {
    let limits = arguments::limits_of(&rt, matches)?;
    let Some(names) = matches.get_strs(arguments::FILE) else {
        return Ok(());
    };
    for kind in KINDS {
        if matches.contains_id(kind.option()) {
            let output = arguments::file_of(matches, kind.option());
            check_output(&rt, names, kind.option(), output)?;
        }
    }
    let mut outcome = Ok(());
    for name in names {
        if extract(rt, matches, files::named(name), limits).is_err() {
            outcome = Err(Failure::Refused);
        }
    }
    outcome
}
