//! What the program says of a file that it has checked: a line, or an object of JSON.

use crate::partial::scans_so_far;
use json::Writer;
use std::alloc::{AllocError, Global};
use std::fmt;
use zaxbriar_files::description::{Subject, Value, begin_object, line_of, member};
use zaxbriar_files::lines::Line;
use zaxbriar_files::names::shown;
use zaxbriar_files::refusal::{Reason, Refusal};
use zaxbriar_pictures::extents::Completeness;

/// How much of the picture of a file is complete, or why nothing of it is there.
pub type Finding = Result<Completeness, Refusal>;

/// Returns whether a file was found to be whole.
pub fn is_whole(finding: &Finding) -> bool {
    match finding {
        Ok(told) => told.is_whole(),
        Err(_) => false,
    }
}

/// What is wrong with a file, in words, or that it is whole.
#[derive(Clone, Copy)]
struct Verdict<'a>(&'a Finding);

impl fmt::Display for Verdict<'_> {
    fn fmt<W: fmt::Write>(&self, f: &mut fmt::Formatter<W>) -> fmt::Result {
        match self.0 {
            Ok(told) => match &told.fault {
                Some(fault) => write!(f, "{}", Reason(fault)),
                None => write!(f, "whole"),
            },
            Err(refusal) => write!(f, "{refusal}"),
        }
    }
}

/// Returns the line of a file: its name, what is wrong with it, and how much of its picture is
/// complete.
pub fn words_of(
    alloc: Global,
    subject: Subject<'_>,
    finding: &Finding,
) -> Result<String, AllocError> {
    let name = Line(shown(subject.name.unwrap_or("-")));
    let verdict = Verdict(finding);
    match finding {
        Ok(told) if !told.is_whole() => {
            let rows = told.whole_rows;
            let height = told.info.height;
            let so_far = scans_so_far(told.info);
            format!(in alloc; "{name}: {verdict}, {rows} of {height} rows are complete{so_far}\n")
        }
        _ => format!(in alloc; "{name}: {verdict}\n"),
    }
}

/// Writes the member for what is wrong with a file.
fn fault(alloc: Global, writer: &mut Writer, finding: &Finding) -> Result<(), AllocError> {
    if is_whole(finding) {
        return member(writer, "fault", Value::Nothing);
    }
    let words = format!(in alloc; "{}", Verdict(finding))?;
    member(writer, "fault", Value::Text(words.as_str()))
}

/// Writes the members for how many rows of a file's picture are complete, and for how many it has.
fn rows(writer: &mut Writer, finding: &Finding) -> Result<(), AllocError> {
    let (rows, height) = match finding {
        Ok(told) => (
            Value::Number(usize::from(told.whole_rows)),
            Value::Number(usize::from(told.info.height)),
        ),
        Err(_) => (Value::Nothing, Value::Nothing),
    };
    member(writer, "complete_rows", rows)?;
    member(writer, "height", height)
}

/// Writes the object of a file of this name.
fn object(
    alloc: Global,
    writer: &mut Writer,
    name: Option<&str>,
    finding: &Finding,
) -> Result<(), AllocError> {
    begin_object(writer, name)?;
    writer.key("whole")?;
    writer.boolean(is_whole(finding))?;
    fault(alloc, writer, finding)?;
    rows(writer, finding)?;
    writer.end_object()
}

/// Returns the object of a file, after that of the file before it.
pub fn object_of(
    alloc: Global,
    subject: Subject<'_>,
    finding: &Finding,
) -> Result<String, AllocError> {
    let mut writer = Writer::new(Vec::new(alloc));
    match object(alloc, &mut writer, subject.name, finding) {
        Ok(()) => line_of(alloc, subject, writer.into_inner()),
        Err(error) => Err(error),
    }
}
