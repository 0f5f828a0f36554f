//! What the program says of a file that it has judged by T.81: a line, or an object of JSON.

use json::Writer;
use std::alloc::{AllocError, Global};
use std::fmt;
use std::io::Read;
use zaxbriar_files::description::{Subject, Value, begin_object, line_of, member};
use zaxbriar_files::files::InputReader;
use zaxbriar_files::lines::Line;
use zaxbriar_files::names::shown;
use zaxbriar_files::refusal::Refusal;
use zaxbriar_strict::{Verdict, judge};

/// Why a file is not judged.
#[derive(Drop)]
pub enum Unjudged {
    /// It can't be read, or there is no memory.
    Refused(Refusal),
    /// The file, and what judging it takes, are more bytes than these.
    Memory(u64),
}

/// What a file is by T.81, or why it is not judged.
pub type Judgement = Result<Verdict, Unjudged>;

/// Returns whether a file was found to be exactly what T.81 defines.
pub fn is_strict(judgement: &Judgement) -> bool {
    matches!(judgement, Ok(Verdict::Strict))
}

impl From<Refusal> for Unjudged {
    fn from(refusal: Refusal) -> Unjudged {
        Unjudged::Refused(refusal)
    }
}

/// Reads a file to its end, or up to one byte more than are allowed.
fn read_bytes(alloc: Global, reader: InputReader, most: u64) -> Result<Vec<u8>, Refusal> {
    let mut bytes = Vec::new(alloc);
    let mut reader = reader.take(most.saturating_add(1));
    match reader.read_to_end(&mut bytes) {
        Ok(_) => Ok(bytes),
        Err(error) => Err(Refusal::from(error)),
    }
}

/// Reads a file, and judges it. The file and what that takes have to be within the limit, if there
/// is one.
pub fn judge_file(alloc: Global, reader: InputReader, limit: Option<u64>) -> Judgement {
    let most = limit.unwrap_or(u64::MAX);
    let bytes = match read_bytes(alloc, reader, most) {
        Ok(bytes) => bytes,
        Err(refusal) => return Err(Unjudged::Refused(refusal)),
    };
    let left = most.saturating_sub(bytes.len() as u64);
    if left == 0 {
        return Err(Unjudged::Memory(most));
    }
    match judge(alloc, bytes.as_slice(), left) {
        Ok(verdict) => Ok(verdict),
        Err(zaxbriar_strict::Refusal::Memory(_)) => Err(Unjudged::Memory(most)),
        Err(zaxbriar_strict::Refusal::OutOfMemory) => {
            Err(Unjudged::Refused(Refusal::from(AllocError)))
        }
    }
}

/// What a file is, in words.
#[derive(Clone, Copy)]
struct Words<'a>(&'a Judgement);

impl fmt::Display for Words<'_> {
    fn fmt<W: fmt::Write>(&self, f: &mut fmt::Formatter<W>) -> fmt::Result {
        match self.0 {
            Ok(Verdict::Strict) => write!(f, "exactly T.81"),
            Ok(Verdict::Departs(departure)) => {
                let section = departure.section;
                let rule = departure.rule;
                let offset = departure.offset;
                write!(f, "not exactly T.81: {section}: {rule} (byte {offset})")
            }
            Ok(Verdict::Unread(feature)) => write!(f, "{feature}, which is not judged"),
            Err(Unjudged::Refused(refusal)) => write!(f, "{refusal}"),
            Err(Unjudged::Memory(most)) => {
                write!(
                    f,
                    "judging it takes more than {most} bytes; --max-memory allows more"
                )
            }
        }
    }
}

/// Returns the line of a file: its name, and what it is.
pub fn words_of(
    alloc: Global,
    subject: Subject<'_>,
    judgement: &Judgement,
) -> Result<String, AllocError> {
    let name = Line(shown(subject.name.unwrap_or("-")));
    let words = Words(judgement);
    format!(in alloc; "{name}: {words}\n")
}

/// Writes the members for the clause that a file departs from, and where.
fn departure(writer: &mut Writer, judgement: &Judgement) -> Result<(), AllocError> {
    let (section, offset) = match judgement {
        Ok(Verdict::Departs(departure)) => (
            Value::Text(departure.section),
            Value::Number(departure.offset as usize),
        ),
        _ => (Value::Nothing, Value::Nothing),
    };
    member(writer, "section", section)?;
    member(writer, "byte", offset)
}

/// Writes the member for what is wrong with a file.
fn fault(alloc: Global, writer: &mut Writer, judgement: &Judgement) -> Result<(), AllocError> {
    match judgement {
        Ok(Verdict::Strict) => member(writer, "fault", Value::Nothing),
        Ok(Verdict::Departs(departure)) => member(writer, "fault", Value::Text(departure.rule)),
        _ => {
            let words = format!(in alloc; "{}", Words(judgement))?;
            member(writer, "fault", Value::Text(words.as_str()))
        }
    }
}

/// Writes the object of a file of this name.
fn object(
    alloc: Global,
    writer: &mut Writer,
    name: Option<&str>,
    judgement: &Judgement,
) -> Result<(), AllocError> {
    begin_object(writer, name)?;
    writer.key("strict")?;
    writer.boolean(is_strict(judgement))?;
    fault(alloc, writer, judgement)?;
    departure(writer, judgement)?;
    writer.end_object()
}

/// Returns the object of a file, after that of the file before it.
pub fn object_of(
    alloc: Global,
    subject: Subject<'_>,
    judgement: &Judgement,
) -> Result<String, AllocError> {
    let mut writer = Writer::new(Vec::new(alloc));
    match object(alloc, &mut writer, subject.name, judgement) {
        Ok(()) => line_of(alloc, subject, writer.into_inner()),
        Err(error) => Err(error),
    }
}
