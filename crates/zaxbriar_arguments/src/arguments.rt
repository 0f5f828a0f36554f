//! The program's arguments, parsed with the crate `clap`.

use clap::error::ErrorKind;
use clap::{ArgMatches, Command};
use std::alloc::{AllocError, Global};
use std::env::{Env, FillError};
use zaxbriar_files::ending::{Failure, Outcome};
use zaxbriar_files::files::NAME;
use zaxbriar_files::limits::Limits;
use zaxbriar_files::lines::Line;
use zaxbriar_files::machine;
use zaxbriar_files::names::{shown, word_of};

/// The version that the program names.
pub const VERSION: &str = "0.1.0";

/// How many bytes a word may have: Linux passes none that is longer.
const LONGEST_WORD: usize = 131_072;

/// The name of the argument of the files that are read, of which `-` is standard input.
pub const FILE: &str = "FILE";

/// A command that is being made, unless there was no memory for it.
pub type Making<'a> = Result<Command<'a>, AllocError>;

/// Appends the word of an index, which is read into a buffer, and returns whether there is one.
fn push_word(
    rt: &HostRuntime,
    index: usize,
    buffer: &mut [u8],
    words: &mut Vec<String>,
) -> Result<bool, AllocError> {
    match rt.arg(index, buffer) {
        Ok(length) => {
            words.push(word_of(rt.alloc(), &buffer[..length])?)?;
            Ok(true)
        }
        Err(FillError::NotPresent) => Ok(false),
        Err(FillError::TooLong) => Err(AllocError),
    }
}

/// Appends the words that the program was called with.
fn push_words(rt: &HostRuntime, words: &mut Vec<String>) -> Result<(), AllocError> {
    let mut buffer = vec![in rt.alloc(); 0u8; LONGEST_WORD]?;
    for index in 0..usize::MAX {
        if !push_word(rt, index, buffer.as_mut_slice(), words)? {
            break;
        }
    }
    Ok(())
}

/// Returns the words that the program was called with, each as `word_of` has it.
pub fn words(rt: &HostRuntime) -> Outcome<Vec<String>> {
    let mut words = Vec::new(rt.alloc());
    match push_words(rt, &mut words) {
        Ok(()) => Ok(words),
        Err(_) => {
            let _ = eprintln!(rt; "{NAME}: out of memory");
            Err(Failure::Refused)
        }
    }
}

/// Returns the words as they are shown, each in a line that acts on nothing.
pub fn shown_words(alloc: Global, words: &[String]) -> Result<Vec<String>, AllocError> {
    let mut lines = Vec::new(alloc);
    for word in words {
        lines.push(format!(in alloc; "{}", Line(shown(word.as_str())))?)?;
    }
    Ok(lines)
}

/// Prints why there are no matches, or the requested help or version.
pub fn print_outcome(rt: &HostRuntime, error: &clap::Error) -> Outcome<()> {
    let is_printed = error.print(rt).is_ok();
    match error.kind() {
        ErrorKind::DisplayHelp | ErrorKind::DisplayVersion if is_printed => Ok(()),
        ErrorKind::DisplayHelp | ErrorKind::DisplayVersion | ErrorKind::OutOfMemory => {
            Err(Failure::Refused)
        }
        _ => Err(Failure::WrongUse),
    }
}

/// Parses the words by a command.
pub fn parse<'a>(command: Making<'a>, words: &'a [String]) -> Result<ArgMatches<'a>, clap::Error> {
    match command {
        Ok(command) => command.try_get_matches_from(words),
        Err(error) => Err(clap::Error::from(error)),
    }
}

/// Returns the file that an option or argument names: none if it isn't there, or is `-`.
pub fn file_of<'a>(matches: &ArgMatches<'a>, id: &str) -> Option<&'a str> {
    match matches.get_str(id) {
        Some("-") => None,
        other => other,
    }
}

/// Says what the value of an option has to be.
pub fn refuse_value(rt: &HostRuntime, option: &str, expected: &str) -> Failure {
    let _ = eprintln!(rt; "{NAME}: --{option}: expected {expected}");
    Failure::WrongUse
}

/// What the suffixes of numbers stand for.
const UNITS: [(char, u64); 3] = [('k', 1_000), ('M', 1_000_000), ('G', 1_000_000_000)];

/// Returns a text without its suffix, and what that stands for.
fn without_unit(text: &str) -> (&str, u64) {
    for (suffix, unit) in UNITS {
        if let Some(digits) = text.strip_suffix(suffix) {
            return (digits, unit);
        }
    }
    (text, 1)
}

/// Returns the number that a text is, in digits with `k`, `M` or `G` after them for thousands,
/// millions and billions.
fn number_in(text: &str) -> Option<u64> {
    let (digits, unit) = without_unit(text);
    digits.parse::<u64>().ok()?.checked_mul(unit)
}

/// Returns the number that an option gives, if it is there.
fn limit_of(rt: &HostRuntime, matches: &ArgMatches<'_>, id: &str) -> Outcome<Option<u64>> {
    let Some(text) = matches.get_str(id) else {
        return Ok(None);
    };
    match number_in(text) {
        Some(number) => Ok(Some(number)),
        None => Err(refuse_value(rt, id, "a number, as 100000, 100k or 2G")),
    }
}

/// How many times the blocks of its picture the scans of a file may code, unless the option says
/// it: far more than files do that weren't made to take time.
const MOST_PASSES: u64 = 100;

/// Returns how many times it is, where 0 is no limit.
fn passes_of(given: Option<u64>) -> Option<u64> {
    match given {
        Some(0) => None,
        Some(passes) => Some(passes),
        None => Some(MOST_PASSES),
    }
}

/// Returns the limits of a picture that the options set, or else those of the program.
pub fn limits_of(rt: &HostRuntime, matches: &ArgMatches<'_>) -> Outcome<Limits> {
    let pixels = limit_of(rt, matches, "max-pixels")?;
    let memory = limit_of(rt, matches, "max-memory")?;
    let passes = passes_of(limit_of(rt, matches, "max-passes")?);
    Ok(Limits {
        pixels,
        memory: memory.or(machine::share(rt)),
        is_share: memory.is_none(),
        passes,
    })
}
