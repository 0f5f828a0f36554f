//! The program's words together.

use crate::arguments::Making;
use crate::{arguments, check, frames, info, pnm, raw, thumbnail};
use clap::{ArgMatches, Command};
use std::alloc::Global;
use zaxbriar_files::ending::Outcome;
use zaxbriar_files::files::NAME;

const ABOUT: &str = "Decodes JPEG files: baseline, extended, progressive and lossless";

/// A word of the program.
#[derive(Clone, Copy)]
enum Word {
    Pnm,
    Thumbnail,
    Info,
    Check,
    Raw,
    Frames,
}

const WORDS: [Word; 6] = [
    Word::Pnm,
    Word::Thumbnail,
    Word::Info,
    Word::Check,
    Word::Raw,
    Word::Frames,
];

impl Word {
    /// Returns what the word takes.
    fn command<'a>(self, alloc: Global) -> Making<'a> {
        match self {
            Word::Pnm => pnm::command(alloc),
            Word::Thumbnail => thumbnail::command(alloc),
            Word::Info => info::command(alloc),
            Word::Check => check::command(alloc),
            Word::Raw => raw::command(alloc),
            Word::Frames => frames::command(alloc),
        }
    }
}

/// Adds a word's command to a command.
fn with_word<'a>(command: Command<'a>, word: Making<'a>) -> Making<'a> {
    match word {
        Ok(word) => command.subcommand(word),
        Err(error) => Err(error),
    }
}

/// Returns what the program takes.
pub fn command<'a>(alloc: Global) -> Making<'a> {
    let mut command = Command::new(alloc, NAME)
        .version(arguments::VERSION)
        .about(ABOUT)
        .subcommand_required(true)
        .arg_required_else_help(true);
    for word in WORDS {
        command = with_word(command, word.command(alloc))?;
    }
    Ok(command)
}

/// Returns why words are none that the program takes, with the words as they are shown, or none
/// if there was no memory for that.
fn shown_error(alloc: Global, words: &[String]) -> Option<clap::Error> {
    let lines = arguments::shown_words(alloc, words).ok()?;
    arguments::parse(command(alloc), lines.as_slice()).err()
}

/// Parses the words that the program was called with. Returns no matches if help or the version was
/// requested, and was printed; wrong words are reported.
pub fn parse<'a>(rt: &HostRuntime, words: &'a [String]) -> Outcome<Option<ArgMatches<'a>>> {
    let alloc = rt.alloc();
    match arguments::parse(command(alloc), words) {
        Ok(matches) => Ok(Some(matches)),
        Err(error) => {
            let error = shown_error(alloc, words).unwrap_or(error);
            arguments::print_outcome(rt, &error).and(Ok(None))
        }
    }
}
