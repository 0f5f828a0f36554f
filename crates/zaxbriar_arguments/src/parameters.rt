//! What the program's words take, in tables, and the commands that are made of them.

use crate::arguments::{FILE, Making};
use clap::{Arg, ArgAction, Command};
use std::alloc::{AllocError, Global};

const ONE_FILE: &str = "The file to read; standard input by default, or for -";

const MANY_FILES: &str = "The files to read; standard input by default, or for -";

const MAX_PIXELS: &str =
    "Refuse pictures with more pixels, judging by the header; suffixes k, M and G";

const MAX_MEMORY: &str =
    "Refuse pictures that need more bytes, judging by the header; suffixes k, M and G; \
    half of the machine's memory by default";

const MAX_PASSES: &str =
    "Refuse files whose scans code more than N times the blocks of their picture, 100 by default; \
    0 for no limit";

/// The options of each word, which limit a picture and the time that it takes.
const LIMITS: [Parameter; 3] = [
    Parameter {
        name: "max-pixels",
        form: Form::Number("N"),
        help: MAX_PIXELS,
    },
    Parameter {
        name: "max-memory",
        form: Form::Number("BYTES"),
        help: MAX_MEMORY,
    },
    Parameter {
        name: "max-passes",
        form: Form::Number("N"),
        help: MAX_PASSES,
    },
];

/// The argument of the file that is read.
pub const INPUT: Parameter = Parameter {
    name: FILE,
    form: Form::File,
    help: ONE_FILE,
};

/// The argument of the files that are read.
pub const INPUTS: Parameter = Parameter {
    name: FILE,
    form: Form::Files,
    help: MANY_FILES,
};

/// The option for JSON, of the words that describe files.
pub const JSON: Parameter = Parameter {
    name: "json",
    form: Form::Flag,
    help: "Write JSON instead of lines: an array with an object for each file",
};

/// The parts of a picture's width and height that can be requested.
const SCALES: [&str; 4] = ["1/8", "1/4", "1/2", "1"];

/// How an argument or an option is given.
#[derive(Clone, Copy)]
pub enum Form {
    /// By its value alone: standard input if there is none.
    File,
    /// By one or more values alone.
    Files,
    /// `--NAME`.
    Flag,
    /// `-o FILE` or `--NAME FILE`.
    Output,
    /// `--NAME FILE`, in place of a description.
    Data,
    /// `--NAME SCALE`, one of the scales: 1 if it isn't given.
    Scale,
    /// `--NAME VALUE` for a number or an area: whatever word follows it is its value, so that `-1`
    /// is a number that is refused, and no option that doesn't exist.
    Number(&'static str),
    /// The same, which has to be given.
    Needed(&'static str),
}

/// An argument or an option.
#[derive(Clone, Copy)]
pub struct Parameter {
    /// Its name.
    pub name: &'static str,
    /// How it is given.
    pub form: Form,
    /// What the help says of it.
    pub help: &'static str,
}

/// Makes an option of its form, which has its name.
fn with_form<'a>(option: Arg<'a>, form: Form) -> Result<Arg<'a>, AllocError> {
    match form {
        Form::File => Ok(option.default_value("-").hide_default_value(true)),
        Form::Files => Ok(
            option
                .num_args(1..)
                .default_value("-")
                .hide_default_value(true),
        ),
        Form::Flag => Ok(option.action(ArgAction::SetTrue)),
        Form::Output => Ok(option.value_name("FILE").short('o')),
        Form::Data => option
            .value_name("FILE")
            .conflicts_with("json")?
            .conflicts_with("output"),
        Form::Scale => {
            let option = option.value_name("SCALE").default_value("1");
            Ok(option.value_parser(SCALES.as_slice()))
        }
        Form::Number(value) => Ok(option.value_name(value).allow_hyphen_values(true)),
        Form::Needed(value) => {
            let option = option.value_name(value).required(true);
            Ok(option.allow_hyphen_values(true))
        }
    }
}

impl Parameter {
    /// Makes the argument or the option.
    fn argument<'a>(self, alloc: Global) -> Result<Arg<'a>, AllocError> {
        let argument = Arg::new(alloc, self.name).help(self.help);
        let argument = match self.form {
            Form::File | Form::Files => argument,
            _ => argument.long(self.name),
        };
        with_form(argument, self.form)
    }
}

/// Adds an argument to a command.
fn with<'a>(command: Command<'a>, argument: Result<Arg<'a>, AllocError>) -> Making<'a> {
    match argument {
        Ok(argument) => command.arg(argument),
        Err(error) => Err(error),
    }
}

/// Adds arguments to a command.
fn with_all<'a>(alloc: Global, command: Command<'a>, parameters: &[Parameter]) -> Making<'a> {
    let mut command = command;
    for parameter in parameters {
        command = with(command, parameter.argument(alloc))?;
    }
    Ok(command)
}

/// Returns a word's command, which takes these arguments and the options that limit a picture.
pub fn word<'a>(
    alloc: Global,
    name: &'static str,
    about: &'static str,
    parameters: &[Parameter],
) -> Making<'a> {
    let command = Command::new(alloc, name).about(about);
    with_all(
        alloc,
        with_all(alloc, command, LIMITS.as_slice())?,
        parameters,
    )
}
