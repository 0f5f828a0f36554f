//! Says which JPEG files are whole: `zaxbriar check *.jpg` decodes each file to the end of its
//! image, or to its first fault, and writes a line `NAME: whole`, or else the fault and how many
//! rows of the picture are complete, or why no picture is shown. With `--json` it writes an array
//! that has an object for each file, and with `--quiet` nothing of the whole ones. No picture is
//! written. `zaxbriar check --strict *.jpg` decodes nothing: it judges whether each file is exactly
//! what T.81 defines.

use crate::findings::{self, Finding};
use crate::strictness::{self, Judgement, Unjudged};
use clap::ArgMatches;
use std::alloc::{AllocError, Global};
use zaxbriar_arguments::arguments;
use zaxbriar_files::description::{Form, Subject, write_text};
use zaxbriar_files::ending::{Outcome, outcome_of};
use zaxbriar_files::files;
use zaxbriar_files::limits::Limits;
use zaxbriar_files::output::Output;
use zaxbriar_files::refusal::Refusal;
use zaxbriar_pictures::check::check_stream;

/// What was found of a file.
#[derive(Drop)]
enum Found {
    /// How much of its picture is complete.
    Picture(Finding),
    /// What it is by T.81.
    Stream(Judgement),
}

impl Found {
    /// Returns whether the file is as it is to be.
    fn is_good(&self) -> bool {
        match self {
            Found::Picture(finding) => findings::is_whole(finding),
            Found::Stream(judgement) => strictness::is_strict(judgement),
        }
    }

    /// Returns the line of the file.
    fn words(&self, alloc: Global, subject: Subject<'_>) -> Result<String, AllocError> {
        match self {
            Found::Picture(finding) => findings::words_of(alloc, subject, finding),
            Found::Stream(judgement) => strictness::words_of(alloc, subject, judgement),
        }
    }

    /// Returns the object of the file.
    fn object(&self, alloc: Global, subject: Subject<'_>) -> Result<String, AllocError> {
        match self {
            Found::Picture(finding) => findings::object_of(alloc, subject, finding),
            Found::Stream(judgement) => strictness::object_of(alloc, subject, judgement),
        }
    }
}

/// What is requested of each file.
#[derive(Clone, Copy)]
struct Job {
    rt: HostRuntime,
    limits: Limits,
    is_json: bool,
    is_quiet: bool,
    is_strict: bool,
}

impl Job {
    /// Decodes a file as far as it goes, and returns how much of its picture is complete.
    fn check_picture(&self, input: Option<&str>) -> Finding {
        match files::open(&self.rt, input) {
            Ok(reader) => check_stream(self.rt.alloc(), reader, self.limits),
            Err(refusal) => Err(refusal),
        }
    }

    /// Judges a file by T.81.
    fn check_strictly(&self, input: Option<&str>) -> Judgement {
        match files::open(&self.rt, input) {
            Ok(reader) => strictness::judge_file(self.rt.alloc(), reader, self.limits.memory),
            Err(refusal) => Err(Unjudged::Refused(refusal)),
        }
    }

    /// Returns what is found of a file.
    fn check(&self, input: Option<&str>) -> Found {
        if self.is_strict {
            Found::Stream(self.check_strictly(input))
        } else {
            Found::Picture(self.check_picture(input))
        }
    }

    /// Writes what was found of a file.
    fn write(
        &self,
        subject: Subject<'_>,
        found: &Found,
        output: &mut Output<'_>,
    ) -> Result<(), Refusal> {
        let alloc = self.rt.alloc();
        let text = if self.is_json {
            found.object(alloc, subject)
        } else {
            found.words(alloc, subject)
        };
        write_text(text, output)
    }

    /// Checks the files, and writes what is found of each, before the next one is read. Returns
    /// whether all are as they are to be.
    fn check_all(&self, names: &[&str], output: &mut Output<'_>) -> Result<bool, Refusal> {
        let form = Form::new(self.is_json, true);
        let mut are_good = true;
        let mut index = 0usize;
        form.begin(output)?;
        for name in names {
            let name = files::named(name);
            let found = self.check(name);
            let is_good = found.is_good();
            are_good &= is_good;
            if !is_good || !self.is_quiet {
                self.write(Subject { index, name }, &found, output)?;
                index = index.saturating_add(1);
            }
        }
        form.end(output)?;
        Ok(are_good)
    }
}

/// Checks the files that the arguments name. An output that can't be written is reported before any
/// is read.
pub fn run(rt: HostRuntime, matches: &ArgMatches<'_>) -> Outcome<()> {
    let limits = arguments::limits_of(&rt, matches)?;
    let Some(names) = matches.get_strs(arguments::FILE) else {
        return Ok(());
    };
    let name = arguments::file_of(matches, "output");
    files::check_output(&rt, None, name)?;
    let job = Job {
        rt,
        limits,
        is_json: matches.get_flag("json"),
        is_quiet: matches.get_flag("quiet"),
        is_strict: matches.get_flag("strict"),
    };
    let mut output = Output::new(rt, name);
    match job.check_all(names, &mut output) {
        Ok(are_good) => files::finish(&rt, None, output, Ok(())).and(outcome_of(are_good)),
        Err(refusal) => files::finish(&rt, None, output, Err(refusal)),
    }
}
