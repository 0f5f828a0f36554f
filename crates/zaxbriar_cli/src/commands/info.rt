//! Says what JPEG files are: `zaxbriar info photo.jpg` reads the segments of each file up to its
//! first scan and writes lines `key: value`, or with `--json` an array that has an object for each
//! file, also for one that is refused.
//!
//! `--exif FILE` and the like write data of that kind in place of a description.

use crate::commands::extraction;
use clap::ArgMatches;
use zaxbriar_arguments::arguments;
use zaxbriar_arguments::extraction::is_asked_for;
use zaxbriar_files::description::Form;
use zaxbriar_files::ending::{Failure, Outcome, outcome_of};
use zaxbriar_files::files;
use zaxbriar_files::listing::describe;
use zaxbriar_files::output::Output;

/// Does what the arguments request.
pub fn run(rt: HostRuntime, matches: &ArgMatches<'_>) -> Outcome<()> {
    if is_asked_for(matches) {
        return extraction::run(rt, matches);
    }
    let limits = arguments::limits_of(&rt, matches)?;
    let Some(names) = matches.get_strs(arguments::FILE) else {
        return Ok(());
    };
    let is_json = matches.get_flag("json");
    let is_several = names.len() > 1;
    let form = Form::new(is_json, is_several);
    let mut output = Output::new(rt, arguments::file_of(matches, "output"));
    match describe(rt, names, form, limits, &mut output) {
        Ok(false) if !is_json && !is_several => Err(Failure::Refused),
        Ok(are_all) => files::finish(&rt, None, output, Ok(())).and(outcome_of(are_all)),
        Err(refusal) => files::finish(&rt, None, output, Err(refusal)),
    }
}
