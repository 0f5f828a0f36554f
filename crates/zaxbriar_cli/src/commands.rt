//! The program's words.

mod check;
mod extraction;
mod frames;
mod info;
mod pictures;
mod pnm;
mod raw;
mod thumbnail;

use clap::ArgMatches;
use zaxbriar_arguments::arguments;
use zaxbriar_arguments::commands::parse;
use zaxbriar_files::ending::Outcome;

/// Does what the word that was matched requests.
fn run_word(rt: HostRuntime, matches: &ArgMatches<'_>) -> Outcome<()> {
    match matches.subcommand() {
        Some((zaxbriar_arguments::pnm::NAME, matches)) => pnm::run(rt, matches),
        Some((zaxbriar_arguments::thumbnail::NAME, matches)) => thumbnail::run(rt, matches),
        Some((zaxbriar_arguments::info::NAME, matches)) => info::run(rt, matches),
        Some((zaxbriar_arguments::check::NAME, matches)) => check::run(rt, matches),
        Some((zaxbriar_arguments::raw::NAME, matches)) => raw::run(rt, matches),
        Some((zaxbriar_arguments::frames::NAME, matches)) => frames::run(rt, matches),
        _ => Ok(()),
    }
}

/// Does what the program's arguments request.
pub fn run(rt: HostRuntime) -> Outcome<()> {
    let words = arguments::words(&rt)?;
    match parse(&rt, words.as_slice())? {
        Some(matches) => run_word(rt, &matches),
        None => Ok(()),
    }
}
