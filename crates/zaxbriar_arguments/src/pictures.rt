//! The options of the words `pnm`, `thumbnail` and `raw`, and the format and the names of the files
//! that they write.

use crate::arguments;
use crate::parameters::{Form, Parameter};
use clap::ArgMatches;
use jpeg_orientation::areas::Area;
use std::alloc::{AllocError, Global};
use std::collections::BTreeMap;
use zaxbriar_files::ending::{Failure, Outcome};
use zaxbriar_files::files;
use zaxbriar_files::files::NAME;
use zaxbriar_files::lines::Line;
use zaxbriar_files::names::{has_place, name_for, shown};
use zaxbriar_files::output::is_direct;
use zaxbriar_files::refusal::Refusal;
use zaxbriar_samples::files::PictureFormat;
use zaxbriar_samples::requests::Upright;

const FILES: &str =
    "The file to write; standard output by default, or for -; for several files DIR/%s.ppm, where \
    %s stands for each file's name without its extension, or a device";

const PART: &str =
    "Write the part of a truncated or damaged file that can be decoded; the status is then 3";

const UPRIGHTED: &str = "Turn the picture upright by the orientation in its Exif data";

const PART_OF_IT: &str =
    "Write a part of the picture: WxH+X+Y is W columns from column X on, of H lines from line Y on, \
    both counted from 0 in the picture that is written without this option";

/// What the value of the option `--crop` has to be.
const AREAS: &str = "WxH+X+Y, of numbers up to 65535, W and H of 1 at least";

const LUMA_ALONE: &str =
    "Write the luma of a picture in colour, as a grey picture; its luma has to be as large as the \
    picture";

const AS_PNG: &str = "Write PNG, as to an output whose name ends with .png; CMYK is then refused";

/// The option `-o` of a word that may write several files.
pub const OUTPUT: Parameter = Parameter {
    name: "output",
    form: Form::Output,
    help: FILES,
};

/// The option `--upright`.
pub const UPRIGHT: Parameter = Parameter {
    name: "upright",
    form: Form::Flag,
    help: UPRIGHTED,
};

/// The option `--crop`.
pub const CROP: Parameter = Parameter {
    name: "crop",
    form: Form::Number("AREA"),
    help: PART_OF_IT,
};

/// The option `--luma`.
pub const LUMA: Parameter = Parameter {
    name: "luma",
    form: Form::Flag,
    help: LUMA_ALONE,
};

/// The option `--partial`.
pub const PARTIAL: Parameter = Parameter {
    name: "partial",
    form: Form::Flag,
    help: PART,
};

/// The option `--png`.
pub const PNG: Parameter = Parameter {
    name: "png",
    form: Form::Flag,
    help: AS_PNG,
};

/// Returns whether the option `--upright` is there, so that a picture is turned.
pub fn turning_of(matches: &ArgMatches<'_>) -> Upright {
    if matches.get_flag("upright") {
        Upright::Turned
    } else {
        Upright::AsStored
    }
}

/// Returns whether the option `--luma` is there, so that pictures in colour are written as their
/// luma.
pub fn wants_luma(matches: &ArgMatches<'_>) -> bool {
    matches.get_flag("luma")
}

/// Returns the number that a text of digits is.
fn number_in(text: &str) -> Option<u16> {
    if text.starts_with('+') {
        return None;
    }
    text.parse::<u16>().ok()
}

/// Returns the area that a text names: `WxH+X+Y`, of pixels.
fn area_in(text: &str) -> Option<Area> {
    let (width, rest) = text.split_once('x')?;
    let (height, rest) = rest.split_once('+')?;
    let (left, top) = rest.split_once('+')?;
    let area = Area {
        left: number_in(left)?,
        top: number_in(top)?,
        width: number_in(width)?,
        height: number_in(height)?,
    };
    if area.width == 0 || area.height == 0 {
        return None;
    }
    Some(area)
}

/// Returns the part of a picture that the option `--crop` gives, if it is there.
pub fn crop_of(rt: &HostRuntime, matches: &ArgMatches<'_>) -> Outcome<Option<Area>> {
    let Some(text) = matches.get_str("crop") else {
        return Ok(None);
    };
    match area_in(text) {
        Some(area) => Ok(Some(area)),
        None => Err(arguments::refuse_value(rt, "crop", AREAS)),
    }
}

/// Returns whether a name ends with `.png`, in capital letters or not.
fn has_png_name(name: &str) -> bool {
    match name.rsplit_once('.') {
        Some((_, extension)) => extension.eq_ignore_ascii_case("png"),
        None => false,
    }
}

/// Returns the format of the files to write: PNG if it is asked for, or if the name of the output
/// ends with `.png`.
pub fn format_of(matches: &ArgMatches<'_>) -> PictureFormat {
    let has_name = match arguments::file_of(matches, "output") {
        Some(output) => has_png_name(output),
        None => false,
    };
    if has_name || matches.get_flag("png") {
        PictureFormat::Png
    } else {
        PictureFormat::Netpbm
    }
}

/// Two files.
type Pair<'a> = (&'a str, &'a str);

/// Notes the name of a file's output, and returns the file that has it already, with this one.
fn note_output<'a>(
    alloc: Global,
    written: &mut BTreeMap<String, &'a str>,
    name: &'a str,
    output: &str,
) -> Result<Option<Pair<'a>>, AllocError> {
    let output = name_for(alloc, output, files::named(name))?;
    match written.insert(output, name)? {
        Some(other) => Ok(Some((other, name))),
        None => Ok(None),
    }
}

/// Notes the names of the files' outputs, as far as the first two that are one.
fn note_outputs<'a>(
    alloc: Global,
    written: &mut BTreeMap<String, &'a str>,
    names: &[&'a str],
    output: &str,
) -> Result<Option<Pair<'a>>, AllocError> {
    for name in names {
        let alike = note_output(alloc, written, *name, output)?;
        if alike.is_some() {
            return Ok(alike);
        }
    }
    Ok(None)
}

/// Returns the first two files whose outputs have one name, if there are any.
fn first_alike<'a>(
    alloc: Global,
    names: &[&'a str],
    output: &str,
) -> Result<Option<Pair<'a>>, AllocError> {
    let mut written = BTreeMap::new(alloc);
    note_outputs(alloc, &mut written, names, output)
}

/// Says that the outputs of two files have one name.
fn refuse_alike(rt: &HostRuntime, option: &str, first: &str, second: &str) -> Failure {
    let first = Line(shown(first));
    let second = Line(shown(second));
    let _ = eprintln!(rt;
        "{NAME}: --{option}: expected files of distinct names, not {first} and {second}"
    );
    Failure::WrongUse
}

/// Refuses an output of several files whose names aren't distinct. A pipe or a device is written by
/// one after the other.
pub fn check_output(
    rt: &HostRuntime,
    names: &[&str],
    option: &str,
    output: Option<&str>,
) -> Outcome<()> {
    if names.len() < 2 {
        return Ok(());
    }
    let Some(output) = output else {
        return Err(arguments::refuse_value(rt, option, "DIR/%s.EXTENSION for several files"));
    };
    if !has_place(output) {
        if is_direct(rt, output) {
            return Ok(());
        }
        return Err(arguments::refuse_value(rt, option, "%s in the name, for several files"));
    }
    match first_alike(rt.alloc(), names, output) {
        Ok(None) => Ok(()),
        Ok(Some((first, second))) => Err(refuse_alike(rt, option, first, second)),
        Err(error) => Err(files::report(rt, Some(output), &Refusal::from(error))),
    }
}
