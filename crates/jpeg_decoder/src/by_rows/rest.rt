//! The rest of a stream after its header, whose picture is given as it is read (T.81, B.2).
ghost use Rattle.std.specs.Prelude.{◌≡◌, Bool, IfOk, IfSome, List, MatchResult, None, Ok, OnErr};
ghost use Rattle.std.specs.Prelude.{OnOk, ◌<◌, ◌≤◌, false, is_some, option_map, true, ℕ};
ghost use Rattle.std.specs.List.{concat};
ghost use Rattle.jpeg_bits.specs.Reading.{NamesFormat};
ghost use Rattle.jpeg_bits.specs.Stream.{Stream};
ghost use Rattle.jpeg_meaning.specs.Found.{nothing_found};
ghost use Rattle.jpeg_meaning.specs.FoundPictures.{picture_of};
ghost use Rattle.jpeg_meaning.specs.Sound.{HasDecodedFrame, IsSound, IsUnread};
ghost use Rattle.jpeg_meaning.specs.Stream.{told_of};
ghost use Rattle.jpeg_decoder.specs.ByRows.{comes_by_rows, conversion_for, conversion_in};
ghost use Rattle.jpeg_decoder.specs.ByRows.{keeps_transform, transform_place, transform_said};
ghost use Rattle.jpeg_decoder.specs.Bytes.{IsWhole, shape_of};
ghost use Rattle.jpeg_decoder.specs.FedRows.{BeginsScan};
ghost use Rattle.jpeg_decoder.specs.RowScans.{Begins, BeginsAtScan, GoesOn, InScan, IsInScan};
ghost use Rattle.jpeg_decoder.specs.RowScans.{IsUntaken, SaysAtScan, rows_left};
ghost use Rattle.jpeg_decoder.specs.Steps.{IsHeaderOf, Returns};
ghost use Rattle.jpeg_decoder.specs.Walks.{IsGoing, IsKnownIf};

use crate::by_rows::first_scan::{Colours, RowScan, begin_rows, end_rows, read_lines};
use crate::by_rows::shown::Shown;
use crate::picture::whole;
use crate::picture::whole::{is_within_limit, picture, transform_of};
use crate::scan::decoded::Decoded;
use crate::scan::segment::{read_after, read_header};
use crate::scan::work::{Budget, Walk};
use crate::stream::state::State;
use crate::stream::turns::{read_on, read_to_scan};
use jpeg_bits::beyond::Beyond;
use jpeg_bits::color_transform::ColorTransform;
use jpeg_bits::error::{Error, Result, format_error_of};
use jpeg_bits::source::Source;
use jpeg_meaning::settings::Settings;
use jpeg_pixels::upsampler::ColorConvert;
use jpeg_segments::parser::{CodingProcess, ScanHeader};
use std::alloc::Global;
use std::io::Read;

/// How the lines of a picture are given.
#[derive(Drop)]
pub enum Begun {
    /// As the first scan is read, whose header was read.
    Scan(RowScan),
    /// Out of the planes of the picture: the stream was read to its end.
    Lines(Shown),
}

/// Returns the conversion of a transform for this many components, if there is one.
fn conversion_of(alloc: Global, count: usize, transform: ColorTransform) -> Option<ColorConvert>
    ensures { result ≡ conversion_for count transform }
{
    if count == 1 {
        return Some(ColorConvert::None);
    }
    ColorConvert::choose(alloc, count, transform).ok()
}

/// Returns how the lines are made of a picture whose first scan has this header, if they are given
/// as it is read.
fn colours_for(
    alloc: Global,
    state: &State,
    header: &ScanHeader,
    settings: Settings,
) -> Option<Colours>
    requires header { IsHeaderOf state.now header.now }
    ensures some { IfSome result (λ c. IfSome state.now.said.frame (λ f.
        (comes_by_rows settings state.now.said f header.now ≡ true)
        × (c.transform ≡ transform_said settings state.now.said f)
        × (conversion_in f.components c.transform ≡ Ok c.convert))) }
    ensures none { result ≡ None → IfSome state.now.said.frame
        (λ f. comes_by_rows settings state.now.said f header.now ≡ false) }
{
    let frame = state.said.frame.as_ref()?;
    let count = frame.components.len();
    let is_sequential = frame.coding_process == CodingProcess::DctSequential;
    if !is_sequential || header.components().len() != count || settings.luma {
        return None;
    }
    if !is_within_limit(frame, settings.limit) {
        return None;
    }
    let transform = transform_of(state, frame, settings);
    let convert = conversion_of(alloc, count, transform)?;
    Some(Colours { transform, convert })
}

/// Makes the lines of the picture of what was found, which is taken.
fn take_lines(alloc: Global, state: &mut State, settings: Settings) -> Result<Shown>
    requires sound { IsSound state.old }
    ensures said { state.new.said ≡ state.old.said }
    ensures meant { let expected = picture_of settings state.old in
        Returns expected (λ s. concat s.left) result }
    ensures whole { IfOk result (λ s. IsWhole
        (option_map (shape_of settings) state.old.said.frame) (concat s.left)) }
    ensures untaken { IfOk result (IsUntaken
        (option_map (shape_of settings) state.new.said.frame)) }
{
    let mut decoded = std::mem::replace(&mut state.decoded, Decoded::new(alloc));
    let lines = picture(alloc, state, &mut decoded, settings)?;
    Shown::new(alloc, lines)
}

/// Returns the place of a transform among all.
fn transform_place(transform: ColorTransform) -> u8
    ensures { result ≡ transform_place transform }
{
    match transform {
        ColorTransform::None => 0,
        ColorTransform::Unknown => 1,
        ColorTransform::Grayscale => 2,
        ColorTransform::RGB => 3,
        ColorTransform::YCbCr => 4,
        ColorTransform::CMYK => 5,
        ColorTransform::YCCK => 6,
        ColorTransform::JcsBgYcc => 7,
        ColorTransform::JcsBgRgb => 8,
    }
}

/// Returns the refusal of a segment that chooses another transform once lines were given.
#[cold]
#[inline(never)]
fn late_error(alloc: Global, given: ColorTransform, said: ColorTransform) -> Error
    ensures { NamesFormat result }
{
    format_error_of(format!(in alloc;
        "found data of an application after the first scan that ask for color transform {said:?}, \
        expected {given:?}"
    ))
}

/// Refuses segments after the first scan that choose another transform than the one by which lines
/// were given.
fn check_transform(
    alloc: Global,
    state: &State,
    settings: Settings,
    given: ColorTransform,
) -> Result<()>
    requires framed { is_some state.now.said.frame ≡ true }
    ensures { IfSome state.now.said.frame (λ f. MatchResult result
        (λ _. keeps_transform given settings state.now.said f ≡ true)
        (λ e. (keeps_transform given settings state.now.said f ≡ false) × NamesFormat e)) }
{
    let Some(frame) = &state.said.frame else {
        unreachable!()
    };
    let said = transform_of(state, frame, settings);
    if frame.components.len() == 1 || transform_place(given) == transform_place(said) {
        return Ok(());
    }
    Err(late_error(alloc, given, said))
}

/// Reads the header of the first scan, whose marker was met, and begins to give its lines; or reads
/// on to the end of the image, where they can't be given as it is read.
fn begin_at_scan<R: Read + Drop>(
    alloc: Global,
    source: &mut Source<R>,
    state: &mut State,
    settings: Settings,
    walk: &mut Walk,
) -> Result<Begun>
    requires sound { IsSound state.old }
    requires unread { IsUnread state.old }
    requires framed { is_some state.old.said.frame ≡ true }
    requires going { IsGoing walk.old }
    requires left { walk.old.budget.left ≡ settings.max_blocks }
    ensures begins { (k : Bool) → IsKnownIf k 0 source.old → BeginsAtScan settings k state.old
        source.old result state.new source.new walk.new.budget.exceeded }
    ensures stays { state.new.said.frame ≡ state.old.said.frame }
    ensures frames { OnOk result (HasDecodedFrame state.new) }
{
    let header = read_header(alloc, source, state, &mut walk.budget)?;
    match colours_for(alloc, state, &header, settings) {
        Some(colours) => {
            let rows = begin_rows(alloc, state, header, colours, *walk)?;
            Ok(Begun::Scan(rows))
        }
        None => {
            let step = read_after(alloc, source, state, &header, Beyond::Zeros, &mut walk.rows)?;
            read_on(alloc, source, state, step, walk)?;
            let shown = take_lines(alloc, state, settings)?;
            Ok(Begun::Lines(shown))
        }
    }
}

/// Reads the rest of a stream up to the data of its first scan, and begins to give its lines; or
/// reads on to the end of the image.
fn begin_segments<R: Read + Drop>(
    alloc: Global,
    source: &mut Source<R>,
    state: &mut State,
    settings: Settings,
    walk: &mut Walk,
) -> Result<Begun>
    requires sound { IsSound state.old }
    requires unread { IsUnread state.old }
    requires framed { is_some state.old.said.frame ≡ true }
    requires going { IsGoing walk.old }
    requires left { walk.old.budget.left ≡ settings.max_blocks }
    ensures begins { Begins settings state.old source.old result state.new source.new
        walk.new.budget.exceeded }
    ensures stays { state.new.said.frame ≡ state.old.said.frame }
    ensures frames { OnOk result (HasDecodedFrame state.new) }
{
    if read_to_scan(alloc, source, state)? {
        return begin_at_scan(alloc, source, state, settings, walk);
    }
    let shown = take_lines(alloc, state, settings)?;
    Ok(Begun::Lines(shown))
}

/// Begins to give the lines of the rest of a stream, after its header: as its first scan is read,
/// where that has all components of a sequential frame, or else at the end of the image.
/// `exceeded` says whether a scan was refused since it codes more blocks than the limit leaves.
pub fn begin_rest<R: Read + Drop>(
    alloc: Global,
    source: &mut Source<R>,
    state: &mut State,
    settings: Settings,
    exceeded: &mut bool,
) -> Result<Begun>
    requires sound { IsSound state.old }
    requires unread { IsUnread state.old }
    requires framed { is_some state.old.said.frame ≡ true }
    ensures begins { Begins settings state.old source.old result state.new source.new
        exceeded.new }
    ensures stays { state.new.said.frame ≡ state.old.said.frame }
    ensures frames { OnOk result (HasDecodedFrame state.new) }
{
    let mut walk = Walk {
        budget: Budget {
            left: settings.max_blocks,
            exceeded: false,
        },
        rows: None,
    };
    let begun = begin_segments(alloc, source, state, settings, &mut walk);
    *exceeded = walk.budget.exceeded;
    begun
}

/// Reads a stream up to the data of its first scan, and begins to give its lines, whatever bytes
/// follow; or returns none where they can't be given as it is read.
pub fn begin_stream<R: Read + Drop>(
    alloc: Global,
    source: &mut Source<R>,
    state: &mut State,
    settings: Settings,
) -> Result<Option<RowScan>>
    requires { state.old ≡ nothing_found }
    ensures begins { source.old.known ≡ true → IfOk result (λ o. IfSome o (BeginsScan settings
        source.old.bytes state.new source.new.bytes)) }
    ensures known { source.old.known ≡ true → OnOk result (source.new.known ≡ true) }
{
    whole::read_header(alloc, source, state)?;
    if !read_to_scan(alloc, source, state)? {
        return Ok(None);
    }
    let mut walk = Walk {
        budget: Budget {
            left: settings.max_blocks,
            exceeded: false,
        },
        rows: None,
    };
    let header = read_header(alloc, source, state, &mut walk.budget)?;
    match colours_for(alloc, state, &header, settings) {
        Some(colours) => Ok(Some(begin_rows(alloc, state, header, colours, walk)?)),
        None => Ok(None),
    }
}

/// Reads the rest of a stream after the last row of MCUs of its first scan, whose lines were given.
fn finish<R: Read + Drop>(
    alloc: Global,
    source: &mut Source<R>,
    state: &mut State,
    settings: Settings,
    rows: &mut RowScan,
) -> Result<()>
    requires scan { IsInScan state.old rows.old source.old }
    requires ended { IfSome state.old.said.frame (λ f. f.mcus_high ≡ rows.old.giver.rows) }
    ensures says { (k : Bool) (at : Stream) (bytes : List ℕ)
        → InScan settings k state.old at rows.old source.old bytes
        → SaysAtScan settings k state.old at result source.new (told_of state.new.said)
        rows.new.walk.budget.exceeded bytes }
    ensures stays { state.new.said.frame ≡ state.old.said.frame }
    ensures frames { OnOk result (HasDecodedFrame state.new) }
{
    let step = end_rows(alloc, source, state, rows)?;
    read_on(alloc, source, state, step, &mut rows.walk)?;
    check_transform(alloc, state, settings, rows.transform)
}

/// Returns whether a scan has rows of MCUs that weren't read.
pub fn has_more(state: &State, rows: &RowScan) -> bool
    requires scan { IfSome state.now.said.frame (λ f. rows.now.giver.rows ≤ f.mcus_high) }
    requires framed { is_some state.now.said.frame ≡ true }
    ensures more { result ≡ true
        → IfSome state.now.said.frame (λ f. rows.now.giver.rows < f.mcus_high) }
    ensures ended { result ≡ false
        → IfSome state.now.said.frame (λ f. f.mcus_high ≡ rows.now.giver.rows) }
{
    match &state.said.frame {
        Some(frame) => rows.giver.rows < frame.mcu_size.height,
        None => false,
    }
}

/// Reads the next row of MCUs of the first scan, and makes the lines that it decides; after the last
/// one reads the rest of the stream. Returns whether there was a row.
pub fn read_more<R: Read + Drop>(
    alloc: Global,
    source: &mut Source<R>,
    state: &mut State,
    settings: Settings,
    rows: &mut RowScan,
) -> Result<bool>
    requires scan { IsInScan state.old rows.old source.old }
    ensures goes { (k : Bool) (at : Stream) (bytes : List ℕ)
        → InScan settings k state.old at rows.old source.old bytes
        → GoesOn settings k state.old at result state.new rows.new source.new
        rows.new.walk.budget.exceeded bytes }
    ensures fewer { result ≡ Ok true → rows_left rows.new < rows_left rows.old }
    ensures stays { state.new.said.frame ≡ state.old.said.frame }
    ensures frames { OnOk result (HasDecodedFrame state.new) }
{
    if has_more(state, rows) {
        read_lines(alloc, source, state, rows)?;
        return Ok(true);
    }
    finish(alloc, source, state, settings, rows)?;
    Ok(false)
}
