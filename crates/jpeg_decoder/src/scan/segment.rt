//! A scan in a stream: its header, the tables in force, its data (T.81, B.2.3), and what may stand
//! after it.
ghost use Rattle.jpeg_bits.specs.Reading.{Answers, Names};
ghost use Rattle.jpeg_segments.specs.declared.frame.CodingProcess.TheVariants.{Lossless};
ghost use Rattle.jpeg_meaning.specs.Sound.{IsSound};
ghost use Rattle.jpeg_decoder.specs.Seen.{found_of};
ghost use Rattle.jpeg_decoder.specs.Steps.{IsDct, IsHeaderOf, IsRefusal, IsStep};
ghost use Rattle.jpeg_decoder.specs.Steps.{header_within, turn_of};
ghost use Rattle.jpeg_meaning.specs.ScanSegments.{once_scanned};
ghost use Rattle.jpeg_bits.specs.declared.marker.Marker.TheVariants.{DNL};
ghost use Rattle.jpeg_meaning.specs.Found.{Found};
ghost use Rattle.jpeg_meaning.specs.Stream.{scan_within, segment_at};
ghost use Rattle.std.specs.Prelude.{IfOk, IfSome, List, None, OnOk, Some, false, true, ℕ, ◌≡◌};
ghost use Rattle.jpeg_meaning.specs.Work.{is_above, left_after, work_of_header};
ghost use Rattle.jpeg_decoder.specs.Walks.{AfterWalk, IsGoing, Leaves, OfWalk};
ghost use Rattle.jpeg_meaning.specs.States.{OnToldRefusal};
ghost use Rattle.jpeg_bits.specs.declared.beyond.Beyond.TheVariants.{Nothing, Zeros};
ghost use Rattle.jpeg_decoder.specs.Reaching.{IsEndOf, rows_after, turn_after};

use crate::scan::codings::{Spare, block_scan_of, spare_tables, widen_tables};
use crate::scan::decoded::Decoded;
use crate::scan::lossless::{read_samples, sample_scan_of};
use crate::scan::restarts::pass_after;
use crate::scan::work::{Budget, Walk};
use crate::stream::state::{Said, State, Step};
use crate::stream::tables::{Missing, needed};
use jpeg_bits::beyond::Beyond;
use jpeg_bits::error::{Error, Result, UnsupportedFeature, format_error};
use jpeg_bits::marker::Marker;
use jpeg_bits::source::Source;
use jpeg_meaning::before::Before;
use jpeg_segments::parser::{CodingProcess, FrameInfo, ScanHeader, read_scan_header};
use std::alloc::Global;
use std::io::Read;

/// Returns why a DNL segment is refused: after the first scan it would give the height (T.81,
/// B.2.5).
#[tactic(auto, unfolding(jpeg_meaning::specs::Stream::segment_at))]
pub fn refused_line_count(alloc: Global, before: Before) -> Error
    ensures { IsRefusal result × ((found : Found) (bytes : List ℕ) →
        Names result (segment_at DNL before found bytes)) }
{
    match before {
        Before::FirstScan => Error::Unsupported(UnsupportedFeature::DNL),
        Before::LaterScan | Before::Elsewhere => {
            format_error(alloc, "found DNL, expected it only after the first scan")
        }
    }
}

/// Marks that the data of a scan were read, and returns what stands after it, or the refusal of its
/// data, and with that the number of complete rows of the picture, which the scan has given.
fn end_read(
    state: &mut State,
    read: Result<Option<Marker>>,
    given: Option<u16>,
    rows: &mut Option<u16>,
) -> Result<Step>
    ensures rows { rows.new ≡ rows_after read rows.old given }
    ensures found { state.new ≡ once_scanned state.old }
    ensures step { IsEndOf state.old (turn_of state.new) read result }
{
    match read {
        Ok(met) => Ok(state.end_scan(met)),
        Err(e) => {
            *rows = given;
            state.end_scan(None);
            Err(e)
        }
    }
}

/// Reads the header of a scan, once the look-up tables of the tables in force are filled, and takes
/// its blocks from those that are left, if there is a limit. A scan of more is refused.
#[inline(never)]
pub fn read_header<R: Read + Drop>(
    alloc: Global,
    source: &mut Source<R>,
    state: &mut State,
    budget: &mut Budget,
) -> Result<ScanHeader>
    requires sound { IsSound state.old }
    requires within { budget.old.exceeded ≡ false }
    ensures header { Answers (λ h. h) (header_within budget.old.left state.old) source.old
        result source.new }
    ensures legal { IfOk result (IsHeaderOf state.old) }
    ensures stays { state.new ≡ state.old }
    ensures left { source.old.known ≡ true → OnOk result (budget.new.left
        ≡ left_after budget.old.left (work_of_header state.old source.old.bytes)) }
    ensures within { OnOk result (budget.new.exceeded ≡ false) }
    ensures exceeded { OnToldRefusal source.old source.new result (budget.new.exceeded
        ≡ is_above budget.old.left (work_of_header state.old source.old.bytes)) }
{
    widen_tables(alloc, state)?;
    let frame = needed(
        alloc,
        state.said.frame.as_ref(),
        Missing::Frame(Marker::SOS),
    )?;
    let header = read_scan_header(alloc, source, frame)?;
    budget.charge(alloc, frame, &header)?;
    Ok(header)
}

/// Returns whether a lossless frame was found.
fn is_lossless(said: &Said) -> bool
    ensures lossless { result ≡ true → IfSome said.now.frame (λ f. f.process ≡ Lossless) }
    ensures blocks { result ≡ false → IfSome said.now.frame (λ f. IsDct f.process) }
{
    match &said.frame {
        Some(frame) => frame.coding_process == CodingProcess::Lossless,
        None => false,
    }
}

/// Returns how many rows of the picture are complete, as far as a scan has said so whose data were
/// read up to their first fault.
fn rows_given(decoded: &Decoded, beyond: Beyond) -> Option<u16>
    ensures zeros { beyond ≡ Zeros → result ≡ None }
    ensures nothing { beyond ≡ Nothing → result ≡ decoded.now.rows }
{
    match beyond {
        Beyond::Nothing => decoded.rows,
        Beyond::Zeros => None,
    }
}

/// Reads the blocks of a scan, and returns what stands after it, as `read_after` does.
#[inline(never)]
fn read_block_scan<R: Read + Drop>(
    alloc: Global,
    source: &mut Source<R>,
    state: &mut State,
    header: &ScanHeader,
    beyond: Beyond,
    rows: &mut Option<u16>,
) -> Result<Step>
    requires sound { IsSound state.old }
    requires header { IsHeaderOf state.old header.now }
    requires process { IfSome state.old.said.frame (λ f. IsDct f.process) }
    requires rows { rows.old ≡ None }
    ensures whole { OnOk result (rows.new ≡ None) }
    ensures reads { OfWalk beyond result (Answers (turn_of state.new) (λ bytes.
        (turn_after beyond state.old header.now bytes).turn) source.old result source.new) }
    ensures leaves { OnToldRefusal source.old source.new result (let b = turn_after beyond
        state.old header.now source.old.bytes in
        Leaves beyond state.new rows.new b.found b.rows) }
    ensures sound { AfterWalk beyond result (IsSound state.new) }
    ensures steps { IsStep state.old result state.new }
{
    let said = &state.said;
    let Some(frame) = &said.frame else {
        unreachable!()
    };
    let mut spare = Spare::none(alloc);
    spare_tables(alloc, header, frame, said.metadata.avi1, &mut spare)?;
    let scan = block_scan_of(alloc, said, &spare, frame, header, beyond)?;
    let read = state
        .decoded
        .read(alloc, source, said.scanned, frame, &scan);
    let read = pass_after(alloc, source, read);
    // Ends its borrow of `state`.
    drop(scan);
    let given = rows_given(&state.decoded, beyond);
    end_read(state, read, given, rows)
}

/// Reads the samples of a lossless scan, and returns what stands after it, as `read_after` does.
#[inline(never)]
fn read_lossless_scan<R: Read + Drop>(
    alloc: Global,
    source: &mut Source<R>,
    state: &mut State,
    header: &ScanHeader,
    beyond: Beyond,
    rows: &mut Option<u16>,
) -> Result<Step>
    requires sound { IsSound state.old }
    requires header { IsHeaderOf state.old header.now }
    requires process { IfSome state.old.said.frame (λ f. f.process ≡ Lossless) }
    requires rows { rows.old ≡ None }
    ensures whole { OnOk result (rows.new ≡ None) }
    ensures reads { OfWalk beyond result (Answers (turn_of state.new) (λ bytes.
        (turn_after beyond state.old header.now bytes).turn) source.old result source.new) }
    ensures leaves { OnToldRefusal source.old source.new result (let b = turn_after beyond
        state.old header.now source.old.bytes in
        Leaves beyond state.new rows.new b.found b.rows) }
    ensures sound { AfterWalk beyond result (IsSound state.new) }
    ensures steps { IsStep state.old result state.new }
{
    let said = &state.said;
    let Some(frame) = &said.frame else {
        unreachable!()
    };
    let scan = sample_scan_of(alloc, said, frame, header)?;
    let read = read_samples(alloc, source, &scan, &mut state.decoded, beyond);
    // Ends its borrow of `state`.
    drop(scan);
    let given = rows_given(&state.decoded, beyond);
    end_read(state, read, given, rows)
}

/// Reads what follows the header of a scan, and returns what stands after it: the marker after it
/// and after the restart markers at its end, if one was reached.
///
/// Where nothing follows the markers that end its data, the blocks that were read before an error
/// count, or the rows of MCUs of a lossless scan, unless the error is out of memory. Where it lacks
/// some, `rows` says how many rows of the picture are complete.
pub fn read_after<R: Read + Drop>(
    alloc: Global,
    source: &mut Source<R>,
    state: &mut State,
    header: &ScanHeader,
    beyond: Beyond,
    rows: &mut Option<u16>,
) -> Result<Step>
    requires sound { IsSound state.old }
    requires header { IsHeaderOf state.old header.now }
    requires rows { rows.old ≡ None }
    ensures whole { OnOk result (rows.new ≡ None) }
    ensures reads { OfWalk beyond result (Answers (turn_of state.new) (λ bytes.
        (turn_after beyond state.old header.now bytes).turn) source.old result source.new) }
    ensures leaves { OnToldRefusal source.old source.new result (let b = turn_after beyond
        state.old header.now source.old.bytes in
        Leaves beyond state.new rows.new b.found b.rows) }
    ensures sound { AfterWalk beyond result (IsSound state.new) }
    ensures steps { IsStep state.old result state.new }
{
    if is_lossless(&state.said) {
        read_lossless_scan(alloc, source, state, header, beyond, rows)
    } else {
        read_block_scan(alloc, source, state, header, beyond, rows)
    }
}

/// Reads a scan, and returns what stands after it: the marker after it and after the restart
/// markers at its end, if one was reached. An error may leave a part of what the scan gave, which
/// counts where nothing follows the marker after its data: see `read_after`.
///
/// Its blocks are taken from those that are left, if there is a limit. A scan of more is refused
/// after its header, and nothing of it counts.
pub fn read_scan<R: Read + Drop>(
    alloc: Global,
    source: &mut Source<R>,
    state: &mut State,
    beyond: Beyond,
    walk: &mut Walk,
) -> Result<Step>
    requires sound { IsSound state.old }
    requires going { IsGoing walk.old }
    ensures reads { OfWalk beyond result (Answers (turn_of state.new) (λ bytes.
        (scan_within walk.old.budget.left beyond state.old bytes).turn) source.old result
        source.new) }
    ensures leaves { OnToldRefusal source.old source.new result (let b = scan_within
        walk.old.budget.left beyond state.old source.old.bytes in
        Leaves beyond state.new walk.new.rows b.found b.rows) }
    ensures left { source.old.known ≡ true → OnOk result (walk.new.budget.left
        ≡ left_after walk.old.budget.left (work_of_header state.old source.old.bytes)) }
    ensures exceeded { OnToldRefusal source.old source.new result (walk.new.budget.exceeded
        ≡ is_above walk.old.budget.left (work_of_header state.old source.old.bytes)) }
    ensures going { OnOk result (IsGoing walk.new) }
    ensures sound { AfterWalk beyond result (IsSound state.new) }
    ensures steps { IsStep state.old result state.new }
{
    let header = read_header(alloc, source, state, &mut walk.budget)?;
    read_after(alloc, source, state, &header, beyond, &mut walk.rows)
}
