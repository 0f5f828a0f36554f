//! A stream, segment by segment, with the scans in their place (T.81, B.2).
ghost use Rattle.std.specs.Prelude.{◌≡◌, ◌&&◌, Bool, ℕ, true, is_some, None, OnOk, IfOk};
ghost use Rattle.jpeg_bits.specs.Marker.{found_or, next_marker};
ghost use Rattle.jpeg_bits.specs.Reading.{Answers, IsShort, NamesFormat};
ghost use Rattle.jpeg_bits.specs.declared.beyond.Beyond.TheVariants.{Zeros};
ghost use Rattle.jpeg_meaning.specs.Reported.{IsOfTurns};
ghost use Rattle.jpeg_meaning.specs.Sound.{IsSound, IsUnread};
ghost use Rattle.jpeg_meaning.specs.States.{OnTold, OnToldRefusal};
ghost use Rattle.jpeg_meaning.specs.Stream.{segment_at, told_of};
ghost use Rattle.jpeg_meaning.specs.Stream.{turn_within};
ghost use Rattle.jpeg_meaning.specs.Work.{is_above, left_after, work_of_turn};
ghost use Rattle.jpeg_bits.specs.declared.marker.Marker.TheVariants.{SOS};
ghost use Rattle.jpeg_decoder.specs.Reaching.{OnFault, without_tables};
ghost use Rattle.jpeg_decoder.specs.Steps.{IsStep, turn_of};
ghost use Rattle.jpeg_decoder.specs.Walks.{AfterWalk, IsGoing, IsKnownIf, Leaves, OfWalk, known_if};
ghost use Rattle.jpeg_decoder.specs.Walks.{steps_for, steps_over, walk_for, walk_over, walked_to};
ghost use Rattle.std.specs.Prelude.{IfSome, Ok, OnErr, Option, false};
ghost use Rattle.jpeg_decoder.specs.ByRows.{AreSameScans, GoesOnAtScan, scan_ahead, to_scan_of};
ghost use Rattle.jpeg_decoder.specs.ByRows.{to_turn, to_turn_of, walk_after, walk_on};

use crate::scan::segment::{read_scan, refused_line_count};
use crate::scan::work::Walk;
use crate::stream::state::{ONWARD, State, Step};
use jpeg_bits::beyond::Beyond;
use jpeg_bits::error::{Error, Result, UnsupportedFeature, format_error, format_error_of};
use jpeg_bits::marker::{Marker, read_marker};
use jpeg_bits::source::Source;
use jpeg_meaning::before::Before;
use std::alloc::Global;
use std::io::Read;

/// Returns the marker that was reached, or reads the next one.
fn marker_or_next<R: Read + Drop>(
    alloc: Global,
    source: &mut Source<R>,
    met: Option<Marker>,
) -> Result<Marker>
    ensures answers { Answers (λ m. m) (λ bytes. found_or met bytes (next_marker bytes))
        source.old result source.new }
    ensures short { met ≡ None → IsShort source.old }
{
    match met {
        Some(marker) => Ok(marker),
        None => read_marker(alloc, source),
    }
}

/// Reads what stands after a marker other than that of a scan.
#[tactic(auto, unfolding(crate::proofs::Rules::turns))]
fn read_segment<R: Read + Drop>(
    alloc: Global,
    source: &mut Source<R>,
    state: &mut State,
    before: Before,
    marker: Marker,
) -> Result<Step>
    requires sound { IsSound state.old }
    requires other { marker ≡ SOS → ⊥ }
    ensures reads { Answers (turn_of state.new) (segment_at marker before state.old)
        source.old result source.new }
    ensures steps { IsStep state.old result state.new }
    ensures kept { OnFault result (without_tables state.new ≡ without_tables state.old) }
    ensures decoded { AreSameScans state.old state.new }
{
    match marker {
        Marker::SOF(number) => state.read_frame(alloc, source, number),
        Marker::DQT => state.read_quantization(alloc, source),
        Marker::DHT => state.read_huffman(alloc, source),
        Marker::EOI => state.end(alloc, source),
        Marker::DRI => state.read_restart_interval(alloc, source),
        Marker::APP(number) => state.read_application(alloc, source, number),
        Marker::COM => state.skip_segment(alloc, source),
        Marker::RST(number) => state.stray_restart(alloc, source, number, before),
        Marker::DNL => Err(refused_line_count(alloc, before)),
        Marker::DAC => Err(Error::Unsupported(UnsupportedFeature::ArithmeticEntropyCoding)),
        Marker::DHP | Marker::EXP => Err(Error::Unsupported(UnsupportedFeature::Hierarchical)),
        _ => Err(marker_error(alloc, marker)),
    }
}

/// Returns the refusal of a marker that no segment begins with.
#[cold]
#[inline(never)]
fn marker_error(alloc: Global, marker: Marker) -> Error
    ensures { NamesFormat result }
{
    format_error_of(format!(in alloc; "found {marker}, expected the marker of a segment"))
}

/// Reads the marker after a step, which may have been reached already, and what stands after it:
/// see `read_scan` for a scan.
#[tactic(auto, unfolding(crate::proofs::Rules::turns))]
pub fn read_turn<R: Read + Drop>(
    alloc: Global,
    source: &mut Source<R>,
    state: &mut State,
    last: Step,
    beyond: Beyond,
    walk: &mut Walk,
) -> Result<Step>
    requires sound { IsSound state.old }
    requires going { IsGoing walk.old }
    ensures reads { OfWalk beyond result (Answers (turn_of state.new) (λ bytes.
        (turn_within walk.old.budget.left beyond last.before state.old last.met
        bytes).turn) source.old result source.new) }
    ensures leaves { OnToldRefusal source.old source.new result (let b = turn_within
        walk.old.budget.left beyond last.before state.old last.met source.old.bytes in
        Leaves beyond state.new walk.new.rows b.found b.rows) }
    ensures left { source.old.known ≡ true → OnOk result (walk.new.budget.left
        ≡ left_after walk.old.budget.left (work_of_turn state.old last.met source.old.bytes)) }
    ensures exceeded { OnToldRefusal source.old source.new result (walk.new.budget.exceeded
        ≡ is_above walk.old.budget.left (work_of_turn state.old last.met source.old.bytes)) }
    ensures going { OnOk result (IsGoing walk.new) }
    ensures sound { AfterWalk beyond result (IsSound state.new) }
    ensures steps { IsStep state.old result state.new }
    ensures short { last.met ≡ None → IsShort source.old }
{
    let marker = marker_or_next(alloc, source, last.met)?;
    if marker == Marker::SOS {
        return read_scan(alloc, source, state, beyond, walk);
    }
    read_segment(alloc, source, state, last.before, marker)
}

/// Reads the marker after a step, which may have been reached already, and what stands after it,
/// unless it is that of a scan.
fn read_to_turn<R: Read + Drop>(
    alloc: Global,
    source: &mut Source<R>,
    state: &mut State,
    last: Step,
) -> Result<Option<Step>>
    requires sound { IsSound state.old }
    ensures scan { result ≡ Ok None → state.new ≡ state.old }
    ensures reads { Answers (to_turn_of state.new) (to_turn last.before state.old last.met)
        source.old result source.new }
    ensures kept { OnErr result (told_of state.new.said ≡ told_of state.old.said) }
    ensures steps { IfOk result (λ o. IfSome o (λ s. IsStep state.old (Ok s) state.new)) }
    ensures decoded { AreSameScans state.old state.new }
    ensures short { last.met ≡ None → IsShort source.old }
{
    let marker = marker_or_next(alloc, source, last.met)?;
    if marker == Marker::SOS {
        return Ok(None);
    }
    let step = read_segment(alloc, source, state, last.before, marker)?;
    Ok(Some(step))
}

/// Reads segments up to a scan, and its marker, or up to the end of the image, and returns whether
/// there is a scan.
pub fn read_to_scan<R: Read + Drop>(
    alloc: Global,
    source: &mut Source<R>,
    state: &mut State,
) -> Result<bool>
    requires sound { IsSound state.old }
    ensures reads { Answers (λ b. to_scan_of state.new b) (scan_ahead state.old) source.old result
        source.new }
    ensures told { (limit : Option ℕ) → OnToldRefusal source.old source.new result
        (told_of state.new.said
        ≡ told_of (walk_over limit Zeros false state.old source.old.bytes).found.said) }
    ensures turns { (limit : Option ℕ) → source.old.known ≡ true → IsOfTurns
        (λ n. told_of (walk_for limit Zeros n false state.old source.old.bytes).found.said)
        (told_of state.new.said) }
    ensures before { (limit : Option ℕ) → source.old.known ≡ true → IfOk result (λ b. b ≡ true
        → GoesOnAtScan limit state.old source.old.bytes state.new source.new.bytes) }
    ensures framed { IfOk result (λ b. b ≡ false → is_some state.new.said.frame ≡ true) }
    ensures stays { is_some state.old.said.frame ≡ true
        → state.new.said.frame ≡ state.old.said.frame }
    ensures sound { OnOk result (IsSound state.new) }
    ensures decoded { AreSameScans state.old state.new }
    ensures short { OnOk result (IsShort source.old) }
{
    let mut last = ONWARD;
    for _ in 0..=u64::MAX {
        let Some(step) = read_to_turn(alloc, source, state, last)? else {
            return Ok(true);
        };
        if step.ended {
            return Ok(false);
        }
        last = step;
    }
    Err(format_error(alloc, "found 2^64 markers, expected EOI"))
}

/// Reads segments and scans after a step up to the end of the image or the first fault. Where what
/// is read of a scan before its first fault counts and lacks some blocks or lines, `walk` says how
/// many rows of the picture are complete.
pub fn read_from<R: Read + Drop>(
    alloc: Global,
    source: &mut Source<R>,
    state: &mut State,
    first: Step,
    beyond: Beyond,
    walk: &mut Walk,
) -> Result<()>
    requires sound { IsSound state.old }
    requires going { IsGoing walk.old }
    ensures reads { (k : Bool) → IsKnownIf k 1 source.old → OfWalk beyond result (Answers
        (λ _. state.new)
        (λ bytes. walked_to (steps_over walk.old.budget.left beyond state.old first bytes))
        (known_if k source.old) result source.new) }
    ensures leaves { (k : Bool) → IsKnownIf k 1 source.old
        → OnTold (known_if k source.old) source.new result (let w = steps_over
        walk.old.budget.left beyond state.old first source.old.bytes in
        Leaves beyond state.new walk.new.rows w.found w.rows) }
    ensures turns { (k : Bool) → IsKnownIf k 1 source.old → k ≡ true → IsOfTurns (λ n. told_of
        (steps_for walk.old.budget.left beyond n state.old first
        source.old.bytes).found.said) (told_of state.new.said) }
    ensures exceeded { (k : Bool) → IsKnownIf k 1 source.old
        → OnTold (known_if k source.old) source.new result (walk.new.budget.exceeded
        ≡ (steps_over walk.old.budget.left beyond state.old first source.old.bytes).exceeded) }
    ensures framed { IfOk result (λ _. is_some state.new.said.frame ≡ true) }
    ensures stays { is_some state.old.said.frame ≡ true
        → state.new.said.frame ≡ state.old.said.frame }
    ensures sound { AfterWalk beyond result (IsSound state.new) }
{
    let mut last = first;
    for _ in 0..=u64::MAX {
        last = read_turn(alloc, source, state, last, beyond, walk)?;
        if last.ended {
            return Ok(());
        }
    }
    Err(format_error(alloc, "found 2^64 markers, expected EOI"))
}

/// Reads segments and scans after a step up to the end of the image.
pub fn read_on<R: Read + Drop>(
    alloc: Global,
    source: &mut Source<R>,
    state: &mut State,
    first: Step,
    walk: &mut Walk,
) -> Result<()>
    requires sound { IsSound state.old }
    requires going { IsGoing walk.old }
    ensures reads { (k : Bool) → IsKnownIf k 1 source.old → Answers (λ _. state.new)
        (λ bytes. walked_to (walk_on walk.old.budget.left state.old first bytes))
        (known_if k source.old) result source.new }
    ensures told { (k : Bool) → IsKnownIf k 1 source.old
        → OnToldRefusal (known_if k source.old) source.new result (told_of state.new.said
        ≡ told_of (walk_on walk.old.budget.left state.old first source.old.bytes).found.said) }
    ensures turns { (k : Bool) → IsKnownIf k 1 source.old → k ≡ true → IsOfTurns (λ n. told_of
        (walk_after walk.old.budget.left n state.old first source.old.bytes).found.said)
        (told_of state.new.said) }
    ensures exceeded { (k : Bool) → IsKnownIf k 1 source.old
        → OnTold (known_if k source.old) source.new result (walk.new.budget.exceeded
        ≡ (walk_on walk.old.budget.left state.old first source.old.bytes).exceeded) }
    ensures framed { IfOk result (λ _. is_some state.new.said.frame ≡ true) }
    ensures stays { is_some state.old.said.frame ≡ true
        → state.new.said.frame ≡ state.old.said.frame }
    ensures sound { OnOk result (IsSound state.new) }
{
    read_from(alloc, source, state, first, Beyond::Zeros, walk)
}

/// Returns whether only the header is wanted, and the frame was read.
fn is_read_for(state: &State, header: bool) -> bool
    ensures { result ≡ (header && is_some state.now.said.frame) }
{
    header && state.said.frame.is_some()
}

/// Reads segments and scans up to the end of the image or the first fault, or, if only the header
/// is wanted, through the frame header. Where what is read of a scan before its first fault counts
/// and lacks some blocks or lines, `walk` says how many rows of the picture are complete.
pub fn read_segments<R: Read + Drop>(
    alloc: Global,
    source: &mut Source<R>,
    state: &mut State,
    header: bool,
    beyond: Beyond,
    walk: &mut Walk,
) -> Result<()>
    requires sound { IsSound state.old }
    requires going { IsGoing walk.old }
    ensures reads { OfWalk beyond result (Answers (λ _. state.new)
        (λ bytes. walked_to (walk_over walk.old.budget.left beyond header state.old bytes))
        source.old result source.new) }
    ensures leaves { OnTold source.old source.new result (let w = walk_over walk.old.budget.left
        beyond header state.old source.old.bytes in Leaves beyond state.new walk.new.rows w.found
        w.rows) }
    ensures turns { source.old.known ≡ true → IsOfTurns
        (λ n. told_of (walk_for walk.old.budget.left beyond n header state.old
        source.old.bytes).found.said)
        (told_of state.new.said) }
    ensures exceeded { OnTold source.old source.new result (walk.new.budget.exceeded
        ≡ (walk_over walk.old.budget.left beyond header state.old source.old.bytes).exceeded) }
    ensures framed { IfOk result (λ _. is_some state.new.said.frame ≡ true) }
    ensures stays { is_some state.old.said.frame ≡ true → state.new.said.frame
        ≡ state.old.said.frame }
    ensures sound { AfterWalk beyond result (IsSound state.new) }
    ensures unread { header ≡ true → state.old.said.frame ≡ None
        → OnOk result (IsUnread state.new) }
{
    let mut last = ONWARD;
    for _ in 0..=u64::MAX {
        if is_read_for(state, header) {
            return Ok(());
        }
        last = read_turn(alloc, source, state, last, beyond, walk)?;
        if last.ended {
            return Ok(());
        }
    }
    Err(format_error(alloc, "found 2^64 markers, expected EOI"))
}
