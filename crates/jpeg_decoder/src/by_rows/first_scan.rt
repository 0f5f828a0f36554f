//! The first scan of a stream, of all components of its frame, whose rows of MCUs become lines of the
//! picture as they are read (T.81, A.2 and B.2.3).
ghost use Rattle.std.specs.Prelude.{◌≡◌, ◌<◌, ◌++◌, [], Bool, IfErr, IfOk, IfSome, List, MatchResult};
ghost use Rattle.std.specs.Prelude.{Err, OnOk, false, length, ℕ};
ghost use Rattle.jpeg_bits.specs.Reading.{Answers, Names};
ghost use Rattle.jpeg_bits.specs.Stream.{Stream};
ghost use Rattle.jpeg_bits.specs.declared.beyond.Beyond.TheVariants.{Zeros};
ghost use Rattle.jpeg_segments.specs.declared.frame.CodingProcess.TheVariants.{DctSequential};
ghost use Rattle.jpeg_pixels.specs.PicturesView.{IsFor};
ghost use Rattle.jpeg_meaning.specs.ScanSegments.{codings_of, once_scanned};
ghost use Rattle.jpeg_meaning.specs.Sound.{IsSound, IsUnread};
ghost use Rattle.jpeg_meaning.specs.Stream.{told_of};
ghost use Rattle.jpeg_meaning.specs.declared.settings.Settings.{Settings};
ghost use Rattle.jpeg_decoder.specs.ByRows.{turn_without, turns_without};
ghost use Rattle.jpeg_decoder.specs.Givers.{GivesScan};
ghost use Rattle.jpeg_decoder.specs.Reaching.{IsEndOf, turn_after};
ghost use Rattle.jpeg_decoder.specs.RowScans.{ComesBy, HasHeader, InScan, IsInScan, SaysAtScan};
ghost use Rattle.jpeg_decoder.specs.RowScans.{rows_left};
ghost use Rattle.jpeg_decoder.specs.Steps.{IsHeaderOf, IsRefusal, IsStep, turn_of};
ghost use Rattle.jpeg_decoder.specs.Walks.{IsGoing, IsKnownIf, known_if};

use crate::by_rows::giver::RowGiver;
use crate::scan::blocks::{Interval, first_interval};
use crate::scan::codings::{Spare, block_scan_of, spare_tables};
use crate::scan::order::ScanOrder;
use crate::scan::restarts::pass_after;
use crate::scan::rows::read_row;
use crate::scan::work::Walk;
use crate::stream::state::{State, Step};
use jpeg_bits::beyond::Beyond;
use jpeg_bits::color_transform::ColorTransform;
use jpeg_bits::error::Result;
use jpeg_bits::marker::Marker;
use jpeg_bits::source::Source;
use jpeg_pixels::upsampler::ColorConvert;
use jpeg_segments::parser::ScanHeader;
use std::alloc::Global;
use std::io::Read;

/// How the lines of a picture are made that are given as its first scan is read: the transform that
/// is chosen there, and the conversion.
#[derive(Clone, Copy)]
pub struct Colours {
    /// The transform.
    pub transform: ColorTransform,
    /// The conversion.
    pub convert: ColorConvert,
}

/// What is kept of a scan between two rows of MCUs. Nothing is borrowed: the tables in force are
/// looked up for each row, since no segment is read between two of them.
#[derive(Drop)]
pub struct RowScan {
    /// Its header.
    pub header: ScanHeader,
    /// The tables that stand in where a destination is unset.
    pub spare: Spare,
    /// The order of its blocks.
    pub order: ScanOrder,
    /// The state between two of its blocks.
    pub interval: Interval,
    /// What makes lines of its rows of MCUs.
    pub giver: RowGiver,
    /// The transform that was chosen for the picture.
    pub transform: ColorTransform,
    /// How far the walk over the segments has come before it.
    pub walk: Walk,
}

/// Makes what is kept of a scan of all components of a frame before its first row of MCUs. The
/// errors are `Format` if a table that it needs isn't set, and `OutOfMemory`.
pub fn begin_rows(
    alloc: Global,
    state: &State,
    header: ScanHeader,
    colours: Colours,
    walk: Walk,
) -> Result<RowScan>
    requires sound { IsSound state.now }
    requires header { IsHeaderOf state.now header }
    requires all { IfSome state.now.said.frame (λ f. (f.process ≡ DctSequential)
        × (length header.components ≡ length f.components)
        × IsFor (length f.components) colours.convert) }
    ensures begun { (settings : Settings) (k : Bool) (at mid : Stream)
        → HasHeader settings settings.max_blocks walk.budget.left state.now state.now header
        (known_if k at) mid → IsKnownIf k 0 at → IsGoing walk → IsUnread state.now
        → ComesBy settings state.now header colours.transform colours.convert
        → IfOk result (λ r. InScan settings k state.now at r mid []) }
    ensures none { IfOk result (λ r. r.giver.lines.items ≡ []) }
    ensures refused { IfErr result (λ e. IsRefusal e
        × IfSome state.now.said.frame (λ f. Names e (codings_of state.now.said f header))) }
{
    let said = &state.said;
    let Some(frame) = &said.frame else {
        unreachable!()
    };
    let mut spare = Spare::none(alloc);
    spare_tables(alloc, &header, frame, said.metadata.avi1, &mut spare)?;
    let scan = block_scan_of(alloc, said, &spare, frame, &header, Beyond::Zeros)?;
    let order = ScanOrder::new(alloc, &scan, frame)?;
    let giver = RowGiver::new(alloc, frame, scan.components(), colours.convert)?;
    let interval = first_interval(alloc, order.interval, Beyond::Zeros);
    // Ends its borrow of `spare`.
    drop(scan);
    Ok(RowScan {
        header,
        spare,
        order,
        interval,
        giver,
        transform: colours.transform,
        walk,
    })
}

/// Reads the next row of MCUs of a scan, and makes the lines that it decides.
pub fn read_lines<R: Read + Drop>(
    alloc: Global,
    source: &mut Source<R>,
    state: &State,
    rows: &mut RowScan,
) -> Result<()>
    requires scan { IsInScan state.now rows.old source.old }
    requires more { IfSome state.now.said.frame (λ f. rows.old.giver.rows < f.mcus_high) }
    ensures goes { (settings : Settings) (k : Bool) (at : Stream) (bytes : List ℕ)
        → InScan settings k state.now at rows.old source.old bytes → MatchResult result
        (λ _. InScan settings k state.now at rows.new source.new
        (bytes ++ rows.new.giver.lines.items))
        (λ e. SaysAtScan settings k state.now at (Err e) source.new (told_of state.now.said) false
        bytes) }
    ensures fewer { OnOk result (rows_left rows.new < rows_left rows.old) }
    ensures kept { rows.new.walk ≡ rows.old.walk }
{
    let said = &state.said;
    let Some(frame) = &said.frame else {
        unreachable!()
    };
    let scan = block_scan_of(alloc, said, &rows.spare, frame, &rows.header, Beyond::Zeros)?;
    let row = rows.giver.rows;
    read_row(
        &mut rows.interval,
        source,
        &scan,
        &mut rows.giver.blocks,
        &rows.order,
        row,
    )?;
    rows.giver.take_row(alloc, frame, scan.components())
}

/// Marks that the data of a scan were read, and returns what stands after it, or their refusal.
fn end_scan(state: &mut State, read: Result<Option<Marker>>) -> Result<Step>
    ensures found { state.new ≡ once_scanned state.old }
    ensures step { IsEndOf state.old (turn_of state.new) read result }
{
    match read {
        Ok(met) => Ok(state.end_scan(met)),
        Err(e) => {
            state.end_scan(None);
            Err(e)
        }
    }
}

/// Reads what stands after the last row of MCUs of a scan: the marker after it and after the restart
/// markers at its end, if one was reached. No plane is kept.
pub fn end_rows<R: Read + Drop>(
    alloc: Global,
    source: &mut Source<R>,
    state: &mut State,
    rows: &mut RowScan,
) -> Result<Step>
    requires scan { IsInScan state.old rows.old source.old }
    requires ended { IfSome state.old.said.frame (λ f. f.mcus_high ≡ rows.old.giver.rows) }
    ensures reads { (settings : Settings) (k : Bool) (at : Stream) (bytes : List ℕ)
        → (h : InScan settings k state.old at rows.old source.old bytes)
        → Answers (λ s. turn_without (turn_of state.new s))
        (λ bytes. turns_without (turn_after Zeros state.old rows.old.header bytes).turn) h.mid
        result source.new }
    ensures gives { (settings : Settings) (k : Bool) (at : Stream) (bytes : List ℕ)
        → (h : InScan settings k state.old at rows.old source.old bytes)
        → OnOk result (IfSome state.old.said.frame (λ f. GivesScan state.old f rows.old.header
        rows.old.giver.convert h.mid result bytes)) }
    ensures steps { IsStep state.old result state.new }
    ensures kept { rows.new.walk ≡ rows.old.walk }
    ensures colours { rows.new.transform ≡ rows.old.transform }
{
    let said = &state.said;
    let Some(frame) = &said.frame else {
        unreachable!()
    };
    let scan = block_scan_of(alloc, said, &rows.spare, frame, &rows.header, Beyond::Zeros)?;
    let met = rows.interval.decoder.take_marker(source);
    let read = pass_after(alloc, source, met);
    state.decoded.kept = Vec::new(alloc);
    state.decoded.mark_all(&scan);
    // Ends its borrow of `state`.
    drop(scan);
    end_scan(state, read)
}
