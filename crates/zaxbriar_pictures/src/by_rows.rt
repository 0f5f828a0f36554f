//! Pictures that are written while their streams are read: neither the picture nor its planes are
//! in memory as a whole, where the first scan of a sequential stream has all components.
//!
//! Whether a stream is whole is known at its end alone, so that lines may be written of one that is
//! then refused.
ghost use Rattle.std.specs.Prelude.{◌≡◌, ℕ, List, Option, Ok, IfErr, OnOk, true};
ghost use Rattle.jpeg_decoder.specs.ByRows.{rows_rest};
ghost use Rattle.jpeg_decoder.specs.DecodesRows.{DecodesRows};
ghost use Rattle.jpeg_decoder.specs.Rows.{GivesNext};
ghost use Rattle.jpeg_decoder.specs.declared.rows.Ahead.TheVariants.{Start};
ghost use Rattle.jpeg_meaning.specs.States.{Decoding};
ghost use Rattle.jpeg_meaning.specs.declared.progress.Progress.TheVariants.{HeaderRead};
ghost use Rattle.zaxbriar_pictures.specs.ByRows.{RefusesRows};
ghost use Rattle.zaxbriar_samples.specs.LineTakers.{CanBegin, HasTakenBytes, IsWithin};
ghost use Rattle.zaxbriar_samples.specs.LineTakers.{IsWrittenAs, planned, said_of};
ghost use Rattle.zaxbriar_pictures.specs.Reasons.{NamesOrOutside};

use jpeg_decoder::error::Result;
use jpeg_decoder::{Decoder, Rows};
use std::alloc::Global;
use std::io::{Read, Write};
use zaxbriar_samples::line_takers::{Plan, Taker};

/// Takes the lines that the last call of `read` has given, if it has, and reads and takes all that
/// are left.
fn take_rows<R: Read + Drop, W: Write>(
    alloc: Global,
    rows: &mut Rows<R>,
    mut is_more: bool,
    taker: &mut Taker,
    writer: &mut W,
) -> Result<()>
    ensures taken { (start : Decoding) (plan : Plan) (bytes : List ℕ) (before : Option (List ℕ))
        → GivesNext start bytes (Ok is_more) rows.old
        → HasTakenBytes plan bytes taker.old before (W.contents writer.old)
        → OnOk result ((all : List ℕ) × DecodesRows start (Ok tt) rows.new.decoder all
        × HasTakenBytes plan all taker.new before (W.contents writer.new)) }
    ensures refused { (start : Decoding) (bytes : List ℕ)
        → GivesNext start bytes (Ok is_more) rows.old → IfErr result (RefusesRows start) }
{
    while is_more {
        taker.take(alloc, rows.lines(), writer)?;
        is_more = rows.read()?;
    }
    Ok(())
}

/// Reads all lines, of which none were given yet, and writes what is planned of them.
fn write_lines<R: Read + Drop, W: Write>(
    alloc: Global,
    rows: &mut Rows<R>,
    plan: Plan,
    writer: &mut W,
) -> Result<()>
    requires start { rows.old.ahead ≡ Start }
    requires possible { CanBegin plan.form (said_of plan.stored plan.area) }
    requires within { IsWithin plan.area plan.stored }
    ensures written { OnOk result ((bytes : List ℕ)
        × DecodesRows rows.old.decoder (Ok tt) rows.new.decoder bytes
        × IsWrittenAs plan.form plan.stored.orientation (planned plan bytes)
        (W.contents writer.old) (W.contents writer.new)) }
    ensures refused { IfErr result (RefusesRows rows.old.decoder) }
{
    let is_more = rows.read()?;
    let mut taker = Taker::begin(alloc, plan, writer)?;
    take_rows(alloc, rows, is_more, &mut taker, writer)?;
    taker.end(alloc, writer)
}

/// Writes what is planned of the picture of a decoder, whose header was read, as its lines are read.
/// A stream that is refused before its first scan, or of which no picture can be made, is refused
/// before anything is written.
pub(crate) fn write_rows<R: Read + Drop, W: Write>(
    alloc: Global,
    decoder: Decoder<R>,
    plan: Plan,
    writer: &mut W,
) -> Result<()>
    requires header { decoder.stage ≡ HeaderRead }
    requires possible { CanBegin plan.form (said_of plan.stored plan.area) }
    requires within { IsWithin plan.area plan.stored }
    ensures written { OnOk result ((new : Decoding) × (bytes : List ℕ)
        × DecodesRows decoder (Ok tt) new bytes
        × IsWrittenAs plan.form plan.stored.orientation (planned plan bytes)
        (W.contents writer.old) (W.contents writer.new)) }
    ensures refused { decoder.source.known ≡ true → IfErr result (NamesOrOutside
        (rows_rest decoder.settings decoder.found decoder.source.bytes)) }
{
    let mut rows = Rows::new(decoder);
    write_lines(alloc, &mut rows, plan, writer)
}
