//! Rows of MCUs of a first scan that are read while its bytes arrive: of some of them, if they are
//! read so whatever bytes follow.
ghost use Rattle.std.specs.Prelude.{◌≡◌, ◌<◌, ◌≤◌, All, IfErr, IfOk, IfSome, None, Ok, OnOk, false};
ghost use Rattle.std.specs.Prelude.{length, true};
ghost use Rattle.std.specs.List.{AllByRecursion};
ghost use Rattle.jpeg_bits.specs.Entropy.{Takes};
ghost use Rattle.jpeg_bits.specs.GoesOn.{IsOpen};
ghost use Rattle.jpeg_bits.specs.declared.beyond.Beyond.TheVariants.{Zeros};
ghost use Rattle.jpeg_bits.specs.declared.error.Error.TheVariants.{OutOfMemory};
ghost use Rattle.jpeg_meaning.specs.InTurn.{AreApart, blocks_from};
ghost use Rattle.jpeg_decoder.specs.FedRows.{IsSettled, TakesNone, TakesRow, in_memory};
ghost use Rattle.jpeg_decoder.specs.RowScans.{IsInScan, rows_left};
ghost use Rattle.jpeg_decoder.specs.Scanning.{IsFull, IsSpotOf, arrays_in, counted, kept_blocks};
ghost use Rattle.jpeg_decoder.specs.Scanning.{kept_counted, scan_vias, sizes_of};
ghost use Rattle.jpeg_decoder.specs.Strips.{zeros_of};
ghost use Rattle.jpeg_decoder.specs.Walk.{walk_of_row};

use crate::by_rows::first_scan::RowScan;
use crate::fed::sources::READ_AHEAD;
use crate::scan::block_array::BlockArray;
use crate::scan::blocks::Interval;
use crate::scan::coded::Scan;
use crate::scan::codings::block_scan_of;
use crate::scan::order::ScanOrder;
use crate::scan::rows::read_row;
use crate::stream::state::State;
use jpeg_bits::beyond::Beyond;
use jpeg_bits::error::{Error, Result};
use jpeg_bits::huffman::HuffmanDecoder;
use jpeg_bits::source::Source;
use std::alloc::Global;
use std::io::Read;

/// Returns a source of bytes in memory, which are read ahead. The only error is `OutOfMemory`.
pub fn memory_source(alloc: Global, bytes: &[u8]) -> Result<Source<&[u8]>>
    ensures ok { IfOk result (λ s. s ≡ in_memory bytes.now) }
    ensures err { IfErr result (λ e. e ≡ OutOfMemory) }
{
    let capacity = bytes.len().min(READ_AHEAD);
    let mut source = Source::new(bytes);
    source.read_ahead(alloc, capacity)?;
    Ok(source)
}

/// Returns the bytes that a source of this many bytes in memory has left. The only error is
/// `OutOfMemory`. No read of such a source fails, and none gives back more than it had: where one has
/// all the same, it counts as a lack of memory.
pub fn bytes_left(alloc: Global, source: &Source<&[u8]>, most: usize) -> Result<Vec<u8>>
    ensures bytes { IfOk result (λ v. source.now.known ≡ true → v.items ≡ source.now.bytes) }
    ensures failed { OnOk result (source.now.failed ≡ false) }
    ensures most { IfOk result (λ v. length v.items ≤ most) }
    ensures err { IfErr result (λ e. e ≡ OutOfMemory) }
{
    let (ahead, reader) = source.rest();
    let mut left = Vec::new(alloc);
    left.extend_from_slice(ahead)?;
    left.extend_from_slice(*reader)?;
    if source.has_failed() || left.len() > most {
        return Err(Error::OutOfMemory);
    }
    Ok(left)
}

/// Returns whether more than 56 bits of data stand in the bytes of a source, or a marker ends them,
/// or was met by a decoder before it. The source means nothing after it.
#[tactic(auto, unfolding(jpeg_bits::specs::Entropy::upcoming))]
fn is_settled<R: Read + Drop>(decoder: &HuffmanDecoder, source: &mut Source<R>) -> bool
    ensures { result ≡ true → source.old.known ≡ true
        → IsSettled decoder.now.met source.old.bytes }
{
    let mut ahead = decoder.copied();
    ahead.reset();
    ahead.take_marker(source).is_ok()
}

/// Returns the bytes that are left after a row of MCUs whose blocks were read, if these are read so
/// whatever bytes follow. The only error is `OutOfMemory`.
fn settled_left(
    alloc: Global,
    decoder: &HuffmanDecoder,
    source: &mut Source<&[u8]>,
    most: usize,
) -> Result<Option<Vec<u8>>>
    ensures left { source.old.known ≡ true → IfOk result (λ o. IfSome o (λ v.
        (v.items ≡ source.old.bytes) × IsSettled decoder.now.met source.old.bytes)) }
    ensures open { IfOk result (λ o. IfSome o (λ _. IsOpen decoder.now.met)) }
    ensures err { IfErr result (λ e. e ≡ OutOfMemory) }
{
    if !decoder.is_open() {
        return Ok(None);
    }
    let left = bytes_left(alloc, source, most)?;
    if is_settled(decoder, source) {
        return Ok(Some(left));
    }
    Ok(None)
}

/// Reads the blocks of a row of MCUs, as `read_row` does. Returns whether they were read. The only
/// error is `OutOfMemory`.
fn has_read_row(
    interval: &mut Interval,
    source: &mut Source<&[u8]>,
    scan: &Scan<'_>,
    rows: &mut Vec<BlockArray>,
    order: &ScanOrder,
    row: u16,
) -> Result<bool>
    requires members { 0 < length order.now.members.items }
    requires spots { AllByRecursion (IsSpotOf (length scan.now.codings)
        (sizes_of rows.old.items)) (walk_of_row order.now row) }
    requires apart { AreApart (walk_of_row order.now row) }
    ensures sizes { sizes_of rows.new.items ≡ sizes_of rows.old.items }
    ensures full { result ≡ Ok true → All IsFull rows.new.items }
    ensures beyond { interval.new.beyond ≡ interval.old.beyond }
    ensures blocks { result ≡ Ok true → Takes (λ (u : Unit {0}).
        kept_counted scan.now.keeps_ac (counted interval.new (arrays_in rows.new.items)))
        (kept_blocks scan.now.keeps_ac (blocks_from scan.now.pass (scan_vias scan.now)
        order.now.interval (walk_of_row order.now row)
        (counted interval.old (zeros_of (sizes_of rows.old.items)))))
        interval.old.decoder source.old (Ok tt) interval.new.decoder source.new }
    ensures err { IfErr result (λ e. e ≡ OutOfMemory) }
{
    match read_row(interval, source, scan, rows, order, row) {
        Ok(()) => Ok(true),
        Err(Error::OutOfMemory) => Err(Error::OutOfMemory),
        Err(_) => Ok(false),
    }
}

/// Reads the next row of MCUs of a scan whose bytes begin with these and may go on, and makes the
/// lines that it decides, as `read_lines` does, if its blocks are the same whatever bytes follow.
/// Returns the bytes that are left after it. Or else, as where the bytes end in the row, returns
/// none, and nothing that counts has changed. The only error is `OutOfMemory`.
pub fn try_lines(
    alloc: Global,
    bytes: &[u8],
    state: &State,
    rows: &mut RowScan,
) -> Result<Option<Vec<u8>>>
    requires scan { IsInScan state.now rows.old (in_memory bytes.now) }
    requires more { IfSome state.now.said.frame (λ f. rows.old.giver.rows < f.mcus_high) }
    ensures goes { IfOk result (λ o. IfSome o (λ left.
        TakesRow state.now rows.old rows.new bytes.now left.items)) }
    ensures none { IfOk result (λ o. o ≡ None → TakesNone state.now rows.old rows.new) }
    ensures fewer { IfOk result (λ o. IfSome o (λ _. rows_left rows.new < rows_left rows.old)) }
    ensures stays { IfOk result (λ o. o ≡ None → rows_left rows.new ≡ rows_left rows.old) }
    ensures err { IfErr result (λ e. e ≡ OutOfMemory) }
{
    if !rows.interval.decoder.is_open() {
        return Ok(None);
    }
    let said = &state.said;
    let Some(frame) = &said.frame else {
        unreachable!()
    };
    let scan = block_scan_of(alloc, said, &rows.spare, frame, &rows.header, Beyond::Zeros)?;
    let mut source = memory_source(alloc, bytes)?;
    let before = rows.interval.copied();
    let row = rows.giver.rows;
    let blocks = &mut rows.giver.blocks;
    if !has_read_row(
        &mut rows.interval,
        &mut source,
        &scan,
        blocks,
        &rows.order,
        row,
    )? {
        rows.interval = before;
        return Ok(None);
    }
    let decoder = &rows.interval.decoder;
    let Some(left) = settled_left(alloc, decoder, &mut source, bytes.len())? else {
        rows.interval = before;
        return Ok(None);
    };
    rows.giver.take_row(alloc, frame, scan.components())?;
    Ok(Some(left))
}
