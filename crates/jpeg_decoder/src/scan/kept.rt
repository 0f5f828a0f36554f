//! Scans on the blocks that are kept of their components (T.81, A.2 and G.1).
//!
//! Where a component is alone and DC isn't coded, the blocks are read line by line, and as many as
//! stand between two restarts by one call.
ghost use Rattle.std.specs.Prelude.{◌≡◌, ◌≤◌, ◌<◌, ◌+◌, ◌-◌, ◌*◌, ◌∷◌, OnOk, length, option_map};
ghost use Rattle.std.specs.Prelude.{true};
ghost use Rattle.std.specs.List.{AllByRecursion};
ghost use Rattle.jpeg_bits.specs.Reading.{Answers};
ghost use Rattle.jpeg_bits.specs.Entropy.{Takes};
ghost use Rattle.jpeg_segments.specs.FrameView.{frame_in};
ghost use Rattle.jpeg_meaning.specs.InTurn.{blocks_from, scan_from, turns_from, Fits, AreArrays};
ghost use Rattle.jpeg_meaning.specs.Order.{spots_of, mcu_size};
ghost use Rattle.jpeg_bits.specs.declared.beyond.Beyond.TheVariants.{Nothing, Zeros};
ghost use Rattle.jpeg_meaning.specs.Scans.{Arrays, arrays_at};
ghost use Rattle.jpeg_meaning.specs.States.{OnTold};
ghost use Rattle.jpeg_decoder.specs.Scanning.{IsSpotOf, scan_vias, scan_components};
ghost use Rattle.jpeg_decoder.specs.Scanning.{arrays_in, blocks_in, sizes_of, counted, reached};
ghost use Rattle.jpeg_decoder.specs.Through.{blocks_reached};
ghost use Rattle.jpeg_decoder.specs.Walk.{line_spots, rows_spots, spot_of};

use crate::scan::block_array::BlockArray;
use crate::scan::blocks::{Interval, begin, first_interval, read_spots};
use crate::scan::coded::Scan;
use crate::scan::order::ScanOrder;
use crate::scan::spots::Spot;
use jpeg_bits::beyond::Beyond;
use jpeg_bits::blocks::bands::take_bands;
use jpeg_bits::error::{Error, Result, take_refusal};
use jpeg_bits::marker::Marker;
use jpeg_bits::source::Source;
use jpeg_meaning::grids::{Grid, grid_of};
use jpeg_segments::parser::FrameInfo;
use std::alloc::Global;
use std::io::Read;

/// Reads the bands of blocks of a component that is alone in its scan, from an index to before
/// another, with no restart between them.
fn read_part<R: Read + Drop>(
    interval: &mut Interval,
    source: &mut Source<R>,
    scan: &Scan<'_>,
    array: &mut BlockArray,
    first: usize,
    end: usize,
) -> Result<()>
    requires alone { length scan.now.codings ≡ 1 }
    requires four { length interval.old.carried.predictors ≡ 4 }
    requires bands { 0 < scan.now.pass.ss }
    requires some { first < end }
    requires within { end ≤ length (blocks_in array.old) }
    ensures size { length (blocks_in array.new) ≡ length (blocks_in array.old) }
    ensures predictors { interval.new.carried.predictors ≡ interval.old.carried.predictors }
    ensures left { interval.new.left ≡ interval.old.left }
    ensures number { interval.new.number ≡ interval.old.number }
    ensures beyond { interval.new.beyond ≡ interval.old.beyond }
    ensures blocks { (others : Arrays) →
        Takes (λ _. reached interval.new (blocks_in array.new ∷ others))
        (turns_from scan.now.pass (scan_vias scan.now) (line_spots first (end - first))
        (reached interval.old (blocks_in array.old ∷ others)))
        interval.old.decoder source.old result interval.new.decoder source.new }
{
    let coding = scan.coding(0);
    array.reach(end - 1)?;
    if !take_bands(
        &mut interval.decoder,
        source,
        &coding,
        &mut interval.carried.run,
        &mut array.blocks[first..end],
        &mut interval.refusal,
    ) {
        return Err(take_refusal(&mut interval.refusal));
    }
    Ok(())
}

/// Returns how many of the blocks that are left of a line come before the next restart.
fn part_size(left: u64, n: u64, room: usize) -> usize
    requires room { 0 < room }
    requires left { 0 < n → 0 < left }
    ensures some { 0 < result }
    ensures within { result ≤ room }
    ensures left { 0 < n → result ≤ left }
{
    if n > 0 && left < room as u64 {
        left as usize
    } else {
        room
    }
}

/// Reads the bands of a line of blocks of a component that is alone in its scan, from an index on.
fn read_line<R: Read + Drop>(
    interval: &mut Interval,
    source: &mut Source<R>,
    scan: &Scan<'_>,
    array: &mut BlockArray,
    first: u32,
    wide: u16,
) -> Result<()>
    requires alone { length scan.now.codings ≡ 1 }
    requires four { length interval.old.carried.predictors ≡ 4 }
    requires bands { 0 < scan.now.pass.ss }
    requires within { first + wide ≤ length (blocks_in array.old) }
    ensures size { length (blocks_in array.new) ≡ length (blocks_in array.old) }
    ensures four { OnOk result (length interval.new.carried.predictors ≡ 4) }
    ensures blocks { (others : Arrays) →
        Takes (λ _. counted interval.new (blocks_in array.new ∷ others))
        (blocks_from scan.now.pass (scan_vias scan.now) scan.now.restart_interval
        (line_spots first wide) (counted interval.old (blocks_in array.old ∷ others)))
        interval.old.decoder source.old result interval.new.decoder source.new }
{
    let n = u64::from(scan.restart_interval());
    let end = first as usize + usize::from(wide);
    let mut at = first as usize;
    while at < end {
        if !begin(interval, source, n) {
            return Err(take_refusal(&mut interval.refusal));
        }
        let next = at + part_size(interval.left, n, end - at);
        read_part(interval, source, scan, array, at, next)?;
        interval.left = interval.left.saturating_sub((next - at) as u64);
        at = next;
    }
    Ok(())
}

/// Reads the bands of the blocks of a component that is alone in its scan, line by line.
fn read_lines<R: Read + Drop>(
    interval: &mut Interval,
    source: &mut Source<R>,
    scan: &Scan<'_>,
    array: &mut BlockArray,
    grid: Grid,
) -> Result<()>
    requires alone { length scan.now.codings ≡ 1 }
    requires four { length interval.old.carried.predictors ≡ 4 }
    requires bands { 0 < scan.now.pass.ss }
    requires wide { grid.own_wide ≤ grid.wide }
    requires high { grid.own_high ≤ grid.high }
    requires within { grid.high * grid.wide ≤ length (blocks_in array.old) }
    ensures size { length (blocks_in array.new) ≡ length (blocks_in array.old) }
    ensures four { OnOk result (length interval.new.carried.predictors ≡ 4) }
    ensures blocks { (others : Arrays) →
        Takes (λ _. counted interval.new (blocks_in array.new ∷ others))
        (blocks_from scan.now.pass (scan_vias scan.now) scan.now.restart_interval
        (rows_spots grid 0 grid.own_high) (counted interval.old (blocks_in array.old ∷ others)))
        interval.old.decoder source.old result interval.new.decoder source.new }
{
    let mut row = 0;
    while row < grid.own_high {
        let first = u32::from(row) * u32::from(grid.wide);
        read_line(interval, source, scan, array, first, grid.own_wide)?;
        row += 1;
    }
    Ok(())
}

/// Reads a scan without DC of one component, and returns the marker after it, if it was reached.
#[inline(never)]
#[tactic(auto, unfolding(jpeg_meaning::specs::InTurn::scan_from))]
fn read_bands<R: Read + Drop>(
    alloc: Global,
    source: &mut Source<R>,
    scan: &Scan<'_>,
    array: &mut BlockArray,
    grid: Grid,
) -> Result<Option<Marker>>
    requires alone { length scan.now.codings ≡ 1 }
    requires bands { 0 < scan.now.pass.ss }
    requires wide { grid.own_wide ≤ grid.wide }
    requires high { grid.own_high ≤ grid.high }
    requires within { grid.high * grid.wide ≤ length (blocks_in array.old) }
    ensures size { length (blocks_in array.new) ≡ length (blocks_in array.old) }
    ensures scan { (others : Arrays) → Answers (λ m. (blocks_in array.new ∷ others, m))
        (scan_from scan.now.pass (scan_vias scan.now) scan.now.restart_interval
        (rows_spots grid 0 grid.own_high) (blocks_in array.old ∷ others))
        source.old result source.new }
{
    let n = u64::from(scan.restart_interval());
    let mut interval = first_interval(alloc, n, Beyond::Zeros);
    read_lines(&mut interval, source, scan, array, grid)?;
    interval.decoder.take_marker(source)
}

/// Reads a scan of a frame on the blocks that are kept of its components, and returns the marker
/// after its data, if it was reached.
///
/// Where nothing follows the markers that end its data, the blocks before the first that can't be
/// read are there after an error other than out of memory, and `unread` is the spot of that one.
///
/// The errors are those of the source, a refused code or category (T.81, F.2.2), a restart marker
/// that is missing or out of turn, and out of memory.
#[tactic(auto, unfolding(jpeg_meaning::specs::InTurn::scan_from))]
pub fn read_blocks<R: Read + Drop>(
    alloc: Global,
    source: &mut Source<R>,
    scan: &Scan<'_>,
    arrays: &mut Vec<BlockArray>,
    frame: &FrameInfo,
    unread: &mut Option<Spot>,
) -> Result<Option<Marker>>
    requires keeps { scan.now.keeps_ac ≡ true }
    requires some { 1 ≤ length scan.now.codings }
    requires fits { AllByRecursion (Fits (frame_in frame.now)) (scan_components scan.now) }
    requires arrays { AreArrays (scan_components scan.now) (arrays_in arrays.now.items) }
    ensures sizes { sizes_of arrays.new.items ≡ sizes_of arrays.old.items }
    ensures scan { scan.now.beyond ≡ Zeros → Answers (λ m. (arrays_in arrays.new.items, m))
        (arrays_at scan.now.pass
        (scan.now.restart_interval * mcu_size (scan_components scan.now))
        (scan_vias scan.now) (spots_of (frame_in frame.now) (scan_components scan.now))
        (arrays_in arrays.old.items))
        source.old result source.new }
    ensures arrays { scan.now.beyond ≡ Nothing → OnTold source.old source.new result
        (arrays_in arrays.new.items ≡ (blocks_reached scan.now.pass (scan_vias scan.now)
        (scan.now.restart_interval * mcu_size (scan_components scan.now))
        (spots_of (frame_in frame.now) (scan_components scan.now)) (arrays_in arrays.old.items)
        source.old.bytes).reached) }
    ensures unread { scan.now.beyond ≡ Nothing → OnTold source.old source.new result
        (option_map spot_of unread.new ≡ (blocks_reached scan.now.pass (scan_vias scan.now)
        (scan.now.restart_interval * mcu_size (scan_components scan.now))
        (spots_of (frame_in frame.now) (scan_components scan.now)) (arrays_in arrays.old.items)
        source.old.bytes).unread) }
    ensures answers { scan.now.beyond ≡ Nothing → Answers (λ m. m)
        (λ bytes. (blocks_reached scan.now.pass (scan_vias scan.now)
        (scan.now.restart_interval * mcu_size (scan_components scan.now))
        (spots_of (frame_in frame.now) (scan_components scan.now)) (arrays_in arrays.old.items)
        bytes).rest) source.old result source.new }
{
    let codings = scan.components();
    if scan.beyond() == Beyond::Zeros && scan.pass().ss > 0 && codings.len() == 1 {
        let grid = grid_of(scan.component(0));
        return read_bands(alloc, source, scan, &mut arrays[0], grid);
    }
    let order = ScanOrder::new(alloc, scan, frame)?;
    let mut spots = order.spots();
    let mut interval = first_interval(alloc, order.interval, scan.beyond());
    let read = read_spots(
        &mut interval,
        source,
        scan,
        arrays,
        order.interval,
        &mut spots,
    );
    *unread = interval.unread;
    read?;
    interval.decoder.take_marker(source)
}
