//! Sequential scans, whose planes are made row by row of MCUs (T.81, A.2 and F.2).
ghost use Rattle.std.specs.Prelude.{[], map, option_map, All, IfSome, None, OnOk, length, take};
ghost use Rattle.std.specs.Prelude.{◌≡◌, ◌≤◌, ◌<◌, ◌+◌, ◌*◌, ℕ};
ghost use Rattle.std.specs.List.{AllByRecursion};
ghost use Rattle.jpeg_bits.specs.Reading.{Answers};
ghost use Rattle.jpeg_segments.specs.FrameView.{frame_in};
ghost use Rattle.jpeg_meaning.specs.InTurn.{AreApart, Fits};
ghost use Rattle.jpeg_meaning.specs.States.{OnTold, OnToldRefusal};
ghost use Rattle.jpeg_bits.specs.Entropy.{Takes, upcoming};
ghost use Rattle.jpeg_bits.specs.declared.beyond.Beyond.TheVariants.{Nothing, Zeros};
ghost use Rattle.jpeg_meaning.specs.InTurn.{blocks_from};
ghost use Rattle.jpeg_decoder.specs.Scanning.{IsFull, IsSpotOf, arrays_in, counted, down_in};
ghost use Rattle.jpeg_decoder.specs.Scanning.{kept_blocks, kept_counted, sizes_of};
ghost use Rattle.jpeg_decoder.specs.Scanning.{scan_vias, scan_components};
ghost use Rattle.jpeg_decoder.specs.Reaching.{UnlessRefused};
ghost use Rattle.jpeg_decoder.specs.Steps.{coding_in};
ghost use Rattle.jpeg_decoder.specs.Strips.{no_samples, planes_by_rows, row_sizes};
ghost use Rattle.jpeg_decoder.specs.Strips.{strip_samples, strips_from, tables_of, with_strips};
ghost use Rattle.jpeg_decoder.specs.Strips.{zeros_of};
ghost use Rattle.jpeg_decoder.specs.Through.{IsReached, cleared, counted_reached, in_frame};
ghost use Rattle.jpeg_decoder.specs.Through.{planes_through, strips_reached, zero_strips};
ghost use Rattle.jpeg_decoder.specs.Walk.{spot_of, walk_of_row, walks_of_rows};
ghost use Rattle.jpeg_decoder.specs.Walks.{AfterWalk, OfWalk};
ghost use Rattle.jpeg_decoder.specs.GrowingView.{GrowsFor, growing_in, is_joint};

use crate::scan::block_array::{BlockArray, fill_all};
use crate::scan::blocks::{Interval, first_interval};
use crate::scan::coded::{Coded, Scan};
use crate::scan::mcus::read_mcus;
use crate::scan::order::ScanOrder;
use crate::scan::spots::Spot;
use crate::scan::strips::{GrowingPlanes, append_strips, clear_rows, row_buffers, tables_for};
use jpeg_bits::beyond::Beyond;
use jpeg_bits::error::Result;
use jpeg_bits::marker::Marker;
use jpeg_bits::source::Source;
use jpeg_pixels::plane::SampleTable;
use jpeg_segments::parser::FrameInfo;
use std::alloc::{AllocError, Global};
use std::io::Read;

/// Clears the block at a spot, if there is one.
fn clear_block(rows: &mut Vec<BlockArray>, unread: Option<Spot>)
    ensures sizes { sizes_of rows.new.items ≡ sizes_of rows.old.items }
    ensures arrays { arrays_in rows.new.items
        ≡ cleared (option_map spot_of unread) (arrays_in rows.old.items) }
{
    let Some(spot) = unread else {
        return;
    };
    if spot.slot < rows.len() && spot.index < rows[spot.slot].blocks.len() {
        rows[spot.slot].blocks[spot.index] = [0; 64];
    }
}

/// Reads the blocks of a row of MCUs, where the rows before it were read. After a refusal the
/// blocks before the one that it is about are there, the others are zeros, and the spot of that one
/// is the interval's `unread`.
pub fn read_row<R: Read + Drop>(
    interval: &mut Interval,
    source: &mut Source<R>,
    scan: &Scan<'_>,
    rows: &mut Vec<BlockArray>,
    order: &ScanOrder,
    row: u16,
) -> Result<()>
    requires members { 0 < length order.now.members.items }
    requires spots { AllByRecursion (IsSpotOf (length scan.now.codings)
        (sizes_of rows.old.items)) (walk_of_row order.now row) }
    requires apart { AreApart (walk_of_row order.now row) }
    ensures sizes { sizes_of rows.new.items ≡ sizes_of rows.old.items }
    ensures full { OnOk result (All IsFull rows.new.items) }
    ensures blocks { Takes (λ _. kept_counted scan.now.keeps_ac
        (counted interval.new (arrays_in rows.new.items)))
        (kept_blocks scan.now.keeps_ac (blocks_from scan.now.pass (scan_vias scan.now)
        order.now.interval (walk_of_row order.now row)
        (counted interval.old (zeros_of (sizes_of rows.old.items)))))
        interval.old.decoder source.old result interval.new.decoder source.new }
    ensures beyond { interval.new.beyond ≡ interval.old.beyond }
    ensures unread { OnOk result (interval.new.unread ≡ interval.old.unread) }
    ensures reached { scan.now.beyond ≡ Nothing → interval.old.beyond ≡ Nothing
        → OnToldRefusal source.old source.new result (IsReached
        (counted_reached scan.now.pass (scan_vias scan.now) order.now.interval
        (walk_of_row order.now row) (counted interval.old (zeros_of (sizes_of rows.old.items)))
        (upcoming interval.old.decoder source.old.bytes))
        (arrays_in rows.new.items) interval.new.unread) }
{
    clear_rows(rows);
    let mut spots = order.row(row);
    if let Err(e) = read_mcus(interval, source, scan, rows, order.interval, &mut spots) {
        clear_block(rows, interval.unread);
        return Err(e);
    }
    fill_all(rows)?;
    Ok(())
}

/// Appends the samples of a row of MCUs in which a block was refused, and those of `left` rows of
/// zeros below it.
fn append_rest(
    planes: &mut GrowingPlanes,
    codings: &[Coded<'_>],
    tables: &[SampleTable],
    rows: &mut Vec<BlockArray>,
    left: u16,
) -> std::result::Result<(), AllocError>
    requires planes { GrowsFor (map coding_in codings.now) planes.old }
    requires tables { 0 < length (growing_in planes.old)
        → tables.now ≡ tables_of (map coding_in codings.now) }
    requires sizes { sizes_of rows.old.items ≡ row_sizes (map coding_in codings.now) }
    ensures strips { OnOk result (growing_in planes.new
        ≡ zero_strips left (map coding_in codings.now) (with_strips (map coding_in codings.now)
        (arrays_in rows.old.items) (growing_in planes.old))) }
    ensures growing { OnOk result (GrowsFor (map coding_in codings.now) planes.new) }
    ensures kind { is_joint planes.new ≡ is_joint planes.old }
{
    fill_all(rows)?;
    append_strips(planes, codings, tables, rows)?;
    clear_rows(rows);
    fill_all(rows)?;
    for _ in 0..left {
        append_strips(planes, codings, tables, rows)?;
    }
    Ok(())
}

/// Returns the index of a block in a row of MCUs among all blocks of its component, which has
/// `high` lines of `wide` blocks in each.
fn index_in_frame(row: u16, high: u8, wide: u16, index: usize) -> usize
    ensures { index < high * wide → result ≡ row * (high * wide) + index }
{
    let above = usize::from(row) * (usize::from(high) * usize::from(wide));
    above.saturating_add(index)
}

/// Returns the spot of a block in a row of MCUs by its index among all blocks of its component.
fn in_frame(codings: &[Coded<'_>], row: u16, spot: Option<Spot>) -> Option<Spot>
    ensures { IfSome spot (λ s. IsSpotOf (length codings.now)
        (row_sizes (map coding_in codings.now)) (spot_of s)) → option_map
        spot_of result ≡ option_map (in_frame (map coding_in codings.now) row)
        (option_map spot_of spot) }
{
    let spot = spot?;
    let index = match codings.get(spot.slot) {
        Some(coded) => {
            let component = coded.component;
            let high = component.vertical_sampling_factor;
            index_in_frame(row, high, component.block_size.width, spot.index)
        }
        None => spot.index,
    };
    Some(Spot {
        slot: spot.slot,
        index,
    })
}

/// Reads the rows of MCUs of a scan in its order, each into `rows`, and appends their samples, as
/// `read_planes` does.
fn read_rows<R: Read + Drop>(
    interval: &mut Interval,
    source: &mut Source<R>,
    scan: &Scan<'_>,
    order: &ScanOrder,
    rows: &mut Vec<BlockArray>,
    planes: &mut GrowingPlanes,
) -> Result<()>
    requires planes { GrowsFor scan.now.codings planes.old }
    requires members { 0 < length order.now.members.items }
    requires sizes { sizes_of rows.old.items ≡ row_sizes scan.now.codings }
    requires spots { AllByRecursion (AllByRecursion (IsSpotOf (length scan.now.codings)
        (row_sizes scan.now.codings))) (walks_of_rows order.now) }
    requires apart { AllByRecursion AreApart (walks_of_rows order.now) }
    requires beyond { interval.old.beyond ≡ scan.now.beyond }
    requires unread { interval.old.unread ≡ None }
    ensures growing { AfterWalk scan.now.beyond result (GrowsFor scan.now.codings planes.new) }
    ensures kind { AfterWalk scan.now.beyond result (is_joint planes.new ≡ is_joint planes.old) }
    ensures sizes { (k : ℕ) → growing_in planes.old ≡ take k (no_samples scan.now.codings)
        → AfterWalk scan.now.beyond result (map length (growing_in planes.new)
        ≡ take k (map (λ c. strip_samples (order.now.rows * down_in c) c) scan.now.codings)) }
    ensures planes { OfWalk scan.now.beyond result (Takes (λ _. growing_in planes.new)
        (strips_from scan.now.pass (scan_vias scan.now) order.now.interval scan.now.codings
        (walks_of_rows order.now) (growing_in planes.old) (counted interval.old []))
        interval.old.decoder source.old result interval.new.decoder source.new) }
    ensures unread { OnOk result (interval.new.unread ≡ None) }
    ensures reached { scan.now.beyond ≡ Nothing → OnToldRefusal source.old source.new result
        (let r = strips_reached scan.now.pass (scan_vias scan.now) order.now.interval
        scan.now.codings 0 (walks_of_rows order.now) (growing_in planes.old)
        (counted interval.old []) (upcoming interval.old.decoder source.old.bytes) in
        (growing_in planes.new ≡ r.reached) × (option_map spot_of interval.new.unread ≡ r.unread)) }
{
    let codings = scan.components();
    let tables = tables_for(interval.alloc, codings, planes)?;
    for row in 0..order.rows {
        if let Err(e) = read_row(interval, source, scan, rows, order, row) {
            if scan.beyond() == Beyond::Nothing {
                interval.unread = in_frame(codings, row, interval.unread);
                append_rest(planes, codings, &tables, rows, order.rows - 1 - row)?;
            }
            return Err(e);
        }
        append_strips(planes, codings, &tables, rows)?;
    }
    Ok(())
}

/// Reads a scan of a sequential frame, appends the samples of its blocks to the planes of its
/// first components, and returns the marker after its data, if one was reached.
///
/// The blocks are read from zeros, row by row of MCUs, and those of one row are kept at a time. A
/// plane has the samples of all blocks of its component, including those that only fill its last
/// MCUs. The blocks of components without a plane are read, and nothing is made of them: their
/// planes are decided.
///
/// Where nothing follows the markers that end its data, what lacks after an error other than out of
/// memory is blocks of zeros, and `unread` is the spot of the first block that wasn't read.
///
/// The errors are those of the source, a refused code or category (T.81, F.2.2), a restart marker
/// that is missing or out of turn, and `OutOfMemory`.
pub fn read_planes<R: Read + Drop>(
    alloc: Global,
    source: &mut Source<R>,
    scan: &Scan<'_>,
    frame: &FrameInfo,
    planes: &mut GrowingPlanes,
    unread: &mut Option<Spot>,
) -> Result<Option<Marker>>
    requires some { 1 ≤ length scan.now.codings }
    requires fits { AllByRecursion (Fits (frame_in frame.now)) (scan_components scan.now) }
    requires planes { GrowsFor scan.now.codings planes.old }
    ensures growing { AfterWalk scan.now.beyond result (GrowsFor scan.now.codings planes.new) }
    ensures kind { AfterWalk scan.now.beyond result (is_joint planes.new ≡ is_joint planes.old) }
    ensures sizes { (k : ℕ) → growing_in planes.old ≡ take k (no_samples scan.now.codings)
        → AfterWalk scan.now.beyond result (map length (growing_in planes.new)
        ≡ take k (map (λ c. c.blocks_high * c.scale * (c.blocks_wide * c.scale))
        (scan_components scan.now))) }
    ensures planes { scan.now.beyond ≡ Zeros → Answers (λ m. (growing_in planes.new, m))
        (planes_by_rows scan.now.pass (scan_vias scan.now) scan.now.restart_interval
        (frame_in frame.now) scan.now.codings
        (growing_in planes.old))
        source.old result source.new }
    ensures reached { scan.now.beyond ≡ Nothing → OnTold source.old source.new result
        (growing_in planes.new ≡ (planes_through scan.now.pass (scan_vias scan.now)
        scan.now.restart_interval (frame_in frame.now) scan.now.codings (growing_in planes.old)
        source.old.bytes).reached) }
    ensures unread { scan.now.beyond ≡ Nothing → OnTold source.old source.new result
        (option_map spot_of unread.new ≡ (planes_through scan.now.pass (scan_vias scan.now)
        scan.now.restart_interval (frame_in frame.now) scan.now.codings (growing_in planes.old)
        source.old.bytes).unread) }
    ensures answers { scan.now.beyond ≡ Nothing → UnlessRefused result (Answers (λ m. m)
        (λ bytes. (planes_through scan.now.pass (scan_vias scan.now) scan.now.restart_interval
        (frame_in frame.now) scan.now.codings (growing_in planes.old) bytes).rest)
        source.old result source.new) }
{
    let order = ScanOrder::new(alloc, scan, frame)?;
    let mut rows = row_buffers(alloc, scan.components())?;
    let mut interval = first_interval(alloc, order.interval, scan.beyond());
    let read = read_rows(&mut interval, source, scan, &order, &mut rows, planes);
    *unread = interval.unread;
    read?;
    interval.decoder.take_marker(source)
}
