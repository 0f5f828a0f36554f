//! The components of a scan, and the tables that they are coded by (T.81, B.2.3).
ghost use Rattle.std.specs.Prelude.{◌≡◌, ◌<◌, ◌≤◌, ◌==◌, [], IfOk, IfErr, true, length, nat_lt};
ghost use Rattle.std.specs.List.{AllByRecursion};
ghost use Rattle.std.specs.Option.{option_copied};
ghost use Rattle.jpeg_bits.specs.BlockView.{pass_in};
ghost use Rattle.jpeg_bits.specs.declared.error.Error.TheVariants.{OutOfMemory};
ghost use Rattle.jpeg_bits.specs.declared.huffman.codes.HuffmanTableClass.TheVariants.{DC, AC};
ghost use Rattle.jpeg_segments.specs.FrameView.{frame_in};
ghost use Rattle.jpeg_segments.specs.ScanHeader.{IsScanOf};
ghost use Rattle.jpeg_meaning.specs.Scans.{no_table};
ghost use Rattle.jpeg_decoder.specs.Steps.{Returns, IsSpareOf, coding_in};
ghost use Rattle.jpeg_decoder.specs.Steps.{coding_in_slot, default_dc, default_ac, in_force};
ghost use Rattle.jpeg_decoder.specs.Steps.{HasScale, table_if};
ghost use Rattle.jpeg_meaning.specs.ScanSegments.{codings_of, is_progressive, pass_of};
ghost use Rattle.jpeg_meaning.specs.Sound.{IsDecodedFrame};
ghost use Rattle.jpeg_bits.specs.Reading.{Names};
ghost use Rattle.jpeg_decoder.specs.Steps.{IsDct, IsRefusal, IsScanBy};

use crate::scan::coded::{Coded, Codings, Scan, is_progressive, wants_ac};
use crate::stream::state::{Said, State};
use crate::stream::tables::{Missing, needed, table_at};
use jpeg_bits::beyond::Beyond;
use jpeg_bits::blocks::Pass;
use jpeg_bits::error::Result;
use jpeg_bits::huffman::codes::HuffmanTableClass;
use jpeg_bits::huffman::{HuffmanTable, fill_default_mjpeg_tables};
use jpeg_segments::parser::{CodingProcess, FrameInfo, ScanHeader};
use std::alloc::{AllocError, Global};

/// The tables that stand in if a scan names a destination that is unset: the default ones of MJPEG
/// frames by their destinations, and one without codes of each class, where the scan needs none.
#[derive(Drop)]
pub struct Spare {
    dc: Vec<Option<HuffmanTable>>,
    ac: Vec<Option<HuffmanTable>>,
    no_dc: HuffmanTable,
    no_ac: HuffmanTable,
}

/// Returns what a scan codes.
#[tactic(auto, unfolding(jpeg_meaning::specs::ScanSegments::pass_of))]
pub fn pass_of(header: &ScanHeader) -> Pass
    requires { 1 ≤ header.now.after }
    ensures { pass_in result ≡ pass_of header.now }
{
    Pass {
        is_first: header.high == 0,
        ss: header.first,
        se: header.after - 1,
        al: header.low,
    }
}

/// The number of pixels of a sequential frame from which it pays to fill the look-up tables of AC
/// values: they have 2,048 entries, and a small picture has fewer tokens.
const WIDE_PIXELS: u32 = 1 << 12;

/// The same for a progressive frame, whose scans read few tokens with each table.
const WIDE_PROGRESSIVE_PIXELS: u32 = 1 << 14;

/// The same for the look-up tables of the differences of a lossless frame: they have 4,096 entries.
const DIFFERENCE_PIXELS: u32 = 1 << 14;

/// Returns whether a frame has enough pixels for the look-up tables of AC values, or of
/// differences, to pay.
fn is_large(frame: &FrameInfo) -> bool {
    let least = if is_progressive(frame.coding_process) {
        WIDE_PROGRESSIVE_PIXELS
    } else if frame.coding_process == CodingProcess::Lossless {
        DIFFERENCE_PIXELS
    } else {
        WIDE_PIXELS
    };
    pixels_of(frame) >= least
}

/// The number of pixels of a sequential frame from which it pays to look up two AC values at once,
/// or to pass over several: these tables have 2,048 and 4,096 entries besides.
const LARGE_PIXELS: u32 = 1 << 17;

/// Which look-up tables of AC values are filled for a frame.
#[derive(Clone, Copy, Debug, PartialEq)]
enum LookUps {
    /// Those of single values.
    Values,
    /// Those of two values at once besides.
    Pairs,
    /// Those by which values are passed over besides.
    Skips,
}

/// Returns the number of pixels of a frame.
fn pixels_of(frame: &FrameInfo) -> u32 {
    let size = &frame.image_size;
    u32::from(size.width) * u32::from(size.height)
}

/// Returns whether each block of a frame gives one sample.
fn is_eighth(frame: &FrameInfo) -> bool {
    for component in &frame.components {
        if component.dct_scale != 1 {
            return false;
        }
    }
    true
}

/// Returns which look-up tables of AC values it pays to fill for a frame. The scans of a
/// progressive one read few tokens each, and a sequential one whose blocks give one sample each
/// needs no AC coefficient.
fn look_ups_for(frame: &FrameInfo) -> LookUps {
    if is_progressive(frame.coding_process) || pixels_of(frame) < LARGE_PIXELS {
        LookUps::Values
    } else if is_eighth(frame) {
        LookUps::Skips
    } else {
        LookUps::Pairs
    }
}

/// Fills the look-up tables of a table of AC coefficients that a frame's blocks are read by.
fn widen(
    alloc: Global,
    table: &mut HuffmanTable,
    look_ups: LookUps,
) -> std::result::Result<(), AllocError>
    ensures { table.new ≡ table.old }
{
    table.widen(alloc)?;
    match look_ups {
        LookUps::Values => Ok(()),
        LookUps::Pairs => table.fill_pairs(alloc),
        LookUps::Skips => table.fill_skips(alloc),
    }
}

/// Fills the look-up tables of AC values, and those besides that pay for a frame.
fn widen_all(
    alloc: Global,
    tables: &mut [Option<HuffmanTable>],
    frame: &FrameInfo,
) -> std::result::Result<(), AllocError>
    ensures { tables.new ≡ tables.old }
{
    let look_ups = look_ups_for(frame);
    for destination in 0..tables.len() {
        if let Some(table) = &mut tables[destination] {
            widen(alloc, table, look_ups)?;
        }
    }
    Ok(())
}

/// Fills the look-up tables of the differences of lossless scans.
fn fill_differences(
    alloc: Global,
    tables: &mut [Option<HuffmanTable>],
) -> std::result::Result<(), AllocError>
    ensures { tables.new ≡ tables.old }
{
    for destination in 0..tables.len() {
        if let Some(table) = &mut tables[destination] {
            table.fill_differences(alloc)?;
        }
    }
    Ok(())
}

/// Fills the look-up tables of AC values, or of the differences of a lossless frame, if the frame
/// has enough samples for them to pay.
pub fn widen_tables(alloc: Global, state: &mut State) -> std::result::Result<(), AllocError>
    ensures { state.new ≡ state.old }
{
    let said = &mut state.said;
    let Some(frame) = &said.frame else {
        return Ok(());
    };
    if !is_large(frame) {
        return Ok(());
    }
    if frame.coding_process == CodingProcess::Lossless {
        return fill_differences(alloc, &mut said.dc_tables);
    }
    widen_all(alloc, &mut said.ac_tables, frame)
}

/// Returns whether a scan codes DC coefficients.
fn has_dc(header: &ScanHeader) -> bool
    ensures { result ≡ (header.now.first == 0) }
{
    header.first == 0
}

/// Returns whether a scan codes AC coefficients.
fn has_ac(header: &ScanHeader) -> bool
    ensures { result ≡ nat_lt 1 header.now.after }
{
    header.after > 1
}

impl Spare {
    ghost use Rattle.std.specs.Prelude.{◌≡◌, []};
    ghost use Rattle.jpeg_bits.specs.declared.huffman.codes.HuffmanTableClass.TheVariants.{DC, AC};
    ghost use Rattle.jpeg_meaning.specs.Scans.{no_table};

    /// Makes spare tables without default ones.
    pub fn none(alloc: Global) -> Spare
        ensures dc { result.dc.items ≡ [] }
        ensures ac { result.ac.items ≡ [] }
        ensures no_dc { result.no_dc ≡ no_table DC }
        ensures no_ac { result.no_ac ≡ no_table AC }
    {
        Spare {
            dc: Vec::new(alloc),
            ac: Vec::new(alloc),
            no_dc: HuffmanTable::without_codes(alloc, HuffmanTableClass::DC),
            no_ac: HuffmanTable::without_codes(alloc, HuffmanTableClass::AC),
        }
    }
}

/// Adds the default tables to the spare ones of a scan, which has none yet, if a frame of an MJPEG
/// stream was named. (They aren't returned: a result that holds them would be copied at each scan.)
pub fn spare_tables(
    alloc: Global,
    header: &ScanHeader,
    frame: &FrameInfo,
    is_mjpeg: bool,
    spare: &mut Spare,
) -> Result<()>
    requires dc { spare.old.dc.items ≡ [] }
    requires ac { spare.old.ac.items ≡ [] }
    ensures dc { IfOk result (λ _. spare.new.dc.items
        ≡ default_dc is_mjpeg header.now.dc_destinations) }
    ensures ac { IfOk result (λ _. spare.new.ac.items
        ≡ default_ac is_mjpeg header.now.ac_destinations) }
    ensures no_dc { spare.new.no_dc ≡ spare.old.no_dc }
    ensures no_ac { spare.new.no_ac ≡ spare.old.no_ac }
    ensures err { IfErr result (λ e. e ≡ OutOfMemory) }
{
    if is_mjpeg {
        fill_spare(alloc, header, frame, spare)?;
    }
    Ok(())
}

/// Makes the spare tables of a scan of an MJPEG stream, which are the default ones.
#[cold]
#[inline(never)]
fn fill_spare(
    alloc: Global,
    header: &ScanHeader,
    frame: &FrameInfo,
    spare: &mut Spare,
) -> Result<()>
    ensures dc { IfOk result (λ _. spare.new.dc.items
        ≡ default_dc true header.now.dc_destinations) }
    ensures ac { IfOk result (λ _. spare.new.ac.items
        ≡ default_ac true header.now.ac_destinations) }
    ensures no_dc { spare.new.no_dc ≡ spare.old.no_dc }
    ensures no_ac { spare.new.no_ac ≡ spare.old.no_ac }
    ensures err { IfErr result (λ e. e ≡ OutOfMemory) }
{
    spare.dc = vec![in alloc; None, None, None, None]?;
    spare.ac = vec![in alloc; None, None, None, None]?;
    let info = header.to_info(alloc)?;
    fill_default_mjpeg_tables(alloc, &info, &mut spare.dc, &mut spare.ac)?;
    if is_large(frame) {
        widen_all(alloc, &mut spare.ac, frame)?;
    }
    Ok(())
}

/// Returns the table in force at a destination: the one that was read, otherwise the spare one.
fn table_in_force<'a>(
    tables: &'a [Option<HuffmanTable>],
    spare: &'a [Option<HuffmanTable>],
    index: usize,
) -> Option<&'a HuffmanTable>
    ensures { option_copied result ≡ in_force tables.now spare.now index }
{
    match table_at(tables, index) {
        Some(table) => Some(table),
        None => table_at(spare, index),
    }
}

/// Returns the table of a component if the scan needs one, otherwise the one without codes.
fn needed_table<'a>(
    alloc: Global,
    is_needed: bool,
    table: Option<&'a HuffmanTable>,
    none: &'a HuffmanTable,
    missing: Missing,
) -> Result<&'a HuffmanTable>
    ensures { Returns (table_if is_needed none.now (option_copied table.entry)) (λ t. t.now)
        result }
{
    if is_needed {
        needed(alloc, table, missing)
    } else {
        Ok(none)
    }
}

/// Returns the component in a slot of a scan, and its tables in force.
#[inline(always)]
fn coding_of<'a>(
    alloc: Global,
    said: &'a Said,
    spare: &'a Spare,
    frame: &'a FrameInfo,
    header: &ScanHeader,
    slot: usize,
) -> Result<Coded<'a>>
    requires slot { slot < length header.now.components }
    requires legal { IsScanOf (frame_in frame.now) header.now }
    requires scales { AllByRecursion HasScale (frame_in frame.now).components }
    requires few { length (frame_in frame.now).components ≤ 4 }
    requires spare { IsSpareOf said.now header.now spare.now }
    ensures coding { let frame = frame_in frame.now in
        let scan = header.now in
        Returns (coding_in_slot said.now frame scan slot) (λ c. coding_in c) result }
{
    let index = header.components()[slot];
    let component = frame.components.get(index);
    let component = needed(alloc, component, Missing::Component(index))?;
    let identifier = component.identifier;
    let destination = component.quantization_table_index;
    let missing = Missing::Table("quantization", destination, identifier);
    let quantization = table_at(&said.quantization, destination);
    let quantization = needed(alloc, quantization, missing)?;
    let dc_destination = header.dc_destinations()[slot];
    let missing = Missing::Table("DC", dc_destination, identifier);
    let dc = table_in_force(&said.dc_tables, &spare.dc, dc_destination);
    let dc = needed_table(alloc, has_dc(header), dc, &spare.no_dc, missing)?;
    let ac_destination = header.ac_destinations()[slot];
    let missing = Missing::Table("AC", ac_destination, identifier);
    let ac = table_in_force(&said.ac_tables, &spare.ac, ac_destination);
    let ac = needed_table(alloc, has_ac(header), ac, &spare.no_ac, missing)?;
    Ok(Coded {
        index,
        component,
        quantization,
        dc,
        ac,
    })
}

/// Returns the components of a scan, and their tables in force. The errors are `Format` if a table
/// that the scan needs is unset, and `OutOfMemory`.
#[tactic(auto, unfolding(jpeg_meaning::specs::ScanSegments::codings_of))]
pub fn codings_of<'a>(
    alloc: Global,
    said: &'a Said,
    spare: &'a Spare,
    frame: &'a FrameInfo,
    header: &ScanHeader,
) -> Result<Codings<'a>>
    requires legal { IsScanOf (frame_in frame.now) header.now }
    requires scales { AllByRecursion HasScale (frame_in frame.now).components }
    requires few { length (frame_in frame.now).components ≤ 4 }
    requires spare { IsSpareOf said.now header.now spare.now }
    ensures codings { let frame = frame_in frame.now in
        let scan = header.now in
        Returns (codings_of said.now frame scan) (λ codings. codings) result }
    ensures count { IfOk result (λ c. length c ≡ length header.now.components) }
{
    let first = coding_of(alloc, said, spare, frame, header, 0)?;
    let mut codings = Codings::new(first);
    for slot in 1..header.components().len() {
        let coded = coding_of(alloc, said, spare, frame, header, slot)?;
        codings.push(coded);
    }
    Ok(codings)
}

/// Returns the scan of blocks that a header begins, with its tables in force. `beyond` follows the
/// markers that end its data. The AC coefficients of its blocks are kept where they are wanted, and
/// in any case if nothing does. The errors are `Format` if a table that the scan needs isn't set,
/// or `OutOfMemory`.
#[inline(never)]
pub fn block_scan_of<'a>(
    alloc: Global,
    said: &'a Said,
    spare: &'a Spare,
    frame: &'a FrameInfo,
    header: &ScanHeader,
    beyond: Beyond,
) -> Result<Scan<'a>>
    requires frame { IsDecodedFrame (frame_in frame.now) }
    requires process { IsDct (frame_in frame.now).process }
    requires legal { IsScanOf (frame_in frame.now) header.now }
    requires spare { IsSpareOf said.now header.now spare.now }
    ensures scan { IfOk result (IsScanBy said.now (frame_in frame.now) header.now) }
    ensures beyond { IfOk result (λ s. s.beyond ≡ beyond) }
    ensures progressive { IfOk result
        (λ s. is_progressive (frame_in frame.now).process ≡ true → s.keeps_ac ≡ true) }
    ensures refused { IfErr result (λ e. IsRefusal e
        × Names e (codings_of said.now (frame_in frame.now) header.now)) }
{
    let components = codings_of(alloc, said, spare, frame, header)?;
    let pass = pass_of(header);
    Ok(Scan {
        pass,
        restart_interval: said.restart_interval,
        keeps_ac: beyond == Beyond::Nothing || wants_ac(frame.coding_process, pass, &components),
        beyond,
        components,
    })
}
