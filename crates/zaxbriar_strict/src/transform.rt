//! Scans of DCT coefficients (T.81, F.2 and G.2).
ghost use Rattle.std.specs.Prelude.{◌≡◌, ◌≤◌, ◌<◌, ◌+◌, ◌∷◌, ◌++◌, [], ℕ, Bool, List, None};
ghost use Rattle.std.specs.Prelude.{IfOk, Some};
ghost use Rattle.std.specs.Prelude.{false, length, map, replicate, set, slice_get};
ghost use Rattle.std.specs.Prelude.{IsTrue, slice_index_or, true};
ghost use Rattle.jpeg_bits.specs.Passes.{Pass, Via};
ghost use Rattle.jpeg_segments.specs.HuffmanTables.{class_of};
ghost use Rattle.zaxbriar_strict.specs.Changes.{Kept, Place, block_of, kept_in, kept_of};
ghost use Rattle.zaxbriar_strict.specs.Contexts.{IsContext, IsInstalled, IsWay, ReadsBlocks};
ghost use Rattle.zaxbriar_strict.specs.Contexts.{blocks_at, blocks_in, part_places, places_at};
ghost use Rattle.zaxbriar_strict.specs.Contexts.{row_places, unit_of, unit_places};
ghost use Rattle.zaxbriar_strict.specs.Heads.{IsMade, IsSameFrame, IsSequential, has_scans};
ghost use Rattle.zaxbriar_strict.specs.Heads.{is_progressive_process, lowest_of, members_of};
ghost use Rattle.zaxbriar_strict.specs.Heads.{pass_in};
ghost use Rattle.zaxbriar_strict.specs.Heads.{written_frame};
ghost use Rattle.zaxbriar_strict.specs.Installed.{codes_of, steps_of, tables_of_class};
ghost use Rattle.zaxbriar_strict.specs.Kept.{IsKept, IsKeptComponent};
ghost use Rattle.zaxbriar_strict.specs.Loaded.{data_of};
ghost use Rattle.zaxbriar_strict.specs.Runs.{IsAfter, IsBefore, ReadsRun, run_in};
ghost use Rattle.zaxbriar_strict.specs.ScanData.{AreInstalled, HasMembers, ReadsIfEight};
ghost use Rattle.zaxbriar_strict.specs.Sent.{AllInner, IsPass};
ghost use Rattle.zaxbriar_strict.specs.SentBlocks.{ReadsAcs, ReadsDc, ReadsSent};
ghost use Rattle.zaxbriar_strict.specs.Tables.{codes_in};
ghost use Rattle.zaxbriar_strict.specs.Whole.{IsWhole};
ghost use Rattle.zaxbriar_strict.specs.declared.frame.Component.{Component};
ghost use Rattle.zaxbriar_strict.specs.declared.scan.Member.{Member};

use crate::bits::Bits;
use crate::blocks::{Band, Run, read_in_range};
use crate::cursor::Cursor;
use crate::frame::{Component, Frame, Process};
use crate::huffman::HuffmanTable;
use crate::intervals::Intervals;
use crate::quantization::{Block, is_inner};
use crate::rule::{Rule, Stop};
use crate::scan::{Member, Scan};
use crate::tables::Tables;
use crate::verdict::Refusal;
use std::alloc::{AllocError, Global};

/// What a scan is read by.
#[derive(Clone, Copy)]
struct Context<'a> {
    alloc: Global,
    tables: &'a Tables,
    scan: &'a Scan,
    band: Band,
    is_progressive: bool,
    is_deep: bool,
    /// How many columns and rows of MCUs an interleaved scan has.
    whole: (u32, u32),
}

/// What is known from the blocks of an interval before.
#[derive(Clone, Copy)]
struct Past {
    /// The DC coefficients that were read last, by components of the scan.
    dc: [i16; 4],
    /// How many blocks are still within an end-of-band run.
    run: Run,
}

const NOTHING: Past = Past { dc: [0; 4], run: 0 };

/// Checks that a Huffman table is installed and has no code of ones alone, and returns whether its
/// symbols are at most this one.
pub(crate) fn check_codes(
    tables: &Tables,
    class: u8,
    destination: u8,
    most: u32,
) -> Result<bool, Rule>
    ensures { IfOk result (λ _. class ≤ 1 → destination ≤ 3
        → IsInstalled (slice_index_or (tables_of_class (class_of class) (codes_of tables.now))
        destination None)) }
{
    let Some(table) = tables.codes(class, destination) else {
        return Err(Rule::NoCodeTable);
    };
    if table.has_ones_alone {
        return Err(Rule::OnesAlone);
    }
    Ok(u32::from(table.greatest) <= most)
}

/// Checks that a component's quantization table is installed, and the one of its scans before
/// (B.2.2).
fn check_steps(tables: &Tables, component: &mut Component) -> Result<(), Rule>
    ensures kept { IsKeptComponent component.old component.new }
    ensures rows { component.new.rows ≡ component.old.rows }
    ensures wide { component.new.is_wide ≡ component.old.is_wide }
    ensures installed { IfOk result
        (λ _. IsInstalled (slice_index_or (steps_of tables.now) component.old.table None)) }
{
    let Some(steps) = tables.steps(component.table) else {
        return Err(Rule::NoStepTable);
    };
    if let Some(before) = &component.steps {
        if before.steps.as_slice() != steps.steps.as_slice() {
            return Err(Rule::ChangedStepTable);
        }
    }
    component.steps = Some(*steps);
    Ok(())
}

/// Checks the quantization table of a component by its place in the frame.
fn check_steps_at(tables: &Tables, frame: &mut Frame, place: usize) -> Result<(), Rule>
    ensures kept { IsKept frame.old frame.new }
    ensures rows { map kept_of frame.new.components.items ≡ map kept_of frame.old.components.items }
    ensures installed { IfOk result
        (λ _. (c : Component) → slice_get frame.old.components.items place ≡ Some c
        → IsInstalled (slice_index_or (steps_of tables.now) c.table None)) }
{
    let Some(component) = frame.components.get_mut(place) else {
        return Ok(());
    };
    check_steps(tables, component)?;
    Ok(())
}

/// Checks a Huffman table like `check_codes`, where it is needed.
fn check_sent_codes(
    tables: &Tables,
    is_sent: bool,
    class: u8,
    destination: u8,
    most: u32,
) -> Result<bool, Rule>
    ensures { IfOk result (λ _. IsTrue is_sent → class ≤ 1 → destination ≤ 3
        → IsInstalled (slice_index_or (tables_of_class (class_of class) (codes_of tables.now))
        destination None)) }
{
    if !is_sent {
        return Ok(true);
    }
    let has_categories = check_codes(tables, class, destination, most)?;
    Ok(has_categories)
}

/// Checks the tables that a scan needs of a component, and returns whether its DC codes are of
/// categories that the process has.
fn check_member(
    tables: &Tables,
    frame: &mut Frame,
    member: Member,
    band: &Band,
) -> Result<bool, Rule>
    ensures kept { IsKept frame.old frame.new }
    ensures rows { map kept_of frame.new.components.items ≡ map kept_of frame.old.components.items }
    ensures tables { IfOk result (λ _. (p : Pass) → IsMade frame.old
        → member.component < length frame.old.components.items → band.now.first ≡ p.ss
        → band.now.last ≡ p.se → member.dc ≤ 3 → member.ac ≤ 3
        → AreInstalled p tables.now (written_frame frame.old) (member ∷ [])) }
{
    check_steps_at(tables, frame, member.component)?;
    // (A refinement of DC needs no code, but its header names a table.)
    let has_categories = check_sent_codes(tables, band.has_dc(), 0, member.dc, band.most_dc())?;
    let _ = check_sent_codes(tables, band.has_ac(), 1, member.ac, 255)?;
    Ok(has_categories)
}

/// Checks the tables that a scan needs.
fn check_tables(tables: &Tables, frame: &mut Frame, scan: &Scan, band: &Band) -> Result<(), Rule>
    ensures kept { IsKept frame.old frame.new }
    ensures rows { map kept_of frame.new.components.items ≡ map kept_of frame.old.components.items }
    ensures tables { IfOk result (λ _. (p : Pass) → IsMade frame.old → band.now.first ≡ p.ss
        → band.now.last ≡ p.se → HasMembers frame.old scan.now
        → AreInstalled p tables.now (written_frame frame.old) (members_of scan.now)) }
{
    let mut has_categories = true;
    for member in scan.members().iter() {
        has_categories &= check_member(tables, frame, *member, band)?;
    }
    if has_categories {
        Ok(())
    } else {
        Err(Rule::DcCategories)
    }
}

impl Past {
    /// Checks at the end of an interval that no end-of-band run goes on (G.1.2.2).
    fn end(&self, bits: &Bits<'_>) -> Result<(), Stop>
        ensures { IfOk result (λ _. (is_kept : Bool) → run_in is_kept self.now ≡ 0) }
    {
        if self.run > 0 {
            return Err(bits.breaks(Rule::RunBeyond));
        }
        Ok(())
    }
}

/// Ends an interval where all its MCUs were read, and begins the next one.
fn go_on(intervals: &mut Intervals<'_>, past: &mut Past) -> Result<(), Stop>
    ensures { IfOk result (λ _. (is_kept : Bool) (p : Pass) (unit : List Via) (every : ℕ)
        (bytes : List ℕ) (count : ℕ) (places : List Place) (from to : Kept)
        → IsAfter is_kept p unit every bytes count places from to intervals.old past.old
        → IsBefore is_kept p unit every bytes count places from to intervals.new past.new) }
{
    if !intervals.is_over() {
        return Ok(());
    }
    past.end(&intervals.bits)?;
    intervals.restart()?;
    *past = NOTHING;
    Ok(())
}

/// Returns an installed Huffman table.
pub(crate) fn codes_of(tables: &Tables, class: u8, destination: u8) -> Result<&HuffmanTable, Rule>
    ensures { IfOk result (λ t. class ≤ 1 → destination ≤ 3
        → slice_index_or (tables_of_class (class_of class) (codes_of tables.now)) destination None
        ≡ Some (codes_in (class_of class) t.now)) }
{
    match tables.codes(class, destination) {
        Some(table) => Ok(table),
        None => Err(Rule::NoCodeTable),
    }
}

/// Returns a sampling factor as a number of blocks.
fn side_of(factor: u8) -> u32
    ensures same { result ≡ factor }
    ensures most { result ≤ 255 }
{
    u32::from(factor)
}

/// Makes the rows of blocks of a component of a progressive frame up to this one, where no scan has
/// reached them yet. A row has this many.
fn make_rows(alloc: Global, rows: &mut Vec<Vec<Block>>, row: u32, columns: u32) -> Result<(), Stop>
    ensures { (j k : ℕ) → block_of (map (λ r. r.items) rows.new.items) j k
        ≡ block_of (map (λ r. r.items) rows.old.items) j k }
{
    for _ in rows.len()..row as usize + 1 {
        let blocks = vec![in alloc; [0i16; 64]; columns as usize]?;
        match rows.push(blocks) {
            Ok(()) => (),
            Err(failed) => return Err(Stop::from(AllocError::from(failed))),
        }
    }
    Ok(())
}

/// Returns whether a coefficient was at an end of the range of 16 bits: before, or one of a block
/// that was read now.
fn is_wide_with(is_wide: bool, block: &Block) -> bool
    ensures { result ≡ false → (is_wide ≡ false) × AllInner block.now }
{
    is_wide || !is_inner(block)
}

impl Context<'_> {
    /// Reads what the scan sends of DC of a block, after the DC coefficient that was sent last of
    /// its component.
    fn read_dc(
        &self,
        member: Member,
        before: &mut i16,
        bits: &mut Bits<'_>,
        block: &mut Block,
    ) -> Result<(), Rule>
        ensures { IfOk result (λ _. (p : Pass) (slot : ℕ) (via : Via) → IsPass p self.now.band
            → p.ss ≡ 0 → IsWay p self.now.tables.now slot member via
            → ReadsDc p via before.old before.new block.old block.new (data_of bits.old)
            (data_of bits.new)) }
    {
        if self.band.is_refined {
            self.band.refine_dc(bits, block)?;
            return Ok(());
        }
        let table = codes_of(self.tables, 0, member.dc)?;
        self.band.read_difference(bits, table, before, block)?;
        Ok(())
    }

    /// Reads what the scan sends of AC of a block.
    fn read_acs(
        &self,
        member: Member,
        run: &mut Run,
        bits: &mut Bits<'_>,
        block: &mut Block,
    ) -> Result<(), Rule>
        ensures { IfOk result (λ _. (p : Pass) (slot : ℕ) (via : Via) → IsPass p self.now.band
            → 1 ≤ p.ss → p.ss ≤ p.se → IsWay p self.now.tables.now slot member via
            → ReadsAcs p via run.old run.new block.old block.new (data_of bits.old)
            (data_of bits.new)) }
    {
        let table = codes_of(self.tables, 1, member.ac)?;
        if self.band.is_refined {
            self.band.refine_ac(bits, table, run, block)?;
            return Ok(());
        }
        self.band.read_ac(bits, table, run, block)?;
        Ok(())
    }

    /// Reads what the scan sends of a block of the component at this place in the scan: DC or AC.
    fn read_coefficients(
        &self,
        slot: usize,
        past: &mut Past,
        bits: &mut Bits<'_>,
        block: &mut Block,
    ) -> Result<(), Rule>
        ensures { IfOk result (λ _. (p : Pass) (vias : List Via) (via : Via)
            → IsContext self.now p vias → self.now.is_progressive ≡ true
            → slice_get vias slot ≡ Some via
            → ReadsSent p via past.old past.new block.old block.new (data_of bits.old)
            (data_of bits.new)) }
    {
        let Some(member) = self.scan.members().get(slot) else {
            return Err(Rule::UnknownComponent);
        };
        if slot >= past.dc.len() {
            return Err(Rule::UnknownComponent);
        }
        if self.band.has_dc() {
            self.read_dc(*member, &mut past.dc[slot], bits, block)?;
            return Ok(());
        }
        self.read_acs(*member, &mut past.run, bits, block)?;
        Ok(())
    }

    /// Reads what the scan sends of the block of a progressive frame at a column and a row.
    fn read_sent(
        &self,
        component: &mut Component,
        slot: usize,
        past: &mut Past,
        bits: &mut Bits<'_>,
        place: (u32, u32),
    ) -> Result<(), Stop>
        ensures kept { IsKeptComponent component.old component.new }
        ensures read { IfOk result (λ _. (p : Pass) (vias : List Via) (via : Via)
            (index : ℕ) (cs : List Component) → IsContext self.now p vias
            → self.now.is_progressive ≡ true → slice_get vias slot ≡ Some via
            → slice_get cs index ≡ Some component.old
            → ReadsRun true p (via ∷ [])
            (record { index = index; row = place.1; column = place.0 } ∷ []) past.old past.new
            (kept_in cs) (kept_in (set cs index component.new)) (data_of bits.old)
            (data_of bits.new)) }
    {
        let columns = self.whole.0.saturating_mul(u32::from(component.across));
        make_rows(self.alloc, &mut component.rows, place.1, columns)?;
        // (Each row has this column: there is none only where there is no memory.)
        let Some(line) = component.rows.get_mut(place.1 as usize) else {
            return Err(Stop::Refused(Refusal::OutOfMemory));
        };
        let Some(block) = line.get_mut(place.0 as usize) else {
            return Err(Stop::Refused(Refusal::OutOfMemory));
        };
        match self.read_coefficients(slot, past, bits, block) {
            Ok(()) => (),
            Err(rule) => return Err(bits.breaks(rule)),
        }
        component.is_wide = is_wide_with(component.is_wide, block);
        Ok(())
    }

    /// Reads a block of a sequential frame, whose coefficients have to be in range.
    fn read_whole(
        &self,
        component: &Component,
        slot: usize,
        past: &mut Past,
        bits: &mut Bits<'_>,
    ) -> Result<(), Rule>
        ensures { IfOk result (λ _. (p : Pass) (vias : List Via) (via : Via) (place : Place)
            (from to : Kept) → IsContext self.now p vias → self.now.is_progressive ≡ false
            → slice_get vias slot ≡ Some via
            → ReadsRun false p (via ∷ []) (place ∷ []) past.old past.new from to
            (data_of bits.old) (data_of bits.new)) }
    {
        let Some(member) = self.scan.members().get(slot) else {
            return Err(Rule::UnknownComponent);
        };
        if slot >= past.dc.len() {
            return Err(Rule::UnknownComponent);
        }
        let Some(steps) = &component.steps else {
            return Err(Rule::NoStepTable);
        };
        let dc = codes_of(self.tables, 0, member.dc)?;
        let ac = codes_of(self.tables, 1, member.ac)?;
        read_in_range(bits, dc, ac, &mut past.dc[slot], steps, self.is_deep)?;
        Ok(())
    }

    /// Reads the block of a component at a column and a row.
    fn read_block(
        &self,
        component: &mut Component,
        slot: usize,
        past: &mut Past,
        bits: &mut Bits<'_>,
        place: (u32, u32),
    ) -> Result<(), Stop>
        ensures kept { IsKeptComponent component.old component.new }
        ensures read { IfOk result (λ _. (p : Pass) (vias : List Via) (via : Via)
            (index : ℕ) (cs : List Component) → IsContext self.now p vias
            → slice_get vias slot ≡ Some via → slice_get cs index ≡ Some component.old
            → ReadsBlocks self.now p (via ∷ [])
            (record { index = index; row = place.1; column = place.0 } ∷ []) past.old past.new cs
            (set cs index component.new) bits.old bits.new) }
    {
        if self.is_progressive {
            self.read_sent(component, slot, past, bits, place)?;
            return Ok(());
        }
        match self.read_whole(component, slot, past, bits) {
            Ok(()) => Ok(()),
            Err(rule) => Err(bits.breaks(rule)),
        }
    }

    /// Reads the blocks of a component in an MCU, at a column and a row.
    fn read_blocks(
        &self,
        component: &mut Component,
        slot: usize,
        past: &mut Past,
        bits: &mut Bits<'_>,
        place: (u32, u32),
    ) -> Result<(), Stop>
        ensures kept { IsKeptComponent component.old component.new }
        ensures read { IfOk result (λ _. (p : Pass) (vias : List Via) (via : Via)
            (index : ℕ) (cs : List Component) → IsContext self.now p vias → place.0 ≤ 300000
            → place.1 ≤ 300000 → slice_get vias slot ≡ Some via
            → slice_get cs index ≡ Some component.old → let count = self.now.scan.now.count in
            ReadsBlocks self.now p (replicate (blocks_in count component.old) via)
            (part_places count place.1 place.0 index component.old) past.old past.new cs
            (set cs index component.new) bits.old bits.new) }
    {
        if self.scan.count == 1 {
            return self.read_block(component, slot, past, bits, place);
        }
        let (across, down) = (side_of(component.across), side_of(component.down));
        let (left, top) = (place.0.saturating_mul(across), place.1.saturating_mul(down));
        for below in 0..down {
            for beside in 0..across {
                let place = (left.saturating_add(beside), top.saturating_add(below));
                self.read_block(component, slot, past, bits, place)?;
            }
        }
        Ok(())
    }

    /// Reads the blocks of the component at this place in the scan in an MCU, at a column and a
    /// row.
    fn read_part(
        &self,
        frame: &mut Frame,
        slot: usize,
        past: &mut Past,
        bits: &mut Bits<'_>,
        place: (u32, u32),
    ) -> Result<(), Stop>
        ensures kept { IsKept frame.old frame.new }
        ensures read { IfOk result (λ _. (p : Pass) (vias : List Via) (via : Via) (m : Member)
            → IsContext self.now p vias → place.0 ≤ 300000 → place.1 ≤ 300000
            → slice_get vias slot ≡ Some via
            → slice_get (members_of self.now.scan.now) slot ≡ Some m
            → let count = self.now.scan.now.count in let cs = frame.old.components.items in
            ReadsBlocks self.now p (replicate (blocks_at count cs m.component) via)
            (places_at count place.1 place.0 m.component (slice_get cs m.component)) past.old
            past.new cs frame.new.components.items bits.old bits.new) }
    {
        let Some(member) = self.scan.members().get(slot) else {
            return Ok(());
        };
        let Some(component) = frame.components.get_mut(member.component) else {
            return Ok(());
        };
        self.read_blocks(component, slot, past, bits, place)?;
        Ok(())
    }

    /// Reads the blocks of an MCU, at a column and a row.
    fn read_unit(
        &self,
        frame: &mut Frame,
        past: &mut Past,
        bits: &mut Bits<'_>,
        place: (u32, u32),
    ) -> Result<(), Stop>
        ensures kept { IsKept frame.old frame.new }
        ensures read { IfOk result (λ _. (p : Pass) (vias : List Via) → IsContext self.now p vias
            → place.0 ≤ 300000 → place.1 ≤ 300000
            → let count = self.now.scan.now.count in let cs = frame.old.components.items in
            let ms = members_of self.now.scan.now in
            ReadsBlocks self.now p (unit_of count cs ms vias)
            (unit_places count cs ms place.1 place.0) past.old past.new cs
            frame.new.components.items bits.old bits.new) }
    {
        for slot in 0..self.scan.members().len() {
            self.read_part(frame, slot, past, bits, place)?;
        }
        Ok(())
    }

    /// Reads the MCU at a column and a row, and before it the end of the interval that is over.
    fn read_next(
        &self,
        frame: &mut Frame,
        past: &mut Past,
        intervals: &mut Intervals<'_>,
        place: (u32, u32),
    ) -> Result<(), Stop>
        ensures kept { IsKept frame.old frame.new }
        ensures read { IfOk result (λ _. (p : Pass) (vias unit : List Via) (every : ℕ)
            (bytes : List ℕ) (count : ℕ) (places : List Place) (from : Kept)
            → IsContext self.now p vias → place.0 ≤ 300000 → place.1 ≤ 300000
            → let size = self.now.scan.now.count in let cs = frame.old.components.items in
            let ms = members_of self.now.scan.now in unit ≡ unit_of size cs ms vias
            → IsAfter self.now.is_progressive p unit every bytes count places from (kept_in cs)
            intervals.old past.old
            → IsAfter self.now.is_progressive p unit every bytes (count + 1)
            (places ++ unit_places size cs ms place.1 place.0) from
            (kept_in frame.new.components.items) intervals.new past.new) }
    {
        go_on(intervals, past)?;
        intervals.count();
        self.read_unit(frame, past, &mut intervals.bits, place)?;
        Ok(())
    }

    /// Reads a row of MCUs.
    fn read_row(
        &self,
        frame: &mut Frame,
        past: &mut Past,
        intervals: &mut Intervals<'_>,
        columns: u32,
        row: u32,
    ) -> Result<(), Stop>
        ensures kept { IsKept frame.old frame.new }
        ensures read { IfOk result (λ _. (p : Pass) (vias unit : List Via) (every : ℕ)
            (bytes : List ℕ) (count : ℕ) (places : List Place) (from : Kept)
            → IsContext self.now p vias → columns ≤ 300000 → row ≤ 300000
            → let size = self.now.scan.now.count in let cs = frame.old.components.items in
            let ms = members_of self.now.scan.now in unit ≡ unit_of size cs ms vias
            → IsAfter self.now.is_progressive p unit every bytes count places from (kept_in cs)
            intervals.old past.old
            → IsAfter self.now.is_progressive p unit every bytes (count + columns)
            (places ++ row_places size cs ms row columns) from
            (kept_in frame.new.components.items) intervals.new past.new) }
    {
        for column in 0..columns {
            self.read_next(frame, past, intervals, (column, row))?;
        }
        Ok(())
    }
}

/// Returns whether a frame is progressive.
pub(crate) fn is_progressive(frame: &Frame) -> bool
    ensures { result ≡ is_progressive_process frame.now.process }
{
    matches!(frame.process, Process::Progressive)
}

/// Returns which coefficients a scan sends.
fn band_of(frame: &Frame, scan: &Scan) -> Band
    ensures whole { IsSequential frame.now → IsWhole result }
    ensures sent { is_progressive_process frame.now.process ≡ true → scan.now.last ≤ 63
        → scan.now.low ≤ 13 → IsPass (pass_in scan.now) result }
{
    let is_deep = frame.is_deep();
    if is_progressive(frame) {
        Band::sent(scan.first, scan.last, scan.low, scan.high != 0, is_deep)
    } else {
        Band::whole(is_deep)
    }
}

/// Reads a scan from the end of its header on, and returns what follows its data.
pub(crate) fn read_scan<'a>(
    alloc: Global,
    tables: &Tables,
    frame: &mut Frame,
    scan: &Scan,
    start: Cursor<'a>,
) -> Result<Cursor<'a>, Stop>
    ensures read { IfOk result (λ rest. ReadsIfEight tables.now frame.old frame.new scan.now
        start.entry.rest.now rest.rest.now) }
    ensures same { IsSameFrame frame.old frame.new }
    ensures sent { has_scans frame.new ≡ has_scans frame.old }
    ensures lowest { lowest_of frame.new ≡ lowest_of frame.old }
{
    let band = band_of(frame, scan);
    match check_tables(tables, frame, scan, &band) {
        Ok(()) => (),
        Err(rule) => return Err(start.breaks(rule)),
    }
    let context = Context {
        alloc,
        tables,
        scan,
        band,
        is_progressive: is_progressive(frame),
        is_deep: frame.is_deep(),
        whole: frame.units(8),
    };
    let mut intervals = Intervals::new(start, tables.interval);
    let mut past = NOTHING;
    let (columns, rows) = scan.units(frame, 8);
    for row in 0..rows {
        context.read_row(frame, &mut past, &mut intervals, columns, row)?;
    }
    past.end(&intervals.bits)?;
    let rest = intervals.bits.end()?;
    Ok(rest)
}
