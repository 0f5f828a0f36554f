//! Scans of lossless frames (T.81, H.2).
ghost use Rattle.std.specs.Prelude.{◌≡◌, ◌≢◌, ◌≤◌, ◌*◌, ◌%◌, ◌-◌, ◌∷◌, [], ℕ, List, IfOk, map};
ghost use Rattle.std.specs.Prelude.{None, replicate, slice_index_or};
ghost use Rattle.std.specs.List.{AllByRecursion};
ghost use Rattle.jpeg_bits.specs.Codes.{Table};
ghost use Rattle.jpeg_lossless.specs.Differences.{row_tables};
ghost use Rattle.jpeg_lossless.specs.Prediction.{residue};
ghost use Rattle.jpeg_lossless.specs.Written.{WritesSampleDifference};
ghost use Rattle.zaxbriar_strict.specs.Contexts.{IsInstalled};
ghost use Rattle.zaxbriar_strict.specs.Data.{Reads};
ghost use Rattle.zaxbriar_strict.specs.Heads.{members_of};
ghost use Rattle.zaxbriar_strict.specs.Installed.{codes_of};
ghost use Rattle.zaxbriar_strict.specs.Loaded.{data_of};
ghost use Rattle.zaxbriar_strict.specs.Members.{HaveTables};
ghost use Rattle.zaxbriar_strict.specs.SampleRows.{IsAfterRows, IsBeforeRow};
ghost use Rattle.zaxbriar_strict.specs.ScanSamples.{ArePlaced, difference_codes};
ghost use Rattle.zaxbriar_strict.specs.ScanSamples.{ReadsDifferences, ReadsIfLossless};
ghost use Rattle.zaxbriar_strict.specs.ScanSamples.{share_of, shares_of, unit_tables};

use crate::bits::Bits;
use crate::cursor::Cursor;
use crate::frame::Frame;
use crate::intervals::Intervals;
use crate::rule::{Rule, Stop};
use crate::scan::{Member, Scan};
use crate::tables::Tables;
use crate::transform::{check_codes, codes_of};
use std::alloc::{AllocError, Global};

/// How the samples of a scan are predicted.
#[derive(Clone, Copy)]
struct Prediction {
    selection: u8,
    /// How many bits a sample has after the point transform, at most 16.
    bits: u32,
}

/// The lines of a component that samples are predicted from: the last one of the row of MCUs above,
/// and those of this one.
#[derive(Drop)]
struct Lines {
    member: Member,
    across: u32,
    down: u32,
    lines: Vec<Vec<u16>>,
}

/// The samples around one: to the left, above, and above to the left.
#[derive(Clone, Copy)]
struct Around {
    left: u16,
    above: u16,
    corner: u16,
}

impl Around {
    /// Returns the prediction by a selection (Table H.1).
    fn prediction(&self, selection: u8) -> i32 {
        let left = i32::from(self.left);
        let above = i32::from(self.above);
        let corner = i32::from(self.corner);
        match selection {
            1 => left,
            2 => above,
            3 => corner,
            4 => left + above - corner,
            5 => left + ((above - corner) >> 1),
            6 => above + ((left - corner) >> 1),
            _ => (left + above) >> 1,
        }
    }
}

/// Returns a sample, 0 where there is none.
fn sample_at(line: Option<&Vec<u16>>, column: Option<usize>) -> u16 {
    match (line, column) {
        (Some(line), Some(column)) => line.get(column).copied().unwrap_or(0),
        _ => 0,
    }
}

impl Prediction {
    /// Returns the prediction of the sample in a column of a line: `is_first` where the line is an
    /// interval's first one (H.1.2.1).
    fn predicted(&self, lines: &Lines, line: usize, column: usize, is_first: bool) -> i32 {
        let before = column.checked_sub(1);
        let left = sample_at(lines.lines.get(line), before);
        if is_first {
            return match before {
                Some(_) => i32::from(left),
                None => 1i32 << self.bits.saturating_sub(1).min(15),
            };
        }
        let over = lines.lines.get(line.saturating_sub(1));
        let around = Around {
            left,
            above: sample_at(over, Some(column)),
            corner: sample_at(over, before),
        };
        match before {
            Some(_) => around.prediction(self.selection),
            None => i32::from(around.above),
        }
    }
}

/// Reads a difference (H.1.2.2).
fn read_difference(tables: &Tables, member: Member, bits: &mut Bits<'_>) -> Result<i32, Rule>
    ensures { IfOk result (λ d. member.dc ≤ 3
        → Reads (WritesSampleDifference (difference_codes tables.now member) (residue d))
        (data_of bits.old) (data_of bits.new)) }
{
    let table = codes_of(tables, 0, member.dc)?;
    let category = u32::from(bits.symbol(table)?);
    if category == 0 {
        return Ok(0);
    }
    if category == 16 {
        return Ok(32768);
    }
    if category > 16 {
        return Err(Rule::Category);
    }
    let difference = bits.value(category)?;
    Ok(difference)
}

impl Lines {
    /// Makes the lines of a component of a scan of so many columns of MCUs, of which each has so
    /// many of its samples across and down.
    fn new(alloc: Global, member: Member, columns: u32, size: (u32, u32)) -> Result<Lines, Stop>
        ensures member { IfOk result (λ l. l.member ≡ member) }
        ensures across { IfOk result (λ l. l.across ≡ size.0) }
        ensures down { IfOk result (λ l. l.down ≡ size.1) }
    {
        let (across, down) = size;
        let length = columns.saturating_mul(across) as usize;
        let mut lines = Vec::with_capacity(alloc, down.saturating_add(1) as usize)?;
        for _ in 0..down.saturating_add(1) {
            let line = vec![in alloc; 0u16; length]?;
            if let Err(failed) = lines.push(line) {
                return Err(Stop::from(AllocError::from(failed)));
            }
        }
        Ok(Lines {
            member,
            across,
            down,
            lines,
        })
    }

    /// Puts a sample into a column of a line.
    fn put(&mut self, place: (usize, usize), sample: u16)
        ensures { share_of self.new ≡ share_of self.old }
    {
        let (column, line) = place;
        if let Some(line) = self.lines.get_mut(line) {
            if let Some(place) = line.get_mut(column) {
                *place = sample;
            }
        }
    }

    /// Reads the sample in a column of a line.
    fn read_sample(
        &mut self,
        tables: &Tables,
        prediction: Prediction,
        bits: &mut Bits<'_>,
        place: (usize, usize),
        is_first: bool,
    ) -> Result<(), Rule>
        ensures kept { share_of self.new ≡ share_of self.old }
        ensures read { IfOk result (λ _. self.old.member.dc ≤ 3
            → ReadsDifferences (difference_codes tables.now self.old.member ∷ [])
            (data_of bits.old) (data_of bits.new)) }
    {
        let (column, line) = place;
        let difference = read_difference(tables, self.member, bits)?;
        let predicted = prediction.predicted(self, line, column, is_first);
        let sample = predicted.wrapping_add(difference).rem_euclid(65536) as u16;
        if prediction.bits < 16 && u32::from(sample) >> prediction.bits != 0 {
            return Err(Rule::SampleBeyond);
        }
        self.put(place, sample);
        Ok(())
    }

    /// Reads the samples that an MCU has of the component.
    fn read_part(
        &mut self,
        tables: &Tables,
        prediction: Prediction,
        bits: &mut Bits<'_>,
        column: u32,
        is_first_row: bool,
    ) -> Result<(), Rule>
        ensures kept { share_of self.new ≡ share_of self.old }
        ensures read { IfOk result (λ _. self.old.member.dc ≤ 3
            → ReadsDifferences
            (replicate (self.old.down * self.old.across) (difference_codes tables.now
            self.old.member)) (data_of bits.old) (data_of bits.new)) }
    {
        for below in 0..self.down {
            for beside in 0..self.across {
                let column = column.saturating_mul(self.across).saturating_add(beside);
                let place = (column as usize, below.saturating_add(1) as usize);
                let is_first = is_first_row && below == 0;
                self.read_sample(tables, prediction, bits, place, is_first)?;
            }
        }
        Ok(())
    }

    /// Keeps the last line of a row of MCUs for the next one.
    fn end_row(&mut self)
        ensures { share_of self.new ≡ share_of self.old }
    {
        let last = self.down as usize;
        if last < self.lines.len() {
            self.lines.swap(0, last);
        }
    }
}

/// Returns how many bytes the lines of a scan take.
pub(crate) fn line_bytes(frame: &Frame, scan: &Scan) -> u64 {
    let (columns, _) = scan.units(frame, 1);
    let mut bytes = 0u64;
    for member in scan.members().iter() {
        if let Some(component) = frame.components.get(member.component) {
            let (across, down) = scan.unit_size(component);
            let line = u64::from(columns).saturating_mul(2 * u64::from(across));
            let lines = u64::from(down).saturating_add(1);
            bytes = bytes.saturating_add(lines.saturating_mul(line.saturating_add(64)));
        }
    }
    bytes
}

/// Makes the lines of a scan's components.
fn make_lines(alloc: Global, frame: &Frame, scan: &Scan) -> Result<Vec<Lines>, Stop>
    ensures { IfOk result (λ all. map share_of all.items
        ≡ shares_of scan.now.count frame.now.components.items (members_of scan.now)) }
{
    let (columns, _) = scan.units(frame, 1);
    let mut all = Vec::with_capacity(alloc, scan.members().len())?;
    for member in scan.members().iter() {
        let Some(component) = frame.components.get(member.component) else {
            continue;
        };
        let lines = Lines::new(alloc, *member, columns, scan.unit_size(component))?;
        if let Err(failed) = all.push(lines) {
            return Err(Stop::from(AllocError::from(failed)));
        }
    }
    Ok(all)
}

/// Checks the tables that a scan needs.
fn check_tables(tables: &Tables, scan: &Scan) -> Result<(), Rule>
    ensures { IfOk result (λ _. HaveTables 3 (members_of scan.now) → AllByRecursion
        (λ m. IsInstalled (slice_index_or (codes_of tables.now).dc m.dc None))
        (members_of scan.now)) }
{
    let mut has_categories = true;
    for member in scan.members().iter() {
        has_categories &= check_codes(tables, 0, member.dc, 16)?;
    }
    if has_categories {
        Ok(())
    } else {
        Err(Rule::LosslessCategories)
    }
}

/// Checks that the intervals of a scan are of whole rows of so many MCUs (H.1.1).
fn check_rows(tables: &Tables, columns: u32) -> Result<(), Rule>
    ensures { IfOk result (λ _. columns ≢ 0 → tables.now.interval % columns ≡ 0) }
{
    if columns != 0 && u32::from(tables.interval) % columns != 0 {
        return Err(Rule::PartialRows);
    }
    Ok(())
}

/// Checks the tables that a scan needs, and its intervals.
fn check_scan(tables: &Tables, scan: &Scan, columns: u32) -> Result<(), Rule>
    ensures installed { IfOk result (λ _. HaveTables 3 (members_of scan.now) → AllByRecursion
        (λ m. IsInstalled (slice_index_or (codes_of tables.now).dc m.dc None))
        (members_of scan.now)) }
    ensures rows { IfOk result (λ _. columns ≢ 0 → tables.now.interval % columns ≡ 0) }
{
    check_tables(tables, scan)?;
    check_rows(tables, columns)?;
    Ok(())
}

/// Reads the samples of an MCU.
fn read_unit(
    tables: &Tables,
    prediction: Prediction,
    bits: &mut Bits<'_>,
    all: &mut Vec<Lines>,
    column: u32,
    is_first: bool,
) -> Result<(), Rule>
    ensures kept { map share_of all.new.items ≡ map share_of all.old.items }
    ensures read { IfOk result (λ _. ArePlaced (map share_of all.old.items) → ReadsDifferences
        (unit_tables tables.now (map share_of all.old.items)) (data_of bits.old)
        (data_of bits.new)) }
{
    for slot in 0..all.len() {
        let Some(lines) = all.get_mut(slot) else {
            return Err(Rule::UnknownComponent);
        };
        lines.read_part(tables, prediction, bits, column, is_first)?;
    }
    Ok(())
}

/// Keeps the last lines of a row of MCUs for the next one.
fn end_row(all: &mut Vec<Lines>)
    ensures { map share_of all.new.items ≡ map share_of all.old.items }
{
    for slot in 0..all.len() {
        let Some(lines) = all.get_mut(slot) else {
            return;
        };
        lines.end_row();
    }
}

/// Reads a row of MCUs.
fn read_row(
    tables: &Tables,
    prediction: Prediction,
    intervals: &mut Intervals<'_>,
    all: &mut Vec<Lines>,
    columns: u32,
    is_first: bool,
) -> Result<(), Stop>
    ensures kept { IfOk result (λ _. map share_of all.new.items ≡ map share_of all.old.items) }
    ensures every { IfOk result (λ _. intervals.new.every ≡ intervals.old.every) }
    ensures left { IfOk result (λ _. intervals.new.left ≡ intervals.old.left - columns) }
    ensures next { IfOk result (λ _. intervals.new.next ≡ intervals.old.next) }
    ensures read { IfOk result (λ _. ArePlaced (map share_of all.old.items) → ReadsDifferences
        (row_tables columns (unit_tables tables.now (map share_of all.old.items)))
        (data_of intervals.old.bits) (data_of intervals.new.bits)) }
{
    for column in 0..columns {
        intervals.count();
        let bits = &mut intervals.bits;
        match read_unit(tables, prediction, bits, all, column, is_first) {
            Ok(()) => (),
            Err(rule) => return Err(intervals.bits.breaks(rule)),
        }
    }
    end_row(all);
    Ok(())
}

/// Ends the interval before a row where all its rows were read, and begins the next one. Returns
/// whether the row is an interval's first.
fn go_on(intervals: &mut Intervals<'_>, row: u32) -> Result<bool, Stop>
    ensures { IfOk result (λ _. (tables : List Table) (wide every : ℕ) (bytes : List ℕ)
        (count : ℕ) → IsAfterRows tables wide every bytes count intervals.old
        → IsBeforeRow tables wide every bytes count intervals.new) }
{
    if !intervals.is_over() {
        return Ok(row == 0);
    }
    intervals.restart()?;
    Ok(true)
}

/// Reads a scan from the end of its header on, and returns what follows its data.
pub(crate) fn read_scan<'a>(
    alloc: Global,
    tables: &Tables,
    frame: &Frame,
    scan: &Scan,
    start: Cursor<'a>,
) -> Result<Cursor<'a>, Stop>
    ensures { IfOk result (λ rest. ReadsIfLossless tables.now frame.now scan.now
        start.entry.rest.now rest.rest.now) }
{
    let (columns, rows) = scan.units(frame, 1);
    if let Err(rule) = check_scan(tables, scan, columns) {
        return Err(start.breaks(rule));
    }
    let mut all = make_lines(alloc, frame, scan)?;
    let mut intervals = Intervals::new(start, tables.interval);
    let prediction = Prediction {
        selection: scan.first,
        bits: u32::from(frame.precision.saturating_sub(scan.low)),
    };
    for row in 0..rows {
        let is_first = go_on(&mut intervals, row)?;
        read_row(
            tables,
            prediction,
            &mut intervals,
            &mut all,
            columns,
            is_first,
        )?;
    }
    let rest = intervals.bits.end()?;
    Ok(rest)
}
