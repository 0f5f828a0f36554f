//! Lossless scans (T.81, H.1.2), and their restart intervals (E.2.4).
ghost use Rattle.std.specs.Prelude.{◌≡◌, ◌≤◌, ◌<◌, ◌*◌, IfSome, IfNone, IfOk, true, false};
ghost use Rattle.std.specs.Prelude.{length, map, replicate, take, []};
ghost use Rattle.jpeg_bits.specs.Reading.{Answers};
ghost use Rattle.jpeg_bits.specs.Entropy.{Takes};
ghost use Rattle.std.specs.List.{AllByRecursion};
ghost use Rattle.std.proofs.Props.{props};
ghost use Rattle.jpeg_lossless.specs.Rows.{planes_after_rows};
ghost use Rattle.jpeg_lossless.specs.PlanesRead.{planes_interval, planes_intervals, planes_scan};
ghost use Rattle.jpeg_lossless.specs.PlanesRead.{AreGrown, IsWithinMcus, counted_rows, cut_planes};
ghost use Rattle.jpeg_lossless.specs.Scans.{is_of_rows, rows_of_interval};
ghost use Rattle.jpeg_bits.specs.Intervals.{is_restart};
ghost use Rattle.jpeg_lossless.specs.Scans.{shifted, scan_at};
ghost use Rattle.jpeg_lossless.specs.Codings.{AreWholeSamples, IsCovered, part_in, way_by};
ghost use Rattle.jpeg_lossless.specs.Differences.{mcu_tables};

use crate::differences::read_row;
use crate::lines::Prediction;
use crate::lossless::start_of;
pub use crate::parts::Part;
use crate::parts::mcu_tables;
use crate::planes::{Row, add_row, shift};
use jpeg_bits::beyond::Beyond;
use jpeg_bits::error::{Result, format_error_of};
use jpeg_bits::huffman::{HuffmanDecoder, HuffmanTable};
use jpeg_bits::marker::{Marker, restart_error};
use jpeg_bits::scan::Predictor;
use jpeg_bits::source::Source;
use std::alloc::{AllocError, Global};
use std::io::Read;

/// How a lossless scan is coded.
#[derive(Clone, Copy, Debug, PartialEq)]
pub struct Coding {
    /// How many MCUs a row has.
    pub wide: u16,
    /// How many rows of MCUs there are.
    pub high: u16,
    /// The bits of a sample, at most 16.
    pub precision: u8,
    /// How samples are predicted.
    pub predictor: Predictor,
    /// By how many bits the samples are shifted after prediction: fewer than the precision.
    pub point_transform: u8,
    /// The restart interval in MCUs, or 0 for none.
    pub restart_interval: u16,
}

/// Returns how many rows of MCUs a restart interval has: all without restarts, or if it has the
/// whole scan. Returns none if an interval would end inside a row.
pub fn rows_of_interval(coding: Coding) -> Option<u16>
    requires wide { 0 < coding.wide }
    requires high { 0 < coding.high }
    ensures some { IfSome result
        (λ n. (n ≡ counted_rows coding.high
        (rows_of_interval coding.wide coding.high coding.restart_interval)) × (0 < n)
        × (is_of_rows coding.wide coding.high coding.restart_interval ≡ true)) }
    ensures none { IfNone result
        (is_of_rows coding.wide coding.high coding.restart_interval ≡ false) }
{
    let count = u32::from(coding.wide) * u32::from(coding.high);
    let interval = coding.restart_interval;
    if interval == 0 || count <= u32::from(interval) {
        return Some(coding.high);
    }
    if interval % coding.wide != 0 {
        return None;
    }
    Some(interval / coding.wide)
}

/// How the rows of MCUs of a scan are coded.
#[derive(Drop)]
pub struct RowCoding<'a, 't> {
    /// How the scan is coded.
    pub scan: Coding,
    /// The components of the scan.
    pub parts: &'a [Part<'t>],
    /// The table of each sample of an MCU.
    tables: Vec<&'t HuffmanTable>,
    ghost listed: { map (λ t. t.now) tables.items ≡ mcu_tables (map part_in parts.now) },
    ghost within: { AllByRecursion (IsWithinMcus scan.wide)
        (map part_in parts.now) } by { Prim.hlevel props },
    ghost point: { scan.point_transform < scan.precision },
    ghost precision: { scan.precision ≤ 16 },
}

impl<'a, 't> RowCoding<'a, 't> {
    ghost use Rattle.std.specs.Prelude.{◌≡◌, ◌<◌, ◌≤◌, IfOk, map};
    ghost use Rattle.std.specs.List.{AllByRecursion};
    ghost use Rattle.jpeg_lossless.specs.Codings.{IsCovered, part_in};

    /// Prepares to read the rows of MCUs of a scan whose components are the parts.
    #[tactic(auto, using(crate::proofs::Sizes::scan_rules))]
    pub fn new(
        alloc: Global,
        coding: Coding,
        parts: &'a [Part<'t>],
    ) -> std::result::Result<RowCoding<'a, 't>, AllocError>
        requires wide { 0 < coding.wide }
        requires high { 0 < coding.high }
        requires point { coding.point_transform < coding.precision }
        requires precision { coding.precision ≤ 16 }
        requires covered { AllByRecursion (IsCovered coding.wide coding.high)
            (map part_in parts.now) }
        ensures scan { IfOk result (λ r. r.scan ≡ coding) }
        ensures parts { IfOk result (λ r. r.parts.now ≡ parts.now) }
    {
        let tables = mcu_tables(alloc, parts)?;
        Ok(RowCoding {
            scan: coding,
            parts,
            tables,
        })
    }
}

/// A scan that is being read: the samples so far, and buffers for a row of MCUs.
#[derive(Drop)]
pub struct LosslessScan {
    alloc: Global,
    /// The differences of a row of MCUs, in the order in which they are coded.
    row: Vec<u16>,
    /// A line of one component: its differences, and then its samples.
    line: Vec<u16>,
    /// The samples of each component so far, line by line, with those of padding lines and before
    /// the point transform.
    pub planes: Vec<Vec<u16>>,
}

impl LosslessScan {
    ghost use Rattle.std.specs.Prelude.{◌≡◌, ℕ, IfOk, OnOk, ◌≤◌, ◌<◌, ◌+◌, ◌*◌, length, map, true};
    ghost use Rattle.std.specs.Prelude.{MatchResult, Ok, Err, replicate, []};
    ghost use Rattle.jpeg_bits.specs.Reading.{Answers, Names};
    ghost use Rattle.jpeg_bits.specs.Entropy.{Takes, upcoming};
    ghost use Rattle.jpeg_bits.specs.declared.error.Error.TheVariants.{OutOfMemory};
    ghost use Rattle.std.specs.List.{AllByRecursion};
    ghost use Rattle.jpeg_lossless.specs.Codings.{part_in, way_by};
    ghost use Rattle.jpeg_lossless.specs.Differences.{mcu_tables};
    ghost use Rattle.jpeg_lossless.specs.Rows.{planes_after_rows, with_mcu_rows};
    ghost use Rattle.jpeg_lossless.specs.RowsReached.{rows_reached};
    ghost use Rattle.jpeg_lossless.specs.Scans.{scan_tables};
    ghost use Rattle.jpeg_bits.specs.declared.beyond.Beyond.TheVariants.{Nothing, Zeros};
    ghost use Rattle.jpeg_lossless.specs.PlanesRead.{interval_through, intervals_through};
    ghost use Rattle.jpeg_lossless.specs.PlanesRead.{planes_interval, planes_intervals};
    ghost use Rattle.jpeg_lossless.specs.PlanesRead.{AreGrown, IsWithinMcus, cut_planes};

    /// Begins a scan, of which no row is read yet.
    pub fn new(
        alloc: Global,
        coding: &RowCoding<'_, '_>,
    ) -> std::result::Result<LosslessScan, AllocError>
        ensures count { IfOk result (λ s. length s.planes.items ≡ length coding.now.parts.now) }
        ensures planes { IfOk result (λ s. map (λ v. v.items) s.planes.items
            ≡ replicate (length coding.now.parts.now) []) }
    {
        let planes = empty_planes(alloc, coding.scan.high, coding.parts)?;
        Ok(LosslessScan {
            alloc,
            row: Vec::new(alloc),
            line: Vec::new(alloc),
            planes,
        })
    }

    /// Reads `count` rows of MCUs from the beginning of a restart interval on, and appends their
    /// samples to the planes. Of a row that can't be read whole nothing is there, unless memory ran
    /// out.
    ///
    /// Errors: `Format` if bits are no code of their table, a category is above 16, or FF 00 stands
    /// in place of a marker; `Io` if the bytes end or a read fails; `OutOfMemory`.
    #[tactic(auto, using(crate::proofs::PlaneLoops::planes_none))]
    pub fn read_rows<R: Read + Drop>(
        &mut self,
        decoder: &mut HuffmanDecoder,
        source: &mut Source<R>,
        coding: &RowCoding<'_, '_>,
        count: u16,
    ) -> Result<()>
        requires planes { length self.old.planes.items ≡ length coding.now.parts.now }
        ensures count { length self.new.planes.items ≡ length self.old.planes.items }
        ensures long { (k : ℕ) → AreGrown k (map part_in coding.now.parts.now)
            (map (λ v. v.items) self.old.planes.items)
            → OnOk result (AreGrown (k + count) (map part_in coding.now.parts.now)
            (map (λ v. v.items) self.new.planes.items)) }
        ensures reads { Takes (λ _. map (λ v. v.items) self.new.planes.items)
            (planes_after_rows (way_by coding.now.scan (map part_in coding.now.parts.now)) true
            count (map (λ v. v.items) self.old.planes.items))
            decoder.old source.old result decoder.new source.new }
        ensures reached { let w = way_by coding.now.scan (map part_in coding.now.parts.now) in
            source.old.known ≡ true → source.new.known ≡ true → (result ≡ Err OutOfMemory → ⊥)
            → map (λ v. v.items) self.new.planes.items ≡ with_mcu_rows w true
            (rows_reached (scan_tables w count) (upcoming decoder.old source.old.bytes)).0
            (map (λ v. v.items) self.old.planes.items) }
        ensures told { let w = way_by coding.now.scan (map part_in coding.now.parts.now) in
            let read = rows_reached (scan_tables w count) (upcoming decoder.old source.old.bytes) in
            source.old.known ≡ true → source.new.known ≡ true → MatchResult result
            (λ _. read.1 ≡ Ok (upcoming decoder.new source.new.bytes).bits) (λ e. Names e read.1) }
    {
        let prediction = Prediction {
            predictor: coding.scan.predictor,
            start: start_of(coding.scan.precision, coding.scan.point_transform),
        };
        let tables = coding.tables.as_slice();
        let wide = usize::from(coding.scan.wide);
        let mut is_first = true;
        let mut left = count;
        while left > 0 {
            read_row(self.alloc, decoder, source, tables, wide, &mut self.row)?;
            let row = Row {
                differences: &self.row,
                count: wide,
                size: tables.len(),
                prediction,
                is_first,
            };
            let planes = self.planes.as_mut_slice();
            add_row(&row, coding.parts, &mut self.line, planes)?;
            is_first = false;
            left -= 1;
        }
        Ok(())
    }

    /// Reads an interval of `count` rows of MCUs, after whose marker `beyond` follows, and returns
    /// that marker, if it was read. The rows before one that can't be read whole are there, unless
    /// memory ran out.
    #[tactic(auto, unfolding(crate::specs::PlanesRead::planes_interval))]
    fn read_interval<R: Read + Drop>(
        &mut self,
        source: &mut Source<R>,
        coding: &RowCoding<'_, '_>,
        count: u16,
        beyond: Beyond,
    ) -> Result<Option<Marker>>
        requires planes { length self.old.planes.items ≡ length coding.now.parts.now }
        ensures count { length self.new.planes.items ≡ length self.old.planes.items }
        ensures long { (k : ℕ) → AreGrown k (map part_in coding.now.parts.now)
            (map (λ v. v.items) self.old.planes.items)
            → OnOk result (AreGrown (k + count) (map part_in coding.now.parts.now)
            (map (λ v. v.items) self.new.planes.items)) }
        ensures answers { beyond ≡ Zeros
            → Answers (λ m. (map (λ v. v.items) self.new.planes.items, m))
            (planes_interval (way_by coding.now.scan (map part_in coding.now.parts.now)) count
            (map (λ v. v.items) self.old.planes.items))
            source.old result source.new }
        ensures reached { beyond ≡ Nothing → source.old.known ≡ true → source.new.known ≡ true
            → (result ≡ Err OutOfMemory → ⊥) → map (λ v. v.items) self.new.planes.items
            ≡ (interval_through (way_by coding.now.scan (map part_in coding.now.parts.now)) count
            (map (λ v. v.items) self.old.planes.items) source.old.bytes).0 }
        ensures met { beyond ≡ Nothing → Answers (λ m. m) (λ bytes. (interval_through
            (way_by coding.now.scan (map part_in coding.now.parts.now)) count
            (map (λ v. v.items) self.old.planes.items) bytes).1)
            source.old result source.new }
    {
        let mut decoder = HuffmanDecoder::with_beyond(self.alloc, beyond);
        self.read_rows(&mut decoder, source, coding, count)?;
        decoder.take_marker(source)
    }

    /// Reads the intervals of a scan, each of `rows` rows of MCUs and the last of those that are
    /// left, and returns the marker after them, if it was read. After the marker that ends the data
    /// of an interval `beyond` follows. The rows before one that can't be read whole are there,
    /// unless memory ran out.
    ///
    /// The errors are those of `read_rows`, and `Format` if an interval doesn't end with the
    /// restart marker that is due.
    #[tactic(auto, using(crate::proofs::Rules::ends))]
    pub fn read_intervals<R: Read + Drop>(
        &mut self,
        source: &mut Source<R>,
        coding: &RowCoding<'_, '_>,
        rows: u16,
        beyond: Beyond,
    ) -> Result<Option<Marker>>
        requires rows { 0 < rows }
        requires planes { length self.old.planes.items ≡ length coding.now.parts.now }
        ensures count { length self.new.planes.items ≡ length self.old.planes.items }
        ensures long { (k : ℕ) → AreGrown k (map part_in coding.now.parts.now)
            (map (λ v. v.items) self.old.planes.items)
            → OnOk result (AreGrown (k + coding.now.scan.high) (map part_in coding.now.parts.now)
            (map (λ v. v.items) self.new.planes.items)) }
        ensures answers { beyond ≡ Zeros
            → Answers (λ m. (map (λ v. v.items) self.new.planes.items, m))
            (planes_intervals (coding.now.scan.high + 1)
            (way_by coding.now.scan (map part_in coding.now.parts.now)) rows 0
            coding.now.scan.high (map (λ v. v.items) self.old.planes.items))
            source.old result source.new }
        ensures reached { beyond ≡ Nothing → source.old.known ≡ true → source.new.known ≡ true
            → (result ≡ Err OutOfMemory → ⊥) → map (λ v. v.items) self.new.planes.items
            ≡ (intervals_through (coding.now.scan.high + 1)
            (way_by coding.now.scan (map part_in coding.now.parts.now)) rows 0
            coding.now.scan.high (map (λ v. v.items) self.old.planes.items) source.old.bytes).0 }
        ensures met { beyond ≡ Nothing → Answers (λ m. m) (λ bytes. (intervals_through
            (coding.now.scan.high + 1) (way_by coding.now.scan (map part_in coding.now.parts.now))
            rows 0 coding.now.scan.high (map (λ v. v.items) self.old.planes.items) bytes).1)
            source.old result source.new }
    {
        let mut number = 0u16;
        let mut left = coding.scan.high;
        while left > rows {
            let marker = self.read_interval(source, coding, rows, beyond)?;
            if !is_restart(marker, number) {
                return Err(restart_error(self.alloc, marker, (number % 8) as u8));
            }
            number += 1;
            left -= rows;
        }
        self.read_interval(source, coding, left, beyond)
    }

    /// Ends a scan, and returns the plane of each component: its own samples of the rows that were
    /// read, without padding lines and shifted by the point transform.
    pub fn finish(mut self, coding: &RowCoding<'_, '_>) -> Vec<Vec<u16>>
        requires planes { length self.planes.items ≡ length coding.now.parts.now }
        ensures count { length result.items ≡ length self.planes.items }
        ensures planes { map (λ v. v.items) result.items
            ≡ cut_planes coding.now.scan.point_transform (map part_in coding.now.parts.now)
            (map (λ v. v.items) self.planes.items) }
    {
        finish_all(
            self.planes.as_mut_slice(),
            coding.parts,
            coding.scan.point_transform,
        );
        self.planes
    }
}

/// Returns whether a marker is the RST with this number modulo 8.
fn is_restart(marker: Option<Marker>, number: u16) -> bool
    ensures { result ≡ is_restart number marker }
{
    match marker {
        Some(Marker::RST(n)) => u16::from(n) == number % 8,
        _ => false,
    }
}

/// Makes empty planes, each with room for the samples of a part in `high` rows of MCUs.
fn empty_planes(
    alloc: Global,
    high: u16,
    parts: &[Part<'_>],
) -> std::result::Result<Vec<Vec<u16>>, AllocError>
    ensures count { IfOk result (λ v. length v.items ≡ length parts.now) }
    ensures planes { IfOk result
        (λ v. map (λ p. p.items) v.items ≡ replicate (length parts.now) []) }
{
    let mut planes = Vec::with_capacity(alloc, parts.len())?;
    for i in 0..parts.len() {
        let part = &parts[i];
        let lines = usize::from(high) * usize::from(part.down);
        planes.push(Vec::with_capacity(alloc, usize::from(part.width) * lines)?)?;
    }
    Ok(planes)
}

/// Cuts the padding lines off a plane, and shifts its samples left by the point transform.
fn finish(plane: &mut Vec<u16>, size: usize, point_transform: u8)
    requires { point_transform < 16 }
    ensures { plane.new.items ≡ map (shifted point_transform) (take size plane.old.items) }
{
    plane.truncate(size);
    shift(plane.as_mut_slice(), point_transform);
}

/// Finishes the plane of each part.
#[tactic(auto, using(crate::proofs::RowLoops::cut_none, std::proofs::lemmas::Grind::common_steps))]
fn finish_all(planes: &mut [Vec<u16>], parts: &[Part<'_>], point_transform: u8)
    requires point { point_transform < 16 }
    requires count { length planes.old ≡ length parts.now }
    ensures count { length planes.new ≡ length planes.old }
    ensures planes { map (λ v. v.items) planes.new
        ≡ cut_planes point_transform (map part_in parts.now) (map (λ v. v.items) planes.old) }
{
    for i in 0..planes.len() {
        let part = &parts[i];
        let size = usize::from(part.width) * usize::from(part.height);
        finish(&mut planes[i], size, point_transform);
    }
}

/// Like `read_scan`, row by row.
#[tactic(auto, unfolding(crate::proofs::Rules::scans), using(crate::proofs::Sizes::scan_rules))]
fn read_planes<R: Read + Drop>(
    alloc: Global,
    source: &mut Source<R>,
    coding: Coding,
    parts: &[Part<'_>],
) -> Result<(Vec<Vec<u16>>, Option<Marker>)>
    requires wide { 0 < coding.wide }
    requires high { 0 < coding.high }
    requires point { coding.point_transform < coding.precision }
    requires precision { coding.precision ≤ 16 }
    requires covered { AllByRecursion (IsCovered coding.wide coding.high) (map part_in parts.now) }
    ensures count { IfOk result (λ r. length r.0.items ≡ length parts.now) }
    ensures whole { IfOk result
        (λ r. AreWholeSamples (map part_in parts.now) (map (λ v. v.items) r.0.items)) }
    ensures reads { Answers (λ r. (map (λ v. v.items) r.0.items, r.1))
        (planes_scan (way_by coding (map part_in parts.now))
        coding.high coding.restart_interval coding.point_transform)
        source.old result source.new }
{
    let Some(rows) = rows_of_interval(coding) else {
        return Err(format_error_of(format!(in alloc;
            "restart interval {}, expected a multiple of the {} MCUs of a row",
            coding.restart_interval, coding.wide
        )));
    };
    let row_coding = RowCoding::new(alloc, coding, parts)?;
    let mut scan = LosslessScan::new(alloc, &row_coding)?;
    let marker = scan.read_intervals(source, &row_coding, rows, Beyond::Zeros)?;
    Ok((scan.finish(&row_coding), marker))
}

/// Reads the entropy-coded data of a lossless scan, whose components are the parts. Returns a plane
/// for each part, and the marker after the data, if it was read. A plane has the component's own
/// samples, line by line, shifted by the point transform.
///
/// Errors: `Format` if a restart interval ends inside a row, bits are no code of their table, a
/// category is above 16, FF 00 stands in place of a marker, or an interval doesn't end with the
/// restart marker that is due; `Io` if the bytes end or a read fails; `OutOfMemory`.
#[tactic(auto, using(crate::proofs::Sizes::scan_rules))]
pub fn read_scan<R: Read + Drop>(
    alloc: Global,
    source: &mut Source<R>,
    coding: Coding,
    parts: &[Part<'_>],
) -> Result<(Vec<Vec<u16>>, Option<Marker>)>
    requires wide { 0 < coding.wide }
    requires high { 0 < coding.high }
    requires point { coding.point_transform < coding.precision }
    requires precision { coding.precision ≤ 16 }
    requires covered { AllByRecursion (IsCovered coding.wide coding.high) (map part_in parts.now) }
    ensures count { IfOk result (λ r. length r.0.items ≡ length parts.now) }
    ensures whole { IfOk result
        (λ r. AreWholeSamples (map part_in parts.now) (map (λ v. v.items) r.0.items)) }
    ensures reads { Answers (λ r. (map (λ v. v.items) r.0.items, r.1))
        (scan_at (way_by coding (map part_in parts.now))
        coding.high coding.restart_interval coding.point_transform)
        source.old result source.new }
{
    read_planes(alloc, source, coding, parts)
}
