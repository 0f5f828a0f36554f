//! The walk over the segments of a stream (T.81, B.2.1).
ghost use Rattle.std.specs.Prelude.{◌≡◌, ◌<◌, [], IfOk, IsTrue, Some, false, true};
ghost use Rattle.std.specs.List.{AllByRecursion, list_all};
ghost use Rattle.zaxbriar_strict.specs.Exact.{IsExact};
ghost use Rattle.zaxbriar_strict.specs.Heads.{IsMade};
ghost use Rattle.zaxbriar_strict.specs.Walks.{Finishes, IsFresh, IsOther, ReadsScan, WalksFrame};
ghost use Rattle.zaxbriar_strict.specs.Walks.{WalksOther, WalksScan, WalksSegment};

use crate::cursor::{Cursor, EOI};
use crate::frame::{Frame, Process, read_frame};
use crate::rule::{Rule, Stop};
use crate::tables::Tables;
use crate::verdict::Refusal;
use crate::{lossless, scan, transform};
use std::alloc::Global;

/// How many bytes are taken at most beside the blocks of a progressive frame, or the lines of a
/// lossless one.
const BASE_BYTES: u64 = 163840;

/// What is known of a stream.
#[derive(Drop)]
pub(crate) struct Walk {
    alloc: Global,
    /// The limit of memory, 0 for none.
    most_bytes: u64,
    tables: Tables,
    frame: Option<Frame>,
    /// How many scans there were: 0, 1, or 2 for more.
    scans: u8,
    /// Whether segments of tables and the like stand after the last scan.
    is_scan_due: bool,
}

/// Refuses what takes more memory than the limit, 0 for none.
fn check_memory(bytes: u64, most_bytes: u64) -> Result<(), Stop> {
    if most_bytes != 0 && bytes > most_bytes {
        return Err(Stop::Refused(Refusal::Memory(bytes)));
    }
    Ok(())
}

/// Returns whether the segment after the marker of this code is one of tables, of an application or
/// a comment.
fn is_other(code: u8) -> bool
    ensures { result ≡ true → IsOther code }
{
    matches!(code, 0xc4 | 0xdb | 0xdd | 0xe0..=0xef | 0xfe)
}

/// Returns how many scans there were after one more: 1, or 2 for more.
fn scans_after(scans: u8) -> u8
    ensures { 0 < result }
{
    if scans == 0 { 1 } else { 2 }
}

/// Returns whether each component has a scan.
fn is_sent(frame: &Frame) -> bool
    ensures { result ≡ list_all (λ c. c.has_scan) frame.now.components.items }
{
    frame.components.iter().all(|component| component.has_scan)
}

/// Returns whether the lowest bit of each coefficient of a component was sent.
fn has_lowest(lowest: &[Option<u8>; 64]) -> bool
    ensures { IsTrue result → AllByRecursion (λ l. l ≡ Some 0) lowest.now }
{
    for level in lowest {
        if *level != Some(0) {
            return false;
        }
    }
    true
}

/// Returns whether all bits of all coefficients of a progressive frame were sent.
fn is_whole(frame: &Frame) -> bool
    ensures { IsTrue result
        → AllByRecursion (λ c. AllByRecursion (λ l. l ≡ Some 0) c.lowest)
        frame.now.components.items }
{
    for component in frame.components.iter() {
        if !has_lowest(&component.lowest) {
            return false;
        }
    }
    true
}

/// Reads a scan of a frame, and returns what follows it.
fn read_scan<'a>(
    alloc: Global,
    tables: &Tables,
    frame: &mut Frame,
    most_bytes: u64,
    part: Cursor<'_>,
    start: Cursor<'a>,
) -> Result<Cursor<'a>, Stop>
    ensures { IfOk result (λ rest. IsMade frame.old → ReadsScan part.entry.rest.now
        start.entry.rest.now rest.rest.now tables.now frame.old frame.new) }
{
    let scan = scan::read_header(frame, part)?;
    match frame.process {
        Process::Lossless => {
            let bytes = lossless::line_bytes(frame, &scan).saturating_add(BASE_BYTES);
            check_memory(bytes, most_bytes)?;
            lossless::read_scan(alloc, tables, frame, &scan, start)
        }
        _ => transform::read_scan(alloc, tables, frame, &scan, start),
    }
}

impl Walk {
    fn new(alloc: Global, most_bytes: u64) -> Result<Walk, Stop>
        ensures { IfOk result (λ w. IsFresh w) }
    {
        check_memory(BASE_BYTES, most_bytes)?;
        Ok(Walk {
            alloc,
            most_bytes,
            tables: Tables::new(alloc)?,
            frame: None,
            scans: 0,
            is_scan_due: false,
        })
    }

    /// Reads a frame header.
    fn read_frame(&mut self, code: u8, part: Cursor<'_>) -> Result<(), Stop>
        ensures { IfOk result (λ _. WalksFrame code part.entry.rest.now self.old self.new) }
    {
        if self.frame.is_some() {
            return Err(part.breaks(Rule::SecondFrame));
        }
        let frame = read_frame(self.alloc, code, part)?;
        if frame.process == Process::Progressive {
            let bytes = frame.block_bytes().saturating_add(BASE_BYTES);
            check_memory(bytes, self.most_bytes)?;
        }
        self.tables.check_steps(part, Some(&frame))?;
        self.tables.check_codes(part, Some(&frame))?;
        self.frame = Some(frame);
        Ok(())
    }

    /// Reads a scan, and returns what follows it.
    fn read_scan<'a>(&mut self, part: Cursor<'_>, start: Cursor<'a>) -> Result<Cursor<'a>, Stop>
        ensures { IfOk result (λ rest. WalksScan part.entry.rest.now start.entry.rest.now
            rest.rest.now self.old self.new) }
    {
        let Some(frame) = &mut self.frame else {
            return Err(part.breaks(Rule::NoFrame));
        };
        let rest = read_scan(
            self.alloc,
            &self.tables,
            frame,
            self.most_bytes,
            part,
            start,
        )?;
        self.scans = scans_after(self.scans);
        self.is_scan_due = false;
        Ok(rest)
    }

    /// Reads a segment of tables, or one that says nothing of the picture (B.2.4).
    fn read_other(&mut self, code: u8, part: Cursor<'_>) -> Result<(), Stop>
        ensures { IfOk result (λ _. WalksOther code part.entry.rest.now self.old self.new) }
    {
        self.is_scan_due = true;
        match code {
            0xc4 => self.tables.read_codes(part, self.frame.as_ref()),
            0xdb => self.tables.read_steps(part, self.frame.as_ref()),
            0xdd => self.tables.read_interval(part),
            _ => Ok(()),
        }
    }

    /// Returns the stop at a DNL segment (B.2.5), which has a place only after the first scan, and
    /// isn't read there.
    fn lines(&self, part: Cursor<'_>) -> Stop {
        if self.scans != 1 || part.rest.len() != 2 || matches!(part.rest, [0, 0]) {
            return part.breaks(Rule::Lines);
        }
        Stop::Unread("a number of lines that DNL gives")
    }

    /// Reads the segment after a marker, and a scan's data, and returns what follows.
    fn read_segment<'a>(
        &mut self,
        code: u8,
        place: Cursor<'a>,
        cursor: Cursor<'a>,
    ) -> Result<Cursor<'a>, Stop>
        ensures { IfOk result (λ rest. WalksSegment code cursor.entry.rest.now rest.rest.now
            self.old self.new) }
    {
        let mut rest = cursor;
        if is_other(code) {
            let part = rest.segment()?;
            self.read_other(code, part)?;
            return Ok(rest);
        }
        match code {
            0xcc => Err(Stop::Unread("arithmetic coding")),
            0xde => Err(Stop::Unread("hierarchical coding")),
            0xc0..=0xc7 | 0xc9..=0xcf => {
                let part = rest.segment()?;
                self.read_frame(code, part)?;
                Ok(rest)
            }
            0xda => {
                let part = rest.segment()?;
                self.read_scan(part, rest)
            }
            0xdc if self.scans > 0 => {
                let part = rest.segment()?;
                Err(self.lines(part))
            }
            0xd0..=0xd7 if self.scans > 0 => Err(place.breaks(Rule::Restart)),
            _ => Err(place.breaks(Rule::Misplaced)),
        }
    }

    /// Returns whether the last scan is followed by segments that are due before another one.
    fn lacks_scan(&self) -> bool
        ensures { result ≡ false → self.now.is_scan_due ≡ true → self.now.scans ≡ 0 }
    {
        self.is_scan_due && self.scans > 0
    }

    /// Checks what is known only at EOI: `place` is where it stands.
    fn finish(&self, place: Cursor<'_>) -> Result<(), Stop>
        ensures { IfOk result (λ _. Finishes self.now) }
    {
        let Some(frame) = &self.frame else {
            return Err(place.breaks(Rule::NoFrame));
        };
        if self.lacks_scan() {
            return Err(place.breaks(Rule::NoScan));
        }
        if !is_sent(frame) {
            return Err(place.breaks(Rule::ComponentWithoutScan));
        }
        if !transform::is_progressive(frame) {
            return Ok(());
        }
        if !is_whole(frame) {
            return Err(place.breaks(Rule::UnsentBits));
        }
        if !frame.is_in_range() {
            return Err(place.breaks(Rule::Range));
        }
        Ok(())
    }
}

/// Reads a stream to its end.
pub(crate) fn read_stream(alloc: Global, stream: &[u8], most_bytes: u64) -> Result<(), Stop>
    ensures { IfOk result (λ _. IsExact stream.now) }
{
    let mut walk = Walk::new(alloc, most_bytes)?;
    let mut cursor = Cursor::new(stream);
    match cursor.marker() {
        Ok(0xd8) => (),
        _ => return Err(Rule::NoImage.at(0)),
    }
    for _ in 0..stream.len() {
        let place = cursor;
        let code = cursor.marker()?;
        if code == EOI {
            walk.finish(place)?;
            return check_end(cursor);
        }
        cursor = walk.read_segment(code, place, cursor)?;
    }
    Err(cursor.breaks(Rule::Truncated))
}

/// Checks that nothing follows EOI.
fn check_end(cursor: Cursor<'_>) -> Result<(), Stop>
    ensures { IfOk result (λ _. cursor.entry.rest.now ≡ []) }
{
    if cursor.rest.is_empty() {
        return Ok(());
    }
    let mut next = cursor;
    match next.marker() {
        Ok(0xd8) => Err(cursor.breaks(Rule::SecondImage)),
        _ => Err(cursor.breaks(Rule::AfterEnd)),
    }
}
