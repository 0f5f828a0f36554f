//! Frame headers (T.81, B.2.2), and what scans have brought of their components.
ghost use Rattle.std.specs.Prelude.{◌≡◌, ◌==◌, ◌+◌, ◌*◌, ◌≤◌, ◌<◌, ◌++◌, ◌∷◌, [], IfOk, IsTrue};
ghost use Rattle.std.specs.Prelude.{false, flat_map, length, map, true};
ghost use Rattle.std.specs.List.{AllByRecursion, list_any};
ghost use Rattle.jpeg_segments.specs.Frame.{ceiling, greatest, is_count, is_destination};
ghost use Rattle.jpeg_segments.specs.Frame.{is_factor, is_lossless_number, is_precision};
ghost use Rattle.jpeg_segments.specs.WrittenSegments.{AreComponents, factors_bytes, u16_bytes};
ghost use Rattle.zaxbriar_strict.specs.Heads.{factors_of, number_of, IsMade, IsUnread, ReadsFrame};
ghost use Rattle.zaxbriar_strict.specs.Heads.{written_frame};
ghost use Rattle.jpeg_meaning.specs.Levels.{Is8Bit};
ghost use Rattle.zaxbriar_strict.specs.Bands.{block_in};
ghost use Rattle.zaxbriar_strict.specs.Changes.{IsComponentInRange};

use crate::cursor::Cursor;
use crate::quantization::{Block, Steps, is_in_range};
use crate::rule::{Rule, Stop};
use std::alloc::{AllocError, Global};

/// The coding processes that are read.
#[derive(Clone, Copy, PartialEq)]
pub(crate) enum Process {
    Baseline,
    Extended,
    Progressive,
    Lossless,
}

/// A component of a frame.
#[derive(Drop)]
pub(crate) struct Component {
    pub(crate) identifier: u8,
    /// The sampling factors, 1 to 4.
    pub(crate) across: u8,
    pub(crate) down: u8,
    /// The destination of its quantization table.
    pub(crate) table: u8,
    pub(crate) has_scan: bool,
    /// The table that its scans so far were quantized by.
    pub(crate) steps: Option<Steps>,
    /// For each coefficient of a progressive frame, the lowest bit that was sent.
    pub(crate) lowest: [Option<u8>; 64],
    /// The blocks of a progressive frame, by rows: those that scans have reached.
    pub(crate) rows: Vec<Vec<Block>>,
    /// Whether one of their coefficients was at an end of the range of 16 bits after a scan, where
    /// what was sent may be beyond it.
    pub(crate) is_wide: bool,
}

/// A frame.
#[derive(Drop)]
pub(crate) struct Frame {
    pub(crate) process: Process,
    pub(crate) precision: u8,
    pub(crate) height: u32,
    pub(crate) width: u32,
    /// The greatest sampling factors.
    pub(crate) most_across: u32,
    pub(crate) most_down: u32,
    pub(crate) components: Vec<Component>,
}

/// Returns how many parts of a size a length has, the last of which may be shorter.
pub(crate) fn parts_of(length: u32, size: u32) -> u32
    ensures { 1 ≤ size → result ≡ ceiling length size }
{
    if size == 0 {
        return 0;
    }
    let whole = length / size;
    if length % size == 0 {
        whole
    } else {
        whole.saturating_add(1)
    }
}

/// Returns how many blocks or samples a side of a component has by itself, from that side of the
/// frame in samples, the component's sampling factor and the greatest one (A.1.1 and A.2.2).
fn own_parts(length: u32, factor: u8, most: u32, side: u32) -> u32
    ensures { length ≤ 65535 → 1 ≤ most → 1 ≤ side
        → result ≡ ceiling (ceiling (length * factor) most) side }
{
    let samples = parts_of(length.saturating_mul(u32::from(factor)), most);
    parts_of(samples, side)
}

impl Component {
    /// Checks the coefficients of a component that has a scan.
    fn is_in_range(&self, is_deep: bool) -> bool
        ensures eight { IsTrue result → is_deep ≡ false → IsComponentInRange self.now }
        ensures inner { IsTrue result → self.now.is_wide ≡ false }
    {
        // (Further bits don't lead back from there to a coefficient of samples.)
        if self.is_wide {
            return false;
        }
        match &self.steps {
            Some(steps) => are_rows_in_range(&self.rows, steps, is_deep),
            None => false,
        }
    }
}

/// Checks rows of blocks.
fn are_rows_in_range(rows: &[Vec<Block>], steps: &Steps, is_deep: bool) -> bool
    ensures { IsTrue result → is_deep ≡ false
        → AllByRecursion (λ r. AllByRecursion (λ b. Is8Bit (block_in b)) r.items) rows.now }
{
    for row in rows {
        if !is_row_in_range(row, steps, is_deep) {
            return false;
        }
    }
    true
}

/// Checks a row of blocks.
fn is_row_in_range(row: &[Block], steps: &Steps, is_deep: bool) -> bool
    ensures { IsTrue result → is_deep ≡ false
        → AllByRecursion (λ b. Is8Bit (block_in b)) row.now }
{
    for block in row {
        if !is_in_range(block, steps, is_deep) {
            return false;
        }
    }
    true
}

impl Frame {
    /// Whether the samples have 12 bits, and not 8.
    pub(crate) fn is_deep(&self) -> bool
        ensures { self.now.precision ≡ 8 → result ≡ false }
    {
        self.precision == 12
    }

    /// Returns how many columns and rows of MCUs an interleaved scan has, of this many samples each
    /// per sampling factor (A.2.3).
    pub(crate) fn units(&self, side: u32) -> (u32, u32)
        ensures as_blocks { side ≡ 8 → IsMade self.now
            → (result.0 ≡ (written_frame self.now).mcus_wide)
            × (result.1 ≡ (written_frame self.now).mcus_high) }
        ensures as_samples { side ≡ 1 → IsMade self.now
            → (result.0 ≡ ceiling self.now.width self.now.most_across)
            × (result.1 ≡ ceiling self.now.height self.now.most_down) }
    {
        (
            parts_of(self.width, self.most_across.saturating_mul(side)),
            parts_of(self.height, self.most_down.saturating_mul(side)),
        )
    }

    /// Returns how many columns and rows of blocks or samples a component has by itself (A.2.2).
    pub(crate) fn own_units(&self, component: &Component, side: u32) -> (u32, u32)
        ensures across { self.now.width ≤ 65535 → 1 ≤ self.now.most_across → 1 ≤ side
            → result.0 ≡ ceiling
            (ceiling (self.now.width * component.now.across) self.now.most_across) side }
        ensures down { self.now.height ≤ 65535 → 1 ≤ self.now.most_down → 1 ≤ side
            → result.1 ≡ ceiling
            (ceiling (self.now.height * component.now.down) self.now.most_down) side }
    {
        let across = own_parts(self.width, component.across, self.most_across, side);
        let down = own_parts(self.height, component.down, self.most_down, side);
        (across, down)
    }

    /// Returns how many bytes the blocks of a progressive frame and their rows take.
    pub(crate) fn block_bytes(&self) -> u64 {
        let (columns, rows) = self.units(8);
        let mut bytes = 0u64;
        for component in self.components.iter() {
            let across = u64::from(columns).saturating_mul(u64::from(component.across));
            let down = u64::from(rows).saturating_mul(u64::from(component.down));
            let row = across.saturating_mul(128).saturating_add(128);
            bytes = bytes.saturating_add(down.saturating_mul(row));
        }
        bytes
    }

    /// Checks the coefficients of a progressive frame, each component of which has a scan, against
    /// the ranges of samples (A.3.3).
    pub(crate) fn is_in_range(&self) -> bool
        ensures eight { IsTrue result → self.now.precision ≡ 8
            → AllByRecursion IsComponentInRange self.now.components.items }
        ensures inner { IsTrue result
            → AllByRecursion (λ c. c.is_wide ≡ false) self.now.components.items }
    {
        let is_deep = self.is_deep();
        for component in self.components.iter() {
            if !component.is_in_range(is_deep) {
                return false;
            }
        }
        true
    }
}

/// Returns the process of a frame header's marker, or why it isn't read (Table B.1).
fn process_of(code: u8) -> Result<Process, Stop>
    ensures { IfOk result (λ p. code ≡ 192 + number_of p) }
{
    match code {
        0xc0 => Ok(Process::Baseline),
        0xc1 => Ok(Process::Extended),
        0xc2 => Ok(Process::Progressive),
        0xc3 => Ok(Process::Lossless),
        0xc9 | 0xca | 0xcb => Err(Stop::Unread("arithmetic coding")),
        _ => Err(Stop::Unread("hierarchical coding")),
    }
}

/// Returns whether a process has a precision (Table B.2).
fn has_precision(process: Process, precision: u8) -> bool
    ensures { IsTrue result → is_precision (number_of process) precision ≡ true }
{
    match process {
        Process::Baseline => precision == 8,
        Process::Extended | Process::Progressive => precision == 8 || precision == 12,
        Process::Lossless => 2 <= precision && precision <= 16,
    }
}

/// Returns whether a process has this many components (Table B.2), of which there is one.
fn has_count(process: Process, count: u8) -> bool
    ensures { IsTrue result → 0 < count → is_count (number_of process) count ≡ true }
{
    match process {
        Process::Progressive => count <= 4,
        Process::Baseline | Process::Extended | Process::Lossless => true,
    }
}

/// Returns whether a process has this destination of quantization tables (Table B.2).
fn has_table(process: Process, table: u8) -> bool
    ensures { result ≡ is_destination (is_lossless_number (number_of process)) table }
{
    match process {
        Process::Lossless => table == 0,
        Process::Baseline | Process::Extended | Process::Progressive => table <= 3,
    }
}

/// Takes a component's part of a header, and checks it by itself.
fn take_component(alloc: Global, process: Process, part: &mut Cursor<'_>) -> Result<Component, Rule>
    ensures bytes { IfOk result (λ c. part.old.rest.now
        ≡ factors_bytes (factors_of c) ++ part.new.rest.now) }
    ensures across { IfOk result (λ c. is_factor c.across ≡ true) }
    ensures down { IfOk result (λ c. is_factor c.down ≡ true) }
    ensures placed { IfOk result (λ c.
        is_destination (is_lossless_number (number_of process)) c.table ≡ true) }
    ensures unsent { IfOk result (λ c. IsUnread c) }
{
    let [identifier, factors, table, rest @ ..] = part.rest else {
        return Err(Rule::FrameLength);
    };
    let (identifier, across, down, table) = (*identifier, *factors / 16, *factors % 16, *table);
    if across < 1 || across > 4 || down < 1 || down > 4 {
        return Err(Rule::Factor);
    }
    if !has_table(process, table) {
        return Err(Rule::Selector);
    }
    part.rest = rest;
    Ok(Component {
        identifier,
        across,
        down,
        table,
        has_scan: false,
        steps: None,
        lowest: [None; 64],
        rows: Vec::new(alloc),
        is_wide: false,
    })
}

/// Returns whether a component has this identifier.
fn has_identifier(components: &[Component], identifier: u8) -> bool
    ensures { result ≡ list_any (λ c. c.identifier == identifier) components.now }
{
    components
        .iter()
        .any(|component| component.identifier == identifier)
}

/// Takes the components of a frame: all that is left of its header.
fn take_components(
    alloc: Global,
    process: Process,
    count: u8,
    part: Cursor<'_>,
) -> Result<Vec<Component>, Stop>
    ensures bytes { IfOk result (λ v.
        part.entry.rest.now ≡ flat_map factors_bytes (map factors_of v.items)) }
    ensures legal { IfOk result (λ v.
        AreComponents (number_of process) [] (map factors_of v.items)) }
    ensures unsent { IfOk result (λ v. AllByRecursion IsUnread v.items) }
{
    let mut components = Vec::with_capacity(alloc, usize::from(count))?;
    let mut rest = part;
    while !rest.rest.is_empty() {
        let start = rest;
        let component = match take_component(alloc, process, &mut rest) {
            Ok(component) => component,
            Err(rule) => return Err(start.breaks(rule)),
        };
        if has_identifier(&components, component.identifier) {
            return Err(start.breaks(Rule::Identifier));
        }
        match components.push(component) {
            Ok(()) => (),
            Err(failed) => return Err(Stop::from(AllocError::from(failed))),
        }
    }
    Ok(components)
}

/// Returns the greatest sampling factors, across and down.
fn greatest_factors(components: &[Component]) -> (u32, u32)
    ensures across { result.0 ≡ greatest (λ c. c.horizontal) (map factors_of components.now) }
    ensures down { result.1 ≡ greatest (λ c. c.vertical) (map factors_of components.now) }
{
    let mut across = 1u32;
    let mut down = 1u32;
    for component in components {
        across = across.max(u32::from(component.across));
        down = down.max(u32::from(component.down));
    }
    (across, down)
}

/// What a frame header says before its components.
#[derive(Clone, Copy)]
struct Size {
    precision: u8,
    height: u16,
    width: u16,
    count: u8,
}

/// Takes what a header says before its components, and checks that these are there.
fn take_size(part: &mut Cursor<'_>) -> Result<Size, Rule>
    ensures bytes { IfOk result (λ s. part.old.rest.now ≡ s.precision ∷ (u16_bytes s.height
        ++ (u16_bytes s.width ++ (s.count ∷ part.new.rest.now)))) }
    ensures long { IfOk result (λ s. length part.new.rest.now ≡ 3 * s.count) }
    ensures tall { IfOk result (λ s. s.height ≤ 65535) }
    ensures wide { IfOk result (λ s. s.width ≤ 65535) }
    ensures samples { IfOk result (λ s. 0 < s.width) }
    ensures components { IfOk result (λ s. 0 < s.count) }
{
    let Some(precision) = part.byte() else {
        return Err(Rule::FrameLength);
    };
    let Some(height) = part.number() else {
        return Err(Rule::FrameLength);
    };
    let Some(width) = part.number() else {
        return Err(Rule::FrameLength);
    };
    let Some(count) = part.byte() else {
        return Err(Rule::FrameLength);
    };
    if width == 0 || count == 0 {
        return Err(Rule::NoPicture);
    }
    if part.rest.len() != 3 * usize::from(count) {
        return Err(Rule::FrameLength);
    }
    Ok(Size {
        precision,
        height,
        width,
        count,
    })
}

/// Reads the frame header (B.2.2) after the marker of this code. A frame of another process, or
/// whose number of lines is 0, so that DNL gives it, is not read.
pub(crate) fn read_frame(alloc: Global, code: u8, part: Cursor<'_>) -> Result<Frame, Stop>
    ensures { IfOk result (λ f. ReadsFrame code part.entry.rest.now f) }
{
    let mut rest = part;
    let size = match take_size(&mut rest) {
        Ok(size) => size,
        Err(rule) => return Err(part.breaks(rule)),
    };
    let process = process_of(code)?;
    if !has_precision(process, size.precision) {
        return Err(part.breaks(Rule::Precision));
    }
    let components = take_components(alloc, process, size.count, rest)?;
    if !has_count(process, size.count) {
        return Err(part.breaks(Rule::FrameComponents));
    }
    if size.height == 0 {
        return Err(Stop::Unread("a number of lines that DNL gives"));
    }
    let (most_across, most_down) = greatest_factors(&components);
    Ok(Frame {
        process,
        precision: size.precision,
        height: u32::from(size.height),
        width: u32::from(size.width),
        most_across,
        most_down,
        components,
    })
}
