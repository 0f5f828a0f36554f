//! Scan headers (T.81, B.2.3 and Table B.3), and which scans may follow (G.1.1.1).
ghost use Rattle.std.specs.Prelude.{◌≡◌, ◌≢◌, ◌≤◌, ◌++◌, ◌==◌, ◌||◌, IfOk, IsTrue, false, flat_map};
ghost use Rattle.std.specs.Prelude.{◌+◌, ◌-◌, ◌^◌, None, get_or, length, min, nat_le, position};
ghost use Rattle.std.specs.Prelude.{take, true};
ghost use Rattle.jpeg_segments.specs.ScanHeader.{blocks_by};
ghost use Rattle.jpeg_segments.specs.ScanHeaders.{choice_bytes};
ghost use Rattle.zaxbriar_strict.specs.Changes.{kept_of};
ghost use Rattle.zaxbriar_strict.specs.Heads.{factors_of, IsMade, members_of, number_of};
ghost use Rattle.zaxbriar_strict.specs.Heads.{ReadsHeader, SendsPart, is_progressive_process};
ghost use Rattle.zaxbriar_strict.specs.Heads.{pass_in, written_frame};
ghost use Rattle.zaxbriar_strict.specs.Members.{AreMembers, choices_of, HaveTables, most_tables};
ghost use Rattle.zaxbriar_strict.specs.Members.{NotesScan, Predicts, SendsAll, TakesMember};
ghost use Rattle.zaxbriar_strict.specs.Members.{TakesScan};
ghost use Rattle.zaxbriar_strict.specs.Progress.{NotesBand, NotesPass, level_before};

use crate::cursor::Cursor;
use crate::frame::{Component, Frame, Process};
use crate::rule::{Rule, Stop};

/// A component of a scan: its place in the frame, and the destinations of its Huffman tables.
#[derive(Clone, Copy)]
pub(crate) struct Member {
    pub(crate) component: usize,
    pub(crate) dc: u8,
    pub(crate) ac: u8,
}

/// A scan header.
#[derive(Clone, Copy)]
pub(crate) struct Scan {
    members: [Member; 4],
    pub(crate) count: usize,
    /// The first coefficient of the band, or the predictor of a lossless scan.
    pub(crate) first: u8,
    pub(crate) last: u8,
    /// The lowest bit that was sent before, 0 for none.
    pub(crate) high: u8,
    /// The lowest bit that is sent, or the point transform.
    pub(crate) low: u8,
}

impl Scan {
    ghost use Rattle.std.specs.Prelude.{◌≡◌, ◌==◌, if◌then◌else◌};
    ghost use Rattle.zaxbriar_strict.specs.Heads.{IsMade, members_of, written_frame};
    ghost use Rattle.zaxbriar_strict.specs.ScanData.{HasMembers, units_high, units_wide};
    ghost use Rattle.zaxbriar_strict.specs.ScanSamples.{samples_high, samples_wide};

    /// Returns the components of the scan.
    pub(crate) fn members(&self) -> &[Member]
        ensures { result.now ≡ members_of self.now }
    {
        match self.members.get(..self.count) {
            Some(members) => members,
            None => self.members.as_slice(),
        }
    }

    /// Returns how many columns and rows of MCUs the scan has, of this many samples each per
    /// sampling factor (A.2.2 and A.2.3).
    pub(crate) fn units(&self, frame: &Frame, side: u32) -> (u32, u32)
        ensures as_blocks { side ≡ 8 → IsMade frame.now → HasMembers frame.now self.now
            → (result.0 ≡ units_wide (written_frame frame.now) (members_of self.now))
            × (result.1 ≡ units_high (written_frame frame.now) (members_of self.now)) }
        ensures as_samples { side ≡ 1 → IsMade frame.now → HasMembers frame.now self.now
            → (result.0 ≡ samples_wide (written_frame frame.now) (members_of self.now))
            × (result.1 ≡ samples_high (written_frame frame.now) (members_of self.now)) }
    {
        match self.members() {
            [member] => match frame.components.get(member.component) {
                Some(component) => frame.own_units(component, side),
                None => (0, 0),
            },
            _ => frame.units(side),
        }
    }

    /// Returns how many blocks or samples of a component stand in an MCU, across and down.
    pub(crate) fn unit_size(&self, component: &Component) -> (u32, u32)
        ensures across { result.0 ≡ (if self.now.count == 1 then 1 else component.now.across) }
        ensures down { result.1 ≡ (if self.now.count == 1 then 1 else component.now.down) }
    {
        if self.count == 1 {
            (1, 1)
        } else {
            (u32::from(component.across), u32::from(component.down))
        }
    }

    /// Checks the destinations of the Huffman tables (Table B.3).
    fn check_selectors(&self, process: Process) -> Result<(), Rule>
        ensures { IfOk result (λ _. HaveTables (most_tables process) (members_of self.now)) }
    {
        if !have_tables(self.members(), most_tables(process)) {
            return Err(Rule::EntropySelector);
        }
        if process == Process::Lossless && self.members().iter().any(|member| member.ac != 0) {
            return Err(Rule::LosslessSelector);
        }
        Ok(())
    }

    /// Checks the band and the approximation of a sequential frame (Table B.3).
    fn check_sequential_band(&self) -> Result<(), Rule>
        ensures { IfOk result (λ _. SendsAll self.now) }
    {
        if self.first != 0 || self.last != 63 || self.high != 0 || self.low != 0 {
            return Err(Rule::SequentialBand);
        }
        Ok(())
    }

    /// Checks the predictor and the point transform of a lossless frame (Table B.3).
    fn check_prediction(&self, precision: u8) -> Result<(), Rule>
        ensures { IfOk result (λ _. Predicts precision self.now) }
    {
        if self.first > 7 || self.last != 0 || self.high != 0 || self.low >= precision {
            return Err(Rule::PredictorOrTransform);
        }
        if self.first == 0 {
            return Err(Rule::NoPrediction);
        }
        Ok(())
    }

    /// Checks the band and the approximation of a frame that is not progressive (Table B.3).
    fn check_band(&self, process: Process, precision: u8) -> Result<(), Rule>
        ensures { IfOk result (λ _. (number_of process ≤ 1 → SendsAll self.now)
            × (number_of process ≡ 3 → Predicts precision self.now)) }
    {
        match process {
            Process::Baseline | Process::Extended => self.check_sequential_band(),
            Process::Progressive => Ok(()),
            Process::Lossless => self.check_prediction(precision),
        }
    }

    /// Checks the band and the approximation of a scan of a progressive frame by themselves
    /// (G.1.1.1).
    fn check_progressive_band(&self) -> Result<(), Rule>
        ensures { IfOk result (λ _. SendsPart self.now) }
    {
        if self.first > self.last || self.last > 63 || (self.first == 0 && self.last != 0) {
            return Err(Rule::Band);
        }
        if self.first != 0 && self.count > 1 {
            return Err(Rule::SharedBand);
        }
        let is_next = self.high == 0 || u32::from(self.high) == u32::from(self.low) + 1;
        if self.high > 13 || self.low > 13 || !is_next {
            return Err(Rule::Approximation);
        }
        Ok(())
    }

    /// Checks the band and the approximation of a scan, if its frame is progressive.
    fn check_part(&self, process: Process) -> Result<(), Rule>
        ensures { IfOk result
            (λ _. is_progressive_process process ≡ true → SendsPart self.now) }
    {
        match process {
            Process::Progressive => self.check_progressive_band(),
            Process::Baseline | Process::Extended | Process::Lossless => Ok(()),
        }
    }

    /// Notes what the scan sends of a component of a progressive frame, and checks that it may come
    /// now.
    fn note_progress(&self, component: &mut Component) -> Result<(), Rule>
        ensures factors { IfOk result (λ _. factors_of component.new ≡ factors_of component.old) }
        ensures sent { IfOk result (λ _. component.new.has_scan ≡ true) }
        ensures kept { kept_of component.new ≡ kept_of component.old }
        ensures noted { IfOk result (λ _. SendsPart self.now
            → NotesPass (pass_in self.now) component.old.lowest component.new.lowest) }
    {
        if self.first != 0 && component.lowest[0].is_none() {
            return Err(Rule::BandBeforeDc);
        }
        let before = level_before(self.high);
        note_band(
            &mut component.lowest,
            (self.first, self.last),
            before,
            self.low,
        )?;
        component.has_scan = true;
        Ok(())
    }

    /// Notes that the scan sends a component, and checks that it may come now.
    fn note_component(&self, process: Process, component: &mut Component) -> Result<(), Rule>
        ensures factors { IfOk result (λ _. factors_of component.new ≡ factors_of component.old) }
        ensures unsent { IfOk result
            (λ _. number_of process ≢ 2 → component.old.has_scan ≡ false) }
        ensures sent { IfOk result (λ _. component.new.has_scan ≡ true) }
        ensures kept { kept_of component.new ≡ kept_of component.old }
        ensures noted { IfOk result (λ _. is_progressive_process process ≡ true
            → SendsPart self.now
            → NotesPass (pass_in self.now) component.old.lowest component.new.lowest) }
    {
        if process == Process::Progressive {
            return self.note_progress(component);
        }
        if component.has_scan {
            return Err(Rule::SecondScan);
        }
        component.has_scan = true;
        Ok(())
    }

    /// Checks that the scan may come now, and notes it in the frame.
    fn note(&self, frame: &mut Frame) -> Result<(), Rule>
        ensures { IfOk result (λ _. NotesScan self.now frame.old frame.new) }
    {
        let process = frame.process;
        self.check_selectors(process)?;
        self.check_part(process)?;
        for member in self.members().iter() {
            let Some(component) = frame.components.get_mut(member.component) else {
                return Err(Rule::UnknownComponent);
            };
            self.note_component(process, component)?;
        }
        self.check_band(process, frame.precision)
    }
}

/// Returns the lowest bit that was sent of coefficients before a scan (G.1.1.1: Ah).
fn level_before(high: u8) -> Option<u8>
    ensures { result ≡ level_before high }
{
    if high == 0 { None } else { Some(high) }
}

/// Notes that the coefficients of a band have this lowest bit, where it was that one before.
fn note_band(
    lowest: &mut [Option<u8>; 64],
    band: (u8, u8),
    before: Option<u8>,
    low: u8,
) -> Result<(), Rule>
    ensures { IfOk result (λ _. band.0 ≤ band.1
        → NotesBand band.0 (band.1 + 1) before low lowest.old lowest.new) }
{
    for place in usize::from(band.0)..usize::from(band.1) + 1 {
        let Some(level) = lowest.get(place) else {
            return Err(Rule::Band);
        };
        if *level != before {
            return Err(Rule::BandOrder);
        }
        lowest[place] = Some(low);
    }
    Ok(())
}

/// Returns the greatest destination of Huffman tables (Table B.3).
fn most_tables(process: Process) -> u8
    ensures { result ≡ most_tables process }
{
    match process {
        Process::Baseline => 1,
        Process::Extended | Process::Progressive | Process::Lossless => 3,
    }
}

/// Returns whether the destinations of tables are at most this.
fn have_tables(members: &[Member], most: u8) -> bool
    ensures { IsTrue result → HaveTables most members.now }
{
    for member in members {
        if member.dc > most || member.ac > most {
            return false;
        }
    }
    true
}

/// Returns the index of the component with this identifier.
fn position_of(components: &[Component], identifier: u8) -> Option<usize>
    ensures { result ≡ position (λ c. c.identifier == identifier) components.now }
{
    components
        .iter()
        .position(|component| component.identifier == identifier)
}

/// Takes a component's part of a header.
fn take_member(frame: &Frame, part: &mut Cursor<'_>) -> Result<Member, Rule>
    ensures { IfOk result (λ m. TakesMember frame.now m part.old.rest.now part.new.rest.now) }
{
    let [identifier, tables, rest @ ..] = part.rest else {
        return Err(Rule::ScanHeader);
    };
    let (identifier, tables) = (*identifier, *tables);
    part.rest = rest;
    match position_of(&frame.components, identifier) {
        Some(component) => Ok(Member {
            component,
            dc: tables / 16,
            ac: tables % 16,
        }),
        None => Err(Rule::UnknownComponent),
    }
}

/// Returns how many blocks the component at an index has in an MCU of several components (A.2.3).
fn blocks_at(frame: &Frame, index: usize) -> u32
    ensures { result ≡ min (blocks_by (written_frame frame.now).components index) (2 ^ 32 - 1) }
{
    match frame.components.get(index) {
        Some(component) => { u32::from(component.across).saturating_mul(u32::from(component.down)) }
        None => 0,
    }
}

/// Returns whether an MCU may have this many blocks (B.2.3).
fn is_mcu(count: u8, blocks: u32) -> bool
    ensures { result ≡ (nat_le count 1 || nat_le blocks 10) }
{
    count <= 1 || blocks <= 10
}

/// Takes the components of a header, of which there are 1 to 4, and checks the header's length,
/// their order and how many blocks an MCU has.
fn take_members(frame: &Frame, count: u8, part: &mut Cursor<'_>) -> Result<[Member; 4], Rule>
    ensures some { IfOk result (λ ms. 1 ≤ count) }
    ensures most { IfOk result (λ ms. count ≤ 4) }
    ensures sized { IfOk result (λ ms. length ms ≡ 4) }
    ensures bytes { IfOk result (λ ms. part.old.rest.now
        ≡ flat_map choice_bytes (choices_of frame.now (take count ms)) ++ part.new.rest.now) }
    ensures members { IfOk result (λ ms. AreMembers frame.now (take count ms)) }
{
    if count < 1 || count > 4 || part.rest.len() != 3 + 2 * usize::from(count) {
        return Err(Rule::ScanHeader);
    }
    let mut members = [Member {
        component: 0,
        dc: 0,
        ac: 0,
    }; 4];
    let mut least = 0usize;
    let mut total = 0u32;
    for place in 0..usize::from(count) {
        let member = take_member(frame, part)?;
        if member.component < least {
            return Err(Rule::ComponentOrder);
        }
        least = member.component + 1;
        total = total.saturating_add(blocks_at(frame, member.component));
        members[place] = member;
    }
    if !is_mcu(count, total) {
        return Err(Rule::UnitSize);
    }
    Ok(members)
}

/// Takes a header.
fn take_scan(frame: &Frame, part: Cursor<'_>) -> Result<Scan, Rule>
    ensures { IfOk result (λ s. TakesScan frame.now s part.entry.rest.now) }
{
    let mut rest = part;
    let Some(count) = rest.byte() else {
        return Err(Rule::ScanHeader);
    };
    let members = take_members(frame, count, &mut rest)?;
    let [first, last, approximation] = rest.rest else {
        return Err(Rule::ScanHeader);
    };
    Ok(Scan {
        members,
        count: usize::from(count),
        first: *first,
        last: *last,
        high: *approximation / 16,
        low: *approximation % 16,
    })
}

/// Reads a scan header (B.2.3), checks that the scan may come now, and notes it in the frame.
pub(crate) fn read_header(frame: &mut Frame, part: Cursor<'_>) -> Result<Scan, Stop>
    ensures { IfOk result
        (λ s. IsMade frame.old → ReadsHeader part.entry.rest.now s frame.old frame.new) }
{
    let scan = match take_scan(frame, part) {
        Ok(scan) => scan,
        Err(rule) => return Err(part.breaks(rule)),
    };
    match scan.note(frame) {
        Ok(()) => Ok(scan),
        Err(rule) => Err(part.breaks(rule)),
    }
}
