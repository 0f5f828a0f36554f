//! The tables that are installed, and the segments that install them (T.81, B.2.4).
ghost use Rattle.std.specs.Prelude.{◌≡◌, ◌+◌, ◌*◌, ◌≤◌, IfOk, None, Some, option_map, replicate};
ghost use Rattle.std.specs.Prelude.{slice_index_or, slice_set};
ghost use Rattle.std.specs.Option.{option_copied};
ghost use Rattle.jpeg_segments.specs.HuffmanTables.{class_of, greatest_destination, no_tables};
ghost use Rattle.jpeg_segments.specs.HuffmanTables.{with_table};
ghost use Rattle.jpeg_segments.specs.WrittenSegments.{u16_bytes};
ghost use Rattle.zaxbriar_strict.specs.Heads.{is_baseline_of};
ghost use Rattle.zaxbriar_strict.specs.Installed.{codes_of, InstallsCodes, InstallsSteps};
ghost use Rattle.zaxbriar_strict.specs.Installed.{steps_of, tables_of_class};
ghost use Rattle.zaxbriar_strict.specs.Tables.{codes_in, defined_by};

use crate::cursor::Cursor;
use crate::frame::{Frame, Process};
use crate::huffman::HuffmanTable;
use crate::quantization::{self, Steps};
use crate::rule::{Rule, Stop};
use std::alloc::Global;

/// The tables that are installed, and the restart interval.
#[derive(Drop)]
pub(crate) struct Tables {
    /// By destination.
    steps: [Option<Steps>; 4],
    /// By class and destination: 4 times the class, and the destination.
    codes: Vec<Option<HuffmanTable>>,
    /// How many MCUs an interval has, 0 where there are none.
    pub(crate) interval: u16,
}

impl Tables {
    pub(crate) fn new(alloc: Global) -> Result<Tables, Stop>
        ensures steps { IfOk result (λ t. steps_of t ≡ replicate 4 None) }
        ensures codes { IfOk result (λ t. codes_of t ≡ no_tables) }
        ensures interval { IfOk result (λ t. t.interval ≡ 0) }
    {
        Ok(Tables {
            steps: [None; 4],
            codes: vec![in alloc; None; 8]?,
            interval: 0,
        })
    }

    /// Returns the quantization table of a destination.
    pub(crate) fn steps(&self, destination: u8) -> Option<&Steps>
        ensures { option_map (λ s. s.steps) (option_copied result)
            ≡ slice_index_or (steps_of self.now) destination None }
    {
        match self.steps.get(usize::from(destination)) {
            Some(Some(steps)) => Some(steps),
            _ => None,
        }
    }

    /// Returns the Huffman table of a class and a destination.
    pub(crate) fn codes(&self, class: u8, destination: u8) -> Option<&HuffmanTable>
        ensures { class ≤ 1 → destination ≤ 3
            → option_map (codes_in (class_of class)) (option_copied result)
            ≡ slice_index_or (tables_of_class (class_of class) (codes_of self.now)) destination
            None }
    {
        match self.codes.get(place_of(class, destination)) {
            Some(Some(table)) => Some(table),
            _ => None,
        }
    }

    /// Puts a quantization table in the place of the one that its destination has.
    fn put_steps(&mut self, destination: u8, table: Steps)
        requires { destination ≤ 3 }
        ensures steps { steps_of self.new
            ≡ slice_set (steps_of self.old) destination (Some table.steps) }
        ensures codes { codes_of self.new ≡ codes_of self.old }
        ensures interval { self.new.interval ≡ self.old.interval }
    {
        self.steps[usize::from(destination)] = Some(table);
    }

    /// Puts a Huffman table in the place of the one that its class and its destination have.
    fn put_codes(&mut self, class: u8, destination: u8, table: HuffmanTable)
        ensures codes { class ≤ 1 → destination ≤ 3 → codes_of self.new
            ≡ with_table (codes_of self.old) (defined_by class destination table) }
        ensures steps { steps_of self.new ≡ steps_of self.old }
        ensures interval { self.new.interval ≡ self.old.interval }
    {
        if let Some(place) = self.codes.get_mut(place_of(class, destination)) {
            *place = Some(table);
        }
    }

    /// Reads a DQT segment (B.2.4.1).
    pub(crate) fn read_steps(&mut self, part: Cursor<'_>, frame: Option<&Frame>) -> Result<(), Stop>
        ensures { IfOk result
            (λ _. InstallsSteps part.entry.rest.now self.old self.new) }
    {
        if part.rest.is_empty() {
            return Err(part.breaks(Rule::NoQuantization));
        }
        let mut rest = part;
        while !rest.rest.is_empty() {
            let start = rest;
            let (destination, table) = quantization::take_table(&mut rest)?;
            self.put_steps(destination, table);
            self.check_steps(start, frame)?;
        }
        Ok(())
    }

    /// Reads a DHT segment (B.2.4.2).
    pub(crate) fn read_codes(&mut self, part: Cursor<'_>, frame: Option<&Frame>) -> Result<(), Stop>
        ensures { IfOk result (λ _. InstallsCodes (option_copied frame.entry)
            part.entry.rest.now self.old self.new) }
    {
        if part.rest.is_empty() {
            return Err(part.breaks(Rule::NoCodes));
        }
        let mut rest = part;
        while !rest.rest.is_empty() {
            let start = rest;
            let (class, destination, table) = HuffmanTable::read(&mut rest)?;
            if let Err(rule) = check_place(frame, class, destination) {
                return Err(start.breaks(rule));
            }
            self.put_codes(class, destination, table);
        }
        Ok(())
    }

    /// Reads a DRI segment (B.2.4.4).
    pub(crate) fn read_interval(&mut self, part: Cursor<'_>) -> Result<(), Stop>
        ensures are { IfOk result (λ _. part.entry.rest.now ≡ u16_bytes self.new.interval) }
        ensures steps { steps_of self.new ≡ steps_of self.old }
        ensures codes { codes_of self.new ≡ codes_of self.old }
    {
        let [high, low] = part.rest else {
            return Err(part.breaks(Rule::Interval));
        };
        self.interval = 256 * u16::from(*high) + u16::from(*low);
        Ok(())
    }

    /// Checks that samples of 8 bits have no quantization table of 16 (B.2.4.1).
    pub(crate) fn check_steps(&self, place: Cursor<'_>, frame: Option<&Frame>) -> Result<(), Stop> {
        let Some(frame) = frame else {
            return Ok(());
        };
        if frame.process == Process::Lossless || frame.is_deep() {
            return Ok(());
        }
        let is_wide = |steps: &Option<Steps>| match steps {
            Some(steps) => steps.is_wide,
            None => false,
        };
        if self.steps.iter().any(is_wide) {
            return Err(place.breaks(Rule::WideStep));
        }
        Ok(())
    }

    /// Checks that the frame's process has each Huffman table (Table B.5).
    pub(crate) fn check_codes(&self, place: Cursor<'_>, frame: Option<&Frame>) -> Result<(), Stop> {
        for class in 0..2u8 {
            for destination in 0..4u8 {
                if self.codes(class, destination).is_none() {
                    continue;
                }
                if let Err(rule) = check_place(frame, class, destination) {
                    return Err(place.breaks(rule));
                }
            }
        }
        Ok(())
    }
}

/// Returns where the Huffman table of a class and a destination stands.
fn place_of(class: u8, destination: u8) -> usize
    ensures { result ≡ 4 * class + destination }
{
    4 * usize::from(class) + usize::from(destination)
}

/// Checks that the frame's process has a Huffman table of a class and a destination (Table B.5).
/// Where there is no frame yet, each may be defined.
fn check_place(frame: Option<&Frame>, class: u8, destination: u8) -> Result<(), Rule>
    ensures { IfOk result (λ _. destination ≤ 3 → destination
        ≤ greatest_destination (option_map is_baseline_of (option_copied frame.entry))) }
{
    let Some(frame) = frame else {
        return Ok(());
    };
    match frame.process {
        Process::Baseline if destination > 1 => Err(Rule::BaselineTable),
        Process::Lossless if class == 1 => Err(Rule::LosslessTable),
        _ => Ok(()),
    }
}
