//! A scan, as it is read (T.81, B.2.3).
ghost use Rattle.std.specs.Prelude.{◌≡◌, ◌<◌, All, false, true};
ghost use Rattle.jpeg_bits.specs.BlockView.{pass_in};
ghost use Rattle.jpeg_bits.specs.Passes.{whole_pass};
ghost use Rattle.jpeg_bits.specs.declared.huffman.codes.HuffmanTableClass.TheVariants.{AC};
ghost use Rattle.jpeg_segments.specs.Scales.{is_scale};
ghost use Rattle.jpeg_meaning.specs.ScanSegments.{is_progressive};

use jpeg_bits::beyond::Beyond;
use jpeg_bits::blocks::{BlockCoding, Pass};
use jpeg_bits::huffman::HuffmanTable;
use jpeg_segments::parser::{CodingProcess, Component};
use std::marker::Model;

/// A component of a scan: its index in the frame, and the tables that its blocks are coded by.
#[derive(Clone, Copy)]
pub struct Coded<'a> {
    /// The component's index in the frame.
    pub index: usize,
    /// The component itself.
    pub component: &'a Component,
    /// The quantization table in zigzag order.
    pub quantization: &'a [u16; 64],
    /// The table of its DC coefficients.
    pub dc: &'a HuffmanTable,
    /// The table of its AC coefficients.
    pub ac: &'a HuffmanTable,
    /// The table of its AC coefficients is of that class.
    pub ghost class: { ac.now.class ≡ AC },
    /// The index is one of a frame's four components at most.
    pub ghost within: { index < 4 },
    /// The component is decoded at a scale.
    pub ghost scale: { is_scale component.now.dct_scale ≡ true },
}

/// The components of a scan, in the scan header's order: one to four.
#[derive(Drop)]
pub struct Codings<'a> {
    // the places from `count` on repeat the last
    components: [Coded<'a>; 4],
    count: usize,
}

impl<'a> Model for Codings<'a> {
    ghost use Rattle.std.specs.Prelude.{List, length, map, take, ◌≡◌, ◌≤◌};
    ghost use Rattle.jpeg_meaning.specs.ScanSegments.{Coding};

    ghost Value = { List Coding };

    ghost use Rattle.jpeg_decoder.specs.Steps.{coding_in};

    ghost view = { λ c. map coding_in (take c.count c.components) };

    ghost invariant = { λ c. (c.count ≤ 4) × (length c.components ≡ 4) };
}

impl<'a> Codings<'a> {
    ghost use Rattle.std.specs.Prelude.{◌≡◌, ◌≤◌, ◌<◌, ◌++◌, ◌∷◌, [], length, map};
    ghost use Rattle.jpeg_decoder.specs.Steps.{coding_in};

    /// Makes the only component of a scan.
    pub fn new(first: Coded<'a>) -> Codings<'a>
        ensures { result ≡ coding_in first.entry ∷ [] }
    {
        Codings {
            components: [first; 4],
            count: 1,
        }
    }

    /// Adds a component.
    pub fn push(&mut self, coded: Coded<'a>)
        requires { length self.old < 4 }
        ensures { self.new ≡ self.old ++ coding_in coded.entry ∷ [] }
    {
        self.components[self.count..].fill(coded);
        self.count += 1;
    }

    /// Returns them as a slice.
    pub fn as_slice(&self) -> &[Coded<'a>]
        ensures codings { map coding_in result.now ≡ self.now }
        ensures few { length result.now ≤ 4 }
    {
        &self.components[..self.count]
    }
}

/// A scan of blocks: what it codes, its restart intervals, its components, and how it is read.
#[derive(Drop)]
pub struct Scan<'a> {
    /// What it codes.
    pub pass: Pass,
    /// The number of MCUs of a restart interval; 0 for none.
    pub restart_interval: u16,
    /// Its components.
    pub components: Codings<'a>,
    /// Whether the AC coefficients of its blocks are kept.
    pub keeps_ac: bool,
    /// What follows the markers that end its data.
    pub beyond: Beyond,
}

impl<'a> Model for Scan<'a> {
    ghost use Rattle.jpeg_bits.specs.BlockView.{pass_in};
    ghost use Rattle.jpeg_decoder.specs.Scanning.{BlockScan, IsBlockScan, block_scan};

    ghost Value = { BlockScan };

    ghost view = { λ s. block_scan (pass_in s.pass) s.restart_interval s.components s.keeps_ac
        s.beyond };

    ghost invariant = { λ s. IsBlockScan
        (block_scan (pass_in s.pass) s.restart_interval s.components s.keeps_ac s.beyond) };
}

impl<'a> Scan<'a> {
    ghost use Rattle.std.specs.Prelude.{◌≡◌, ◌≤◌, ◌<◌, get_or, length, map, true};
    ghost use Rattle.jpeg_segments.specs.FrameView.{component_in};
    ghost use Rattle.jpeg_segments.specs.Scales.{is_scale};
    ghost use Rattle.jpeg_bits.specs.BlockView.{IsPass, pass_in};
    ghost use Rattle.jpeg_meaning.specs.Scans.{via_at};
    ghost use Rattle.jpeg_decoder.specs.Scanning.{IsBlockScan, scan_components, scan_vias, via_by};
    ghost use Rattle.jpeg_decoder.specs.Steps.{coding_in};

    /// Returns what it codes.
    pub fn pass(&self) -> Pass
        ensures pass { pass_in result ≡ self.now.pass }
        ensures legal { IsPass self.now.pass }
    {
        self.pass
    }

    /// Returns the number of MCUs of a restart interval; 0 for none.
    pub fn restart_interval(&self) -> u16
        ensures { result ≡ self.now.restart_interval }
    {
        self.restart_interval
    }

    /// Returns the component in a slot.
    pub fn component(&self, slot: usize) -> &Component
        requires { slot < length self.now.codings }
        ensures component { let component = component_in result.now in
            component ≡ get_or (scan_components self.now) slot component }
        ensures scale { is_scale result.now.dct_scale ≡ true }
    {
        let coded = &self.components.as_slice()[slot];
        coded.component
    }

    /// Returns its components, in the scan header's order.
    pub fn components(&self) -> &[Coded<'a>]
        ensures codings { map coding_in result.now ≡ self.now.codings }
        ensures few { length result.now ≤ 4 }
        ensures scan { IsBlockScan self.now }
    {
        self.components.as_slice()
    }

    /// Returns whether the AC coefficients of its blocks are kept.
    pub fn keeps_ac(&self) -> bool
        ensures keeps { result ≡ self.now.keeps_ac }
        ensures scan { IsBlockScan self.now }
    {
        self.keeps_ac
    }

    /// Returns what follows the markers that end its data: where nothing does, it is read up to its
    /// first fault.
    pub fn beyond(&self) -> Beyond
        ensures beyond { result ≡ self.now.beyond }
        ensures scan { IsBlockScan self.now }
    {
        self.beyond
    }

    /// Returns how the blocks of the component in a slot are coded.
    #[inline]
    pub fn coding(&self, slot: usize) -> BlockCoding<'_>
        requires { slot < length self.now.codings }
        ensures pass { pass_in result.pass ≡ self.now.pass }
        ensures slot { result.slot ≡ slot }
        ensures tables { via_at (scan_vias self.now) slot
            ≡ via_by slot result.dc_table.now result.ac_table.now }
        ensures keeps { result.keeps_ac ≡ self.now.keeps_ac }
    {
        let coded = &self.components.as_slice()[slot];
        BlockCoding {
            pass: self.pass,
            slot,
            dc_table: coded.dc,
            ac_table: coded.ac,
            keeps_ac: self.keeps_ac,
        }
    }
}

/// Returns whether a process is progressive, so that its scans refine what earlier ones gave.
pub fn is_progressive(process: CodingProcess) -> bool
    ensures { result ≡ is_progressive process }
{
    match process {
        CodingProcess::DctProgressive => true,
        CodingProcess::DctSequential | CodingProcess::Lossless => false,
    }
}

/// Returns whether a pass codes all coefficients of a block, and finishes them.
pub fn is_whole(pass: Pass) -> bool
    ensures { result ≡ true → pass_in pass ≡ whole_pass }
{
    pass.is_first && pass.ss == 0 && pass.se == 63 && pass.al == 0
}

/// Returns whether the AC coefficients of a scan's blocks are wanted. Those of a sequential frame
/// are not if each block gives one sample.
pub fn wants_ac(process: CodingProcess, pass: Pass, components: &Codings<'_>) -> bool
    ensures dc_alone { result ≡ false → (pass.is_first ≡ true)
        × All (λ c. c.component.scale ≡ 1) components.now }
    ensures progressive { is_progressive process ≡ true → result ≡ true }
{
    if is_progressive(process) || !pass.is_first {
        return true;
    }
    let codings = components.as_slice();
    for coded in codings {
        if coded.component.dct_scale != 1 {
            return true;
        }
    }
    false
}
