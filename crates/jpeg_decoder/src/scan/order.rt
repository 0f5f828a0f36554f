//! The order in which a scan codes its blocks (T.81, A.2.2 and A.2.3).
ghost use Rattle.std.specs.Prelude.{IfOk, OnOk, ◌++◌, length, map};
ghost use Rattle.std.specs.Prelude.{◌≡◌, ◌≤◌, ◌+◌};
ghost use Rattle.jpeg_segments.specs.FrameView.{component_in};
ghost use Rattle.jpeg_meaning.specs.ScanSegments.{components_of};
ghost use Rattle.jpeg_decoder.specs.Steps.{coding_in};
ghost use Rattle.jpeg_decoder.specs.Walk.{line_members, part_members, member_of, members_from};

use crate::scan::coded::{Coded, Scan};
use crate::scan::spots::{Member, Spots};
use jpeg_meaning::grids::grid_of;
use jpeg_segments::parser::{Component, FrameInfo};
use std::alloc::{AllocError, Global};

/// The order in which a scan codes its blocks: MCU by MCU. If a component is alone, each of its own
/// blocks is an MCU.
#[derive(Drop)]
pub struct ScanOrder {
    // the blocks of an MCU, and how many MCUs there are across and down
    members: Vec<Member>,
    wide: u16,
    high: u16,
    // the number of rows of them in a row of the frame's MCUs
    lines: u8,
    /// The number of rows of the frame's MCUs.
    pub rows: u16,
    /// The number of blocks of a restart interval; 0 for none.
    pub interval: u64,
}

/// Makes the member in row v and column h of a component's part of an MCU.
fn member(slot: u8, component: &Component, v: u8, h: u8) -> Member
    ensures { result ≡ member_of slot (component_in component.now) v h }
{
    let wide = u32::from(component.block_size.width);
    Member {
        slot,
        first: u32::from(v) * wide + u32::from(h),
        across: component.horizontal_sampling_factor,
        down: u32::from(component.vertical_sampling_factor) * wide,
    }
}

/// Adds the members of a line of blocks of a component.
#[tactic(auto, using(crate::proofs::Orders::OrderedWalks::line_rules))]
fn add_line(
    members: &mut Vec<Member>,
    slot: u8,
    component: &Component,
    v: u8,
) -> Result<(), AllocError>
    ensures items { OnOk result (members.new.items ≡ members.old.items
        ++ line_members slot (component_in component.now) v) }
    ensures few { OnOk result (length members.new.items ≤ length members.old.items + 255) }
{
    let across = component.horizontal_sampling_factor;
    let mut h = 0;
    while h < across {
        members.push(member(slot, component, v, h))?;
        h += 1;
    }
    Ok(())
}

/// Adds the members of a component.
#[tactic(auto, using(crate::proofs::Orders::OrderedWalks::part_rules))]
fn add_part(members: &mut Vec<Member>, slot: u8, component: &Component) -> Result<(), AllocError>
    ensures items { OnOk result (members.new.items ≡ members.old.items
        ++ part_members slot (component_in component.now)) }
    ensures few { OnOk result (length members.new.items ≤ length members.old.items + 65025) }
{
    let down = component.vertical_sampling_factor;
    let mut v = 0;
    while v < down {
        add_line(members, slot, component, v)?;
        v += 1;
    }
    Ok(())
}

/// Collects the members of some components.
#[tactic(auto, using(crate::proofs::Orders::OrderedWalks::slot_rules))]
fn members_of(alloc: Global, components: &[Coded<'_>]) -> Result<Vec<Member>, AllocError>
    requires { length components.now ≤ 4 }
    ensures items { let codings = map coding_in components.now in
        IfOk result (λ m. m.items ≡ members_from 0 (components_of codings)) }
    ensures few { IfOk result (λ m. length m.items ≤ 260100) }
{
    let mut members = Vec::new(alloc);
    let mut slot = 0u8;
    while usize::from(slot) < components.len() {
        add_part(&mut members, slot, components[usize::from(slot)].component)?;
        slot += 1;
    }
    Ok(members)
}

impl ScanOrder {
    ghost use Rattle.std.specs.Prelude.{IfOk, length, min, ◌≡◌, ◌<◌, ◌≤◌, ◌-◌, ◌*◌};
    ghost use Rattle.std.specs.List.{AllByRecursion};
    ghost use Rattle.jpeg_segments.specs.FrameView.{frame_in};
    ghost use Rattle.jpeg_meaning.specs.InTurn.{Fits};
    ghost use Rattle.jpeg_decoder.specs.Scanning.{scan_components};
    ghost use Rattle.jpeg_decoder.specs.Walk.{IsOrderOf, walk_of, walk_of_row};

    /// Makes the order of the blocks of several components.
    fn several(alloc: Global, scan: &Scan<'_>, frame: &FrameInfo) -> Result<ScanOrder, AllocError>
        requires several { 1 < length scan.now.codings }
        requires fits { AllByRecursion (Fits (frame_in frame.now)) (scan_components scan.now) }
        ensures { IfOk result
            (IsOrderOf (frame_in frame.now) (scan_components scan.now) scan.now.restart_interval) }
    {
        let members = members_of(alloc, scan.components())?;
        let interval = u64::from(scan.restart_interval()) * members.len() as u64;
        Ok(ScanOrder {
            members,
            wide: frame.mcu_size.width,
            high: frame.mcu_size.height,
            lines: 1,
            rows: frame.mcu_size.height,
            interval,
        })
    }

    /// Makes the order of the blocks of a component that is alone.
    fn alone(alloc: Global, scan: &Scan<'_>, frame: &FrameInfo) -> Result<ScanOrder, AllocError>
        requires one { length scan.now.codings ≡ 1 }
        requires fits { AllByRecursion (Fits (frame_in frame.now)) (scan_components scan.now) }
        ensures { IfOk result
            (IsOrderOf (frame_in frame.now) (scan_components scan.now) scan.now.restart_interval) }
    {
        let component = scan.component(0);
        let grid = grid_of(component);
        let mut members = Vec::new(alloc);
        members.push(Member {
            slot: 0,
            first: 0,
            across: 1,
            down: u32::from(grid.wide),
        })?;
        Ok(ScanOrder {
            members,
            wide: grid.own_wide,
            high: grid.own_high,
            lines: component.vertical_sampling_factor,
            rows: frame.mcu_size.height,
            interval: u64::from(scan.restart_interval()),
        })
    }

    /// Makes the order of the blocks of a scan of a frame. The error is out of memory.
    pub fn new(alloc: Global, scan: &Scan<'_>, frame: &FrameInfo) -> Result<ScanOrder, AllocError>
        requires some { 1 ≤ length scan.now.codings }
        requires fits { AllByRecursion (Fits (frame_in frame.now)) (scan_components scan.now) }
        ensures { IfOk result
            (IsOrderOf (frame_in frame.now) (scan_components scan.now) scan.now.restart_interval) }
    {
        if scan.components().len() > 1 {
            return ScanOrder::several(alloc, scan, frame);
        }
        ScanOrder::alone(alloc, scan, frame)
    }

    /// Begins a walk over the blocks of the scan.
    pub fn spots(&self) -> Spots<'_>
        requires { 0 < length self.now.members.items }
        ensures { result ≡ walk_of self.now }
    {
        Spots::new(&self.members, self.wide, self.high)
    }

    /// Begins a walk over the blocks of the scan in a row of the frame's MCUs, by their indices in
    /// that row.
    pub fn row(&self, row: u16) -> Spots<'_>
        requires { 0 < length self.now.members.items }
        ensures { result ≡ walk_of_row self.now row }
    {
        let above = u32::from(row) * u32::from(self.lines);
        let left = u32::from(self.high).saturating_sub(above);
        let high = left.min(u32::from(self.lines)) as u16;
        Spots::new(&self.members, self.wide, high)
    }
}
