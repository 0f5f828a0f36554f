//! The blocks of a scan, one after the other (T.81, A.2).
ghost use Rattle.std.specs.Prelude.{◌≡◌, ◌+◌, ◌*◌, ◌≤◌, ◌<◌};

use crate::scan::raster::Raster;
use std::marker::Model;

/// A block of a scan: its component's slot in the scan, and its index among that component's
/// blocks.
#[derive(Clone, Copy, Debug, PartialEq)]
pub struct Spot {
    /// Its component's slot in the scan.
    pub slot: usize,
    /// Its index among its component's blocks, in raster order.
    pub index: usize,
}

/// A block of each MCU of a scan.
#[derive(Clone, Copy)]
pub struct Member {
    /// Its component's slot in the scan.
    pub slot: u8,
    /// Its index in the first MCU.
    pub first: u32,
    /// How much greater its index is in the MCU to the right.
    pub across: u8,
    /// How much greater its index is in the MCU below.
    pub down: u32,
}

impl Member {
    ghost use Rattle.std.specs.Prelude.{◌≡◌, ◌+◌, ◌*◌};

    /// Computes its index in the MCU in a row and a column.
    #[inline]
    fn index(&self, row: u16, column: u16) -> usize
        ensures { result ≡ row * self.now.down + column * self.now.across + self.now.first }
    {
        let down = usize::from(row) * self.down as usize;
        let across = usize::from(column) * usize::from(self.across);
        down + across + self.first as usize
    }
}

/// The blocks of a scan that are still to come, MCU by MCU.
#[derive(Drop)]
pub struct Spots<'a> {
    members: &'a [Member],
    // the MCUs to come, the position of the current one, and the number of its next member
    mcus: Raster,
    row: u16,
    column: u16,
    number: usize,
}

impl<'a> Model for Spots<'a> {
    ghost use Rattle.std.specs.Prelude.{List, length, ◌≤◌, ◌<◌};
    ghost use Rattle.jpeg_meaning.specs.Order as order;
    ghost use Rattle.jpeg_decoder.specs.Walk.{spots_left};

    ghost Value = { List order.Spot };

    ghost view = { λ s. spots_left s.members.now s.number (s.row, s.column) s.mcus };

    ghost invariant = { λ s. (s.number ≤ length s.members.now) × (0 < length s.members.now) };
}

impl<'a> Spots<'a> {
    ghost use Rattle.std.specs.Prelude.{◌≡◌, ◌<◌, [], drop, length, true, false};
    ghost use Rattle.jpeg_decoder.specs.Walk.{raster, spots_at, NextSpot};

    /// Makes the blocks of the MCUs of these members, `wide` MCUs across and `high` down.
    pub fn new(members: &'a [Member], wide: u16, high: u16) -> Spots<'a>
        requires { 0 < length members.now }
        ensures { result ≡ spots_at members.now (raster wide high) }
    {
        let number = members.len();
        Spots {
            members,
            mcus: Raster::new(wide, high),
            row: 0,
            column: 0,
            number,
        }
    }

    /// Returns whether no block is left.
    pub fn is_done(&self) -> bool
        ensures done { result ≡ true → self.now ≡ [] }
        ensures more { result ≡ false → 0 < length self.now }
    {
        self.number == self.members.len() && self.mcus.is_done()
    }

    /// Takes the next block. Not an `Iterator`, so that the contract can say which comes next.
    #[tactic(auto, using(crate::proofs::Orders::Walks::spots_rules))]
    #[inline]
    pub fn next(&mut self) -> Option<Spot>
        ensures { NextSpot self.old result self.new }
    {
        if self.number == self.members.len() {
            let (row, column) = self.mcus.next()?;
            self.row = row;
            self.column = column;
            self.number = 0;
        }
        let member = self.members[self.number];
        self.number += 1;
        Some(Spot {
            slot: usize::from(member.slot),
            index: member.index(self.row, self.column),
        })
    }

    /// Returns the next block, and doesn't take it.
    #[tactic(auto, using(crate::proofs::Orders::Walks::spots_rules))]
    pub fn first(&mut self) -> Option<Spot>
        ensures first { NextSpot self.old result (drop 1 self.old) }
        ensures same { self.new ≡ self.old }
    {
        if self.number == self.members.len() {
            let (row, column) = self.mcus.next()?;
            self.row = row;
            self.column = column;
            self.number = 0;
        }
        let member = self.members[self.number];
        Some(Spot {
            slot: usize::from(member.slot),
            index: member.index(self.row, self.column),
        })
    }
}
