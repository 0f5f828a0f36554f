//! The positions of a raster, row by row.
ghost use Rattle.std.specs.Prelude.{◌≡◌, ◌+◌, ◌≤◌};

use std::marker::Model;

/// The positions of a raster that are still to come, from left to right and row by row.
#[derive(Drop)]
pub struct Raster {
    wide: u16,
    // the current row, its next column, and how many columns are left
    row: u16,
    column: u16,
    columns: u16,
    // the row below it, and how many rows are left
    below: u16,
    rows: u16,
}

impl Model for Raster {
    ghost use Rattle.std.specs.Prelude.{ℕ, List, ◌+◌, ◌≤◌};
    ghost use Rattle.jpeg_decoder.specs.Walk.{raster_left};

    ghost Value = { List (ℕ × ℕ) };

    ghost view = { λ r. raster_left r.wide r.row r.column r.columns r.below r.rows };

    ghost invariant = { λ r. (r.column + r.columns ≤ 65535) × (r.below + r.rows ≤ 65535) };
}

impl Raster {
    ghost use Rattle.std.specs.Prelude.{◌≡◌, ◌<◌, [], length, true, false};
    ghost use Rattle.jpeg_decoder.specs.Walk.{raster, NextPosition};

    /// Makes a raster that is `wide` positions across and `high` down.
    pub fn new(wide: u16, high: u16) -> Raster
        ensures { result ≡ raster wide high }
    {
        Raster {
            wide,
            row: 0,
            column: 0,
            columns: 0,
            below: 0,
            rows: high,
        }
    }

    /// Returns whether no position is left.
    pub fn is_done(&self) -> bool
        ensures done { result ≡ true → self.now ≡ [] }
        ensures more { result ≡ false → 0 < length self.now }
    {
        self.columns == 0 && (self.rows == 0 || self.wide == 0)
    }

    /// Takes the next position: its row and its column. Not an `Iterator`, so that the contract can
    /// say which comes next.
    #[tactic(auto, using(crate::proofs::Orders::Walks::raster_rules))]
    #[inline]
    pub fn next(&mut self) -> Option<(u16, u16)>
        ensures { NextPosition self.old result self.new }
    {
        if self.columns == 0 {
            if self.rows == 0 || self.wide == 0 {
                return None;
            }
            self.row = self.below;
            self.below += 1;
            self.rows -= 1;
            self.column = 0;
            self.columns = self.wide;
        }
        let column = self.column;
        self.column += 1;
        self.columns -= 1;
        Some((self.row, column))
    }
}
