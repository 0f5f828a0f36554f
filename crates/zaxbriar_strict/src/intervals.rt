//! Restart intervals (T.81, B.2.1 and E.2.4).
ghost use Rattle.std.specs.Prelude.{◌≡◌, ◌≢◌, ◌≤◌, ◌-◌, ◌+◌, ◌%◌, false, IfOk, IsTrue};
ghost use Rattle.zaxbriar_strict.specs.Data.{data_at};
ghost use Rattle.zaxbriar_strict.specs.Loaded.{data_of};
ghost use Rattle.zaxbriar_strict.specs.Markers.{Restarts};

use crate::bits::Bits;
use crate::cursor::Cursor;
use crate::rule::{Rule, Stop};

/// The intervals of a scan's data.
#[derive(Drop)]
pub(crate) struct Intervals<'a> {
    /// The bits of the interval that is read.
    pub(crate) bits: Bits<'a>,
    /// How many MCUs an interval has, 0 where there is but one interval.
    every: u16,
    /// How many of them are to come.
    left: u16,
    /// The number of the next restart marker.
    next: u8,
}

impl<'a> Intervals<'a> {
    pub(crate) fn new(start: Cursor<'a>, every: u16) -> Intervals<'a>
        ensures bits { data_of result.bits ≡ data_at start.entry.rest.now }
        ensures every { result.every ≡ every }
        ensures left { result.left ≡ every }
        ensures next { result.next ≡ 0 }
    {
        Intervals {
            bits: Bits::new(start),
            every,
            left: every,
            next: 0,
        }
    }

    /// Returns whether the interval's MCUs were all counted, so that another one follows.
    pub(crate) fn is_over(&self) -> bool
        ensures over { IsTrue result → (self.now.every ≢ 0) × (self.now.left ≡ 0) }
        ensures room { result ≡ false → self.now.every ≢ 0 → 1 ≤ self.now.left }
    {
        self.every != 0 && self.left == 0
    }

    /// Counts an MCU.
    pub(crate) fn count(&mut self)
        ensures { self.new ≡ record self.old { left = self.old.left - 1 } }
    {
        self.left = self.left.saturating_sub(1);
    }

    /// Ends the interval, and begins the one after the restart marker that follows.
    pub(crate) fn restart(&mut self) -> Result<(), Stop>
        ensures restarts { IfOk result
            (λ _. Restarts self.old.next (data_of self.old.bits) (data_of self.new.bits)) }
        ensures every { IfOk result (λ _. self.new.every ≡ self.old.every) }
        ensures left { IfOk result (λ _. self.new.left ≡ self.old.every) }
        ensures next { IfOk result (λ _. self.new.next ≡ (self.old.next % 8 + 1) % 8) }
    {
        let place = self.bits.end()?;
        let mut rest = place;
        if rest.marker()? != 0xd0 + self.next % 8 {
            return Err(place.breaks(Rule::OtherRestart));
        }
        self.next = (self.next % 8 + 1) % 8;
        self.left = self.every;
        self.bits = Bits::new(rest);
        Ok(())
    }
}
