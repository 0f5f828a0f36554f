//! Entropy-coded bits (T.81, B.1.1.5 and F.2.2).
ghost use Rattle.std.specs.Prelude.{◌≡◌, ◌≤◌, ◌<◌, ◌^◌};

pub(crate) mod ahead;
pub(crate) mod bits;
pub mod codes;
mod default_tables;
mod packed_codes;
mod pairs;

use crate::beyond::Beyond;
use crate::error::{Error, Result, take_refusal};
use crate::huffman::ahead::{BufferedBits, marker_of_end};
use crate::huffman::bits::extend;
pub use crate::huffman::codes::{HuffmanTable, HuffmanTableClass};
pub use crate::huffman::default_tables::fill_default_mjpeg_tables;
use crate::marker::Marker;
use crate::source::Source;
use std::alloc::Global;
use std::io::Read;
use std::marker::Model;

/// A reader of entropy-coded bits (T.81, F.2.2): those read ahead of a source, at most 64, and the
/// end that was reached. Stuffing is removed (B.1.1.5). After a marker, endless zeros follow, or
/// nothing. A fault in the data is reported only when a bit after it is taken; a failed read at
/// once, by the call that reads.
#[derive(Debug, Drop)]
pub struct HuffmanDecoder {
    alloc: Global,
    pub(crate) buffered: BufferedBits,
    refusal: Option<Error>,
}

impl Model for HuffmanDecoder {
    ghost use Rattle.jpeg_bits.specs.Entropy.{Ahead};

    ghost Value = { Ahead };

    ghost view = { λ d. d.buffered };
}

impl HuffmanDecoder {
    ghost use Rattle.std.specs.Prelude.{◌≡◌, ◌≤◌, ◌<◌, ◌^◌, [], None, Ok, OnOk, IfOk};
    ghost use Rattle.jpeg_bits.specs.declared.huffman.codes.HuffmanTableClass.TheVariants.{DC};
    ghost use Rattle.jpeg_bits.specs.Refusals.{answer_of, IsRefused};
    ghost use Rattle.jpeg_bits.specs.Codes.{symbol_from, fast_from};
    ghost use Rattle.jpeg_bits.specs.Reading.{Answers};
    ghost use Rattle.jpeg_bits.specs.Readers.{signed_from};
    ghost use Rattle.jpeg_bits.specs.ShortDifferences.{TakesShort};
    ghost use Rattle.jpeg_bits.specs.Entropy.{Takes, fresh, fresh_before, bits_from, marker_from};
    ghost use Rattle.jpeg_bits.specs.Entropy.{upcoming};
    ghost use Rattle.jpeg_bits.specs.GoesOn.{IsOpen};
    ghost use Rattle.std.specs.Prelude.{true};

    /// Returns a decoder with no buffered bits. Endless zeros follow a marker.
    pub fn new(alloc: Global) -> HuffmanDecoder
        ensures { result ≡ fresh }
    {
        HuffmanDecoder::with_beyond(alloc, Beyond::Zeros)
    }

    /// Returns a decoder with no buffered bits. `beyond` follows the next marker: zeros without end,
    /// or nothing.
    pub fn with_beyond(alloc: Global, beyond: Beyond) -> HuffmanDecoder
        ensures { result ≡ fresh_before beyond }
    {
        HuffmanDecoder {
            alloc,
            buffered: BufferedBits::new(alloc, beyond),
            refusal: None,
        }
    }

    /// Returns a copy without a refusal, so that a hot loop works on a local of its own, which
    /// stays in registers.
    #[inline(always)]
    pub fn copied(&self) -> HuffmanDecoder
        ensures { result ≡ self.now }
    {
        HuffmanDecoder {
            alloc: self.alloc,
            buffered: self.buffered.copied(),
            refusal: None,
        }
    }

    /// Returns whether no end was met, and zeros follow the next marker; or a marker was met.
    pub fn is_open(&self) -> bool
        ensures { result ≡ true → IsOpen self.now.met }
    {
        self.buffered.is_open()
    }

    /// Forgets the bits read ahead, as at a restart (T.81, E.2.4). A marker that was reached is
    /// kept.
    pub fn reset(&mut self)
        ensures { self.new ≡ record self.old { bits = [] } }
    {
        self.buffered.clear();
    }

    /// Reads the next `count` bits, from 1 to 16, as a number, the highest bit first. After a
    /// marker they are zeros. The error is `Format` if FF 00 occurs in place of a marker before
    /// them, or a marker after which nothing follows, and `Io` if the bytes end before them or a
    /// read fails.
    #[inline(always)]
    pub fn get_bits<R: Read + Drop>(&mut self, source: &mut Source<R>, count: u8) -> Result<u16>
        requires some { 1 ≤ count }
        requires most { count ≤ 16 }
        ensures bits { Takes (λ n. n) (bits_from count) self.old source.old result self.new
            source.new }
        ensures small { IfOk result (λ n. n < 2 ^ count) }
    {
        match self.buffered.take_number(source, count, &mut self.refusal) {
            Some(number) => Ok(number),
            None => Err(take_refusal(&mut self.refusal)),
        }
    }

    /// Reads the next `count` bits, from 1 to 15, as a signed number (T.81, F.2.2.1): values below
    /// half of the range stand for negative numbers. The errors are those of `get_bits`.
    #[inline(always)]
    #[tactic(auto, unfolding(crate::specs::Readers::signed_from))]
    pub fn receive_extend<R: Read + Drop>(
        &mut self,
        source: &mut Source<R>,
        count: u8,
    ) -> Result<i16>
        requires some { 1 ≤ count }
        requires most { count ≤ 15 }
        ensures { Takes (λ v. v) (signed_from count) self.old source.old result self.new
            source.new }
    {
        let value = self.get_bits(source, count)?;
        Ok(extend(value, count))
    }

    /// Reads the symbol whose code begins the bits (T.81, F.2.2.3), and takes the bits of that
    /// code. The error is `Format` if no code of the table begins them; the others are those of
    /// `get_bits`.
    #[inline(always)]
    pub fn decode<R: Read + Drop>(
        &mut self,
        source: &mut Source<R>,
        table: &HuffmanTable,
    ) -> Result<u8>
        ensures { Takes (λ n. n) (symbol_from table.now) self.old source.old result self.new
            source.new }
    {
        match self.buffered.take_symbol(source, table, &mut self.refusal) {
            Some(symbol) => Ok(symbol),
            None => Err(take_refusal(&mut self.refusal)),
        }
    }

    /// Reads the value and the run of zeros before it, if a code of a table of class AC and the
    /// value after it take at most 8 bits together (T.81, F.2.2.2), all of which are taken.
    /// Otherwise returns none and takes no bit; for a table of class DC it doesn't read the source
    /// either. The errors are those of `get_bits`.
    #[inline(always)]
    #[tactic(auto, using(crate::proofs::ShortLemmas::fast_unread))]
    pub fn decode_fast_ac<R: Read + Drop>(
        &mut self,
        source: &mut Source<R>,
        table: &HuffmanTable,
    ) -> Result<Option<(i16, u8)>>
        ensures value { Takes (λ v. v) (fast_from table.now) self.old source.old result self.new
            source.new }
        ensures unread { table.now.class ≡ DC
            → (self.new ≡ self.old) × (source.new ≡ source.old) × (result ≡ Ok None) }
    {
        if table.is_dc() {
            return Ok(None);
        }
        match self
            .buffered
            .take_short_value(source, table, &mut self.refusal)
        {
            Some(value) => Ok(value),
            None => Err(take_refusal(&mut self.refusal)),
        }
    }

    /// Reads the marker after the bits taken, if at most 56 bits precede it: no bits are buffered
    /// then, and the source continues after the marker. Otherwise returns none, and the source
    /// continues after the byte of the 57th bit. Either way endless zeros follow the next marker.
    /// The error is `Format` if FF 00 occurs in place of the marker, and `Io` if the bytes end first
    /// or a read fails.
    pub fn take_marker<R: Read + Drop>(&mut self, source: &mut Source<R>) -> Result<Option<Marker>>
        ensures answers { Answers (λ m. m) (λ bytes. marker_from (upcoming self.old bytes))
            source.old result source.new }
        ensures taken { OnOk result (self.new ≡ fresh) }
    {
        if !self.buffered.fill(source, 57, &mut self.refusal) {
            return Err(take_refusal(&mut self.refusal));
        }
        let end = self.buffered.take_end();
        marker_of_end(self.alloc, end)
    }

    /// Like `receive_extend`, but stores a refusal in `refusal` and returns none.
    #[inline(always)]
    pub fn take_signed<R: Read + Drop>(
        &mut self,
        source: &mut Source<R>,
        count: u8,
        refusal: &mut Option<Error>,
    ) -> Option<i16>
        requires some { 1 ≤ count }
        requires most { count ≤ 15 }
        ensures number { Takes (λ v. v) (signed_from count) self.old source.old
            (answer_of result refusal.new) self.new source.new }
        ensures refused { IsRefused result refusal.new }
    {
        self.buffered.take_signed(source, count, refusal)
    }

    /// Reads the next difference, if `table` has a look-up table of differences (see
    /// `HuffmanTable::fill_differences`) that has it, or else returns `Some(None)` and takes no
    /// bit. Stores a refusal in `refusal` and returns none.
    #[inline(always)]
    pub fn take_short_difference<R: Read + Drop>(
        &mut self,
        source: &mut Source<R>,
        table: &HuffmanTable,
        refusal: &mut Option<Error>,
    ) -> Option<Option<i16>>
        ensures difference { TakesShort table.now self.old source.old result refusal.new self.new
            source.new }
        ensures refused { IsRefused result refusal.new }
    {
        self.buffered.take_short_difference(source, table, refusal)
    }

    /// Like `decode`, but stores a refusal in `refusal` and returns none: a call without an `Error`
    /// local needs no space for one.
    #[inline(always)]
    pub fn take_symbol<R: Read + Drop>(
        &mut self,
        source: &mut Source<R>,
        table: &HuffmanTable,
        refusal: &mut Option<Error>,
    ) -> Option<u8>
        ensures symbol { Takes (λ n. n) (symbol_from table.now) self.old source.old
            (answer_of result refusal.new) self.new source.new }
        ensures refused { IsRefused result refusal.new }
    {
        self.buffered.take_symbol(source, table, refusal)
    }
}
