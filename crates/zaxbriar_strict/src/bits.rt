//! The bits of entropy-coded data (T.81, B.1.1.5 and F.2.2).
ghost use Rattle.std.specs.Prelude.{◌≡◌, ◌≤◌, ◌<◌, ◌%◌, ◌^◌, ◌++◌, ◌∷◌, [], MatchOption};
ghost use Rattle.jpeg_bits.specs.Written.{number_for, stuffed, IsCategory};

use crate::cursor::Cursor;
use crate::huffman::HuffmanTable;
use crate::rule::{Rule, Stop};

/// The bits of an interval's data, up to the marker after them. Stuffing is taken out.
#[derive(Drop)]
pub(crate) struct Bits<'a> {
    /// The interval's data, and what follows them.
    start: Cursor<'a>,
    /// What isn't loaded yet.
    rest: Cursor<'a>,
    /// How many bytes of data are loaded.
    loaded: usize,
    /// The bits that are loaded and not taken are its lowest.
    window: u64,
    left: u32,
    ghost few: { left ≤ 64 },
}

/// The bound of the bits of a word that stay when a byte is loaded.
const ROOM: u64 = 1 << 56;

/// Returns 2 to an exponent.
fn power_of_two(exponent: u32) -> u32
    requires { exponent ≤ 16 }
    ensures value { result ≡ 2 ^ exponent }
    ensures most { result ≤ 65536 }
    ensures some { 1 ≤ result }
{
    1 << exponent
}

/// Returns this many of the lowest bits of a word.
fn lowest(word: u64, count: u32) -> u16
    requires { count ≤ 16 }
    ensures value { result ≡ word % 2 ^ count }
    ensures below { result < 2 ^ count }
{
    (word % u64::from(power_of_two(count))) as u16
}

/// Returns the value of a category whose bits these are (F.2.2.1: EXTEND).
fn extended(number: u16, category: u32) -> i32
    requires some { 1 ≤ category }
    requires most { category ≤ 15 }
    requires below { number < 2 ^ category }
    ensures category { IsCategory result category }
    ensures number { number_for result category ≡ number }
{
    if u32::from(number) < power_of_two(category - 1) {
        i32::from(number) - (power_of_two(category) - 1) as i32
    } else {
        i32::from(number)
    }
}

impl<'a> Bits<'a> {
    ghost use Rattle.std.specs.Prelude.{◌≡◌, ◌≢◌, ◌≤◌, ◌<◌, ◌^◌, [], ◌∷◌, IfOk};
    ghost use Rattle.jpeg_bits.specs.Codes.{next_16};
    ghost use Rattle.jpeg_bits.specs.Written.{low_bits, IsCategory, IsCoded};
    ghost use Rattle.jpeg_bits.specs.declared.huffman.codes.HuffmanTableClass.{HuffmanTableClass};
    ghost use Rattle.jpeg_meaning.specs.WrittenData.{bits_for};
    ghost use Rattle.zaxbriar_strict.specs.Data.{data_at, IsFilling, Reads, Takes};
    ghost use Rattle.zaxbriar_strict.specs.Loaded.{data_of};
    ghost use Rattle.zaxbriar_strict.specs.Tables.{codes_in};

    pub(crate) fn new(start: Cursor<'a>) -> Bits<'a>
        ensures { data_of result ≡ data_at start.entry.rest.now }
    {
        Bits {
            start,
            rest: start,
            loaded: 0,
            window: 0,
            left: 0,
        }
    }

    /// Loads a byte, if there is room for it and no marker is next, and returns whether it did.
    fn load_byte(&mut self) -> bool
        ensures { Takes [] (data_of self.old) (data_of self.new) }
    {
        if self.left > 56 {
            return false;
        }
        let Some(byte) = data_byte(&mut self.rest) else {
            return false;
        };
        self.loaded = self.loaded.wrapping_add(1);
        self.window = self.window % ROOM * 256 + u64::from(byte);
        self.left += 8;
        true
    }

    /// Loads bytes until there is no room for one more, or until a marker.
    fn load(&mut self)
        ensures { Takes [] (data_of self.old) (data_of self.new) }
    {
        for _ in 0..8 {
            if !self.load_byte() {
                return;
            }
        }
    }

    /// Loads bytes until this many bits are loaded. A marker before their end is a fault (F.2.2.5).
    fn load_for(&mut self, count: u32) -> Result<(), Rule>
        ensures bits { IfOk result (λ _. Takes [] (data_of self.old) (data_of self.new)) }
        ensures loaded { IfOk result (λ _. count ≤ self.new.left) }
    {
        if self.left >= count {
            return Ok(());
        }
        self.load();
        if self.left >= count {
            Ok(())
        } else {
            Err(Rule::DataEnd)
        }
    }

    /// Returns the next 16 bits, with zeros where fewer are loaded.
    fn next_sixteen(&self) -> u16
        ensures { low_bits 16 result ≡ next_16 (data_of self.now).bits }
    {
        if self.left >= 16 {
            ((self.window >> (self.left - 16)) % 65536) as u16
        } else {
            ((self.window << (16 - self.left)) % 65536) as u16
        }
    }

    /// Takes this many bits as a number, the highest first. A marker before their end is a fault
    /// (F.2.2.5).
    pub(crate) fn take(&mut self, count: u32) -> Result<u16, Rule>
        requires { count ≤ 16 }
        ensures bits { IfOk result
            (λ n. Takes (low_bits count n) (data_of self.old) (data_of self.new)) }
        ensures below { IfOk result (λ n. n < 2 ^ count) }
    {
        if count == 0 {
            return Ok(0);
        }
        self.load_for(count)?;
        self.left -= count;
        Ok(lowest(self.window >> self.left, count))
    }

    /// Takes a bit.
    pub(crate) fn take_bit(&mut self) -> Result<bool, Rule>
        ensures { IfOk result (λ b. Takes (b ∷ []) (data_of self.old) (data_of self.new)) }
    {
        let bit = self.take(1)?;
        Ok(bit == 1)
    }

    /// Takes a code, and returns the symbol that it stands for (F.2.2.3).
    pub(crate) fn symbol(&mut self, table: &HuffmanTable) -> Result<u8, Rule>
        ensures { IfOk result (λ s. (class : HuffmanTableClass)
            → Reads (IsCoded (codes_in class table.now) s) (data_of self.old) (data_of self.new)) }
    {
        self.load_sixteen();
        let code = table.find(self.next_sixteen());
        let length = u32::from(code.length);
        if length == 0 && self.left >= 16 {
            return Err(Rule::NoCode);
        }
        if length == 0 || self.left < length {
            return Err(Rule::DataEnd);
        }
        self.left -= length;
        Ok(code.symbol)
    }

    /// Loads bytes if fewer than 16 bits are loaded.
    fn load_sixteen(&mut self)
        ensures { Takes [] (data_of self.old) (data_of self.new) }
    {
        if self.left < 16 {
            self.load();
        }
    }

    /// Takes a value of a category above 0 and below 16 (F.2.2.1: RECEIVE and EXTEND).
    pub(crate) fn value(&mut self, category: u32) -> Result<i32, Rule>
        requires some { 1 ≤ category }
        requires most { category ≤ 15 }
        ensures category { IfOk result (λ v. IsCategory v category) }
        ensures bits { IfOk result
            (λ v. Takes (bits_for v category) (data_of self.old) (data_of self.new)) }
    {
        let number = self.take(category)?;
        Ok(extended(number, category))
    }

    /// Ends the interval: what is left of its last byte has to be ones (F.1.2.3). Returns what
    /// follows its data.
    pub(crate) fn end(&mut self) -> Result<Cursor<'a>, Stop>
        ensures { IfOk result
            (λ rest. Reads IsFilling (data_of self.old) (data_at rest.rest.now)) }
    {
        self.load();
        if self.left >= 8 {
            // (The first of them breaks the rule.)
            let _ = self.take(1);
            return Err(self.breaks(Rule::Surplus));
        }
        if u32::from(lowest(self.window, self.left)) != power_of_two(self.left) - 1 {
            return Err(self.breaks(Rule::Padding));
        }
        Ok(self.rest)
    }

    /// Returns the stop of a stream that breaks a rule at the bit that was taken last, or where the
    /// data end.
    pub(crate) fn breaks(&self, rule: Rule) -> Stop {
        if matches!(rule, Rule::DataEnd) {
            return self.rest.breaks(rule);
        }
        let begun = self.loaded.saturating_sub((self.left / 8) as usize);
        let mut place = self.start;
        for _ in 1..begun {
            let _ = data_byte(&mut place);
        }
        place.breaks(rule)
    }
}

/// Takes the next byte of data, unless a marker or the end of the stream is next.
fn data_byte(cursor: &mut Cursor<'_>) -> Option<u8>
    ensures { MatchOption result (cursor.new.rest.now ≡ cursor.old.rest.now)
        (λ b. cursor.old.rest.now ≡ stuffed (b ∷ []) ++ cursor.new.rest.now) }
{
    let mut rest = *cursor;
    let Some(byte) = rest.byte() else {
        return None;
    };
    if byte != 0xff {
        *cursor = rest;
        return Some(byte);
    }
    let Some(0) = rest.byte() else {
        return None;
    };
    *cursor = rest;
    Some(0xff)
}
