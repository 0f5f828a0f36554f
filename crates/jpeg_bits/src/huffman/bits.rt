//! At most 64 bits, in a word, and the numbers that bits stand for.
ghost use Rattle.std.specs.Prelude.{◌≡◌, ◌≤◌, ◌<◌, ◌^◌};
ghost use Rattle.jpeg_bits.specs.Entropy.{extended};

use std::marker::Model;

/// At most 64 bits. The first is the highest of the word, which has zeros after them.
#[derive(Debug, Drop)]
pub(crate) struct Bits {
    word: u64,
    count: usize,
}

impl Model for Bits {
    ghost use Rattle.std.specs.Prelude.{List, Bool};
    ghost use Rattle.jpeg_bits.specs.Reservoir.{buffered_bits, IsReservoir};

    ghost Value = { List Bool };

    ghost view = { λ b. buffered_bits b.word b.count };

    ghost invariant = { λ b. IsReservoir b.word b.count };
}

impl Bits {
    ghost use Rattle.std.specs.Prelude.{◌≡◌, ◌≤◌, ◌<◌, ◌+◌, ◌-◌, ◌*◌, ◌/◌, ◌^◌, ◌++◌, [], take};
    ghost use Rattle.std.specs.Prelude.{drop, length};
    ghost use Rattle.std.specs.Prelude.{replicate, false};
    ghost use Rattle.jpeg_bits.specs.Codes.{next_16};
    ghost use Rattle.jpeg_bits.specs.ShortCodes.{next_bits};
    ghost use Rattle.jpeg_bits.specs.Written.{low_bits};
    ghost use Rattle.jpeg_bits.specs.Entropy.{bits_of, number_of};

    #[tactic(auto, unfolding(crate::specs::Written::low_bits))]
    pub(crate) fn new() -> Bits
        ensures { result ≡ [] }
    {
        Bits { word: 0, count: 0 }
    }

    #[inline(always)]
    pub(crate) fn copied(&self) -> Bits
        ensures { result ≡ self.now }
    {
        Bits {
            word: self.word,
            count: self.count,
        }
    }

    #[inline(always)]
    #[tactic(auto, unfolding(crate::specs::Written::low_bits))]
    pub(crate) fn clear(&mut self)
        ensures { self.new ≡ [] }
    {
        self.word = 0;
        self.count = 0;
    }

    #[inline(always)]
    #[tactic(auto, using(crate::proofs::WrittenBits::length_low_bits))]
    pub(crate) fn len(&self) -> usize
        ensures count { result ≡ length self.now }
        ensures most { result ≤ 64 }
    {
        self.count
    }

    /// Appends a byte's bits to those buffered.
    #[inline(always)]
    pub(crate) fn push(&mut self, byte: u8)
        requires { length self.old ≤ 56 }
        ensures { self.new ≡ self.old ++ bits_of byte }
    {
        self.word += u64::from(byte) << (56 - self.count);
        self.count += 8;
    }

    /// Appends the bits of the first `count` of eight bytes, of which the first is the highest of
    /// the number.
    #[inline(always)]
    pub(crate) fn push_front(&mut self, word: u64, count: usize)
        requires some { 1 ≤ count }
        requires most { count ≤ 8 }
        requires room { length self.old + 8 * count ≤ 64 }
        ensures { self.new ≡ self.old ++ low_bits (8 * count) (word / 2 ^ (64 - 8 * count)) }
    {
        let after = self.count + 8 * count;
        self.word += (word >> (64 - 8 * count)) << (64 - after);
        self.count = after;
    }

    /// Returns the first `count` bits, with zeros after them, as a number.
    #[inline(always)]
    #[tactic(auto, using(crate::proofs::Rules::fronts))]
    pub(crate) fn front(&self, count: usize) -> u16
        requires some { 1 ≤ count }
        requires most { count ≤ 16 }
        ensures value { result ≡ number_of (take count (self.now ++ replicate count false)) }
        ensures small { result < 2 ^ count }
    {
        (self.word >> (64 - count)) as u16
    }

    /// Returns the first 16 bits, with zeros after them, as a number.
    #[inline(always)]
    pub(crate) fn front_16(&self) -> u16
        ensures { low_bits 16 result ≡ next_16 self.now }
    {
        (self.word >> 48) as u16
    }

    /// Returns the first 8 bits, with zeros after them, as a number.
    #[inline(always)]
    pub(crate) fn front_8(&self) -> u8
        ensures { low_bits 8 result ≡ next_bits 8 self.now }
    {
        (self.word >> 56) as u8
    }

    /// Drops the first `count` bits, or all if fewer are buffered.
    #[inline(always)]
    #[tactic(auto, using(crate::proofs::Reservoirs::rests))]
    pub(crate) fn skip(&mut self, count: usize)
        requires { count ≤ 16 }
        ensures { self.new ≡ drop count self.old }
    {
        self.word <<= count;
        self.count = self.count.saturating_sub(count);
    }
}

/// Returns 2 to an exponent.
#[inline]
#[tactic(auto, using(std::proofs::Common::pow_mono, std::proofs::Common::pow_pos))]
pub(crate) fn power_of_two(exponent: u8) -> u16
    requires { exponent ≤ 14 }
    ensures value { result ≡ 2 ^ exponent }
    ensures most { result ≤ 16384 }
    ensures some { 1 ≤ result }
{
    1 << exponent
}

/// Returns a value of `count` bits as a signed number. It doesn't branch on the sign, which no
/// processor can predict in most data.
pub(crate) fn extend(value: u16, count: u8) -> i16
    requires some { 1 ≤ count }
    requires most { count ≤ 15 }
    requires small { value < 2 ^ count }
    ensures { result ≡ extended value count }
{
    let half = power_of_two(count - 1);
    // 1 for a value below the half, whose highest bit is 0, and 0 for another.
    let below = 1 - (value >> (count - 1));
    value as i16 - (below * (2 * half - 1)) as i16
}
