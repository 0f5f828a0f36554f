//! What is read ahead of a source: bits, and the end of the data (T.81, B.1.1.5).
ghost use Rattle.std.specs.Prelude.{◌≡◌, ◌++◌, Ok, is_some, true, false};
ghost use Rattle.std.specs.Prelude.{ℕ, ◌<◌, Bool, List, length, is_ok};
ghost use Rattle.jpeg_bits.specs.Stream.{Stream};
ghost use Rattle.jpeg_bits.specs.Reading.{Answers, IsShort, Gives, NamesFormat, Names};
ghost use Rattle.jpeg_bits.specs.Refusals.{kept_refusal, answer_of, IsRefused};
ghost use Rattle.jpeg_bits.specs.Entropy.{piece_at, after_ff, byte_or_end, marker_at_end};
ghost use Rattle.jpeg_bits.specs.Entropy.{bits_from, closed_end, has_buffered, met_of, upcoming_by};
ghost use Rattle.jpeg_bits.specs.declared.beyond.Beyond.{Beyond};

use crate::beyond::Beyond;
use crate::error::{Error, Result, end_of_bytes, format_error, set_format_error};
use crate::huffman::bits::{Bits, extend};
use crate::huffman::codes::HuffmanTable;
use crate::huffman::pairs::Pair;
use crate::marker::Marker;
use crate::source::Source;
use crate::source::bytes::Bytes;
use std::alloc::Global;
use std::io::Read;
use std::marker::Model;

/// How entropy-coded data ends (T.81, B.1.1.5).
#[derive(Clone, Copy, Debug, PartialEq)]
pub enum DataEnd {
    /// A marker follows, and endless zeros stand for the bits after it.
    Marker(Marker),
    /// A marker follows, and no bits after it.
    Stop(Marker),
    /// FF 00 after fill bytes.
    Malformed,
    /// The bytes end.
    Ended,
}

/// Returns how data end by what follows the bits where a marker ends them.
fn end_before(beyond: Beyond, end: DataEnd) -> DataEnd
    ensures { result ≡ closed_end beyond end }
{
    match (beyond, end) {
        (Beyond::Nothing, DataEnd::Marker(marker)) => DataEnd::Stop(marker),
        _ => end,
    }
}

/// What comes next in entropy-coded data.
#[derive(Clone, Copy, Debug, PartialEq)]
pub(crate) enum Piece {
    /// A byte, its stuffing taken out.
    Byte(u8),
    Data(DataEnd),
}

/// Reads what a byte that was read, or the end of the bytes, begins. A refusal is stored in
/// `refusal`, and none is returned.
#[cold]
#[inline(never)]
#[tactic(auto, unfolding(crate::specs::Entropy::piece_at))]
fn piece_of<S: Bytes>(
    alloc: Global,
    source: &mut S,
    next: Option<Option<u8>>,
    refusal: &mut Option<Error>,
) -> Option<Piece>
    requires { IsRefused next refusal.old }
    ensures answers { (before : Stream) → Answers (λ b. b) byte_or_end before
        (answer_of next refusal.old) (S.stream source.old)
        → Answers (λ p. p) piece_at before (answer_of result refusal.new) (S.stream source.new) }
    ensures refused { IsRefused result refusal.new }
{
    match next {
        Some(Some(0xff)) => next_after_ff(alloc, source, refusal),
        Some(Some(byte)) => Some(Piece::Byte(byte)),
        Some(None) => Some(Piece::Data(DataEnd::Ended)),
        None => None,
    }
}

/// Reads what a byte FF and those after it mean. A refusal is stored in `refusal`, and none is
/// returned.
#[cold]
#[inline(never)]
fn next_after_ff<S: Bytes>(
    alloc: Global,
    source: &mut S,
    refusal: &mut Option<Error>,
) -> Option<Piece>
    ensures answers { Answers (λ p. p) (λ bytes. Ok (after_ff bytes)) (S.stream source.old)
        (answer_of result refusal.new) (S.stream source.new) }
    ensures refused { IsRefused result refusal.new }
{
    match read_after_ff(alloc, source) {
        Ok(piece) => Some(piece),
        Err(e) => {
            *refusal = Some(e);
            None
        }
    }
}

/// Reads what a byte FF and those after it mean.
#[tactic(auto, unfolding(crate::specs::Entropy::filled_end))]
fn read_after_ff<S: Bytes>(alloc: Global, source: &mut S) -> Result<Piece>
    ensures { Answers (λ p. p) (λ bytes. Ok (after_ff bytes)) (S.stream source.old) result
        (S.stream source.new) }
{
    let Some(mut next) = read_or_end(alloc, source)? else {
        return Ok(Piece::Data(DataEnd::Ended));
    };
    if next == 0 {
        return Ok(Piece::Byte(0xff));
    }
    for _ in 0..u64::MAX {
        if next != 0xff {
            return Ok(Piece::Data(match Marker::from_u8(next) {
                Some(marker) => DataEnd::Marker(marker),
                None => DataEnd::Malformed,
            }));
        }
        match read_or_end(alloc, source)? {
            Some(byte) => next = byte,
            None => return Ok(Piece::Data(DataEnd::Ended)),
        }
    }
    Err(format_error(alloc, "found 2^64 fill bytes, expected a marker"))
}

/// Reads the next byte, or returns none if the bytes end.
fn read_or_end<S: Bytes>(alloc: Global, source: &mut S) -> Result<Option<u8>>
    ensures answers { Answers (λ b. b) byte_or_end (S.stream source.old) result
        (S.stream source.new) }
    ensures short { IsShort (S.stream source.old) }
{
    let mut refusal = None;
    match (source.next_byte(alloc, &mut refusal), refusal) {
        (Some(next), _) => Ok(next),
        (None, Some(error)) => Err(error),
        (None, None) => unreachable!(),
    }
}

/// The bits read ahead of a source, and the end that was reached, or what follows the bits where a
/// marker will end them.
#[derive(Debug, Drop)]
pub(crate) struct BufferedBits {
    alloc: Global,
    bits: Bits,
    end: Option<DataEnd>,
    beyond: Beyond,
}

impl Model for BufferedBits {
    ghost use Rattle.std.specs.Prelude.{length};
    ghost use Rattle.jpeg_bits.specs.Entropy.{Ahead, IsWithin, met_of};

    ghost Value = { Ahead };

    ghost view = { λ h. record { bits = h.bits; met = met_of h.beyond h.end } };

    ghost invariant = { λ h. IsWithin (length h.bits) (met_of h.beyond h.end) };
}

impl BufferedBits {
    ghost use Rattle.std.specs.Prelude.{◌≡◌, ◌≤◌, ◌<◌, ◌^◌, ◌++◌, ℕ, [], IfSome, true, false};
    ghost use Rattle.std.specs.Prelude.{Some, Ok, List, is_ok, is_some, length, take, drop};
    ghost use Rattle.std.specs.Prelude.{replicate};
    ghost use Rattle.jpeg_bits.specs.Stream.{Stream};
    ghost use Rattle.jpeg_bits.specs.Codes.{next_16, code_from, symbol_from, fast_from};
    ghost use Rattle.jpeg_bits.specs.ShortCodes.{symbol_in, short_value_of, next_bits};
    ghost use Rattle.jpeg_bits.specs.Skips.{IsSkip};
    ghost use Rattle.jpeg_bits.specs.Pairs.{IsPairOf, IsWithinPassed};
    ghost use Rattle.jpeg_bits.specs.ShortDifferences.{IsShortDifference, TakesShort};
    ghost use Rattle.jpeg_bits.specs.Reading.{Names, Gives};
    ghost use Rattle.jpeg_bits.specs.Readers.{signed_from};
    ghost use Rattle.jpeg_bits.specs.Refusals.{outcome_of, answer_of, IsRefused};
    ghost use Rattle.jpeg_bits.specs.Entropy.{Takes, fresh, fresh_before, same_text, has_buffered};
    ghost use Rattle.jpeg_bits.specs.Entropy.{marker_at_end, met_of, number_of, bits_from, upcoming};
    ghost use Rattle.jpeg_bits.specs.Entropy.{IsFilled, IsUnmet};
    ghost use Rattle.jpeg_bits.specs.GoesOn.{IsOpen};
    ghost use Rattle.jpeg_bits.specs.declared.beyond.Beyond.{Beyond};

    pub(crate) fn new(alloc: Global, beyond: Beyond) -> BufferedBits
        ensures { result ≡ fresh_before beyond }
    {
        BufferedBits {
            alloc,
            bits: Bits::new(),
            end: None,
            beyond,
        }
    }

    #[inline(always)]
    pub(crate) fn alloc(&self) -> Global {
        self.alloc
    }

    /// Returns a copy, so that the hot loops work on a local of their own, which stays in
    /// registers.
    #[inline(always)]
    pub(crate) fn copied(&self) -> BufferedBits
        ensures { result ≡ self.now }
    {
        BufferedBits {
            alloc: self.alloc,
            bits: self.bits.copied(),
            end: self.end,
            beyond: self.beyond,
        }
    }

    /// Makes sure that `count` bits are buffered, or that the end is reached. A refusal is stored
    /// in `refusal`, and false is returned.
    #[inline(always)]
    #[tactic(auto, using(crate::proofs::Rules::filled))]
    pub(crate) fn fill<R: Read + Drop>(
        &mut self,
        source: &mut Source<R>,
        count: usize,
        refusal: &mut Option<Error>,
    ) -> bool
        requires { count ≤ 57 }
        ensures holds { Takes (λ _. 0) same_text self.old source.old (outcome_of result refusal.new)
            self.new source.new }
        ensures full { result ≡ true → IsFilled count self.new.bits self.new.met }
        ensures refused { result ≡ false → is_some refusal.new ≡ true }
    {
        // After the end there is nothing left to read: bits taken then are zeros, or are refused.
        if count <= self.bits.len() || self.end.is_some() {
            return true;
        }
        if self.push_plain(source) {
            return true;
        }
        self.refill_apart(source, refusal)
    }

    /// Does what `refill` does, where no end was reached, by a copy: a local's address goes to the
    /// call, so that `self` can stay in registers. (The local is cleared where this begins, and so
    /// only where a refill is needed.)
    #[inline(always)]
    fn refill_apart<R: Read + Drop>(
        &mut self,
        source: &mut Source<R>,
        refusal: &mut Option<Error>,
    ) -> bool
        requires unended { IsUnmet self.old.met }
        ensures fills { Takes (λ _. 0) same_text self.old source.old (outcome_of result refusal.new)
            self.new source.new }
        ensures full { result ≡ true → IsFilled 57 self.new.bits self.new.met }
        ensures refused { result ≡ false → is_some refusal.new ≡ true }
    {
        let mut buffered = BufferedBits {
            alloc: self.alloc,
            bits: self.bits.copied(),
            end: None,
            beyond: self.beyond,
        };
        let is_full = buffered.refill(source, refusal);
        *self = buffered;
        is_full
    }

    /// Appends as many whole bytes as there is room for, if the source has read eight ahead and
    /// none of them is FF, and returns whether that is so.
    #[inline(always)]
    fn push_plain<R: Read + Drop>(&mut self, source: &mut Source<R>) -> bool
        requires few { length self.old.bits ≤ 56 }
        requires unended { IsUnmet self.old.met }
        ensures pushed { result ≡ true → Takes {X = Unit {0}} (λ _. 0) same_text self.old source.old
            (Ok tt) self.new source.new }
        ensures full { result ≡ true → IsFilled 57 self.new.bits self.new.met }
        ensures same { result ≡ false → self.new ≡ self.old }
        ensures still { result ≡ false → source.new ≡ source.old }
    {
        let count = (64 - self.bits.len()) / 8;
        match source.take_plain(count) {
            Some(word) => {
                self.bits.push_front(word, count);
                true
            }
            None => false,
        }
    }

    /// Reads ahead until at least 57 bits are buffered, or the end is reached, which is read once.
    /// A refusal is stored in `refusal`, and false is returned. Each place that reads bits has one
    /// call of it: the compiler inlines no function that grows very large.
    #[inline(never)]
    fn refill<R: Read + Drop>(
        &mut self,
        source: &mut Source<R>,
        refusal: &mut Option<Error>,
    ) -> bool
        ensures fills { Takes (λ _. 0) same_text self.old source.old (outcome_of result refusal.new)
            self.new source.new }
        ensures full { result ≡ true → IsFilled 57 self.new.bits self.new.met }
        ensures refused { result ≡ false → is_some refusal.new ≡ true }
    {
        if source.ahead.is_some() {
            return self.refill_from(source, refusal);
        }
        self.refill_from(&mut source.unbuffered, refusal)
    }

    /// Does so from what gives bytes one by one.
    #[inline(always)]
    #[tactic(auto, unfolding(crate::specs::Entropy::upcoming))]
    fn refill_from<S: Bytes>(&mut self, source: &mut S, refusal: &mut Option<Error>) -> bool
        ensures fills { Takes (λ _. 0) same_text self.old (S.stream source.old)
            (outcome_of result refusal.new) self.new (S.stream source.new) }
        ensures full { result ≡ true → IsFilled 57 self.new.bits self.new.met }
        ensures refused { result ≡ false → is_some refusal.new ≡ true }
    {
        if self.end.is_some() {
            return true;
        }
        // The loop works on a local, which stays in registers.
        let mut bits = self.bits.copied();
        while bits.len() <= 56 {
            let next = source.next_byte(self.alloc, refusal);
            // Nearly all bytes stand for themselves.
            if let Some(Some(byte)) = next
                && byte != 0xff
            {
                bits.push(byte);
                continue;
            }
            // The call gets the address of a copy, so that `next` itself stays in a register.
            let special = next;
            match piece_of(self.alloc, source, special, refusal) {
                Some(Piece::Byte(byte)) => bits.push(byte),
                Some(Piece::Data(end)) => {
                    self.bits = bits;
                    self.end = Some(end_before(self.beyond, end));
                    return true;
                }
                None => {
                    self.bits = bits;
                    return false;
                }
            }
        }
        self.bits = bits;
        true
    }

    /// Returns whether `count` bits can be taken without reaching a fault.
    #[inline(always)]
    pub(crate) fn has(&self, count: usize) -> bool
        ensures { result ≡ is_ok (has_buffered count self.now.bits self.now.met) }
    {
        count <= self.bits.len() || is_padded(self.end)
    }

    /// Returns whether a marker was reached and no bit is buffered: endless zeros follow then.
    #[inline(always)]
    pub(crate) fn is_past_marker(&self) -> bool
        ensures { result ≡ true → (bytes : List ℕ) → bits_from 1 (upcoming self.now bytes)
            ≡ Ok (0, upcoming self.now bytes) }
    {
        self.bits.len() == 0 && is_marker(self.end)
    }

    /// Reads the next `count` bits, from 1 to 16, as a number, the highest first. A refusal is
    /// stored in `refusal`, and none is returned.
    #[inline(always)]
    pub(crate) fn take_number<R: Read + Drop>(
        &mut self,
        source: &mut Source<R>,
        count: u8,
        refusal: &mut Option<Error>,
    ) -> Option<u16>
        requires some { 1 ≤ count }
        requires most { count ≤ 16 }
        ensures bits { Takes (λ n. n) (bits_from count) self.old source.old
            (answer_of result refusal.new) self.new source.new }
        ensures small { IfSome result (λ n. n < 2 ^ count) }
        ensures refused { IsRefused result refusal.new }
    {
        let count = usize::from(count);
        if !self.fill(source, count, refusal) {
            return None;
        }
        if !self.has(count) {
            set_fault(self.alloc, self.end, refusal);
            return None;
        }
        Some(self.take(count))
    }

    /// Reads the next `count` bits, from 1 to 15, as a signed number (T.81, F.2.2.1). A refusal
    /// is stored in `refusal`, and none is returned.
    #[inline(always)]
    #[tactic(auto, unfolding(crate::specs::Readers::signed_from))]
    pub(crate) fn take_signed<R: Read + Drop>(
        &mut self,
        source: &mut Source<R>,
        count: u8,
        refusal: &mut Option<Error>,
    ) -> Option<i16>
        requires some { 1 ≤ count }
        requires most { count ≤ 15 }
        ensures number { Takes (λ v. v) (signed_from count) self.old source.old
            (answer_of result refusal.new) self.new source.new }
        ensures refused { IsRefused result refusal.new }
    {
        match self.take_number(source, count, refusal) {
            Some(value) => Some(extend(value, count)),
            None => None,
        }
    }

    /// Returns how many bits are buffered.
    #[inline(always)]
    pub(crate) fn len(&self) -> usize
        ensures { result ≡ length self.now.bits }
    {
        self.bits.len()
    }

    /// Reads the length and the symbol of the code that begins the bits (T.81, F.2.2.3), if 16 bits
    /// are buffered or the end is reached. A refusal is stored in `refusal`, and none is returned.
    #[inline(always)]
    #[tactic(auto, using(crate::proofs::Rules::buffered))]
    pub(crate) fn take_buffered_code(
        &mut self,
        table: &HuffmanTable,
        refusal: &mut Option<Error>,
    ) -> Option<(u8, u8)>
        requires { IsFilled 16 self.old.bits self.old.met }
        ensures code { (source : Stream) → Takes (λ c. c) (code_from table.now) self.old source
            (answer_of result refusal.new) self.new source }
        ensures refused { IsRefused result refusal.new }
        ensures within { IfSome result (λ c. c.0 ≤ 16) }
    {
        let Some((symbol, length)) = self.symbol(table) else {
            set_no_code(self.alloc, refusal);
            return None;
        };
        let count = usize::from(length);
        if !self.has(count) {
            set_fault(self.alloc, self.end, refusal);
            return None;
        }
        self.skip(count);
        Some((length, symbol))
    }

    /// Reads the symbol whose code begins the bits (T.81, F.2.2.3). A refusal is stored in
    /// `refusal`, and none is returned.
    #[inline(always)]
    pub(crate) fn take_symbol<R: Read + Drop>(
        &mut self,
        source: &mut Source<R>,
        table: &HuffmanTable,
        refusal: &mut Option<Error>,
    ) -> Option<u8>
        ensures symbol { Takes (λ n. n) (symbol_from table.now) self.old source.old
            (answer_of result refusal.new) self.new source.new }
        ensures refused { IsRefused result refusal.new }
    {
        if !self.fill(source, 16, refusal) {
            return None;
        }
        match self.take_buffered_code(table, refusal) {
            Some((_, symbol)) => Some(symbol),
            None => None,
        }
    }

    /// Reads the value and the run of zeros before it, if a code of a table of class AC and the
    /// value after it take at most 8 bits together (T.81, F.2.2.2), or else returns `Some(None)`. A
    /// refusal is stored in `refusal`, and none is returned.
    #[inline(always)]
    #[tactic(auto, using(crate::proofs::Rules::fast))]
    pub(crate) fn take_short_value<R: Read + Drop>(
        &mut self,
        source: &mut Source<R>,
        table: &HuffmanTable,
        refusal: &mut Option<Error>,
    ) -> Option<Option<(i16, u8)>>
        ensures value { Takes (λ v. v) (fast_from table.now) self.old source.old
            (answer_of result refusal.new) self.new source.new }
        ensures refused { IsRefused result refusal.new }
    {
        if !self.fill(source, 8, refusal) {
            return None;
        }
        let Some((value, run, bits)) = self.short_value(table) else {
            return Some(None);
        };
        let count = usize::from(bits);
        if !self.has(count) {
            set_fault(self.alloc, self.end, refusal);
            return None;
        }
        self.skip(count);
        Some(Some((value, run)))
    }

    /// Takes the first `count` of the buffered bits, with zeros after them.
    #[inline(always)]
    pub(crate) fn take(&mut self, count: usize) -> u16
        requires some { 1 ≤ count }
        requires most { count ≤ 16 }
        ensures value { result ≡ number_of (take count (self.old.bits ++ replicate count false)) }
        ensures small { result < 2 ^ count }
        ensures bits { self.new.bits ≡ drop count self.old.bits }
        ensures met { self.new.met ≡ self.old.met }
    {
        let number = self.bits.front(count);
        self.bits.skip(count);
        number
    }

    /// Drops the first `count` buffered bits.
    #[inline(always)]
    pub(crate) fn skip(&mut self, count: usize)
        requires { count ≤ 16 }
        ensures bits { self.new.bits ≡ drop count self.old.bits }
        ensures met { self.new.met ≡ self.old.met }
    {
        self.bits.skip(count);
    }

    /// Returns the symbol and the length of the code that begins the buffered bits.
    #[inline(always)]
    pub(crate) fn symbol(&self, table: &HuffmanTable) -> Option<(u8, u8)>
        ensures symbol { result ≡ symbol_in table.now (next_16 self.now.bits) }
        ensures within { IfSome result (λ c. c.1 ≤ 16) }
    {
        table.symbol_of(self.bits.front_16())
    }

    /// Returns the value and the run that the buffered bits begin with, and how many bits they
    /// take, if they are at most 8.
    #[inline(always)]
    pub(crate) fn short_value(&self, table: &HuffmanTable) -> Option<(i16, u8, u16)>
        ensures value { result ≡ short_value_of 8 table.now (next_bits 8 self.now.bits) }
        ensures within { IfSome result (λ t. t.2 ≤ 8) }
        ensures counted { length table.now.counts ≡ 16 }
    {
        table.short_value_of(self.bits.front_8())
    }

    /// Like `short_value`, if they are at most 11 and the table for them is filled.
    #[inline(always)]
    #[tactic(auto, using(crate::proofs::ShortLemmas::eleven_front))]
    pub(crate) fn wide_value(&self, table: &HuffmanTable) -> Option<(i16, u8, u8)>
        ensures value { IfSome result (λ t. short_value_of 11 table.now
            (next_bits 11 self.now.bits) ≡ Some t) }
        ensures within { IfSome result (λ t. t.2 ≤ 11) }
        ensures counted { length table.now.counts ≡ 16 }
    {
        table.wide_value_of(self.bits.front_16())
    }

    /// Returns the tokens that the buffered bits begin with: how many bits they take, how many
    /// coefficients they stand for, and whether the last is the end of the band.
    #[inline(always)]
    #[tactic(auto, using(crate::proofs::WideTokens::twelve_front))]
    pub(crate) fn skip_ahead(&self, table: &HuffmanTable) -> (u8, u8, bool)
        ensures { IsSkip table.now (next_bits 12 self.now.bits) result }
    {
        table.skip_of(self.bits.front_16())
    }

    /// Returns the difference that the buffered bits begin with, and how many bits it takes with
    /// its code, or no bits.
    #[inline(always)]
    #[tactic(auto, using(crate::proofs::WideTokens::twelve_front))]
    pub(crate) fn short_difference(&self, table: &HuffmanTable) -> (i16, u8)
        ensures { IsShortDifference table.now (next_bits 12 self.now.bits) result }
    {
        table.difference_of(self.bits.front_16())
    }

    /// Reads the next difference, if the look-up table of `table` has it, or else returns
    /// `Some(None)` and takes no bit. A refusal is stored in `refusal`, and none is returned.
    #[inline(always)]
    pub(crate) fn take_short_difference<R: Read + Drop>(
        &mut self,
        source: &mut Source<R>,
        table: &HuffmanTable,
        refusal: &mut Option<Error>,
    ) -> Option<Option<i16>>
        ensures difference { TakesShort table.now self.old source.old result refusal.new self.new
            source.new }
        ensures refused { IsRefused result refusal.new }
    {
        if !self.fill(source, 16, refusal) {
            return None;
        }
        let (value, bits) = self.short_difference(table);
        let count = usize::from(bits);
        if count == 0 || !self.has(count) {
            return Some(None);
        }
        self.skip(count);
        Some(Some(value))
    }

    /// Returns the values that the buffered bits begin with, one or two, and the end of the block
    /// after them, if the table for them is filled.
    #[inline(always)]
    #[tactic(auto, using(crate::proofs::ShortLemmas::eleven_front))]
    pub(crate) fn next_pair(&self, table: &HuffmanTable) -> Pair
        ensures pair { IsPairOf table.now (next_bits 11 self.now.bits) result }
        ensures small { IsWithinPassed result }
        ensures counted { length table.now.counts ≡ 16 }
    {
        table.pair_of(self.bits.front_16())
    }

    pub(crate) fn clear(&mut self)
        ensures { self.new ≡ record self.old { bits = [] } }
    {
        self.bits.clear();
    }

    /// Returns whether the data haven't ended with their bytes, and zeros follow the marker that ends
    /// them.
    pub(crate) fn is_open(&self) -> bool
        ensures { result ≡ true → IsOpen self.now.met }
    {
        match (self.end, self.beyond) {
            (None, Beyond::Zeros) => true,
            (Some(DataEnd::Marker(_)), _) => true,
            _ => false,
        }
    }

    /// Takes the end that was reached. Nothing is buffered any more, and after the next marker zeros
    /// follow.
    pub(crate) fn take_end(&mut self) -> Option<DataEnd>
        ensures end { (beyond : Beyond) × (self.old.met ≡ met_of beyond result) }
        ensures none { self.new ≡ fresh }
    {
        let empty = BufferedBits::new(self.alloc, Beyond::Zeros);
        std::mem::replace(self, empty).end
    }
}

/// Returns whether a marker was reached.
#[inline(always)]
fn is_marker(end: Option<DataEnd>) -> bool
    ensures { result ≡ true → (beyond : Beyond) (bits : List Bool) (bytes : List ℕ)
        → length bits ≡ 0 → bits_from 1 (upcoming_by bits (met_of beyond end) bytes)
        ≡ Ok (0, upcoming_by bits (met_of beyond end) bytes) }
{
    match end {
        Some(DataEnd::Marker(_)) => true,
        _ => false,
    }
}

/// Returns whether there is no fault at the end of the buffered bits.
#[cold]
#[inline(never)]
fn is_padded(end: Option<DataEnd>) -> bool
    ensures { (beyond : Beyond) (count : ℕ) (bits : List Bool) → length bits < count → result
        ≡ is_ok (has_buffered count bits (met_of beyond end)) }
{
    match end {
        None | Some(DataEnd::Marker(_)) => true,
        Some(_) => false,
    }
}

/// Stores the fault at the end of the buffered bits.
#[cold]
#[inline(never)]
fn set_fault(alloc: Global, end: Option<DataEnd>, refusal: &mut Option<Error>)
    ensures names { (beyond : Beyond) (count : ℕ) (bits : List Bool)
        → is_ok (has_buffered count bits (met_of beyond end)) ≡ false
        → Names (kept_refusal refusal.new) (has_buffered count bits (met_of beyond end)) }
    ensures refused { is_some refusal.new ≡ true }
{
    *refusal = Some(match end {
        Some(DataEnd::Malformed) => malformed_end(alloc),
        Some(DataEnd::Stop(_)) => early_marker(alloc),
        _ => end_of_bytes(),
    });
}

/// Stores the refusal of bits that are no code.
#[cold]
#[inline(never)]
fn set_no_code(alloc: Global, refusal: &mut Option<Error>)
    ensures names { NamesFormat (kept_refusal refusal.new) }
    ensures refused { is_some refusal.new ≡ true }
{
    set_format_error(
        alloc,
        "found bits that begin no code of the Huffman table",
        refusal,
    );
}

/// Returns the refusal of FF 00 after fill bytes.
#[cold]
#[inline(never)]
fn malformed_end(alloc: Global) -> Error
    ensures { NamesFormat result }
{
    format_error(alloc, "found FF00 after fill bytes, expected a marker")
}

/// Returns the refusal of a marker in place of bits.
#[cold]
#[inline(never)]
fn early_marker(alloc: Global) -> Error
    ensures { NamesFormat result }
{
    format_error(alloc, "found a marker, expected more bits")
}

/// Returns the marker of an end that was reached, or its refusal.
pub(crate) fn marker_of_end(alloc: Global, end: Option<DataEnd>) -> Result<Option<Marker>>
    ensures { (beyond : Beyond) → Gives (marker_at_end (met_of beyond end)) result }
{
    match end {
        None => Ok(None),
        Some(DataEnd::Marker(marker) | DataEnd::Stop(marker)) => Ok(Some(marker)),
        Some(DataEnd::Malformed) => Err(malformed_end(alloc)),
        Some(DataEnd::Ended) => Err(end_of_bytes()),
    }
}
