//! Huffman tables and their codes (T.81, B.2.4.2 and C.2).
ghost use Rattle.std.specs.Prelude.{◌≡◌, ℕ, ◌≤◌, ◌<◌, ◌↔◌, IsTrue, IfSome, None, ◌+◌, ◌-◌, ◌/◌};
ghost use Rattle.std.specs.Prelude.{◌^◌, drop, length, replicate, sum, slice_index_or, take, IfOk};
ghost use Rattle.std.specs.Prelude.{◌++◌, true, false};
ghost use Rattle.jpeg_bits.specs.Entropy.{number_of, extended};
ghost use Rattle.jpeg_bits.specs.Codes.{code_lengths, code_in, HasCodes};
ghost use Rattle.jpeg_bits.specs.Reading.{NamesFormat};
ghost use Rattle.jpeg_bits.specs.ShortCodes.{short_value_by, HoldsCodes, HoldsRows, ArePassed};
ghost use Rattle.jpeg_bits.specs.ShortCodes.{IsRun, named, no_row, packed, short_only};
ghost use Rattle.jpeg_bits.specs.ShortCodes.{unpacked_code};
ghost use Rattle.jpeg_bits.specs.ShortCodes.{HoldsWideValues, rest_of_code, rest_of_value};
ghost use Rattle.jpeg_bits.specs.Pairs.{AreSmall};
ghost use Rattle.jpeg_bits.specs.Skips.{HoldsSkips, IsSkip};
ghost use Rattle.jpeg_bits.specs.Written.{low_bits};
ghost use Rattle.jpeg_bits.specs.declared.huffman.codes.HuffmanTableClass.TheVariants.{AC, DC};

use crate::error::{Error, Result, format_error_of};
use crate::huffman::bits::{extend, power_of_two};
use crate::huffman::packed_codes::{packed_code, unpacked_code};
use crate::huffman::pairs::{NO_PAIR, Pair, pairs_of};
use std::alloc::{AllocError, Global};
use std::marker::Model;

/// What the symbols of a table are (T.81, B.2.4.2).
#[derive(Clone, Copy, Debug, PartialEq)]
pub enum HuffmanTableClass {
    /// Sizes of DC differences.
    DC,
    /// Runs of zeros and sizes of AC coefficients.
    AC,
}

/// The codes of some symbols (T.81, C.2): how many codes have each length, and the symbols in the
/// order of the codes.
///
/// Look-up tables tell which code of at most 8 bits begins any 8 bits; in a table of class AC,
/// which value and which run any 8 bits begin with, and after `widen` any 11 bits; and after
/// `fill_pairs`, which two values.
#[derive(Drop)]
pub struct HuffmanTable {
    class: HuffmanTableClass,
    // On the heap, since a table is moved. A table without codes allocates nothing.
    codes: Option<Box<CodeTables>>,
    // At the index of each 8 bits, the value that they begin with, the zeros before it, and how
    // many bits it takes with its code. The last number has two bytes, so that an entry has eight
    // and is found without a product. Empty in a table of class DC, and until `fill_values` fills
    // it.
    tokens: Vec<Option<(i16, u8, u16)>>,
    // Most values of a first pass have at most 11 bits with their codes, and a table by 12 bits
    // would leave too little of the first-level cache to the rest. For its sake an entry is packed
    // into four bytes, half of an `Option`: where it has no bits, there is no value. Empty until
    // `widen` fills it: a small picture has fewer tokens than it has entries.
    wide_tokens: Vec<(i16, u8, u8)>,
    // The tokens that 12 bits begin with, where nothing but DC is wanted of a block: how many bits
    // they take, how many coefficients they stand for, and whether the last is the end of the
    // block. Empty until `fill_skips` fills it.
    skips: Vec<(u8, u8, bool)>,
    // The values that 11 bits begin with, one or two, and the end of the block after them, which a
    // first pass reads at once. Empty until `fill_pairs` fills it from those of single values.
    pairs: Vec<Pair>,
    // The differences that 12 bits begin with, as lossless scans have them: the value, and how many
    // bits it takes with its code, or none. Empty until `fill_differences` fills it.
    differences: Vec<(i16, u8)>,
}

/// The codes of a table, in one allocation of less than 1,032 bytes: larger ones aren't in the
/// cache of glibc's `malloc`.
#[derive(Drop)]
struct CodeTables {
    counts: [u8; 16],
    // The first `count` are symbols of codes.
    symbols: [u8; 256],
    count: usize,
    rows: [Row; 16],
    // At the index of each 8 bits, the code of at most 8 bits that begins them: 256 times its
    // length, and its symbol; 0 where none does.
    short: [u16; 256],
}

/// The codes of one length: the value after the greatest, the value of the first, and the index of
/// its symbol.
#[derive(Clone, Copy)]
struct Row {
    end: u32,
    first: u32,
    index: u16,
}

/// No codes.
const NO_ROW: Row = Row {
    end: 0,
    first: 0,
    index: 0,
};

impl Model for HuffmanTable {
    ghost use Rattle.std.specs.Prelude.{◌≡◌, length};
    ghost use Rattle.std.specs.Option.{option_map};
    ghost use Rattle.jpeg_bits.specs.Codes.{Table, table_of};
    ghost use Rattle.jpeg_bits.specs.ShortCodes.{HoldsValues, HoldsWideValues};
    ghost use Rattle.jpeg_bits.specs.Skips.{HoldsSkips};
    ghost use Rattle.jpeg_bits.specs.Pairs.{AreSmall, HoldsPairs};
    ghost use Rattle.jpeg_bits.specs.ShortDifferences.{HoldsDifferences};

    ghost Value = { Table };

    ghost view = { λ t. table_of t.class (option_map (λ b. b.value) t.codes) };

    ghost invariant = { λ t.
        let table = table_of t.class (option_map (λ b. b.value) t.codes) in
        (length table.counts ≡ 16)
        × HoldsValues table t.tokens.items
        × HoldsWideValues table t.wide_tokens.items
        × AreSmall t.wide_tokens.items
        × HoldsSkips table t.skips.items
        × HoldsPairs table t.pairs.items
        × HoldsDifferences table t.differences.items };
}

impl Model for CodeTables {
    ghost use Rattle.std.specs.Prelude.{◌≡◌, ◌≤◌, length, take};
    ghost use Rattle.jpeg_bits.specs.Codes.{CodeList, code_lengths};
    ghost use Rattle.jpeg_bits.specs.ShortCodes.{HoldsRows, HoldsCodes};

    ghost Value = { CodeList };

    ghost view = { λ t. record { counts = t.counts; symbols = take t.count t.symbols } };

    ghost invariant = { λ t. (length t.counts ≡ 16)
        × (length (code_lengths t.counts) ≡ t.count)
        × HoldsRows t.counts t.rows
        × HoldsCodes t.counts (take t.count t.symbols) t.short
        × (length t.short ≡ 256)
        × (length t.symbols ≡ 256)
        × (t.count ≤ 256) };
}

impl HuffmanTable {
    ghost use Rattle.std.specs.Prelude.{◌≡◌, ◌+◌, ◌≤◌, ◌<◌, [], IfOk, IfErr, IfSome, length};
    ghost use Rattle.std.specs.Prelude.{replicate, sum, ◌/◌, None, Some};
    ghost use Rattle.jpeg_bits.specs.Codes.{code_lengths, HasCodes, RefusesCodes};
    ghost use Rattle.jpeg_bits.specs.ShortCodes.{symbol_in, short_value_of};
    ghost use Rattle.jpeg_bits.specs.Written.{low_bits};
    ghost use Rattle.jpeg_bits.specs.Skips.{HoldsSkips, IsSkip};
    ghost use Rattle.jpeg_bits.specs.Pairs.{IsPairOf, IsWithinPassed};
    ghost use Rattle.jpeg_bits.specs.ShortDifferences.{HoldsDifferences, IsShortDifference};

    /// Returns the table of `bits[i]` codes of length i + 1 and of their symbols, `values`, 1 to
    /// 256 of them. The code of all ones is accepted. The error is `Format` if a code doesn't fit
    /// its length, and `OutOfMemory` if memory runs out.
    pub fn new(
        alloc: Global,
        bits: &[u8; 16],
        values: &[u8],
        class: HuffmanTableClass,
    ) -> Result<HuffmanTable>
        requires count { sum bits.now ≡ length values.now }
        requires some { 1 ≤ length values.now }
        requires most { length values.now ≤ 256 }
        ensures table { IfOk result (λ t. t ≡ record
            { class = class; counts = bits.now; symbols = values.now }) }
        ensures codes { IfOk result (λ t. HasCodes (code_lengths bits.now)) }
        ensures refused { IfErr result (λ e. RefusesCodes e (code_lengths bits.now)) }
    {
        let mut table = HuffmanTable::unfilled(alloc, bits, values, class)?;
        table.fill_values(alloc)?;
        Ok(table)
    }

    /// Returns what `new` does, without its look-up table of values, which `fill_values` fills: a
    /// scan of few blocks has fewer values than it has entries.
    #[tactic(auto, using(crate::proofs::CodeLemmas::lengths_length))]
    pub fn unfilled(
        alloc: Global,
        bits: &[u8; 16],
        values: &[u8],
        class: HuffmanTableClass,
    ) -> Result<HuffmanTable>
        requires count { sum bits.now ≡ length values.now }
        requires some { 1 ≤ length values.now }
        requires most { length values.now ≤ 256 }
        ensures table { IfOk result (λ t. t ≡ record
            { class = class; counts = bits.now; symbols = values.now }) }
        ensures codes { IfOk result (λ t. HasCodes (code_lengths bits.now)) }
        ensures refused { IfErr result (λ e. RefusesCodes e (code_lengths bits.now)) }
    {
        if !has_codes(bits) {
            return Err(codes_error(alloc, bits));
        }
        // They are filled where they stay: arrays that are returned are copied.
        let mut codes = Box::new(alloc, CodeTables::empty())?;
        codes.fill(bits, values);
        Ok(HuffmanTable {
            class,
            codes: Some(codes),
            tokens: Vec::new(alloc),
            wide_tokens: Vec::new(alloc),
            skips: Vec::new(alloc),
            pairs: Vec::new(alloc),
            differences: Vec::new(alloc),
        })
    }

    /// Returns a table that has no codes, in place of one that a scan doesn't need: no bits
    /// begin a code.
    pub fn without_codes(alloc: Global, class: HuffmanTableClass) -> HuffmanTable
        ensures { result ≡ record { class = class; counts = replicate 16 0; symbols = [] } }
    {
        HuffmanTable {
            class,
            codes: None,
            tokens: Vec::new(alloc),
            wide_tokens: Vec::new(alloc),
            skips: Vec::new(alloc),
            pairs: Vec::new(alloc),
            differences: Vec::new(alloc),
        }
    }

    /// Copies the table without its look-up tables, which are filled as those of `unfilled` are. The
    /// only error is a refused allocation.
    pub fn copied(&self, alloc: Global) -> std::result::Result<HuffmanTable, AllocError>
        ensures { IfOk result (λ t. t ≡ self.now) }
    {
        let Some(codes) = &self.codes else {
            return Ok(HuffmanTable::without_codes(alloc, self.class));
        };
        let codes = Box::new(alloc, codes.copied())?;
        Ok(HuffmanTable {
            class: self.class,
            codes: Some(codes),
            tokens: Vec::new(alloc),
            wide_tokens: Vec::new(alloc),
            skips: Vec::new(alloc),
            pairs: Vec::new(alloc),
            differences: Vec::new(alloc),
        })
    }

    /// Fills the look-up table of values of at most 8 bits of a table of class AC, by which
    /// `decode_fast_ac` answers at once: `new` has filled it, and `unfilled` hasn't. Nothing else
    /// changes, and a second call does nothing. The only error is `AllocError`.
    pub fn fill_values(&mut self, alloc: Global) -> std::result::Result<(), AllocError>
        ensures { self.new ≡ self.old }
    {
        if self.class == HuffmanTableClass::DC || !self.tokens.is_empty() {
            return Ok(());
        }
        if let Some(codes) = &self.codes {
            self.tokens = codes.short_values(alloc)?;
        }
        Ok(())
    }

    /// Fills the look-up table of values of at most 11 bits of a table of class AC, which takes
    /// some microseconds: it pays for scans of many blocks. Nothing else changes, and a second call
    /// does nothing. The only error is `AllocError`.
    pub fn widen(&mut self, alloc: Global) -> std::result::Result<(), AllocError>
        ensures { self.new ≡ self.old }
    {
        if self.class == HuffmanTableClass::DC || !self.wide_tokens.is_empty() {
            return Ok(());
        }
        if let Some(codes) = &self.codes {
            self.wide_tokens = codes.wide_values(alloc)?;
        }
        Ok(())
    }

    /// Fills the look-up table of the tokens that some bits begin with, by which the AC
    /// coefficients are passed over where DC alone is wanted of a block. It takes some tens of
    /// microseconds: it pays for scans of many blocks. Nothing else changes, and a second call does
    /// nothing. The only error is `AllocError`.
    pub fn fill_skips(&mut self, alloc: Global) -> std::result::Result<(), AllocError>
        ensures { self.new ≡ self.old }
    {
        if self.skips.is_empty() {
            self.skips = self.skips(alloc)?;
        }
        Ok(())
    }

    /// Fills the look-up table by which two values and the end of a block are read at once, where
    /// `widen` has filled that of single ones. It takes some microseconds, and 16 KB: it pays for
    /// sequential scans of very many blocks. Nothing else changes, and a second call does nothing.
    /// The only error is `AllocError`.
    pub fn fill_pairs(&mut self, alloc: Global) -> std::result::Result<(), AllocError>
        ensures { self.new ≡ self.old }
    {
        if !self.pairs.is_empty() || self.wide_tokens.len() != 2048 {
            return Ok(());
        }
        if let Some(codes) = &self.codes {
            self.pairs = pairs_of(alloc, codes.short(), &self.wide_tokens)?;
        }
        Ok(())
    }

    /// Returns the tokens that 12 bits begin with, at the index of each.
    fn skips(&self, alloc: Global) -> std::result::Result<Vec<(u8, u8, bool)>, AllocError>
        ensures { IfOk result (λ v. HoldsSkips self.now v.items) }
    {
        let mut skips = vec![in alloc; (0, 63, false); 4096]?;
        for bits in 0..4096 {
            skips[bits] = self.skip_in(bits as u16);
        }
        Ok(skips)
    }

    /// Returns the whole tokens that 12 bits begin with: how many bits they take, how many
    /// coefficients they stand for, and whether the last is the end of the band. If there are none,
    /// the coefficients are more than any band has room for.
    fn skip_in(&self, bits: u16) -> (u8, u8, bool)
        requires { bits < 4096 }
        ensures { IsSkip self.now (low_bits 12 bits) result }
    {
        let mut used = 0u8;
        let mut passed = 0u8;
        for _ in 0..12u8 {
            let Some((symbol, length)) = self.symbol_of(bits_after(bits, used)) else {
                break;
            };
            let run = symbol / 16;
            let size = symbol % 16;
            let count = length + size;
            if used + count > 12 {
                break;
            }
            if !has_room(run, size) {
                if run == 0 {
                    return (used + count, passed, true);
                }
                break;
            }
            used += count;
            passed += run + 1;
        }
        if passed == 0 {
            return (0, 63, false);
        }
        (used, passed, false)
    }

    /// Fills the look-up table by which the differences of lossless scans are read at once. It
    /// takes some tens of microseconds: it pays for scans of many samples. Nothing else changes,
    /// and a second call does nothing. The only error is `AllocError`.
    pub fn fill_differences(&mut self, alloc: Global) -> std::result::Result<(), AllocError>
        ensures { self.new ≡ self.old }
    {
        if self.differences.is_empty() {
            self.differences = self.differences(alloc)?;
        }
        Ok(())
    }

    /// Returns the differences that 12 bits begin with, at the index of each.
    fn differences(&self, alloc: Global) -> std::result::Result<Vec<(i16, u8)>, AllocError>
        ensures { IfOk result (λ v. HoldsDifferences self.now v.items) }
    {
        let mut differences = vec![in alloc; (0, 0); 4096]?;
        for bits in 0..4096 {
            differences[bits] = self.difference_in(bits as u16);
        }
        Ok(differences)
    }

    /// Returns the difference that 12 bits begin with, and how many bits it takes with its code, or
    /// no bits.
    #[tactic(auto, using(crate::proofs::ShortDifferences::short_none))]
    fn difference_in(&self, bits: u16) -> (i16, u8)
        requires { bits < 4096 }
        ensures { IsShortDifference self.now (low_bits 12 bits) result }
    {
        let Some((symbol, length)) = self.symbol_of(bits_after(bits, 0)) else {
            return (0, 0);
        };
        if symbol > 11 || length + symbol > 12 {
            return (0, 0);
        }
        if symbol == 0 {
            return (0, length);
        }
        (value_in(12, bits, length, symbol), length + symbol)
    }

    /// Returns the difference that the first 12 of 16 bits begin with, as `difference_in` does, if
    /// the table for them is filled.
    #[inline(always)]
    #[tactic(auto, using(crate::proofs::ShortDifferences::short_none))]
    pub(crate) fn difference_of(&self, bits: u16) -> (i16, u8)
        ensures { IsShortDifference self.now (low_bits 12 (bits / 16)) result }
    {
        match self.differences.get((bits >> 4) as usize) {
            Some(difference) => *difference,
            None => (0, 0),
        }
    }

    /// Returns whether the table is of class DC.
    #[inline(always)]
    pub(crate) fn is_dc(&self) -> bool
        ensures { IsTrue result ↔ (self.now.class ≡ DC) }
    {
        self.class == HuffmanTableClass::DC
    }

    /// Returns the symbol and the length of the code that begins 16 bits.
    #[inline(always)]
    pub(crate) fn symbol_of(&self, bits: u16) -> Option<(u8, u8)>
        ensures symbol { result ≡ symbol_in self.now (low_bits 16 bits) }
        ensures within { IfSome result (λ c. c.1 ≤ 16) }
        ensures counted { length self.now.counts ≡ 16 }
    {
        match &self.codes {
            Some(codes) => codes.symbol_of(bits),
            None => None,
        }
    }

    /// Returns the value and the run that 8 bits begin with, and how many bits they take, if they
    /// take at most 8.
    #[inline(always)]
    #[tactic(auto, using(crate::proofs::ShortLemmas::value_at))]
    pub(crate) fn short_value_of(&self, byte: u8) -> Option<(i16, u8, u16)>
        ensures value { result ≡ short_value_of 8 self.now (low_bits 8 byte) }
        ensures within { IfSome result (λ t. t.2 ≤ 8) }
        ensures counted { length self.now.counts ≡ 16 }
    {
        match self.tokens.get(byte as usize) {
            Some(token) => *token,
            None => self.computed_value_of(byte),
        }
    }

    /// Returns what `short_value_of` does, if the look-up table isn't filled.
    #[inline(never)]
    fn computed_value_of(&self, byte: u8) -> Option<(i16, u8, u16)>
        ensures value { result ≡ short_value_of 8 self.now (low_bits 8 byte) }
        ensures within { IfSome result (λ t. t.2 ≤ 8) }
    {
        if self.class == HuffmanTableClass::DC {
            return None;
        }
        match &self.codes {
            Some(codes) => codes.short_value_of(byte),
            None => None,
        }
    }

    /// Returns the value and the run that the first 11 of 16 bits begin with, and how many bits
    /// they take, if the table for them is filled and they take at most 11.
    #[inline(always)]
    pub(crate) fn wide_value_of(&self, bits: u16) -> Option<(i16, u8, u8)>
        ensures value { IfSome result (λ t. short_value_of 11 self.now (low_bits 11 (bits / 32))
            ≡ Some t) }
        ensures within { IfSome result (λ t. t.2 ≤ 11) }
        ensures counted { length self.now.counts ≡ 16 }
    {
        match self.wide_tokens.get((bits >> 5) as usize) {
            Some((value, run, count)) if *count > 0 => Some((*value, *run, *count)),
            _ => None,
        }
    }

    /// Returns the values that the first 11 of 16 bits begin with, and the end of the block after
    /// them, if the table for them is filled.
    #[inline(always)]
    pub(crate) fn pair_of(&self, bits: u16) -> Pair
        ensures pair { IsPairOf self.now (low_bits 11 (bits / 32)) result }
        ensures small { IsWithinPassed result }
        ensures counted { length self.now.counts ≡ 16 }
    {
        match self.pairs.get((bits >> 5) as usize) {
            Some(pair) => *pair,
            None => NO_PAIR,
        }
    }

    /// Returns the tokens that the first 12 of 16 bits begin with, as `skip_in` does, if the table
    /// for them is filled.
    #[inline(always)]
    pub(crate) fn skip_of(&self, bits: u16) -> (u8, u8, bool)
        ensures { IsSkip self.now (low_bits 12 (bits / 16)) result }
    {
        match self.skips.get((bits >> 4) as usize) {
            Some(skip) => *skip,
            None => (0, 63, false),
        }
    }
}

impl CodeTables {
    ghost use Rattle.std.specs.Prelude.{◌≡◌, ◌≤◌, ◌/◌, [], IfOk, IfSome, None, length, replicate};
    ghost use Rattle.jpeg_bits.specs.Codes.{code_lengths, table_of};
    ghost use Rattle.jpeg_bits.specs.ShortCodes.{HasValues, HoldsCodes, HoldsWideValues};
    ghost use Rattle.jpeg_bits.specs.ShortCodes.{short_code, short_value_of, symbol_in};
    ghost use Rattle.jpeg_bits.specs.Written.{low_bits};

    /// Returns tables without codes, which `fill` fills.
    #[inline(always)]
    fn empty() -> CodeTables
        ensures { result ≡ record { counts = replicate 16 0; symbols = [] } }
    {
        CodeTables {
            counts: [0; 16],
            symbols: [0; 256],
            count: 0,
            rows: [NO_ROW; 16],
            short: [0; 256],
        }
    }

    /// Copies the tables.
    fn copied(&self) -> CodeTables
        ensures { result ≡ self.now }
    {
        CodeTables {
            counts: self.counts,
            symbols: self.symbols,
            count: self.count,
            rows: self.rows,
            short: self.short,
        }
    }

    /// Fills the tables with `counts[i]` codes of length i + 1 and with their symbols.
    fn fill(&mut self, counts: &[u8; 16], symbols: &[u8])
        requires count { length (code_lengths counts.now) ≡ length symbols.now }
        requires most { length symbols.now ≤ 256 }
        ensures { self.new ≡ record { counts = counts.now; symbols = symbols.now } }
    {
        self.counts = *counts;
        self.count = symbols.len();
        self.symbols[..symbols.len()].copy_from_slice(symbols);
        fill_rows(&mut self.rows, counts);
        let codes = Codes {
            counts,
            rows: &self.rows,
            values: symbols,
        };
        fill_short(&mut self.short, &codes);
    }

    /// Returns the symbols in the order of the codes.
    #[inline(always)]
    fn symbols(&self) -> &[u8]
        ensures symbols { result.now ≡ self.now.symbols }
        ensures count { length (code_lengths self.now.counts) ≡ length result.now }
        ensures most { length result.now ≤ 256 }
    {
        &self.symbols[..self.count]
    }

    /// Returns the codes of at most 8 bits, packed, by the 8 bits that they begin.
    fn short(&self) -> &[u16; 256]
        ensures codes { HoldsCodes self.now.counts self.now.symbols result.now }
        ensures length { length result.now ≡ 256 }
    {
        &self.short
    }

    /// Returns the symbol and the length of the code that begins 16 bits.
    #[inline(always)]
    fn symbol_of(&self, bits: u16) -> Option<(u8, u8)>
        ensures symbol { result ≡ symbol_in (table_of AC (Some self.now)) (low_bits 16 bits) }
        ensures within { IfSome result (λ c. c.1 ≤ 16) }
    {
        let code = self.short[(bits >> 8) as usize];
        if code == 0 {
            return self.long_symbol_of(bits);
        }
        Some(((code % 256) as u8, (code >> 8) as u8))
    }

    /// Returns what `symbol_of` does, if no code of at most 8 bits begins the bits.
    #[inline(never)]
    #[tactic(auto, using(crate::proofs::Rules::rows))]
    fn long_symbol_of(&self, bits: u16) -> Option<(u8, u8)>
        requires { short_code self.now.counts self.now.symbols (low_bits 8 (bits / 256)) ≡ None }
        ensures symbol { result ≡ symbol_in (table_of AC (Some self.now)) (low_bits 16 bits) }
        ensures within { IfSome result (λ c. c.1 ≤ 16) }
    {
        for i in 8..16 {
            let row = self.rows[i];
            let number = u32::from(bits >> (15 - i));
            if number < row.end {
                let index = usize::from(row.index) + (number - row.first) as usize;
                return Some((self.symbols()[index], (i + 1) as u8));
            }
        }
        None
    }

    /// Returns the value and the run of class AC that 8 bits begin with, and how many bits they
    /// take, if they take at most 8.
    fn short_value_of(&self, byte: u8) -> Option<(i16, u8, u16)>
        ensures value { result
            ≡ short_value_of 8 (table_of AC (Some self.now)) (low_bits 8 byte) }
        ensures within { IfSome result (λ t. t.2 ≤ 8) }
    {
        short_value(unpacked_code(self.short[byte as usize]), 8, u16::from(byte))
    }

    /// Returns the values of class AC of at most 8 bits with their codes, by the 8 bits that they
    /// begin.
    fn short_values(
        &self,
        alloc: Global,
    ) -> std::result::Result<Vec<Option<(i16, u8, u16)>>, AllocError>
        ensures { IfOk result (λ v. HasValues (table_of AC (Some self.now)) v.items) }
    {
        short_values(alloc, &self.short)
    }

    /// Returns the values of class AC of at most 11 bits with their codes, by the 11 bits that they
    /// begin.
    fn wide_values(&self, alloc: Global) -> std::result::Result<Vec<(i16, u8, u8)>, AllocError>
        ensures values { IfOk result (λ v. HoldsWideValues (table_of AC (Some self.now)) v.items) }
        ensures small { IfOk result (λ v. AreSmall v.items) }
    {
        let codes = Codes {
            counts: &self.counts,
            rows: &self.rows,
            values: self.symbols(),
        };
        wide_values(alloc, &codes)
    }
}

/// Returns whether the token of a code stands for coefficients: some zeros and a value, or sixteen
/// zeros.
fn has_room(run: u8, size: u8) -> bool
    ensures some { result ≡ true → size ≡ 0 → run ≡ 15 }
    ensures none { result ≡ false → size ≡ 0 }
{
    size > 0 || run == 15
}

/// Returns 12 bits without the first `used`, and zeros after them.
#[tactic(auto, using(crate::proofs::WideTokens::bits_after))]
fn bits_after(bits: u16, used: u8) -> u16
    requires bits { bits < 4096 }
    requires used { used ≤ 12 }
    ensures { low_bits 16 result ≡ drop used (low_bits 12 bits) ++ replicate (4 + used) false }
{
    ((u32::from(bits) << (4 + used)) % 65536) as u16
}

/// Fills rows with the codes of each length.
fn fill_rows(rows: &mut [Row; 16], counts: &[u8; 16])
    ensures { HoldsRows counts.now rows.new }
{
    let mut end = 0u32;
    let mut index = 0u16;
    for i in 0..16 {
        let count = u32::from(counts[i]);
        let first = 2 * end;
        end = first + count;
        rows[i] = Row { end, first, index };
        index += count as u16;
    }
}

/// Returns whether each code fits its length.
fn has_codes(counts: &[u8; 16]) -> bool
    ensures { IsTrue result ↔ HasCodes (code_lengths counts.now) }
{
    let mut first = 0u32;
    let mut room = 1u32;
    for i in 0..16 {
        let count = u32::from(counts[i]);
        first = 2 * first;
        room = 2 * room;
        if count > 0 && first + count > room {
            return false;
        }
        first += count;
    }
    true
}

/// Returns the refusal of codes that don't all fit their lengths. It says the first length that
/// has too many.
#[cold]
#[inline(never)]
fn codes_error(alloc: Global, counts: &[u8; 16]) -> Error
    ensures { NamesFormat result }
{
    let mut length = 0;
    let mut count = 0u32;
    let mut room = 1u32;
    for i in 0..16 {
        if count <= room {
            length = i + 1;
            room = (room - count).saturating_mul(2);
            count = u32::from(counts[i]);
        }
    }
    format_error_of(format!(in alloc;
        "{count} Huffman codes of length {length}, expected at most {room}"
    ))
}

/// The codes of a table, by which its look-up tables are filled.
#[derive(Clone, Copy)]
struct Codes<'a> {
    counts: &'a [u8; 16],
    rows: &'a [Row; 16],
    values: &'a [u8],
}

/// Returns the first row from `from` on that has a code which begins 16 bits, or 16.
#[inline(always)]
fn first_row(rows: &[Row; 16], from: usize, bits: u16) -> usize
    requires { from ≤ 16 }
    ensures within { result ≤ 16 }
    ensures passed { ArePassed rows.now from bits → ArePassed rows.now result bits }
    ensures found { result < 16 → bits / 2 ^ (15 - result)
        < (slice_index_or rows.now result no_row).end }
{
    for i in from..16 {
        if u32::from(bits >> (15 - i)) < rows[i].end {
            return i;
        }
    }
    16
}

impl Codes<'_> {
    /// Returns the symbol and the length of the code that begins 16 bits. `row` is one before which
    /// no code begins them, and becomes the row of the code: it stays so for all greater bits.
    #[inline(always)]
    fn code_of(&self, row: &mut usize, bits: u16) -> Option<(u8, u8)>
        requires counted { length self.now.counts.now ≡ 16 }
        requires rows { HoldsRows self.now.counts.now self.now.rows.now }
        requires count { length (code_lengths self.now.counts.now) ≡ length self.now.values.now }
        requires most { length self.now.values.now ≤ 256 }
        requires within { row.old ≤ 16 }
        requires passed { ArePassed self.now.rows.now row.old bits }
        ensures code { result ≡ named self.now.values.now
            (code_in (code_lengths self.now.counts.now) (low_bits 16 bits)) }
        ensures length { IfSome result (λ c. c.1 ≤ 16) }
        ensures some { IfSome result (λ c. 1 ≤ c.1) }
        ensures within { row.new ≤ 16 }
        ensures passed { ArePassed self.now.rows.now row.new bits }
    {
        *row = first_row(self.rows, *row, bits);
        let i = *row;
        if i == 16 {
            return None;
        }
        let Row { first, index, .. } = self.rows[i];
        let index = usize::from(index) + (u32::from(bits >> (15 - i)) - first) as usize;
        Some((self.values[index], (i + 1) as u8))
    }
}

/// Returns a code of at most 8 bits, and none for a longer one.
fn short_only(code: Option<(u8, u8)>) -> Option<(u8, u8)>
    ensures code { result ≡ short_only code }
    ensures few { IfSome result (λ c. c.1 ≤ 8) }
    ensures some { IfSome code (λ c. 1 ≤ c.1) → IfSome result (λ c. 1 ≤ c.1) }
{
    match code {
        Some((symbol, length)) if length <= 8 => Some((symbol, length)),
        _ => None,
    }
}

/// Returns how many of 8 bits are after the code that begins them. If none does, it is 0.
fn rest_of_code(code: Option<(u8, u8)>) -> u8
    requires { IfSome code (λ c. c.1 ≤ 8) }
    ensures rest { result ≡ rest_of_code 8 code }
    ensures most { result ≤ 8 }
{
    match code {
        Some((_, length)) => 8 - length,
        None => 0,
    }
}

/// Returns how many of 11 bits are after the value that they begin with, or after its code if they
/// don't have all of it. If no code begins them, it is 0.
fn rest_of_value(code: Option<(u8, u8)>) -> u8
    requires { IfSome code (λ c. c.1 ≤ 16) }
    ensures rest { result ≡ rest_of_value 11 code }
    ensures most { result ≤ 11 }
{
    let Some((symbol, length)) = code else {
        return 0;
    };
    let used = length + symbol % 16;
    if used <= 11 {
        return 11 - used;
    }
    11u8.saturating_sub(length)
}

/// Returns the number after those that differ from `first` in their last `rest` bits alone.
#[tactic(auto, using(crate::proofs::Rules::ends))]
fn end_of_run(first: usize, rest: u8) -> usize
    requires first { first < 2048 }
    requires rest { rest ≤ 11 }
    ensures more { first < result }
    ensures most { result ≤ 2048 }
    ensures byte { first < 256 → rest ≤ 8 → result ≤ 256 }
    ensures run { IsRun rest first result }
{
    ((first >> rest) + 1) << rest
}

/// Sets each entry of a run to a code. A run of eight and more is set by whole vectors, where `fill`
/// sets its last entry apart.
fn set_run(run: &mut [u16], code: u16)
    ensures { run.new ≡ replicate (length run.old) code }
{
    for entry in run.iter_mut() {
        *entry = code;
    }
}

/// Fills a look-up table with the codes of at most 8 bits, by the 8 bits that they begin.
fn fill_short(short: &mut [u16; 256], codes: &Codes<'_>)
    requires counted { length codes.now.counts.now ≡ 16 }
    requires rows { HoldsRows codes.now.counts.now codes.now.rows.now }
    requires count { length (code_lengths codes.now.counts.now) ≡ length codes.now.values.now }
    requires most { length codes.now.values.now ≤ 256 }
    ensures codes { HoldsCodes codes.now.counts.now codes.now.values.now short.new }
    ensures length { length short.new ≡ 256 }
{
    let mut row = 0;
    let mut byte = 0;
    // After a longer code, or bits that begin none, no greater byte begins a short one.
    while byte < 256 && row < 8 {
        let code = short_only(codes.code_of(&mut row, (byte as u16) << 8));
        let end = end_of_run(byte, rest_of_code(code));
        set_run(&mut short[byte..end], packed_code(code));
        byte = end;
    }
    short[byte..].fill(0);
}

/// Returns the value of `size` bits after the first `length` of `count`.
#[tactic(auto, using(crate::proofs::Rules::values))]
fn value_in(count: u8, bits: u16, length: u8, size: u8) -> i16
    requires some { 1 ≤ size }
    requires most { length + size ≤ count }
    requires few { count ≤ 14 }
    ensures { result ≡ extended (number_of (take size (drop length (low_bits count bits)))) size }
{
    let rest = bits % power_of_two(count - length);
    extend(rest >> (count - length - size), size)
}

/// Returns the value and the run of a code of class AC that begins `count` bits, and how many bits
/// they take, if the value is in them too.
fn short_value(code: Option<(u8, u8)>, count: u8, bits: u16) -> Option<(i16, u8, u16)>
    requires code { IfSome code (λ c. c.1 ≤ 16) }
    requires few { count ≤ 14 }
    ensures value { result ≡ short_value_by count AC (low_bits count bits) code }
    ensures run { IfSome result (λ t. t.1 ≤ 15) }
    ensures within { IfSome result (λ t. t.2 ≤ count) }
{
    let Some((symbol, length)) = code else {
        return None;
    };
    let size = symbol % 16;
    if 0 < size && length + size <= count {
        Some((
            value_in(count, bits, length, size),
            symbol / 16,
            u16::from(length + size),
        ))
    } else {
        None
    }
}

/// Returns the values of at most 8 bits with their codes, by the 8 bits that they begin, in a table
/// of class AC.
fn short_values(
    alloc: Global,
    codes: &[u16],
) -> std::result::Result<Vec<Option<(i16, u8, u16)>>, AllocError>
    requires length { length codes.now ≡ 256 }
    requires few { (b : ℕ) → b < 256
        → IfSome (unpacked_code (slice_index_or codes.now b 0)) (λ c. c.1 ≤ 16) }
    ensures values { IfOk result (λ v. (b : ℕ) → b < 256 → slice_index_or v.items b None
        ≡ short_value_by 8 AC (low_bits 8 b) (unpacked_code (slice_index_or codes.now b 0))) }
    ensures length { IfOk result (λ v. length v.items ≡ 256) }
{
    let mut tokens = vec![in alloc; None; 256]?;
    for byte in 0..256 {
        tokens[byte] = short_value(unpacked_code(codes[byte]), 8, byte as u16);
    }
    Ok(tokens)
}

/// Packs a value into four bytes. One that takes no bits is none.
fn packed(value: Option<(i16, u8, u16)>) -> (i16, u8, u8)
    requires { IfSome value (λ t. t.2 ≤ 255) }
    ensures { result ≡ packed value }
{
    match value {
        Some((value, run, count)) => (value, run, count as u8),
        None => (0, 0, 0),
    }
}

/// Returns the values of at most 11 bits with their codes, by the 11 bits that they begin, in a
/// table of class AC.
fn wide_values(
    alloc: Global,
    codes: &Codes<'_>,
) -> std::result::Result<Vec<(i16, u8, u8)>, AllocError>
    requires counted { length codes.now.counts.now ≡ 16 }
    requires rows { HoldsRows codes.now.counts.now codes.now.rows.now }
    requires count { length (code_lengths codes.now.counts.now) ≡ length codes.now.values.now }
    requires most { length codes.now.values.now ≤ 256 }
    ensures values { IfOk result (λ v. HoldsWideValues (record
        { class = AC; counts = codes.now.counts.now; symbols = codes.now.values.now }) v.items) }
    ensures small { IfOk result (λ v. AreSmall v.items) }
    ensures length { IfOk result (λ v. length v.items ≡ 2048) }
{
    let mut tokens = vec![in alloc; (0, 0, 0); 2048]?;
    let mut row = 0;
    let mut index = 0;
    while index < 2048 {
        let bits = index as u16;
        let code = codes.code_of(&mut row, bits << 5);
        let token = packed(short_value(code, 11, bits));
        let end = end_of_run(index, rest_of_value(code));
        for at in index..end {
            tokens[at] = token;
        }
        index = end;
    }
    Ok(tokens)
}
