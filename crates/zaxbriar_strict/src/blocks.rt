//! The coefficients of a block (T.81, F.2.2 and G.2).
ghost use Rattle.std.specs.Prelude.{◌≡◌, ◌≤◌, ◌≤ℤ◌, ◌+ℤ◌, ◌-ℤ◌, ◌*ℤ◌, negsuc, pos, IfOk};
ghost use Rattle.jpeg_bits.specs.BlockView.{dc_in};
ghost use Rattle.jpeg_bits.specs.declared.huffman.codes.HuffmanTableClass.TheVariants.{AC, DC};
ghost use Rattle.zaxbriar_strict.specs.Bands.{block_in, IsInner};
ghost use Rattle.zaxbriar_strict.specs.Blocks.{ReadsBlock, WritesWhole};
ghost use Rattle.zaxbriar_strict.specs.Data.{Reads};
ghost use Rattle.zaxbriar_strict.specs.Loaded.{data_of};
ghost use Rattle.zaxbriar_strict.specs.Tables.{codes_in};

use crate::bits::Bits;
use crate::huffman::HuffmanTable;
use crate::quantization::{Block, Steps, is_in_range};
use crate::rule::Rule;

/// Which coefficients of a block are sent, and which of their bits.
#[derive(Clone, Copy)]
pub(crate) struct Band {
    first: usize,
    last: usize,
    /// Whether bits of them were sent before.
    pub(crate) is_refined: bool,
    /// The lowest bit that is sent.
    low: u32,
    /// The categories of DC differences and of AC coefficients.
    most_dc: u32,
    most_ac: u32,
    is_progressive: bool,
    ghost within: { last ≤ 63 },
    ghost shallow: { low ≤ 13 },
    ghost categories: { most_ac ≤ 14 },
}

/// What a code of a band stands for.
#[derive(Clone, Copy)]
struct Step {
    /// The place of the next coefficient.
    place: usize,
    /// Whether the code stands for sixteen zeros.
    is_zeros: bool,
    /// At the end of a band, how many bits follow the code.
    end: Option<u32>,
}

/// The end of bands that a code announced for the blocks to come.
pub(crate) type Run = u32;

impl Band {
    ghost use Rattle.std.specs.Prelude.{◌≡◌, ◌≤◌, ◌<◌, ◌-◌, ◌*◌, ◌^◌, ◌-ℤ◌, ◌*ℤ◌, [], ◌∷◌, ◌++◌};
    ghost use Rattle.std.specs.Prelude.{IfOk, IfSome, not, true, suc, ◌+◌, ◌≢◌, slice_index_or};
    ghost use Rattle.std.specs.Prelude.{◌==◌, nat_lt, None, List, length, drop, false, pos, ℕ, ℤ};
    ghost use Rattle.jpeg_bits.specs.BlockView.{dc_in};
    ghost use Rattle.jpeg_bits.specs.Codes.{Table};
    ghost use Rattle.jpeg_bits.specs.Passes.{Pass, band_of, band_size};
    ghost use Rattle.jpeg_bits.specs.Written.{IsCoded};
    ghost use Rattle.jpeg_bits.specs.declared.huffman.codes.HuffmanTableClass.{HuffmanTableClass};
    ghost use Rattle.jpeg_meaning.specs.WrittenData.{no_numbers, WritesDifference};
    ghost use Rattle.zaxbriar_strict.specs.BandCodes.{AreCorrections, CorrectsOne, PassesZeros};
    ghost use Rattle.zaxbriar_strict.specs.BandCodes.{ReadsCodes, ReadsNew, ReadsRun, ReadsStep};
    ghost use Rattle.zaxbriar_strict.specs.BandCodes.{Refines, RefinesCodes, RefinesFront};
    ghost use Rattle.zaxbriar_strict.specs.Bands.{IsInner, ReadsAc};
    ghost use Rattle.zaxbriar_strict.specs.Data.{Reads, Takes};
    ghost use Rattle.zaxbriar_strict.specs.Loaded.{data_of};
    ghost use Rattle.zaxbriar_strict.specs.Sent.{AllInner, IsPass, ReadsSentAc, ReadsSentDc};
    ghost use Rattle.zaxbriar_strict.specs.Sent.{scaled_by};
    ghost use Rattle.zaxbriar_strict.specs.Tables.{codes_in};
    ghost use Rattle.zaxbriar_strict.specs.Whole.{IsWhole};

    /// Returns the band of a sequential scan, of 8 bits, or else of 12.
    pub(crate) fn whole(is_deep: bool) -> Band
        ensures { IsWhole result }
    {
        Band::new(0, 63, 0, is_deep, false)
    }

    fn new(first: u8, last: u8, low: u8, is_deep: bool, is_progressive: bool) -> Band
        ensures first { result.first ≡ first }
        ensures last { last ≤ 63 → result.last ≡ last }
        ensures low { low ≤ 13 → result.low ≡ low }
        ensures is_first { result.is_refined ≡ false }
        ensures process { result.is_progressive ≡ is_progressive }
    {
        Band {
            first: usize::from(first),
            last: usize::from(last.min(63)),
            is_refined: false,
            low: u32::from(low.min(13)),
            most_dc: if is_deep { 15 } else { 11 },
            most_ac: if is_deep { 14 } else { 10 },
            is_progressive,
        }
    }

    /// Returns the band of a progressive scan.
    pub(crate) fn sent(first: u8, last: u8, low: u8, is_refined: bool, is_deep: bool) -> Band
        ensures { last ≤ 63 → low ≤ 13
            → IsPass (record { is_first = not is_refined; ss = first; se = last; al = low })
            result }
    {
        let mut band = Band::new(first, last, low, is_deep, true);
        band.is_refined = is_refined;
        band
    }

    /// Returns whether the DC coefficient is sent.
    pub(crate) fn has_dc(&self) -> bool
        ensures { result ≡ (self.now.first == 0) }
    {
        self.first == 0
    }

    /// Returns whether AC coefficients are sent.
    pub(crate) fn has_ac(&self) -> bool
        ensures { result ≡ nat_lt 0 self.now.last }
    {
        self.last != 0
    }

    /// Returns the greatest category of DC differences.
    pub(crate) fn most_dc(&self) -> u32 {
        self.most_dc
    }

    /// Returns the lowest bit that is sent, as a number.
    fn unit(&self) -> i32
        ensures { result ≡ pos (2 ^ self.now.low) }
    {
        1i32 << self.low
    }

    /// Reads a DC difference (F.2.2.1).
    fn difference(&self, bits: &mut Bits<'_>, table: &HuffmanTable) -> Result<i32, Rule>
        ensures { IfOk result (λ d. (class : HuffmanTableClass)
            → Reads (WritesDifference (codes_in class table.now) d) (data_of bits.old)
            (data_of bits.new)) }
    {
        let category = u32::from(bits.symbol(table)?);
        if category > self.most_dc || category > 15 {
            return Err(Rule::DcCategory);
        }
        if category == 0 {
            return Ok(0);
        }
        let difference = bits.value(category)?;
        Ok(difference)
    }

    /// Reads the DC coefficient as its difference from the one before (F.2.2.1).
    pub(crate) fn read_difference(
        &self,
        bits: &mut Bits<'_>,
        table: &HuffmanTable,
        before: &mut i16,
        block: &mut Block,
    ) -> Result<(), Rule>
        ensures written { IfOk result (λ _. self.now.low ≡ 0 → IsInner (dc_in block.new)
            → (class : HuffmanTableClass)
            → Reads (WritesDifference (codes_in class table.now) (dc_in block.new -ℤ before.old))
            (data_of bits.old) (data_of bits.new)) }
        ensures next { IfOk result (λ _. self.now.low ≡ 0 → IsInner (dc_in block.new)
            → before.new ≡ dc_in block.new) }
        ensures sent { IfOk result (λ _. (p : Pass) → IsPass p self.now → p.ss ≡ 0
            → p.is_first ≡ true → IsInner (dc_in block.new) → (class : HuffmanTableClass)
            → ReadsSentDc p (codes_in class table.now) before.old before.new block.old block.new
            (data_of bits.old) (data_of bits.new)) }
        ensures others { drop 1 block.new ≡ drop 1 block.old }
    {
        let difference = self.difference(bits, table)?;
        *before = sum_of(*before, difference);
        block[0] = product_of(i32::from(*before), self.unit());
        Ok(())
    }

    /// Reads one more bit of the DC coefficient (G.1.2.1).
    pub(crate) fn refine_dc(&self, bits: &mut Bits<'_>, block: &mut Block) -> Result<(), Rule>
        ensures sent { IfOk result (λ _. (p : Pass) → IsPass p self.now → p.ss ≡ 0
            → p.is_first ≡ false → (kept : ℤ) → dc_in block.old ≡ kept *ℤ pos (2 ^ suc p.al)
            → (table : Table) (before : ℤ)
            → ReadsSentDc p table before before block.old block.new (data_of bits.old)
            (data_of bits.new)) }
    {
        if bits.take_bit()? {
            block[0] = sum_of(block[0], self.unit());
        }
        Ok(())
    }

    /// Reads how many blocks end here, this one included (G.1.2.2: EOBn).
    fn read_run(&self, bits: &mut Bits<'_>, order: u32) -> Result<Run, Rule>
        requires { order ≤ 15 }
        ensures sent { IfOk result
            (λ run. ReadsRun order run (data_of bits.old) (data_of bits.new)) }
        ensures one { IfOk result (λ run. self.now.is_progressive ≡ false → run ≡ 1) }
        ensures some { IfOk result (λ run. 1 ≤ run) }
    {
        if order == 0 {
            return Ok(1);
        }
        if !self.is_progressive {
            return Err(Rule::RunInSequential);
        }
        Ok((1u32 << order) + u32::from(bits.take(order)?))
    }

    /// Reads the AC coefficients of the band (F.2.2.2 and G.1.2.2).
    pub(crate) fn read_ac(
        &self,
        bits: &mut Bits<'_>,
        table: &HuffmanTable,
        run: &mut Run,
        block: &mut Block,
    ) -> Result<(), Rule>
        ensures written { IfOk result (λ _. IsWhole self.now → run.old ≡ 0 → (dc : ℤ) (n : ℕ)
            → n ≡ 63 → block.old ≡ dc ∷ no_numbers n → (class : HuffmanTableClass)
            → ReadsAc (codes_in class table.now) dc block.new (data_of bits.old)
            (data_of bits.new)) }
        ensures run { IfOk result (λ _. IsWhole self.now → run.old ≡ 0 → run.new ≡ 0) }
        ensures sent { IfOk result (λ _. (p : Pass) → IsPass p self.now → 1 ≤ p.ss → p.ss ≤ p.se
            → p.is_first ≡ true → band_of p (drop 1 block.old) ≡ no_numbers (band_size p)
            → (class : HuffmanTableClass)
            → ReadsSentAc p (codes_in class table.now) run.old run.new block.old block.new
            (data_of bits.old) (data_of bits.new)) }
    {
        if *run == 0 {
            self.read_codes(bits, table, self.first.max(1), run, block)?;
        }
        *run = run.saturating_sub(1);
        Ok(())
    }

    /// Reads the codes of the band from its start on. How many bands end here, this one included,
    /// is put to the run, which is 0 before.
    fn read_codes(
        &self,
        bits: &mut Bits<'_>,
        table: &HuffmanTable,
        start: usize,
        run: &mut Run,
        block: &mut Block,
    ) -> Result<(), Rule>
        ensures sent { IfOk result (λ _. run.old ≡ 0 → (count : ℕ) (front tail : List ℤ)
            → length front ≡ start → start + count ≡ suc self.now.last
            → block.old ≡ front ++ (no_numbers count ++ tail) → (class : HuffmanTableClass)
            → ReadsCodes (codes_in class table.now) self.now.low count run.new front tail block.new
            (data_of bits.old) (data_of bits.new)) }
        ensures one { IfOk result (λ _. run.old ≡ 0 → self.now.is_progressive ≡ false
            → run.new ≤ 1) }
    {
        let mut place = start;
        let mut is_after_zeros = false;
        while place <= self.last {
            let step = self.read_step(bits, table, place, block)?;
            if let Some(order) = step.end {
                if is_after_zeros {
                    return Err(Rule::ZerosBeforeEnd);
                }
                *run = self.read_run(bits, order)?;
                return Ok(());
            }
            place = step.place;
            is_after_zeros = step.is_zeros;
        }
        if is_after_zeros {
            return Err(Rule::ZerosAtEnd);
        }
        Ok(())
    }

    /// Reads a code of a band from a place on, and the value after it. Of an end of the band the
    /// code alone is read.
    fn read_step(
        &self,
        bits: &mut Bits<'_>,
        table: &HuffmanTable,
        place: usize,
        block: &mut Block,
    ) -> Result<Step, Rule>
        requires { place ≤ self.now.last }
        ensures end { IfOk result (λ s. IfSome s.end (λ order. (order ≤ 14)
            × (block.new ≡ block.old) × ((class : HuffmanTableClass)
            → Reads (IsCoded (codes_in class table.now) (16 * order)) (data_of bits.old)
            (data_of bits.new)))) }
        ensures step { IfOk result (λ s. s.end ≡ None → (front tail : List ℤ)
            → length front ≡ place
            → block.old ≡ front ++ (no_numbers (suc self.now.last - place) ++ tail)
            → (class : HuffmanTableClass)
            → ReadsStep (codes_in class table.now) self.now.low self.now.last place s.place front
            tail block.new (data_of bits.old) (data_of bits.new)) }
        ensures on { IfOk result
            (λ s. s.end ≡ None → (place < s.place) × (s.place ≤ suc self.now.last)) }
    {
        let symbol = bits.symbol(table)?;
        let (zeros, category) = (usize::from(symbol / 16), u32::from(symbol % 16));
        if category == 0 && zeros < 15 {
            return Ok(Step {
                place,
                is_zeros: false,
                end: Some(zeros as u32),
            });
        }
        let last = place + zeros;
        if last > self.last {
            return Err(Rule::PastBand);
        }
        if category == 0 {
            return Ok(Step {
                place: last + 1,
                is_zeros: true,
                end: None,
            });
        }
        if category + self.low > self.most_ac {
            return Err(Rule::AcCategory);
        }
        let value = bits.value(category)?;
        block[last] = product_of(value, self.unit());
        Ok(Step {
            place: last + 1,
            is_zeros: false,
            end: None,
        })
    }

    /// Reads one more bit of the AC coefficients of the band (G.1.2.3).
    pub(crate) fn refine_ac(
        &self,
        bits: &mut Bits<'_>,
        table: &HuffmanTable,
        run: &mut Run,
        block: &mut Block,
    ) -> Result<(), Rule>
        ensures sent { IfOk result (λ _. (p : Pass) → IsPass p self.now → 1 ≤ p.ss → p.ss ≤ p.se
            → p.is_first ≡ false → (kept : List ℤ)
            → band_of p (drop 1 block.old) ≡ scaled_by (suc p.al) kept → AllInner block.new
            → (class : HuffmanTableClass)
            → ReadsSentAc p (codes_in class table.now) run.old run.new block.old block.new
            (data_of bits.old) (data_of bits.new)) }
    {
        let mut place = self.first;
        if *run == 0 {
            place = self.refine_codes(bits, table, run, block)?;
        }
        if *run > 0 {
            self.correct_rest(bits, place, block)?;
            *run -= 1;
        }
        Ok(())
    }

    /// Reads the codes of a refinement of the band, and returns the place after them. How many
    /// bands end there, this one included, is put to the run, which is 0 before.
    fn refine_codes(
        &self,
        bits: &mut Bits<'_>,
        table: &HuffmanTable,
        run: &mut Run,
        block: &mut Block,
    ) -> Result<usize, Rule>
        ensures sent { IfOk result (λ place. run.old ≡ 0 → (front kept tail : List ℤ)
            → length front ≡ self.now.first
            → self.now.first + length kept ≡ suc self.now.last
            → AllInner (scaled_by (suc self.now.low) kept)
            → block.old ≡ front ++ (scaled_by (suc self.now.low) kept ++ tail)
            → (class : HuffmanTableClass)
            → Refines (RefinesCodes (codes_in class table.now) (suc self.now.last - place) run.new)
            self.now.low place front kept tail block.new (data_of bits.old) (data_of bits.new)) }
        ensures within { IfOk result (λ place. self.now.first ≤ suc self.now.last
            → place ≤ suc self.now.last) }
        ensures all { IfOk result (λ place. run.new ≡ 0 → self.now.last < place) }
        ensures inner { IfOk result (λ _. AllInner block.new → AllInner block.old) }
    {
        let mut place = self.first;
        let mut is_after_zeros = false;
        while place <= self.last {
            let step = self.refine_step(bits, table, place, block)?;
            if let Some(order) = step.end {
                if is_after_zeros {
                    return Err(Rule::RefinedZerosBeforeEnd);
                }
                *run = self.read_run(bits, order)?;
                return Ok(place);
            }
            place = step.place;
            is_after_zeros = step.is_zeros;
        }
        if is_after_zeros {
            return Err(Rule::RefinedZerosAtEnd);
        }
        Ok(place)
    }

    /// Reads a code of a refinement of a band from a place on, and the bits after it up to the next
    /// place. Of an end of the band the code alone is read.
    fn refine_step(
        &self,
        bits: &mut Bits<'_>,
        table: &HuffmanTable,
        place: usize,
        block: &mut Block,
    ) -> Result<Step, Rule>
        requires { place ≤ self.now.last }
        ensures end { IfOk result (λ s. IfSome s.end (λ order. (order ≤ 14)
            × (block.new ≡ block.old) × ((class : HuffmanTableClass)
            → Reads (IsCoded (codes_in class table.now) (16 * order)) (data_of bits.old)
            (data_of bits.new)))) }
        ensures step { IfOk result (λ s. s.end ≡ None → (front kept tail : List ℤ)
            → length front ≡ place → place + length kept ≡ suc self.now.last
            → AllInner (scaled_by (suc self.now.low) kept)
            → block.old ≡ front ++ (scaled_by (suc self.now.low) kept ++ tail)
            → (class : HuffmanTableClass)
            → Refines (RefinesFront (codes_in class table.now)) self.now.low s.place front kept
            tail block.new (data_of bits.old) (data_of bits.new)) }
        ensures on { IfOk result
            (λ s. s.end ≡ None → (place < s.place) × (s.place ≤ suc self.now.last)) }
        ensures inner { IfOk result (λ _. AllInner block.new → AllInner block.old) }
    {
        let symbol = bits.symbol(table)?;
        let (zeros, category) = (u32::from(symbol / 16), symbol % 16);
        if category > 1 {
            return Err(Rule::RefinedValue);
        }
        if category == 0 && zeros < 15 {
            return Ok(Step {
                place,
                is_zeros: false,
                end: Some(zeros),
            });
        }
        let value = self.read_new(bits, category == 1)?;
        let zero = self.pass(bits, place, zeros, block)?;
        if zero > self.last {
            return Err(Rule::PastRefinedBand);
        }
        block[zero] = value;
        Ok(Step {
            place: zero + 1,
            is_zeros: category == 0,
            end: None,
        })
    }

    /// Reads the sign of a coefficient that was 0 before, if there is one.
    fn read_new(&self, bits: &mut Bits<'_>, is_new: bool) -> Result<i16, Rule>
        ensures none { IfOk result (λ c. is_new ≡ false
            → (c ≡ pos 0) × Takes [] (data_of bits.old) (data_of bits.new)) }
        ensures new { IfOk result (λ c. is_new ≡ true
            → ReadsNew self.now.low c (data_of bits.old) (data_of bits.new)) }
    {
        if !is_new {
            return Ok(0);
        }
        let sign = if bits.take_bit()? { 1i32 } else { -1 };
        Ok(product_of(sign, self.unit()))
    }

    /// Corrects the coefficients from a place on that aren't 0, up to the zero after this many
    /// zeros, and returns its place, or that after the band where it has none.
    fn pass(
        &self,
        bits: &mut Bits<'_>,
        place: usize,
        zeros: u32,
        block: &mut Block,
    ) -> Result<usize, Rule>
        ensures sent { IfOk result (λ zero. zero ≤ self.now.last → (front kept tail : List ℤ)
            → length front ≡ place → place + length kept ≡ suc self.now.last
            → AllInner (scaled_by (suc self.now.low) kept)
            → block.old ≡ front ++ (scaled_by (suc self.now.low) kept ++ tail)
            → Refines (PassesZeros zeros) self.now.low zero front kept tail block.new
            (data_of bits.old) (data_of bits.new)) }
        ensures zero { IfOk result (λ zero. zero ≤ self.now.last
            → (place ≤ zero) × (slice_index_or block.new zero (pos 0) ≡ pos 0)) }
        ensures inner { IfOk result (λ _. AllInner block.new → AllInner block.old) }
    {
        let mut left = zeros;
        for place in place..self.last + 1 {
            if block[place] != 0 {
                block[place] = self.corrected(bits, block[place])?;
            } else if left == 0 {
                return Ok(place);
            } else {
                left -= 1;
            }
        }
        Ok(self.last + 1)
    }

    /// Corrects the coefficients from a place to the end of the band that aren't 0.
    fn correct_rest(&self, bits: &mut Bits<'_>, place: usize, block: &mut Block) -> Result<(), Rule>
        ensures sent { IfOk result (λ _. (front kept tail : List ℤ) → length front ≡ place
            → place + length kept ≡ suc self.now.last
            → AllInner (scaled_by (suc self.now.low) kept)
            → block.old ≡ front ++ (scaled_by (suc self.now.low) kept ++ tail)
            → Refines AreCorrections self.now.low (suc self.now.last) front kept tail block.new
            (data_of bits.old) (data_of bits.new)) }
        ensures inner { IfOk result (λ _. AllInner block.new → AllInner block.old) }
    {
        for place in place..self.last + 1 {
            if block[place] != 0 {
                block[place] = self.corrected(bits, block[place])?;
            }
        }
        Ok(())
    }

    /// Reads one more bit of a coefficient that isn't 0, and returns the coefficient.
    fn corrected(&self, bits: &mut Bits<'_>, coefficient: i16) -> Result<i16, Rule>
        ensures sent { IfOk result (λ c. (kept : ℤ)
            → coefficient ≡ kept *ℤ pos (2 ^ suc self.now.low) → coefficient ≢ pos 0
            → IsInner coefficient
            → CorrectsOne self.now.low kept c (data_of bits.old) (data_of bits.new)) }
        ensures inner { IfOk result (λ c. IsInner c → IsInner coefficient) }
    {
        if !bits.take_bit()? {
            return Ok(coefficient);
        }
        Ok(if coefficient > 0 {
            sum_of(coefficient, self.unit())
        } else {
            difference_of(coefficient, self.unit())
        })
    }
}

/// Reads a block of a sequential frame of 8 bits, or else of 12, by its Huffman tables, after the
/// DC coefficient of the block before.
pub(crate) fn read_block(
    bits: &mut Bits<'_>,
    dc: &HuffmanTable,
    ac: &HuffmanTable,
    before: &mut i16,
    is_deep: bool,
) -> Result<Block, Rule>
    ensures written { IfOk result (λ b. IsInner (dc_in b)
        → Reads (WritesWhole (codes_in DC dc.now) (codes_in AC ac.now) (block_in b) before.old)
        (data_of bits.old) (data_of bits.new)) }
    ensures next { IfOk result (λ b. IsInner (dc_in b) → before.new ≡ dc_in b) }
{
    let band = Band::whole(is_deep);
    let mut block = [0i16; 64];
    let mut run = 0;
    band.read_difference(bits, dc, before, &mut block)?;
    band.read_ac(bits, ac, &mut run, &mut block)?;
    Ok(block)
}

/// Reads a block of a sequential frame, whose coefficients have to be those of some samples.
pub(crate) fn read_in_range(
    bits: &mut Bits<'_>,
    dc: &HuffmanTable,
    ac: &HuffmanTable,
    before: &mut i16,
    steps: &Steps,
    is_deep: bool,
) -> Result<(), Rule>
    ensures { IfOk result (λ _. ReadsBlock is_deep (codes_in DC dc.now) (codes_in AC ac.now)
        before.old before.new (data_of bits.old) (data_of bits.new)) }
{
    let block = read_block(bits, dc, ac, before, is_deep)?;
    if is_in_range(&block, steps, is_deep) {
        Ok(())
    } else {
        Err(Rule::Range)
    }
}

/// Returns a coefficient, or the nearest of 16 bits, which no samples have.
fn coefficient_of(value: i32) -> i16
    ensures inner { IsInner result → result ≡ value }
    ensures exact { negsuc 32767 ≤ℤ value → value ≤ℤ pos 32767 → result ≡ value }
{
    if value > 32767 {
        32767
    } else if value < -32768 {
        -32768
    } else {
        value as i16
    }
}

/// Returns a coefficient and a difference together, or the nearest of 16 bits.
fn sum_of(before: i16, difference: i32) -> i16
    ensures inner { IsInner result → result ≡ before +ℤ difference }
    ensures exact { negsuc 32767 ≤ℤ (before +ℤ difference) → (before +ℤ difference) ≤ℤ pos 32767
        → result ≡ before +ℤ difference }
{
    coefficient_of(i32::from(before).saturating_add(difference))
}

/// Returns a coefficient less a number, or the nearest of 16 bits.
fn difference_of(before: i16, number: i32) -> i16
    ensures inner { IsInner result → result ≡ before -ℤ number }
    ensures exact { negsuc 32767 ≤ℤ (before -ℤ number) → (before -ℤ number) ≤ℤ pos 32767
        → result ≡ before -ℤ number }
{
    coefficient_of(i32::from(before).saturating_sub(number))
}

/// Returns a coefficient of which this is the number at a unit, or the nearest of 16 bits.
fn product_of(number: i32, unit: i32) -> i16
    ensures inner { IsInner result → result ≡ number *ℤ unit }
    ensures exact { negsuc 32767 ≤ℤ (number *ℤ unit) → (number *ℤ unit) ≤ℤ pos 32767
        → result ≡ number *ℤ unit }
{
    coefficient_of(number.saturating_mul(unit))
}
