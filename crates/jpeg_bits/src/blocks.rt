//! A block of a scan, of any pass.
//!
//! `take_block` reads the DC coefficient and then the band. A first pass goes token by token
//! (`tokens`), and passes over a band of which nothing is kept; a refinement goes from one nonzero
//! coefficient to the next (`refinement`).
ghost use Rattle.std.specs.Prelude.{◌≡◌, ◌≤◌, ◌<◌, set, is_some, true, false};
ghost use Rattle.jpeg_bits.specs.Refusals.{outcome_of};
ghost use Rattle.jpeg_bits.specs.Entropy.{Takes};
ghost use Rattle.jpeg_bits.specs.declared.huffman.codes.HuffmanTableClass.TheVariants.{AC};
ghost use Rattle.jpeg_bits.specs.Passes.{dc_part, band_part, block_from, or_bit, band_size};
ghost use Rattle.jpeg_bits.specs.BlockView.{to_block, dc_in, pass_in, predictor_at, IsPass};
ghost use Rattle.jpeg_bits.specs.ZigzagParts.{band_in, KeepsOthers};
ghost use Rattle.jpeg_bits.specs.Skips.{kept, kept_from, run_part};

pub mod bands;
mod pass;
mod refinement;
mod tokens;
mod zigzag;

pub use crate::blocks::pass::Pass;
use crate::blocks::refinement::{correct_band, lacks_bit, read_refined_band, unit};
use crate::blocks::tokens::{
    read_difference, read_first_band, read_first_coefficients, shifted, skip_first_band,
    wrapped_sum,
};
use crate::error::{Error, Result, take_refusal};
use crate::huffman::ahead::BufferedBits;
use crate::huffman::{HuffmanDecoder, HuffmanTable};
use crate::source::Source;
use std::io::Read;

/// How the blocks of a component are coded in a scan (T.81, B.2.3).
#[derive(Clone, Copy)]
pub struct BlockCoding<'a> {
    /// What the scan codes.
    pub pass: Pass,
    /// The component's index in the scan, from 0 to 3, which is that of its predictor.
    pub slot: usize,
    /// The table of the DC coefficients.
    pub dc_table: &'a HuffmanTable,
    /// The table of the AC coefficients.
    pub ac_table: &'a HuffmanTable,
    /// Whether the AC coefficients are kept. If they aren't, those of a block that begins with DC
    /// are passed over, and stay as they are.
    pub keeps_ac: bool,
    pub ghost first: { keeps_ac ≡ false → pass.is_first ≡ true },
    pub ghost legal: { IsPass (pass_in pass) },
    pub ghost within: { slot < 4 },
    pub ghost class: { ac_table.now.class ≡ AC },
}

/// What a block leaves for those after it in its restart interval (T.81, F.2.1.3.1).
#[derive(Clone, Copy, Debug, PartialEq)]
pub struct Carried {
    /// The predictor of the DC coefficient of each component, by its index in the scan.
    pub predictors: [i16; 4],
    /// The number of blocks that follow in the end-of-band run that was last read (T.81, G.1.2.2).
    pub run: u16,
}

impl Carried {
    ghost use Rattle.std.specs.Prelude.{◌≡◌};
    ghost use Rattle.jpeg_bits.specs.Passes.{predictors_at_start};

    /// Returns what the first block of an interval starts with: no prediction and no run.
    pub fn at_start() -> Carried
        ensures { result ≡ record { predictors = predictors_at_start; run = 0 } }
    {
        Carried {
            predictors: [0; 4],
            run: 0,
        }
    }
}

/// Returns a DC coefficient with bit `al` set.
#[inline]
#[tactic(auto, using(std::proofs::lemmas::Int::wraps, crate::proofs::PieceWalks::or_rules))]
fn with_bit(value: i16, al: u8) -> i16
    requires { al ≤ 13 }
    ensures { result ≡ or_bit al value 1 }
{
    if lacks_bit(value, al) {
        return value.wrapping_add(unit(al));
    }
    value
}

/// Reads the DC coefficient of a block, in a pass that begins with it. A refusal is stored in
/// `refusal`, and false is returned.
#[inline(always)]
#[tactic(auto, using(crate::proofs::BlockParts::dc_rules))]
fn read_dc<R: Read + Drop>(
    buffered: &mut BufferedBits,
    source: &mut Source<R>,
    coding: &BlockCoding<'_>,
    predictor: &mut i16,
    block: &mut [i16; 64],
    refusal: &mut Option<Error>,
) -> bool
    requires dc { coding.now.pass.ss ≡ 0 }
    ensures part { Takes (λ _. (dc_in block.new, predictor.new))
        (dc_part (pass_in coding.now.pass) coding.now.dc_table.now (dc_in block.old) predictor.old)
        buffered.old source.old (outcome_of result refusal.new) buffered.new source.new }
    ensures others { block.new ≡ set block.old 0 (dc_in block.new) }
    ensures refused { result ≡ false → is_some refusal.new ≡ true }
{
    let pass = coding.pass;
    if pass.is_first {
        let Some(difference) = read_difference(buffered, source, coding.dc_table, refusal) else {
            return false;
        };
        *predictor = wrapped_sum(*predictor, difference);
        block[0] = shifted(*predictor, pass.al);
        return true;
    }
    let Some(bit) = buffered.take_number(source, 1, refusal) else {
        return false;
    };
    // A block that stays as it is isn't even loaded.
    if bit > 0 {
        block[0] = with_bit(block[0], pass.al);
    }
    true
}

/// Reads the band of a block. In a run of blocks without tokens it stays as it is, and in a
/// refinement it is corrected. A refusal is stored in `refusal`, and false is returned.
#[inline(always)]
#[tactic(auto, using(crate::proofs::BlockParts::band_rules))]
fn read_band<R: Read + Drop>(
    buffered: &mut BufferedBits,
    source: &mut Source<R>,
    coding: &BlockCoding<'_>,
    run: &mut u16,
    block: &mut [i16; 64],
    refusal: &mut Option<Error>,
) -> bool
    ensures band { Takes (λ _. (band_in (pass_in coding.now.pass) block.new, run.new))
        (band_part (pass_in coding.now.pass) coding.now.ac_table.now
        (band_in (pass_in coding.now.pass) block.old) run.old)
        buffered.old source.old (outcome_of result refusal.new) buffered.new source.new }
    ensures others { KeepsOthers (pass_in coding.now.pass) block.old block.new }
    ensures refused { result ≡ false → is_some refusal.new ≡ true }
{
    let pass = coding.pass;
    // A pass of DC alone has no band.
    if pass.se == 0 {
        return true;
    }
    if *run > 0 && pass.is_first {
        *run -= 1;
        return true;
    }
    read_coded_band(buffered, source, coding, run, block, refusal)
}

/// Like `read_band`, for a pass that has a band.
#[inline(never)]
#[tactic(auto, using(crate::proofs::BlockParts::band_rules))]
fn read_coded_band<R: Read + Drop>(
    buffered: &mut BufferedBits,
    source: &mut Source<R>,
    coding: &BlockCoding<'_>,
    run: &mut u16,
    block: &mut [i16; 64],
    refusal: &mut Option<Error>,
) -> bool
    requires some { 0 < coding.now.pass.se }
    requires coded { 0 < run.old → coding.now.pass.is_first ≡ false }
    ensures band { Takes (λ _. (band_in (pass_in coding.now.pass) block.new, run.new))
        (band_part (pass_in coding.now.pass) coding.now.ac_table.now
        (band_in (pass_in coding.now.pass) block.old) run.old)
        buffered.old source.old (outcome_of result refusal.new) buffered.new source.new }
    ensures others { KeepsOthers (pass_in coding.now.pass) block.old block.new }
    ensures refused { result ≡ false → is_some refusal.new ≡ true }
{
    let pass = coding.pass;
    if *run > 0 {
        if !correct_band(buffered, source, pass, block, refusal) {
            return false;
        }
        *run -= 1;
        return true;
    }
    let table = coding.ac_table;
    let next = if pass.is_first {
        read_first_band(buffered, source, table, pass, block, refusal)
    } else {
        read_refined_band(buffered, source, table, pass, block, refusal)
    };
    match next {
        Some(blocks) => {
            *run = blocks;
            true
        }
        None => false,
    }
}

/// Passes over the band of a block in a first pass, of which nothing is kept. A refusal is stored
/// in `refusal`, and false is returned.
#[inline(always)]
fn skip_band<R: Read + Drop>(
    buffered: &mut BufferedBits,
    source: &mut Source<R>,
    coding: &BlockCoding<'_>,
    run: &mut u16,
    refusal: &mut Option<Error>,
) -> bool
    ensures band { Takes (λ _. run.new)
        (run_part coding.now.ac_table.now (band_size (pass_in coding.now.pass)) run.old)
        buffered.old source.old (outcome_of result refusal.new) buffered.new source.new }
    ensures refused { result ≡ false → is_some refusal.new ≡ true }
{
    let pass = coding.pass;
    let room = pass.band_end() - pass.band_start();
    if room == 0 {
        return true;
    }
    if *run > 0 {
        *run -= 1;
        return true;
    }
    match skip_first_band(buffered, source, coding.ac_table, room, refusal) {
        Some(blocks) => {
            *run = blocks;
            true
        }
        None => false,
    }
}

/// Like `read_block`, but stores a refusal in `refusal` and returns false.
pub fn take_block<R: Read + Drop>(
    decoder: &mut HuffmanDecoder,
    source: &mut Source<R>,
    coding: &BlockCoding<'_>,
    carried: &mut Carried,
    block: &mut [i16; 64],
    refusal: &mut Option<Error>,
) -> bool
    ensures block { Takes (λ _. (
      kept coding.now.keeps_ac (to_block block.new),
      predictor_at coding.now.slot carried.new,
      carried.new.run,
    ))
        (kept_from coding.now.keeps_ac
        (block_from (pass_in coding.now.pass) coding.now.dc_table.now coding.now.ac_table.now
        (predictor_at coding.now.slot carried.old) carried.old.run (to_block block.old)))
        decoder.old source.old (outcome_of result refusal.new) decoder.new source.new }
    ensures others { carried.new.predictors ≡ set carried.old.predictors coding.now.slot
        (predictor_at coding.now.slot carried.new) }
    ensures refused { result ≡ false → is_some refusal.new ≡ true }
{
    let buffered = &mut decoder.buffered;
    // A pass without DC often leaves a block as it is, which is then not even loaded.
    if coding.pass.ss > 0 {
        return read_band(buffered, source, coding, &mut carried.run, block, refusal);
    }
    let predictor = &mut carried.predictors[coding.slot];
    if !read_dc(buffered, source, coding, predictor, block, refusal) {
        return false;
    }
    if !coding.keeps_ac {
        return skip_band(buffered, source, coding, &mut carried.run, refusal);
    }
    read_band(buffered, source, coding, &mut carried.run, block, refusal)
}

/// Reads the band of a block as `read_band` does, in a first pass that has one.
#[inline(always)]
#[tactic(auto, using(crate::proofs::BlockParts::band_rules))]
fn read_inlined_band<R: Read + Drop>(
    buffered: &mut BufferedBits,
    source: &mut Source<R>,
    coding: &BlockCoding<'_>,
    run: &mut u16,
    block: &mut [i16; 64],
    refusal: &mut Option<Error>,
) -> bool
    requires first { coding.now.pass.is_first ≡ true }
    requires some { 0 < coding.now.pass.se }
    ensures band { Takes (λ _. (band_in (pass_in coding.now.pass) block.new, run.new))
        (band_part (pass_in coding.now.pass) coding.now.ac_table.now
        (band_in (pass_in coding.now.pass) block.old) run.old)
        buffered.old source.old (outcome_of result refusal.new) buffered.new source.new }
    ensures others { KeepsOthers (pass_in coding.now.pass) block.old block.new }
    ensures refused { result ≡ false → is_some refusal.new ≡ true }
{
    if *run > 0 {
        *run -= 1;
        return true;
    }
    let table = coding.ac_table;
    match read_first_coefficients(buffered, source, table, coding.pass, block, refusal) {
        Some(blocks) => {
            *run = blocks;
            true
        }
        None => false,
    }
}

/// Reads a block as `take_block` does, in a first pass that begins with DC and has a band. Where
/// the pass is constant, so are its limits, and the bits of a local decoder stay in registers from
/// block to block.
#[inline(always)]
pub fn take_inlined_block<R: Read + Drop>(
    decoder: &mut HuffmanDecoder,
    source: &mut Source<R>,
    coding: &BlockCoding<'_>,
    carried: &mut Carried,
    block: &mut [i16; 64],
    refusal: &mut Option<Error>,
) -> bool
    requires first { coding.now.pass.is_first ≡ true }
    requires dc { coding.now.pass.ss ≡ 0 }
    requires some { 0 < coding.now.pass.se }
    ensures block { Takes (λ _. (
      kept coding.now.keeps_ac (to_block block.new),
      predictor_at coding.now.slot carried.new,
      carried.new.run,
    ))
        (kept_from coding.now.keeps_ac
        (block_from (pass_in coding.now.pass) coding.now.dc_table.now coding.now.ac_table.now
        (predictor_at coding.now.slot carried.old) carried.old.run (to_block block.old)))
        decoder.old source.old (outcome_of result refusal.new) decoder.new source.new }
    ensures others { carried.new.predictors ≡ set carried.old.predictors coding.now.slot
        (predictor_at coding.now.slot carried.new) }
    ensures refused { result ≡ false → is_some refusal.new ≡ true }
{
    let buffered = &mut decoder.buffered;
    let predictor = &mut carried.predictors[coding.slot];
    if !read_dc(buffered, source, coding, predictor, block, refusal) {
        return false;
    }
    read_inlined_band(buffered, source, coding, &mut carried.run, block, refusal)
}

/// Reads what a pass codes of a block, in block order, on top of the coefficients that it has so
/// far (T.81, F.2.2 and G.2). Its AC coefficients are passed over if they aren't kept. The error is
/// `Format` if the bits begin no code or a coefficient doesn't fit; the others are those of
/// `HuffmanDecoder::get_bits`.
pub fn read_block<R: Read + Drop>(
    decoder: &mut HuffmanDecoder,
    source: &mut Source<R>,
    coding: &BlockCoding<'_>,
    carried: &mut Carried,
    block: &mut [i16; 64],
) -> Result<()>
    ensures block { Takes (λ _. (
      kept coding.now.keeps_ac (to_block block.new),
      predictor_at coding.now.slot carried.new,
      carried.new.run,
    ))
        (kept_from coding.now.keeps_ac
        (block_from (pass_in coding.now.pass) coding.now.dc_table.now coding.now.ac_table.now
        (predictor_at coding.now.slot carried.old) carried.old.run (to_block block.old)))
        decoder.old source.old result decoder.new source.new }
    ensures others { carried.new.predictors ≡ set carried.old.predictors coding.now.slot
        (predictor_at coding.now.slot carried.new) }
{
    let mut refusal = None;
    if take_block(decoder, source, coding, carried, block, &mut refusal) {
        return Ok(());
    }
    Err(take_refusal(&mut refusal))
}
