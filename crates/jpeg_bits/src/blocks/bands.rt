//! The bands of blocks that a scan codes one after the other, in a pass without DC (T.81, G.1.2.2
//! and G.1.2.3).
ghost use Rattle.std.specs.Prelude.{◌≡◌, ◌<◌, ℤ, is_some, true, false, length, map};
ghost use Rattle.std.specs.List.{range_with_len};
ghost use Rattle.jpeg_bits.specs.Refusals.{outcome_of};
ghost use Rattle.jpeg_bits.specs.Entropy.{Takes};
ghost use Rattle.jpeg_bits.specs.Passes.{band_part};
ghost use Rattle.jpeg_bits.specs.BlockLines.{blocks_at};
ghost use Rattle.jpeg_bits.specs.BlockView.{to_block, pass_in};
ghost use Rattle.jpeg_bits.specs.ZigzagParts.{band_in, KeepsOthers};

use crate::blocks::BlockCoding;
use crate::blocks::refinement::{correct_band, read_refined_coefficients};
use crate::blocks::tokens::read_first_coefficients;
use crate::error::Error;
use crate::huffman::HuffmanDecoder;
use crate::huffman::ahead::BufferedBits;
use crate::source::Source;
use std::io::Read;

/// Reads the band of a block in a first pass. In a run of blocks without tokens it stays as it is.
/// A refusal is stored in `refusal`, and false is returned.
#[inline(always)]
#[tactic(auto, using(crate::proofs::BlockParts::band_rules))]
fn read_first<R: Read + Drop>(
    buffered: &mut BufferedBits,
    source: &mut Source<R>,
    coding: &BlockCoding<'_>,
    run: &mut u16,
    block: &mut [i16; 64],
    refusal: &mut Option<Error>,
) -> bool
    requires some { 0 < coding.now.pass.ss }
    requires first { coding.now.pass.is_first ≡ true }
    ensures band { Takes (λ _. (band_in (pass_in coding.now.pass) block.new, run.new))
        (band_part (pass_in coding.now.pass) coding.now.ac_table.now
        (band_in (pass_in coding.now.pass) block.old) run.old)
        buffered.old source.old (outcome_of result refusal.new) buffered.new source.new }
    ensures others { KeepsOthers (pass_in coding.now.pass) block.old block.new }
    ensures long { length block.old ≡ 64 }
    ensures refused { result ≡ false → is_some refusal.new ≡ true }
{
    if *run > 0 {
        *run -= 1;
        return true;
    }
    let table = coding.ac_table;
    match read_first_coefficients(buffered, source, table, coding.pass, block, refusal) {
        Some(blocks) => {
            *run = blocks;
            true
        }
        None => false,
    }
}

/// Reads the band of a block in a refinement. In a run of blocks without tokens it is corrected. A
/// refusal is stored in `refusal`, and false is returned.
#[inline(always)]
#[tactic(auto, using(crate::proofs::BlockParts::band_rules))]
fn read_refined<R: Read + Drop>(
    buffered: &mut BufferedBits,
    source: &mut Source<R>,
    coding: &BlockCoding<'_>,
    run: &mut u16,
    block: &mut [i16; 64],
    refusal: &mut Option<Error>,
) -> bool
    requires some { 0 < coding.now.pass.ss }
    requires refined { coding.now.pass.is_first ≡ false }
    ensures band { Takes (λ _. (band_in (pass_in coding.now.pass) block.new, run.new))
        (band_part (pass_in coding.now.pass) coding.now.ac_table.now
        (band_in (pass_in coding.now.pass) block.old) run.old)
        buffered.old source.old (outcome_of result refusal.new) buffered.new source.new }
    ensures others { KeepsOthers (pass_in coding.now.pass) block.old block.new }
    ensures long { length block.old ≡ 64 }
    ensures refused { result ≡ false → is_some refusal.new ≡ true }
{
    if *run > 0 {
        if !correct_band(buffered, source, coding.pass, block, refusal) {
            return false;
        }
        *run -= 1;
        return true;
    }
    let table = coding.ac_table;
    match read_refined_coefficients(buffered, source, table, coding.pass, block, refusal) {
        Some(blocks) => {
            *run = blocks;
            true
        }
        None => false,
    }
}

/// Like `take_bands`, in a first pass.
#[inline(never)]
fn take_first_bands<R: Read + Drop>(
    decoder: &mut HuffmanDecoder,
    source: &mut Source<R>,
    coding: &BlockCoding<'_>,
    run: &mut u16,
    blocks: &mut [[i16; 64]],
    refusal: &mut Option<Error>,
) -> bool
    requires some { 0 < coding.now.pass.ss }
    requires first { coding.now.pass.is_first ≡ true }
    ensures blocks { (predictor : ℤ) → Takes (λ _. (map to_block blocks.new, predictor, run.new))
        (blocks_at (pass_in coding.now.pass) coding.now.dc_table.now coding.now.ac_table.now
        (range_with_len 0 (length blocks.old)) (map to_block blocks.old, predictor, run.old))
        decoder.old source.old (outcome_of result refusal.new) decoder.new source.new }
    ensures refused { result ≡ false → is_some refusal.new ≡ true }
{
    // The loop works on a local, which stays in registers.
    let mut buffered = decoder.buffered.copied();
    let mut index = 0;
    while index < blocks.len() {
        if !read_first(
            &mut buffered,
            source,
            coding,
            run,
            &mut blocks[index],
            refusal,
        ) {
            return false;
        }
        index += 1;
    }
    decoder.buffered = buffered;
    true
}

/// Like `take_bands`, in a refinement.
#[inline(never)]
fn take_refined_bands<R: Read + Drop>(
    decoder: &mut HuffmanDecoder,
    source: &mut Source<R>,
    coding: &BlockCoding<'_>,
    run: &mut u16,
    blocks: &mut [[i16; 64]],
    refusal: &mut Option<Error>,
) -> bool
    requires some { 0 < coding.now.pass.ss }
    requires refined { coding.now.pass.is_first ≡ false }
    ensures blocks { (predictor : ℤ) → Takes (λ _. (map to_block blocks.new, predictor, run.new))
        (blocks_at (pass_in coding.now.pass) coding.now.dc_table.now coding.now.ac_table.now
        (range_with_len 0 (length blocks.old)) (map to_block blocks.old, predictor, run.old))
        decoder.old source.old (outcome_of result refusal.new) decoder.new source.new }
    ensures refused { result ≡ false → is_some refusal.new ≡ true }
{
    // The loop works on a local, which stays in registers.
    let mut buffered = decoder.buffered.copied();
    let mut index = 0;
    while index < blocks.len() {
        if !read_refined(
            &mut buffered,
            source,
            coding,
            run,
            &mut blocks[index],
            refusal,
        ) {
            return false;
        }
        index += 1;
    }
    decoder.buffered = buffered;
    true
}

/// Reads what a pass without DC codes of some blocks of a component, one after the other, in block
/// order, on top of the coefficients that they have so far (T.81, G.2). A refusal is stored in
/// `refusal`, and false is returned.
///
/// `run` is the number of blocks that follow in the end-of-band run that was last read.
pub fn take_bands<R: Read + Drop>(
    decoder: &mut HuffmanDecoder,
    source: &mut Source<R>,
    coding: &BlockCoding<'_>,
    run: &mut u16,
    blocks: &mut [[i16; 64]],
    refusal: &mut Option<Error>,
) -> bool
    requires { 0 < coding.now.pass.ss }
    ensures blocks { (predictor : ℤ) → Takes (λ _. (map to_block blocks.new, predictor, run.new))
        (blocks_at (pass_in coding.now.pass) coding.now.dc_table.now coding.now.ac_table.now
        (range_with_len 0 (length blocks.old)) (map to_block blocks.old, predictor, run.old))
        decoder.old source.old (outcome_of result refusal.new) decoder.new source.new }
    ensures refused { result ≡ false → is_some refusal.new ≡ true }
{
    if coding.pass.is_first {
        return take_first_bands(decoder, source, coding, run, blocks, refusal);
    }
    take_refined_bands(decoder, source, coding, run, blocks, refusal)
}
