//! Refinement of the coefficients of a block.
ghost use Rattle.std.specs.Prelude.{◌≡◌, ◌≤◌, ◌==◌, ◌^◌, ◌<◌, ◌-◌, pos, IfSome, is_some};
ghost use Rattle.std.specs.Prelude.{ℕ, ◌+◌, true, false, length, map, slice_index, get_or};
ghost use Rattle.std.specs.Prelude.{if◌then◌else◌, List, ℤ, Ok};
ghost use Rattle.jpeg_bits.specs.Zigzag.{zigzag};
ghost use Rattle.std.specs.Simd.Lanes.{Each1};
ghost use Rattle.std.specs.Int.{bit_at};
ghost use Rattle.jpeg_bits.specs.Masks.{MarksFrom, marked};
ghost use Rattle.jpeg_bits.specs.Refusals.{answer_of, outcome_of, kept_refusal, IsRefused};
ghost use Rattle.jpeg_bits.specs.Reading.{Gives, NamesFormat};
ghost use Rattle.jpeg_bits.specs.Entropy.{Text, Takes, bits_from};
ghost use Rattle.jpeg_bits.specs.Refinement.{bit_of, corrected, new_number};
ghost use Rattle.jpeg_bits.specs.Pieces.{moved_within, run_from, corrected_from, piece_from};
ghost use Rattle.jpeg_bits.specs.Pieces.{refinement_from, refined_band_from, distance_of};
ghost use Rattle.jpeg_bits.specs.BlockView.{pass_in, IsPass};
ghost use Rattle.jpeg_bits.specs.ZigzagParts.{band_end, band_in, rest_in, IsKeptAround};
ghost use Rattle.jpeg_bits.specs.ZigzagParts.{KeepsOthers};

use crate::blocks::pass::Pass;
use crate::blocks::zigzag::index_of;
use crate::error::{Error, format_error_of, set_format_error};
use crate::huffman::HuffmanTable;
use crate::huffman::ahead::BufferedBits;
use crate::huffman::bits::power_of_two;
use crate::source::Source;
use std::alloc::Global;
use std::io::Read;
use std::simd::prelude::*;

/// What a token of a refinement says of the coefficients after it.
#[derive(Clone, Copy, Debug, PartialEq)]
pub enum Refinement {
    /// The piece ends with the sixteenth zero.
    Zeros,
    /// This many zeros are kept, and the one after them has a new value.
    New(u8, i16),
    /// The band ends here, and so do those of this many blocks after it.
    End(u16),
}

/// Returns 2 to the point transform.
#[inline]
#[tactic(auto, using(std::proofs::Common::pow_mono, std::proofs::lemmas::Int::to_z_pos))]
pub(crate) fn unit(al: u8) -> i16
    requires { al ≤ 13 }
    ensures { result ≡ pos (2 ^ al) }
{
    1 << al
}

/// Returns whether bit `al` of a number's two's complement isn't set.
#[inline]
#[tactic(auto, using(std::proofs::lemmas::Int::wraps, crate::proofs::PieceWalks::unsigned_bit))]
pub(crate) fn lacks_bit(value: i16, al: u8) -> bool
    requires { al ≤ 13 }
    ensures { result ≡ (bit_of al value == 0) }
{
    (value.cast_unsigned() >> al) % 2 == 0
}

/// Reads how many blocks after this one have no tokens.
#[inline(always)]
#[tactic(auto, unfolding(crate::specs::Pieces::run_from), using(crate::proofs::Rules::no_bits))]
fn read_run<R: Read + Drop>(
    buffered: &mut BufferedBits,
    source: &mut Source<R>,
    exponent: u8,
    refusal: &mut Option<Error>,
) -> Option<u16>
    requires { exponent ≤ 14 }
    ensures run { Takes (λ n. n) (run_from exponent) buffered.old source.old
        (answer_of result refusal.new) buffered.new source.new }
    ensures refused { IsRefused result refusal.new }
{
    if exponent == 0 {
        return Some(0);
    }
    match buffered.take_number(source, exponent, refusal) {
        Some(extra) => Some(power_of_two(exponent) - 1 + extra),
        None => None,
    }
}

/// Returns how far a correction bit moves a number that isn't 0: by the unit of the point
/// transform, if the bit is set and the number's own isn't.
#[inline(always)]
#[tactic(auto, using(std::proofs::lemmas::Int::wraps, crate::proofs::PieceWalks::distances))]
fn distance(value: i16, al: u8, bit: u16) -> u16
    requires level { al ≤ 13 }
    requires bit { bit < 2 }
    ensures distance { result ≡ distance_of al value bit }
    ensures most { result ≤ 8192 }
{
    let lacking = 1 - (value.cast_unsigned() >> al) % 2;
    bit * lacking * power_of_two(al)
}

/// Returns a number that isn't 0, moved away from zero. A refusal is stored in `refusal`, and none
/// is returned. It doesn't branch on the distance or the sign, which no processor can predict.
#[inline(always)]
fn move_away(alloc: Global, value: i16, by: u16, refusal: &mut Option<Error>) -> Option<i16>
    requires { by ≤ 8192 }
    ensures moved { Gives (moved_within by value) (answer_of result refusal.new) }
    ensures refused { IsRefused result refusal.new }
{
    let step = by as i16;
    let signed_step = if value >= 0 { step } else { -step };
    match value.checked_add(signed_step) {
        Some(moved) => Some(moved),
        None => {
            set_format_error(
                alloc,
                "found a refined coefficient of more than 16 bits",
                refusal,
            );
            None
        }
    }
}

/// Reads a coefficient of a piece, with its correction bit.
#[inline(always)]
#[tactic(auto, unfolding(crate::specs::Pieces::corrected_from))]
fn correct<R: Read + Drop>(
    buffered: &mut BufferedBits,
    source: &mut Source<R>,
    al: u8,
    value: i16,
    refusal: &mut Option<Error>,
) -> Option<i16>
    requires { al ≤ 13 }
    ensures index { Takes (λ v. v) (corrected_from al value) buffered.old source.old
        (answer_of result refusal.new) buffered.new source.new }
    ensures refused { IsRefused result refusal.new }
{
    if value == 0 {
        return Some(0);
    }
    let Some(bit) = buffered.take_number(source, 1, refusal) else {
        return None;
    };
    move_away(buffered.alloc(), value, distance(value, al, bit), refusal)
}

/// Marks the coefficients of a block that aren't 0 by 1, and the others by 0.
#[inline(always)]
#[tactic(auto, using(crate::proofs::PieceWalks::marked_lanes, crate::proofs::PieceWalks::all_fit))]
fn marked(block: [i16; 64]) -> u16x64
    ensures { result ≡ map marked block }
{
    i16x64::from_slice(&block[..])
        .simd_ne(i16x64::splat(0))
        .select(u16x64::splat(1), u16x64::splat(0))
}

/// Narrows each value to a byte.
#[inline(always)]
fn narrowed(values: u16x64) -> u8x64
    requires { Each1 (λ x. x < 256) values }
    ensures { result ≡ values }
{
    values.cast::<u8>()
}

/// Puts values in block order into zigzag order (T.81, A.3.6).
#[inline(always)]
fn in_zigzag(values: u8x64) -> u8x64
    requires { length values ≡ 64 }
    ensures { result ≡ map (λ index. slice_index values index) zigzag }
{
    values.swizzle([
        0, 1, 8, 16, 9, 2, 3, 10, 17, 24, 32, 25, 18, 11, 4, 5, 12, 19, 26, 33, 40, 48, 41, 34, 27,
        20, 13, 6, 7, 14, 21, 28, 35, 42, 49, 56, 57, 50, 43, 36, 29, 22, 15, 23, 30, 37, 44, 51,
        58, 59, 52, 45, 38, 31, 39, 46, 53, 60, 61, 54, 47, 55, 62, 63,
    ])
}

/// Sets the bits of a number at the indices of the values that aren't 0.
#[inline(always)]
#[tactic(auto, using(crate::proofs::PieceWalks::mask_bits))]
fn bits_of(values: u8x64) -> u64
    requires { length values ≡ 64 }
    ensures { (k : ℕ) → bit_at result k ≡ (if slice_index values k == 0 then 0 else 1) }
{
    values.simd_ne(u8x64::splat(0)).to_bitmask()
}

/// Sets the bits of a number at the zigzag indices of the coefficients that aren't 0.
#[inline(always)]
#[tactic(auto, using(crate::proofs::PieceWalks::marked_small))]
fn mask_of(block: [i16; 64]) -> u64
    ensures { MarksFrom result 0 block }
{
    bits_of(in_zigzag(narrowed(marked(block))))
}

/// Counts the zeros from a zigzag index on, before the next coefficient that isn't 0 or the end of
/// the band.
#[inline(always)]
#[tactic(auto, using(crate::proofs::Rules::gaps))]
fn zeros_from(mask: u64, index: usize, end: usize) -> usize
    requires some { index < end }
    requires most { end ≤ 64 }
    ensures within { index + result ≤ end }
    ensures zeros { (k : ℕ) → k < result → bit_at mask (index + k) ≡ 0 }
    ensures stop { index + result < end → bit_at mask (index + result) ≡ 1 }
{
    let ahead = mask >> index;
    // The processor predicts this if few are 0, and needn't wait for the count.
    if ahead % 2 == 1 {
        return 0;
    }
    let zeros = ahead.trailing_zeros() as usize;
    if zeros < end - index {
        zeros
    } else {
        end - index
    }
}

/// A piece of the band of a block, from a zigzag index on: it ends with the zero after this many
/// zeros, or is the whole rest of the band.
#[derive(Clone, Copy)]
struct BandPiece {
    pass: Pass,
    from: usize,
    zeros: usize,
}

/// Returns the index after a piece of the band of a block with this mask, if all correction bits
/// are 0: the block stays as it is.
#[cold]
#[inline(never)]
#[tactic(auto, using(crate::proofs::Rules::pieces))]
fn pass_piece(piece: BandPiece, mask: u64) -> usize
    requires pass { IsPass (pass_in piece.pass) }
    requires from { piece.from ≤ band_end (pass_in piece.pass) }
    ensures after { piece.from ≤ result }
    ensures within { result ≤ band_end (pass_in piece.pass) }
    ensures some { piece.from < band_end (pass_in piece.pass) → piece.from < result }
    ensures piece { (block : List ℤ) (t : Text) → length block ≡ 64
        → MarksFrom mask piece.from block → bits_from 1 t ≡ Ok (0, t) →
        piece_from piece.pass.al piece.zeros (rest_in (pass_in piece.pass) piece.from block) t
        ≡ Ok ((result - piece.from, rest_in (pass_in piece.pass) piece.from block), t) }
{
    let BandPiece { pass, from, zeros } = piece;
    let end = pass.band_end();
    let mut left = zeros;
    let mut index = from;
    while index < end {
        index += zeros_from(!mask, index, end);
        if index == end {
            return end;
        }
        let gap = zeros_from(mask, index, end);
        if left < gap {
            return index + left + 1;
        }
        left -= gap;
        index += gap;
    }
    end
}

/// Corrects a piece of the band of a block with this mask, going from one coefficient that isn't 0
/// to the next, and returns the index after it.
#[inline(always)]
#[tactic(auto, using(crate::proofs::Rules::pieces))]
fn correct_piece<R: Read + Drop>(
    buffered: &mut BufferedBits,
    source: &mut Source<R>,
    piece: BandPiece,
    mask: u64,
    block: &mut [i16; 64],
    refusal: &mut Option<Error>,
) -> Option<usize>
    requires pass { IsPass (pass_in piece.pass) }
    requires from { piece.from ≤ band_end (pass_in piece.pass) }
    requires mask { MarksFrom mask piece.from block.old }
    ensures within { IfSome result (λ next. (piece.from ≤ next)
        × (next ≤ band_end (pass_in piece.pass))
        × (piece.from < band_end (pass_in piece.pass) → piece.from < next)) }
    ensures piece { Takes (λ next. (
      next - piece.from,
      rest_in (pass_in piece.pass) piece.from block.new,
    ))
        (piece_from piece.pass.al piece.zeros (rest_in (pass_in piece.pass) piece.from block.old))
        buffered.old source.old (answer_of result refusal.new) buffered.new source.new }
    ensures others { IsKeptAround piece.from (band_end (pass_in piece.pass)) block.old block.new }
    ensures mask { IfSome result (λ next. MarksFrom mask next block.new) }
    ensures refused { IsRefused result refusal.new }
{
    // Refinements by the zeros after a marker cost a file no bytes, and needn't cost much time.
    if buffered.is_past_marker() {
        return Some(pass_piece(piece, mask));
    }
    let BandPiece { pass, from, zeros } = piece;
    let end = pass.band_end();
    let mut left = zeros;
    let mut index = from;
    while index < end {
        let gap = zeros_from(mask, index, end);
        if left < gap {
            return Some(index + left + 1);
        }
        left -= gap;
        index += gap;
        if index == end {
            return Some(end);
        }
        let at = index_of(index);
        let Some(corrected) = correct(buffered, source, pass.al, block[at], refusal) else {
            return None;
        };
        block[at] = corrected;
        index += 1;
    }
    Some(end)
}

/// Returns the new number of a sign bit.
fn signed_unit(sign: u16, al: u8) -> i16
    requires { al ≤ 13 }
    ensures { result ≡ new_number al sign }
{
    if sign == 0 { -unit(al) } else { unit(al) }
}

/// Reads a token of a refinement, and its sign bit or the bits of its run.
#[inline(always)]
#[tactic(auto, unfolding(crate::specs::Pieces::refinement_from))]
fn read_refinement<R: Read + Drop>(
    buffered: &mut BufferedBits,
    source: &mut Source<R>,
    table: &HuffmanTable,
    al: u8,
    refusal: &mut Option<Error>,
) -> Option<Refinement>
    requires { al ≤ 13 }
    ensures token { Takes (λ t. t) (refinement_from table.now al) buffered.old source.old
        (answer_of result refusal.new) buffered.new source.new }
    ensures refused { IsRefused result refusal.new }
{
    let Some(symbol) = buffered.take_symbol(source, table, refusal) else {
        return None;
    };
    let run = symbol / 16;
    match symbol % 16 {
        0 => {
            if run == 15 {
                return Some(Refinement::Zeros);
            }
            match read_run(buffered, source, run, refusal) {
                Some(blocks) => Some(Refinement::End(blocks)),
                None => None,
            }
        }
        1 => match buffered.take_number(source, 1, refusal) {
            Some(sign) => Some(Refinement::New(run, signed_unit(sign, al))),
            None => None,
        },
        category => {
            set_refined_category_error(buffered.alloc(), category, refusal);
            None
        }
    }
}

/// Stores the refusal of a magnitude category that no token of a refinement has (T.81, G.1.2.3).
#[cold]
#[inline(never)]
fn set_refined_category_error(alloc: Global, category: u8, refusal: &mut Option<Error>)
    ensures names { NamesFormat (kept_refusal refusal.new) }
    ensures refused { is_some refusal.new ≡ true }
{
    *refusal = Some(format_error_of(format!(in alloc;
        "coefficient magnitude category {category} in a refinement scan, expected 0 or 1"
    )));
}

/// Reads the band of a block in a refinement, and how many blocks after this one have no tokens.
#[inline(always)]
pub(crate) fn read_refined_coefficients<R: Read + Drop>(
    buffered: &mut BufferedBits,
    source: &mut Source<R>,
    table: &HuffmanTable,
    pass: Pass,
    block: &mut [i16; 64],
    refusal: &mut Option<Error>,
) -> Option<u16>
    requires { IsPass (pass_in pass) }
    ensures reads { Takes (λ run. (band_in (pass_in pass) block.new, run))
        (refined_band_from table.now pass.al (band_in (pass_in pass) block.old))
        buffered.old source.old (answer_of result refusal.new) buffered.new source.new }
    ensures others { KeepsOthers (pass_in pass) block.old block.new }
    ensures refused { IsRefused result refusal.new }
{
    let mask = mask_of(*block);
    let end = pass.band_end();
    let mut index = pass.band_start();
    while index < end {
        let Some(token) = read_refinement(buffered, source, table, pass.al, refusal) else {
            return None;
        };
        match token {
            Refinement::Zeros => {
                let piece = BandPiece {
                    pass,
                    from: index,
                    zeros: 15,
                };
                let Some(next) = correct_piece(buffered, source, piece, mask, block, refusal) else {
                    return None;
                };
                index = next;
            }
            Refinement::New(run, value) => {
                let zeros = usize::from(run);
                let piece = BandPiece {
                    pass,
                    from: index,
                    zeros,
                };
                let Some(next) = correct_piece(buffered, source, piece, mask, block, refusal) else {
                    return None;
                };
                block[index_of(next - 1)] = value;
                index = next;
            }
            Refinement::End(blocks) => {
                let piece = BandPiece {
                    pass,
                    from: index,
                    zeros: end - index,
                };
                return match correct_piece(buffered, source, piece, mask, block, refusal) {
                    Some(_) => Some(blocks),
                    None => None,
                };
            }
        }
    }
    Some(0)
}

/// Like `read_refined_coefficients`, on a copy of the buffered bits: a local that stays in
/// registers.
#[inline(never)]
pub(crate) fn read_refined_band<R: Read + Drop>(
    buffered: &mut BufferedBits,
    source: &mut Source<R>,
    table: &HuffmanTable,
    pass: Pass,
    block: &mut [i16; 64],
    refusal: &mut Option<Error>,
) -> Option<u16>
    requires { IsPass (pass_in pass) }
    ensures reads { Takes (λ run. (band_in (pass_in pass) block.new, run))
        (refined_band_from table.now pass.al (band_in (pass_in pass) block.old))
        buffered.old source.old (answer_of result refusal.new) buffered.new source.new }
    ensures others { KeepsOthers (pass_in pass) block.old block.new }
    ensures refused { IsRefused result refusal.new }
{
    let mut local = buffered.copied();
    let run = read_refined_coefficients(&mut local, source, table, pass, block, refusal);
    *buffered = local;
    run
}

/// Reads the whole band of a block, one correction bit for each coefficient that isn't zero. A
/// refusal is stored in `refusal`, and false is returned.
pub(crate) fn correct_band<R: Read + Drop>(
    buffered: &mut BufferedBits,
    source: &mut Source<R>,
    pass: Pass,
    block: &mut [i16; 64],
    refusal: &mut Option<Error>,
) -> bool
    requires { IsPass (pass_in pass) }
    ensures band { Takes (λ _. band_in (pass_in pass) block.new)
        (corrected pass.al (band_in (pass_in pass) block.old))
        buffered.old source.old (outcome_of result refusal.new) buffered.new source.new }
    ensures others { KeepsOthers (pass_in pass) block.old block.new }
    ensures refused { result ≡ false → is_some refusal.new ≡ true }
{
    let start = pass.band_start();
    let piece = BandPiece {
        pass,
        from: start,
        zeros: pass.band_end() - start,
    };
    let mut local = buffered.copied();
    let mask = mask_of(*block);
    let next = correct_piece(&mut local, source, piece, mask, block, refusal);
    *buffered = local;
    next.is_some()
}
