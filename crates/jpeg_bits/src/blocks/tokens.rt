//! The coefficients of a block in entropy-coded bits: DC differences, and the tokens of a band
//! (T.81, F.2.2 and G.1.2).
ghost use Rattle.std.specs.Prelude.{◌≡◌, ◌≤◌, ◌/◌, ◌%◌, ◌^◌, ◌+ℤ◌, ◌*ℤ◌, pos, length, IfSome};
ghost use Rattle.jpeg_bits.specs.Refusals.{answer_of, IsRefused};
ghost use Rattle.jpeg_bits.specs.Entropy.{IsFilled, Takes};
ghost use Rattle.jpeg_bits.specs.declared.huffman.codes.HuffmanTableClass.TheVariants.{AC};
ghost use Rattle.jpeg_bits.specs.Bands.{wrapped, difference, token_at, token_from, first_ac};
ghost use Rattle.jpeg_bits.specs.Bands.{IsWithinRoom};
ghost use Rattle.jpeg_bits.specs.BlockView.{pass_in, IsPass};
ghost use Rattle.jpeg_bits.specs.Skips.{run_of};
ghost use Rattle.jpeg_bits.specs.ZigzagParts.{band_in, KeepsOthers};

use crate::blocks::pass::Pass;
use crate::blocks::zigzag::index_of;
use crate::error::{Error, set_category_error};
use crate::huffman::HuffmanTable;
use crate::huffman::ahead::BufferedBits;
use crate::huffman::bits::power_of_two;
use crate::source::Source;
use std::io::Read;

/// What a token of a first pass stands for.
#[derive(Clone, Copy, Debug, PartialEq)]
pub enum Token {
    /// A value after some zeros.
    Value(u8, i16),
    /// Sixteen zeros.
    Sixteen,
    /// Zeros to the end of the band, and in the bands of some blocks after it.
    Rest(u16),
    /// A value beyond the end of the band.
    Overlong,
}

/// Reads a DC difference. A refusal is stored in `refusal`, and none is returned.
#[inline(always)]
#[tactic(auto, using(crate::proofs::Rules::no_bits), unfolding(crate::specs::Bands::difference))]
pub(crate) fn read_difference<R: Read + Drop>(
    buffered: &mut BufferedBits,
    source: &mut Source<R>,
    table: &HuffmanTable,
    refusal: &mut Option<Error>,
) -> Option<i16>
    ensures difference { Takes (λ v. v) (difference table.now)
        buffered.old source.old (answer_of result refusal.new) buffered.new source.new }
    ensures refused { IsRefused result refusal.new }
{
    let Some(category) = buffered.take_symbol(source, table, refusal) else {
        return None;
    };
    if category > 11 {
        set_category_error(buffered.alloc(), category, 11, refusal);
        return None;
    }
    if category == 0 {
        return Some(0);
    }
    buffered.take_signed(source, category, refusal)
}

/// Returns a sum modulo 2^16.
#[inline]
#[tactic(auto, using(std::proofs::lemmas::Int::wraps))]
pub(crate) fn wrapped_sum(a: i16, b: i16) -> i16
    ensures { result ≡ wrapped (a +ℤ b) }
{
    a.wrapping_add(b)
}

/// Returns the token of a code, by its length and its symbol. A refusal is stored in `refusal`, and
/// none is returned.
#[inline(always)]
#[tactic(auto, using(crate::proofs::Rules::no_bits), unfolding(crate::specs::Bands::token_at))]
fn read_token_of<R: Read + Drop>(
    buffered: &mut BufferedBits,
    source: &mut Source<R>,
    room: usize,
    code: (u8, u8),
    refusal: &mut Option<Error>,
) -> Option<Token>
    requires { code.0 ≤ 16 }
    ensures token { Takes (λ t. t) (token_at room code.0 (code.1 / 16) (code.1 % 16))
        buffered.old source.old (answer_of result refusal.new) buffered.new source.new }
    ensures refused { IsRefused result refusal.new }
    ensures room { IfSome result (IsWithinRoom room) }
{
    let (length, symbol) = code;
    let run = symbol / 16;
    let size = symbol % 16;
    if size > 0 {
        let fits = usize::from(run) < room;
        if !fits && length + size > 8 {
            return Some(Token::Overlong);
        }
        return match buffered.take_signed(source, size, refusal) {
            Some(value) => Some(if fits {
                Token::Value(run, value)
            } else {
                Token::Overlong
            }),
            None => None,
        };
    }
    if run == 15 {
        return Some(Token::Sixteen);
    }
    if run == 0 {
        return Some(Token::Rest(0));
    }
    match buffered.take_number(source, run, refusal) {
        Some(extra) => Some(Token::Rest(power_of_two(run) - 1 + extra)),
        None => None,
    }
}

/// Reads the next token of a first pass, where `room` coefficients are left of the band, and 16
/// bits are buffered, or the end is reached. A value that is within the room is looked up by the
/// next 11 bits. A refusal is stored in `refusal`, and none is returned.
#[inline(always)]
fn read_token<R: Read + Drop>(
    buffered: &mut BufferedBits,
    source: &mut Source<R>,
    table: &HuffmanTable,
    room: usize,
    refusal: &mut Option<Error>,
) -> Option<Token>
    requires class { table.now.class ≡ AC }
    requires filled { IsFilled 16 buffered.old.bits buffered.old.met }
    ensures token { Takes (λ t. t) (token_from table.now room)
        buffered.old source.old (answer_of result refusal.new) buffered.new source.new }
    ensures refused { IsRefused result refusal.new }
    ensures room { IfSome result (IsWithinRoom room) }
{
    if let Some((value, run, bits)) = buffered.wide_value(table) {
        let count = usize::from(bits);
        if usize::from(run) < room && buffered.has(count) {
            buffered.skip(count);
            return Some(Token::Value(run, value));
        }
    }
    let Some(code) = buffered.take_buffered_code(table, refusal) else {
        return None;
    };
    read_token_of(buffered, source, room, code, refusal)
}

#[inline]
fn power_i16(exponent: u8) -> i16
    requires { exponent ≤ 13 }
    ensures { result ≡ pos (2 ^ exponent) }
{
    power_of_two(exponent) as i16
}

/// Returns a product with a power of two, modulo 2^16.
#[inline]
pub(crate) fn shifted(value: i16, point: u8) -> i16
    requires { point ≤ 13 }
    ensures { result ≡ wrapped (value *ℤ pos (2 ^ point)) }
{
    value.wrapping_mul(power_i16(point))
}

/// Reads the band of a block in a first pass, and the blocks of the run that follows. A refusal
/// is stored in `refusal`, and none is returned.
#[inline(always)]
pub(crate) fn read_first_coefficients<R: Read + Drop>(
    buffered: &mut BufferedBits,
    source: &mut Source<R>,
    table: &HuffmanTable,
    pass: Pass,
    block: &mut [i16; 64],
    refusal: &mut Option<Error>,
) -> Option<u16>
    requires class { table.now.class ≡ AC }
    requires pass { IsPass (pass_in pass) }
    ensures band { Takes (λ run. (band_in (pass_in pass) block.new, run))
        (first_ac table.now pass.al (length (band_in (pass_in pass) block.old))
        (band_in (pass_in pass) block.old))
        buffered.old source.old (answer_of result refusal.new) buffered.new source.new }
    ensures others { KeepsOthers (pass_in pass) block.old block.new }
    ensures refused { IsRefused result refusal.new }
{
    let end = pass.band_end();
    let mut at = pass.band_start();
    while at < end {
        if !buffered.fill(source, 16, refusal) {
            return None;
        }
        let pair = buffered.next_pair(table);
        let count = usize::from(pair.bits);
        let passed = usize::from(pair.passed);
        if passed % 128 <= end - at && buffered.has(count) {
            block[index_of(at + usize::from(pair.run))] = shifted(pair.first, pass.al);
            block[index_of(at + usize::from(pair.next))] = shifted(pair.second, pass.al);
            at += passed;
            buffered.skip(count);
        } else if passed == 127 && buffered.has(count) {
            buffered.skip(count);
            return Some(0);
        } else {
            let Some(token) = read_token(buffered, source, table, end - at, refusal) else {
                return None;
            };
            match token {
                Token::Value(run, value) => {
                    at += usize::from(run);
                    block[index_of(at)] = shifted(value, pass.al);
                    at += 1;
                }
                Token::Sixteen => at = if end - at > 16 { at + 16 } else { end },
                Token::Rest(run) => return Some(run),
                Token::Overlong => return Some(0),
            }
        }
    }
    Some(0)
}

/// Reads as `read_first_coefficients` does, on a copy of the buffered bits: a local that stays in
/// registers.
#[inline(never)]
pub(crate) fn read_first_band<R: Read + Drop>(
    buffered: &mut BufferedBits,
    source: &mut Source<R>,
    table: &HuffmanTable,
    pass: Pass,
    block: &mut [i16; 64],
    refusal: &mut Option<Error>,
) -> Option<u16>
    requires class { table.now.class ≡ AC }
    requires pass { IsPass (pass_in pass) }
    ensures band { Takes (λ run. (band_in (pass_in pass) block.new, run))
        (first_ac table.now pass.al (length (band_in (pass_in pass) block.old))
        (band_in (pass_in pass) block.old))
        buffered.old source.old (answer_of result refusal.new) buffered.new source.new }
    ensures others { KeepsOthers (pass_in pass) block.old block.new }
    ensures refused { IsRefused result refusal.new }
{
    let mut local = buffered.copied();
    let run = read_first_coefficients(&mut local, source, table, pass, block, refusal);
    *buffered = local;
    run
}

/// Reads the band of a block in a first pass, of `room` coefficients, of which nothing is kept but
/// the blocks of the run that follows. A refusal is stored in `refusal`, and none is returned.
#[inline(always)]
#[tactic(auto, using(crate::proofs::Rules::runs))]
fn skip_coefficients<R: Read + Drop>(
    buffered: &mut BufferedBits,
    source: &mut Source<R>,
    table: &HuffmanTable,
    room: usize,
    refusal: &mut Option<Error>,
) -> Option<u16>
    requires class { table.now.class ≡ AC }
    requires room { room ≤ 63 }
    ensures run { Takes (λ run. run) (run_of table.now room)
        buffered.old source.old (answer_of result refusal.new) buffered.new source.new }
    ensures refused { IsRefused result refusal.new }
{
    let mut left = room;
    while left > 0 {
        if !buffered.fill(source, 16, refusal) {
            return None;
        }
        let (bits, passed, is_last) = buffered.skip_ahead(table);
        let count = usize::from(bits);
        let passed = usize::from(passed);
        if passed < left && buffered.has(count) {
            buffered.skip(count);
            if is_last {
                return Some(0);
            }
            left -= passed;
        } else {
            let Some(token) = read_token(buffered, source, table, left, refusal) else {
                return None;
            };
            match token {
                Token::Value(run, _) => left -= usize::from(run) + 1,
                Token::Sixteen => left = left.saturating_sub(16),
                Token::Rest(run) => return Some(run),
                Token::Overlong => return Some(0),
            }
        }
    }
    Some(0)
}

/// Passes over as `skip_coefficients` does, on a copy of the buffered bits: a local that stays in
/// registers.
#[inline(never)]
pub(crate) fn skip_first_band<R: Read + Drop>(
    buffered: &mut BufferedBits,
    source: &mut Source<R>,
    table: &HuffmanTable,
    room: usize,
    refusal: &mut Option<Error>,
) -> Option<u16>
    requires class { table.now.class ≡ AC }
    requires room { room ≤ 63 }
    ensures run { Takes (λ run. run) (run_of table.now room)
        buffered.old source.old (answer_of result refusal.new) buffered.new source.new }
    ensures refused { IsRefused result refusal.new }
{
    let mut local = buffered.copied();
    let run = skip_coefficients(&mut local, source, table, room, refusal);
    *buffered = local;
    run
}
