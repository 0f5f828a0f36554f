//! The differences of a lossless scan (T.81, H.1.2.2), read from its entropy-coded bits.
ghost use Rattle.std.specs.Prelude.{◌≡◌, ◌+◌, ◌*◌, ◌≤◌, map, length, take, OnOk, is_some, true};
ghost use Rattle.std.specs.Prelude.{false};
ghost use Rattle.jpeg_bits.specs.Entropy.{Takes};
ghost use Rattle.jpeg_bits.specs.Refusals.{answer_of, outcome_of, IsRefused};
ghost use Rattle.jpeg_lossless.specs.Differences.{sample_difference, differences, row_tables, onto};

use jpeg_bits::error::{Error, Result, set_category_error, take_refusal};
use jpeg_bits::huffman::{HuffmanDecoder, HuffmanTable};
use jpeg_bits::source::Source;
use std::alloc::Global;
use std::io::Read;

/// Reads the next difference, modulo 2^16: a code of its category, and as many bits. A difference
/// of category 16 is 32768 and has no bits; a category above 16 is an error. On an error stores it
/// in `refusal` and returns none.
#[inline(always)]
#[tactic(auto, unfolding(crate::proofs::Rules::differences), using(crate::proofs::Rules::no_bits))]
fn take_difference<R: Read + Drop>(
    alloc: Global,
    decoder: &mut HuffmanDecoder,
    source: &mut Source<R>,
    table: &HuffmanTable,
    refusal: &mut Option<Error>,
) -> Option<u16>
    ensures difference { Takes (λ d. d) (sample_difference table.now)
        decoder.old source.old (answer_of result refusal.new) decoder.new source.new }
    ensures refused { IsRefused result refusal.new }
{
    // Nearly all differences have at most 12 bits with their codes: one look-up tells them.
    let Some(short) = decoder.take_short_difference(source, table, refusal) else {
        return None;
    };
    if let Some(difference) = short {
        return Some(difference.cast_unsigned());
    }
    let Some(category) = decoder.take_symbol(source, table, refusal) else {
        return None;
    };
    if category > 16 {
        set_category_error(alloc, category, 16, refusal);
        return None;
    }
    if category == 0 {
        return Some(0);
    }
    if category == 16 {
        return Some(0x8000);
    }
    match decoder.take_signed(source, category, refusal) {
        Some(value) => Some(value.cast_unsigned()),
        None => None,
    }
}

/// Puts the differences of an MCU into a row, from index `at` on. On an error stores it in
/// `refusal` and returns false.
#[inline(always)]
#[tactic(auto, using(crate::proofs::DifferenceLoops::row_rules))]
fn take_mcu<R: Read + Drop>(
    alloc: Global,
    decoder: &mut HuffmanDecoder,
    source: &mut Source<R>,
    tables: &[&HuffmanTable],
    row: &mut [u16],
    at: usize,
    refusal: &mut Option<Error>,
) -> bool
    requires room { at + length tables.now ≤ length row.old }
    ensures long { length row.new ≡ length row.old }
    ensures reads { Takes (λ _. take (at + length tables.now) row.new)
        (onto (take at row.old) (differences (map (λ t. t.now) tables.now)))
        decoder.old source.old (outcome_of result refusal.new) decoder.new source.new }
    ensures refused { result ≡ false → is_some refusal.new ≡ true }
{
    for i in 0..tables.len() {
        let Some(difference) = take_difference(alloc, decoder, source, tables[i], refusal) else {
            return false;
        };
        row[at + i] = difference;
    }
    true
}

/// Fills a row with the differences of its `count` MCUs, each of which has one for each of the
/// tables. On an error stores it in `refusal` and returns false.
#[inline(always)]
#[tactic(auto, using(crate::proofs::DifferenceLoops::row_rules))]
fn take_mcus<R: Read + Drop>(
    alloc: Global,
    decoder: &mut HuffmanDecoder,
    source: &mut Source<R>,
    tables: &[&HuffmanTable],
    count: usize,
    row: &mut [u16],
    refusal: &mut Option<Error>,
) -> bool
    requires room { length row.old ≡ count * length tables.now }
    ensures long { length row.new ≡ length row.old }
    ensures reads { Takes (λ _. row.new)
        (differences (row_tables count (map (λ t. t.now) tables.now)))
        decoder.old source.old (outcome_of result refusal.new) decoder.new source.new }
    ensures refused { result ≡ false → is_some refusal.new ≡ true }
{
    let mut at = 0;
    let mut left = count;
    while left > 0 {
        if !take_mcu(alloc, decoder, source, tables, row, at, refusal) {
            return false;
        }
        at += tables.len();
        left -= 1;
    }
    true
}

/// Reads the differences of a row of `count` MCUs into `row`, replacing its contents. An MCU has
/// one for each of the tables.
#[tactic(auto, using(crate::proofs::DifferenceLoops::row_rules))]
pub(crate) fn read_row<R: Read + Drop>(
    alloc: Global,
    decoder: &mut HuffmanDecoder,
    source: &mut Source<R>,
    tables: &[&HuffmanTable],
    count: usize,
    row: &mut Vec<u16>,
) -> Result<()>
    ensures long { OnOk result (length row.new.items ≡ count * length tables.now) }
    ensures reads { Takes (λ _. row.new.items)
        (differences (row_tables count (map (λ t. t.now) tables.now)))
        decoder.old source.old result decoder.new source.new }
{
    let Some(long) = count.checked_mul(tables.len()) else {
        return Err(Error::OutOfMemory);
    };
    row.resize(long, 0)?;
    // The buffered bits of a local decoder stay in registers while the row is read.
    let mut buffered = decoder.copied();
    let mut refusal = None;
    // A loop of its own for as many tables as nearly all pictures have.
    let is_read = if tables.len() == 1 {
        let one = [tables[0]];
        take_mcus(alloc, &mut buffered, source, &one, count, row, &mut refusal)
    } else if tables.len() == 3 {
        let three = [tables[0], tables[1], tables[2]];
        take_mcus(
            alloc,
            &mut buffered,
            source,
            &three,
            count,
            row,
            &mut refusal,
        )
    } else {
        take_mcus(
            alloc,
            &mut buffered,
            source,
            tables,
            count,
            row,
            &mut refusal,
        )
    };
    *decoder = buffered;
    if !is_read {
        return Err(take_refusal(&mut refusal));
    }
    Ok(())
}
