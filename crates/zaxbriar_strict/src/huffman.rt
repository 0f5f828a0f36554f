//! Huffman tables (T.81, B.2.4.2 and Annex C).
ghost use Rattle.std.specs.Prelude.{◌≡◌, ◌≤◌, ◌++◌, length, sum, take, IfOk, IfSome};
ghost use Rattle.jpeg_bits.specs.Codes.{code_lengths, HasCodes};

use crate::cursor::Cursor;
use crate::rule::{Rule, Stop};

/// A code's length, 0 for none, and the symbol that it stands for.
#[derive(Clone, Copy)]
pub(crate) struct Code {
    pub(crate) length: u8,
    pub(crate) symbol: u8,
}

const NO_CODE: Code = Code {
    length: 0,
    symbol: 0,
};

/// The codes of a table: how many there are of each length from 1 to 16, and their symbols in the
/// order of the codes.
#[derive(Clone, Copy)]
pub(crate) struct HuffmanTable {
    counts: [u8; 16],
    symbols: [u8; 256],
    /// Whether a code consists of ones alone.
    pub(crate) has_ones_alone: bool,
    /// The greatest symbol, 0 if there is none.
    pub(crate) greatest: u8,
    ghost lengths: { length counts ≡ 16 },
    ghost places: { length symbols ≡ 256 },
    ghost most: { sum counts ≤ 256 },
}

impl HuffmanTable {
    ghost use Rattle.std.specs.Prelude.{◌≡◌, ◌≢◌, ◌≤◌, take, IfOk};
    ghost use Rattle.jpeg_bits.specs.Written.{low_bits, IsCoded};
    ghost use Rattle.jpeg_bits.specs.declared.huffman.codes.HuffmanTableClass.{HuffmanTableClass};
    ghost use Rattle.zaxbriar_strict.specs.Tables.{codes_in, TakesCodes};

    /// Returns the code with which these 16 bits begin, by the number of codes of each length:
    /// those of one length follow each other, and begin at twice the number after the shorter ones
    /// (C.2).
    pub(crate) fn find(&self, bits: u16) -> Code
        ensures coded { (class : HuffmanTableClass) → result.length ≢ 0
            → IsCoded (codes_in class self.now) result.symbol
            (take result.length (low_bits 16 bits)) }
        ensures most { result.length ≤ 16 }
    {
        let mut end = 0u32;
        let mut index = 0usize;
        for place in 0..16 {
            let count = u32::from(self.counts[place]);
            let first = 2 * end;
            let code = u32::from(bits >> (15 - place));
            end = first + count;
            if first <= code && code < end {
                let at = index + (code - first) as usize;
                return Code {
                    length: place as u8 + 1,
                    symbol: self.symbols[at],
                };
            }
            index += count as usize;
        }
        NO_CODE
    }

    /// Takes a table (B.2.4.2), and returns its class, 0 or 1, its destination, 0 to 3, and its
    /// codes.
    pub(crate) fn read(cursor: &mut Cursor<'_>) -> Result<(u8, u8, HuffmanTable), Stop>
        ensures { IfOk result
            (λ t. TakesCodes t.0 t.1 t.2 cursor.old.rest.now cursor.new.rest.now) }
    {
        let start = *cursor;
        let Some(head) = cursor.byte() else {
            return Err(start.breaks(Rule::Codes));
        };
        if head / 16 > 1 || head % 16 > 3 {
            return Err(start.breaks(Rule::Codes));
        }
        match take_codes(cursor) {
            Ok(table) => Ok((head / 16, head % 16, table)),
            Err(rule) => Err(start.breaks(rule)),
        }
    }
}

/// Returns how many numbers of 16 bits begin with one of these many codes of each length. Where
/// there are more than such numbers, the codes don't exist.
fn room_of(counts: &[u8; 16]) -> u32
    ensures { result ≤ 65536 → HasCodes (code_lengths counts.now) }
{
    let mut room = 0u32;
    for place in 0..16 {
        room = 2 * room + u32::from(counts[place]);
    }
    room
}

/// Takes as many bytes as there is room for, if they are there.
fn fill(cursor: &mut Cursor<'_>, bytes: &mut [u8]) -> Option<()>
    ensures { IfSome result (λ _. cursor.old.rest.now ≡ bytes.new ++ cursor.new.rest.now) }
{
    let Some((taken, rest)) = cursor.rest.split_at_checked(bytes.len()) else {
        return None;
    };
    bytes.copy_from_slice(taken);
    cursor.rest = rest;
    Some(())
}

/// Returns how many codes there are: at least one, and at most 256.
fn count_of(counts: &[u8; 16]) -> Result<usize, Rule>
    ensures count { IfOk result (λ n. n ≡ sum counts.now) }
    ensures some { IfOk result (λ n. 1 ≤ n) }
    ensures most { IfOk result (λ n. n ≤ 256) }
{
    let mut total = 0usize;
    for place in 0..16 {
        total += usize::from(counts[place]);
    }
    if total > 256 {
        return Err(Rule::CodeCount);
    }
    if total == 0 {
        return Err(Rule::EmptyTable);
    }
    Ok(total)
}

/// Takes the codes of a table from its counts on.
fn take_codes(cursor: &mut Cursor<'_>) -> Result<HuffmanTable, Rule>
    ensures bytes { IfOk result (λ t. cursor.old.rest.now
        ≡ t.counts ++ (take (sum t.counts) t.symbols ++ cursor.new.rest.now)) }
    ensures some { IfOk result (λ t. 1 ≤ sum t.counts) }
    ensures exist { IfOk result (λ t. HasCodes (code_lengths t.counts)) }
{
    let mut counts = [0u8; 16];
    let mut symbols = [0u8; 256];
    let Some(()) = fill(cursor, &mut counts) else {
        return Err(Rule::Codes);
    };
    let total = count_of(&counts)?;
    let Some(()) = fill(cursor, &mut symbols[..total]) else {
        return Err(Rule::CodeCount);
    };
    let room = room_of(&counts);
    if room > 65536 {
        return Err(Rule::Overfull);
    }
    Ok(HuffmanTable {
        counts,
        symbols,
        has_ones_alone: room == 65536,
        greatest: symbols.iter().copied().max().unwrap_or(0),
    })
}
