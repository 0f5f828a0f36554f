//! Values of a first pass that are read two at once, and the end of a block with them (T.81,
//! F.2.2.2).
ghost use Rattle.std.specs.Prelude.{◌≡◌, ◌+◌, ◌≤◌, IfOk, length};
ghost use Rattle.jpeg_bits.specs.Codes.{Table};
ghost use Rattle.jpeg_bits.specs.ShortCodes.{HoldsCodes, HoldsWideValues};
ghost use Rattle.jpeg_bits.specs.Pairs.{AreSmall, HoldsPairs, ended, pair_by, with_end};

use crate::huffman::packed_codes::unpacked_code;
use std::alloc::{AllocError, Global};

/// The values that some bits begin with, one or two, and whether the end of the block follows; or
/// the end alone.
#[derive(Clone, Copy, Debug, PartialEq)]
pub(crate) struct Pair {
    /// The first value.
    pub(crate) first: i16,
    /// The second value, or the first again if there is only one.
    pub(crate) second: i16,
    /// How many zeros precede the first value.
    pub(crate) run: u8,
    /// How many coefficients precede the second value.
    pub(crate) next: u8,
    /// The number of coefficients, with the zeros, and 129 more if the end of the block follows: it
    /// is only coded if at least one more coefficient is left, and 128 are more than any band has.
    /// Without a value it is 127 for the end, and 64 for no end: more than any band has, even
    /// modulo 128.
    pub(crate) passed: u8,
    /// How many bits they take.
    pub(crate) bits: u8,
}

/// No value.
pub(crate) const NO_PAIR: Pair = Pair {
    first: 0,
    second: 0,
    run: 0,
    next: 0,
    passed: 64,
    bits: 0,
};

/// Returns a value and the one after it, if they take at most 11 bits together. Each has its run
/// and its number of bits, which is 0 if there is no value.
#[tactic(auto, unfolding(crate::specs::Pairs::pair_by))]
fn pair_of(value: (i16, u8, u8), after: (i16, u8, u8)) -> Pair
    requires run { value.1 ≤ 15 }
    requires more { after.1 ≤ 15 }
    requires few { value.2 ≤ 11 }
    requires few_after { after.2 ≤ 11 }
    ensures pair { result ≡ pair_by value after }
    ensures small { result.passed ≤ 64 }
    ensures most { result.bits ≤ 11 }
{
    let (first, run, bits) = value;
    let (second, zeros, more) = after;
    if bits == 0 {
        return NO_PAIR;
    }
    if more == 0 || bits + more > 11 {
        return Pair {
            first,
            second: first,
            run,
            next: run,
            passed: run + 1,
            bits,
        };
    }
    Pair {
        first,
        second,
        run,
        next: run + 1 + zeros,
        passed: run + zeros + 2,
        bits: bits + more,
    }
}

/// Returns a pair with the end of the block after it, whose code has `size` bits; the end alone if
/// the pair has no value.
#[tactic(auto, unfolding(crate::specs::Pairs::with_end))]
fn with_end(pair: Pair, size: u8) -> Pair
    requires small { pair.passed ≤ 64 }
    requires few { pair.bits + size ≤ 11 }
    ensures { result ≡ with_end pair size }
{
    if pair.bits == 0 {
        return Pair {
            first: 0,
            second: 0,
            run: 0,
            next: 0,
            passed: 127,
            bits: size,
        };
    }
    Pair {
        passed: 129 + pair.passed,
        bits: pair.bits + size,
        ..pair
    }
}

/// Returns a pair, with the end of the block after it if the next code is that of the end and is
/// within 11 bits.
#[tactic(auto, unfolding(crate::specs::Pairs::ended))]
fn ended(pair: Pair, next: Option<(u8, u8)>) -> Pair
    requires small { pair.passed ≤ 64 }
    requires few { pair.bits ≤ 11 }
    ensures { result ≡ ended pair next }
{
    match next {
        Some((symbol, size)) if symbol == 0 && size <= 11 - pair.bits => with_end(pair, size),
        _ => pair,
    }
}

/// Returns the values that 11 bits begin with, one or two, and the end of the block after them, at
/// the index of each. They are found by a table of one value, and by the codes that 8 bits begin
/// with.
pub(crate) fn pairs_of(
    alloc: Global,
    codes: &[u16],
    values: &[(i16, u8, u8)],
) -> std::result::Result<Vec<Pair>, AllocError>
    requires codes { length codes.now ≡ 256 }
    requires length { length values.now ≡ 2048 }
    requires small { AreSmall values.now }
    ensures { (table : Table) → length table.counts ≡ 16
        → HoldsCodes table.counts table.symbols codes.now → HoldsWideValues table values.now
        → IfOk result (λ v. HoldsPairs table v.items) }
{
    let mut pairs = vec![in alloc; NO_PAIR; 2048]?;
    for bits in 0..2048 {
        let value = values[bits];
        let after = values[(bits << value.2) % 2048];
        let pair = pair_of(value, after);
        let rest = (bits << pair.bits) % 2048;
        pairs[bits] = ended(pair, unpacked_code(codes[rest / 8]));
    }
    Ok(pairs)
}
