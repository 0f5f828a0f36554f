//! Quantization tables (T.81, B.2.4.1), and the ranges of coefficients (A.3.3 and A.3.4).
ghost use Rattle.std.specs.Prelude.{◌≡◌, ◌≤◌, ◌<◌, ◌+◌, ◌≤ℤ◌, ◌++◌, IfOk, IfSome, IsTrue, false};
ghost use Rattle.std.specs.Prelude.{flat_map, length, pos, unsigned_abs};
ghost use Rattle.std.specs.List.{AllByRecursion};
ghost use Rattle.jpeg_bits.specs.BlockView.{dc_in};
ghost use Rattle.jpeg_meaning.specs.Levels.{Is8Bit};
ghost use Rattle.jpeg_segments.specs.WrittenSegments.{value_bytes};
ghost use Rattle.zaxbriar_strict.specs.Bands.{block_in, IsInner};
ghost use Rattle.zaxbriar_strict.specs.Quantizations.{precision_of, TakesSteps};
ghost use Rattle.zaxbriar_strict.specs.Sent.{AllInner};

use crate::cursor::Cursor;
use crate::rule::{Rule, Stop};

/// The steps of a quantization table, in zigzag order.
#[derive(Clone, Copy, PartialEq)]
pub(crate) struct Steps {
    pub(crate) steps: [u16; 64],
    /// Whether they were given in 16 bits each.
    pub(crate) is_wide: bool,
}

/// The coefficients of a block, in zigzag order.
pub(crate) type Block = [i16; 64];

/// Takes a step of one byte, or of two, if they are there.
fn take_step(cursor: &mut Cursor<'_>, is_wide: bool) -> Option<u16>
    ensures { IfSome result (λ v. cursor.old.rest.now
        ≡ value_bytes (precision_of is_wide) v ++ cursor.new.rest.now) }
{
    if is_wide {
        return cursor.number();
    }
    match cursor.byte() {
        Some(byte) => Some(u16::from(byte)),
        None => None,
    }
}

/// Takes the steps of a table.
fn take_steps(cursor: &mut Cursor<'_>, is_wide: bool) -> Result<Steps, Rule>
    ensures bytes { IfOk result (λ t. cursor.old.rest.now
        ≡ flat_map (value_bytes (precision_of is_wide)) t.steps ++ cursor.new.rest.now) }
    ensures some { IfOk result (λ t. AllByRecursion (λ v. 0 < v) t.steps) }
    ensures count { IfOk result (λ t. length t.steps ≡ 64) }
    ensures width { IfOk result (λ t. t.is_wide ≡ is_wide) }
{
    let mut steps = [0u16; 64];
    for place in 0..64 {
        let Some(step) = take_step(cursor, is_wide) else {
            return Err(Rule::Quantization);
        };
        if step == 0 {
            return Err(Rule::ZeroStep);
        }
        steps[place] = step;
    }
    Ok(Steps { steps, is_wide })
}

/// Takes a table, and returns its destination, 0 to 3, and its steps.
pub(crate) fn take_table(cursor: &mut Cursor<'_>) -> Result<(u8, Steps), Stop>
    ensures { IfOk result
        (λ t. TakesSteps t.0 t.1 cursor.old.rest.now cursor.new.rest.now) }
{
    let start = *cursor;
    let Some(head) = cursor.byte() else {
        return Err(start.breaks(Rule::Quantization));
    };
    if head / 16 > 1 || head % 16 > 3 {
        return Err(start.breaks(Rule::Quantization));
    }
    match take_steps(cursor, head >= 16) {
        Ok(steps) => Ok((head % 16, steps)),
        Err(rule) => Err(start.breaks(rule)),
    }
}

/// Returns the greatest magnitude of AC coefficients of samples of 8 bits, or else of 12
/// (F.1.2.2.1).
fn greatest_of(is_deep: bool) -> u16
    ensures eight { is_deep ≡ false → result ≡ 1023 }
    ensures most { result ≤ 16383 }
{
    if is_deep { 16383 } else { 1023 }
}

/// Returns whether a DC coefficient has as many bits as AC coefficients of this magnitude
/// (F.1.2.1.1): samples go down further than up.
fn is_dc_within(dc: i16, most: u16) -> bool
    requires { most ≤ 16383 }
    ensures low { IsTrue result → unsigned_abs dc ≤ most + 1 }
    ensures high { IsTrue result → dc ≤ℤ pos most }
{
    if dc < 0 {
        dc.unsigned_abs() <= most + 1
    } else {
        dc.unsigned_abs() <= most
    }
}

/// Returns whether these are coefficients of samples of 8 bits, or else of 12, by the bits that
/// they have.
fn has_bits(block: &Block, is_deep: bool) -> bool
    ensures inner { IsTrue result → IsInner (dc_in block.now) }
    ensures eight { IsTrue result → is_deep ≡ false → Is8Bit (block_in block.now) }
{
    let most = greatest_of(is_deep);
    if !is_dc_within(block[0], most) {
        return false;
    }
    for place in 1..64 {
        if block[place].unsigned_abs() > most {
            return false;
        }
    }
    true
}

/// Returns whether no coefficient is at an end of the range of 16 bits.
pub(crate) fn is_inner(block: &Block) -> bool
    ensures { IsTrue result → AllInner block.now }
{
    let mut is_inner = true;
    // (Without an exit, so that many are compared at once.)
    for coefficient in block {
        is_inner &= coefficient.unsigned_abs() <= 32766;
    }
    is_inner
}

/// Returns whether samples of a precision of 8 bits, or else of 12, can have these coefficients.
///
/// The transform keeps the sum of squares (A.3.3), so that of what quantization rounded to these
/// coefficients (A.3.4) is at most that of 64 samples at the end of their range. Each was at least
/// its value less one half, times its step. Twice that is compared, so that the numbers are whole.
pub(crate) fn is_in_range(block: &Block, steps: &Steps, is_deep: bool) -> bool
    ensures inner { IsTrue result → IsInner (dc_in block.now) }
    ensures eight { IsTrue result → is_deep ≡ false → Is8Bit (block_in block.now) }
{
    if !has_bits(block, is_deep) {
        return false;
    }
    let most = if is_deep { 2048u64 * 16 } else { 2048 };
    let mut sum = 0u64;
    for (coefficient, step) in block.iter().zip(steps.steps.iter()) {
        let twice = 2 * u64::from(coefficient.unsigned_abs());
        let least = twice.saturating_sub(1).saturating_mul(u64::from(*step));
        sum = sum.saturating_add(least.saturating_mul(least));
    }
    sum <= most * most
}
