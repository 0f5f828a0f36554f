//! Pixels from rows of their components.
ghost use Rattle.std.specs.Prelude.{◌≡◌, ℕ, ◌+◌, ◌*◌, ◌<◌, ◌≤◌, length, slice_index};

/// Writes the pixels from `start` on, of three rows.
pub(crate) fn interleave_three(
    first: &[u8],
    second: &[u8],
    third: &[u8],
    count: usize,
    output: &mut [u8],
    start: usize,
)
    requires first { count ≤ length first.now }
    requires second { count ≤ length second.now }
    requires third { count ≤ length third.now }
    requires room { 3 * (start + count) ≤ length output.old }
    ensures first { (x : ℕ) → x < count → slice_index output.new (3 * (start + x))
        ≡ slice_index first.now x }
    ensures second { (x : ℕ) → x < count → slice_index output.new (3 * (start + x) + 1)
        ≡ slice_index second.now x }
    ensures third { (x : ℕ) → x < count → slice_index output.new (3 * (start + x) + 2)
        ≡ slice_index third.now x }
    ensures before { (i : ℕ) → i < 3 * start → slice_index output.new i ≡ slice_index output.old i }
    ensures after { (i : ℕ) → 3 * (start + count) ≤ i → slice_index output.new i
        ≡ slice_index output.old i }
{
    for x in 0..count {
        output[3 * (start + x)] = first[x];
        output[3 * (start + x) + 1] = second[x];
        output[3 * (start + x) + 2] = third[x];
    }
}

/// A row of each of four components.
#[derive(Drop)]
pub(crate) struct FourRows<'a> {
    pub(crate) first: &'a [u8],
    pub(crate) second: &'a [u8],
    pub(crate) third: &'a [u8],
    pub(crate) fourth: &'a [u8],
}

/// Writes the pixels from `start` on, of four rows.
pub(crate) fn interleave_four(rows: &FourRows<'_>, count: usize, output: &mut [u8], start: usize)
    requires first { count ≤ length rows.now.first.now }
    requires second { count ≤ length rows.now.second.now }
    requires third { count ≤ length rows.now.third.now }
    requires fourth { count ≤ length rows.now.fourth.now }
    requires room { 4 * (start + count) ≤ length output.old }
    ensures first { (x : ℕ) → x < count → slice_index output.new (4 * (start + x))
        ≡ slice_index rows.now.first.now x }
    ensures second { (x : ℕ) → x < count → slice_index output.new (4 * (start + x) + 1)
        ≡ slice_index rows.now.second.now x }
    ensures third { (x : ℕ) → x < count → slice_index output.new (4 * (start + x) + 2)
        ≡ slice_index rows.now.third.now x }
    ensures fourth { (x : ℕ) → x < count → slice_index output.new (4 * (start + x) + 3)
        ≡ slice_index rows.now.fourth.now x }
    ensures before { (i : ℕ) → i < 4 * start → slice_index output.new i ≡ slice_index output.old i }
{
    for x in 0..count {
        output[4 * (start + x)] = rows.first[x];
        output[4 * (start + x) + 1] = rows.second[x];
        output[4 * (start + x) + 2] = rows.third[x];
        output[4 * (start + x) + 3] = rows.fourth[x];
    }
}
