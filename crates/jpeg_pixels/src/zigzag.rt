//! The zigzag order of a block.
ghost use Rattle.std.specs.Prelude.{◌≡◌, ◌<◌, slice_index};
ghost use Rattle.jpeg_bits.specs.Zigzag.{zigzag_indices, values_in_block_order};

/// The index in zigzag order of each index in the block.
const PLACES: [usize; 64] = [
    0, 1, 5, 6, 14, 15, 27, 28, //
    2, 4, 7, 13, 16, 26, 29, 42, //
    3, 8, 12, 17, 25, 30, 41, 43, //
    9, 11, 18, 24, 31, 40, 44, 53, //
    10, 19, 23, 32, 39, 45, 52, 54, //
    20, 22, 33, 38, 46, 51, 55, 60, //
    21, 34, 37, 47, 50, 56, 59, 61, //
    35, 36, 48, 49, 57, 58, 62, 63,
];

#[tactic(auto, unfolding(jpeg_bits::specs::Zigzag::zigzag_indices))]
fn zigzag_index(index: usize) -> usize
    requires { index < 64 }
    ensures value { result ≡ slice_index zigzag_indices index }
    ensures within { result < 64 }
{
    PLACES[index]
}

/// Returns the 64 values of a quantization table, given in zigzag order, in block order: that of
/// row `v` and column `u` is at `8 * v + u` (T.81, A.3.6).
#[tactic(auto, using(crate::proofs::Sums::set_next))]
pub fn values_in_order(values: &[u16; 64]) -> [u16; 64]
    ensures { result ≡ values_in_block_order values.now }
{
    let mut ordered = [0u16; 64];
    for index in 0..64 {
        ordered[index] = values[zigzag_index(index)];
    }
    ordered
}
