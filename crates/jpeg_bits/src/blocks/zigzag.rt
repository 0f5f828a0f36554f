//! The zigzag order of a block.
ghost use Rattle.std.specs.Prelude.{◌≡◌, ◌<◌, slice_index};
ghost use Rattle.jpeg_bits.specs.Zigzag.{zigzag};

/// The index in the block, `8 * row + column`, of each index in zigzag order (T.81, A.3.6).
const PLACES: [u8; 64] = [
    0, 1, 8, 16, 9, 2, 3, 10, //
    17, 24, 32, 25, 18, 11, 4, 5, //
    12, 19, 26, 33, 40, 48, 41, 34, //
    27, 20, 13, 6, 7, 14, 21, 28, //
    35, 42, 49, 56, 57, 50, 43, 36, //
    29, 22, 15, 23, 30, 37, 44, 51, //
    58, 59, 52, 45, 38, 31, 39, 46, //
    53, 60, 61, 54, 47, 55, 62, 63,
];

/// Returns the index in the block, `8 * row + column`, of an index in zigzag order (T.81, A.3.6).
#[inline(always)]
pub(crate) fn index_of(zigzag_index: usize) -> usize
    requires { zigzag_index < 64 }
    ensures value { result ≡ slice_index zigzag zigzag_index }
    ensures within { result < 64 }
{
    usize::from(PLACES[zigzag_index])
}
