//! The scales that a picture can be made at.
ghost use Rattle.std.specs.Prelude.{◌≡◌, true};
ghost use Rattle.jpeg_segments.specs.Scales.{block_side, is_scale};

/// A scale of a picture. A block of 8 by 8 coefficients gives that many samples, and a side of `n`
/// samples has `n * block_side / 8`, rounded up.
#[derive(Clone, Copy, Debug, PartialEq, Eq)]
pub enum Scale {
    /// One sample per block: an eighth of each side.
    Eighth,
    /// 2 by 2 samples per block: a quarter of each side.
    Quarter,
    /// 4 by 4 samples per block: half of each side.
    Half,
    /// 8 by 8 samples per block: full size.
    Full,
}

impl Scale {
    /// Returns the number of samples along a side of a block: 1, 2, 4 or 8.
    pub fn block_side(self) -> usize
        ensures side { result ≡ block_side self }
        ensures scale { is_scale result ≡ true }
    {
        match self {
            Scale::Eighth => 1,
            Scale::Quarter => 2,
            Scale::Half => 4,
            Scale::Full => 8,
        }
    }
}
