//! Passes over the coefficients of a block (T.81, B.2.3 and G.1.1.1).

/// What a scan codes: the coefficients from `ss` to `se` in zigzag order at the point transform
/// `al`, for the first time or as a refinement.
#[derive(Clone, Copy, Debug, PartialEq)]
pub struct Pass {
    /// Whether the coefficients are coded for the first time.
    pub is_first: bool,
    /// The first coefficient of the band (T.81, B.2.3): Ss.
    pub ss: u8,
    /// The last coefficient of the band: Se.
    pub se: u8,
    /// The point transform: Al.
    pub al: u8,
}

impl Pass {
    ghost use Rattle.std.specs.Prelude.{◌≡◌};
    ghost use Rattle.jpeg_bits.specs.BlockView.{pass_in};
    ghost use Rattle.jpeg_bits.specs.ZigzagParts.{band_start, band_end};

    /// Returns the index in zigzag order at which the band begins (T.81, G.1.1.1.1). DC is no part
    /// of it.
    #[inline(always)]
    pub(crate) fn band_start(self) -> usize
        ensures { result ≡ band_start (pass_in self) }
    {
        usize::from(self.ss.max(1))
    }

    /// Returns the index in zigzag order after the last one of the band.
    #[inline(always)]
    pub(crate) fn band_end(self) -> usize
        ensures { result ≡ band_end (pass_in self) }
    {
        usize::from(self.se) + 1
    }
}
