//! The limits of a picture that is decoded.
ghost use Rattle.std.specs.Prelude.{◌≡◌, ◌-◌, ◌^◌, MatchResult, None, Some, false, true};
ghost use Rattle.zaxbriar_files.specs.Limits.{IsAbove, is_allowed, is_at_most, most_blocks};

use crate::refusal::Refusal;

/// Returns whether a number is at most what is allowed, if there is a limit.
fn is_at_most(limit: Option<u64>, number: u64) -> bool
    ensures { result ≡ is_at_most limit number }
{
    match limit {
        Some(most) => number <= most,
        None => true,
    }
}

/// How many pixels a picture may have, how many bytes it may take, and how often the scans of its
/// file may code its blocks; none is no limit.
#[derive(Clone, Copy)]
pub struct Limits {
    /// How many pixels.
    pub pixels: Option<u64>,
    /// How many bytes, of the decoder and of the pictures that are made of the decoded one.
    pub memory: Option<u64>,
    /// Whether that is the machine's share, which no option has set.
    pub is_share: bool,
    /// How many times as many blocks as the picture has, all scans together.
    pub passes: Option<u64>,
}

impl Limits {
    /// Refuses a picture of this width and height, which takes this number of bytes, unless it is
    /// within the limits.
    pub fn check(self, width: u16, height: u16, bytes: u64) -> Result<(), Refusal>
        ensures { MatchResult result (λ _. is_allowed self width height bytes ≡ true)
            (IsAbove self width height bytes) }
    {
        let pixels = u64::from(width) * u64::from(height);
        if !is_at_most(self.pixels, pixels) {
            let most = self.pixels.unwrap_or(0);
            return Err(Refusal::Pixels { pixels, most });
        }
        if !is_at_most(self.memory, bytes) {
            let most = self.memory.unwrap_or(0);
            let is_share = self.is_share;
            return Err(Refusal::Memory {
                bytes,
                most,
                is_share,
            });
        }
        Ok(())
    }

    /// Returns how many blocks the scans of a file may code, all together, whose picture has this
    /// many, if there is a limit.
    pub fn most_blocks(self, picture_blocks: u64) -> Option<u64>
        ensures { result ≡ most_blocks self picture_blocks }
    {
        let passes = self.passes?;
        Some(passes.saturating_mul(picture_blocks))
    }
}

/// Gives the limits of blocks of worked pictures.
#[tactic(auto)]
pub fn known_limits()
    ensures blocks { most_blocks (record {
      pixels = None;
      memory = None;
      is_share = false;
      passes = Some 100;
    }) 3 ≡ Some 300 }
    ensures most { most_blocks (record {
      pixels = None;
      memory = None;
      is_share = false;
      passes = Some (2 ^ 63);
    }) 3 ≡ Some (2 ^ 64 - 1) }
    ensures unlimited { most_blocks (record {
      pixels = None;
      memory = None;
      is_share = false;
      passes = None;
    }) 3 ≡ None }
{}
