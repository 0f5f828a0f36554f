//! The blocks of a component (T.81, A.2.2 and A.2.3).
ghost use Rattle.std.specs.Prelude.{◌≡◌, ◌≤◌};
ghost use Rattle.jpeg_segments.specs.Frame.{ceiling};
ghost use Rattle.jpeg_segments.specs.FrameView.{component_in};
ghost use Rattle.jpeg_meaning.specs.Order.{grid_of};

use jpeg_segments::parser::Component;

/// The blocks of a component, across and down: its own, by its size in samples, and those that its
/// part of all MCUs has.
#[derive(Clone, Copy, Debug, PartialEq)]
pub struct Grid {
    /// How many of its own blocks a line has.
    pub own_wide: u16,
    /// How many lines of its own blocks there are.
    pub own_high: u16,
    /// How many blocks a line has in all MCUs.
    pub wide: u16,
    /// How many lines of blocks there are in all MCUs.
    pub high: u16,
}

/// Returns how many blocks a side of some samples takes, if a block gives `scale` samples per side.
fn blocks_of(samples: u16, scale: usize) -> u16
    requires some { 1 ≤ scale }
    requires most { scale ≤ 8 }
    ensures { result ≡ ceiling samples scale }
{
    ((usize::from(samples) + (scale - 1)) / scale) as u16
}

/// Returns the blocks of a component, at its scale.
pub fn grid_of(component: &Component) -> Grid
    requires some { 1 ≤ component.now.dct_scale }
    requires most { component.now.dct_scale ≤ 8 }
    ensures { result ≡ grid_of (component_in component.now) }
{
    Grid {
        own_wide: blocks_of(component.size.width, component.dct_scale),
        own_high: blocks_of(component.size.height, component.dct_scale),
        wide: component.block_size.width,
        high: component.block_size.height,
    }
}
