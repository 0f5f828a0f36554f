//! The sizes of pictures that are to fit within a size.
ghost use Rattle.std.specs.Prelude.{◌≡◌};
ghost use Rattle.zaxbriar_samples.specs.Sizes.{as_stored, fitted, is_within, shrunk};

use jpeg_meaning::images::ImageInfo;
use jpeg_segments::parser::Dimensions;

/// Returns a size of the picture that is shown as one of the picture that is stored: the
/// orientations from 5 to 8 lie on their side.
pub fn as_stored(size: Dimensions, orientation: u8) -> Dimensions
    ensures { result ≡ as_stored size orientation }
{
    if orientation < 5 {
        return size;
    }
    Dimensions {
        width: size.height,
        height: size.width,
    }
}

/// Returns what a side is when another side becomes shorter: the nearest number, and 1 at least.
fn shrunk(side: u16, from: u16, to: u16) -> u16
    ensures { result ≡ shrunk side from to }
{
    let product = u32::from(side) * u32::from(to) + u32::from(from) / 2;
    let nearest = product.checked_div(u32::from(from)).unwrap_or(0);
    u32::from(side).min(nearest).max(1) as u16
}

/// Returns whether a width and a height are within a size.
fn is_within(width: u16, height: u16, most: Dimensions) -> bool
    ensures { result ≡ is_within width height most }
{
    width <= most.width && height <= most.height
}

/// Returns the size of a picture that is to fit within a size: its own where that fits, or else the
/// greatest with its proportions.
pub fn fitted(full: ImageInfo, most: Dimensions) -> Dimensions
    ensures { result ≡ fitted full most }
{
    let width = full.width;
    let height = full.height;
    if is_within(width, height, most) {
        return Dimensions { width, height };
    }
    // The sides' proportions as products: the width is the side that decides where it is too great
    // by more than the height.
    let across = u32::from(width) * u32::from(most.height);
    let down = u32::from(height) * u32::from(most.width);
    if down <= across {
        Dimensions {
            width: most.width,
            height: shrunk(height, width, most.width),
        }
    } else {
        Dimensions {
            width: shrunk(width, height, most.height),
            height: most.height,
        }
    }
}
