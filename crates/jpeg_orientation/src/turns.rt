//! Pictures turned upright by the orientation in their Exif data (Exif 2.3, 4.6.4).
ghost use Rattle.std.specs.Prelude.{◌≡◌};
ghost use Rattle.jpeg_orientation.specs.Turns.{flips_x, flips_y, is_on_side, mirrored};
ghost use Rattle.jpeg_orientation.specs.Turns.{upright_across, upright_down, upright_height};
ghost use Rattle.jpeg_orientation.specs.Turns.{upright_width};

/// How a picture is turned upright.
#[derive(Clone, Copy)]
pub struct Turn {
    /// The width of the picture that is stored, in pixels.
    pub width: u16,
    /// The height of the picture that is stored, in pixels.
    pub height: u16,
    /// The orientation: 1, upright, to 8.
    pub orientation: u8,
}

/// Returns whether pictures of an orientation lie on their side.
pub fn is_on_side(orientation: u8) -> bool
    ensures { result ≡ is_on_side orientation }
{
    4 < orientation
}

/// Returns whether the columns of the stored picture are in the other direction.
pub fn flips_x(orientation: u8) -> bool
    ensures { result ≡ flips_x orientation }
{
    orientation == 2 || orientation == 3 || orientation == 7 || orientation == 8
}

/// Returns whether the lines of the stored picture are in the other direction.
pub fn flips_y(orientation: u8) -> bool
    ensures { result ≡ flips_y orientation }
{
    orientation == 3 || orientation == 4 || orientation == 6 || orientation == 7
}

/// Returns an index along a side, from its other end where it is flipped.
pub fn mirrored(is_flipped: bool, side: usize, index: usize) -> usize
    ensures { result ≡ mirrored is_flipped side index }
{
    if is_flipped {
        side.saturating_sub(1).saturating_sub(index)
    } else {
        index
    }
}

/// Returns the width of the upright picture.
pub fn upright_width(turn: Turn) -> u16
    ensures { result ≡ upright_width turn }
{
    if is_on_side(turn.orientation) {
        turn.height
    } else {
        turn.width
    }
}

/// Returns the height of the upright picture.
pub fn upright_height(turn: Turn) -> u16
    ensures { result ≡ upright_height turn }
{
    if is_on_side(turn.orientation) {
        turn.width
    } else {
        turn.height
    }
}

/// Returns how far across and down in the upright picture a pixel of the stored one is.
pub fn upright_place(turn: Turn, x: usize, y: usize) -> (usize, usize)
    ensures across { result.0 ≡ upright_across turn x y }
    ensures down { result.1 ≡ upright_down turn x y }
{
    let along = mirrored(flips_x(turn.orientation), usize::from(turn.width), x);
    let line = mirrored(flips_y(turn.orientation), usize::from(turn.height), y);
    if is_on_side(turn.orientation) {
        (line, along)
    } else {
        (along, line)
    }
}
