//! Parts of pictures, as they are stored and turned upright.
ghost use Rattle.std.specs.Prelude.{◌≡◌, ◌≤◌, ◌+◌, true};
ghost use Rattle.jpeg_orientation.specs.Areas.{begins, is_inside, stored_area};
ghost use Rattle.jpeg_orientation.specs.Turns.{upright_height, upright_width};

use crate::turns::{Turn, flips_x, flips_y, is_on_side};

/// A part of a picture: some columns of some of its lines, in pixels.
#[repr(C)]
#[derive(Clone, Copy, Debug, PartialEq)]
pub struct Area {
    /// Its first column, counted from the left.
    pub left: u16,
    /// Its first line, counted from the top.
    pub top: u16,
    /// The number of its columns.
    pub width: u16,
    /// The number of its lines.
    pub height: u16,
}

/// Returns whether an area has pixels and lies within a picture of this size.
pub fn is_inside(area: Area, width: u16, height: u16) -> bool
    ensures { result ≡ is_inside area width height }
{
    let right = u32::from(area.left) + u32::from(area.width);
    let bottom = u32::from(area.top) + u32::from(area.height);
    area.width > 0 && area.height > 0 && right <= u32::from(width) && bottom <= u32::from(height)
}

/// Returns where a part of a side begins, `count` pixels from a start on, seen from the side's
/// other end where it is flipped.
fn begins(is_flipped: bool, side: u16, start: u16, count: u16) -> u16
    requires { start + count ≤ side }
    ensures { result ≡ begins is_flipped side start count }
{
    if is_flipped {
        side - (start + count)
    } else {
        start
    }
}

/// Returns the area of the stored picture whose pixels are those of an area of the upright one.
#[tactic(auto, using(crate::proofs::Rules::areas))]
pub fn stored_area(turn: Turn, area: Area) -> Area
    requires { is_inside area (upright_width turn) (upright_height turn) ≡ true }
    ensures area { result ≡ stored_area turn area }
    ensures inside { is_inside result turn.width turn.height ≡ true }
{
    let along = (area.left, area.width);
    let down = (area.top, area.height);
    let (columns, lines) = if is_on_side(turn.orientation) {
        (down, along)
    } else {
        (along, down)
    };
    Area {
        left: begins(flips_x(turn.orientation), turn.width, columns.0, columns.1),
        top: begins(flips_y(turn.orientation), turn.height, lines.0, lines.1),
        width: columns.1,
        height: lines.1,
    }
}
