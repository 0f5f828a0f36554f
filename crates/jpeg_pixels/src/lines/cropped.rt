//! The picture of one component: its plane, cropped.

use crate::plane::crop;
use std::marker::Model;

/// The first samples of the first lines of a plane.
#[derive(Drop)]
pub(crate) struct CroppedLines {
    plane: Vec<u8>,
    /// How many samples a line of the plane has.
    stride: usize,
    width: usize,
    height: usize,
}

impl Model for CroppedLines {
    ghost use Rattle.std.specs.Prelude.{◌≤◌, ◌*◌, List, ℕ, length};

    ghost Value = { List (List ℕ) };

    ghost use Rattle.jpeg_pixels.specs.Lines.{cropped_lines};

    ghost view = { λ l. cropped_lines l.stride l.width l.height l.plane.items };

    ghost invariant = { λ l. (l.width ≤ l.stride) × (l.height * l.stride ≤ length l.plane.items) };
}

impl CroppedLines {
    ghost use Rattle.std.specs.Prelude.{◌≡◌, ◌<◌, ◌≤◌, ◌*◌, [], length, slice_index_or};
    ghost use Rattle.std.specs.List.{concat};
    ghost use Rattle.jpeg_pixels.specs.Lines.{cropped_lines};

    /// Takes a plane whose lines have `stride` samples.
    pub(crate) fn new(plane: Vec<u8>, stride: usize, width: usize, height: usize) -> CroppedLines
        requires width { width ≤ stride }
        requires room { height * stride ≤ length plane.items }
        ensures { result ≡ cropped_lines stride width height plane.items }
    {
        CroppedLines {
            plane,
            stride,
            width,
            height,
        }
    }

    /// Returns how many lines there are.
    pub(crate) fn height(&self) -> usize
        ensures { result ≡ length self.now }
    {
        self.height
    }

    /// Writes line `row` into memory of its size.
    pub(crate) fn write_line(&self, row: usize, line: &mut [u8])
        requires row { row < length self.now }
        requires room { length line.old ≡ length (slice_index_or self.now row []) }
        ensures { line.new ≡ slice_index_or self.now row [] }
    {
        let start = row * self.stride;
        line.copy_from_slice(&self.plane[start..start + self.width]);
    }

    /// Returns all lines, one after the other, in the memory of the plane.
    pub(crate) fn into_picture(self) -> Vec<u8>
        ensures { result.items ≡ concat self }
    {
        let mut plane = self.plane;
        crop(&mut plane, self.stride, self.width, self.height);
        plane
    }
}
