//! The picture of separate planes: its lines are upsampled and converted one by one.

use crate::color_convert::ColorConvert;
use crate::picture_lines::Line;
use crate::upsampler::Upsampler;
use jpeg_bits::error::Result;
use jpeg_segments::parser::Dimensions;
use std::alloc::Global;
use std::marker::Model;

/// The lines of the picture of several planes.
#[derive(Drop)]
pub(crate) struct UpsampledLines {
    upsampler: Upsampler,
    planes: Vec<Vec<u8>>,
    width: usize,
    height: usize,
    color_convert: ColorConvert,
    /// Room for a line of each component.
    buffer: Vec<u8>,
}

impl Model for UpsampledLines {
    ghost use Rattle.std.specs.Prelude.{◌≡◌, ◌*◌, List, ℕ, length, map};

    ghost Value = { List (List ℕ) };

    ghost use Rattle.jpeg_pixels.specs.Lines.{AreUpsampled, upsampled_lines};

    ghost view = { λ l. upsampled_lines l.color_convert l.upsampler
        (map (λ v. v.items) l.planes.items) l.width l.height };

    ghost invariant = { λ l. AreUpsampled l.color_convert l.upsampler
        (map (λ v. v.items) l.planes.items) l.width l.height
        × (length l.buffer.items ≡ length l.upsampler * l.width) };
}

impl UpsampledLines {
    ghost use Rattle.std.specs.Prelude.{◌≡◌, ◌<◌, ◌≤◌, [], MatchResult, length, map};
    ghost use Rattle.std.specs.Prelude.{slice_index_or};
    ghost use Rattle.std.specs.List.{concat};
    ghost use Rattle.jpeg_bits.specs.declared.error.Error.TheVariants.{OutOfMemory};
    ghost use Rattle.jpeg_pixels.specs.Lines.{upsampled_lines};
    ghost use Rattle.jpeg_pixels.specs.Pictures.{AllCover};
    ghost use Rattle.jpeg_pixels.specs.PicturesView.{IsFor};

    /// Takes the planes of an upsampler's components. The only error is `OutOfMemory`.
    pub(crate) fn new(
        alloc: Global,
        upsampler: Upsampler,
        planes: Vec<Vec<u8>>,
        size: Dimensions,
        color_convert: ColorConvert,
    ) -> Result<UpsampledLines>
        requires most { length upsampler ≤ 4 }
        requires planes { length planes.items ≡ length upsampler }
        requires cover { AllCover upsampler (map (λ v. v.items) planes.items) size.width
            size.height }
        requires fits { IsFor (length upsampler) color_convert }
        ensures { MatchResult result
            (λ l. l ≡ upsampled_lines color_convert upsampler (map (λ v. v.items) planes.items)
            size.width size.height)
            (λ e. e ≡ OutOfMemory) }
    {
        let width = usize::from(size.width);
        let buffer = vec![in alloc; 0; planes.len() * width]?;
        Ok(UpsampledLines {
            upsampler,
            planes,
            width,
            height: usize::from(size.height),
            color_convert,
            buffer,
        })
    }

    /// Returns how many lines there are.
    pub(crate) fn height(&self) -> usize
        ensures { result ≡ length self.now }
    {
        self.height
    }

    /// Writes line `row` into memory of its size.
    pub(crate) fn write_line(&mut self, row: usize, line: &mut [u8])
        requires row { row < length self.old }
        requires room { length line.old ≡ length (slice_index_or self.old row []) }
        ensures line { line.new ≡ slice_index_or self.old row [] }
        ensures same { self.new ≡ self.old }
    {
        let made_of = Line {
            planes: &self.planes,
            row,
            width: self.width,
        };
        let convert = self.color_convert;
        self.upsampler
            .write_line(&made_of, &mut self.buffer, line, convert);
    }

    /// Returns all lines, one after the other. The only error is `OutOfMemory`.
    pub(crate) fn into_picture(self, alloc: Global) -> Result<Vec<u8>>
        ensures { MatchResult result (λ v. v.items ≡ concat self) (λ e. e ≡ OutOfMemory) }
    {
        self.upsampler
            .picture(&self.planes, self.width, self.height, self.color_convert)
    }
}
