//! The picture of planes in one buffer: its lines are a line of each strip, and the whole of it
//! takes the place of the strips.
//!
//! The picture of like components is never longer than its strips, so its lines overwrite them from
//! the top, row of MCUs by row of MCUs, and no second buffer of that size is needed.
ghost use Rattle.std.specs.Prelude.{◌≤◌};
ghost use Rattle.jpeg_pixels.specs.JointPlanes.{HasFrameSizes};

use crate::color_convert::ColorConvert;
use crate::joint_planes::{JointPlanes, JointShape};
use crate::picture_lines::convert_line;
use jpeg_bits::error::Result;
use jpeg_segments::parser::Dimensions;
use std::alloc::Global;
use std::marker::Model;

/// A picture that is made of planes in one buffer: their layout, the width of the picture, and its
/// colour conversion.
#[derive(Clone, Copy)]
struct JointPicture {
    shape: JointShape,
    width: usize,
    color_convert: ColorConvert,
    ghost small: { HasFrameSizes shape },
    ghost wide: { width ≤ shape.stride },
}

impl JointPicture {
    ghost use Rattle.std.specs.Prelude.{◌≡◌, ◌*◌, ◌-◌, ◌<◌, ◌≤◌, List, ℕ, length, min, take};
    ghost use Rattle.std.specs.List.{concat};
    ghost use Rattle.jpeg_pixels.specs.Colour.{line_bytes};
    ghost use Rattle.jpeg_pixels.specs.JointPlanes.{converted, gathered, joint_bytes};
    ghost use Rattle.jpeg_pixels.specs.JointPlanes.{joint_row_size, strip_lines};
    ghost use Rattle.jpeg_pixels.specs.PicturesView.{IsFor};

    // Returns the number of bytes of a line.
    fn line_size(&self) -> usize
        ensures { result ≡ self.now.shape.count * self.now.width }
    {
        self.shape.count * self.width
    }

    // Copies a line of each strip of a row of MCUs, one after the other.
    #[tactic(auto, using(crate::proofs::Rules::rows), unfolding(crate::proofs::Rules::strips))]
    fn gather_line(&self, strips: &[u8], line: usize, lines: &mut [u8])
        requires line { line < self.now.shape.lines }
        requires strips { length strips.now ≡ joint_row_size self.now.shape }
        requires room { length lines.old ≡ self.now.shape.count * self.now.width }
        ensures { lines.new
            ≡ concat (strip_lines self.now.shape self.now.width strips.now line) }
    {
        for slot in 0..self.shape.count {
            let first = slot * self.shape.strip_size() + line * self.shape.stride;
            let start = slot * self.width;
            let end = start + self.width;
            lines[start..end].copy_from_slice(&strips[first..first + self.width]);
        }
    }

    // Writes a line of the picture by the strips of its row of MCUs. The line of each strip is put
    // into the buffer `lines`.
    fn write_line(&self, strips: &[u8], line: usize, lines: &mut [u8], output: &mut [u8])
        requires fits { IsFor self.now.shape.count self.now.color_convert }
        requires line { line < self.now.shape.lines }
        requires strips { length strips.now ≡ joint_row_size self.now.shape }
        requires lines { length lines.old ≡ self.now.shape.count * self.now.width }
        requires room { length output.old ≡ self.now.shape.count * self.now.width }
        ensures { output.new ≡ line_bytes self.now.color_convert self.now.width
            (strip_lines self.now.shape self.now.width strips.now line) }
    {
        self.gather_line(strips, line, lines);
        convert_line(
            lines,
            self.width,
            self.shape.count,
            self.color_convert,
            output,
        );
    }

    // Copies the first lines of the strips of a row of MCUs, line by line of the picture.
    #[tactic(auto, using(crate::proofs::Rules::rows), unfolding(crate::proofs::Rules::gathers))]
    fn gather_row(&self, strips: &[u8], count: usize, lines: &mut [u8])
        requires count { count ≤ self.now.shape.lines }
        requires strips { length strips.now ≡ joint_row_size self.now.shape }
        requires room { length lines.old ≡ count * (self.now.shape.count * self.now.width) }
        ensures { lines.new ≡ gathered self.now.shape self.now.width strips.now count }
    {
        let size = self.line_size();
        for line in 0..count {
            let start = line * size;
            self.gather_line(strips, line, &mut lines[start..start + size]);
        }
    }

    // Writes the colours of the first lines of a row of MCUs.
    #[tactic(auto, using(crate::proofs::Rules::rows), unfolding(crate::proofs::Rules::converts))]
    fn convert_row(&self, lines: &[u8], count: usize, output: &mut [u8])
        requires fits { IsFor self.now.shape.count self.now.color_convert }
        requires count { count ≤ self.now.shape.lines }
        requires lines { length lines.now ≡ count * (self.now.shape.count * self.now.width) }
        requires room { length output.old ≡ count * (self.now.shape.count * self.now.width) }
        ensures { (strips : List ℕ) → length strips ≡ joint_row_size self.now.shape
            → lines.now ≡ gathered self.now.shape self.now.width strips count
            → output.new ≡ converted self.now.color_convert self.now.shape self.now.width
            strips count }
    {
        let size = self.line_size();
        for line in 0..count {
            let start = line * size;
            let end = start + size;
            convert_line(
                &lines[start..end],
                self.width,
                self.shape.count,
                self.color_convert,
                &mut output[start..end],
            );
        }
    }

    // Returns how many lines of a picture are in a row of MCUs.
    fn lines_in(&self, row: usize, height: usize) -> usize
        requires row { row < self.now.shape.rows }
        ensures { result ≡ min self.now.shape.lines (height - row * self.now.shape.lines) }
    {
        let lines = self.shape.lines;
        height.saturating_sub(row * lines).min(lines)
    }

    // Overwrites the strips with the lines of the picture. Those of a row of MCUs, which are no
    // longer than its strips, are copied to `lines` first.
    #[tactic(auto, using(crate::proofs::Rules::written), unfolding(crate::proofs::Rules::joint))]
    fn write_in_place(&self, height: usize, lines: &mut [u8], room: &mut [u8])
        requires fits { IsFor self.now.shape.count self.now.color_convert }
        requires high { height ≤ self.now.shape.rows * self.now.shape.lines }
        requires lines { length lines.old
            ≡ self.now.shape.lines * (self.now.shape.count * self.now.width) }
        requires full { length room.old ≡ self.now.shape.rows * joint_row_size self.now.shape }
        ensures { take (height * (self.now.shape.count * self.now.width)) room.new
            ≡ joint_bytes self.now.color_convert self.now.shape self.now.width room.old height }
    {
        let size = self.line_size();
        for row in 0..self.shape.rows {
            let count = self.lines_in(row, height);
            let first = row * self.shape.row_size();
            let lines = &mut lines[..count * size];
            self.gather_row(&room[first..first + self.shape.row_size()], count, lines);
            let start = height.min(row * self.shape.lines) * size;
            self.convert_row(lines, count, &mut room[start..start + count * size]);
        }
    }
}

/// The lines of the picture of planes in one buffer.
#[derive(Drop)]
pub(crate) struct JointLines {
    picture: JointPicture,
    height: usize,
    /// The strips of all rows of MCUs.
    samples: Vec<u8>,
    /// Room for a line of each strip.
    buffer: Vec<u8>,
}

impl Model for JointLines {
    ghost use Rattle.std.specs.Prelude.{◌≡◌, ◌≤◌, ◌*◌, List, ℕ, length};
    ghost use Rattle.jpeg_pixels.specs.JointPlanes.{joint_row_size};
    ghost use Rattle.jpeg_pixels.specs.PicturesView.{IsFor};

    ghost Value = { List (List ℕ) };

    ghost use Rattle.jpeg_pixels.specs.Lines.{joint_lines};

    ghost view = { λ l. joint_lines l.picture.color_convert l.picture.shape l.picture.width
        l.samples.items l.height };

    ghost invariant = { λ l. IsFor l.picture.shape.count l.picture.color_convert
        × (l.height ≤ l.picture.shape.rows * l.picture.shape.lines)
        × (length l.samples.items ≡ l.picture.shape.rows * joint_row_size l.picture.shape)
        × (length l.buffer.items ≡ l.picture.shape.count * l.picture.width) };
}

impl JointLines {
    ghost use Rattle.std.specs.Prelude.{◌≡◌, ◌*◌, ◌<◌, ◌≤◌, [], MatchResult, length};
    ghost use Rattle.std.specs.Prelude.{slice_index_or};
    ghost use Rattle.std.specs.List.{concat};
    ghost use Rattle.jpeg_bits.specs.declared.error.Error.TheVariants.{OutOfMemory};
    ghost use Rattle.jpeg_pixels.specs.JointPlanes.{HasFrameSizes, joint_row_size};
    ghost use Rattle.jpeg_pixels.specs.Lines.{joint_lines};
    ghost use Rattle.jpeg_pixels.specs.PicturesView.{IsFor};

    /// Takes planes that reach to the edges of a picture. The only error is `OutOfMemory`.
    pub(crate) fn new(
        alloc: Global,
        planes: JointPlanes,
        size: Dimensions,
        color_convert: ColorConvert,
    ) -> Result<JointLines>
        requires small { HasFrameSizes planes.shape }
        requires fits { IsFor planes.shape.count color_convert }
        requires wide { size.width ≤ planes.shape.stride }
        requires high { size.height ≤ planes.shape.rows * planes.shape.lines }
        requires full { length planes.samples.items
            ≡ planes.shape.rows * joint_row_size planes.shape }
        ensures { MatchResult result
            (λ l. l ≡ joint_lines color_convert planes.shape size.width planes.samples.items
            size.height)
            (λ e. e ≡ OutOfMemory) }
    {
        let picture = JointPicture {
            shape: planes.shape,
            width: usize::from(size.width),
            color_convert,
        };
        let buffer = vec![in alloc; 0; picture.line_size()]?;
        Ok(JointLines {
            picture,
            height: usize::from(size.height),
            samples: planes.samples,
            buffer,
        })
    }

    /// Returns how many lines there are.
    pub(crate) fn height(&self) -> usize
        ensures { result ≡ length self.now }
    {
        self.height
    }

    /// Writes line `row` into memory of its size.
    pub(crate) fn write_line(&mut self, row: usize, line: &mut [u8])
        requires row { row < length self.old }
        requires room { length line.old ≡ length (slice_index_or self.old row []) }
        ensures line { line.new ≡ slice_index_or self.old row [] }
        ensures same { self.new ≡ self.old }
    {
        let picture = self.picture;
        let first = row / picture.shape.lines * picture.shape.row_size();
        let strips = &self.samples[first..first + picture.shape.row_size()];
        picture.write_line(strips, row % picture.shape.lines, &mut self.buffer, line);
    }

    /// Returns all lines, one after the other, in the memory of the planes. The only error is
    /// `OutOfMemory`.
    pub(crate) fn into_picture(self, alloc: Global) -> Result<Vec<u8>>
        ensures { MatchResult result (λ v. v.items ≡ concat self) (λ e. e ≡ OutOfMemory) }
    {
        let picture = self.picture;
        let size = picture.line_size();
        let mut lines = vec![in alloc; 0; picture.shape.lines * size]?;
        let mut room = self.samples;
        picture.write_in_place(self.height, &mut lines, &mut room);
        room.truncate(self.height * size);
        Ok(room)
    }
}
