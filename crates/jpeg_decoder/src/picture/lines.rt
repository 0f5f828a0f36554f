//! The lines of a picture that was decoded.
ghost use Rattle.std.specs.Prelude.{◌≡◌, ◌+◌, ◌<◌, ◌^◌, IfSome, MatchResult};
ghost use Rattle.jpeg_bits.specs.declared.error.Error.TheVariants.{OutOfMemory};
ghost use Rattle.jpeg_decoder.specs.LinesView.{IsPartOf};

use jpeg_bits::error::{Error, Result};
use jpeg_lossless::lossless::SampleLines;
use jpeg_pixels::lines::PictureLines;
use std::alloc::Global;
use std::marker::Model;

/// What lines are made of.
#[derive(Drop)]
enum LineSource {
    /// The planes of a frame of blocks.
    Planes(PictureLines),
    /// The samples of a lossless frame.
    Samples(SampleLines),
}

impl LineSource {
    ghost use Rattle.std.specs.Prelude.{◌≡◌, ◌<◌, [], length, slice_index_or};
    ghost use Rattle.jpeg_decoder.specs.LinesView.{lines_in};

    /// Returns the number of lines.
    fn height(&self) -> usize
        ensures { result ≡ length (lines_in self.now) }
    {
        match self {
            LineSource::Planes(lines) => lines.height(),
            LineSource::Samples(lines) => lines.height(),
        }
    }

    /// Writes the line in a row into memory that has exactly its bytes.
    fn write_line(&mut self, row: usize, line: &mut [u8])
        requires row { row < length (lines_in self.old) }
        requires room { length line.old ≡ length (slice_index_or (lines_in self.old) row []) }
        ensures line { line.new ≡ slice_index_or (lines_in self.old) row [] }
        ensures same { lines_in self.new ≡ lines_in self.old }
    {
        match self {
            LineSource::Planes(lines) => lines.write_line(row, line),
            LineSource::Samples(lines) => lines.write_line(row, line),
        }
    }
}

/// The part of the lines of a source that is given: `height` of them from `top` on, and of each the
/// bytes from `from` on.
#[derive(Drop)]
struct Crop {
    top: usize,
    height: usize,
    from: usize,
    /// Room for a whole line of the source.
    row: Vec<u8>,
}

impl Crop {
    ghost use Rattle.std.specs.Prelude.{◌≡◌, ◌<◌, ◌+◌, [], drop, length, slice_index_or, take};
    ghost use Rattle.jpeg_decoder.specs.LinesView.{IsInside, IsSameCrop, lines_in};

    /// Writes what the part has of a line of the source, in a row of the part, into memory that has
    /// exactly its bytes.
    fn write_line(&mut self, source: &mut LineSource, row: usize, line: &mut [u8])
        requires row { row < self.old.height }
        requires inside { IsInside self.old (length line.old) (lines_in source.old) }
        ensures line { line.new ≡ take (length line.old) (drop self.old.from
            (slice_index_or (lines_in source.old) (self.old.top + row) [])) }
        ensures same { lines_in source.new ≡ lines_in source.old }
        ensures crop { IsSameCrop self.old self.new }
    {
        source.write_line(self.top + row, &mut self.row);
        line.copy_from_slice(&self.row[self.from..self.from + line.len()]);
    }
}

/// Makes the part of the lines of a source, which have this many bytes each, that is a part of the
/// part which is given, or of all lines. The only error is `OutOfMemory`.
fn part_of(
    alloc: Global,
    crop: Option<Crop>,
    line_bytes: usize,
    top: usize,
    height: usize,
    from: usize,
) -> Result<Crop>
    requires { IfSome crop (λ c. c.top + top < 2 ^ 64) }
    ensures { MatchResult result (λ d. IsPartOf crop line_bytes top height from d)
        (λ e. e ≡ OutOfMemory) }
{
    match crop {
        Some(crop) => Ok(Crop {
            top: crop.top + top,
            height,
            from: crop.from.saturating_add(from),
            row: crop.row,
        }),
        None => Ok(Crop {
            top,
            height,
            from,
            row: vec![in alloc; 0; line_bytes]?,
        }),
    }
}

/// The lines of a decoded picture, which can be written into any memory one by one, in any order
/// and more than once.
///
/// Each line has the bytes of its pixels from the left, as in the picture that `decode` returns.
/// All have as many: `line_bytes`.
#[derive(Drop)]
pub struct Lines {
    source: LineSource,
    line_bytes: usize,
    crop: Option<Crop>,
}

impl Model for Lines {
    ghost use Rattle.std.specs.Prelude.{List, ℕ};

    ghost Value = { List (List ℕ) };

    ghost use Rattle.jpeg_decoder.specs.Bytes.{HaveBytes};
    ghost use Rattle.jpeg_decoder.specs.LinesView.{IsCropOf, lines_given, lines_in};

    ghost view = { λ l. lines_given l.crop l.line_bytes (lines_in l.source) };

    ghost invariant = { λ l. HaveBytes l.line_bytes
        (lines_given l.crop l.line_bytes (lines_in l.source))
        × IsCropOf l.crop l.line_bytes (lines_in l.source) };
}

impl Lines {
    ghost use Rattle.std.specs.Prelude.{◌≡◌, ◌<◌, ◌≤◌, ◌+◌, [], MatchResult, length};
    ghost use Rattle.std.specs.Prelude.{slice_index_or};
    ghost use Rattle.std.specs.List.{concat};
    ghost use Rattle.jpeg_bits.specs.declared.error.Error.TheVariants.{OutOfMemory};
    ghost use Rattle.jpeg_decoder.specs.Bytes.{HaveBytes};
    ghost use Rattle.jpeg_decoder.specs.LinesView.{AreAtLeast, crop_of};

    /// Takes the lines of planes, which have this many bytes each.
    pub(crate) fn of_planes(lines: PictureLines, line_bytes: usize) -> Lines
        requires { HaveBytes line_bytes lines }
        ensures { result ≡ lines }
    {
        Lines {
            source: LineSource::Planes(lines),
            line_bytes,
            crop: None,
        }
    }

    /// Takes the lines of lossless samples, which have this many bytes each.
    pub(crate) fn of_samples(lines: SampleLines, line_bytes: usize) -> Lines
        requires { HaveBytes line_bytes lines }
        ensures { result ≡ lines }
    {
        Lines {
            source: LineSource::Samples(lines),
            line_bytes,
            crop: None,
        }
    }

    /// Returns the number of lines, which is the height of the picture.
    pub fn height(&self) -> usize
        ensures { result ≡ length self.now }
    {
        match &self.crop {
            Some(crop) => crop.height,
            None => self.source.height(),
        }
    }

    /// Returns the number of bytes of each line.
    pub fn line_bytes(&self) -> usize
        ensures { HaveBytes result self.now }
    {
        self.line_bytes
    }

    /// Writes the line in a row, counted from the top, into memory that has exactly its bytes. It
    /// takes no memory and can't fail.
    pub fn write_line(&mut self, row: usize, line: &mut [u8])
        requires row { row < length self.old }
        requires room { length line.old ≡ length (slice_index_or self.old row []) }
        ensures line { line.new ≡ slice_index_or self.old row [] }
        ensures same { self.new ≡ self.old }
    {
        match &mut self.crop {
            Some(crop) => crop.write_line(&mut self.source, row, line),
            None => self.source.write_line(row, line),
        }
    }

    /// Returns the lines of a part of the picture: `height` of them from line `top` on, and of each
    /// `bytes` of its bytes from byte `from` on. The only error is `OutOfMemory`.
    ///
    /// No line is made before it is written, and those outside the part never are.
    pub fn crop(
        self,
        alloc: Global,
        top: usize,
        height: usize,
        from: usize,
        bytes: usize,
    ) -> Result<Lines>
        requires lines { top + height ≤ length self }
        requires bytes { AreAtLeast (from + bytes) self }
        ensures { MatchResult result (λ l. l ≡ crop_of top height from bytes self)
            (λ e. e ≡ OutOfMemory) }
    {
        let lines = self.height();
        prove!(height <= lines && top <= lines - height);
        let Lines {
            source,
            line_bytes,
            crop,
        } = self;
        let crop = part_of(alloc, crop, line_bytes, top, height, from)?;
        Ok(Lines {
            source,
            line_bytes: bytes,
            crop: Some(crop),
        })
    }

    /// Writes all lines, from the top, into memory that has exactly their bytes.
    #[tactic(auto, using(crate::proofs::Pictures::LinesTogether::written))]
    pub(crate) fn write_all(&mut self, picture: &mut [u8])
        requires { length picture.old ≡ length (concat self.old) }
        ensures { picture.new ≡ concat self.old }
    {
        let size = self.line_bytes();
        for row in 0..self.height() {
            let start = row * size;
            self.write_line(row, &mut picture[start..start + size]);
        }
    }

    /// Returns the picture: its lines from the top, one after the other. The only error is
    /// `OutOfMemory`.
    ///
    /// One plane alone, and planes of components alike, become the picture themselves; else the
    /// picture is made beside them.
    pub fn into_picture(self, alloc: Global) -> Result<Vec<u8>>
        ensures { MatchResult result (λ v. v.items ≡ concat self) (λ e. e ≡ OutOfMemory) }
    {
        if self.crop.is_some() {
            return self.copied(alloc);
        }
        let Lines {
            source,
            line_bytes: _,
            crop: _,
        } = self;
        match source {
            LineSource::Planes(lines) => lines.into_picture(alloc),
            LineSource::Samples(lines) => lines.into_picture(alloc),
        }
    }

    /// Returns the picture, made beside what its lines are made of. The only error is
    /// `OutOfMemory`.
    fn copied(self, alloc: Global) -> Result<Vec<u8>>
        ensures { MatchResult result (λ v. v.items ≡ concat self) (λ e. e ≡ OutOfMemory) }
    {
        let mut lines = self;
        let Some(size) = lines.height().checked_mul(lines.line_bytes) else {
            return Err(Error::OutOfMemory);
        };
        let mut picture = vec![in alloc; 0; size]?;
        lines.write_all(&mut picture);
        Ok(picture)
    }
}
