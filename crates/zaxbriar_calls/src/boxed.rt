//! Pictures, and parts of them, that are made smaller so that they fit within a size.
ghost use Rattle.std.specs.Prelude.{◌≡◌, ◌*◌, IfErr, IfOk, MatchResult, length, true};
ghost use Rattle.std.specs.List.{concat};
ghost use Rattle.jpeg_bits.specs.declared.error.Error.TheVariants.{OutOfMemory};
ghost use Rattle.jpeg_decoder.specs.Bytes.{HaveBytes};
ghost use Rattle.zaxbriar_calls.specs.Boxed.{IsOwnOrSmaller, fit_of, fit_samples, fit_turn};
ghost use Rattle.zaxbriar_calls.specs.Boxed.{most_side, most_stored, smaller_size, turned_info};
ghost use Rattle.zaxbriar_samples.specs.Boxes.{boxed, is_smaller};
ghost use Rattle.zaxbriar_samples.specs.DecodedPictures.{decoded, decoded_in};
ghost use Rattle.zaxbriar_samples.specs.Parts.{pixel_bytes};
ghost use Rattle.zaxbriar_samples.specs.Png.{line_bytes};

use crate::options::{Options, is_fitted};
use jpeg_decoder::error::Result;
use jpeg_decoder::parser::Dimensions;
use jpeg_decoder::{ImageInfo, Lines as Decoded};
use jpeg_orientation::turns::Turn;
use std::alloc::Global;
use std::marker::Model;
use zaxbriar_samples::boxes::{Boxing, is_smaller};
use zaxbriar_samples::netpbm::Picture;
use zaxbriar_samples::sizes::{as_stored, fitted};

/// Returns the greatest length of a side, of one that may be 0 for any.
fn most_side(side: u16) -> u16
    ensures { result ≡ most_side side }
{
    if side == 0 { u16::MAX } else { side }
}

/// Returns the size within which a picture of an orientation is to fit as it is stored.
fn most_stored(options: &Options, orientation: u8) -> Dimensions
    ensures { result ≡ most_stored options.now orientation }
{
    let shown = Dimensions {
        width: most_side(options.most_width),
        height: most_side(options.most_height),
    };
    as_stored(shown, orientation)
}

/// Returns what is said of a picture, or of a part of one, that is turned like this.
pub fn turned_info(info: ImageInfo, turn: Turn) -> ImageInfo
    ensures { result ≡ turned_info info turn }
{
    ImageInfo {
        width: turn.width,
        height: turn.height,
        ..info
    }
}

/// Returns a size, where a picture is made smaller to it, and else the picture's own.
fn smaller_size(info: ImageInfo, size: Dimensions) -> Dimensions
    ensures { result ≡ smaller_size info size }
{
    if is_smaller(size, info) {
        return size;
    }
    Dimensions {
        width: info.width,
        height: info.height,
    }
}

/// Returns the size, as it is stored, of a picture or of its part that fits as it is shown.
fn fit_of(options: &Options, info: ImageInfo, turn: Turn) -> Dimensions
    ensures { result ≡ fit_of options.now info turn }
{
    if is_fitted(options) {
        let own = turned_info(info, turn);
        smaller_size(own, fitted(own, most_stored(options, turn.orientation)))
    } else {
        Dimensions {
            width: turn.width,
            height: turn.height,
        }
    }
}

/// Returns how a picture or its part is turned that fits as it is shown.
pub fn fit_turn(options: &Options, info: ImageInfo, turn: Turn) -> Turn
    ensures { result ≡ fit_turn options.now info turn }
{
    let size = fit_of(options, info, turn);
    Turn {
        width: size.width,
        height: size.height,
        orientation: turn.orientation,
    }
}

/// A picture that was made smaller.
#[derive(Drop)]
struct SmallPicture {
    height: usize,
    line_bytes: usize,
    pixels: Vec<u8>,
}

impl SmallPicture {
    ghost use Rattle.std.specs.Prelude.{◌≡◌, ◌<◌, ◌*◌, [], length, slice_index_or};
    ghost use Rattle.zaxbriar_calls.specs.BoxedLines.{cut_in_lines};

    /// Writes the line in a row into memory that has exactly its bytes.
    fn write_line(&self, row: usize, line: &mut [u8])
        requires row { row < self.now.height }
        requires whole { length self.now.pixels.items ≡ self.now.height * self.now.line_bytes }
        requires room { length line.old ≡ self.now.line_bytes }
        ensures { line.new ≡ slice_index_or
            (cut_in_lines self.now.line_bytes self.now.height self.now.pixels.items) row [] }
    {
        let start = row * self.line_bytes;
        line.copy_from_slice(&self.pixels[start..start + self.line_bytes]);
    }
}

/// What lines are taken from.
#[derive(Drop)]
enum LineSource {
    /// The lines of a decoder.
    Decoded(Decoded),
    /// A picture in memory.
    Smaller(SmallPicture),
}

/// The lines of a picture that are given, as they are stored: those of the decoder, or of a picture
/// that was made smaller of them.
#[derive(Drop)]
pub struct GivenLines {
    source: LineSource,
}

impl Model for GivenLines {
    ghost use Rattle.std.specs.Prelude.{List, ℕ};

    ghost Value = { List (List ℕ) };

    ghost use Rattle.zaxbriar_calls.specs.BoxedLines.{IsWhole, lines_from};

    ghost view = { λ l. lines_from l.source };

    ghost invariant = { λ l. IsWhole l.source };
}

impl GivenLines {
    ghost use Rattle.std.specs.Prelude.{◌≡◌, ◌<◌, ◌*◌, [], length, slice_index_or};
    ghost use Rattle.zaxbriar_calls.specs.BoxedLines.{cut_in_lines};

    /// Takes the lines of a decoder.
    fn of_decoder(lines: Decoded) -> GivenLines
        ensures { result ≡ lines }
    {
        GivenLines {
            source: LineSource::Decoded(lines),
        }
    }

    /// Takes the lines of a picture in memory, which has so many, of so many bytes each.
    fn of_pixels(pixels: Vec<u8>, height: usize, line_bytes: usize) -> GivenLines
        requires { length pixels.items ≡ height * line_bytes }
        ensures { result ≡ cut_in_lines line_bytes height pixels.items }
    {
        GivenLines {
            source: LineSource::Smaller(SmallPicture {
                height,
                line_bytes,
                pixels,
            }),
        }
    }

    /// Writes the line in a row, counted from the top, into memory that has exactly its bytes.
    pub fn write_line(&mut self, row: usize, line: &mut [u8])
        requires row { row < length self.old }
        requires room { length line.old ≡ length (slice_index_or self.old row []) }
        ensures line { line.new ≡ slice_index_or self.old row [] }
        ensures same { self.new ≡ self.old }
    {
        match &mut self.source {
            LineSource::Decoded(lines) => lines.write_line(row, line),
            LineSource::Smaller(picture) => picture.write_line(row, line),
        }
    }
}

/// Returns a picture made smaller to a size, of which the lines are taken one by one. The only
/// error is `OutOfMemory`.
fn boxed_of(
    alloc: Global,
    mut picture: Decoded,
    info: ImageInfo,
    precision: u8,
    size: Dimensions,
) -> Result<Picture>
    requires smaller { is_smaller size info ≡ true }
    requires height { length picture ≡ info.height }
    requires bytes { HaveBytes (line_bytes info precision) picture }
    ensures { MatchResult result
        (λ made. decoded_in made ≡ boxed size (decoded info precision (concat picture)))
        (λ e. e ≡ OutOfMemory) }
{
    let mut line = vec![in alloc; 0; picture.line_bytes()]?;
    let mut boxing = Boxing::begin(alloc, info, precision, size)?;
    for row in 0..picture.height() {
        picture.write_line(row, line.as_mut_slice());
        boxing.take_line(line.as_slice())?;
    }
    Ok(boxing.into_picture())
}

/// Returns the lines of a picture, made smaller to a size unless that is its own. The pixels have
/// so many bytes as they are stored.
pub fn fit_lines(
    alloc: Global,
    picture: Decoded,
    info: ImageInfo,
    precision: u8,
    size: Dimensions,
    stored: u8,
) -> Result<GivenLines>
    requires height { length picture ≡ info.height }
    requires bytes { HaveBytes (line_bytes info precision) picture }
    requires stored { stored ≡ pixel_bytes info precision }
    requires size { IsOwnOrSmaller info size }
    ensures samples { IfOk result
        (λ lines. concat lines ≡ fit_samples info precision size (concat picture)) }
    ensures height { IfOk result (λ lines. length lines ≡ size.height) }
    ensures bytes { IfOk result (λ lines. HaveBytes (size.width * stored) lines) }
    ensures memory { IfErr result (λ e. e ≡ OutOfMemory) }
{
    if !is_smaller(size, info) {
        return Ok(GivenLines::of_decoder(picture));
    }
    let smaller = boxed_of(alloc, picture, info, precision, size)?;
    let line_bytes = usize::from(size.width) * usize::from(stored);
    Ok(GivenLines::of_pixels(smaller.pixels, usize::from(size.height), line_bytes))
}
