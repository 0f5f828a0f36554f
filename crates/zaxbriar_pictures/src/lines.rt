//! The lines of decoded pictures, written as netpbm or PNG files.
//!
//! They are written as the decoder gives them, so that no picture is in memory as a whole, unless
//! it is turned, or its greatest sample has to be known first. One that is made smaller is in memory
//! at its smaller size alone.
ghost use Rattle.std.specs.Prelude.{◌≡◌, IfErr, MatchResult, OnOk, IsSomeAnd, length, true};
ghost use Rattle.std.specs.List.{concat};
ghost use Rattle.std.specs.Io.KnownBytes.{Appends};
ghost use Rattle.jpeg_bits.specs.declared.error.Error.TheVariants.{OutOfMemory};
ghost use Rattle.jpeg_meaning.specs.Output.{IsOutsideOrMemory};
ghost use Rattle.jpeg_decoder.specs.Bytes.{HaveBytes};
ghost use Rattle.zaxbriar_pictures.specs.Allowed.{is_by_lines};
ghost use Rattle.zaxbriar_samples.specs.Boxes.{boxed, is_smaller};
ghost use Rattle.zaxbriar_samples.specs.DecodedPictures.{decoded, decoded_in};
ghost use Rattle.zaxbriar_samples.specs.Files.{file_as, has_pixels};
ghost use Rattle.zaxbriar_samples.specs.Netpbm.{file_of};
ghost use Rattle.zaxbriar_samples.specs.Png.{has_png, line_bytes, png_of};
ghost use Rattle.zaxbriar_samples.specs.Turns.{turn_by, upright};
ghost use Rattle.zaxbriar_samples.specs.Parts.{has_part};
ghost use Rattle.jpeg_orientation.specs.Areas.{is_inside};
ghost use Rattle.zaxbriar_pictures.specs.PartLines.{IsAreaOf, IsOutside, IsPartFor, area_for};

use jpeg_decoder::error::Result;
use jpeg_decoder::parser::Dimensions;
use jpeg_decoder::run::write_lines;
use jpeg_decoder::{ImageInfo, Lines};
use jpeg_orientation::areas::{Area, is_inside, stored_area};
use jpeg_orientation::turns::{Turn, upright_height, upright_width};
use std::alloc::Global;
use std::io::Write;
use zaxbriar_files::refusal::Refusal;
use zaxbriar_samples::boxes::Boxing;
use zaxbriar_samples::files;
use zaxbriar_samples::files::PictureFormat;
use zaxbriar_samples::line_takers::Stored;
use zaxbriar_samples::netpbm::{Picture, header};
use zaxbriar_samples::png::PngFile;
use zaxbriar_samples::samples::pixel_bytes;
use zaxbriar_samples::turns::upright;

/// What is said of a part of a picture, and its lines.
#[derive(Drop)]
pub(crate) struct Part {
    /// What is said of the part as it is stored.
    pub stored: Stored,
    /// Its lines.
    pub lines: Lines,
}

/// Returns how a stored picture is turned.
fn turn_of(stored: Stored) -> Turn
    ensures { result ≡ turn_by stored.info stored.orientation }
{
    Turn {
        width: stored.info.width,
        height: stored.info.height,
        orientation: stored.orientation,
    }
}

/// Refuses a part that isn't inside a stored picture once it is turned upright.
pub(crate) fn check_crop(crop: Option<Area>, stored: Stored) -> std::result::Result<(), Refusal>
    ensures { MatchResult result (λ _. has_part crop stored.orientation stored.info ≡ true)
        (IsOutside (has_part crop stored.orientation stored.info)) }
{
    let Some(area) = crop else {
        return Ok(());
    };
    let turn = turn_of(stored);
    let (width, height) = (upright_width(turn), upright_height(turn));
    if is_inside(area, width, height) {
        return Ok(());
    }
    Err(Refusal::Crop {
        area,
        width,
        height,
    })
}

/// Returns the lines of an area of a stored picture. The only error is `OutOfMemory`.
fn part_of(alloc: Global, stored: Stored, lines: Lines, area: Area) -> Result<Part>
    requires inside { is_inside area stored.info.width stored.info.height ≡ true }
    requires height { length lines ≡ stored.info.height }
    requires bytes { HaveBytes (line_bytes stored.info stored.precision) lines }
    ensures { MatchResult result (IsAreaOf area stored lines) (λ e. e ≡ OutOfMemory) }
{
    let pixel = usize::from(pixel_bytes(stored.info, stored.precision));
    let lines = lines.crop(
        alloc,
        usize::from(area.top),
        usize::from(area.height),
        usize::from(area.left) * pixel,
        usize::from(area.width) * pixel,
    )?;
    let info = ImageInfo {
        width: area.width,
        height: area.height,
        ..stored.info
    };
    Ok(Part {
        stored: Stored { info, ..stored },
        lines,
    })
}

/// Returns the area of a stored picture that becomes the part which is asked for of the picture as it
/// is shown, if one is.
pub(crate) fn area_for(stored: Stored, crop: Option<Area>) -> Option<Area>
    requires inside { has_part crop stored.orientation stored.info ≡ true }
    ensures { result ≡ area_for crop stored }
{
    let area = crop?;
    Some(stored_area(turn_of(stored), area))
}

/// Returns the lines of a stored picture that become the part which is asked for of the picture as
/// it is shown: all of them where none is. The only error is `OutOfMemory`.
pub(crate) fn part_for(
    alloc: Global,
    stored: Stored,
    lines: Lines,
    crop: Option<Area>,
) -> Result<Part>
    requires inside { has_part crop stored.orientation stored.info ≡ true }
    requires height { length lines ≡ stored.info.height }
    requires bytes { HaveBytes (line_bytes stored.info stored.precision) lines }
    ensures { MatchResult result (IsPartFor crop stored lines) (λ e. e ≡ OutOfMemory) }
{
    match crop {
        Some(area) => part_of(alloc, stored, lines, stored_area(turn_of(stored), area)),
        None => Ok(Part { stored, lines }),
    }
}

/// Returns whether the lines of a picture are written one by one: those of one that isn't turned.
/// In a netpbm file of other than eight bits, its greatest sample has to be known first.
pub(crate) fn is_by_lines(format: PictureFormat, precision: u8, orientation: u8) -> bool
    ensures { result ≡ is_by_lines format precision orientation }
{
    match format {
        PictureFormat::Netpbm => orientation == 1 && precision == 8,
        PictureFormat::Png => orientation == 1,
    }
}

/// Returns the picture of these lines, turned upright. The only error is `OutOfMemory`.
pub(crate) fn upright_of(alloc: Global, stored: Stored, lines: Lines) -> Result<Picture>
    ensures { MatchResult result (λ made. decoded_in made
        ≡ upright stored.orientation (decoded stored.info stored.precision (concat lines)))
        (λ e. e ≡ OutOfMemory) }
{
    let pixels = lines.into_picture(alloc)?;
    let picture = Picture {
        info: stored.info,
        precision: stored.precision,
        pixels,
    };
    upright(alloc, picture, stored.orientation)
}

/// Returns the picture of these lines, made smaller to a size. The only error is `OutOfMemory`.
fn boxed_of(alloc: Global, stored: Stored, mut lines: Lines, size: Dimensions) -> Result<Picture>
    requires smaller { is_smaller size stored.info ≡ true }
    requires height { length lines ≡ stored.info.height }
    requires bytes { HaveBytes (line_bytes stored.info stored.precision) lines }
    ensures { MatchResult result (λ made. decoded_in made
        ≡ boxed size (decoded stored.info stored.precision (concat lines)))
        (λ e. e ≡ OutOfMemory) }
{
    let mut line = vec![in alloc; 0; lines.line_bytes()]?;
    let mut boxing = Boxing::begin(alloc, stored.info, stored.precision, size)?;
    for row in 0..lines.height() {
        lines.write_line(row, line.as_mut_slice());
        boxing.take_line(line.as_slice())?;
    }
    Ok(boxing.into_picture())
}

/// Writes the lines of a picture of 8 bits as a netpbm file, some lines at a time.
fn write_netpbm<W: Write>(
    alloc: Global,
    info: ImageInfo,
    mut lines: Lines,
    writer: &mut W,
) -> Result<()>
    ensures written { OnOk result (Appends (W.contents writer.old) (W.contents writer.new)
        (file_of info 8 (concat lines))) }
    ensures refused { IfErr result IsOutsideOrMemory }
{
    let header = header(alloc, info, 255)?;
    write_lines(alloc, header.as_bytes(), &mut lines, writer)
}

/// Writes the lines of a picture as a PNG file, one by one.
fn write_png<W: Write>(
    alloc: Global,
    info: ImageInfo,
    precision: u8,
    mut lines: Lines,
    writer: &mut W,
) -> Result<()>
    requires pixels { has_png info.pixel_format ≡ true }
    requires height { length lines ≡ info.height }
    requires bytes { HaveBytes (line_bytes info precision) lines }
    ensures written { OnOk result (Appends (W.contents writer.old) (W.contents writer.new)
        (png_of info precision (concat lines))) }
    ensures refused { IfErr result IsOutsideOrMemory }
{
    let mut line = vec![in alloc; 0; lines.line_bytes()]?;
    let mut file = PngFile::begin(alloc, info, precision, writer)?;
    for row in 0..lines.height() {
        lines.write_line(row, line.as_mut_slice());
        file.write_line(alloc, line.as_slice(), writer)?;
    }
    file.end(alloc, writer)
}

/// Writes a picture of which the lines are given as a file of a format that has its pixels, once it
/// is turned upright.
pub(crate) fn write_file<W: Write>(
    alloc: Global,
    stored: Stored,
    lines: Lines,
    format: PictureFormat,
    writer: &mut W,
) -> Result<()>
    requires pixels { has_pixels format stored.info.pixel_format ≡ true }
    requires height { length lines ≡ stored.info.height }
    requires bytes { HaveBytes (line_bytes stored.info stored.precision) lines }
    ensures written { OnOk result (IsSomeAnd (file_as format
        (upright stored.orientation (decoded stored.info stored.precision (concat lines))))
        (Appends (W.contents writer.old) (W.contents writer.new))) }
    ensures refused { IfErr result IsOutsideOrMemory }
{
    if !is_by_lines(format, stored.precision, stored.orientation) {
        let picture = upright_of(alloc, stored, lines)?;
        return files::write_file(alloc, picture, format, writer);
    }
    match format {
        PictureFormat::Netpbm => write_netpbm(alloc, stored.info, lines, writer),
        PictureFormat::Png => write_png(alloc, stored.info, stored.precision, lines, writer),
    }
}

/// Writes a picture of which the lines are given as a file of a format that has its pixels, made
/// smaller to a size, line by line, and then turned upright.
pub(crate) fn write_smaller<W: Write>(
    alloc: Global,
    stored: Stored,
    lines: Lines,
    size: Dimensions,
    format: PictureFormat,
    writer: &mut W,
) -> Result<()>
    requires smaller { is_smaller size stored.info ≡ true }
    requires pixels { has_pixels format stored.info.pixel_format ≡ true }
    requires height { length lines ≡ stored.info.height }
    requires bytes { HaveBytes (line_bytes stored.info stored.precision) lines }
    ensures written { OnOk result (IsSomeAnd (file_as format (upright stored.orientation
        (boxed size (decoded stored.info stored.precision (concat lines)))))
        (Appends (W.contents writer.old) (W.contents writer.new))) }
    ensures refused { IfErr result IsOutsideOrMemory }
{
    let smaller = boxed_of(alloc, stored, lines, size)?;
    let picture = upright(alloc, smaller, stored.orientation)?;
    files::write_file(alloc, picture, format, writer)
}
