//! Small pictures of streams, as netpbm or PNG files.
//!
//! A picture is the greatest of its proportions that fits within a size, and no greater than it is:
//! it is decoded at the least of 1/8, 1/4, 1/2 and all of its size that isn't smaller, and each
//! sample is then the mean of those in its box. One that fits is decoded at all of its size. It is
//! turned upright by the orientation in its Exif data, as it is shown, unless it is to stay as it
//! is stored.
ghost use Rattle.std.specs.Prelude.{◌≡◌, List, ℕ, IfErr, IfOk, IsSomeAnd, OnOk, false, length};
ghost use Rattle.std.specs.Prelude.{true};
ghost use Rattle.std.specs.List.{concat};
ghost use Rattle.std.specs.Io.KnownBytes.{Appends};
ghost use Rattle.jpeg_decoder.specs.Bytes.{HaveBytes};
ghost use Rattle.jpeg_meaning.specs.Output.{IsOutsideOrMemory, Tells};
ghost use Rattle.jpeg_meaning.specs.declared.progress.Progress.TheVariants.{Fresh, HeaderRead};
ghost use Rattle.zaxbriar_pictures.specs.Allowed.{allows};
ghost use Rattle.zaxbriar_pictures.specs.ByRows.{is_sized_by_rows, read_for, read_rest};
ghost use Rattle.zaxbriar_pictures.specs.declared.extents.Extent.TheVariants.{Whole};
ghost use Rattle.zaxbriar_samples.specs.LineTakers.{form_for};
ghost use Rattle.zaxbriar_pictures.specs.Reasons.{IsReason, LacksColours, NamesOrOutside};
ghost use Rattle.zaxbriar_pictures.specs.ScaledPictures.{settings_for};
ghost use Rattle.zaxbriar_pictures.specs.Steps.{IsSaid};
ghost use Rattle.zaxbriar_pictures.specs.Thumbnails.{WritesSized, WritesThumbnail, file_rows};
ghost use Rattle.zaxbriar_pictures.specs.Thumbnails.{rows_a_row};
ghost use Rattle.zaxbriar_samples.specs.Boxes.{boxed};
ghost use Rattle.zaxbriar_samples.specs.DecodedPictures.{decoded};
ghost use Rattle.zaxbriar_samples.specs.Files.{file_as, has_pixels};
ghost use Rattle.zaxbriar_samples.specs.Png.{line_bytes};
ghost use Rattle.zaxbriar_samples.specs.Sizes.{luma_for};
ghost use Rattle.zaxbriar_samples.specs.Turns.{upright};

use crate::by_rows::write_rows;
use crate::extents::{Completeness, Extent, decode_wanted_lines};
use crate::lines::{is_by_lines, write_file, write_smaller};
use crate::scaled::{READ_AHEAD, choose, stored_in};
use jpeg_decoder::error::Result;
use jpeg_decoder::parser::Dimensions;
use jpeg_decoder::{Decoder, ImageInfo, Lines, Scale};
use std::alloc::Global;
use std::io::{Read, Write};
use zaxbriar_files::limits::Limits;
use zaxbriar_files::refusal::Refusal;
use zaxbriar_samples::boxes::is_smaller;
use zaxbriar_samples::files::{PictureFormat, has_pixels};
use zaxbriar_samples::line_takers::{Form, Plan, Stored};
use zaxbriar_samples::requests::Request;

/// Returns how many rows of the whole picture a row of the picture at a scale stands for.
fn rows_a_row(scale: Scale) -> u8
    ensures { result ≡ rows_a_row scale }
{
    match scale {
        Scale::Eighth => 8,
        Scale::Quarter => 4,
        Scale::Half => 2,
        Scale::Full => 1,
    }
}

/// Returns how many rows of a whole picture, from its top, some rows of the picture at a scale
/// stand for. Its height there is another one, unless it is lossless.
fn file_rows(scale: Scale, full: u16, height: u16, rows: u16) -> u16
    ensures { result ≡ file_rows scale full height rows }
{
    if height == full {
        return rows;
    }
    let rows = u32::from(rows) * u32::from(rows_a_row(scale));
    u32::from(full).min(rows) as u16
}

/// Writes the picture of these lines as a file that has its pixels: made smaller to this size, and
/// then turned upright.
fn write_upright<W: Write>(
    alloc: Global,
    stored: Stored,
    lines: Lines,
    size: Dimensions,
    format: PictureFormat,
    writer: &mut W,
) -> Result<()>
    requires pixels { has_pixels format stored.info.pixel_format ≡ true }
    requires height { length lines ≡ stored.info.height }
    requires bytes { HaveBytes (line_bytes stored.info stored.precision) lines }
    ensures written { OnOk result (IsSomeAnd
        (file_as format (upright stored.orientation
        (boxed size (decoded stored.info stored.precision (concat lines)))))
        (Appends (W.contents writer.old) (W.contents writer.new))) }
    ensures refused { IfErr result IsOutsideOrMemory }
{
    if !is_smaller(size, stored.info) {
        return write_file(alloc, stored, lines, format, writer);
    }
    write_smaller(alloc, stored, lines, size, format, writer)
}

/// Returns whether the lines of a picture are taken as they are read: where the whole is wanted, and
/// it is made smaller, or they are written one by one.
fn is_sized_by_rows(extent: Extent, format: PictureFormat, stored: Stored, size: Dimensions) -> bool
    ensures { result ≡ is_sized_by_rows extent format stored.info stored.precision
        stored.orientation size }
{
    match extent {
        Extent::Whole => {
            is_smaller(size, stored.info)
                || is_by_lines(format, stored.precision, stored.orientation)
        }
        Extent::Partial => false,
    }
}

/// Returns what is written of the lines of a picture, for a picture of a size in a file of a format.
fn form_for(info: ImageInfo, size: Dimensions, format: PictureFormat) -> Form
    ensures { result ≡ form_for info size format }
{
    if is_smaller(size, info) {
        Form::Smaller(size, format)
    } else {
        Form::File(format)
    }
}

/// Writes the picture of a decoder, at the scale that was set, as a file that has its pixels, made
/// smaller to a size and then turned upright, as its lines are read.
fn write_as_read<R: Read + Drop, W: Write>(
    alloc: Global,
    decoder: Decoder<R>,
    stored: Stored,
    size: Dimensions,
    format: PictureFormat,
    writer: &mut W,
) -> Result<Completeness>
    requires header { decoder.stage ≡ HeaderRead }
    requires said { IsSaid stored decoder }
    requires pixels { has_pixels format stored.info.pixel_format ≡ true }
    requires lines { is_sized_by_rows Whole format stored.info stored.precision stored.orientation
        size ≡ true }
    ensures written { IfOk result (λ told. WritesSized Whole stored.orientation size format decoder
        (W.contents writer.old) (W.contents writer.new) told) }
    ensures refused { decoder.source.known ≡ true → IfErr result (NamesOrOutside
        (read_rest true Whole decoder.settings decoder.found decoder.source.bytes)) }
{
    let plan = Plan {
        stored,
        area: None,
        form: form_for(stored.info, size, format),
    };
    write_rows(alloc, decoder, plan, writer)?;
    Ok(Completeness::of_whole(stored.info))
}

/// Decodes as much as is wanted of the picture of a decoder, at the scale that was set, writes it as
/// a file that has its pixels, made smaller to a size and then turned upright, and returns how much
/// of it is complete, before that.
fn write_lines<R: Read + Drop, W: Write>(
    alloc: Global,
    mut decoder: Decoder<R>,
    stored: Stored,
    size: Dimensions,
    extent: Extent,
    format: PictureFormat,
    writer: &mut W,
) -> Result<Completeness>
    requires header { decoder.stage ≡ HeaderRead }
    requires said { IsSaid stored decoder }
    requires pixels { has_pixels format stored.info.pixel_format ≡ true }
    ensures written { IfOk result (λ told. WritesSized extent stored.orientation size format decoder
        (W.contents writer.old) (W.contents writer.new) told) }
    ensures refused { decoder.source.known ≡ true → IfErr result (NamesOrOutside
        (read_rest false extent decoder.settings decoder.found decoder.source.bytes)) }
{
    let decoded = decode_wanted_lines(&mut decoder, extent)?;
    write_upright(alloc, stored, decoded.lines, size, format, writer)?;
    Ok(Completeness {
        info: stored.info,
        whole_rows: decoded.whole_rows,
        fault: decoded.fault,
    })
}

/// Writes the picture of a decoder, at the scale that was set: as its lines are read, where they are
/// taken so, or once as much as is wanted is decoded. It returns how much of it is complete.
fn write_stored<R: Read + Drop, W: Write>(
    alloc: Global,
    decoder: Decoder<R>,
    stored: Stored,
    size: Dimensions,
    extent: Extent,
    format: PictureFormat,
    writer: &mut W,
) -> Result<Completeness>
    requires header { decoder.stage ≡ HeaderRead }
    requires said { IsSaid stored decoder }
    requires pixels { has_pixels format stored.info.pixel_format ≡ true }
    ensures written { IfOk result (λ told. WritesSized extent stored.orientation size format decoder
        (W.contents writer.old) (W.contents writer.new) told) }
    ensures refused { decoder.source.known ≡ true → IfErr result (NamesOrOutside
        (read_rest (is_sized_by_rows extent format stored.info stored.precision
        stored.orientation size) extent decoder.settings decoder.found decoder.source.bytes)) }
{
    if is_sized_by_rows(extent, format, stored, size) {
        write_as_read(alloc, decoder, stored, size, format, writer)
    } else {
        write_lines(alloc, decoder, stored, size, extent, format, writer)
    }
}

/// Decodes as much as is wanted of the stream of a decoder that has read nothing, and writes the
/// requested picture.
fn write_chosen<R: Read + Drop, W: Write>(
    alloc: Global,
    mut decoder: Decoder<R>,
    request: Request,
    extent: Extent,
    limits: Limits,
    format: PictureFormat,
    writer: &mut W,
) -> std::result::Result<Completeness, Refusal>
    requires fresh { decoder.stage ≡ Fresh }
    requires plain { decoder.settings ≡ settings_for (luma_for request) }
    ensures written { decoder.source.known ≡ true → IfOk result (WritesThumbnail extent limits
        request format decoder.source.bytes (W.contents writer.old) (W.contents writer.new)) }
    ensures limited { decoder.source.known ≡ true → IfOk result
        (λ _. allows request format limits decoder.source.bytes ≡ true) }
    ensures refused { decoder.source.known ≡ true → IfErr result (IsReason
        (read_for extent limits request format decoder.source.bytes)
        (allows request format limits decoder.source.bytes) true
        (LacksColours format (luma_for request) decoder.source.bytes)) }
{
    let choice = choose(&mut decoder, request, format, limits)?;
    let stored = stored_in(&decoder, choice.orientation);
    if !has_pixels(format, stored.info.pixel_format) {
        return Err(Refusal::Cmyk);
    }
    let told = write_stored(alloc, decoder, stored, choice.size, extent, format, writer)?;
    let full = choice.full;
    Ok(Completeness {
        info: full,
        whole_rows: file_rows(choice.scale, full.height, told.info.height, told.whole_rows),
        fault: told.fault,
    })
}

/// Decodes as much as is wanted of the stream that the reader gives, writes the requested picture,
/// and returns how much is complete of the whole picture, as the file stores it, with the first
/// fault of the stream. A picture above the limits is refused by its header, and one whose pixels
/// the format doesn't have before anything is written. A read that fails is an error.
pub fn write_thumbnail<R: Read + Drop, W: Write>(
    alloc: Global,
    reader: R,
    request: Request,
    extent: Extent,
    limits: Limits,
    format: PictureFormat,
    writer: &mut W,
) -> std::result::Result<Completeness, Refusal>
    ensures written { (bytes : List ℕ) → Tells (R.remaining reader) bytes
        → IfOk result (WritesThumbnail extent limits request format bytes (W.contents writer.old)
        (W.contents writer.new)) }
    ensures limited { (bytes : List ℕ) → Tells (R.remaining reader) bytes
        → IfOk result (λ _. allows request format limits bytes ≡ true) }

    // A refusal names the stream's fault, or a limit that it is above, or colours that the format
    // lacks, or is one of the reader, the writer or memory.
    ensures refused { (bytes : List ℕ) → Tells (R.remaining reader) bytes → IfErr result (IsReason
        (read_for extent limits request format bytes) (allows request format limits bytes) true
        (LacksColours format (luma_for request) bytes)) }
{
    let mut decoder = Decoder::with_capacity(alloc, READ_AHEAD, reader)?;
    decoder.set_luma(request.wants_luma());
    write_chosen(alloc, decoder, request, extent, limits, format, writer)
}
