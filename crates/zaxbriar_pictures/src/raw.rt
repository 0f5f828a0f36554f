//! The bytes of a stream's picture, as the program `jpegraw` writes them, or turned upright.
ghost use Rattle.std.specs.Prelude.{◌≡◌, ◌==◌, ℕ, List, IfErr, IfOk, IfSome, OnOk, IsSomeAnd};
ghost use Rattle.std.specs.Prelude.{false, length, true};
ghost use Rattle.std.specs.List.{concat};
ghost use Rattle.std.specs.Io.KnownBytes.{Appends};
ghost use Rattle.jpeg_decoder.specs.Bytes.{HaveBytes, decoding_bytes};
ghost use Rattle.jpeg_meaning.specs.Output.{IsOutsideOrMemory, Tells};
ghost use Rattle.jpeg_meaning.specs.States.{HasHeader};
ghost use Rattle.jpeg_meaning.specs.declared.progress.Progress.TheVariants.{Fresh, HeaderRead};
ghost use Rattle.zaxbriar_pictures.specs.Allowed.{allows_raw, taken_raw};
ghost use Rattle.zaxbriar_pictures.specs.Crops.{fits_raw};
ghost use Rattle.zaxbriar_pictures.specs.Given.{CodesWithin};
ghost use Rattle.zaxbriar_pictures.specs.Raw.{raw_of};
ghost use Rattle.zaxbriar_pictures.specs.ByRows.{raw_rest, read_raw};
ghost use Rattle.zaxbriar_pictures.specs.Reasons.{IsReason, NamesOrOutside};
ghost use Rattle.zaxbriar_pictures.specs.Steps.{IsSaid, WritesPixels};
ghost use Rattle.zaxbriar_samples.specs.LineTakers.{raw_bytes};
ghost use Rattle.zaxbriar_pictures.specs.ScaledPictures.{settings_for};
ghost use Rattle.zaxbriar_samples.specs.DecodedPictures.{decoded};
ghost use Rattle.zaxbriar_samples.specs.Parts.{has_part, shown_part};
ghost use Rattle.zaxbriar_samples.specs.Png.{line_bytes};
ghost use Rattle.zaxbriar_samples.specs.Turns.{upright};

use crate::by_rows::write_rows;
use crate::lines::{area_for, check_crop, part_for, upright_of};
use crate::scaled::{READ_AHEAD, limit_blocks, stored_in, taken_by_lines, taken_whole};
use jpeg_decoder::{Decoder, Lines, error};
use jpeg_orientation::areas::Area;
use std::alloc::Global;
use std::io::{Read, Write};
use zaxbriar_files::limits::Limits;
use zaxbriar_files::refusal::Refusal;
use zaxbriar_samples::line_takers::{Form, Plan, Stored, header_line};
use zaxbriar_samples::netpbm::write_both;
use zaxbriar_samples::requests::Upright;

/// Returns how many bytes decoding the picture of a decoder takes, whose header was read, without
/// the picture where its lines are written one by one: where it isn't turned.
fn taken_raw<R: Read + Drop>(decoder: &Decoder<R>, orientation: u8) -> u64
    ensures { HasHeader decoder.now.stage → IfSome decoder.now.found.said.frame (λ f. result
        ≡ taken_raw orientation (decoding_bytes decoder.now.settings f)) }
{
    if orientation == 1 {
        taken_by_lines(decoder)
    } else {
        taken_whole(decoder, orientation)
    }
}

/// Writes the header line of a picture and then its pixels, once it is turned upright.
fn write_turned<W: Write>(
    alloc: Global,
    stored: Stored,
    lines: Lines,
    writer: &mut W,
) -> error::Result<()>
    ensures written { OnOk result (Appends (W.contents writer.old) (W.contents writer.new)
        (raw_bytes (upright stored.orientation
        (decoded stored.info stored.precision (concat lines))))) }
    ensures refused { IfErr result IsOutsideOrMemory }
{
    let picture = upright_of(alloc, stored, lines)?;
    let line = header_line(alloc, picture.info)?;
    write_both(writer, line.as_bytes(), picture.pixels.as_slice())?;
    Ok(())
}

/// Writes the header line of a picture, or of the part of it that is asked for, turned upright, and
/// then its pixels.
fn write_part<W: Write>(
    alloc: Global,
    stored: Stored,
    lines: Lines,
    crop: Option<Area>,
    writer: &mut W,
) -> error::Result<()>
    requires inside { has_part crop stored.orientation stored.info ≡ true }
    requires height { length lines ≡ stored.info.height }
    requires bytes { HaveBytes (line_bytes stored.info stored.precision) lines }
    ensures written { OnOk result (Appends (W.contents writer.old) (W.contents writer.new)
        (raw_bytes (shown_part crop stored.orientation
        (decoded stored.info stored.precision (concat lines))))) }
    ensures refused { IfErr result IsOutsideOrMemory }
{
    let part = part_for(alloc, stored, lines, crop)?;
    write_turned(alloc, part.stored, part.lines, writer)
}

/// Writes the header line and then the pixels of the picture of a decoder, whose header was read,
/// as its lines are read.
fn write_as_read<R: Read + Drop, W: Write>(
    alloc: Global,
    decoder: Decoder<R>,
    stored: Stored,
    crop: Option<Area>,
    writer: &mut W,
) -> error::Result<()>
    requires header { decoder.stage ≡ HeaderRead }
    requires inside { has_part crop stored.orientation stored.info ≡ true }
    requires plain { stored.orientation ≡ 1 }
    ensures written { decoder.source.known ≡ true → OnOk result (WritesPixels crop stored decoder
        (W.contents writer.old) (W.contents writer.new)) }
    ensures refused { decoder.source.known ≡ true → IfErr result (NamesOrOutside
        (raw_rest true decoder.settings decoder.found decoder.source.bytes)) }
{
    let plan = Plan {
        stored,
        area: area_for(stored, crop),
        form: Form::Raw,
    };
    write_rows(alloc, decoder, plan, writer)
}

/// Writes the header line and then the pixels of the picture of a decoder, whose header was read,
/// once all of it is decoded.
fn write_lines<R: Read + Drop, W: Write>(
    alloc: Global,
    mut decoder: Decoder<R>,
    stored: Stored,
    crop: Option<Area>,
    writer: &mut W,
) -> error::Result<()>
    requires header { decoder.stage ≡ HeaderRead }
    requires said { IsSaid stored decoder }
    requires inside { has_part crop stored.orientation stored.info ≡ true }
    ensures written { decoder.source.known ≡ true → OnOk result (WritesPixels crop stored decoder
        (W.contents writer.old) (W.contents writer.new)) }
    ensures refused { decoder.source.known ≡ true → IfErr result (NamesOrOutside
        (raw_rest false decoder.settings decoder.found decoder.source.bytes)) }
{
    let lines = decoder.decode_lines()?;
    write_part(alloc, stored, lines, crop, writer)
}

/// Writes the header line and then the pixels of the picture of a decoder, whose header was read,
/// or of the part that is asked for: as its lines are read, where it isn't turned.
fn write_stored<R: Read + Drop, W: Write>(
    alloc: Global,
    decoder: Decoder<R>,
    stored: Stored,
    crop: Option<Area>,
    writer: &mut W,
) -> error::Result<()>
    requires header { decoder.stage ≡ HeaderRead }
    requires said { IsSaid stored decoder }
    requires inside { has_part crop stored.orientation stored.info ≡ true }
    ensures written { decoder.source.known ≡ true → OnOk result (WritesPixels crop stored decoder
        (W.contents writer.old) (W.contents writer.new)) }
    ensures refused { decoder.source.known ≡ true → IfErr result (NamesOrOutside (raw_rest
        (stored.orientation == 1) decoder.settings decoder.found decoder.source.bytes)) }
{
    if stored.orientation == 1 {
        write_as_read(alloc, decoder, stored, crop, writer)
    } else {
        write_lines(alloc, decoder, stored, crop, writer)
    }
}

/// Decodes the stream of a decoder that has read nothing, and writes the header line and then the
/// pixels, line by line from the top.
fn write_decoded<R: Read + Drop, W: Write>(
    alloc: Global,
    mut decoder: Decoder<R>,
    turning: Upright,
    crop: Option<Area>,
    limits: Limits,
    writer: &mut W,
) -> Result<(), Refusal>
    requires fresh { decoder.stage ≡ Fresh }
    requires plain { decoder.settings ≡ settings_for decoder.settings.luma }
    ensures written { decoder.source.known ≡ true
        → OnOk result (IsSomeAnd (raw_of decoder.settings.luma turning crop
        decoder.source.bytes) (Appends (W.contents writer.old) (W.contents writer.new))) }
    ensures limited { decoder.source.known ≡ true → OnOk result
        (allows_raw decoder.settings.luma turning limits decoder.source.bytes ≡ true) }
    ensures fits { decoder.source.known ≡ true → OnOk result
        (fits_raw decoder.settings.luma turning crop decoder.source.bytes ≡ true) }
    ensures bounded { decoder.source.known ≡ true
        → OnOk result (CodesWithin limits decoder.source.bytes) }
    ensures refused { decoder.source.known ≡ true → IfErr result (IsReason
        (read_raw decoder.settings.luma turning limits decoder.source.bytes)
        (allows_raw decoder.settings.luma turning limits decoder.source.bytes)
        (fits_raw decoder.settings.luma turning crop decoder.source.bytes) ⊥) }
{
    decoder.read_info()?;
    let orientation = turning.orientation_in(decoder.exif_data());
    let stored = stored_in(&decoder, orientation);
    let taken = taken_raw(&decoder, orientation);
    limits.check(stored.info.width, stored.info.height, taken)?;
    check_crop(crop, stored)?;
    limit_blocks(&mut decoder, limits);
    write_stored(alloc, decoder, stored, crop, writer)?;
    Ok(())
}

/// Decodes the stream that the reader gives, and writes the header line and then the pixels, or of
/// a picture in colour the luma alone, line by line from the top: as they are stored, or turned
/// upright by the orientation in the header's Exif data (Exif 2.3, 4.6.4). Of that picture the part
/// is written that is asked for.
pub fn write_raw<R: Read + Drop, W: Write>(
    alloc: Global,
    reader: R,
    turning: Upright,
    luma: bool,
    crop: Option<Area>,
    limits: Limits,
    writer: &mut W,
) -> Result<(), Refusal>
    ensures written { (bytes : List ℕ) → Tells (R.remaining reader) bytes
        → OnOk result (IsSomeAnd (raw_of luma turning crop bytes) (Appends (W.contents writer.old)
        (W.contents writer.new))) }
    ensures limited { (bytes : List ℕ) → Tells (R.remaining reader) bytes
        → OnOk result (allows_raw luma turning limits bytes ≡ true) }
    ensures fits { (bytes : List ℕ) → Tells (R.remaining reader) bytes
        → OnOk result (fits_raw luma turning crop bytes ≡ true) }
    ensures bounded { (bytes : List ℕ) → Tells (R.remaining reader) bytes
        → OnOk result (CodesWithin limits bytes) }

    // A refusal names the stream's fault, or a limit that it is above, or a part that isn't inside
    // its picture, or is one of the reader, the writer or memory.
    ensures refused { (bytes : List ℕ) → Tells (R.remaining reader) bytes
        → IfErr result (IsReason (read_raw luma turning limits bytes)
        (allows_raw luma turning limits bytes) (fits_raw luma turning crop bytes) ⊥) }
{
    let mut decoder = Decoder::with_capacity(alloc, READ_AHEAD, reader)?;
    decoder.set_luma(luma);
    write_decoded(alloc, decoder, turning, crop, limits, writer)
}
