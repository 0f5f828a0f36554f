//! Callers that write files.
ghost use Rattle.std.specs.Prelude.{◌≡◌, ℕ, List, IfErr, IfOk, IsSomeAnd, OnOk, fold};
ghost use Rattle.std.specs.Io.KnownBytes.{Appends};
ghost use Rattle.jpeg_meaning.specs.Output.{Tells};
ghost use Rattle.zaxbriar_pictures.specs.Crops.{fits, fits_raw};
ghost use Rattle.zaxbriar_pictures.specs.Allowed.{allows, allows_raw};
ghost use Rattle.zaxbriar_pictures.specs.ByRows.{read_at_scale, read_raw};
ghost use Rattle.zaxbriar_pictures.specs.Given.{CodesWithin, WritesGiven};
ghost use Rattle.zaxbriar_pictures.specs.Raw.{raw_of};
ghost use Rattle.zaxbriar_pictures.specs.Reasons.{IsReason, LacksColours};
ghost use Rattle.zaxbriar_samples.specs.Netpbm.{file_of};
ghost use Rattle.zaxbriar_samples.specs.Png.{adler_byte, filtered_line, line_chunk};
ghost use Rattle.zaxbriar_pictures.specs.Thumbnails.{WritesThumbnail};
ghost use Rattle.zaxbriar_samples.specs.declared.requests.Request.TheVariants.{At};

use jpeg_decoder::error;
use jpeg_orientation::areas::Area;
use std::alloc::Global;
use std::io::{Read, Write};
use zaxbriar_files::limits::Limits;
use zaxbriar_files::refusal::Refusal;
use zaxbriar_pictures::extents::{Completeness, Extent};
use zaxbriar_pictures::raw::write_raw;
use zaxbriar_pictures::scaled::write_at;
use zaxbriar_pictures::thumbnails::write_thumbnail;
use zaxbriar_samples::files::PictureFormat;
use zaxbriar_samples::netpbm::{Picture, write_picture};
use zaxbriar_samples::png::PngFile;
use zaxbriar_samples::requests::{AtScale, Request, Upright};

/// Calls `write_picture`, and says which file an Ok wrote.
pub fn picture<W: Write>(alloc: Global, picture: Picture, writer: &mut W) -> error::Result<()>
    ensures { OnOk result (Appends (W.contents writer.old) (W.contents writer.new)
        (file_of picture.info picture.precision picture.pixels.items)) }
{
    write_picture(alloc, picture, writer)
}

/// Calls `PngFile::write_line`, and says what an Ok wrote, and what the sums of the lines are then.
pub fn png_line<W: Write>(
    alloc: Global,
    file: &mut PngFile,
    line: &[u8],
    writer: &mut W,
) -> error::Result<()>
    ensures sums { OnOk result (file.new.sums ≡ fold adler_byte file.old.sums
        (filtered_line file.old.info file.old.precision line.now 0)) }
    ensures written { OnOk result (Appends (W.contents writer.old) (W.contents writer.new)
        (line_chunk file.old.info file.old.precision line.now 0)) }
{
    file.write_line(alloc, line, writer)
}

/// Calls `write_at`, and says what an Ok wrote, and why there is none.
pub fn picture_at<R: Read + Drop, W: Write>(
    alloc: Global,
    reader: R,
    at: AtScale,
    extent: Extent,
    limits: Limits,
    format: PictureFormat,
    writer: &mut W,
) -> Result<Completeness, Refusal>
    ensures written { (bytes : List ℕ) → Tells (R.remaining reader) bytes
        → IfOk result (WritesGiven extent limits at format bytes (W.contents writer.old)
        (W.contents writer.new)) }
    ensures refused { (bytes : List ℕ) → Tells (R.remaining reader) bytes → IfErr result (IsReason
        (read_at_scale extent limits at format bytes) (allows (At at) format limits bytes)
        (fits at bytes) (LacksColours format at.luma bytes)) }
{
    write_at(alloc, reader, at, extent, limits, format, writer)
}

/// Calls `write_thumbnail`.
pub fn thumbnail<R: Read + Drop, W: Write>(
    alloc: Global,
    reader: R,
    request: Request,
    extent: Extent,
    limits: Limits,
    format: PictureFormat,
    writer: &mut W,
) -> Result<Completeness, Refusal>
    ensures { (bytes : List ℕ) → Tells (R.remaining reader) bytes
        → IfOk result (WritesThumbnail extent limits request format bytes (W.contents writer.old)
        (W.contents writer.new)) }
{
    write_thumbnail(alloc, reader, request, extent, limits, format, writer)
}

/// Calls `write_raw`, and says what an Ok wrote, how many blocks the scans code, and why there is
/// none.
pub fn pixels<R: Read + Drop, W: Write>(
    alloc: Global,
    reader: R,
    turning: Upright,
    luma: bool,
    crop: Option<Area>,
    limits: Limits,
    writer: &mut W,
) -> Result<(), Refusal>
    ensures written { (bytes : List ℕ) → Tells (R.remaining reader) bytes
        → OnOk result (IsSomeAnd (raw_of luma turning crop bytes) (Appends (W.contents writer.old)
        (W.contents writer.new))) }
    ensures bounded { (bytes : List ℕ) → Tells (R.remaining reader) bytes
        → OnOk result (CodesWithin limits bytes) }
    ensures refused { (bytes : List ℕ) → Tells (R.remaining reader) bytes
        → IfErr result (IsReason (read_raw luma turning limits bytes)
        (allows_raw luma turning limits bytes) (fits_raw luma turning crop bytes) ⊥) }
{
    write_raw(alloc, reader, turning, luma, crop, limits, writer)
}
