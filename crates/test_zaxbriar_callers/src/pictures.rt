//! Callers that read a picture, or check a stream.
ghost use Rattle.std.specs.Prelude.{◌≡◌, ℕ, List, IfOk, IsSomeAnd, is_some, not};
ghost use Rattle.std.specs.Io.KnownBytes.{Appends};
ghost use Rattle.jpeg_meaning.specs.Output.{Tells};
ghost use Rattle.jpeg_meaning.specs.States.{HasHeader};
ghost use Rattle.zaxbriar_pictures.specs.Given.{TellsOfStream, is_whole, most_after};
ghost use Rattle.zaxbriar_samples.specs.Files.{file_as};
ghost use Rattle.zaxbriar_samples.specs.Parts.{shown_part};
ghost use Rattle.zaxbriar_pictures.specs.ScaledPictures.{header_exif, picture_at_scale};
ghost use Rattle.zaxbriar_samples.specs.Sizes.{orientation_for};
ghost use Rattle.zaxbriar_samples.specs.declared.requests.Request.TheVariants.{At};

use jpeg_decoder::Decoder;
use std::alloc::Global;
use std::io::{Read, Write};
use zaxbriar_files::limits::Limits;
use zaxbriar_files::refusal::Refusal;
use zaxbriar_pictures::check::check_stream;
use zaxbriar_pictures::extents::{Completeness, Extent};
use zaxbriar_pictures::scaled::{limit_blocks, write_at};
use zaxbriar_samples::files::PictureFormat;
use zaxbriar_samples::requests::AtScale;

/// Writes a whole picture, and says that it is the one that the stream means at its scale, whatever
/// the limits.
pub fn whole_picture<R: Read + Drop, W: Write>(
    alloc: Global,
    reader: R,
    at: AtScale,
    limits: Limits,
    format: PictureFormat,
    writer: &mut W,
) -> Result<Completeness, Refusal>
    ensures { (bytes : List ℕ) → Tells (R.remaining reader) bytes
        → IfOk result (λ _. IsSomeAnd (picture_at_scale at.luma at.scale bytes) (λ p. IsSomeAnd
        (file_as format (shown_part at.crop (orientation_for (At at) (header_exif bytes)) p))
        (Appends (W.contents writer.old) (W.contents writer.new)))) }
{
    write_at(alloc, reader, at, Extent::Whole, limits, format, writer)
}

/// Calls `limit_blocks`, and says which limit it sets.
pub fn limited<R: Read + Drop>(decoder: &mut Decoder<R>, limits: Limits)
    ensures { HasHeader decoder.old.stage → decoder.new ≡ record decoder.old {
      settings = record decoder.old.settings
          { max_blocks = most_after limits decoder.old.found };
    } }
{
    limit_blocks(decoder, limits);
}

/// Calls `check_stream`, and says what is told of the picture that the stream shows, and that it is
/// whole exactly where that has no fault.
pub fn checked<R: Read + Drop>(
    alloc: Global,
    reader: R,
    limits: Limits,
) -> Result<Completeness, Refusal>
    ensures told { (bytes : List ℕ) → Tells (R.remaining reader) bytes
        → IfOk result (TellsOfStream limits bytes) }
    ensures whole { (bytes : List ℕ) → Tells (R.remaining reader) bytes
        → IfOk result (λ told. not (is_some told.fault) ≡ is_whole limits bytes) }
{
    check_stream(alloc, reader, limits)
}
