//! Callers that ask for the picture that a stream has brought up to its first fault.
ghost use Rattle.jpeg_decoder.specs.Shows.{CountsRows, ShowsJust};
ghost use Rattle.jpeg_meaning.specs.Shown.{shown_ahead, whole_rows_ahead};
ghost use Rattle.jpeg_meaning.specs.States.{IsReading};
ghost use Rattle.jpeg_meaning.specs.Stream.{told_of};

use jpeg_decoder::error::Result;
use jpeg_decoder::{Decoder, PartialPicture};
use std::io::Read;

/// Calls `Decoder::decode_partial`, and says what the picture and the fault are.
pub fn partial_by_meaning<R: Read + Drop>(decoder: &mut Decoder<R>) -> Result<PartialPicture>
    ensures { IsReading decoder.old.stage → ShowsJust (shown_ahead decoder.old.stage
        decoder.old.settings decoder.old.found) (λ p. p.pixels.items) (λ p. p.fault)
        decoder.old.source result decoder.new.source (told_of decoder.new.found.said) }
{
    decoder.decode_partial()
}

/// Decodes in part by the clause `shows`.
pub fn shown<R: Read + Drop>(decoder: &mut Decoder<R>) -> Result<PartialPicture>
    ensures { IsReading decoder.old.stage → ShowsJust (shown_ahead decoder.old.stage
        decoder.old.settings decoder.old.found) (λ p. p.pixels.items) (λ p. p.fault)
        decoder.old.source result decoder.new.source (told_of decoder.new.found.said) }
{
    partial_by_meaning(decoder)
}

/// Calls `Decoder::decode_partial`, and says how many rows of the picture are complete.
pub fn partial_by_rows<R: Read + Drop>(decoder: &mut Decoder<R>) -> Result<PartialPicture>
    ensures { IsReading decoder.old.stage → CountsRows (λ p. p.whole_rows)
        (whole_rows_ahead decoder.old.settings.max_blocks decoder.old.stage decoder.old.found)
        decoder.old.source result decoder.new.source }
{
    decoder.decode_partial()
}

/// Decodes in part by the clause `rows`.
pub fn whole_rows<R: Read + Drop>(decoder: &mut Decoder<R>) -> Result<PartialPicture>
    ensures { IsReading decoder.old.stage → CountsRows (λ p. p.whole_rows)
        (whole_rows_ahead decoder.old.settings.max_blocks decoder.old.stage decoder.old.found)
        decoder.old.source result decoder.new.source }
{
    partial_by_rows(decoder)
}
