//! Callers that read a header.
ghost use Rattle.std.specs.Prelude.{◌≡◌};
ghost use Rattle.jpeg_bits.specs.Reading.{Answers};
ghost use Rattle.jpeg_meaning.specs.Stream.{header_at};
ghost use Rattle.jpeg_meaning.specs.declared.progress.Progress.TheVariants.{Fresh};

use jpeg_decoder::Decoder;
use jpeg_decoder::error::Result;
use std::io::Read;

/// Calls `Decoder::read_info`.
pub fn header<R: Read + Drop>(decoder: &mut Decoder<R>) -> Result<()>
    ensures { decoder.old.stage ≡ Fresh → Answers (λ _. decoder.new.found) header_at
        decoder.old.source result decoder.new.source }
{
    decoder.read_info()
}
