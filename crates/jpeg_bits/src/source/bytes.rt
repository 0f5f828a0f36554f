//! Bytes that come one by one.
ghost use Rattle.std.specs.Prelude.{◌≡◌};
ghost use Rattle.jpeg_bits.specs.Stream.{Stream};
ghost use Rattle.jpeg_bits.specs.Reading.{Answers, IsShort};
ghost use Rattle.jpeg_bits.specs.Entropy.{byte_or_end};
ghost use Rattle.jpeg_bits.specs.Refusals.{answer_of, IsRefused};

use crate::error::Error;
use std::alloc::Global;

/// What gives bytes one by one: a source, or one that reads nothing ahead. A loop over a source
/// that is generic over this decides once which of both it is.
pub(crate) trait Bytes {
    ghost stream: { Self → Stream };

    /// Reads the next byte, or `Some(None)` if the bytes end. A refusal is stored in `refusal`, and
    /// none is returned.
    fn next_byte(&mut self, alloc: Global, refusal: &mut Option<Error>) -> Option<Option<u8>>
        ensures answers { Answers (λ b. b) byte_or_end (stream self.old)
            (answer_of result refusal.new) (stream self.new) }
        ensures refused { IsRefused result refusal.new }
        ensures short { IsShort (stream self.old) };
}
