//! Reads that are repeated while they are interrupted.
ghost use Rattle.std.specs.Prelude.{◌≡◌, ◌≢◌, ◌-◌, ◌^◌, ℕ, List, Result, IfSome, IfNone, IfErr};
ghost use Rattle.std.specs.Io.{ReadsAtMost};
ghost use Rattle.std.specs.Io.KnownBytes.{ReadConsumes};
ghost use Rattle.std.specs.IoError.{error_kind};
ghost use Rattle.std.specs.declared.io.Error.{Error};
ghost use Rattle.jpeg_bits.specs.Turns.{Interruptions, AnswersLater, read_fails, read_answers};

use std::io;
use std::io::{ErrorKind, Read};

/// A reader whose answers are a relation of the trait's own. Code that is generic over it can show
/// that a reader has answered so only by having asked it.
pub(crate) trait Asked: Read {
    ghost answers: { Self → Result ℕ Error → List ℕ → Self → Type 0 };

    /// Reads once into the buffer.
    fn ask(&mut self, buffer: &mut [u8]) -> io::Result<usize>
        ensures answers { answers self.old result buffer.new self.new }
        ensures bound { ReadsAtMost result buffer.new }
        ensures bytes { ReadConsumes (Self.remaining self.old) (Self.remaining self.new) result
            buffer.new };
}

impl<R: Read> Asked for R {
    ghost use Rattle.jpeg_bits.specs.Turns.{read_answers};

    ghost answers = { read_answers R.remaining };

    #[inline(always)]
    fn ask(&mut self, buffer: &mut [u8]) -> io::Result<usize> {
        self.read(buffer)
    }
}

/// Reads into the buffer, and again as long as the read is interrupted, but no more often than
/// `u64::MAX` times: there is no answer if all of these were. Any other error is returned at once.
#[tactic(auto, using(crate::proofs::Rules::later))]
pub(super) fn read_by_turns<R: Asked>(
    reader: &mut R,
    buffer: &mut [u8],
) -> Option<io::Result<usize>>
    ensures answered { IfSome result (λ answer. AnswersLater R.answers reader.old answer buffer.new
        reader.new) }
    ensures bytes { IfSome result (λ answer. read_answers R.remaining reader.old answer buffer.new
        reader.new) }
    ensures passed_on { IfSome result (λ answer. IfErr answer (λ e.
        error_kind e ≢ ErrorKind.Interrupted)) }
    ensures given_up { IfNone result (Interruptions (read_fails R.answers) (2 ^ 64 - 1) reader.old
        reader.new) }
{
    for _turn in 0..u64::MAX {
        match reader.ask(buffer) {
            Ok(count) => return Some(Ok(count)),
            Err(e) => {
                if e.kind() != ErrorKind::Interrupted {
                    return Some(Err(e));
                }
            }
        }
    }
    None
}
