//! Writes that are repeated while they are interrupted.
ghost use Rattle.std.specs.Prelude.{◌≡◌, ◌≢◌, ◌-◌, ◌^◌, ℕ, List, Result, IfSome, IfNone, IfErr};
ghost use Rattle.std.specs.Prelude.{OnOk, OnErr};
ghost use Rattle.std.specs.Io.{WritesAtMost};
ghost use Rattle.std.specs.Io.KnownBytes.{Appends, Keeps, WriteAppends};
ghost use Rattle.std.specs.IoError.{error_kind};
ghost use Rattle.std.specs.declared.io.Error.{Error};
ghost use Rattle.jpeg_bits.specs.Turns.{Interruptions};
ghost use Rattle.jpeg_meaning.specs.Output.{IsOutside, TakesBeginning};
ghost use Rattle.jpeg_decoder.specs.Writes.{StopsByTurns, WritesLater, write_fails};

use jpeg_bits::error;
use jpeg_bits::error::Error;
use std::alloc::Global;
use std::io;
use std::io::{ErrorKind, Write};

/// A writer whose answers are a relation of the trait's own. Code that is generic over it can show
/// that a writer has answered so only by having asked it.
pub(super) trait Offered: Write {
    ghost answers: { Self → List ℕ → Result ℕ Error → Self → Type 0 };

    /// Writes once.
    fn offer(&mut self, bytes: &[u8]) -> io::Result<usize>
        ensures answers { answers self.old bytes.now result self.new }
        ensures bound { WritesAtMost result bytes.now }
        ensures bytes { WriteAppends (Self.contents self.old) (Self.contents self.new) result
            bytes.now };
}

impl<W: Write> Offered for W {
    ghost use Rattle.std.specs.Io.KnownBytes.{WriteAppends};

    ghost answers = { λ s bytes answer t. WriteAppends (W.contents s) (W.contents t) answer bytes };

    fn offer(&mut self, bytes: &[u8]) -> io::Result<usize> {
        self.write(bytes)
    }
}

/// Writes some of the bytes, again as long as the write is interrupted, but no more often than
/// `u64::MAX` times: there is no answer if all of these were. Any other error is returned at once.
#[tactic(auto, using(crate::proofs::Interrupted::kept))]
pub(super) fn write_by_turns<W: Offered>(writer: &mut W, bytes: &[u8]) -> Option<io::Result<usize>>
    ensures answered { IfSome result (λ answer. WritesLater W.answers writer.old bytes.now answer
        writer.new) }
    ensures bound { IfSome result (λ answer. WritesAtMost answer bytes.now) }
    ensures bytes { IfSome result (λ answer. WriteAppends (W.contents writer.old)
        (W.contents writer.new) answer bytes.now) }
    ensures passed_on { IfSome result (λ answer. IfErr answer (λ e.
        error_kind e ≢ ErrorKind.Interrupted)) }
    ensures given_up { IfNone result (Interruptions (write_fails W.answers) (2 ^ 64 - 1) writer.old
        writer.new) }
    ensures kept { IfNone result (Keeps (W.contents writer.old) (W.contents writer.new)) }
{
    for _turn in 0..u64::MAX {
        match writer.offer(bytes) {
            Ok(count) => return Some(Ok(count)),
            Err(e) => {
                if e.kind() != ErrorKind::Interrupted {
                    return Some(Err(e));
                }
            }
        }
    }
    None
}

/// Writes all of the bytes, repeating interrupted writes. A write of 0 bytes is refused as
/// `WriteZero`, and 2^64 - 1 interruptions in a row as a `Format` without a text.
pub(super) fn write_fully<W: Offered>(
    alloc: Global,
    writer: &mut W,
    bytes: &[u8],
) -> error::Result<()>
    ensures ok { OnOk result (Appends (W.contents writer.old) (W.contents writer.new) bytes.now) }
    ensures err { OnErr result (TakesBeginning (W.contents writer.old) (W.contents writer.new)
        bytes.now) }
    ensures outside { IfErr result IsOutside }
    ensures stops { IfErr result (StopsByTurns W.answers) }
{
    let mut rest = bytes;
    while !rest.is_empty() {
        match write_by_turns(writer, rest) {
            Some(answer) => {
                let count = answer?;
                if count == 0 {
                    let error = io::Error::new(ErrorKind::WriteZero, "nothing was written");
                    return Err(Error::Io(error));
                }
                let (_, after) = rest.split_at(count);
                rest = after;
            }
            None => return Err(Error::Format(String::new(alloc))),
        }
    }
    Ok(())
}
