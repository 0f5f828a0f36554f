//! A reader that is asked for no byte before it is wanted.
ghost use Rattle.std.specs.Prelude.{◌≡◌, length};
ghost use Rattle.jpeg_bits.specs.Stream.{Stream};

use crate::error::{Error, Result};
use crate::source::bytes::Bytes;
use crate::source::turns::{Asked, read_by_turns};
use std::alloc::Global;
use std::io;
use std::io::{ErrorKind, Read};
use std::marker::Model;

/// A reader, and whether a read of it has failed, which is remembered. Interrupted reads are
/// repeated.
#[derive(Drop)]
pub(crate) struct Unbuffered<R: Read + Drop> {
    reader: R,
    failed: bool,
    exhausted: bool,
}

impl<R: Read + Drop> Model for Unbuffered<R> {
    ghost use Rattle.jpeg_bits.specs.Stream.{Stream, stream_code, stream_of};

    ghost Value = { Stream };

    ghost coded = { stream_code };

    ghost view = { λ s. stream_of (R.remaining s.reader) s.failed s.exhausted };
}

impl<R: Read + Drop> Unbuffered<R> {
    ghost use Rattle.std.specs.Prelude.{◌≡◌, false, true, Some};
    ghost use Rattle.jpeg_bits.specs.Stream.{stream_of};
    ghost use Rattle.jpeg_bits.specs.Reading.{IsShort};

    /// Makes a source of what the reader gives; no read has failed yet.
    pub(super) fn new(reader: R) -> Unbuffered<R>
        ensures { result ≡ stream_of (R.remaining reader) false false }
    {
        Unbuffered {
            reader,
            failed: false,
            exhausted: false,
        }
    }

    /// Returns the reader.
    pub(super) fn reader(&self) -> &R
        ensures { self.now.known ≡ true → R.remaining result.now ≡ Some self.now.bytes }
    {
        &self.reader
    }

    /// Returns whether a read has failed. The end of the bytes is not a failure.
    pub(super) fn has_failed(&self) -> bool
        ensures failed { result ≡ self.now.failed }
        ensures known { self.now.known ≡ true → result ≡ false }
        ensures short { IsShort self.now }
    {
        self.failed
    }
}

impl<R: Asked + Drop> Unbuffered<R> {
    ghost use Rattle.std.specs.Prelude.{◌≡◌, length, IfErr};
    ghost use Rattle.jpeg_bits.specs.Reading.{Answers, ReadsSome, IsShort};
    ghost use Rattle.jpeg_bits.specs.Entropy.{byte_or_end};
    ghost use Rattle.jpeg_bits.specs.Refusals.{answer_of, IsRefused};
    ghost use Rattle.jpeg_bits.specs.Turns.{IsAnswered, IsByTurns, read_fails};

    /// Reads once into the buffer, and again as long as the read is interrupted.
    #[inline(always)]
    #[tactic(auto, using(crate::proofs::Rules::later))]
    pub(super) fn read(&mut self, alloc: Global, buffer: &mut [u8]) -> Result<usize>
        ensures len { length buffer.new ≡ length buffer.old }
        ensures some { ReadsSome self.old result buffer.new self.new }
        ensures short { IsShort self.old }
        ensures turns { IfErr result (IsByTurns (read_fails R.answers)) }
    {
        match self.reader.ask(buffer) {
            Ok(count) => Ok(count),
            Err(e) => self.read_after(alloc, e, buffer),
        }
    }

    /// Reads into the buffer after a read that failed, or was interrupted.
    #[cold]
    #[inline(never)]
    #[tactic(auto, using(crate::proofs::Rules::later))]
    fn read_after(&mut self, alloc: Global, error: io::Error, buffer: &mut [u8]) -> Result<usize>
        requires { IsAnswered (read_fails R.answers) error }
        ensures len { length buffer.new ≡ length buffer.old }
        ensures some { ReadsSome self.old result buffer.new self.new }
        ensures turns { IfErr result (IsByTurns (read_fails R.answers)) }
    {
        if error.kind() != ErrorKind::Interrupted {
            self.failed = true;
            return Err(Error::Io(error));
        }
        match read_by_turns(&mut self.reader, buffer) {
            Some(answer) => match answer {
                Ok(count) => Ok(count),
                Err(e) => {
                    self.failed = true;
                    Err(Error::Io(e))
                }
            },
            None => {
                self.exhausted = true;
                Err(Error::Format(String::new(alloc)))
            }
        }
    }

    /// Reads the next byte, or `Some(None)` if the bytes end. A refusal is stored in `refusal`, and
    /// none is returned.
    #[inline(always)]
    pub(super) fn next(&mut self, alloc: Global, refusal: &mut Option<Error>) -> Option<Option<u8>>
        ensures answers { Answers (λ b. b) byte_or_end self.old (answer_of result refusal.new)
            self.new }
        ensures refused { IsRefused result refusal.new }
        ensures short { IsShort self.old }
        ensures turns { IfErr (answer_of result refusal.new) (IsByTurns (read_fails R.answers)) }
    {
        let mut buffer = [0u8];
        match self.reader.ask(&mut buffer) {
            Ok(count) => Some(if count == 0 { None } else { Some(buffer[0]) }),
            Err(e) => self.next_after(alloc, e, refusal),
        }
    }

    /// Reads the next byte after a read that failed, or was interrupted.
    #[cold]
    #[inline(never)]
    fn next_after(
        &mut self,
        alloc: Global,
        error: io::Error,
        refusal: &mut Option<Error>,
    ) -> Option<Option<u8>>
        requires { IsAnswered (read_fails R.answers) error }
        ensures answers { Answers (λ b. b) byte_or_end self.old (answer_of result refusal.new)
            self.new }
        ensures refused { IsRefused result refusal.new }
        ensures turns { IfErr (answer_of result refusal.new) (IsByTurns (read_fails R.answers)) }
    {
        let mut buffer = [0u8];
        match self.read_after(alloc, error, &mut buffer) {
            Ok(count) => Some(if count == 0 { None } else { Some(buffer[0]) }),
            Err(e) => {
                *refusal = Some(e);
                None
            }
        }
    }
}

impl<R: Asked + Drop> Bytes for Unbuffered<R> {
    ghost stream = { λ s. s };

    #[inline(always)]
    fn next_byte(&mut self, alloc: Global, refusal: &mut Option<Error>) -> Option<Option<u8>> {
        self.next(alloc, refusal)
    }
}
