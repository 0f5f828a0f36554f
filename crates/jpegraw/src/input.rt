//! Standard input, of which a file's next reader gets what was read ahead and not taken.
ghost use Rattle.std.specs.Io.{ReadsAtMost};

use std::alloc::{AllocError, Global};
use std::io::{BufRead, Error, ErrorKind, Read, Result, StdinLock};

/// How many bytes of a pipe are read ahead at most.
const ROOM: usize = 8192;

/// Standard input with a buffer, whose single bytes are taken without a call.
///
/// The lock on standard input reads a file ahead, and when it is dropped it seeks back over what it
/// wasn't told to consume. So for a file the buffer is a copy of what the lock has read ahead. A
/// pipe takes nothing back, and the lock reads it byte by byte: there the buffer is filled past it.
pub struct Input {
    stdin: StdinLock<'static>,
    buffer: Vec<u8>,
    taken: usize,
    is_file: bool,
}

impl Input {
    /// Returns a reader of standard input.
    pub fn new(alloc: Global, stdin: StdinLock<'static>) -> std::result::Result<Input, AllocError> {
        Ok(Input {
            stdin,
            buffer: Vec::with_capacity(alloc, ROOM)?,
            taken: 0,
            is_file: true,
        })
    }

    /// Copies what the lock reads ahead into the buffer, all of which was taken. A single byte is
    /// that of a pipe.
    fn copy_ahead(&mut self) -> Result<()> {
        self.stdin.consume(self.buffer.len());
        self.taken = 0;
        self.buffer.clear();
        let ahead = self.stdin.fill_buf()?;
        if self.buffer.extend_from_slice(ahead).is_err() {
            return Err(Error::from(ErrorKind::OutOfMemory));
        }
        if self.buffer.len() == 1 {
            self.stdin.consume(1);
            self.is_file = false;
        }
        Ok(())
    }

    /// Reads from a pipe into the buffer, all of which was taken.
    fn read_ahead(&mut self) -> Result<()> {
        self.taken = 0;
        if self.buffer.resize(ROOM, 0).is_err() {
            return Err(Error::from(ErrorKind::OutOfMemory));
        }
        let answer = self.stdin.read(&mut self.buffer);
        self.buffer.truncate(match &answer {
            Ok(count) => *count,
            Err(_) => 0,
        });
        answer.map(|_| ())
    }

    #[inline(never)]
    fn refill(&mut self) -> Result<()> {
        if self.is_file {
            self.copy_ahead()
        } else {
            self.read_ahead()
        }
    }

    /// Reads some bytes, at least one unless the input ends.
    #[inline(never)]
    fn read_some(&mut self, buf: &mut [u8]) -> Result<usize>
        ensures { ReadsAtMost result buf.new }
    {
        if self.taken >= self.buffer.len() {
            self.refill()?;
        }
        let Some(ahead) = self.buffer.get(self.taken..) else {
            return Ok(0);
        };
        let count = ahead.len().min(buf.len());
        buf[..count].copy_from_slice(&ahead[..count]);
        self.taken += count;
        Ok(count)
    }
}

impl Read for Input {
    #[inline(always)]
    fn read(&mut self, buf: &mut [u8]) -> Result<usize> {
        if buf.len() == 1 {
            if let Some(byte) = self.buffer.get(self.taken) {
                buf[0] = *byte;
                self.taken += 1;
                return Ok(1);
            }
        }
        self.read_some(buf)
    }
}

impl Drop for Input {
    fn drop(self) {
        let Input {
            mut stdin,
            buffer: _,
            taken,
            is_file,
        } = self;
        if is_file {
            stdin.consume(taken);
        }
    }
}
