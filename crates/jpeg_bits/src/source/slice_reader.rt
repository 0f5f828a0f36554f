//! A reader over bytes in memory, which are taken one by one.

use std::io::{Read, Result};

/// Bytes in memory, for a decoder. Entropy-coded data is read byte by byte: a read of one byte
/// takes it off the slice without the call that the slice's own `read` makes for each.
#[derive(Drop)]
pub struct SliceReader<'a> {
    bytes: &'a [u8],
}

impl<'a> SliceReader<'a> {
    ghost use Rattle.std.specs.Prelude.{◌≡◌, length};

    /// Returns a reader of all of the bytes.
    pub fn new(bytes: &'a [u8]) -> SliceReader<'a>
        ensures { result.bytes.now ≡ bytes.now }
    {
        SliceReader { bytes }
    }

    /// Returns how many bytes are left.
    pub fn left(&self) -> usize
        ensures { result ≡ length self.now.bytes.now }
    {
        self.bytes.len()
    }
}

impl<'a> Read for SliceReader<'a> {
    ghost use Rattle.std.specs.Prelude.{◌≡◌, Some, Ok, min, length};
    ghost use Rattle.std.specs.Io.{ReadsAtMost};
    ghost use Rattle.std.specs.Io.KnownBytes.{ReadConsumes};

    ghost remaining = { λ r. Some r.bytes.now };

    #[inline(always)]
    #[tactic(auto, using(crate::proofs::Rules::taken))]
    fn read(&mut self, buf: &mut [u8]) -> Result<usize>
        ensures bound { ReadsAtMost result buf.new }
        ensures bytes { ReadConsumes (Some self.old.bytes.now) (Some self.new.bytes.now) result
            buf.new }
        ensures count { result ≡ Ok (min (length self.old.bytes.now) (length buf.old)) }
    {
        if buf.len() == 1 {
            if self.bytes.len() > 0 {
                buf[0] = self.bytes[0];
                self.bytes = &self.bytes[1..];
                return Ok(1);
            }
        }
        self.bytes.read(buf)
    }
}
