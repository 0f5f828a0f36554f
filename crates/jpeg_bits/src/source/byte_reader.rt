//! A buffered reader whose bytes are taken one by one.

use std::io::{BufRead, BufReader, Read, Result};

/// A buffered reader for a decoder. Entropy-coded data is read byte by byte: a read of one byte
/// takes it from the buffer without a call, if the buffer has one.
#[derive(Drop)]
pub struct ByteReader<R: Read + Drop> {
    inner: BufReader<R>,
}

impl<R: Read + Drop> ByteReader<R> {
    ghost use Rattle.std.specs.Prelude.{◌≡◌};

    /// Returns a reader that continues from where `inner` is.
    pub fn new(inner: BufReader<R>) -> ByteReader<R>
        ensures { result ≡ record { inner = inner } }
    {
        ByteReader { inner }
    }
}

impl<R: Read + Drop> Read for ByteReader<R> {
    ghost use Rattle.std.specs.Io.Buffered.{reader_remaining};

    ghost remaining = { λ r. reader_remaining R.remaining r.inner };

    #[inline(always)]
    #[tactic(auto, using(crate::proofs::TakenBytes::takes_front))]
    fn read(&mut self, buf: &mut [u8]) -> Result<usize> {
        if buf.len() == 1 {
            let ahead = self.inner.buffer();
            if ahead.len() > 0 {
                let byte = ahead[0];
                buf[0] = byte;
                self.inner.consume(1);
                return Ok(1);
            }
        }
        self.inner.read(buf)
    }
}
