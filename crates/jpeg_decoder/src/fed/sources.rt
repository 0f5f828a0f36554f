//! Sources over bytes in memory, which are read ahead.
ghost use Rattle.std.specs.Prelude.{◌≡◌, ◌-◌, ◌^◌, IfErr, IfOk, length, min, true};
ghost use Rattle.jpeg_bits.specs.declared.error.Error.TheVariants.{OutOfMemory};

use jpeg_bits::error::Result;
use jpeg_bits::source::Source;
use jpeg_bits::source::slice_reader::SliceReader;
use std::alloc::Global;

/// How many bytes are read ahead at most.
pub const READ_AHEAD: usize = 65536;

/// Returns a source of bytes in memory, which are read ahead. The only error is `OutOfMemory`.
pub fn source_of(alloc: Global, bytes: &[u8]) -> Result<Source<SliceReader<'_>>>
    ensures bytes { IfOk result (λ s. s.bytes ≡ bytes.now) }
    ensures known { IfOk result (λ s. s.known ≡ true) }
    ensures err { IfErr result (λ e. e ≡ OutOfMemory) }
{
    let capacity = bytes.len().min(READ_AHEAD);
    let mut source = Source::new(SliceReader::new(bytes));
    source.read_ahead(alloc, capacity)?;
    Ok(source)
}

/// Returns how many bytes of a source of bytes in memory are left.
pub fn unread(source: &Source<SliceReader<'_>>) -> usize
    ensures { source.now.known ≡ true → result ≡ min (length source.now.bytes) (2 ^ 64 - 1) }
{
    let (ahead, reader) = source.rest();
    ahead.len().saturating_add(reader.left())
}
