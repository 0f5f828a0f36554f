//! Decoders of streams in memory.
ghost use Rattle.std.specs.Prelude.{◌≡◌, IfErr, IfOk, false, true};
ghost use Rattle.jpeg_bits.specs.declared.error.Error.TheVariants.{OutOfMemory};
ghost use Rattle.jpeg_meaning.specs.Output.{default_settings};
ghost use Rattle.jpeg_meaning.specs.declared.progress.Progress.TheVariants.{Fresh};

use jpeg_decoder::error::Result;
use jpeg_decoder::{Decoder, SliceReader};
use std::alloc::Global;

/// How many bytes of a stream are read ahead at most.
const READ_AHEAD: usize = 65536;

/// How many bytes a stream has that is worth reading ahead.
const LONG: usize = 1024;

/// Returns a decoder of a stream, all bytes of which it knows.
pub fn decoder_of(alloc: Global, jpeg: &[u8]) -> Result<Decoder<SliceReader<'_>>>
    ensures stage { IfOk result (λ d. d.stage ≡ Fresh) }
    ensures settings { IfOk result (λ d. d.settings ≡ default_settings) }
    ensures exceeded { IfOk result (λ d. d.exceeded ≡ false) }
    ensures known { IfOk result (λ d. d.source.known ≡ true) }
    ensures bytes { IfOk result (λ d. d.source.bytes ≡ jpeg.now) }
    ensures memory { IfErr result (λ e. e ≡ OutOfMemory) }
{
    // A decoder knows fewer than 2^64 bytes, and no slice has more than its length can say.
    let _size = jpeg.len();
    let mut decoder = Decoder::new(alloc, SliceReader::new(jpeg))?;
    if jpeg.len() >= LONG {
        decoder.read_ahead(jpeg.len().min(READ_AHEAD))?;
    }
    Ok(decoder)
}
