//! Callers that ask a decoder what was read.
ghost use Rattle.std.specs.Prelude.{◌≡◌, option_map, MatchResult};
ghost use Rattle.jpeg_bits.specs.declared.error.Error.TheVariants.{OutOfMemory};
ghost use Rattle.jpeg_meaning.specs.Pixels.{info_by};
ghost use Rattle.jpeg_meaning.specs.Profile.{profile_of};
ghost use Rattle.jpeg_meaning.specs.States.{HasHeader};
ghost use Rattle.jpeg_meaning.specs.Work.{picture_blocks};

use jpeg_decoder::error::Result;
use jpeg_decoder::{Decoder, ImageInfo};
use std::io::Read;

/// Calls `Decoder::info`.
pub fn info<R: Read + Drop>(decoder: &Decoder<R>) -> Option<ImageInfo>
    ensures { result
        ≡ option_map (info_by decoder.now.settings) decoder.now.found.said.frame }
{
    decoder.info()
}

/// Calls `Decoder::has_read_failed`.
pub fn has_read_failed<R: Read + Drop>(decoder: &Decoder<R>) -> bool
    ensures { result ≡ decoder.now.source.failed }
{
    decoder.has_read_failed()
}

/// Calls `Decoder::has_exceeded_max_blocks`.
pub fn has_exceeded_max_blocks<R: Read + Drop>(decoder: &Decoder<R>) -> bool
    ensures { result ≡ decoder.now.exceeded }
{
    decoder.has_exceeded_max_blocks()
}

/// Calls `Decoder::icc_profile`.
pub fn profile<R: Read + Drop>(decoder: &Decoder<R>) -> Result<Option<Vec<u8>>>
    ensures { MatchResult result (λ o. option_map (λ v. v.items) o
        ≡ profile_of decoder.now.found.said.metadata.icc) (λ e. e ≡ OutOfMemory) }
{
    decoder.icc_profile()
}

/// Calls `Decoder::picture_blocks`.
pub fn blocks<R: Read + Drop>(decoder: &Decoder<R>) -> Option<u64>
    ensures { HasHeader decoder.now.stage
        → result ≡ option_map picture_blocks decoder.now.found.said.frame }
{
    decoder.picture_blocks()
}
