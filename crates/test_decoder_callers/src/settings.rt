//! Callers that set what a decoder decodes by.
ghost use Rattle.std.specs.Prelude.{◌≡◌};

use jpeg_decoder::Decoder;
use std::io::Read;

/// Calls `Decoder::set_max_decoding_buffer_size`.
pub fn set_limit<R: Read + Drop>(decoder: &mut Decoder<R>, max: usize)
    ensures { decoder.new ≡ record decoder.old {
      settings = record decoder.old.settings
          { limit = max };
    } }
{
    decoder.set_max_decoding_buffer_size(max)
}

/// Calls `Decoder::set_max_blocks`.
pub fn set_block_limit<R: Read + Drop>(decoder: &mut Decoder<R>, max: Option<u64>)
    ensures { decoder.new ≡ record decoder.old {
      settings = record decoder.old.settings
          { max_blocks = max };
    } }
{
    decoder.set_max_blocks(max)
}

/// Calls `Decoder::set_luma`.
pub fn set_luma<R: Read + Drop>(decoder: &mut Decoder<R>, luma: bool)
    ensures { decoder.new ≡ record decoder.old {
      settings = record decoder.old.settings
          { luma = luma };
    } }
{
    decoder.set_luma(luma)
}
