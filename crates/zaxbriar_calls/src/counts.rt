//! How many bytes of a stream were read.
ghost use Rattle.std.specs.Prelude.{◌≡◌, ◌≤◌, ◌+◌, length, true};

use jpeg_decoder::{Decoder, SliceReader};

/// Returns how many bytes of a stream its decoder has taken.
#[tactic(auto, using(crate::proofs::Rules::counted))]
pub fn bytes_read(jpeg: &[u8], decoder: &Decoder<SliceReader<'_>>) -> u64
    ensures most { result ≤ length jpeg.now }
    ensures counts { decoder.now.source.known ≡ true
        → length decoder.now.source.bytes ≤ length jpeg.now
        → result + length decoder.now.source.bytes ≡ length jpeg.now }
{
    // A decoder that isn't of these bytes may have more left: then it is 0.
    let (ahead, reader) = decoder.rest();
    jpeg.len()
        .saturating_sub(ahead.len())
        .saturating_sub(reader.left()) as u64
}
