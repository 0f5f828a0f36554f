//! Callers of `decode` and `decode_into`, of which each keeps one clause of a long contract: those
//! in `pictures` and `streams` call these.
ghost use Rattle.std.specs.Prelude.{◌≡◌, drop, take, IfOk, IsErrAnd};
ghost use Rattle.jpeg_bits.specs.Reading.{Answers};
ghost use Rattle.jpeg_decoder.specs.Bytes.{IsWhole, shape_in};
ghost use Rattle.jpeg_meaning.specs.DecodedImages.{DecodesImages};
ghost use Rattle.jpeg_meaning.specs.DecodedSamples.{DecodesSamples};
ghost use Rattle.jpeg_meaning.specs.States.{IsInternal, IsReading, MovesToEnd, ahead};
ghost use Rattle.jpeg_meaning.specs.Stream.{told_of};
ghost use Rattle.jpeg_meaning.specs.declared.progress.Progress.TheVariants.{HeaderRead};

use jpeg_decoder::Decoder;
use jpeg_decoder::error::Result;
use std::io::Read;

/// Calls `Decoder::decode`, and says what becomes of the decoder's state.
pub fn decode_by_stage<R: Read + Drop>(decoder: &mut Decoder<R>) -> Result<Vec<u8>>
    ensures { MovesToEnd decoder.old.stage decoder.new.stage result }
{
    decoder.decode()
}

/// Calls `Decoder::decode`, and says what the bytes mean.
pub fn decode_by_meaning<R: Read + Drop>(decoder: &mut Decoder<R>) -> Result<Vec<u8>>
    ensures { IsReading decoder.old.stage
        → Answers (λ v. (told_of decoder.new.found.said, v.items))
        (ahead decoder.old.stage decoder.old.settings decoder.old.found) decoder.old.source result
        decoder.new.source }
{
    decoder.decode()
}

/// Calls `Decoder::decode`, and says that it is the picture of the coefficients that a stream was
/// written for.
pub fn decode_by_image<R: Read + Drop>(decoder: &mut Decoder<R>) -> Result<Vec<u8>>
    ensures { DecodesImages (λ v. v.items) decoder.old result decoder.new }
{
    decoder.decode()
}

/// Calls `Decoder::decode`, and says that these are the samples that a lossless stream was written
/// for.
pub fn decode_by_samples<R: Read + Drop>(decoder: &mut Decoder<R>) -> Result<Vec<u8>>
    ensures { DecodesSamples (λ v. v.items) decoder.old result decoder.new }
{
    decoder.decode()
}

/// Calls `Decoder::decode`, and says that the frame stays that a header had.
pub fn decode_by_frame<R: Read + Drop>(decoder: &mut Decoder<R>) -> Result<Vec<u8>>
    ensures { decoder.old.stage ≡ HeaderRead
        → decoder.new.found.said.frame ≡ decoder.old.found.said.frame }
{
    decoder.decode()
}

/// Calls `Decoder::decode_into`, and says how many bytes the picture has.
pub fn decode_into_by_size<R: Read + Drop>(
    decoder: &mut Decoder<R>,
    pixels: &mut [u8],
) -> Result<usize>
    ensures { IfOk result (λ n. IsWhole (shape_in decoder.new) (take n pixels.new)) }
{
    decoder.decode_into(pixels)
}

/// Calls `Decoder::decode_into`, and says that the bytes after the picture stay.
pub fn decode_into_by_rest<R: Read + Drop>(
    decoder: &mut Decoder<R>,
    pixels: &mut [u8],
) -> Result<usize>
    ensures { IfOk result (λ n. drop n pixels.new ≡ drop n pixels.old) }
{
    decoder.decode_into(pixels)
}

/// Calls `Decoder::decode_into`, and says what it is where no image is left to decode.
pub fn decode_into_by_end<R: Read + Drop>(
    decoder: &mut Decoder<R>,
    pixels: &mut [u8],
) -> Result<usize>
    ensures { (IsReading decoder.old.stage → ⊥) → IsErrAnd result IsInternal }
{
    decoder.decode_into(pixels)
}
