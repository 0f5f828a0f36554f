//! Callers of a decoder that ask for its picture.
ghost use Rattle.std.specs.Prelude.{◌≡◌, drop, take, IfOk, IsErrAnd};
ghost use Rattle.jpeg_bits.specs.Reading.{Answers};
ghost use Rattle.jpeg_decoder.specs.Bytes.{IsWhole, shape_in};
ghost use Rattle.jpeg_meaning.specs.DecodedImages.{DecodesImages};
ghost use Rattle.jpeg_meaning.specs.DecodedSamples.{DecodesSamples};
ghost use Rattle.jpeg_meaning.specs.States.{IsInternal, IsReading, MovesToEnd, ahead};
ghost use Rattle.jpeg_meaning.specs.Stream.{told_of};

use crate::decoding::{
    decode_by_image, decode_by_meaning, decode_by_samples, decode_by_stage, decode_into_by_end,
    decode_into_by_rest, decode_into_by_size,
};
use jpeg_decoder::Decoder;
use jpeg_decoder::error::Result;
use std::io::Read;

/// Decodes by the clause `stage`.
pub fn stage<R: Read + Drop>(decoder: &mut Decoder<R>) -> Result<Vec<u8>>
    ensures { MovesToEnd decoder.old.stage decoder.new.stage result }
{
    decode_by_stage(decoder)
}

/// Decodes by the clause `reads`.
pub fn meaning<R: Read + Drop>(decoder: &mut Decoder<R>) -> Result<Vec<u8>>
    ensures { IsReading decoder.old.stage
        → Answers (λ v. (told_of decoder.new.found.said, v.items))
        (ahead decoder.old.stage decoder.old.settings decoder.old.found) decoder.old.source result
        decoder.new.source }
{
    decode_by_meaning(decoder)
}

/// Decodes by the clause `images`.
pub fn image<R: Read + Drop>(decoder: &mut Decoder<R>) -> Result<Vec<u8>>
    ensures { DecodesImages (λ v. v.items) decoder.old result decoder.new }
{
    decode_by_image(decoder)
}

/// Decodes by the clause `samples`.
pub fn samples<R: Read + Drop>(decoder: &mut Decoder<R>) -> Result<Vec<u8>>
    ensures { DecodesSamples (λ v. v.items) decoder.old result decoder.new }
{
    decode_by_samples(decoder)
}

/// Decodes into memory by the clause `size`.
pub fn picture_into<R: Read + Drop>(decoder: &mut Decoder<R>, pixels: &mut [u8]) -> Result<usize>
    ensures { IfOk result (λ n. IsWhole (shape_in decoder.new) (take n pixels.new)) }
{
    decode_into_by_size(decoder, pixels)
}

/// Decodes into memory by the clause `rest`.
pub fn front_of<R: Read + Drop>(decoder: &mut Decoder<R>, pixels: &mut [u8]) -> Result<usize>
    ensures { IfOk result (λ n. drop n pixels.new ≡ drop n pixels.old) }
{
    decode_into_by_rest(decoder, pixels)
}

/// Decodes into memory by the clause `ended`.
pub fn picture_after_the_end<R: Read + Drop>(
    decoder: &mut Decoder<R>,
    pixels: &mut [u8],
) -> Result<usize>
    ensures { (IsReading decoder.old.stage → ⊥) → IsErrAnd result IsInternal }
{
    decode_into_by_end(decoder, pixels)
}
