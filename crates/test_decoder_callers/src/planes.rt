//! Callers that ask for the planes of a picture: of each clause one that calls `decode_planes`, and
//! one that calls it.
ghost use Rattle.std.specs.Prelude.{IfOk, map};
ghost use Rattle.jpeg_bits.specs.Reading.{Answers};
ghost use Rattle.jpeg_decoder.specs.Bytes.{AreOwnPlanes};
ghost use Rattle.jpeg_meaning.specs.DecodedImages.{DecodesCoefficients};
ghost use Rattle.jpeg_meaning.specs.DecodedSamples.{DecodesLossless};
ghost use Rattle.jpeg_meaning.specs.FoundPlanes.{planes_of};
ghost use Rattle.jpeg_meaning.specs.States.{IsReading, ahead_showing};
ghost use Rattle.jpeg_meaning.specs.Stream.{told_of};
ghost use Rattle.jpeg_meaning.specs.WrittenPlanes.{planes_of_blocks, planes_of_samples};

use jpeg_decoder::Decoder;
use jpeg_decoder::error::Result;
use std::io::Read;

/// Calls `Decoder::decode_planes`, and says what the bytes mean.
pub fn planes_by_meaning<R: Read + Drop>(decoder: &mut Decoder<R>) -> Result<Vec<Vec<u8>>>
    ensures { IsReading decoder.old.stage
        → Answers (λ v. (told_of decoder.new.found.said, map (λ p. p.items) v.items))
        (ahead_showing decoder.old.settings.max_blocks (planes_of decoder.old.settings.limit)
        decoder.old.stage decoder.old.found) decoder.old.source result decoder.new.source }
{
    decoder.decode_planes()
}

/// Calls `Decoder::decode_planes`, and says that they are those of the coefficients that a stream
/// was written for.
pub fn planes_by_image<R: Read + Drop>(decoder: &mut Decoder<R>) -> Result<Vec<Vec<u8>>>
    ensures { DecodesCoefficients (planes_of_blocks decoder.old.settings.limit)
        (λ v. map (λ p. p.items) v.items) decoder.old result decoder.new }
{
    decoder.decode_planes()
}

/// Calls `Decoder::decode_planes`, and says that these are the samples that a lossless stream was
/// written for.
pub fn planes_by_samples<R: Read + Drop>(decoder: &mut Decoder<R>) -> Result<Vec<Vec<u8>>>
    ensures { DecodesLossless (planes_of_samples decoder.old.settings.limit)
        (λ v. map (λ p. p.items) v.items) decoder.old result decoder.new }
{
    decoder.decode_planes()
}

/// Calls `Decoder::decode_planes`, and says how many samples each plane has.
pub fn planes_by_size<R: Read + Drop>(decoder: &mut Decoder<R>) -> Result<Vec<Vec<u8>>>
    ensures { IfOk result (λ v. AreOwnPlanes decoder.new.found.said.frame
        (map (λ p. p.items) v.items)) }
{
    decoder.decode_planes()
}

/// Decodes by the clause `reads`.
pub fn meaning<R: Read + Drop>(decoder: &mut Decoder<R>) -> Result<Vec<Vec<u8>>>
    ensures { IsReading decoder.old.stage
        → Answers (λ v. (told_of decoder.new.found.said, map (λ p. p.items) v.items))
        (ahead_showing decoder.old.settings.max_blocks (planes_of decoder.old.settings.limit)
        decoder.old.stage decoder.old.found) decoder.old.source result decoder.new.source }
{
    planes_by_meaning(decoder)
}

/// Decodes by the clause `images`.
pub fn image<R: Read + Drop>(decoder: &mut Decoder<R>) -> Result<Vec<Vec<u8>>>
    ensures { DecodesCoefficients (planes_of_blocks decoder.old.settings.limit)
        (λ v. map (λ p. p.items) v.items) decoder.old result decoder.new }
{
    planes_by_image(decoder)
}

/// Decodes by the clause `samples`.
pub fn samples<R: Read + Drop>(decoder: &mut Decoder<R>) -> Result<Vec<Vec<u8>>>
    ensures { DecodesLossless (planes_of_samples decoder.old.settings.limit)
        (λ v. map (λ p. p.items) v.items) decoder.old result decoder.new }
{
    planes_by_samples(decoder)
}

/// Decodes by the clause `sizes`.
pub fn sizes<R: Read + Drop>(decoder: &mut Decoder<R>) -> Result<Vec<Vec<u8>>>
    ensures { IfOk result (λ v. AreOwnPlanes decoder.new.found.said.frame
        (map (λ p. p.items) v.items)) }
{
    planes_by_size(decoder)
}
