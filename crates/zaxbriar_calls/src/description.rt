//! Descriptions of streams, by their headers.
ghost use Rattle.std.specs.Prelude.{◌≡◌, ◌≤◌, ◌<◌, ◌+◌, ◌^◌, Some, true, false, length};
ghost use Rattle.std.specs.Prelude.{IfErr, IfOk, IsErrAnd, OnOk, option_map};
ghost use Rattle.jpeg_decoder.specs.Bytes.{decoding_bytes};
ghost use Rattle.jpeg_meaning.specs.Output.{default_settings};
ghost use Rattle.jpeg_meaning.specs.Pixels.{info_by};
ghost use Rattle.jpeg_meaning.specs.declared.progress.Progress.TheVariants.{Fresh};
ghost use Rattle.jpeg_meaning.specs.Stream.{header_at};
ghost use Rattle.zaxbriar_calls.specs.Density.{density_of};
ghost use Rattle.zaxbriar_calls.specs.Faults.{IsArgument, IsFault, IsOfCall, IsPart};
ghost use Rattle.zaxbriar_calls.specs.Limits.{are_known, bytes_beside};
ghost use Rattle.zaxbriar_calls.specs.Lines.{HasLines, described_picture};
ghost use Rattle.zaxbriar_calls.specs.Meanings.{AreWrong, CountsRead, IsMisfit, IsTooLarge};
ghost use Rattle.zaxbriar_calls.specs.Meanings.{IsWithin, ReadsHeader, StandsAfter};
ghost use Rattle.zaxbriar_calls.specs.Meanings.{orientation_by, uncounted};
ghost use Rattle.zaxbriar_calls.specs.Outcomes.{DescribesStream};
ghost use Rattle.zaxbriar_calls.specs.declared.answers.Refusal.TheVariants.{NoRoom, TooLarge};

use crate::answers::{Misuse, Refusal};
use crate::counts::bytes_read;
use crate::decoders::decoder_of;
use crate::density::{Density, density_of};
use crate::header::{Header, read_header};
use crate::limits::exceeds_limits;
use crate::lines::{Lines, lines_of};
use crate::options::{Options, are_known};
use crate::picture::{Picture, picture_of};
use jpeg_decoder::Decoder;
use std::alloc::Global;
use std::io::Read;

/// Reads a header, and describes the picture that the options ask for, with the density of the
/// stream. A picture above their limits is described and refused.
pub fn describe<R: Read + Drop>(
    decoder: &mut Decoder<R>,
    options: &Options,
    density: Density,
    picture: &mut Picture,
) -> std::result::Result<(Header, Lines), Refusal>
    requires fresh { decoder.old.stage ≡ Fresh }
    requires plain { decoder.old.settings ≡ default_settings }
    requires dense { decoder.old.source.known ≡ true
        → density ≡ density_of decoder.old.source.bytes }
    ensures reads { OnOk result (ReadsHeader options.now decoder.old decoder.new) }
    ensures exceeded { decoder.new.exceeded ≡ decoder.old.exceeded }
    ensures info { IfOk result (λ a. option_map (info_by decoder.new.settings)
        decoder.new.found.said.frame ≡ Some a.0.info) }
    ensures precision { IfOk result (λ a. option_map (λ f. f.precision) decoder.new.found.said.frame
        ≡ Some a.0.precision) }
    ensures bytes { IfOk result (λ a. option_map (decoding_bytes decoder.new.settings)
        decoder.new.found.said.frame
        ≡ Some a.0.decoding_bytes) }
    ensures oriented { IfOk result (λ a. a.0.orientation
        ≡ orientation_by decoder.new.found.said.metadata.exif) }
    ensures lines { IfOk result
        (λ a. HasLines options.now a.0.info a.0.precision a.0.orientation a.1) }
    ensures told { IfOk result (λ a. picture.new ≡ described_picture options.now.layout a.0.info
        a.0.precision a.1 (bytes_beside a.0.decoding_bytes) a.0.orientation
        a.0.sampling a.0.planes a.0.transform density 0) }
    ensures within { decoder.old.source.known ≡ true
        → OnOk result (IsWithin options.now decoder.old.source.bytes picture.new) }
    ensures large { decoder.old.source.known ≡ true → IfErr result (λ r. r ≡ TooLarge
        → IsTooLarge options.now decoder.old.source.bytes picture.new) }
    ensures after { decoder.old.source.known ≡ true → IfErr result (λ r. r ≡ TooLarge
        → StandsAfter (header_at decoder.old.source.bytes) decoder.new.source) }
    ensures limited { decoder.old.source.known ≡ true → (size : Picture)
        → IsTooLarge options.now decoder.old.source.bytes size
        → IsErrAnd result IsOfCall }
    ensures named { decoder.old.source.known ≡ true
        → IfErr result (IsFault (header_at decoder.old.source.bytes)) }
    ensures misfit { decoder.old.source.known ≡ true → IfErr result
        (λ r. IsArgument r → IsMisfit options.now decoder.old.source.bytes) }
    ensures other { IfErr result (λ r. r ≡ NoRoom → ⊥) }
    ensures whole { IfErr result (λ r. IsPart r → ⊥) }
    ensures kept { IfErr result (λ r. (r ≡ TooLarge → ⊥) → picture.new ≡ picture.old) }
    ensures rowless { picture.old.whole_rows ≡ 0 → picture.new.whole_rows ≡ 0 }
{
    let header = read_header(decoder, options)?;
    let lines = lines_of(header.info, header.precision, header.orientation, options)?;
    *picture = picture_of(header, density, lines, options.layout);
    if exceeds_limits(options, lines, picture.components, picture.decoding_bytes) {
        return Err(Refusal::TooLarge);
    }
    Ok((header, lines))
}

/// Describes the picture of a stream by its header, and counts the bytes that were read.
pub fn describe_stream(
    alloc: Global,
    jpeg: &[u8],
    options: &Options,
    picture: &mut Picture,
) -> std::result::Result<(Header, Lines), Refusal>
    ensures { DescribesStream options.now jpeg.now picture.old picture.new result }
{
    if !are_known(options) {
        return Err(Refusal::Argument(Misuse::Of("an option doesn't exist")));
    }
    let mut decoder = decoder_of(alloc, jpeg)?;
    let density = density_of(jpeg);
    let described = describe(&mut decoder, options, density, picture);
    picture.stream_bytes = bytes_read(jpeg, &decoder);
    described
}
