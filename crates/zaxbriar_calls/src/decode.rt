//! Pictures of streams, and their planes, in the caller's memory.
ghost use Rattle.std.specs.Prelude.{◌≡◌, ◌≤◌, ◌<◌, ℕ, Some, length, map, option_map};
ghost use Rattle.std.specs.Prelude.{true, false, Err, IfErr, IfOk, IfSome, IsErrAnd, None, Ok};
ghost use Rattle.std.specs.Prelude.{OnOk};
ghost use Rattle.std.specs.List.{concat};
ghost use Rattle.jpeg_bits.specs.Reading.{Answers, Fault, IsGivenUp};
ghost use Rattle.jpeg_bits.specs.declared.error.Error.TheVariants.{OutOfMemory};
ghost use Rattle.jpeg_decoder.specs.Bytes.{AreLinesOf, IsCounted, decoding_bytes, shape_in};
ghost use Rattle.jpeg_decoder.specs.Shows.{CountsRows, Shows};
ghost use Rattle.jpeg_meaning.specs.Pixels.{info_by};
ghost use Rattle.jpeg_meaning.specs.Shown.{whole_rows_rest};
ghost use Rattle.jpeg_meaning.specs.Stream.{header_at, rest_by, told_of};
ghost use Rattle.jpeg_meaning.specs.declared.progress.Progress.TheVariants.{HeaderRead};
ghost use Rattle.zaxbriar_calls.specs.Crops.{part_rows};
ghost use Rattle.zaxbriar_calls.specs.Faults.{IsArgument, IsFault, IsOfCall, IsOfDecoder};
ghost use Rattle.zaxbriar_calls.specs.Faults.{IsOfReading, IsOfRoom, IsOwn, IsPart};
ghost use Rattle.zaxbriar_calls.specs.Given.{Brings, CountsImage, EndsImage, Gives, GivesPart};
ghost use Rattle.zaxbriar_calls.specs.Given.{HasRows, KnowsExceeded, Reaches, given_by, given_rest};
ghost use Rattle.zaxbriar_calls.specs.Given.{outcome_of, rows_by, rows_rest};
ghost use Rattle.zaxbriar_calls.specs.Layouts.{size_of_lines};
ghost use Rattle.zaxbriar_calls.specs.Outcomes.{Continues, DecodesInto, DecodesLines, room_of};
ghost use Rattle.zaxbriar_calls.specs.WrittenLines.{AreLinesFor, IsHeaderOf, WritesLines};
ghost use Rattle.zaxbriar_calls.specs.Limits.{are_known_for};
ghost use Rattle.zaxbriar_calls.specs.Lines.{HasLines};
ghost use Rattle.zaxbriar_calls.specs.Meanings.{AreWrong, CountsRead, IsTooLarge, IsWithin};
ghost use Rattle.zaxbriar_calls.specs.Meanings.{planes_rest, uncounted};
ghost use Rattle.zaxbriar_calls.specs.Passes.{exceeds_rest};
ghost use Rattle.zaxbriar_calls.specs.declared.answers.Refusal.TheVariants.{NoRoom, TooLarge};
ghost use Rattle.zaxbriar_calls.specs.declared.extents.Extent.TheVariants.{Partial, Planes};
ghost use Rattle.zaxbriar_calls.specs.declared.extents.Extent.TheVariants.{Whole};

use crate::answers::{Misuse, Refusal, refusal_of};
use crate::boxed::fit_lines;
use crate::counts::bytes_read;
use crate::crops::{part_lines, part_rows};
use crate::decoders::decoder_of;
use crate::density::density_of;
use crate::description::describe;
use crate::extents::Extent;
use crate::header::Header;
use crate::lines::{Lines, band_of, given_size, put_lines, size_of_lines, stored_line};
use crate::options::{Options, are_known_for};
use crate::picture::Picture;
use crate::planes::{fit_in, put_planes};
use jpeg_decoder::error::{Error, Result};
use jpeg_decoder::{Decoder, FedDecoder, PartialLines, SliceReader};
use std::alloc::Global;
use std::io::Read;

/// Returns the fault of a stream, or the refusal where it isn't one of the stream: for lack of
/// memory, or because of the reader.
fn stream_fault<R: Read + Drop>(
    decoder: &Decoder<R>,
    fault: Option<Error>,
) -> std::result::Result<Option<Error>, Refusal>
    ensures same { IfOk result (λ f. f ≡ fault) }
    ensures of_stream { IfOk result (λ f. IfSome f (λ e.
        (IsGivenUp e decoder.now.source.failed → ⊥) × (e ≡ OutOfMemory → ⊥))) }
    ensures call { IfErr result IsOfCall }
    ensures own { IfErr result IsOfDecoder }
{
    let Some(error) = fault else {
        return Ok(None);
    };
    match refusal_of(decoder, error) {
        Refusal::Stream(Error::OutOfMemory) => Err(Refusal::Stream(Error::OutOfMemory)),
        Refusal::Stream(error) => Ok(Some(error)),
        refusal => Err(refusal),
    }
}

/// Reads the rest of a stream as far as it goes: after what its bytes that were fed have brought
/// once and for all, if there are such.
fn show_part<'a>(
    decoder: &mut Decoder<SliceReader<'a>>,
    fed: Option<&'a FedDecoder>,
) -> Result<PartialLines>
    requires read { decoder.old.stage ≡ HeaderRead }
    requires fed { IfSome fed (λ f. IsHeaderOf f.now.bytes decoder.old) }
    ensures shows { Shows (λ p. concat p.lines) (λ p. p.fault) decoder.old result decoder.new }
    ensures rows { CountsRows (λ p. p.whole_rows)
        (whole_rows_rest decoder.old.settings.max_blocks decoder.old.found) decoder.old.source
        result decoder.new.source }
    ensures settings { decoder.new.settings ≡ decoder.old.settings }
    ensures stays { OnOk result (decoder.new.found.said.frame ≡ decoder.old.found.said.frame) }
    ensures lines { IfOk result (λ p. AreLinesOf (shape_in decoder.new) p.lines) }
    ensures counted { IfOk result (λ _. IsCounted (shape_in decoder.new)) }
{
    match fed {
        Some(fed) => fed.show_lines_by(decoder),
        None => decoder.decode_partial_lines(),
    }
}

/// Reads the rest of a stream as far as it goes, and returns its lines, how many of them are
/// complete, and its first fault: after what its bytes that were fed have brought once and for all,
/// if there are such.
pub fn read_part<'a>(
    decoder: &mut Decoder<SliceReader<'a>>,
    fed: Option<&'a FedDecoder>,
) -> std::result::Result<PartialLines, Refusal>
    requires read { decoder.old.stage ≡ HeaderRead }
    requires fed { IfSome fed (λ f. IsHeaderOf f.now.bytes decoder.old) }
    ensures stays { IfOk result
        (λ _. decoder.new.found.said.frame ≡ decoder.old.found.said.frame) }
    ensures settings { decoder.new.settings ≡ decoder.old.settings }
    ensures counted { IfOk result (λ _. IsCounted (shape_in decoder.new)) }
    ensures lines { IfOk result (λ p. AreLinesOf (shape_in decoder.new) p.lines) }
    ensures given { decoder.old.source.known ≡ true → IfOk result (λ p. Brings
        (given_rest Partial decoder.old.settings decoder.old.found decoder.old.source.bytes)
        (concat p.lines) p.fault (told_of decoder.new.found.said)) }
    ensures rows { decoder.old.source.known ≡ true → IfOk result
        (λ p. p.whole_rows ≡ rows_rest Partial decoder.old.settings decoder.old.found
        decoder.old.source.bytes) }
    ensures named { decoder.old.source.known ≡ true → IfErr result (IsFault
        (given_rest Partial decoder.old.settings decoder.old.found decoder.old.source.bytes)) }
    ensures exceeded { decoder.old.source.known ≡ true → KnowsExceeded
        (exceeds_rest Partial decoder.old.settings decoder.old.found decoder.old.source.bytes)
        result decoder.new.exceeded }
    ensures own { IfErr result IsOfDecoder }
{
    match show_part(decoder, fed) {
        Ok(partial) => match stream_fault(decoder, partial.fault) {
            Ok(fault) => Ok(PartialLines {
                lines: partial.lines,
                whole_rows: partial.whole_rows,
                fault,
            }),
            Err(refusal) => Err(refusal),
        },
        Err(error) => {
            // After a failed read the error may be that of the picture.
            if decoder.has_read_failed() {
                Err(Refusal::Reader)
            } else {
                Err(refusal_of(decoder, error))
            }
        }
    }
}

/// Reads the rest of a stream, all of it, and returns its lines. Their number isn't told.
fn read_whole<R: Read + Drop>(
    decoder: &mut Decoder<R>,
) -> std::result::Result<PartialLines, Refusal>
    requires read { decoder.old.stage ≡ HeaderRead }
    ensures stays { IfOk result
        (λ _. decoder.new.found.said.frame ≡ decoder.old.found.said.frame) }
    ensures settings { decoder.new.settings ≡ decoder.old.settings }
    ensures counted { IfOk result (λ _. IsCounted (shape_in decoder.new)) }
    ensures lines { IfOk result (λ p. AreLinesOf (shape_in decoder.new) p.lines) }
    ensures entire { IfOk result (λ p. p.fault ≡ None) }
    ensures rows { IfOk result (λ p. p.whole_rows ≡ 0) }
    ensures reads { IfOk result (λ p. Answers {X = Unit {0}}
        (λ u. (told_of decoder.new.found.said, concat p.lines))
        (rest_by decoder.old.settings decoder.old.found) decoder.old.source (Ok tt)
        decoder.new.source) }
    ensures named { decoder.old.source.known ≡ true
        → IfErr result (IsFault (rest_by decoder.old.settings decoder.old.found
        decoder.old.source.bytes)) }
    ensures exceeded { decoder.old.source.known ≡ true → KnowsExceeded
        (exceeds_rest Whole decoder.old.settings decoder.old.found decoder.old.source.bytes)
        result decoder.new.exceeded }
    ensures own { IfErr result IsOfDecoder }
{
    match decoder.decode_lines() {
        Ok(lines) => Ok(PartialLines {
            lines,
            whole_rows: 0,
            fault: None,
        }),
        Err(error) => Err(refusal_of(decoder, error)),
    }
}

/// Reads the rest of a stream, all of it, and returns the planes of its components.
fn read_planes<R: Read + Drop>(
    decoder: &mut Decoder<R>,
) -> std::result::Result<Vec<Vec<u8>>, Refusal>
    requires read { decoder.old.stage ≡ HeaderRead }
    ensures stays { IfOk result
        (λ _. decoder.new.found.said.frame ≡ decoder.old.found.said.frame) }
    ensures reads { IfOk result (λ v. Answers {X = Unit {0}}
        (λ u. (told_of decoder.new.found.said, map (λ p. p.items) v.items))
        (planes_rest decoder.old.settings decoder.old.found) decoder.old.source (Ok tt)
        decoder.new.source) }
    ensures named { decoder.old.source.known ≡ true
        → IfErr result (IsFault (planes_rest decoder.old.settings decoder.old.found
        decoder.old.source.bytes)) }
    ensures exceeded { decoder.old.source.known ≡ true → KnowsExceeded
        (exceeds_rest Planes decoder.old.settings decoder.old.found decoder.old.source.bytes)
        result decoder.new.exceeded }
    ensures own { IfErr result IsOfDecoder }
{
    match decoder.decode_planes() {
        Ok(planes) => Ok(planes),
        Err(error) => Err(refusal_of(decoder, error)),
    }
}

/// Reads the rest of a stream, all of it, or, in part, as far as it goes, and returns its lines,
/// how many of them are complete in part, and its first fault.
fn read_lines(
    decoder: &mut Decoder<SliceReader<'_>>,
    extent: Extent,
) -> std::result::Result<PartialLines, Refusal>
    requires read { decoder.old.stage ≡ HeaderRead }
    requires pictures { extent ≡ Planes → ⊥ }
    ensures stays { IfOk result
        (λ _. decoder.new.found.said.frame ≡ decoder.old.found.said.frame) }
    ensures settings { decoder.new.settings ≡ decoder.old.settings }
    ensures counted { IfOk result (λ _. IsCounted (shape_in decoder.new)) }
    ensures lines { IfOk result (λ p. AreLinesOf (shape_in decoder.new) p.lines) }
    ensures given { decoder.old.source.known ≡ true → IfOk result (λ p. Brings
        (given_rest extent decoder.old.settings decoder.old.found decoder.old.source.bytes)
        (concat p.lines) p.fault (told_of decoder.new.found.said)) }
    ensures ends { decoder.old.source.known ≡ true
        → OnOk result (EndsImage extent decoder.old decoder.new) }
    ensures rows { decoder.old.source.known ≡ true → IfOk result (λ p. p.whole_rows
        ≡ rows_rest extent decoder.old.settings decoder.old.found decoder.old.source.bytes) }
    ensures named { decoder.old.source.known ≡ true → IfErr result (IsFault
        (given_rest extent decoder.old.settings decoder.old.found decoder.old.source.bytes)) }
    ensures exceeded { decoder.old.source.known ≡ true → KnowsExceeded
        (exceeds_rest extent decoder.old.settings decoder.old.found decoder.old.source.bytes)
        result decoder.new.exceeded }
    ensures own { IfErr result IsOfDecoder }
{
    match extent {
        Extent::Whole => read_whole(decoder),
        Extent::Partial => read_part(decoder, None),
        Extent::Planes => unreachable!(),
    }
}

/// Returns how many rows of a picture are complete, as OK or beside the fault of a picture in part.
fn outcome_of(whole_rows: u16, fault: Option<Error>) -> std::result::Result<u16, Refusal>
    ensures { result ≡ outcome_of whole_rows fault }
{
    match fault {
        Some(error) => Err(Refusal::Part(error, whole_rows)),
        None => Ok(whole_rows),
    }
}

/// Writes the lines that were read of a picture to their places in the caller's memory. Returns how
/// many rows of a part are complete. The only refusal but for the fault of a part is `OutOfMemory`.
pub fn write_lines(
    alloc: Global,
    decoded: PartialLines,
    lines: Lines,
    pixels: &mut [u8],
) -> std::result::Result<u16, Refusal>
    requires picture { AreLinesFor lines decoded.lines }
    requires room { size_of_lines lines.stride lines.row_bytes lines.height ≤ length pixels.old }
    ensures { WritesLines lines decoded result pixels.old pixels.new }
{
    // After a refusal the caller's memory is as it was, so all memory is taken before.
    let mut row = stored_line(alloc, lines)?;
    let mut band = band_of(alloc, lines)?;
    let part = part_lines(alloc, decoded.lines, lines.part, lines.stored)?;
    let (info, size) = (lines.info, given_size(lines));
    let mut picture = fit_lines(alloc, part, info, lines.precision, size, lines.stored)?;
    put_lines(&mut picture, lines, &mut row, &mut band, pixels);
    outcome_of(part_rows(lines.part, decoded.whole_rows), decoded.fault)
}

/// Decodes the picture whose header was read, or the part of it that the stream brings, into its
/// lines in the caller's memory. Returns how many rows of a part are complete.
fn decode_lines(
    alloc: Global,
    decoder: &mut Decoder<SliceReader<'_>>,
    header: Header,
    lines: Lines,
    pixels: &mut [u8],
    extent: Extent,
) -> std::result::Result<u16, Refusal>
    requires read { decoder.old.stage ≡ HeaderRead }
    requires pictures { extent ≡ Planes → ⊥ }
    requires info { option_map (info_by decoder.old.settings) decoder.old.found.said.frame
        ≡ Some header.info }
    requires precision { option_map (λ f. f.precision) decoder.old.found.said.frame
        ≡ Some header.precision }
    requires bytes { option_map (decoding_bytes decoder.old.settings)
        decoder.old.found.said.frame
        ≡ Some header.decoding_bytes }
    requires lines { (options : Options) × (orientation : ℕ)
        × HasLines options header.info header.precision orientation lines }
    requires room { size_of_lines lines.stride lines.row_bytes lines.height ≤ length pixels.old }
    ensures { DecodesLines extent (size_of_lines lines.stride lines.row_bytes lines.height) lines
        result decoder.old decoder.new pixels.old pixels.new }
{
    match read_lines(decoder, extent) {
        Ok(decoded) => write_lines(alloc, decoded, lines, pixels),
        Err(refusal) => Err(refusal),
    }
}

/// Decodes the planes of the picture whose header was read into the caller's memory. No rows are
/// counted.
fn decode_planes<R: Read + Drop>(
    decoder: &mut Decoder<R>,
    samples: &mut [u8],
) -> std::result::Result<u16, Refusal>
    requires read { decoder.old.stage ≡ HeaderRead }
    ensures reaches { decoder.old.source.known ≡ true → (lines : Lines)
        → Reaches Planes lines result decoder.old decoder.new samples.old samples.new }
    ensures rows { HasRows 0 result }
    ensures named { decoder.old.source.known ≡ true → IfErr result (IsFault
        (given_rest Planes decoder.old.settings decoder.old.found decoder.old.source.bytes)) }
    ensures exceeded { decoder.old.source.known ≡ true → KnowsExceeded
        (exceeds_rest Planes decoder.old.settings decoder.old.found decoder.old.source.bytes)
        result decoder.new.exceeded }
    ensures kept { IfErr result (λ r. (IsPart r → ⊥) → samples.new ≡ samples.old) }
    ensures own { IfErr result IsOfReading }
{
    match read_planes(decoder) {
        Ok(planes) => {
            // They do: the description counts all components, of which there are four at most.
            if !fit_in(&planes, samples.len()) {
                return Err(Refusal::Stream(Error::OutOfMemory));
            }
            put_planes(&planes, samples);
            Ok(0)
        }
        Err(refusal) => Err(refusal),
    }
}

/// Decodes what is asked for of the picture whose header was read into the caller's memory. Returns
/// how many rows of a part are complete.
fn decode_asked(
    alloc: Global,
    decoder: &mut Decoder<SliceReader<'_>>,
    header: Header,
    lines: Lines,
    pixels: &mut [u8],
    extent: Extent,
) -> std::result::Result<u16, Refusal>
    requires read { decoder.old.stage ≡ HeaderRead }
    requires info { option_map (info_by decoder.old.settings) decoder.old.found.said.frame
        ≡ Some header.info }
    requires precision { option_map (λ f. f.precision) decoder.old.found.said.frame
        ≡ Some header.precision }
    requires bytes { option_map (decoding_bytes decoder.old.settings)
        decoder.old.found.said.frame
        ≡ Some header.decoding_bytes }
    requires lines { (options : Options) × (orientation : ℕ)
        × HasLines options header.info header.precision orientation lines }
    requires room { room_of extent header lines ≤ length pixels.old }
    ensures reaches { decoder.old.source.known ≡ true
        → Reaches extent lines result decoder.old decoder.new pixels.old pixels.new }
    ensures rows { decoder.old.source.known ≡ true
        → HasRows (part_rows lines.part (rows_rest extent decoder.old.settings decoder.old.found
        decoder.old.source.bytes)) result }
    ensures named { decoder.old.source.known ≡ true → IfErr result (IsFault
        (given_rest extent decoder.old.settings decoder.old.found decoder.old.source.bytes)) }
    ensures exceeded { decoder.old.source.known ≡ true → KnowsExceeded
        (exceeds_rest extent decoder.old.settings decoder.old.found decoder.old.source.bytes)
        result decoder.new.exceeded }
    ensures kept { IfErr result (λ r. (IsPart r → ⊥) → pixels.new ≡ pixels.old) }
    ensures own { IfErr result IsOfReading }
{
    match extent {
        Extent::Planes => decode_planes(decoder, pixels),
        _ => decode_lines(alloc, decoder, header, lines, pixels, extent),
    }
}

/// Returns how many bytes of the caller's memory are needed for what is asked for.
pub fn room_of(extent: Extent, header: Header, lines: Lines) -> u64
    requires row { lines.row_bytes ≤ lines.stride }
    requires stride { lines.stride ≤ 4294967296 }
    ensures { result ≡ room_of extent header lines }
{
    match extent {
        Extent::Planes => header.planes.size,
        _ => size_of_lines(lines),
    }
}

/// Decodes what is asked for of a picture that was described into the caller's memory, if it has
/// room for it. Returns how many rows of a part are complete, or why the picture is refused, as it
/// was before.
fn decode_described(
    alloc: Global,
    decoder: &mut Decoder<SliceReader<'_>>,
    described: std::result::Result<(Header, Lines), Refusal>,
    pixels: &mut [u8],
    extent: Extent,
) -> std::result::Result<u16, Refusal>
    requires read { OnOk described (decoder.old.stage ≡ HeaderRead) }
    requires info { IfOk described (λ a. option_map (info_by decoder.old.settings)
        decoder.old.found.said.frame ≡ Some a.0.info) }
    requires precision { IfOk described (λ a. option_map (λ f. f.precision)
        decoder.old.found.said.frame ≡ Some a.0.precision) }
    requires bytes { IfOk described (λ a. option_map (decoding_bytes decoder.old.settings)
        decoder.old.found.said.frame ≡ Some a.0.decoding_bytes) }
    requires lines { IfOk described
        (λ a. (options : Options) × (orientation : ℕ)
        × HasLines options a.0.info a.0.precision orientation a.1) }
    ensures { Continues extent described result decoder.old decoder.new pixels.old pixels.new }
{
    let (header, lines) = described?;
    if room_of(extent, header, lines) > pixels.len() as u64 {
        return Err(Refusal::NoRoom);
    }
    decode_asked(alloc, decoder, header, lines, pixels, extent)
}

/// Returns what is wrong with options that don't exist for what is asked for.
pub fn misuse_of(extent: Extent) -> Misuse {
    match extent {
        Extent::Planes => Misuse::Of(
            "an option doesn't exist, or not for planes, which are given as they are coded",
        ),
        _ => Misuse::Of("an option doesn't exist"),
    }
}

/// Decodes what is asked for of a stream into the caller's memory, and counts the bytes that were
/// read. Returns how many rows of a part are complete, and whether the decoder says that it refused
/// a scan for its blocks.
pub fn decode_into(
    alloc: Global,
    jpeg: &[u8],
    options: &Options,
    pixels: &mut [u8],
    picture: &mut Picture,
    extent: Extent,
) -> (std::result::Result<u16, Refusal>, bool)
    ensures { DecodesInto extent options.now jpeg.now pixels.old pixels.new picture.old picture.new
        result.0 result.1 }
{
    if !are_known_for(extent, options) {
        return (Err(Refusal::Argument(misuse_of(extent))), false);
    }
    let mut decoder = match decoder_of(alloc, jpeg) {
        Ok(decoder) => decoder,
        Err(error) => return (Err(Refusal::from(error)), false),
    };
    let density = density_of(jpeg);
    let described = describe(&mut decoder, options, density, picture);
    let decoded = decode_described(alloc, &mut decoder, described, pixels, extent);
    picture.stream_bytes = bytes_read(jpeg, &decoder);
    (decoded, decoder.has_exceeded_max_blocks())
}
