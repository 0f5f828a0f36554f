//! The metadata of a header or of a whole image.
ghost use Rattle.std.specs.Prelude.{◌≡◌, ◌<◌, ◌≤◌, suc, length, None, true, false};
ghost use Rattle.std.specs.Prelude.{IfErr, IfOk, IsOk, OnErr, OnOk};
ghost use Rattle.jpeg_bits.specs.Reading.{IsGivenUp, Names};
ghost use Rattle.jpeg_meaning.specs.Output.{default_settings};
ghost use Rattle.jpeg_meaning.specs.Reported.{told_in_turns};
ghost use Rattle.jpeg_meaning.specs.declared.progress.Progress.TheVariants.{Fresh, HeaderRead};
ghost use Rattle.jpeg_meaning.specs.States.{IsOfBytes, OnTold};
ghost use Rattle.jpeg_meaning.specs.Stream.{rest_by, told_of};
ghost use Rattle.zaxbriar_calls.specs.Faults.{IsNamed};
ghost use Rattle.zaxbriar_calls.specs.Limits.{blocks_of_passes};
ghost use Rattle.zaxbriar_calls.specs.Metadata.{IsCopied, IsLonger, IsNoKind, end_at, is_whole};
ghost use Rattle.zaxbriar_calls.specs.Metadata.{kind_alone, metadata_of, said_of, told_at};

use crate::answers::{BAD_ARGUMENT, NO_DATA, TRUNCATED, code_of, refusal_of};
use crate::copying::copy_data;
use crate::decoders::decoder_of;
use crate::options::blocks_of_passes;
use jpeg_decoder::Decoder;
use jpeg_decoder::error::Result;
use std::alloc::Global;
use std::io::Read;

/// What is added to a kind that asks for the segments of a whole image.
const WHOLE_IMAGE: u32 = 16;

/// Returns whether a kind asks for the segments of a whole image.
fn is_whole(kind: u32) -> bool
    ensures { result ≡ is_whole kind }
{
    kind >= WHOLE_IMAGE
}

/// Returns a kind without `WHOLE_IMAGE`.
fn kind_alone(kind: u32) -> u32
    ensures { result ≡ kind_alone kind }
{
    if is_whole(kind) {
        kind - WHOLE_IMAGE
    } else {
        kind
    }
}

/// Returns whether a kind doesn't exist.
pub fn is_no_kind(kind: u32) -> bool
    ensures none { result ≡ true → IsNoKind kind }
    ensures some { result ≡ false → IsNoKind kind → ⊥ }
{
    let alone = kind_alone(kind);
    alone == 0 || alone > 3
}

/// Copies an ICC profile if there is one and it fits.
fn copy_profile<R: Read + Drop>(
    decoder: &Decoder<R>,
    buffer: &mut [u8],
    count: &mut u64,
) -> Result<u32>
    ensures copied { IfOk result (λ code. code ≡ 0
        → IsCopied (metadata_of 3 decoder.now.found.said.metadata) buffer.old buffer.new
        count.new) }
    ensures none { IfOk result (λ code. code ≡ 7
        → metadata_of 3 decoder.now.found.said.metadata ≡ None) }
    ensures room { IfOk result (λ code. code ≡ 5
        → IsLonger (metadata_of 3 decoder.now.found.said.metadata) (length buffer.old)
        count.new) }
    ensures own { IfOk result (λ code. code < 4 → code ≡ 0) }
    ensures known { IfOk result (λ code. code ≡ 6 → ⊥) }
    ensures most { IfOk result (λ code. code ≤ 7) }
    ensures uncounted { IfOk result (λ code. (code ≡ 0 → ⊥) → (code ≡ 5 → ⊥)
        → count.new ≡ count.old) }
    ensures kept { IfOk result (λ code. (code ≡ 0 → ⊥) → buffer.new ≡ buffer.old) }
    ensures failed { OnErr result (buffer.new ≡ buffer.old) }
    ensures memory { OnErr result (count.new ≡ count.old) }
{
    match decoder.icc_profile()? {
        Some(profile) => Ok(copy_data(Some(profile.as_slice()), buffer, count)),
        None => Ok(NO_DATA),
    }
}

/// Copies what a decoder knows of a kind of metadata: 1 Exif, 2 XMP, 3 an ICC profile.
fn copy_kind<R: Read + Drop>(
    decoder: &Decoder<R>,
    kind: u32,
    buffer: &mut [u8],
    count: &mut u64,
) -> Result<u32>
    ensures copied { IfOk result (λ code. code ≡ 0
        → IsCopied (metadata_of kind decoder.now.found.said.metadata) buffer.old buffer.new
        count.new) }
    ensures none { IfOk result (λ code. code ≡ 7
        → metadata_of kind decoder.now.found.said.metadata ≡ None) }
    ensures room { IfOk result (λ code. code ≡ 5
        → IsLonger (metadata_of kind decoder.now.found.said.metadata) (length buffer.old)
        count.new) }
    ensures own { IfOk result (λ code. code < 4 → code ≡ 0) }
    ensures known { IfOk result (λ code. 0 < kind → kind < 4 → code ≡ 6 → ⊥) }
    ensures most { IfOk result (λ code. code ≤ 7) }
    ensures uncounted { IfOk result (λ code. (code ≡ 0 → ⊥) → (code ≡ 5 → ⊥)
        → count.new ≡ count.old) }
    ensures kept { IfOk result (λ code. (code ≡ 0 → ⊥) → buffer.new ≡ buffer.old) }
    ensures failed { OnErr result (buffer.new ≡ buffer.old) }
    ensures memory { OnErr result (count.new ≡ count.old) }
{
    match kind {
        1 => Ok(copy_data(decoder.exif_data(), buffer, count)),
        2 => Ok(copy_data(decoder.xmp_data(), buffer, count)),
        3 => copy_profile(decoder, buffer, count),
        _ => Ok(BAD_ARGUMENT),
    }
}

/// Reads the rest of an image, whose lines aren't kept, after its header. Its scans may go this
/// many times over its picture; 0 for any number.
fn read_scans<R: Read + Drop>(decoder: &mut Decoder<R>, max_passes: u64) -> Result<()>
    requires read { decoder.old.stage ≡ HeaderRead }
    ensures told { OnTold decoder.old.source decoder.new.source result
        (told_of decoder.new.found.said ≡ told_in_turns (blocks_of_passes max_passes
        decoder.old.found.said.frame) (suc (length decoder.old.source.bytes)) false
        decoder.old.found decoder.old.source.bytes) }
    ensures ends { decoder.old.source.known ≡ true → OnOk result (IsOk (rest_by
        (record decoder.old.settings
        { max_blocks = blocks_of_passes max_passes decoder.old.found.said.frame })
        decoder.old.found decoder.old.source.bytes)) }
    ensures named { decoder.old.source.known ≡ true → IfErr result
        (λ e. decoder.new.source.known ≡ true → Names e (rest_by
        (record decoder.old.settings
        { max_blocks = blocks_of_passes max_passes decoder.old.found.said.frame })
        decoder.old.found decoder.old.source.bytes)) }
    ensures given_up { decoder.old.source.known ≡ true → IfErr result
        (λ e. decoder.new.source.known ≡ false → IsGivenUp e decoder.new.source.failed) }
    ensures own { IfErr result IsOfBytes }
{
    let max_blocks = blocks_of_passes(decoder, max_passes);
    decoder.set_max_blocks(max_blocks);
    decoder.decode_lines()?;
    Ok(())
}

/// Reads a whole image with so many passes, or its header alone.
fn read_through<R: Read + Drop>(
    decoder: &mut Decoder<R>,
    whole: bool,
    max_passes: u64,
) -> Result<()>
    requires fresh { decoder.old.stage ≡ Fresh }
    requires plain { decoder.old.settings ≡ default_settings }
    ensures told { OnTold decoder.old.source decoder.new.source result
        (told_of decoder.new.found.said
        ≡ told_at max_passes whole decoder.old.source.bytes) }
    ensures whole { decoder.old.source.known ≡ true
        → OnOk result (IsOk (end_at max_passes whole decoder.old.source.bytes)) }
    ensures named { decoder.old.source.known ≡ true → IfErr result
        (λ e. decoder.new.source.known ≡ true
        → Names e (end_at max_passes whole decoder.old.source.bytes)) }
    ensures given_up { decoder.old.source.known ≡ true → IfErr result
        (λ e. decoder.new.source.known ≡ false → IsGivenUp e decoder.new.source.failed) }
    ensures own { IfErr result IsOfBytes }
{
    decoder.read_info()?;
    if whole {
        read_scans(decoder, max_passes)?;
    }
    Ok(())
}

/// Reads a whole image with so many passes, or its header alone, also one that is refused, and
/// returns the number of a call that finds no data in it. Where memory or the reader fails, that
/// number is the error.
fn read_told<R: Read + Drop>(
    decoder: &mut Decoder<R>,
    whole: bool,
    max_passes: u64,
) -> std::result::Result<u32, u32>
    requires fresh { decoder.old.stage ≡ Fresh }
    requires plain { decoder.old.settings ≡ default_settings }
    ensures told { decoder.old.source.known ≡ true → OnOk result (told_of decoder.new.found.said
        ≡ told_at max_passes whole decoder.old.source.bytes) }
    ensures named { decoder.old.source.known ≡ true
        → IfOk result (λ code. IsNamed code (end_at max_passes whole decoder.old.source.bytes)) }
    ensures whole { decoder.old.source.known ≡ true
        → IfOk result (λ code. code ≡ 7 → IsOk (end_at max_passes whole decoder.old.source.bytes)) }
    ensures fails { IfOk result (λ code. (code ≡ 0 → ⊥) × (code ≡ 5 → ⊥) × (code ≡ 6 → ⊥)) }
    ensures most { IfOk result (λ code. code ≤ 7) }
    ensures other { IfErr result (λ code. code ≡ 4) }
{
    let Err(error) = read_through(decoder, whole, max_passes) else {
        return Ok(NO_DATA);
    };
    let code = code_of(&refusal_of(decoder, error));
    if code <= TRUNCATED {
        Ok(code)
    } else {
        Err(code)
    }
}

/// Reads a stream, and copies its metadata of a kind, of its header or of the whole image. The only
/// error is `OutOfMemory`.
fn copy_told<R: Read + Drop>(
    decoder: &mut Decoder<R>,
    kind: u32,
    max_passes: u64,
    buffer: &mut [u8],
    count: &mut u64,
) -> Result<u32>
    requires fresh { decoder.old.stage ≡ Fresh }
    requires plain { decoder.old.settings ≡ default_settings }
    requires known { decoder.old.source.known ≡ true }
    ensures copied { IfOk result (λ code. code ≡ 0
        → IsCopied (said_of max_passes kind decoder.old.source.bytes) buffer.old buffer.new
        count.new) }
    ensures none { IfOk result (λ code. code ≡ 7
        → (said_of max_passes kind decoder.old.source.bytes ≡ None)
        × IsOk (end_at max_passes (is_whole kind) decoder.old.source.bytes)) }
    ensures room { IfOk result (λ code. code ≡ 5
        → IsLonger (said_of max_passes kind decoder.old.source.bytes) (length buffer.old)
        count.new) }
    ensures named { IfOk result
        (λ code. IsNamed code (end_at max_passes (is_whole kind) decoder.old.source.bytes)) }
    ensures known { IfOk result (λ code. code ≡ 6 → IsNoKind kind) }
    ensures most { IfOk result (λ code. code ≤ 7) }
    ensures unsaid { IfOk result
        (λ code. 0 < code → code < 4 → said_of max_passes kind decoder.old.source.bytes ≡ None) }
    ensures uncounted { IfOk result (λ code. (code ≡ 0 → ⊥) → (code ≡ 5 → ⊥)
        → count.new ≡ count.old) }
    ensures kept { IfOk result (λ code. (code ≡ 0 → ⊥) → buffer.new ≡ buffer.old) }
    ensures failed { OnErr result (buffer.new ≡ buffer.old) }
    ensures memory { OnErr result (count.new ≡ count.old) }
{
    let missing = match read_told(decoder, is_whole(kind), max_passes) {
        Ok(code) => code,
        Err(code) => return Ok(code),
    };
    let code = copy_kind(decoder, kind_alone(kind), buffer, count)?;
    Ok(if code == NO_DATA { missing } else { code })
}

/// Copies metadata of a kind, of a header or of a whole image, whose scans may go this many times
/// over its picture; 0 for any number. The only error is `OutOfMemory`.
pub fn read_metadata(
    alloc: Global,
    jpeg: &[u8],
    kind: u32,
    max_passes: u64,
    buffer: &mut [u8],
    count: &mut u64,
) -> Result<u32>
    ensures copied { IfOk result (λ code. code ≡ 0
        → IsCopied (said_of max_passes kind jpeg.now) buffer.old buffer.new count.new) }
    ensures none { IfOk result (λ code. code ≡ 7
        → (said_of max_passes kind jpeg.now ≡ None)
        × IsOk (end_at max_passes (is_whole kind) jpeg.now)) }
    ensures room { IfOk result (λ code. code ≡ 5
        → IsLonger (said_of max_passes kind jpeg.now) (length buffer.old) count.new) }
    ensures named { IfOk result
        (λ code. IsNamed code (end_at max_passes (is_whole kind) jpeg.now)) }
    ensures known { IfOk result (λ code. code ≡ 6 → IsNoKind kind) }
    ensures most { IfOk result (λ code. code ≤ 7) }
    ensures unsaid { IfOk result
        (λ code. 0 < code → code < 4 → said_of max_passes kind jpeg.now ≡ None) }
    ensures uncounted { IfOk result (λ code. (code ≡ 0 → ⊥) → (code ≡ 5 → ⊥)
        → count.new ≡ count.old) }
    ensures kept { IfOk result (λ code. (code ≡ 0 → ⊥) → buffer.new ≡ buffer.old) }
    ensures failed { OnErr result (buffer.new ≡ buffer.old) }
    ensures memory { OnErr result (count.new ≡ count.old) }
{
    let mut decoder = decoder_of(alloc, jpeg)?;
    copy_told(&mut decoder, kind, max_passes, buffer, count)
}
