//! Streams that arrive in pieces.
ghost use Rattle.std.specs.Prelude.{◌≡◌, ◌++◌, ℕ, IfErr, IfOk, IfSome, OnErr, OnOk, Some, []};
ghost use Rattle.std.specs.Prelude.{option_map, true};
ghost use Rattle.jpeg_bits.specs.declared.error.Error.TheVariants.{OutOfMemory};
ghost use Rattle.jpeg_meaning.specs.Pixels.{info_by};
ghost use Rattle.jpeg_meaning.specs.declared.progress.Progress.TheVariants.{HeaderRead};
ghost use Rattle.zaxbriar_calls.specs.Limits.{are_known, is_full_size};
ghost use Rattle.zaxbriar_calls.specs.Lines.{HasLines};
ghost use Rattle.zaxbriar_calls.specs.Outcomes.{Continues, DecodesInto};
ghost use Rattle.zaxbriar_calls.specs.WrittenLines.{IsHeaderOf};
ghost use Rattle.zaxbriar_calls.specs.declared.extents.Extent.TheVariants.{Partial};

use crate::answers::Refusal;
use crate::counts::bytes_read;
use crate::decode::{misuse_of, read_part, room_of, write_lines};
use crate::decoders::decoder_of;
use crate::density::density_of;
use crate::description::describe;
use crate::extents::Extent;
use crate::header::Header;
use crate::lines::Lines;
use crate::options::{Options, are_known, blocks_of_passes, is_full_size};
use crate::picture::{NO_PICTURE, Picture};
use jpeg_decoder::error::Result;
use jpeg_decoder::{Decoder, FedDecoder, SliceReader};
use std::alloc::Global;
use std::marker::Model;

/// A stream that arrives in pieces, and how it is to be decoded.
#[derive(Drop)]
pub struct FedStream {
    options: Options,
    fed: FedDecoder,
}

impl Model for FedStream {
    ghost use Rattle.zaxbriar_calls.specs.Arrived.{Arrived};

    ghost Value = { Arrived };

    ghost view = { λ s. record { options = s.options; bytes = s.fed.bytes } };
}

/// Returns a decoder that has read the header of some bytes, if what they bring of its picture is
/// going to be shown: options that limit it, or memory that is too short for it, prevent that.
fn decoder_to_show<'a>(
    alloc: Global,
    jpeg: &'a [u8],
    options: &Options,
    room: usize,
) -> Result<Option<Decoder<SliceReader<'a>>>>
    ensures read { IfOk result (λ o. IfSome o (λ d. d.stage ≡ HeaderRead)) }
    ensures memory { IfErr result (λ e. e ≡ OutOfMemory) }
{
    let mut decoder = decoder_of(alloc, jpeg)?;
    let mut picture = NO_PICTURE;
    match describe(&mut decoder, options, density_of(jpeg), &mut picture) {
        Ok((header, lines)) => {
            if room_of(Extent::Partial, header, lines) > room as u64 {
                return Ok(None);
            }
            Ok(Some(decoder))
        }
        Err(_) => Ok(None),
    }
}

/// Reads each segment and each whole scan that has arrived, once and for all, if what they bring is
/// going to be shown at full size.
fn read_on(alloc: Global, fed: &mut FedDecoder, options: &Options, room: usize) -> Result<()>
    ensures bytes { fed.new.bytes ≡ fed.old.bytes }
    ensures memory { IfErr result (λ e. e ≡ OutOfMemory) }
{
    if !is_full_size(options) {
        return Ok(());
    }
    let max_blocks = match decoder_to_show(alloc, fed.bytes(), options, room)? {
        Some(decoder) => blocks_of_passes(&decoder, options.max_passes),
        None => return Ok(()),
    };
    fed.set_max_blocks(max_blocks);
    fed.read_on()
}

/// Decodes what the bytes bring of a picture that was described into the caller's memory, if it has
/// room for it, after what was read once and for all of those that were fed, if there are such.
/// Returns how many rows are complete, or why the picture is refused, as it was before.
fn show_described<'a>(
    alloc: Global,
    decoder: &mut Decoder<SliceReader<'a>>,
    described: std::result::Result<(Header, Lines), Refusal>,
    pixels: &mut [u8],
    fed: Option<&'a FedDecoder>,
) -> std::result::Result<u16, Refusal>
    requires read { OnOk described (decoder.old.stage ≡ HeaderRead) }
    requires fed { OnOk described (IfSome fed (λ f. IsHeaderOf f.now.bytes decoder.old)) }
    requires info { IfOk described (λ a. option_map (info_by decoder.old.settings)
        decoder.old.found.said.frame ≡ Some a.0.info) }
    requires precision { IfOk described (λ a. option_map (λ f. f.precision)
        decoder.old.found.said.frame ≡ Some a.0.precision) }
    requires lines { IfOk described
        (λ a. (options : Options) × (orientation : ℕ)
        × HasLines options a.0.info a.0.precision orientation a.1) }
    ensures { Continues Partial described result decoder.old decoder.new pixels.old pixels.new }
{
    let (header, lines) = described?;
    if room_of(Extent::Partial, header, lines) > pixels.len() as u64 {
        return Err(Refusal::NoRoom);
    }
    match read_part(decoder, fed) {
        Ok(decoded) => write_lines(alloc, decoded, lines, pixels),
        Err(refusal) => Err(refusal),
    }
}

/// Returns what was read once and for all of the bytes, where the picture has its full size.
fn to_go_on<'a>(fed: &'a FedDecoder, options: &Options) -> Option<&'a FedDecoder>
    ensures { IfSome result
        (λ f. (f.now.bytes ≡ fed.now.bytes) × (is_full_size options.now ≡ true)) }
{
    if is_full_size(options) {
        Some(fed)
    } else {
        None
    }
}

/// Decodes what the bytes bring into the caller's memory, after they were read on.
fn show_read(
    alloc: Global,
    fed: &FedDecoder,
    options: &Options,
    pixels: &mut [u8],
    picture: &mut Picture,
) -> (std::result::Result<u16, Refusal>, bool)
    requires known { are_known options.now ≡ true }
    ensures { DecodesInto Partial options.now fed.now.bytes pixels.old pixels.new picture.old
        picture.new result.0 result.1 }
{
    let jpeg = fed.bytes();
    let mut decoder = match decoder_of(alloc, jpeg) {
        Ok(decoder) => decoder,
        Err(error) => return (Err(Refusal::from(error)), false),
    };
    let density = density_of(jpeg);
    let described = describe(&mut decoder, options, density, picture);
    let read = to_go_on(fed, options);
    let decoded = show_described(alloc, &mut decoder, described, pixels, read);
    picture.stream_bytes = bytes_read(jpeg, &decoder);
    (decoded, decoder.has_exceeded_max_blocks())
}

impl FedStream {
    /// Begins a stream of which there are no bytes yet.
    pub fn new(alloc: Global, options: &Options) -> FedStream
        ensures { result ≡ record { options = options.now; bytes = [] } }
    {
        FedStream {
            options: *options,
            fed: FedDecoder::new(alloc),
        }
    }

    /// Returns how it is to be decoded.
    pub fn options(&self) -> &Options
        ensures { result.now ≡ self.now.options }
    {
        &self.options
    }

    /// Returns all bytes that were fed.
    pub fn bytes(&self) -> &[u8]
        ensures { result.now ≡ self.now.bytes }
    {
        self.fed.bytes()
    }

    /// Takes the next bytes. The only error is `OutOfMemory`, in which case none of them were
    /// taken.
    pub fn feed(&mut self, piece: &[u8]) -> Result<()>
        ensures fed { OnOk result
            (self.new ≡ record self.old { bytes = self.old.bytes ++ piece.now }) }
        ensures unfed { OnErr result (self.new ≡ self.old) }
        ensures memory { IfErr result (λ e. e ≡ OutOfMemory) }
    {
        self.fed.feed(piece)
    }

    /// Decodes what the bytes bring into the caller's memory, as `decode_into` does of all of them
    /// in part. Returns how many rows of a part are complete, and whether the decoder says that it
    /// refused a scan for its blocks.
    ///
    /// Each segment and each whole scan is read once, at full size: later calls go on after them.
    pub fn show_into(
        &mut self,
        alloc: Global,
        pixels: &mut [u8],
        picture: &mut Picture,
    ) -> (std::result::Result<u16, Refusal>, bool)
        ensures shows { DecodesInto Partial self.old.options self.old.bytes pixels.old pixels.new
            picture.old picture.new result.0 result.1 }
        ensures same { self.new ≡ self.old }
    {
        let options = self.options;
        if !are_known(&options) {
            return (Err(Refusal::Argument(misuse_of(Extent::Partial))), false);
        }
        if let Err(error) = read_on(alloc, &mut self.fed, &options, pixels.len()) {
            return (Err(Refusal::from(error)), false);
        }
        show_read(alloc, &self.fed, &options, pixels, picture)
    }
}
