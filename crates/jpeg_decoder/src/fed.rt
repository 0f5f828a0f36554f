//! A decoder that is fed the bytes of a stream in pieces, as they arrive.
ghost use Rattle.std.specs.Prelude.{◌≡◌, ◌⊎◌, ◌++◌, Ok, Some, MatchResult, IfErr, IfOk, OnErr};
ghost use Rattle.std.specs.Prelude.{IfSome, IsSomeAnd, OnOk, [], false, is_some, option_map, true};
ghost use Rattle.std.specs.Prelude.{◌≤◌, ◌<◌, ◌+◌, ◌^◌, drop, length};
ghost use Rattle.std.specs.List.{concat};
ghost use Rattle.jpeg_bits.specs.Reading.{IsGivenUp, Names};
ghost use Rattle.jpeg_bits.specs.declared.error.Error.TheVariants.{OutOfMemory};
ghost use Rattle.jpeg_meaning.specs.Output.{default_settings};
ghost use Rattle.jpeg_meaning.specs.Pixels.{info_by};
ghost use Rattle.jpeg_meaning.specs.Shown.{shown_rest_within, whole_rows_rest};
ghost use Rattle.jpeg_meaning.specs.Stream.{header_at, told_of};
ghost use Rattle.jpeg_meaning.specs.declared.progress.Progress.TheVariants.{Fresh, HeaderRead};
ghost use Rattle.jpeg_decoder.specs.Bytes.{AreLinesOf, IsCounted, IsWhole, shape_in};
ghost use Rattle.jpeg_decoder.specs.Fed.{IsAt, ShowsFed, fed_by, frame_of, shape_fed};
ghost use Rattle.jpeg_decoder.specs.Shows.{CountsRows, IsShown, Shows};

pub(crate) mod checkpoint;
pub(crate) mod lookahead;
pub(crate) mod sources;

use crate::decoder::{Decoder, PartialPicture};
use crate::fed::checkpoint::{Checkpoint, move_on};
use crate::fed::sources::READ_AHEAD;
use crate::picture::partial::PartialLines;
use jpeg_bits::color_transform::ColorTransform;
use jpeg_bits::error::{Error, Result};
use jpeg_bits::source::slice_reader::SliceReader;
use jpeg_meaning::images::ImageInfo;
use jpeg_meaning::settings::Settings;
use std::alloc::Global;
use std::io::Read;
use std::marker::Model;

/// Returns whether a reader, of which a read has failed or not, was given up before this refusal or
/// fault.
fn is_given_up(has_failed: bool, fault: &Error) -> bool
    ensures failed { result ≡ false → has_failed ≡ false }
    ensures given { result ≡ false → IsGivenUp fault.now has_failed → ⊥ }
{
    match fault {
        Error::Format(text) => text.is_empty() || has_failed,
        _ => has_failed,
    }
}

/// Returns an error of a reader of bytes in memory, of which a read has failed or not. It isn't given
/// up: where it is all the same, that counts as a lack of memory.
pub(crate) fn error_of_bytes(has_failed: bool, error: Error) -> Error
    ensures { (result ≡ OutOfMemory)
        ⊎ ((result ≡ error) × (IsGivenUp error has_failed → ⊥)) }
{
    if is_given_up(has_failed, &error) {
        return Error::OutOfMemory;
    }
    error
}

/// Reads the header of bytes in memory. Their reader isn't given up: where it is all the same, it
/// counts as a lack of memory.
fn read_header<R: Read + Drop>(decoder: &mut Decoder<R>) -> Result<()>
    requires fresh { decoder.old.stage ≡ Fresh }
    requires known { decoder.old.source.known ≡ true }
    ensures stage { OnOk result (decoder.new.stage ≡ HeaderRead) }
    ensures known { OnOk result (decoder.new.source.known ≡ true) }
    ensures reads { OnOk result (header_at decoder.old.source.bytes
        ≡ Ok (decoder.new.found, decoder.new.source.bytes)) }
    ensures settings { decoder.new.settings ≡ decoder.old.settings }
    ensures err { IfErr result (λ e. Names e (header_at decoder.old.source.bytes)) }
{
    match decoder.read_info() {
        Ok(()) => Ok(()),
        Err(error) => {
            if is_given_up(decoder.has_read_failed(), &error) {
                return Err(Error::OutOfMemory);
            }
            Err(error)
        }
    }
}

/// Returns what is told of the picture of bytes in memory, if their header can be read.
fn info_of<R: Read + Drop>(decoder: &mut Decoder<R>) -> Result<Option<ImageInfo>>
    requires fresh { decoder.old.stage ≡ Fresh }
    requires known { decoder.old.source.known ≡ true }
    ensures { MatchResult result (λ o. o
        ≡ option_map (info_by decoder.old.settings) (frame_of decoder.old.source.bytes))
        (λ e. e ≡ OutOfMemory) }
{
    match read_header(decoder) {
        Ok(()) => Ok(decoder.info()),
        Err(Error::OutOfMemory) => Err(Error::OutOfMemory),
        Err(_) => Ok(None),
    }
}

/// Returns whether a reader, of which a read has failed or not, was given up before it has shown
/// what there is.
fn is_lost(has_failed: bool, shown: &Result<PartialLines>) -> bool
    ensures fault { IfOk shown.now (λ p. result ≡ false
        → IsSomeAnd p.fault (λ e. IsGivenUp e has_failed) → ⊥) }
    ensures failed { IfErr shown.now (λ e. result ≡ false → has_failed ≡ false) }
    ensures given { IfErr shown.now (λ e. result ≡ false → IsGivenUp e has_failed → ⊥) }
{
    match shown {
        Ok(partial) => match &partial.fault {
            Some(fault) => is_given_up(has_failed, fault),
            None => false,
        },
        Err(error) => is_given_up(has_failed, error),
    }
}

/// Returns the bytes after the first ones, of which there are at least two.
fn bytes_after(bytes: &[u8], offset: usize) -> &[u8]
    requires begun { 2 ≤ offset }
    requires within { offset ≤ length bytes.now }
    ensures rest { result.now ≡ drop offset bytes.now }
    ensures short { length result.now + 1 < 2 ^ 64 }
{
    bytes.split_at(offset).1
}

/// Returns whether two limits on blocks are the same.
fn is_same_limit(limit: Option<u64>, other: Option<u64>) -> bool
    ensures { result ≡ true → limit ≡ other }
{
    limit == other
}

/// Takes the bytes of a stream in pieces, as they arrive, and shows at any time what they have
/// brought so far. It keeps all bytes.
///
///     let mut decoder = FedDecoder::new(alloc);
///     while let Some(piece) = connection.receive()? {
///         decoder.feed(&piece)?;
///         if let Ok(shown) = decoder.show() {
///             view.draw(decoder.info()?, &shown.pixels, shown.whole_rows)?;
///         }
///     }
#[derive(Drop)]
pub struct FedDecoder {
    alloc: Global,
    settings: Settings,
    bytes: Vec<u8>,
    /// How far the bytes were read once and for all, if they begin with the start of a stream.
    checkpoint: Option<Checkpoint>,
    /// Where a segment or a scan stands that has a fault: no checkpoint is moved over it.
    stop: usize,
}

impl Model for FedDecoder {
    ghost use Rattle.std.specs.Prelude.{IfSome};
    ghost use Rattle.jpeg_decoder.specs.Fed.{FedState, IsAt};

    ghost Value = { FedState };

    ghost view = { λ d. record { settings = d.settings; bytes = d.bytes.items } };

    // The checkpoint is one of the bytes, and of the limit on blocks.
    ghost invariant = { λ d. IfSome d.checkpoint
        (λ c. IsAt d.settings.max_blocks d.bytes.items c) };
}

impl FedDecoder {
    /// Makes a decoder that has no bytes yet.
    pub fn new(alloc: Global) -> FedDecoder
        ensures { result ≡ record { settings = default_settings; bytes = [] } }
    {
        FedDecoder {
            alloc,
            settings: Settings {
                limit: usize::MAX,
                color_transform: None,
                max_blocks: None,
                luma: false,
            },
            bytes: Vec::new(alloc),
            checkpoint: None,
            stop: usize::MAX,
        }
    }

    /// Sets the colour transform, as [`Decoder::set_color_transform`] does.
    pub fn set_color_transform(&mut self, transform: ColorTransform)
        ensures { self.new ≡ record self.old {
          settings = record self.old.settings
              { color_transform = Some transform };
        } }
    {
        self.settings.color_transform = Some(transform);
    }

    /// Sets whether the picture is the luma alone, as [`Decoder::set_luma`] does.
    pub fn set_luma(&mut self, luma: bool)
        ensures { self.new ≡ record self.old {
          settings = record self.old.settings
              { luma = luma };
        } }
    {
        self.settings.luma = luma;
    }

    /// Sets how many samples a picture may have, as [`Decoder::set_max_decoding_buffer_size`] does.
    pub fn set_max_decoding_buffer_size(&mut self, max: usize)
        ensures { self.new ≡ record self.old {
          settings = record self.old.settings
              { limit = max };
        } }
    {
        self.settings.limit = max;
    }

    /// Sets how many blocks the scans of the stream may code, as [`Decoder::set_max_blocks`] does:
    /// all scans of the bytes together, however often they are shown.
    pub fn set_max_blocks(&mut self, max: Option<u64>)
        ensures { self.new ≡ record self.old {
          settings = record self.old.settings
              { max_blocks = max };
        } }
    {
        if !is_same_limit(max, self.settings.max_blocks) {
            self.checkpoint = None;
            self.stop = usize::MAX;
        }
        self.settings.max_blocks = max;
    }

    /// Takes the next bytes of the stream. The only error is `OutOfMemory`, in which case none of
    /// them were taken, so that they can be fed again.
    pub fn feed(&mut self, piece: &[u8]) -> Result<()>
        // The bytes come after those that were fed before.
        ensures fed { OnOk result
            (self.new ≡ record self.old { bytes = self.old.bytes ++ piece.now }) }

        // After an error nothing has changed.
        ensures unfed { OnErr result (self.new ≡ self.old) }
        ensures err { IfErr result (λ e. e ≡ OutOfMemory) }
    {
        self.bytes.extend_from_slice(piece)?;
        Ok(())
    }

    /// Returns all bytes that were fed.
    pub fn bytes(&self) -> &[u8]
        ensures { result.now ≡ self.now.bytes }
    {
        &self.bytes
    }

    /// Returns a decoder of all bytes that were fed.
    fn decoder(&self) -> Result<Decoder<SliceReader<'_>>>
        ensures stage { IfOk result (λ d. d.stage ≡ Fresh) }
        ensures known { IfOk result (λ d. d.source.known ≡ true) }
        ensures fed { IfOk result (λ d. fed_by d ≡ self.now) }
        ensures err { IfErr result (λ e. e ≡ OutOfMemory) }
    {
        let bytes = self.bytes.as_slice();
        let capacity = bytes.len().min(READ_AHEAD);
        let reader = SliceReader::new(bytes);
        let mut decoder = Decoder::with_capacity(self.alloc, capacity, reader)?;
        decoder.set_all(self.settings);
        Ok(decoder)
    }

    /// Returns the size and the format of the picture by the settings, as [`Decoder::info`] does,
    /// or `None` where the header can't be read: it isn't complete yet, or has a fault. The header
    /// is read anew by each call. The only error is `OutOfMemory`.
    pub fn info(&self) -> Result<Option<ImageInfo>>
        ensures { MatchResult result (λ o. o
            ≡ option_map (info_by self.now.settings) (frame_of self.now.bytes))
            (λ e. e ≡ OutOfMemory) }
    {
        info_of(&mut self.decoder()?)
    }

    /// Reads each segment and each whole scan that has arrived, once and for all, so that what is
    /// shown from then on begins after them. The only error is `OutOfMemory`, after which they are
    /// read again.
    pub fn read_on(&mut self) -> Result<()>
        // The settings and the bytes stay.
        ensures same { self.new ≡ self.old }
        ensures err { IfErr result (λ e. e ≡ OutOfMemory) }
    {
        let from = self.checkpoint.take();
        let most = self.settings.max_blocks;
        self.checkpoint = move_on(self.alloc, &self.bytes, most, from, &mut self.stop)?;
        Ok(())
    }

    /// Returns the checkpoint, if it stands after the header and is one for this limit on blocks.
    fn checkpoint_within(&self, max_blocks: Option<u64>) -> Option<&Checkpoint>
        ensures at { IfSome result (λ c. IsAt max_blocks self.now.bytes c.now) }
        ensures framed { IfSome result (λ c. is_some c.now.state.said.frame ≡ true) }
    {
        let checkpoint = self.checkpoint.as_ref()?;
        if checkpoint.state.said.frame.is_none() {
            return None;
        }
        if !is_same_limit(self.settings.max_blocks, max_blocks) {
            return None;
        }
        Some(checkpoint)
    }

    /// Returns what [`Decoder::decode_partial_lines`] of this decoder returns, and leaves it as
    /// that does. It has to be a decoder of all bytes that were fed, which has read the header and
    /// wasn't scaled; its settings count. What `read_on` has read isn't read again if both have the
    /// same limit on blocks.
    pub fn show_lines_by<'a>(
        &'a self,
        decoder: &mut Decoder<SliceReader<'a>>,
    ) -> Result<PartialLines>
        requires stage { decoder.old.stage ≡ HeaderRead }
        requires known { decoder.old.source.known ≡ true }
        requires header { header_at self.now.bytes
            ≡ Ok (decoder.old.found, decoder.old.source.bytes) }

        // What the bytes after the header bring, and the state: see `Shows`.
        ensures shows { Shows (λ p. concat p.lines) (λ p. p.fault) decoder.old result decoder.new }

        // It counts the complete rows of the picture.
        ensures rows { CountsRows (λ p. p.whole_rows)
            (whole_rows_rest decoder.old.settings.max_blocks decoder.old.found)
            decoder.old.source result decoder.new.source }

        // The settings stay.
        ensures settings { decoder.new.settings ≡ decoder.old.settings }

        // The frame stays.
        ensures stays { decoder.new.found.said.frame ≡ decoder.old.found.said.frame }

        // After an Ok there is a frame, so that `info` answers.
        ensures framed { IfOk result (λ _. is_some decoder.new.found.said.frame ≡ true) }

        // There are as many lines as `info` says, each of as many bytes as the frame says.
        ensures lines { IfOk result (λ p. AreLinesOf (shape_in decoder.new) p.lines) }

        // Together they are a picture as `decode` returns it.
        ensures size { IfOk result (λ p. IsWhole (shape_in decoder.new) (concat p.lines)) }

        // There are as many samples as the format of `info` says.
        ensures counted { IfOk result (λ _. IsCounted (shape_in decoder.new)) }
    {
        match self.checkpoint_within(decoder.max_blocks()) {
            Some(checkpoint) => {
                let rest = bytes_after(&self.bytes, checkpoint.offset);
                decoder.show_lines_after(checkpoint, rest)
            }
            None => decoder.decode_partial_lines(),
        }
    }

    /// Shows what the bytes bring after their header, which a decoder of them has read. Its reader
    /// isn't given up: where it is all the same, it counts as a lack of memory.
    fn show_rest<'a>(&'a self, decoder: &mut Decoder<SliceReader<'a>>) -> Result<PartialLines>
        requires stage { decoder.old.stage ≡ HeaderRead }
        requires known { decoder.old.source.known ≡ true }
        requires header { header_at self.now.bytes
            ≡ Ok (decoder.old.found, decoder.old.source.bytes) }
        ensures shown { let d = decoder.old in IsShown
            (shown_rest_within d.settings.max_blocks d.settings d.found d.source.bytes)
            (λ p. concat p.lines) (λ p. p.fault) result (told_of decoder.new.found.said) }
        ensures rows { let d = decoder.old in IfOk result (λ p. p.whole_rows
            ≡ whole_rows_rest d.settings.max_blocks d.found d.source.bytes) }
        ensures lines { IfOk result (λ p. AreLinesOf (shape_in decoder.old) p.lines) }
        ensures size { IfOk result (λ p. IsWhole (shape_in decoder.old) (concat p.lines)) }
    {
        let shown = self.show_lines_by(decoder);
        if is_lost(decoder.has_read_failed(), &shown) {
            return Err(Error::OutOfMemory);
        }
        shown
    }

    /// Returns the lines of the picture that the bytes have brought so far, and their first fault:
    /// see `show`.
    pub fn show_lines(&mut self) -> Result<PartialLines>
        // What the bytes that were fed show, all at once: see `ShowsFed`.
        ensures shows { ShowsFed (λ p. concat p.lines) (λ p. p.fault) (λ p. p.whole_rows) self.old
            result }

        // There are as many lines as `info` says, each of as many bytes as the frame says.
        ensures lines { IfOk result (λ p. AreLinesOf (shape_fed self.old) p.lines) }

        // The settings and the bytes stay.
        ensures same { self.new ≡ self.old }
    {
        self.read_on()?;
        let mut decoder = self.decoder()?;
        read_header(&mut decoder)?;
        self.show_rest(&mut decoder)
    }

    /// Returns the picture that the bytes have brought so far, and their first fault: what
    /// [`Decoder::decode_partial`] of a new decoder with these settings returns for all of them
    /// together, however they were fed. While the stream isn't complete the fault is that it ends.
    ///
    /// More bytes can be fed after it. Each segment and each whole scan of the stream is read once,
    /// by the first call after it has arrived; a call reads again only the header and the scan in
    /// which the bytes end, and makes the picture. So what the whole scans have brought is in memory
    /// twice while a call runs. Where a whole scan has a fault, what stands before it is read once
    /// more.
    ///
    /// The errors are those of `decode_partial`: a fault where no frame header was accepted before
    /// it, as while the header isn't complete; `Format` if the picture is above the limit, the
    /// colour transform doesn't fit it, or it has no luma of its own and `set_luma` asks for that;
    /// and `OutOfMemory`.
    pub fn show(&mut self) -> Result<PartialPicture>
        // What the bytes that were fed show, all at once: see `ShowsFed`.
        ensures shows { ShowsFed (λ p. p.pixels.items) (λ p. p.fault) (λ p. p.whole_rows) self.old
            result }

        // The settings and the bytes stay.
        ensures same { self.new ≡ self.old }
    {
        let shown = self.show_lines()?;
        let pixels = shown.lines.into_picture(self.alloc)?;
        Ok(PartialPicture {
            pixels,
            whole_rows: shown.whole_rows,
            fault: shown.fault,
        })
    }
}
