//! The decoder and its states.
ghost use Rattle.std.specs.Prelude.{◌≡◌, if◌then◌else◌, IfOk, IfErr, MatchResult, OnErr, OnOk};
ghost use Rattle.std.specs.Prelude.{IsErrAnd, map, Some, [], replicate, IfSome, None, option_map};
ghost use Rattle.std.specs.Prelude.{is_some, Err, List, true, false, ℕ, ◌+◌, ◌<◌, ◌^◌};
ghost use Rattle.std.specs.Io.KnownBytes.{prepend_known};
ghost use Rattle.jpeg_bits.specs.Reading.{Answers};
ghost use Rattle.jpeg_bits.specs.Stream.{stream_of};
ghost use Rattle.jpeg_bits.specs.declared.beyond.Beyond.TheVariants.{Nothing};
ghost use Rattle.jpeg_bits.specs.declared.error.Error.TheVariants.{OutOfMemory};
ghost use Rattle.jpeg_meaning.specs.Stream.{all_brought, header_at, scaled_header_at, scaled_to};
ghost use Rattle.jpeg_meaning.specs.Stream.{sized_header_at, sized_to, told_of};
ghost use Rattle.jpeg_meaning.specs.Found.{nothing_found, with_said};
ghost use Rattle.jpeg_meaning.specs.Reported.{IsOfTurns};
ghost use Rattle.jpeg_meaning.specs.States.{Decoding, MovesToHeader, IsReading, ahead, told_ahead};
ghost use Rattle.jpeg_meaning.specs.States.{turns_ahead, OnTold, OnToldRefusal, HasHeader};
ghost use Rattle.jpeg_decoder.specs.Decodes.{Decodes, DecodesPlanes};
ghost use Rattle.jpeg_decoder.specs.FedRows.{IsFramed};
ghost use Rattle.jpeg_decoder.specs.RowScans.{GivesMore, IsGiving, IsGivingScan, StartsRows};
ghost use Rattle.jpeg_decoder.specs.RowScans.{rows_left};
ghost use Rattle.jpeg_decoder.specs.Shows.{CountsRows, Shows};
ghost use Rattle.std.specs.List.{concat};
ghost use Rattle.jpeg_decoder.specs.Bytes.{AreLinesOf, AreOwnPlanes, HasRoom, IsCounted, IsWhole};
ghost use Rattle.jpeg_decoder.specs.Bytes.{decoding_bytes, picture_size, shape_in, shape_of};
ghost use Rattle.jpeg_decoder.specs.HeaderAlone.{ReadsHeaderAlone};
ghost use Rattle.jpeg_decoder.specs.StreamTransforms.{frame_transform};
ghost use Rattle.jpeg_decoder.specs.Walks.{steps_over};
ghost use Rattle.jpeg_meaning.specs.States.{IsInternal};
ghost use Rattle.std.specs.Prelude.{◌≤◌, drop, length, take};
ghost use Rattle.jpeg_meaning.specs.Pixels.{format_of, info_by};
ghost use Rattle.jpeg_meaning.specs.Sound.{HasDecodedFrame, IsSound, IsUnread};
ghost use Rattle.jpeg_meaning.specs.declared.progress.Progress.TheVariants.{Failed, Fresh};
ghost use Rattle.jpeg_meaning.specs.declared.progress.Progress.TheVariants.{HeaderRead};
ghost use Rattle.jpeg_segments.specs.FrameView.{component_in, frame_in};
ghost use Rattle.jpeg_segments.specs.Scales.{IsSizedFrame, is_scale, scale_for, scaled_by};
ghost use Rattle.jpeg_meaning.specs.Output.{default_settings};
ghost use Rattle.jpeg_meaning.specs.Profile.{profile_of};
ghost use Rattle.std.specs.Option.{option_copied};
ghost use Rattle.jpeg_meaning.specs.Shown.{whole_rows_ahead, whole_rows_rest};
ghost use Rattle.jpeg_meaning.specs.Work.{picture_blocks};

use crate::by_rows::first_scan::RowScan;
use crate::by_rows::rest::{Begun, begin_rest, read_more};
use crate::fed::checkpoint::Checkpoint;
use crate::picture::color_choice::frame_transform;
use crate::picture::lines::Lines;
use crate::picture::partial::{PartialLines, show_from, show_rest};
use crate::picture::rest::{read_rest, read_rest_planes};
use crate::picture::whole::read_header;
use crate::scan::decoded::Decoded;
use crate::scan::work::{Budget, Walk, picture_blocks};
use crate::sizes::{DecodingBytes, decoding_bytes, picture_bytes, samples_shown};
use crate::stream::profile::join_profile;
use crate::stream::state::State;
pub use jpeg_bits::color_transform::ColorTransform;
use jpeg_bits::error::{Error, Result};
pub use jpeg_bits::scan::MAX_COMPONENTS;
use jpeg_bits::source::Source;
use jpeg_bits::source::slice_reader::SliceReader;
pub use jpeg_meaning::images::{ImageInfo, PixelFormat};
use jpeg_meaning::progress::Progress;
use jpeg_meaning::settings::Settings;
use jpeg_pixels::idct::choose_idct_size;
use jpeg_segments::parser::{CodingProcess, Component, Dimensions, FrameInfo};
pub use jpeg_segments::scale::Scale;
use jpeg_segments::sizes::{BLOCK_SIDE, scale_frame};
use std::alloc::Global;
use std::io::Read;
use std::marker::Model;

/// Returns the format of this many samples a pixel at a precision.
fn format_of(count: usize, precision: u8) -> PixelFormat
    ensures { result ≡ format_of count precision }
{
    match count {
        3 => PixelFormat::RGB24,
        4 => PixelFormat::CMYK32,
        _ => {
            if precision <= 8 {
                PixelFormat::L8
            } else {
                PixelFormat::L16
            }
        }
    }
}

/// Returns what a caller is told about the picture of a frame.
pub(crate) fn info_by(frame: &FrameInfo, settings: Settings) -> ImageInfo
    ensures { result ≡ info_by settings (frame_in frame.now) }
{
    ImageInfo {
        width: frame.output_size.width,
        height: frame.output_size.height,
        pixel_format: format_of(samples_shown(frame, settings), frame.precision),
        coding_process: frame.coding_process,
    }
}

/// Sizes a frame at a scale, and returns the size of its picture. A lossless frame keeps its size.
fn size_frame(frame: &mut FrameInfo, scale: usize) -> (u16, u16)
    requires sized { IsSizedFrame (frame_in frame.old) }
    requires scale { is_scale scale ≡ true }
    ensures frame { frame_in frame.new
        ≡ scaled_by (frame_in frame.old).process scale (frame_in frame.old) }
    ensures size { (result.0 ≡ (frame_in frame.new).output_width)
        × (result.1 ≡ (frame_in frame.new).output_height) }
{
    match frame.coding_process {
        CodingProcess::DctSequential | CodingProcess::DctProgressive => scale_frame(frame, scale),
        CodingProcess::Lossless => {}
    }
    (frame.output_size.width, frame.output_size.height)
}

/// Returns the least scale at which the picture is at least that wide or that high, if a frame was
/// read.
fn scale_reaching(state: &State, width: u16, height: u16) -> usize
    ensures scale { IfSome state.now.said.frame
        (λ f. result ≡ scale_for f.width f.height width height) }
    ensures some { is_scale result ≡ true }
{
    match &state.said.frame {
        Some(frame) => choose_idct_size(frame.image_size, Dimensions { width, height }),
        None => BLOCK_SIDE,
    }
}

/// Sizes the frame, which was read, at a scale, and returns the size of its picture.
#[tactic(auto, using(jpeg_meaning::proofs::Soundness::scaled_rules))]
fn scale_state(state: &mut State, scale: usize) -> (u16, u16)
    requires framed { is_some state.old.said.frame ≡ true }
    requires frames { HasDecodedFrame state.old }
    requires scale { is_scale scale ≡ true }
    ensures found { state.new ≡ with_said (λ said. record said {
      frame = option_map
          (λ f. scaled_by f.process scale f) said.frame;
    }) state.old }
    ensures size { IfSome state.new.said.frame (λ f. (f.output_width ≡ result.0)
        × (f.output_height ≡ result.1)) }
    ensures frames { HasDecodedFrame state.new }
    ensures sound { IsSound state.old → IsUnread state.old
        → IsSound state.new × IsUnread state.new }
{
    let said = &mut state.said;
    let Some(frame) = &mut said.frame else {
        unreachable!()
    };
    size_frame(frame, scale)
}

/// Returns how many bytes the picture takes if the memory is large enough, otherwise `Internal`.
fn size_within(state: &State, room: usize, settings: Settings) -> Result<usize>
    requires framed { is_some state.now.said.frame ≡ true }
    requires frames { HasDecodedFrame state.now }
    ensures size { IfOk result (λ n. IfSome state.now.said.frame (λ f. n
        ≡ picture_size (shape_of settings f))) }
    ensures room { IfOk result (λ n. n ≤ room) }
    ensures has_room { OnOk result
        (HasRoom (option_map (shape_of settings) state.now.said.frame) room) }
    ensures short { OnErr result
        (HasRoom (option_map (shape_of settings) state.now.said.frame) room → ⊥) }
    ensures err { IfErr result IsInternal }
{
    let Some(frame) = &state.said.frame else {
        unreachable!()
    };
    let size = picture_bytes(frame, settings);
    if size > room as u64 {
        return Err(Error::Internal("pixels are shorter than the picture"));
    }
    Ok(size as usize)
}

/// Drops what the scans have given.
fn drop_decoded(state: &mut State, alloc: Global)
    ensures told { told_of state.new.said ≡ told_of state.old.said }
    ensures emptied { (state.new.kept ≡ []) × (state.new.planes ≡ replicate 4 None)
        × (state.new.samples ≡ replicate 4 None) }
{
    state.decoded = Decoded::new(alloc);
}

/// Returns how far a decoder has come after a call: after an error it has failed.
fn progress_after(is_ok: bool, progress: Progress) -> Progress
    ensures { result ≡ (if is_ok then progress else Failed) }
{
    if is_ok { progress } else { Progress::Failed }
}

/// The picture that a stream has brought up to its first fault, and that fault.
#[derive(Drop)]
pub struct PartialPicture {
    /// The picture, as `decode` returns it. What no scan has brought is mid-grey.
    pub pixels: Vec<u8>,
    /// The number of rows, from the top, that need nothing that a scan which was begun lacks. All
    /// rows if the stream has no fault.
    pub whole_rows: u16,
    /// The first fault of the stream, or none if it is whole.
    pub fault: Option<Error>,
}

/// Decodes one stream.
#[derive(Drop)]
pub struct Decoder<R: Read + Drop> {
    alloc: Global,
    source: Source<R>,
    progress: Progress,
    state: State,
    settings: Settings,
    /// Whether a scan was refused since it codes more blocks than the limit leaves.
    exceeded: bool,
}

impl<R: Read + Drop> Model for Decoder<R> {
    ghost use Rattle.std.specs.Prelude.{◌≡◌, false, is_some, true};
    ghost use Rattle.jpeg_meaning.specs.Sound.{HasDecodedFrame, IsSound, IsUnread};
    ghost use Rattle.jpeg_meaning.specs.States.{Decoding, HasHeader, IsReading};
    ghost use Rattle.jpeg_meaning.specs.declared.progress.Progress.TheVariants.{Fresh, HeaderRead};
    ghost use Rattle.jpeg_meaning.specs.Found.{nothing_found};

    ghost Value = { Decoding };

    ghost view = { λ d. record {
      source = d.source;
      stage = d.progress;
      found = d.state;
      settings = d.settings;
      exceeded = d.exceeded;
    } };

    // A fresh decoder has found nothing. One whose header was read has a frame, which is decoded;
    // and until it is decoded no scan was read or refused.
    ghost invariant = { λ d. (d.progress ≡ Fresh → d.state ≡ nothing_found)
        × (HasHeader d.progress → is_some d.state.said.frame ≡ true)
        × (HasHeader d.progress → HasDecodedFrame d.state)
        × (d.progress ≡ HeaderRead → IsSound d.state × IsUnread d.state)
        × (IsReading d.progress → d.exceeded ≡ false) };
}

impl<R: Read + Drop> Decoder<R> {
    /// Makes a decoder for the stream that the reader gives. It reads no byte after the end of the
    /// image. The only error is `OutOfMemory`, in which case the reader is dropped.
    pub fn new(alloc: Global, reader: R) -> Result<Decoder<R>>
        ensures ok { IfOk result (λ d. d ≡ record {
          source = stream_of (R.remaining reader) false false;
          stage = Fresh;
          found = nothing_found;
          settings = default_settings;
          exceeded = false;
        }) }
        ensures err { IfErr result (λ e. e ≡ OutOfMemory) }
    {
        Ok(Decoder {
            alloc,
            source: Source::new(reader),
            progress: Progress::Fresh,
            state: State::new(alloc),
            settings: Settings {
                limit: usize::MAX,
                color_transform: None,
                max_blocks: None,
                luma: false,
            },
            exceeded: false,
        })
    }

    /// Makes a decoder like `new` that reads up to `capacity` bytes ahead (`read_ahead`). The only
    /// error is `OutOfMemory`, in which case the reader is dropped.
    pub fn with_capacity(alloc: Global, capacity: usize, reader: R) -> Result<Decoder<R>>
        ensures ok { IfOk result (λ d. d ≡ record {
          source = stream_of (R.remaining reader) false false;
          stage = Fresh;
          found = nothing_found;
          settings = default_settings;
          exceeded = false;
        }) }
        ensures err { IfErr result (λ e. e ≡ OutOfMemory) }
    {
        let mut decoder = Decoder::new(alloc, reader)?;
        decoder.read_ahead(capacity)?;
        Ok(decoder)
    }

    /// Lets the decoder read up to `capacity` bytes ahead of what it needs, which takes less time
    /// for all but the smallest pictures, unless it does so already. It may then read bytes after
    /// the end of the image: `rest` returns them. No answer changes. A capacity of 0 changes
    /// nothing. The only error is `OutOfMemory`, in which case the decoder reads as it did.
    pub fn read_ahead(&mut self, capacity: usize) -> Result<()>
        ensures same { self.new ≡ self.old }
        ensures err { IfErr result (λ e. e ≡ OutOfMemory) }
    {
        self.source.read_ahead(self.alloc, capacity)
    }

    /// Returns the size and the format of the picture by the settings once a frame has been
    /// accepted, in every state.
    pub fn info(&self) -> Option<ImageInfo>
        ensures { result ≡ option_map (info_by self.now.settings) self.now.found.said.frame }
    {
        let frame = self.state.said.frame.as_ref()?;
        Some(info_by(frame, self.settings))
    }

    /// Returns how many bits a sample has once a frame has been accepted, in every state: 8 for
    /// baseline, extended and progressive frames, and 2 to 16 for lossless ones (T.81, B.2.2).
    ///
    /// A sample is at most `2^precision - 1`. It takes one byte of a picture up to 8 bits, and two
    /// bytes above, the lower byte first, so that a picture has `width * height * components`
    /// samples of that many bytes each, or `width * height` after `set_luma`.
    /// `PixelFormat::pixel_bytes` doesn't reflect this for three or four components.
    pub fn precision(&self) -> Option<u8>
        ensures { result ≡ option_map (λ f. f.precision) self.now.found.said.frame }
    {
        self.state.said.frame.as_ref().map(|frame| frame.precision)
    }

    /// Returns the bytes that were read ahead and that no call has taken, and the reader, which
    /// goes on after them, in every state. A decoder made by `new` has read no bytes ahead.
    pub fn rest(&self) -> (&[u8], &R)
        ensures { self.now.source.known ≡ true
            → prepend_known result.0.now (R.remaining result.1.now) ≡ Some self.now.source.bytes }
    {
        self.source.rest()
    }

    /// Returns whether a read has failed, other than by being interrupted, in every state. The end
    /// of the bytes is not a failure.
    pub fn has_read_failed(&self) -> bool
        ensures { result ≡ self.now.source.failed }
    {
        self.source.has_failed()
    }

    /// Returns whether a scan was refused since it codes more blocks than the limit of
    /// `set_max_blocks` leaves, in every state. Such a refusal is a `Format`, as those of broken
    /// rules are; this tells them apart.
    pub fn has_exceeded_max_blocks(&self) -> bool
        ensures { result ≡ self.now.exceeded }
    {
        self.exceeded
    }

    /// Returns how many bytes decoding takes, once the header has been read: between `read_info` or
    /// `scale` and `decode`, and after a picture. Returns `None` before that, and after a failure.
    ///
    /// The numbers depend on the scale and on `set_luma`. A service that checks them after
    /// `read_info` can refuse a picture before any of this memory is allocated. [`DecodingBytes`]
    /// says what is counted and what isn't.
    pub fn decoding_bytes(&self) -> Option<DecodingBytes>
        ensures header { HasHeader self.now.stage
            → result ≡ option_map (decoding_bytes self.now.settings)
            self.now.found.said.frame }
        ensures none { (HasHeader self.now.stage → ⊥) → result ≡ None }
    {
        match self.progress {
            Progress::HeaderRead | Progress::Finished => {
                let frame = self.state.said.frame.as_ref()?;
                Some(decoding_bytes(frame, self.settings))
            }
            Progress::Fresh | Progress::Failed => None,
        }
    }

    /// Sets the colour transform of pictures of several components, overriding the one that the
    /// segments give. Pictures of one component and lossless pictures are not affected.
    ///
    /// `RGB` and `YCbCr` fit three components, `CMYK` and `YCCK` four, and `None` both: each line
    /// of the picture then has its samples component after component, `width` samples of each. If a
    /// transform doesn't fit, or is `Grayscale` or `Unknown`, `decode` returns `Format`; for
    /// `JcsBgYcc` and `JcsBgRgb` it returns `Unsupported`.
    pub fn set_color_transform(&mut self, transform: ColorTransform)
        ensures { self.new ≡ record self.old {
          settings = record self.old.settings
              { color_transform = Some transform };
        } }
    {
        self.settings.color_transform = Some(transform);
    }

    /// Sets whether the picture is the luma of a picture in colour, without its colours; a new
    /// decoder gives the colours. With it the picture is the first component of a picture in
    /// `YCbCr`: one sample per pixel, of the format `L8`, as `info` says from then on. Pictures of
    /// one component and lossless pictures are not affected.
    ///
    /// If the transform, which `set_color_transform` or else the segments give, isn't `YCbCr`, or
    /// the first component isn't as large as the picture, `decode` returns `Format`. The other
    /// components are read all the same, so a stream with a fault in them is refused as before.
    ///
    /// It takes less time, since nothing is upsampled or converted, and less memory: the plane of
    /// the luma becomes the picture itself, as `decoding_bytes` says.
    pub fn set_luma(&mut self, luma: bool)
        ensures { self.new ≡ record self.old {
          settings = record self.old.settings
              { luma = luma };
        } }
    {
        self.settings.luma = luma;
    }

    /// Sets how many samples a picture may have: `components * width * height`, with the size that
    /// `info` returns, or `width * height` where it is the luma alone. `decode` refuses a larger
    /// picture as `Format`, and `decode_planes` planes that have more samples together.
    ///
    /// It counts samples, not bytes: a lossless picture above 8 bits has two bytes for each. As in
    /// the original crate, it is checked after the end of the image, when blocks and planes are
    /// already in memory, so it bounds only the picture. To bound memory before anything is
    /// allocated, call `read_info`, and then `info` or `decoding_bytes`.
    pub fn set_max_decoding_buffer_size(&mut self, max: usize)
        ensures { self.new ≡ record self.old {
          settings = record self.old.settings
              { limit = max };
        } }
    {
        self.settings.limit = max;
    }

    /// Sets how many blocks the scans of a stream may code, all together, or `None` for no limit,
    /// as a new decoder has it. This bounds the time that decoding takes, which a header can't do:
    /// a scan of eleven bytes may go over all blocks of the picture.
    ///
    /// A scan of one component codes the blocks that cover its samples, and one of several
    /// components the blocks of all MCUs (T.81, A.2). Eight samples of a lossless scan count as a
    /// block. The scan that would pass the limit is refused as `Format`, after its header and
    /// before its tables and data. `decode_partial` then gives what the scans before it have
    /// brought. A stream within the limit is decoded as without one.
    ///
    /// [`picture_blocks`](Decoder::picture_blocks) is the unit: of the files that were counted none
    /// codes more than 8 times as many blocks.
    pub fn set_max_blocks(&mut self, max: Option<u64>)
        ensures { self.new ≡ record self.old {
          settings = record self.old.settings
              { max_blocks = max };
        } }
    {
        self.settings.max_blocks = max;
    }

    /// Returns how many blocks the scans of a stream may code, if there is a limit.
    pub(crate) fn max_blocks(&self) -> Option<u64>
        ensures { result ≡ self.now.settings.max_blocks }
    {
        self.settings.max_blocks
    }

    /// Returns all that a caller can set, for [`FedRows`](crate::fed_rows::FedRows), say.
    pub fn settings(&self) -> Settings
        ensures { result ≡ self.now.settings }
    {
        self.settings
    }

    /// Sets all that a caller can set.
    pub(crate) fn set_all(&mut self, settings: Settings)
        ensures { self.new ≡ record self.old { settings = settings } }
    {
        self.settings = settings;
    }

    /// Returns how many blocks one scan of all components codes, once the header has been read:
    /// between `read_info` or `scale` and `decode`, and after a picture. Returns `None` before
    /// that, and after a failure. A limit for [`set_max_blocks`](Decoder::set_max_blocks) is best a
    /// multiple of it.
    pub fn picture_blocks(&self) -> Option<u64>
        ensures header { HasHeader self.now.stage
            → result ≡ option_map picture_blocks self.now.found.said.frame }
        ensures none { (HasHeader self.now.stage → ⊥) → result ≡ None }
    {
        match self.progress {
            Progress::HeaderRead | Progress::Finished => {
                let frame = self.state.said.frame.as_ref()?;
                Some(picture_blocks(frame))
            }
            Progress::Fresh | Progress::Failed => None,
        }
    }

    /// Returns the last Exif data read so far, in every state.
    pub fn exif_data(&self) -> Option<&[u8]>
        ensures { option_copied result ≡ self.now.found.said.metadata.exif }
    {
        self.state
            .said
            .metadata
            .exif
            .as_ref()
            .map(|bytes| bytes.as_slice())
    }

    /// Returns the last XMP data read so far, in every state.
    pub fn xmp_data(&self) -> Option<&[u8]>
        ensures { option_copied result ≡ self.now.found.said.metadata.xmp }
    {
        self.state
            .said
            .metadata
            .xmp
            .as_ref()
            .map(|bytes| bytes.as_slice())
    }

    /// Returns the ICC profile (ICC.1, Annex B.4), if all its parts were read. The only error is
    /// `OutOfMemory`.
    pub fn icc_profile(&self) -> Result<Option<Vec<u8>>>
        ensures { MatchResult result (λ o. option_map (λ v. v.items) o
            ≡ profile_of self.now.found.said.metadata.icc) (λ e. e ≡ OutOfMemory) }
    {
        join_profile(self.alloc, self.state.said.metadata.icc.as_slice())
    }

    /// Reads through the frame header, so that `info` describes the picture. If it has been read
    /// already, reads nothing.
    ///
    /// Errors: `Format` if a rule is broken, `Unsupported` with the name of a feature, `Io` if the
    /// bytes end or a read fails, `OutOfMemory`, and `Internal` only if the decoder has failed.
    /// After an error the decoder has failed, and still returns what was read.
    pub fn read_info(&mut self) -> Result<()>
        ensures stage { MovesToHeader self.old.stage self.new.stage result }
        ensures reads { self.old.stage ≡ Fresh → Answers (λ _. self.new.found) header_at
            self.old.source result self.new.source }
        ensures told { self.old.stage ≡ Fresh → OnTold self.old.source self.new.source result
            (told_of self.new.found.said ≡ told_ahead None true self.old.stage self.old.found
            self.old.source.bytes) }
        ensures turns { self.old.stage ≡ Fresh → self.old.source.known ≡ true
            → IsOfTurns (λ n. turns_ahead None n true self.old.stage self.old.found
            self.old.source.bytes) (told_of self.new.found.said) }
        ensures settings { self.new.settings ≡ self.old.settings }
        ensures exceeded { self.new.exceeded ≡ self.old.exceeded }
        ensures still { (self.old.stage ≡ Fresh → ⊥) → self.new ≡ self.old }
        ensures framed { IfOk result (λ _. is_some self.new.found.said.frame ≡ true) }
    {
        let result = match self.progress {
            Progress::Fresh => read_header(self.alloc, &mut self.source, &mut self.state),
            Progress::HeaderRead | Progress::Finished => return Ok(()),
            Progress::Failed => return Err(Error::Internal("decoder has failed")),
        };
        self.progress = progress_after(result.is_ok(), Progress::HeaderRead);
        result
    }

    /// Scales the picture down to the least of 1/8, 1/4, 1/2 and full size at which it is at least
    /// as wide or as high as requested, and returns the size of the picture at that scale. Reads
    /// the header first if necessary; the last call counts. A lossless picture keeps its size.
    ///
    /// After `decode`, the call changes what `info` returns, but no picture. The errors are those
    /// of `read_info`, after which the decoder has failed.
    pub fn scale(&mut self, requested_width: u16, requested_height: u16) -> Result<(u16, u16)>
        ensures stage { MovesToHeader self.old.stage self.new.stage result }
        ensures reads { self.old.stage ≡ Fresh → Answers (λ _. self.new.found)
            (sized_header_at requested_width requested_height) self.old.source result
            self.new.source }
        ensures told { self.old.stage ≡ Fresh → OnToldRefusal self.old.source self.new.source result
            (told_of self.new.found.said ≡ told_ahead None true self.old.stage self.old.found
            self.old.source.bytes) }
        ensures turns { self.old.stage ≡ Fresh → self.old.source.known ≡ true
            → OnErr result (IsOfTurns (λ n. turns_ahead None n true self.old.stage self.old.found
            self.old.source.bytes) (told_of self.new.found.said)) }
        ensures scaled { (self.old.stage ≡ Fresh → ⊥)
            → OnOk result (self.new ≡ record self.old
            { found = with_said (sized_to requested_width requested_height) self.old.found }) }
        ensures still { (self.old.stage ≡ Fresh → ⊥) → OnErr result (self.new ≡ self.old) }
        ensures size { IfOk result (λ size. IfSome self.new.found.said.frame (λ f. (f.output_width
            ≡ size.0) × (f.output_height ≡ size.1))) }
        ensures framed { IfOk result (λ _. is_some self.new.found.said.frame ≡ true) }
        ensures settings { self.new.settings ≡ self.old.settings }
        ensures exceeded { self.new.exceeded ≡ self.old.exceeded }
    {
        self.read_info()?;
        let scale = scale_reaching(&self.state, requested_width, requested_height);
        Ok(scale_state(&mut self.state, scale))
    }

    /// Scales the picture to exactly 1/8, 1/4, 1/2 or full size, each side rounded up, and returns
    /// the size of the picture at that scale. Reads the header first if necessary; the last call of
    /// `set_scale` or `scale` counts. A lossless picture keeps its size.
    ///
    /// `scale` chooses from a size, and a picture one pixel wide already has its width at 1/8; here
    /// the caller chooses.
    ///
    /// After `decode`, the call changes what `info` returns, but no picture. The errors are those
    /// of `read_info`, after which the decoder has failed.
    pub fn set_scale(&mut self, scale: Scale) -> Result<(u16, u16)>
        ensures stage { MovesToHeader self.old.stage self.new.stage result }
        ensures reads { self.old.stage ≡ Fresh → Answers (λ _. self.new.found)
            (scaled_header_at scale) self.old.source result self.new.source }
        ensures told { self.old.stage ≡ Fresh → OnToldRefusal self.old.source self.new.source result
            (told_of self.new.found.said ≡ told_ahead None true self.old.stage self.old.found
            self.old.source.bytes) }
        ensures turns { self.old.stage ≡ Fresh → self.old.source.known ≡ true
            → OnErr result (IsOfTurns (λ n. turns_ahead None n true self.old.stage self.old.found
            self.old.source.bytes) (told_of self.new.found.said)) }
        ensures scaled { (self.old.stage ≡ Fresh → ⊥) → OnOk result (self.new
            ≡ record self.old { found = with_said (scaled_to scale) self.old.found }) }
        ensures still { (self.old.stage ≡ Fresh → ⊥) → OnErr result (self.new ≡ self.old) }
        ensures size { IfOk result (λ size. IfSome self.new.found.said.frame (λ f. (f.output_width
            ≡ size.0) × (f.output_height ≡ size.1))) }
        ensures framed { IfOk result (λ _. is_some self.new.found.said.frame ≡ true) }
        ensures settings { self.new.settings ≡ self.old.settings }
        ensures exceeded { self.new.exceeded ≡ self.old.exceeded }
    {
        self.read_info()?;
        Ok(scale_state(&mut self.state, scale.block_side()))
    }

    /// Reads the header where it wasn't read. Where no image is left to decode it is `Internal`,
    /// and nothing changes. After a refusal of the header nothing is kept that scans gave.
    fn begin(&mut self) -> Result<()>
        ensures stage { IsReading self.old.stage
            → MovesToHeader self.old.stage self.new.stage result }
        ensures ended { (IsReading self.old.stage → ⊥) → IsErrAnd result IsInternal }
        ensures begun { OnOk result (IsReading self.old.stage × (self.new.stage ≡ HeaderRead)) }
        ensures reads { self.old.stage ≡ Fresh → Answers (λ _. self.new.found) header_at
            self.old.source result self.new.source }
        ensures told { self.old.stage ≡ Fresh → OnTold self.old.source self.new.source result
            (told_of self.new.found.said ≡ told_ahead None true self.old.stage self.old.found
            self.old.source.bytes) }
        ensures turns { self.old.stage ≡ Fresh → self.old.source.known ≡ true
            → IsOfTurns (λ n. turns_ahead None n true self.old.stage self.old.found
            self.old.source.bytes) (told_of self.new.found.said) }
        ensures settings { self.new.settings ≡ self.old.settings }
        ensures exceeded { IsReading self.old.stage → self.new.exceeded ≡ false }
        ensures still { (self.old.stage ≡ Fresh → ⊥) → self.new ≡ self.old }
        ensures emptied { self.old.stage ≡ Fresh → OnErr result ((self.new.found.kept ≡ [])
            × (self.new.found.planes ≡ replicate 4 None)
            × (self.new.found.samples ≡ replicate 4 None)) }
    {
        match self.progress {
            Progress::Fresh | Progress::HeaderRead => {}
            Progress::Finished => return Err(Error::Internal("image was already decoded")),
            Progress::Failed => return Err(Error::Internal("decoder has failed")),
        }
        if let Err(e) = self.read_info() {
            drop_decoded(&mut self.state, self.alloc);
            return Err(e);
        }
        Ok(())
    }

    /// Reads through the end of the image, as `decode` does, and returns its lines, which the
    /// caller writes where it wants: no picture is in memory beside the planes that the scans gave.
    ///
    /// The errors are those of `decode`, and so is the decoder after each.
    pub fn decode_lines(&mut self) -> Result<Lines>
        // The meaning of what the source has left, the state, and what is told: see `Decodes`.
        ensures decodes { Decodes (λ l. concat l) self.old result self.new }

        // The settings stay.
        ensures settings { self.new.settings ≡ self.old.settings }

        // Where no image is left to decode nothing changes.
        ensures still { (IsReading self.old.stage → ⊥) → self.new ≡ self.old }

        // The frame that `read_info` read stays.
        ensures stays { self.old.stage ≡ HeaderRead
            → self.new.found.said.frame ≡ self.old.found.said.frame }

        // After an Ok there is a frame, so that `info` answers.
        ensures framed { IfOk result (λ _. is_some self.new.found.said.frame ≡ true) }

        // There are as many lines as `info` says, each of as many bytes as the frame says.
        ensures lines { IfOk result (λ l. AreLinesOf (shape_in self.new) l) }

        // Together they are a picture as `decode` returns it.
        ensures size { IfOk result (λ l. IsWhole (shape_in self.new) (concat l)) }

        // There are as many samples as the format of `info` says.
        ensures counted { IfOk result (λ _. IsCounted (shape_in self.new)) }
    {
        self.begin()?;
        let result = read_rest(
            self.alloc,
            &mut self.source,
            &mut self.state,
            self.settings,
            &mut self.exceeded,
        );
        self.progress = progress_after(result.is_ok(), Progress::Finished);
        result
    }

    /// Reads through the end of the image and no byte after it, and returns the picture: its
    /// samples line by line from the top, and in each line pixel by pixel, one of each component,
    /// or of the luma alone after `set_luma`. A sample takes one byte, or two in a lossless picture
    /// above 8 bits, the lower byte first; [`PixelFormat`] has the details, and `precision` returns
    /// the number of bits.
    ///
    /// If the stream is one that a writer emits for the coefficients of an image, the result is
    /// their picture; if it is a lossless stream for samples, it is those samples.
    ///
    /// Errors: `Format` if a rule is broken, the picture is above the limit, or it has no luma of
    /// its own and `set_luma` asks for that, `Unsupported` with the name of a feature, `Io` if the
    /// bytes end or a read fails, `OutOfMemory`, and `Internal` only if the decoder has failed or
    /// has already decoded its image. After an error the decoder has failed, and still returns what
    /// was read, unless it has decoded its image: then it stays as it is. In every case no samples
    /// are kept.
    pub fn decode(&mut self) -> Result<Vec<u8>>
        // The meaning of what the source has left, the state, and what is told: see `Decodes`.
        ensures decodes { Decodes (λ v. v.items) self.old result self.new }

        // The settings stay.
        ensures settings { self.new.settings ≡ self.old.settings }

        // Where no image is left to decode nothing changes.
        ensures still { (IsReading self.old.stage → ⊥) → self.new ≡ self.old }

        // The frame that `read_info` read stays.
        ensures stays { self.old.stage ≡ HeaderRead
            → self.new.found.said.frame ≡ self.old.found.said.frame }

        // After an Ok there is a frame, so that `info` answers.
        ensures framed { IfOk result (λ _. is_some self.new.found.said.frame ≡ true) }

        // The picture has one sample of each component for each pixel, or of the luma alone, of one
        // byte or two by the frame's precision; of blocks, as many bytes as `pixel_bytes` says.
        ensures size { IfOk result (λ v. IsWhole (shape_in self.new) v.items) }

        // There are as many samples as the format of `info` says.
        ensures counted { IfOk result (λ _. IsCounted (shape_in self.new)) }
    {
        let lines = self.decode_lines()?;
        match lines.into_picture(self.alloc) {
            Ok(picture) => Ok(picture),
            Err(error) => {
                self.progress = Progress::Failed;
                Err(error)
            }
        }
    }

    /// Reads through the end of the image, as `decode` does, and returns the planes of its
    /// components, in the order of the frame header: the samples of each, line by line from the
    /// top, at the component's own size, which `components` returns. Nothing is upsampled and no
    /// colour is converted, so neither `set_color_transform` nor `set_luma` makes a difference. A
    /// sample takes one byte, or two in a lossless picture above 8 bits, the lower byte first.
    ///
    /// If the stream is one that a writer emits for the coefficients of an image, they are its
    /// planes; if it is a lossless stream for samples, they are those samples.
    ///
    /// A line of the second component, where a sample takes one byte:
    ///
    ///     let planes = decoder.decode_planes()?;
    ///     if let Some(components) = decoder.components() {
    ///         let width = usize::from(components[1].size.width);
    ///         let line = &planes[1][row * width..(row + 1) * width];
    ///     }
    ///
    /// The errors are those of `decode`, and so is the decoder after each; but it is a `Format` if
    /// all planes together have more samples than `set_max_decoding_buffer_size` allows, and no
    /// colour transform is refused.
    pub fn decode_planes(&mut self) -> Result<Vec<Vec<u8>>>
        // The meaning of what the source has left, the state, and what is told: see
        // `DecodesPlanes`.
        ensures decodes { DecodesPlanes (λ v. map (λ p. p.items) v.items) self.old result self.new }

        // The settings stay.
        ensures settings { self.new.settings ≡ self.old.settings }

        // Where no image is left to decode nothing changes.
        ensures still { (IsReading self.old.stage → ⊥) → self.new ≡ self.old }

        // The frame that `read_info` read stays.
        ensures stays { self.old.stage ≡ HeaderRead
            → self.new.found.said.frame ≡ self.old.found.said.frame }

        // After an Ok there is a frame, so that `components` answers.
        ensures framed { IfOk result (λ _. is_some self.new.found.said.frame ≡ true) }

        // There is one plane of each component, of one byte or two, by the frame's precision, for
        // each of the component's samples.
        ensures sizes { IfOk result (λ v. AreOwnPlanes self.new.found.said.frame
            (map (λ p. p.items) v.items)) }
    {
        self.begin()?;
        let result = read_rest_planes(
            self.alloc,
            &mut self.source,
            &mut self.state,
            self.settings,
            &mut self.exceeded,
        );
        self.progress = progress_after(result.is_ok(), Progress::Finished);
        result
    }

    /// Reads up to the data of the first scan, and begins to give its lines; or reads on to the end
    /// of the image, and returns all lines, where they can't be given as it is read: see `Rows`.
    pub(crate) fn begin_lines(&mut self) -> Result<Begun>
        ensures starts { StartsRows self.old result self.new }
        ensures framed { OnOk result (IsFramed self.new.found) }
        ensures settings { self.new.settings ≡ self.old.settings }
    {
        self.begin()?;
        let begun = begin_rest(
            self.alloc,
            &mut self.source,
            &mut self.state,
            self.settings,
            &mut self.exceeded,
        );
        // Once a scan was begun only `read_lines` goes on.
        self.progress = Progress::Failed;
        match begun {
            Ok(Begun::Scan(rows)) => Ok(Begun::Scan(rows)),
            Ok(Begun::Lines(shown)) => {
                self.progress = Progress::Finished;
                drop_decoded(&mut self.state, self.alloc);
                Ok(Begun::Lines(shown))
            }
            Err(error) => {
                drop_decoded(&mut self.state, self.alloc);
                Err(error)
            }
        }
    }

    /// Returns what was found, and the source.
    pub(crate) fn into_parts(self) -> (State, Source<R>)
        ensures state { result.0 ≡ self.found }
        ensures source { result.1 ≡ self.source }
    {
        (self.state, self.source)
    }

    /// Reads the next row of MCUs of the first scan, and makes the lines that it decides; after the
    /// last one reads through the end of the image. Returns whether there was a row.
    pub(crate) fn read_lines(&mut self, rows: &mut RowScan) -> Result<bool>
        requires giving { IsGiving self.old rows.old }
        ensures gives { (start : Decoding) (bytes : List ℕ)
            → IsGivingScan start self.old rows.old bytes
            → GivesMore start bytes result self.new rows.new }
        ensures fewer { result ≡ Ok true → rows_left rows.new < rows_left rows.old }
        ensures settings { self.new.settings ≡ self.old.settings }
    {
        let more = read_more(
            self.alloc,
            &mut self.source,
            &mut self.state,
            self.settings,
            rows,
        );
        self.exceeded = rows.walk.budget.exceeded;
        self.progress = Progress::Failed;
        match more {
            Ok(true) => Ok(true),
            Ok(false) => {
                self.progress = Progress::Finished;
                drop_decoded(&mut self.state, self.alloc);
                Ok(false)
            }
            Err(error) => {
                drop_decoded(&mut self.state, self.alloc);
                Err(error)
            }
        }
    }

    /// Reads as far as the stream goes, and returns the lines of the picture that it has brought up
    /// to its first fault, and that fault: see `decode_partial`.
    pub fn decode_partial_lines(&mut self) -> Result<PartialLines>
        // What the source's bytes bring, and the state: see `Shows`.
        ensures shows { Shows (λ p. concat p.lines) (λ p. p.fault) self.old result self.new }

        // For any bytes, it counts the complete rows of the picture.
        ensures rows { IsReading self.old.stage → CountsRows (λ p. p.whole_rows)
            (whole_rows_ahead self.old.settings.max_blocks self.old.stage self.old.found)
            self.old.source result self.new.source }

        // The settings stay.
        ensures settings { self.new.settings ≡ self.old.settings }

        // Where no image is left to decode nothing changes.
        ensures still { (IsReading self.old.stage → ⊥) → self.new ≡ self.old }

        // The frame that `read_info` read stays.
        ensures stays { self.old.stage ≡ HeaderRead
            → self.new.found.said.frame ≡ self.old.found.said.frame }

        // After an Ok there is a frame, so that `info` answers.
        ensures framed { IfOk result (λ _. is_some self.new.found.said.frame ≡ true) }

        // There are as many lines as `info` says, each of as many bytes as the frame says.
        ensures lines { IfOk result (λ p. AreLinesOf (shape_in self.new) p.lines) }

        // Together they are a picture as `decode` returns it.
        ensures size { IfOk result (λ p. IsWhole (shape_in self.new) (concat p.lines)) }

        // There are as many samples as the format of `info` says.
        ensures counted { IfOk result (λ _. IsCounted (shape_in self.new)) }
    {
        self.begin()?;
        let result = show_rest(
            self.alloc,
            &mut self.source,
            &mut self.state,
            self.settings,
            &mut self.exceeded,
        );
        self.progress = progress_after(result.is_ok(), Progress::Finished);
        result
    }

    /// Reads as far as the stream goes, and returns the picture that it has brought up to its first
    /// fault, and that fault, or none if the stream is whole.
    ///
    /// The blocks before the fault count, in a progressive picture those of all scans before it,
    /// and of a lossless scan the rows of MCUs that are whole; what no scan has brought is
    /// mid-grey. A marker in place of them is a fault, where `decode` takes zeros for the missing
    /// bits.
    ///
    /// It takes no more memory than `decode`. At 1/8 it takes longer, as it doesn't skip the AC
    /// coefficients of a sequential picture.
    ///
    /// Errors: the fault, if no frame header was accepted before it; `Format` if the picture is
    /// above the limit, the colour transform doesn't fit it, or it has no luma of its own and
    /// `set_luma` asks for that; `OutOfMemory`; and `Internal` only if the decoder has failed or
    /// has already decoded its image.
    pub fn decode_partial(&mut self) -> Result<PartialPicture>
        // What the source's bytes bring, and the state: see `Shows`.
        ensures shows { Shows (λ p. p.pixels.items) (λ p. p.fault) self.old result self.new }

        // For any bytes, it counts the complete rows of the picture.
        ensures rows { IsReading self.old.stage → CountsRows (λ p. p.whole_rows)
            (whole_rows_ahead self.old.settings.max_blocks self.old.stage self.old.found)
            self.old.source result self.new.source }

        // The settings stay.
        ensures settings { self.new.settings ≡ self.old.settings }

        // Where no image is left to decode nothing changes.
        ensures still { (IsReading self.old.stage → ⊥) → self.new ≡ self.old }

        // The frame that `read_info` read stays.
        ensures stays { self.old.stage ≡ HeaderRead
            → self.new.found.said.frame ≡ self.old.found.said.frame }

        // After an Ok there is a frame, so that `info` answers.
        ensures framed { IfOk result (λ _. is_some self.new.found.said.frame ≡ true) }

        // The picture has as many bytes as the frame says.
        ensures size { IfOk result (λ p. IsWhole (shape_in self.new) p.pixels.items) }

        // There are as many samples as the format of `info` says.
        ensures counted { IfOk result (λ _. IsCounted (shape_in self.new)) }
    {
        let shown = self.decode_partial_lines()?;
        match shown.lines.into_picture(self.alloc) {
            Ok(pixels) => Ok(PartialPicture {
                pixels,
                whole_rows: shown.whole_rows,
                fault: shown.fault,
            }),
            Err(error) => {
                self.progress = Progress::Failed;
                Err(error)
            }
        }
    }

    /// Like `decode`, but writes the picture to the start of the caller's memory, so that no second
    /// picture is needed, and returns its size in bytes. The rest is unchanged. Reads the header
    /// first if necessary.
    ///
    /// Errors: those of `decode`, and `Internal` if `pixels` is shorter than the picture, whose
    /// size is `DecodingBytes::picture`. In that case nothing of the scans is read, and the decoder
    /// is as after `read_info`, so the call can be repeated with more room. After any error
    /// `pixels` is unchanged.
    pub fn decode_into(&mut self, pixels: &mut [u8]) -> Result<usize>
        // Where there is room for the picture, all is as for `decode`.
        ensures decodes { HasRoom (shape_in self.new) (length pixels.old)
            → Decodes (λ n. take n pixels.new) self.old result self.new }

        // Where there is none, it is a refusal, and the decoder is as after `read_info`.
        ensures short { IsReading self.old.stage
            → (HasRoom (shape_in self.new) (length pixels.old) → ⊥)
            → ReadsHeaderAlone self.old result self.new }

        // What follows the picture stays, and after an error all does.
        ensures rest { IfOk result (λ n. drop n pixels.new ≡ drop n pixels.old) }
        ensures unwritten { OnErr result (pixels.new ≡ pixels.old) }

        // The settings stay.
        ensures settings { self.new.settings ≡ self.old.settings }

        // Where no image is left to decode it is `Internal`, whatever room there is, and nothing
        // changes.
        ensures ended { (IsReading self.old.stage → ⊥) → IsErrAnd result IsInternal }
        ensures still { (IsReading self.old.stage → ⊥) → self.new ≡ self.old }

        // The frame that `read_info` read stays.
        ensures stays { self.old.stage ≡ HeaderRead
            → self.new.found.said.frame ≡ self.old.found.said.frame }

        // After an Ok there is a frame, so that `info` answers.
        ensures framed { IfOk result (λ _. is_some self.new.found.said.frame ≡ true) }

        // The picture has as many bytes as the frame says, and the memory has them.
        ensures size { IfOk result (λ n. IsWhole (shape_in self.new) (take n pixels.new)) }

        // There are as many samples as the format of `info` says.
        ensures counted { IfOk result (λ _. IsCounted (shape_in self.new)) }
    {
        self.begin()?;
        let size = size_within(&self.state, pixels.len(), self.settings)?;
        let mut lines = self.decode_lines()?;
        lines.write_all(&mut pixels[..size]);
        Ok(size)
    }

    /// Returns the components of the frame in the order of its header, with their identifiers and
    /// sampling factors, and their sizes at the scale that was chosen, once a frame was accepted,
    /// in every state.
    pub fn components(&self) -> Option<&[Component]>
        ensures { option_map (λ components. map component_in components.now) result
            ≡ option_map (λ f. f.components) self.now.found.said.frame }
    {
        self.state
            .said
            .frame
            .as_ref()
            .map(|frame| frame.components.as_slice())
    }

    /// Returns the colour transform that the stream asks for once a frame has been accepted, in
    /// every state: by the identifiers of its components, and the JFIF and Adobe segments read so
    /// far. It is `ColorTransform::None` for a picture of one component and for a lossless one,
    /// which aren't converted.
    ///
    /// What `set_color_transform` has set makes no difference. Segments after the frame header
    /// count too: `decode` uses what all segments of the image say.
    pub fn stream_transform(&self) -> Option<ColorTransform>
        ensures { result ≡ option_map (frame_transform self.now.found.said.metadata)
            self.now.found.said.frame }
    {
        let said = &self.state.said;
        let frame = said.frame.as_ref()?;
        Some(frame_transform(&said.metadata, frame))
    }
}

impl<'a> Decoder<SliceReader<'a>> {
    /// Shows what `decode_partial_lines` shows, and reads only what follows a checkpoint of the
    /// stream, which are these bytes.
    pub(crate) fn show_lines_after(
        &mut self,
        checkpoint: &Checkpoint,
        rest: &'a [u8],
    ) -> Result<PartialLines>
        requires stage { self.old.stage ≡ HeaderRead }
        requires known { self.old.source.known ≡ true }
        requires sound { IsSound checkpoint.now.state }
        requires framed { checkpoint.now.state.said.frame ≡ self.old.found.said.frame }
        requires walks { let c = checkpoint.now in
            all_brought self.old.settings.max_blocks self.old.found self.old.source.bytes
            ≡ steps_over c.left Nothing c.state c.step rest.now }
        requires short { length rest.now + 1 < 2 ^ 64 }
        ensures shows { Shows (λ p. concat p.lines) (λ p. p.fault) self.old result self.new }
        ensures rows { CountsRows (λ p. p.whole_rows)
            (whole_rows_rest self.old.settings.max_blocks self.old.found)
            self.old.source result self.new.source }
        ensures settings { self.new.settings ≡ self.old.settings }
        ensures stays { self.new.found.said.frame ≡ self.old.found.said.frame }
        ensures framed { IfOk result (λ _. is_some self.new.found.said.frame ≡ true) }
        ensures lines { IfOk result (λ p. AreLinesOf (shape_in self.new) p.lines) }
        ensures size { IfOk result (λ p. IsWhole (shape_in self.new) (concat p.lines)) }
        ensures counted { IfOk result (λ _. IsCounted (shape_in self.new)) }
    {
        if let Err(error) = checkpoint.resume(self.alloc, rest, &mut self.source, &mut self.state) {
            drop_decoded(&mut self.state, self.alloc);
            self.progress = Progress::Failed;
            return Err(error);
        }
        let mut walk = Walk {
            budget: Budget {
                left: checkpoint.left,
                exceeded: false,
            },
            rows: None,
        };
        let result = show_from(
            self.alloc,
            &mut self.source,
            &mut self.state,
            checkpoint.step,
            &mut walk,
            self.settings,
        );
        self.exceeded = walk.budget.exceeded;
        self.progress = progress_after(result.is_ok(), Progress::Finished);
        result
    }
}
