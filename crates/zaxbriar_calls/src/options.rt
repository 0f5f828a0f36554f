//! How a stream is to be decoded.
ghost use Rattle.std.specs.Prelude.{◌≡◌, ◌==◌, IsOk, OnOk, true};
ghost use Rattle.std.specs.List.{list_all};
ghost use Rattle.jpeg_meaning.specs.DecodedImages.{at_size};
ghost use Rattle.jpeg_meaning.specs.Found.{with_said};
ghost use Rattle.jpeg_meaning.specs.Output.{default_settings};
ghost use Rattle.jpeg_meaning.specs.declared.progress.Progress.TheVariants.{HeaderRead};
ghost use Rattle.zaxbriar_calls.specs.Boxed.{is_fitted};
ghost use Rattle.zaxbriar_calls.specs.Crops.{is_cropped};
ghost use Rattle.zaxbriar_calls.specs.Limits.{are_as_coded, are_known, are_known_for};
ghost use Rattle.zaxbriar_calls.specs.Limits.{blocks_of_passes, is_denominator, is_full_size};
ghost use Rattle.zaxbriar_calls.specs.Limits.{is_rest_zero};
ghost use Rattle.zaxbriar_calls.specs.Meanings.{least_side, scale_by, settings_at, settings_of};
ghost use Rattle.zaxbriar_calls.specs.Meanings.{number_of_transform, size_wanted};
ghost use Rattle.zaxbriar_calls.specs.Meanings.{transform_number};

use crate::extents::Extent;
use jpeg_decoder::error::Result;
use jpeg_decoder::{ColorTransform, Decoder, Scale};
use jpeg_orientation::areas::Area;
use std::io::Read;

/// How a stream is to be decoded: `zaxbriar_options` of the header. All zeros ask for the picture
/// as it is stored, at full size and without gaps.
#[repr(C)]
#[derive(Clone, Copy)]
pub struct Options {
    /// The most samples that a picture may have, at its scale; 0 for any number.
    pub max_samples: u64,
    /// The bytes from one line to the next; 0 for no gaps.
    pub stride: u64,
    /// The picture is decoded at the least of 1/8, 1/4, 1/2 and 1 of its size at which it is at
    /// least that wide or at least that high. Where one of the two is 0 the other alone decides;
    /// where both are, the picture has its full size.
    pub min_width: u16,
    pub min_height: u16,
    /// The number of a colour transform in place of the stream's; 0 for the stream's. Without a
    /// conversion, which is 1, a line has its samples component after component, so that no other
    /// layout than 0 goes with it.
    pub transform: u8,
    /// The number of a layout; 0 for the picture as it is stored.
    pub layout: u8,
    /// The denominator of the scale: 1, 2, 4 or 8 for exactly that part of each side, rounded up,
    /// whatever the two above are; 0 for what they say.
    pub scale: u8,
    /// 1 where the rows stand from the bottom: the first one last in memory; and else 0.
    pub bottom_up: u8,
    /// The most bytes that decoding may take beside the caller's memory, as `decoding_bytes` of the
    /// picture counts them; 0 for any number.
    pub max_bytes: u64,
    /// Zero: where the C struct has pointers, which only C code reads.
    pub pointer_words: [u64; 2],
    /// How many times the scans of a stream may code the blocks of its picture, all together; 0 for
    /// any number.
    pub max_passes: u64,
    /// 1 where the picture is turned upright by the orientation in the Exif data of its header; and
    /// else 0. Without a conversion (transform 1) it can't be.
    pub upright: u8,
    /// 1 where the luma of a picture in colour is to be given, without its colours; and else 0.
    /// Pictures of one component and lossless ones aren't affected. A picture whose first component
    /// isn't luma is refused as a fault of Format.
    pub luma: u8,
    /// Zero.
    pub reserved_bytes: [u8; 6],
    /// The part that is asked for of the picture that the other options ask for, at its scale and
    /// turned upright where they say so; all zeros for all of it. Without a conversion (transform
    /// 1) it can't be a part.
    pub crop: Area,
    /// The greatest width and height of the picture as it is shown; 0 for any. A picture, or its
    /// part, that is greater is made smaller, in its proportions: each sample is the mean of those
    /// of its box. Without a conversion (transform 1) it can't be.
    pub most_width: u16,
    pub most_height: u16,
    /// Zero.
    pub reserved_half: [u8; 4],
    /// Zero.
    pub reserved_words: [u64; 6],
}

/// All of a picture.
const NO_CROP: Area = Area {
    left: 0,
    top: 0,
    width: 0,
    height: 0,
};

/// The picture as it is stored, at full size and without gaps, whatever its size is.
pub const AS_STORED: Options = Options {
    max_samples: 0,
    stride: 0,
    min_width: 0,
    min_height: 0,
    transform: 0,
    layout: 0,
    scale: 0,
    bottom_up: 0,
    max_bytes: 0,
    pointer_words: [0; 2],
    max_passes: 0,
    upright: 0,
    luma: 0,
    reserved_bytes: [0; 6],
    crop: NO_CROP,
    most_width: 0,
    most_height: 0,
    reserved_half: [0; 4],
    reserved_words: [0; 6],
};

/// Returns whether a number is the denominator of a scale, or 0.
fn is_denominator(number: u8) -> bool
    ensures { result ≡ is_denominator number }
{
    number == 0 || number == 1 || number == 2 || number == 4 || number == 8
}

/// Returns whether all of some words are 0.
fn are_zero(words: &[u64]) -> bool
    ensures { result ≡ list_all (λ word. word == 0) words.now }
{
    words.iter().all(|word| *word == 0)
}

/// Returns whether all of some bytes are 0.
fn are_zero_bytes(bytes: &[u8]) -> bool
    ensures { result ≡ list_all (λ byte. byte == 0) bytes.now }
{
    bytes.iter().all(|byte| *byte == 0)
}

/// Returns whether all that is reserved is 0.
fn is_rest_zero(options: &Options) -> bool
    ensures { result ≡ is_rest_zero options.now }
{
    are_zero(&options.pointer_words)
        && are_zero(&options.reserved_words)
        && (are_zero_bytes(&options.reserved_bytes) && are_zero_bytes(&options.reserved_half))
}

/// Returns whether a part of the picture is asked for.
pub fn is_cropped(options: &Options) -> bool
    ensures { result ≡ is_cropped options.now }
{
    let crop = options.crop;
    crop.left != 0 || (crop.top != 0 || (crop.width != 0 || crop.height != 0))
}

/// Returns whether the picture is to fit within a size.
pub fn is_fitted(options: &Options) -> bool
    ensures { result ≡ is_fitted options.now }
{
    options.most_width != 0 || options.most_height != 0
}

/// Returns whether the picture is to have its full size, whatever that is.
pub fn is_full_size(options: &Options) -> bool
    ensures { result ≡ is_full_size options.now }
{
    options.scale == 0 && (options.min_width == 0 && options.min_height == 0)
}

/// Returns whether all options exist whatever the picture is.
pub fn are_known(options: &Options) -> bool
    ensures { result ≡ are_known options.now }
{
    (options.transform != 1
        || (options.layout == 0
            && (options.upright == 0 && (!is_cropped(options) && !is_fitted(options)))))
        && options.transform <= 5
        && is_denominator(options.scale)
        && options.bottom_up <= 1
        && options.upright <= 1
        && options.luma <= 1
        && is_rest_zero(options)
}

/// Returns whether no option asks for other samples than the stream has, or for another arrangement
/// of them.
fn are_as_coded(options: &Options) -> bool
    ensures { result ≡ are_as_coded options.now }
{
    options.stride == 0
        && (options.layout == 0
            && (options.bottom_up == 0
                && (options.transform == 0
                    && (options.upright == 0
                        && (options.luma == 0 && (!is_cropped(options) && !is_fitted(options)))))))
}

/// Returns whether all options exist for what is asked for.
pub fn are_known_for(extent: Extent, options: &Options) -> bool
    ensures { result ≡ are_known_for extent options.now }
{
    match extent {
        Extent::Whole => are_known(options),
        Extent::Partial => are_known(options),
        Extent::Planes => are_known(options) && are_as_coded(options),
    }
}

/// Returns the colour transform of a number.
fn transform_of(number: u8) -> Option<ColorTransform>
    ensures { result ≡ transform_number number }
{
    match number {
        1 => Some(ColorTransform::None),
        2 => Some(ColorTransform::RGB),
        3 => Some(ColorTransform::YCbCr),
        4 => Some(ColorTransform::CMYK),
        5 => Some(ColorTransform::YCCK),
        _ => None,
    }
}

/// Returns the number of a transform among the options, and 0 for one that is refused.
pub fn number_of_transform(transform: ColorTransform) -> u8
    ensures { result ≡ number_of_transform transform }
{
    match transform {
        ColorTransform::None => 1,
        ColorTransform::RGB => 2,
        ColorTransform::YCbCr => 3,
        ColorTransform::CMYK => 4,
        ColorTransform::YCCK => 5,
        _ => 0,
    }
}

/// Gives a decoder the settings of some options.
pub fn apply<R: Read + Drop>(decoder: &mut Decoder<R>, options: &Options)
    requires fresh { decoder.old.settings ≡ default_settings }
    ensures { decoder.new ≡ record decoder.old { settings = settings_of options.now } }
{
    if let Some(transform) = transform_of(options.transform) {
        decoder.set_color_transform(transform);
    }
    decoder.set_luma(options.luma == 1);
}

/// Returns the scale of a denominator.
fn scale_of(denominator: u8) -> Option<Scale>
    ensures { result ≡ scale_by denominator }
{
    match denominator {
        1 => Some(Scale::Full),
        2 => Some(Scale::Half),
        4 => Some(Scale::Quarter),
        8 => Some(Scale::Eighth),
        _ => None,
    }
}

/// Returns the least length of a side for `Decoder::scale`, of one that may be 0: a side is 65,535
/// samples long at full size alone, so that the other side decides.
fn least_side(side: u16) -> u16
    ensures { result ≡ least_side side }
{
    if side == 0 { u16::MAX } else { side }
}

/// Chooses the scale of the picture whose header was read.
fn apply_size<R: Read + Drop>(decoder: &mut Decoder<R>, options: &Options) -> Result<()>
    requires read { decoder.old.stage ≡ HeaderRead }
    ensures sized { OnOk result (decoder.new ≡ record decoder.old
        { found = with_said (at_size (size_wanted options.now)) decoder.old.found }) }
    ensures ok { IsOk result }
{
    if let Some(scale) = scale_of(options.scale) {
        decoder.set_scale(scale)?;
    } else if options.min_width != 0 || options.min_height != 0 {
        decoder.scale(
            least_side(options.min_width),
            least_side(options.min_height),
        )?;
    }
    Ok(())
}

/// Returns how many blocks the scans may code that go this many times over the picture whose header
/// was read, or none for 0, which is no limit.
pub fn blocks_of_passes<R: Read + Drop>(decoder: &Decoder<R>, max_passes: u64) -> Option<u64>
    requires read { decoder.now.stage ≡ HeaderRead }
    ensures { result ≡ blocks_of_passes max_passes decoder.now.found.said.frame }
{
    if max_passes == 0 {
        return None;
    }
    match decoder.picture_blocks() {
        Some(blocks) => Some(max_passes.saturating_mul(blocks)),
        None => None,
    }
}

/// Chooses the scale of the picture whose header was read, and limits its scans.
pub fn apply_to_header<R: Read + Drop>(decoder: &mut Decoder<R>, options: &Options) -> Result<()>
    requires read { decoder.old.stage ≡ HeaderRead }
    requires plain { decoder.old.settings ≡ settings_of options.now }
    ensures applied { OnOk result (decoder.new ≡ record decoder.old {
      found = with_said (at_size (size_wanted options.now)) decoder.old.found;
      settings = settings_at options.now
          (with_said (at_size (size_wanted options.now)) decoder.old.found);
    }) }
    ensures ok { IsOk result }
{
    apply_size(decoder, options)?;
    let max_blocks = blocks_of_passes(decoder, options.max_passes);
    decoder.set_max_blocks(max_blocks);
    Ok(())
}
