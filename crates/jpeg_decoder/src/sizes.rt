//! The memory that decoding takes, judging by the frame header.
ghost use Rattle.std.specs.Prelude.{◌≡◌, ◌<◌, ◌≤◌, ◌*◌, ◌^◌, length, sum_by};
ghost use Rattle.jpeg_segments.specs.Frame.{AllHaveSampling};
ghost use Rattle.jpeg_segments.specs.FrameView.{component_in, frame_in};
ghost use Rattle.jpeg_decoder.specs.Bytes.{beside_planes, bytes_a_sample, coefficient_bytes};
ghost use Rattle.jpeg_decoder.specs.Bytes.{decoding_bytes, line_bytes, picture_size, plane_bytes};
ghost use Rattle.jpeg_decoder.specs.ByRows.{strip_size};
ghost use Rattle.jpeg_decoder.specs.Bytes.{rows_bytes, shape_of, window_bytes};
ghost use Rattle.jpeg_meaning.specs.FoundPlanes.{samples_in};
ghost use Rattle.jpeg_meaning.specs.Pixels.{samples_shown};
ghost use Rattle.jpeg_meaning.specs.Sound.{IsDecodedFrame};

use crate::by_rows::window::unit_lines;
use jpeg_meaning::settings::Settings;
use jpeg_segments::parser::{CodingProcess, Component, FrameInfo};

/// How many bytes decoding a picture takes, judging by its frame header, at the scale that was
/// chosen, and by whether its luma alone is asked for.
///
/// `decode_partial` and `decode_planes` take no more. All of these but `rows` grow with the
/// picture. Metadata, tables, the reader's buffer, the few lines converted at a time, what vectors
/// that grow reserve and the allocator's overhead are not counted; nor are the planes that a
/// sequential scan has for all of its components while it is read, if only some of them have planes
/// already. If one sequential scan had all components with equal sampling factors, two copies
/// aren't counted either: that of the luma's plane in `decode_partial`, where that alone is asked
/// for, and that of all planes in `decode_planes`.
#[derive(Clone, Copy, Debug, PartialEq)]
pub struct DecodingBytes {
    /// The coefficients that are buffered, two bytes each: those of a row of MCUs for a sequential
    /// frame, of all blocks for a progressive one, and none for a lossless one.
    pub coefficients: u64,
    /// The planes of all components, also where the picture is the luma alone: a byte per sample of
    /// all blocks at the scale, or two bytes per sample for a lossless frame.
    pub planes: u64,
    /// The picture that `decode` returns.
    pub picture: u64,
    /// The most that is in use at a time: coefficients and planes while scans are read, and planes
    /// and picture at the end. The plane of a frame of one component, and that of the luma where it
    /// alone is asked for, becomes the picture itself, unless the frame is lossless.
    pub peak: u64,
    /// The most that `Rows` takes at a time of a sequential frame whose first scan has all
    /// components: the coefficients, the samples of two rows of MCUs, the lines that one decides,
    /// and two lines more. Where the luma alone is asked for, and of other frames, it is what
    /// `decode_lines` takes, coefficients and planes; so it is of a sequential frame whose first
    /// scan lacks a component, which no header tells.
    pub rows: u64,
}

/// Returns the product of a width and a height.
fn area(width: u16, height: u16) -> u64
    ensures product { result ≡ width * height }
    ensures most { result < 2 ^ 32 }
{
    u64::from(width) * u64::from(height)
}

/// Returns how many samples there are along a row of blocks, each of `scale` samples a side.
fn along(blocks: u16, scale: usize) -> u64
    requires { scale ≤ 8 }
    ensures product { result ≡ blocks * scale }
    ensures most { result < 2 ^ 19 }
{
    u64::from(blocks) * scale as u64
}

/// Returns how many bytes the buffered coefficients of a component take.
fn coefficient_bytes(component: &Component, process: CodingProcess) -> u64
    ensures bytes { result ≡ coefficient_bytes process (component_in component.now) }
    ensures most { result < 2 ^ 39 }
{
    let blocks = component.block_size;
    match process {
        CodingProcess::DctSequential => {
            128 * area(blocks.width, u16::from(component.vertical_sampling_factor))
        }
        CodingProcess::DctProgressive => 128 * area(blocks.width, blocks.height),
        CodingProcess::Lossless => 0,
    }
}

/// Returns how many bytes the plane of a component takes.
fn plane_bytes(component: &Component, process: CodingProcess) -> u64
    requires { component.now.dct_scale ≤ 8 }
    ensures bytes { result ≡ plane_bytes process (component_in component.now) }
    ensures most { result < 2 ^ 38 }
{
    match process {
        CodingProcess::DctSequential | CodingProcess::DctProgressive => {
            let blocks = component.block_size;
            let scale = component.dct_scale;
            along(blocks.width, scale) * along(blocks.height, scale)
        }
        CodingProcess::Lossless => 2 * area(component.size.width, component.size.height),
    }
}

/// Returns how many bytes the samples of a component in a row of MCUs take, in a frame of blocks.
fn strip_bytes(component: &Component) -> u64
    requires { component.now.dct_scale ≤ 8 }
    ensures bytes { result ≡ strip_size (component_in component.now) }
    ensures most { result < 2 ^ 38 }
{
    let scale = component.dct_scale;
    let high = u16::from(component.vertical_sampling_factor);
    along(high, scale) * along(component.block_size.width, scale)
}

/// Returns how many bytes the coefficients and the planes of all components take, and their samples
/// in a row of MCUs.
fn component_bytes(frame: &FrameInfo) -> (u64, u64, u64)
    requires few { length (frame_in frame.now).components ≤ 4 }
    requires sampling { AllHaveSampling (frame_in frame.now).components }
    ensures coefficients { result.0 ≡ sum_by (coefficient_bytes (frame_in frame.now).process)
        (frame_in frame.now).components }
    ensures planes { result.1 ≡ sum_by (plane_bytes (frame_in frame.now).process)
        (frame_in frame.now).components }
    ensures strips { result.2 ≡ sum_by strip_size (frame_in frame.now).components }
    ensures most { (result.0 ≤ 2 ^ 41) × (result.1 ≤ 2 ^ 40) × (result.2 ≤ 2 ^ 40) }
{
    let mut coefficients = 0;
    let mut planes = 0;
    let mut strips = 0;
    for i in 0..frame.components.len() {
        let component = &frame.components[i];
        coefficients += coefficient_bytes(component, frame.coding_process);
        planes += plane_bytes(component, frame.coding_process);
        strips += strip_bytes(component);
    }
    (coefficients, planes, strips)
}

/// Returns how many samples all components have together, each at its own size.
pub(crate) fn samples_in(frame: &FrameInfo) -> u64
    requires { length (frame_in frame.now).components ≤ 4 }
    ensures { result ≡ samples_in (frame_in frame.now) }
{
    let mut samples = 0;
    for i in 0..frame.components.len() {
        let size = frame.components[i].size;
        samples += area(size.width, size.height);
    }
    samples
}

/// Returns how many bytes a pixel of this many samples takes.
fn pixel_bytes(count: usize, precision: u8) -> u64
    requires { count ≤ 4 }
    ensures product { result ≡ count * bytes_a_sample precision }
    ensures most { result ≤ 8 }
{
    if precision <= 8 {
        count as u64
    } else {
        2 * count as u64
    }
}

/// Returns how many samples a pixel of the picture has.
pub(crate) fn samples_shown(frame: &FrameInfo, settings: Settings) -> usize
    ensures samples { result ≡ samples_shown settings (frame_in frame.now) }
    ensures few { length (frame_in frame.now).components ≤ 4 → result ≤ 4 }
{
    if !settings.luma {
        return frame.components.len();
    }
    match frame.coding_process {
        CodingProcess::DctSequential | CodingProcess::DctProgressive => 1,
        CodingProcess::Lossless => frame.components.len(),
    }
}

/// Returns how many bytes the picture takes.
#[tactic(auto, unfolding(crate::specs::Bytes::picture_size))]
pub(crate) fn picture_bytes(frame: &FrameInfo, settings: Settings) -> u64
    requires { length (frame_in frame.now).components ≤ 4 }
    ensures bytes { result ≡ picture_size (shape_of settings (frame_in frame.now)) }
    ensures most { result < 2 ^ 35 }
{
    let size = frame.output_size;
    let pixel = pixel_bytes(samples_shown(frame, settings), frame.precision);
    area(size.width, size.height) * pixel
}

/// Returns how many bytes a line of the picture takes.
#[tactic(auto, unfolding(crate::specs::Bytes::line_bytes))]
pub(crate) fn line_bytes(frame: &FrameInfo, settings: Settings) -> usize
    requires { length (frame_in frame.now).components ≤ 4 }
    ensures { result ≡ line_bytes (shape_of settings (frame_in frame.now)) }
{
    let pixel = pixel_bytes(samples_shown(frame, settings), frame.precision);
    usize::from(frame.output_size.width) * pixel as usize
}

/// Returns how many bytes a picture of this many samples a pixel takes beside the planes that it is
/// made of.
fn beside_planes(process: CodingProcess, samples: usize, picture: u64) -> u64
    ensures bytes { result ≡ beside_planes process samples picture }
    ensures most { result ≤ picture }
{
    match process {
        CodingProcess::DctSequential | CodingProcess::DctProgressive => {
            if samples == 1 { 0 } else { picture }
        }
        CodingProcess::Lossless => picture,
    }
}

/// Returns how many bytes a few lines take.
fn lines_bytes(lines: u64, samples: u64, width: u16) -> u64
    requires lines { lines ≤ 34 }
    requires samples { samples ≤ 4 }
    ensures product { result ≡ lines * (samples * width) }
    ensures most { result < 2 ^ 24 }
{
    lines * (samples * u64::from(width))
}

/// Returns how many bytes are kept beside the blocks of a row of MCUs where lines are given as a
/// scan is read.
#[tactic(auto, unfolding(crate::specs::Bytes::window_bytes))]
fn window_bytes(frame: &FrameInfo, strips: u64) -> u64
    requires decoded { IsDecodedFrame (frame_in frame.now) }
    requires strips { strips ≡ sum_by strip_size (frame_in frame.now).components }
    requires most { strips ≤ 2 ^ 40 }
    ensures bytes { result ≡ window_bytes (frame_in frame.now) }
    ensures most { result < 2 ^ 42 }
{
    let lines = unit_lines(&frame.components) as u64 + 2;
    let samples = frame.components.len() as u64;
    2 * strips + lines_bytes(lines, samples, frame.output_size.width)
}

/// Returns how many bytes are kept where lines are given one after the other.
fn rows_bytes(process: CodingProcess, luma: bool, blocks: u64, planes: u64, window: u64) -> u64
    requires blocks { blocks ≤ 2 ^ 41 }
    requires planes { planes ≤ 2 ^ 40 }
    requires window { window < 2 ^ 42 }
    ensures { result ≡ rows_bytes process luma blocks planes window }
{
    match process {
        CodingProcess::DctSequential => blocks + if luma { planes } else { window },
        CodingProcess::DctProgressive | CodingProcess::Lossless => blocks + planes,
    }
}

/// Returns how many bytes decoding takes, judging by the frame header.
pub(crate) fn decoding_bytes(frame: &FrameInfo, settings: Settings) -> DecodingBytes
    requires { IsDecodedFrame (frame_in frame.now) }
    ensures { result ≡ decoding_bytes settings (frame_in frame.now) }
{
    let (coefficients, planes, strips) = component_bytes(frame);
    let picture = picture_bytes(frame, settings);
    let samples = samples_shown(frame, settings);
    let process = frame.coding_process;
    let end = planes + beside_planes(process, samples, picture);
    let window = window_bytes(frame, strips);
    DecodingBytes {
        coefficients,
        planes,
        picture,
        peak: (coefficients + planes).max(end),
        rows: rows_bytes(process, settings.luma, coefficients, planes, window),
    }
}
