//! What a caller is told of a picture.
ghost use Rattle.std.specs.Prelude.{◌≡◌, ◌≤◌, ◌+◌};
ghost use Rattle.zaxbriar_calls.specs.Limits.{bytes_beside};
ghost use Rattle.zaxbriar_calls.specs.Lines.{described_picture, format_number, process_number};

use crate::answers::TEXT_BYTES;
use crate::density::Density;
use crate::header::Header;
use crate::layouts::{bytes_a_sample, samples_a_pixel};
use crate::limits::bytes_beside;
use crate::lines::{Lines, size_of_lines};
use jpeg_decoder::{CodingProcess, PixelFormat};

/// A picture as decoding with some options gives it: `zaxbriar_picture` of the header.
#[repr(C)]
#[derive(Clone, Copy)]
pub struct Picture {
    /// The bytes of the picture: `stride * (height - 1) + row_bytes`.
    pub size: u64,
    /// The bytes of a line without its gap: `width * pixel_bytes`.
    pub row_bytes: u64,
    /// The most memory for samples that decoding takes at a time beside the caller's.
    pub decoding_bytes: u64,
    /// After decoding, how many bytes of the stream were read.
    pub stream_bytes: u64,
    /// The size in pixels, at the scale of the options, and turned upright where they ask for that.
    pub width: u32,
    pub height: u32,
    /// After decoding in part, how many rows of the picture as the stream has it, from its top, are
    /// complete in each scan that has begun.
    pub whole_rows: u32,
    /// The bytes of a pixel in its layout.
    pub pixel_bytes: u8,
    /// The number of the layout that was asked for.
    pub layout: u8,
    /// How many samples a pixel has as it is stored, 1, 3 or 4: one of each component of the
    /// stream, or its luma alone, where the options ask for that.
    pub components: u8,
    /// The bits of a sample in the stream.
    pub precision: u8,
    /// The bytes of a sample as it is stored: 1 or 2.
    pub sample_bytes: u8,
    /// The number of the coding process.
    pub process: u8,
    /// The orientation by the Exif data, 1 to 8.
    pub orientation: u8,
    /// The number of the format.
    pub format: u8,
    /// After a refusal for a feature, or a part of a stream that lacks it here, its number and its
    /// argument.
    pub feature: u8,
    pub feature_argument: u8,
    /// The sampling factors of the components in the stream, in four bits each, and 0 for those
    /// that it doesn't have.
    pub sampling: [u8; 4],
    /// After a part of a stream, the number of its fault.
    pub fault: u8,
    /// The density that the header's JFIF segment gives, or zeros. The unit is 1 for dots per inch,
    /// 2 for dots per centimetre, and 0 where the two only say the shape of a pixel.
    pub density_unit: u8,
    pub horizontal_density: u16,
    pub vertical_density: u16,
    /// The number of the colour transform that the header asks for.
    pub transform: u8,
    /// Zero.
    pub reserved_byte: u8,
    /// The size of each component's samples in the stream, at the scale of the options, and 0 for
    /// those that it doesn't have.
    pub plane_width: [u16; 4],
    pub plane_height: [u16; 4],
    /// Zero.
    pub reserved_bytes: [u8; 6],
    /// The bytes of all these planes.
    pub planes_size: u64,
    /// Zero.
    pub reserved: [u8; 112],
    /// Why a call failed, ended by a zero; all zeros after a success.
    pub text: [u8; TEXT_BYTES],
}

/// No picture.
pub const NO_PICTURE: Picture = Picture {
    size: 0,
    row_bytes: 0,
    decoding_bytes: 0,
    stream_bytes: 0,
    width: 0,
    height: 0,
    whole_rows: 0,
    pixel_bytes: 0,
    layout: 0,
    components: 0,
    precision: 0,
    sample_bytes: 0,
    process: 0,
    orientation: 0,
    format: 0,
    feature: 0,
    feature_argument: 0,
    sampling: [0; 4],
    fault: 0,
    density_unit: 0,
    horizontal_density: 0,
    vertical_density: 0,
    transform: 0,
    reserved_byte: 0,
    plane_width: [0; 4],
    plane_height: [0; 4],
    reserved_bytes: [0; 6],
    planes_size: 0,
    reserved: [0; 112],
    text: [0; TEXT_BYTES],
};

/// Returns the number of a coding process.
fn process_number(process: CodingProcess) -> u8
    ensures { result ≡ process_number process }
{
    match process {
        CodingProcess::DctSequential => 1,
        CodingProcess::DctProgressive => 2,
        CodingProcess::Lossless => 3,
    }
}

/// Returns the number of a format.
fn format_number(format: PixelFormat) -> u8
    ensures { result ≡ format_number format }
{
    match format {
        PixelFormat::L8 => 1,
        PixelFormat::L16 => 2,
        PixelFormat::RGB24 => 3,
        PixelFormat::CMYK32 => 4,
    }
}

/// Returns what a caller is told of a picture before it is decoded, as a whole or in part.
pub fn picture_of(header: Header, density: Density, lines: Lines, layout: u8) -> Picture
    requires row { lines.row_bytes ≤ lines.stride }
    requires stride { lines.stride ≤ 4294967296 }
    requires peak { header.decoding_bytes.coefficients + header.decoding_bytes.planes
        ≤ header.decoding_bytes.peak }
    ensures { result ≡ described_picture layout header.info header.precision lines
        (bytes_beside header.decoding_bytes) header.orientation header.sampling header.planes
        header.transform density 0 }
{
    let sampling = header.sampling;
    let plane_width = header.planes.width;
    let plane_height = header.planes.height;
    Picture {
        size: size_of_lines(lines),
        row_bytes: lines.row_bytes,
        decoding_bytes: bytes_beside(header.decoding_bytes),
        stream_bytes: 0,
        width: u32::from(lines.width),
        height: u32::from(lines.height),
        whole_rows: 0,
        pixel_bytes: lines.pixel_bytes,
        layout,
        components: samples_a_pixel(header.info.pixel_format),
        precision: header.precision,
        sample_bytes: bytes_a_sample(header.precision),
        process: process_number(header.info.coding_process),
        orientation: header.orientation,
        format: format_number(header.info.pixel_format),
        feature: 0,
        feature_argument: 0,
        sampling,
        fault: 0,
        density_unit: density.unit,
        horizontal_density: density.horizontal,
        vertical_density: density.vertical,
        transform: header.transform,
        reserved_byte: 0,
        plane_width,
        plane_height,
        reserved_bytes: [0; 6],
        planes_size: header.planes.size,
        reserved: [0; 112],
        text: [0; TEXT_BYTES],
    }
}
