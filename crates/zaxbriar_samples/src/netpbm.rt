//! Pictures as files of the netpbm formats PGM, PPM and PAM.
ghost use Rattle.std.specs.Prelude.{◌≡◌, ◌≤◌, ◌++◌, All, IfErr, IfOk, OnOk};
ghost use Rattle.std.specs.Prelude.{if◌then◌else◌, string_bytes};
ghost use Rattle.std.specs.Io.KnownBytes.{Appends};
ghost use Rattle.zaxbriar_samples.specs.Netpbm.{file_of, file_samples, greatest_of_bits};
ghost use Rattle.zaxbriar_samples.specs.Netpbm.{greatest_value, header_in, higher_first};
ghost use Rattle.zaxbriar_samples.specs.Netpbm.{pam_header, plain_header};
ghost use Rattle.zaxbriar_samples.specs.Refusals.{IsOfWriter};
ghost use Rattle.zaxbriar_samples.specs.Samples.{is_wide, samples_of};

use crate::samples::{greatest_sample, is_wide};
use jpeg_bits::error::Result;
use jpeg_meaning::images::{ImageInfo, PixelFormat};
use std::alloc::{AllocError, Global};
use std::io;
use std::io::Write;

/// A picture that was decoded.
#[derive(Drop)]
pub struct Picture {
    /// Its size and format.
    pub info: ImageInfo,
    /// How many bits a sample has.
    pub precision: u8,
    /// Its samples line by line, of two bytes each above 8 bits, the lower byte first.
    pub pixels: Vec<u8>,
}

/// Returns the greatest value of a sample of this many bits. The netpbm formats end at 16 bits, as
/// frames do.
fn greatest_of_bits(precision: u8) -> u16
    ensures { result ≡ greatest_of_bits precision }
{
    if precision >= 16 {
        return u16::MAX;
    }
    ((1u32 << precision) - 1) as u16
}

/// Returns the greatest value of a sample that takes as many bytes as one of this many bits.
pub(crate) fn greatest_of_bytes(precision: u8) -> u16
    ensures { result ≡ (if is_wide precision then 65535 else 255) }
{
    if is_wide(precision) { 65535 } else { 255 }
}

/// Returns MAXVAL, the greatest value that a sample of the picture's file may have.
fn greatest_value(pixels: &[u8], precision: u8) -> u16
    ensures value { result ≡ greatest_value precision pixels.now }
    ensures most { All (λ sample. sample ≤ result) (samples_of precision pixels.now) }
{
    let whole = greatest_of_bits(precision);
    if greatest_sample(pixels, precision) <= whole {
        return whole;
    }
    greatest_of_bytes(precision)
}

/// Returns the header of a PGM or a PPM file.
fn plain_header(
    alloc: Global,
    kind: &str,
    info: ImageInfo,
    maxval: u16,
) -> std::result::Result<String, AllocError>
    ensures { IfOk result (λ text. string_bytes text ≡ plain_header kind.now info maxval) }
{
    let width = info.width;
    let height = info.height;
    format!(in alloc; "{kind}\n{width} {height}\n{maxval}\n")
}

/// Returns the header of a PAM file of cyan, magenta, yellow and black.
fn pam_header(
    alloc: Global,
    info: ImageInfo,
    maxval: u16,
) -> std::result::Result<String, AllocError>
    ensures { IfOk result (λ text. string_bytes text ≡ pam_header info maxval) }
{
    let width = info.width;
    let height = info.height;
    let kind = "TUPLTYPE CMYK\nENDHDR";
    format!(in alloc; "P7\nWIDTH {width}\nHEIGHT {height}\nDEPTH 4\nMAXVAL {maxval}\n{kind}\n")
}

/// Returns what stands before the samples in a file of a picture.
pub fn header(
    alloc: Global,
    info: ImageInfo,
    maxval: u16,
) -> std::result::Result<String, AllocError>
    ensures { IfOk result (λ text. string_bytes text ≡ header_in info.pixel_format info maxval) }
{
    match info.pixel_format {
        PixelFormat::L8 | PixelFormat::L16 => plain_header(alloc, "P5", info, maxval),
        PixelFormat::RGB24 => plain_header(alloc, "P6", info, maxval),
        PixelFormat::CMYK32 => pam_header(alloc, info, maxval),
    }
}

/// Puts the higher byte of each sample of two bytes first.
fn put_higher_first(samples: &mut [u8])
    ensures { samples.new ≡ higher_first samples.old }
{
    for index in 0..samples.len() / 2 {
        samples.swap(2 * index, 2 * index + 1);
    }
}

/// Returns the pixels in the order of bytes that a file has.
fn in_file_order(precision: u8, mut pixels: Vec<u8>) -> Vec<u8>
    ensures { result.items ≡ file_samples precision pixels.items }
{
    if is_wide(precision) {
        put_higher_first(pixels.as_mut_slice());
    }
    pixels
}

/// Writes two texts, one after the other.
pub fn write_both<W: Write>(writer: &mut W, first: &[u8], second: &[u8]) -> io::Result<()>
    ensures { OnOk result (Appends (W.contents writer.old) (W.contents writer.new)
        (first.now ++ second.now)) }
{
    writer.write_all(first)?;
    writer.write_all(second)
}

/// Writes a picture as a file: the header, and then its samples line by line.
pub fn write_picture<W: Write>(alloc: Global, picture: Picture, writer: &mut W) -> Result<()>
    ensures file { OnOk result (Appends (W.contents writer.old) (W.contents writer.new)
        (file_of picture.info picture.precision picture.pixels.items)) }

    // No sample is above the MAXVAL that the file's header has.
    ensures most { OnOk result (All (λ sample. sample
        ≤ greatest_value picture.precision picture.pixels.items)
        (samples_of picture.precision picture.pixels.items)) }

    // The errors are those of the writer, and out of memory.
    ensures refused { IfErr result IsOfWriter }
{
    let maxval = greatest_value(picture.pixels.as_slice(), picture.precision);
    let header = header(alloc, picture.info, maxval)?;
    let samples = in_file_order(picture.precision, picture.pixels);
    write_both(writer, header.as_bytes(), samples.as_slice())?;
    Ok(())
}
