//! Pictures as files of either format.
ghost use Rattle.std.specs.Prelude.{◌≡◌, IfErr, IsSomeAnd, OnOk, true};
ghost use Rattle.std.specs.Io.KnownBytes.{Appends};
ghost use Rattle.zaxbriar_samples.specs.DecodedPictures.{decoded_in};
ghost use Rattle.zaxbriar_samples.specs.Files.{file_as, has_pixels};
ghost use Rattle.zaxbriar_samples.specs.Refusals.{IsOfWriter};

use crate::netpbm::{Picture, write_picture};
use crate::png::{has_png, write_png};
use jpeg_bits::error::Result;
use jpeg_meaning::images::PixelFormat;
use std::alloc::Global;
use std::io::Write;

/// The format of a picture's file.
#[derive(Clone, Copy)]
pub enum PictureFormat {
    /// PGM, PPM or, of CMYK, PAM.
    Netpbm,
    /// PNG, which has no CMYK.
    Png,
}

/// Returns whether a format has the pixels of a picture.
pub fn has_pixels(format: PictureFormat, pixels: PixelFormat) -> bool
    ensures { result ≡ has_pixels format pixels }
{
    match format {
        PictureFormat::Netpbm => true,
        PictureFormat::Png => has_png(pixels),
    }
}

/// Writes a picture as a file.
pub fn write_file<W: Write>(
    alloc: Global,
    picture: Picture,
    format: PictureFormat,
    writer: &mut W,
) -> Result<()>
    requires { has_pixels format picture.info.pixel_format ≡ true }
    ensures file { OnOk result (IsSomeAnd (file_as format (decoded_in picture))
        (Appends (W.contents writer.old) (W.contents writer.new))) }
    ensures refused { IfErr result IsOfWriter }
{
    match format {
        PictureFormat::Netpbm => write_picture(alloc, picture, writer),
        PictureFormat::Png => write_png(alloc, picture, writer),
    }
}
