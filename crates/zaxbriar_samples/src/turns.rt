//! Pictures turned upright by the orientation in their Exif data (Exif 2.3, 4.6.4).
ghost use Rattle.std.specs.Prelude.{◌≡◌, ◌<◌, ◌++◌, ◌^◌, IfOk, MatchResult, OnOk};
ghost use Rattle.jpeg_bits.specs.declared.error.Error.TheVariants.{OutOfMemory};
ghost use Rattle.jpeg_orientation.specs.Turns.{stored_offset};
ghost use Rattle.zaxbriar_samples.specs.DecodedPictures.{decoded_in};
ghost use Rattle.zaxbriar_samples.specs.Turns.{bytes_of, turned_info, turned_pixels, upright};
ghost use Rattle.zaxbriar_samples.specs.Turns.{upright_line, upright_pixel};

use crate::netpbm::Picture;
use crate::samples::part_at;
use jpeg_bits::error;
use jpeg_meaning::images::{ImageInfo, PixelFormat};
use jpeg_orientation::turns::{
    Turn, flips_x, flips_y, is_on_side, mirrored, upright_height, upright_width,
};
use std::alloc::{AllocError, Global};

/// Returns the index in the stored picture of a pixel across and down in the upright one.
fn stored_offset(turn: Turn, across: u16, down: u16) -> usize
    ensures offset { result ≡ stored_offset turn across down }
    ensures most { result < 2 ^ 32 }
{
    let (along, line) = if is_on_side(turn.orientation) {
        (down, across)
    } else {
        (across, down)
    };
    let width = usize::from(turn.width);
    let height = usize::from(turn.height);
    let x = mirrored(flips_x(turn.orientation), width, usize::from(along));
    let y = mirrored(flips_y(turn.orientation), height, usize::from(line));
    y * width + x
}

/// Returns the bytes of the pixel across and down in the upright picture, from the stored one,
/// whose pixels have so many: those of them that it has.
#[tactic(auto, unfolding(crate::specs::Turns::upright_pixel))]
fn upright_pixel(turn: Turn, bytes: u8, pixels: &[u8], across: u16, down: u16) -> &[u8]
    ensures { result.now ≡ upright_pixel turn bytes pixels.now down across }
{
    let size = usize::from(bytes);
    part_at(pixels, stored_offset(turn, across, down) * size, size)
}

/// Appends the bytes of a pixel of the upright picture.
fn push_pixel(
    made: &mut Vec<u8>,
    turn: Turn,
    bytes: u8,
    pixels: &[u8],
    across: u16,
    down: u16,
) -> Result<(), AllocError>
    ensures { OnOk result (made.new.items ≡ made.old.items
        ++ upright_pixel turn bytes pixels.now down across) }
{
    made.extend_from_slice(upright_pixel(turn, bytes, pixels, across, down))
}

/// Appends the bytes of a line of the upright picture.
fn push_line(
    made: &mut Vec<u8>,
    turn: Turn,
    bytes: u8,
    pixels: &[u8],
    down: u16,
) -> Result<(), AllocError>
    ensures { OnOk result (made.new.items ≡ made.old.items
        ++ upright_line turn bytes pixels.now down) }
{
    for across in 0..upright_width(turn) {
        push_pixel(made, turn, bytes, pixels, across, down)?;
    }
    Ok(())
}

/// Returns the bytes of the upright picture.
fn turned_pixels(alloc: Global, turn: Turn, bytes: u8, pixels: &[u8]) -> Result<Vec<u8>, AllocError>
    ensures { IfOk result (λ v. v.items ≡ turned_pixels turn bytes pixels.now) }
{
    let mut made = Vec::with_capacity(alloc, pixels.len())?;
    for down in 0..upright_height(turn) {
        push_line(&mut made, turn, bytes, pixels, down)?;
    }
    Ok(made)
}

/// Returns how many bytes a pixel has.
pub fn bytes_of(format: PixelFormat, precision: u8) -> u8
    ensures { result ≡ bytes_of format precision }
{
    match format {
        PixelFormat::L8 => 1,
        PixelFormat::L16 => 2,
        PixelFormat::RGB24 => if precision > 8 { 6 } else { 3 },
        PixelFormat::CMYK32 => if precision > 8 { 8 } else { 4 },
    }
}

/// Returns what is said of the upright picture.
fn turned_info(turn: Turn, info: ImageInfo) -> ImageInfo
    ensures { result ≡ turned_info turn info }
{
    ImageInfo {
        width: upright_width(turn),
        height: upright_height(turn),
        ..info
    }
}

/// Returns a picture turned upright by its orientation. The only error is `OutOfMemory`.
pub fn upright(alloc: Global, picture: Picture, orientation: u8) -> error::Result<Picture>
    ensures { MatchResult result
        (λ made. decoded_in made ≡ upright orientation (decoded_in picture))
        (λ e. e ≡ OutOfMemory) }
{
    if orientation == 1 {
        return Ok(picture);
    }
    let info = picture.info;
    let turn = Turn {
        width: info.width,
        height: info.height,
        orientation,
    };
    let bytes = bytes_of(info.pixel_format, picture.precision);
    let pixels = turned_pixels(alloc, turn, bytes, picture.pixels.as_slice())?;
    Ok(Picture {
        info: turned_info(turn, info),
        precision: picture.precision,
        pixels,
    })
}
