//! A caller that asks for the luma of a picture.
ghost use Rattle.std.specs.Prelude.{◌≡◌, ◌*◌, ◌≤◌, IfOk, length};
ghost use Rattle.jpeg_meaning.specs.declared.images.PixelFormat.TheVariants.{L8};
ghost use Rattle.jpeg_meaning.specs.declared.progress.Progress.TheVariants.{HeaderRead};
ghost use Rattle.jpeg_segments.specs.declared.frame.CodingProcess.TheVariants.{Lossless};

use jpeg_decoder::error::Result;
use jpeg_decoder::{Decoder, ImageInfo};
use std::io::Read;

/// A picture, and what a decoder has said of it before.
#[derive(Drop)]
pub struct LumaPicture {
    /// What `info` has returned.
    pub info: ImageInfo,
    /// What `precision` has returned.
    pub precision: u8,
    /// The samples, line by line.
    pub pixels: Vec<u8>,
}

/// Returns the luma of the picture whose header was read. By the contracts of the calls alone it
/// has a byte for each pixel, and `info` says so before anything is decoded.
pub fn luma_of<R: Read + Drop>(decoder: &mut Decoder<R>) -> Result<LumaPicture>
    requires header { decoder.old.stage ≡ HeaderRead }
    ensures { IfOk result (λ p. (p.info.coding_process ≡ Lossless → ⊥) → p.precision ≤ 8
        → (p.info.pixel_format ≡ L8) × (length p.pixels.items ≡ p.info.width * p.info.height)) }
{
    decoder.set_luma(true);
    decoder.read_info()?;
    let info = decoder.info().unwrap();
    let precision = decoder.precision().unwrap();
    let pixels = decoder.decode()?;
    Ok(LumaPicture {
        info,
        precision,
        pixels,
    })
}
