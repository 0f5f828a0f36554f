//! The picture of a JPEG stream in memory: an example of a caller with a contract of its own.
//!
//! `jpeg_decoder/proofs/Callers` has what such a caller needs: a new decoder knows the bytes that
//! its reader gives.
#![tactic(auto)]

ghost use Rattle.std.specs.Prelude.{◌≡◌, ◌++◌, ◌*◌, ◌<◌, ◌^◌, ℕ, List, length, IfOk, Ok, Some};
ghost use Rattle.std.specs.Prelude.{option_map};
ghost use Rattle.jpeg_decoder.specs.Bytes.{bytes_a_sample, samples_a_pixel};
ghost use Rattle.jpeg_meaning.specs.ArrayPictures.{picture_of_array};
ghost use Rattle.jpeg_meaning.specs.Levels.{Is8Bit, Levels};
ghost use Rattle.jpeg_meaning.specs.Output.{default_settings};
ghost use Rattle.jpeg_meaning.specs.Pixels.{info_of};
ghost use Rattle.jpeg_meaning.specs.Stream.{Told, meaning};
ghost use Rattle.jpeg_meaning.specs.Found.{Said};
ghost use Rattle.jpeg_meaning.specs.WrittenImages.{WritesImage};
ghost use Rattle.jpeg_meaning.specs.WrittenScans.{Coefficients};

use jpeg_decoder::error::Result;
use jpeg_decoder::{Decoder, ImageInfo, SliceReader};
use std::alloc::Global;

/// Returns the samples of a stream's picture, line by line.
pub fn picture_of(alloc: Global, bytes: &[u8]) -> Result<Vec<u8>>
    // An Ok is the picture that the bytes mean.
    ensures means { length bytes.now < 2 ^ 64 → IfOk result (λ pixels. (told : Told)
        × (rest : List ℕ) × (meaning default_settings bytes.now
        ≡ Ok ((told, pixels.items), rest))) }

    // Where the bytes are written for the coefficients of an image, it is their picture.
    ensures images { (array : Coefficients) (image rest : List ℕ) (final : Said)
        (last : ℕ → Levels) → ((index row column : ℕ) → Is8Bit (array index row column)) →
        WritesImage array image final last →
        bytes.now ≡ image ++ rest → length bytes.now < 2 ^ 64 →
        IfOk result (λ pixels.
        picture_of_array default_settings final array last ≡ Ok pixels.items) }
{
    let mut decoder = Decoder::new(alloc, SliceReader::new(bytes))?;
    decoder.decode()
}

/// A picture, and what a caller needs to find its samples.
#[derive(Drop)]
pub struct Picture {
    /// The width and height in pixels, and how many samples a pixel has.
    pub info: ImageInfo,
    /// How many bits a sample has: it takes one byte up to 8, and two bytes above.
    pub precision: u8,
    /// The samples, line by line.
    pub pixels: Vec<u8>,
}

/// Returns a stream's picture with its size, format and precision.
pub fn described_picture_of(alloc: Global, bytes: &[u8]) -> Result<Picture>
    // Each pixel has its samples, and each sample its bytes.
    ensures size { IfOk result (λ p. length p.pixels.items ≡ p.info.width * p.info.height
        * (samples_a_pixel p.info.pixel_format * bytes_a_sample p.precision)) }

    // An Ok is the picture that the bytes mean, and what its frame says of it.
    ensures means { length bytes.now < 2 ^ 64 → IfOk result (λ p. (told : Told) × (rest : List ℕ)
        × (meaning default_settings bytes.now ≡ Ok ((told, p.pixels.items), rest))
        × (option_map info_of told.frame ≡ Some p.info)
        × (option_map (λ f. f.precision) told.frame ≡ Some p.precision)) }
{
    let mut decoder = Decoder::new(alloc, SliceReader::new(bytes))?;
    let pixels = decoder.decode()?;
    // After an Ok there is a frame.
    let info = decoder.info().unwrap();
    let precision = decoder.precision().unwrap();
    Ok(Picture {
        info,
        precision,
        pixels,
    })
}
