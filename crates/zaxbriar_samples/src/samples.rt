//! The samples of a picture, from its bytes.
ghost use Rattle.std.specs.Prelude.{◌≡◌, ◌≤◌, ◌<◌, ◌*◌, ◌/◌, ◌^◌, drop, length, take, false};
ghost use Rattle.zaxbriar_samples.specs.Boxes.{components_a_pixel};
ghost use Rattle.zaxbriar_samples.specs.Parts.{pixel_bytes};
ghost use Rattle.zaxbriar_samples.specs.Samples.{byte_at, greatest_below, greatest_sample};
ghost use Rattle.zaxbriar_samples.specs.Samples.{is_wide, pair_at, sample_in};

use jpeg_meaning::images::{ImageInfo, PixelFormat};

/// Returns whether a sample of this many bits takes two bytes.
pub fn is_wide(precision: u8) -> bool
    ensures { result ≡ is_wide precision }
{
    precision > 8
}

/// Returns how many samples a pixel has.
pub(crate) fn components_of(format: PixelFormat) -> u8
    ensures { result ≡ components_a_pixel format }
{
    match format {
        PixelFormat::L8 | PixelFormat::L16 => 1,
        PixelFormat::RGB24 => 3,
        PixelFormat::CMYK32 => 4,
    }
}

/// Returns how many bytes a pixel of a picture has.
pub fn pixel_bytes(info: ImageInfo, precision: u8) -> u8
    ensures { result ≡ pixel_bytes info precision }
{
    let sample = if is_wide(precision) { 2 } else { 1 };
    components_of(info.pixel_format) * sample
}

/// Returns the bytes of a picture from a place on, this many or as many as there are.
pub fn part_at(pixels: &[u8], start: usize, size: usize) -> &[u8]
    ensures { result.now ≡ take size (drop start pixels.now) }
{
    let (_, rest) = pixels.split_at(start.min(pixels.len()));
    let (part, _) = rest.split_at(size.min(rest.len()));
    part
}

/// Returns a byte of a picture.
#[tactic(auto, unfolding(crate::specs::Samples::byte_at))]
fn byte_at(pixels: &[u8], index: usize) -> u8
    ensures { result ≡ byte_at pixels.now index }
{
    if index < pixels.len() {
        pixels[index]
    } else {
        0
    }
}

/// Returns a sample of two bytes of a picture, the lower first.
#[tactic(auto, unfolding(crate::specs::Samples::pair_at))]
fn pair_at(pixels: &[u8], index: usize) -> u16
    requires { index < 2 ^ 63 }
    ensures { result ≡ pair_at pixels.now index }
{
    u16::from(byte_at(pixels, 2 * index)) + 256 * u16::from(byte_at(pixels, 2 * index + 1))
}

/// Returns a sample of a picture.
#[tactic(auto, unfolding(crate::specs::Samples::sample_in))]
pub fn sample(pixels: &[u8], precision: u8, index: usize) -> u16
    requires { index < 2 ^ 42 }
    ensures { result ≡ sample_in precision pixels.now index }
{
    if is_wide(precision) {
        pair_at(pixels, index)
    } else {
        u16::from(byte_at(pixels, index))
    }
}

/// Returns the greatest byte of a picture.
fn greatest_byte(pixels: &[u8]) -> u8
    ensures { result ≡ greatest_below (length pixels.now) (byte_at pixels.now) }
{
    let mut greatest = 0;
    for index in 0..pixels.len() {
        greatest = byte_at(pixels, index).max(greatest);
    }
    greatest
}

/// Returns the greatest sample of two bytes of a picture.
fn greatest_pair(pixels: &[u8]) -> u16
    ensures { result ≡ greatest_below (length pixels.now / 2) (pair_at pixels.now) }
{
    let mut greatest = 0;
    for index in 0..pixels.len() / 2 {
        greatest = pair_at(pixels, index).max(greatest);
    }
    greatest
}

/// Returns the greatest sample of a picture.
pub fn greatest_sample(pixels: &[u8], precision: u8) -> u16
    ensures greatest { result ≡ greatest_sample precision pixels.now }
    ensures narrow { is_wide precision ≡ false → result ≤ 255 }
{
    if is_wide(precision) {
        greatest_pair(pixels)
    } else {
        u16::from(greatest_byte(pixels))
    }
}
