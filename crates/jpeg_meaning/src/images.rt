//! What a frame header says about its picture.

use jpeg_segments::parser::CodingProcess;

/// How the bytes of a picture represent its pixels.
///
/// A picture is stored line by line from the top, and each line pixel by pixel from the left, with
/// nothing between them; a pixel has one sample of each component, in the order of the frame
/// header. A sample takes one byte if the frame's precision is at most 8 bits, and two bytes above,
/// the lower byte first. Only lossless pictures have precisions other than 8.
///
/// The format says how many samples a pixel has. It gives their size in bytes only for one
/// component: a lossless picture of three or four components above 8 bits has two bytes per sample
/// and the format `RGB24` or `CMYK32`. `Decoder::precision` gives it for every picture.
///
/// With `ColorTransform::None` each line of a picture of several components, unless it is lossless,
/// has its samples component after component, `width` samples of each.
#[derive(Clone, Copy, Debug, PartialEq)]
pub enum PixelFormat {
    /// One sample of at most 8 bits, in one byte.
    L8,
    /// One sample of 9 to 16 bits, in two bytes, the lower byte first.
    L16,
    /// Three samples: red, green and blue. Those of a lossless picture are as they were coded, and
    /// have two bytes each above 8 bits.
    RGB24,
    /// Four samples: cyan, magenta, yellow and black. Those of a lossless picture are as they were
    /// coded, and have two bytes each above 8 bits.
    CMYK32,
}

impl PixelFormat {
    ghost use Rattle.std.specs.Prelude.{◌≡◌};
    ghost use Rattle.jpeg_meaning.specs.Pixels.{bytes_a_pixel};

    /// Returns how many bytes a pixel takes: 1, 2, 3 or 4.
    ///
    /// Doesn't hold for lossless pictures of three or four components above 8 bits, whose pixels
    /// take 6 or 8 bytes: `Decoder::precision` says which these are.
    pub fn pixel_bytes(&self) -> usize
        ensures { result ≡ bytes_a_pixel self.now }
    {
        match self {
            PixelFormat::L8 => 1,
            PixelFormat::L16 => 2,
            PixelFormat::RGB24 => 3,
            PixelFormat::CMYK32 => 4,
        }
    }
}

/// What a frame header says about the picture. `Decoder::precision` returns the bits of a sample.
#[derive(Clone, Copy, Debug, PartialEq)]
pub struct ImageInfo {
    /// The width of the picture in pixels, at the scale that was chosen.
    pub width: u16,
    /// The height of the picture in pixels, at the scale that was chosen.
    pub height: u16,
    /// How the bytes of the picture represent its pixels.
    pub pixel_format: PixelFormat,
    /// The process of the frame.
    pub coding_process: CodingProcess,
}
