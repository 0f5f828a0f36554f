//! The colour transform of a picture (JFIF, and Adobe's transforms).
ghost use Rattle.std.specs.Prelude.{◌≡◌};
ghost use Rattle.jpeg_bits.specs.Reading.{NamesFormat};

use jpeg_bits::color_transform::ColorTransform;
use jpeg_bits::error::{Error, Result, UnsupportedFeature, format_error_of};
use std::alloc::Global;

/// How the samples of a pixel become its bytes.
#[derive(Clone, Copy, Debug, PartialEq)]
pub enum ColorConvert {
    /// No conversion; the components of a line follow one another.
    None,
    /// Red, green and blue, interleaved.
    Rgb,
    /// YCbCr (JFIF 1.02) to red, green and blue.
    YCbCr,
    /// Cyan, magenta, yellow and black, inverted and interleaved.
    Cmyk,
    /// YCbCr to red, green and blue in place of cyan, magenta and yellow, and black inverted.
    Ycck,
}

impl ColorConvert {
    ghost use Rattle.std.specs.Prelude.{◌≡◌, Err};
    ghost use Rattle.jpeg_bits.specs.Reading.{Gives, Malformed};
    ghost use Rattle.jpeg_bits.specs.declared.error.Error.TheVariants.{OutOfMemory};
    ghost use Rattle.jpeg_pixels.specs.Colour.{conversion_of};

    /// Returns the conversion of a transform for three or four components. Errors: `Format` if the
    /// transform doesn't fit, or `OutOfMemory` if there is no room for the text;
    /// `Unsupported(ColorTransform(..))` if it is not known here.
    #[tactic(auto, unfolding(crate::specs::Colour::conversion_of))]
    pub fn choose(
        alloc: Global,
        component_count: usize,
        color_transform: ColorTransform,
    ) -> Result<ColorConvert>
        ensures answers { Gives (conversion_of component_count color_transform) result }
        ensures room { result ≡ Err OutOfMemory
            → conversion_of component_count color_transform ≡ Err Malformed }
    {
        match color_transform {
            ColorTransform::None => Ok(ColorConvert::None),
            ColorTransform::RGB if component_count == 3 => Ok(ColorConvert::Rgb),
            ColorTransform::YCbCr if component_count == 3 => Ok(ColorConvert::YCbCr),
            ColorTransform::CMYK if component_count == 4 => Ok(ColorConvert::Cmyk),
            ColorTransform::YCCK if component_count == 4 => Ok(ColorConvert::Ycck),
            ColorTransform::JcsBgYcc | ColorTransform::JcsBgRgb => Err(Error::Unsupported(
                UnsupportedFeature::ColorTransform(color_transform),
            )),
            _ => Err(misfit(alloc, component_count, color_transform)),
        }
    }
}

/// Returns the refusal of a transform that doesn't fit this many components.
#[cold]
#[inline(never)]
fn misfit(alloc: Global, component_count: usize, color_transform: ColorTransform) -> Error
    ensures { NamesFormat result }
{
    let expected = match component_count {
        3 => "None, RGB or YCbCr",
        4 => "None, CMYK or YCCK",
        _ => "None",
    };
    format_error_of(format!(in alloc;
        "color transform {color_transform:?} with {component_count} components, expected {expected}"
    ))
}
