//! Which colour transform the components of a picture need.
ghost use Rattle.std.specs.Prelude.{◌≡◌, map};
ghost use Rattle.jpeg_segments.specs.FrameView.{component_in, frame_in};
ghost use Rattle.jpeg_meaning.specs.ColourChoice.{identifiers_of, are_three, by_identifiers};
ghost use Rattle.jpeg_meaning.specs.ColourChoice.{by_adobe, transform_of};
ghost use Rattle.jpeg_decoder.specs.Seen.{metadata_in};
ghost use Rattle.jpeg_decoder.specs.StreamTransforms.{frame_transform};

use crate::stream::metadata::Metadata;
use jpeg_bits::color_transform::ColorTransform;
use jpeg_segments::parser::{AdobeColorTransform, CodingProcess, Component, FrameInfo};

/// Returns whether there are three components, of these identifiers.
fn are_three(components: &[Component], first: u8, second: u8, third: u8) -> bool
    ensures { result ≡ are_three first second third
        (identifiers_of (map component_in components.now)) }
{
    match components {
        [a, b, c] => a.identifier == first && (b.identifier == second && c.identifier == third),
        _ => false,
    }
}

/// Returns the transform that the identifiers of three components stand for.
#[tactic(auto, unfolding(jpeg_meaning::specs::ColourChoice::by_identifiers))]
fn by_identifiers(components: &[Component]) -> Option<ColorTransform>
    ensures { result ≡ by_identifiers (identifiers_of (map component_in components.now)) }
{
    if are_three(components, 1, 2, 3) {
        Some(ColorTransform::YCbCr)
    } else if are_three(components, 1, 34, 35) {
        Some(ColorTransform::JcsBgYcc)
    } else if are_three(components, 82, 71, 66) {
        Some(ColorTransform::RGB)
    } else if are_three(components, 114, 103, 98) {
        Some(ColorTransform::JcsBgRgb)
    } else {
        None
    }
}

/// Returns the transform that Adobe's segment names for three or four components.
fn by_adobe(is_three: bool, adobe: Option<AdobeColorTransform>) -> ColorTransform
    ensures { result ≡ by_adobe is_three adobe }
{
    match adobe {
        None => {
            if is_three {
                ColorTransform::YCbCr
            } else {
                ColorTransform::CMYK
            }
        }
        Some(AdobeColorTransform::Unknown) => {
            if is_three {
                ColorTransform::RGB
            } else {
                ColorTransform::CMYK
            }
        }
        Some(AdobeColorTransform::YCbCr) => ColorTransform::YCbCr,
        Some(AdobeColorTransform::YCCK) => ColorTransform::YCCK,
    }
}

/// Returns the transform of three or four components: what a caller set, or what the segments say.
#[tactic(auto, unfolding(jpeg_meaning::specs::ColourChoice::transform_of))]
pub fn choose_color_transform(
    set: Option<ColorTransform>,
    components: &[Component],
    jfif: bool,
    adobe: Option<AdobeColorTransform>,
) -> ColorTransform
    ensures { result ≡ transform_of set (identifiers_of (map component_in components.now)) jfif
        adobe }
{
    if let Some(transform) = set {
        return transform;
    }
    if let Some(transform) = by_identifiers(components) {
        return transform;
    }
    let is_three = components.len() == 3;
    if is_three && jfif {
        return ColorTransform::YCbCr;
    }
    by_adobe(is_three, adobe)
}

/// Returns the transform that a frame and the segments ask for, whatever a caller set.
pub fn frame_transform(metadata: &Metadata, frame: &FrameInfo) -> ColorTransform
    ensures { result ≡ frame_transform (metadata_in metadata.now) (frame_in frame.now) }
{
    let components = frame.components.as_slice();
    match frame.coding_process {
        CodingProcess::Lossless => ColorTransform::None,
        CodingProcess::DctSequential | CodingProcess::DctProgressive => match components {
            [_] => ColorTransform::None,
            _ => choose_color_transform(None, components, metadata.jfif, metadata.adobe),
        },
    }
}
