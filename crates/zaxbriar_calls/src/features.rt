//! The features that streams ask for and that are refused by name.
ghost use Rattle.std.specs.Prelude.{◌≡◌};
ghost use Rattle.zaxbriar_calls.specs.Features.{feature_in, outcome_feature, transform_code};

use crate::answers::Refusal;
use jpeg_decoder::error::Error;
use jpeg_decoder::{ColorTransform, UnsupportedFeature};

/// A feature by its number, with its argument: a count of bits or of components, the number of a
/// colour transform, or else 0. No feature has the number 0.
#[derive(Clone, Copy)]
pub struct Feature {
    pub number: u8,
    pub argument: u8,
}

/// Returns the number of a colour transform: those of the options, and the two of libjpeg's big
/// gamut.
#[tactic(auto, unfolding(crate::specs::Features::transform_code))]
fn transform_code(transform: ColorTransform) -> u8
    ensures { result ≡ transform_code transform }
{
    match transform {
        ColorTransform::None => 1,
        ColorTransform::RGB => 2,
        ColorTransform::YCbCr => 3,
        ColorTransform::CMYK => 4,
        ColorTransform::YCCK => 5,
        ColorTransform::JcsBgYcc => 6,
        ColorTransform::JcsBgRgb => 7,
        ColorTransform::Unknown | ColorTransform::Grayscale => 0,
    }
}

/// Returns a feature by its number.
#[tactic(auto, unfolding(crate::specs::Features::feature_in))]
fn feature_in(feature: &UnsupportedFeature) -> Feature
    ensures { result ≡ feature_in feature.now }
{
    let (number, argument) = match feature {
        UnsupportedFeature::Hierarchical => (1, 0),
        UnsupportedFeature::ArithmeticEntropyCoding => (2, 0),
        UnsupportedFeature::SamplePrecision(bits) => (3, *bits),
        UnsupportedFeature::ComponentCount(count) => (4, *count),
        UnsupportedFeature::DNL => (5, 0),
        UnsupportedFeature::SubsamplingRatio => (6, 0),
        UnsupportedFeature::NonIntegerSubsamplingRatio => (7, 0),
        UnsupportedFeature::ColorTransform(transform) => (8, transform_code(*transform)),
    };
    Feature { number, argument }
}

/// Returns the feature for which an outcome is a refusal, or for which a part was written, or none.
pub fn outcome_feature<T>(outcome: &std::result::Result<T, Refusal>) -> Feature
    ensures { result ≡ outcome_feature outcome.now }
{
    match outcome {
        Err(Refusal::Stream(Error::Unsupported(feature)))
        | Err(Refusal::Part(Error::Unsupported(feature), _)) => feature_in(feature),
        _ => Feature {
            number: 0,
            argument: 0,
        },
    }
}
