//! Callers of what types of `jpeg_bits`, `jpeg_segments` and `jpeg_pixels` derive: clones, equality
//! and hashes.
ghost use Rattle.std.specs.Prelude.{◌≡◌, ◌↔◌, IsTrue, Ok};

use jpeg_bits::color_transform::ColorTransform;
use jpeg_bits::error::UnsupportedFeature;
use jpeg_bits::huffman::HuffmanTableClass;
use jpeg_bits::marker::Marker;
use jpeg_bits::scan::Predictor;
use jpeg_pixels::upsampler::{ColorConvert, UpsampleRule};
use jpeg_segments::parser::{
    AdobeColorTransform, CodingProcess, Component, Dimensions, EntropyCoding,
};
use std::alloc::AllocError;
use std::hash::{Hash, Hasher};

/// Calls `Component::clone`.
pub fn clone_component(component: &Component) -> Result<Component, AllocError>
    ensures { result ≡ Ok component.now }
{
    component.clone()
}

/// Calls `UnsupportedFeature::clone`.
pub fn clone_feature(feature: &UnsupportedFeature) -> Result<UnsupportedFeature, AllocError>
    ensures { result ≡ Ok feature.now }
{
    feature.clone()
}

/// Calls `UnsupportedFeature::eq`.
pub fn equal_features(a: &UnsupportedFeature, b: &UnsupportedFeature) -> bool
    ensures { IsTrue result ↔ (a.now ≡ b.now) }
{
    *a == *b
}

/// Calls `ColorTransform::eq`.
pub fn equal_transforms(transform: ColorTransform, other: ColorTransform) -> bool
    ensures { IsTrue result ↔ (transform ≡ other) }
{
    transform == other
}

/// Calls `Marker::eq`.
pub fn equal_markers(a: Marker, b: Marker) -> bool
    ensures { IsTrue result ↔ (a ≡ b) }
{
    a == b
}

/// Calls `HuffmanTableClass::eq`.
pub fn equal_classes(a: HuffmanTableClass, b: HuffmanTableClass) -> bool
    ensures { IsTrue result ↔ (a ≡ b) }
{
    a == b
}

/// Calls `Predictor::eq`.
pub fn equal_predictors(a: Predictor, b: Predictor) -> bool
    ensures { IsTrue result ↔ (a ≡ b) }
{
    a == b
}

/// Calls `EntropyCoding::eq`.
pub fn equal_entropy_codings(a: EntropyCoding, b: EntropyCoding) -> bool
    ensures { IsTrue result ↔ (a ≡ b) }
{
    a == b
}

/// Calls `CodingProcess::eq`.
pub fn equal_processes(a: CodingProcess, b: CodingProcess) -> bool
    ensures { IsTrue result ↔ (a ≡ b) }
{
    a == b
}

/// Calls `Dimensions::eq`.
pub fn equal_dimensions(a: Dimensions, b: Dimensions) -> bool
    ensures { IsTrue result ↔ (a ≡ b) }
{
    a == b
}

/// Calls `AdobeColorTransform::eq`.
pub fn equal_adobe_transforms(a: AdobeColorTransform, b: AdobeColorTransform) -> bool
    ensures { IsTrue result ↔ (a ≡ b) }
{
    a == b
}

/// Calls `UpsampleRule::eq`.
pub fn equal_rules(a: UpsampleRule, b: UpsampleRule) -> bool
    ensures { IsTrue result ↔ (a ≡ b) }
{
    a == b
}

/// Calls `ColorConvert::eq`.
pub fn equal_conversions(a: ColorConvert, b: ColorConvert) -> bool
    ensures { IsTrue result ↔ (a ≡ b) }
{
    a == b
}

/// Calls `ColorTransform::hash`, twice.
pub fn hash_transforms<H: Hasher>(
    a: ColorTransform,
    b: ColorTransform,
    first: &mut H,
    second: &mut H,
)
    ensures { a ≡ b → first.old ≡ second.old → first.new ≡ second.new }
{
    a.hash(first);
    b.hash(second);
}

/// Calls `UnsupportedFeature::hash`, twice.
pub fn hash_features<H: Hasher>(
    feature: &UnsupportedFeature,
    other: &UnsupportedFeature,
    first: &mut H,
    second: &mut H,
)
    ensures { feature.now ≡ other.now → first.old ≡ second.old → first.new ≡ second.new }
{
    feature.hash(first);
    other.hash(second);
}
