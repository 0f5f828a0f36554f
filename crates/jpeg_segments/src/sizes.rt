//! The sizes of a frame and of its components in samples, MCUs and blocks (T.81, A.1.1 and A.2), at
//! full size and at a scale.
ghost use Rattle.std.specs.Prelude.{◌≡◌, ◌≤◌, ◌<◌, ◌+◌, ◌*◌, ◌-◌, ◌^◌, IfOk, All, map, max, true};
ghost use Rattle.jpeg_segments.specs.Frame.{AllHaveSampling, IsInRange, ceiling, component_of};
ghost use Rattle.jpeg_segments.specs.Frame.{greatest};
ghost use Rattle.jpeg_segments.specs.FrameView.{component_in, frame_in, factors_in, factors_of};
ghost use Rattle.jpeg_segments.specs.Scales.{IsSizedFrame, component_at, frame_at, is_scale};

use crate::frame::{Component, Dimensions, Factors, FrameInfo};
use std::alloc::{AllocError, Global};

/// The number of samples along a side of a block at full size.
pub const BLOCK_SIDE: usize = 8;

/// Returns `n / d`, rounded up.
pub fn ceiling(n: u32, d: u32) -> u32
    requires some { 1 ≤ d }
    requires fits { n + (d - 1) < 2 ^ 32 }
    ensures { result ≡ ceiling n d }
{
    (n + (d - 1)) / d
}

/// Returns the number of samples along a side of a component at a scale, if the frame has `side`
/// samples along it, the component has this sampling factor and the greatest of the frame is `most`
/// (T.81, A.1.1). At a scale a block gives `scale` samples per side in place of 8.
fn samples(side: u16, factor: u8, most: u8, scale: usize) -> u16
    requires some { 1 ≤ most }
    requires within { factor ≤ most }
    requires most { most ≤ 4 }
    requires scale { scale ≤ 8 }
    ensures scaled { result ≡ ceiling (side * factor * scale) (most * 8) }
    ensures full { scale ≡ 8 → result ≡ ceiling (side * factor) most }
{
    let scaled = u32::from(side) * u32::from(factor) * scale as u32;
    ceiling(scaled, u32::from(most) * BLOCK_SIDE as u32) as u16
}

/// Returns the number of MCUs along a side of the frame (T.81, A.2), from its number of samples and
/// the greatest sampling factor.
pub(crate) fn mcus(side: u16, most: u8) -> u16
    requires some { 1 ≤ most }
    requires most { most ≤ 4 }
    ensures count { result ≡ ceiling side (8 * most) }
    ensures small { result ≤ 8192 }
{
    ceiling(u32::from(side), BLOCK_SIDE as u32 * u32::from(most)) as u16
}

/// Returns a component of a frame of this size, with these greatest factors.
#[tactic(auto, unfolding(crate::specs::Frame::component_of))]
fn component_of(
    size: Dimensions,
    most_horizontal: u8,
    most_vertical: u8,
    factors: Factors,
) -> Component
    requires some_horizontal { 1 ≤ most_horizontal }
    requires some_vertical { 1 ≤ most_vertical }
    requires most_horizontal { most_horizontal ≤ 4 }
    requires most_vertical { most_vertical ≤ 4 }
    requires horizontal { factors.horizontal ≤ most_horizontal }
    requires vertical { factors.vertical ≤ most_vertical }
    ensures { component_in result ≡
        component_of size.width size.height most_horizontal most_vertical (factors_of factors) }
{
    Component {
        identifier: factors.identifier,
        horizontal_sampling_factor: factors.horizontal,
        vertical_sampling_factor: factors.vertical,
        quantization_table_index: factors.quantization,
        dct_scale: BLOCK_SIDE,
        size: Dimensions {
            width: samples(size.width, factors.horizontal, most_horizontal, BLOCK_SIDE),
            height: samples(size.height, factors.vertical, most_vertical, BLOCK_SIDE),
        },
        block_size: Dimensions {
            width: mcus(size.width, most_horizontal) * u16::from(factors.horizontal),
            height: mcus(size.height, most_vertical) * u16::from(factors.vertical),
        },
    }
}

fn greater(a: u8, b: u8) -> u8
    ensures { result ≡ max a b }
{
    if a < b { b } else { a }
}

/// Returns the greatest factors, across and down.
#[tactic(auto, using(crate::proofs::FrameLemmas::factor_rules))]
pub(crate) fn greatest_factors(components: &[Factors]) -> (u8, u8)
    requires { All IsInRange (map factors_of components.now) }
    ensures horizontal { result.0 ≡ greatest (λ c. c.horizontal) (map factors_of components.now) }
    ensures vertical { result.1 ≡ greatest (λ c. c.vertical) (map factors_of components.now) }
    ensures some_horizontal { 1 ≤ result.0 }
    ensures some_vertical { 1 ≤ result.1 }
    ensures most_horizontal { result.0 ≤ 4 }
    ensures most_vertical { result.1 ≤ 4 }
    ensures covers_horizontal { All (λ c. c.horizontal ≤ result.0) components.now }
    ensures covers_vertical { All (λ c. c.vertical ≤ result.1) components.now }
{
    let mut horizontal = 1;
    let mut vertical = 1;
    for component in components {
        horizontal = greater(horizontal, component.horizontal);
        vertical = greater(vertical, component.vertical);
    }
    (horizontal, vertical)
}

/// Returns the components of a frame of this size.
pub(crate) fn components_of(
    alloc: Global,
    size: Dimensions,
    most_horizontal: u8,
    most_vertical: u8,
    components: &[Factors],
) -> std::result::Result<Vec<Component>, AllocError>
    requires some_horizontal { 1 ≤ most_horizontal }
    requires some_vertical { 1 ≤ most_vertical }
    requires most_horizontal { most_horizontal ≤ 4 }
    requires most_vertical { most_vertical ≤ 4 }
    requires covers_horizontal { All (λ c. c.horizontal ≤ most_horizontal) components.now }
    requires covers_vertical { All (λ c. c.vertical ≤ most_vertical) components.now }
    ensures { IfOk result (λ v. map component_in v.items ≡
        map (component_of size.width size.height most_horizontal most_vertical)
        (map factors_of components.now)) }
{
    let mut made = Vec::with_capacity(alloc, components.len())?;
    for component in components {
        made.push(component_of(size, most_horizontal, most_vertical, *component))?;
    }
    Ok(made)
}

/// Returns the greatest sampling factors of the components of a frame, across and down.
#[tactic(auto, using(crate::proofs::ScaleLemmas::seen_rules))]
pub fn greatest_of(components: &[Component]) -> (u8, u8)
    requires { AllHaveSampling (map component_in components.now) }
    ensures horizontal { result.0 ≡ greatest (λ f. f.horizontal) (map factors_in components.now) }
    ensures vertical { result.1 ≡ greatest (λ f. f.vertical) (map factors_in components.now) }
    ensures some_horizontal { 1 ≤ result.0 }
    ensures some_vertical { 1 ≤ result.1 }
    ensures most_horizontal { result.0 ≤ 4 }
    ensures most_vertical { result.1 ≤ 4 }
    ensures covers_horizontal { All (λ c. c.horizontal_sampling_factor ≤ result.0) components.now }
    ensures covers_vertical { All (λ c. c.vertical_sampling_factor ≤ result.1) components.now }
{
    let mut horizontal = 1;
    let mut vertical = 1;
    for component in components {
        horizontal = greater(horizontal, component.horizontal_sampling_factor);
        vertical = greater(vertical, component.vertical_sampling_factor);
    }
    (horizontal, vertical)
}

/// Sizes a component at a scale, in a frame of this size with these greatest factors.
#[tactic(auto, unfolding(crate::specs::Scales::component_at))]
fn scale_component(
    component: &mut Component,
    size: Dimensions,
    most_horizontal: u8,
    most_vertical: u8,
    scale: usize,
)
    requires some_horizontal { 1 ≤ most_horizontal }
    requires some_vertical { 1 ≤ most_vertical }
    requires most_horizontal { most_horizontal ≤ 4 }
    requires most_vertical { most_vertical ≤ 4 }
    requires horizontal { component.old.horizontal_sampling_factor ≤ most_horizontal }
    requires vertical { component.old.vertical_sampling_factor ≤ most_vertical }
    requires scale { scale ≤ 8 }
    ensures { component_in component.new ≡
        component_at scale size.width size.height most_horizontal most_vertical
        (component_in component.old) }
{
    let horizontal = component.horizontal_sampling_factor;
    let vertical = component.vertical_sampling_factor;
    component.dct_scale = scale;
    component.size = Dimensions {
        width: samples(size.width, horizontal, most_horizontal, scale),
        height: samples(size.height, vertical, most_vertical, scale),
    };
}

/// Sizes each component at a scale, in a frame of this size with these greatest factors.
#[tactic(auto, using(crate::proofs::ScaleLemmas::component_rules))]
fn scale_components(
    components: &mut [Component],
    size: Dimensions,
    most_horizontal: u8,
    most_vertical: u8,
    scale: usize,
)
    requires some_horizontal { 1 ≤ most_horizontal }
    requires some_vertical { 1 ≤ most_vertical }
    requires most_horizontal { most_horizontal ≤ 4 }
    requires most_vertical { most_vertical ≤ 4 }
    requires covers_horizontal { All (λ c. c.horizontal_sampling_factor ≤ most_horizontal)
        components.old }
    requires covers_vertical { All (λ c. c.vertical_sampling_factor ≤ most_vertical)
        components.old }
    requires scale { scale ≤ 8 }
    ensures { map component_in components.new ≡
        map (component_at scale size.width size.height most_horizontal most_vertical)
        (map component_in components.old) }
{
    for component in components.iter_mut() {
        scale_component(component, size, most_horizontal, most_vertical, scale);
    }
}

/// Sizes a frame at a scale, whatever its scale was before: the size of its picture, and the size
/// in samples of each component. The image's size and the sizes in blocks and MCUs stay.
///
/// `scale` is the number of samples along a side of a block: 1, 2, 4, or 8 for full size.
#[tactic(auto, unfolding(crate::specs::Scales::frame_at))]
pub fn scale_frame(frame: &mut FrameInfo, scale: usize)
    requires sized { IsSizedFrame (frame_in frame.old) }
    requires scale { is_scale scale ≡ true }
    ensures frame { frame_in frame.new ≡ frame_at scale (frame_in frame.old) }
    ensures sized { IsSizedFrame (frame_in frame.new) }
{
    let size = frame.image_size;
    let (horizontal, vertical) = greatest_of(&frame.components);
    // The picture has the size of a component with the greatest factors.
    frame.output_size = Dimensions {
        width: samples(size.width, 1, 1, scale),
        height: samples(size.height, 1, 1, scale),
    };
    scale_components(&mut frame.components, size, horizontal, vertical, scale);
}
