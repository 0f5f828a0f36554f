//! How the components of a frame are upsampled: by the ratios of their factors to the greatest ones
//! (T.81, A.1.1).
ghost use Rattle.std.specs.Prelude.{◌≡◌, ◌≤◌, map, Ok, MatchResult};
ghost use Rattle.jpeg_bits.specs.Reading.{Names};
ghost use Rattle.jpeg_segments.specs.Frame.{most_across, most_down, HasSampling, AllHaveSampling};
ghost use Rattle.jpeg_segments.specs.FrameView.{component_in, frame_in};
ghost use Rattle.jpeg_pixels.specs.Upsampling.{rule_of};
ghost use Rattle.jpeg_pixels.specs.Pictures.{is_blended, source_of, sources_of};
ghost use Rattle.jpeg_pixels.specs.PicturesView.{source_in};

use crate::upsample_rows::UpsampleRule;
use jpeg_bits::error::{Error, Result, UnsupportedFeature};
use jpeg_segments::parser::{Component, FrameInfo};
use std::alloc::Global;

/// The samples of a component: how they are upsampled, their size, and the samples that a line of
/// its plane has.
#[derive(Clone, Copy, Debug, PartialEq)]
pub struct ComponentSource {
    /// How its samples become those of the picture.
    pub rule: UpsampleRule,
    /// How many samples a line has.
    pub width: usize,
    /// How many lines there are.
    pub height: usize,
    /// How many samples lie between the beginnings of two successive lines.
    pub row_stride: usize,
}

/// Returns the rule of a component with factors `h` and `v`, if there is one.
#[tactic(auto, unfolding(crate::specs::Upsampling::rule_of))]
fn choose_rule(
    h: u8,
    v: u8,
    greatest_h: u8,
    greatest_v: u8,
    width: u16,
    height: u16,
) -> Option<UpsampleRule>
    requires h_some { 1 ≤ h }
    requires h_most { h ≤ 4 }
    requires v_some { 1 ≤ v }
    requires v_most { v ≤ 4 }
    ensures { result ≡ rule_of h v greatest_h greatest_v width height }
{
    let h1 = h == greatest_h || width == 1;
    let v1 = v == greatest_v || height == 1;
    let h2 = 2 * h == greatest_h;
    let v2 = 2 * v == greatest_v;
    if h1 && v1 {
        Some(UpsampleRule::H1V1)
    } else if h2 && v1 {
        Some(UpsampleRule::H2V1)
    } else if h1 && v2 {
        Some(UpsampleRule::H1V2)
    } else if h2 && v2 {
        Some(UpsampleRule::H2V2)
    } else if greatest_h % h == 0 && greatest_v % v == 0 {
        Some(UpsampleRule::Generic(greatest_h / h, greatest_v / v))
    } else {
        None
    }
}

/// Returns how one component is upsampled.
#[tactic(auto, unfolding(crate::specs::Pictures::source_of))]
fn component_source(
    component: &Component,
    greatest_h: u8,
    greatest_v: u8,
    width: u16,
    height: u16,
) -> Result<ComponentSource>
    requires { HasSampling (component_in component.now) }
    ensures { MatchResult result
        (λ s. source_of greatest_h greatest_v width height (component_in component.now)
        ≡ Ok (source_in s))
        (λ e. Names e (source_of greatest_h greatest_v width height (component_in component.now))) }
{
    let h = component.horizontal_sampling_factor;
    let v = component.vertical_sampling_factor;
    match choose_rule(h, v, greatest_h, greatest_v, width, height) {
        None => Err(Error::Unsupported(UnsupportedFeature::NonIntegerSubsamplingRatio)),
        Some(rule) => Ok(ComponentSource {
            rule,
            width: usize::from(component.size.width),
            height: usize::from(component.size.height),
            row_stride: usize::from(component.block_size.width) * component.dct_scale,
        }),
    }
}

/// Returns the greatest horizontal factor of the components.
#[tactic(auto, using(crate::proofs::SourceLists::greatest_start))]
fn greatest_horizontal(components: &[Component]) -> u8
    ensures { result ≡ most_across (map component_in components.now) }
{
    let mut most = 1;
    for component in components {
        most = most.max(component.horizontal_sampling_factor);
    }
    most
}

/// Returns the greatest vertical factor of the components.
#[tactic(auto, using(crate::proofs::SourceLists::greatest_start))]
fn greatest_vertical(components: &[Component]) -> u8
    ensures { result ≡ most_down (map component_in components.now) }
{
    let mut most = 1;
    for component in components {
        most = most.max(component.vertical_sampling_factor);
    }
    most
}

/// Returns whether lines of a component are blended with those below them in the picture of a frame:
/// where it has half as many lines as the picture, and its samples aren't repeated.
#[tactic(auto, unfolding(crate::specs::Upsampling::rule_of, crate::specs::Pictures::is_blended))]
pub fn is_blended(component: &Component, frame: &FrameInfo) -> bool
    ensures { result ≡ is_blended (frame_in frame.now) (component_in component.now) }
{
    let greatest_h = u16::from(greatest_horizontal(&frame.components));
    let greatest_v = u16::from(greatest_vertical(&frame.components));
    let h = u16::from(component.horizontal_sampling_factor);
    let v = u16::from(component.vertical_sampling_factor);
    let size = frame.output_size;
    let fits_across = h == greatest_h || size.width == 1 || 2 * h == greatest_h;
    let fits_down = v == greatest_v || size.height == 1;
    fits_across && !fits_down && 2 * v == greatest_v
}

/// Returns how each component is upsampled for a picture of this size. Errors:
/// `Unsupported(NonIntegerSubsamplingRatio)` for a component that has no rule, and `OutOfMemory`.
#[tactic(auto, using(crate::proofs::Rules::sources))]
pub(crate) fn component_sources(
    alloc: Global,
    components: &[Component],
    output_width: u16,
    output_height: u16,
) -> Result<Vec<ComponentSource>>
    requires { AllHaveSampling (map component_in components.now) }
    ensures { MatchResult result
        (λ v. sources_of (map component_in components.now) output_width output_height
        ≡ Ok (map source_in v.items))
        (λ e. Names e (sources_of (map component_in components.now) output_width output_height)) }
{
    let greatest_h = greatest_horizontal(components);
    let greatest_v = greatest_vertical(components);
    let mut sources = Vec::with_capacity(alloc, components.len())?;
    for component in components {
        let source = component_source(
            component,
            greatest_h,
            greatest_v,
            output_width,
            output_height,
        )?;
        sources.push(source)?;
    }
    Ok(sources)
}
