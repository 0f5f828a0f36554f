//! The planes of a picture: the samples of each of its components, at the component's own size
//! (T.81, A.1.1).
ghost use Rattle.std.specs.Prelude.{◌≡◌, ◌<◌, ◌≤◌, ◌*◌, false, length, map, true};
ghost use Rattle.std.specs.List.{concat};
ghost use Rattle.jpeg_segments.specs.FrameView.{component_in};
ghost use Rattle.zaxbriar_calls.specs.Layouts.{over};
ghost use Rattle.zaxbriar_calls.specs.Planes.{heights_of, planes_of_components, samples_of};
ghost use Rattle.zaxbriar_calls.specs.Planes.{widths_of};

use crate::layouts::bytes_a_sample;
use jpeg_decoder::parser::Component;

/// The sizes of the planes of a picture.
#[derive(Clone, Copy)]
pub struct PlaneSizes {
    /// The size of each component's samples, at the scale of the picture, and 0 for those that it
    /// doesn't have.
    pub width: [u16; 4],
    pub height: [u16; 4],
    /// The bytes of all planes.
    pub size: u64,
}

/// Returns the widths of the planes of components.
fn widths_of(components: &[Component]) -> [u16; 4]
    ensures { result ≡ widths_of (map component_in components.now) }
{
    match components {
        [a] => [a.size.width, 0, 0, 0],
        [a, b, c] => [a.size.width, b.size.width, c.size.width, 0],
        [a, b, c, d] => [a.size.width, b.size.width, c.size.width, d.size.width],
        _ => [0; 4],
    }
}

/// Returns their heights.
fn heights_of(components: &[Component]) -> [u16; 4]
    ensures { result ≡ heights_of (map component_in components.now) }
{
    match components {
        [a] => [a.size.height, 0, 0, 0],
        [a, b, c] => [a.size.height, b.size.height, c.size.height, 0],
        [a, b, c, d] => [a.size.height, b.size.height, c.size.height, d.size.height],
        _ => [0; 4],
    }
}

/// Returns how many samples a plane of this size has.
fn area(width: u16, height: u16) -> u64
    ensures is { result ≡ width * height }
    ensures most { result ≤ 4294836225 }
{
    u64::from(width) * u64::from(height)
}

/// Returns how many samples the planes of components have together.
fn samples_of(components: &[Component]) -> u64
    ensures is { result ≡ samples_of (map component_in components.now) }
    ensures most { result ≤ 17179344900 }
{
    match components {
        [a] => area(a.size.width, a.size.height),
        [a, b, c] => {
            area(a.size.width, a.size.height)
                + area(b.size.width, b.size.height)
                + area(c.size.width, c.size.height)
        }
        [a, b, c, d] => {
            area(a.size.width, a.size.height)
                + area(b.size.width, b.size.height)
                + area(c.size.width, c.size.height)
                + area(d.size.width, d.size.height)
        }
        _ => 0,
    }
}

/// Returns the sizes of the planes of components whose samples have this precision.
pub fn planes_of(components: &[Component], precision: u8) -> PlaneSizes
    ensures { result ≡ planes_of_components (map component_in components.now) precision }
{
    PlaneSizes {
        width: widths_of(components),
        height: heights_of(components),
        size: samples_of(components) * u64::from(bytes_a_sample(precision)),
    }
}

/// Returns whether planes have no more bytes than this, all together.
pub fn fit_in(planes: &[Vec<u8>], room: usize) -> bool
    ensures fit { result ≡ true → length (concat (map (λ p. p.items) planes.now)) ≤ room }
    ensures over { result ≡ false → room < length (concat (map (λ p. p.items) planes.now)) }
{
    let mut left = room;
    for index in 0..planes.len() {
        let bytes = planes[index].len();
        if bytes > left {
            return false;
        }
        left -= bytes;
    }
    true
}

/// Writes planes one after the other.
pub fn put_planes(planes: &[Vec<u8>], samples: &mut [u8])
    requires { length (concat (map (λ p. p.items) planes.now)) ≤ length samples.old }
    ensures { samples.new ≡ over (concat (map (λ p. p.items) planes.now)) samples.old }
{
    let mut start = 0;
    for index in 0..planes.len() {
        let plane = planes[index].as_slice();
        samples[start..start + plane.len()].copy_from_slice(plane);
        start += plane.len();
    }
}
