//! The picture of a frame's first component: of its only one, or the luma of a picture in colour.
ghost use Rattle.std.specs.Prelude.{◌≡◌, ◌*◌, ◌/◌, ◌&&◌, IfOk, List, Some, length, min, slice_get};
ghost use Rattle.std.specs.Prelude.{ℕ};
ghost use Rattle.std.specs.List.{concat};
ghost use Rattle.jpeg_bits.specs.Reading.{NamesFormat};
ghost use Rattle.jpeg_segments.specs.FrameView.{component_in, frame_in};
ghost use Rattle.jpeg_segments.specs.declared.frame.CodingProcess.TheVariants.{Lossless};
ghost use Rattle.jpeg_pixels.specs.Scaled.{IsScale};
ghost use Rattle.jpeg_meaning.specs.FoundPictures.{is_as_large, is_luma, luma_picture};
ghost use Rattle.jpeg_meaning.specs.Sound.{IsDecodedFrame};
ghost use Rattle.jpeg_decoder.specs.Bytes.{AreLinesOf, HaveBytes, shape_with};
ghost use Rattle.jpeg_decoder.specs.Steps.{FirstCovers, Returns, cropped_to};

use jpeg_bits::color_transform::ColorTransform;
use jpeg_bits::error::{Error, Result, format_error_of};
use jpeg_pixels::lines::{PictureLines, cropped_lines};
use jpeg_segments::parser::{Component, Dimensions, FrameInfo};
use std::alloc::Global;

/// Returns the lines of a component's plane, cropped to the picture as far as the plane goes.
pub fn lines_within(plane: Vec<u8>, component: &Component, size: Dimensions) -> PictureLines
    requires { IsScale component.now.dct_scale }
    ensures cropped { concat result ≡ cropped_to (component_in component.now) size.width
        size.height plane.items }
    ensures height { let c = component_in component.now in
        length result ≡ min size.height (length plane.items / (c.scale * c.blocks_wide)) }
    ensures width { let c = component_in component.now in
        HaveBytes (min size.width (c.scale * c.blocks_wide)) result }
{
    let stride = component.dct_scale * usize::from(component.block_size.width);
    let lines = plane.len().checked_div(stride).unwrap_or(0);
    let width = usize::from(size.width).min(stride);
    let height = usize::from(size.height).min(lines);
    cropped_lines(plane, stride, width, height)
}

/// Returns whether the first component is luma, by the colour transform.
fn is_luma(transform: ColorTransform) -> bool
    ensures { result ≡ is_luma transform }
{
    match transform {
        ColorTransform::YCbCr => true,
        _ => false,
    }
}

/// Returns whether a component has the size of the picture.
fn is_as_large(frame: &FrameInfo, component: &Component) -> bool
    ensures { result ≡ is_as_large (frame_in frame.now) (component_in component.now) }
{
    component.size.width == frame.output_size.width
        && component.size.height == frame.output_size.height
}

/// Returns whether the first component is the luma of the picture.
fn has_luma(frame: &FrameInfo, first: &Component, transform: ColorTransform) -> bool
    ensures { result ≡ (is_luma transform
        && is_as_large (frame_in frame.now) (component_in first.now)) }
{
    is_luma(transform) && is_as_large(frame, first)
}

/// Returns the refusal of a picture whose first component is not its luma.
#[cold]
#[inline(never)]
fn luma_error(
    alloc: Global,
    frame: &FrameInfo,
    first: &Component,
    transform: ColorTransform,
) -> Error
    ensures { NamesFormat result }
{
    if !is_luma(transform) {
        return format_error_of(format!(in alloc;
            "found color transform {transform:?}, expected YCbCr for a picture of its luma"
        ));
    }
    let found = first.size;
    let expected = frame.output_size;
    format_error_of(format!(in alloc;
        "found a first component of {} x {} samples, expected {} x {} for a picture of its luma",
        found.width, found.height, expected.width, expected.height
    ))
}

/// Returns the lines of the luma of a picture of several components, of which the first has this
/// plane. If the first isn't luma, or isn't as large as the picture, it is `Format`.
pub fn luma_lines(
    alloc: Global,
    frame: &FrameInfo,
    plane: Vec<u8>,
    transform: ColorTransform,
) -> Result<PictureLines>
    requires frame { IsDecodedFrame (frame_in frame.now) }
    requires process { (frame_in frame.now).process ≡ Lossless → ⊥ }
    requires covers { FirstCovers (frame_in frame.now) plane.items }
    ensures meant { (planes : List (List ℕ)) → slice_get planes 0 ≡ Some plane.items
        → Returns (luma_picture transform (frame_in frame.now) (frame_in frame.now).components
        planes) (λ l. concat l) result }
    ensures lines { IfOk result (λ l. AreLinesOf (Some (shape_with 1 (frame_in frame.now))) l) }
{
    let first = &frame.components[0];
    if has_luma(frame, first, transform) {
        return Ok(lines_within(plane, first, frame.output_size));
    }
    Err(luma_error(alloc, frame, first, transform))
}
