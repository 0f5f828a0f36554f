//! The last rows of MCUs of a picture's planes, and the lines that are made of them (T.81, A.1.1).
ghost use Rattle.std.specs.Prelude.{◌≡◌, ◌+◌, ◌-◌, ◌*◌, ◌≤◌, ◌⊎◌, IfErr, IfOk, OnOk, drop};
ghost use Rattle.std.specs.Prelude.{length, map};
ghost use Rattle.std.specs.List.{list_any};
ghost use Rattle.jpeg_bits.specs.declared.error.Error.TheVariants.{OutOfMemory};
ghost use Rattle.jpeg_segments.specs.FrameView.{component_in, frame_in};
ghost use Rattle.jpeg_pixels.specs.Pictures.{is_blended};
ghost use Rattle.jpeg_pixels.specs.PicturesView.{IsFor};
ghost use Rattle.jpeg_pixels.specs.Scaled.{IsScale};
ghost use Rattle.jpeg_meaning.specs.Sound.{IsDecodedFrame};
ghost use Rattle.jpeg_decoder.specs.ByRows.{AreLines, HaveRows, HaveScales, below};
ghost use Rattle.jpeg_decoder.specs.ByRows.{lines_decided, strip_size, unit_lines};
ghost use Rattle.jpeg_decoder.specs.ByRows.{window_component};
ghost use Rattle.jpeg_decoder.specs.Strips.{plane_lists};

use jpeg_bits::error::Result;
use jpeg_pixels::upsampler::{ColorConvert, Upsampler, is_blended};
use jpeg_segments::parser::{Component, Dimensions, FrameInfo};
use std::alloc::{AllocError, Global};

/// Where the planes of a window lie in those of a picture, and which lines are made of them.
#[derive(Clone, Copy)]
pub struct Window {
    /// How the colours are converted.
    pub convert: ColorConvert,
    /// How many rows of MCUs lie above it.
    pub above: u16,
    /// How many rows of MCUs it has: one, where none lies above, or two.
    pub rows: u16,
    /// The first line of the picture that is made.
    pub first: u16,
    /// How many lines are made.
    pub count: u16,
}

/// Returns how many samples a component has in a row of MCUs.
fn strip_size(component: &Component) -> usize
    requires { IsScale component.now.dct_scale }
    ensures { result ≡ strip_size (component_in component.now) }
{
    let lines = usize::from(component.vertical_sampling_factor) * component.dct_scale;
    lines * (usize::from(component.block_size.width) * component.dct_scale)
}

/// Removes the first samples of a plane, of twice as many.
fn remove_strip(plane: &mut Vec<u8>, strip: usize)
    requires { length plane.old.items ≡ 2 * strip }
    ensures { plane.new.items ≡ drop strip plane.old.items }
{
    plane.copy_within(strip.., 0);
    plane.truncate(strip);
}

/// Removes the first row of MCUs from planes of two.
pub fn keep_last(planes: &mut [Vec<u8>], components: &[Component])
    requires scales { HaveScales (map component_in components.now) }
    requires rows { HaveRows 2 (map component_in components.now) (plane_lists planes.old) }
    ensures { plane_lists planes.new
        ≡ below 1 (map component_in components.now) (plane_lists planes.old) }
{
    for index in 0..planes.len() {
        remove_strip(&mut planes[index], strip_size(&components[index]));
    }
}

/// Returns how many lines of the picture a row of MCUs makes.
#[tactic(auto, using(jpeg_pixels::proofs::SourceLists::greatest_start))]
pub fn unit_lines(components: &[Component]) -> usize
    requires { HaveScales (map component_in components.now) }
    ensures { result ≡ unit_lines (map component_in components.now) }
{
    let mut most = 1;
    for component in components {
        most = most.max(component.vertical_sampling_factor);
    }
    match components {
        [] => 0,
        [first, ..] => usize::from(most) * first.dct_scale,
    }
}

/// Returns whether lines of a component of a frame are blended with those below them.
fn has_blended(frame: &FrameInfo) -> bool
    ensures { result ≡ list_any (λ c. is_blended (frame_in frame.now) (component_in c))
        frame.now.components.items }
{
    frame
        .components
        .iter()
        .any(|component| is_blended(component, frame))
}

/// Returns how many lines of the picture so many rows of MCUs decide.
pub fn lines_decided(frame: &FrameInfo, rows: u16) -> u16
    requires { IsDecodedFrame (frame_in frame.now) }
    ensures { result ≡ lines_decided (frame_in frame.now) rows }
{
    let height = frame.output_size.height;
    if rows == frame.mcu_size.height {
        return height;
    }
    let lines = usize::from(rows) * unit_lines(&frame.components);
    let apart = if has_blended(frame) {
        lines.saturating_sub(1)
    } else {
        lines
    };
    usize::from(height).min(apart) as u16
}

/// Returns a component as it stands in a window.
fn window_component(component: &Component, window: Window) -> Component
    requires { IsScale component.now.dct_scale }
    ensures { component_in result
        ≡ window_component window.above window.rows (component_in component.now) }
{
    let lines = usize::from(component.vertical_sampling_factor) * component.dct_scale;
    let left = usize::from(component.size.height).saturating_sub(usize::from(window.above) * lines);
    let height = left.min(usize::from(window.rows) * lines) as u16;
    Component {
        identifier: component.identifier,
        horizontal_sampling_factor: component.horizontal_sampling_factor,
        vertical_sampling_factor: component.vertical_sampling_factor,
        quantization_table_index: component.quantization_table_index,
        dct_scale: component.dct_scale,
        size: Dimensions {
            width: component.size.width,
            height,
        },
        block_size: component.block_size,
    }
}

/// Returns the components of a frame as they stand in a window.
fn window_components(
    alloc: Global,
    components: &[Component],
    window: Window,
) -> std::result::Result<Vec<Component>, AllocError>
    requires { HaveScales (map component_in components.now) }
    ensures { IfOk result (λ v. map component_in v.items
        ≡ map (window_component window.above window.rows) (map component_in components.now)) }
{
    let mut all = Vec::with_capacity(alloc, components.len())?;
    for component in components {
        all.push(window_component(component, window))?;
    }
    Ok(all)
}

/// Makes some lines of the picture of a frame from the window of its planes, one after the other in
/// `lines`, in place of what is there. The only error is `OutOfMemory`. `line` has room for a line.
pub fn make_lines(
    alloc: Global,
    frame: &FrameInfo,
    window: Window,
    planes: &[Vec<u8>],
    line: &mut [u8],
    lines: &mut Vec<u8>,
) -> Result<()>
    requires frame { IsDecodedFrame (frame_in frame.now) }
    requires convert { IsFor (length (frame_in frame.now).components) window.convert }
    requires rows { ((window.above ≡ 0) × (window.rows ≡ 1)) ⊎ (window.rows ≡ 2) }
    requires within { window.above + window.rows ≤ (frame_in frame.now).mcus_high }
    requires first { lines_decided (frame_in frame.now) (window.above + window.rows - 1)
        ≤ window.first }
    requires last { window.first + window.count
        ≤ lines_decided (frame_in frame.now) (window.above + window.rows) }
    requires planes { HaveRows window.rows (frame_in frame.now).components
        (plane_lists planes.now) }
    requires line { length line.old
        ≡ length (frame_in frame.now).components * (frame_in frame.now).output_width }
    ensures lines { OnOk result (AreLines (frame_in frame.now) window.convert
        (plane_lists planes.now) window.above window.rows window.first window.count
        lines.new.items) }
    ensures whole { OnOk result (length lines.new.items ≡ window.count
        * (length (frame_in frame.now).components * (frame_in frame.now).output_width)) }
    ensures err { IfErr result (λ e. e ≡ OutOfMemory) }
{
    let components = window_components(alloc, &frame.components, window)?;
    let unit = unit_lines(&frame.components);
    let top = usize::from(window.above) * unit;
    let height = usize::from(frame.output_size.height).saturating_sub(top);
    let height = height.min(usize::from(window.rows) * unit) as u16;
    let width = frame.output_size.width;
    let upsampler = Upsampler::new(alloc, &components, width, height)?;
    lines.clear();
    for index in 0..window.count {
        let row = usize::from(window.first) + usize::from(index) - top;
        let convert = window.convert;
        upsampler.upsample_and_interleave_row(planes, row, usize::from(width), line, convert)?;
        lines.extend_from_slice(line)?;
    }
    Ok(())
}
