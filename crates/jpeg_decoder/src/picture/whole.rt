//! A stream from its start to its picture (T.81, B.2).
ghost use Rattle.std.specs.Prelude.{◌≡◌, ◌*◌, ◌+◌, ◌<◌, ◌≤◌, ◌&&◌, IfOk, IfSome};
ghost use Rattle.std.specs.Prelude.{None, suc};
ghost use Rattle.std.specs.Prelude.{OnOk, Ok, Some, drop, false, is_some, length, map, nat_lt, not};
ghost use Rattle.std.specs.List.{concat, enumerate_from};
ghost use Rattle.std.specs.Prelude.{option_map, slice_index_or, true};
ghost use Rattle.jpeg_bits.specs.Reading.{Answers, NamesFormat};
ghost use Rattle.jpeg_segments.specs.FrameView.{component_in, frame_in};
ghost use Rattle.jpeg_segments.specs.Frame.{AllHaveSampling};
ghost use Rattle.jpeg_pixels.specs.JointPlanes.{IsShapeOf, joint_planes};
ghost use Rattle.jpeg_decoder.specs.PlanesView.{IsFullJoint};
ghost use Rattle.jpeg_meaning.specs.ColourChoice.{identifiers_of, transform_of};
ghost use Rattle.jpeg_pixels.specs.Pictures.{AreWhole};
ghost use Rattle.jpeg_pixels.specs.Scaled.{IsScale};
ghost use Rattle.jpeg_meaning.specs.EndPlanes.{AreBlocksOf, blocks_if, is_kept, plane_or};
ghost use Rattle.jpeg_segments.specs.declared.frame.CodingProcess.TheVariants.{Lossless};
ghost use Rattle.jpeg_segments.specs.Checks.{gathered, needed};
ghost use Rattle.jpeg_decoder.specs.Scanning.{arrays_in, blocks_in};
ghost use Rattle.jpeg_decoder.specs.PlanesView.{planes_in};
ghost use Rattle.jpeg_meaning.specs.Sound.{IsDecodedFrame, IsPlaneOf, IsSound};
ghost use Rattle.jpeg_meaning.specs.Sound.{IsUnread};
ghost use Rattle.jpeg_meaning.specs.States.{OnTold};
ghost use Rattle.jpeg_decoder.specs.Steps.{Returns, with_decoded};
ghost use Rattle.jpeg_meaning.specs.Stream.{header_at, start_at, told_of};
ghost use Rattle.jpeg_meaning.specs.Reported.{IsOfTurns, told_by_turns};
ghost use Rattle.jpeg_bits.specs.declared.beyond.Beyond.TheVariants.{Zeros};
ghost use Rattle.jpeg_meaning.specs.FoundPictures.{blocks_picture, picture_of, picture_by};
ghost use Rattle.jpeg_meaning.specs.FoundPictures.{plane_at_end, samples_picture};
ghost use Rattle.jpeg_meaning.specs.Found.{nothing_found};
ghost use Rattle.jpeg_decoder.specs.Bytes.{AreLinesOf, shape_of, shape_with};

use crate::picture::color_choice::choose_color_transform;
use crate::picture::first::{lines_within, luma_lines};
use crate::picture::lines::Lines;
use crate::scan::block_array::BlockArray;
use crate::scan::coded::is_progressive;
use crate::scan::decoded::{Decoded, render};
use crate::scan::work::{Budget, Walk};
use crate::sizes::{line_bytes, samples_shown};
use crate::stream::state::State;
use crate::stream::tables::{Missing, needed, table_at};
use crate::stream::turns::read_segments;
use jpeg_bits::beyond::Beyond;
use jpeg_bits::color_transform::ColorTransform;
use jpeg_bits::error::{Error, Result, format_error_of};
use jpeg_bits::marker::Marker;
use jpeg_bits::source::Source;
use jpeg_bits::source::reads::read_u8;
use jpeg_lossless::lossless::{SampleLines, sample_lines};
use jpeg_meaning::settings::Settings;
use jpeg_pixels::joint_planes::{JointPlanes, JointShape, joint_shape};
use jpeg_pixels::lines::{PictureLines, joint_lines, plane_lines};
use jpeg_segments::parser::{CodingProcess, Component, Dimensions, FrameInfo};
use std::alloc::Global;
use std::io::Read;

/// Reads the start of a stream, FF D8.
#[tactic(auto, unfolding(jpeg_meaning::specs::Stream::start_at))]
pub fn read_start<R: Read + Drop>(alloc: Global, source: &mut Source<R>) -> Result<()>
    ensures { Answers (λ u. u) start_at source.old result source.new }
{
    let first = read_u8(alloc, source)?;
    if first != 0xff {
        return Err(format_error_of(format!(in alloc;
            "found {first:02X} at the start, expected SOI (FFD8)"
        )));
    }
    let second = read_u8(alloc, source)?;
    if second != 0xd8 {
        return Err(format_error_of(format!(in alloc;
            "found FF{second:02X} at the start, expected SOI (FFD8)"
        )));
    }
    Ok(())
}

/// Returns the samples of a component of the size of the picture.
fn area_of(size: Dimensions) -> usize
    ensures product { result ≡ size.width * size.height }
    ensures few_lines { size.height < 65536 }
{
    usize::from(size.width) * usize::from(size.height)
}

/// Returns whether a picture of this many samples a pixel is within a limit.
fn is_within(limit: usize, samples: usize, area: usize) -> bool
    ensures { result ≡ not (nat_lt limit (samples * area)) }
{
    match samples.checked_mul(area) {
        Some(size) => size <= limit,
        None => false,
    }
}

/// Returns whether a picture with a sample of each component a pixel is within a limit.
pub fn is_within_limit(frame: &FrameInfo, limit: usize) -> bool
    ensures { let f = frame_in frame.now in result ≡ not (nat_lt limit (length f.components
        * (f.output_width * f.output_height))) }
{
    is_within(limit, frame.components.len(), area_of(frame.output_size))
}

/// Returns whether blocks of a frame are kept: it is progressive, and a scan of it was read.
pub fn are_kept(state: &State, frame: &FrameInfo) -> bool
    ensures { result ≡ is_kept state.now (frame_in frame.now) }
{
    is_progressive(frame.coding_process) && state.said.scanned
}

/// Takes the blocks of a component out of those that are kept, where blocks are kept.
#[tactic(auto, using(crate::proofs::Rules::ends))]
fn take_kept(
    alloc: Global,
    is_kept: bool,
    kept: &mut Vec<BlockArray>,
    index: usize,
) -> Option<BlockArray>
    requires { is_kept ≡ true → index < length kept.old.items }
    ensures taken { option_map blocks_in result ≡ blocks_if is_kept (arrays_in kept.old.items)
        index }
    ensures left { drop (index + 1) (arrays_in kept.new.items)
        ≡ drop (index + 1) (arrays_in kept.old.items) }
{
    if !is_kept {
        return None;
    }
    Some(std::mem::replace(&mut kept[index], BlockArray::none(alloc)))
}

/// Returns the plane of a component at the end of an image: the one that is decided, or else that
/// of the blocks that are kept, by the quantization table in force.
#[tactic(auto, using(crate::proofs::Rules::ends))]
fn plane_at_end(
    alloc: Global,
    state: &State,
    component: &Component,
    plane: Option<Vec<u8>>,
    kept: Option<BlockArray>,
) -> Result<Vec<u8>>
    requires scale { IsScale component.now.dct_scale }
    requires plane { IsPlaneOf (component_in component.now) (option_map (λ v. v.items) plane) }
    requires blocks { AreBlocksOf (component_in component.now) (option_map blocks_in kept) }
    ensures plane { let table = slice_index_or state.now.said.quantization
        component.now.quantization_table_index None in
        let expected = plane_or (component_in component.now) table (option_map (λ v. v.items) plane)
        (option_map blocks_in kept) in
        Returns expected (λ v. v.items) result }
    ensures whole { IfOk result (λ v. IsPlaneOf (component_in component.now) (Some v.items)) }
{
    if let Some(plane) = plane {
        return Ok(plane);
    }
    let identifier = component.identifier;
    let array = needed(alloc, kept, Missing::Scan(identifier))?;
    let destination = component.quantization_table_index;
    let missing = Missing::Table("quantization", destination, identifier);
    let table = table_at(&state.said.quantization, destination);
    let table = needed(alloc, table, missing)?;
    Ok(render(alloc, component, table, &array)?)
}

/// Returns the planes of a frame's components at the end of an image, which are taken. Blocks that
/// are kept are rendered where no plane is decided, one component after the other, and freed.
#[tactic(auto, using(crate::proofs::Rules::gathered))]
pub fn planes_at_end(
    alloc: Global,
    state: &State,
    frame: &FrameInfo,
    decoded: &mut Decoded,
) -> Result<Vec<Vec<u8>>>
    requires sound { IsSound (with_decoded state.now decoded.old) }
    requires frame { state.now.said.frame ≡ Some (frame_in frame.now) }
    ensures planes { let expected = gathered (plane_at_end
        (with_decoded state.now decoded.old) (frame_in frame.now))
        (enumerate_from 0 (frame_in frame.now).components) in
        Returns expected (λ v. map (λ p. p.items) v.items) result }
    ensures whole { IfOk result (λ v. AreWhole (frame_in frame.now).components
        (map (λ p. p.items) v.items)) }
    ensures count { IfOk result (λ v. length v.items ≡ length (frame_in frame.now).components) }
{
    let is_kept = are_kept(state, frame);
    let mut planes = Vec::with_capacity(alloc, frame.components.len())?;
    for index in 0..frame.components.len() {
        let plane = decoded.planes.take(alloc, index)?;
        let kept = take_kept(alloc, is_kept, &mut decoded.kept, index);
        planes.push(plane_at_end(alloc, state, &frame.components[index], plane, kept)?)?;
    }
    Ok(planes)
}

/// Returns the lines of the picture of a frame's planes: of one its samples, and of several their
/// colours, or their luma where that is asked for.
fn picture_by(
    alloc: Global,
    state: &State,
    frame: &FrameInfo,
    planes: Vec<Vec<u8>>,
    settings: Settings,
) -> Result<PictureLines>
    requires frame { IsDecodedFrame (frame_in frame.now) }
    requires planes { AreWhole (frame_in frame.now).components (map (λ p. p.items) planes.items) }
    requires count { length planes.items ≡ length (frame_in frame.now).components }
    requires process { (frame_in frame.now).process ≡ Lossless → ⊥ }
    ensures meant { let expected = picture_by settings state.now.said.metadata
        (frame_in frame.now) (frame_in frame.now).components (map (λ p. p.items) planes.items) in
        Returns expected (λ l. concat l) result }
    ensures lines { IfOk result (λ l.
        AreLinesOf (Some (shape_of settings (frame_in frame.now))) l) }
{
    let mut planes = planes;
    let components = frame.components.as_slice();
    if components.len() == 1 {
        let component = &components[0];
        let plane = needed(alloc, planes.pop(), Missing::Scan(component.identifier))?;
        return Ok(lines_within(plane, component, frame.output_size));
    }
    let transform = transform_of(state, frame, settings);
    if settings.luma {
        return luma_lines(alloc, frame, planes.swap_remove(0), transform);
    }
    plane_lines(alloc, components, planes, frame.output_size, transform)
}

/// Returns the layout of a frame's planes in one buffer, where its components are alike.
fn joint_shape_of(frame: &FrameInfo) -> Option<JointShape>
    requires { AllHaveSampling (frame_in frame.now).components }
    ensures { IfSome result (IsShapeOf (frame_in frame.now).components
        (frame_in frame.now).output_width (frame_in frame.now).output_height) }
{
    let rows = frame.mcu_size.height;
    joint_shape(&frame.components, frame.output_size, rows)
}

/// Returns the colour transform of a frame's picture.
pub fn transform_of(state: &State, frame: &FrameInfo, settings: Settings) -> ColorTransform
    ensures { result ≡ transform_of settings.color_transform
        (identifiers_of (frame_in frame.now).components) state.now.said.metadata.jfif
        state.now.said.metadata.adobe }
{
    choose_color_transform(
        settings.color_transform,
        &frame.components,
        state.said.metadata.jfif,
        state.said.metadata.adobe,
    )
}

/// Returns the lines of the picture of a frame's planes that are in one buffer.
fn joint_picture(
    alloc: Global,
    state: &State,
    frame: &FrameInfo,
    planes: JointPlanes,
    settings: Settings,
) -> Result<PictureLines>
    requires frame { IsDecodedFrame (frame_in frame.now) }
    requires shape { IsShapeOf (frame_in frame.now).components (frame_in frame.now).output_width
        (frame_in frame.now).output_height planes.shape }
    requires full { IsFullJoint planes }
    requires process { (frame_in frame.now).process ≡ Lossless → ⊥ }
    ensures meant { let expected = picture_by settings state.now.said.metadata
        (frame_in frame.now) (frame_in frame.now).components
        (joint_planes planes.shape planes.samples.items) in
        Returns expected (λ l. concat l) result }
    ensures lines { IfOk result (λ l.
        AreLinesOf (Some (shape_of settings (frame_in frame.now))) l) }
{
    let transform = transform_of(state, frame, settings);
    if settings.luma {
        let plane = planes.plane(alloc, 0)?;
        return luma_lines(alloc, frame, plane, transform);
    }
    joint_lines(
        alloc,
        &frame.components,
        planes,
        frame.output_size,
        transform,
    )
}

/// Returns the lines of the picture of a frame of blocks.
#[tactic(auto, unfolding(jpeg_meaning::specs::FoundPictures::blocks_picture))]
fn blocks_picture(
    alloc: Global,
    state: &State,
    frame: &FrameInfo,
    decoded: &mut Decoded,
    settings: Settings,
) -> Result<PictureLines>
    requires sound { IsSound (with_decoded state.now decoded.old) }
    requires frame { state.now.said.frame ≡ Some (frame_in frame.now) }
    requires process { (frame_in frame.now).process ≡ Lossless → ⊥ }
    ensures meant { let expected = blocks_picture settings
        (with_decoded state.now decoded.old) (frame_in frame.now) in
        Returns expected (λ l. concat l) result }
    ensures lines { IfOk result (λ l.
        AreLinesOf (Some (shape_of settings (frame_in frame.now))) l) }
{
    if let Some(planes) = decoded.planes.take_joint(joint_shape_of(frame)) {
        return joint_picture(alloc, state, frame, planes, settings);
    }
    let planes = planes_at_end(alloc, state, frame, decoded)?;
    picture_by(alloc, state, frame, planes, settings)
}

/// Returns the samples of a lossless frame's components, which are taken.
#[tactic(auto, using(crate::proofs::Rules::gathered))]
pub fn samples_at_end(
    alloc: Global,
    frame: &FrameInfo,
    decoded: &mut Decoded,
) -> Result<Vec<Vec<u16>>>
    requires count { length (frame_in frame.now).components ≤ 4 }
    ensures planes { let expected = gathered
        (λ c. needed (slice_index_or (planes_in decoded.old.samples) c.0 None))
        (enumerate_from 0 (frame_in frame.now).components) in
        Returns expected (λ v. map (λ p. p.items) v.items) result }
    ensures count { IfOk result (λ v. length v.items ≡ length (frame_in frame.now).components) }
{
    let mut planes = Vec::with_capacity(alloc, frame.components.len())?;
    for index in 0..frame.components.len() {
        let plane = decoded.samples[index].take();
        let missing = Missing::Scan(frame.components[index].identifier);
        planes.push(needed(alloc, plane, missing)?)?;
    }
    Ok(planes)
}

/// Returns the lines of the picture of a lossless frame.
#[tactic(auto, unfolding(crate::proofs::Rules::sampled), using(crate::proofs::Rules::given))]
fn samples_picture(
    alloc: Global,
    state: &State,
    frame: &FrameInfo,
    decoded: &mut Decoded,
) -> Result<SampleLines>
    requires sound { IsSound (with_decoded state.now decoded.old) }
    requires frame { state.now.said.frame ≡ Some (frame_in frame.now) }
    requires process { (frame_in frame.now).process ≡ Lossless }
    ensures meant { let expected =
        samples_picture (with_decoded state.now decoded.old) (frame_in frame.now) in
        Returns expected (λ l. concat l) result }
    ensures lines { IfOk result (λ l.
        AreLinesOf (Some (shape_with (length (frame_in frame.now).components)
        (frame_in frame.now))) l) }
{
    let planes = samples_at_end(alloc, frame, decoded)?;
    sample_lines(alloc, frame, planes)
}

/// Returns the refusal of a picture that is above the limit.
#[cold]
#[inline(never)]
fn limit_error(alloc: Global, frame: &FrameInfo, settings: Settings) -> Error
    ensures { NamesFormat result }
{
    let limit = settings.limit;
    let count = samples_shown(frame, settings).saturating_mul(area_of(frame.output_size));
    format_error_of(format!(in alloc; "{count} samples in the picture, expected at most {limit}"))
}

/// Returns the lines of the picture of what was found, which is taken: within the limit, of planes
/// that are there.
#[tactic(auto, unfolding(crate::proofs::Rules::pictures), using(crate::proofs::Rules::refused))]
pub fn picture(
    alloc: Global,
    state: &State,
    decoded: &mut Decoded,
    settings: Settings,
) -> Result<Lines>
    requires sound { IsSound (with_decoded state.now decoded.old) }
    ensures meant { let expected = picture_of settings (with_decoded state.now decoded.old) in
        Returns expected (λ l. concat l) result }
    ensures lines { IfOk result (λ l. AreLinesOf
        (option_map (shape_of settings) state.now.said.frame) l) }
    ensures few { IfOk result (λ l. length l < 65536) }
{
    let frame = needed(
        alloc,
        state.said.frame.as_ref(),
        Missing::Frame(Marker::EOI),
    )?;
    if !is_within(
        settings.limit,
        samples_shown(frame, settings),
        area_of(frame.output_size),
    ) {
        return Err(limit_error(alloc, frame, settings));
    }
    let line_bytes = line_bytes(frame, settings);
    match frame.coding_process {
        CodingProcess::DctSequential | CodingProcess::DctProgressive => {
            let lines = blocks_picture(alloc, state, frame, decoded, settings)?;
            Ok(Lines::of_planes(lines, line_bytes))
        }
        CodingProcess::Lossless => {
            let lines = samples_picture(alloc, state, frame, decoded)?;
            Ok(Lines::of_samples(lines, line_bytes))
        }
    }
}

/// Reads the header of a stream: all through the frame's segment.
#[tactic(auto, unfolding(crate::proofs::Rules::headers), using(crate::proofs::Rules::starts))]
pub fn read_header<R: Read + Drop>(
    alloc: Global,
    source: &mut Source<R>,
    state: &mut State,
) -> Result<()>
    requires { state.old ≡ nothing_found }
    ensures reads { Answers (λ _. state.new) header_at source.old result source.new }
    ensures told { OnTold source.old source.new result (told_of state.new.said
        ≡ told_by_turns None (suc (length source.old.bytes)) true source.old.bytes) }
    ensures turns { source.old.known ≡ true → IsOfTurns
        (λ n. told_by_turns None n true source.old.bytes) (told_of state.new.said) }
    ensures framed { IfOk result (λ _. is_some state.new.said.frame ≡ true) }
    ensures sound { OnOk result (IsSound state.new) }
    ensures unread { OnOk result (IsUnread state.new) }
{
    read_start(alloc, source)?;
    let mut walk = Walk {
        budget: Budget {
            left: None,
            exceeded: false,
        },
        rows: None,
    };
    read_segments(alloc, source, state, true, Beyond::Zeros, &mut walk)
}
