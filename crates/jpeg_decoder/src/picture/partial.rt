//! The picture of what a stream with a fault has brought.
ghost use Rattle.std.specs.Prelude.{◌≡◌, ◌<◌, ℕ, Bool, List, [], false, true};
ghost use Rattle.std.specs.Prelude.{get_or, IfErr, IfOk, IfSome, is_some, length, None, OnOk};
ghost use Rattle.std.specs.Prelude.{option_map, replicate, Result, Some, unwrap_or};
ghost use Rattle.std.specs.List.{concat};
ghost use Rattle.jpeg_bits.specs.Reading.{Fault, IsGivenUp};
ghost use Rattle.jpeg_pixels.specs.Scaled.{IsScale};
ghost use Rattle.jpeg_segments.specs.FrameView.{component_in, frame_in};
ghost use Rattle.jpeg_segments.specs.declared.frame.CodingProcess.TheVariants.{Lossless};
ghost use Rattle.jpeg_meaning.specs.EndPlanes.{AreBlocksOf, blocks_if, is_kept};
ghost use Rattle.jpeg_meaning.specs.Found.{Found};
ghost use Rattle.jpeg_meaning.specs.Rasters.{plane_by};
ghost use Rattle.jpeg_meaning.specs.Shown.{blocks_held, completed, fault_in, planes_by};
ghost use Rattle.jpeg_meaning.specs.Shown.{rows_of_found, shown_by, shown_of, table_held};
ghost use Rattle.jpeg_meaning.specs.Shown.{with_plane_shown, with_samples_shown};
ghost use Rattle.jpeg_meaning.specs.Sound.{HasDecodedFrame, IsDecodedFrame, IsSound};
ghost use Rattle.jpeg_meaning.specs.States.{IsOfBytes};
ghost use Rattle.jpeg_bits.specs.Stream.{Stream};
ghost use Rattle.jpeg_bits.specs.declared.beyond.Beyond.TheVariants.{Nothing};
ghost use Rattle.jpeg_meaning.specs.Stream.{Walked, all_brought, told_of};
ghost use Rattle.jpeg_decoder.specs.Bytes.{AreLinesOf, IsWhole, shape_of};
ghost use Rattle.jpeg_decoder.specs.Reaching.{NamesFault, UnlessRefused, is_out_of_memory};
ghost use Rattle.jpeg_decoder.specs.Scanning.{arrays_in};
ghost use Rattle.jpeg_decoder.specs.Shows.{IsShown, is_there};
ghost use Rattle.jpeg_decoder.specs.Steps.{with_decoded};
ghost use Rattle.jpeg_decoder.specs.Walks.{IsEndOfWalk, IsGoing, IsKnownIf, ShowsWalk, known_if};
ghost use Rattle.jpeg_decoder.specs.Walks.{steps_over};

use crate::picture::lines::Lines;
use crate::picture::whole::{are_kept, picture, read_start};
use crate::scan::block_array::BlockArray;
use crate::scan::decoded::{Decoded, render, zero_blocks};
use crate::scan::samples::grey_samples;
use crate::scan::work::{Budget, Walk};
use crate::stream::state::{State, Step};
use crate::stream::tables::table_at;
use crate::stream::turns::{read_from, read_segments};
use jpeg_bits::beyond::Beyond;
use jpeg_bits::error::{Error, Result, format_error};
use jpeg_bits::source::Source;
use jpeg_meaning::settings::Settings;
use jpeg_segments::parser::{CodingProcess, Component, FrameInfo};
use std::alloc::{AllocError, Global};
use std::io::Read;

/// The lines of the picture that a stream has brought up to its first fault, and that fault.
#[derive(Drop)]
pub struct PartialLines {
    /// The lines of the picture. What no scan has brought is mid-grey.
    pub lines: Lines,
    /// The number of rows, from the top, that need nothing that a scan which was begun lacks. All
    /// rows if the stream has no fault.
    pub whole_rows: u16,
    /// The first fault of the stream, or none if it is whole.
    pub fault: Option<Error>,
}

/// The quantization table of a component that has none: all its coefficients are zeros.
const ONES: [u16; 64] = [1; 64];

/// Returns the quantization table in force for a component, or else one of ones.
fn table_held<'a>(state: &'a State, component: &Component) -> &'a [u16; 64]
    ensures { result.now ≡ table_held state.now (component_in component.now) }
{
    match table_at(&state.said.quantization, component.quantization_table_index) {
        Some(table) => table,
        None => &ONES,
    }
}

/// Returns the plane of a component's blocks, which are zeros if none are kept.
fn plane_held(
    alloc: Global,
    state: &State,
    frame: &FrameInfo,
    component: &Component,
    kept: &[BlockArray],
    index: usize,
) -> std::result::Result<Vec<u8>, AllocError>
    requires scale { IsScale component.now.dct_scale }
    requires within { is_kept state.now (frame_in frame.now) ≡ true → index < length kept.now }
    requires blocks { AreBlocksOf (component_in component.now)
        (blocks_if (is_kept state.now (frame_in frame.now)) (arrays_in kept.now) index) }
    ensures { let c = component_in component.now in
        IfOk result (λ v. v.items ≡ plane_by c (table_held state.now c)
        (blocks_held (record state.now { kept = arrays_in kept.now })
        (frame_in frame.now) (index, c))) }
{
    let table = table_held(state, component);
    if are_kept(state, frame) {
        let array = &kept[index];
        return render(alloc, component, table, array);
    }
    render(alloc, component, table, &zero_blocks(alloc, component))
}

/// Gives a component without a plane that of its blocks, which are zeros if none are kept.
fn complete_plane(
    alloc: Global,
    state: &State,
    frame: &FrameInfo,
    component: &Component,
    decoded: &mut Decoded,
    index: usize,
) -> std::result::Result<(), AllocError>
    requires sound { IsSound (with_decoded state.now decoded.old) }
    requires frame { state.now.said.frame ≡ Some (frame_in frame.now) }
    requires index { index < length (frame_in frame.now).components }
    requires component { component_in component.now
        ≡ get_or (frame_in frame.now).components index (component_in component.now) }
    ensures { OnOk result (with_decoded state.now decoded.new
        ≡ with_plane_shown (frame_in frame.now) (with_decoded state.now decoded.old)
        (index, component_in component.now)) }
{
    if decoded.planes.has(index) {
        return Ok(());
    }
    let plane = plane_held(alloc, state, frame, component, &decoded.kept, index)?;
    decoded.planes.put(index, plane);
    Ok(())
}

/// Gives a component of a lossless frame without samples half of their range.
fn complete_samples(
    alloc: Global,
    frame: &FrameInfo,
    component: &Component,
    decoded: &mut Decoded,
    index: usize,
) -> std::result::Result<(), AllocError>
    requires frame { IsDecodedFrame (frame_in frame.now) }
    requires process { (frame_in frame.now).process ≡ Lossless }
    requires index { index < 4 }
    ensures { (base : Found) → OnOk result (with_decoded base decoded.new
        ≡ with_samples_shown (frame_in frame.now) (with_decoded base decoded.old)
        (index, component_in component.now)) }
{
    if decoded.samples[index].is_some() {
        return Ok(());
    }
    let samples = grey_samples(alloc, component, frame.precision)?;
    decoded.samples[index] = Some(samples);
    Ok(())
}

/// Gives a component what the picture needs of it.
fn complete_part(
    alloc: Global,
    state: &State,
    frame: &FrameInfo,
    component: &Component,
    decoded: &mut Decoded,
    index: usize,
) -> std::result::Result<(), AllocError>
    requires sound { IsSound (with_decoded state.now decoded.old) }
    requires frame { state.now.said.frame ≡ Some (frame_in frame.now) }
    requires index { index < length (frame_in frame.now).components }
    requires component { component_in component.now
        ≡ get_or (frame_in frame.now).components index (component_in component.now) }
    ensures { OnOk result (with_decoded state.now decoded.new
        ≡ shown_by (frame_in frame.now).process (frame_in frame.now)
        (with_decoded state.now decoded.old) (index, component_in component.now)) }
{
    match frame.coding_process {
        CodingProcess::Lossless => complete_samples(alloc, frame, component, decoded, index),
        CodingProcess::DctSequential | CodingProcess::DctProgressive => {
            complete_plane(alloc, state, frame, component, decoded, index)
        }
    }
}

/// Gives each component of a frame what the picture needs of it. The only error is out of memory.
fn complete(
    alloc: Global,
    state: &State,
    frame: &FrameInfo,
    decoded: &mut Decoded,
) -> std::result::Result<(), AllocError>
    requires sound { IsSound (with_decoded state.now decoded.old) }
    requires frame { state.now.said.frame ≡ Some (frame_in frame.now) }
    ensures completed { OnOk result (with_decoded state.now decoded.new
        ≡ completed (with_decoded state.now decoded.old) (frame_in frame.now)) }
    ensures sound { OnOk result (IsSound (with_decoded state.now decoded.new)) }
{
    for index in 0..frame.components.len() {
        complete_part(
            alloc,
            state,
            frame,
            &frame.components[index],
            decoded,
            index,
        )?;
    }
    Ok(())
}

/// Returns whether the scans gave what the picture needs of a component.
fn is_there(
    state: &State,
    frame: &FrameInfo,
    component: &Component,
    decoded: &Decoded,
    index: usize,
) -> bool
    requires { index < 4 }
    ensures { result ≡ is_there (frame_in frame.now).process
        (with_decoded state.now decoded.now) (frame_in frame.now)
        (index, component_in component.now) }
{
    if frame.coding_process == CodingProcess::Lossless {
        return decoded.samples[index].is_some();
    }
    let table = table_at(&state.said.quantization, component.quantization_table_index);
    decoded.planes.has(index) || (are_kept(state, frame) && table.is_some())
}

/// Returns the fault of an image in which a component was not sent, if there is one.
fn missing_fault(
    alloc: Global,
    state: &State,
    frame: &FrameInfo,
    decoded: &Decoded,
) -> Option<Error>
    requires sound { IsSound (with_decoded state.now decoded.now) }
    requires frame { state.now.said.frame ≡ Some (frame_in frame.now) }
    ensures { NamesFault result (fault_in (planes_by (frame_in frame.now).process
        (with_decoded state.now decoded.now) (frame_in frame.now))) }
{
    for index in 0..frame.components.len() {
        if !is_there(state, frame, &frame.components[index], decoded, index) {
            return Some(format_error(alloc, "found EOI, expected a scan of each component"));
        }
    }
    None
}

/// Returns how many rows of the picture are complete, by what the scan with the fault says: none if
/// a component was not sent.
fn whole_rows_of(frame: &FrameInfo, rows: Option<u16>, is_missing: bool) -> u16
    ensures all { is_missing ≡ false
        → result ≡ unwrap_or rows (frame_in frame.now).output_height }
    ensures none { is_missing ≡ true → result ≡ 0 }
{
    if is_missing {
        return 0;
    }
    rows.unwrap_or(frame.output_size.height)
}

/// Returns the lines of the picture of what was found, how many of them are complete, and the first
/// fault: that of the segments, or that a component was not sent.
fn show_found(
    alloc: Global,
    state: &State,
    decoded: &mut Decoded,
    settings: Settings,
    fault: Option<Error>,
    rows: Option<u16>,
) -> Result<PartialLines>
    requires sound { IsSound (with_decoded state.now decoded.old) }
    requires fault { IfSome fault IsOfBytes }
    ensures shown { (ended : Result (List ℕ) Fault) → NamesFault fault (fault_in ended)
        → IsShown (shown_of settings (with_decoded state.now decoded.old) ended)
        (λ p. concat p.lines) (λ p. p.fault) result (told_of state.now.said) }
    ensures rows { IfOk result (λ p. p.whole_rows
        ≡ rows_of_found rows (with_decoded state.now decoded.old)) }
    ensures first { IfOk result (λ p. IfSome fault (λ e. p.fault ≡ Some e)) }
    ensures refused { IfErr result IsOfBytes }
    ensures framed { IfOk result (λ _. is_some state.now.said.frame ≡ true) }
    ensures lines { IfOk result (λ p. AreLinesOf
        (option_map (shape_of settings) state.now.said.frame) p.lines) }
{
    let Some(frame) = state.said.frame.as_ref() else {
        if let Some(e) = fault {
            return Err(e);
        }
        return Err(format_error(alloc, "found EOI, expected a frame header"));
    };
    let missing = missing_fault(alloc, state, frame, decoded);
    let whole_rows = whole_rows_of(frame, rows, missing.is_some());
    complete(alloc, state, frame, decoded)?;
    let lines = picture(alloc, state, decoded, settings)?;
    Ok(PartialLines {
        lines,
        whole_rows,
        fault: fault.or(missing),
    })
}

/// Returns whether segments ended for lack of memory, or because reads were interrupted forever:
/// once the picture is refused, a caller could no longer tell.
fn is_unknown_end(ended: &Result<()>) -> bool
    ensures memory { result ≡ false → is_out_of_memory ended.now ≡ false }
    ensures interrupted { result ≡ false → IfErr ended.now (λ e. IsGivenUp e false → ⊥) }
{
    match ended {
        Err(Error::OutOfMemory) => true,
        Err(Error::Format(text)) => text.is_empty(),
        _ => false,
    }
}

/// Returns the lines of the picture of what was found before segments have ended so, how many of
/// them are complete, and the first fault. No blocks or planes are kept.
fn show_ended(
    alloc: Global,
    state: &mut State,
    settings: Settings,
    ended: Result<()>,
    walk: Walk,
) -> Result<PartialLines>
    requires sound { UnlessRefused ended (IsSound state.old) }
    requires fault { IfErr ended IsOfBytes }
    ensures shows { (w : Walked) (old new : Stream) → IsEndOfWalk w old ended state.old walk new
        → ShowsWalk settings w old result new (told_of state.new.said) walk.budget.exceeded }
    ensures refused { IfErr result IsOfBytes }
    ensures said { state.new.said ≡ state.old.said }
    ensures framed { IfOk result (λ _. is_some state.new.said.frame ≡ true) }
    ensures frames { OnOk result (HasDecodedFrame state.new) }
    ensures lines { IfOk result (λ p. AreLinesOf
        (option_map (shape_of settings) state.new.said.frame) p.lines) }
    ensures size { IfOk result (λ p. IsWhole
        (option_map (shape_of settings) state.new.said.frame) (concat p.lines)) }
    ensures emptied { (state.new.kept ≡ []) × (state.new.planes ≡ replicate 4 None)
        × (state.new.samples ≡ replicate 4 None) }
{
    let mut decoded = std::mem::replace(&mut state.decoded, Decoded::new(alloc));
    if is_unknown_end(&ended) {
        return Err(Error::OutOfMemory);
    }
    show_found(alloc, state, &mut decoded, settings, ended.err(), walk.rows)
}

/// Reads the rest of a stream up to its first fault, and returns the lines of the picture that it
/// has brought, how many of them are complete, and its first fault. No blocks or planes are kept.
/// `exceeded` says whether the fault is a scan of more blocks than the limit leaves.
///
/// The error is the fault if the stream has no frame, `Format` if the picture is above the limit or
/// the transform doesn't fit it, and out of memory.
pub fn show_rest<R: Read + Drop>(
    alloc: Global,
    source: &mut Source<R>,
    state: &mut State,
    settings: Settings,
    exceeded: &mut bool,
) -> Result<PartialLines>
    requires sound { IsSound state.old }
    ensures shows { ShowsWalk settings (all_brought settings.max_blocks state.old source.old.bytes)
        source.old result source.new (told_of state.new.said) exceeded.new }
    ensures refused { IfErr result IsOfBytes }
    ensures framed { IfOk result (λ _. is_some state.new.said.frame ≡ true) }
    ensures frames { OnOk result (HasDecodedFrame state.new) }
    ensures stays { is_some state.old.said.frame ≡ true → state.new.said.frame
        ≡ state.old.said.frame }
    ensures lines { IfOk result (λ p. AreLinesOf
        (option_map (shape_of settings) state.new.said.frame) p.lines) }
    ensures size { IfOk result (λ p. IsWhole
        (option_map (shape_of settings) state.new.said.frame) (concat p.lines)) }
    ensures emptied { (state.new.kept ≡ []) × (state.new.planes ≡ replicate 4 None)
        × (state.new.samples ≡ replicate 4 None) }
{
    let mut walk = Walk {
        budget: Budget {
            left: settings.max_blocks,
            exceeded: false,
        },
        rows: None,
    };
    let ended = read_segments(alloc, source, state, false, Beyond::Nothing, &mut walk);
    *exceeded = walk.budget.exceeded;
    show_ended(alloc, state, settings, ended, walk)
}

/// Reads a stream after a step up to its first fault, and returns the lines of the picture that it
/// has brought, as `show_rest` does. `walk` says how many blocks its scans may code, if there is a
/// limit, and after the call whether the fault is a scan of more.
pub fn show_from<R: Read + Drop>(
    alloc: Global,
    source: &mut Source<R>,
    state: &mut State,
    first: Step,
    walk: &mut Walk,
    settings: Settings,
) -> Result<PartialLines>
    requires sound { IsSound state.old }
    requires going { IsGoing walk.old }
    ensures shows { (k : Bool) → IsKnownIf k 1 source.old → ShowsWalk settings
        (steps_over walk.old.budget.left Nothing state.old first source.old.bytes)
        (known_if k source.old) result source.new (told_of state.new.said)
        walk.new.budget.exceeded }
    ensures refused { IfErr result IsOfBytes }
    ensures framed { IfOk result (λ _. is_some state.new.said.frame ≡ true) }
    ensures frames { OnOk result (HasDecodedFrame state.new) }
    ensures stays { is_some state.old.said.frame ≡ true → state.new.said.frame
        ≡ state.old.said.frame }
    ensures lines { IfOk result (λ p. AreLinesOf
        (option_map (shape_of settings) state.new.said.frame) p.lines) }
    ensures size { IfOk result (λ p. IsWhole
        (option_map (shape_of settings) state.new.said.frame) (concat p.lines)) }
    ensures emptied { (state.new.kept ≡ []) × (state.new.planes ≡ replicate 4 None)
        × (state.new.samples ≡ replicate 4 None) }
{
    let ended = read_from(alloc, source, state, first, Beyond::Nothing, walk);
    show_ended(alloc, state, settings, ended, *walk)
}
