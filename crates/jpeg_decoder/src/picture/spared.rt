//! Pictures that are the luma of several components (T.81, A.1.1): the planes of the others are
//! there before scans are read, so that no scan makes them.
ghost use Rattle.std.specs.Prelude.{◌≡◌, ◌≤◌, IfOk, MatchResult, OnOk, Some, false, length, true};
ghost use Rattle.jpeg_bits.specs.Reading.{NamesFormat};
ghost use Rattle.jpeg_pixels.specs.Scaled.{IsScale};
ghost use Rattle.jpeg_segments.specs.FrameView.{component_in, frame_in};
ghost use Rattle.jpeg_meaning.specs.Sound.{ArePlanes, IsDecodedFrame, IsPlaneOf, IsSound};
ghost use Rattle.jpeg_decoder.specs.Spared.{HaveOthers, IfSpared, IsPlaneAt, IsUndecided};
ghost use Rattle.jpeg_decoder.specs.Spared.{ShowsLuma, are_sent, is_component_sent};
ghost use Rattle.jpeg_decoder.specs.Steps.{with_decoded};

use crate::picture::whole::are_kept;
use crate::scan::decoded::{Decoded, are_all};
use crate::scan::strips::plane_size;
use crate::stream::state::State;
use crate::stream::tables::{Missing, needed, table_at};
use jpeg_bits::error::Result;
use jpeg_meaning::settings::Settings;
use jpeg_segments::parser::{CodingProcess, Component, FrameInfo};
use std::alloc::{AllocError, Global};

/// Returns whether the picture of a frame is the luma of several components of blocks.
fn shows_luma(frame: &FrameInfo, settings: Settings) -> bool
    ensures { result ≡ true → ShowsLuma settings (frame_in frame.now) }
{
    settings.luma && frame.coding_process != CodingProcess::Lossless && frame.components.len() > 1
}

/// Returns whether no plane is decided, and of no component all coefficients are finished.
fn is_undecided(decoded: &Decoded) -> bool
    ensures { result ≡ true → IsUndecided decoded.now.planes decoded.now.finished }
{
    decoded.planes.are_none() && decoded.finished.iter().all(|marks| !are_all(marks))
}

/// Makes a plane of zeros for a component.
fn zero_plane(alloc: Global, component: &Component) -> std::result::Result<Vec<u8>, AllocError>
    requires { IsScale component.now.dct_scale }
    ensures { IfOk result (λ v. IsPlaneOf (component_in component.now) (Some v.items)) }
{
    let blocks = component.block_size;
    let size = plane_size(blocks.width, blocks.height, component.dct_scale);
    let mut plane = Vec::with_capacity(alloc, size)?;
    plane.resize(size, 0)?;
    Ok(plane)
}

/// Makes a plane of zeros for the component at an index, or an empty one where the frame has none.
#[tactic(auto, using(crate::proofs::Pictures::SparedPlanes::plane_rules))]
fn plane_or_none(
    alloc: Global,
    frame: &FrameInfo,
    index: usize,
) -> std::result::Result<Vec<u8>, AllocError>
    requires frame { IsDecodedFrame (frame_in frame.now) }
    ensures { IfOk result (λ v. IsPlaneAt (frame_in frame.now).components index v.items) }
{
    if index >= frame.components.len() {
        return Ok(Vec::new(alloc));
    }
    zero_plane(alloc, &frame.components[index])
}

/// Gives planes of zeros to all components but the first.
fn put_planes(
    alloc: Global,
    frame: &FrameInfo,
    decoded: &mut Decoded,
) -> std::result::Result<(), AllocError>
    requires frame { IsDecodedFrame (frame_in frame.now) }
    requires none { IsUndecided decoded.old.planes decoded.old.finished }
    ensures kept { decoded.new.kept ≡ decoded.old.kept }
    ensures finished { decoded.new.finished ≡ decoded.old.finished }
    ensures samples { decoded.new.samples ≡ decoded.old.samples }
    ensures others { OnOk result (HaveOthers decoded.old.planes decoded.new.planes) }
    ensures planes { OnOk result (ArePlanes (frame_in frame.now).components decoded.new.planes) }
{
    let second = plane_or_none(alloc, frame, 1)?;
    let third = plane_or_none(alloc, frame, 2)?;
    let fourth = plane_or_none(alloc, frame, 3)?;
    decoded.planes.put(1, second);
    decoded.planes.put(2, third);
    decoded.planes.put(3, fourth);
    Ok(())
}

/// Gives planes of zeros to all components but the first, where the picture is to be the luma of
/// several and nothing is decided yet, and returns whether it has.
///
/// A plane that is there stays, so no scan transforms the blocks of those components.
pub fn spare_colours(
    alloc: Global,
    state: &mut State,
    settings: Settings,
) -> std::result::Result<bool, AllocError>
    requires sound { IsSound state.old }
    ensures said { state.new.said ≡ state.old.said }
    ensures spared { IfOk result (λ spared. IfSpared spared settings state.old state.new) }
    ensures sound { OnOk result (IsSound state.new) }
{
    let Some(frame) = &state.said.frame else {
        return Ok(false);
    };
    if !shows_luma(frame, settings) || !is_undecided(&state.decoded) {
        return Ok(false);
    }
    put_planes(alloc, frame, &mut state.decoded)?;
    Ok(true)
}

/// Checks that scans have brought a component: all coefficients of its blocks; or, where blocks are
/// kept, some, and its quantization table is there.
fn check_component(
    alloc: Global,
    state: &State,
    component: &Component,
    is_whole: bool,
    is_kept: bool,
) -> Result<()>
    ensures { let is_sent = is_component_sent is_whole is_kept state.now.said
        (component_in component.now) in
        MatchResult result (λ _. is_sent ≡ true) (λ e. (is_sent ≡ false) × NamesFormat e) }
{
    if is_whole {
        return Ok(());
    }
    let identifier = component.identifier;
    let scan = if is_kept { Some(identifier) } else { None };
    needed(alloc, scan, Missing::Scan(identifier))?;
    let destination = component.quantization_table_index;
    let missing = Missing::Table("quantization", destination, identifier);
    needed(
        alloc,
        table_at(&state.said.quantization, destination),
        missing,
    )?;
    Ok(())
}

/// Checks that scans have brought all components of a frame.
pub fn check_sent(alloc: Global, state: &State, frame: &FrameInfo, decoded: &Decoded) -> Result<()>
    requires few { length (frame_in frame.now).components ≤ 4 }
    ensures { let are_sent = are_sent (with_decoded state.now decoded.now) (frame_in frame.now) in
        MatchResult result (λ _. are_sent ≡ true) (λ e. (are_sent ≡ false) × NamesFormat e) }
{
    let is_kept = are_kept(state, frame);
    for index in 0..frame.components.len() {
        let is_whole = are_all(&decoded.finished[index]);
        check_component(alloc, state, &frame.components[index], is_whole, is_kept)?;
    }
    Ok(())
}
