//! The planes of a picture: the samples of each component at its own size (T.81, A.1.1).
ghost use Rattle.std.specs.Prelude.{◌≡◌, ◌++◌, IfOk, MatchResult, OnOk, Some, length, map};
ghost use Rattle.jpeg_bits.specs.Reading.{NamesFormat};
ghost use Rattle.jpeg_bits.specs.declared.error.Error.TheVariants.{OutOfMemory};
ghost use Rattle.jpeg_segments.specs.FrameView.{component_in, frame_in};
ghost use Rattle.jpeg_segments.specs.declared.frame.CodingProcess.TheVariants.{Lossless};
ghost use Rattle.jpeg_pixels.specs.Pictures.{AreWhole};
ghost use Rattle.jpeg_pixels.specs.Scaled.{IsScale};
ghost use Rattle.jpeg_lossless.specs.Pictures.{sample_bytes};
ghost use Rattle.jpeg_meaning.specs.FoundPlanes.{blocks_planes, bytes_of_samples, own_plane};
ghost use Rattle.jpeg_meaning.specs.FoundPlanes.{own_planes, planes_of, samples_planes};
ghost use Rattle.jpeg_meaning.specs.Sound.{IsDecodedFrame, IsSound};
ghost use Rattle.jpeg_decoder.specs.Bytes.{AreOwnPlanes};
ghost use Rattle.jpeg_decoder.specs.Steps.{HasOwnSize, Returns, with_decoded};

use crate::picture::whole::{planes_at_end, samples_at_end};
use crate::scan::decoded::Decoded;
use crate::sizes::samples_in;
use crate::stream::state::State;
use crate::stream::tables::{Missing, needed};
use jpeg_bits::error::{Error, Result, format_error_of};
use jpeg_bits::marker::Marker;
use jpeg_pixels::lines::cropped_lines;
use jpeg_segments::parser::{CodingProcess, Component, FrameInfo};
use std::alloc::Global;

/// Crops the plane of a component, of all its blocks, to the component's own size.
fn own_plane(alloc: Global, component: &Component, plane: Vec<u8>) -> Result<Vec<u8>>
    requires scale { IsScale component.now.dct_scale }
    requires size { HasOwnSize (component_in component.now) plane.items }
    ensures { MatchResult result (λ v. v.items ≡ own_plane (component_in component.now) plane.items)
        (λ e. e ≡ OutOfMemory) }
{
    let stride = component.dct_scale * usize::from(component.block_size.width);
    let width = usize::from(component.size.width);
    let height = usize::from(component.size.height);
    cropped_lines(plane, stride, width, height).into_picture(alloc)
}

/// Crops the planes of a frame's components, of all their blocks, to the components' own sizes.
#[tactic(auto, using(crate::proofs::Rules::owned))]
fn own_planes(alloc: Global, frame: &FrameInfo, planes: Vec<Vec<u8>>) -> Result<Vec<Vec<u8>>>
    requires frame { IsDecodedFrame (frame_in frame.now) }
    requires planes { AreWhole (frame_in frame.now).components (map (λ p. p.items) planes.items) }
    requires count { length planes.items ≡ length (frame_in frame.now).components }
    ensures { MatchResult result (λ v. map (λ p. p.items) v.items
        ≡ own_planes (frame_in frame.now).components (map (λ p. p.items) planes.items))
        (λ e. e ≡ OutOfMemory) }
{
    let mut planes = planes;
    for index in 0..planes.len() {
        let plane = std::mem::replace(&mut planes[index], Vec::new(alloc));
        planes[index] = own_plane(alloc, &frame.components[index], plane)?;
    }
    Ok(planes)
}

/// Returns the planes of a frame of blocks, which are taken.
#[tactic(auto, unfolding(jpeg_meaning::specs::FoundPlanes::blocks_planes))]
fn blocks_planes(
    alloc: Global,
    state: &State,
    frame: &FrameInfo,
    decoded: &mut Decoded,
) -> Result<Vec<Vec<u8>>>
    requires sound { IsSound (with_decoded state.now decoded.old) }
    requires frame { state.now.said.frame ≡ Some (frame_in frame.now) }
    requires process { (frame_in frame.now).process ≡ Lossless → ⊥ }
    ensures meant { let expected = blocks_planes (with_decoded state.now decoded.old)
        (frame_in frame.now) in
        Returns expected (λ v. map (λ p. p.items) v.items) result }
    ensures sizes { IfOk result (λ v. AreOwnPlanes (Some (frame_in frame.now))
        (map (λ p. p.items) v.items)) }
{
    let planes = planes_at_end(alloc, state, frame, decoded)?;
    own_planes(alloc, frame, planes)
}

/// Appends the bytes of a sample: one up to precision 8, else two, the lower first.
fn push_sample(bytes: &mut Vec<u8>, sample: u16, precision: u8) -> Result<()>
    ensures bytes { OnOk result (bytes.new.items ≡ bytes.old.items
        ++ sample_bytes precision sample) }
    ensures err { MatchResult result (λ _. Unit {0}) (λ e. e ≡ OutOfMemory) }
{
    bytes.push((sample % 256) as u8)?;
    if precision > 8 {
        bytes.push((sample / 256) as u8)?;
    }
    Ok(())
}

/// Returns how many bytes to reserve for samples, so that no room is made twice.
fn room_for(samples: usize, precision: u8) -> usize {
    if precision > 8 {
        samples.saturating_mul(2)
    } else {
        samples
    }
}

/// Returns the bytes of samples: one of each up to precision 8, else two, the lower first.
#[tactic(auto, using(crate::proofs::Rules::sampled_bytes))]
fn bytes_of_samples(alloc: Global, samples: &[u16], precision: u8) -> Result<Vec<u8>>
    ensures { MatchResult result (λ v. v.items ≡ bytes_of_samples precision samples.now)
        (λ e. e ≡ OutOfMemory) }
{
    let mut bytes = Vec::with_capacity(alloc, room_for(samples.len(), precision))?;
    for index in 0..samples.len() {
        push_sample(&mut bytes, samples[index], precision)?;
    }
    Ok(bytes)
}

/// Returns the bytes of the samples of each plane.
#[tactic(auto, using(crate::proofs::Rules::sampled_bytes))]
fn bytes_of_all(alloc: Global, planes: &[Vec<u16>], precision: u8) -> Result<Vec<Vec<u8>>>
    ensures { MatchResult result (λ v. map (λ p. p.items) v.items
        ≡ map (bytes_of_samples precision) (map (λ p. p.items) planes.now))
        (λ e. e ≡ OutOfMemory) }
{
    let mut all = Vec::with_capacity(alloc, planes.len())?;
    for index in 0..planes.len() {
        all.push(bytes_of_samples(alloc, &planes[index], precision)?)?;
    }
    Ok(all)
}

/// Returns the planes of a lossless frame, whose samples are taken.
#[tactic(auto, unfolding(jpeg_meaning::specs::FoundPlanes::samples_planes))]
fn samples_planes(
    alloc: Global,
    state: &State,
    frame: &FrameInfo,
    decoded: &mut Decoded,
) -> Result<Vec<Vec<u8>>>
    requires sound { IsSound (with_decoded state.now decoded.old) }
    requires frame { state.now.said.frame ≡ Some (frame_in frame.now) }
    ensures meant { let expected = samples_planes (with_decoded state.now decoded.old)
        (frame_in frame.now) in
        Returns expected (λ v. map (λ p. p.items) v.items) result }
    ensures sizes { IfOk result (λ v. AreOwnPlanes (Some (frame_in frame.now))
        (map (λ p. p.items) v.items)) }
{
    let planes = samples_at_end(alloc, frame, decoded)?;
    bytes_of_all(alloc, &planes, frame.precision)
}

/// Returns the refusal of planes that are above the limit.
#[cold]
#[inline(never)]
fn limit_error(alloc: Global, count: u64, limit: usize) -> Error
    ensures { NamesFormat result }
{
    format_error_of(format!(in alloc; "{count} samples in the planes, expected at most {limit}"))
}

/// Returns the planes of what was found, which is taken: within the limit, of planes that are
/// there.
#[tactic(auto, unfolding(crate::proofs::Rules::found_planes), using(crate::proofs::Rules::refused))]
pub fn found_planes(
    alloc: Global,
    state: &State,
    decoded: &mut Decoded,
    limit: usize,
) -> Result<Vec<Vec<u8>>>
    requires sound { IsSound (with_decoded state.now decoded.old) }
    ensures meant { let expected = planes_of limit (with_decoded state.now decoded.old) in
        Returns expected (λ v. map (λ p. p.items) v.items) result }
    ensures sizes { IfOk result (λ v. AreOwnPlanes state.now.said.frame
        (map (λ p. p.items) v.items)) }
{
    let frame = needed(
        alloc,
        state.said.frame.as_ref(),
        Missing::Frame(Marker::EOI),
    )?;
    let count = samples_in(frame);
    if count > limit as u64 {
        return Err(limit_error(alloc, count, limit));
    }
    match frame.coding_process {
        CodingProcess::DctSequential | CodingProcess::DctProgressive => {
            blocks_planes(alloc, state, frame, decoded)
        }
        CodingProcess::Lossless => samples_planes(alloc, state, frame, decoded),
    }
}
