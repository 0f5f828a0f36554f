//! The samples of a lossless component that no scan has brought (T.81, Annex H).
ghost use Rattle.std.specs.Prelude.{◌≡◌, ◌<◌, ◌≤◌, ◌-◌, ◌*◌, ◌^◌, All, IfOk, OnOk, length, map};
ghost use Rattle.std.specs.Prelude.{option_map, replicate, unwrap_or};
ghost use Rattle.jpeg_segments.specs.FrameView.{component_in, frame_in};
ghost use Rattle.jpeg_decoder.specs.PlanesView.{planes_in};
ghost use Rattle.jpeg_decoder.specs.Reaching.{over, planes_over};

use jpeg_segments::parser::{Component, FrameInfo};
use std::alloc::{AllocError, Global};

/// Returns half of the range of samples.
fn half_of(precision: u8) -> u16
    requires some { 1 ≤ precision }
    requires most { precision ≤ 16 }
    ensures { result ≡ 2 ^ (precision - 1) }
{
    1 << (precision - 1)
}

/// Returns how many samples a lossless component has.
fn count_of(component: &Component) -> usize
    ensures { let c = component_in component.now in result ≡ c.width * c.height }
{
    usize::from(component.size.width) * usize::from(component.size.height)
}

/// Returns the samples of a lossless component that no scan has brought: half of their range.
pub fn grey_samples(
    alloc: Global,
    component: &Component,
    precision: u8,
) -> std::result::Result<Vec<u16>, AllocError>
    requires some { 1 ≤ precision }
    requires most { precision ≤ 16 }
    ensures { let c = component_in component.now in
        IfOk result (λ v. v.items ≡ replicate (c.width * c.height) (2 ^ (precision - 1))) }
{
    let count = count_of(component);
    let mut samples = Vec::with_capacity(alloc, count)?;
    samples.resize(count, half_of(precision))?;
    Ok(samples)
}

/// Adds to the first samples of a component those that are left of an earlier scan, or else half of
/// their range.
fn complete(
    component: &Component,
    precision: u8,
    earlier: &Option<Vec<u16>>,
    samples: &mut Vec<u16>,
) -> std::result::Result<(), AllocError>
    requires some { 1 ≤ precision }
    requires most { precision ≤ 16 }
    ensures { let c = component_in component.now in
        OnOk result (samples.new.items ≡ over (unwrap_or (option_map (λ v. v.items) earlier.now)
        (replicate (c.width * c.height) (2 ^ (precision - 1)))) samples.old.items) }
{
    match earlier {
        Some(earlier) => {
            if samples.len() < earlier.len() {
                samples.extend_from_slice(&earlier[samples.len()..])?;
            }
        }
        None => {
            let count = count_of(component);
            if samples.len() < count {
                samples.resize(count, half_of(precision))?;
            }
        }
    }
    Ok(())
}

/// Adds to the first samples of each component of a scan those that are left of earlier scans, or
/// else half of their range.
pub fn complete_all(
    frame: &FrameInfo,
    indices: &[usize],
    earlier: &[Option<Vec<u16>>; 4],
    planes: &mut Vec<Vec<u16>>,
) -> std::result::Result<(), AllocError>
    requires some { 1 ≤ (frame_in frame.now).precision }
    requires most { (frame_in frame.now).precision ≤ 16 }
    requires count { length planes.old.items ≡ length indices.now }
    requires within { All (λ index. index < length (frame_in frame.now).components) indices.now }
    requires indices { All (λ index. index < 4) indices.now }
    ensures count { OnOk result (length planes.new.items ≡ length planes.old.items) }
    ensures planes { OnOk result (map (λ v. v.items) planes.new.items
        ≡ planes_over (frame_in frame.now) (planes_in earlier.now) indices.now
        (map (λ v. v.items) planes.old.items)) }
{
    for slot in 0..indices.len() {
        let index = indices[slot];
        complete(
            &frame.components[index],
            frame.precision,
            &earlier[index],
            &mut planes[slot],
        )?;
    }
    Ok(())
}
