//! The complete rows of the picture, where a scan was read up to its first fault (T.81, A.2).
ghost use Rattle.std.specs.Prelude.{◌≡◌, ◌<◌, ◌≤◌, ◌*◌, ◌/◌, All, false, get_or, length};
ghost use Rattle.std.specs.Prelude.{List, map, min, option_map, true};
ghost use Rattle.std.specs.List.{list_any};
ghost use Rattle.jpeg_segments.specs.Frame.{AllHaveSampling};
ghost use Rattle.jpeg_segments.specs.FrameView.{component_in, frame_in};
ghost use Rattle.jpeg_meaning.specs.LosslessScans.{LosslessCoding};
ghost use Rattle.jpeg_pixels.specs.Pictures.{is_blended};
ghost use Rattle.jpeg_meaning.specs.ScanSegments.{components_of};
ghost use Rattle.jpeg_meaning.specs.WholeRows.{rows_above, rows_apart, rows_of_lines};
ghost use Rattle.jpeg_meaning.specs.WholeRows.{rows_of_planes};
ghost use Rattle.jpeg_decoder.specs.LosslessParts.{no_component};
ghost use Rattle.jpeg_decoder.specs.Scanning.{scan_components};
ghost use Rattle.jpeg_decoder.specs.Steps.{coding_in};
ghost use Rattle.jpeg_decoder.specs.Walk.{spot_of};

use crate::scan::coded::{Coded, Scan};
use crate::scan::spots::Spot;
use jpeg_pixels::upsampler::is_blended;
use jpeg_segments::parser::{Component, FrameInfo};
use jpeg_segments::sizes::greatest_of;

/// Returns how many rows of a picture of this height some lines of samples make: `greatest` rows
/// to `factor` lines.
fn rows_by(lines: usize, greatest: u8, factor: u8, height: u16) -> u16
    requires { 1 ≤ greatest }
    ensures { result ≡ min height (lines * greatest / factor) }
{
    let rows = lines
        .saturating_mul(usize::from(greatest))
        .checked_div(usize::from(factor))
        .unwrap_or(0);
    rows.min(usize::from(height)) as u16
}

/// Returns how many rows of the picture some lines of a component make, each of `side` lines of
/// samples.
fn rows_of_lines(frame: &FrameInfo, component: &Component, lines: usize, side: usize) -> u16
    requires { AllHaveSampling (frame_in frame.now).components }
    ensures { result ≡ min (frame_in frame.now).output_height
        (rows_of_lines (frame_in frame.now) (component_in component.now) (lines * side)) }
{
    let (_, greatest) = greatest_of(&frame.components);
    let factor = component.vertical_sampling_factor;
    let lines = lines.saturating_mul(side);
    rows_by(lines, greatest, factor, frame.output_size.height)
}

/// Returns how many full lines of `wide` come before an index.
fn lines_before(index: usize, wide: u16) -> usize
    ensures { result ≡ index / wide }
{
    index.checked_div(usize::from(wide)).unwrap_or(0)
}

/// Returns how many lines of blocks lie above the row of MCUs that a line is in.
fn lines_above(line: usize, factor: u8, is_alone: bool) -> usize
    ensures alone { is_alone ≡ true → result ≡ line }
    ensures others { is_alone ≡ false → result ≡ line / factor * factor }
{
    if is_alone {
        return line;
    }
    let factor = usize::from(factor);
    line.checked_div(factor).unwrap_or(0) * factor
}

fn has_blended(frame: &FrameInfo, codings: &[Coded<'_>]) -> bool
    ensures { result ≡ list_any (λ c. is_blended (frame_in frame.now)
        (component_in c.component.now)) codings.now }
{
    codings
        .iter()
        .any(|coded| is_blended(coded.component, frame))
}

/// Returns whether lines of one of these components are blended with those below them.
fn are_blended(frame: &FrameInfo, codings: &[Coded<'_>]) -> bool
    ensures { result ≡ list_any (is_blended (frame_in frame.now))
        (components_of (map coding_in codings.now)) }
{
    has_blended(frame, codings)
}

/// Returns how many of the rows above a row of MCUs need nothing of it.
fn rows_apart(frame: &FrameInfo, codings: &[Coded<'_>], rows: u16) -> u16
    ensures { result ≡ rows_apart (frame_in frame.now) (components_of (map coding_in codings.now))
        rows }
{
    if are_blended(frame, codings) {
        rows.saturating_sub(1)
    } else {
        rows
    }
}

/// Returns how many rows of the picture need nothing of the row of MCUs that a block of a scan is
/// in, nor of those below it.
fn rows_above(frame: &FrameInfo, scan: &Scan<'_>, spot: Spot) -> u16
    requires { AllHaveSampling (frame_in frame.now).components }
    ensures { result ≡ rows_above (frame_in frame.now) (scan_components scan.now) (spot_of spot) }
{
    let codings = scan.components();
    let Some(coded) = codings.get(spot.slot) else {
        return 0;
    };
    let component = coded.component;
    let line = lines_before(spot.index, component.block_size.width);
    let is_alone = codings.len() == 1;
    let lines = lines_above(line, component.vertical_sampling_factor, is_alone);
    let rows = rows_of_lines(frame, component, lines, component.dct_scale);
    rows_apart(frame, codings, rows)
}

/// Returns how many rows of the picture need nothing of the first block of a scan that wasn't read,
/// if there is one, nor of those after it.
pub fn rows_above_unread(frame: &FrameInfo, scan: &Scan<'_>, unread: Option<Spot>) -> Option<u16>
    requires { AllHaveSampling (frame_in frame.now).components }
    ensures { result ≡ option_map (rows_above (frame_in frame.now) (scan_components scan.now))
        (option_map spot_of unread) }
{
    Some(rows_above(frame, scan, unread?))
}

/// Returns how many rows of the picture the whole lines of samples of the first component of a
/// lossless scan make.
pub fn rows_of_planes(frame: &FrameInfo, indices: &[usize], planes: &[Vec<u16>]) -> Option<u16>
    requires sampling { AllHaveSampling (frame_in frame.now).components }
    requires within { All (λ index. index < length (frame_in frame.now).components) indices.now }
    ensures { (codings : List LosslessCoding) → map (λ k. k.component) codings
        ≡ map (λ index. get_or (frame_in frame.now).components index no_component) indices.now
        → result ≡ rows_of_planes (frame_in frame.now) codings (map (λ v. v.items) planes.now) }
{
    let component = &frame.components[*indices.first()?];
    let lines = lines_before(planes.first()?.len(), component.size.width);
    Some(rows_of_lines(frame, component, lines, 1))
}
