//! Lines of components that have sampling factors of their own, as wide as the picture (T.81, A.2).
ghost use Rattle.std.specs.Prelude.{◌≡◌, ◌≤◌, ◌+◌, ◌*◌, ◌/◌, IfOk, map, length};
ghost use Rattle.std.specs.Prelude.{slice_index, take, drop, true};
ghost use Rattle.std.specs.List.{AllByRecursion, range_with_len};
ghost use Rattle.jpeg_lossless.specs.Pictures.{AreWide, lines_across};
ghost use Rattle.jpeg_lossless.specs.Samplings.{HasLine, layers_in, sampling_in};

use jpeg_segments::parser::Component;
use std::alloc::{AllocError, Global};

/// The sampling factors of a component and the samples of its lines, or the greatest factors of a
/// frame and the pixels of its lines.
#[derive(Clone, Copy)]
pub(crate) struct Sampling {
    pub(crate) horizontal: u8,
    pub(crate) vertical: u8,
    pub(crate) width: u16,
}

/// Returns the sampling of each component.
pub(crate) fn samplings_of(
    alloc: Global,
    components: &[Component],
) -> Result<Vec<Sampling>, AllocError>
    ensures { IfOk result (λ v. v.items ≡ map sampling_in components.now) }
{
    let mut samplings = Vec::with_capacity(alloc, components.len())?;
    for i in 0..components.len() {
        let component = &components[i];
        samplings.push(Sampling {
            horizontal: component.horizontal_sampling_factor,
            vertical: component.vertical_sampling_factor,
            width: component.size.width,
        })?;
    }
    Ok(samplings)
}

/// Returns whether each component has a sample of each pixel of the picture, in lines as long as
/// its.
pub(crate) fn are_plain(samplings: &[Sampling], picture: Sampling) -> bool
    ensures { result ≡ true → AllByRecursion (λ s. s ≡ picture) samplings.now }
{
    for i in 0..samplings.len() {
        let sampling = samplings[i];
        if sampling.horizontal != picture.horizontal
            || sampling.vertical != picture.vertical
            || sampling.width != picture.width
        {
            return false;
        }
    }
    true
}

/// Returns lines of `width` samples, all 0.
#[tactic(auto, using(crate::proofs::FilledLines::wide_lines))]
pub(crate) fn zero_lines(
    alloc: Global,
    count: usize,
    width: usize,
) -> Result<Vec<Vec<u16>>, AllocError>
    ensures count { IfOk result (λ v. length v.items ≡ count) }
    ensures wide { IfOk result (λ v. AreWide width (map (λ l. l.items) v.items)) }
{
    let mut lines = Vec::with_capacity(alloc, count)?;
    for _ in 0..count {
        lines.push(vec![in alloc; 0; width]?)?;
    }
    Ok(lines)
}

/// Returns the line of a component's plane that line `row` of the picture takes, where `vertical`
/// is the frame's greatest vertical factor.
fn line_of(sampling: Sampling, plane: &[u16], vertical: u8, row: usize) -> &[u16]
    requires some { 1 ≤ vertical }
    requires row { row ≤ 65535 }
    requires long { row * sampling.vertical / vertical * sampling.width + sampling.width
        ≤ length plane.now }
    ensures { result.now ≡ take sampling.width
        (drop (row * sampling.vertical / vertical * sampling.width) plane.now) }
{
    let line = row * usize::from(sampling.vertical) / usize::from(vertical);
    let width = usize::from(sampling.width);
    let start = line * width;
    &plane[start..start + width]
}

/// Writes the samples that a line of the picture takes of a component. Pixel x takes the sample in
/// column `x * factor / most` of `own`, rounded down.
#[tactic(auto, using(std::proofs::lemmas::Grind::common_steps))]
fn stretch(own: &[u16], factor: u8, most: u8, line: &mut [u16])
    requires some { 1 ≤ factor }
    requires most { factor ≤ most }
    requires reaches { length line.old * factor ≤ length own.now * most }
    ensures { line.new
        ≡ map (λ x. slice_index own.now (x * factor / most)) (range_with_len 0 (length line.old)) }
{
    if factor == most {
        line.copy_from_slice(&own[..line.len()]);
        return;
    }
    let mut column = 0;
    // The remainder of the pixel's product, so that no pixel needs a division.
    let mut rest = 0u16;
    for x in 0..line.len() {
        line[x] = own[column];
        rest += u16::from(factor);
        if rest >= u16::from(most) {
            rest -= u16::from(most);
            column += 1;
        }
    }
}

/// Writes the samples that line `row` of the picture takes of each component to its line of
/// `lines`.
#[tactic(auto, using(crate::proofs::StretchedLines::no_lines))]
pub(crate) fn stretch_all(
    samplings: &[Sampling],
    planes: &[Vec<u16>],
    picture: Sampling,
    row: usize,
    lines: &mut [Vec<u16>],
)
    requires vertical { 1 ≤ picture.vertical }
    requires row { row ≤ 65535 }
    requires samplings { length samplings.now ≡ length planes.now }
    requires own { AllByRecursion (HasLine picture row)
        (layers_in samplings.now (map (λ v. v.items) planes.now)) }
    requires count { length lines.old ≡ length planes.now }
    requires wide { AreWide picture.width (map (λ v. v.items) lines.old) }
    ensures count { length lines.new ≡ length lines.old }
    ensures lines { map (λ v. v.items) lines.new
        ≡ lines_across picture.horizontal picture.vertical picture.width
        (layers_in samplings.now (map (λ v. v.items) planes.now)) row }
{
    for i in 0..planes.len() {
        let sampling = samplings[i];
        let own = line_of(sampling, &planes[i], picture.vertical, row);
        let line = lines[i].as_mut_slice();
        stretch(own, sampling.horizontal, picture.horizontal, line);
    }
}
