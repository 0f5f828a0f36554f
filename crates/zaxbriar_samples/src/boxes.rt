//! Pictures made smaller, line by line: each sample is the mean of the samples of its box.
ghost use Rattle.std.specs.Prelude.{◌≡◌, ◌≤◌, ◌<◌, ◌+◌, ◌++◌, ◌*◌, ◌%◌, ◌^◌, ℕ, List, OnOk, length};
ghost use Rattle.std.specs.Prelude.{if◌then◌else◌, slice_index};
ghost use Rattle.zaxbriar_samples.specs.Boxes.{box_line, component_bytes, edge};
ghost use Rattle.zaxbriar_samples.specs.Boxes.{is_smaller, lines_in, lower_first_bytes, mean_in};
ghost use Rattle.zaxbriar_samples.specs.Boxes.{sum_over, texts_below};
ghost use Rattle.zaxbriar_samples.specs.BoxSums.{AreSums, sum_at};
ghost use Rattle.zaxbriar_samples.specs.Samples.{byte_at, is_wide, pair_at, sample_in};

use crate::netpbm::Picture;
use crate::samples::{components_of, is_wide};
use jpeg_bits::error;
use jpeg_meaning::images::ImageInfo;
use jpeg_segments::parser::Dimensions;
use std::alloc::{AllocError, Global};

/// A picture that is made smaller.
#[derive(Clone, Copy)]
struct Reduction {
    /// The width that it has.
    width: u16,
    /// The height that it has.
    height: u16,
    /// The width that it is made.
    to_width: u16,
    /// The height that it is made.
    to_height: u16,
    /// How many samples a pixel has.
    components: u8,
    /// How many bits a sample has.
    precision: u8,
}

/// A box of pixels.
#[derive(Clone, Copy)]
struct Area {
    /// Its first column.
    left: u16,
    /// Its first line.
    top: u16,
    /// How many columns it has.
    width: u16,
    /// How many lines it has.
    height: u16,
}

/// Returns where a box begins on a side that is shared out to this number of boxes.
fn edge(index: u16, side: u16, boxes: u16) -> u16
    requires some { 1 ≤ boxes }
    requires inside { index ≤ boxes }
    ensures edge { result ≡ edge index side boxes }
    ensures within { result ≤ side }
{
    (u32::from(index) * u32::from(side) / u32::from(boxes)) as u16
}

/// Adds to each sum the byte of a line in its place.
fn add_bytes(sums: &mut [u32], line: &[u8])
    ensures { (i : ℕ) → i < length sums.old → i < length line.now → slice_index sums.new i
        ≡ (slice_index sums.old i + byte_at line.now i) % 2 ^ 32 }
{
    for index in 0..sums.len().min(line.len()) {
        sums[index] = sums[index].wrapping_add(u32::from(line[index]));
    }
}

/// Adds to each sum the sample of two bytes of a line in its place.
fn add_pairs(sums: &mut [u32], line: &[u8])
    ensures { (i : ℕ) → i < length sums.old → 2 * i + 1 < length line.now → slice_index sums.new i
        ≡ (slice_index sums.old i + pair_at line.now i) % 2 ^ 32 }
{
    for index in 0..sums.len().min(line.len() / 2) {
        let pair = u32::from(line[2 * index]) + 256 * u32::from(line[2 * index + 1]);
        sums[index] = sums[index].wrapping_add(pair);
    }
}

/// Adds to each sum the sample of a line in its place.
fn add_line(sums: &mut [u32], precision: u8, line: &[u8])
    ensures { length line.now ≡ length sums.old * (if is_wide precision then 2 else 1)
        → (i : ℕ) → i < length sums.old → slice_index sums.new i
        ≡ (slice_index sums.old i + sample_in precision line.now i) % 2 ^ 32 }
{
    if is_wide(precision) {
        add_pairs(sums, line);
    } else {
        add_bytes(sums, line);
    }
}

/// Returns the sum of a component's samples in a box, from the sums of their columns.
fn box_sum(sums: &[u32], components: u8, area: Area, component: u8) -> u64
    requires inside { (area.left + area.width) * components ≤ length sums.now }
    requires component { component < components }
    ensures sum { result
        ≡ sum_over area.width (sum_at sums.now area.left components component) }
    ensures most { result ≤ 4294967295 * area.width }
{
    let mut sum = 0;
    for across in 0..area.width {
        let column = usize::from(area.left) + usize::from(across);
        sum += u64::from(sums[column * usize::from(components) + usize::from(component)]);
    }
    sum
}

/// Returns the mean of a component's samples in a box.
fn mean_in(sums: &[u32], reduction: Reduction, area: Area, component: u8) -> u64
    requires inside { area.left + area.width ≤ reduction.width }
    requires sized { length sums.now ≡ reduction.width * reduction.components }
    requires component { component < reduction.components }
    ensures { (pixels : List ℕ) → AreSums pixels reduction area.top area.height sums.now
        → result ≡ mean_in pixels reduction area component }
{
    let sum = box_sum(sums, reduction.components, area, component);
    let count = u64::from(area.width) * u64::from(area.height);
    (sum + count / 2).checked_div(count).unwrap_or(0)
}

/// Appends the bytes of a sample.
#[tactic(auto, unfolding(crate::specs::Boxes::lower_first_bytes))]
fn push_sample(bytes: &mut Vec<u8>, precision: u8, sample: u64) -> Result<(), AllocError>
    ensures { OnOk result (bytes.new.items
        ≡ bytes.old.items ++ lower_first_bytes precision sample) }
{
    bytes.push((sample % 256) as u8)?;
    if precision > 8 {
        bytes.push((sample / 256 % 256) as u8)?;
    }
    Ok(())
}

/// Appends the bytes of the pixel of the smaller picture that a box becomes.
fn push_pixel(
    bytes: &mut Vec<u8>,
    sums: &[u32],
    reduction: Reduction,
    area: Area,
) -> Result<(), AllocError>
    requires inside { area.left + area.width ≤ reduction.width }
    requires sized { length sums.now ≡ reduction.width * reduction.components }
    ensures { (pixels : List ℕ) → AreSums pixels reduction area.top area.height sums.now
        → OnOk result (bytes.new.items ≡ bytes.old.items
        ++ texts_below reduction.components (component_bytes pixels reduction area)) }
{
    for component in 0..reduction.components {
        let mean = mean_in(sums, reduction, area, component);
        push_sample(bytes, reduction.precision, mean)?;
    }
    Ok(())
}

/// Returns how many lines the boxes in a line of boxes have.
fn lines_in(reduction: Reduction, y: u16) -> u16
    requires { y < reduction.to_height }
    ensures { result ≡ lines_in reduction y }
{
    let top = edge(y, reduction.height, reduction.to_height);
    let bottom = edge(y + 1, reduction.height, reduction.to_height);
    bottom.saturating_sub(top)
}

/// Appends the bytes of a line of the smaller picture, from the sums of the columns of its boxes.
fn push_line(
    bytes: &mut Vec<u8>,
    sums: &[u32],
    reduction: Reduction,
    y: u16,
) -> Result<(), AllocError>
    requires line { y < reduction.to_height }
    requires sized { length sums.now ≡ reduction.width * reduction.components }
    ensures { (pixels : List ℕ) → AreSums pixels reduction
        (edge y reduction.height reduction.to_height) (lines_in reduction y) sums.now
        → OnOk result (bytes.new.items ≡ bytes.old.items ++ box_line pixels reduction y) }
{
    let top = edge(y, reduction.height, reduction.to_height);
    let height = lines_in(reduction, y);
    let mut left = 0;
    for x in 0..reduction.to_width {
        let right = edge(x + 1, reduction.width, reduction.to_width);
        let area = Area {
            left,
            top,
            width: right.saturating_sub(left),
            height,
        };
        push_pixel(bytes, sums, reduction, area)?;
        left = right;
    }
    Ok(())
}

/// Returns whether a size is smaller than a picture in one direction, and not greater in the other.
pub fn is_smaller(size: Dimensions, info: ImageInfo) -> bool
    ensures { result ≡ is_smaller size info }
{
    size.width <= info.width
        && size.height <= info.height
        && (size.width < info.width || size.height < info.height)
}

/// Returns how many bytes the smaller picture has.
fn smaller_bytes(reduction: Reduction) -> usize {
    let pixels = usize::from(reduction.to_width) * usize::from(reduction.to_height);
    let sample = if is_wide(reduction.precision) { 2 } else { 1 };
    pixels * usize::from(reduction.components) * sample
}

/// A picture that is being made smaller: its lines are taken one by one, from the top.
///
/// In memory are the smaller picture, and the sums of one line of boxes.
#[derive(Drop)]
pub struct Boxing {
    /// What is said of the smaller picture.
    info: ImageInfo,
    reduction: Reduction,
    /// Of each sample of a line the sum of those in its column, in the lines that were taken of a
    /// line of boxes.
    sums: Vec<u32>,
    /// How many lines that is.
    lines: u16,
    /// How many lines of the smaller picture are made.
    made: u16,
    /// Their bytes.
    pixels: Vec<u8>,
    ghost sized: { length sums.items ≡ reduction.width * reduction.components },
}

impl Boxing {
    ghost use Rattle.std.specs.Prelude.{IfErr, MatchResult, true};
    ghost use Rattle.jpeg_bits.specs.declared.error.Error.TheVariants.{OutOfMemory};
    ghost use Rattle.zaxbriar_samples.specs.Boxes.{boxed};
    ghost use Rattle.zaxbriar_samples.specs.Boxing.{HasTaken, IsLine};
    ghost use Rattle.zaxbriar_samples.specs.DecodedPictures.{decoded, decoded_in};

    /// Begins to make a picture smaller, to a size. The only error is `OutOfMemory`.
    pub fn begin(
        alloc: Global,
        info: ImageInfo,
        precision: u8,
        size: Dimensions,
    ) -> error::Result<Boxing>
        requires { is_smaller size info ≡ true }
        ensures { MatchResult result
            (λ b. (pixels : List ℕ) → HasTaken pixels info precision size 0 b)
            (λ e. e ≡ OutOfMemory) }
    {
        let reduction = Reduction {
            width: info.width,
            height: info.height,
            to_width: size.width,
            to_height: size.height,
            components: components_of(info.pixel_format),
            precision,
        };
        let columns = usize::from(reduction.width) * usize::from(reduction.components);
        let sums = vec![in alloc; 0; columns]?;
        let pixels = Vec::with_capacity(alloc, smaller_bytes(reduction))?;
        Ok(Boxing {
            info: ImageInfo {
                width: size.width,
                height: size.height,
                ..info
            },
            reduction,
            sums,
            lines: 0,
            made: 0,
            pixels,
        })
    }

    /// Takes the next line of the picture. The only error is `OutOfMemory`.
    pub fn take_line(&mut self, line: &[u8]) -> error::Result<()>
        ensures taken { (pixels : List ℕ) (info : ImageInfo) (precision : ℕ) (size : Dimensions)
            (n : ℕ) → n < info.height → IsLine info precision pixels n line.now
            → HasTaken pixels info precision size n self.old
            → OnOk result (HasTaken pixels info precision size (n + 1) self.new) }
        ensures refused { IfErr result (λ e. e ≡ OutOfMemory) }
    {
        if self.made >= self.reduction.to_height {
            return Ok(());
        }
        add_line(self.sums.as_mut_slice(), self.reduction.precision, line);
        self.lines = self.lines.saturating_add(1);
        if self.lines < lines_in(self.reduction, self.made) {
            return Ok(());
        }
        push_line(
            &mut self.pixels,
            self.sums.as_slice(),
            self.reduction,
            self.made,
        )?;
        self.sums.as_mut_slice().fill(0);
        self.lines = 0;
        self.made += 1;
        Ok(())
    }

    /// Returns the smaller picture, once all lines were taken.
    pub fn into_picture(self) -> Picture
        ensures { (pixels : List ℕ) (info : ImageInfo) (precision : ℕ) (size : Dimensions)
            → HasTaken pixels info precision size info.height self
            → decoded_in result ≡ boxed size (decoded info precision pixels) }
    {
        Picture {
            info: self.info,
            precision: self.reduction.precision,
            pixels: self.pixels,
        }
    }
}
