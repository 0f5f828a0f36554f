//! Pictures as lines, which are written one by one into any memory, or put together.
ghost use Rattle.std.specs.Prelude.{◌≡◌, ◌≤◌, ◌*◌, List, IfOk, MatchResult, Ok, length, map};
ghost use Rattle.std.specs.List.{AllByRecursion, concat};
ghost use Rattle.jpeg_bits.specs.Reading.{Names};
ghost use Rattle.jpeg_segments.specs.Frame.{AllHaveSampling};
ghost use Rattle.jpeg_segments.specs.FrameView.{component_in};
ghost use Rattle.jpeg_pixels.specs.JointPlanes.{IsShapeOf, joint_planes, joint_row_size};
ghost use Rattle.jpeg_pixels.specs.Pictures.{AllCover, Source, image_of, sources_of};
ghost use Rattle.jpeg_pixels.specs.Planes.{cropped};

mod cropped;
mod joint;
mod upsampled;

use crate::color_convert::ColorConvert;
use crate::joint_planes::JointPlanes;
use crate::lines::cropped::CroppedLines;
use crate::lines::joint::JointLines;
use crate::lines::upsampled::UpsampledLines;
use crate::upsampler::Upsampler;
use jpeg_bits::color_transform::ColorTransform;
use jpeg_bits::error::Result;
use jpeg_segments::parser::{Component, Dimensions};
use std::alloc::Global;
use std::marker::Model;

/// What the lines of a picture are made from.
#[derive(Drop)]
enum LineSource {
    /// The plane of its one component.
    Cropped(CroppedLines),
    /// Separate planes.
    Upsampled(UpsampledLines),
    /// Planes of like components in one buffer.
    Joint(JointLines),
}

/// The lines of a picture, each of which can be written by itself, in any order.
#[derive(Drop)]
pub struct PictureLines {
    source: LineSource,
}

impl Model for PictureLines {
    ghost use Rattle.std.specs.Prelude.{List, ℕ};

    ghost Value = { List (List ℕ) };

    ghost use Rattle.jpeg_pixels.specs.LinesView.{lines_in};

    ghost view = { λ p. lines_in p.source };
}

impl PictureLines {
    ghost use Rattle.std.specs.Prelude.{◌≡◌, ◌<◌, [], MatchResult, length, slice_index_or};
    ghost use Rattle.std.specs.List.{concat};
    ghost use Rattle.jpeg_bits.specs.declared.error.Error.TheVariants.{OutOfMemory};

    /// Returns how many lines there are.
    pub fn height(&self) -> usize
        ensures { result ≡ length self.now }
    {
        match &self.source {
            LineSource::Cropped(lines) => lines.height(),
            LineSource::Upsampled(lines) => lines.height(),
            LineSource::Joint(lines) => lines.height(),
        }
    }

    /// Writes line `row` of the picture into memory of exactly its bytes. It allocates nothing.
    pub fn write_line(&mut self, row: usize, line: &mut [u8])
        requires row { row < length self.old }
        requires room { length line.old ≡ length (slice_index_or self.old row []) }
        ensures line { line.new ≡ slice_index_or self.old row [] }
        ensures same { self.new ≡ self.old }
    {
        match &mut self.source {
            LineSource::Cropped(lines) => lines.write_line(row, line),
            LineSource::Upsampled(lines) => lines.write_line(row, line),
            LineSource::Joint(lines) => lines.write_line(row, line),
        }
    }

    /// Returns the bytes of the whole picture, line by line from the top. The plane of one
    /// component, and planes in one buffer, become the picture themselves. The only error is
    /// `OutOfMemory`.
    pub fn into_picture(self, alloc: Global) -> Result<Vec<u8>>
        ensures { MatchResult result (λ v. v.items ≡ concat self) (λ e. e ≡ OutOfMemory) }
    {
        match self.source {
            LineSource::Cropped(lines) => Ok(lines.into_picture()),
            LineSource::Upsampled(lines) => lines.into_picture(alloc),
            LineSource::Joint(lines) => lines.into_picture(alloc),
        }
    }
}

/// Makes the lines of the picture of three or four components, each of which has a plane: each line
/// is upsampled and converted as it is written.
///
/// A transform that doesn't fit is `Format` or `Unsupported(ColorTransform(..))`, a component for
/// which there is no rule `Unsupported(NonIntegerSubsamplingRatio)`, and a refused allocation
/// `OutOfMemory`.
#[tactic(auto, using(crate::proofs::Rules::images, crate::proofs::Rules::refusals))]
pub fn plane_lines(
    alloc: Global,
    components: &[Component],
    planes: Vec<Vec<u8>>,
    output_size: Dimensions,
    color_transform: ColorTransform,
) -> Result<PictureLines>
    requires some { 3 ≤ length components.now }
    requires most { length components.now ≤ 4 }
    requires planes { length planes.items ≡ length components.now }
    requires factors { AllHaveSampling (map component_in components.now) }
    requires cover { (sources : List Source) →
        sources_of (map component_in components.now) output_size.width output_size.height
        ≡ Ok sources
        → AllCover sources (map (λ v. v.items) planes.items) output_size.width output_size.height }
    ensures picture { MatchResult result
        (λ l. image_of (map component_in components.now)
        (map (λ v. v.items) planes.items) output_size.width output_size.height color_transform
        ≡ Ok (concat l))
        (λ e. Names e (image_of (map component_in components.now)
        (map (λ v. v.items) planes.items) output_size.width output_size.height color_transform)) }
    ensures lines { IfOk result (λ l. (length l ≡ output_size.height)
        × AllByRecursion (λ line. length line ≡ length components.now * output_size.width) l) }
{
    let color_convert = ColorConvert::choose(alloc, components.len(), color_transform)?;
    let upsampler = Upsampler::new(alloc, components, output_size.width, output_size.height)?;
    let lines = UpsampledLines::new(alloc, upsampler, planes, output_size, color_convert)?;
    Ok(PictureLines {
        source: LineSource::Upsampled(lines),
    })
}

/// Makes the lines of the picture of like components, whose planes are in one buffer.
///
/// A transform that doesn't fit is `Format` or `Unsupported(ColorTransform(..))`, and a refused
/// allocation `OutOfMemory`.
#[tactic(auto, using(crate::proofs::Rules::images, crate::proofs::Rules::refusals))]
pub fn joint_lines(
    alloc: Global,
    components: &[Component],
    planes: JointPlanes,
    output_size: Dimensions,
    color_transform: ColorTransform,
) -> Result<PictureLines>
    requires factors { AllHaveSampling (map component_in components.now) }
    requires shape { IsShapeOf (map component_in components.now) output_size.width
        output_size.height planes.shape }
    requires full { length planes.samples.items ≡ planes.shape.rows * joint_row_size planes.shape }
    ensures picture { MatchResult result
        (λ l. image_of (map component_in components.now)
        (joint_planes planes.shape planes.samples.items) output_size.width output_size.height
        color_transform ≡ Ok (concat l))
        (λ e. Names e (image_of (map component_in components.now)
        (joint_planes planes.shape planes.samples.items) output_size.width output_size.height
        color_transform)) }
    ensures lines { IfOk result (λ l. (length l ≡ output_size.height)
        × AllByRecursion (λ line. length line ≡ length components.now * output_size.width) l) }
{
    let color_convert = ColorConvert::choose(alloc, components.len(), color_transform)?;
    let lines = JointLines::new(alloc, planes, output_size, color_convert)?;
    Ok(PictureLines {
        source: LineSource::Joint(lines),
    })
}

/// Makes the lines of the picture of one component, whose plane has lines of `stride` samples: the
/// first `width` samples of the first `height` lines.
pub fn cropped_lines(plane: Vec<u8>, stride: usize, width: usize, height: usize) -> PictureLines
    requires width { width ≤ stride }
    requires room { height * stride ≤ length plane.items }
    ensures picture { concat result ≡ cropped stride width height plane.items }
    ensures lines { (length result ≡ height)
        × AllByRecursion (λ line. length line ≡ width) result }
{
    PictureLines {
        source: LineSource::Cropped(CroppedLines::new(plane, stride, width, height)),
    }
}
