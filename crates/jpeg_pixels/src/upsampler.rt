//! Upsampling and colours: lines of components become lines of the picture.

pub use crate::color_convert::ColorConvert;
use crate::picture_lines::{Line, lines_from_above, write_line};
use crate::sources::component_sources;
pub use crate::sources::{ComponentSource, is_blended};
pub use crate::upsample_rows::UpsampleRule;
use jpeg_bits::error::Result;
use jpeg_segments::parser::Component;
use std::alloc::Global;
use std::marker::Model;

/// Makes the lines of a picture from the planes of its components.
#[derive(Drop)]
pub struct Upsampler {
    alloc: Global,
    components: Vec<ComponentSource>,
}

impl Model for Upsampler {
    ghost use Rattle.std.specs.Prelude.{List, map};
    ghost use Rattle.jpeg_pixels.specs.Pictures.{Source};
    ghost use Rattle.jpeg_pixels.specs.PicturesView.{source_in};

    ghost Value = { List Source };

    ghost view = { λ u. map source_in u.components.items };
}

impl Upsampler {
    ghost use Rattle.std.specs.Prelude.{◌≡◌, ◌+◌, ◌*◌, ◌≤◌, map, length, OnOk, IfErr, MatchResult};
    ghost use Rattle.jpeg_bits.specs.Reading.{Gives};
    ghost use Rattle.jpeg_bits.specs.declared.error.Error.TheVariants.{OutOfMemory};
    ghost use Rattle.jpeg_segments.specs.FrameView.{component_in};
    ghost use Rattle.jpeg_pixels.specs.Pictures.{sources_of, AllCover, picture_line};
    ghost use Rattle.jpeg_pixels.specs.Pictures.{converted_picture};
    ghost use Rattle.jpeg_pixels.specs.PicturesView.{IsFor};
    ghost use Rattle.jpeg_segments.specs.Frame.{AllHaveSampling};

    /// Makes the upsampler of a frame's components for a picture of this size in pixels.
    ///
    /// A component for which there is no rule is `Unsupported(NonIntegerSubsamplingRatio)`, and a
    /// refused allocation `OutOfMemory`.
    pub fn new(
        alloc: Global,
        components: &[Component],
        output_width: u16,
        output_height: u16,
    ) -> Result<Upsampler>
        requires some { 1 ≤ length components.now }
        requires most { length components.now ≤ 4 }
        requires factors { AllHaveSampling (map component_in components.now) }
        ensures { Gives (sources_of
            (map component_in components.now) output_width output_height) result }
    {
        let sources = component_sources(alloc, components, output_width, output_height)?;
        Ok(Upsampler {
            alloc,
            components: sources,
        })
    }

    /// Writes line `row` of the picture, of `output_width` pixels. `component_data` has the plane
    /// of each component. The only error is `OutOfMemory`; the output's bytes are then unspecified.
    pub fn upsample_and_interleave_row(
        &self,
        component_data: &[Vec<u8>],
        row: usize,
        output_width: usize,
        output: &mut [u8],
        color_convert: ColorConvert,
    ) -> Result<()>
        requires planes { length component_data.now ≡ length self.now }
        requires cover { AllCover self.now (map (λ v. v.items) component_data.now) output_width
            (row + 1) }
        requires fits { IsFor (length self.now) color_convert }
        requires room { length output.old ≡ length self.now * output_width }
        ensures line { OnOk result
            (output.new ≡ picture_line color_convert self.now
            (map (λ v. v.items) component_data.now) output_width row) }
        ensures err { IfErr result (λ e. e ≡ OutOfMemory) }
    {
        let mut lines = vec![in self.alloc; 0; output.len()]?;
        let components = self.components.as_slice();
        let lines = lines.as_mut_slice();
        let line = Line {
            planes: component_data,
            row,
            width: output_width,
        };
        write_line(components, &line, lines, output, color_convert);
        Ok(())
    }

    /// Writes a line of the picture. The lines of the components are put into the buffer `lines`.
    pub(crate) fn write_line(
        &self,
        line: &Line<'_>,
        lines: &mut [u8],
        output: &mut [u8],
        color_convert: ColorConvert,
    )
        requires planes { length line.now.planes.now ≡ length self.now }
        requires cover { AllCover self.now (map (λ v. v.items) line.now.planes.now) line.now.width
            (line.now.row + 1) }
        requires fits { IsFor (length self.now) color_convert }
        requires lines_room { length lines.old ≡ length self.now * line.now.width }
        requires room { length output.old ≡ length self.now * line.now.width }
        ensures { output.new ≡ picture_line color_convert self.now
            (map (λ v. v.items) line.now.planes.now) line.now.width line.now.row }
    {
        write_line(&self.components, line, lines, output, color_convert);
    }

    /// Returns all lines of the picture, from the top. The only error is `OutOfMemory`.
    pub(crate) fn picture(
        &self,
        component_data: &[Vec<u8>],
        width: usize,
        height: usize,
        color_convert: ColorConvert,
    ) -> Result<Vec<u8>>
        requires most { length self.now ≤ 4 }
        requires width { width ≤ 65535 }
        requires height { height ≤ 65535 }
        requires planes { length component_data.now ≡ length self.now }
        requires cover { AllCover self.now (map (λ v. v.items) component_data.now) width height }
        requires fits { IsFor (length self.now) color_convert }
        ensures { MatchResult result
            (λ v. v.items ≡ converted_picture color_convert self.now
            (map (λ v. v.items) component_data.now) width height)
            (λ e. e ≡ OutOfMemory) }
    {
        let components = self.components.as_slice();
        let picture = lines_from_above(
            self.alloc,
            components,
            component_data,
            width,
            height,
            color_convert,
        )?;
        Ok(picture)
    }
}
