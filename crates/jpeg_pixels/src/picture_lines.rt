//! The lines of a picture: those of its components, upsampled, converted and put together.
ghost use Rattle.std.specs.Prelude.{◌≡◌, ◌+◌, ◌*◌, ◌≤◌, map, length, IfOk, List, ℕ};
ghost use Rattle.std.specs.List.{concat};
ghost use Rattle.jpeg_pixels.specs.Colour.{line_bytes};
ghost use Rattle.jpeg_pixels.specs.JointPlanes.{HaveWidth};
ghost use Rattle.jpeg_pixels.specs.Pictures.{Covers, AllCover};
ghost use Rattle.jpeg_pixels.specs.Pictures.{line_of, lines_of, picture_line, converted_picture};
ghost use Rattle.jpeg_pixels.specs.PicturesView.{source_in, IsFor};

use crate::color_convert::ColorConvert;
use crate::color_rows::{write_cmyk, write_rgb, write_ycbcr, write_ycck};
use crate::sources::ComponentSource;
use std::alloc::{AllocError, Global};

/// A line of a picture, and the planes that it is made of.
#[derive(Drop)]
pub(crate) struct Line<'a> {
    /// The plane of each component.
    pub(crate) planes: &'a [Vec<u8>],
    /// How many lines are above it.
    pub(crate) row: usize,
    /// How many pixels it has.
    pub(crate) width: usize,
}

// Writes line `row` of a component, as wide as the picture.
#[tactic(auto, using(crate::proofs::ComponentLines::line_by_samples))]
fn upsample_line(source: ComponentSource, plane: &[u8], row: usize, width: usize, line: &mut [u8])
    requires cover { Covers (source_in source) plane.now width (row + 1) }
    requires room { length line.old ≡ width }
    ensures { line.new ≡ line_of (source_in source) plane.now width row }
{
    source.rule.upsample_row(
        plane,
        source.width,
        source.height,
        source.row_stride,
        row,
        width,
        line,
    );
}

// Writes a line of each component, each as wide as the picture, one after the other.
#[tactic(auto, using(crate::proofs::Rules::line, std::proofs::lemmas::Grind::common_steps))]
fn upsample_lines(components: &[ComponentSource], line: &Line<'_>, lines: &mut [u8])
    requires planes { length line.now.planes.now ≡ length components.now }
    requires cover { AllCover (map source_in components.now)
        (map (λ v. v.items) line.now.planes.now) line.now.width (line.now.row + 1) }
    requires room { length lines.old ≡ length components.now * line.now.width }
    ensures { lines.new ≡ concat (lines_of (map source_in components.now)
        (map (λ v. v.items) line.now.planes.now) line.now.width line.now.row) }
{
    let planes = line.planes;
    let width = line.width;
    for index in 0..components.len() {
        let start = index * width;
        upsample_line(
            components[index],
            &planes[index],
            line.row,
            width,
            &mut lines[start..start + width],
        );
    }
}

/// Writes a line of the picture, by those of its components, which follow one another.
#[tactic(auto, using(crate::proofs::LinesOfColour::conversions))]
pub(crate) fn convert_line(
    lines: &[u8],
    width: usize,
    count: usize,
    color_convert: ColorConvert,
    output: &mut [u8],
)
    requires fits { IsFor count color_convert }
    requires lines { length lines.now ≡ count * width }
    requires room { length output.old ≡ count * width }
    ensures { (parts : List (List ℕ)) → length parts ≡ count → HaveWidth width parts
        → lines.now ≡ concat parts → output.new ≡ line_bytes color_convert width parts }
{
    match color_convert {
        ColorConvert::None => output.copy_from_slice(lines),
        ColorConvert::Rgb => write_rgb(lines, width, output),
        ColorConvert::YCbCr => write_ycbcr(lines, width, output),
        ColorConvert::Cmyk => write_cmyk(lines, width, output),
        ColorConvert::Ycck => write_ycck(lines, width, output),
    }
}

/// Writes a line of the picture. The lines of the components are put into the buffer `lines`.
#[tactic(auto, using(crate::proofs::Rules::line), unfolding(crate::specs::Pictures::picture_line))]
pub(crate) fn write_line(
    components: &[ComponentSource],
    line: &Line<'_>,
    lines: &mut [u8],
    output: &mut [u8],
    color_convert: ColorConvert,
)
    requires planes { length line.now.planes.now ≡ length components.now }
    requires cover { AllCover (map source_in components.now)
        (map (λ v. v.items) line.now.planes.now) line.now.width (line.now.row + 1) }
    requires fits { IsFor (length components.now) color_convert }
    requires lines_room { length lines.old ≡ length components.now * line.now.width }
    requires room { length output.old ≡ length components.now * line.now.width }
    ensures { output.new ≡ picture_line color_convert (map source_in components.now)
        (map (λ v. v.items) line.now.planes.now) line.now.width line.now.row }
{
    upsample_lines(components, line, lines);
    convert_line(lines, line.width, components.len(), color_convert, output);
}

/// Returns the picture: its lines from the top. The only error is `OutOfMemory`.
#[tactic(auto, using(crate::proofs::Rules::above, crate::proofs::Rules::pictures))]
pub(crate) fn lines_from_above(
    alloc: Global,
    components: &[ComponentSource],
    planes: &[Vec<u8>],
    width: usize,
    height: usize,
    color_convert: ColorConvert,
) -> Result<Vec<u8>, AllocError>
    requires most { length components.now ≤ 4 }
    requires width { width ≤ 65535 }
    requires height { height ≤ 65535 }
    requires planes { length planes.now ≡ length components.now }
    requires cover { AllCover (map source_in components.now)
        (map (λ v. v.items) planes.now) width height }
    requires fits { IsFor (length components.now) color_convert }
    ensures { IfOk result (λ v. v.items ≡
        converted_picture color_convert (map source_in components.now)
        (map (λ v. v.items) planes.now) width height) }
{
    let line_size = components.len() * width;
    let mut lines = vec![in alloc; 0; line_size]?;
    // Lines are made here, and not in the picture, which would have to be cleared for them.
    let mut output = vec![in alloc; 0; line_size]?;
    let mut picture = Vec::with_capacity(alloc, line_size * height)?;
    for row in 0..height {
        let line = Line { planes, row, width };
        write_line(
            components,
            &line,
            lines.as_mut_slice(),
            output.as_mut_slice(),
            color_convert,
        );
        picture.extend_from_slice(&output)?;
    }
    Ok(picture)
}
