//! Frame headers.
ghost use Rattle.std.specs.Prelude.{◌≡◌, ◌≤◌, ◌<◌, ◌+◌, ◌*◌, ◌-◌, ◌^◌, ℕ, IfOk, IsErrAnd, All, []};
ghost use Rattle.std.specs.Prelude.{◌∷◌, map, max, ◌==◌};
ghost use Rattle.std.specs.List.{list_any};
ghost use Rattle.jpeg_bits.specs.Reading.{Answers, NamesFormat};
ghost use Rattle.jpeg_bits.specs.declared.marker.Marker.TheVariants.{SOF};
ghost use Rattle.jpeg_segments.specs.Frame.{AllHaveSampling, IsFrame, IsInRange, components_from};
ghost use Rattle.jpeg_segments.specs.Frame.{factors_at, frame_of, is_count, is_lossless_number};
ghost use Rattle.jpeg_segments.specs.Frame.{is_destination, is_precision, is_taken, process_of};
ghost use Rattle.jpeg_segments.specs.Frame.{coding_of, size_at, sof_at};
ghost use Rattle.jpeg_segments.specs.Scales.{IsSizedFrame};
ghost use Rattle.jpeg_segments.specs.FrameView.{component_in, frame_in, factors_of};
ghost use Rattle.jpeg_segments.specs.Parts.{head_at, parameters_at};

use crate::frame::{CodingProcess, Dimensions, EntropyCoding, Factors, FrameInfo};
use crate::sizes::{components_of, greatest_factors, mcus};
use jpeg_bits::error::{Error, Result, UnsupportedFeature, format_error, format_error_of};
use jpeg_bits::marker::Marker;
use jpeg_bits::source::Source;
use jpeg_bits::source::reads::{read_length, read_u8, read_u16_be};
use std::alloc::{AllocError, Global};
use std::io::Read;

/// The parameters before those of the components: the precision, the size and the number of
/// components.
#[derive(Clone, Copy)]
struct Head {
    precision: u8,
    size: Dimensions,
    count: u8,
}

/// Reads the size of the frame. A height of 0 would be defined by a later DNL segment.
#[tactic(auto, unfolding(crate::specs::Frame::size_at))]
fn read_size<R: Read + Drop>(alloc: Global, source: &mut Source<R>) -> Result<Dimensions>
    ensures answers { Answers (λ d. (d.width, d.height)) size_at source.old result source.new }
    ensures some { IfOk result (λ d. (0 < d.width) × (0 < d.height)) }
{
    let height = read_u16_be(alloc, source)?;
    let width = read_u16_be(alloc, source)?;
    if height == 0 {
        return Err(Error::Unsupported(UnsupportedFeature::DNL));
    }
    if width == 0 {
        return Err(format_error(alloc, "number of samples per line 0, expected 1 to 65535"));
    }
    Ok(Dimensions { width, height })
}

fn is_lossless(number: u8) -> bool
    ensures { result ≡ is_lossless_number number }
{
    number % 4 == 3
}

/// Returns the process of the marker `SOF(number)`.
fn process_of(number: u8) -> CodingProcess
    ensures { result ≡ process_of number }
{
    match number % 4 {
        0 | 1 => CodingProcess::DctSequential,
        2 => CodingProcess::DctProgressive,
        _ => CodingProcess::Lossless,
    }
}

fn coding_of(number: u8) -> EntropyCoding
    ensures { result ≡ coding_of number }
{
    if number > 8 {
        EntropyCoding::Arithmetic
    } else {
        EntropyCoding::Huffman
    }
}

fn is_precision(number: u8, precision: u8) -> bool
    ensures { result ≡ is_precision number precision }
{
    if is_lossless(number) {
        precision <= 16
    } else {
        precision == 8 || (precision == 12 && number != 0)
    }
}

fn is_count(number: u8, count: u8) -> bool
    ensures { result ≡ is_count number count }
{
    count != 0 && (number % 4 != 2 || count <= 4)
}

/// Returns the refusal of a precision that frames of the marker `SOF(number)` don't have.
#[cold]
#[inline(never)]
fn precision_error(alloc: Global, number: u8, precision: u8) -> Error
    ensures { NamesFormat result }
{
    let expected = if is_lossless(number) {
        "2 to 16"
    } else if number == 0 {
        "8"
    } else {
        "8 or 12"
    };
    format_error_of(format!(in alloc;
        "sample precision {precision} in SOF{number}, expected {expected}"
    ))
}

/// Returns the refusal of a number of components that frames of the marker `SOF(number)` don't
/// have.
#[cold]
#[inline(never)]
fn count_error(alloc: Global, number: u8, count: u8) -> Error
    ensures { NamesFormat result }
{
    let most = if number % 4 == 2 { 4 } else { 255 };
    format_error_of(format!(in alloc;
        "number of components Nf={count} in SOF{number}, expected 1 to {most}"
    ))
}

/// Returns the refusal of a frame header that `left` bytes follow, too few for any.
#[cold]
#[inline(never)]
fn short_header_error(alloc: Global, left: u16) -> Error
    ensures { NamesFormat result }
{
    format_error_of(format!(in alloc;
        "frame header length {}, expected at least 11",
        u32::from(left) + 2
    ))
}

/// Returns the refusal of a frame header's length, which `left` bytes follow, for `count`
/// components.
#[cold]
#[inline(never)]
fn length_error(alloc: Global, left: u16, count: u8) -> Error
    ensures { NamesFormat result }
{
    format_error_of(format!(in alloc;
        "frame header length {}, expected {} for Nf={count}",
        u32::from(left) + 2,
        8 + 3 * u16::from(count)
    ))
}

#[tactic(auto, unfolding(crate::specs::Parts::head_at))]
fn read_head<R: Read + Drop>(alloc: Global, source: &mut Source<R>, number: u8) -> Result<Head>
    ensures answers { Answers (λ h.
        record {
          length = 6 + 3 * h.count;
          precision = h.precision;
          width = h.size.width;
          height = h.size.height;
          count = h.count;
        })
        (head_at number) source.old result source.new }
    ensures some { IfOk result (λ h. (0 < h.size.width) × (0 < h.size.height)) }
{
    let left = read_length(alloc, source)?;
    if left < 7 {
        return Err(short_header_error(alloc, left));
    }
    let precision = read_u8(alloc, source)?;
    if !is_precision(number, precision) {
        return Err(precision_error(alloc, number, precision));
    }
    let size = read_size(alloc, source)?;
    let count = read_u8(alloc, source)?;
    if !is_count(number, count) {
        return Err(count_error(alloc, number, count));
    }
    if left != 6 + 3 * u16::from(count) {
        return Err(length_error(alloc, left, count));
    }
    Ok(Head {
        precision,
        size,
        count,
    })
}

fn is_destination(lossless: bool, destination: u8) -> bool
    ensures { result ≡ is_destination lossless destination }
{
    if lossless {
        destination == 0
    } else {
        destination <= 3
    }
}

/// Returns the refusal of a sampling factor along a direction.
#[cold]
#[inline(never)]
fn factor_error(alloc: Global, direction: &str, factor: u8, identifier: u8) -> Error
    ensures { NamesFormat result }
{
    format_error_of(format!(in alloc;
        "{direction} sampling factor {factor} of component {identifier}, expected 1 to 4"
    ))
}

/// Returns the refusal of a destination of a component's quantization table.
#[cold]
#[inline(never)]
fn destination_error(alloc: Global, lossless: bool, destination: u8, identifier: u8) -> Error
    ensures { NamesFormat result }
{
    let expected = if lossless { "0" } else { "0 to 3" };
    format_error_of(format!(in alloc;
        "quantization table destination {destination} of component {identifier}, \
         expected {expected}"
    ))
}

/// Reads the sampling factors and the destination of the quantization table, after the
/// identifier.
#[tactic(auto, unfolding(crate::specs::Parts::parameters_at))]
fn read_parameters<R: Read + Drop>(
    alloc: Global,
    source: &mut Source<R>,
    lossless: bool,
    identifier: u8,
) -> Result<Factors>
    ensures answers { Answers factors_of (parameters_at lossless identifier) source.old result
        source.new }
    ensures horizontal { IfOk result (λ c. (1 ≤ c.horizontal) × (c.horizontal ≤ 4)) }
    ensures vertical { IfOk result (λ c. (1 ≤ c.vertical) × (c.vertical ≤ 4)) }
{
    let factors = read_u8(alloc, source)?;
    let horizontal = factors / 16;
    let vertical = factors % 16;
    if horizontal == 0 || horizontal > 4 {
        return Err(factor_error(alloc, "horizontal", horizontal, identifier));
    }
    if vertical == 0 || vertical > 4 {
        return Err(factor_error(alloc, "vertical", vertical, identifier));
    }
    let quantization = read_u8(alloc, source)?;
    if !is_destination(lossless, quantization) {
        return Err(destination_error(alloc, lossless, quantization, identifier));
    }
    Ok(Factors {
        identifier,
        horizontal,
        vertical,
        quantization: usize::from(quantization),
    })
}

fn has_identifier(front: &[Factors], identifier: u8) -> bool
    ensures { result ≡ list_any (λ c. c.identifier == identifier) front.now }
{
    front
        .iter()
        .any(|component| component.identifier == identifier)
}

/// Returns whether a component in `front` has this identifier.
#[tactic(auto, using(crate::proofs::FrameLemmas::list_any_map))]
fn is_taken(front: &[Factors], identifier: u8) -> bool
    ensures { result ≡ is_taken (map factors_of front.now) identifier }
{
    has_identifier(front, identifier)
}

/// Returns the refusal of an identifier that an earlier component has.
#[cold]
#[inline(never)]
fn identifier_error(alloc: Global, identifier: u8) -> Error
    ensures { NamesFormat result }
{
    format_error_of(format!(in alloc;
        "component identifier {identifier} twice in the frame header, expected once"
    ))
}

/// Reads the next component, after those in `front`.
#[tactic(auto, using(crate::proofs::PartsOfSegments::parts))]
fn read_factors<R: Read + Drop>(
    alloc: Global,
    source: &mut Source<R>,
    lossless: bool,
    front: &[Factors],
) -> Result<Factors>
    ensures answers { Answers factors_of (factors_at lossless (map factors_of front.now)) source.old
        result source.new }
    ensures horizontal { IfOk result (λ c. (1 ≤ c.horizontal) × (c.horizontal ≤ 4)) }
    ensures vertical { IfOk result (λ c. (1 ≤ c.vertical) × (c.vertical ≤ 4)) }
{
    let identifier = read_u8(alloc, source)?;
    if is_taken(front, identifier) {
        return Err(identifier_error(alloc, identifier));
    }
    read_parameters(alloc, source, lossless, identifier)
}

/// Reads `count` components.
fn read_components<R: Read + Drop>(
    alloc: Global,
    source: &mut Source<R>,
    lossless: bool,
    count: u8,
) -> Result<Vec<Factors>>
    ensures answers { Answers (λ v. map factors_of v.items) (components_from lossless count [])
        source.old result source.new }
    ensures factors { IfOk result (λ v. All IsInRange (map factors_of v.items)) }
{
    let mut components = Vec::with_capacity(alloc, usize::from(count))?;
    let mut left = count;
    while left > 0 {
        let factors = read_factors(alloc, source, lossless, &components)?;
        components.push(factors)?;
        left -= 1;
    }
    Ok(components)
}

/// Returns a frame of these components.
#[tactic(auto, unfolding(crate::specs::Frame::frame_of), using(crate::proofs::Rules::frames))]
fn frame_of(
    alloc: Global,
    number: u8,
    head: Head,
    components: &[Factors],
) -> std::result::Result<FrameInfo, AllocError>
    requires factors { All IsInRange (map factors_of components.now) }
    requires some_width { 0 < head.size.width }
    requires some_height { 0 < head.size.height }
    ensures frame { IfOk result (λ f. frame_in f ≡
        frame_of number head.precision head.size.width head.size.height
        (map factors_of components.now)) }
    ensures factors { IfOk result (λ f. AllHaveSampling (map component_in f.components.items)) }
    ensures made { IfOk result (λ f. IsFrame (frame_in f)) }
{
    let (horizontal, vertical) = greatest_factors(components);
    Ok(FrameInfo {
        is_baseline: number == 0,
        is_differential: number % 8 > 4,
        coding_process: process_of(number),
        entropy_coding: coding_of(number),
        precision: head.precision,
        image_size: head.size,
        output_size: head.size,
        mcu_size: Dimensions {
            width: mcus(head.size.width, horizontal),
            height: mcus(head.size.height, vertical),
        },
        components: components_of(alloc, head.size, horizontal, vertical, components)?,
    })
}

/// Reads a frame header of the marker `SOF(number)`.
#[tactic(auto, using(crate::proofs::Rules::sized_frames))]
fn read_frame<R: Read + Drop>(
    alloc: Global,
    source: &mut Source<R>,
    number: u8,
) -> Result<FrameInfo>
    ensures answers { Answers frame_in (sof_at number) source.old result source.new }
    ensures factors { IfOk result (λ f. AllHaveSampling (map component_in f.components.items)) }
    ensures made { IfOk result (λ f. IsFrame (frame_in f)) }
    ensures sized { IfOk result (λ f. IsSizedFrame (frame_in f)) }
{
    let head = read_head(alloc, source, number)?;
    let components = read_components(alloc, source, is_lossless(number), head.count)?;
    Ok(frame_of(alloc, number, head, &components)?)
}

/// Reads a frame header after the marker `SOF(number)` (T.81, B.2.2): the process, the precision in
/// bits, the size in samples, and the components with their sizes in samples and in blocks. The
/// number gives the process (Table B.1), and the parser accepts each.
///
/// Errors: `Format` for another marker, and if the header breaks a rule; `Unsupported(DNL)` if the
/// height is 0; `Io` if the bytes end or a read fails; `OutOfMemory`.
pub fn parse_sof<R: Read + Drop>(
    alloc: Global,
    reader: &mut Source<R>,
    marker: Marker,
) -> Result<FrameInfo>
    ensures answers { (number : ℕ) → marker ≡ SOF number
        → Answers frame_in (sof_at number) reader.old result reader.new }
    ensures others { ((number : ℕ) → marker ≡ SOF number → ⊥) → IsErrAnd result NamesFormat
        × (reader.new ≡ reader.old) }
    ensures factors { IfOk result (λ f. AllHaveSampling (map component_in f.components.items)) }
    ensures made { IfOk result (λ f. IsFrame (frame_in f)) }
    ensures sized { IfOk result (λ f. IsSizedFrame (frame_in f)) }
{
    match marker {
        Marker::SOF(number) => read_frame(alloc, reader, number),
        _ => Err(format_error_of(format!(in alloc; "found {marker}, expected SOFn"))),
    }
}
