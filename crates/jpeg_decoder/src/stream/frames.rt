//! The frames that are decoded (T.81, B.2.2).
ghost use Rattle.jpeg_pixels.specs.Pictures.{sources_of};
ghost use Rattle.std.specs.Prelude.{◌≡◌, Ok, MatchResult, ◌≤◌, length, map, IsOk};
ghost use Rattle.jpeg_bits.specs.Reading.{Names};
ghost use Rattle.jpeg_meaning.specs.Segments.{accepted, is_arithmetic, is_decoded_precision};
ghost use Rattle.jpeg_segments.specs.Frame.{AllHaveSampling};
ghost use Rattle.jpeg_segments.specs.FrameView.{component_in, frame_in};
ghost use Rattle.jpeg_decoder.specs.Steps.{IsRefusal};

use jpeg_bits::error::{Error, Result, UnsupportedFeature};
use jpeg_pixels::upsampler::Upsampler;
use jpeg_segments::parser::{CodingProcess, EntropyCoding, FrameInfo};
use std::alloc::Global;

/// Returns whether a frame's entropy coding is arithmetic.
fn is_arithmetic(coding: EntropyCoding) -> bool
    ensures { result ≡ is_arithmetic coding }
{
    match coding {
        EntropyCoding::Huffman => false,
        EntropyCoding::Arithmetic => true,
    }
}

/// Returns whether frames of a process are decoded at a precision: 8 bits, or 2 to 16 in a lossless
/// frame.
fn is_precision(process: CodingProcess, precision: u8) -> bool
    ensures { result ≡ is_decoded_precision process precision }
{
    match process {
        CodingProcess::DctSequential | CodingProcess::DctProgressive => precision == 8,
        CodingProcess::Lossless => precision >= 2 && precision <= 16,
    }
}

/// Checks that each component can be upsampled.
#[tactic(auto, using(crate::proofs::Rules::ratios))]
fn check_ratios(alloc: Global, frame: &FrameInfo) -> Result<()>
    requires some { 1 ≤ length frame.now.components.items }
    requires most { length frame.now.components.items ≤ 4 }
    requires factors { AllHaveSampling (map component_in frame.now.components.items) }
    ensures { MatchResult result
        (λ _. IsOk (sources_of (frame_in frame.now).components (frame_in frame.now).output_width
        (frame_in frame.now).output_height))
        (λ e. IsRefusal e × Names e (sources_of (frame_in frame.now).components
        (frame_in frame.now).output_width (frame_in frame.now).output_height)) }
{
    let size = frame.output_size;
    Upsampler::new(alloc, &frame.components, size.width, size.height)?;
    Ok(())
}

/// Checks that a frame can be decoded.
#[tactic(auto, unfolding(jpeg_meaning::specs::Segments::accepted))]
pub fn check_frame(alloc: Global, frame: &FrameInfo) -> Result<()>
    requires { AllHaveSampling (map component_in frame.now.components.items) }
    ensures { MatchResult result (λ _. accepted (frame_in frame.now)
        ≡ Ok (frame_in frame.now)) (λ e. IsRefusal e × Names e (accepted (frame_in frame.now))) }
{
    if frame.is_differential {
        return Err(Error::Unsupported(UnsupportedFeature::Hierarchical));
    }
    if is_arithmetic(frame.entropy_coding) {
        return Err(Error::Unsupported(UnsupportedFeature::ArithmeticEntropyCoding));
    }
    if !is_precision(frame.coding_process, frame.precision) {
        return Err(Error::Unsupported(UnsupportedFeature::SamplePrecision(frame.precision)));
    }
    let count = frame.components.len();
    if !(count == 1 || (count == 3 || count == 4)) {
        return Err(Error::Unsupported(UnsupportedFeature::ComponentCount(count.min(255) as u8)));
    }
    check_ratios(alloc, frame)
}
