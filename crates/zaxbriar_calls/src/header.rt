//! The header of a stream.
ghost use Rattle.std.specs.Prelude.{◌≡◌, ◌+◌, ◌≤◌, true, Some, IfOk, IfErr, OnOk, option_map};
ghost use Rattle.jpeg_decoder.specs.Bytes.{decoding_bytes};
ghost use Rattle.jpeg_decoder.specs.StreamTransforms.{frame_transform};
ghost use Rattle.jpeg_meaning.specs.Output.{default_settings};
ghost use Rattle.jpeg_meaning.specs.Pixels.{info_by};
ghost use Rattle.jpeg_meaning.specs.declared.progress.Progress.TheVariants.{Fresh};
ghost use Rattle.jpeg_meaning.specs.Stream.{header_at};
ghost use Rattle.zaxbriar_calls.specs.Faults.{IsFault, IsOfDecoder};
ghost use Rattle.std.specs.Option.{option_copied};
ghost use Rattle.zaxbriar_calls.specs.Meanings.{ReadsHeader, number_of_transform, orientation_by};
ghost use Rattle.zaxbriar_calls.specs.Planes.{planes_of_components};
ghost use Rattle.zaxbriar_calls.specs.Sampling.{sampling_of};

use crate::answers::{Misuse, Refusal, refusal_of};
use crate::options::{Options, apply, apply_to_header, number_of_transform};
use crate::planes::{PlaneSizes, planes_of};
use crate::sampling::sampling_of;
use jpeg_decoder::{Decoder, DecodingBytes, ImageInfo};
use jpeg_orientation::orientation_of;
use std::io::Read;

/// What a header says of its picture.
#[derive(Clone, Copy)]
pub struct Header {
    /// The picture at the scale of the options.
    pub info: ImageInfo,
    /// The bits of a sample.
    pub precision: u8,
    /// The memory that decoding allocates.
    pub decoding_bytes: DecodingBytes,
    /// The orientation by the Exif data.
    pub orientation: u8,
    /// The sampling factors of the components.
    pub sampling: [u8; 4],
    /// The sizes of the planes of the components, at the scale of the options.
    pub planes: PlaneSizes,
    /// The number of the colour transform that the header asks for.
    pub transform: u8,
}

/// Returns the orientation that Exif data say, and 1, upright, where they say none.
fn orientation_in(exif: Option<&[u8]>) -> u8
    ensures { result ≡ orientation_by (option_copied exif.entry) }
{
    let Some(bytes) = exif else {
        return 1;
    };
    match orientation_of(bytes) {
        Some(orientation) => orientation,
        None => 1,
    }
}

/// Reads the header, chooses the scale of the picture, and limits its scans.
pub fn read_header<R: Read + Drop>(
    decoder: &mut Decoder<R>,
    options: &Options,
) -> std::result::Result<Header, Refusal>
    requires fresh { decoder.old.stage ≡ Fresh }
    requires plain { decoder.old.settings ≡ default_settings }
    ensures reads { OnOk result (ReadsHeader options.now decoder.old decoder.new) }
    ensures named { decoder.old.source.known ≡ true
        → IfErr result (IsFault (header_at decoder.old.source.bytes)) }
    ensures own { IfErr result IsOfDecoder }
    ensures exceeded { decoder.new.exceeded ≡ decoder.old.exceeded }
    ensures info { IfOk result (λ h. option_map (info_by decoder.new.settings)
        decoder.new.found.said.frame ≡ Some h.info) }
    ensures precision { IfOk result (λ h. option_map (λ f. f.precision) decoder.new.found.said.frame
        ≡ Some h.precision) }
    ensures oriented { IfOk result (λ h. h.orientation
        ≡ orientation_by decoder.new.found.said.metadata.exif) }
    ensures sampling { IfOk result (λ h. option_map (λ f. sampling_of f.components)
        decoder.new.found.said.frame ≡ Some h.sampling) }
    ensures planes { IfOk result (λ h. option_map
        (λ f. planes_of_components f.components f.precision) decoder.new.found.said.frame
        ≡ Some h.planes) }
    ensures transform { IfOk result (λ h. option_map (λ f. number_of_transform
        (frame_transform decoder.new.found.said.metadata f)) decoder.new.found.said.frame
        ≡ Some h.transform) }
    ensures bytes { IfOk result (λ h. option_map (decoding_bytes decoder.new.settings)
        decoder.new.found.said.frame
        ≡ Some h.decoding_bytes) }
    ensures peak { IfOk result (λ h. h.decoding_bytes.coefficients + h.decoding_bytes.planes
        ≤ h.decoding_bytes.peak) }
{
    apply(decoder, options);
    if let Err(error) = decoder.read_info() {
        return Err(refusal_of(decoder, error));
    }
    apply_to_header(decoder, options)?;
    let (Some(info), Some(precision), Some(components), Some(transform), Some(decoding_bytes)) = (
        decoder.info(),
        decoder.precision(),
        decoder.components(),
        decoder.stream_transform(),
        decoder.decoding_bytes(),
    ) else {
        // There is a frame.
        return Err(Refusal::Argument(Misuse::Of("no frame")));
    };
    let sampling = sampling_of(components);
    let planes = planes_of(components, precision);
    Ok(Header {
        info,
        precision,
        decoding_bytes,
        orientation: orientation_in(decoder.exif_data()),
        sampling,
        planes,
        transform: number_of_transform(transform),
    })
}
