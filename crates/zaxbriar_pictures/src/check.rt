//! Whether streams are whole.
//!
//! A stream is whole where the picture of its blocks is there to the end of the image, without any
//! fault. Bytes after that end make no difference.
ghost use Rattle.std.specs.Prelude.{◌≡◌, List, ℕ, IfErr, IfOk, false, is_some, not, true};
ghost use Rattle.jpeg_meaning.specs.Output.{Tells, default_settings};
ghost use Rattle.jpeg_meaning.specs.declared.progress.Progress.TheVariants.{Fresh};
ghost use Rattle.jpeg_segments.specs.declared.scale.Scale.TheVariants.{Full};
ghost use Rattle.zaxbriar_pictures.specs.Allowed.{allows};
ghost use Rattle.zaxbriar_pictures.specs.Given.{TellsOfStream, is_whole, shown_at_scale};
ghost use Rattle.zaxbriar_pictures.specs.Reasons.{IsReason};
ghost use Rattle.zaxbriar_pictures.specs.declared.extents.Extent.TheVariants.{Partial};
ghost use Rattle.zaxbriar_samples.specs.declared.files.PictureFormat.TheVariants.{Netpbm};
ghost use Rattle.zaxbriar_samples.specs.Sizes.{stored_at};
ghost use Rattle.zaxbriar_samples.specs.declared.requests.Request.TheVariants.{At};

use crate::extents::{Completeness, Extent, decode_wanted_lines};
use crate::scaled::{READ_AHEAD, choose};
use jpeg_decoder::{Decoder, Scale};
use std::alloc::Global;
use std::io::Read;
use zaxbriar_files::limits::Limits;
use zaxbriar_files::refusal::Refusal;
use zaxbriar_samples::files::PictureFormat;
use zaxbriar_samples::requests::{AtScale, Request, Upright};

/// Decodes the stream of a decoder that has read nothing to the end of its image or its first
/// fault, and returns how much of its picture is complete. The picture itself is not made.
fn check_decoder<R: Read + Drop>(
    decoder: &mut Decoder<R>,
    limits: Limits,
) -> Result<Completeness, Refusal>
    requires fresh { decoder.old.stage ≡ Fresh }
    requires plain { decoder.old.settings ≡ default_settings }
    ensures told { decoder.old.source.known ≡ true
        → IfOk result (TellsOfStream limits decoder.old.source.bytes) }
    ensures limited { decoder.old.source.known ≡ true → IfOk result
        (λ _. allows (At (stored_at Full)) Netpbm limits decoder.old.source.bytes ≡ true) }
    ensures refused { decoder.old.source.known ≡ true → IfErr result (IsReason
        (shown_at_scale Partial false limits Full decoder.old.source.bytes)
        (allows (At (stored_at Full)) Netpbm limits decoder.old.source.bytes) true ⊥) }
{
    let at = AtScale {
        scale: Scale::Full,
        upright: Upright::AsStored,
        luma: false,
        crop: None,
    };
    choose(decoder, Request::At(at), PictureFormat::Netpbm, limits)?;
    let shown = decode_wanted_lines(decoder, Extent::Partial)?;
    let info = decoder.info().unwrap();
    Ok(Completeness {
        info,
        whole_rows: shown.whole_rows,
        fault: shown.fault,
    })
}

/// Decodes the stream that the reader gives to the end of its image or its first fault, and returns
/// how much of its picture is complete, with that fault: none where the stream is whole. The
/// picture itself is not made. One above the limits, which `write_at` would refuse at full size for
/// a netpbm file, is refused by its header. A read that fails is an error.
pub fn check_stream<R: Read + Drop>(
    alloc: Global,
    reader: R,
    limits: Limits,
) -> Result<Completeness, Refusal>
    // What is told is said of the picture that the stream shows within the limits: its size, its
    // complete rows, and the name of its fault.
    ensures told { (bytes : List ℕ) → Tells (R.remaining reader) bytes
        → IfOk result (TellsOfStream limits bytes) }

    // There is no fault exactly where the stream shows a picture without one.
    ensures whole { (bytes : List ℕ) → Tells (R.remaining reader) bytes
        → IfOk result (λ told. not (is_some told.fault) ≡ is_whole limits bytes) }

    // A picture that has or takes more than the limits allow is refused.
    ensures limited { (bytes : List ℕ) → Tells (R.remaining reader) bytes
        → IfOk result (λ _. allows (At (stored_at Full)) Netpbm limits bytes ≡ true) }

    // A refusal names the fault for which nothing is shown, or a limit that the stream is above, or
    // is one of the reader, or out of memory.
    ensures refused { (bytes : List ℕ) → Tells (R.remaining reader) bytes → IfErr result (IsReason
        (shown_at_scale Partial false limits Full bytes)
        (allows (At (stored_at Full)) Netpbm limits bytes) true ⊥) }
{
    let mut decoder = Decoder::with_capacity(alloc, READ_AHEAD, reader)?;
    check_decoder(&mut decoder, limits)
}
