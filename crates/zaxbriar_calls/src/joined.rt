//! The metadata that phones and editors write in several segments, of a whole image.
ghost use Rattle.std.specs.Prelude.{◌≡◌, IfOk, OnErr, OnOk, fold};
ghost use Rattle.zaxbriar_calls.specs.Joined.{application_of, applications_in, datum_of};
ghost use Rattle.zaxbriar_calls.specs.Joined.{is_joined_kind, joined_of, with_application};
ghost use Rattle.zaxbriar_calls.specs.Metadata.{Copies};
ghost use Rattle.zaxbriar_metadata.specs.Collected.{extension_of, nothing, with_segment};
ghost use Rattle.zaxbriar_metadata.specs.CollectedView.{collection_in};

use crate::answers::NO_DATA;
use crate::copying::copy_data;
use crate::segments::{ends_image, next_segment};
use jpeg_bits::marker::Marker;
use std::alloc::{AllocError, Global};
use zaxbriar_metadata::collected::Collected;

/// Returns whether there are metadata of a kind that are joined: 1 Exif, 2 XMP, 4 extended XMP, 5
/// IPTC, 6 a thumbnail.
pub fn is_joined_kind(kind: u32) -> bool
    ensures { result ≡ is_joined_kind kind }
{
    1 <= kind && (kind <= 6 && kind != 3)
}

/// Adds what a segment says, if it is an application's.
fn add_segment(
    alloc: Global,
    collected: &mut Collected,
    marker: Marker,
    payload: &[u8],
) -> Result<(), AllocError>
    ensures { OnOk result (collection_in collected.new
        ≡ with_application (collection_in collected.old) (application_of marker payload.now)) }
{
    if let Marker::APP(number) = marker {
        collected.add(alloc, number, payload)?;
    }
    Ok(())
}

/// Collects what the segments of a stream say, up to the end of the image or of whole segments.
#[tactic(auto, using(crate::proofs::Rules::collected))]
fn collect(alloc: Global, stream: &[u8], collected: &mut Collected) -> Result<(), AllocError>
    ensures { OnOk result (collection_in collected.new
        ≡ fold with_segment (collection_in collected.old) (applications_in stream.now)) }
{
    let mut rest = stream;
    for _ in 0..stream.len() {
        let Some((marker, payload, others)) = next_segment(rest) else {
            return Ok(());
        };
        add_segment(alloc, collected, marker, payload)?;
        if ends_image(marker) {
            return Ok(());
        }
        rest = others;
    }
    Ok(())
}

/// Copies extended XMP data if there are any and they fit.
#[tactic(auto, using(crate::proofs::Rules::copied))]
fn copy_extension(
    alloc: Global,
    collected: &Collected,
    buffer: &mut [u8],
    count: &mut u64,
) -> Result<u32, AllocError>
    ensures copies { IfOk result (λ code. Copies (extension_of (collection_in collected.now))
        buffer.old buffer.new count.old count.new code) }
    ensures failed { OnErr result (buffer.new ≡ buffer.old) }
    ensures memory { OnErr result (count.new ≡ count.old) }
{
    match collected.extended_xmp(alloc)? {
        Some(packet) => Ok(copy_data(Some(packet.as_slice()), buffer, count)),
        None => Ok(NO_DATA),
    }
}

/// Copies what was collected of a kind, if there is some and it fits.
#[tactic(auto, using(crate::proofs::Rules::copied))]
fn copy_datum(
    alloc: Global,
    collected: &Collected,
    kind: u32,
    buffer: &mut [u8],
    count: &mut u64,
) -> Result<u32, AllocError>
    ensures copies { IfOk result (λ code. Copies (datum_of kind (collection_in collected.now))
        buffer.old buffer.new count.old count.new code) }
    ensures failed { OnErr result (buffer.new ≡ buffer.old) }
    ensures memory { OnErr result (count.new ≡ count.old) }
{
    match kind {
        1 => Ok(copy_data(collected.exif(), buffer, count)),
        2 => Ok(copy_data(collected.xmp(), buffer, count)),
        4 => copy_extension(alloc, collected, buffer, count),
        5 => Ok(copy_data(collected.iptc(), buffer, count)),
        6 => Ok(copy_data(collected.thumbnail(), buffer, count)),
        _ => Ok(NO_DATA),
    }
}

/// Collects what the segments of a stream say, and copies the data of a kind.
fn copy_joined(
    alloc: Global,
    collected: &mut Collected,
    stream: &[u8],
    kind: u32,
    buffer: &mut [u8],
    count: &mut u64,
) -> Result<u32, AllocError>
    requires nothing { collection_in collected.old ≡ nothing }
    ensures copies { IfOk result (λ code. Copies (joined_of kind stream.now)
        buffer.old buffer.new count.old count.new code) }
    ensures failed { OnErr result (buffer.new ≡ buffer.old) }
    ensures memory { OnErr result (count.new ≡ count.old) }
{
    collect(alloc, stream, collected)?;
    copy_datum(alloc, collected, kind, buffer, count)
}

/// Copies metadata of a kind, joined from the segments of a whole image, and returns the number of
/// the call. The only error is that memory runs out.
pub fn read_joined(
    alloc: Global,
    jpeg: &[u8],
    kind: u32,
    buffer: &mut [u8],
    count: &mut u64,
) -> Result<u32, AllocError>
    ensures copies { IfOk result (λ code. Copies (joined_of kind jpeg.now)
        buffer.old buffer.new count.old count.new code) }
    ensures failed { OnErr result (buffer.new ≡ buffer.old) }
    ensures memory { OnErr result (count.new ≡ count.old) }
{
    let mut collected = Collected::new(alloc);
    copy_joined(alloc, &mut collected, jpeg, kind, buffer, count)
}
