//! The calls of the C library, each over a stream in memory.
//!
//! They keep no state and share nothing: each reads its stream from the start, writes only through
//! its arguments, and has freed all of its memory when it returns. (`handle_calls` has those that
//! go on with what another call has begun.) The number that a call returns is one of
//! `bindings/c/zaxbriar.h`: 0 OK, 1 MALFORMED, 2 UNSUPPORTED, 3 TRUNCATED, 4 NO_MEMORY, 5 NO_ROOM,
//! 6 BAD_ARGUMENT, 7 NO_DATA, 8 TOO_LARGE, 9 PARTIAL, 10 TOO_MANY_PASSES, 11 END, 12 WAITING.
ghost use Rattle.std.specs.Prelude.{◌≡◌, ℕ, List};
ghost use Rattle.zaxbriar_calls.specs.CopiesJoined.{CopiesJoined};
ghost use Rattle.zaxbriar_calls.specs.CopiesMetadata.{CopiesMetadata};
ghost use Rattle.zaxbriar_calls.specs.Fills.{Fills};
ghost use Rattle.zaxbriar_calls.specs.FindsSegment.{FindsSegment};
ghost use Rattle.zaxbriar_calls.specs.Meanings.{no_picture};
ghost use Rattle.zaxbriar_calls.specs.Outcomes.{DecodesInto};
ghost use Rattle.zaxbriar_calls.specs.Passes.{is_whole};
ghost use Rattle.zaxbriar_calls.specs.Places.{places_of};
ghost use Rattle.zaxbriar_calls.specs.ReadsInfo.{ReadsInfo};
ghost use Rattle.zaxbriar_calls.specs.declared.extents.Extent.TheVariants.{Whole, Partial};
ghost use Rattle.zaxbriar_calls.specs.declared.extents.Extent.TheVariants.{Planes};

use crate::answers::{
    BAD_ARGUMENT, MALFORMED, NO_MEMORY, OK, Refusal, TRUNCATED, answer, outcome_fault,
    outcome_rows, with_passes,
};
use crate::decode::decode_into;
use crate::description::describe_stream;
use crate::extents::Extent;
use crate::features::outcome_feature;
use crate::joined::{is_joined_kind, read_joined};
use crate::metadata::{is_no_kind, read_metadata};
use crate::options::Options;
use crate::picture::{NO_PICTURE, Picture};
use crate::places::{Places, find_places};
use crate::segments::{NO_SEGMENT, Segment, ends_by_ff, next_marker, payload_after, payload_needs};
use std::alloc::Global;

/// Describes the picture of a stream, by its header.
pub fn read_info(alloc: Global, jpeg: &[u8], options: &Options, picture: &mut Picture) -> u32
    ensures { ReadsInfo options.now jpeg.now picture.new result }
{
    *picture = NO_PICTURE;
    let outcome = describe_stream(alloc, jpeg, options, picture);
    let feature = outcome_feature(&outcome);
    picture.feature = feature.number;
    picture.feature_argument = feature.argument;
    answer(alloc, outcome, &mut picture.text)
}

/// Returns whether the whole of a picture is asked for, or of its planes.
fn is_whole(extent: Extent) -> bool
    ensures { result ≡ is_whole extent }
{
    match extent {
        Extent::Whole => true,
        Extent::Partial => false,
        Extent::Planes => true,
    }
}

/// Tells of the outcome of a decode in the picture that it has described, and returns its number.
pub(crate) fn tell(
    alloc: Global,
    outcome: std::result::Result<u16, Refusal>,
    exceeded: bool,
    extent: Extent,
    picture: &mut Picture,
) -> u32
    ensures { (o : Options) (bytes before after : List ℕ)
        → DecodesInto extent o bytes before after no_picture picture.old outcome exceeded
        → Fills extent o bytes before after picture.new result }
{
    let feature = outcome_feature(&outcome);
    picture.feature = feature.number;
    picture.feature_argument = feature.argument;
    picture.fault = with_passes(exceeded, outcome_fault(&outcome)) as u8;
    picture.whole_rows = u32::from(outcome_rows(&outcome));
    let code = answer(alloc, outcome, &mut picture.text);
    with_passes(exceeded && is_whole(extent), code)
}

/// Decodes what is asked for of a stream into `pixels`, and describes it.
fn fill(
    alloc: Global,
    jpeg: &[u8],
    options: &Options,
    pixels: &mut [u8],
    picture: &mut Picture,
    extent: Extent,
) -> u32
    ensures { Fills extent options.now jpeg.now pixels.old pixels.new picture.new result }
{
    *picture = NO_PICTURE;
    let (outcome, exceeded) = decode_into(alloc, jpeg, options, pixels, picture, extent);
    tell(alloc, outcome, exceeded, extent, picture)
}

/// Decodes a stream into `pixels`.
pub fn decode(
    alloc: Global,
    jpeg: &[u8],
    options: &Options,
    pixels: &mut [u8],
    picture: &mut Picture,
) -> u32
    ensures { Fills Whole options.now jpeg.now pixels.old pixels.new picture.new result }
{
    fill(alloc, jpeg, options, pixels, picture, Extent::Whole)
}

/// Decodes the part of a stream before its first fault into `pixels`. What it doesn't bring is
/// mid-grey.
pub fn decode_partial(
    alloc: Global,
    jpeg: &[u8],
    options: &Options,
    pixels: &mut [u8],
    picture: &mut Picture,
) -> u32
    ensures { Fills Partial options.now jpeg.now pixels.old pixels.new picture.new result }
{
    fill(alloc, jpeg, options, pixels, picture, Extent::Partial)
}

/// Decodes the planes of a stream into `samples`, one after the other: the samples of each of its
/// components at the component's own size.
pub fn decode_planes(
    alloc: Global,
    jpeg: &[u8],
    options: &Options,
    samples: &mut [u8],
    picture: &mut Picture,
) -> u32
    ensures { Fills Planes options.now jpeg.now samples.old samples.new picture.new result }
{
    fill(alloc, jpeg, options, samples, picture, Extent::Planes)
}

/// Copies the Exif data, the XMP data or the ICC profile of a header or of a whole image, and
/// writes how many bytes they have. The scans of the image may go `max_passes` times over its
/// picture; 0 for any number.
pub fn metadata(
    alloc: Global,
    jpeg: &[u8],
    kind: u32,
    max_passes: u64,
    buffer: &mut [u8],
    count: &mut u64,
) -> u32
    ensures { CopiesMetadata jpeg.now kind max_passes buffer.old buffer.new count.new result }
{
    *count = 0;
    if is_no_kind(kind) {
        return BAD_ARGUMENT;
    }
    let Ok(code) = read_metadata(alloc, jpeg, kind, max_passes, buffer, count) else {
        return NO_MEMORY;
    };
    code
}

/// Copies metadata that may stand in several segments, joined from those of a whole image, also of
/// one that is cut or damaged, and writes how many bytes they have: 1 Exif data, 2 XMP data, 4
/// extended XMP data, 5 IPTC data, 6 the thumbnail in the Exif data. It looks at the segments
/// alone, up to the end of the image or as far as they are whole, and decodes nothing.
pub fn joined_metadata(
    alloc: Global,
    jpeg: &[u8],
    kind: u32,
    buffer: &mut [u8],
    count: &mut u64,
) -> u32
    ensures { CopiesJoined jpeg.now kind buffer.old buffer.new count.new result }
{
    *count = 0;
    if !is_joined_kind(kind) {
        return BAD_ARGUMENT;
    }
    let Ok(code) = read_joined(alloc, jpeg, kind, buffer, count) else {
        return NO_MEMORY;
    };
    code
}

/// Finds the first segment in some bytes, whatever stands before its marker.
#[tactic(auto, using(crate::proofs::Rules::long_segments))]
pub fn next_segment(jpeg: &[u8], segment: &mut Segment) -> u32
    ensures { FindsSegment jpeg.now segment.new result }
{
    *segment = NO_SEGMENT;
    let Some((marker, after)) = next_marker(jpeg) else {
        let begun = usize::from(ends_by_ff(jpeg));
        segment.needed = (2 - begun) as u64;
        segment.skipped = (jpeg.len() - begun) as u64;
        return TRUNCATED;
    };
    let start = jpeg.len() - after.len();
    segment.marker = jpeg[start - 1];
    if let Some((payload, rest)) = payload_after(marker, after) {
        segment.end = (jpeg.len() - rest.len()) as u64;
        segment.size = payload.len() as u64;
        segment.offset = segment.end - segment.size;
        return OK;
    }
    match payload_needs(after) {
        Some(needed) => {
            segment.needed = needed as u64;
            segment.skipped = (start - 2) as u64;
            TRUNCATED
        }
        None => MALFORMED,
    }
}

/// Finds the metadata in the segments of an image, also of one that is cut or damaged: those up to
/// its end or as far as there are whole segments.
pub fn find_metadata(jpeg: &[u8], places: &mut Places)
    ensures { places.new ≡ places_of jpeg.now }
{
    find_places(jpeg, places);
}
