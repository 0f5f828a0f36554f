//! The decoder for programs in other languages: C functions over streams in memory.
//!
//! The calls keep no state and share nothing: each reads its stream from the start, writes only
//! through its arguments, and has freed all of its memory when it returns. Only the lines of a
//! picture that are taken one by one have a reader, and a stream that arrives in pieces its bytes,
//! which C keeps between the calls for them.
//! `bindings/c/zaxbriar.h` has the functions that a C program calls: they test the pointers and
//! then call these. `zaxbriar_calls` does what each of them does.
#![tactic(auto)]

ghost use Rattle.std.specs.Prelude.{◌≡◌};
ghost use Rattle.std.specs.declared.option.Option.TheVariants.{None};
ghost use Rattle.zaxbriar_calls.specs.ArrivedLines.{BeginsFedReading, EndsFedBytes};
ghost use Rattle.zaxbriar_calls.specs.ArrivedLines.{TakesFedNext, TellsFedRefusal};
ghost use Rattle.zaxbriar_calls.specs.CopiesJoined.{CopiesJoined};
ghost use Rattle.zaxbriar_calls.specs.CopiesMetadata.{CopiesMetadata};
ghost use Rattle.zaxbriar_calls.specs.Fills.{Fills};
ghost use Rattle.zaxbriar_calls.specs.FindsSegment.{FindsSegment};
ghost use Rattle.zaxbriar_calls.specs.Places.{places_of};
ghost use Rattle.zaxbriar_calls.specs.ReadsInfo.{ReadsInfo};
ghost use Rattle.zaxbriar_calls.specs.TakenLines.{BeginsReading, TakesNext, TellsRefusal};
ghost use Rattle.zaxbriar_calls.specs.TakenStreams.{BeginsStream, DescribesArrived, FindsArrived};
ghost use Rattle.zaxbriar_calls.specs.TakenStreams.{ShowsArrived, TakesBytes};
ghost use Rattle.zaxbriar_calls.specs.declared.extents.Extent.TheVariants.{Whole, Partial};
ghost use Rattle.zaxbriar_calls.specs.declared.extents.Extent.TheVariants.{Planes};

use std::alloc::Global;
use zaxbriar_calls::kept::Kept;
use zaxbriar_calls::options::Options;
use zaxbriar_calls::picture::Picture;
use zaxbriar_calls::places::Places;
use zaxbriar_calls::segments::Segment;
use zaxbriar_calls::{calls, handle_calls};

/// Describes the picture of a stream, by its header.
#[unsafe(no_mangle)]
pub extern "C" fn zaxbriar_checked_read_info(
    alloc: Global,
    jpeg: &[u8],
    options: &Options,
    picture: &mut Picture,
) -> u32
    ensures { ReadsInfo options.now jpeg.now picture.new result }
{
    calls::read_info(alloc, jpeg, options, picture)
}

/// Decodes a stream into `pixels`.
#[unsafe(no_mangle)]
pub extern "C" fn zaxbriar_checked_decode(
    alloc: Global,
    jpeg: &[u8],
    options: &Options,
    pixels: &mut [u8],
    picture: &mut Picture,
) -> u32
    ensures { Fills Whole options.now jpeg.now pixels.old pixels.new picture.new result }
{
    calls::decode(alloc, jpeg, options, pixels, picture)
}

/// Decodes the part of a stream before its first fault into `pixels`. What it doesn't bring is
/// mid-grey.
#[unsafe(no_mangle)]
pub extern "C" fn zaxbriar_checked_decode_partial(
    alloc: Global,
    jpeg: &[u8],
    options: &Options,
    pixels: &mut [u8],
    picture: &mut Picture,
) -> u32
    ensures { Fills Partial options.now jpeg.now pixels.old pixels.new picture.new result }
{
    calls::decode_partial(alloc, jpeg, options, pixels, picture)
}

/// Decodes the planes of a stream into `samples`, one after the other: the samples of each of its
/// components at the component's own size.
#[unsafe(no_mangle)]
pub extern "C" fn zaxbriar_checked_decode_planes(
    alloc: Global,
    jpeg: &[u8],
    options: &Options,
    samples: &mut [u8],
    picture: &mut Picture,
) -> u32
    ensures { Fills Planes options.now jpeg.now samples.old samples.new picture.new result }
{
    calls::decode_planes(alloc, jpeg, options, samples, picture)
}

/// Copies the Exif data, the XMP data or the ICC profile of a header or of a whole image, and
/// writes how many bytes they have. The scans of the image may go `max_passes` times over its
/// picture; 0 for any number.
#[unsafe(no_mangle)]
pub extern "C" fn zaxbriar_checked_metadata(
    alloc: Global,
    jpeg: &[u8],
    kind: u32,
    max_passes: u64,
    buffer: &mut [u8],
    count: &mut u64,
) -> u32
    ensures { CopiesMetadata jpeg.now kind max_passes buffer.old buffer.new count.new result }
{
    calls::metadata(alloc, jpeg, kind, max_passes, buffer, count)
}

/// Copies metadata that may stand in several segments, joined from those of a whole image, and
/// writes how many bytes they have: 1 Exif data, 2 XMP data, 4 extended XMP data, 5 IPTC data, 6
/// the thumbnail in the Exif data.
#[unsafe(no_mangle)]
pub extern "C" fn zaxbriar_checked_joined_metadata(
    alloc: Global,
    jpeg: &[u8],
    kind: u32,
    buffer: &mut [u8],
    count: &mut u64,
) -> u32
    ensures { CopiesJoined jpeg.now kind buffer.old buffer.new count.new result }
{
    calls::joined_metadata(alloc, jpeg, kind, buffer, count)
}

/// Finds the first segment in some bytes, whatever stands before its marker.
#[unsafe(no_mangle)]
pub extern "C" fn zaxbriar_checked_next_segment(jpeg: &[u8], segment: &mut Segment) -> u32
    ensures { FindsSegment jpeg.now segment.new result }
{
    calls::next_segment(jpeg, segment)
}

/// Finds the metadata in the segments of an image, also of one that is cut or damaged: those up to
/// its end or as far as there are whole segments.
#[unsafe(no_mangle)]
pub extern "C" fn zaxbriar_checked_find_metadata(jpeg: &[u8], places: &mut Places)
    ensures { places.new ≡ places_of jpeg.now }
{
    calls::find_metadata(jpeg, places)
}

/// Describes the picture of a stream, by its header, and begins to give its lines: `kept` has a
/// reader after OK. The bytes of the stream stay until it is let go.
#[unsafe(no_mangle)]
pub extern "C" fn zaxbriar_checked_rows_new(
    alloc: Global,
    jpeg: &'static [u8],
    options: &Options,
    kept: &mut Kept,
    picture: &mut Picture,
) -> u32
    ensures { BeginsReading options.now jpeg.now picture.new result kept.new.value }
{
    handle_calls::begin_rows(alloc, jpeg, options, kept, picture)
}

/// Writes the next line of a picture.
#[unsafe(no_mangle)]
pub extern "C" fn zaxbriar_checked_rows_next(alloc: Global, kept: &mut Kept, line: &mut [u8]) -> u32
    ensures { TakesNext kept.old.value kept.new.value line.old line.new result }
{
    handle_calls::next_row(alloc, kept, line)
}

/// Writes why the stream of a reader was refused into a picture, whose other members stay: its text
/// and the feature.
#[unsafe(no_mangle)]
pub extern "C" fn zaxbriar_checked_rows_refusal(
    alloc: Global,
    kept: &mut Kept,
    picture: &mut Picture,
) -> u32
    ensures { TellsRefusal kept.old.value kept.new.value picture.old picture.new result }
{
    handle_calls::tell_refusal(alloc, kept, picture)
}

/// Lets the reader go.
#[unsafe(no_mangle)]
pub extern "C" fn zaxbriar_checked_rows_free(alloc: Global, kept: &mut Kept)
    ensures { kept.new.value ≡ None }
{
    handle_calls::end(alloc, kept);
}

/// Begins to take a stream in pieces: `kept` has it after OK.
#[unsafe(no_mangle)]
pub extern "C" fn zaxbriar_checked_fed_new(alloc: Global, options: &Options, kept: &mut Kept) -> u32
    ensures { BeginsStream options.now result kept.new.value }
{
    handle_calls::begin_stream(alloc, options, kept)
}

/// Takes the next bytes of a stream.
#[unsafe(no_mangle)]
pub extern "C" fn zaxbriar_checked_fed_feed(alloc: Global, kept: &mut Kept, bytes: &[u8]) -> u32
    ensures { TakesBytes kept.old.value kept.new.value bytes.now result }
{
    handle_calls::feed(alloc, kept, bytes)
}

/// Describes the picture of a stream, by the header in the bytes that were fed.
#[unsafe(no_mangle)]
pub extern "C" fn zaxbriar_checked_fed_info(
    alloc: Global,
    kept: &mut Kept,
    picture: &mut Picture,
) -> u32
    ensures { DescribesArrived kept.old.value kept.new.value picture.old picture.new result }
{
    handle_calls::stream_info(alloc, kept, picture)
}

/// Decodes what the bytes that were fed bring up to their first fault or their end into `pixels`.
/// What they don't bring is mid-grey.
#[unsafe(no_mangle)]
pub extern "C" fn zaxbriar_checked_fed_show(
    alloc: Global,
    kept: &mut Kept,
    pixels: &mut [u8],
    picture: &mut Picture,
) -> u32
    ensures { ShowsArrived kept.old.value kept.new.value pixels.old pixels.new picture.old
        picture.new result }
{
    handle_calls::show(alloc, kept, pixels, picture)
}

/// Describes the picture of a stream, by the header in the bytes that were fed, and begins to give
/// its lines: `kept` has what gives them after OK.
#[unsafe(no_mangle)]
pub extern "C" fn zaxbriar_checked_fed_rows(
    alloc: Global,
    kept: &mut Kept,
    picture: &mut Picture,
) -> u32
    ensures { BeginsFedReading kept.old.value kept.new.value picture.old picture.new result }
{
    handle_calls::begin_fed_rows(alloc, kept, picture)
}

/// Writes the next line of the picture of a stream, once its bytes were fed.
#[unsafe(no_mangle)]
pub extern "C" fn zaxbriar_checked_fed_next(alloc: Global, kept: &mut Kept, line: &mut [u8]) -> u32
    ensures { TakesFedNext kept.old.value kept.new.value line.old line.new result }
{
    handle_calls::next_fed_row(alloc, kept, line)
}

/// Says that no more bytes of a stream come.
#[unsafe(no_mangle)]
pub extern "C" fn zaxbriar_checked_fed_end(alloc: Global, kept: &mut Kept) -> u32
    ensures { EndsFedBytes kept.old.value kept.new.value result }
{
    handle_calls::end_fed_bytes(alloc, kept)
}

/// Writes why a stream that was fed is refused into a picture, whose other members stay: its text
/// and the feature.
#[unsafe(no_mangle)]
pub extern "C" fn zaxbriar_checked_fed_refusal(
    alloc: Global,
    kept: &mut Kept,
    picture: &mut Picture,
) -> u32
    ensures { TellsFedRefusal kept.old.value kept.new.value picture.old picture.new result }
{
    handle_calls::tell_fed_refusal(alloc, kept, picture)
}

/// Finds the metadata in the bytes that were fed.
#[unsafe(no_mangle)]
pub extern "C" fn zaxbriar_checked_fed_find_metadata(
    alloc: Global,
    kept: &mut Kept,
    places: &mut Places,
)
    ensures { FindsArrived kept.old.value kept.new.value places.old places.new }
{
    handle_calls::find_stream_metadata(alloc, kept, places);
}

/// Lets the stream go.
#[unsafe(no_mangle)]
pub extern "C" fn zaxbriar_checked_fed_free(alloc: Global, kept: &mut Kept)
    ensures { kept.new.value ≡ None }
{
    handle_calls::end(alloc, kept);
}
