//! Callers of what the C library does.
ghost use Rattle.std.specs.Prelude.{◌≡◌, ◌⊎◌, ◌<◌, None, Some, false, length, true};
ghost use Rattle.jpeg_bits.specs.Reading.{Fault};
ghost use Rattle.jpeg_meaning.specs.Stream.{header_at};
ghost use Rattle.zaxbriar_calls.specs.ArrivedLines.{BeginsFedReading, EndsFedBytes};
ghost use Rattle.zaxbriar_calls.specs.ArrivedLines.{TakesFedNext, TellsFedRefusal};
ghost use Rattle.zaxbriar_calls.specs.Boxed.{is_fitted};
ghost use Rattle.zaxbriar_calls.specs.Crops.{is_cropped};
ghost use Rattle.zaxbriar_calls.specs.Faults.{IsOfRoomNumber};
ghost use Rattle.zaxbriar_calls.specs.Given.{Gives, TellsFault, rows_by, without_fault};
ghost use Rattle.zaxbriar_calls.specs.Given.{without_rows};
ghost use Rattle.zaxbriar_calls.specs.Joined.{is_joined_kind, joined_of};
ghost use Rattle.zaxbriar_calls.specs.Meanings.{CountsRead, Describes, IsWithin, uncounted};
ghost use Rattle.zaxbriar_calls.specs.Metadata.{IsCopied, IsLonger, said_of};
ghost use Rattle.zaxbriar_calls.specs.Passes.{exceeds};
ghost use Rattle.zaxbriar_calls.specs.Places.{places_of};
ghost use Rattle.zaxbriar_calls.specs.StreamSegments.{IsCut};
ghost use Rattle.zaxbriar_calls.specs.TakenLines.{BeginsReading, TakesNext, TellsRefusal};
ghost use Rattle.zaxbriar_calls.specs.TakenStreams.{DescribesArrived, ShowsArrived, TakesBytes};
ghost use Rattle.zaxbriar_calls.specs.declared.extents.Extent.TheVariants.{Whole, Partial};
ghost use Rattle.zaxbriar_calls.specs.declared.extents.Extent.TheVariants.{Planes};

use std::alloc::Global;
use zaxbriar_calls::kept::Kept;
use zaxbriar_calls::options::Options;
use zaxbriar_calls::picture::Picture;
use zaxbriar_calls::places::Places;
use zaxbriar_calls::segments::Segment;
use zaxbriar_calls::{calls, handle_calls};

/// Calls `read_info`, and says how many bytes the header takes, and that no room is asked for.
pub fn described(alloc: Global, jpeg: &[u8], options: &Options, picture: &mut Picture) -> u32
    ensures counts { (result ≡ 0) ⊎ (result ≡ 8)
        → CountsRead (header_at jpeg.now) jpeg.now picture.new.stream_bytes }
    ensures roomless { result ≡ 5 → ⊥ }
{
    calls::read_info(alloc, jpeg, options, picture)
}

/// Calls `read_info`, and says that a picture that lies on its side (orientation 6) is, upright, as
/// wide as it is high in its stream, unless it is made smaller.
pub fn described_upright(
    alloc: Global,
    stream: &[u8],
    options: &Options,
    picture: &mut Picture,
) -> u32
    requires asked { options.now.upright ≡ 1 }
    requires whole { is_cropped options.now ≡ false }
    requires own { is_fitted options.now ≡ false }
    ensures { result ≡ 0 → picture.new.orientation ≡ 6
        → (described : Describes options.now stream.now (uncounted picture.new))
        × (picture.new.width ≡ described.info.height) }
{
    calls::read_info(alloc, stream, options, picture)
}

/// Calls `read_info`, and says that a part of a picture is as wide and as high as it is asked for,
/// unless it is made smaller.
pub fn described_part(
    alloc: Global,
    part_of: &[u8],
    options: &Options,
    picture: &mut Picture,
) -> u32
    requires asked { is_cropped options.now ≡ true }
    requires own { is_fitted options.now ≡ false }
    ensures wide { result ≡ 0 → picture.new.width ≡ options.now.crop.width }
    ensures high { result ≡ 0 → picture.new.height ≡ options.now.crop.height }
{
    calls::read_info(alloc, part_of, options, picture)
}

/// Calls `read_info`, and says that the luma of a sequential picture has one sample a pixel,
/// however many components its stream has.
pub fn described_luma(alloc: Global, bytes: &[u8], options: &Options, picture: &mut Picture) -> u32
    requires asked { options.now.luma ≡ 1 }
    ensures { result ≡ 0 → picture.new.process ≡ 1 → picture.new.components ≡ 1 }
{
    calls::read_info(alloc, bytes, options, picture)
}

/// Calls `read_info`, and says that the sizes of the planes are those of the components.
pub fn described_planes(
    alloc: Global,
    planes_of: &[u8],
    options: &Options,
    picture: &mut Picture,
) -> u32
    ensures { result ≡ 0
        → (described : Describes options.now planes_of.now (uncounted picture.new))
        × (picture.new.plane_width ≡ described.planes.width)
        × (picture.new.plane_height ≡ described.planes.height)
        × (picture.new.planes_size ≡ described.planes.size) }
{
    calls::read_info(alloc, planes_of, options, picture)
}

/// Calls `decode`, and says that an OK gives the picture, what is returned for a picture that has
/// no room, and that TOO_MANY_PASSES is no other fault, and MALFORMED not that one.
pub fn decoded(
    alloc: Global,
    jpeg: &[u8],
    options: &Options,
    pixels: &mut [u8],
    picture: &mut Picture,
) -> u32
    ensures given { result ≡ 0 → Gives Whole options.now jpeg.now pixels.old pixels.new None
        (without_rows picture.new) }
    ensures short { (size : Picture) → IsWithin options.now jpeg.now size
        → length pixels.old < size.size → IsOfRoomNumber result }
    ensures passes { result ≡ 10 → exceeds Whole options.now jpeg.now ≡ true }
    ensures malformed { result ≡ 1 → exceeds Whole options.now jpeg.now ≡ false }
{
    calls::decode(alloc, jpeg, options, pixels, picture)
}

/// Calls `decode_partial`, and says which part and which fault are given after PARTIAL, and how
/// many rows are complete.
pub fn decoded_part(
    alloc: Global,
    jpeg: &[u8],
    options: &Options,
    pixels: &mut [u8],
    picture: &mut Picture,
) -> u32
    ensures part { result ≡ 9 → (fault : Fault)
        × Gives Partial options.now jpeg.now pixels.old pixels.new (Some fault)
        (without_fault (without_rows picture.new)) × TellsFault Partial options.now jpeg.now
        picture.new fault }
    ensures rows { (result ≡ 0) ⊎ (result ≡ 9)
        → picture.new.whole_rows ≡ rows_by Partial options.now jpeg.now }
{
    calls::decode_partial(alloc, jpeg, options, pixels, picture)
}

/// Calls `decode_planes`, and says that an OK gives the planes, and what is returned where they
/// have no room.
pub fn decoded_planes(
    alloc: Global,
    jpeg: &[u8],
    options: &Options,
    samples: &mut [u8],
    picture: &mut Picture,
) -> u32
    ensures given { result ≡ 0 → Gives Planes options.now jpeg.now samples.old samples.new None
        (without_rows picture.new) }
    ensures short { (size : Picture) → IsWithin options.now jpeg.now size
        → length samples.old < size.planes_size → IsOfRoomNumber result }
{
    calls::decode_planes(alloc, jpeg, options, samples, picture)
}

/// Calls `metadata`, and says what is copied after OK, how long it is after NO_ROOM, that nothing
/// is counted otherwise, and that a fault hides no data.
pub fn copied(
    alloc: Global,
    jpeg: &[u8],
    kind: u32,
    max_passes: u64,
    buffer: &mut [u8],
    count: &mut u64,
) -> u32
    ensures copies { result ≡ 0
        → IsCopied (said_of max_passes kind jpeg.now) buffer.old buffer.new count.new }
    ensures room { result ≡ 5
        → IsLonger (said_of max_passes kind jpeg.now) (length buffer.old) count.new }
    ensures uncounted { (result ≡ 0 → ⊥) → (result ≡ 5 → ⊥) → count.new ≡ 0 }
    ensures unsaid { 0 < result → result < 4 → said_of max_passes kind jpeg.now ≡ None }
{
    calls::metadata(alloc, jpeg, kind, max_passes, buffer, count)
}

/// Calls `joined_metadata`, and says what is copied after OK, how long it is after NO_ROOM, that
/// there is none after NO_DATA, that nothing is counted otherwise, and which kinds don't exist.
pub fn joined(alloc: Global, jpeg: &[u8], kind: u32, buffer: &mut [u8], count: &mut u64) -> u32
    ensures copies { result ≡ 0
        → IsCopied (joined_of kind jpeg.now) buffer.old buffer.new count.new }
    ensures none { result ≡ 7 → joined_of kind jpeg.now ≡ None }
    ensures room { result ≡ 5
        → IsLonger (joined_of kind jpeg.now) (length buffer.old) count.new }
    ensures uncounted { (result ≡ 0 → ⊥) → (result ≡ 5 → ⊥) → count.new ≡ 0 }
    ensures known { is_joined_kind kind ≡ false → result ≡ 6 }
{
    calls::joined_metadata(alloc, jpeg, kind, buffer, count)
}

/// Calls `next_segment`, and says what a segment needs that is cut.
pub fn found(jpeg: &[u8], segment: &mut Segment) -> u32
    ensures { result ≡ 3 → IsCut jpeg.now segment.new }
{
    calls::next_segment(jpeg, segment)
}

/// Calls `find_metadata`.
pub fn placed(jpeg: &[u8], places: &mut Places)
    ensures { places.new ≡ places_of jpeg.now }
{
    calls::find_metadata(jpeg, places);
}

/// Calls `begin_rows`, and says that a reader is kept after OK alone, and that it reads the bytes.
pub fn begun(
    alloc: Global,
    jpeg: &'static [u8],
    options: &Options,
    kept: &mut Kept,
    picture: &mut Picture,
) -> u32
    ensures { BeginsReading options.now jpeg.now picture.new result kept.new.value }
{
    handle_calls::begin_rows(alloc, jpeg, options, kept, picture)
}

/// Calls `next_row`, and says which line is the next, and when there is none.
pub fn next_line(alloc: Global, kept: &mut Kept, line: &mut [u8]) -> u32
    ensures { TakesNext kept.old.value kept.new.value line.old line.new result }
{
    handle_calls::next_row(alloc, kept, line)
}

/// Calls `tell_refusal`, and says what a picture is told, and that the reader stays.
pub fn told_refusal(alloc: Global, kept: &mut Kept, picture: &mut Picture) -> u32
    ensures { TellsRefusal kept.old.value kept.new.value picture.old picture.new result }
{
    handle_calls::tell_refusal(alloc, kept, picture)
}

/// Calls `feed`, and says what takes a piece, and when none of it was taken.
pub fn fed(alloc: Global, kept: &mut Kept, bytes: &[u8]) -> u32
    ensures { TakesBytes kept.old.value kept.new.value bytes.now result }
{
    handle_calls::feed(alloc, kept, bytes)
}

/// Calls `stream_info`, and says what is described, and that the stream stays.
pub fn described_arrived(alloc: Global, kept: &mut Kept, picture: &mut Picture) -> u32
    ensures { DescribesArrived kept.old.value kept.new.value picture.old picture.new result }
{
    handle_calls::stream_info(alloc, kept, picture)
}

/// Calls `show`, and says what is shown, and that the stream stays.
pub fn shown(alloc: Global, kept: &mut Kept, pixels: &mut [u8], picture: &mut Picture) -> u32
    ensures { ShowsArrived kept.old.value kept.new.value pixels.old pixels.new picture.old
        picture.new result }
{
    handle_calls::show(alloc, kept, pixels, picture)
}

/// Calls `begin_fed_rows`, and says that a reader of the bytes is kept after OK, and the stream
/// otherwise.
pub fn begun_fed(alloc: Global, kept: &mut Kept, picture: &mut Picture) -> u32
    ensures { BeginsFedReading kept.old.value kept.new.value picture.old picture.new result }
{
    handle_calls::begin_fed_rows(alloc, kept, picture)
}

/// Calls `next_fed_row`, and says which line is the next, and why there is none.
pub fn next_fed_line(alloc: Global, kept: &mut Kept, line: &mut [u8]) -> u32
    ensures { TakesFedNext kept.old.value kept.new.value line.old line.new result }
{
    handle_calls::next_fed_row(alloc, kept, line)
}

/// Calls `end_fed_bytes`, and says that the bytes have ended, and that the reader stays.
pub fn ended_bytes(alloc: Global, kept: &mut Kept) -> u32
    ensures { EndsFedBytes kept.old.value kept.new.value result }
{
    handle_calls::end_fed_bytes(alloc, kept)
}

/// Calls `tell_fed_refusal`, and says what a picture is told, and that the reader stays.
pub fn told_fed_refusal(alloc: Global, kept: &mut Kept, picture: &mut Picture) -> u32
    ensures { TellsFedRefusal kept.old.value kept.new.value picture.old picture.new result }
{
    handle_calls::tell_fed_refusal(alloc, kept, picture)
}
