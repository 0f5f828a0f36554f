//! The calls of the C library that go on with what another of them has begun: those that give the
//! lines of a picture one by one, and those that take a stream in pieces.
//!
//! What is begun is kept in `Kept`, which C has, and `end` lets it go. The numbers that they return
//! are those of `calls`. Where what a call goes on with isn't kept, it is BAD_ARGUMENT.
ghost use Rattle.std.specs.Prelude.{◌≡◌, OnErr, OnOk, false, true};
ghost use Rattle.std.specs.declared.option.Option.TheVariants.{None, Some};
ghost use Rattle.zaxbriar_calls.specs.ArrivedLines.{BeginsFedReading, BeginsHeldLines};
ghost use Rattle.zaxbriar_calls.specs.ArrivedLines.{EndsFedBytes, IsStreamForLines, TakesFedNext};
ghost use Rattle.zaxbriar_calls.specs.ArrivedLines.{TellsFedRefusal};
ghost use Rattle.zaxbriar_calls.specs.Meanings.{no_picture};
ghost use Rattle.zaxbriar_calls.specs.Outcomes.{DescribesStream};
ghost use Rattle.zaxbriar_calls.specs.TakenLines.{BeginsReading, TakesNext, TellsRefusal};
ghost use Rattle.zaxbriar_calls.specs.TakenLines.{KeepsRows, are_for_rows};
ghost use Rattle.zaxbriar_calls.specs.TakenStreams.{BeginsStream, DescribesArrived, FindsArrived};
ghost use Rattle.zaxbriar_calls.specs.TakenStreams.{ShowsArrived, TakesBytes};

use crate::answers::{BAD_ARGUMENT, Misuse, NO_MEMORY, OK, Refusal, answer};
use crate::calls::{read_info, tell};
use crate::extents::Extent;
use crate::features::outcome_feature;
use crate::fed::FedStream;
use crate::fed_rows::{FedRowReader, are_for_fed_rows, describe_settings};
use crate::handle::Handle;
use crate::kept::Kept;
use crate::options::{Options, are_known};
use crate::picture::{NO_PICTURE, Picture};
use crate::places::{Places, find_places};
use crate::rows::{are_for_rows, begin};
use jpeg_decoder::error::{Error, Result};
use std::alloc::Global;
use std::mem::replace;

/// Lets go what is kept, if anything is.
pub fn end(alloc: Global, kept: &mut Kept)
    ensures { kept.new.value ≡ None }
{
    let _handle = replace(kept, Kept::none(alloc)).into_box();
}

/// Keeps a handle, and returns true, or nothing, if there is no memory for it.
fn keep(alloc: Global, handle: Handle, kept: &mut Kept) -> bool
    ensures kept { result ≡ true → kept.new.value ≡ Some handle }
    ensures none { result ≡ false → kept.new.value ≡ None }
{
    match Box::new(alloc, handle) {
        Ok(handle) => {
            let _before = replace(kept, Kept::of(handle)).into_box();
            true
        }
        Err(_) => {
            end(alloc, kept);
            false
        }
    }
}

/// Reads the header of a stream, describes its picture, and keeps a reader of its lines. A picture
/// for whose reader there is no memory isn't described.
fn begin_reading(
    alloc: Global,
    jpeg: &'static [u8],
    options: &Options,
    kept: &mut Kept,
    picture: &mut Picture,
) -> std::result::Result<(), Refusal>
    requires known { are_for_rows options.now ≡ true }
    requires none { picture.old ≡ no_picture }
    ensures described { DescribesStream options.now jpeg.now no_picture picture.new result }
    ensures reader { OnOk result (KeepsRows options.now jpeg.now picture.new kept.new.value) }
    ensures none { OnErr result (kept.new.value ≡ None) }
{
    let reader = match begin(alloc, jpeg, options, picture) {
        Ok(reader) => reader,
        Err(refusal) => {
            end(alloc, kept);
            return Err(refusal);
        }
    };
    if keep(alloc, Handle::Rows(reader), kept) {
        Ok(())
    } else {
        *picture = NO_PICTURE;
        Err(Refusal::Stream(Error::OutOfMemory))
    }
}

/// Describes the picture of a stream as `read_info` does, and begins to give its lines: keeps a
/// reader of them after OK, and after any other result nothing.
pub fn begin_rows(
    alloc: Global,
    jpeg: &'static [u8],
    options: &Options,
    kept: &mut Kept,
    picture: &mut Picture,
) -> u32
    ensures { BeginsReading options.now jpeg.now picture.new result kept.new.value }
{
    *picture = NO_PICTURE;
    if !are_for_rows(options) {
        end(alloc, kept);
        let misuse = Misuse::Of("an option doesn't exist, or not for lines as they come");
        let unknown: std::result::Result<(), Refusal> = Err(Refusal::Argument(misuse));
        return answer(alloc, unknown, &mut picture.text);
    }
    let outcome = begin_reading(alloc, jpeg, options, kept, picture);
    let feature = outcome_feature(&outcome);
    picture.feature = feature.number;
    picture.feature_argument = feature.argument;
    answer(alloc, outcome, &mut picture.text)
}

/// Writes the next line of the reader that is held, if one is.
fn take_line(alloc: Global, handle: &mut Handle, line: &mut [u8]) -> u32
    ensures { TakesNext (Some handle.old) (Some handle.new) line.old line.new result }
{
    match handle {
        Handle::Rows(reader) => reader.next_line(alloc, line),
        Handle::Stream(_) | Handle::FedRows(_) => BAD_ARGUMENT,
    }
}

/// Writes the next line of the reader that is kept, and returns OK; or END after the last, or why
/// the stream is refused.
pub fn next_row(alloc: Global, kept: &mut Kept, line: &mut [u8]) -> u32
    ensures { TakesNext kept.old.value kept.new.value line.old line.new result }
{
    let Some(mut handle) = replace(kept, Kept::none(alloc)).into_box() else {
        return BAD_ARGUMENT;
    };
    let code = take_line(alloc, &mut handle, line);
    let _none = replace(kept, Kept::of(handle)).into_box();
    code
}

/// Writes why the stream of the reader that is kept was refused into a picture, or nothing unless
/// it was, and returns the number of that refusal, or END after the last line, or OK before.
pub fn tell_refusal(alloc: Global, kept: &mut Kept, picture: &mut Picture) -> u32
    ensures { TellsRefusal kept.old.value kept.new.value picture.old picture.new result }
{
    let Some(handle) = replace(kept, Kept::none(alloc)).into_box() else {
        return BAD_ARGUMENT;
    };
    let code = match &*handle {
        Handle::Rows(reader) => reader.tell_refusal(picture),
        Handle::Stream(_) | Handle::FedRows(_) => BAD_ARGUMENT,
    };
    let _none = replace(kept, Kept::of(handle)).into_box();
    code
}

/// Begins to take a stream in pieces, which is decoded as the options say: keeps it after OK, and
/// after any other result nothing.
pub fn begin_stream(alloc: Global, options: &Options, kept: &mut Kept) -> u32
    ensures { BeginsStream options.now result kept.new.value }
{
    if !are_known(options) {
        end(alloc, kept);
        return BAD_ARGUMENT;
    }
    let stream = FedStream::new(alloc, options);
    if keep(alloc, Handle::Stream(stream), kept) {
        OK
    } else {
        NO_MEMORY
    }
}

/// Returns the number of the outcome of a call whose only error is a lack of memory.
fn fed_number(fed: Result<()>) -> u32
    ensures ok { OnOk fed (result ≡ 0) }
    ensures err { OnErr fed (result ≡ 4) }
{
    match fed {
        Ok(()) => OK,
        Err(_) => NO_MEMORY,
    }
}

/// Takes the next bytes of the stream that is held, or of what gives its lines, if one is, or none
/// of them for lack of memory, nor after their end was said.
fn take_bytes(handle: &mut Handle, bytes: &[u8]) -> u32
    ensures { TakesBytes (Some handle.old) (Some handle.new) bytes.now result }
{
    match handle {
        Handle::Stream(stream) => fed_number(stream.feed(bytes)),
        Handle::FedRows(reader) => {
            if reader.has_ended() {
                return BAD_ARGUMENT;
            }
            fed_number(reader.feed(bytes))
        }
        Handle::Rows(_) => BAD_ARGUMENT,
    }
}

/// Takes the next bytes of the stream that is kept, or none of them for lack of memory.
pub fn feed(alloc: Global, kept: &mut Kept, bytes: &[u8]) -> u32
    ensures { TakesBytes kept.old.value kept.new.value bytes.now result }
{
    let Some(mut handle) = replace(kept, Kept::none(alloc)).into_box() else {
        return BAD_ARGUMENT;
    };
    let code = take_bytes(&mut handle, bytes);
    let _none = replace(kept, Kept::of(handle)).into_box();
    code
}

/// Describes the picture of the stream that is kept, as `read_info` describes that of all bytes
/// that were fed.
pub fn stream_info(alloc: Global, kept: &mut Kept, picture: &mut Picture) -> u32
    ensures { DescribesArrived kept.old.value kept.new.value picture.old picture.new result }
{
    let Some(handle) = replace(kept, Kept::none(alloc)).into_box() else {
        return BAD_ARGUMENT;
    };
    let code = match &*handle {
        Handle::Stream(stream) => read_info(alloc, stream.bytes(), stream.options(), picture),
        Handle::Rows(_) | Handle::FedRows(_) => BAD_ARGUMENT,
    };
    let _none = replace(kept, Kept::of(handle)).into_box();
    code
}

/// Decodes what the bytes of the stream that is held bring into `pixels`, and describes it, if one
/// is.
fn show_held(alloc: Global, handle: &mut Handle, pixels: &mut [u8], picture: &mut Picture) -> u32
    ensures { ShowsArrived (Some handle.old) (Some handle.new) pixels.old pixels.new picture.old
        picture.new result }
{
    let Handle::Stream(stream) = handle else {
        return BAD_ARGUMENT;
    };
    *picture = NO_PICTURE;
    let (outcome, exceeded) = stream.show_into(alloc, pixels, picture);
    tell(alloc, outcome, exceeded, Extent::Partial, picture)
}

/// Decodes what the stream that is kept has brought so far into `pixels`, as `decode_partial`
/// decodes all bytes that were fed.
pub fn show(alloc: Global, kept: &mut Kept, pixels: &mut [u8], picture: &mut Picture) -> u32
    ensures { ShowsArrived kept.old.value kept.new.value pixels.old pixels.new picture.old
        picture.new result }
{
    let Some(mut handle) = replace(kept, Kept::none(alloc)).into_box() else {
        return BAD_ARGUMENT;
    };
    let code = show_held(alloc, &mut handle, pixels, picture);
    let _none = replace(kept, Kept::of(handle)).into_box();
    code
}

/// Finds the metadata in the bytes of the stream that is kept, as `find_metadata` does, if one is.
pub fn find_stream_metadata(alloc: Global, kept: &mut Kept, places: &mut Places)
    ensures { FindsArrived kept.old.value kept.new.value places.old places.new }
{
    let Some(handle) = replace(kept, Kept::none(alloc)).into_box() else {
        return;
    };
    if let Handle::Stream(stream) = &*handle {
        find_places(stream.bytes(), places);
    }
    let _none = replace(kept, Kept::of(handle)).into_box();
}

/// Describes the picture of the stream that is held, and lets a reader of its lines be held in its
/// place, of all bytes that were fed. A picture for whose reader there is no memory isn't described.
fn begin_fed_reading(
    alloc: Global,
    handle: &mut Handle,
    picture: &mut Picture,
) -> std::result::Result<(), Refusal>
    requires none { picture.old ≡ no_picture }
    requires stream { IsStreamForLines handle.old }
    ensures { BeginsHeldLines handle.old handle.new picture.new result }
{
    let Handle::Stream(stream) = &*handle else {
        unreachable!()
    };
    let settings = describe_settings(alloc, stream.bytes(), stream.options(), picture)?;
    match FedRowReader::new(alloc, settings, stream.bytes()) {
        Ok(reader) => {
            *handle = Handle::FedRows(reader);
            Ok(())
        }
        Err(error) => {
            *picture = NO_PICTURE;
            Err(Refusal::from(error))
        }
    }
}

/// Begins to give the lines of the stream that is held, if one is.
fn turn_to_lines(alloc: Global, handle: &mut Handle, picture: &mut Picture) -> u32
    ensures { BeginsFedReading (Some handle.old) (Some handle.new) picture.old picture.new result }
{
    let Handle::Stream(stream) = &*handle else {
        return BAD_ARGUMENT;
    };
    *picture = NO_PICTURE;
    if !are_for_fed_rows(stream.options()) {
        let misuse = Misuse::Of("an option doesn't exist for lines that come while bytes arrive");
        let unknown: std::result::Result<(), Refusal> = Err(Refusal::Argument(misuse));
        return answer(alloc, unknown, &mut picture.text);
    }
    let outcome = begin_fed_reading(alloc, handle, picture);
    let feature = outcome_feature(&outcome);
    picture.feature = feature.number;
    picture.feature_argument = feature.argument;
    answer(alloc, outcome, &mut picture.text)
}

/// Describes the picture of the stream that is kept, as `stream_info` does, and begins to give its
/// lines: after OK a reader of them is kept in its place.
pub fn begin_fed_rows(alloc: Global, kept: &mut Kept, picture: &mut Picture) -> u32
    ensures { BeginsFedReading kept.old.value kept.new.value picture.old picture.new result }
{
    let Some(mut handle) = replace(kept, Kept::none(alloc)).into_box() else {
        return BAD_ARGUMENT;
    };
    let code = turn_to_lines(alloc, &mut handle, picture);
    let _none = replace(kept, Kept::of(handle)).into_box();
    code
}

/// Writes the next line of the reader that is held, if one is.
fn take_fed_line(alloc: Global, handle: &mut Handle, line: &mut [u8]) -> u32
    ensures { TakesFedNext (Some handle.old) (Some handle.new) line.old line.new result }
{
    match handle {
        Handle::FedRows(reader) => reader.next_line(alloc, line),
        Handle::Rows(_) | Handle::Stream(_) => BAD_ARGUMENT,
    }
}

/// Writes the next line of a stream whose lines are given while its bytes arrive, and returns OK; or
/// WAITING until more bytes are fed or their end is said, END after the last line, or why the stream
/// is refused.
pub fn next_fed_row(alloc: Global, kept: &mut Kept, line: &mut [u8]) -> u32
    ensures { TakesFedNext kept.old.value kept.new.value line.old line.new result }
{
    let Some(mut handle) = replace(kept, Kept::none(alloc)).into_box() else {
        return BAD_ARGUMENT;
    };
    let code = take_fed_line(alloc, &mut handle, line);
    let _none = replace(kept, Kept::of(handle)).into_box();
    code
}

/// Says that no more bytes come to the reader that is held, if one is.
fn end_bytes(handle: &mut Handle) -> u32
    ensures { EndsFedBytes (Some handle.old) (Some handle.new) result }
{
    match handle {
        Handle::FedRows(reader) => {
            reader.end();
            OK
        }
        Handle::Rows(_) | Handle::Stream(_) => BAD_ARGUMENT,
    }
}

/// Says that no more bytes come to what gives the lines of a stream.
pub fn end_fed_bytes(alloc: Global, kept: &mut Kept) -> u32
    ensures { EndsFedBytes kept.old.value kept.new.value result }
{
    let Some(mut handle) = replace(kept, Kept::none(alloc)).into_box() else {
        return BAD_ARGUMENT;
    };
    let code = end_bytes(&mut handle);
    let _none = replace(kept, Kept::of(handle)).into_box();
    code
}

/// Writes why the stream was refused whose lines are given while its bytes arrive, as
/// `tell_refusal` does.
pub fn tell_fed_refusal(alloc: Global, kept: &mut Kept, picture: &mut Picture) -> u32
    ensures { TellsFedRefusal kept.old.value kept.new.value picture.old picture.new result }
{
    let Some(handle) = replace(kept, Kept::none(alloc)).into_box() else {
        return BAD_ARGUMENT;
    };
    let code = match &*handle {
        Handle::FedRows(reader) => reader.tell_refusal(picture),
        Handle::Rows(_) | Handle::Stream(_) => BAD_ARGUMENT,
    };
    let _none = replace(kept, Kept::of(handle)).into_box();
    code
}
