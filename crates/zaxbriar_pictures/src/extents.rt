//! How much of a stream's picture is decoded: the whole, or what a stream that has a fault has
//! brought up to it.
ghost use Rattle.std.specs.Prelude.{◌≡◌, IfErr, IfOk, IfSome, None, Some, false, is_some, not};
ghost use Rattle.std.specs.Prelude.{option_map, true};
ghost use Rattle.std.specs.List.{concat};
ghost use Rattle.jpeg_bits.specs.Reading.{IsGivenUp};
ghost use Rattle.jpeg_decoder.specs.Bytes.{AreLinesOf, IsCounted, shape_in};
ghost use Rattle.jpeg_meaning.specs.Output.{IsOutsideOrMemory};
ghost use Rattle.jpeg_meaning.specs.Pixels.{info_by};
ghost use Rattle.jpeg_meaning.specs.declared.progress.Progress.TheVariants.{HeaderRead};
ghost use Rattle.zaxbriar_pictures.specs.Given.{given_rest};
ghost use Rattle.zaxbriar_pictures.specs.Reasons.{NamesOrOutside};
ghost use Rattle.zaxbriar_pictures.specs.Steps.{CountsRest, GivesRest};
ghost use Rattle.zaxbriar_pictures.specs.declared.extents.Extent.TheVariants.{Partial, Whole};
ghost use Rattle.jpeg_meaning.specs.Shown.{whole_rows_rest};

use jpeg_decoder::error::{Error, Result};
use jpeg_decoder::{Decoder, ImageInfo, PartialLines};
use std::io;
use std::io::{ErrorKind, Read};

/// How much of a stream's picture is wanted.
#[derive(Clone, Copy)]
pub enum Extent {
    /// The whole: a stream that has a fault is refused.
    Whole,
    /// What the stream has brought up to its first fault.
    Partial,
}

/// How much of a picture its stream has brought.
#[derive(Drop)]
pub struct Completeness {
    /// The size and the process of the picture whose rows are counted: as it was decoded, or of the
    /// whole one if it was then made smaller or turned.
    pub info: ImageInfo,
    /// The number of its rows, from the top, that are complete in each scan that was begun. All of
    /// them if the stream has no fault.
    pub whole_rows: u16,
    /// The first fault of the stream, or none if it is whole.
    pub fault: Option<Error>,
}

impl Completeness {
    /// Returns that all rows of a picture are complete.
    pub(crate) fn of_whole(info: ImageInfo) -> Completeness
        ensures { result ≡ record { info = info; whole_rows = info.height; fault = None } }
    {
        Completeness {
            info,
            whole_rows: info.height,
            fault: None,
        }
    }

    /// Returns whether the stream has no fault.
    pub fn is_whole(&self) -> bool
        ensures { result ≡ not (is_some self.now.fault) }
    {
        self.fault.is_none()
    }
}

/// Returns whether a fault is none of the bytes: the reader has failed, or was interrupted without
/// end.
fn is_of_reader(fault: &Error, has_failed: bool) -> bool
    ensures given_up { IsGivenUp fault.now has_failed → result ≡ true }
    ensures outside { result ≡ true → IsOutsideOrMemory fault.now }
{
    match fault {
        Error::Io(_) => has_failed,
        Error::Format(text) => text.is_empty(),
        Error::Unsupported(_) | Error::Internal(_) | Error::OutOfMemory => false,
    }
}

/// Returns what was shown, or refuses it where its fault is the reader's.
fn refuse_of_reader(shown: PartialLines, has_failed: bool) -> Result<PartialLines>
    ensures same { IfOk result (λ p. p ≡ shown) }
    ensures of_bytes { IfOk result (λ p. IfSome p.fault (λ e. IsGivenUp e has_failed → ⊥)) }
    ensures refused { IfErr result IsOutsideOrMemory }
{
    let PartialLines {
        lines,
        whole_rows,
        fault,
    } = shown;
    match fault {
        Some(fault) if is_of_reader(&fault, has_failed) => Err(fault),
        fault => Ok(PartialLines {
            lines,
            whole_rows,
            fault,
        }),
    }
}

/// Returns why nothing is shown: after a read that has failed, that it has, and no fault of the
/// bytes before it.
fn reason_after(error: Error, has_failed: bool) -> Error
    ensures failed { has_failed ≡ true → IsOutsideOrMemory result }
    ensures same { has_failed ≡ false → result ≡ error }
{
    match error {
        Error::Io(_) | Error::OutOfMemory => error,
        Error::Format(_) | Error::Unsupported(_) | Error::Internal(_) => {
            if has_failed {
                Error::Io(io::Error::new(ErrorKind::Other, "a read has failed"))
            } else {
                error
            }
        }
    }
}

/// Decodes the stream of a decoder, whose header was read, up to its first fault. A read that fails
/// is an error.
fn decode_partial<R: Read + Drop>(decoder: &mut Decoder<R>) -> Result<PartialLines>
    requires header { decoder.old.stage ≡ HeaderRead }
    ensures gives { IfOk result
        (λ p. GivesRest Partial decoder.old decoder.new (concat p.lines) p.fault) }
    ensures rows { decoder.old.source.known ≡ true → IfOk result (λ p. p.whole_rows
        ≡ whole_rows_rest decoder.old.settings.max_blocks decoder.old.found
        decoder.old.source.bytes) }
    ensures framed { IfOk result (λ _. is_some decoder.new.found.said.frame ≡ true) }
    ensures lines { IfOk result (λ p. AreLinesOf (shape_in decoder.new) p.lines) }
    ensures counted { IfOk result (λ _. IsCounted (shape_in decoder.new)) }
    ensures refused { decoder.old.source.known ≡ true → IfErr result (NamesOrOutside
        (given_rest Partial decoder.old.settings decoder.old.found decoder.old.source.bytes)) }
    ensures settings { decoder.new.settings ≡ decoder.old.settings }
    ensures stays { decoder.new.found.said.frame ≡ decoder.old.found.said.frame }
{
    let decoded = decoder.decode_partial_lines();
    let has_failed = decoder.has_read_failed();
    match decoded {
        Ok(shown) => refuse_of_reader(shown, has_failed),
        Err(error) => Err(reason_after(error, has_failed)),
    }
}

/// Decodes the whole stream of a decoder, whose header was read.
fn decode_whole<R: Read + Drop>(decoder: &mut Decoder<R>) -> Result<PartialLines>
    requires header { decoder.old.stage ≡ HeaderRead }
    ensures gives { IfOk result
        (λ p. GivesRest Whole decoder.old decoder.new (concat p.lines) p.fault) }
    ensures rows { IfOk result (λ p. (info : ImageInfo)
        → option_map (info_by decoder.old.settings) decoder.new.found.said.frame ≡ Some info
        → p.whole_rows ≡ info.height) }
    ensures framed { IfOk result (λ _. is_some decoder.new.found.said.frame ≡ true) }
    ensures lines { IfOk result (λ p. AreLinesOf (shape_in decoder.new) p.lines) }
    ensures counted { IfOk result (λ _. IsCounted (shape_in decoder.new)) }
    ensures refused { decoder.old.source.known ≡ true → IfErr result (NamesOrOutside
        (given_rest Whole decoder.old.settings decoder.old.found decoder.old.source.bytes)) }
    ensures settings { decoder.new.settings ≡ decoder.old.settings }
    ensures stays { decoder.new.found.said.frame ≡ decoder.old.found.said.frame }
{
    let lines = decoder.decode_lines()?;
    let info = decoder.info().unwrap();
    Ok(PartialLines {
        lines,
        whole_rows: info.height,
        fault: None,
    })
}

/// Decodes as much as is wanted of the stream of a decoder, whose header was read, and returns the
/// lines of the picture, how many of them are complete, and its first fault. All lines of a whole
/// stream are complete, and it has no fault.
pub(crate) fn decode_wanted_lines<R: Read + Drop>(
    decoder: &mut Decoder<R>,
    extent: Extent,
) -> Result<PartialLines>
    requires header { decoder.old.stage ≡ HeaderRead }
    ensures gives { IfOk result
        (λ p. GivesRest extent decoder.old decoder.new (concat p.lines) p.fault) }
    ensures rows { IfOk result (λ p. (info : ImageInfo)
        → option_map (info_by decoder.old.settings) decoder.new.found.said.frame ≡ Some info
        → CountsRest extent decoder.old info.height p.whole_rows) }
    ensures framed { IfOk result (λ _. is_some decoder.new.found.said.frame ≡ true) }
    ensures lines { IfOk result (λ p. AreLinesOf (shape_in decoder.new) p.lines) }
    ensures counted { IfOk result (λ _. IsCounted (shape_in decoder.new)) }
    ensures refused { decoder.old.source.known ≡ true → IfErr result (NamesOrOutside
        (given_rest extent decoder.old.settings decoder.old.found decoder.old.source.bytes)) }
    ensures settings { decoder.new.settings ≡ decoder.old.settings }
    ensures stays { decoder.new.found.said.frame ≡ decoder.old.found.said.frame }
{
    match extent {
        Extent::Whole => decode_whole(decoder),
        Extent::Partial => decode_partial(decoder),
    }
}
