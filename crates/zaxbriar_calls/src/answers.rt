//! What a call returns, and the text of a refusal.
ghost use Rattle.std.specs.Prelude.{◌≡◌, ◌≤◌, IfOk, IfErr, IsErrAnd, replicate, slice_index};
ghost use Rattle.zaxbriar_calls.specs.Faults.{IsOwn, IsPart, StandsFor, error_code, fault_code};
ghost use Rattle.zaxbriar_calls.specs.Faults.{outcome_fault, outcome_rows, padded, status_of};
ghost use Rattle.zaxbriar_calls.specs.Faults.{with_passes};

use jpeg_decoder::Decoder;
use jpeg_decoder::error::Error;
use jpeg_orientation::areas::Area;
use std::alloc::Global;
use std::fmt;
use std::io::Read;

pub const OK: u32 = 0;

pub const MALFORMED: u32 = 1;

pub const UNSUPPORTED: u32 = 2;

pub const TRUNCATED: u32 = 3;

pub const NO_MEMORY: u32 = 4;

pub const NO_ROOM: u32 = 5;

pub const BAD_ARGUMENT: u32 = 6;

pub const NO_DATA: u32 = 7;

pub const TOO_LARGE: u32 = 8;

pub const PARTIAL: u32 = 9;

pub const TOO_MANY_PASSES: u32 = 10;

pub const END: u32 = 11;

pub const WAITING: u32 = 12;

/// The bytes of a refusal's text, with the zero that ends it.
pub const TEXT_BYTES: usize = 112;

/// What is wrong with the arguments of a call.
#[derive(Clone, Copy)]
pub enum Misuse {
    /// This is, whatever the picture is, or its lines don't fit it.
    Of(&'static str),
    /// The part that is asked for isn't inside the picture, which has this width and this height.
    Crop(Area, u16, u16),
}

impl fmt::Display for Misuse {
    fn fmt<W: fmt::Write>(&self, f: &mut fmt::Formatter<W>) -> fmt::Result {
        match *self {
            Misuse::Of(reason) => write!(f, "{reason}"),
            Misuse::Crop(crop, width, height) => write!(
                f,
                "the crop {}x{}+{}+{} isn't inside the picture, which has {width}x{height} pixels",
                crop.width, crop.height, crop.left, crop.top
            ),
        }
    }
}

/// Why a call isn't OK: a refusal of the stream, or of the call.
#[derive(Drop)]
pub enum Refusal {
    Stream(Error),
    /// The fault of a stream of which a part was written, what it brings up to that fault, and how
    /// many rows of that part are complete.
    Part(Error, u16),
    /// A read failed, or was interrupted without end. It never happens over bytes in memory.
    Reader,
    Argument(Misuse),
    NoRoom,
    TooLarge,
}

impl From<Error> for Refusal {
    ghost use Rattle.std.specs.Prelude.{◌≡◌};
    ghost use Rattle.zaxbriar_calls.specs.declared.answers.Refusal.TheVariants.{Stream};

    ghost from_gives = { λ e r. r ≡ Stream e };

    fn from(error: Error) -> Refusal {
        Refusal::Stream(error)
    }
}

/// Returns the refusal for an error of a decoder.
pub fn refusal_of<R: Read + Drop>(decoder: &Decoder<R>, error: Error) -> Refusal
    ensures { StandsFor error decoder.now.source.failed result }
{
    let is_of_reader = match &error {
        // A read that was interrupted without end.
        Error::Format(text) => text.is_empty(),
        Error::Io(_) => decoder.has_read_failed(),
        Error::Unsupported(_) | Error::Internal(_) | Error::OutOfMemory => false,
    };
    if is_of_reader {
        Refusal::Reader
    } else {
        Refusal::Stream(error)
    }
}

/// Returns the number of the refusal of a stream for an error.
fn error_code(error: &Error) -> u32
    ensures { result ≡ error_code error.now }
{
    match error {
        Error::Format(_) => MALFORMED,
        Error::Unsupported(_) => UNSUPPORTED,
        Error::Io(_) => TRUNCATED,
        Error::OutOfMemory => NO_MEMORY,
        Error::Internal(_) => BAD_ARGUMENT,
    }
}

/// Returns the number of an answer, which is TOO_MANY_PASSES for a broken rule where the decoder
/// says that it refused a scan for its blocks.
pub fn with_passes(exceeded: bool, code: u32) -> u32
    ensures { result ≡ with_passes exceeded code }
{
    if exceeded && code == MALFORMED {
        TOO_MANY_PASSES
    } else {
        code
    }
}

/// Returns the number of a refusal.
pub fn code_of(refusal: &Refusal) -> u32
    ensures number { result ≡ fault_code refusal.now }
    ensures most { result ≤ 9 }
    ensures some { result ≡ 0 → ⊥ }
    ensures data { result ≡ 7 → ⊥ }
    ensures part { result ≡ 9 → IsPart refusal.now }
{
    match refusal {
        Refusal::Stream(error) => error_code(error),
        Refusal::Part(..) => PARTIAL,
        Refusal::Reader => NO_MEMORY,
        Refusal::Argument(_) => BAD_ARGUMENT,
        Refusal::NoRoom => NO_ROOM,
        Refusal::TooLarge => TOO_LARGE,
    }
}

/// Returns the number of the fault of a stream of which a part was written, or 0.
pub fn outcome_fault<T>(outcome: &std::result::Result<T, Refusal>) -> u32
    ensures { result ≡ outcome_fault outcome.now }
{
    match outcome {
        Err(Refusal::Part(error, _)) => error_code(error),
        _ => 0,
    }
}

/// Returns how many rows are complete of a picture that was written, or of a part of it, or 0.
pub fn outcome_rows(outcome: &std::result::Result<u16, Refusal>) -> u16
    ensures { result ≡ outcome_rows outcome.now }
{
    match outcome {
        Ok(rows) => *rows,
        Err(Refusal::Part(_, rows)) => *rows,
        Err(_) => 0,
    }
}

/// Copies as much of a text as fits, and fills the rest with zeros, at least one.
fn put_text(text: &[u8], buffer: &mut [u8; TEXT_BYTES])
    ensures { buffer.new ≡ padded text.now }
{
    let mut line = [0; TEXT_BYTES];
    let count = text.len().min(TEXT_BYTES - 1);
    line[..count].copy_from_slice(&text[..count]);
    *buffer = line;
}

/// Writes the text of a refusal.
fn put_refusal(alloc: Global, refusal: &Refusal, text: &mut [u8; TEXT_BYTES])
    ensures ended { slice_index text.new 111 ≡ 0 }
    ensures said { IsOwn refusal.now → slice_index text.new 0 ≡ 0 → ⊥ }
{
    match refusal {
        Refusal::Stream(error) | Refusal::Part(error, _) => match format!(in alloc; "{error}") {
            Ok(line) => put_text(line.as_bytes(), text),
            Err(_) => put_text(b"out of memory", text),
        },
        Refusal::Reader => put_text(b"the bytes can't be read", text),
        Refusal::Argument(misuse) => match format!(in alloc; "{misuse}") {
            Ok(line) => put_text(line.as_bytes(), text),
            Err(_) => put_text(b"out of memory", text),
        },
        Refusal::NoRoom => put_text(b"the buffer is too small for the picture", text),
        Refusal::TooLarge => put_text(b"the picture is above a limit of the options", text),
    }
}

/// Returns the number of an outcome, and writes the text of a refusal, or none.
pub fn answer<T: Drop>(
    alloc: Global,
    outcome: std::result::Result<T, Refusal>,
    text: &mut [u8; TEXT_BYTES],
) -> u32
    ensures code { result ≡ status_of outcome }
    ensures text { IfOk outcome (λ _. text.new ≡ replicate 112 0) }
    ensures ended { slice_index text.new 111 ≡ 0 }
    ensures said { IfErr outcome (λ r. IsOwn r → slice_index text.new 0 ≡ 0 → ⊥) }
    ensures most { result ≤ 9 }
    ensures data { result ≡ 7 → ⊥ }
    ensures part { result ≡ 9 → IsErrAnd outcome IsPart }
{
    match outcome {
        Ok(_) => {
            *text = [0; TEXT_BYTES];
            OK
        }
        Err(refusal) => {
            put_refusal(alloc, &refusal, text);
            code_of(&refusal)
        }
    }
}
