//! Errors: why a stream can't be decoded.
ghost use Rattle.std.specs.Prelude.{◌≡◌, is_some, true};
ghost use Rattle.jpeg_bits.specs.Refusals.{kept_refusal};
ghost use Rattle.jpeg_bits.specs.Reading.{NamesFormat, NamesEnd};
ghost use Rattle.jpeg_bits.specs.declared.error.Error.TheVariants.{Io, OutOfMemory};

use crate::color_transform::ColorTransform;
use std::alloc::{AllocError, AllocFailed, Global};
use std::io;
use std::io::ErrorKind;

/// A feature of JPEG that is refused by name. A number is what the stream requires.
#[derive(Clone, Debug, PartialEq, Eq, Hash, Drop)]
pub enum UnsupportedFeature {
    /// Hierarchical coding (T.81, Annex J), or a second frame or a differential one.
    Hierarchical,
    /// Arithmetic coding (T.81, Annex D).
    ArithmeticEntropyCoding,
    /// A precision of this many bits per sample.
    SamplePrecision(u8),
    /// A frame of this many components: 0, 2 or more than 4; 255 also stands for more.
    ComponentCount(u8),
    /// A number of lines after the first scan (T.81, B.2.5).
    DNL,
    /// Never returned: kept for callers of the original crate.
    SubsamplingRatio,
    /// Sampling factors that don't divide the greatest ones.
    NonIntegerSubsamplingRatio,
    /// A colour transform that is not supported.
    ColorTransform(ColorTransform),
}

/// Why a stream can't be decoded.
#[derive(Debug, Drop, thiserror::Error)]
pub enum Error {
    /// The stream breaks a rule, which the text names.
    #[error("invalid JPEG format: {0}")]
    Format(String),
    /// The stream needs a feature that is not supported.
    #[error("unsupported JPEG feature: {0:?}")]
    Unsupported(UnsupportedFeature),
    /// A read failed, or the bytes end too soon.
    #[error(transparent)]
    Io(io::Error),
    /// A call that is not allowed in the state the decoder is in.
    #[error("{0}")]
    Internal(&'static str),
    /// An allocation was refused.
    #[error("out of memory")]
    OutOfMemory,
}

/// What a call returns: a value, or why there is none.
pub type Result<T> = std::result::Result<T, Error>;

impl From<io::Error> for Error {
    ghost from_gives = { λ e r. r ≡ Io e };

    fn from(e: io::Error) -> Error {
        Error::Io(e)
    }
}

impl From<AllocError> for Error {
    ghost from_gives = { λ _ r. r ≡ OutOfMemory };

    fn from(_e: AllocError) -> Error {
        Error::OutOfMemory
    }
}

impl<T: Drop> From<AllocFailed<T>> for Error {
    ghost from_gives = { λ _ r. r ≡ OutOfMemory };

    fn from(_e: AllocFailed<T>) -> Error {
        Error::OutOfMemory
    }
}

/// Returns the refusal of a broken rule, with a text that says what was found and what was
/// expected: a `Format`, or `OutOfMemory` if there is no memory for the text.
#[cold]
#[inline(never)]
pub fn format_error(alloc: Global, text: &str) -> Error
    ensures { NamesFormat result }
{
    format_error_of(String::from_str(alloc, text))
}

/// Returns the refusal of a broken rule, with a text that was made for it: a `Format`, or
/// `OutOfMemory` if there was no memory for the text.
#[cold]
#[inline(never)]
pub fn format_error_of(text: std::result::Result<String, AllocError>) -> Error
    ensures { NamesFormat result }
{
    match text {
        Ok(text) => Error::Format(text),
        Err(_) => Error::OutOfMemory,
    }
}

/// Stores `format_error` in `refusal`: a call without an `Error` local needs no space for one.
#[cold]
#[inline(never)]
pub fn set_format_error(alloc: Global, text: &str, refusal: &mut Option<Error>)
    ensures names { NamesFormat (kept_refusal refusal.new) }
    ensures refused { is_some refusal.new ≡ true }
{
    *refusal = Some(format_error(alloc, text));
}

/// Stores the refusal of a difference whose magnitude category is above the greatest.
#[cold]
#[inline(never)]
pub fn set_category_error(alloc: Global, category: u8, greatest: u8, refusal: &mut Option<Error>)
    ensures names { NamesFormat (kept_refusal refusal.new) }
    ensures refused { is_some refusal.new ≡ true }
{
    *refusal = Some(format_error_of(format!(in alloc;
        "difference magnitude category {category}, expected 0 to {greatest}"
    )));
}

/// Returns the refusal of bytes that end too soon: an `Io` of the kind `UnexpectedEof`.
#[cold]
#[inline(never)]
pub fn end_of_bytes() -> Error
    ensures { NamesEnd result }
{
    Error::Io(io::Error::new(ErrorKind::UnexpectedEof, "the file ends too soon"))
}

/// Takes the refusal that a call has stored out of its variable, and returns it.
#[cold]
#[inline(never)]
pub fn take_refusal(refusal: &mut Option<Error>) -> Error
    requires { is_some refusal.old ≡ true }
    ensures { result ≡ kept_refusal refusal.old }
{
    match refusal.take() {
        Some(e) => e,
        None => Error::OutOfMemory,
    }
}
