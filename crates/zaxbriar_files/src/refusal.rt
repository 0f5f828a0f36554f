//! Why a file isn't decoded or described.
ghost use Rattle.std.specs.Prelude.{◌≡◌};
ghost use Rattle.jpeg_bits.specs.declared.error.Error.TheVariants.{Io, OutOfMemory};
ghost use Rattle.zaxbriar_files.specs.declared.refusal.Refusal.TheVariants.{Decoding};

use crate::formats::FileFormat;
use jpeg_bits::error::Error;
use jpeg_orientation::areas::Area;
use std::alloc::AllocError;
use std::{fmt, io};

/// What is said of a name that is not UTF-8 text.
pub const NOT_TEXT: &str = "the name is not UTF-8 text";

/// Why a file isn't decoded or described.
#[derive(Drop)]
pub enum Refusal {
    /// The decoder refuses it, or it can't be read, or there is no memory, or the output can't be
    /// written.
    Decoding(Error),
    /// It is a file of another format.
    Format(FileFormat),
    /// Its name is not UTF-8 text.
    Name,
    /// It is to be a PNG file, and its picture is CMYK, which PNG doesn't have.
    Cmyk,
    /// The part of its picture that is to be written isn't inside it.
    Crop {
        /// That part.
        area: Area,
        /// How wide the whole picture is that would be written.
        width: u16,
        /// How high it is.
        height: u16,
    },
    /// Its picture has more pixels than are allowed.
    Pixels {
        /// How many it has.
        pixels: u64,
        /// How many are allowed.
        most: u64,
    },
    /// Its picture takes more memory than is allowed.
    Memory {
        /// How many bytes it takes.
        bytes: u64,
        /// How many are allowed.
        most: u64,
        /// Whether that is the machine's share, which no option has set.
        is_share: bool,
    },
}

/// What the decoder's refusal of a scan for the limit of blocks ends with.
const ABOVE_PASSES: &str = "that the limit leaves";

/// An error of the decoder, and which option of the program lifts the limit that it names.
#[derive(Clone, Copy)]
pub struct Reason<'a>(pub &'a Error);

impl fmt::Display for Reason<'_> {
    fn fmt<W: fmt::Write>(&self, f: &mut fmt::Formatter<W>) -> fmt::Result {
        let error = self.0;
        match error {
            Error::Format(text) if text.ends_with(ABOVE_PASSES) => {
                write!(f, "{error}, which --max-passes sets")
            }
            _ => write!(f, "{error}"),
        }
    }
}

impl fmt::Display for Refusal {
    fn fmt<W: fmt::Write>(&self, f: &mut fmt::Formatter<W>) -> fmt::Result {
        match self {
            Refusal::Decoding(error) => write!(f, "{}", Reason(error)),
            Refusal::Format(format) => write!(f, "a {} file, not a JPEG file", format.name()),
            Refusal::Name => write!(f, "{NOT_TEXT}"),
            Refusal::Cmyk => write!(f, "PNG has no CMYK: write PAM"),
            Refusal::Crop {
                area: Area {
                    left,
                    top,
                    width: columns,
                    height: lines,
                },
                width,
                height,
            } => {
                write!(
                    f,
                    "the picture is {width}x{height}, and --crop {columns}x{lines}+{left}+{top} \
                    isn't inside it"
                )
            }
            Refusal::Pixels { pixels, most } => {
                write!(
                    f,
                    "the picture has {pixels} pixels, and --max-pixels is {most}"
                )
            }
            Refusal::Memory {
                bytes,
                most,
                is_share: false,
            } => {
                write!(
                    f,
                    "the picture takes {bytes} bytes, and --max-memory is {most}"
                )
            }
            Refusal::Memory {
                bytes,
                most,
                is_share: true,
            } => {
                write!(
                    f,
                    "the picture takes {bytes} bytes, and half of the machine's memory is {most}; \
                    --max-memory {bytes} allows it"
                )
            }
        }
    }
}

impl From<Error> for Refusal {
    ghost from_gives = { λ e r. r ≡ Decoding e };

    fn from(error: Error) -> Refusal {
        Refusal::Decoding(error)
    }
}

impl From<io::Error> for Refusal {
    ghost from_gives = { λ e r. r ≡ Decoding (Io e) };

    fn from(error: io::Error) -> Refusal {
        Refusal::Decoding(Error::from(error))
    }
}

impl From<AllocError> for Refusal {
    ghost from_gives = { λ _ r. r ≡ Decoding OutOfMemory };

    fn from(error: AllocError) -> Refusal {
        Refusal::Decoding(Error::from(error))
    }
}
