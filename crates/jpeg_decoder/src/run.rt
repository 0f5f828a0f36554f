//! The program's engine: a stream from a reader, its picture to a writer, and a line for a refusal.
ghost use Rattle.std.specs.Prelude.{◌≡◌, ℕ, List, Option, Some, None, Err, IsSome};
ghost use Rattle.jpeg_decoder.specs.Begun.{begun};
ghost use Rattle.std.specs.Prelude.{IsSomeAnd, OnOk, OnErr, IfErr, IfOk, IsErr, string_bytes};
ghost use Rattle.jpeg_meaning.specs.States.{IsOfBytes};
ghost use Rattle.std.specs.Io.KnownBytes.{Appends, Keeps};
ghost use Rattle.jpeg_bits.specs.declared.error.Error.TheVariants.{OutOfMemory};
ghost use Rattle.jpeg_meaning.specs.Output.{output_of, header_line_of, name_of, Tells};
ghost use Rattle.jpeg_meaning.specs.Output.{TakesBeginning};
ghost use Rattle.jpeg_meaning.specs.Output.{IsOutsideOrMemory, NamesOrOutside};
ghost use Rattle.jpeg_meaning.specs.PrintedImages.{PrintsImages};

mod lines;
mod writes;

use crate::decoder::{Decoder, ImageInfo, PixelFormat};
pub use crate::run::lines::write_lines;
use jpeg_bits::error::Result;
use std::alloc::{AllocError, Global};
use std::io::{Read, Write};

/// Returns the name of a format in the header line.
fn format_name(format: PixelFormat) -> &'static str
    ensures { result.now ≡ name_of format }
{
    match format {
        PixelFormat::L8 => "L8",
        PixelFormat::L16 => "L16",
        PixelFormat::RGB24 => "RGB24",
        PixelFormat::CMYK32 => "CMYK32",
    }
}

/// Returns the header line: width, height and format, with spaces between, and a line feed.
fn info_line(alloc: Global, info: ImageInfo) -> std::result::Result<String, AllocError>
    ensures { IfOk result (λ line. string_bytes line ≡ header_line_of (Some info)) }
{
    let width = info.width;
    let height = info.height;
    let format = format_name(info.pixel_format);
    format!(in alloc; "{width} {height} {format}\n")
}

/// Returns the header line, if there is a frame.
fn header_line(alloc: Global, info: Option<ImageInfo>) -> std::result::Result<String, AllocError>
    ensures { IfOk result (λ line. string_bytes line ≡ header_line_of info) }
{
    match info {
        Some(info) => info_line(alloc, info),
        None => Ok(String::new(alloc)),
    }
}

/// Decodes the stream of a new decoder, and writes what `run` writes.
fn print<R: Read + Drop, W: Write>(
    alloc: Global,
    decoder: &mut Decoder<R>,
    writer: &mut W,
) -> Result<()>
    ensures images { (remaining : Option (List ℕ)) → decoder.old ≡ begun remaining
        → PrintsImages remaining (W.contents writer.old) result (W.contents writer.new) }
    ensures ok { (remaining : Option (List ℕ)) → decoder.old ≡ begun remaining
        → (bytes : List ℕ) → Tells remaining bytes
        → OnOk result (IsSomeAnd (output_of bytes) (Appends (W.contents writer.old)
        (W.contents writer.new))) }
    ensures none { (remaining : Option (List ℕ)) → decoder.old ≡ begun remaining
        → (bytes : List ℕ) → Tells remaining bytes → output_of bytes ≡ None → IsErr result
        × Keeps (W.contents writer.old) (W.contents writer.new) }
    ensures beginning { (remaining : Option (List ℕ)) → decoder.old ≡ begun remaining
        → (bytes : List ℕ) → Tells remaining bytes
        → (text : List ℕ) → output_of bytes ≡ Some text
        → TakesBeginning (W.contents writer.old) (W.contents writer.new) text }
    ensures refused { (remaining : Option (List ℕ)) → decoder.old ≡ begun remaining
        → (bytes : List ℕ) → Tells remaining bytes
        → IsSome (output_of bytes) → IfErr result IsOutsideOrMemory }
    ensures named { (remaining : Option (List ℕ)) → decoder.old ≡ begun remaining
        → (bytes : List ℕ) → Tells remaining bytes → IfErr result (NamesOrOutside bytes) }
    ensures memory { result ≡ Err OutOfMemory → Keeps (W.contents writer.old)
        (W.contents writer.new) }
    ensures own { (remaining : Option (List ℕ)) → decoder.old ≡ begun remaining
        → IfErr result IsOfBytes }
{
    let mut lines = decoder.decode_lines()?;
    let line = header_line(alloc, decoder.info())?;
    write_lines(alloc, line.as_bytes(), &mut lines, writer)
}

/// Decodes the stream that the reader gives, and writes the header line `WIDTH HEIGHT FORMAT` with
/// a line feed and then the pixels, line by line from the top. Everything is decoded before
/// anything is written.
pub fn run<R: Read + Drop, W: Write>(alloc: Global, reader: R, writer: &mut W) -> Result<()>
    // A stream that is written for the coefficients of an image is printed as their picture.
    ensures images { PrintsImages (R.remaining reader) (W.contents writer.old) result
        (W.contents writer.new) }

    // What an Ok wrote is the line and the pixels.
    ensures ok { (bytes : List ℕ) → Tells (R.remaining reader) bytes
        → OnOk result (IsSomeAnd (output_of bytes) (Appends (W.contents writer.old)
        (W.contents writer.new))) }

    // A stream without a meaning is refused, and nothing is written.
    ensures none { (bytes : List ℕ) → Tells (R.remaining reader) bytes
        → output_of bytes ≡ None → IsErr result
        × Keeps (W.contents writer.old) (W.contents writer.new) }

    // What the writer took is a beginning of the line and the pixels.
    ensures beginning { (bytes : List ℕ) → Tells (R.remaining reader) bytes
        → (text : List ℕ) → output_of bytes ≡ Some text
        → TakesBeginning (W.contents writer.old) (W.contents writer.new) text }

    // A stream with a meaning is refused by the reader, the writer or memory alone.
    ensures refused { (bytes : List ℕ) → Tells (R.remaining reader) bytes
        → IsSome (output_of bytes) → IfErr result IsOutsideOrMemory }

    // Any other refusal names the stream's fault.
    ensures named { (bytes : List ℕ) → Tells (R.remaining reader) bytes
        → IfErr result (NamesOrOutside bytes) }

    // Out of memory comes before anything is written.
    ensures memory { result ≡ Err OutOfMemory → Keeps (W.contents writer.old)
        (W.contents writer.new) }

    // No error is one of a decoder's state.
    ensures own { IfErr result IsOfBytes }
{
    let mut decoder = Decoder::new(alloc, reader)?;
    print(alloc, &mut decoder, writer)
}

/// Reports a refusal in one line, and returns the program's status: 0 for `Ok`, for which nothing
/// is written, and 1 for a refusal, even if the line can't be written.
pub fn report<W: Write>(_alloc: Global, outcome: &Result<()>, writer: &mut W) -> u8
    ensures ok { OnOk outcome.now ((result ≡ 0) × Keeps (W.contents writer.old)
        (W.contents writer.new)) }
    ensures err { OnErr outcome.now (result ≡ 1) }
{
    match outcome {
        Ok(()) => 0,
        Err(error) => {
            // By parts, which allocates nothing: the text may be "out of memory".
            let _ = write!(writer, "jpegraw: {error}\n");
            1
        }
    }
}
