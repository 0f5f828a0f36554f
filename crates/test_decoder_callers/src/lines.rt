//! Callers that get the lines of a picture, and that write them.
ghost use Rattle.std.specs.Prelude.{◌≡◌, ◌<◌, [], IfOk, MatchResult, length, slice_index_or};
ghost use Rattle.std.specs.List.{concat};
ghost use Rattle.jpeg_bits.specs.Reading.{Answers};
ghost use Rattle.jpeg_bits.specs.declared.error.Error.TheVariants.{OutOfMemory};
ghost use Rattle.jpeg_decoder.specs.Bytes.{AreLinesOf, HaveBytes, shape_in};
ghost use Rattle.jpeg_meaning.specs.States.{IsReading, ahead};
ghost use Rattle.jpeg_meaning.specs.Stream.{told_of};

use jpeg_decoder::error::Result;
use jpeg_decoder::{Decoder, Lines};
use std::alloc::Global;
use std::io::Read;

/// Calls `Decoder::decode_lines`, and says what the lines together mean.
pub fn lines_by_meaning<R: Read + Drop>(decoder: &mut Decoder<R>) -> Result<Lines>
    ensures { IsReading decoder.old.stage
        → Answers (λ l. (told_of decoder.new.found.said, concat l))
        (ahead decoder.old.stage decoder.old.settings decoder.old.found) decoder.old.source result
        decoder.new.source }
{
    decoder.decode_lines()
}

/// Calls `Decoder::decode_lines`, and says how many lines there are and how long each is.
pub fn lines_by_size<R: Read + Drop>(decoder: &mut Decoder<R>) -> Result<Lines>
    ensures { IfOk result (λ l. AreLinesOf (shape_in decoder.new) l) }
{
    decoder.decode_lines()
}

/// Calls `Lines::height`.
pub fn height(lines: &Lines) -> usize
    ensures { result ≡ length lines.now }
{
    lines.height()
}

/// Calls `Lines::line_bytes`.
pub fn line_bytes(lines: &Lines) -> usize
    ensures { HaveBytes result lines.now }
{
    lines.line_bytes()
}

/// Calls `Lines::write_line`.
pub fn line(lines: &mut Lines, row: usize, bytes: &mut [u8])
    requires row { row < length lines.old }
    requires room { length bytes.old ≡ length (slice_index_or lines.old row []) }
    ensures line { bytes.new ≡ slice_index_or lines.old row [] }
    ensures same { lines.new ≡ lines.old }
{
    lines.write_line(row, bytes)
}

/// Calls `Lines::into_picture`.
pub fn picture(alloc: Global, lines: Lines) -> Result<Vec<u8>>
    ensures { MatchResult result (λ v. v.items ≡ concat lines) (λ e. e ≡ OutOfMemory) }
{
    lines.into_picture(alloc)
}
