//! The lines of a decoded picture, written some at a time, so that there is no picture in memory
//! beside the decoder's planes.
ghost use Rattle.std.specs.Prelude.{◌≡◌, ◌≤◌, ◌<◌, ◌*◌, ◌^◌, ◌++◌, ℕ, Err, IfErr, OnErr, OnOk};
ghost use Rattle.std.specs.Prelude.{length};
ghost use Rattle.std.specs.List.{concat};
ghost use Rattle.std.specs.Io.KnownBytes.{Appends, Keeps};
ghost use Rattle.jpeg_bits.specs.declared.error.Error.TheVariants.{OutOfMemory};
ghost use Rattle.jpeg_meaning.specs.Output.{IsOutside, IsOutsideOrMemory, TakesBeginning};
ghost use Rattle.jpeg_decoder.specs.Bytes.{HaveBytes};
ghost use Rattle.jpeg_decoder.specs.Writes.{StopsByTurns};

use crate::picture::lines::Lines;
use crate::run::writes::{Offered, write_fully};
use jpeg_bits::error::Result;
use std::alloc::Global;
use std::io::Write;

/// How many bytes are written at a time, unless a line has more.
const PIECE_BYTES: usize = 65536;

/// Returns how many lines of this many bytes are written at a time, of a picture of this height.
#[tactic(auto, using(crate::proofs::Pictures::WrittenLines::piece_rules))]
fn lines_at_once(line_bytes: usize, height: usize) -> usize
    ensures some { 1 ≤ result }
    ensures fits { result * line_bytes < 2 ^ 64 }
{
    if line_bytes == 0 || line_bytes > PIECE_BYTES {
        return 1;
    }
    (PIECE_BYTES / line_bytes).min(height.max(1))
}

/// Writes the lines of a picture, of `size` bytes each, through a piece of memory for some of them.
fn write_through<W: Offered>(
    alloc: Global,
    lines: &mut Lines,
    size: usize,
    piece: &mut [u8],
    writer: &mut W,
) -> Result<()>
    requires size { HaveBytes size lines.old }
    requires piece { (count : ℕ) × (0 < count) × (length piece.old ≡ count * size) }
    ensures ok { OnOk result (Appends (W.contents writer.old) (W.contents writer.new)
        (concat lines.old)) }
    ensures err { OnErr result (TakesBeginning (W.contents writer.old) (W.contents writer.new)
        (concat lines.old)) }
    ensures outside { IfErr result IsOutside }
    ensures stops { IfErr result (StopsByTurns W.answers) }
{
    let mut filled = 0;
    for row in 0..lines.height() {
        lines.write_line(row, &mut piece[filled..filled + size]);
        filled += size;
        if filled == piece.len() {
            write_fully(alloc, writer, piece)?;
            filled = 0;
        }
    }
    write_fully(alloc, writer, &piece[..filled])
}

/// Writes some bytes, and then the lines of a picture, of `size` bytes each, from the top.
fn write_headed<W: Offered>(
    alloc: Global,
    head: &[u8],
    lines: &mut Lines,
    size: usize,
    piece: &mut [u8],
    writer: &mut W,
) -> Result<()>
    requires size { HaveBytes size lines.old }
    requires piece { (count : ℕ) × (0 < count) × (length piece.old ≡ count * size) }
    ensures ok { OnOk result (Appends (W.contents writer.old) (W.contents writer.new)
        (head.now ++ concat lines.old)) }
    ensures err { OnErr result (TakesBeginning (W.contents writer.old) (W.contents writer.new)
        (head.now ++ concat lines.old)) }
    ensures outside { IfErr result IsOutside }
    ensures stops { IfErr result (StopsByTurns W.answers) }
{
    write_fully(alloc, writer, head)?;
    write_through(alloc, lines, size, piece, writer)
}

/// Writes some bytes, and then the lines of a picture from the top, several at a time, through
/// memory that is allocated before anything is written.
///
/// Errors: `Io` if a write fails or takes no byte, `OutOfMemory`, and `Format` without a text after
/// 2^64 - 1 interruptions in a row.
pub fn write_lines<W: Write>(
    alloc: Global,
    head: &[u8],
    lines: &mut Lines,
    writer: &mut W,
) -> Result<()>
    // What an Ok wrote is the bytes and the lines.
    ensures ok { OnOk result (Appends (W.contents writer.old) (W.contents writer.new)
        (head.now ++ concat lines.old)) }

    // After an error the writer took a beginning of them.
    ensures err { OnErr result (TakesBeginning (W.contents writer.old) (W.contents writer.new)
        (head.now ++ concat lines.old)) }

    // The error is the writer's, or out of memory, before anything is written.
    ensures outside { IfErr result IsOutsideOrMemory }
    ensures memory { result ≡ Err OutOfMemory → Keeps (W.contents writer.old)
        (W.contents writer.new) }
{
    let size = lines.line_bytes();
    let count = lines_at_once(size, lines.height());
    let mut piece = vec![in alloc; 0; count * size]?;
    write_headed(alloc, head, lines, size, piece.as_mut_slice(), writer)
}
