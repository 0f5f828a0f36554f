//! Callers of the program's engine.
ghost use Rattle.std.specs.Prelude.{◌≡◌, ℕ, List, None, IsErr, IsSomeAnd, OnOk};
ghost use Rattle.std.specs.Io.KnownBytes.{Appends, Keeps};
ghost use Rattle.jpeg_meaning.specs.Output.{Tells, output_of};

use jpeg_decoder::error::Result;
use jpeg_decoder::run;
use std::alloc::Global;
use std::io::{Read, Write};

/// Calls `run::run`, and says what an Ok wrote.
pub fn run_by_ok<R: Read + Drop, W: Write>(alloc: Global, reader: R, writer: &mut W) -> Result<()>
    ensures { (bytes : List ℕ) → Tells (R.remaining reader) bytes
        → OnOk result (IsSomeAnd (output_of bytes) (Appends (W.contents writer.old)
        (W.contents writer.new))) }
{
    run::run(alloc, reader, writer)
}

/// Calls `run::run`, and says what becomes of a stream without a meaning.
pub fn run_by_none<R: Read + Drop, W: Write>(alloc: Global, reader: R, writer: &mut W) -> Result<()>
    ensures { (bytes : List ℕ) → Tells (R.remaining reader) bytes
        → output_of bytes ≡ None → IsErr result
        × Keeps (W.contents writer.old) (W.contents writer.new) }
{
    run::run(alloc, reader, writer)
}

/// Runs by the clause `ok`.
pub fn printed<R: Read + Drop, W: Write>(alloc: Global, reader: R, writer: &mut W) -> Result<()>
    ensures { (bytes : List ℕ) → Tells (R.remaining reader) bytes
        → OnOk result (IsSomeAnd (output_of bytes) (Appends (W.contents writer.old)
        (W.contents writer.new))) }
{
    run_by_ok(alloc, reader, writer)
}

/// Runs by the clause `none`.
pub fn refused<R: Read + Drop, W: Write>(alloc: Global, reader: R, writer: &mut W) -> Result<()>
    ensures { (bytes : List ℕ) → Tells (R.remaining reader) bytes
        → output_of bytes ≡ None → IsErr result
        × Keeps (W.contents writer.old) (W.contents writer.new) }
{
    run_by_none(alloc, reader, writer)
}

/// Calls `run::report`, for the status of a success.
pub fn status<W: Write>(alloc: Global, outcome: &Result<()>, writer: &mut W) -> u8
    ensures { OnOk outcome.now (result ≡ 0) }
{
    run::report(alloc, outcome, writer)
}
