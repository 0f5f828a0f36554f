//! Reads of a source: bytes, numbers and skips.
ghost use Rattle.std.specs.Prelude.{◌≡◌, ◌<◌, true, Err, IfOk, length};
ghost use Rattle.jpeg_bits.specs.Reading.{Answers, IsShort, Malformed, next_byte, next_u16};
ghost use Rattle.jpeg_bits.specs.Reading.{NamesFormat, length_at, skip_at, times};
ghost use Rattle.jpeg_bits.specs.declared.error.Error.TheVariants.{OutOfMemory};

use crate::error::{Error, Result, format_error_of};
use crate::source::Source;
use std::alloc::Global;
use std::io::Read;

/// Reads the next byte. The error is `Io` if the bytes end or a read fails.
#[inline(always)]
pub fn read_u8<R: Read + Drop>(alloc: Global, source: &mut Source<R>) -> Result<u8>
    ensures answers { Answers (λ b. b) next_byte source.old result source.new }
    ensures room { source.old.known ≡ true → result ≡ Err OutOfMemory
        → next_byte source.old.bytes ≡ Err Malformed }
    ensures short { IsShort source.old }
{
    let mut buffer = [0u8];
    source.read_some(alloc, &mut buffer)?;
    Ok(buffer[0])
}

/// Reads the next two bytes as a number, the higher first (T.81, B.1.1.1). The errors are those of
/// `read_u8`.
#[inline(always)]
#[tactic(auto, unfolding(crate::specs::Reading::next_u16))]
pub fn read_u16_be<R: Read + Drop>(alloc: Global, source: &mut Source<R>) -> Result<u16>
    ensures answers { Answers (λ n. n) next_u16 source.old result source.new }
    ensures room { source.old.known ≡ true → result ≡ Err OutOfMemory
        → next_u16 source.old.bytes ≡ Err Malformed }
{
    match source.take_two() {
        Some((high, low)) => Ok(256 * u16::from(high) + u16::from(low)),
        None => read_u16_by_bytes(alloc, source),
    }
}

/// Reads the next two bytes as `read_u16_be` does, where they weren't both read ahead.
#[inline(never)]
#[tactic(auto, unfolding(crate::specs::Reading::next_u16))]
fn read_u16_by_bytes<R: Read + Drop>(alloc: Global, source: &mut Source<R>) -> Result<u16>
    ensures answers { Answers (λ n. n) next_u16 source.old result source.new }
    ensures room { source.old.known ≡ true → result ≡ Err OutOfMemory
        → next_u16 source.old.bytes ≡ Err Malformed }
{
    let high = read_u8(alloc, source)?;
    let low = read_u8(alloc, source)?;
    Ok(256 * u16::from(high) + u16::from(low))
}

/// Reads a length field of two bytes, which counts itself (T.81, B.1.1.4), and returns how many
/// bytes follow it. The error is `Format` if the field is below 2; the others are those of
/// `read_u8`.
#[tactic(auto, unfolding(crate::specs::Reading::length_at))]
pub fn read_length<R: Read + Drop>(alloc: Global, source: &mut Source<R>) -> Result<u16>
    ensures answers { Answers (λ n. n) length_at source.old result source.new }
    ensures room { source.old.known ≡ true → result ≡ Err OutOfMemory
        → length_at source.old.bytes ≡ Err Malformed }
{
    let length = read_u16_be(alloc, source)?;
    if length < 2 {
        return Err(length_error(alloc, length));
    }
    Ok(length - 2)
}

/// Returns the refusal of a length field that doesn't count itself.
#[cold]
#[inline(never)]
fn length_error(alloc: Global, length: u16) -> Error
    ensures { NamesFormat result }
{
    format_error_of(format!(in alloc; "segment length {length}, expected at least 2"))
}

/// Fills the buffer with the next bytes, in as many reads as the reader needs for it. The errors
/// are those of `read_u8`; the content of the buffer is then unspecified.
#[inline(always)]
#[tactic(auto, using(crate::proofs::Rules::exact))]
pub fn read_exact<R: Read + Drop>(
    alloc: Global,
    source: &mut Source<R>,
    buffer: &mut [u8],
) -> Result<()>
    ensures len { length buffer.new ≡ length buffer.old }
    ensures answers { Answers (λ _. buffer.new) (times (length buffer.old) next_byte) source.old
        result source.new }
    ensures room { source.old.known ≡ true → result ≡ Err OutOfMemory
        → times (length buffer.old) next_byte source.old.bytes ≡ Err Malformed }
{
    let mut filled = 0;
    while filled < buffer.len() {
        filled += source.read_some(alloc, &mut buffer[filled..])?;
    }
    Ok(())
}

/// Reads the next `count` bytes. The error is `OutOfMemory` if there is no room for them; the
/// others are those of `read_u8`.
pub fn read_bytes<R: Read + Drop>(
    alloc: Global,
    source: &mut Source<R>,
    count: u16,
) -> Result<Vec<u8>>
    ensures answers { Answers (λ v. v.items) (times count next_byte) source.old result source.new }
    ensures length { IfOk result (λ v. length v.items ≡ count) }
{
    let mut bytes = vec![in alloc; 0; usize::from(count)]?;
    read_exact(alloc, source, &mut bytes)?;
    Ok(bytes)
}

/// Skips `count` bytes, as many at once as the buffer has room for. The errors are those of
/// `read_u8`.
#[tactic(auto, using(crate::proofs::Rules::passed))]
fn skip_by<R: Read + Drop>(
    alloc: Global,
    source: &mut Source<R>,
    count: u16,
    buffer: &mut [u8],
) -> Result<()>
    requires { 0 < length buffer.old }
    ensures answers { Answers (λ u. u) (skip_at count) source.old result source.new }
    ensures room { source.old.known ≡ true → result ≡ Err OutOfMemory
        → skip_at count source.old.bytes ≡ Err Malformed }
{
    let mut left = usize::from(count);
    while left > 0 {
        let step = left.min(buffer.len());
        read_exact(alloc, source, &mut buffer[..step])?;
        left -= step;
    }
    Ok(())
}

/// Skips `count` bytes. The errors are those of `read_u8`.
#[inline(always)]
#[tactic(auto, using(crate::proofs::Rules::passed))]
pub fn skip<R: Read + Drop>(alloc: Global, source: &mut Source<R>, count: u16) -> Result<()>
    ensures answers { Answers (λ u. u) (skip_at count) source.old result source.new }
    ensures room { source.old.known ≡ true → result ≡ Err OutOfMemory
        → skip_at count source.old.bytes ≡ Err Malformed }
{
    if source.pass(usize::from(count)) || count == 0 {
        return Ok(());
    }
    skip_apart(alloc, source, count)
}

/// Skips `count` bytes that weren't all read ahead.
#[inline(never)]
fn skip_apart<R: Read + Drop>(alloc: Global, source: &mut Source<R>, count: u16) -> Result<()>
    ensures answers { Answers (λ u. u) (skip_at count) source.old result source.new }
    ensures room { source.old.known ≡ true → result ≡ Err OutOfMemory
        → skip_at count source.old.bytes ≡ Err Malformed }
{
    skip_by(alloc, source, count, &mut [0; 256])
}
