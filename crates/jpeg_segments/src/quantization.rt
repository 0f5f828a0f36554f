//! Quantization tables.
ghost use Rattle.std.specs.Prelude.{◌≡◌, ◌≤◌, ◌<◌, IfOk, true, Err};
ghost use Rattle.jpeg_bits.specs.Reading.{Answers, Malformed, NamesFormat, times};
ghost use Rattle.jpeg_bits.specs.Reading.{next_byte, next_u16};
ghost use Rattle.jpeg_bits.specs.declared.error.Error.TheVariants.{OutOfMemory};
ghost use Rattle.jpeg_segments.specs.Quantization.{value_at, defined_table_at, dqt_at};
ghost use Rattle.jpeg_segments.specs.Parts.{table_at};

use jpeg_bits::error::{Error, Result, format_error_of};
use jpeg_bits::source::Source;
use jpeg_bits::source::reads::{read_exact, read_length, read_u8, read_u16_be};
use std::alloc::Global;
use std::io::Read;

/// Reads values of 16 bits.
fn read_wide_values<R: Read + Drop>(alloc: Global, source: &mut Source<R>) -> Result<[u16; 64]>
    ensures answers { Answers (λ v. v) (times 64 next_u16) source.old result source.new }
    ensures room { source.old.known ≡ true → result ≡ Err OutOfMemory
        → times 64 next_u16 source.old.bytes ≡ Err Malformed }
{
    let mut values = [0u16; 64];
    for i in 0..64 {
        values[i] = read_u16_be(alloc, source)?;
    }
    Ok(values)
}

/// Returns the bytes as numbers of 16 bits.
fn widened(bytes: &[u8; 64]) -> [u16; 64]
    ensures { result ≡ bytes.now }
{
    let mut values = [0u16; 64];
    for i in 0..64 {
        values[i] = u16::from(bytes[i]);
    }
    values
}

/// Reads values of 8 bits, all at once.
fn read_byte_values<R: Read + Drop>(alloc: Global, source: &mut Source<R>) -> Result<[u16; 64]>
    ensures answers { Answers (λ v. v) (times 64 next_byte) source.old result source.new }
    ensures room { source.old.known ≡ true → result ≡ Err OutOfMemory
        → times 64 next_byte source.old.bytes ≡ Err Malformed }
{
    let mut bytes = [0u8; 64];
    read_exact(alloc, source, &mut bytes)?;
    Ok(widened(&bytes))
}

#[tactic(auto, unfolding(crate::proofs::Rules::widths), using(crate::proofs::Rules::values))]
fn read_values<R: Read + Drop>(
    alloc: Global,
    source: &mut Source<R>,
    is_wide: bool,
) -> Result<[u16; 64]>
    ensures answers { Answers (λ v. v) (times 64 (value_at is_wide)) source.old result source.new }
    ensures room { source.old.known ≡ true → result ≡ Err OutOfMemory
        → times 64 (value_at is_wide) source.old.bytes ≡ Err Malformed }
{
    if is_wide {
        read_wide_values(alloc, source)
    } else {
        read_byte_values(alloc, source)
    }
}

/// Returns the refusal of a table for this destination that has a 0.
#[cold]
#[inline(never)]
fn zero_error(alloc: Global, destination: usize, values: &[u16; 64]) -> Error
    ensures { NamesFormat result }
{
    let index = values.iter().position(|value| *value == 0).unwrap_or(0);
    format_error_of(format!(in alloc;
        "element {index} of quantization table {destination} is 0, expected at least 1"
    ))
}

#[inline(never)]
#[tactic(auto, unfolding(crate::specs::Parts::table_at))]
fn read_table<R: Read + Drop>(
    alloc: Global,
    source: &mut Source<R>,
    is_wide: bool,
    destination: usize,
) -> Result<[u16; 64]>
    ensures answers { Answers (λ v. v) (table_at is_wide) source.old result source.new }
    ensures room { source.old.known ≡ true → result ≡ Err OutOfMemory
        → table_at is_wide source.old.bytes ≡ Err Malformed }
{
    let values = read_values(alloc, source, is_wide)?;
    if values.contains(&0) {
        return Err(zero_error(alloc, destination, &values));
    }
    Ok(values)
}

/// Returns the refusal of a table of this precision and destination, for which `left` bytes are
/// left in the segment: the first of them that breaks a rule.
#[cold]
#[inline(never)]
fn table_error(alloc: Global, precision: u8, index: usize, left: u16) -> Error
    ensures { NamesFormat result }
{
    format_error_of(if precision > 1 {
        format!(in alloc; "quantization table element precision {precision}, expected 0 or 1")
    } else if index > 3 {
        format!(in alloc; "quantization table destination {index}, expected 0 to 3")
    } else {
        let size = 65 + 64 * u16::from(precision);
        format!(in alloc;
            "{left} bytes left in DQT for quantization table {index}, expected {size}"
        )
    })
}

/// Reads the next table, with `left` bytes left in the segment: its size and destination, and the
/// table.
#[inline(never)]
#[tactic(auto, using(crate::proofs::PartsOfSegments::parts))]
fn read_defined_table<R: Read + Drop>(
    alloc: Global,
    source: &mut Source<R>,
    left: u16,
) -> Result<(u16, usize, [u16; 64])>
    ensures answers { Answers (λ t. t) (defined_table_at left) source.old result source.new }
    ensures room { source.old.known ≡ true → result ≡ Err OutOfMemory
        → defined_table_at left source.old.bytes ≡ Err Malformed }
    ensures destination { IfOk result (λ t. (t.0 ≤ left) × (0 < t.0) × (t.1 < 4)) }
{
    let byte = read_u8(alloc, source)?;
    let precision = byte / 16;
    let index = usize::from(byte % 16);
    let size = 65 + 64 * u16::from(precision);
    if precision > 1 || index > 3 || left < size {
        return Err(table_error(alloc, precision, index, left));
    }
    let table = read_table(alloc, source, precision == 1, index)?;
    Ok((size, index, table))
}

/// Reads the quantization tables of a segment (T.81, B.2.4.1), each in zigzag order, by their
/// destinations 0 to 3. Of two tables for one destination the later stays.
///
/// Errors: `Format` if the length, a precision, a destination or a value of 0 breaks a rule; `Io`
/// if the bytes end or a read fails; `OutOfMemory`.
#[inline(never)]
#[tactic(auto, unfolding(crate::proofs::Rules::tables_read), using(crate::proofs::Rules::tables))]
pub fn parse_dqt<R: Read + Drop>(
    alloc: Global,
    reader: &mut Source<R>,
) -> Result<[Option<[u16; 64]>; 4]>
    ensures answers { Answers (λ v. v) dqt_at reader.old result reader.new }
    ensures room { reader.old.known ≡ true → result ≡ Err OutOfMemory
        → dqt_at reader.old.bytes ≡ Err Malformed }
{
    let mut left = read_length(alloc, reader)?;
    let mut tables = [None; 4];
    while left > 0 {
        let (size, index, table) = read_defined_table(alloc, reader, left)?;
        tables[index] = Some(table);
        left -= size;
    }
    Ok(tables)
}
