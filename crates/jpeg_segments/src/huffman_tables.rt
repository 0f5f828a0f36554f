//! Huffman tables.
ghost use Rattle.std.specs.Prelude.{◌≡◌, ◌≤◌, ◌<◌, ◌+◌, true, None, replicate, length, sum, IfOk};
ghost use Rattle.jpeg_bits.specs.Reading.{Answers, NamesFormat, times, next_byte};
ghost use Rattle.jpeg_segments.specs.HuffmanTables.{all_ac, dht_at, greatest_destination};
ghost use Rattle.jpeg_segments.specs.Parts.{dht_onto, symbols_at, table_destination_at};
ghost use Rattle.jpeg_segments.specs.Parts.{table_in_destination_at};

use jpeg_bits::error::{Error, Result, format_error_of};
use jpeg_bits::huffman::{HuffmanTable, HuffmanTableClass};
use jpeg_bits::source::Source;
use jpeg_bits::source::reads::{read_exact, read_length, read_u8};
use std::alloc::{AllocError, Global};
use std::io::Read;

/// The tables of each class, DC and AC, by their destinations 0 to 3.
pub type DefinedTables = (Vec<Option<HuffmanTable>>, Vec<Option<HuffmanTable>>);

/// Reads how many codes each length has, from 1 to 16 bits.
fn read_counts<R: Read + Drop>(alloc: Global, source: &mut Source<R>) -> Result<[u8; 16]>
    ensures { Answers (λ v. v) (times 16 next_byte) source.old result source.new }
{
    let mut counts = [0; 16];
    read_exact(alloc, source, &mut counts)?;
    Ok(counts)
}

fn total(counts: &[u8; 16]) -> u16
    ensures { result ≡ sum counts.now }
{
    let mut total = 0u16;
    for i in 0..16 {
        total += u16::from(counts[i]);
    }
    total
}

/// Reads the symbols of a table of these counts, and the table.
#[tactic(auto, unfolding(crate::specs::Parts::symbols_at))]
fn read_table<R: Read + Drop>(
    alloc: Global,
    source: &mut Source<R>,
    class: HuffmanTableClass,
    counts: &[u8; 16],
    count: u16,
) -> Result<HuffmanTable>
    requires count { sum counts.now ≡ count }
    requires some { 1 ≤ count }
    requires most { count ≤ 256 }
    ensures answers { Answers (λ t. t) (symbols_at class counts.now) source.old result source.new }
    ensures class { IfOk result (λ t. t.class ≡ class) }
{
    let mut symbols = [0u8; 256];
    let symbols = &mut symbols[..usize::from(count)];
    read_exact(alloc, source, symbols)?;
    HuffmanTable::unfilled(alloc, counts, symbols, class)
}

/// The destination of a table: its class, and its index among the four of that class.
#[derive(Clone, Copy)]
struct TableDestination {
    class: HuffmanTableClass,
    index: u8,
}

/// Reads the class and the destination of the next table.
#[tactic(auto, unfolding(crate::specs::Parts::table_destination_at))]
fn read_table_destination<R: Read + Drop>(
    alloc: Global,
    source: &mut Source<R>,
    greatest: u8,
) -> Result<TableDestination>
    requires { greatest ≤ 3 }
    ensures answers { Answers (λ d. (d.class, d.index)) (table_destination_at greatest)
        source.old result source.new }
    ensures index { IfOk result (λ d. d.index ≤ 3) }
{
    let byte = read_u8(alloc, source)?;
    let class = match byte / 16 {
        0 => HuffmanTableClass::DC,
        1 => HuffmanTableClass::AC,
        class => return Err(class_error(alloc, class)),
    };
    let destination = TableDestination {
        class,
        index: byte % 16,
    };
    if destination.index > greatest {
        return Err(destination_error(alloc, destination, greatest));
    }
    Ok(destination)
}

/// Returns the refusal of a table class.
#[cold]
#[inline(never)]
fn class_error(alloc: Global, class: u8) -> Error
    ensures { NamesFormat result }
{
    format_error_of(format!(in alloc; "Huffman table class {class}, expected 0 or 1"))
}

/// Returns the refusal of a destination above the greatest.
#[cold]
#[inline(never)]
fn destination_error(alloc: Global, destination: TableDestination, greatest: u8) -> Error
    ensures { NamesFormat result }
{
    let TableDestination { class, index } = destination;
    let expected = expected_destinations(greatest);
    format_error_of(format!(in alloc; "{class:?} table destination {index}, expected {expected}"))
}

/// Returns the refusal of a number of codes that a table doesn't have, or for whose symbols too few
/// bytes are left.
#[cold]
#[inline(never)]
fn count_error(alloc: Global, destination: TableDestination, count: u16, left: u16) -> Error
    ensures { NamesFormat result }
{
    let TableDestination { class, index } = destination;
    if count == 0 || count > 256 {
        return format_error_of(format!(in alloc;
            "{count} codes of {class:?} table {index}, expected 1 to 256"
        ));
    }
    let size = 17 + count;
    format_error_of(format!(in alloc;
        "{left} bytes left in DHT for {class:?} table {index}, expected {size}"
    ))
}

/// Reads the next table, with `left` bytes left in the segment, and puts it in its destination.
/// Returns how many bytes it takes.
#[tactic(auto, unfolding(crate::proofs::Rules::destinations), using(crate::proofs::Rules::classes))]
fn read_defined_table<R: Read + Drop>(
    alloc: Global,
    source: &mut Source<R>,
    greatest: u8,
    left: u16,
    dc: &mut [Option<HuffmanTable>],
    ac: &mut [Option<HuffmanTable>],
) -> Result<u16>
    requires greatest { greatest ≤ 3 }
    requires dc { length dc.old ≡ 4 }
    requires ac { length ac.old ≡ 4 }
    ensures answers { Answers (λ n. (n, record { dc = dc.new; ac = ac.new }))
        (table_in_destination_at greatest left (record { dc = dc.old; ac = ac.old }))
        source.old result source.new }
    ensures size { IfOk result (λ n. (1 ≤ n) × (n ≤ left)) }
    ensures dc { length dc.new ≡ 4 }
    ensures ac { length ac.new ≡ 4 }
    ensures classes { all_ac ac.old ≡ true → all_ac ac.new ≡ true }
{
    let destination = read_table_destination(alloc, source, greatest)?;
    let counts = read_counts(alloc, source)?;
    let count = total(&counts);
    if count == 0 || count > 256 || left < 17 + count {
        return Err(count_error(alloc, destination, count, left));
    }
    let table = read_table(alloc, source, destination.class, &counts, count)?;
    let index = usize::from(destination.index);
    match destination.class {
        HuffmanTableClass::DC => dc[index] = Some(table),
        HuffmanTableClass::AC => ac[index] = Some(table),
    }
    Ok(17 + count)
}

/// Fills the look-up table of values of each table.
fn fill_values(
    alloc: Global,
    tables: &mut [Option<HuffmanTable>],
) -> std::result::Result<(), AllocError>
    ensures { tables.new ≡ tables.old }
{
    for destination in 0..tables.len() {
        if let Some(table) = &mut tables[destination] {
            table.fill_values(alloc)?;
        }
    }
    Ok(())
}

/// Returns four destinations with no table.
fn no_tables(alloc: Global) -> std::result::Result<Vec<Option<HuffmanTable>>, AllocError>
    ensures { IfOk result (λ v. v.items ≡ replicate 4 None) }
{
    Ok(vec![in alloc; None, None, None, None]?)
}

/// Returns the greatest destination that a table may have.
pub(crate) fn greatest_destination(is_baseline: Option<bool>) -> u8
    ensures destination { result ≡ greatest_destination is_baseline }
    ensures most { result ≤ 3 }
{
    match is_baseline {
        Some(true) => 1,
        _ => 3,
    }
}

/// Returns the destinations up to the greatest, as a refusal names them.
pub(crate) fn expected_destinations(greatest: u8) -> &'static str {
    if greatest == 1 {
        "0 or 1 in a baseline frame"
    } else {
        "0 to 3"
    }
}

/// Returns the refusal of bytes after the last table of a segment.
#[cold]
#[inline(never)]
fn rest_error(alloc: Global, left: u16) -> Error
    ensures { NamesFormat result }
{
    format_error_of(format!(in alloc;
        "{left} bytes left in DHT after the last Huffman table, expected 0"
    ))
}

/// Reads the tables of a segment as `parse_dht` does, and puts each in its destination among those
/// in force: four of each class. Their look-up tables of values stay empty, until
/// `HuffmanTable::fill_values` or `HuffmanTable::widen` fills one. The errors are those of
/// `parse_dht`; some tables may then have been replaced.
#[tactic(auto, unfolding(crate::specs::Parts::dht_onto), using(crate::proofs::Rules::huffman))]
pub fn read_huffman_tables<R: Read + Drop>(
    alloc: Global,
    reader: &mut Source<R>,
    is_baseline: Option<bool>,
    dc: &mut [Option<HuffmanTable>],
    ac: &mut [Option<HuffmanTable>],
) -> Result<()>
    requires dc { length dc.old ≡ 4 }
    requires ac { length ac.old ≡ 4 }
    ensures tables { Answers (λ _. record { dc = dc.new; ac = ac.new })
        (dht_onto is_baseline (record { dc = dc.old; ac = ac.old })) reader.old result reader.new }
    ensures dc { length dc.new ≡ 4 }
    ensures ac { length ac.new ≡ 4 }
    ensures classes { all_ac ac.old ≡ true → all_ac ac.new ≡ true }
{
    let mut left = read_length(alloc, reader)?;
    let greatest = greatest_destination(is_baseline);
    while left > 17 {
        left -= read_defined_table(alloc, reader, greatest, left, dc, ac)?;
    }
    if left > 0 {
        return Err(rest_error(alloc, left));
    }
    Ok(())
}

/// Reads the tables of a segment (T.81, B.2.4.2): two lists of four destinations, for DC and for
/// AC. `is_baseline` is that of the frame, if one was read: in a baseline frame a destination is 0
/// or 1, otherwise 0 to 3.
///
/// Errors: `Format` if the length, a class, a destination, the number of codes or their lengths
/// break a rule, or if 1 to 17 bytes are left after the last table; `Io` if the bytes end or a read
/// fails; `OutOfMemory`.
#[tactic(auto, unfolding(crate::specs::HuffmanTables::dht_at, crate::specs::Parts::dht_onto))]
pub fn parse_dht<R: Read + Drop>(
    alloc: Global,
    reader: &mut Source<R>,
    is_baseline: Option<bool>,
) -> Result<DefinedTables>
    ensures tables { Answers (λ t. record { dc = t.0.items; ac = t.1.items }) (dht_at is_baseline)
        reader.old result reader.new }
    ensures destinations { IfOk result (λ t. (length t.0.items ≡ 4) × (length t.1.items ≡ 4)) }
    ensures classes { IfOk result (λ t. all_ac t.1.items ≡ true) }
{
    let mut dc = no_tables(alloc)?;
    let mut ac = no_tables(alloc)?;
    read_huffman_tables(alloc, reader, is_baseline, &mut dc, &mut ac)?;
    fill_values(alloc, &mut ac)?;
    Ok((dc, ac))
}
