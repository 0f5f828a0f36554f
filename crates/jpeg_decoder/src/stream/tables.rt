//! Tables by their destinations.
ghost use Rattle.std.specs.Prelude.{◌≡◌, IfOk, None, length, slice_index_or, Some, MatchResult};
ghost use Rattle.std.specs.Option.{option_copied};
ghost use Rattle.jpeg_meaning.specs.Segments.{updated};
ghost use Rattle.jpeg_bits.specs.Reading.{NamesFormat};

use jpeg_bits::error::{Error, Result, format_error_of};
use jpeg_bits::huffman::HuffmanTable;
use jpeg_bits::marker::Marker;
use std::alloc::{AllocError, Global};
use std::fmt;

/// Puts the tables that were read in place of those that were there.
pub fn update<T: Drop>(old: &mut [Option<T>], new: &mut [Option<T>])
    requires { length old.old ≡ length new.old }
    ensures { old.new ≡ updated old.old new.old }
{
    for destination in 0..old.len() {
        if let Some(table) = new[destination].take() {
            old[destination] = Some(table);
        }
    }
}

/// Copies a table, if there is one. The only error is a refused allocation.
fn copied_table(
    alloc: Global,
    table: &Option<HuffmanTable>,
) -> std::result::Result<Option<HuffmanTable>, AllocError>
    ensures { IfOk result (λ copy. copy ≡ table.now) }
{
    match table {
        Some(table) => Ok(Some(table.copied(alloc)?)),
        None => Ok(None),
    }
}

/// Copies the tables of a class. The only error is a refused allocation.
pub fn copied_tables(
    alloc: Global,
    tables: &[Option<HuffmanTable>; 4],
) -> std::result::Result<[Option<HuffmanTable>; 4], AllocError>
    ensures { IfOk result (λ copies. copies ≡ tables.now) }
{
    Ok([
        copied_table(alloc, &tables[0])?,
        copied_table(alloc, &tables[1])?,
        copied_table(alloc, &tables[2])?,
        copied_table(alloc, &tables[3])?,
    ])
}

/// Returns the table at a destination.
pub fn table_at<T>(tables: &[Option<T>], destination: usize) -> Option<&T>
    ensures { option_copied result ≡ slice_index_or tables.now destination None }
{
    match tables.get(destination) {
        Some(Some(table)) => Some(table),
        _ => None,
    }
}

/// What a stream lacks; its text says what was found and what was expected.
#[derive(Clone, Copy)]
pub enum Missing {
    /// A frame header before this marker.
    Frame(Marker),
    /// The component of this index in the frame, which a scan names.
    Component(usize),
    /// A scan of the component of this identifier.
    Scan(u8),
    /// A table of a kind, `quantization`, `DC` or `AC`, in a destination, for the component of an
    /// identifier.
    Table(&'static str, usize, u8),
}

impl fmt::Display for Missing {
    fn fmt<W: fmt::Write>(&self, f: &mut fmt::Formatter<W>) -> fmt::Result {
        match *self {
            Missing::Frame(marker) => write!(f, "found {marker}, expected a frame header"),
            Missing::Component(index) => {
                write!(
                    f,
                    "found a scan of component index {index}, expected one of the frame"
                )
            }
            Missing::Scan(identifier) => {
                write!(f, "found EOI, expected a scan of component {identifier}")
            }
            Missing::Table(kind, destination, identifier) => write!(
                f,
                "found no {kind} table in destination {destination}, expected one for component \
                 {identifier}"
            ),
        }
    }
}

/// Returns something that has to be there; otherwise the refusal says that it is missing.
pub fn needed<T: Drop>(alloc: Global, option: Option<T>, missing: Missing) -> Result<T>
    ensures { MatchResult result (λ x. option ≡ Some x) (λ e. (option ≡ None) × NamesFormat e) }
{
    match option {
        Some(value) => Ok(value),
        None => Err(missing_error(alloc, missing)),
    }
}

/// Returns the refusal of a stream that lacks something.
#[cold]
#[inline(never)]
fn missing_error(alloc: Global, missing: Missing) -> Error
    ensures { NamesFormat result }
{
    format_error_of(missing.to_string(alloc))
}
