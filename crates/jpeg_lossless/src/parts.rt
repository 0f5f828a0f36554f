//! What a lossless scan has of each component (T.81, A.2).
ghost use Rattle.std.specs.Prelude.{◌≡◌, IfOk, map};
ghost use Rattle.jpeg_lossless.specs.Codings.{part_in};
ghost use Rattle.jpeg_lossless.specs.Differences.{mcu_tables};

use jpeg_bits::huffman::HuffmanTable;
use std::alloc::{AllocError, Global};

/// What a scan has of a component. An MCU has `down` lines of `across` samples of it if several
/// components are interleaved, otherwise one sample. The samples beyond its size are padding.
#[derive(Drop)]
pub struct Part<'a> {
    /// The table of its differences.
    pub table: &'a HuffmanTable,
    /// How many of its samples an MCU has across.
    pub across: u8,
    /// How many of its samples an MCU has down.
    pub down: u8,
    /// How many samples a line of it has.
    pub width: u16,
    /// How many lines it has.
    pub height: u16,
}

/// Returns the table of each sample of an MCU, in order: component by component, line by line.
#[tactic(auto, using(crate::proofs::Rules::no_tables))]
pub(crate) fn mcu_tables<'a>(
    alloc: Global,
    parts: &[Part<'a>],
) -> Result<Vec<&'a HuffmanTable>, AllocError>
    ensures { IfOk result (λ v. map (λ t. t.now) v.items ≡ mcu_tables (map part_in parts.now)) }
{
    let mut tables = Vec::with_capacity(alloc, parts.len())?;
    for i in 0..parts.len() {
        let part = &parts[i];
        let mut left = u16::from(part.down) * u16::from(part.across);
        while left > 0 {
            tables.push(part.table)?;
            left -= 1;
        }
    }
    Ok(tables)
}
