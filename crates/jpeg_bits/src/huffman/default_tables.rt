//! The tables that the frames of an MJPEG stream may leave out (T.81, K.3.3).
ghost use Rattle.std.specs.Prelude.{◌≡◌, ◌≤◌, length, MatchResult};
ghost use Rattle.jpeg_bits.specs.DefaultTables.{AreBetween, AreCodes, luminance_ac, luminance_dc};
ghost use Rattle.jpeg_bits.specs.DefaultTables.{chrominance_ac, chrominance_dc, filled, names};
ghost use Rattle.jpeg_bits.specs.DefaultTables.{with_defaults};
ghost use Rattle.jpeg_bits.specs.declared.error.Error.TheVariants.{OutOfMemory};

use crate::error::Result;
use crate::huffman::codes::{HuffmanTable, HuffmanTableClass};
use crate::scan::ScanInfo;
use std::alloc::Global;

/// The DC categories.
const CATEGORIES: [u8; 12] = [0, 1, 2, 3, 4, 5, 6, 7, 8, 9, 10, 11];

/// Table K.3: DC differences of luminance.
const LUMINANCE_DC_COUNTS: [u8; 16] = [0, 1, 5, 1, 1, 1, 1, 1, 1, 0, 0, 0, 0, 0, 0, 0];

/// Table K.4: DC differences of chrominance.
const CHROMINANCE_DC_COUNTS: [u8; 16] = [0, 3, 1, 1, 1, 1, 1, 1, 1, 1, 1, 0, 0, 0, 0, 0];

/// Table K.5: AC coefficients of luminance.
const LUMINANCE_AC_COUNTS: [u8; 16] = [0, 2, 1, 3, 3, 2, 4, 3, 5, 5, 4, 4, 0, 0, 1, 125];

const LUMINANCE_AC_SYMBOLS: [u8; 162] = [
    0x01, 0x02, 0x03, 0x00, 0x04, 0x11, 0x05, 0x12, 0x21, 0x31, 0x41, 0x06, //
    0x13, 0x51, 0x61, 0x07, 0x22, 0x71, 0x14, 0x32, 0x81, 0x91, 0xa1, 0x08, //
    0x23, 0x42, 0xb1, 0xc1, 0x15, 0x52, 0xd1, 0xf0, 0x24, 0x33, 0x62, 0x72, //
    0x82, 0x09, 0x0a, 0x16, 0x17, 0x18, 0x19, 0x1a, 0x25, 0x26, 0x27, 0x28, //
    0x29, 0x2a, 0x34, 0x35, 0x36, 0x37, 0x38, 0x39, 0x3a, 0x43, 0x44, 0x45, //
    0x46, 0x47, 0x48, 0x49, 0x4a, 0x53, 0x54, 0x55, 0x56, 0x57, 0x58, 0x59, //
    0x5a, 0x63, 0x64, 0x65, 0x66, 0x67, 0x68, 0x69, 0x6a, 0x73, 0x74, 0x75, //
    0x76, 0x77, 0x78, 0x79, 0x7a, 0x83, 0x84, 0x85, 0x86, 0x87, 0x88, 0x89, //
    0x8a, 0x92, 0x93, 0x94, 0x95, 0x96, 0x97, 0x98, 0x99, 0x9a, 0xa2, 0xa3, //
    0xa4, 0xa5, 0xa6, 0xa7, 0xa8, 0xa9, 0xaa, 0xb2, 0xb3, 0xb4, 0xb5, 0xb6, //
    0xb7, 0xb8, 0xb9, 0xba, 0xc2, 0xc3, 0xc4, 0xc5, 0xc6, 0xc7, 0xc8, 0xc9, //
    0xca, 0xd2, 0xd3, 0xd4, 0xd5, 0xd6, 0xd7, 0xd8, 0xd9, 0xda, 0xe1, 0xe2, //
    0xe3, 0xe4, 0xe5, 0xe6, 0xe7, 0xe8, 0xe9, 0xea, 0xf1, 0xf2, 0xf3, 0xf4, //
    0xf5, 0xf6, 0xf7, 0xf8, 0xf9, 0xfa,
];

/// Table K.6: AC coefficients of chrominance.
const CHROMINANCE_AC_COUNTS: [u8; 16] = [0, 2, 1, 2, 4, 4, 3, 4, 7, 5, 4, 4, 0, 1, 2, 119];

const CHROMINANCE_AC_SYMBOLS: [u8; 162] = [
    0x00, 0x01, 0x02, 0x03, 0x11, 0x04, 0x05, 0x21, 0x31, 0x06, 0x12, 0x41, //
    0x51, 0x07, 0x61, 0x71, 0x13, 0x22, 0x32, 0x81, 0x08, 0x14, 0x42, 0x91, //
    0xa1, 0xb1, 0xc1, 0x09, 0x23, 0x33, 0x52, 0xf0, 0x15, 0x62, 0x72, 0xd1, //
    0x0a, 0x16, 0x24, 0x34, 0xe1, 0x25, 0xf1, 0x17, 0x18, 0x19, 0x1a, 0x26, //
    0x27, 0x28, 0x29, 0x2a, 0x35, 0x36, 0x37, 0x38, 0x39, 0x3a, 0x43, 0x44, //
    0x45, 0x46, 0x47, 0x48, 0x49, 0x4a, 0x53, 0x54, 0x55, 0x56, 0x57, 0x58, //
    0x59, 0x5a, 0x63, 0x64, 0x65, 0x66, 0x67, 0x68, 0x69, 0x6a, 0x73, 0x74, //
    0x75, 0x76, 0x77, 0x78, 0x79, 0x7a, 0x82, 0x83, 0x84, 0x85, 0x86, 0x87, //
    0x88, 0x89, 0x8a, 0x92, 0x93, 0x94, 0x95, 0x96, 0x97, 0x98, 0x99, 0x9a, //
    0xa2, 0xa3, 0xa4, 0xa5, 0xa6, 0xa7, 0xa8, 0xa9, 0xaa, 0xb2, 0xb3, 0xb4, //
    0xb5, 0xb6, 0xb7, 0xb8, 0xb9, 0xba, 0xc2, 0xc3, 0xc4, 0xc5, 0xc6, 0xc7, //
    0xc8, 0xc9, 0xca, 0xd2, 0xd3, 0xd4, 0xd5, 0xd6, 0xd7, 0xd8, 0xd9, 0xda, //
    0xe2, 0xe3, 0xe4, 0xe5, 0xe6, 0xe7, 0xe8, 0xe9, 0xea, 0xf2, 0xf3, 0xf4, //
    0xf5, 0xf6, 0xf7, 0xf8, 0xf9, 0xfa,
];

/// Returns whether a destination is among those named.
fn names(destinations: &[usize], destination: usize) -> bool
    ensures { result ≡ names destinations.now destination }
{
    destinations.contains(&destination)
}

/// The codes of a table, as T.81 lists them.
#[derive(Clone, Copy)]
struct Listed<'a> {
    counts: &'a [u8; 16],
    symbols: &'a [u8],
    ghost codes: { AreCodes counts.now symbols.now },
}

/// Puts the table of these codes at a destination that is named and unset.
#[tactic(auto, using(crate::proofs::DefaultTables::refusals))]
fn fill(
    alloc: Global,
    table: &mut Option<HuffmanTable>,
    named: bool,
    class: HuffmanTableClass,
    listed: &Listed<'_>,
) -> Result<()>
    ensures { MatchResult result
        (λ _. table.new
        ≡ filled (record {
          class = class;
          counts = listed.now.counts.now;
          symbols = listed.now.symbols.now;
        }) named table.old)
        (λ e. (e ≡ OutOfMemory) × (table.new ≡ table.old)) }
{
    if named && table.is_none() {
        *table = Some(HuffmanTable::new(alloc, listed.counts, listed.symbols, class)?);
    }
    Ok(())
}

/// Fills destinations 0 and 1, if they are named and unset, with the tables of luminance and of
/// chrominance.
#[tactic(auto, using(crate::proofs::DefaultTables::refusals))]
fn fill_both(
    alloc: Global,
    tables: &mut [Option<HuffmanTable>],
    destinations: &[usize],
    class: HuffmanTableClass,
    luminance: &Listed<'_>,
    chrominance: &Listed<'_>,
) -> Result<()>
    requires destinations { 2 ≤ length tables.old }
    ensures { let whole = with_defaults
        (record {
          class = class;
          counts = luminance.now.counts.now;
          symbols = luminance.now.symbols.now;
        })
        (record {
          class = class;
          counts = chrominance.now.counts.now;
          symbols = chrominance.now.symbols.now;
        })
        destinations.now tables.old in
        MatchResult result (λ _. tables.new ≡ whole) (λ e. (e ≡ OutOfMemory)
        × AreBetween tables.old whole tables.new) }
{
    fill(
        alloc,
        &mut tables[0],
        names(destinations, 0),
        class,
        luminance,
    )?;
    fill(
        alloc,
        &mut tables[1],
        names(destinations, 1),
        class,
        chrominance,
    )
}

/// Puts the default tables of T.81 (Tables K.3 to K.6), which the frames of an MJPEG stream may
/// leave out, at those of the destinations 0 and 1 that a scan names and that are unset. All others
/// stay as they are. The lists have a table for each destination, DC and AC.
///
/// The only error is `OutOfMemory`; destinations that were filled before it stay filled.
#[tactic(auto, using(crate::proofs::Rules::defaults))]
pub fn fill_default_mjpeg_tables(
    alloc: Global,
    scan: &ScanInfo,
    dc_huffman_tables: &mut [Option<HuffmanTable>],
    ac_huffman_tables: &mut [Option<HuffmanTable>],
) -> Result<()>
    requires dc { 2 ≤ length dc_huffman_tables.old }
    requires ac { 2 ≤ length ac_huffman_tables.old }
    ensures dc { let whole = with_defaults luminance_dc chrominance_dc
        scan.now.dc_table_indices.items dc_huffman_tables.old in
        MatchResult result (λ _. dc_huffman_tables.new ≡ whole) (λ e. (e ≡ OutOfMemory)
        × AreBetween dc_huffman_tables.old whole dc_huffman_tables.new) }
    ensures ac { let whole = with_defaults luminance_ac chrominance_ac
        scan.now.ac_table_indices.items ac_huffman_tables.old in
        MatchResult result (λ _. ac_huffman_tables.new ≡ whole) (λ e. (e ≡ OutOfMemory)
        × AreBetween ac_huffman_tables.old whole ac_huffman_tables.new) }
{
    fill_both(
        alloc,
        dc_huffman_tables,
        &scan.dc_table_indices,
        HuffmanTableClass::DC,
        &Listed {
            counts: &LUMINANCE_DC_COUNTS,
            symbols: &CATEGORIES,
        },
        &Listed {
            counts: &CHROMINANCE_DC_COUNTS,
            symbols: &CATEGORIES,
        },
    )?;
    fill_both(
        alloc,
        ac_huffman_tables,
        &scan.ac_table_indices,
        HuffmanTableClass::AC,
        &Listed {
            counts: &LUMINANCE_AC_COUNTS,
            symbols: &LUMINANCE_AC_SYMBOLS,
        },
        &Listed {
            counts: &CHROMINANCE_AC_COUNTS,
            symbols: &CHROMINANCE_AC_SYMBOLS,
        },
    )
}
