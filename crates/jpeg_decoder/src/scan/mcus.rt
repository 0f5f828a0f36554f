//! The blocks of a sequential scan, each of which is coded at once (T.81, F.2.2).
ghost use Rattle.std.specs.Prelude.{OnOk, is_some, true, false, length, ◌≡◌};
ghost use Rattle.std.specs.List.{AllByRecursion};
ghost use Rattle.jpeg_bits.specs.Refusals.{outcome_of};
ghost use Rattle.jpeg_bits.specs.Entropy.{Takes, upcoming};
ghost use Rattle.jpeg_bits.specs.Passes.{whole_pass};
ghost use Rattle.jpeg_meaning.specs.InTurn.{begun_from, blocks_from};
ghost use Rattle.jpeg_bits.specs.declared.beyond.Beyond.TheVariants.{Nothing};
ghost use Rattle.jpeg_meaning.specs.Scans.{Arrays};
ghost use Rattle.jpeg_meaning.specs.States.{OnToldRefusal};
ghost use Rattle.jpeg_decoder.specs.Scanning.{IsSpotOf};
ghost use Rattle.jpeg_decoder.specs.Scanning.{scan_vias};
ghost use Rattle.jpeg_decoder.specs.Scanning.{arrays_in, sizes_of, counted};
ghost use Rattle.jpeg_decoder.specs.Scanning.{kept_blocks, kept_counted};
ghost use Rattle.jpeg_decoder.specs.Through.{IsReachedBeside, counted_reached};

use crate::scan::block_array::BlockArray;
use crate::scan::blocks::{Interval, begin, reach, read_spots};
use crate::scan::coded::{Scan, is_whole};
use crate::scan::spots::Spots;
use jpeg_bits::blocks::{Carried, Pass, take_inlined_block};
use jpeg_bits::error::Result;
use jpeg_bits::huffman::HuffmanDecoder;
use jpeg_bits::source::Source;
use std::io::Read;

/// The pass of a sequential scan. Where it is constant, so are the limits of a band, and nothing is
/// shifted.
const WHOLE: Pass = Pass {
    is_first: true,
    ss: 0,
    se: 63,
    al: 0,
};

/// Begins the next restart interval as `begin` does, where the blocks are read by locals in place
/// of what `interval` has. A refusal is stored in `interval`, and false is returned.
#[inline(always)]
#[tactic(auto, using(crate::proofs::Orders::BlockSteps::begun_rules))]
fn begin_by<R: Read + Drop>(
    decoder: &mut HuffmanDecoder,
    carried: &mut Carried,
    left: &mut u64,
    interval: &mut Interval,
    source: &mut Source<R>,
    n: u64,
) -> bool
    ensures begun { (arrays : Arrays)
        → Takes
        (λ _. counted (record interval.new { carried = carried.new; left = left.new }) arrays)
        (begun_from n
        (counted (record interval.old { carried = carried.old; left = left.old }) arrays))
        decoder.old source.old (outcome_of result interval.new.refusal)
        decoder.new source.new }
    ensures refused { result ≡ false → is_some interval.new.refusal ≡ true }
    ensures beyond { interval.new.beyond ≡ interval.old.beyond }
    ensures unread { interval.new.unread ≡ interval.old.unread }
{
    if n == 0 || *left > 0 {
        return true;
    }
    // The address of a local goes to no call, so that it can stay in registers.
    interval.decoder = decoder.copied();
    interval.carried = *carried;
    interval.left = *left;
    let has_begun = begin(interval, source, n);
    *decoder = interval.decoder.copied();
    *carried = interval.carried;
    *left = interval.left;
    has_begun
}

/// Reads the blocks at some spots as `read_spots` does, each of them whole, by locals: the bits
/// stay in registers from block to block. A block that is refused isn't put back.
#[inline(never)]
#[tactic(auto, using(crate::proofs::Kept::KeptScans::kept_rules))]
fn read_whole<R: Read + Drop>(
    interval: &mut Interval,
    source: &mut Source<R>,
    scan: &Scan<'_>,
    arrays: &mut Vec<BlockArray>,
    n: u64,
    spots: &mut Spots<'_>,
) -> Result<()>
    requires whole { scan.now.pass ≡ whole_pass }
    requires spots { AllByRecursion (IsSpotOf (length scan.now.codings)
        (sizes_of arrays.now.items)) spots.old }
    ensures sizes { sizes_of arrays.new.items ≡ sizes_of arrays.old.items }
    ensures blocks { Takes (λ _. kept_counted scan.now.keeps_ac
        (counted interval.new (arrays_in arrays.new.items)))
        (kept_blocks scan.now.keeps_ac (blocks_from scan.now.pass (scan_vias scan.now) n
        spots.old (counted interval.old (arrays_in arrays.old.items))))
        interval.old.decoder source.old result interval.new.decoder source.new }
    ensures beyond { interval.new.beyond ≡ interval.old.beyond }
    ensures unread { OnOk result (interval.new.unread ≡ interval.old.unread) }
    ensures reached { scan.now.keeps_ac ≡ true
        → OnToldRefusal source.old source.new result (IsReachedBeside
        (counted_reached scan.now.pass (scan_vias scan.now) n spots.old
        (counted interval.old (arrays_in arrays.old.items))
        (upcoming interval.old.decoder source.old.bytes))
        (arrays_in arrays.new.items) interval.new.unread) }
{
    let mut decoder = interval.decoder.copied();
    let mut carried = interval.carried;
    let mut left = interval.left;
    while let Some(spot) = spots.next() {
        reach(arrays, spot)?;
        if !begin_by(&mut decoder, &mut carried, &mut left, interval, source, n) {
            return Err(interval.refused_at(spot));
        }
        let mut coding = scan.coding(spot.slot);
        coding.pass = WHOLE;
        if !take_inlined_block(
            &mut decoder,
            source,
            &coding,
            &mut carried,
            &mut arrays[spot.slot].blocks[spot.index],
            &mut interval.refusal,
        ) {
            return Err(interval.refused_at(spot));
        }
        left = left.saturating_sub(1);
    }
    interval.decoder = decoder;
    interval.carried = carried;
    interval.left = left;
    Ok(())
}

/// Reads the blocks at some spots of a sequential scan, in restart intervals of `n` blocks, or in
/// one where `n` is 0. Where the scan doesn't keep AC coefficients, those of the arrays mean
/// nothing after it.
///
/// After a refusal the blocks before the one that it is about are there, and its spot is the
/// interval's `unread`. What that block is means nothing.
pub fn read_mcus<R: Read + Drop>(
    interval: &mut Interval,
    source: &mut Source<R>,
    scan: &Scan<'_>,
    arrays: &mut Vec<BlockArray>,
    n: u64,
    spots: &mut Spots<'_>,
) -> Result<()>
    requires spots { AllByRecursion (IsSpotOf (length scan.now.codings)
        (sizes_of arrays.now.items)) spots.old }
    ensures sizes { sizes_of arrays.new.items ≡ sizes_of arrays.old.items }
    ensures blocks { Takes (λ _. kept_counted scan.now.keeps_ac
        (counted interval.new (arrays_in arrays.new.items)))
        (kept_blocks scan.now.keeps_ac (blocks_from scan.now.pass (scan_vias scan.now) n
        spots.old (counted interval.old (arrays_in arrays.old.items))))
        interval.old.decoder source.old result interval.new.decoder source.new }
    ensures beyond { interval.new.beyond ≡ interval.old.beyond }
    ensures unread { OnOk result (interval.new.unread ≡ interval.old.unread) }
    ensures reached { scan.now.beyond ≡ Nothing → interval.old.beyond ≡ Nothing
        → OnToldRefusal source.old source.new result (IsReachedBeside
        (counted_reached scan.now.pass (scan_vias scan.now) n spots.old
        (counted interval.old (arrays_in arrays.old.items))
        (upcoming interval.old.decoder source.old.bytes))
        (arrays_in arrays.new.items) interval.new.unread) }
{
    if scan.keeps_ac() && is_whole(scan.pass()) {
        return read_whole(interval, source, scan, arrays, n, spots);
    }
    read_spots(interval, source, scan, arrays, n, spots)
}
