//! The blocks of a scan in order, in every pass (T.81, A.2).
ghost use Rattle.std.specs.Prelude.{None, OnErr, OnOk, is_some, option_map, true, false, length};
ghost use Rattle.std.specs.Prelude.{◌≡◌, ◌<◌};
ghost use Rattle.std.specs.List.{AllByRecursion};
ghost use Rattle.jpeg_bits.specs.Refusals.{outcome_of};
ghost use Rattle.jpeg_bits.specs.Entropy.{Takes, fresh_before, upcoming};
ghost use Rattle.jpeg_bits.specs.Passes.{predictors_at_start};
ghost use Rattle.jpeg_meaning.specs.InTurn.{begun_from, blocks_from};
ghost use Rattle.jpeg_bits.specs.declared.beyond.Beyond.TheVariants.{Nothing};
ghost use Rattle.jpeg_meaning.specs.Scans.{Arrays};
ghost use Rattle.jpeg_meaning.specs.States.{OnToldRefusal};
ghost use Rattle.jpeg_decoder.specs.Scanning.{IsKeptBlock, IsSpotOf, IsStored};
ghost use Rattle.jpeg_decoder.specs.Scanning.{scan_vias};
ghost use Rattle.jpeg_decoder.specs.Scanning.{arrays_in, sizes_of, counted};
ghost use Rattle.jpeg_decoder.specs.Scanning.{kept_blocks, kept_counted};
ghost use Rattle.jpeg_decoder.specs.Through.{IsReached, counted_reached};

use crate::scan::block_array::BlockArray;
use crate::scan::coded::Scan;
use crate::scan::restarts::read_restart;
use crate::scan::spots::{Spot, Spots};
use jpeg_bits::beyond::Beyond;
use jpeg_bits::blocks::{Carried, take_block};
use jpeg_bits::error::{Error, Result, take_refusal};
use jpeg_bits::huffman::HuffmanDecoder;
use jpeg_bits::source::Source;
use std::alloc::{AllocError, Global};
use std::io::Read;

/// The state between two blocks of a scan: of the entropy decoder and what a block leaves for those
/// after it in its restart interval, the blocks that are left of it, the number of the restart
/// marker after it, what follows the markers that end data, and a refusal.
#[derive(Drop)]
pub struct Interval {
    /// The allocator.
    pub alloc: Global,
    /// The entropy decoder.
    pub decoder: HuffmanDecoder,
    /// What a block leaves for those after it.
    pub carried: Carried,
    /// The number of blocks that are left of the restart interval.
    pub left: u64,
    number: u8,
    // what follows the markers that end data
    beyond: Beyond,
    /// The spot of the block that was refused, or that was to follow a restart marker that was.
    pub unread: Option<Spot>,
    /// Why a block or a restart marker was refused.
    pub refusal: Option<Error>,
}

impl Interval {
    ghost use Rattle.std.specs.Prelude.{◌≡◌, Some, is_some, true};
    ghost use Rattle.jpeg_bits.specs.Refusals.{kept_refusal};

    /// Copies it, without a refusal.
    pub fn copied(&self) -> Interval
        ensures { result ≡ record self.now { refusal = None } }
    {
        Interval {
            alloc: self.alloc,
            decoder: self.decoder.copied(),
            carried: self.carried,
            left: self.left,
            number: self.number,
            beyond: self.beyond,
            unread: self.unread,
            refusal: None,
        }
    }

    /// Notes the spot of a block that was refused, and takes the refusal.
    #[cold]
    pub fn refused_at(&mut self, spot: Spot) -> Error
        requires refused { is_some self.old.refusal ≡ true }
        ensures refusal { result ≡ kept_refusal self.old.refusal }
        ensures unread { self.new.unread ≡ Some spot }
        ensures alloc { self.new.alloc ≡ self.old.alloc }
        ensures decoder { self.new.decoder ≡ self.old.decoder }
        ensures beyond { self.new.beyond ≡ self.old.beyond }
    {
        self.unread = Some(spot);
        take_refusal(&mut self.refusal)
    }
}

/// Makes the state at the start of a scan, where a restart interval has `left` blocks; 0 is no
/// intervals. `beyond` follows the markers that end data.
pub fn first_interval(alloc: Global, left: u64, beyond: Beyond) -> Interval
    ensures { result ≡ record {
      alloc = alloc;
      decoder = fresh_before beyond;
      carried = record { predictors = predictors_at_start; run = 0 };
      left = left;
      number = 0;
      beyond = beyond;
      unread = None;
      refusal = None;
    } }
{
    Interval {
        alloc,
        decoder: HuffmanDecoder::with_beyond(alloc, beyond),
        carried: Carried::at_start(),
        left,
        number: 0,
        beyond,
        unread: None,
        refusal: None,
    }
}

/// Begins the next restart interval, of `n` blocks, where no block is left of this one. A refusal
/// is stored in the interval's, and false is returned.
#[inline(always)]
#[tactic(auto, using(crate::proofs::Orders::BlockSteps::begun_rules))]
pub fn begin<R: Read + Drop>(interval: &mut Interval, source: &mut Source<R>, n: u64) -> bool
    ensures begun { (arrays : Arrays) → Takes (λ _. counted interval.new arrays)
        (begun_from n (counted interval.old arrays))
        interval.old.decoder source.old (outcome_of result interval.new.refusal)
        interval.new.decoder source.new }
    ensures some { result ≡ true → 0 < n → 0 < interval.new.left }
    ensures four { result ≡ true → length interval.old.carried.predictors ≡ 4
        → length interval.new.carried.predictors ≡ 4 }
    ensures refused { result ≡ false → is_some interval.new.refusal ≡ true }
    ensures beyond { interval.new.beyond ≡ interval.old.beyond }
    ensures unread { interval.new.unread ≡ interval.old.unread }
{
    if n == 0 {
        return true;
    }
    if interval.left > 0 {
        return true;
    }
    let alloc = interval.alloc;
    let decoder = &mut interval.decoder;
    if let Err(e) = read_restart(alloc, decoder, source, interval.number, interval.beyond) {
        interval.refusal = Some(e);
        return false;
    }
    interval.carried = Carried::at_start();
    interval.left = n;
    interval.number = interval.number.wrapping_add(1) % 8;
    true
}

/// Stores the block at a spot.
#[inline]
pub fn reach(arrays: &mut Vec<BlockArray>, spot: Spot) -> std::result::Result<(), AllocError>
    requires { IsKeptBlock (sizes_of arrays.old.items) spot.slot spot.index }
    ensures arrays { arrays_in arrays.new.items ≡ arrays_in arrays.old.items }
    ensures sizes { sizes_of arrays.new.items ≡ sizes_of arrays.old.items }
    ensures stored { OnOk result (IsStored arrays.new.items spot.slot spot.index) }
{
    arrays[spot.slot].reach(spot.index)
}

/// Returns a copy of a block that is about to be read, if it has to be put back where it is
/// refused: if nothing follows the markers that end data.
#[inline(always)]
fn copy_of(beyond: Beyond, block: &[i16; 64]) -> Option<[i16; 64]>
    ensures { beyond ≡ Nothing → result ≡ Some block.now }
{
    match beyond {
        Beyond::Nothing => Some(*block),
        Beyond::Zeros => None,
    }
}

/// Reads the blocks at some spots, in restart intervals of `n` blocks, or in one where `n` is 0.
/// Where the scan doesn't keep AC coefficients, those of the arrays mean nothing after it.
///
/// After a refusal, where nothing follows the markers that end data, the blocks before the one that
/// it is about are there, that one is as before, and its spot is the interval's `unread`.
#[tactic(auto, using(crate::proofs::Kept::KeptScans::kept_rules))]
pub fn read_spots<R: Read + Drop>(
    interval: &mut Interval,
    source: &mut Source<R>,
    scan: &Scan<'_>,
    arrays: &mut Vec<BlockArray>,
    n: u64,
    spots: &mut Spots<'_>,
) -> Result<()>
    requires spots { AllByRecursion (IsSpotOf (length scan.now.codings)
        (sizes_of arrays.now.items)) spots.old }
    ensures sizes { sizes_of arrays.new.items ≡ sizes_of arrays.old.items }
    ensures blocks { Takes (λ _. kept_counted scan.now.keeps_ac
        (counted interval.new (arrays_in arrays.new.items)))
        (kept_blocks scan.now.keeps_ac (blocks_from scan.now.pass (scan_vias scan.now) n
        spots.old (counted interval.old (arrays_in arrays.old.items))))
        interval.old.decoder source.old result interval.new.decoder source.new }
    ensures beyond { interval.new.beyond ≡ interval.old.beyond }
    ensures unread { OnOk result (interval.new.unread ≡ interval.old.unread) }
    ensures reached { scan.now.keeps_ac ≡ true → interval.old.beyond ≡ Nothing
        → OnToldRefusal source.old source.new result (IsReached
        (counted_reached scan.now.pass (scan_vias scan.now) n spots.old
        (counted interval.old (arrays_in arrays.old.items))
        (upcoming interval.old.decoder source.old.bytes))
        (arrays_in arrays.new.items) interval.new.unread) }
{
    while let Some(spot) = spots.next() {
        reach(arrays, spot)?;
        if !begin(interval, source, n) {
            return Err(interval.refused_at(spot));
        }
        let coding = scan.coding(spot.slot);
        let block = &mut arrays[spot.slot].blocks[spot.index];
        let before = copy_of(interval.beyond, block);
        if !take_block(
            &mut interval.decoder,
            source,
            &coding,
            &mut interval.carried,
            block,
            &mut interval.refusal,
        ) {
            if let Some(before) = before {
                *block = before;
            }
            return Err(interval.refused_at(spot));
        }
        interval.left = interval.left.saturating_sub(1);
    }
    Ok(())
}
