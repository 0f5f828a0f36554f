//! What is read of entropy-coded data was written: the writer's relation is no narrower than what
//! is read of data that end where their blocks do.
ghost use Rattle.std.specs.Prelude.{◌≡◌, ◌≤◌, ◌%◌, ◌∷◌, [], ℕ, ℤ, suc, Bool, List, Ok, Some};
ghost use Rattle.std.specs.Prelude.{length};
ghost use Rattle.jpeg_bits.specs.Bands.{Band, difference, first_ac, first_dc, token_from};
ghost use Rattle.jpeg_bits.specs.Codes.{IsTable, Table, symbol_from};
ghost use Rattle.jpeg_bits.specs.Entropy.{Found, Text, bits_from, text_at};
ghost use Rattle.jpeg_bits.specs.Intervals.{interval, intervals};
ghost use Rattle.jpeg_bits.specs.Passes.{Block, Pass, Via, block_from, blocks_of};
ghost use Rattle.jpeg_bits.specs.Passes.{predictors_at_start};
ghost use Rattle.jpeg_bits.specs.Readers.{signed_from};
ghost use Rattle.jpeg_bits.specs.Written.{IsCoded};
ghost use Rattle.jpeg_bits.specs.declared.marker.Marker.{Marker};
ghost use Rattle.jpeg_bits.specs.declared.marker.Marker.TheVariants.{RST};
ghost use Rattle.jpeg_bits.specs.declared.blocks.tokens.Token.{Token};
ghost use Rattle.jpeg_meaning.specs.WrittenData.{WritesBlocks, WritesDifference, no_numbers};
ghost use Rattle.jpeg_evidence.specs.Strict.{BlockFits, BlocksFit, HasByteSymbols, HasTables};
ghost use Rattle.jpeg_evidence.specs.Strict.{IsBand};
ghost use Rattle.jpeg_evidence.specs.Strict.{IsBlock, IsCut, IsData, IsDc, IsInterval, IsIntervals};
ghost use Rattle.jpeg_evidence.specs.Strict.{IntervalFits, IntervalsFit, IsNumber, IsToken};
ghost use Rattle.jpeg_evidence.specs.Strict.{IsValue, TokensFit, alone, numbers_read, others_read};

/// What is read of bits that nothing follows was written (T.81, C.2 and F.1.2): the bits that were
/// taken are those of the number, of a code for the symbol, of the value, and of the DC difference.
#[tactic(auto, using(crate::proofs::Taken::TakenValues::values))]
pub fn bits_taken_are_written()
    ensures numbers { (n : ℕ) (bits : List Bool) (v : ℕ) (left : Text)
        → bits_from n (alone bits) ≡ Ok (v, left) → IsCut (IsNumber n v) bits left }
    ensures symbols { (table : Table) (bits : List Bool) (symbol : ℕ) (left : Text)
        → IsTable table → symbol_from table (alone bits) ≡ Ok (symbol, left)
        → IsCut (IsCoded table symbol) bits left }
    ensures values { (s : ℕ) (bits : List Bool) (u : ℤ) (left : Text)
        → signed_from (suc s) (alone bits) ≡ Ok (u, left) → IsCut (IsValue (suc s) u) bits left }
    ensures differences { (table : Table) (bits : List Bool) (u : ℤ) (left : Text)
        → IsTable table → difference table (alone bits) ≡ Ok (u, left)
        → IsCut (WritesDifference table u) bits left }
{}

/// Bytes whose data end with a marker are the data's bits in bytes, where 00 follows each FF, and
/// the marker after fill bytes (T.81, B.1.1.2 and B.1.1.5).
#[tactic(auto, using(crate::proofs::Taken::TakenBytes::bytes_back))]
pub fn data_up_to_a_marker_are_stuffed()
    ensures { (bytes rest : List ℕ) (m : Marker) → (text_at bytes).ending ≡ Found m rest
        → IsData bytes (text_at bytes).bits m rest }
{}

/// A DC coefficient that is read in its first scan was written, by its difference from the
/// predictor (T.81, F.1.2.1): what is read is the coefficient modulo 2 ^ 16.
#[tactic(auto, using(crate::proofs::Taken::TakenValues::dc_taken))]
pub fn dc_taken_is_written()
    ensures { (table : Table) (al : ℕ) (predictor : ℤ) (bits : List Bool) (y : ℤ × ℤ) (left : Text)
        → IsTable table → first_dc table al predictor (alone bits) ≡ Ok (y, left)
        → IsCut (IsDc table al predictor y) bits left }
{}

/// A token of a band that is read of bits that nothing follows is a code RRRRSSSS and the bits
/// after it (T.81, F.1.2.2 and G.1.2.2): those of its value, none for sixteen zeros, or those of
/// the number of an end of bands.
#[tactic(auto, using(crate::proofs::Taken::TakenTokens::token_taken))]
pub fn tokens_taken_are_written()
    ensures { (table : Table) (room : ℕ) (bits : List Bool) (x : Token) (left : Text)
        → IsTable table → token_from table room (alone bits) ≡ Ok (x, left)
        → IsCut (IsToken table x) bits left }
{}

/// A band that is read in its first scan, where each token stands for coefficients that the band
/// has, was written: the bits that were taken are those that a writer may emit for the coefficients
/// read at level al, and for the run of blocks after them (T.81, F.1.2.2 and G.1.2.2).
#[tactic(auto, using(crate::proofs::Taken::TakenBands::band_taken))]
pub fn bands_taken_are_written()
    ensures { (table : Table) (al n room : ℕ) (bits : List Bool) (y : Band) (left : Text)
        → IsTable table → HasByteSymbols table → TokensFit table al room bits → room ≤ n
        → first_ac table al n (no_numbers room) (alone bits) ≡ Ok (y, left)
        → IsCut (IsBand table al y.0 y.1) bits left }
{}

/// A block that is read in a first pass or a refinement was written: the bits that were taken are
/// those that a writer may emit for the block's numbers at the level of the pass (T.81, F.1.2 and
/// G.1.2). It fits where no DC goes round at 16 bits, where each token stands for coefficients that
/// the band has, and where a refinement is of what was sent at the level above.
#[tactic(auto, using(crate::proofs::Taken::TakenBlocks::block_taken))]
pub fn block_taken_is_written()
    ensures { (p : Pass) (via : Via) (predictor : ℤ) (run : ℕ) (old : Block) (bits : List Bool)
        (r : Block × ℤ × ℕ) (left : Text) → HasTables p via
        → BlockFits p via predictor run old bits
        → block_from p via.dc via.ac predictor run old (alone bits) ≡ Ok (r, left)
        → IsCut (IsBlock p via predictor run r) bits left }
{}

/// The blocks of an interval that are read were written where each fits and no run of blocks goes
/// beyond the last: the predictors and the run go from block to block for the reader as they do for
/// the writer (T.81, F.1.1.5.1, G.1.2.2 and G.1.2.3).
#[tactic(auto, using(crate::proofs::Taken::TakenTurns::blocks_taken))]
pub fn blocks_taken_are_written()
    ensures { (p : Pass) (predictors : List ℤ) (run : ℕ) (turns : List (Via × Block))
        (bits : List Bool) (blocks : List Block) (left : Text)
        → BlocksFit p predictors run turns bits
        → blocks_of p predictors run turns (alone bits) ≡ Ok (blocks, left)
        → IsCut (WritesBlocks p predictors run (numbers_read p turns blocks)) bits left }
{}

/// An interval up to a marker is written where its bits are those of its blocks, and at most 7 more
/// (T.81, F.1.2.3 and B.1.1.5).
pub fn intervals_of_written_bits_are_written()
    ensures { (p : Pass) (turns : List (Via × Block)) (bytes rest : List ℕ) (m : Marker)
        (left : Text) → (text_at bytes).ending ≡ Found m rest
        → IsCut (WritesBlocks p predictors_at_start 0 turns) (text_at bytes).bits left
        → length left.bits ≤ 7 → IsInterval p turns bytes m rest }
{}

/// An interval up to a marker whose blocks are read of its bits was written where they fit and
/// leave at most 7 bits (T.81, F.1.2.3 and B.1.1.5).
#[tactic(auto, using(crate::proofs::Taken::TakenScans::interval_of_taken))]
pub fn interval_taken_is_written()
    ensures { (p : Pass) (turns : List (Via × Block)) (bytes rest : List ℕ) (m : Marker)
        (blocks : List Block) (left : Text) → (text_at bytes).ending ≡ Found m rest
        → BlocksFit p predictors_at_start 0 turns (text_at bytes).bits
        → blocks_of p predictors_at_start 0 turns (alone (text_at bytes).bits) ≡ Ok (blocks, left)
        → length left.bits ≤ 7 → IsInterval p (numbers_read p turns blocks) bytes m rest }
{}

/// Intervals that are written one after the other, each up to RST with its number modulo 8 and the
/// last up to any marker, are those of a scan (T.81, E.1.4 and B.2.1).
#[tactic(auto, using(crate::proofs::Taken::TakenScans::last_interval))]
pub fn intervals_of_a_scan_are_written()
    ensures last { (p : Pass) (k : ℕ) (turns : List (Via × Block)) (bytes rest : List ℕ)
        (m : Marker) → IsInterval p turns bytes m rest → IsIntervals p k turns [] bytes m rest }
    ensures another { (p : Pass) (k : ℕ) (turns next : List (Via × Block))
        (more : List (List (Via × Block))) (bytes others rest : List ℕ) (m : Marker)
        → IsInterval p turns bytes (RST (k % 8)) others
        → IsIntervals p (suc k) next more others m rest
        → IsIntervals p k turns (next ∷ more) bytes m rest }
{}

/// A scan of blocks that a decoder reads was written for the blocks that are read, where its
/// intervals fit: each up to a marker, its blocks fit its bits, and they leave at most 7 of them
/// (T.81, B.1.1.5, E.1.4 and F.1.2.3). An interval that fits is read. Here the zeros stand after
/// its bits that a decoder reads up to the marker, and none is taken.
#[tactic(auto, using(crate::proofs::Taken::ReadScans::scan_written))]
pub fn scan_taken_is_written()
    ensures interval { (p : Pass) (turns : List (Via × Block)) (bytes rest : List ℕ) (m : Marker)
        → (fits : IntervalFits p turns bytes m rest)
        → interval (blocks_of p predictors_at_start 0 turns) bytes
        ≡ Ok ((fits.blocks, Some m), rest) }
    ensures written { (p : Pass) (k : ℕ) (turns : List (Via × Block))
        (more : List (List (Via × Block))) (bytes rest : List ℕ) (blocks : List Block) (m : Marker)
        → IntervalsFit p turns more bytes
        → intervals (blocks_of p predictors_at_start 0) k turns more bytes
        ≡ Ok ((blocks, Some m), rest)
        → IsIntervals p k (numbers_read p turns blocks) (others_read p turns more blocks)
        bytes m rest }
{}
