//! What a stream brings up to some byte is brought by each longer one, too, which goes on from
//! there.
ghost use Rattle.std.specs.Prelude.{◌≡◌, ◌⊎◌, ◌*◌, ℕ, List, Bool, Option, [], ◌++◌, Ok, Err};
ghost use Rattle.std.specs.Prelude.{Some, None, length, replicate};
ghost use Rattle.std.specs.List.{AllByRecursion};
ghost use Rattle.jpeg_bits.specs.Reading.{End, Fault};
ghost use Rattle.jpeg_bits.specs.Codes.{IsTable, Table};
ghost use Rattle.jpeg_bits.specs.Entropy.{Broken};
ghost use Rattle.jpeg_bits.specs.Intervals.{intervals};
ghost use Rattle.jpeg_bits.specs.Passes.{Block, Pass, Via, whole_pass, zero_block};
ghost use Rattle.jpeg_bits.specs.Readers.{text};
ghost use Rattle.jpeg_bits.specs.declared.marker.Marker.{Marker};
ghost use Rattle.jpeg_lossless.specs.Differences.{interval_rows};
ghost use Rattle.jpeg_segments.specs.Frame.{Component, Frame};
ghost use Rattle.jpeg_segments.specs.ScanHeader.{Scan};
ghost use Rattle.jpeg_meaning.specs.Brought.{reached_from, scan_reached};
ghost use Rattle.jpeg_meaning.specs.Brought.{scan_rows_reached};
ghost use Rattle.jpeg_meaning.specs.Found.{Found};
ghost use Rattle.jpeg_meaning.specs.InTurn.{AreApart, AreArrays, Fits, IsIn, Reached};
ghost use Rattle.jpeg_meaning.specs.Levels.{Is8Bit, Levels, cut, nothing_sent, sent_after};
ghost use Rattle.jpeg_meaning.specs.LosslessScans.{LosslessCoding};
ghost use Rattle.jpeg_meaning.specs.Order.{Spot, mcu_size, spots_of};
ghost use Rattle.jpeg_meaning.specs.Scans.{Arrays, arrays_at, block_at};
ghost use Rattle.jpeg_meaning.specs.ScanSegments.{Coding, components_of, vias_from};
ghost use Rattle.jpeg_meaning.specs.Stream.{all_brought};
ghost use Rattle.jpeg_meaning.specs.WrittenScans.{Coefficients, WritesScan};
ghost use Rattle.jpeg_evidence.specs.CutStreams.{requantized, seen, without_last};
ghost use Rattle.jpeg_evidence.specs.FirstBlocks.{StandWhole};
ghost use Rattle.jpeg_meaning.specs.LongerStreams.{IsMost};
ghost use Rattle.jpeg_meaning.specs.LongerStreams.{IsDcAlone, IsKeptBefore, ReadsOn};
ghost use Rattle.jpeg_meaning.specs.LongerStreams.{ComesBy, GoesOn, HoldsFirst, HoldsSent};
ghost use Rattle.jpeg_meaning.specs.LongerStreams.{PlanesGoOn, RowsGoOn, planes_after};

/// More bits bring the blocks that the first bits bring alone, with what they carry on to the next
/// blocks, and are read on from the first bit after them. It holds of any pass, tables and bits,
/// also where the bits break a rule.
#[tactic(auto, using(jpeg_meaning::proofs::Longer::LongerBits::longer_bits_go_on))]
pub fn longer_bits_go_on()
    ensures { (p : Pass) (vias : List Via) (spots : List Spot) (old : Reached) (bits : List Bool)
        → GoesOn p vias spots old bits
        (reached_from p vias spots old (text bits [] (Broken End))).reached }
{}

/// Longer data of a scan bring the blocks that shorter ones bring, and go on with the blocks after
/// them, in the order of the scan and across its restart intervals. It holds of any bytes, whether
/// the data are cut, end with a marker or break a rule.
#[tactic(auto, using(jpeg_meaning::proofs::Longer::LongerScans::longer_data_read_on))]
pub fn longer_data_read_on()
    ensures { (p : Pass) (n : ℕ) (vias : List Via) (spots : List Spot) (arrays : Arrays)
        (bytes more : List ℕ)
        → ReadsOn spots arrays (scan_reached p n vias spots arrays bytes).reached
        (scan_reached p n vias spots arrays (bytes ++ more)).reached }
{}

/// As a scan has each block once, each block that shorter data bring is the one that longer data
/// bring, whatever comes after them; and each other block is as it was before the scan. The scans
/// of a frame have each block once (T.81, A.2). Where the longer data have no fault, their blocks
/// are those of the scan's meaning: so the beginning of a scan has the blocks that `decode` reads.
pub fn blocks_of_shorter_data_stay()
    ensures apart { (frame : Frame) (components : List Component)
        → AllByRecursion (Fits frame) components → AreApart (spots_of frame components) }
    ensures stay { (p : Pass) (n : ℕ) (vias : List Via) (spots : List Spot) (arrays : Arrays)
        (bytes more : List ℕ) → AreApart spots
        → HoldsFirst spots arrays (scan_reached p n vias spots arrays bytes).reached
        (scan_reached p n vias spots arrays (bytes ++ more)).reached }
    ensures meant { (p : Pass) (n : ℕ) (vias : List Via) (spots : List Spot) (arrays : Arrays)
        (bytes : List ℕ) (x : Option Marker × List ℕ) → AreApart spots
        → (scan_reached p n vias spots arrays bytes).rest ≡ Ok x
        → (m : Option Marker) × (rest : List ℕ) × (arrays_at p n vias spots arrays bytes
        ≡ Ok (((scan_reached p n vias spots arrays bytes).reached, m), rest)) }
{}

/// Longer data of a lossless scan bring the rows of MCUs that shorter ones bring, and go on with
/// the rows after them, across its restart intervals. So the samples that shorter data bring of
/// each component are the first of those that longer data bring. Where the data have no fault,
/// their rows are those of the scan's meaning.
pub fn rows_of_shorter_data_stay()
    ensures stay { (k : ℕ) (rows : List (List Table)) (groups : List (List (List Table)))
        (bytes more : List ℕ) → RowsGoOn (scan_rows_reached k rows groups bytes).0
        (scan_rows_reached k rows groups (bytes ++ more)).0 }
    ensures samples { (frame : Frame) (scan : Scan) (codings : List LosslessCoding)
        (shorter longer : List (List (List ℕ))) → RowsGoOn shorter longer
        → PlanesGoOn (planes_after frame scan codings shorter)
        (planes_after frame scan codings longer) }
    ensures meant { (k : ℕ) (rows : List (List Table)) (groups : List (List (List Table)))
        (bytes : List ℕ) (x : Option Marker × List ℕ)
        → (scan_rows_reached k rows groups bytes).1 ≡ Ok x
        → (m : Option Marker) × (rest : List ℕ) × (intervals interval_rows k rows groups bytes
        ≡ Ok (((scan_rows_reached k rows groups bytes).0, m), rest)) }
{}

/// The beginning of the data of a scan that a writer emits has the coefficients that were sent: its
/// first blocks at the levels after the scan, exactly those whose data stand whole in it, and no
/// other block is touched. Before the scan the coefficients are kept at the levels before it; in a
/// scan of DC alone a block of padding may be another one. In a sequential scan zeros are kept, and
/// the blocks are the coefficients.
pub fn cut_scans_have_what_was_sent()
    ensures sent { (frame : Frame) (restart : ℕ) (p : Pass) (codings : List Coding)
        (array : Coefficients) (bytes : List ℕ)
        (w : WritesScan frame restart p codings array bytes) (levels : Spot → Levels)
        (before : Arrays) (front more : List ℕ)
        → AllByRecursion (Fits frame) (components_of codings)
        → AreArrays (components_of codings) before
        → AllByRecursion (λ k. IsTable k.dc × IsTable k.ac) codings
        → ((s : Spot) → IsIn s (spots_of frame (components_of codings))
        → IsKeptBefore p (levels s) (w.sent s) (block_at before s) ⊎ IsDcAlone p)
        → bytes ≡ front ++ more
        → (has : HoldsSent p (spots_of frame (components_of codings)) levels w.sent before
        (scan_reached p (restart * mcu_size (components_of codings)) (vias_from 0 codings)
        (spots_of frame (components_of codings)) before front).reached)
        × IsMost (λ count. StandWhole frame restart p codings w.sent count front)
        (length has.done) }
    ensures sequential { (c : Block) → Is8Bit c → IsKeptBefore whole_pass nothing_sent c zero_block
        × (cut (sent_after whole_pass nothing_sent) c ≡ c) }
{}

/// A longer stream comes by what a shorter one has brought. Where the shorter one has ended, more
/// bytes change nothing. Where it has brought something up to a fault, the longer one goes on from
/// there, or it brings the same blocks of the scan in which the shorter one stops, and goes on with
/// the blocks after them; of a lossless scan the same rows of MCUs, and those after them. What
/// later segments do to these isn't said. It holds of any bytes, also of those that break a rule.
pub fn longer_streams_go_on()
    ensures ended { (found : Found) (bytes more rest : List ℕ)
        → (all_brought None found bytes).rest ≡ Ok rest
        → all_brought None found (bytes ++ more)
        ≡ record (all_brought None found bytes) { rest = Ok (rest ++ more) } }
    ensures stopped { (found : Found) (bytes more : List ℕ) (fault : Fault)
        → (all_brought None found bytes).rest ≡ Err fault
        → ComesBy more (all_brought None found bytes).found (all_brought None found (bytes ++ more)) }
{}

/// It is blocks that stay, not samples: a quantization table after the scans counts for all blocks
/// of a progressive component whose coefficients weren't all sent.
#[tactic(auto, unfolding(crate::proofs::OnLiterals::cuts_on_literals))]
pub fn later_tables_change_samples()
    ensures shorter { seen (without_last 71 requantized) ≡ Ok (replicate 64 129, Some End) }
    ensures longer { seen requantized ≡ Ok (replicate 64 136, None) }
{}
