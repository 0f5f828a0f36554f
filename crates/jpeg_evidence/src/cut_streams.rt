//! What streams that are cut or damaged show, computed as it is checked; and, for all streams, that
//! what is shown without a fault is what is meant, and which faults are those of the meaning.
ghost use Rattle.std.specs.Prelude.{◌≡◌, ◌⊎◌, ℕ, List, Ok, Err, Some, None, [], ◌∷◌, ◌++◌};
ghost use Rattle.std.specs.Prelude.{drop, replicate, take};
ghost use Rattle.std.specs.List.{concat};
ghost use Rattle.jpeg_bits.specs.Reading.{Fault, Malformed, End};
ghost use Rattle.jpeg_segments.specs.Frame.{Frame};
ghost use Rattle.jpeg_meaning.specs.ScanSegments.{components_of};
ghost use Rattle.jpeg_meaning.specs.Shown.{Shown, shown, whole_rows};
ghost use Rattle.jpeg_meaning.specs.Stream.{meaning};
ghost use Rattle.jpeg_meaning.specs.Worked.{eight_times, picture_meant, scanned_twice, stream_with};
ghost use Rattle.jpeg_meaning.specs.declared.settings.Settings.{Settings};
ghost use Rattle.jpeg_evidence.specs.EarlyEnds.{StreamEndsEarly};
ghost use Rattle.jpeg_evidence.specs.CutImages.{rows_before};
ghost use Rattle.jpeg_evidence.specs.CutStreams.{block_below, codings_of_two, frame_of_three};
ghost use Rattle.jpeg_evidence.specs.CutStreams.{frame_of_two};
ghost use Rattle.jpeg_evidence.specs.CutStreams.{lines_of_samples, one_of_three, run_at_end, seen};
ghost use Rattle.jpeg_evidence.specs.CutStreams.{seen_sized, three_refined, two_blocks, two_lines};
ghost use Rattle.jpeg_evidence.specs.CutStreams.{two_lines_twice, two_rows_of_mcus, unread_bits};
ghost use Rattle.jpeg_evidence.specs.CutStreams.{unread_end, without_last, wrong_restart};
ghost use Rattle.jpeg_evidence.specs.CutStreams.{wrong_row_restart};

/// Where `decode_partial` names no fault, `decode` gives the same: what a stream shows without a
/// fault is what it means, picture and metadata, within the same limit.
#[tactic(auto, using(jpeg_meaning::proofs::Partial::Faultless::faultless_streams_are_meant))]
pub fn faultless_streams_are_meant()
    ensures { (settings : Settings) (bytes : List ℕ) (s : Shown) → shown settings bytes ≡ Ok s
        → s.fault ≡ None
        → (rest : List ℕ) × (meaning settings bytes ≡ Ok ((s.told, s.picture), rest)) }
{}

/// Where `decode_partial` names no fault, all rows of the picture are complete.
#[tactic(auto, using(crate::proofs::Cut::AllRows::faultless_streams_have_all_rows))]
pub fn faultless_streams_have_all_rows()
    ensures { (settings : Settings) (bytes : List ℕ) (s : Shown) (frame : Frame)
        → shown settings bytes ≡ Ok s → s.fault ≡ None → s.told.frame ≡ Some frame
        → whole_rows bytes ≡ frame.output_height }
{}

/// The fault that `decode_partial` names is that of `decode`, unless a marker stands where the data
/// of a scan need one bit more: then `decode` takes zeros for the bits that are lacking, and here
/// the data are malformed. Where `decode` has a fault, one is named.
pub fn faults_are_the_meanings()
    ensures named { (settings : Settings) (bytes : List ℕ) (s : Shown) (f : Fault)
        → shown settings bytes ≡ Ok s → s.fault ≡ Some f → (meaning settings bytes ≡ Err f)
        ⊎ (StreamEndsEarly bytes × (f ≡ Malformed)) }
    ensures shown { (settings : Settings) (bytes : List ℕ) (s : Shown) (f : Fault)
        → shown settings bytes ≡ Ok s → meaning settings bytes ≡ Err f
        → (g : Fault) × (s.fault ≡ Some g) }
{}

/// Where more than 56 bits are left that no block needs, the end isn't looked for, and reading goes
/// on in them, as `decode` does. The first of two restart intervals has 66 such bits, and the bytes
/// end after them: a restart is due, and none is met. Where FF FF 00 stand after such bits, in the
/// last interval, EOI is met after them.
#[tactic(auto, unfolding(crate::proofs::OnLiterals::cuts_on_literals))]
pub fn unread_bits_are_passed()
    ensures seen { seen (without_last 2 unread_bits)
        ≡ Ok (eight_times (replicate 8 129 ++ replicate 8 128), Some Malformed) }
    ensures meant { picture_meant (without_last 2 unread_bits) ≡ Err Malformed }
    ensures no_marker { seen unread_end ≡ Ok (replicate 64 129, None) }
    ensures goes_on { picture_meant unread_end ≡ Ok (replicate 64 129) }
{}

/// A sequential stream of two blocks, cut before each of its last bytes: a block counts if all its
/// bits are there, and the rest is mid-grey.
#[tactic(auto, unfolding(crate::proofs::OnLiterals::cuts_on_literals))]
pub fn two_blocks_are_cut()
    ensures whole { seen two_blocks ≡ Ok (eight_times (replicate 8 129 ++ replicate 8 130), None) }
    ensures no_end { seen (without_last 2 two_blocks)
        ≡ Ok (eight_times (replicate 8 129 ++ replicate 8 130), Some End) }
    ensures in_second { seen (without_last 3 two_blocks)
        ≡ Ok (eight_times (replicate 8 129 ++ replicate 8 128), Some End) }
    ensures no_data { seen (without_last 4 two_blocks) ≡ Ok (replicate 128 128, Some End) }
    ensures no_frame { seen (take 70 two_blocks) ≡ Err End }
{}

/// A stream that EOI closes inside its second block: `decode` takes zeros for the bits that are
/// lacking, and here the block isn't there.
#[tactic(auto, unfolding(crate::proofs::OnLiterals::cuts_on_literals))]
pub fn closed_data_are_cut()
    ensures meant { picture_meant (stream_with 16 (65 ∷ []))
        ≡ Ok (eight_times (replicate 8 129 ++ replicate 8 130)) }
    ensures seen { seen (stream_with 16 (65 ∷ []))
        ≡ Ok (eight_times (replicate 8 129 ++ replicate 8 128), Some Malformed) }
{}

/// A progressive stream of three blocks at a quarter of its size, cut in the refinement of the
/// third, of which two bits of three are there: that block stays at its level.
#[tactic(auto, unfolding(crate::proofs::OnLiterals::cuts_on_literals))]
pub fn refinement_is_cut()
    ensures whole { seen_sized 6 2 three_refined
        ≡ Ok (132 ∷ 120 ∷ 132 ∷ 120 ∷ 132 ∷ 120 ∷ 136 ∷ 124 ∷ 136 ∷ 124 ∷ 136 ∷ 124 ∷ [], None) }
    ensures in_third { seen_sized 6 2 (without_last 3 three_refined)
        ≡ Ok (
          132 ∷ 120 ∷ 132 ∷ 120 ∷ 132 ∷ 124 ∷ 136 ∷ 124 ∷ 136 ∷ 124 ∷ 132 ∷ 124 ∷ [],
          Some End,
        ) }
{}

/// The fault of a restart marker, a run of blocks at the end of the bytes, a second scan that is
/// cut, and a frame of which two components weren't sent.
#[tactic(auto, unfolding(crate::proofs::OnLiterals::cuts_on_literals))]
pub fn other_faults_cut()
    ensures restart { seen wrong_restart
        ≡ Ok (eight_times (replicate 16 129 ++ replicate 16 128), Some Malformed) }
    ensures run { seen (without_last 2 run_at_end)
        ≡ Ok (eight_times (replicate 8 129 ++ replicate 8 128), Some End) }
    ensures second_scan { seen (without_last 2 scanned_twice) ≡ Ok (replicate 64 129, Some End) }
    ensures one_of_three { seen one_of_three
        ≡ Ok (concat (replicate 64 (128 ∷ 128 ∷ 130 ∷ [])), Some Malformed) }
{}

/// The rows of the picture above the row of MCUs that lacks a block: with two blocks beside each
/// other none, and with one below the other those of the first. A whole stream has all. Those above
/// the second of the latter, by the frame and its component alone, are as many.
#[tactic(auto, unfolding(crate::proofs::OnLiterals::rows_on_literals))]
pub fn rows_above_a_block_count()
    ensures whole { whole_rows block_below ≡ 16 }
    ensures beside { whole_rows (without_last 3 two_blocks) ≡ 0 }
    ensures below { whole_rows (without_last 3 block_below) ≡ 8 }
    ensures one_of_three { whole_rows one_of_three ≡ 0 }
    ensures second { rows_before frame_of_two (components_of codings_of_two)
        (record { slot = 0; index = 1 } ∷ []) ≡ 8 }
    ensures none { rows_before frame_of_two (components_of codings_of_two) [] ≡ 16 }
{}

/// Where lines of a component of the scan are blended with those below them, the last of the rows
/// above isn't complete: with all components at 4:2:0 and 4:4:0, and with the second alone. So it is
/// not at 4:2:2, where no lines are blended, with the first alone, which has all lines, and where
/// each line stands for four.
#[tactic(auto, unfolding(crate::proofs::OnLiterals::blended_on_literals))]
pub fn blended_rows_count()
    ensures both { rows_before (frame_of_three 2 2) (frame_of_three 2 2).components
        (record { slot = 0; index = 4 } ∷ []) ≡ 15 }
    ensures down { rows_before (frame_of_three 1 2) (frame_of_three 1 2).components
        (record { slot = 1; index = 2 } ∷ []) ≡ 31 }
    ensures second { rows_before (frame_of_three 1 2)
        (take 1 (drop 1 (frame_of_three 1 2).components)) (record { slot = 0; index = 1 } ∷ [])
        ≡ 15 }
    ensures first_row { rows_before (frame_of_three 1 2) (frame_of_three 1 2).components
        (record { slot = 0; index = 0 } ∷ []) ≡ 0 }
    ensures across { rows_before (frame_of_three 2 1) (frame_of_three 2 1).components
        (record { slot = 0; index = 2 } ∷ []) ≡ 8 }
    ensures first { rows_before (frame_of_three 1 2) (take 1 (frame_of_three 1 2).components)
        (record { slot = 0; index = 1 } ∷ []) ≡ 8 }
    ensures repeated { rows_before (frame_of_three 1 4) (frame_of_three 1 4).components
        (record { slot = 0; index = 4 } ∷ []) ≡ 32 }
{}

/// And those of whole lines of samples: of a scan that is cut in its second line, or has a wrong
/// restart marker after the first; and of three components, the second of whose rows of MCUs is
/// cut, which have two lines of the first component.
#[tactic(auto, unfolding(crate::proofs::OnLiterals::rows_on_literals))]
pub fn rows_of_whole_lines_count()
    ensures cut { whole_rows (without_last 3 two_lines) ≡ 1 }
    ensures restart { whole_rows wrong_row_restart ≡ 1 }
    ensures components { whole_rows (without_last 3 two_rows_of_mcus) ≡ 2 }
{}

/// The rows of MCUs of a lossless scan count if they are complete: the lines of a stream that is
/// cut in its second line, in its only one, or closed by EOI in the second, where `decode` takes
/// zeros for the bits that are lacking. Below the lines of a second scan, those of the first stay.
#[tactic(auto, unfolding(crate::proofs::OnLiterals::cuts_on_literals))]
pub fn whole_rows_count()
    ensures whole { seen two_lines
        ≡ Ok (129 ∷ 130 ∷ 131 ∷ 132 ∷ 130 ∷ 131 ∷ 132 ∷ 133 ∷ [], None) }
    ensures in_second { seen (without_last 3 two_lines)
        ≡ Ok (129 ∷ 130 ∷ 131 ∷ 132 ∷ replicate 4 128, Some End) }
    ensures in_first { seen (without_last 3 (lines_of_samples 1 8 (85 ∷ 85 ∷ [])))
        ≡ Ok (replicate 8 128, Some End) }
    ensures closed_meant { picture_meant (lines_of_samples 2 4 (85 ∷ []))
        ≡ Ok (129 ∷ 130 ∷ 131 ∷ 132 ∷ 128 ∷ 127 ∷ 126 ∷ 125 ∷ []) }
    ensures closed { seen (lines_of_samples 2 4 (85 ∷ []))
        ≡ Ok (129 ∷ 130 ∷ 131 ∷ 132 ∷ replicate 4 128, Some Malformed) }
    ensures earlier_scan { seen (without_last 3 two_lines_twice)
        ≡ Ok (127 ∷ 126 ∷ 125 ∷ 124 ∷ 130 ∷ 131 ∷ 132 ∷ 133 ∷ [], Some End) }
{}

/// Such a row may have several lines of a component, and those of others: three components, whose
/// second row is cut. After a wrong restart marker no row counts.
#[tactic(auto, unfolding(crate::proofs::OnLiterals::cuts_on_literals))]
pub fn rows_of_components_count()
    ensures whole { seen two_rows_of_mcus ≡ Ok (
      129 ∷ 129 ∷ 129 ∷ 130 ∷ 129 ∷ 129
          ∷ 131 ∷ 130 ∷ 130 ∷ 132 ∷ 130 ∷ 130 ∷ [],
      None,
    ) }
    ensures cut { seen (without_last 3 two_rows_of_mcus)
        ≡ Ok (129 ∷ 129 ∷ 129 ∷ 130 ∷ 129 ∷ 129 ∷ replicate 6 128, Some End) }
    ensures restart { seen wrong_row_restart
        ≡ Ok (129 ∷ 130 ∷ 131 ∷ 132 ∷ replicate 4 128, Some Malformed) }
{}
