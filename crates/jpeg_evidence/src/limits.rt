//! A limit of the blocks that the scans of a stream code, all together: never more are decoded; a
//! stream within it means and shows what it does without one, and a stream above it is refused.
ghost use Rattle.std.specs.Prelude.{◌≡◌, ◌≤◌, ◌<◌, ℕ, Bool, true, false, List, [], ◌∷◌, length};
ghost use Rattle.std.specs.Prelude.{drop, nat_lt, replicate, take, Option, Some, None, Ok, Err};
ghost use Rattle.jpeg_bits.specs.Reading.{Malformed, End, Lacks};
ghost use Rattle.jpeg_bits.specs.declared.error.UnsupportedFeature.TheVariants.{DNL};
ghost use Rattle.jpeg_bits.specs.declared.marker.Marker.{Marker};
ghost use Rattle.jpeg_segments.specs.Frame.{Component, Frame};
ghost use Rattle.jpeg_meaning.specs.Found.{Found, nothing_found};
ghost use Rattle.jpeg_meaning.specs.Limits.{IsWithinLimit, exceeded_by, work_of, work_of_walk};
ghost use Rattle.jpeg_meaning.specs.Limits.{work_within};
ghost use Rattle.jpeg_meaning.specs.Order.{spots_of};
ghost use Rattle.jpeg_meaning.specs.Shown.{Shown, rows_of_found, shown, shown_of, shown_within};
ghost use Rattle.jpeg_meaning.specs.Shown.{whole_rows, whole_rows_within};
ghost use Rattle.jpeg_meaning.specs.Stream.{meaning, meaning_within, start_at, walk};
ghost use Rattle.jpeg_meaning.specs.Worked.{by_two_levels, eleven_blocks, odd_frame, own_blocks};
ghost use Rattle.jpeg_meaning.specs.Worked.{run_of_blocks, scanned_twice, stream_with};
ghost use Rattle.jpeg_meaning.specs.Worked.{stream_without_height, three_at_once, three_in_turn};
ghost use Rattle.jpeg_meaning.specs.Worked.{two_by_two};
ghost use Rattle.jpeg_meaning.specs.Work.{samples_coded};
ghost use Rattle.jpeg_meaning.specs.WorkedSamples.{padded_bytes, padded_picture};
ghost use Rattle.jpeg_meaning.specs.declared.before.Before.{Before};
ghost use Rattle.jpeg_meaning.specs.declared.before.Before.TheVariants.{Elsewhere};
ghost use Rattle.jpeg_bits.specs.declared.beyond.Beyond.{Beyond};
ghost use Rattle.jpeg_bits.specs.declared.beyond.Beyond.TheVariants.{Nothing, Zeros};
ghost use Rattle.jpeg_meaning.specs.declared.settings.Settings.{Settings};
ghost use Rattle.jpeg_evidence.specs.CutStreams.{without_last};
ghost use Rattle.jpeg_evidence.specs.Limits.{cut_and_scanned, meant_within, seen_within};
ghost use Rattle.jpeg_evidence.specs.Limits.{spots_counted, work_done};

/// Bounds the work of any segments, from any marker on. No more blocks are decoded than are left.
/// If the scans code no more, all are decoded, and the walk is that without a limit; if they code
/// more, one is refused. What is found by the end or the refusal is what some first turns find
/// without a limit, and the blocks of their scans are those that are decoded. The walk says whether
/// that is why it was refused. A header has no scans.
#[tactic(auto, using(crate::proofs::Work::LimitedMeanings::limit_rules))]
pub fn limits_bound()
    ensures bound { (left : ℕ) (beyond : Beyond) (turns : ℕ) (header : Bool) (before : Before)
        (found : Found) (met : Option Marker) (bytes : List ℕ)
        → work_within (Some left) beyond turns header before found met bytes ≤ left }
    ensures same { (limit : Option ℕ) (beyond : Beyond) (turns : ℕ) (header : Bool)
        (before : Before) (found : Found) (met : Option Marker) (bytes : List ℕ)
        → IsWithinLimit limit (work_of_walk beyond turns header before found met bytes)
        → walk limit beyond turns header before found met bytes
        ≡ walk None beyond turns header before found met bytes }
    ensures counted { (limit : Option ℕ) (beyond : Beyond) (turns : ℕ) (header : Bool)
        (before : Before) (found : Found) (met : Option Marker) (bytes : List ℕ)
        → IsWithinLimit limit (work_of_walk beyond turns header before found met bytes)
        → work_within limit beyond turns header before found met bytes
        ≡ work_of_walk beyond turns header before found met bytes }
    ensures refused { (left : ℕ) (beyond : Beyond) (turns : ℕ) (header : Bool) (before : Before)
        (found : Found) (met : Option Marker) (bytes : List ℕ)
        → left < work_of_walk beyond turns header before found met bytes
        → (walk (Some left) beyond turns header before found met bytes).rest ≡ Err Malformed }
    ensures exceeded { (left : ℕ) (beyond : Beyond) (turns : ℕ) (header : Bool) (before : Before)
        (found : Found) (met : Option Marker) (bytes : List ℕ)
        → (walk (Some left) beyond turns header before found met bytes).exceeded
        ≡ nat_lt left (work_of_walk beyond turns header before found met bytes) }
    ensures found { (limit : Option ℕ) (beyond : Beyond) (turns : ℕ) (header : Bool)
        (before : Before) (found : Found) (met : Option Marker) (bytes : List ℕ) → (n : ℕ)
        × ((walk limit beyond turns header before found met bytes).found
        ≡ (walk None beyond n header before found met bytes).found)
        × (work_of_walk beyond n header before found met bytes
        ≡ work_within limit beyond turns header before found met bytes) }
    ensures header { (beyond : Beyond) (turns : ℕ) (before : Before) (found : Found)
        (met : Option Marker) (bytes : List ℕ)
        → work_of_walk beyond turns true before found met bytes ≡ 0 }
{}

/// Gives what any bytes mean and show within a limit. If their scans code no more blocks, they mean
/// what they mean without a limit, and `decode_partial` shows the same, with as many complete rows.
/// If they code more, they have no meaning, and what is shown is what some first turns find, whose
/// scans are within the limit and lack no rows; the fault is that the stream is malformed. If that
/// has no picture, nothing is shown. A decoder knows whether they code more.
#[tactic(auto, using(crate::proofs::Work::LimitedMeanings::limit_rules))]
pub fn limited_meanings()
    ensures same { (limit : Option ℕ) (settings : Settings) (bytes : List ℕ)
        → IsWithinLimit limit (work_of Zeros bytes)
        → meaning_within limit settings bytes ≡ meaning settings bytes }
    ensures refused { (most : ℕ) (settings : Settings) (bytes : List ℕ)
        → most < work_of Zeros bytes
        → meaning_within (Some most) settings bytes ≡ Err Malformed }
    ensures shown { (limit : Option ℕ) (settings : Settings) (bytes : List ℕ)
        → IsWithinLimit limit (work_of Nothing bytes)
        → shown_within limit settings bytes ≡ shown settings bytes }
    ensures rows { (limit : Option ℕ) (bytes : List ℕ)
        → IsWithinLimit limit (work_of Nothing bytes)
        → whole_rows_within limit bytes ≡ whole_rows bytes }
    ensures stopped { (most : ℕ) (settings : Settings) (bytes rest : List ℕ)
        → start_at bytes ≡ Ok (tt, rest) → most < work_of Nothing bytes → (n : ℕ)
        × (work_of_walk Nothing n false Elsewhere nothing_found None rest ≤ most)
        × (shown_within (Some most) settings bytes ≡ shown_of settings
        (walk None Nothing n false Elsewhere nothing_found None rest).found (Err Malformed))
        × (whole_rows_within (Some most) bytes ≡ rows_of_found None
        (walk None Nothing n false Elsewhere nothing_found None rest).found) }
    ensures exceeded { (most : ℕ) (beyond : Beyond) (bytes : List ℕ)
        → exceeded_by (Some most) beyond bytes ≡ nat_lt most (work_of beyond bytes) }
    ensures unlimited { (beyond : Beyond) (bytes : List ℕ) → exceeded_by None beyond bytes ≡ false }
    ensures fault { (most : ℕ) (settings : Settings) (bytes : List ℕ) (s : Shown)
        → most < work_of Nothing bytes → shown_within (Some most) settings bytes ≡ Ok s
        → s.fault ≡ Some Malformed }
{}

/// Counts the blocks of a scan of some components by the sizes of their frame.
#[tactic(auto, using(crate::proofs::Work::SpotCounts::spots_are_counted))]
pub fn counted_work()
    ensures { (frame : Frame) (components : List Component)
        → length (spots_of frame components) ≡ spots_counted frame components }
{}

/// Counts the blocks that the scans of worked streams code.
#[tactic(auto, unfolding(crate::proofs::OnLiterals::limits_on_literals))]
pub fn known_work()
    // One block; and two, of which the second has only bits after the marker.
    ensures one { work_of Zeros (stream_with 8 (67 ∷ [])) ≡ 1 }
    ensures two { work_of Zeros (stream_with 16 (64 ∷ [])) ≡ 2 }
    // A component counts in each of its scans.
    ensures twice { work_of Zeros scanned_twice ≡ 2 }
    // Three components in one scan, and in one each.
    ensures at_once { work_of Zeros three_at_once ≡ 3 }
    ensures in_turn { work_of Zeros three_in_turn ≡ 3 }
    // Two MCUs of 4 + 1 + 1 blocks; and of two by two MCUs each component's own: 9, 4 and 4.
    ensures mcus { work_of Zeros two_by_two ≡ 12 }
    ensures own { work_of Zeros own_blocks ≡ 17 }
    // The blocks of a run count like others.
    ensures run { work_of Zeros run_of_blocks ≡ 4 }
    // Of a lossless scan of two by two MCUs of 4 + 1 samples, and of one of two lines of two, eight
    // samples each are a block, rounded up.
    ensures samples { work_of Zeros padded_bytes ≡ 4 }
    // The samples of a component of 9 by 5 alone, and of nine by five MCUs of 4 + 1 + 1.
    ensures alone { samples_coded odd_frame (take 1 (drop 1 odd_frame.components)) ≡ 45 }
    ensures together { samples_coded odd_frame odd_frame.components ≡ 270 }
    // A scan whose header has a fault has none, and one whose data have a fault has all.
    ensures header { work_of Zeros eleven_blocks ≡ 0 }
    ensures levels { work_of Zeros by_two_levels ≡ 1 }
    ensures data { work_of Zeros (stream_with 16 (67 ∷ [])) ≡ 2 }
    // Where a marker ends the data of the first scan, `decode` comes to the second.
    ensures goes_on { work_of Zeros cut_and_scanned ≡ 4 }
    ensures stops { work_of Nothing cut_and_scanned ≡ 2 }
    // Of two scans of a block each the limit lets none through, the first, or both.
    ensures none_done { work_done (Some 0) Zeros scanned_twice ≡ 0 }
    ensures one_done { work_done (Some 1) Zeros scanned_twice ≡ 1 }
    ensures all_done { work_done None Zeros scanned_twice ≡ 2 }
{}

/// Gives what worked streams mean and show with a limit at their count, or below it.
#[tactic(auto, unfolding(crate::proofs::OnLiterals::limits_on_literals))]
pub fn known_limits()
    ensures at { meant_within (Some 2) scanned_twice ≡ Ok (replicate 64 129) }
    ensures below { meant_within (Some 1) scanned_twice ≡ Err Malformed }
    ensures samples_at { meant_within (Some 4) padded_bytes ≡ Ok padded_picture }
    ensures samples_below { meant_within (Some 3) padded_bytes ≡ Err Malformed }
    // The limit comes before a fault after the scan's header.
    ensures after_data { meant_within (Some 1) (without_last 2 (stream_with 8 (67 ∷ [])))
        ≡ Err End }
    ensures before_data { meant_within (Some 0) (without_last 2 (stream_with 8 (67 ∷ [])))
        ≡ Err Malformed }
    // A fault of that header, or one before it, comes before the limit.
    ensures header { meant_within (Some 0) (without_last 3 (stream_with 8 [])) ≡ Err End }
    ensures frame { meant_within (Some 0) (stream_without_height 67) ≡ Err (Lacks DNL) }
    ensures empty { meant_within (Some 0) [] ≡ Err End }
    // `decode_partial` shows the scans before the one that is refused.
    ensures all_shown { seen_within (Some 2) scanned_twice ≡ Ok (replicate 64 129, None) }
    ensures first_shown { seen_within (Some 1) scanned_twice
        ≡ Ok (replicate 64 129, Some Malformed) }
    ensures none_shown { seen_within (Some 0) scanned_twice
        ≡ Ok (replicate 64 128, Some Malformed) }
    ensures rows_of_first { whole_rows_within (Some 1) scanned_twice ≡ 8 }
    ensures rows_of_none { whole_rows_within (Some 0) scanned_twice ≡ 0 }
    // The decoder knows why: not in a stream whose fault is another, although that is `Malformed`.
    ensures known_below { exceeded_by (Some 1) Zeros scanned_twice ≡ true }
    ensures known_at { exceeded_by (Some 2) Zeros scanned_twice ≡ false }
    ensures known_of_others { exceeded_by (Some 0) Zeros eleven_blocks ≡ false }
    ensures known_in_part { exceeded_by (Some 2) Nothing cut_and_scanned ≡ false }
    ensures known_of_whole { exceeded_by (Some 2) Zeros cut_and_scanned ≡ true }
{}
