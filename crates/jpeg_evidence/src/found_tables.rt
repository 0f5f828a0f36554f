//! The tables that a scan finds, and what else of headers no stream of the laws shows: so that a
//! definition that refuses more than it should doesn't make the relation of written streams smaller
//! unseen.
ghost use Rattle.std.specs.Prelude.{◌≡◌, ◌+◌, ℕ, [], ◌∷◌, List, Ok, Err, Some, None, true, false};
ghost use Rattle.std.specs.Prelude.{map, replicate, zip, pos, negsuc};
ghost use Rattle.std.specs.List.{range_with_len};
ghost use Rattle.jpeg_bits.specs.Bands.{after_token, first_dc};
ghost use Rattle.jpeg_bits.specs.DefaultTables.{chrominance_dc, luminance_ac};
ghost use Rattle.jpeg_bits.specs.Entropy.{Broken};
ghost use Rattle.jpeg_bits.specs.Reading.{Malformed, Lacks, End};
ghost use Rattle.jpeg_bits.specs.Marker.{marker_of};
ghost use Rattle.jpeg_bits.specs.Readers.{gives, text};
ghost use Rattle.jpeg_bits.specs.Refinement.{refined_ac};
ghost use Rattle.jpeg_bits.specs.declared.huffman.codes.HuffmanTableClass.TheVariants.{AC, DC};
ghost use Rattle.jpeg_bits.specs.declared.error.UnsupportedFeature.TheVariants as features;
ghost use Rattle.jpeg_bits.specs.declared.marker.Marker.TheVariants as markers;
ghost use Rattle.jpeg_bits.specs.declared.blocks.tokens.Token.TheVariants as tokens;
ghost use Rattle.jpeg_segments.specs.Application.{Exif, Xmp};
ghost use Rattle.jpeg_segments.specs.Frame.{Frame, frame_of, is_count, is_destination};
ghost use Rattle.jpeg_segments.specs.HuffmanTables.{greatest_destination};
ghost use Rattle.jpeg_segments.specs.ScanHeader.{Scan, scan_of, is_mcu, is_progressive_band};
ghost use Rattle.jpeg_segments.specs.ScanHeader.{is_sequential_band};
ghost use Rattle.jpeg_meaning.specs.Found.{Said, no_metadata, nothing_found, with_said};
ghost use Rattle.jpeg_meaning.specs.Pixels.{format_of};
ghost use Rattle.jpeg_meaning.specs.Profile.{profile_of};
ghost use Rattle.jpeg_meaning.specs.LosslessScans.{LosslessCoding, lossless_codings};
ghost use Rattle.jpeg_meaning.specs.ScanSegments.{Coding, codings_of};
ghost use Rattle.jpeg_meaning.specs.WrittenLossless.{AreSampleCodings};
ghost use Rattle.jpeg_meaning.specs.WrittenScans.{HasCodings};
ghost use Rattle.jpeg_bits.specs.Codes.{Table};
ghost use Rattle.std.specs.Prelude.{Option};
ghost use Rattle.jpeg_meaning.specs.Segments.{accepted, onward, with_application};
ghost use Rattle.jpeg_meaning.specs.Stream.{segment_at};
ghost use Rattle.jpeg_meaning.specs.declared.before.Before.TheVariants.{Elsewhere, LaterScan};
ghost use Rattle.jpeg_meaning.specs.declared.images.PixelFormat.TheVariants.{L8, L16, RGB24};
ghost use Rattle.jpeg_meaning.specs.declared.images.PixelFormat.TheVariants.{CMYK32};
ghost use Rattle.jpeg_evidence.specs.FoundTables.{ac_said, all_said, baseline_one, dc_said};
ghost use Rattle.jpeg_evidence.specs.FoundTables.{factors_with, four_selectors, frame_of_ten};
ghost use Rattle.jpeg_evidence.specs.FoundTables.{mjpeg_said, named, one_symbol, part_of_profile};
ghost use Rattle.jpeg_evidence.specs.FoundTables.{progressive_one, selector};

/// The codings of a scan that a written stream has are those that are found: where each of its
/// components has its tables, by the relation's own predicates, the reader's look-ups give them,
/// and they give no others.
#[tactic(auto, using(crate::proofs::Rules::found))]
pub fn codings_are_those_in_force()
    ensures written { (said : Said) (frame : Frame) (scan : Scan) (codings : List Coding) →
        HasCodings said frame scan codings → codings_of said frame scan ≡ Ok codings }
    ensures read { (said : Said) (frame : Frame) (scan : Scan) (codings : List Coding) →
        codings_of said frame scan ≡ Ok codings → HasCodings said frame scan codings }
    ensures lossless { (tables : List (Option Table)) (frame : Frame)
        (indices destinations : List ℕ) (codings : List LosslessCoding) →
        AreSampleCodings tables frame (zip indices destinations) codings →
        lossless_codings tables frame indices destinations ≡ Ok codings }
    ensures lossless_read { (tables : List (Option Table)) (frame : Frame)
        (indices destinations : List ℕ) (codings : List LosslessCoding) →
        lossless_codings tables frame indices destinations ≡ Ok codings →
        AreSampleCodings tables frame (zip indices destinations) codings }
{}

/// The tables of each component are those of its own destinations, of four components, too; a scan
/// of DC alone needs none for AC, nor one of AC alone for DC; and a refinement of DC needs one (own
/// to the decoder). Default tables are by each component's own destinations.
#[tactic(auto, unfolding(jpeg_meaning::proofs::OnLiterals::streams_on_literals))]
pub fn tables_are_by_destinations()
    ensures tables { named (codings_of (all_said frame_of_ten) frame_of_ten
        (scan_of frame_of_ten four_selectors 0 63 0)) ≡ Ok ((0, 13 ∷ [], 23 ∷ [], 30 ∷ [])
        ∷ (1, 12 ∷ [], 22 ∷ [], 31 ∷ []) ∷ (2, 11 ∷ [], 21 ∷ [], 32 ∷ [])
        ∷ (3, 10 ∷ [], 20 ∷ [], 33 ∷ []) ∷ []) }
    ensures dc_alone { named (codings_of dc_said progressive_one
        (scan_of progressive_one (selector 0 0 0 ∷ []) 0 0 1))
        ≡ Ok ((0, 10 ∷ [], 20 ∷ [], []) ∷ []) }
    ensures ac_alone { named (codings_of ac_said progressive_one
        (scan_of progressive_one (selector 0 0 0 ∷ []) 1 63 7))
        ≡ Ok ((0, 10 ∷ [], [], 30 ∷ []) ∷ []) }
    ensures dc_refined { named (codings_of ac_said progressive_one
        (scan_of progressive_one (selector 0 0 0 ∷ []) 0 0 16)) ≡ Err Malformed }
    ensures defaults { named (codings_of (mjpeg_said baseline_one) baseline_one
        (scan_of baseline_one (selector 0 1 0 ∷ []) 0 63 0))
        ≡ Ok ((0, 10 ∷ [], chrominance_dc.symbols, luminance_ac.symbols) ∷ []) }
{}

/// How many components, blocks and tables headers may have, and which levels.
#[tactic(auto, unfolding(jpeg_meaning::proofs::OnLiterals::streams_on_literals))]
pub fn headers_go_so_far()
    ensures blocks { is_mcu frame_of_ten four_selectors ≡ true }
    ensures progressive { map (is_count 2) (0 ∷ 1 ∷ 3 ∷ 4 ∷ 5 ∷ [])
        ≡ false ∷ true ∷ true ∷ true ∷ false ∷ [] }
    ensures quantization { map (is_destination false) (0 ∷ 3 ∷ 4 ∷ [])
        ≡ true ∷ true ∷ false ∷ [] }
    ensures before_a_frame { greatest_destination None ≡ 3 }
    ensures levels { map (λ low. is_progressive_band 1 1 63 (low + 1) low) (range_with_len 0 13)
        ≡ replicate 13 true }
    // A last coefficient of 0 is read as 63 (own to the decoder).
    ensures whole { map (λ last. is_sequential_band 0 last 0 0) (0 ∷ 62 ∷ 63 ∷ [])
        ≡ true ∷ false ∷ true ∷ [] }
{}

/// What is refused by name, and which markers a scan may be followed by.
#[tactic(auto, unfolding(jpeg_meaning::proofs::OnLiterals::streams_on_literals))]
pub fn refusals_are_named()
    ensures hierarchical { segment_at markers.DHP Elsewhere nothing_found []
        ≡ Err (Lacks features.Hierarchical) }
    ensures arithmetic { segment_at markers.DAC Elsewhere nothing_found []
        ≡ Err (Lacks features.ArithmeticEntropyCoding) }
    ensures second_frame { segment_at (markers.SOF 0) Elsewhere
        (with_said (λ said. record said { frame = Some progressive_one }) nothing_found) []
        ≡ Err (Lacks features.Hierarchical) }
    ensures precision { accepted (frame_of 1 12 8 8 (factors_with 1 1 1 0 ∷ []))
        ≡ Err (Lacks (features.SamplePrecision 12)) }
    ensures count { accepted (frame_of 0 8 8 8 (factors_with 1 1 1 0 ∷ factors_with 2 1 1 0 ∷ []))
        ≡ Err (Lacks (features.ComponentCount 2)) }
    ensures stray { segment_at (markers.RST 3) LaterScan nothing_found (1 ∷ [])
        ≡ Ok (onward nothing_found, 1 ∷ []) }
    ensures line_count { segment_at markers.DNL LaterScan nothing_found [] ≡ Err Malformed }
    ensures reserved { map marker_of (200 ∷ 204 ∷ []) ≡ Some markers.JPG ∷ Some markers.DAC ∷ [] }
{}

/// What a caller is told: the last Exif and XMP data, and the format.
#[tactic(auto, unfolding(jpeg_meaning::proofs::OnLiterals::streams_on_literals))]
pub fn callers_are_told()
    ensures exif { (with_application (with_application no_metadata (Some (Exif (1 ∷ []))))
        (Some (Exif (2 ∷ [])))).exif ≡ Some (2 ∷ []) }
    ensures xmp { (with_application (with_application no_metadata (Some (Xmp (1 ∷ []))))
        (Some (Xmp (2 ∷ [])))).xmp ≡ Some (2 ∷ []) }
    ensures format { format_of 1 8 ∷ format_of 1 9 ∷ format_of 3 8 ∷ format_of 4 8 ∷ []
        ≡ L8 ∷ L16 ∷ RGB24 ∷ CMYK32 ∷ [] }
{}

/// The parts of a profile are joined by their numbers, and none may be missing or repeated.
#[tactic(auto, unfolding(crate::proofs::OnLiterals::profiles_on_literals))]
pub fn profiles_are_joined()
    ensures profile { profile_of (part_of_profile 3 3 ∷ part_of_profile 1 3 ∷ part_of_profile 2 3
        ∷ []) ≡ Some (1 ∷ 1 ∷ 2 ∷ 2 ∷ 3 ∷ 3 ∷ []) }
    ensures no_profile { map profile_of ((part_of_profile 1 2 ∷ part_of_profile 1 2 ∷ [])
        ∷ (part_of_profile 0 2 ∷ part_of_profile 1 2 ∷ [])
        ∷ (part_of_profile 1 2 ∷ part_of_profile 2 3 ∷ []) ∷ (part_of_profile 1 2 ∷ []) ∷ [] ∷ [])
        ≡ replicate 5 None }
    ensures too_many { profile_of (map (λ n. part_of_profile (n + 1) 255) (range_with_len 0 255))
        ≡ None }
{}

/// DC and AC are kept modulo 2^16, and a refinement takes no value above 1 (the first is own to the
/// decoder).
#[tactic(auto, unfolding(jpeg_meaning::proofs::OnLiterals::streams_on_literals))]
pub fn numbers_go_round()
    ensures dc { first_dc (one_symbol DC 1) 7 (pos 255) (text (false ∷ true ∷ []) [] (Broken End))
        ≡ Ok ((negsuc 32767, pos 256), text [] [] (Broken End)) }
    ensures ac { after_token 7 (λ rest. gives (rest, 0)) (pos 0 ∷ []) (tokens.Value 0 (pos 256))
        (text [] [] (Broken End)) ≡ Ok ((negsuc 32767 ∷ [], 0), text [] [] (Broken End)) }
    ensures refined { refined_ac (one_symbol AC 2) 0 1 (pos 0 ∷ [])
        (text (false ∷ true ∷ []) [] (Broken End)) ≡ Err Malformed }
{}
