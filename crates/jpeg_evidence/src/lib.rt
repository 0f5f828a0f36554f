//! Laws that make definitions of the meaning evident, computed by the checker: the zigzag order and
//! the matrix of the inverse transform are those of T.81, and files of other programs mean the
//! picture that other decoders give. Nothing here is code that runs.
#![tactic(auto)]

ghost use Rattle.std.specs.Prelude.{◌≡◌, ◌-ℤ◌, ℕ, suc, true, false, pos, negsuc, neg_ℤ, Ok, Err};
ghost use Rattle.std.specs.Prelude.{◌+◌, ◌*◌, ◌<◌, ◌≤◌, ◌≤ℤ◌, List, ℤ};
ghost use Rattle.std.specs.Prelude.{Some, None, [], ◌∷◌, ◌++◌, map, replicate, codes};
ghost use Rattle.std.specs.List.{list_all, range_with_len};
ghost use Rattle.jpeg_bits.specs.Bands.{first_ac, token_at};
ghost use Rattle.jpeg_bits.specs.DefaultTables.{luminance_dc, chrominance_dc};
ghost use Rattle.jpeg_bits.specs.DefaultTables.{luminance_ac, chrominance_ac};
ghost use Rattle.jpeg_bits.specs.Reading.{Malformed};
ghost use Rattle.jpeg_bits.specs.Refinement.{fits_i16, refined_ac};
ghost use Rattle.jpeg_bits.specs.Zigzag.{zigzag};
ghost use Rattle.jpeg_bits.specs.declared.color_transform.ColorTransform.TheVariants as transforms;
ghost use Rattle.jpeg_bits.specs.declared.scan.Predictor.TheVariants as selections;
ghost use Rattle.jpeg_bits.specs.declared.blocks.tokens.Token.TheVariants as tokens;
ghost use Rattle.jpeg_lossless.specs.Prediction.{line_below};
ghost use Rattle.jpeg_pixels.specs.Planes.{plane_of};
ghost use Rattle.jpeg_pixels.specs.Samples.{clamped, dequantized, sample};
ghost use Rattle.jpeg_pixels.specs.Upsampling.{upsampled};
ghost use Rattle.jpeg_pixels.specs.declared.upsample_rows.UpsampleRule.TheVariants as rules;
ghost use Rattle.jpeg_segments.specs.Application.{Adobe, Jfif, Avi1, Icc, Exif, Xmp, Psir, app_at};
ghost use Rattle.jpeg_segments.specs.Frame.{coding_of, is_differential_number, is_factor};
ghost use Rattle.jpeg_segments.specs.Frame.{is_precision, process_of};
ghost use Rattle.jpeg_segments.specs.HuffmanTables.{greatest_destination};
ghost use Rattle.jpeg_segments.specs.Quantization.{value_at};
ghost use Rattle.jpeg_segments.specs.Scales.{scale_for};
ghost use Rattle.jpeg_segments.specs.ScanHeader.{band_at, is_progressive_band, predictor_by};
ghost use Rattle.jpeg_segments.specs.ScanHeader.{scan_of};
ghost use Rattle.jpeg_segments.specs.declared.application.AdobeColorTransform.TheVariants as adobe;
ghost use Rattle.jpeg_segments.specs.declared.frame.CodingProcess.TheVariants as processes;
ghost use Rattle.jpeg_segments.specs.declared.frame.EntropyCoding.TheVariants as codings;
ghost use Rattle.jpeg_meaning.specs.ColourChoice.{by_identifiers};
ghost use Rattle.jpeg_meaning.specs.Segments.{is_decoded_count, is_decoded_precision};
ghost use Rattle.jpeg_meaning.specs.Worked.{luma_within, picture_meant, picture_with};
ghost use Rattle.jpeg_meaning.specs.WorkedImages.{IsWhollyWritten};
ghost use Rattle.jpeg_meaning.specs.WorkedSamples.{AreWritten};
ghost use Rattle.jpeg_evidence.specs.Cosines.{adds, are_entries, cosine, is_positive, unit};
ghost use Rattle.jpeg_evidence.specs.Exact.{distance, squares, unclamped, whole};
ghost use Rattle.jpeg_evidence.specs.Files.{file_of_table_1, lossless_file, picture_of_files};
ghost use Rattle.jpeg_evidence.specs.Files.{progressive_file, samples_of_file, sequential_file};
ghost use Rattle.jpeg_evidence.specs.Files.{coefficients_of_files, file_tables, lines_of_file};
ghost use Rattle.jpeg_evidence.specs.Headers.{adobe_segment, f0_and_one, frame_numbers};
ghost use Rattle.jpeg_evidence.specs.Headers.{progressive_grey};
ghost use Rattle.jpeg_evidence.specs.Headers.{ones, table_of_f0};
ghost use Rattle.jpeg_evidence.specs.Walks.{at, walk};

pub mod complete_rows;
pub mod cut_images;
pub mod cut_streams;
pub mod departures;
pub mod extremes;
pub mod found_tables;
pub mod header_rules;
pub mod limits;
pub mod longer_streams;
pub mod read_back;
pub mod worked;

/// The zigzag order is the walk over a block's diagonals of T.81, Figure A.6.
#[tactic(auto, unfolding(crate::specs::Walks::walk))]
pub fn zigzag_is_a_walk()
    ensures { zigzag ≡ walk 64 (at 0 0) }
{}

/// The numbers of `cosines` are cosines: 1, 0 and -1 at 0, 8 and 16 sixteenths of pi, falling, and
/// adding up as cosines do.
#[tactic(auto, unfolding(crate::specs::Cosines::cosine, crate::specs::Cosines::adds))]
pub fn cosines_are_cosines()
    ensures first { cosine 0 ≡ pos unit }
    ensures middle { cosine 8 ≡ pos 0 }
    ensures last { cosine 16 ≡ neg_ℤ (pos unit) }
    ensures falls { list_all (λ m. is_positive (cosine m -ℤ cosine (suc m)))
        (range_with_len 0 16) ≡ true }
    ensures added { list_all (λ i. list_all (adds i) (range_with_len 0 17)) (range_with_len 0 17)
        ≡ true }
{}

/// The matrix of the inverse transform is that of the cosine transform (T.81, A.3.3), each entry
/// within 2 of 4096 sqrt 2 times its cosine.
#[tactic(auto, unfolding(crate::proofs::OnLiterals::matrix_on_literals))]
pub fn matrix_is_of_cosines()
    ensures { are_entries ≡ true }
{}

/// The samples are near those of the exact transform (T.81, A.3.3). Where the squares of a block's
/// dequantized coefficients add up to at most n^2, n being at most 2048, the number that is clamped
/// to a sample is within (617000 + 342 n) / 10^6 of A.3.3's. So it is less than 1 away where they
/// add up to at most 1119^2. (Those of a block of 8-bit samples add up to at most 1024^2 before
/// they are quantized, by Parseval's equation.)
#[tactic(auto, using(crate::proofs::Transform::NearTransform::nearness))]
pub fn transform_is_near()
    ensures clamped { (coefficients : List ℤ) (quantization : List ℕ) (x y : ℕ) →
        sample coefficients quantization x y ≡ clamped (unclamped coefficients quantization x y) }
    ensures near { (coefficients : List ℤ) (quantization : List ℕ) (n x y : ℕ) → n ≤ 2048 →
        x < 8 → y < 8 → squares (dequantized coefficients quantization) ≤ℤ pos (n * n) →
        1000000 * distance coefficients quantization x y ≤ (617000 + 342 * n) * whole }
    ensures within_one { (coefficients : List ℤ) (quantization : List ℕ) (x y : ℕ) →
        x < 8 → y < 8 → squares (dequantized coefficients quantization) ≤ℤ pos (1119 * 1119) →
        distance coefficients quantization x y < whole }
{}

/// A file of `cjpeg` means the picture that the original crate gives, and so does what `jpegtran`
/// makes of it as a progressive one.
pub fn files_mean_their_picture()
    ensures sequential { picture_meant sequential_file ≡ Ok picture_of_files }
    ensures progressive { picture_meant progressive_file ≡ Ok picture_of_files }
{}

/// A lossless file of `dcmcjpeg` means the samples that it was given.
#[tactic(auto, unfolding(crate::proofs::OnLiterals::files_on_literals))]
pub fn lossless_file_means_its_samples()
    ensures { picture_meant lossless_file ≡ Ok samples_of_file }
{}

/// Where the luma is asked for, a lossless picture has its samples all the same, 105 of them, which
/// the limit counts.
#[tactic(auto, unfolding(crate::proofs::OnLiterals::files_on_literals))]
pub fn lossless_pictures_are_whole()
    ensures whole { picture_with (luma_within 105 None) lossless_file ≡ Ok samples_of_file }
    ensures limit { picture_with (luma_within 104 None) lossless_file ≡ Err Malformed }
{}

/// Both files are written for one array of coefficients: that of `cjpeg` as a sequential stream,
/// and what `jpegtran` makes of it as a progressive one.
pub fn files_are_written()
    ensures sequential { IsWhollyWritten coefficients_of_files sequential_file }
    ensures progressive { IsWhollyWritten coefficients_of_files progressive_file }
{}

/// The lossless file is written for the samples that it was given.
pub fn lossless_file_is_written()
    ensures { AreWritten lines_of_file lossless_file }
{}

/// The table of a lossless scan's component is that of Td, not of Ta (T.81, B.2.3): with the table
/// and Td at 1, the file means the same.
#[tactic(auto, unfolding(crate::proofs::OnLiterals::files_on_literals))]
pub fn lossless_tables_are_by_td()
    ensures { picture_meant file_of_table_1 ≡ Ok samples_of_file }
{}

/// The default Huffman tables of MJPEG frames are the four that `cjpeg` writes into its file.
#[tactic(auto, unfolding(jpeg_meaning::proofs::OnLiterals::streams_on_literals))]
pub fn default_tables_are_of_a_file()
    ensures luminance { file_tables 179 ≡ Ok (luminance_dc ∷ []) }
    ensures luminance_rest { file_tables 212 ≡ Ok (luminance_ac ∷ []) }
    ensures chrominance { file_tables 395 ≡ Ok (chrominance_dc ∷ []) }
    ensures chrominance_rest { file_tables 428 ≡ Ok (chrominance_ac ∷ []) }
{}

/// What segments of applications say. Adobe's transform is the last of its twelve bytes, the data
/// of Exif, XMP and Photoshop begin after their names, and a part of an ICC profile has its number
/// and then the count of the parts.
#[tactic(auto, unfolding(jpeg_meaning::proofs::OnLiterals::streams_on_literals))]
pub fn applications_are_read()
    ensures jfif { app_at 0 (0 ∷ 7 ∷ (codes "JFIF" ++ 0 ∷ [])) ≡ Ok (Some Jfif, []) }
    ensures mjpeg { app_at 0 (0 ∷ 7 ∷ (codes "AVI1" ++ 0 ∷ [])) ≡ Ok (Some Avi1, []) }
    ensures exif { app_at 1 (0 ∷ 10 ∷ (codes "Exif" ++ 0 ∷ 0 ∷ 77 ∷ 78 ∷ []))
        ≡ Ok (Some (Exif (77 ∷ 78 ∷ [])), []) }
    ensures xmp { app_at 1 (0 ∷ 33 ∷ (codes "http://ns.adobe.com/xap/1.0/" ++ 0 ∷ 60 ∷ 62 ∷ []))
        ≡ Ok (Some (Xmp (60 ∷ 62 ∷ [])), []) }
    ensures icc { app_at 2 (0 ∷ 18 ∷ (codes "ICC_PROFILE" ++ 0 ∷ 1 ∷ 2 ∷ 5 ∷ 6 ∷ []))
        ≡ Ok (Some (Icc (record { number = 1; count = 2; bytes = 5 ∷ 6 ∷ [] })), []) }
    ensures photoshop { app_at 13 (0 ∷ 17 ∷ (codes "Photoshop 3.0" ++ 0 ∷ 56 ∷ []))
        ≡ Ok (Some (Psir (56 ∷ [])), []) }
    ensures unknown { app_at 14 (adobe_segment 0) ≡ Ok (Some (Adobe adobe.Unknown), []) }
    ensures ycbcr { app_at 14 (adobe_segment 1) ≡ Ok (Some (Adobe adobe.YCbCr), []) }
    ensures ycck { app_at 14 (adobe_segment 2) ≡ Ok (Some (Adobe adobe.YCCK), []) }
    ensures another { app_at 14 (adobe_segment 3) ≡ Err Malformed }
{}

/// What the numbers of headers mean, and which are allowed (T.81, Tables B.1 to B.5 and H.1).
#[tactic(auto, unfolding(jpeg_meaning::proofs::OnLiterals::streams_on_literals))]
pub fn headers_are_of_tables()
    // The frames SOF0 to SOF3, SOF5 to SOF7, SOF9 to SOF11 and SOF13 to SOF15.
    ensures process { map process_of frame_numbers ≡ processes.DctSequential
        ∷ processes.DctSequential ∷ processes.DctProgressive ∷ processes.Lossless
        ∷ processes.DctSequential ∷ processes.DctProgressive ∷ processes.Lossless
        ∷ processes.DctSequential ∷ processes.DctProgressive ∷ processes.Lossless
        ∷ processes.DctSequential ∷ processes.DctProgressive ∷ processes.Lossless ∷ [] }
    ensures differential { map is_differential_number frame_numbers
        ≡ replicate 4 false ++ (replicate 3 true ++ (replicate 3 false ++ replicate 3 true)) }
    ensures coding { map coding_of frame_numbers
        ≡ replicate 7 codings.Huffman ++ replicate 6 codings.Arithmetic }

    // Precisions, factors, and numbers of components that are decoded.
    ensures baseline { map (is_precision 0) (7 ∷ 8 ∷ 12 ∷ []) ≡ false ∷ true ∷ false ∷ [] }
    ensures extended { map (is_precision 1) (7 ∷ 8 ∷ 12 ∷ []) ≡ false ∷ true ∷ true ∷ [] }
    ensures lossless { map (is_decoded_precision processes.Lossless) (1 ∷ 2 ∷ 16 ∷ 17 ∷ [])
        ≡ false ∷ true ∷ true ∷ false ∷ [] }
    ensures factors { map is_factor (0 ∷ 1 ∷ 2 ∷ 3 ∷ 4 ∷ 5 ∷ [])
        ≡ false ∷ true ∷ true ∷ true ∷ true ∷ false ∷ [] }
    ensures counts { map is_decoded_count (0 ∷ 1 ∷ 2 ∷ 3 ∷ 4 ∷ 5 ∷ [])
        ≡ false ∷ true ∷ false ∷ true ∷ true ∷ false ∷ [] }

    // Destinations of Huffman tables, and values of 16 bits in quantization tables.
    ensures destinations { map (λ is_baseline. greatest_destination (Some is_baseline))
        (true ∷ false ∷ []) ≡ 1 ∷ 3 ∷ [] }
    ensures wide { value_at true (1 ∷ 2 ∷ []) ≡ Ok (258, []) }

    // Predictors by their numbers, and progressive scans by the number of their components, their
    // band, and the levels Ah and Al.
    ensures predictors { map predictor_by (0 ∷ 1 ∷ 2 ∷ 3 ∷ 4 ∷ 5 ∷ 6 ∷ 7 ∷ [])
        ≡ selections.NoPrediction ∷ selections.Ra ∷ selections.Rb ∷ selections.Rc
        ∷ selections.RaRbRc1 ∷ selections.RaRbRc2 ∷ selections.RaRbRc3 ∷ selections.RaRb ∷ [] }
    ensures dc { is_progressive_band 3 0 0 0 1 ≡ true }
    ensures dc_and_ac { is_progressive_band 1 0 5 0 0 ≡ false }
    ensures ac { is_progressive_band 1 1 63 0 0 ≡ true }
    ensures ac_of_two { is_progressive_band 2 1 5 0 0 ≡ false }
    ensures beyond { is_progressive_band 1 1 64 0 0 ≡ false }
    ensures refined { is_progressive_band 1 1 63 2 1 ≡ true }
    ensures not_refined { is_progressive_band 1 1 63 1 1 ≡ false }
    ensures levels { map (is_progressive_band 1 0 0 0) (13 ∷ 14 ∷ []) ≡ true ∷ false ∷ [] }
    ensures level_7 { band_at progressive_grey [] (0 ∷ 0 ∷ 7 ∷ [])
        ≡ Ok (scan_of progressive_grey [] 0 0 7, []) }
    ensures level_8 { band_at progressive_grey [] (0 ∷ 0 ∷ 8 ∷ []) ≡ Err Malformed }

    // Identifiers of components that name their colours.
    ensures wide_ycc { by_identifiers (1 ∷ 34 ∷ 35 ∷ []) ≡ Some transforms.JcsBgYcc }
    ensures wide_rgb { by_identifiers (114 ∷ 103 ∷ 98 ∷ []) ≡ Some transforms.JcsBgRgb }
    ensures others { by_identifiers (1 ∷ 2 ∷ 4 ∷ []) ≡ None }
{}

/// Where numbers end: a refinement stays in 16 bits, and a value that is longer than the rest of
/// its band is taken where it and its code have at most 8 bits (own to the decoder).
#[tactic(auto, unfolding(jpeg_meaning::proofs::OnLiterals::streams_on_literals))]
pub fn numbers_end()
    ensures refined { map fits_i16 (pos 32767 ∷ pos 32768 ∷ negsuc 32767 ∷ negsuc 32768 ∷ [])
        ≡ true ∷ false ∷ true ∷ false ∷ [] }
    ensures taken { token_at 1 1 1 7 (ones 9) ≡ Ok (tokens.Overlong, ones 2) }
    ensures left { token_at 1 2 1 7 (ones 9) ≡ Ok (tokens.Overlong, ones 9) }
{}

/// A symbol F0 stands for sixteen zeros, in a first pass over a band and in a refinement (T.81,
/// F.1.2.2.1 and G.1.2.3).
#[tactic(auto, unfolding(jpeg_meaning::proofs::OnLiterals::streams_on_literals))]
pub fn sixteen_zeros_are_run()
    ensures first { first_ac table_of_f0 0 17 (replicate 17 (pos 0)) f0_and_one
        ≡ Ok ((replicate 16 (pos 0) ++ pos 1 ∷ [], 0), ones 0) }
    ensures refined { refined_ac table_of_f0 0 17 (replicate 17 (pos 0)) f0_and_one
        ≡ Ok ((replicate 16 (pos 0) ++ pos 1 ∷ [], 0), ones 0) }
{}

/// The sums of a column are rounded to the nearest, at full and at half size, and a sample at an
/// eighth is rounded down (own to the decoder: T.81, A.3.3, leaves the accuracy open). Each of the
/// first two blocks has a sum that ends in one half.
#[tactic(auto, unfolding(jpeg_meaning::proofs::OnLiterals::streams_on_literals))]
pub fn sums_are_rounded()
    ensures full { plane_of 8 (replicate 64 1) 1 1
        (λ row column. pos 3 ∷ (replicate 7 (pos 0) ++ pos 96 ∷ replicate 55 (pos 0)))
        ≡ replicate 8 145 ++ (replicate 8 143 ++ (replicate 8 138 ++ (replicate 8 132
        ++ (replicate 8 125 ++ (replicate 8 119 ++ (replicate 8 114 ++ replicate 8 112)))))) }
    ensures half { plane_of 4 (replicate 64 1) 1 1
        (λ row column. pos 0 ∷ (replicate 7 (pos 0) ++ pos 67 ∷ (replicate 15 (pos 0)
        ++ pos 8 ∷ replicate 39 (pos 0))))
        ≡ replicate 4 140 ++ (replicate 4 131 ++ (replicate 4 125 ++ replicate 4 117)) }
    ensures eighth { plane_of 1 (replicate 64 1) 1 1
        (λ row column. pos 4 ∷ replicate 63 (pos 0)) ≡ 128 ∷ [] }
{}

/// A lossless sample's prediction by three others has the sample above and to the left in its own
/// column (T.81, H.1.2.1).
#[tactic(auto, unfolding(jpeg_meaning::proofs::OnLiterals::samples_on_literals))]
pub fn lines_are_predicted()
    ensures corner { line_below selections.Rc 128 (10 ∷ 20 ∷ 40 ∷ 80 ∷ []) (1 ∷ 2 ∷ 3 ∷ 4 ∷ [])
        ≡ 11 ∷ 12 ∷ 23 ∷ 44 ∷ [] }
    ensures plane { line_below selections.RaRbRc1 128 (10 ∷ 20 ∷ 40 ∷ 80 ∷ [])
        (1 ∷ 2 ∷ 3 ∷ 4 ∷ []) ≡ 11 ∷ 23 ∷ 46 ∷ 90 ∷ [] }
    ensures left_slope { line_below selections.RaRbRc2 128 (10 ∷ 20 ∷ 40 ∷ 80 ∷ [])
        (1 ∷ 2 ∷ 3 ∷ 4 ∷ []) ≡ 11 ∷ 18 ∷ 31 ∷ 55 ∷ [] }
    ensures above_slope { line_below selections.RaRbRc3 128 (10 ∷ 20 ∷ 40 ∷ 80 ∷ [])
        (1 ∷ 2 ∷ 3 ∷ 4 ∷ []) ≡ 11 ∷ 22 ∷ 44 ∷ 86 ∷ [] }
{}

/// A component with half the columns and a quarter of the lines is repeated twice across and four
/// times down (own to the decoder: T.81, A.1.1, only says how many samples there are).
#[tactic(auto, unfolding(jpeg_meaning::proofs::OnLiterals::streams_on_literals))]
pub fn samples_are_repeated()
    ensures across { map (λ x. upsampled (rules.Generic 2 4) (λ i j. 10 * j + i) 2 2 x 5)
        (range_with_len 0 4) ≡ 10 ∷ 10 ∷ 11 ∷ 11 ∷ [] }
    ensures down { map (λ row. upsampled (rules.Generic 2 4) (λ i j. 10 * j + i) 2 2 3 row)
        (range_with_len 0 8) ≡ 1 ∷ 1 ∷ 1 ∷ 1 ∷ 11 ∷ 11 ∷ 11 ∷ 11 ∷ [] }
{}

/// A scale is large enough where the picture is as wide as requested, or as high (own to the
/// decoder).
#[tactic(auto, unfolding(jpeg_meaning::proofs::OnLiterals::streams_on_literals))]
pub fn either_side_is_enough()
    ensures width { scale_for 500 333 63 333 ≡ 1 }
    ensures height { scale_for 500 333 500 42 ≡ 1 }
    ensures neither { scale_for 500 333 64 43 ≡ 2 }
{}
