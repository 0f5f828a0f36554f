//! Streams and values that were worked by hand, and what the definitions make of them: each is
//! computed as it is checked.
ghost use Rattle.std.specs.Prelude.{◌≡◌, ℕ, ◌+◌, ◌/◌, ◌%◌, [], ◌∷◌, ◌++◌, map, replicate};
ghost use Rattle.std.specs.Prelude.{true, false, None, Some, Ok, Err, pos, negsuc};
ghost use Rattle.std.specs.List.{concat};
ghost use Rattle.jpeg_bits.specs.Reading.{Malformed, Lacks, End};
ghost use Rattle.jpeg_bits.specs.Zigzag.{zigzag};
ghost use Rattle.jpeg_bits.specs.declared.color_transform.ColorTransform.TheVariants as transforms;
ghost use Rattle.jpeg_bits.specs.declared.error.UnsupportedFeature.TheVariants.{DNL};
ghost use Rattle.jpeg_bits.specs.declared.scan.Predictor.TheVariants as selections;
ghost use Rattle.jpeg_lossless.specs.Pictures.{sample_bytes};
ghost use Rattle.jpeg_lossless.specs.Prediction.{line_below, selected, start_of};
ghost use Rattle.jpeg_segments.specs.Application.{Adobe};
ghost use Rattle.jpeg_segments.specs.Frame.{frame_of};
ghost use Rattle.jpeg_segments.specs.Scales.{frame_at, scale_for};
ghost use Rattle.jpeg_segments.specs.declared.application.AdobeColorTransform.TheVariants as adobe;
ghost use Rattle.jpeg_segments.specs.declared.scale.Scale.TheVariants as scales;
ghost use Rattle.jpeg_pixels.specs.Colour.{colour_of, conversion_of};
ghost use Rattle.jpeg_pixels.specs.Upsampling.{rule_of};
ghost use Rattle.jpeg_pixels.specs.declared.color_convert.ColorConvert.TheVariants as converts;
ghost use Rattle.jpeg_pixels.specs.declared.upsample_rows.UpsampleRule.TheVariants as rules;
ghost use Rattle.jpeg_meaning.specs.ColourChoice.{transform_of};
ghost use Rattle.jpeg_meaning.specs.Found.{no_metadata, nothing_found, nothing_said};
ghost use Rattle.jpeg_meaning.specs.FoundPlanes.{planes_of};
ghost use Rattle.jpeg_meaning.specs.Levels.{floor_at, toward_zero};
ghost use Rattle.jpeg_meaning.specs.Segments.{updated, with_application};
ghost use Rattle.jpeg_meaning.specs.Worked.{luma_within, picture_meant, picture_with};
ghost use Rattle.jpeg_meaning.specs.Worked.{larger_second, picture_scaled};
ghost use Rattle.jpeg_meaning.specs.Worked.{one_coefficient, picture_sized, planes_with};
ghost use Rattle.jpeg_meaning.specs.Worked.{eight_times, scan_text, stream_parts, stream_with};
ghost use Rattle.jpeg_meaning.specs.Worked.{stream_without_height, stream_of_one_coefficient};
ghost use Rattle.jpeg_meaning.specs.Worked.{scanned_twice, with_restart, three_at_once};
ghost use Rattle.jpeg_meaning.specs.Worked.{three_in_turn, two_to_one, refined, run_of_blocks};
ghost use Rattle.jpeg_meaning.specs.Worked.{two_by_two, own_blocks, without_tables, stray_marker};
ghost use Rattle.jpeg_meaning.specs.Worked.{category_12, eleven_blocks, by_two_levels, odd_frame};
ghost use Rattle.jpeg_meaning.specs.Worked.{factors_by};
ghost use Rattle.jpeg_meaning.specs.WorkedImages.{colour_bytes, colour_picture, flat_block};
ghost use Rattle.jpeg_meaning.specs.WorkedImages.{grey_bytes, grey_picture};
ghost use Rattle.jpeg_meaning.specs.WorkedSamples.{padded_bytes};
ghost use Rattle.jpeg_meaning.specs.WrittenPlanes.{planes_of_blocks, planes_of_samples};

/// Ten streams of one component, and what they mean.
#[tactic(auto, unfolding(jpeg_meaning::proofs::OnLiterals::streams_on_literals))]
pub fn known_streams()
    // A block of one coefficient, DC 8, is 64 samples of 129.
    ensures flat { picture_meant (stream_with 8 (67 ∷ [])) ≡ Ok (replicate 64 129) }

    // Bits after the marker are zeros: a second block has a difference of -15, and so DC -7.
    ensures after_marker { picture_meant (stream_with 16 (64 ∷ []))
        ≡ Ok (eight_times (replicate 8 129 ++ replicate 8 127)) }

    // Bits that begin no code are refused.
    ensures no_code { picture_meant (stream_with 16 (67 ∷ [])) ≡ Err Malformed }

    // FF FF 00 is refused where at most 56 bits come before it, and passed over after more.
    ensures met { picture_meant (stream_with 8 (67 ∷ replicate 6 0 ++ (255 ∷ 255 ∷ 0 ∷ [])))
        ≡ Err Malformed }
    ensures passed { picture_meant (stream_with 8 (67 ∷ replicate 7 0 ++ (255 ∷ 255 ∷ 0 ∷ [])))
        ≡ Ok (replicate 64 129) }

    // Restart markers at a scan's end are passed over.
    ensures restarts { picture_meant (stream_with 8 (67 ∷ 255 ∷ 208 ∷ 255 ∷ 215 ∷ []))
        ≡ Ok (replicate 64 129) }

    // A DNL segment after the first scan is refused by name.
    ensures lines { picture_meant (stream_with 8 (67 ∷ 255 ∷ 220 ∷ 0 ∷ 4 ∷ 0 ∷ 8 ∷ []))
        ≡ Err (Lacks DNL) }

    // A frame without a height is refused by name.
    ensures no_height { picture_meant (stream_without_height 67) ≡ Err (Lacks DNL) }

    // One AC coefficient gives columns that differ.
    ensures one_coefficient { picture_meant stream_of_one_coefficient
        ≡ Ok (eight_times (139 ∷ 137 ∷ 134 ∷ 130 ∷ 126 ∷ 122 ∷ 119 ∷ 117 ∷ [])) }

    // An empty stream has ended.
    ensures empty { picture_meant [] ≡ Err End }
{}

/// Streams of several components, with restarts, or in several scans, and what they mean.
#[tactic(auto, unfolding(jpeg_meaning::proofs::OnLiterals::streams_on_literals))]
pub fn known_scans()
    // Three components give the same picture in one scan and in one each, in any order.
    ensures at_once { picture_meant three_at_once
        ≡ Ok (concat (replicate 64 (129 ∷ 127 ∷ 130 ∷ []))) }
    ensures in_turn { picture_meant three_in_turn
        ≡ Ok (concat (replicate 64 (129 ∷ 127 ∷ 130 ∷ []))) }

    // Without a conversion the lines of the components follow one another.
    ensures lines { picture_with (record {
      limit = 192;
      color_transform = Some transforms.None;
      max_blocks = None;
      luma = false;
    }) three_at_once
        ≡ Ok (eight_times (replicate 8 129 ++ (replicate 8 127 ++ replicate 8 130))) }

    // A picture of more bytes than the limit is refused.
    ensures limit { picture_with (record {
      limit = 191;
      color_transform = None;
      max_blocks = None;
      luma = false;
    }) three_at_once ≡ Err Malformed }

    // A component has two blocks in an MCU.
    ensures factors { picture_meant two_to_one
        ≡ Ok (eight_times (concat (replicate 8 (129 ∷ 129 ∷ 127 ∷ []))
        ++ concat (replicate 8 (128 ∷ 129 ∷ 127 ∷ [])))) }

    // Predictors start again after a restart marker, which has to be the next in turn.
    ensures restart { picture_meant (with_restart 208) ≡ Ok (replicate 128 129) }
    ensures wrong_restart { picture_meant (with_restart 209) ≡ Err Malformed }

    // The first scan that finishes a component decides it, by the quantization table then in force.
    ensures first_decides { picture_meant scanned_twice ≡ Ok (replicate 64 129) }

    // A refinement, and the picture without it, at a quarter of the size.
    ensures refined { picture_sized 2 2 (refined (scan_text 1 1 2 16 (63 ∷ []) ∷ []))
        ≡ Ok (132 ∷ 120 ∷ 136 ∷ 124 ∷ []) }
    ensures unrefined { picture_sized 2 2 (refined []) ≡ Ok (132 ∷ 124 ∷ 132 ∷ 124 ∷ []) }

    // An end of band that stands for the next block too.
    ensures run { picture_meant run_of_blocks
        ≡ Ok (eight_times (replicate 8 129 ++ replicate 8 128)) }
{}

/// The luma of pictures in colour: the samples of the first component alone, where that is luma and
/// as large as the picture.
#[tactic(auto, unfolding(jpeg_meaning::proofs::OnLiterals::streams_on_literals))]
pub fn known_luma()
    // One sample a pixel, which the limit counts.
    ensures first { picture_with (luma_within 64 (Some transforms.YCbCr)) three_at_once
        ≡ Ok (replicate 64 129) }
    ensures limit { picture_with (luma_within 63 (Some transforms.YCbCr)) three_at_once
        ≡ Err Malformed }
    ensures factors { picture_with (luma_within 128 (Some transforms.YCbCr)) two_to_one
        ≡ Ok (eight_times (replicate 8 129 ++ replicate 8 128)) }

    // Components with the letters RGB have no luma, nor does a picture without a conversion.
    ensures letters { picture_with (luma_within 64 None) three_at_once ≡ Err Malformed }
    ensures none { picture_with (luma_within 64 (Some transforms.None)) three_at_once
        ≡ Err Malformed }

    // The first component is half as wide as the picture, or half as high.
    ensures narrow { picture_meant (larger_second 8 16 33)
        ≡ Ok (eight_times (concat (replicate 8 (129 ∷ 127 ∷ 127 ∷ []))
        ++ concat (replicate 8 (129 ∷ 128 ∷ 127 ∷ [])))) }
    ensures narrow_luma { picture_with (luma_within 128 (Some transforms.YCbCr))
        (larger_second 8 16 33) ≡ Err Malformed }
    ensures low_luma { picture_with (luma_within 128 (Some transforms.YCbCr))
        (larger_second 16 8 18) ≡ Err Malformed }

    // A picture of one component stays as it is, whatever transform is set.
    ensures grey { picture_with (luma_within 64 (Some transforms.RGB)) (stream_with 8 (67 ∷ []))
        ≡ Ok (replicate 64 129) }
{}

/// The planes of pictures: the samples of each component at its own size.
#[tactic(auto, unfolding(crate::proofs::OnLiterals::planes_on_literals))]
pub fn known_planes()
    // The first component is twice as wide as the others: 128 and 64 and 64 samples.
    ensures factors { planes_with 256 two_to_one
        ≡ Ok (eight_times (replicate 8 129 ++ replicate 8 128) ∷ replicate 64 129
        ∷ replicate 64 127 ∷ []) }
    ensures limit { planes_with 255 two_to_one ≡ Err Malformed }

    // Of a block of eight by eight samples the component has two lines of two.
    ensures cropped { planes_with 4 (one_coefficient 2 2)
        ≡ Ok ((139 ∷ 137 ∷ 139 ∷ 137 ∷ []) ∷ []) }

    // The first component of a lossless frame has three lines of three samples, the others two of
    // two.
    ensures lossless { planes_with 17 padded_bytes
        ≡ Ok ((129 ∷ 129 ∷ 128 ∷ 128 ∷ 129 ∷ 129 ∷ 128 ∷ 127 ∷ 127 ∷ [])
        ∷ (128 ∷ 129 ∷ 127 ∷ 127 ∷ []) ∷ (127 ∷ 127 ∷ 129 ∷ 128 ∷ []) ∷ []) }

    // Samples of 16 bits take two bytes, the lower first.
    ensures bytes { planes_of 2 (record nothing_found {
      said = record nothing_said { frame = Some (frame_of 3 16 2 1 (factors_by 1 1 ∷ [])) };
      samples = Some (258 ∷ 772 ∷ []) ∷ replicate 3 None;
    }) ≡ Ok ((2 ∷ 1 ∷ 4 ∷ 3 ∷ []) ∷ []) }
{}

/// The planes of coefficients and of samples, which a stream can be written for.
#[tactic(auto, unfolding(crate::proofs::OnLiterals::planes_on_literals))]
pub fn known_written_planes()
    // Flat blocks by a table of 8: two samples of the first component, one of each other.
    ensures blocks { planes_of_blocks 4 (record nothing_said {
      frame = Some (frame_of 0 8 2 1 (factors_by 1 2 ∷ factors_by 2 1 ∷ factors_by 3 1 ∷ []));
      quantization = Some (replicate 64 8) ∷ replicate 3 None;
    }) (λ index row column. flat_block (pos (index + 1)))
        ≡ Ok ((129 ∷ 129 ∷ []) ∷ (130 ∷ []) ∷ (131 ∷ []) ∷ []) }

    // Samples of 16 bits.
    ensures samples { planes_of_samples 2
        (record nothing_said { frame = Some (frame_of 3 16 2 1 (factors_by 1 1 ∷ [])) })
        (λ index. (258 ∷ 772 ∷ []) ∷ []) ≡ Ok ((2 ∷ 1 ∷ 4 ∷ 3 ∷ []) ∷ []) }
{}

/// The two images of the headline that are worked by hand, and their pictures.
pub fn known_images()
    ensures grey { picture_meant grey_bytes ≡ Ok grey_picture }
    ensures colour { picture_meant colour_bytes ≡ Ok colour_picture }
{}

/// The order of blocks in an MCU, and of those of a component that is alone in a scan: streams in
/// which each block has samples of its own.
pub fn known_orders()
    ensures mcu { picture_meant two_by_two ≡ Ok (
        eight_times (concat (replicate 8 (136 ∷ 136 ∷ 120 ∷ [])
        ++ (replicate 8 (145 ∷ 136 ∷ 120 ∷ []) ++ (replicate 8 (137 ∷ 136 ∷ 120 ∷ [])
        ++ replicate 8 (147 ∷ 136 ∷ 120 ∷ [])))))
        ++ eight_times (concat (replicate 8 (135 ∷ 136 ∷ 120 ∷ [])
        ++ (replicate 8 (127 ∷ 136 ∷ 120 ∷ []) ++ (replicate 8 (136 ∷ 136 ∷ 120 ∷ [])
        ++ replicate 8 (124 ∷ 136 ∷ 120 ∷ [])))))) }
    ensures own { picture_meant own_blocks ≡ Ok (
        eight_times (concat (replicate 8 (136 ∷ 136 ∷ 120 ∷ [])
        ++ (replicate 8 (145 ∷ 136 ∷ 120 ∷ []) ++ replicate 8 (135 ∷ 136 ∷ 120 ∷ []))))
        ++ (eight_times (concat (replicate 8 (127 ∷ 136 ∷ 120 ∷ [])
        ++ (replicate 8 (137 ∷ 136 ∷ 120 ∷ []) ++ replicate 8 (148 ∷ 136 ∷ 120 ∷ []))))
        ++ eight_times (concat (replicate 8 (136 ∷ 136 ∷ 120 ∷ [])
        ++ (replicate 8 (127 ∷ 136 ∷ 120 ∷ []) ++ replicate 8 (139 ∷ 136 ∷ 120 ∷ [])))))) }
    ensures own_at_an_eighth { picture_sized 3 3 own_blocks ≡ Ok (
        136 ∷ 136 ∷ 120 ∷ 145 ∷ 136 ∷ 120 ∷ 135 ∷ 136 ∷ 120
        ∷ 127 ∷ 136 ∷ 120 ∷ 137 ∷ 136 ∷ 120 ∷ 148 ∷ 136 ∷ 120
        ∷ 136 ∷ 136 ∷ 120 ∷ 127 ∷ 136 ∷ 120 ∷ 139 ∷ 136 ∷ 120 ∷ []) }
{}

/// A height and a width that are no multiples of 8 crop the picture.
#[tactic(auto, unfolding(jpeg_meaning::proofs::OnLiterals::streams_on_literals))]
pub fn known_crops()
    ensures lines { picture_meant (stream_parts 5 8 (67 ∷ []) []) ≡ Ok (replicate 40 129) }
    ensures columns { picture_meant (stream_parts 8 3 (67 ∷ []) []) ≡ Ok (replicate 24 129) }
{}

/// A frame of an MJPEG stream without its Huffman tables, and what the last Adobe segment says.
#[tactic(auto, unfolding(jpeg_meaning::proofs::OnLiterals::streams_on_literals))]
pub fn known_applications()
    ensures defaults { picture_meant without_tables ≡ Ok (replicate 64 129) }
    ensures last_adobe { (with_application (with_application no_metadata (Some (Adobe adobe.YCbCr)))
        (Some (Adobe adobe.YCCK))).adobe ≡ Some adobe.YCCK }
{}

/// Streams that break one rule: a restart marker before the frame, a DC difference of more than 11
/// bits, an MCU of more than 10 blocks, a refinement by two levels.
#[tactic(auto, unfolding(jpeg_meaning::proofs::OnLiterals::streams_on_literals))]
pub fn known_refusals()
    ensures stray { picture_meant stray_marker ≡ Err Malformed }
    ensures category { picture_meant category_12 ≡ Err Malformed }
    ensures eleven { picture_meant eleven_blocks ≡ Err Malformed }
    ensures levels { picture_meant by_two_levels ≡ Err Malformed }
{}

/// The scales for some requested sizes.
#[tactic(auto, unfolding(jpeg_segments::specs::Scales::scale_for))]
pub fn known_scales()
    ensures eighth { scale_for 5472 3648 684 456 ≡ 1 }
    ensures quarter { scale_for 5472 3648 685 999 ≡ 2 }
    ensures half { scale_for 5472 3648 1400 1400 ≡ 4 }
    ensures whole { scale_for 5472 3648 16384 16384 ≡ 8 }
    ensures either_side { scale_for 500 333 63 42 ≡ 1 }
    ensures least { scale_for 1 1 65535 65535 ≡ 8 }
{}

/// A picture of one sample at each scale, and by the requested size: it is one sample high
/// and wide at an eighth, so that `sized` never takes more of it.
#[tactic(auto, unfolding(jpeg_meaning::proofs::OnLiterals::streams_on_literals))]
pub fn known_scaled_pixels()
    ensures eighth { picture_scaled scales.Eighth (one_coefficient 1 1) ≡ Ok (128 ∷ []) }
    ensures quarter { picture_scaled scales.Quarter (one_coefficient 1 1) ≡ Ok (136 ∷ []) }
    ensures half { picture_scaled scales.Half (one_coefficient 1 1) ≡ Ok (138 ∷ []) }
    ensures full { picture_scaled scales.Full (one_coefficient 1 1) ≡ Ok (139 ∷ []) }
    ensures sized { picture_sized 1 1 (one_coefficient 1 1) ≡ Ok (128 ∷ []) }
    ensures two_by_two { picture_scaled scales.Half (one_coefficient 2 2) ≡ Ok (138 ∷ []) }
{}

/// Sizes that are no multiples of 8, at each scale.
#[tactic(auto, unfolding(crate::proofs::OnLiterals::sizes_on_literals))]
pub fn known_sizes()
    ensures eighth { (frame_at 1 odd_frame).output_width ≡ 3 }
    ensures quarter { (frame_at 2 odd_frame).output_width ≡ 5 }
    ensures half { (frame_at 4 odd_frame).output_width ≡ 9 }
    ensures whole { (frame_at 8 odd_frame).output_width ≡ 17 }
    ensures eighth_down { (frame_at 1 odd_frame).output_height ≡ 2 }
    ensures components { map (λ c. c.width) (frame_at 2 odd_frame).components
        ≡ 5 ∷ 3 ∷ 3 ∷ [] }
    ensures blocks { map (λ c. c.blocks_wide) odd_frame.components ≡ 4 ∷ 2 ∷ 2 ∷ [] }
{}

/// The zigzag goes along the diagonals, up and down in turn (T.81, Figure A.6).
pub fn known_zigzag()
    ensures diagonals { map (λ p. p / 8 + p % 8) zigzag
        ≡ concat (replicate 1 0 ∷ replicate 2 1 ∷ replicate 3 2 ∷ replicate 4 3 ∷ replicate 5 4
        ∷ replicate 6 5 ∷ replicate 7 6 ∷ replicate 8 7 ∷ replicate 7 8 ∷ replicate 6 9
        ∷ replicate 5 10 ∷ replicate 4 11 ∷ replicate 3 12 ∷ replicate 2 13 ∷ replicate 1 14 ∷ []) }
    ensures columns { map (λ p. p % 8) zigzag ≡ concat (
        (0 ∷ []) ∷ (1 ∷ 0 ∷ []) ∷ (0 ∷ 1 ∷ 2 ∷ []) ∷ (3 ∷ 2 ∷ 1 ∷ 0 ∷ []) ∷ (0 ∷ 1 ∷ 2 ∷ 3 ∷ 4 ∷ [])
        ∷ (5 ∷ 4 ∷ 3 ∷ 2 ∷ 1 ∷ 0 ∷ []) ∷ (0 ∷ 1 ∷ 2 ∷ 3 ∷ 4 ∷ 5 ∷ 6 ∷ [])
        ∷ (7 ∷ 6 ∷ 5 ∷ 4 ∷ 3 ∷ 2 ∷ 1 ∷ 0 ∷ []) ∷ (1 ∷ 2 ∷ 3 ∷ 4 ∷ 5 ∷ 6 ∷ 7 ∷ [])
        ∷ (7 ∷ 6 ∷ 5 ∷ 4 ∷ 3 ∷ 2 ∷ []) ∷ (3 ∷ 4 ∷ 5 ∷ 6 ∷ 7 ∷ []) ∷ (7 ∷ 6 ∷ 5 ∷ 4 ∷ [])
        ∷ (5 ∷ 6 ∷ 7 ∷ []) ∷ (7 ∷ 6 ∷ []) ∷ (7 ∷ []) ∷ []) }
{}

/// Point transforms of negative coefficients (T.81, G.1.2.1): DC is shifted, AC divided.
pub fn known_transforms()
    ensures dc { floor_at 1 (negsuc 4) ≡ negsuc 2 }
    ensures ac { toward_zero 1 (negsuc 4) ≡ negsuc 1 }
{}

/// Tables that are read replace those that were there.
#[tactic(auto, unfolding(jpeg_meaning::specs::Segments::updated))]
pub fn known_tables()
    ensures { updated {A = ℕ} (Some 1 ∷ None ∷ Some 3 ∷ None ∷ [])
        (Some 4 ∷ Some 5 ∷ None ∷ None ∷ []) ≡ Some 4 ∷ Some 5 ∷ Some 3 ∷ None ∷ [] }
{}

/// The rules by which components are upsampled.
#[tactic(auto, unfolding(jpeg_pixels::specs::Upsampling::rule_of))]
pub fn known_rules()
    ensures both { rule_of 1 1 2 2 2 2 ≡ Some rules.H2V2 }
    ensures one_column { rule_of 1 1 2 2 1 16 ≡ Some rules.H1V2 }
    ensures one_line { rule_of 1 1 2 2 16 1 ≡ Some rules.H2V1 }
    ensures one { rule_of 1 1 4 4 1 1 ≡ Some rules.H1V1 }
    ensures mixed { rule_of 1 1 2 4 8 8 ≡ Some (rules.Generic 2 4) }
    ensures not_whole { rule_of 3 1 4 2 8 8 ≡ None }
    ensures not_whole_down { rule_of 1 3 2 4 8 8 ≡ None }
{}

/// Which colour transform is chosen for components, and how it converts them.
#[tactic(auto, unfolding(crate::proofs::OnLiterals::choices_on_literals))]
pub fn known_choices()
    ensures none { transform_of None (0 ∷ 1 ∷ 2 ∷ []) false None ≡ transforms.YCbCr }
    ensures jfif { transform_of None (0 ∷ 1 ∷ 2 ∷ []) true (Some adobe.Unknown) ≡ transforms.YCbCr }
    ensures adobe { transform_of None (0 ∷ 1 ∷ 2 ∷ []) false (Some adobe.Unknown) ≡ transforms.RGB }
    ensures identified { transform_of None (1 ∷ 2 ∷ 3 ∷ []) false (Some adobe.Unknown)
        ≡ transforms.YCbCr }
    ensures letters { transform_of None (82 ∷ 71 ∷ 66 ∷ []) true (Some adobe.YCbCr)
        ≡ transforms.RGB }
    ensures big_gamut_ycc { transform_of None (1 ∷ 34 ∷ 35 ∷ []) true None ≡ transforms.JcsBgYcc }
    ensures big_gamut_rgb { transform_of None (114 ∷ 103 ∷ 98 ∷ []) true None
        ≡ transforms.JcsBgRgb }
    ensures three_ycck { transform_of None (0 ∷ 1 ∷ 2 ∷ []) false (Some adobe.YCCK)
        ≡ transforms.YCCK }
    ensures set { transform_of (Some transforms.None) (1 ∷ 2 ∷ 3 ∷ []) true None ≡ transforms.None }
    ensures four { transform_of None (1 ∷ 2 ∷ 3 ∷ 4 ∷ []) true None ≡ transforms.CMYK }
    ensures four_unknown { transform_of None (1 ∷ 2 ∷ 3 ∷ 4 ∷ []) false (Some adobe.Unknown)
        ≡ transforms.CMYK }
    ensures four_ycck { transform_of None (1 ∷ 2 ∷ 3 ∷ 4 ∷ []) false (Some adobe.YCCK)
        ≡ transforms.YCCK }
    ensures cmyk { conversion_of 4 transforms.CMYK ≡ Ok converts.Cmyk }
    ensures ycck { conversion_of 4 transforms.YCCK ≡ Ok converts.Ycck }
    ensures ycbcr { conversion_of 3 transforms.YCbCr ≡ Ok converts.YCbCr }
    ensures rgb { conversion_of 3 transforms.RGB ≡ Ok converts.Rgb }
    ensures misfit { conversion_of 3 transforms.CMYK ≡ Err Malformed }
{}

/// Colours of some pixels, by JFIF's equations rounded to the nearest.
#[tactic(auto, unfolding(crate::proofs::OnLiterals::pixels_on_literals))]
pub fn known_pixels()
    ensures middle { colour_of converts.YCbCr (128 ∷ 100 ∷ 200 ∷ []) ≡ 229 ∷ 86 ∷ 78 ∷ [] }
    ensures bright { colour_of converts.YCbCr (200 ∷ 60 ∷ 90 ∷ []) ≡ 147 ∷ 251 ∷ 80 ∷ [] }
    ensures blue { colour_of converts.YCbCr (90 ∷ 200 ∷ 60 ∷ []) ≡ 0 ∷ 114 ∷ 218 ∷ [] }
    ensures green_at_an_edge { colour_of converts.YCbCr (128 ∷ 19 ∷ 51 ∷ []) ≡ 20 ∷ 221 ∷ 0 ∷ [] }
    ensures green_at_another { colour_of converts.YCbCr (128 ∷ 2 ∷ 97 ∷ []) ≡ 85 ∷ 193 ∷ 0 ∷ [] }
{}

/// Lossless predictions by each selection, the first one of an interval, a line, and the bytes of a
/// sample.
#[tactic(auto, unfolding(crate::proofs::OnLiterals::predictions_on_literals))]
pub fn known_selections()
    ensures left { selected selections.Ra (pos 10) (pos 20) (pos 13) ≡ pos 10 }
    ensures above { selected selections.Rb (pos 10) (pos 20) (pos 13) ≡ pos 20 }
    ensures corner { selected selections.Rc (pos 10) (pos 20) (pos 13) ≡ pos 13 }
    ensures plane { selected selections.RaRbRc1 (pos 10) (pos 20) (pos 13) ≡ pos 17 }
    ensures left_slope { selected selections.RaRbRc2 (pos 10) (pos 20) (pos 13) ≡ pos 13 }
    ensures above_slope { selected selections.RaRbRc3 (pos 10) (pos 20) (pos 13) ≡ pos 18 }
    ensures mean { selected selections.RaRb (pos 10) (pos 21) (pos 13) ≡ pos 15 }
    ensures start { start_of 8 0 ≡ 128 }
    ensures start_shifted { start_of 12 3 ≡ 256 }
    ensures line { line_below selections.RaRb 128 (10 ∷ 20 ∷ 30 ∷ []) (1 ∷ 2 ∷ 3 ∷ [])
        ≡ 11 ∷ 17 ∷ 26 ∷ [] }
    ensures bytes_of_twelve { sample_bytes 12 2748 ≡ 188 ∷ 10 ∷ [] }
    ensures bytes_of_eight { sample_bytes 8 200 ≡ 200 ∷ [] }
{}
