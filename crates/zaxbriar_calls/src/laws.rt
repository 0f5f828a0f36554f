//! Laws that make the definitions evident: worked rows, computed by the checker, and what the whole
//! of a picture is. Nothing here is code that runs.
ghost use Rattle.std.specs.Prelude.{◌≡◌, ◌++◌, ℕ, List, [], ◌∷◌, Err, None, Ok, Some, codes, map};
ghost use Rattle.std.specs.Prelude.{◌+◌, ◌*◌, ◌<◌, false, length, replicate, true};
ghost use Rattle.jpeg_bits.specs.Reading.{End, Fault, Malformed};
ghost use Rattle.jpeg_bits.specs.declared.color_transform.ColorTransform.TheVariants as transforms;
ghost use Rattle.jpeg_bits.specs.declared.error.UnsupportedFeature.TheVariants as features;
ghost use Rattle.jpeg_decoder.specs.DecodesRows.{DecodesRows};
ghost use Rattle.jpeg_decoder.specs.StreamTransforms.{transform_by};
ghost use Rattle.jpeg_segments.specs.Frame.{Factors, component_of};
ghost use Rattle.jpeg_segments.specs.declared.application.AdobeColorTransform.TheVariants as adobe;
ghost use Rattle.jpeg_segments.specs.declared.frame.CodingProcess.TheVariants as processes;
ghost use Rattle.jpeg_meaning.specs.Found.{no_metadata};
ghost use Rattle.jpeg_meaning.specs.States.{Decoding};
ghost use Rattle.jpeg_meaning.specs.Stream.{Told, told_of};
ghost use Rattle.jpeg_meaning.specs.Worked.{eleven_blocks, scanned_twice};
ghost use Rattle.jpeg_meaning.specs.declared.images.ImageInfo.{ImageInfo};
ghost use Rattle.jpeg_meaning.specs.declared.images.PixelFormat.TheVariants.{L8, L16, RGB24};
ghost use Rattle.jpeg_meaning.specs.declared.images.PixelFormat.TheVariants.{CMYK32};
ghost use Rattle.jpeg_orientation.specs.Turns.{upright_across, upright_down};
ghost use Rattle.zaxbriar_calls.specs.Boxed.{is_fitted};
ghost use Rattle.zaxbriar_calls.specs.Crops.{IsInPicture, is_cropped, part_rows, part_samples};
ghost use Rattle.zaxbriar_calls.specs.Density.{density_of};
ghost use Rattle.zaxbriar_calls.specs.Given.{as_picture, faultless, given_by};
ghost use Rattle.zaxbriar_calls.specs.Features.{feature_in, numbered, transform_code};
ghost use Rattle.zaxbriar_calls.specs.Layouts.{colour, conversion_to, laid_out, level, light, luma};
ghost use Rattle.zaxbriar_calls.specs.Layouts.{layout_numbered, pixel_of, size_of_lines};
ghost use Rattle.zaxbriar_calls.specs.Joined.{datum_of, is_joined_kind, joined_of};
ghost use Rattle.zaxbriar_calls.specs.Limits.{are_known, are_known_for, is_denominator, is_over};
ghost use Rattle.zaxbriar_calls.specs.Lines.{format_number, lines_by, part_given, process_number};
ghost use Rattle.zaxbriar_calls.specs.Lines.{stored_bytes, turn_of};
ghost use Rattle.zaxbriar_calls.specs.Meanings.{meaning_by, number_of_transform, planes_by};
ghost use Rattle.zaxbriar_calls.specs.Meanings.{scale_by, settings_of, transform_number};
ghost use Rattle.zaxbriar_calls.specs.Metadata.{is_whole, kind_alone};
ghost use Rattle.zaxbriar_calls.specs.Passes.{exceeds, fault_number};
ghost use Rattle.zaxbriar_calls.specs.Places.{no_place, no_places, place_before, with_part};
ghost use Rattle.zaxbriar_calls.specs.Planes.{bytes_asked, planes_of_components};
ghost use Rattle.zaxbriar_calls.specs.Sampling.{sampling_of};
ghost use Rattle.zaxbriar_calls.specs.TakenLines.{BeginsRows};
ghost use Rattle.zaxbriar_calls.specs.Upright.{arranged_by, arranged_in, arranged_part};
ghost use Rattle.zaxbriar_calls.specs.Upright.{upright_pixel};
ghost use Rattle.zaxbriar_calls.specs.Worked.{all_data, crop_at, cropped_alone, exif_twice};
ghost use Rattle.zaxbriar_calls.specs.Worked.{fitted_alone, luma_alone, passes_alone};
ghost use Rattle.zaxbriar_calls.specs.Worked.{three_by_four, three_by_two, upright_alone};
ghost use Rattle.zaxbriar_calls.specs.declared.layouts.Conversion.{Conversion};
ghost use Rattle.zaxbriar_calls.specs.declared.extents.Extent.{Extent};
ghost use Rattle.zaxbriar_calls.specs.declared.extents.Extent.TheVariants.{Partial, Planes};
ghost use Rattle.zaxbriar_calls.specs.declared.extents.Extent.TheVariants.{Whole};
ghost use Rattle.zaxbriar_calls.specs.declared.options.Options.{Options};
ghost use Rattle.zaxbriar_calls.specs.declared.picture.Picture.{Picture};
ghost use Rattle.zaxbriar_calls.specs.declared.rows.RowReader.{RowReader};
ghost use Rattle.zaxbriar_calls.specs.declared.layouts.Conversion.TheVariants.{InColour};
ghost use Rattle.zaxbriar_calls.specs.declared.layouts.Layout.TheVariants as layouts;
ghost use Rattle.jpeg_segments.specs.declared.scale.Scale.TheVariants as scales;
ghost use Rattle.zaxbriar_metadata.specs.Worked.{main_packet, with_thumbnail};

/// The numbers of the layouts, and the bytes of a pixel of red 10, green 20 and blue 30 in each. In
/// RGB565 that is 1 * 2048 + 5 * 32 + 3, and no part reaches the bits of another.
#[tactic(auto, unfolding(crate::specs::Layouts::level))]
pub fn known_layouts()
    ensures numbers { map layout_numbered (0 ∷ 1 ∷ 2 ∷ 3 ∷ 4 ∷ 5 ∷ 6 ∷ 7 ∷ 8 ∷ 9 ∷ 10 ∷ 11 ∷ [])
        ≡ None ∷ Some layouts.Grey ∷ Some layouts.Rgb ∷ Some layouts.Rgba ∷ Some layouts.Bgra
        ∷ Some layouts.Bgr ∷ Some layouts.Xrgb ∷ Some layouts.Abgr ∷ Some layouts.Rgb565
        ∷ Some layouts.Grey16 ∷ Some layouts.Rgb16 ∷ None ∷ [] }
    ensures pixels { map (λ l. pixel_of (InColour RGB24 8 l) (10 ∷ 20 ∷ 30 ∷ []))
        (layouts.Grey ∷ layouts.Rgb ∷ layouts.Rgba ∷ layouts.Bgra ∷ layouts.Bgr ∷ layouts.Xrgb
        ∷ layouts.Abgr ∷ layouts.Rgb565 ∷ [])
        ≡ (18 ∷ []) ∷ (10 ∷ 20 ∷ 30 ∷ []) ∷ (10 ∷ 20 ∷ 30 ∷ 255 ∷ []) ∷ (30 ∷ 20 ∷ 10 ∷ 255 ∷ [])
        ∷ (30 ∷ 20 ∷ 10 ∷ []) ∷ (255 ∷ 10 ∷ 20 ∷ 30 ∷ []) ∷ (255 ∷ 30 ∷ 20 ∷ 10 ∷ [])
        ∷ (163 ∷ 8 ∷ []) ∷ [] }
    ensures bits { map (λ p. pixel_of (InColour RGB24 8 layouts.Rgb565) p)
        ((255 ∷ 7 ∷ 3 ∷ []) ∷ (7 ∷ 255 ∷ 7 ∷ []) ∷ (7 ∷ 3 ∷ 255 ∷ []) ∷ [])
        ≡ (32 ∷ 248 ∷ []) ∷ (224 ∷ 7 ∷ []) ∷ (31 ∷ 0 ∷ []) ∷ [] }
    ensures grey { pixel_of (InColour L8 8 layouts.Rgba) (77 ∷ []) ≡ 77 ∷ 77 ∷ 77 ∷ 255 ∷ [] }
    ensures ink { pixel_of (InColour CMYK32 8 layouts.Rgb) (0 ∷ 128 ∷ 255 ∷ 0 ∷ [])
        ≡ 255 ∷ 127 ∷ 0 ∷ [] }
{}

/// Layouts of 16 bits a sample have the lower byte first: of a pixel of 16 bits its samples as they
/// are, and of one of fewer bits its samples on the scale of 16 bits. The luma of red 10, green 20
/// and blue 30 of 255 is 4,665 of 65,535, which isn't 18 of 255.
#[tactic(auto, unfolding(crate::specs::Layouts::level))]
pub fn known_wide_layouts()
    ensures stored { pixel_of (InColour RGB24 16 layouts.Rgb16) (1 ∷ 2 ∷ 3 ∷ 4 ∷ 5 ∷ 6 ∷ [])
        ≡ 1 ∷ 2 ∷ 3 ∷ 4 ∷ 5 ∷ 6 ∷ [] }
    ensures grey { pixel_of (InColour L16 16 layouts.Grey16) (254 ∷ 255 ∷ []) ≡ 254 ∷ 255 ∷ [] }
    ensures widened { map (λ l. pixel_of (InColour RGB24 8 l) (10 ∷ 20 ∷ 30 ∷ []))
        (layouts.Grey16 ∷ layouts.Rgb16 ∷ [])
        ≡ (57 ∷ 18 ∷ []) ∷ (10 ∷ 10 ∷ 20 ∷ 20 ∷ 30 ∷ 30 ∷ []) ∷ [] }
    ensures twelve { pixel_of (InColour L16 12 layouts.Grey16) (0 ∷ 8 ∷ []) ≡ 8 ∷ 128 ∷ [] }
    ensures ink { pixel_of (InColour CMYK32 8 layouts.Rgb16) (0 ∷ 128 ∷ 255 ∷ 0 ∷ [])
        ≡ 255 ∷ 255 ∷ 127 ∷ 127 ∷ 0 ∷ 0 ∷ [] }
    ensures black { pixel_of (InColour CMYK32 16 layouts.Rgb16)
        (255 ∷ 127 ∷ 0 ∷ 0 ∷ 255 ∷ 255 ∷ 0 ∷ 128 ∷ []) ≡ 0 ∷ 64 ∷ 255 ∷ 127 ∷ 0 ∷ 0 ∷ [] }
{}

/// The luma of grey is that grey, and those of red, green and blue add up to white. No weight that
/// is greater or less by 1 gives the last two.
#[tactic(auto)]
pub fn known_lumas()
    ensures grey { map (λ n. luma (colour n n n)) (0 ∷ 1 ∷ 127 ∷ 254 ∷ 255 ∷ [])
        ≡ 0 ∷ 1 ∷ 127 ∷ 254 ∷ 255 ∷ [] }
    ensures parts { luma (colour 255 0 0) ∷ luma (colour 0 255 0) ∷ luma (colour 0 0 255) ∷ []
        ≡ 76 ∷ 150 ∷ 29 ∷ [] }
    ensures close { luma (colour 11 170 30) ∷ luma (colour 60 250 165) ∷ [] ≡ 106 ∷ 184 ∷ [] }
{}

/// A sample above 8 bits has its lower byte first, and the greatest of each precision is the
/// greatest of the scale. A sample of the scale's own precision stays as it is.
#[tactic(auto, unfolding(crate::specs::Layouts::level))]
pub fn known_levels()
    ensures greatest { map (λ full. level full 2 (3 ∷ []) 0 ∷ level full 8 (255 ∷ []) 0
        ∷ level full 12 (255 ∷ 15 ∷ []) 0 ∷ level full 16 (255 ∷ 255 ∷ []) 0 ∷ [])
        (255 ∷ 65535 ∷ []) ≡ replicate 4 255 ∷ replicate 4 65535 ∷ [] }
    ensures middle { level 255 12 (0 ∷ 8 ∷ []) 0 ∷ level 255 16 (0 ∷ 128 ∷ []) 0 ∷ []
        ≡ 128 ∷ 128 ∷ [] }
    ensures second { level 255 8 (1 ∷ 2 ∷ 3 ∷ []) 1 ≡ 2 }
    ensures same { level 255 8 (77 ∷ []) 0 ∷ level 65535 16 (1 ∷ 2 ∷ []) 0 ∷ [] ≡ 77 ∷ 513 ∷ [] }
    ensures above { level 255 2 (11 ∷ []) 0 ∷ level 65535 9 (0 ∷ 2 ∷ []) 0 ∷ []
        ≡ 255 ∷ 65535 ∷ [] }
{}

/// Lines have a gap between them where the stride is longer, which stays as it was. From the bottom
/// the first row stands last.
#[tactic(auto, unfolding(crate::specs::Layouts::laid_out))]
pub fn known_lines()
    ensures gap { laid_out (λ line. line) 2 3 false 2 (1 ∷ 2 ∷ 3 ∷ 4 ∷ []) (replicate 6 9)
        ≡ 1 ∷ 2 ∷ 9 ∷ 3 ∷ 4 ∷ 9 ∷ [] }
    ensures bottom_up { laid_out (λ line. line) 1 2 true 3 (1 ∷ 2 ∷ 3 ∷ []) (replicate 6 9)
        ≡ 3 ∷ 9 ∷ 2 ∷ 9 ∷ 1 ∷ 9 ∷ [] }
    ensures size { size_of_lines 3 2 2 ≡ 5 }
    ensures none { size_of_lines 3 2 0 ≡ 0 }
{}

/// A picture of 3 by 2 pixels, the numbers 1 to 6 from its first row, turned upright by each
/// orientation: the first row of the stream is the top of 1 and 2, the bottom of 3 and 4, the left
/// side of 5 and 8, and the right side of 6 and 7; and its first column is the left side of 1 and
/// 4, the right side of 2 and 3, the top of 5 and 6, and the bottom of 7 and 8 (Exif 2.3, 4.6.4).
/// Gaps stay as they were, and the bytes of a pixel keep their order. What isn't asked for isn't
/// turned.
#[tactic(auto, unfolding(crate::proofs::Rules::turned_lines))]
pub fn known_turns()
    ensures sides { map (λ o. (three_by_two upright_alone L8 8 o).width
        ∷ (three_by_two upright_alone L8 8 o).height ∷ []) (1 ∷ 2 ∷ 3 ∷ 4 ∷ 5 ∷ 6 ∷ 7 ∷ 8 ∷ [])
        ≡ replicate 4 (3 ∷ 2 ∷ []) ++ replicate 4 (2 ∷ 3 ∷ []) }
    ensures turned { map (λ o. arranged_in (three_by_two upright_alone L8 8 o)
        (1 ∷ 2 ∷ 3 ∷ 4 ∷ 5 ∷ 6 ∷ []) (replicate 6 9)) (1 ∷ 2 ∷ 3 ∷ 4 ∷ 5 ∷ 6 ∷ 7 ∷ 8 ∷ [])
        ≡ (1 ∷ 2 ∷ 3 ∷ 4 ∷ 5 ∷ 6 ∷ []) ∷ (3 ∷ 2 ∷ 1 ∷ 6 ∷ 5 ∷ 4 ∷ [])
        ∷ (6 ∷ 5 ∷ 4 ∷ 3 ∷ 2 ∷ 1 ∷ []) ∷ (4 ∷ 5 ∷ 6 ∷ 1 ∷ 2 ∷ 3 ∷ [])
        ∷ (1 ∷ 4 ∷ 2 ∷ 5 ∷ 3 ∷ 6 ∷ []) ∷ (4 ∷ 1 ∷ 5 ∷ 2 ∷ 6 ∷ 3 ∷ [])
        ∷ (6 ∷ 3 ∷ 5 ∷ 2 ∷ 4 ∷ 1 ∷ []) ∷ (3 ∷ 6 ∷ 2 ∷ 5 ∷ 1 ∷ 4 ∷ []) ∷ [] }
    ensures third { map (λ o. upright_across (three_by_two upright_alone L8 8 o).turn 2 0
        ∷ upright_down (three_by_two upright_alone L8 8 o).turn 2 0 ∷ [])
        (1 ∷ 2 ∷ 3 ∷ 4 ∷ 5 ∷ 6 ∷ 7 ∷ 8 ∷ []) ≡ (2 ∷ 0 ∷ []) ∷ (0 ∷ 0 ∷ []) ∷ (0 ∷ 1 ∷ [])
        ∷ (2 ∷ 1 ∷ []) ∷ (0 ∷ 2 ∷ []) ∷ (1 ∷ 2 ∷ []) ∷ (1 ∷ 0 ∷ []) ∷ (0 ∷ 0 ∷ []) ∷ [] }
    ensures gap { arranged_in (three_by_two (record upright_alone { stride = 3 }) L8 8 6)
        (1 ∷ 2 ∷ 3 ∷ 4 ∷ 5 ∷ 6 ∷ []) (replicate 9 9)
        ≡ 4 ∷ 1 ∷ 9 ∷ 5 ∷ 2 ∷ 9 ∷ 6 ∷ 3 ∷ 9 ∷ [] }
    ensures bottom_up { map (λ o. arranged_in
        (three_by_two (record upright_alone { bottom_up = 1 }) L8 8 o)
        (1 ∷ 2 ∷ 3 ∷ 4 ∷ 5 ∷ 6 ∷ []) (replicate 7 9)) (2 ∷ 6 ∷ [])
        ≡ (6 ∷ 5 ∷ 4 ∷ 3 ∷ 2 ∷ 1 ∷ 9 ∷ []) ∷ (6 ∷ 3 ∷ 5 ∷ 2 ∷ 4 ∷ 1 ∷ 9 ∷ []) ∷ [] }
    ensures pairs { map (λ o. arranged_in (three_by_two upright_alone L16 16 o)
        (1 ∷ 10 ∷ 2 ∷ 20 ∷ 3 ∷ 30 ∷ 4 ∷ 40 ∷ 5 ∷ 50 ∷ 6 ∷ 60 ∷ []) (replicate 12 9))
        (3 ∷ 8 ∷ []) ≡ (6 ∷ 60 ∷ 5 ∷ 50 ∷ 4 ∷ 40 ∷ 3 ∷ 30 ∷ 2 ∷ 20 ∷ 1 ∷ 10 ∷ [])
        ∷ (3 ∷ 30 ∷ 6 ∷ 60 ∷ 2 ∷ 20 ∷ 5 ∷ 50 ∷ 1 ∷ 10 ∷ 4 ∷ 40 ∷ []) ∷ [] }
    ensures unasked { map (λ o. arranged_in (three_by_two (passes_alone 0) L8 8 o)
        (1 ∷ 2 ∷ 3 ∷ 4 ∷ 5 ∷ 6 ∷ []) (replicate 6 9)) (1 ∷ 6 ∷ [])
        ≡ replicate 2 (1 ∷ 2 ∷ 3 ∷ 4 ∷ 5 ∷ 6 ∷ []) }
{}

/// Of the same picture, turned upright by each orientation, the first two pixels of the first line,
/// and the second of the first two lines. A part has gaps and an order of lines of its own, and the
/// bytes of a pixel keep their order. Where it isn't turned, a part counts in the stored picture.
#[tactic(auto, unfolding(crate::proofs::Rules::turned_lines))]
pub fn known_crops()
    ensures along { map (λ o. arranged_part (three_by_two (cropped_alone 0 0 2 1) L8 8 o)
        (1 ∷ 2 ∷ 3 ∷ 4 ∷ 5 ∷ 6 ∷ []) (replicate 3 9)) (1 ∷ 2 ∷ 3 ∷ 4 ∷ 5 ∷ 6 ∷ 7 ∷ 8 ∷ [])
        ≡ (1 ∷ 2 ∷ 9 ∷ []) ∷ (3 ∷ 2 ∷ 9 ∷ []) ∷ (6 ∷ 5 ∷ 9 ∷ []) ∷ (4 ∷ 5 ∷ 9 ∷ [])
        ∷ (1 ∷ 4 ∷ 9 ∷ []) ∷ (4 ∷ 1 ∷ 9 ∷ []) ∷ (6 ∷ 3 ∷ 9 ∷ []) ∷ (3 ∷ 6 ∷ 9 ∷ []) ∷ [] }
    ensures down { map (λ o. arranged_part (three_by_two (cropped_alone 1 0 1 2) L8 8 o)
        (1 ∷ 2 ∷ 3 ∷ 4 ∷ 5 ∷ 6 ∷ []) (replicate 3 9)) (1 ∷ 2 ∷ 3 ∷ 4 ∷ 5 ∷ 6 ∷ 7 ∷ 8 ∷ [])
        ≡ (2 ∷ 5 ∷ 9 ∷ []) ∷ (2 ∷ 5 ∷ 9 ∷ []) ∷ (5 ∷ 2 ∷ 9 ∷ []) ∷ (5 ∷ 2 ∷ 9 ∷ [])
        ∷ (4 ∷ 5 ∷ 9 ∷ []) ∷ (1 ∷ 2 ∷ 9 ∷ []) ∷ (3 ∷ 2 ∷ 9 ∷ []) ∷ (6 ∷ 5 ∷ 9 ∷ []) ∷ [] }
    ensures sizes { map (λ o. (three_by_two (cropped_alone 0 0 2 1) L8 8 o).width
        ∷ (three_by_two (cropped_alone 0 0 2 1) L8 8 o).height ∷ []) (1 ∷ 6 ∷ [])
        ≡ replicate 2 (2 ∷ 1 ∷ []) }
    ensures gap { arranged_part
        (three_by_two (record (cropped_alone 0 1 2 2) { stride = 3 }) L8 8 6)
        (1 ∷ 2 ∷ 3 ∷ 4 ∷ 5 ∷ 6 ∷ []) (replicate 6 9) ≡ 5 ∷ 2 ∷ 9 ∷ 6 ∷ 3 ∷ 9 ∷ [] }
    ensures bottom_up { map (λ o. arranged_part
        (three_by_two (record (cropped_alone 0 0 2 2) { bottom_up = 1 }) L8 8 o)
        (1 ∷ 2 ∷ 3 ∷ 4 ∷ 5 ∷ 6 ∷ []) (replicate 4 9)) (1 ∷ 8 ∷ [])
        ≡ (4 ∷ 5 ∷ 1 ∷ 2 ∷ []) ∷ (2 ∷ 5 ∷ 3 ∷ 6 ∷ []) ∷ [] }
    ensures pairs { map (λ o. arranged_part (three_by_two (cropped_alone 1 0 2 1) L16 16 o)
        (1 ∷ 10 ∷ 2 ∷ 20 ∷ 3 ∷ 30 ∷ 4 ∷ 40 ∷ 5 ∷ 50 ∷ 6 ∷ 60 ∷ []) (replicate 4 9))
        (1 ∷ 3 ∷ []) ≡ (2 ∷ 20 ∷ 3 ∷ 30 ∷ []) ∷ (5 ∷ 50 ∷ 4 ∷ 40 ∷ []) ∷ [] }
    ensures unasked { arranged_part
        (three_by_two (record (cropped_alone 1 1 2 1) { upright = 0 }) L8 8 6)
        (1 ∷ 2 ∷ 3 ∷ 4 ∷ 5 ∷ 6 ∷ []) (replicate 2 9) ≡ 5 ∷ 6 ∷ [] }
    ensures all { map (λ o. arranged_part (three_by_two upright_alone L8 8 o)
        (1 ∷ 2 ∷ 3 ∷ 4 ∷ 5 ∷ 6 ∷ []) (replicate 6 9)) (1 ∷ 6 ∷ [])
        ≡ (1 ∷ 2 ∷ 3 ∷ 4 ∷ 5 ∷ 6 ∷ []) ∷ (4 ∷ 1 ∷ 5 ∷ 2 ∷ 6 ∷ 3 ∷ []) ∷ [] }
    ensures rows { map (part_rows (part_given (cropped_alone 0 1 2 2) (three_by_four L8) 1))
        (0 ∷ 1 ∷ 2 ∷ 3 ∷ 4 ∷ []) ≡ 0 ∷ 0 ∷ 1 ∷ 2 ∷ 2 ∷ [] }
    ensures asked { map (λ o. is_cropped o) (cropped_alone 0 0 0 0 ∷ cropped_alone 1 0 0 0
        ∷ cropped_alone 0 1 0 0 ∷ cropped_alone 0 0 1 0 ∷ cropped_alone 0 0 0 1 ∷ [])
        ≡ false ∷ replicate 4 true }
    ensures unconverted { map (λ o. are_known (record o { upright = 0; transform = 1 }))
        (cropped_alone 0 0 0 0 ∷ cropped_alone 1 0 2 1 ∷ []) ≡ true ∷ false ∷ [] }
{}

/// The same picture within a size. Two pixels wide its height of 4/3 is rounded to 1: the means are
/// those of 1 and 4, which is 2.5, and of 2, 3, 5 and 6. One pixel is 3.5, and halves go up. The
/// size is that of the picture as it is shown, and the boxes are those of the stored one. A part,
/// gaps, an order of lines and samples of two bytes go by the smaller picture, and one that fits
/// stays as it is.
#[tactic(auto, unfolding(crate::proofs::Rules::smaller_lines))]
pub fn known_fits()
    ensures sizes { map (λ o. (three_by_two o L8 8 1).width ∷ (three_by_two o L8 8 1).height ∷ [])
        (fitted_alone 0 0 ∷ fitted_alone 1 0 ∷ fitted_alone 2 0 ∷ fitted_alone 3 0
        ∷ fitted_alone 0 1 ∷ fitted_alone 0 2 ∷ fitted_alone 2 2 ∷ fitted_alone 65535 1 ∷ [])
        ≡ (3 ∷ 2 ∷ []) ∷ (1 ∷ 1 ∷ []) ∷ (2 ∷ 1 ∷ []) ∷ (3 ∷ 2 ∷ [])
        ∷ (2 ∷ 1 ∷ []) ∷ (3 ∷ 2 ∷ []) ∷ (2 ∷ 1 ∷ []) ∷ (2 ∷ 1 ∷ []) ∷ [] }
    ensures sides { map (λ o. (three_by_two (fitted_alone 1 0) L8 8 o).width
        ∷ (three_by_two (fitted_alone 1 0) L8 8 o).height ∷ []) (1 ∷ 3 ∷ 6 ∷ 7 ∷ [])
        ≡ (1 ∷ 1 ∷ []) ∷ (1 ∷ 1 ∷ []) ∷ (1 ∷ 2 ∷ []) ∷ (1 ∷ 2 ∷ []) ∷ [] }
    ensures means { map (λ o. arranged_part (three_by_two o L8 8 1)
        (1 ∷ 2 ∷ 3 ∷ 4 ∷ 5 ∷ 6 ∷ []) (replicate 3 9))
        (fitted_alone 2 0 ∷ fitted_alone 0 1 ∷ fitted_alone 1 1 ∷ [])
        ≡ (3 ∷ 4 ∷ 9 ∷ []) ∷ (3 ∷ 4 ∷ 9 ∷ []) ∷ (4 ∷ 9 ∷ 9 ∷ []) ∷ [] }
    ensures turned { map (λ o. arranged_part (three_by_two (fitted_alone 2 2) L8 8 o)
        (1 ∷ 2 ∷ 3 ∷ 4 ∷ 5 ∷ 6 ∷ []) (replicate 2 9)) (1 ∷ 2 ∷ 3 ∷ 4 ∷ 5 ∷ 6 ∷ 7 ∷ 8 ∷ [])
        ≡ (3 ∷ 4 ∷ []) ∷ (4 ∷ 3 ∷ []) ∷ (4 ∷ 3 ∷ []) ∷ (3 ∷ 4 ∷ [])
        ∷ (3 ∷ 4 ∷ []) ∷ (3 ∷ 4 ∷ []) ∷ (4 ∷ 3 ∷ []) ∷ (4 ∷ 3 ∷ []) ∷ [] }
    ensures part { arranged_part
        (three_by_two (record (cropped_alone 1 0 2 2) { most_width = 1 }) L8 8 1)
        (1 ∷ 2 ∷ 3 ∷ 4 ∷ 5 ∷ 6 ∷ []) (replicate 2 9) ≡ 4 ∷ 9 ∷ [] }
    ensures line { arranged_part
        (three_by_two (record (cropped_alone 0 1 2 1) { most_width = 1 }) L8 8 1)
        (1 ∷ 2 ∷ 3 ∷ 4 ∷ 5 ∷ 6 ∷ []) (replicate 2 9) ≡ 5 ∷ 9 ∷ [] }
    ensures bottom_up { arranged_part
        (three_by_two (record (fitted_alone 1 0) { stride = 2; bottom_up = 1 }) L8 8 8)
        (1 ∷ 2 ∷ 3 ∷ 4 ∷ 5 ∷ 6 ∷ []) (replicate 4 9) ≡ 3 ∷ 9 ∷ 4 ∷ 9 ∷ [] }
    ensures pairs { arranged_part (three_by_two (fitted_alone 1 0) L16 16 1)
        (1 ∷ 10 ∷ 2 ∷ 20 ∷ 3 ∷ 30 ∷ 4 ∷ 40 ∷ 5 ∷ 50 ∷ 6 ∷ 60 ∷ []) (replicate 2 9)
        ≡ 4 ∷ 35 ∷ [] }
    ensures colours { arranged_part (three_by_two (fitted_alone 1 0) RGB24 8 1)
        (1 ∷ 10 ∷ 101 ∷ 2 ∷ 20 ∷ 102 ∷ 3 ∷ 30 ∷ 103
        ∷ 4 ∷ 40 ∷ 104 ∷ 5 ∷ 50 ∷ 105 ∷ 6 ∷ 60 ∷ 106 ∷ []) (replicate 3 9)
        ≡ 4 ∷ 35 ∷ 104 ∷ [] }
    ensures own { map (λ o. arranged_part (three_by_two o L8 8 1)
        (1 ∷ 2 ∷ 3 ∷ 4 ∷ 5 ∷ 6 ∷ []) (replicate 6 9))
        (fitted_alone 3 0 ∷ fitted_alone 0 2 ∷ fitted_alone 65535 65535 ∷ [])
        ≡ replicate 3 (1 ∷ 2 ∷ 3 ∷ 4 ∷ 5 ∷ 6 ∷ []) }
    ensures asked { map (λ o. is_fitted o) (fitted_alone 0 0 ∷ fitted_alone 1 0 ∷ fitted_alone 0 1
        ∷ cropped_alone 0 0 1 1 ∷ []) ≡ false ∷ true ∷ true ∷ false ∷ [] }
    ensures unconverted { map (λ o. are_known (record o { upright = 0; transform = 1 }))
        (fitted_alone 0 0 ∷ fitted_alone 1 0 ∷ fitted_alone 0 1 ∷ [])
        ≡ true ∷ false ∷ false ∷ [] }
    ensures planes { map (λ o. are_known_for Planes (record o { upright = 0 }))
        (fitted_alone 0 0 ∷ fitted_alone 1 0 ∷ fitted_alone 0 1 ∷ [])
        ≡ true ∷ false ∷ false ∷ [] }
{}

/// A pixel of a part that isn't made smaller is that of the picture which the same options give
/// without one, counted from the part's first column and its first line.
pub fn parts_are_of_pictures()
    ensures { (o : Options) (info : ImageInfo) (precision orientation : ℕ)
        (conversion : Conversion) (samples : List ℕ) (across down : ℕ)
        → is_cropped o ≡ true → is_fitted o ≡ false → IsInPicture o (turn_of o info orientation)
        → length samples ≡ info.width * info.height * stored_bytes info precision
        → across < o.crop.width → down < o.crop.height
        → upright_pixel (lines_by o info precision orientation conversion)
        (part_samples (part_given o info orientation) (stored_bytes info precision) samples)
        across down
        ≡ upright_pixel
        (lines_by (record o { crop = crop_at 0 0 0 0 }) info precision orientation conversion)
        samples (o.crop.left + across) (o.crop.top + down) }
{}

/// A limit of 0 is none, and another is the greatest count that is taken. The scales are 1, 1/2,
/// 1/4 and 1/8.
#[tactic(auto)]
pub fn known_options()
    ensures unlimited { is_over 0 1000000 ≡ false }
    ensures limited { map (is_over 5) (4 ∷ 5 ∷ 6 ∷ []) ≡ false ∷ false ∷ true ∷ [] }
    ensures denominators { map is_denominator (0 ∷ 1 ∷ 2 ∷ 3 ∷ 4 ∷ 8 ∷ 16 ∷ [])
        ≡ true ∷ true ∷ true ∷ false ∷ true ∷ true ∷ false ∷ [] }
    ensures scales { map scale_by (0 ∷ 1 ∷ 2 ∷ 4 ∷ 8 ∷ []) ≡ None ∷ Some scales.Full
        ∷ Some scales.Half ∷ Some scales.Quarter ∷ Some scales.Eighth ∷ [] }
    ensures transforms { map transform_number (0 ∷ 1 ∷ 2 ∷ 3 ∷ 4 ∷ 5 ∷ 6 ∷ []) ≡ None
        ∷ Some transforms.None ∷ Some transforms.RGB ∷ Some transforms.YCbCr ∷ Some transforms.CMYK
        ∷ Some transforms.YCCK ∷ None ∷ [] }
    ensures numbers { map number_of_transform (transforms.None ∷ transforms.RGB ∷ transforms.YCbCr
        ∷ transforms.CMYK ∷ transforms.YCCK ∷ []) ≡ 1 ∷ 2 ∷ 3 ∷ 4 ∷ 5 ∷ [] }
    ensures uprights { map (λ n. are_known (record upright_alone { upright = n }))
        (0 ∷ 1 ∷ 2 ∷ []) ≡ true ∷ true ∷ false ∷ [] }
    ensures unconverted { map (λ n. are_known (record upright_alone { transform = 1; upright = n }))
        (0 ∷ 1 ∷ []) ≡ true ∷ false ∷ [] }
    ensures lumas { map (λ n. are_known (record luma_alone { luma = n }))
        (0 ∷ 1 ∷ 2 ∷ []) ≡ true ∷ true ∷ false ∷ [] }
    ensures set { map (λ n. (settings_of (record luma_alone { luma = n })).luma) (0 ∷ 1 ∷ [])
        ≡ false ∷ true ∷ [] }
    ensures reserved { map (λ n. are_known (record upright_alone {
      reserved_bytes = replicate 5 0 ++ (n ∷ []);
    })) (0 ∷ 1 ∷ []) ≡ true ∷ false ∷ [] }
    ensures half { map (λ n. are_known (record upright_alone {
      reserved_half = replicate 3 0 ++ (n ∷ []);
    })) (0 ∷ 1 ∷ []) ≡ true ∷ false ∷ [] }
    ensures kinds { map kind_alone (1 ∷ 3 ∷ 17 ∷ 19 ∷ []) ≡ 1 ∷ 3 ∷ 1 ∷ 3 ∷ [] }
    ensures whole { map is_whole (3 ∷ 15 ∷ 16 ∷ 17 ∷ []) ≡ false ∷ false ∷ true ∷ true ∷ [] }
{}

/// Features have a number, and some an argument.
#[tactic(auto, unfolding(crate::specs::Features::feature_in))]
pub fn known_features()
    ensures plain { map feature_in (features.Hierarchical ∷ features.ArithmeticEntropyCoding
        ∷ features.DNL ∷ features.SubsamplingRatio ∷ features.NonIntegerSubsamplingRatio ∷ [])
        ≡ numbered 1 0 ∷ numbered 2 0 ∷ numbered 5 0 ∷ numbered 6 0 ∷ numbered 7 0 ∷ [] }
    ensures precision { feature_in (features.SamplePrecision 12) ≡ numbered 3 12 }
    ensures count { feature_in (features.ComponentCount 5) ≡ numbered 4 5 }
{}

/// The argument of a colour transform is its number among the options, or 6 or 7.
#[tactic(auto, unfolding(crate::specs::Features::transform_code))]
pub fn known_transform_codes()
    ensures { map transform_code (transforms.None ∷ transforms.RGB ∷ transforms.YCbCr
        ∷ transforms.CMYK ∷ transforms.YCCK ∷ transforms.JcsBgYcc ∷ transforms.JcsBgRgb
        ∷ transforms.Grayscale ∷ []) ≡ 1 ∷ 2 ∷ 3 ∷ 4 ∷ 5 ∷ 6 ∷ 7 ∷ 0 ∷ [] }
{}

/// The transform that a header asks for: none for one component and for lossless pictures, and else
/// what the identifiers say, or JFIF, or Adobe's segment.
#[tactic(auto, unfolding(crate::proofs::Rules::asked_transforms))]
pub fn known_stream_transforms()
    ensures grey { transform_by processes.DctProgressive (82 ∷ [])
        (record no_metadata { jfif = true; adobe = Some adobe.YCbCr }) ≡ transforms.None }
    ensures lossless { transform_by processes.Lossless (1 ∷ 2 ∷ 3 ∷ [])
        (record no_metadata { jfif = true; adobe = Some adobe.YCbCr }) ≡ transforms.None }
    ensures named { transform_by processes.DctSequential (82 ∷ 71 ∷ 66 ∷ [])
        (record no_metadata { jfif = true }) ≡ transforms.RGB }
    ensures jfif { transform_by processes.DctSequential (0 ∷ 1 ∷ 2 ∷ [])
        (record no_metadata { jfif = true; adobe = Some adobe.Unknown }) ≡ transforms.YCbCr }
    ensures adobe { transform_by processes.DctProgressive (0 ∷ 1 ∷ 2 ∷ [])
        (record no_metadata { adobe = Some adobe.Unknown }) ≡ transforms.RGB }
    ensures four { transform_by processes.DctSequential (1 ∷ 2 ∷ 3 ∷ 4 ∷ [])
        (record no_metadata { jfif = true; adobe = Some adobe.YCCK }) ≡ transforms.YCCK }
    ensures plain { transform_by processes.DctSequential (1 ∷ 2 ∷ 3 ∷ 4 ∷ []) no_metadata
        ≡ transforms.CMYK }
{}

/// The sampling factors of components, the horizontal one in the upper four bits, as a frame header
/// has them; and the numbers of formats and processes.
#[tactic(auto, unfolding(jpeg_segments::specs::Frame::component_of))]
pub fn known_components()
    ensures one { sampling_of (map (component_of 8 8 2 1)
        (record { identifier = 1; horizontal = 2; vertical = 1; quantization = 0 } ∷ []))
        ≡ 33 ∷ 0 ∷ 0 ∷ 0 ∷ [] }
    ensures three { sampling_of (map (component_of 8 8 2 4)
        (record { identifier = 1; horizontal = 2; vertical = 4; quantization = 0 }
        ∷ record { identifier = 2; horizontal = 1; vertical = 2; quantization = 1 }
        ∷ record { identifier = 3; horizontal = 1; vertical = 1; quantization = 1 } ∷ []))
        ≡ 36 ∷ 18 ∷ 17 ∷ 0 ∷ [] }
    ensures four { sampling_of (map (component_of 8 8 4 3)
        (record { identifier = 1; horizontal = 4; vertical = 3; quantization = 0 }
        ∷ record { identifier = 2; horizontal = 1; vertical = 3; quantization = 0 }
        ∷ record { identifier = 3; horizontal = 3; vertical = 1; quantization = 0 }
        ∷ record { identifier = 4; horizontal = 1; vertical = 1; quantization = 0 } ∷ []))
        ≡ 67 ∷ 19 ∷ 49 ∷ 17 ∷ [] }
    ensures formats { map format_number (L8 ∷ L16 ∷ RGB24 ∷ CMYK32 ∷ [])
        ≡ 1 ∷ 2 ∷ 3 ∷ 4 ∷ [] }
    ensures processes { map process_number (processes.DctSequential ∷ processes.DctProgressive
        ∷ processes.Lossless ∷ []) ≡ 1 ∷ 2 ∷ 3 ∷ [] }
{}

/// The sizes of the planes of 4:2:0, where each side is rounded up, of one component of two bytes a
/// sample, and of four. They stand first in memory, whatever the lines are, and the options that
/// arrange or convert samples don't exist for them.
#[tactic(auto, unfolding(jpeg_segments::specs::Frame::component_of))]
pub fn known_planes()
    ensures three { planes_of_components (map (component_of 9 5 2 2)
        (record { identifier = 1; horizontal = 2; vertical = 2; quantization = 0 }
        ∷ record { identifier = 2; horizontal = 1; vertical = 1; quantization = 1 }
        ∷ record { identifier = 3; horizontal = 1; vertical = 2; quantization = 1 } ∷ [])) 8
        ≡ record {
          width = 9 ∷ 5 ∷ 5 ∷ 0 ∷ [];
          height = 5 ∷ 3 ∷ 5 ∷ 0 ∷ [];
          size = 85;
        } }
    ensures one { planes_of_components (map (component_of 3 2 1 1)
        (record { identifier = 1; horizontal = 1; vertical = 1; quantization = 0 } ∷ [])) 12
        ≡ record { width = 3 ∷ 0 ∷ 0 ∷ 0 ∷ []; height = 2 ∷ 0 ∷ 0 ∷ 0 ∷ []; size = 12 } }
    ensures four { planes_of_components (map (component_of 4 4 2 1)
        (record { identifier = 1; horizontal = 2; vertical = 1; quantization = 0 }
        ∷ record { identifier = 2; horizontal = 1; vertical = 1; quantization = 0 }
        ∷ record { identifier = 3; horizontal = 1; vertical = 1; quantization = 0 }
        ∷ record { identifier = 4; horizontal = 2; vertical = 1; quantization = 0 } ∷ [])) 8
        ≡ record {
          width = 4 ∷ 2 ∷ 2 ∷ 4 ∷ [];
          height = 4 ∷ 4 ∷ 4 ∷ 4 ∷ [];
          size = 48;
        } }
    ensures put { arranged_by Planes (three_by_two upright_alone L8 8 6) (1 ∷ 2 ∷ 3 ∷ [])
        (replicate 5 9) ≡ 1 ∷ 2 ∷ 3 ∷ 9 ∷ 9 ∷ [] }
    ensures needed { map (λ extent. bytes_asked extent 7 5) (Whole ∷ Partial ∷ Planes ∷ [])
        ≡ 7 ∷ 7 ∷ 5 ∷ [] }
    ensures asked { map (are_known_for Planes) (passes_alone 5
        ∷ record (passes_alone 0) { scale = 8 } ∷ luma_alone ∷ upright_alone
        ∷ cropped_alone 0 0 1 1 ∷ record luma_alone { luma = 2 } ∷ [])
        ≡ true ∷ true ∷ replicate 4 false }
    ensures plain { map (are_known_for Planes) (record (passes_alone 0) { stride = 9 }
        ∷ record (passes_alone 0) { layout = 2 } ∷ record (passes_alone 0) { bottom_up = 1 }
        ∷ record (passes_alone 0) { transform = 3 } ∷ []) ≡ replicate 4 false }
    ensures others { map (are_known_for Partial) (luma_alone ∷ upright_alone ∷ [])
        ≡ true ∷ true ∷ [] }
{}

/// The first 255 parts of a profile have a place, and all are counted.
pub fn known_places()
    ensures last { with_part (place_before 9 4) (record no_places { icc_parts = 254 })
        ≡ record no_places {
          icc_parts = 255;
          icc = replicate 254 no_place ++ (place_before 9 4 ∷ []);
        } }
    ensures past { with_part (place_before 9 4) (record no_places { icc_parts = 255 })
        ≡ record no_places { icc_parts = 256 } }
    ensures most { with_part (place_before 9 4) (record no_places { icc_parts = 4294967295 })
        ≡ record no_places { icc_parts = 4294967295 } }
{}

/// Exif data are joined from the segments of an image, and those after its end don't count. Each
/// kind of data has its number.
#[tactic(auto, unfolding(crate::proofs::Rules::joined_streams))]
pub fn known_joined_metadata()
    ensures exif { joined_of 1 exif_twice ≡ Some (73 ∷ 73 ∷ 42 ∷ 0 ∷ 7 ∷ []) }
    ensures none { map (λ kind. joined_of kind exif_twice) (2 ∷ 4 ∷ 5 ∷ 6 ∷ [])
        ≡ replicate 4 None }
    ensures kinds { map is_joined_kind (0 ∷ 1 ∷ 2 ∷ 3 ∷ 4 ∷ 5 ∷ 6 ∷ 7 ∷ [])
        ≡ false ∷ true ∷ true ∷ false ∷ true ∷ true ∷ true ∷ false ∷ [] }
    ensures numbers { map (λ kind. datum_of kind all_data) (1 ∷ 2 ∷ 4 ∷ 5 ∷ 6 ∷ [])
        ≡ Some (with_thumbnail true) ∷ Some main_packet ∷ Some (0 ∷ []) ∷ Some (28 ∷ 2 ∷ [])
        ∷ Some (255 ∷ 216 ∷ []) ∷ [] }
{}

/// The whole of what a stream gives is what it means by T.81, and has no fault; and where it means
/// nothing it gives nothing, for the same fault. So are its planes, one after the other.
#[tactic(auto, using(crate::proofs::Rules::wholes))]
pub fn the_whole_is_the_meaning()
    ensures given { (o : Options) (bytes : List ℕ) (m : Told × List ℕ) (rest : List ℕ)
        → meaning_by o bytes ≡ Ok (m, rest) → given_by Whole o bytes ≡ Ok (faultless m) }
    ensures refused { (o : Options) (bytes : List ℕ) (fault : Fault)
        → meaning_by o bytes ≡ Err fault → given_by Whole o bytes ≡ Err fault }
    ensures planes { (o : Options) (bytes : List ℕ) (m : Told × List (List ℕ)) (rest : List ℕ)
        → planes_by o bytes ≡ Ok (m, rest)
        → given_by Planes o bytes ≡ Ok (faultless (as_picture m)) }
{}

/// Of two scans of a picture of one block the second is too many for one pass, whose number is that
/// of a broken rule after no other fault.
#[tactic(auto, unfolding(crate::proofs::Rules::streams))]
pub fn known_passes()
    ensures scans { map (λ n. exceeds Whole (passes_alone n) scanned_twice) (0 ∷ 1 ∷ 2 ∷ [])
        ≡ false ∷ true ∷ false ∷ [] }
    ensures planes { map (λ n. exceeds Planes (passes_alone n) scanned_twice) (0 ∷ 1 ∷ 2 ∷ [])
        ≡ false ∷ true ∷ false ∷ [] }
    ensures other { exceeds Whole (passes_alone 1) eleven_blocks ≡ false }
    ensures header { exceeds Whole (passes_alone 1) [] ≡ false }
    ensures numbers { map (fault_number Whole (passes_alone 1) scanned_twice)
        (Malformed ∷ End ∷ []) ≡ 10 ∷ 3 ∷ [] }
    ensures within { fault_number Whole (passes_alone 2) scanned_twice Malformed ≡ 1 }
{}

/// Where the options don't limit the passes, no fault is a scan of too many blocks. With such a
/// fault the whole of a stream gives nothing, as after a broken rule.
#[tactic(auto, using(crate::proofs::Rules::limits))]
pub fn passes_are_limited_by_options()
    ensures unlimited { (extent : Extent) (o : Options) (bytes : List ℕ)
        → o.max_passes ≡ 0 → exceeds extent o bytes ≡ false }
    ensures refused { (o : Options) (bytes : List ℕ)
        → exceeds Whole o bytes ≡ true → given_by Whole o bytes ≡ Err Malformed }
{}

/// All lines that were taken one by one when their stream has ended are the picture that the stream
/// means by T.81.
pub fn lines_are_the_picture()
    ensures { (o : Options) (bytes all : List ℕ) (picture : Picture) (r : RowReader)
        (new : Decoding) → BeginsRows o bytes picture r
        → DecodesRows r.rows.decoder (Ok tt) new all
        → meaning_by o bytes ≡ Ok ((told_of new.found.said, all), new.source.bytes) }
{}
