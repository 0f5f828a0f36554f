//! What the definitions of samples mean in plain words, each a theorem on a function with no body.
ghost use Rattle.std.specs.Prelude.{◌≡◌, ℕ, ◌+◌, ◌-◌, ◌*◌, ◌/◌, ◌<◌, ◌≤◌, All, Ok, true};
ghost use Rattle.std.specs.Prelude.{List, [], ◌∷◌, ◌++◌, map, replicate, slice_index};
ghost use Rattle.std.specs.Prelude.{ℤ, pos, neg_ℤ, ◌+ℤ◌, ◌-ℤ◌, ◌*ℤ◌, ◌≤ℤ◌, ◌<ℤ◌, unsigned_abs};
ghost use Rattle.std.specs.Prelude.{FitsSigned};
ghost use Rattle.std.specs.List.{range_with_len};
ghost use Rattle.std.specs.Int.{int_shr, int_wrap, w32};
ghost use Rattle.jpeg_segments.specs.Frame.{Factors, IsInRange, frame_of};
ghost use Rattle.jpeg_pixels.specs.Pictures.{AllCover, AreWhole, HaveRoom, Source, sources_of};
ghost use Rattle.jpeg_pixels.specs.Samples.{HasFirstOnly, clamped, column_value, dequantized};
ghost use Rattle.jpeg_pixels.specs.Samples.{is_flat_column, sample, transformed};
ghost use Rattle.jpeg_pixels.specs.Scaled.{sample_of_1, sample_of_2, sample_of_4};
ghost use Rattle.jpeg_pixels.specs.Planes.{plane_of, strip_of};
ghost use Rattle.jpeg_pixels.specs.Colour.{centred_of, colour_of, line_bytes, luma_of};
ghost use Rattle.jpeg_pixels.specs.declared.color_convert.ColorConvert.TheVariants.{None, Rgb};
ghost use Rattle.jpeg_pixels.specs.declared.color_convert.ColorConvert.TheVariants.{YCbCr, Cmyk};
ghost use Rattle.jpeg_pixels.specs.declared.color_convert.ColorConvert.TheVariants.{Ycck};
ghost use Rattle.jpeg_bits.specs.Zigzag.{zigzag, zigzag_indices};
ghost use Rattle.jpeg_pixels.specs.Upsampling.{across, down, line_sum, upsampled};
ghost use Rattle.jpeg_pixels.specs.declared.upsample_rows.UpsampleRule.{UpsampleRule};
ghost use Rattle.jpeg_pixels.specs.declared.upsample_rows.UpsampleRule.TheVariants.{H1V1, H2V1};
ghost use Rattle.jpeg_pixels.specs.declared.upsample_rows.UpsampleRule.TheVariants.{H1V2, H2V2};
ghost use Rattle.jpeg_pixels.specs.declared.upsample_rows.UpsampleRule.TheVariants.{Generic};

/// A block whose only coefficient is the first has the same sample everywhere, at each scale: its
/// eighth and 128, rounded to the nearest, or at one sample a block rounded down.
#[tactic(auto, using(crate::proofs::Fours::flat))]
pub fn flat_blocks_are_flat()
    ensures full { (coefficients : List ℤ) (quantization : List ℕ) (x y : ℕ) →
        HasFirstOnly coefficients → x < 8 → y < 8 →
        unsigned_abs (dequantized coefficients quantization 0 0) ≤ 65536 →
        sample coefficients quantization x y
        ≡ clamped (int_shr (dequantized coefficients quantization 0 0 +ℤ pos 4) 3 +ℤ pos 128) }
    ensures half { (coefficients : List ℤ) (quantization : List ℕ) (x y : ℕ) →
        HasFirstOnly coefficients → x < 4 → y < 4 →
        unsigned_abs (dequantized coefficients quantization 0 0) ≤ 65536 →
        sample_of_4 coefficients quantization x y
        ≡ clamped (int_shr (dequantized coefficients quantization 0 0 +ℤ pos 4) 3 +ℤ pos 128) }
    ensures quarter { (coefficients : List ℤ) (quantization : List ℕ) (x y : ℕ) →
        HasFirstOnly coefficients → x < 2 → y < 2 →
        unsigned_abs (dequantized coefficients quantization 0 0) ≤ 65536 →
        sample_of_2 coefficients quantization x y
        ≡ clamped (int_shr (dequantized coefficients quantization 0 0 +ℤ pos 4) 3 +ℤ pos 128) }
    ensures eighth { (coefficients : List ℤ) (quantization : List ℕ) →
        unsigned_abs (dequantized coefficients quantization 0 0) ≤ 65536 →
        sample_of_1 coefficients quantization
        ≡ clamped (int_shr (dequantized coefficients quantization 0 0) 3 +ℤ pos 128) }
{}

/// A row needs no case of its own: where all but its first value are 0, its samples are those of
/// that value alone.
#[tactic(auto, using(crate::proofs::ZeroCases::zero_row))]
pub fn zero_rows_need_no_case()
    ensures { (coefficients : List ℤ) (quantization : List ℕ) (x y : ℕ) → x < 8 →
        ((k : ℕ) → 0 < k → k < 8 → column_value coefficients quantization y k ≡ pos 0) →
        sample coefficients quantization x y
        ≡ clamped (int_shr (int_wrap w32
        (pos 4096 *ℤ column_value coefficients quantization y 0 +ℤ pos 16842752)) 17) }
{}

/// The case of a column that has nothing below its first row gives what the transform gives, where
/// the product of that row is at least -2^19 and less than 2^19. (It does not beyond that, as the
/// block of one large product in `known_blocks` shows.)
#[tactic(auto, using(crate::proofs::ZeroCases::zero_column))]
pub fn zero_columns_change_nothing()
    ensures { (coefficients : List ℤ) (quantization : List ℕ) (row column : ℕ) → row < 8 →
        is_flat_column coefficients column ≡ true →
        neg_ℤ (pos 524288) ≤ℤ dequantized coefficients quantization 0 column →
        dequantized coefficients quantization 0 column <ℤ pos 524288 →
        column_value coefficients quantization row column
        ≡ int_shr (int_wrap w32 (transformed (λ k. dequantized coefficients quantization k column)
        row +ℤ pos 512)) 10 }
{}

/// The table of indices in zigzag order and the table of indices in the block are inverse to one
/// another (T.81, A.3.6).
#[tactic(auto, unfolding(jpeg_bits::specs::Zigzag::zigzag_indices))]
pub fn zigzag_indices_are_inverse()
    ensures forth { map (λ index. slice_index zigzag index) zigzag_indices ≡ range_with_len 0 64 }
    ensures back { map (λ index. slice_index zigzag_indices index) zigzag ≡ range_with_len 0 64 }
{}

/// A plane is its rows of blocks, one after the other, at every scale. So is one that grows by some
/// rows of blocks at a time.
#[tactic(auto, using(crate::proofs::PlaneRows::planes))]
pub fn planes_are_their_rows()
    ensures none { (scale : ℕ) (table : List ℕ) (wide : ℕ) (block_at : ℕ → ℕ → List ℤ) →
        plane_of scale table wide 0 block_at ≡ [] }
    ensures more { (scale : ℕ) (table : List ℕ) (wide high : ℕ) (block_at : ℕ → ℕ → List ℤ) →
        plane_of scale table wide (high + 1) block_at ≡
        plane_of scale table wide high block_at
        ++ strip_of scale table (map (block_at high) (range_with_len 0 wide)) }
    ensures joined { (scale : ℕ) (table : List ℕ) (wide high more : ℕ) (block_at : ℕ → ℕ → List ℤ) →
        plane_of scale table wide (high + more) block_at ≡
        plane_of scale table wide high block_at
        ++ plane_of scale table wide more (λ row column. block_at (high + row) column) }
    ensures same { (scale : ℕ) (table : List ℕ) (wide high : ℕ) (f g : ℕ → ℕ → List ℤ) →
        ((row column : ℕ) → row < high → column < wide → f row column ≡ g row column) →
        plane_of scale table wide high f ≡ plane_of scale table wide high g }
{}

/// What is required of planes can be met in each frame: planes of all blocks have room for the
/// samples, and planes with that room cover the picture.
#[tactic(auto, using(crate::proofs::FrameCovers::frame_laws))]
pub fn frames_are_covered()
    ensures whole { (number precision width height : ℕ) (factors : List Factors)
        (planes : List (List ℕ)) → All IsInRange factors → 0 < width → 0 < height →
        AreWhole (frame_of number precision width height factors).components planes
        → HaveRoom (frame_of number precision width height factors).components planes }
    ensures covered { (number precision width height : ℕ) (factors : List Factors)
        (planes : List (List ℕ)) (sources : List Source) →
        All IsInRange factors → 0 < width → 0 < height
        → HaveRoom (frame_of number precision width height factors).components planes →
        sources_of (frame_of number precision width height factors).components width height
        ≡ Ok sources → AllCover sources planes width height }
{}

/// The samples of three blocks, computed: the first coefficient alone; the largest coefficients and
/// quantization values; one large product. And those of a small block at less than full size.
pub fn known_blocks()
    ensures first_only { plane_of 8 (replicate 64 1) 1 1
        (λ row column. pos 8 ∷ replicate 63 (pos 0)) ≡ replicate 64 129 }
    ensures largest { plane_of 8 (replicate 64 65535) 1 1 (λ row column. replicate 64 (pos 32767)) ≡
        0 ∷ 0 ∷ 0 ∷ 255 ∷ 255 ∷ 0 ∷ 0 ∷ 255
        ∷ 0 ∷ 0 ∷ 215 ∷ 0 ∷ 0 ∷ 255 ∷ 255 ∷ 0
        ∷ 255 ∷ 255 ∷ 255 ∷ 255 ∷ 255 ∷ 0 ∷ 0 ∷ 255
        ∷ 0 ∷ 0 ∷ 255 ∷ 0 ∷ 255 ∷ 0 ∷ 255 ∷ 255
        ∷ 0 ∷ 0 ∷ 255 ∷ 255 ∷ 0 ∷ 255 ∷ 0 ∷ 0
        ∷ 255 ∷ 255 ∷ 0 ∷ 255 ∷ 255 ∷ 255 ∷ 170 ∷ 0
        ∷ 0 ∷ 255 ∷ 0 ∷ 0 ∷ 0 ∷ 0 ∷ 0 ∷ 255
        ∷ 255 ∷ 255 ∷ 0 ∷ 255 ∷ 0 ∷ 255 ∷ 0 ∷ 0 ∷ [] }
    ensures second_only { plane_of 8 (replicate 64 64) 1 1 (λ row column. pos 0 ∷ pos 8192
        ∷ replicate 62 (pos 0)) ≡
        0 ∷ 255 ∷ 0 ∷ 0 ∷ 255 ∷ 255 ∷ 0 ∷ 255
        ∷ 0 ∷ 255 ∷ 0 ∷ 0 ∷ 255 ∷ 255 ∷ 0 ∷ 255
        ∷ 0 ∷ 255 ∷ 0 ∷ 0 ∷ 255 ∷ 255 ∷ 0 ∷ 255
        ∷ 0 ∷ 255 ∷ 0 ∷ 0 ∷ 255 ∷ 255 ∷ 0 ∷ 255
        ∷ 0 ∷ 255 ∷ 0 ∷ 0 ∷ 255 ∷ 255 ∷ 0 ∷ 255
        ∷ 0 ∷ 255 ∷ 0 ∷ 0 ∷ 255 ∷ 255 ∷ 0 ∷ 255
        ∷ 0 ∷ 255 ∷ 0 ∷ 0 ∷ 255 ∷ 255 ∷ 0 ∷ 255
        ∷ 0 ∷ 255 ∷ 0 ∷ 0 ∷ 255 ∷ 255 ∷ 0 ∷ 255 ∷ [] }
    ensures half { plane_of 4 (replicate 64 64) 1 1
        (λ row column. pos 0 ∷ pos 1 ∷ replicate 62 (pos 0)) ≡
        138 ∷ 132 ∷ 124 ∷ 118
        ∷ 138 ∷ 132 ∷ 124 ∷ 118
        ∷ 138 ∷ 132 ∷ 124 ∷ 118
        ∷ 138 ∷ 132 ∷ 124 ∷ 118 ∷ [] }
    ensures quarter { plane_of 2 (replicate 64 64) 1 1
        (λ row column. pos 0 ∷ pos 1 ∷ replicate 62 (pos 0)) ≡
        136 ∷ 120
        ∷ 136 ∷ 120 ∷ [] }
    ensures eighth { plane_of 1 (replicate 64 64) 1 1
        (λ row column. pos 4 ∷ pos 1 ∷ replicate 62 (pos 0)) ≡ 160 ∷ [] }
{}

/// Brightness without colour is grey: its red, green and blue are the brightness.
#[tactic(auto, using(crate::proofs::LinesOfColour::grey))]
pub fn grey_stays_grey()
    ensures { (y : ℕ) → y < 256 → colour_of YCbCr (y ∷ 128 ∷ 128 ∷ []) ≡ y ∷ y ∷ y ∷ [] }
{}

/// The bytes of some pixels and of two lines, computed.
#[tactic(auto, unfolding(crate::proofs::Rules::colours))]
pub fn known_colours()
    ensures ycbcr { colour_of YCbCr (76 ∷ 85 ∷ 255 ∷ []) ≡ 254 ∷ 0 ∷ 0 ∷ [] }
    ensures cmyk { colour_of Cmyk (0 ∷ 10 ∷ 200 ∷ 255 ∷ []) ≡ 255 ∷ 245 ∷ 55 ∷ 0 ∷ [] }
    ensures ycck { colour_of Ycck (76 ∷ 85 ∷ 255 ∷ 10 ∷ []) ≡ 254 ∷ 0 ∷ 0 ∷ 245 ∷ [] }
    ensures rgb { line_bytes Rgb 2 ((1 ∷ 2 ∷ []) ∷ (3 ∷ 4 ∷ []) ∷ (5 ∷ 6 ∷ []) ∷ [])
        ≡ 1 ∷ 3 ∷ 5 ∷ 2 ∷ 4 ∷ 6 ∷ [] }
    ensures by_component { line_bytes None 2 ((1 ∷ 2 ∷ []) ∷ (3 ∷ 4 ∷ []) ∷ (5 ∷ 6 ∷ []) ∷ [])
        ≡ 1 ∷ 2 ∷ 3 ∷ 4 ∷ 5 ∷ 6 ∷ [] }
{}

/// At its ends a component is not blended: a component of one sample is that sample everywhere, and
/// the first and last samples of a row or a column are the component's own. Where it is made
/// twice as wide and high, those of any row are blended from the two nearest lines alone.
#[tactic(auto, using(crate::proofs::UpsampledRows::firsts, crate::proofs::UpsampledRows::lasts))]
pub fn ends_are_kept()
    ensures alone { (rule : UpsampleRule) (plane : ℕ → ℕ → ℕ) (x row : ℕ) → x < across rule
        → row < down rule →
        upsampled rule plane 1 1 x row ≡ plane 0 0 }
    ensures first_across { (plane : ℕ → ℕ → ℕ) (width height row : ℕ)
        → upsampled H2V1 plane width height 0 row ≡ plane 0 row }
    ensures last_across { (plane : ℕ → ℕ → ℕ) (width height row : ℕ) → 1 ≤ width →
        upsampled H2V1 plane width height (2 * width - 1) row ≡ plane (width - 1) row }
    ensures first_down { (plane : ℕ → ℕ → ℕ) (width height x : ℕ)
        → upsampled H1V2 plane width height x 0 ≡ plane x 0 }
    ensures last_down { (plane : ℕ → ℕ → ℕ) (width height x : ℕ) → 1 ≤ height →
        upsampled H1V2 plane width height x (2 * height - 1) ≡ plane x (height - 1) }
    ensures first_corner { (plane : ℕ → ℕ → ℕ) (width height : ℕ)
        → upsampled H2V2 plane width height 0 0 ≡ plane 0 0 }
    ensures last_corner { (plane : ℕ → ℕ → ℕ) (width height : ℕ) → 1 ≤ width → 1 ≤ height →
        upsampled H2V2 plane width height (2 * width - 1) (2 * height - 1) ≡ plane (width - 1)
        (height - 1) }
    ensures first_column { (plane : ℕ → ℕ → ℕ) (width height row : ℕ) →
        upsampled H2V2 plane width height 0 row ≡ (line_sum plane height row 0 + 2) / 4 }
    ensures last_column { (plane : ℕ → ℕ → ℕ) (width height row : ℕ) → 1 ≤ width →
        upsampled H2V2 plane width height (2 * width - 1) row
        ≡ (line_sum plane height row (width - 1) + 2) / 4 }
    ensures first_line { (plane : ℕ → ℕ → ℕ) (width height x : ℕ) →
        upsampled H2V2 plane width height x 0 ≡ upsampled H2V1 plane width height x 0 }
    ensures repeated { (plane : ℕ → ℕ → ℕ) (width height h v i j k l : ℕ) → k < h → l < v →
        upsampled (Generic h v) plane width height (i * h + k) (j * v + l) ≡ plane i j }
{}

/// Rows of each rule, computed.
#[tactic(auto, unfolding(crate::specs::Upsampling::upsampled))]
pub fn known_rows()
    ensures twice_across { map (λ x. upsampled H2V1 (λ i j. slice_index (10 ∷ 20 ∷ 30 ∷ []) i) 3 1 x
        0) (range_with_len 0 6) ≡
        10 ∷ 13 ∷ 18 ∷ 23 ∷ 28 ∷ 30 ∷ [] }
    ensures twice_down { map (λ row. upsampled H1V2 (λ i j. slice_index (10 ∷ 30 ∷ []) j) 1 2 0 row)
        (range_with_len 0 4) ≡
        10 ∷ 15 ∷ 25 ∷ 30 ∷ [] }
    ensures both_first { map (λ x. upsampled H2V2 (λ i j. slice_index (10 ∷ 20 ∷ 30 ∷ 40 ∷ [])
        (j * 2 + i)) 2 2 x 0) (range_with_len 0 4) ≡
        10 ∷ 13 ∷ 18 ∷ 20 ∷ [] }
    ensures both_second { map (λ x. upsampled H2V2 (λ i j. slice_index (10 ∷ 20 ∷ 30 ∷ 40 ∷ [])
        (j * 2 + i)) 2 2 x 1) (range_with_len 0 4) ≡
        15 ∷ 18 ∷ 23 ∷ 25 ∷ [] }
    ensures four_times { map (λ x. upsampled (Generic 4 1) (λ i j. slice_index (10 ∷ 20 ∷ []) i) 2 1
        x 0) (range_with_len 0 8) ≡
        10 ∷ 10 ∷ 10 ∷ 10 ∷ 20 ∷ 20 ∷ 20 ∷ 20 ∷ [] }
{}

/// No sum of a colour leaves 32 bits: neither those that its definition adds up, term by term, nor
/// the products in them.
pub fn color_sums_fit()
    ensures brightness { (y : ℕ) → y < 256 → FitsSigned w32 (luma_of y) }
    ensures products { (c : ℕ) → c < 256 → FitsSigned w32 (pos 1470104 *ℤ centred_of c)
        × FitsSigned w32 (pos 360857 *ℤ centred_of c) × FitsSigned w32 (pos 748830 *ℤ centred_of c)
        × FitsSigned w32 (pos 1858077 *ℤ centred_of c) }
    ensures red { (y cr : ℕ) → y < 256 → cr < 256
        → FitsSigned w32 (luma_of y +ℤ pos 1470104 *ℤ centred_of cr) }
    ensures green_by_cb { (y cb : ℕ) → y < 256 → cb < 256
        → FitsSigned w32 (luma_of y -ℤ pos 360857 *ℤ centred_of cb) }
    ensures green { (y cb cr : ℕ) → y < 256 → cb < 256 → cr < 256 → FitsSigned w32
        (luma_of y -ℤ pos 360857 *ℤ centred_of cb -ℤ pos 748830 *ℤ centred_of cr) }
    ensures blue { (y cb : ℕ) → y < 256 → cb < 256
        → FitsSigned w32 (luma_of y +ℤ pos 1858077 *ℤ centred_of cb) }
{}
