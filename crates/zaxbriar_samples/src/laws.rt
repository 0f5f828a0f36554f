//! Laws that make the definitions evident: worked pictures, computed by the checker, and what a part
//! of a picture has of it. Nothing here is code that runs.
ghost use Rattle.std.specs.Prelude.{◌≡◌, ◌+◌, ◌*◌, ◌<◌, ℕ, [], ◌∷◌, None, Some, false, length};
ghost use Rattle.std.specs.Prelude.{map, true};
ghost use Rattle.jpeg_orientation.specs.declared.areas.Area.{Area};
ghost use Rattle.zaxbriar_samples.specs.DecodedPictures.{Decoded};
ghost use Rattle.zaxbriar_samples.specs.Parts.{has_part, part_of, pixel_bytes, shown_part};
ghost use Rattle.zaxbriar_samples.specs.Parts.{shown_pixel, stored_part};
ghost use Rattle.zaxbriar_samples.specs.Turns.{upright};
ghost use Rattle.zaxbriar_samples.specs.Worked.{column_of_two, line_of_three, three_by_two};

/// A part of a picture has the pixels that it has in the picture as it is shown, by each
/// orientation.
#[tactic(auto, unfolding(crate::proofs::Rules::shown_parts))]
pub fn known_parts()
    ensures stored { (part_of column_of_two three_by_two).pixels ≡ 2 ∷ 5 ∷ [] }
    ensures shown { map (λ o. (shown_part (Some column_of_two) o three_by_two).pixels)
        (1 ∷ 2 ∷ 3 ∷ 4 ∷ 5 ∷ 6 ∷ 7 ∷ 8 ∷ [])
        ≡ (2 ∷ 5 ∷ []) ∷ (2 ∷ 5 ∷ []) ∷ (5 ∷ 2 ∷ []) ∷ (5 ∷ 2 ∷ [])
        ∷ (4 ∷ 5 ∷ []) ∷ (1 ∷ 2 ∷ []) ∷ (3 ∷ 2 ∷ []) ∷ (6 ∷ 5 ∷ []) ∷ [] }
    ensures same { map (λ o. (shown_part (Some column_of_two) o three_by_two).pixels)
        (1 ∷ 2 ∷ 3 ∷ 4 ∷ 5 ∷ 6 ∷ 7 ∷ 8 ∷ [])
        ≡ map (λ o. (part_of column_of_two (upright o three_by_two)).pixels)
        (1 ∷ 2 ∷ 3 ∷ 4 ∷ 5 ∷ 6 ∷ 7 ∷ 8 ∷ []) }
    ensures inside { map (λ o. has_part (Some line_of_three) o three_by_two.info)
        (1 ∷ 2 ∷ 3 ∷ 4 ∷ 5 ∷ 6 ∷ 7 ∷ 8 ∷ [])
        ≡ true ∷ true ∷ true ∷ true ∷ false ∷ false ∷ false ∷ false ∷ [] }
    ensures all { map (λ o. has_part None o three_by_two.info) (1 ∷ 6 ∷ [])
        ≡ true ∷ true ∷ [] }
{}

/// A pixel of a part, once it is turned, is that of the picture that is turned, counted from the
/// part's first column and its first line.
pub fn parts_are_of_pictures()
    ensures { (area : Area) (orientation : ℕ) (picture : Decoded) (across down : ℕ)
        → has_part (Some area) orientation picture.info ≡ true
        → length picture.pixels ≡ picture.info.width * picture.info.height
        * pixel_bytes picture.info picture.precision
        → across < area.width → down < area.height
        → shown_pixel orientation (stored_part (Some area) orientation picture) across down
        ≡ shown_pixel orientation picture (area.left + across) (area.top + down) }
{}
