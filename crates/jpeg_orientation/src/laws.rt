//! Laws that make the definitions evident: worked areas, computed by the checker, and where the
//! pixels of a part stand. Nothing here is code that runs.
ghost use Rattle.std.specs.Prelude.{◌≡◌, ◌+◌, ◌<◌, ℕ, [], ◌∷◌, false, map, true};
ghost use Rattle.jpeg_orientation.specs.Areas.{is_inside, stored_area, turn_of_part};
ghost use Rattle.jpeg_orientation.specs.Turns.{stored_column, stored_line, upright_height};
ghost use Rattle.jpeg_orientation.specs.Turns.{upright_width};
ghost use Rattle.jpeg_orientation.specs.Worked.{area_at, five_by_four};
ghost use Rattle.jpeg_orientation.specs.declared.areas.Area.{Area};
ghost use Rattle.jpeg_orientation.specs.declared.turns.Turn.{Turn};

/// The first two pixels of the second line of an upright picture, of which 5 by 4 pixels are
/// stored, in each orientation: the stored area begins at the other end of a side that is flipped,
/// and of a picture that lies on its side it is two lines high (Exif 2.3, 4.6.4).
#[tactic(auto)]
pub fn known_areas()
    ensures stored { map (λ o. stored_area (five_by_four o) (area_at 0 1 2 1))
        (1 ∷ 2 ∷ 3 ∷ 4 ∷ 5 ∷ 6 ∷ 7 ∷ 8 ∷ [])
        ≡ area_at 0 1 2 1 ∷ area_at 3 1 2 1 ∷ area_at 3 2 2 1 ∷ area_at 0 2 2 1
        ∷ area_at 1 0 1 2 ∷ area_at 1 2 1 2 ∷ area_at 3 2 1 2 ∷ area_at 3 0 1 2 ∷ [] }
    ensures inside { map (λ a. is_inside a 5 4) (area_at 0 0 5 4 ∷ area_at 4 3 1 1 ∷ area_at 4 3 2 1
        ∷ area_at 4 3 1 2 ∷ area_at 0 0 0 1 ∷ area_at 0 0 1 0 ∷ [])
        ≡ true ∷ true ∷ false ∷ false ∷ false ∷ false ∷ [] }
{}

/// A pixel of a part of an upright picture is stored where it is in the stored part, turned like
/// the picture, counted from the first column and the first line of the stored area.
#[tactic(auto, using(crate::proofs::Rules::parts))]
pub fn parts_are_turned()
    ensures column { (turn : Turn) (area : Area) (across down : ℕ)
        → is_inside area (upright_width turn) (upright_height turn) ≡ true
        → across < area.width → down < area.height
        → stored_column turn (area.left + across) (area.top + down)
        ≡ (stored_area turn area).left
        + stored_column (turn_of_part turn (stored_area turn area)) across down }
    ensures line { (turn : Turn) (area : Area) (across down : ℕ)
        → is_inside area (upright_width turn) (upright_height turn) ≡ true
        → across < area.width → down < area.height
        → stored_line turn (area.left + across) (area.top + down)
        ≡ (stored_area turn area).top
        + stored_line (turn_of_part turn (stored_area turn area)) across down }
{}
