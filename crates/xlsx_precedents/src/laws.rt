ghost use Rattle.std.specs.Prelude.{◌≡◌, ℕ, List, ℤ};
ghost use Rattle.formula_shift.specs.Words.{moved};
ghost use Rattle.xlsx_precedents.specs.Precedents.{areas, shifted_areas};

/// The areas of a moved text are those of the references that the text has, each moved, in order.
/// Those that leave the worksheet are left out.
pub fn areas_of_a_shifted_text_are_shifted()
    ensures { (text : List ℕ) (offset : ℤ × ℤ) →
        areas (moved text offset) ≡ shifted_areas text offset }
{}
