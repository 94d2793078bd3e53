ghost use Rattle.std.specs.Prelude.{◌≡◌, ℕ, true, ◌&&◌, not, [], List, map};
ghost use Rattle.std.specs.List.{list_any};
ghost use Rattle.cell_data.specs.Words.{AreInSheet};
ghost use Rattle.cell_refs.specs.Words.{is_rising};
ghost use Rattle.xlsx_cells.specs.Words.{used_formulas, formulas_along};
ghost use Rattle.xlsx_writer.specs.Words.{PlacedFormulas, formula_held, is_placed, group_head};
ghost use Rattle.xlsx_writer.specs.Words.{is_same_position, are_writable_formulas, PlacedValues};
ghost use Rattle.xlsx_writer.specs.Words.{written_parts, written_positions};
ghost use Rattle.round_trip.specs.ReadFormulas.{formulas_read, formulas_read_along, SaysFormulas};
ghost use Rattle.round_trip.specs.ReadFormulas.{derived_at, is_derived, with_other_head};
ghost use Rattle.xlsx_writer.specs.declared.form.WrittenForm.{WrittenForm};
ghost use Rattle.xlsx_writer.specs.declared.form.WrittenForm.TheVariants.{PackageText};

/// Formulas that are written, in groups or each by itself, read back as themselves: each derived
/// one is the text of its group's first formula, moved to its position.
pub fn groups_read_back()
    ensures { (form : WrittenForm) (values : PlacedValues) (formulas : PlacedFormulas) →
        is_rising formulas ≡ true → are_writable_formulas formulas ≡ true →
        used_formulas (formulas_along []
        (formulas_read_along form formulas (written_positions values formulas))) ≡ formulas }
{}

/// A formula of a package text is read as a derived one exactly where its head is another: of what
/// is written at a position, and, of each position that has a value or a formula, by the data of
/// the sheet's part.
pub fn derived_formulas_have_another_head()
    ensures each { (formulas : PlacedFormulas) (position : ℕ × ℕ) →
        list_any is_derived (formulas_read PackageText formulas position)
        ≡ (is_placed (formula_held formulas position)
        && not (is_same_position (group_head formulas position) position)) }
    ensures part { (name : List ℕ) (values : PlacedValues) (formulas : PlacedFormulas) →
        AreInSheet values → AreInSheet formulas → is_rising formulas ≡ true →
        SaysFormulas (written_parts PackageText name values formulas) (λ all. map derived_at all
        ≡ map (with_other_head formulas) (written_positions values formulas)) }
{}
