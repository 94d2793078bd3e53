ghost use Rattle.std.specs.Prelude.{◌≡◌, true, map, Ok};
ghost use Rattle.cell_data.specs.Words.{AreInSheet};
ghost use Rattle.cell_refs.specs.Words.{is_rising};
ghost use Rattle.xlsx_cells.specs.Words.{formulas_written, ids_in};
ghost use Rattle.xlsx_writer.specs.Words.{PlacedFormulas, PlacedValues, written_positions};
ghost use Rattle.xlsx_writer.specs.Words.{data_markup};
ghost use Rattle.xlsx_writer.specs.declared.form.WrittenForm.{WrittenForm};
ghost use Rattle.round_trip.specs.ReadFormulas.{formulas_read_along};
ghost use Rattle.round_trip.specs.ReadSheet.{id_read};

/// The data of a written sheet say at each position that has a value or a formula how its formula
/// is shared, and the style of its value.
pub fn written_cells_say_what_was_written()
    ensures formulas { (form : WrittenForm) (values : PlacedValues) (formulas : PlacedFormulas) →
        AreInSheet values → AreInSheet formulas → is_rising formulas ≡ true →
        formulas_written (data_markup form values formulas)
        ≡ Ok (formulas_read_along form formulas (written_positions values formulas)) }
    ensures styles { (form : WrittenForm) (values : PlacedValues) (formulas : PlacedFormulas) →
        AreInSheet values → AreInSheet formulas →
        ids_in (data_markup form values formulas)
        ≡ Ok (map (id_read values) (written_positions values formulas)) }
{}
