ghost use Rattle.std.specs.Prelude.{◌≡◌, List, map};
ghost use Rattle.cell_data.specs.declared.cell.Cell.{Cell};
ghost use Rattle.cell_data.specs.declared.value.DataRef.{DataRef};
ghost use Rattle.xlsx_values.specs.Words.{ValueContext};
ghost use Rattle.xlsx_formulas.specs.Words.{FormulaText};
ghost use Rattle.xlsx_cells.specs.CellsReader.{IsValued, IsValuedFormula};
ghost use Rattle.xlsx_cells.specs.Marks.{Mark};
ghost use Rattle.xlsx_cells.specs.Stream.{Stream, data_ahead};
ghost use Rattle.xlsx_cells.specs.WholeReadings.{TakesAll, cell_value_entry, formula_value_entry};
ghost use Rattle.xlsx_cells.specs.declared.cell_records.XlsxCellFormula.{XlsxCellFormula};

/// Whoever takes all cells that are left by `next_cell`, and whoever does by
/// `next_cell_with_formula`, has the same positions and values, whatever formulas were kept before.
pub fn readings_have_the_same_values()
    ensures { (context : ValueContext) (before : List Mark) (earlier more : List FormulaText)
        (one two : Stream) (cells : List (Cell DataRef)) (records : List XlsxCellFormula) →
        data_ahead one ≡ data_ahead two →
        TakesAll (λ kept. IsValued context) before earlier one cells →
        TakesAll (IsValuedFormula context) before more two records →
        map cell_value_entry cells ≡ map formula_value_entry records }
{}
