//! What holds of the formulas of all sheets.
ghost use Rattle.std.specs.Prelude.{◌≡◌, ℕ, List, map, Some};
ghost use Rattle.cell_refs.specs.Words.{last_of_each};
ghost use Rattle.part_events.specs.Words.{Event, Part, part_of};
ghost use Rattle.xlsx_error.specs.declared.error.XlsxError.{XlsxError};
ghost use Rattle.xlsx_parts.specs.Words.{SheetPath};
ghost use Rattle.xlsx_core.specs.FormulaList.{NumberedSheet, FormulaSaid, formula_pair};
ghost use Rattle.xlsx_core.specs.FormulaList.{sheet_formulas, workbook_formulas, FormulasCause};
ghost use Rattle.xlsx_core.specs.Worksheets.{AnswersFormulas};

/// Where the formulas of all sheets are said, none of these has a cause to be refused.
pub fn formulas_that_are_said_are_not_refused()
    ensures { (parts : List Part) (sheets : List SheetPath) (all : List FormulaSaid)
        (error : XlsxError) → workbook_formulas parts sheets ≡ Some all →
        FormulasCause parts sheets error → ⊥ }
{}

/// The formulas that are said of a sheet are those that `worksheet_formula` answers of its part,
/// the last one of each position.
pub fn formulas_of_all_sheets_are_those_of_each()
    ensures { (parts : List Part) (sheet : NumberedSheet) (events : List Event)
        (all : List FormulaSaid) → part_of parts sheet.path ≡ Some events →
        sheet_formulas parts sheet ≡ Some all →
        (formulas : List ((ℕ × ℕ) × List ℕ)) × AnswersFormulas events formulas
        × (map formula_pair all ≡ last_of_each formulas) }
{}
