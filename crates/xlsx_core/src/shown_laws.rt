ghost use Rattle.std.specs.Prelude.{◌≡◌, ℕ, List, Some};
ghost use Rattle.std.specs.List.{filter};
ghost use Rattle.cell_data.specs.Words.{CellValue, value_pairs};
ghost use Rattle.cell_data.specs.declared.range.Range.{Range};
ghost use Rattle.cell_data.specs.declared.value.Data.{Data};
ghost use Rattle.cell_data.specs.declared.value.HeaderRow.TheVariants.{FirstNonEmptyRow};
ghost use Rattle.cell_refs.specs.Words.{is_in_area};
ghost use Rattle.cell_refs.specs.declared.dimensions.Dimensions.{Dimensions};
ghost use Rattle.part_events.specs.Words.{Part};
ghost use Rattle.xlsx_open.specs.Words.{Opening, OpensAs};
ghost use Rattle.xlsx_core.specs.Agreement.{HaveSameSheet};
ghost use Rattle.xlsx_core.specs.SheetReading.{IsReadable, opened_context, path_named};
ghost use Rattle.xlsx_core.specs.ShownSheet.{ShownAs};
ghost use Rattle.xlsx_core.specs.ShownTable.{ShowsValuesIn};

/// A sheet is shown exactly where it is read, and in one way. So are the sheets of two packages
/// that have the same parts where it is read from.
pub fn sheets_are_shown_alike()
    ensures onward { (parts : List Part) (name : List ℕ) → IsReadable parts name →
        (shown : List ((ℕ × ℕ) × CellValue)) × ShownAs parts name shown }
    ensures back { (parts : List Part) (name : List ℕ) (shown : List ((ℕ × ℕ) × CellValue)) →
        ShownAs parts name shown → IsReadable parts name }
    ensures one { (parts : List Part) (name : List ℕ) (one two : List ((ℕ × ℕ) × CellValue)) →
        ShownAs parts name one → ShownAs parts name two → one ≡ two }
    ensures alike { (one two : List Part) (name : List ℕ)
        (shown others : List ((ℕ × ℕ) × CellValue)) → HaveSameSheet one two name →
        ShownAs one name shown → ShownAs two name others → shown ≡ others }
{}

/// What is shown in an area of a sheet is what is shown of the whole sheet there: a cell of a table
/// has the text that it has in its sheet.
pub fn areas_are_shown_as_their_sheets()
    ensures { (parts : List Part) (name : List ℕ) (opening : Opening) (area : Dimensions)
        (shown : List ((ℕ × ℕ) × CellValue)) (range : Range Data) → OpensAs parts opening →
        ShownAs parts name shown → ShowsValuesIn (opened_context opening) opening.shared
        opening.is_1904 FirstNonEmptyRow (Some area) (path_named name opening.sheets) parts range →
        value_pairs range ≡ filter (λ cell. is_in_area area cell.0) shown }
{}
