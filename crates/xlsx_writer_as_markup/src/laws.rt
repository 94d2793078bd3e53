//! Laws: the parts that are written of a sheet are spelled, and read back from their bytes.
ghost use Rattle.std.specs.Prelude.{ℕ, List, String};
ghost use Rattle.std.specs.declared.alloc.Global.{Global};
ghost use Rattle.cell_data.specs.Words.{value_pairs, formula_pairs};
ghost use Rattle.cell_data.specs.declared.range.Range.{Range};
ghost use Rattle.cell_data.specs.declared.value.Data.{Data};
ghost use Rattle.text_package.specs.PartSpelling.{IsPartText};
ghost use Rattle.xlsx_writer.specs.Words.{PlacedFormulas, PlacedValues, written_parts};
ghost use Rattle.xlsx_writer.specs.declared.form.WrittenForm.{WrittenForm};
ghost use Rattle.xlsx_writer_as_markup.specs.WrittenPieces.{AreSpelled, AreCutBack, HaveTexts};
ghost use Rattle.xlsx_writer_as_markup.specs.WrittenPieces.{HaveNoZero};

/// Each event of a part that is written is a piece of markup, and these pieces can be spelled one
/// behind the other, whatever the sheet's name, values and formulas are.
pub fn written_parts_are_spelled()
    ensures { (form : WrittenForm) (name : List ℕ) (values : PlacedValues)
        (formulas : PlacedFormulas) →
        AreSpelled (written_parts form name values formulas) }
{}

/// The bytes of each part that is written, read as a part, are its events, where the sheet's name
/// and the texts of its values and formulas are UTF-8 without a character 0 (`placed`), which is
/// written as an escape in a value's text of a workbook file; of those that ranges hold it is
/// enough that none has such a character 0 (`ranges`).
pub fn written_parts_are_cut_back()
    ensures placed { (form : WrittenForm) (name : List ℕ) (values : PlacedValues)
        (formulas : PlacedFormulas) →
        HaveTexts form name values formulas → AreCutBack (written_parts form name values formulas) }
    ensures ranges { (form : WrittenForm) (name : List ℕ) (values : Range Data)
        (formulas : Range (String Global)) →
        IsPartText name → HaveNoZero form values formulas →
        AreCutBack (written_parts form name (value_pairs values) (formula_pairs formulas)) }
{}
