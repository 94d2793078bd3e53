ghost use Rattle.std.specs.Prelude.{ℕ, List, String};
ghost use Rattle.std.specs.declared.alloc.Global.{Global};
ghost use Rattle.cell_data.specs.Words.{value_pairs, formula_pairs};
ghost use Rattle.cell_data.specs.declared.range.Range.{Range};
ghost use Rattle.cell_data.specs.declared.value.Data.{Data};
ghost use Rattle.xlsx_core.specs.Words.{ReadsAs};
ghost use Rattle.xlsx_writer.specs.Words.{IsWritable, written_parts};
ghost use Rattle.xlsx_writer.specs.declared.form.WrittenForm.{WrittenForm};
ghost use Rattle.round_trip.specs.ReadStyles.{styles_read};

/// A package that is written of values and formulas, in either form, opens, and its sheet of this
/// name reads as these values, these formulas, and the styles of dates and durations.
pub fn written_packages_read_back()
    ensures { (form : WrittenForm) (name : List ℕ) (values : Range Data)
        (formulas : Range (String Global)) → IsWritable values formulas →
        ReadsAs (written_parts form name (value_pairs values) (formula_pairs formulas)) name
        (value_pairs values) (formula_pairs formulas)
        (styles_read (value_pairs values) (formula_pairs formulas)) }
{}
