//! Laws of pivot tables.

ghost use Rattle.std.specs.Prelude.{◌≡◌, ℕ, List, Some};
ghost use Rattle.part_events.specs.Words.{Part};
ghost use Rattle.xlsx_error.specs.declared.error.XlsxError.{XlsxError};
ghost use Rattle.xlsx_parts.specs.Words.{SheetPath};
ghost use Rattle.xlsx_pivots.specs.Pivots.{PivotSaid, pivots_of, PivotsCause};

/// Parts that say the pivot tables of all sheets have no cause of a refusal.
pub fn pivots_have_no_cause_of_a_refusal()
    ensures { (parts : List Part) (folder : List ℕ) (sheets : List SheetPath)
        (found : List PivotSaid) (error : XlsxError) → pivots_of parts folder sheets ≡ Some found →
        PivotsCause parts sheets error → ⊥ }
{}
