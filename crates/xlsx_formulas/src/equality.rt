//! What `==` and a copy of the types of this crate are.
ghost use Rattle.equalities.specs.Equality.{IsEquality, IsEqualityBy, CopiesItself};
ghost use Rattle.xlsx_formulas.specs.Described.{description_seen};

use crate::formula::FormulaAttributes;
use crate::metadata::XlsxFormulaMetadata;

/// `a == b` exactly where all fields are the same, at each type of this crate, texts by their
/// bytes.
pub fn equality_is_by_all_fields()
    ensures metadata { IsEqualityBy description_seen ⟦<XlsxFormulaMetadata as PartialEq>⟧.eq }
    ensures share { IsEquality ⟦<FormulaAttributes as PartialEq>⟧.eq }
{}

/// A copy of a value is that value, at each type of this crate that is `Copy`.
pub fn copies_are_the_same()
    ensures { CopiesItself ⟦<FormulaAttributes as Clone>⟧.is_clone ⟦<FormulaAttributes as Clone>⟧.is_infallible }
{}
