//! What `==` and a copy of the types of this crate are.
ghost use Rattle.equalities.specs.Equality.{IsEqualityBy, CopiesItself};
ghost use Rattle.xlsx_values.specs.ValueContext.{kind_of};

use crate::context::ValueContext;
use crate::types::CellType;

/// `a == b` exactly where all fields are the same, at each type of this crate, texts by their
/// bytes.
pub fn equality_is_by_all_fields()
    ensures { IsEqualityBy kind_of ⟦<CellType as PartialEq>⟧.eq }
{}

/// A copy of a value is that value, at each type of this crate that is `Copy`.
pub fn copies_are_the_same<'a>()
    ensures { CopiesItself ⟦<ValueContext<'a> as Clone>⟧.is_clone ⟦<ValueContext<'a> as Clone>⟧.is_infallible }
{}
