//! What `==` and a copy of the types of this crate are.
ghost use Rattle.equalities.specs.Equality.{IsEquality, CopiesItself};

use crate::property::Property;

/// `a == b` exactly where all fields are the same, at each type of this crate.
pub fn equality_is_by_all_fields()
    ensures { IsEquality ⟦<Property as PartialEq>⟧.eq }
{}

/// A copy of a value is that value, at each type of this crate that is `Copy`.
pub fn copies_are_the_same()
    ensures { CopiesItself ⟦<Property as Clone>⟧.is_clone ⟦<Property as Clone>⟧.is_infallible }
{}
