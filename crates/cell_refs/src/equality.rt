//! What `==` and a copy of the types of this crate are.
ghost use Rattle.equalities.specs.Equality.{IsEquality, CopiesItself};

use crate::{Dimensions, RefError};

/// `a == b` exactly where all fields are the same, at each type of this crate.
pub fn equality_is_by_all_fields()
    ensures dimensions { IsEquality ⟦<Dimensions as PartialEq>⟧.eq }
    ensures ref_error { IsEquality ⟦<RefError as PartialEq>⟧.eq }
{}

/// A copy of a value is that value, at each type of this crate that is `Copy`.
pub fn copies_are_the_same()
    ensures dimensions { CopiesItself ⟦<Dimensions as Clone>⟧.is_clone
        ⟦<Dimensions as Clone>⟧.is_infallible }
    ensures ref_error { CopiesItself ⟦<RefError as Clone>⟧.is_clone
        ⟦<RefError as Clone>⟧.is_infallible }
{}
