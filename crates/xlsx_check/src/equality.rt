//! What `==` and a copy of the types of this crate are.
ghost use Rattle.equalities.specs.Equality.{IsEquality, CopiesItself};

use crate::outcome::{Computed, Outcome, Verdict};
use crate::token::Comparison;

/// `a == b` exactly where both are the same, at each type of this crate: numbers where they are the
/// same decimal.
pub fn equality_is_by_all_fields()
    ensures comparison { IsEquality ⟦<Comparison as PartialEq>⟧.eq }
    ensures computed { IsEquality ⟦<Computed as PartialEq>⟧.eq }
    ensures outcome { IsEquality ⟦<Outcome as PartialEq>⟧.eq }
    ensures verdict { IsEquality ⟦<Verdict as PartialEq>⟧.eq }
{}

/// A copy of a value is that value, at each type of this crate that is `Copy`.
pub fn copies_are_the_same()
    ensures comparison { CopiesItself ⟦<Comparison as Clone>⟧.is_clone
        ⟦<Comparison as Clone>⟧.is_infallible }
    ensures computed { CopiesItself ⟦<Computed as Clone>⟧.is_clone
        ⟦<Computed as Clone>⟧.is_infallible }
    ensures outcome { CopiesItself ⟦<Outcome as Clone>⟧.is_clone
        ⟦<Outcome as Clone>⟧.is_infallible }
    ensures verdict { CopiesItself ⟦<Verdict as Clone>⟧.is_clone
        ⟦<Verdict as Clone>⟧.is_infallible }
{}
