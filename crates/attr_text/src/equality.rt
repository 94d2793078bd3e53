//! What `==` and a copy of the types of this crate are.
ghost use Rattle.equalities.specs.Equality.{IsEquality, CopiesItself};

use crate::{AttrFault, RawAttrIter, TextFault};

/// `a == b` exactly where all fields are the same, at each type of this crate.
pub fn equality_is_by_all_fields()
    ensures attr_fault { IsEquality ⟦<AttrFault as PartialEq>⟧.eq }
    ensures text_fault { IsEquality ⟦<TextFault as PartialEq>⟧.eq }
{}

/// A copy of a value is that value, at each type of this crate that is `Copy`.
pub fn copies_are_the_same<'a>()
    ensures attr_fault { CopiesItself ⟦<AttrFault as Clone>⟧.is_clone
        ⟦<AttrFault as Clone>⟧.is_infallible }
    ensures text_fault { CopiesItself ⟦<TextFault as Clone>⟧.is_clone
        ⟦<TextFault as Clone>⟧.is_infallible }
    ensures raw_attr_iter { CopiesItself ⟦<RawAttrIter<'a> as Clone>⟧.is_clone
        ⟦<RawAttrIter<'a> as Clone>⟧.is_infallible }
{}
