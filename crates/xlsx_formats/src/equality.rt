//! What a copy of the types of this crate is.
ghost use Rattle.equalities.specs.Equality.{CopiesItself};

use crate::formatting::NamedLists;

/// A copy of a value is that value, at each type of this crate that is `Copy`.
pub fn copies_are_the_same<'a>()
    ensures { CopiesItself ⟦<NamedLists<'a> as Clone>⟧.is_clone
        ⟦<NamedLists<'a> as Clone>⟧.is_infallible }
{}
