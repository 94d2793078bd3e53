//! What a copy of the types of this crate is.
ghost use Rattle.equalities.specs.Equality.{CopiesItself};

use crate::{Item, Items, Name, Named, Place};

/// A copy of a value is that value, at each type of this crate.
pub fn copies_are_the_same<'a>()
    ensures name { CopiesItself ⟦<Name<'a> as Clone>⟧.is_clone
        ⟦<Name<'a> as Clone>⟧.is_infallible }
    ensures place { CopiesItself ⟦<Place<'a> as Clone>⟧.is_clone
        ⟦<Place<'a> as Clone>⟧.is_infallible }
    ensures named { CopiesItself ⟦<Named<'a> as Clone>⟧.is_clone
        ⟦<Named<'a> as Clone>⟧.is_infallible }
    ensures item { CopiesItself ⟦<Item<'a> as Clone>⟧.is_clone
        ⟦<Item<'a> as Clone>⟧.is_infallible }
    ensures items { CopiesItself ⟦<Items<'a> as Clone>⟧.is_clone
        ⟦<Items<'a> as Clone>⟧.is_infallible }
{}
