//! What a copy of the types of this crate is.
ghost use Rattle.equalities.specs.Equality.{CopiesItself};

use crate::content::{Content, LineForm, Listed};
use crate::field::Field;

/// A copy of a value is that value, at each type of this crate that is `Copy`.
pub fn copies_are_the_same<'a>()
    ensures form { CopiesItself ⟦<LineForm as Clone>⟧.is_clone
        ⟦<LineForm as Clone>⟧.is_infallible }
    ensures content { CopiesItself ⟦<Content<'a> as Clone>⟧.is_clone
        ⟦<Content<'a> as Clone>⟧.is_infallible }
    ensures field { CopiesItself ⟦<Field<'a> as Clone>⟧.is_clone
        ⟦<Field<'a> as Clone>⟧.is_infallible }
    ensures listed { CopiesItself ⟦<Listed<'a> as Clone>⟧.is_clone
        ⟦<Listed<'a> as Clone>⟧.is_infallible }
{}
