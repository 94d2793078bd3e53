//! What a copy of the types of this crate is.
ghost use Rattle.equalities.specs.Equality.{CopiesItself};

use crate::{BookArea, Cause, NamingError, Standing};

/// A copy of a value is that value, at each type of this crate.
pub fn copies_are_the_same()
    ensures standing { CopiesItself ⟦<Standing as Clone>⟧.is_clone
        ⟦<Standing as Clone>⟧.is_infallible }
    ensures area { CopiesItself ⟦<BookArea as Clone>⟧.is_clone
        ⟦<BookArea as Clone>⟧.is_infallible }
    ensures cause { CopiesItself ⟦<Cause as Clone>⟧.is_clone ⟦<Cause as Clone>⟧.is_infallible }
    ensures error { CopiesItself ⟦<NamingError as Clone>⟧.is_clone
        ⟦<NamingError as Clone>⟧.is_infallible }
{}
