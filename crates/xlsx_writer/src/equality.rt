//! What a copy of the types of this crate is.
ghost use Rattle.equalities.specs.Equality.{CopiesItself};

use crate::form::WrittenForm;

/// A copy of a form is that form.
pub fn copies_are_the_same()
    ensures form { CopiesItself ⟦<WrittenForm as Clone>⟧.is_clone
        ⟦<WrittenForm as Clone>⟧.is_infallible }
{}
