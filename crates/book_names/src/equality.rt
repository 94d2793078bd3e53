//! What a copy of the types of this crate is.
ghost use Rattle.equalities.specs.Equality.{CopiesItself};

use crate::TableArea;

/// A copy of an area is that area.
pub fn copies_are_the_same<'a>()
    ensures { CopiesItself ⟦<TableArea<'a> as Clone>⟧.is_clone
        ⟦<TableArea<'a> as Clone>⟧.is_infallible }
{}
