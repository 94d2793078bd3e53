//! What a copy of cells in order is.
ghost use Rattle.equalities.specs.Equality.{CopiesItself};

use crate::placed_cells::PlacedCells;

/// A copy of what is left of cells is that, and leaves it as it was.
pub fn copies_are_the_same<'a, T: 'a>()
    ensures { CopiesItself ⟦<PlacedCells<'a, T> as Clone>⟧.is_clone
        ⟦<PlacedCells<'a, T> as Clone>⟧.is_infallible }
{}
