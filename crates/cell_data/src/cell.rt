ghost use Rattle.std.specs.Prelude.{◌≡◌};

/// A position and its value.
#[derive(Debug, PartialEq, Eq, Drop)]
pub struct Cell<T> {
    /// The row and the column, counted from 0.
    pub pos: (u32, u32),
    pub val: T,
}

impl<T> Cell<T> {
    /// The cell at this position, its row and its column counted from 0.
    pub fn new(pos: (u32, u32), val: T) -> Cell<T>
        ensures { result ≡ record { pos = pos; val = val } }
    {
        Cell { pos, val }
    }
}
