//! Why what formulas name isn't told.
use std::alloc::{AllocError, AllocFailed};

/// Why what formulas name isn't told.
#[derive(Clone, Copy, Debug)]
pub enum NamingError {
    /// More is named, or more of defined names is to be read, than there is room for.
    TooLarge,
    OutOfMemory,
}

impl From<AllocError> for NamingError {
    ghost use Rattle.std.specs.Prelude.{◌≡◌};
    ghost use Rattle.xlsx_graph.specs.declared.error.NamingError.TheVariants.{OutOfMemory};

    ghost from_gives = { λ _ error. error ≡ OutOfMemory };

    fn from(_refused: AllocError) -> NamingError {
        NamingError::OutOfMemory
    }
}

impl<T: Drop> From<AllocFailed<T>> for NamingError {
    ghost use Rattle.std.specs.Prelude.{◌≡◌};
    ghost use Rattle.xlsx_graph.specs.declared.error.NamingError.TheVariants.{OutOfMemory};

    ghost from_gives = { λ _ error. error ≡ OutOfMemory };

    fn from(_refused: AllocFailed<T>) -> NamingError {
        NamingError::OutOfMemory
    }
}
