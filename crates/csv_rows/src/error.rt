ghost use Rattle.std.specs.Prelude.{◌≡◌};

use std::alloc::AllocError;
use std::fmt;

/// Why the rows of a range are not written.
#[derive(Clone, Copy, Debug, PartialEq, Eq, Hash, Drop)]
pub enum CsvError {
    /// The area has more than 16,777,216 cells.
    BoxTooLarge,
    OutOfMemory,
}

impl fmt::Display for CsvError {
    ghost use Rattle.std.specs.Prelude.{Some};
    ghost use Rattle.csv_rows.specs.CsvErrors.{csv_error_text};

    ghost output = { λ error. Some (csv_error_text error) };

    fn fmt<W: fmt::Write>(&self, f: &mut fmt::Formatter<W>) -> fmt::Result {
        match self {
            CsvError::BoxTooLarge => f.write_str("box too large"),
            CsvError::OutOfMemory => f.write_str("out of memory"),
        }
    }
}

impl std::error::Error for CsvError {}

impl From<AllocError> for CsvError {
    ghost use Rattle.csv_rows.specs.declared.error.CsvError.TheVariants.{OutOfMemory};

    ghost from_gives = { λ _ error. error ≡ OutOfMemory };

    fn from(_error: AllocError) -> CsvError {
        CsvError::OutOfMemory
    }
}
