ghost use Rattle.std.specs.Prelude.{◌≡◌};

use std::alloc::AllocError;
use std::error::Error;
use std::fmt;

/// Why the rows of a range are not written as objects.
#[derive(Debug, Drop)]
pub enum ObjectsError {
    /// The area has more than 16,777,216 cells.
    BoxTooLarge,
    /// The area has no row whose fields are the keys.
    NoHeader,
    /// A column has this key, and an earlier one has it, too.
    TwoColumns(String),
    OutOfMemory,
}

impl fmt::Display for ObjectsError {
    ghost use Rattle.std.specs.Prelude.{Some};
    ghost use Rattle.json_rows.specs.ObjectsErrors.{objects_error_text};

    ghost output = { λ error. Some (objects_error_text error) };

    fn fmt<W: fmt::Write>(&self, f: &mut fmt::Formatter<W>) -> fmt::Result {
        match self {
            ObjectsError::BoxTooLarge => f.write_str("box too large"),
            ObjectsError::NoHeader => f.write_str("no header row"),
            ObjectsError::TwoColumns(key) => write!(f, "two columns '{key}'"),
            ObjectsError::OutOfMemory => f.write_str("out of memory"),
        }
    }
}

impl Error for ObjectsError {}

impl From<AllocError> for ObjectsError {
    ghost use Rattle.json_rows.specs.declared.error.ObjectsError.TheVariants.{OutOfMemory};

    ghost from_gives = { λ _ error. error ≡ OutOfMemory };

    fn from(_error: AllocError) -> ObjectsError {
        ObjectsError::OutOfMemory
    }
}
