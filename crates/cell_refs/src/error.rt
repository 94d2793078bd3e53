use std::error::Error;
use std::fmt;

/// Why a text is no reference.
#[derive(Clone, Copy, Debug, PartialEq, Eq, Hash)]
pub enum RefError {
    /// A byte that is neither letter nor digit, or a letter behind a digit.
    Alphanumeric(u8),
    /// There is no digit, or the row number is 0.
    RangeWithoutRowComponent,
    /// There is no letter.
    RangeWithoutColumnComponent,
    /// The column lies past the last one of a worksheet.
    ColumnNumberOverflow,
    /// The row lies past the last one of a worksheet.
    RowNumberOverflow,
    /// The number of parts between colons, where it is above two.
    DimensionCount(usize),
}

impl fmt::Display for RefError {
    ghost use Rattle.std.specs.Prelude.{Some};
    ghost use Rattle.cell_refs.specs.RefError.{refusal_text};

    ghost output = { λ refusal. Some (refusal_text refusal) };

    fn fmt<W: fmt::Write>(&self, f: &mut fmt::Formatter<W>) -> fmt::Result {
        match self {
            RefError::Alphanumeric(byte) => {
                write!(f, "Expecting alphanumeric character, got {byte:X}")
            }
            RefError::RangeWithoutRowComponent => {
                f.write_str("Range is missing the expected row component.")
            }
            RefError::RangeWithoutColumnComponent => {
                f.write_str("Range is missing the expected column component.")
            }
            RefError::ColumnNumberOverflow => f.write_str("column number overflow"),
            RefError::RowNumberOverflow => f.write_str("row number overflow"),
            RefError::DimensionCount(count) => {
                write!(f, "Range dimension must be lower than 2. Got {count}")
            }
        }
    }
}

impl Error for RefError {}
