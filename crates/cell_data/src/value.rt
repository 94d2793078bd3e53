ghost use Rattle.std.specs.Prelude.{◌≡◌, IfOk, MatchResult, Some, None};
ghost use Rattle.cell_data.specs.CellValue.{value_of_data};

use crate::Decimal;
use std::alloc::{AllocError, Global};
use std::fmt;
use std::str::FromStr;

/// What the number of a date cell counts: days since the first day of its calendar, or days that
/// have passed.
#[derive(Debug, Clone, Copy, PartialEq, Eq)]
pub enum ExcelDateTimeType {
    DateTime,
    TimeDelta,
}

/// A date, or a time that has passed, as the number of days that the cell holds.
///
/// A date counts from the first day of 1900, or of 1904 where `is_1904` says so.
#[derive(Debug, Clone, Copy, PartialEq, Eq)]
pub struct ExcelDateTime {
    pub value: Decimal,
    pub kind: ExcelDateTimeType,
    pub is_1904: bool,
}

/// The error that a cell holds.
#[derive(Debug, Clone, Copy, PartialEq, Eq)]
pub enum CellErrorType {
    /// A number was divided by zero.
    Div0,
    /// A value is not available.
    NA,
    /// A name is not known.
    Name,
    /// Two areas do not meet.
    Null,
    /// A number is out of reach.
    Num,
    /// A reference leads nowhere.
    Ref,
    /// A value has the wrong type.
    Value,
    /// The data is still being fetched.
    GettingData,
}

impl CellErrorType {
    ghost use Rattle.std.specs.Prelude.{◌≢◌};
    ghost use Rattle.cell_data.specs.CellError.{cell_error, cell_error_text};
    ghost use Rattle.cell_data.specs.declared.value.CellErrorType.TheVariants.{GettingData};

    /// The text of the error, as `#DIV/0!`. A cell's error is read from its text.
    pub fn as_str(self) -> &'static str
        ensures text { result.now ≡ cell_error_text self }
        ensures back { self ≢ GettingData → cell_error result.now ≡ Some self }
    {
        match self {
            CellErrorType::Div0 => "#DIV/0!",
            CellErrorType::NA => "#N/A",
            CellErrorType::Name => "#NAME?",
            CellErrorType::Null => "#NULL!",
            CellErrorType::Num => "#NUM!",
            CellErrorType::Ref => "#REF!",
            CellErrorType::Value => "#VALUE!",
            CellErrorType::GettingData => "#DATA!",
        }
    }
}

/// The text is that of no error that a cell of a worksheet holds.
#[derive(Debug, Clone, Copy, PartialEq, Eq, Drop)]
pub struct UnknownCellError;

impl fmt::Display for UnknownCellError {
    ghost use Rattle.std.specs.Prelude.{codes};

    ghost output = { λ _. Some (codes "unknown cell error") };

    fn fmt<W: fmt::Write>(&self, f: &mut fmt::Formatter<W>) -> fmt::Result {
        f.write_str("unknown cell error")
    }
}

impl std::error::Error for UnknownCellError {}

/// Reads the text of an error exactly: `#DIV/0!`, `#N/A`, `#NAME?`, `#NULL!`, `#NUM!`, `#REF!` or
/// `#VALUE!`. Another text is `UnknownCellError`.
impl FromStr for CellErrorType {
    ghost use Rattle.cell_data.specs.CellError.{cell_error};

    type Err = UnknownCellError;

    ghost from_str_gives = { λ text r. MatchResult r (λ error. cell_error text ≡ Some error)
        (λ _. cell_error text ≡ None) };

    fn from_str(text: &str) -> Result<CellErrorType, UnknownCellError> {
        match text {
            "#DIV/0!" => Ok(CellErrorType::Div0),
            "#N/A" => Ok(CellErrorType::NA),
            "#NAME?" => Ok(CellErrorType::Name),
            "#NULL!" => Ok(CellErrorType::Null),
            "#NUM!" => Ok(CellErrorType::Num),
            "#REF!" => Ok(CellErrorType::Ref),
            "#VALUE!" => Ok(CellErrorType::Value),
            _ => Err(UnknownCellError),
        }
    }
}

/// What a cell holds.
///
/// # Examples
///
/// The arms of a `match` that writes each kind of value:
///
/// ```
/// Data::Int(number) => write!(out, "int:{number}")?,
/// Data::Decimal(number) => push_decimal(out, number)?,
/// Data::DateTime(time) => push_time(out, time)?,
/// Data::String(text) => write!(out, "s:{text}")?,
/// Data::DateTimeIso(text) => write!(out, "i:{text}")?,
/// Data::Bool(truth) => write!(out, "b:{truth}")?,
/// Data::Error(error) => write!(out, "e:{}", error.as_str())?,
/// Data::Empty => out.push_str("Empty")?,
/// ```
#[derive(Debug, PartialEq, Eq, Drop)]
pub enum Data {
    /// A whole number. Only the records of a pivot table have one.
    Int(i64),
    Decimal(Decimal),
    String(String),
    Bool(bool),
    DateTime(ExcelDateTime),
    /// A date, or a time that has passed, as an ISO 8601 text.
    DateTimeIso(String),
    Error(CellErrorType),
    Empty,
}

impl Data {
    /// A copy of the value, with texts of its own.
    pub fn clone_in(&self, alloc: Global) -> Result<Data, AllocError>
        ensures { IfOk result (λ copy. value_of_data copy ≡ value_of_data self.now) }
    {
        Ok(match self {
            Data::Int(number) => Data::Int(*number),
            Data::Decimal(number) => Data::Decimal(*number),
            Data::String(text) => Data::String(String::from_str(alloc, text)?),
            Data::Bool(truth) => Data::Bool(*truth),
            Data::DateTime(time) => Data::DateTime(*time),
            Data::DateTimeIso(text) => Data::DateTimeIso(String::from_str(alloc, text)?),
            Data::Error(error) => Data::Error(*error),
            Data::Empty => Data::Empty,
        })
    }
}

/// What a cell holds, with a shared text named by its place.
#[derive(Debug, PartialEq, Eq, Drop)]
pub enum DataRef {
    Decimal(Decimal),
    String(String),
    /// The place of a text among the shared strings, counted from 0.
    SharedString(usize),
    Bool(bool),
    DateTime(ExcelDateTime),
    /// A date, or a time that has passed, as an ISO 8601 text.
    DateTimeIso(String),
    Error(CellErrorType),
    Empty,
}

/// The row with which a range begins.
#[derive(Debug, Clone, Copy, PartialEq, Eq, Default)]
pub enum HeaderRow {
    /// The first row that has a value.
    #[default]
    FirstNonEmptyRow,
    /// This row, counted from 0, whatever it has.
    Row(u32),
}
