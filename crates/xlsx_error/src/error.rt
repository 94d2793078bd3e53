ghost use Rattle.std.specs.Prelude.{◌≡◌};
ghost use Rattle.xlsx_error.specs.declared.error.XlsxError.TheVariants.{Io, XmlAttr, OutOfMemory};
ghost use Rattle.part_events.specs.Words.{of_package};
ghost use Rattle.xlsx_error.specs.XlsxError.{of_stream, of_reference};

use attr_text::AttrFault;
use cell_refs::RefError;
use part_events::{PackageError, StreamError, XmlFault};
use std::alloc::{AllocError, AllocFailed};
use std::error::Error;
use std::fmt;

/// Why a workbook can't be opened or read.
#[derive(Debug, PartialEq, Eq, Drop)]
pub enum XlsxError {
    OutOfMemory,
    /// A call was made on a reader after an earlier one was refused.
    Failed,
    /// The package could not be read.
    Io,
    /// The markup of a part is at fault.
    Xml(XmlFault),
    /// The attributes of a start are at fault.
    XmlAttr(AttrFault),
    /// The text is no number.
    ParseFloat(String),
    /// The text is no whole number.
    ParseInt(String),
    /// The part ends where the end of this element is expected.
    XmlEof(&'static str),
    /// This element, or this attribute's element, is expected.
    UnexpectedNode(&'static str),
    /// The package has no part of this name.
    FileNotFound(String),
    /// A sheet or the workbook is in no relationship.
    RelationshipNotFound,
    /// A byte of a reference that is neither letter nor digit, or a letter behind a digit.
    Alphanumeric(u8),
    RangeWithoutColumnComponent,
    RangeWithoutRowComponent,
    /// The column lies past the last one of a worksheet.
    ColumnNumberOverflow,
    /// The row lies past the last one of a worksheet.
    RowNumberOverflow,
    /// The number of parts of an area, where it is above two.
    DimensionCount(usize),
    /// A cell has a type of this name, which is none.
    CellTAttribute(String),
    /// What this text says.
    Unexpected(&'static str),
    /// What `typ` names has the unknown value `val`, as written.
    Unrecognized { typ: &'static str, val: String },
    /// The text of a cell's error, which is none.
    CellError(String),
    /// The workbook has no sheet of this name, or the sheet has no part.
    WorksheetNotFound(String),
    /// No loaded table has this name.
    TableNotFound(String),
    /// The part of the sheet begins with an element of this name, and is no worksheet.
    NotAWorksheet(String),
    /// No pivot table has this name.
    PivotTableNotFound(String),
}

impl fmt::Display for XlsxError {
    ghost use Rattle.std.specs.Prelude.{Some};
    ghost use Rattle.xlsx_error.specs.XlsxError.{text_of};

    ghost output = { λ error. Some (text_of error) };

    fn fmt<W: fmt::Write>(&self, f: &mut fmt::Formatter<W>) -> fmt::Result {
        match self {
            Self::OutOfMemory => f.write_str("out of memory"),
            Self::Failed => f.write_str("the reader has failed before"),
            Self::Io => f.write_str("I/O error"),
            Self::Xml(own) => write!(f, "Xml error: {} at {}", own.description(), own.place()),
            Self::XmlAttr(fault) => {
                let (what, place) = (fault.description(), fault.place());
                write!(f, "Xml attribute error: {what} at {place}")
            }
            Self::ParseFloat(text) => write!(f, "Parse float error: {text}"),
            Self::ParseInt(text) => write!(f, "Parse integer error: {text}"),
            Self::XmlEof(name) => { write!(f, "Unexpected end of xml, expecting '</{name}>'") }
            Self::UnexpectedNode(name) => write!(f, "Expecting '{name}' node"),
            Self::FileNotFound(name) => write!(f, "File not found '{name}'"),
            Self::RelationshipNotFound => f.write_str("Relationship not found"),
            Self::Alphanumeric(byte) => write!(f, "Expecting alphanumeric character, got {byte:X}"),
            Self::RangeWithoutColumnComponent => {
                f.write_str("Range is missing the expected column component.")
            }
            Self::RangeWithoutRowComponent => {
                f.write_str("Range is missing the expected row component.")
            }
            Self::ColumnNumberOverflow => f.write_str("column number overflow"),
            Self::RowNumberOverflow => f.write_str("row number overflow"),
            Self::DimensionCount(count) => {
                write!(f, "Range dimension must be lower than 2. Got {count}")
            }
            Self::CellTAttribute(typ) => write!(f, "Unknown cell 't' attribute: \"{typ}\""),
            Self::Unexpected(text) => f.write_str(text),
            Self::Unrecognized { typ, val } => write!(f, "Unrecognized {typ}: {val}"),
            Self::CellError(text) => write!(f, "Unsupported cell error value '{text}'"),
            Self::WorksheetNotFound(name) => write!(f, "Worksheet '{name}' not found"),
            Self::TableNotFound(name) => write!(f, "Table '{name}' not found"),
            Self::NotAWorksheet(name) => write!(f, "Expecting a worksheet, got {name}"),
            Self::PivotTableNotFound(name) => {
                write!(f, "Pivot Table '{name}' was not found on worksheet")
            }
        }
    }
}

impl Error for XlsxError {}

impl From<AllocError> for XlsxError {
    ghost from_gives = { λ _ error. error ≡ OutOfMemory };

    fn from(_error: AllocError) -> XlsxError {
        XlsxError::OutOfMemory
    }
}

impl<T: Drop> From<AllocFailed<T>> for XlsxError {
    ghost from_gives = { λ _ error. error ≡ OutOfMemory };

    fn from(_error: AllocFailed<T>) -> XlsxError {
        XlsxError::OutOfMemory
    }
}

impl From<PackageError> for XlsxError {
    ghost from_gives = { λ fault error. error ≡ of_stream (of_package fault) };

    fn from(fault: PackageError) -> XlsxError {
        match fault {
            PackageError::Failed => XlsxError::Io,
            PackageError::OutOfMemory => XlsxError::OutOfMemory,
        }
    }
}

impl From<AttrFault> for XlsxError {
    ghost from_gives = { λ fault error. error ≡ XmlAttr fault };

    fn from(fault: AttrFault) -> XlsxError {
        XlsxError::XmlAttr(fault)
    }
}

impl From<StreamError> for XlsxError {
    ghost from_gives = { λ fault error. error ≡ of_stream fault };

    fn from(fault: StreamError) -> XlsxError {
        match fault {
            StreamError::Io => XlsxError::Io,
            StreamError::Xml(fault) => XlsxError::Xml(fault),
            StreamError::OutOfMemory => XlsxError::OutOfMemory,
        }
    }
}

impl From<RefError> for XlsxError {
    ghost from_gives = { λ refusal error. error ≡ of_reference refusal };

    fn from(refusal: RefError) -> XlsxError {
        match refusal {
            RefError::Alphanumeric(byte) => XlsxError::Alphanumeric(byte),
            RefError::RangeWithoutRowComponent => XlsxError::RangeWithoutRowComponent,
            RefError::RangeWithoutColumnComponent => XlsxError::RangeWithoutColumnComponent,
            RefError::ColumnNumberOverflow => XlsxError::ColumnNumberOverflow,
            RefError::RowNumberOverflow => XlsxError::RowNumberOverflow,
            RefError::DimensionCount(count) => XlsxError::DimensionCount(count),
        }
    }
}
