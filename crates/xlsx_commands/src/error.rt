ghost use Rattle.std.specs.Prelude.{◌≡◌};
ghost use Rattle.xlsx_commands.specs.Status.{file_status, status_of};

use crate::sheet_choice::SheetFault;
use csv_rows::CsvError;
use graph_reading::GraphError;
use input_package::InputPackage;
use json_rows::ObjectsError;
use std::alloc::{AllocError, AllocFailed};
use std::error::Error;
use std::fmt;
use xlsx_core::OpenFailure;
use xlsx_error::XlsxError;
use zip_archive::ArchiveFault;

/// Why the program fails (docs/FORMAT.md).
#[derive(Debug, PartialEq, Eq, Drop)]
pub enum ToolError {
    /// The words are no command.
    Usage,
    /// The source failed.
    ReadFault,
    /// The input is longer than a package text may be.
    InputTooLarge,
    /// The input begins as a workbook file does, and is longer than one may be.
    FileTooLarge,
    /// The input begins as no workbook file does, and spells no package.
    NotAPackage,
    /// The input begins as a workbook file does, or as a compound file, and is none, by this fault.
    NotAWorkbookFile(ArchiveFault),
    /// The workbook can't be opened, or its sheet not be read.
    Workbook(XlsxError),
    /// The sink failed; what was written is a front of the output.
    WriteFault,
    OutOfMemory,
    /// The area whose rows are asked for has more than 16,777,216 cells.
    BoxTooLarge,
    /// What is read can't be written as a workbook file.
    Unwritable,
    /// The words choose a sheet without telling its name, and none is chosen.
    NotChosen(SheetFault),
    /// The sheet has no row whose fields are the keys of the others.
    NoHeader,
    /// Two columns have this key.
    TwoColumns(String),
    /// The formulas of the workbook name more, or cover more cells, than there is room for.
    GraphTooLarge,
}

/// The status that the program ends with where its input is no workbook file.
fn file_status(fault: &ArchiveFault) -> u8
    ensures { result ≡ file_status fault.now }
{
    match fault {
        ArchiveFault::NoArchive | ArchiveFault::Damaged(_) => 13,
        ArchiveFault::Compound => 14,
    }
}

impl ToolError {
    /// The status that the program ends with.
    pub fn status(&self) -> u8
        ensures { result ≡ status_of self.now }
    {
        match self {
            ToolError::Usage => 2,
            ToolError::ReadFault => 3,
            ToolError::InputTooLarge | ToolError::FileTooLarge => 4,
            ToolError::NotAPackage => 5,
            ToolError::NotAWorkbookFile(fault) => file_status(fault),
            ToolError::Workbook(_) | ToolError::NotChosen(_) => 6,
            ToolError::WriteFault => 7,
            ToolError::OutOfMemory => 8,
            ToolError::BoxTooLarge => 10,
            ToolError::Unwritable => 15,
            ToolError::NoHeader | ToolError::TwoColumns(_) => 16,
            ToolError::GraphTooLarge => 17,
        }
    }
}

impl fmt::Display for ToolError {
    ghost use Rattle.std.specs.Prelude.{Some};
    ghost use Rattle.xlsx_commands.specs.Status.{error_text};

    ghost output = { λ error. Some (error_text error) };

    fn fmt<W: fmt::Write>(&self, f: &mut fmt::Formatter<W>) -> fmt::Result {
        match self {
            ToolError::Usage => f.write_str("usage"),
            ToolError::ReadFault => f.write_str("read fault"),
            ToolError::InputTooLarge => f.write_str("input too large"),
            ToolError::FileTooLarge => f.write_str("file too large"),
            ToolError::NotAPackage => f.write_str("not a package"),
            ToolError::NotAWorkbookFile(ArchiveFault::NoArchive) => {
                f.write_str("not a workbook file: no record of the end of an archive")
            }
            ToolError::NotAWorkbookFile(ArchiveFault::Compound) => {
                f.write_str("not a workbook file: a compound file, as of .xls or encrypted ones")
            }
            ToolError::NotAWorkbookFile(ArchiveFault::Damaged(at)) => {
                write!(
                    f,
                    "not a workbook file: no header in the directory at byte {at}"
                )
            }
            ToolError::Workbook(error) => write!(f, "{error}"),
            ToolError::WriteFault => f.write_str("write fault"),
            ToolError::OutOfMemory => f.write_str("out of memory"),
            ToolError::BoxTooLarge => f.write_str("box too large"),
            ToolError::Unwritable => f.write_str("no workbook file can hold it"),
            ToolError::NotChosen(fault) => write!(f, "{fault}"),
            ToolError::NoHeader => f.write_str("no header row"),
            ToolError::TwoColumns(key) => write!(f, "two columns '{key}'"),
            ToolError::GraphTooLarge => f.write_str("graph too large"),
        }
    }
}

impl Error for ToolError {}

impl From<AllocError> for ToolError {
    ghost use Rattle.xlsx_commands.specs.declared.error.ToolError.TheVariants.{OutOfMemory};

    ghost from_gives = { λ _ e. e ≡ OutOfMemory };

    fn from(_refused: AllocError) -> ToolError {
        ToolError::OutOfMemory
    }
}

impl<T: Drop> From<AllocFailed<T>> for ToolError {
    ghost use Rattle.xlsx_commands.specs.declared.error.ToolError.TheVariants.{OutOfMemory};

    ghost from_gives = { λ _ e. e ≡ OutOfMemory };

    fn from(_refused: AllocFailed<T>) -> ToolError {
        ToolError::OutOfMemory
    }
}

impl From<XlsxError> for ToolError {
    ghost use Rattle.xlsx_commands.specs.Status.{of_workbook};

    ghost from_gives = { λ refusal e. e ≡ of_workbook refusal };

    fn from(refusal: XlsxError) -> ToolError {
        match refusal {
            XlsxError::OutOfMemory => ToolError::OutOfMemory,
            other => ToolError::Workbook(other),
        }
    }
}

impl From<OpenFailure<InputPackage>> for ToolError {
    ghost use Rattle.xlsx_commands.specs.Status.{of_workbook};

    ghost from_gives = { λ failure e. e ≡ of_workbook failure.error };

    fn from(failure: OpenFailure<InputPackage>) -> ToolError {
        ToolError::from(failure.error)
    }
}

impl From<CsvError> for ToolError {
    ghost use Rattle.xlsx_commands.specs.Status.{of_rows};

    ghost from_gives = { λ refusal e. e ≡ of_rows refusal };

    fn from(refusal: CsvError) -> ToolError {
        match refusal {
            CsvError::BoxTooLarge => ToolError::BoxTooLarge,
            CsvError::OutOfMemory => ToolError::OutOfMemory,
        }
    }
}

impl From<ObjectsError> for ToolError {
    ghost use Rattle.xlsx_commands.specs.Status.{of_objects};

    ghost from_gives = { λ refusal e. e ≡ of_objects refusal };

    fn from(refusal: ObjectsError) -> ToolError {
        match refusal {
            ObjectsError::BoxTooLarge => ToolError::BoxTooLarge,
            ObjectsError::NoHeader => ToolError::NoHeader,
            ObjectsError::TwoColumns(key) => ToolError::TwoColumns(key),
            ObjectsError::OutOfMemory => ToolError::OutOfMemory,
        }
    }
}

impl From<GraphError> for ToolError {
    ghost use Rattle.xlsx_commands.specs.Status.{of_graph};

    ghost from_gives = { λ refusal e. e ≡ of_graph refusal };

    fn from(refusal: GraphError) -> ToolError {
        match refusal {
            GraphError::Workbook(error) => ToolError::from(error),
            GraphError::TooLarge => ToolError::GraphTooLarge,
            GraphError::OutOfMemory => ToolError::OutOfMemory,
        }
    }
}
