//! Why a workbook's graph isn't read.
use xlsx_error::XlsxError;
use xlsx_graph::NamingError;

/// Why a workbook's graph isn't read.
#[derive(Debug, Drop)]
pub enum GraphError {
    /// A table or a formula of the workbook can't be read. It is never `XlsxError::OutOfMemory`.
    Workbook(XlsxError),
    /// The formulas name more, or cover more cells, than there is room for.
    TooLarge,
    OutOfMemory,
}

impl From<XlsxError> for GraphError {
    ghost use Rattle.std.specs.Prelude.{◌≡◌};
    ghost use Rattle.graph_reading.specs.GraphError.{of_reading};

    ghost from_gives = { λ refused error. error ≡ of_reading refused };

    fn from(refused: XlsxError) -> GraphError {
        match refused {
            XlsxError::OutOfMemory => GraphError::OutOfMemory,
            other => GraphError::Workbook(other),
        }
    }
}

impl From<NamingError> for GraphError {
    ghost use Rattle.std.specs.Prelude.{◌≡◌};
    ghost use Rattle.graph_reading.specs.GraphError.{of_naming};

    ghost from_gives = { λ refused error. error ≡ of_naming refused };

    fn from(refused: NamingError) -> GraphError {
        match refused {
            NamingError::TooLarge => GraphError::TooLarge,
            NamingError::OutOfMemory => GraphError::OutOfMemory,
        }
    }
}
