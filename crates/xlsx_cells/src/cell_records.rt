//! What single calls answer of a cell.
use cell_data::DataRef;
use xlsx_formulas::XlsxFormulaMetadata;

/// A cell with its value and its formula.
#[derive(Debug, PartialEq, Eq, Drop)]
pub struct XlsxCellFormula {
    /// The row and the column, counted from 0.
    pub pos: (u32, u32),
    /// A shared string is its place.
    pub value: DataRef,
    /// Without `=`, and None where the cell has no formula or an empty one.
    pub formula: Option<String>,
}

/// A cell with its value and what its last `f` says.
#[derive(Debug, PartialEq, Eq, Drop)]
pub struct XlsxCellFormulaMetadataRecord {
    /// The row and the column, counted from 0.
    pub pos: (u32, u32),
    /// A shared string is its place.
    pub value: DataRef,
    /// None where the cell has no `f`, or an empty one that belongs to no group.
    pub formula: Option<XlsxFormulaMetadata>,
}
