//! What formulas name.
use cell_refs::Dimensions;

/// Where a formula stands, all counted from 0.
#[derive(Clone, Copy, Debug)]
pub struct Standing {
    /// The number of its sheet.
    pub sheet: usize,
    pub row: u32,
    pub column: u32,
}

/// An area on the sheets from one to another.
#[derive(Clone, Copy, Debug)]
pub struct BookArea {
    /// The number of the first sheet, counted from 0.
    pub first: usize,
    /// The number of the last sheet, counted from 0.
    pub last: usize,
    pub area: Dimensions,
    /// Whether its values are asked for, and not its place alone.
    pub is_valued: bool,
}

/// Why a word names no cells that are known.
#[derive(Clone, Copy, Debug)]
pub enum Cause {
    /// A function whose answer is a reference that values alone tell.
    Computed,
    /// Another file.
    External,
    /// A lost reference, or rows that a table lacks.
    Gone,
    /// There is no sheet of the name.
    NoSheet,
    /// There is no defined name, and no table, of the name.
    NoName,
    /// There is no table of the name.
    NoTable,
    /// The table has no column of the name.
    NoColumn,
    /// A defined name within itself.
    Endless,
    /// A colon whose ends aren't both one area of the same sheets.
    NoRange,
    /// What is nothing of a formula.
    NotRead,
}

/// A word that is left open.
#[derive(Debug, Drop)]
pub struct OpenWord {
    pub cause: Cause,
    pub text: String,
}
