//! The forms in which a package is written.

/// For whom a package is written.
#[derive(Clone, Copy, Debug)]
pub enum WrittenForm {
    /// For this program, as a package text: formulas that are that of a cell above them are those
    /// of its group, and each `_` of a text is escaped.
    PackageText,
    /// For other programs, too, as a workbook file: each formula is written by itself, a `_` is
    /// escaped only where it would begin an escape, and what other programs look for is there.
    WorkbookFile,
}
