use crate::paths::PartPath;

/// What kind of a sheet it is.
#[derive(Clone, Copy, Debug, PartialEq, Eq, Hash)]
pub enum SheetType {
    WorkSheet,
    ChartSheet,
    DialogSheet,
}

/// Whether a sheet is shown.
#[derive(Clone, Copy, Debug, PartialEq, Eq, Hash)]
pub enum SheetVisible {
    Visible,
    Hidden,
    /// Hidden, and not to be shown by a user's command.
    VeryHidden,
}

/// A sheet of a workbook.
#[derive(Debug, PartialEq, Eq, Drop)]
pub struct Sheet {
    pub name: String,
    pub typ: SheetType,
    pub visible: SheetVisible,
}

/// The sheets of a workbook, in order, and its defined names with their texts.
#[derive(Debug, PartialEq, Eq, Drop)]
pub struct Metadata {
    pub sheets: Vec<Sheet>,
    pub names: Vec<(String, String)>,
}

/// A sheet, and the path of its part.
#[derive(Debug, Drop)]
pub struct SheetEntry {
    pub sheet: Sheet,
    pub path: PartPath,
}
