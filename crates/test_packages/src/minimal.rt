//! The parts of the smallest workbook, and packages of them.

use crate::markup::{Part, package_of};
use part_events::MemoryPackage;
use std::alloc::{AllocError, Global};
use xlsx_error::XlsxError;

/// The name of the part of the package's relationships.
const ROOT_NAME: &str = "_rels/.rels";

/// The name of the part of the workbook's relationships.
const RELATIONSHIPS_NAME: &str = "xl/_rels/workbook.xml.rels";

/// The name of the workbook's own part.
const WORKBOOK_NAME: &str = "xl/workbook.xml";

/// The name of the sheet's part.
pub const SHEET_NAME: &str = "xl/worksheets/sheet1.xml";

/// The markup of the package's relationships: one, to the workbook.
const ROOT_MARKUP: &str = "<Relationships><Relationship Id=\"rId1\" \
    Type=\"http://schemas.openxmlformats.org/officeDocument/2006/relationships/officeDocument\" \
    Target=\"xl/workbook.xml\"></Relationship></Relationships>";

/// The part of the package's relationships.
const ROOT: Part<'static> = (ROOT_NAME, ROOT_MARKUP);

/// The markup of the workbook's relationships: one, to the sheet, whose Id is `rId1`.
const RELATIONSHIPS_MARKUP: &str = "<Relationships><Relationship Id=\"rId1\" \
    Type=\"http://schemas.openxmlformats.org/officeDocument/2006/relationships/worksheet\" \
    Target=\"worksheets/sheet1.xml\"></Relationship></Relationships>";

/// The part of the workbook's relationships.
const RELATIONSHIPS: Part<'static> = (RELATIONSHIPS_NAME, RELATIONSHIPS_MARKUP);

/// The workbook's own part: one sheet, named `S`.
const WORKBOOK: Part<'static> = (
    WORKBOOK_NAME,
    r#"<workbook><sheets><sheet name="S" sheetId="1" r:id="rId1"></sheet></sheets></workbook>"#,
);

/// The markup of the sheet: one cell, A1, with the text `nut`.
const SHEET_MARKUP: &str = "<worksheet><sheetData>\
    <row r=\"1\"><c r=\"A1\" t=\"str\"><v>nut</v></c></row></sheetData></worksheet>";

/// The sheet's part.
const SHEET: Part<'static> = (SHEET_NAME, SHEET_MARKUP);

/// The minimal package with this part in front. Markup that `events_of` refuses is refused.
pub fn package_with(alloc: Global, part: Part<'_>) -> Result<MemoryPackage, XlsxError> {
    package_of(alloc, &[part, ROOT, RELATIONSHIPS, WORKBOOK, SHEET])
}

/// The part of a sheet with these data.
pub fn sheet_part(alloc: Global, data: &str) -> Result<String, AllocError> {
    format!(in alloc; "<worksheet><sheetData>{data}</sheetData></worksheet>")
}
