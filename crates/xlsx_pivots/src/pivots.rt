ghost use Rattle.std.proofs.Common.{rules};
ghost use Rattle.std.specs.Prelude.{◌≡◌, ◌++◌, List, map};
ghost use Rattle.xlsx_sections.specs.Words.{Answers};
ghost use Rattle.xlsx_parts.specs.Words.{Appends, sheet_at};
ghost use Rattle.looks.specs.Words.{look_ask};
ghost use Rattle.xlsx_pivots.specs.PivotErrors.{IsPivotsError};
ghost use Rattle.xlsx_pivots.specs.PivotTables.{pivot_kept, pivots_kept, sheet_given};
ghost use Rattle.xlsx_pivots.specs.Pivots.{PivotSaid, pivot_look, one_pivot_look, pivots_on_ask};
ghost use Rattle.xlsx_pivots.specs.Pivots.{pivots_ask};

use crate::pivot_parts::name_at;
use crate::pivot_tables::{PivotTable, PivotTables};
use crate::targets::{definitions_at, records_at};
use part_events::{Package, XlReader};
use xlsx_error::XlsxError;
use xlsx_relationships::{ReadsRelated, push_related};

const PIVOT_TYPE: &str =
    "http://schemas.openxmlformats.org/officeDocument/2006/relationships/pivotTable";

/// The pivot table of the part at this path, on the sheet of this name.
fn pivot_at<P: Package>(
    xml: &mut XlReader<P>,
    sheet: &str,
    path: &str,
    folder: &str,
) -> Result<PivotTable, XlsxError>
    ensures answers { let look = pivot_look folder.now sheet.now path.now in
        Answers (look_ask IsPivotsError look) pivot_kept result xml.old.source xml.new.source }
{
    let name = name_at(xml, path)?;
    let definitions = definitions_at(xml, path)?;
    let records = records_at(xml, definitions.as_str(), folder)?;
    Ok(PivotTable {
        name,
        sheet: String::from_str(xml.alloc(), sheet)?,
        definitions,
        records,
    })
}

/// Reads the pivot tables of parts, on the sheet of this name in the workbook's folder.
#[derive(Drop)]
struct PivotReader<'a> {
    sheet: &'a str,
    folder: &'a str,
}

impl ReadsRelated for PivotReader<'_> {
    type Item = PivotTable;

    ghost Kept = { PivotSaid };

    ghost kept = { λ r own. pivot_kept own };

    ghost look = { λ r. one_pivot_look r.folder.now r.sheet.now };

    ghost Kind = { IsPivotsError };

    ghost related_kinds = { Prim.search rules };

    fn push<P: Package>(
        &self,
        xml: &mut XlReader<P>,
        pivots: &mut Vec<PivotTable>,
        path: &str,
    ) -> Result<(), XlsxError> {
        let pivot = pivot_at(xml, self.sheet, path, self.folder)?;
        pivots.push(pivot)?;
        Ok(())
    }
}

/// Appends the pivot tables of the sheet of this name whose part is at this path, in the workbook's
/// folder, as `find_pivot_tables` finds those of many sheets. After a refusal some of them may be
/// appended, behind those that were there.
pub fn read_sheet_pivots<P: Package>(
    xml: &mut XlReader<P>,
    found: &mut PivotTables,
    sheet: &str,
    path: &str,
    folder: &str,
) -> Result<(), XlsxError>
    ensures answers { let ask = pivots_on_ask folder.now (sheet_at sheet.now path.now) in
        Appends ask (pivots_kept found.old) (pivots_kept found.new) result
        xml.old.source xml.new.source }
    ensures kept { (more : List PivotSaid)
        × (pivots_kept found.new ≡ pivots_kept found.old ++ more) }
{
    let by = PivotReader { sheet, folder };
    push_related(xml, &mut found.pivots, path, PIVOT_TYPE, &by)
}

/// Finds the pivot tables of these sheets, which are given by their names and the paths of their
/// parts, in order (ECMA-376 part 1, section 18.10): those of the parts that the relationships of
/// a sheet lead to of the type for pivot tables. `xl_path` is the workbook's folder, with the slash
/// at its end. No sheet is read, nor are definitions and records.
///
/// Of each pivot table the relationships of its part lead to the definitions of its cache, and
/// those of the definitions to the records. A target of records loses a slash at its front, and
/// unless it begins with the workbook's folder and `pivotCache` it is put there, behind a slash.
/// One that two relationships name comes twice. A sheet without relationships has none.
///
/// The part of a pivot table, its relationships and those of its definitions have to be there: else
/// it is `FileNotFound` of the path. Without a name, definitions or records, or with a second one,
/// it is `Unexpected` of the text that says so. A part of relationships that has no section
/// `Relationships`, or ends in it, is `XmlEof("Relationships")`, and that of a pivot table likewise
/// `XmlEof("pivotTableDefinition")`. An end that breaks the nesting, or a flaw, is `Xml(Break)`,
/// and a name or a target with a reference without a character `Xml(Entity)`, each with its number
/// in the part, counted from 0. Attributes that end in a fault and lack one of the wanted keys are
/// `XmlAttr`.
pub fn find_pivot_tables<P: Package>(
    xml: &mut XlReader<P>,
    sheets: &[(String, String)],
    xl_path: &str,
) -> Result<PivotTables, XlsxError>
    ensures answers { let ask = pivots_ask xl_path.now (map sheet_given sheets.now) in
        Answers ask pivots_kept result xml.old.source xml.new.source }
{
    let mut found = PivotTables::new(xml.alloc());
    let mut left = sheets;
    'sheets: while let Some((sheet, others)) = left.split_first() {
        let (name, path) = sheet;
        read_sheet_pivots(xml, &mut found, name.as_str(), path.as_str(), xl_path)?;
        left = others;
    }
    Ok(found)
}
