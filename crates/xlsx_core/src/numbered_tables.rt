ghost use Rattle.std.specs.Prelude.{◌≡◌, map};
ghost use Rattle.xlsx_sections.specs.Words.{Answers};
ghost use Rattle.xlsx_tables.specs.Tables.{loaded_of};
ghost use Rattle.xlsx_core.specs.Merges.{sheets_of_book, sheet_paths};
ghost use Rattle.xlsx_core.specs.NumberedTables.{all_numbered_tables_ask};
ghost use Rattle.xlsx_core.specs.Worksheets.{KeepsWorkbook};

use crate::xlsx::Xlsx;
use part_events::{Package, XlReader};
use xlsx_error::XlsxError;
use xlsx_open::{PartPath, Sheet};
use xlsx_tables::{LoadedTable, read_sheet_tables};

/// The tables of these sheets, whose parts are at these paths, in their order.
fn tables_numbered<P: Package>(
    xml: &mut XlReader<P>,
    sheets: &[Sheet],
    paths: &[PartPath],
) -> Result<Vec<LoadedTable>, XlsxError>
    ensures { let ask = all_numbered_tables_ask (sheet_paths sheets.now paths.now) in
        Answers ask (λ all. map loaded_of all.items) result xml.old.source xml.new.source }
{
    let alloc = xml.alloc();
    let mut items = Vec::new(alloc);
    let mut number = 0;
    let mut left = sheets;
    let mut rest = paths;
    'sheets: while let Some((_, others)) = left.split_first() {
        let Some((path, more)) = rest.split_first() else {
            return Ok(items);
        };
        let path = path.joined(alloc)?;
        read_sheet_tables(xml, &mut items, number, path.as_str())?;
        number += 1;
        left = others;
        rest = more;
    }
    Ok(items)
}

/// The tables of an open workbook, by the numbers of their sheets.
impl<P: Package> Xlsx<P> {
    /// The tables of all sheets in their order (ECMA-376 part 1, section 18.5.1.2), each with the
    /// number of its sheet, counted from 0: those that `load_tables` loads. They aren't kept, and
    /// what was loaded stays.
    ///
    /// Fails as `load_tables`.
    ///
    /// # Examples
    ///
    /// How many tables there are:
    ///
    /// ```
    /// let tables = xlsx.read_tables()?;
    /// Ok(tables.len())
    /// ```
    pub fn read_tables(&mut self) -> Result<Vec<LoadedTable>, XlsxError>
        ensures answers { let ask = all_numbered_tables_ask (sheets_of_book self.old) in
            Answers ask (λ all. map loaded_of all.items) result self.old.xml.source
            self.new.xml.source }
        ensures rest { KeepsWorkbook self.old self.new }
    {
        tables_numbered(
            &mut self.xml,
            &self.workbook.metadata.sheets,
            &self.workbook.paths,
        )
    }
}
