ghost use Rattle.std.specs.Prelude.{◌≡◌, List, []};
ghost use Rattle.xlsx_error.specs.declared.error.XlsxError.{XlsxError};
ghost use Rattle.xlsx_error.specs.declared.error.XlsxError.TheVariants.{OutOfMemory};
ghost use Rattle.xlsx_parts.specs.Words.{Appends, SheetPath, sheet_at};
ghost use Rattle.xlsx_sections.specs.Words.{Answers};
ghost use Rattle.looks.specs.Words.{Look, for_each, look_ask};
ghost use Rattle.xlsx_workbook.specs.declared.sheet.Sheet.{Sheet};
ghost use Rattle.xlsx_core.specs.Merges.{sheet_paths};
ghost use Rattle.xlsx_core.specs.TableList.{sheet_name};

use part_events::{Package, XlReader};
use xlsx_error::XlsxError;
use xlsx_open::{PartPath, Sheet};

/// Reads what one of the sheets of a workbook says, and keeps it.
pub(crate) trait ReadsSheets {
    type Items: Drop;

    ghost Kept: { Type 0 };

    ghost held: { List Sheet → Self.Items → List Kept };

    ghost look: { Self → SheetPath → Look (List Kept) };

    ghost Kind: { XlsxError → Type 0 };

    /// Keeps what the sheet of this number says, counted from 0, whose part is at this path.
    fn keep<P: Package>(
        &self,
        xml: &mut XlReader<P>,
        items: &mut Self::Items,
        sheets: &[Sheet],
        number: usize,
        path: &str,
    ) -> Result<(), XlsxError>
        ensures { let sheet = sheet_at (sheet_name sheets.now number) path.now in
            Appends (look_ask Kind (look self.now sheet)) (held sheets.now items.old)
            (held sheets.now items.new) result xml.old.source xml.new.source };

    ghost memory: { Kind OutOfMemory };
}

/// What all these sheets say, whose parts are at these paths, in their order. `items` holds nothing
/// before.
pub(crate) fn read_sheets<P: Package, R: ReadsSheets>(
    xml: &mut XlReader<P>,
    items: R::Items,
    sheets: &[Sheet],
    paths: &[PartPath],
    by: &R,
) -> Result<R::Items, XlsxError>
    requires { R.held sheets.now items ≡ [] }
    ensures { let look = for_each (R.look by.now) (sheet_paths sheets.now paths.now) in
        Answers (look_ask R.Kind look) (R.held sheets.now) result xml.old.source xml.new.source }
{
    let alloc = xml.alloc();
    let mut items = items;
    let mut number = 0;
    let mut left = sheets;
    let mut rest = paths;
    'sheets: while let Some((_, others)) = left.split_first() {
        let Some((path, more)) = rest.split_first() else {
            return Ok(items);
        };
        let path = path.joined(alloc)?;
        by.keep(xml, &mut items, sheets, number, path.as_str())?;
        number += 1;
        left = others;
        rest = more;
    }
    Ok(items)
}
