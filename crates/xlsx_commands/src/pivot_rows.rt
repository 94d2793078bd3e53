ghost use Rattle.std.specs.Prelude.{◌≡◌, List, Some, string_bytes, IfOk, IfErr};
ghost use Rattle.cell_data.specs.Words.{CellValue};
ghost use Rattle.xlsx_pivot_cache.specs.Words.{cache_rows};
ghost use Rattle.xlsx_commands.specs.CacheRows.{NamedPivotCause, row_lines, ArePivotRows};
ghost use Rattle.xlsx_commands.specs.Outputs.{CallFails};
ghost use Rattle.xlsx_commands.specs.SheetsRefused.{CacheFails};

use crate::error::ToolError;
use crate::pivot_lines::find_pivots;
use input_package::InputPackage;
use part_events::XlReader;
use sheet_listing::push_row_line;
use std::alloc::Global;
use xlsx_core::XlsxError;
use xlsx_pivot_cache::PivotCursor;

/// The lines of the rows of the cache whose definitions and records are the parts at these paths.
fn lines_of_cache(
    alloc: Global,
    package: InputPackage,
    definitions: &str,
    records: &str,
) -> Result<String, ToolError>
    ensures ok { IfOk result (λ out. (rows : List (List CellValue))
        × (cache_rows «package».parts definitions.now records.now ≡ Some rows)
        × (string_bytes out ≡ row_lines rows)) }
    ensures err { IfErr result (CacheFails «package».parts definitions.now records.now) }
{
    let mut xml = XlReader::new(alloc, package);
    let mut cursor = match PivotCursor::open(&mut xml, definitions, records) {
        Ok(cursor) => cursor,
        Err(error) => {
            drop(xml.into_package());
            return Err(ToolError::from(error));
        }
    };
    let mut out = String::new(alloc);
    'rows: while let Some(next) = cursor.next(&mut xml) {
        let row = match next {
            Ok(row) => row,
            Err(error) => {
                drop(xml.into_package());
                return Err(ToolError::from(error));
            }
        };
        push_row_line(&mut out, &row)?;
    }
    Ok(out)
}

/// A line for each row of the cache of the first pivot table of this name that is on a sheet of
/// this name: the names of its fields, and then its records.
pub fn pivot_rows(
    alloc: Global,
    package: InputPackage,
    sheet: &str,
    name: &str,
) -> Result<Vec<u8>, ToolError>
    ensures ok { IfOk result (λ output.
        ArePivotRows «package».parts sheet.now name.now output.items) }
    ensures err { IfErr result
        (CallFails (NamedPivotCause «package».parts sheet.now name.now)) }
{
    let (pivots, package) = find_pivots(alloc, package)?;
    let Some((definitions, records)) = pivots.cache_paths(sheet, name) else {
        return Err(XlsxError::PivotTableNotFound(String::from_str(alloc, name)?).into());
    };
    Ok(lines_of_cache(alloc, package, definitions, records)?.into_bytes())
}
