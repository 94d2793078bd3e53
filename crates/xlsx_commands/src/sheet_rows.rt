ghost use Rattle.std.specs.Prelude.{◌≡◌, option_map, IfOk, IfErr};
ghost use Rattle.cell_data.specs.Words.{value_pairs, cells_of, bounds_of, blank_of};
ghost use Rattle.xlsx_core.specs.Words.{SheetCause, HasLeastRange};
ghost use Rattle.xlsx_commands.specs.Outputs.{CallFails, RowsFail};
ghost use Rattle.xlsx_commands.specs.SheetRows.{AreRowsOf, HasLargeArea, HasRowValues, from_first};
ghost use Rattle.xlsx_commands.specs.SheetRows.{asked_area};

use crate::asked_rows::AskedRows;
use crate::cell_lines::{shown_values_of, values_of};
use crate::error::ToolError;
use cell_data::{Data, Range};
use csv_rows::rows_csv;
use input_package::InputPackage;
use std::alloc::Global;

/// The same values in the area from A1 to their last row and column.
fn from_first_cell(values: Range<Data>) -> Range<Data>
    ensures cells { cells_of result ≡ cells_of values }
    ensures bounds { bounds_of result ≡ option_map from_first (bounds_of values) }
    ensures blank { blank_of result ≡ blank_of values }
{
    match values.bounds() {
        Some(area) => values.range((0, 0), area.end),
        None => values,
    }
}

/// The same values in the area that is asked for.
pub(crate) fn in_asked_area(values: Range<Data>, from_a1: bool) -> Range<Data>
    ensures cells { cells_of result ≡ cells_of values }
    ensures bounds { bounds_of result ≡ asked_area from_a1 (bounds_of values) }
    ensures blank { blank_of result ≡ blank_of values }
{
    if from_a1 {
        from_first_cell(values)
    } else {
        values
    }
}

/// The values of the sheet of this name, as they are or as they are shown.
pub(crate) fn row_values(
    alloc: Global,
    package: InputPackage,
    name: &str,
    shown: bool,
) -> Result<Range<Data>, ToolError>
    ensures ok { IfOk result (λ values.
        HasRowValues shown «package».parts name.now (value_pairs values)) }
    ensures range { IfOk result HasLeastRange }
    ensures err { IfErr result (CallFails (SheetCause «package».parts name.now)) }
{
    if shown {
        shown_values_of(alloc, package, name)
    } else {
        values_of(alloc, package, name)
    }
}

/// The rows of the values of the sheet of this name, as CSV.
pub fn sheet_rows(
    alloc: Global,
    package: InputPackage,
    name: &str,
    asked: AskedRows,
) -> Result<Vec<u8>, ToolError>
    ensures ok { IfOk result (λ output. AreRowsOf «package».parts name.now asked output.items) }
    ensures err { IfErr result (RowsFail (SheetCause «package».parts name.now)
        (HasLargeArea «package».parts name.now asked)) }
{
    let read = row_values(alloc, package, name, asked.shown)?;
    let values = in_asked_area(read, asked.from_a1);
    Ok(rows_csv(alloc, None, &values, &asked.options)?)
}
