ghost use Rattle.std.specs.Prelude.{IfOk, IfErr};
ghost use Rattle.xlsx_core.specs.Words.{SheetCause};
ghost use Rattle.xlsx_commands.specs.Outputs.{RowsFail};
ghost use Rattle.xlsx_commands.specs.RowArrays.{AreArraysOf};
ghost use Rattle.xlsx_commands.specs.SheetRows.{HasLargeArea};

use crate::asked_rows::AskedRows;
use crate::error::ToolError;
use crate::sheet_rows::{in_asked_area, row_values};
use input_package::InputPackage;
use json_rows::rows_json;
use std::alloc::Global;

/// The rows of the values of the sheet of this name, as arrays of JSON, each in a line.
pub fn row_arrays(
    alloc: Global,
    package: InputPackage,
    name: &str,
    asked: AskedRows,
) -> Result<Vec<u8>, ToolError>
    ensures ok { IfOk result (λ output. AreArraysOf «package».parts name.now asked output.items) }
    ensures err { IfErr result (RowsFail (SheetCause «package».parts name.now)
        (HasLargeArea «package».parts name.now asked)) }
{
    let read = row_values(alloc, package, name, asked.shown)?;
    let values = in_asked_area(read, asked.from_a1);
    Ok(rows_json(alloc, &values, &asked.options)?)
}
