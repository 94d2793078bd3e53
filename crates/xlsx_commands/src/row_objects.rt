ghost use Rattle.std.specs.Prelude.{IfOk, IfErr};
ghost use Rattle.xlsx_core.specs.Words.{SheetCause};
ghost use Rattle.xlsx_commands.specs.Outputs.{ObjectsFail};
ghost use Rattle.xlsx_commands.specs.RowObjects.{AreRowObjects, AreJsonRows, LacksHeader};
ghost use Rattle.xlsx_commands.specs.RowObjects.{GivesTwice, HasNoHeader, HasDoubleKey};
ghost use Rattle.xlsx_commands.specs.SheetRows.{HasLargeArea};

use crate::asked_rows::AskedRows;
use crate::error::ToolError;
use crate::row_arrays::row_arrays;
use crate::sheet_rows::{in_asked_area, row_values};
use input_package::InputPackage;
use json_rows::headed_rows_json;
use std::alloc::Global;

/// The rows of the values of the sheet of this name behind the first, as objects of JSON, each in a
/// line.
fn row_objects(
    alloc: Global,
    package: InputPackage,
    name: &str,
    asked: AskedRows,
) -> Result<Vec<u8>, ToolError>
    ensures ok { IfOk result (λ output.
        AreRowObjects «package».parts name.now asked output.items) }
    ensures err { IfErr result (ObjectsFail (SheetCause «package».parts name.now)
        (HasLargeArea «package».parts name.now asked)
        (HasNoHeader «package».parts name.now asked)
        (HasDoubleKey «package».parts name.now asked)) }
{
    let read = row_values(alloc, package, name, asked.shown)?;
    let values = in_asked_area(read, asked.from_a1);
    Ok(headed_rows_json(alloc, &values, &asked.options)?)
}

/// The rows of the values of the sheet of this name as JSON: arrays, or objects where a header is
/// asked for.
pub fn json_rows(
    alloc: Global,
    package: InputPackage,
    name: &str,
    asked: AskedRows,
) -> Result<Vec<u8>, ToolError>
    ensures ok { IfOk result (λ output.
        AreJsonRows asked.header «package».parts name.now asked output.items) }
    ensures err { IfErr result (ObjectsFail (SheetCause «package».parts name.now)
        (HasLargeArea «package».parts name.now asked)
        (LacksHeader asked.header «package».parts name.now asked)
        (GivesTwice asked.header «package».parts name.now asked)) }
{
    if asked.header {
        row_objects(alloc, package, name, asked)
    } else {
        row_arrays(alloc, package, name, asked)
    }
}
