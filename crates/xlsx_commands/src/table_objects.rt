ghost use Rattle.std.specs.Prelude.{IfOk, IfErr, false};
ghost use Rattle.xlsx_commands.specs.Outputs.{ObjectsFail};
ghost use Rattle.xlsx_commands.specs.TableLists.{NamedTableCause};
ghost use Rattle.xlsx_commands.specs.TableObjects.{AreTableObjects, HasDoubleName};
ghost use Rattle.xlsx_commands.specs.TableRows.{HasLargeTable};

use crate::error::ToolError;
use crate::table_lines::table_of;
use crate::table_rows::header_of;
use csv_rows::CsvOptions;
use input_package::InputPackage;
use json_rows::keyed_rows_json;
use std::alloc::Global;

/// The rows of the data of the first table of this name, as objects of JSON under the names of its
/// columns, each in a line.
pub fn table_objects(
    alloc: Global,
    package: InputPackage,
    name: &str,
    options: CsvOptions,
) -> Result<Vec<u8>, ToolError>
    ensures ok { IfOk result (λ output.
        AreTableObjects «package».parts name.now options output.items) }
    ensures err { IfErr result (ObjectsFail (NamedTableCause false «package».parts name.now)
        (HasLargeTable false «package».parts name.now) ⊥
        (HasDoubleName «package».parts name.now)) }
{
    let table = table_of(alloc, package, name)?;
    let keys = header_of(alloc, &table)?;
    Ok(keyed_rows_json(alloc, &keys, table.data(), &options)?)
}
