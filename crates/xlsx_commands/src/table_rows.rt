ghost use Rattle.std.specs.Prelude.{◌≡◌, [], map, string_bytes, slice_get, IfOk, IfErr};
ghost use Rattle.std.specs.Option.{unwrap_or};
ghost use Rattle.cell_data.specs.Words.{bounds_of, table_columns, table_data};
ghost use Rattle.xlsx_commands.specs.Outputs.{RowsFail};
ghost use Rattle.xlsx_commands.specs.TableLists.{NamedTableCause};
ghost use Rattle.xlsx_commands.specs.TableRows.{AreTableRows, HasLargeTable, fitted_names};
ghost use Rattle.xlsx_commands.specs.TableRows.{header_over};

use crate::asked_rows::AskedTable;
use crate::error::ToolError;
use crate::table_lines::table_asked;
use cell_data::{Data, Table};
use csv_rows::rows_csv;
use input_package::InputPackage;
use std::alloc::{AllocError, Global};

/// The name at this index, and no text where there is none.
fn name_at(names: &[String], index: usize) -> &str
    ensures { result.now ≡ unwrap_or (slice_get (map string_bytes names.now) index) [] }
{
    match names.get(index) {
        Some(name) => name.as_str(),
        None => "",
    }
}

/// A copy of the first names, as many as this; those that are missing are empty.
fn fitted_names(alloc: Global, names: &[String], width: usize) -> Result<Vec<String>, AllocError>
    ensures { IfOk result (λ fitted. map string_bytes fitted.items
        ≡ fitted_names width (map string_bytes names.now)) }
{
    let mut fitted = Vec::new(alloc);
    'columns: for column in 0..width {
        fitted.push(String::from_str(alloc, name_at(names, column))?)?;
    }
    Ok(fitted)
}

/// The names of the columns of a table, as many as its area is wide, or all where that is empty.
pub(crate) fn header_of(alloc: Global, table: &Table<Data>) -> Result<Vec<String>, AllocError>
    ensures { IfOk result (λ header. map string_bytes header.items
        ≡ header_over (bounds_of (table_data table.now)) (table_columns table.now)) }
{
    let names = table.columns();
    let data = table.data();
    let width = if data.is_empty() {
        names.len()
    } else {
        data.width()
    };
    fitted_names(alloc, names, width)
}

/// The records of the first table of this name, as CSV: the names of its columns, and the rows of
/// its data, as they are or as they are shown.
pub fn table_rows(
    alloc: Global,
    package: InputPackage,
    name: &str,
    asked: AskedTable,
) -> Result<Vec<u8>, ToolError>
    ensures ok { IfOk result
        (λ output. AreTableRows «package».parts name.now asked output.items) }
    ensures err { IfErr result (RowsFail (NamedTableCause asked.shown «package».parts name.now)
        (HasLargeTable asked.shown «package».parts name.now)) }
{
    let table = table_asked(alloc, package, name, asked.shown)?;
    let header = header_of(alloc, &table)?;
    Ok(rows_csv(alloc, Some(&header), table.data(), &asked.options)?)
}
