ghost use Rattle.std.specs.Prelude.{◌≡◌, ◌<◌, ◌++◌, length, slice_get, string_bytes, Some, IsSome};
ghost use Rattle.std.specs.Prelude.{OnOk, IfOk, IfErr, true, false};
ghost use Rattle.xlsx_tables.specs.Tables.{SheetTable, TablesCause};
ghost use Rattle.xlsx_core.specs.Words.{loaded_tables};
ghost use Rattle.xlsx_commands.specs.Outputs.{CallFails};
ghost use Rattle.xlsx_commands.specs.TableLists.{HasTable, ListedTablesCause, NamedTableCause};
ghost use Rattle.xlsx_commands.specs.TableLists.{line_of_table, table_lines, AreTableLines};
ghost use Rattle.xlsx_commands.specs.TableLists.{AreTableValueLines};
ghost use Rattle.xlsx_commands.specs.SheetsRefused.{ListingFails};
ghost use Rattle.xlsx_commands.specs.TablesOpened.{OpensWithTables};

use crate::error::ToolError;
use cell_data::{Data, Table};
use input_package::InputPackage;
use list_lines::{LineForm, push_table_line};
use sheet_listing::value_lines_of;
use std::alloc::{AllocError, Global};
use xlsx_core::Xlsx;

/// The workbook, with the tables of its sheets.
fn with_tables(alloc: Global, package: InputPackage) -> Result<Xlsx<InputPackage>, ToolError>
    ensures loaded { IfOk result (λ xlsx. IsSome xlsx.workbook.lists.tables) }
    ensures ok { IfOk result (OpensWithTables «package».parts) }
    ensures err { IfErr result (ListingFails TablesCause «package».parts) }
{
    let mut xlsx = Xlsx::new(alloc, package)?;
    match xlsx.load_tables() {
        Ok(()) => Ok(xlsx),
        Err(error) => {
            drop(xlsx.into_package());
            Err(ToolError::from(error))
        }
    }
}

/// Appends the line of the table at this index, by its name.
fn push_table(
    out: &mut String,
    form: LineForm,
    xlsx: &Xlsx<InputPackage>,
    index: usize,
    name: &str,
) -> Result<(), AllocError>
    requires loaded { IsSome xlsx.now.workbook.lists.tables }
    requires index { index < length (loaded_tables xlsx.now) }
    ensures { (own : SheetTable) → slice_get (loaded_tables xlsx.now) index ≡ Some own →
        own.table.name ≡ name.now → OnOk result
        (string_bytes out.new ≡ string_bytes out.old ++ line_of_table form own) }
{
    let sheet = xlsx.table_sheet(index);
    let area = xlsx.table_area(index);
    push_table_line(out, form, name, sheet, area, xlsx.table_columns(index))
}

fn lines_of_tables(
    alloc: Global,
    form: LineForm,
    xlsx: &Xlsx<InputPackage>,
) -> Result<String, AllocError>
    requires { IsSome xlsx.now.workbook.lists.tables }
    ensures { IfOk result (λ out. string_bytes out ≡ table_lines form (loaded_tables xlsx.now)) }
{
    let mut out = String::new(alloc);
    let mut index = 0;
    'tables: for name in xlsx.table_names() {
        push_table(&mut out, form, xlsx, index, name)?;
        index += 1;
    }
    Ok(out)
}

/// A line for each table of the workbook.
pub fn table_lines(
    alloc: Global,
    package: InputPackage,
    form: LineForm,
) -> Result<Vec<u8>, ToolError>
    ensures ok { IfOk result (λ output. AreTableLines form «package».parts output.items) }
    ensures err { IfErr result (CallFails (ListedTablesCause «package».parts)) }
{
    let xlsx = with_tables(alloc, package)?;
    Ok(lines_of_tables(alloc, form, &xlsx)?.into_bytes())
}

/// The first table of this name, with its data.
pub fn table_of(alloc: Global, package: InputPackage, name: &str) -> Result<Table<Data>, ToolError>
    ensures ok { IfOk result (HasTable false «package».parts name.now) }
    ensures err { IfErr result (CallFails (NamedTableCause false «package».parts name.now)) }
{
    let mut xlsx = with_tables(alloc, package)?;
    let table = xlsx.table_by_name(name);
    drop(xlsx.into_package());
    Ok(table?)
}

/// The first table of this name, with its data as they are shown.
fn shown_table_of(
    alloc: Global,
    package: InputPackage,
    name: &str,
) -> Result<Table<Data>, ToolError>
    ensures ok { IfOk result (HasTable true «package».parts name.now) }
    ensures err { IfErr result (CallFails (NamedTableCause true «package».parts name.now)) }
{
    let mut xlsx = with_tables(alloc, package)?;
    let table = xlsx.table_by_name_shown(name);
    drop(xlsx.into_package());
    Ok(table?)
}

/// The first table of this name, with its data as they are or as they are shown.
pub(crate) fn table_asked(
    alloc: Global,
    package: InputPackage,
    name: &str,
    shown: bool,
) -> Result<Table<Data>, ToolError>
    ensures ok { IfOk result (HasTable shown «package».parts name.now) }
    ensures err { IfErr result (CallFails (NamedTableCause shown «package».parts name.now)) }
{
    if shown {
        shown_table_of(alloc, package, name)
    } else {
        table_of(alloc, package, name)
    }
}

/// A line for each value in the first table of this name.
pub fn table_value_lines(
    alloc: Global,
    package: InputPackage,
    name: &str,
) -> Result<Vec<u8>, ToolError>
    ensures ok { IfOk result (λ output. AreTableValueLines «package».parts name.now output.items) }
    ensures err { IfErr result (CallFails (NamedTableCause false «package».parts name.now)) }
{
    let table = table_of(alloc, package, name)?;
    Ok(value_lines_of(alloc, table.data())?.into_bytes())
}
