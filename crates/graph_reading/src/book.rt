//! The names of a workbook, in which the words of its formulas are looked up.
ghost use Rattle.std.specs.Prelude.{◌≡◌, ◌++◌, map, string_bytes, IfOk, OnOk};
ghost use Rattle.attr_text.specs.Words.{unescaped};
ghost use Rattle.book_names.specs.Told.{name_told, table_told};
ghost use Rattle.xlsx_tables.specs.Tables.{loaded_of};
ghost use Rattle.xlsx_workbook.specs.Words.{pair_of};
ghost use Rattle.graph_reading.specs.BookRead.{book_of, book_table, scoped_name, scoped_names};

use attr_text::unescaped;
use book_names::{BookNames, DefinedName, TableShape};
use part_events::Package;
use std::alloc::{AllocError, Global};
use xlsx_core::{NameScope, Sheet, Xlsx};
use xlsx_tables::LoadedTable;

/// The names of sheets.
fn sheet_names(alloc: Global, sheets: &[Sheet]) -> Result<Vec<String>, AllocError>
    ensures { IfOk result (λ names. map string_bytes names.items
        ≡ map (λ sheet. string_bytes sheet.name) sheets.now) }
{
    let mut names = Vec::new(alloc);
    for sheet in sheets {
        names.push(sheet.name.clone()?)?;
    }
    Ok(names)
}

/// Appends a defined name, where a scope of it was read.
fn push_name(
    names: &mut Vec<DefinedName>,
    pair: &(String, String),
    scope: NameScope,
) -> Result<(), AllocError>
    ensures { OnOk result (map name_told names.new.items
        ≡ map name_told names.old.items ++ scoped_name (pair_of pair.now) scope) }
{
    let scope = match scope {
        NameScope::Workbook => None,
        NameScope::Sheet(sheet) => Some(sheet),
        NameScope::Unread => return Ok(()),
    };
    names.push(DefinedName {
        name: pair.0.clone()?,
        scope,
        text: pair.1.clone()?,
    })?;
    Ok(())
}

/// Defined names with their scopes.
fn defined_names(
    alloc: Global,
    pairs: &[(String, String)],
    scopes: &[NameScope],
) -> Result<Vec<DefinedName>, AllocError>
    ensures { IfOk result (λ names. map name_told names.items
        ≡ scoped_names (map pair_of pairs.now) scopes.now) }
{
    let mut names = Vec::new(alloc);
    let mut left = pairs;
    let mut rest = scopes;
    'names: while let Some((pair, others)) = left.split_first() {
        let Some((scope, more)) = rest.split_first() else {
            return Ok(names);
        };
        push_name(&mut names, pair, *scope)?;
        left = others;
        rest = more;
    }
    Ok(names)
}

/// The names of columns, without their escapes.
fn column_names(alloc: Global, columns: &[String]) -> Result<Vec<String>, AllocError>
    ensures { IfOk result (λ names. map string_bytes names.items
        ≡ map unescaped (map string_bytes columns.now)) }
{
    let mut names = Vec::new(alloc);
    for column in columns {
        names.push(unescaped(alloc, column.clone()?)?)?;
    }
    Ok(names)
}

/// A table by its area and the names of its columns.
fn table_shape(alloc: Global, table: &LoadedTable) -> Result<TableShape, AllocError>
    ensures { IfOk result (λ shape. table_told shape ≡ book_table (loaded_of table.now)) }
{
    Ok(TableShape {
        name: String::from_str(alloc, table.name())?,
        sheet: table.sheet(),
        whole: table.whole(),
        headers: table.headers(),
        totals: table.totals(),
        columns: column_names(alloc, table.columns())?,
    })
}

/// Tables by their areas and the names of their columns.
fn table_shapes(alloc: Global, tables: &[LoadedTable]) -> Result<Vec<TableShape>, AllocError>
    ensures { IfOk result (λ shapes. map table_told shapes.items
        ≡ map book_table (map loaded_of tables.now)) }
{
    let mut shapes = Vec::new(alloc);
    for table in tables {
        shapes.push(table_shape(alloc, table)?)?;
    }
    Ok(shapes)
}

/// The names of a workbook with these tables.
pub(crate) fn book_of<P: Package>(
    alloc: Global,
    xlsx: &Xlsx<P>,
    tables: &[LoadedTable],
) -> Result<BookNames, AllocError>
    ensures { IfOk result (λ book. book ≡ book_of xlsx.now (map loaded_of tables.now)) }
{
    let metadata = xlsx.metadata();
    let names = defined_names(alloc, &metadata.names, xlsx.name_scopes())?;
    let sheets = sheet_names(alloc, &metadata.sheets)?;
    BookNames::new(alloc, sheets, names, table_shapes(alloc, tables)?)
}
