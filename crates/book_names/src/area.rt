//! The area of a table that brackets name.
ghost use Rattle.std.specs.Prelude.{◌≡◌, IfOk, map, string_bytes, option_map};
ghost use Rattle.formula_tokens.specs.Items.{kept_bytes};
ghost use Rattle.book_names.specs.Numbers.{FindsFirstNumbers};
ghost use Rattle.book_names.specs.Structured.{column_inside, column_placed, area_at, crossed_area};
ghost use Rattle.book_names.specs.Structured.{rows_or_data, area_selected, table_area};
ghost use Rattle.book_names.specs.Structured.{columns_area, column_area, area_in};
ghost use Rattle.book_names.specs.Told.{area_told, table_told, selection_told, columns_told};

use crate::book::TableShape;
use crate::key::NameKey;
use crate::numbers::{Numbers, number_of};
use crate::rows::{RowSpan, TableRows, rows_placed};
use crate::selection::{Columns, Selection, selection_of};
use cell_refs::Dimensions;
use formula_tokens::Name;
use std::alloc::AllocError;

/// What brackets behind a table's name are.
#[derive(Clone, Copy, Debug)]
pub enum TableArea<'a> {
    Found(Dimensions),
    /// The table has no column of this name, which is as it is written.
    NoColumn(&'a str),
    /// The table lacks the rows.
    NoRows,
    /// They select nothing of a table.
    NotRead,
}

/// A column of a table on the sheet, where its area has it.
fn column_inside(table: &TableShape, number: Option<usize>) -> Option<u32>
    ensures { result ≡ column_inside (table_told table.now) number }
{
    let number = number?;
    let (first, last) = (table.whole.start.1, table.whole.end.1);
    if first > last || number > (last - first) as usize {
        return None;
    }
    Some(first + number as u32)
}

/// The column of a name on the sheet, if the table has it.
fn column_placed(
    table: &TableShape,
    numbers: &Numbers,
    text: &str,
    key: &mut NameKey,
) -> Result<Option<u32>, AllocError>
    requires { FindsFirstNumbers numbers.now 0 (map string_bytes table.now.columns.items) }
    ensures { IfOk result (λ column. column ≡ column_placed (table_told table.now) text.now) }
{
    key.set(Name::Quoted(text))?;
    Ok(column_inside(table, number_of(numbers, key)))
}

/// The area of rows and the columns from one to another, or from the other to the one.
fn area_at<'a>(rows: (u32, u32), columns: (u32, u32)) -> TableArea<'a>
    ensures { area_told result ≡ area_at rows.0 rows.1 columns.0 columns.1 }
{
    TableArea::Found(Dimensions {
        start: (rows.0, columns.0.min(columns.1)),
        end: (rows.1, columns.0.max(columns.1)),
    })
}

/// The area of rows and columns.
fn area_of<'a>(
    table: &TableShape,
    numbers: &Numbers,
    rows: (u32, u32),
    columns: Columns<'a>,
    key: &mut NameKey,
) -> Result<TableArea<'a>, AllocError>
    requires { FindsFirstNumbers numbers.now 0 (map string_bytes table.now.columns.items) }
    ensures { IfOk result (λ area. area_told area
        ≡ crossed_area (table_told table.now) rows.0 rows.1 (columns_told columns.entry)) }
{
    let (first, last) = match columns {
        Columns::All => {
            let ends = (table.whole.start.1, table.whole.end.1);
            return Ok(area_at(rows, ends));
        }
        Columns::One(column) => (column, column),
        Columns::Between(first, last) => (first, last),
    };
    let Some(a) = column_placed(table, numbers, first, key)? else {
        return Ok(TableArea::NoColumn(first));
    };
    let Some(b) = column_placed(table, numbers, last, key)? else {
        return Ok(TableArea::NoColumn(last));
    };
    Ok(area_at(rows, (a, b)))
}

/// The rows that are selected: those of the data where none are said.
fn rows_or_data(table: &TableShape, row: u32, rows: RowSpan) -> RowSpan
    ensures { result ≡ rows_or_data (table_told table.now) row rows }
{
    match rows {
        RowSpan::Unsaid => rows_placed(table, row, TableRows::Data),
        _ => rows,
    }
}

/// The area of a table that brackets name in a formula on a row. The numbers are those of its
/// columns.
#[tactic(auto, unfolding(crate::specs::Structured::table_area))]
pub(crate) fn table_area<'a>(
    table: &TableShape,
    numbers: &Numbers,
    row: u32,
    inside: &'a str,
    key: &mut NameKey,
) -> Result<TableArea<'a>, AllocError>
    requires { FindsFirstNumbers numbers.now 0 (map string_bytes table.now.columns.items) }
    ensures { IfOk result (λ area. area_told area
        ≡ table_area (table_told table.now) row inside.now) }
{
    let Some(selection) = selection_of(table, row, inside) else {
        return Ok(TableArea::NotRead);
    };
    match rows_or_data(table, row, selection.rows) {
        RowSpan::Rows(first, last) => {
            area_of(table, numbers, (first, last), selection.columns, key)
        }
        _ => Ok(TableArea::NoRows),
    }
}
