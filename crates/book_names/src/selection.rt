//! What brackets behind a table's name select.
ghost use Rattle.std.specs.Prelude.{◌≡◌, option_map, length, suc, Some};
ghost use Rattle.book_names.specs.Structured.{columns_to, columns_from, rows_with, rows_alone};
ghost use Rattle.book_names.specs.Structured.{selected_within, first_part, plain_selection};
ghost use Rattle.book_names.specs.Structured.{on_this_row, selection_of, rows_of};
ghost use Rattle.book_names.specs.Told.{part_told, selection_told, table_told};
ghost use Rattle.book_names.specs.declared.rows.RowSpan.TheVariants.{Unsaid};

use crate::book::TableShape;
use crate::parts::{Part, begins_with, behind_first, first_part, without_blanks};
use crate::rows::{RowSpan, TableRows, joined_rows, rows_of, rows_placed};

/// Columns that are selected, by their names as they are written.
#[derive(Clone, Copy)]
pub(crate) enum Columns<'a> {
    All,
    One(&'a str),
    /// Those from one to another, or from the other to the one.
    Between(&'a str, &'a str),
}

/// Rows and columns of a table.
#[derive(Clone, Copy)]
pub(crate) struct Selection<'a> {
    pub(crate) rows: RowSpan,
    pub(crate) columns: Columns<'a>,
}

/// The columns from one to that of the part that a text begins with, which nothing follows.
fn columns_to<'a>(rows: RowSpan, first: &'a str, text: &'a str) -> Option<Selection<'a>>
    ensures { option_map selection_told result ≡ columns_to rows first.now (first_part text.now) }
{
    let last = first_part(text)?;
    if begins_with(b'#', last.text) || !last.behind.is_empty() {
        return None;
    }
    let columns = Columns::Between(first, last.text);
    Some(Selection { rows, columns })
}

/// A column, or more of them behind a colon.
fn columns_from(rows: RowSpan, part: Part<'_>) -> Option<Selection<'_>>
    ensures { option_map selection_told result ≡ columns_from rows (part_told part.entry) }
{
    if part.behind.is_empty() {
        let columns = Columns::One(part.text);
        return Some(Selection { rows, columns });
    }
    if !begins_with(b':', part.behind) {
        return None;
    }
    columns_to(rows, part.text, behind_first(part.behind))
}

/// Rows of a name with those that were selected before them, if it is one of rows.
fn rows_with(table: &TableShape, row: u32, rows: RowSpan, name: &str) -> Option<RowSpan>
    ensures { result ≡ rows_with (table_told table.now) row rows (rows_of name.now) }
{
    let more = rows_of(name.as_bytes())?;
    Some(joined_rows(rows, rows_placed(table, row, more)))
}

/// What the parts of a text select.
fn selected<'a>(table: &TableShape, row: u32, text: &'a str) -> Option<Selection<'a>>
    ensures { option_map selection_told result ≡ selected_within (table_told table.now) row
        (suc (length text.now)) Unsaid (first_part text.now) }
{
    let mut rows = RowSpan::Unsaid;
    let mut rest = text;
    while let Some(part) = first_part(rest) {
        if !begins_with(b'#', part.text) {
            return columns_from(rows, part);
        }
        rows = rows_with(table, row, rows, part.text)?;
        if part.behind.is_empty() {
            let columns = Columns::All;
            return Some(Selection { rows, columns });
        }
        if !begins_with(b',', part.behind) {
            return None;
        }
        rest = behind_first(part.behind);
    }
    None
}

/// What stands in brackets without the sign of the formula's row.
fn plain_selection<'a>(table: &TableShape, row: u32, text: &'a str) -> Option<Selection<'a>>
    ensures { option_map selection_told result
        ≡ plain_selection (table_told table.now) row text.now }
{
    let (rows, columns) = match text.as_bytes().first() {
        None => (RowSpan::Unsaid, Columns::All),
        Some(b'@') => return None,
        Some(b'#') => (rows_with(table, row, RowSpan::Unsaid, text)?, Columns::All),
        Some(b'[') => return selected(table, row, text),
        Some(_) => (RowSpan::Unsaid, Columns::One(text)),
    };
    Some(Selection { rows, columns })
}

/// What is selected in the row of the formula, where no other rows are.
fn on_this_row<'a>(table: &TableShape, row: u32, selection: Selection<'a>) -> Option<Selection<'a>>
    ensures { option_map selection_told result
        ≡ on_this_row (table_told table.now) row (Some (selection_told selection.entry)) }
{
    let RowSpan::Unsaid = selection.rows else {
        return None;
    };
    Some(Selection {
        rows: rows_placed(table, row, TableRows::ThisRow),
        columns: selection.columns,
    })
}

/// What stands in brackets behind a table's name, in a formula on a row.
pub(crate) fn selection_of<'a>(
    table: &TableShape,
    row: u32,
    inside: &'a str,
) -> Option<Selection<'a>>
    ensures { option_map selection_told result
        ≡ selection_of (table_told table.now) row inside.now }
{
    let text = without_blanks(inside);
    if !begins_with(b'@', text) {
        return plain_selection(table, row, text);
    }
    let text = without_blanks(behind_first(text));
    on_this_row(table, row, plain_selection(table, row, text)?)
}
