//! Which rows of a table are meant.
ghost use Rattle.std.specs.Prelude.{◌≡◌, ◌+◌, ◌&&◌, nat_le, nat_lt};
ghost use Rattle.book_names.specs.Structured.{rows_of, rows_placed, joined_rows};
ghost use Rattle.book_names.specs.Told.{table_told};

use crate::book::TableShape;
use formula_tokens::is_same_name;

/// Rows of a table, as brackets name them.
#[derive(Clone, Copy)]
pub(crate) enum TableRows {
    All,
    Data,
    Headers,
    Totals,
    /// The row of the formula.
    ThisRow,
}

/// Rows that are selected.
#[derive(Clone, Copy)]
pub(crate) enum RowSpan {
    /// Nothing is said of rows.
    Unsaid,
    /// The rows from one to another, counted from 0.
    Rows(u32, u32),
    /// The table lacks them.
    Missing,
}

/// The rows that a word behind the sign of a number names.
pub(crate) fn rows_of(word: &[u8]) -> Option<TableRows>
    ensures { result ≡ rows_of word.now }
{
    if is_same_name(word, b"#All") {
        return Some(TableRows::All);
    }
    if is_same_name(word, b"#Data") {
        return Some(TableRows::Data);
    }
    if is_same_name(word, b"#Headers") {
        return Some(TableRows::Headers);
    }
    if is_same_name(word, b"#Totals") {
        return Some(TableRows::Totals);
    }
    if is_same_name(word, b"#This Row") {
        return Some(TableRows::ThisRow);
    }
    None
}

impl TableShape {
    /// Whether rows of data are left between the headers and the totals.
    fn has_data(&self) -> bool
        ensures { result ≡ nat_le (self.now.whole.start.0 + self.now.headers + self.now.totals)
            self.now.whole.end.0 }
    {
        let totals = self.totals;
        let first = u64::from(self.whole.start.0) + u64::from(self.headers);
        first + u64::from(totals) <= u64::from(self.whole.end.0)
    }

    /// Whether there are headers, and the area has them.
    fn has_headers(&self) -> bool
        ensures { result ≡ (nat_lt 0 self.now.headers
            && nat_le (self.now.whole.start.0 + self.now.headers) (self.now.whole.end.0 + 1)) }
    {
        let behind = u64::from(self.whole.start.0) + u64::from(self.headers);
        self.headers > 0 && behind <= u64::from(self.whole.end.0) + 1
    }

    /// Whether there are totals, and the area has them.
    fn has_totals(&self) -> bool
        ensures { result ≡ (nat_lt 0 self.now.totals
            && nat_le (self.now.whole.start.0 + self.now.totals) (self.now.whole.end.0 + 1)) }
    {
        let behind = u64::from(self.whole.start.0) + u64::from(self.totals);
        self.totals > 0 && behind <= u64::from(self.whole.end.0) + 1
    }

    /// Whether the row lies between the headers and the totals.
    fn has_data_in(&self, row: u32) -> bool
        ensures { result ≡ (nat_le (self.now.whole.start.0 + self.now.headers) row
            && nat_le (row + self.now.totals) self.now.whole.end.0) }
    {
        let first = u64::from(self.whole.start.0) + u64::from(self.headers);
        let behind = u64::from(row) + u64::from(self.totals);
        first <= u64::from(row) && behind <= u64::from(self.whole.end.0)
    }
}

/// Where rows of a table stand, in a formula on a row.
pub(crate) fn rows_placed(table: &TableShape, row: u32, rows: TableRows) -> RowSpan
    ensures { result ≡ rows_placed (table_told table.now) row rows }
{
    let (first, last) = (table.whole.start.0, table.whole.end.0);
    match rows {
        TableRows::All if first <= last => RowSpan::Rows(first, last),
        TableRows::Data if table.has_data() => {
            RowSpan::Rows(first + table.headers, last - table.totals)
        }
        TableRows::Headers if table.has_headers() => {
            RowSpan::Rows(first, first + (table.headers - 1))
        }
        TableRows::Totals if table.has_totals() => {
            RowSpan::Rows(last - (table.totals - 1), last)
        }
        TableRows::ThisRow if table.has_data_in(row) => RowSpan::Rows(row, row),
        _ => RowSpan::Missing,
    }
}

/// Rows and more rows, with all between them.
pub(crate) fn joined_rows(rows: RowSpan, more: RowSpan) -> RowSpan
    ensures { result ≡ joined_rows rows more }
{
    match (rows, more) {
        (RowSpan::Unsaid, _) => more,
        (RowSpan::Rows(a, b), RowSpan::Rows(c, d)) => RowSpan::Rows(a.min(c), b.max(d)),
        (RowSpan::Rows(..), _) => more,
        (RowSpan::Missing, _) => rows,
    }
}
