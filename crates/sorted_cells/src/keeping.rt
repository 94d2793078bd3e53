//! The cells of an area alone, with their rows. It takes no memory.
ghost use Rattle.std.specs.Prelude.{◌≡◌, ◌++◌, ◌+◌, ◌<◌, ◌≤◌, true, length, take, drop, nat_le};
ghost use Rattle.sorted_cells.specs.Cut.{AreLeft};
ghost use Rattle.sorted_cells.specs.Rows.{are_rows, numbers_rise, first_of_rows};
ghost use Rattle.sorted_cells.specs.Thinned.{is_between, cells_between, row_if, thinned};

use crate::row::{ColumnCell, Row, row_size, rows_end};

/// Whether a number lies between these, or is one of them.
pub fn is_between(first: u32, last: u32, number: u32) -> bool
    ensures { result ≡ is_between first last number }
{
    first <= number && number <= last
}

fn drop_front<T: Drop>(list: &mut Vec<T>, count: usize)
    requires { count ≤ length list.old.items }
    ensures { list.new.items ≡ drop count list.old.items }
{
    let left = list.len() - count;
    list.rotate_left(count);
    list.truncate(left);
}

/// The rows up to this one, and their cells.
fn rows_up_to<'a, T>(
    rows: &'a [Row],
    cells: &'a [ColumnCell<T>],
    last: u32,
) -> (&'a [Row], &'a [ColumnCell<T>])
    requires shared { are_rows 0 rows.now (length cells.now) ≡ true }
    requires numbers { numbers_rise rows.now ≡ true }
    ensures { AreLeft (λ number. nat_le number last) 0 rows.now result.0.now
        cells.now result.1.now }
{
    let behind = rows.partition_point(|row| row.number <= last);
    let (own, _) = cells.split_at(rows_end(rows, behind, cells.len()));
    let (left, _) = rows.split_at(behind);
    (left, own)
}

/// The rows from this one on, and their cells.
fn rows_from<'a, T>(
    rows: &'a [Row],
    cells: &'a [ColumnCell<T>],
    first: u32,
) -> (&'a [Row], &'a [ColumnCell<T>])
    requires shared { are_rows 0 rows.now (length cells.now) ≡ true }
    requires numbers { numbers_rise rows.now ≡ true }
    ensures { AreLeft (λ number. nat_le first number) (first_of_rows result.0.now) rows.now
        result.0.now cells.now result.1.now }
{
    let before = rows.partition_point(|row| row.number < first);
    let (_, own) = cells.split_at(rows_end(rows, before, cells.len()));
    let (_, left) = rows.split_at(before);
    (left, own)
}

/// The rows between these, both of them among them, and their cells.
pub fn rows_between<'a, T>(
    rows: &'a [Row],
    cells: &'a [ColumnCell<T>],
    first: u32,
    last: u32,
) -> (&'a [Row], &'a [ColumnCell<T>])
    requires shared { are_rows 0 rows.now (length cells.now) ≡ true }
    requires numbers { numbers_rise rows.now ≡ true }
    ensures { AreLeft (λ number. is_between first last number) (first_of_rows result.0.now)
        rows.now result.0.now cells.now result.1.now }
{
    let (rows, cells) = rows_up_to(rows, cells, last);
    rows_from(rows, cells, first)
}

/// Drops the rows behind this one, and their cells.
pub fn cut_behind<T: Drop>(rows: &mut Vec<Row>, cells: &mut Vec<ColumnCell<T>>, last: u32)
    requires shared { are_rows 0 rows.old.items (length cells.old.items) ≡ true }
    requires numbers { numbers_rise rows.old.items ≡ true }
    ensures { AreLeft (λ number. nat_le number last) 0 rows.old.items rows.new.items
        cells.old.items cells.new.items }
{
    let behind = rows.partition_point(|row| row.number <= last);
    cells.truncate(rows_end(rows, behind, cells.len()));
    rows.truncate(behind);
}

/// Drops the rows before this one, and their cells.
pub fn cut_before<T: Drop>(rows: &mut Vec<Row>, cells: &mut Vec<ColumnCell<T>>, first: u32)
    requires shared { are_rows 0 rows.old.items (length cells.old.items) ≡ true }
    requires numbers { numbers_rise rows.old.items ≡ true }
    ensures { AreLeft (λ number. nat_le first number) (first_of_rows rows.new.items) rows.old.items
        rows.new.items cells.old.items cells.new.items }
{
    let before = rows.partition_point(|row| row.number < first);
    drop_front(cells, rows_end(rows, before, cells.len()));
    drop_front(rows, before);
}

/// How many of these cells have columns between these.
fn count_between<T>(cells: &[ColumnCell<T>], first: u32, last: u32) -> usize
    ensures count { result ≡ length (cells_between first last cells.now) }
    ensures bound { result ≤ length cells.now }
{
    let mut count = 0;
    for cell in cells {
        if is_between(first, last, cell.column) {
            count += 1;
        }
    }
    count
}

/// Writes a row with so many cells behind the first ones, unless it has none, and tells how many
/// rows are written.
fn write_row(rows: &mut [Row], written: usize, row: Row, size: usize) -> usize
    requires { written < length rows.old }
    ensures front { take result rows.new ≡ take written rows.old ++ row_if size row }
    ensures back { drop (written + 1) rows.new ≡ drop (written + 1) rows.old }
    ensures bound { result ≤ written + 1 }
{
    if size == 0 {
        return written;
    }
    rows[written] = row;
    written + 1
}

/// Counts the places of the rows for the cells with columns between these alone, and tells how many
/// rows have one: they stand first.
fn count_anew<T>(rows: &mut [Row], cells: &[ColumnCell<T>], first: u32, last: u32) -> usize
    requires { are_rows (first_of_rows rows.old) rows.old (length cells.now) ≡ true }
    ensures { take result rows.new ≡ thinned first last 0 rows.old cells.now }
{
    let mut written = 0;
    let mut place = 0;
    let mut left = cells;
    for at in 0..rows.len() {
        let row = rows[at];
        let (_, behind) = rows.split_at(at + 1);
        let (own, others) = left.split_at(row_size(&row, behind, left.len()));
        let size = count_between(own, first, last);
        let counted = Row {
            number: row.number,
            first: place,
        };
        written = write_row(rows, written, counted, size);
        place += size;
        left = others;
    }
    written
}

/// Leaves the rows that have a cell with a column between these, with their places among such cells
/// alone.
pub fn keep_columns<T>(rows: &mut Vec<Row>, cells: &[ColumnCell<T>], first: u32, last: u32)
    requires { are_rows (first_of_rows rows.old.items) rows.old.items (length cells.now) ≡ true }
    ensures { rows.new.items ≡ thinned first last 0 rows.old.items cells.now }
{
    let left = count_anew(rows, cells, first, last);
    rows.truncate(left);
}
