//! The rows of a list of cells, each with the place of its first cell.
ghost use Rattle.std.specs.Prelude.{◌≡◌, ◌∷◌, true, map, drop, OnOk, OnErr};
ghost use Rattle.std.specs.FinMap.{find};
ghost use Rattle.std.specs.Option.{option_copied};
ghost use Rattle.std.specs.Ordering.{nat_cmp};
ghost use Rattle.sorted_cells.specs.Rows.{is_last, with_row, column_entry, columns_rise, are_rows};
ghost use Rattle.sorted_cells.specs.Rows.{row_size, rows_end};
ghost use Rattle.sorted_cells.specs.Thinned.{cells_between};

use std::alloc::AllocError;

/// A row, and the place of its first cell among the cells of all rows.
#[derive(Clone, Copy)]
pub struct Row {
    pub number: u32,
    pub first: usize,
}

/// A cell of a row.
#[derive(Drop)]
pub struct ColumnCell<T> {
    pub column: u32,
    pub val: T,
}

/// How many of the cells from its first one on are those of the row, before the cells of the rows
/// behind it.
pub fn row_size(row: &Row, rows: &[Row], left: usize) -> usize
    requires { are_rows row.now.first (row.now ∷ rows.now) left ≡ true }
    ensures { result ≡ row_size row.now.first rows.now left }
{
    match rows.first() {
        Some(next) => next.first - row.first,
        None => left,
    }
}

/// The place of the first cell of these rows from this one on, of so many cells; that behind all
/// cells where there is no such row.
pub fn rows_end(rows: &[Row], row: usize, count: usize) -> usize
    ensures { result ≡ rows_end (drop row rows.now) count }
{
    match rows.get(row) {
        Some(next) => next.first,
        None => count,
    }
}

/// Whether the last row has this number.
fn is_last(rows: &[Row], number: u32) -> bool
    ensures { result ≡ is_last number rows.now }
{
    match rows.split_last() {
        Some((last, _)) => last.number == number,
        None => false,
    }
}

/// Puts a row behind the others, unless the last one has its number.
pub fn begin_row(rows: &mut Vec<Row>, number: u32, first: usize) -> Result<(), AllocError>
    ensures ok { OnOk result (rows.new.items ≡ with_row number first rows.old.items) }
    ensures err { OnErr result (rows.new.items ≡ rows.old.items) }
{
    if is_last(rows, number) {
        return Ok(());
    }
    rows.push(Row { number, first })?;
    Ok(())
}

/// The value of a row's cell in this column.
pub fn value_in<T>(cells: &[ColumnCell<T>], column: u32) -> Option<&T>
    requires { columns_rise cells.now ≡ true }
    ensures { option_copied result ≡ find nat_cmp column (map column_entry cells.now) }
{
    match cells.binary_search_by_key(&column, |cell| cell.column) {
        Ok(place) => Some(&cells[place].val),
        Err(_) => None,
    }
}

/// The cells of a row whose columns lie between these, both of them among them.
pub fn columns_between<T>(cells: &[ColumnCell<T>], first: u32, last: u32) -> &[ColumnCell<T>]
    requires { columns_rise cells.now ≡ true }
    ensures { result.now ≡ cells_between first last cells.now }
{
    let behind = cells.partition_point(|cell| cell.column <= last);
    let (front, _) = cells.split_at(behind);
    let before = front.partition_point(|cell| cell.column < first);
    let (_, between) = front.split_at(before);
    between
}
