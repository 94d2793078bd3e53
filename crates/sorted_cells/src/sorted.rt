ghost use Rattle.std.specs.Prelude.{IsTrue, length};
ghost use Rattle.sorted_cells.specs.Rows.{are_rows, numbers_rise, cells_by};
ghost use Rattle.cell_refs.specs.Words.{is_rising};

use crate::area_cells::AreaCells;
use crate::keeping::{cut_before, cut_behind, is_between, keep_columns, rows_between};
use crate::owned_cells::OwnedCells;
use crate::placed_cells::PlacedCells;
use crate::row::{ColumnCell, Row, begin_row, rows_end, value_in};
use std::alloc::{AllocError, Global};

/// Cells of a worksheet in the order of their positions, row by row: a list of rows, and one of
/// columns and values.
///
/// A cell takes the memory of its column and its value, and a row with cells that of its number and
/// a place.
#[derive(Drop)]
pub struct SortedCells<T> {
    rows: Vec<Row>,
    cells: Vec<ColumnCell<T>>,
    ghost shared: { IsTrue (are_rows 0 rows.items (length cells.items)) },
    ghost numbers: { IsTrue (numbers_rise rows.items) },
    ghost rising: { IsTrue (is_rising (cells_by rows.items cells.items)) },
}

impl<T> SortedCells<T> {
    ghost use Rattle.std.specs.Prelude.{◌≡◌, ◌++◌, ◌∷◌, [], ◌==◌, length, true, OnOk, OnErr, IfOk};
    ghost use Rattle.std.specs.Prelude.{◌+◌, ◌<◌, ◌^◌, drop};
    ghost use Rattle.std.specs.FinMap.{find};
    ghost use Rattle.std.specs.List.{filter};
    ghost use Rattle.std.specs.Option.{option_copied};
    ghost use Rattle.cell_refs.specs.Words.{position_cmp, is_in_area};
    ghost use Rattle.sorted_cells.specs.Rows.{cells_of_row, rows_end};
    ghost use Rattle.sorted_cells.specs.Area.{area_left};
    ghost use Rattle.sorted_cells.specs.Kept.{kept_cells};
    ghost use Rattle.sorted_cells.specs.Owned.{owned_left};
    ghost use Rattle.sorted_cells.specs.Placed.{placed_left};
    ghost use Rattle.sorted_cells.specs.Last.{last_key, comes_after};

    /// No cells.
    pub fn new(alloc: Global) -> SortedCells<T>
        ensures { kept_cells result ≡ [] }
    {
        SortedCells {
            rows: Vec::new(alloc),
            cells: Vec::new(alloc),
        }
    }

    /// No cells, with room for so many.
    pub fn with_capacity(alloc: Global, count: usize) -> Result<SortedCells<T>, AllocError>
        ensures { IfOk result (λ sorted. kept_cells sorted ≡ []) }
    {
        Ok(SortedCells {
            rows: Vec::new(alloc),
            cells: Vec::with_capacity(alloc, count)?,
        })
    }

    /// How many cells there are.
    pub fn len(&self) -> usize
        ensures { result ≡ length (kept_cells self.now) }
    {
        self.cells.len()
    }

    /// Whether there is no cell.
    pub fn is_empty(&self) -> bool
        ensures { result ≡ (length (kept_cells self.now) == 0) }
    {
        self.cells.is_empty()
    }

    /// The row and the column of the last cell, counted from 0; none without a cell.
    pub fn last_position(&self) -> Option<(u32, u32)>
        ensures { result ≡ last_key (kept_cells self.now) }
    {
        let (row, _) = self.rows.split_last()?;
        let (cell, _) = self.cells.split_last()?;
        Some((row.number, cell.column))
    }

    /// Whether a position, a row and a column counted from 0, comes after those of all cells, so
    /// that a cell can be put there.
    pub fn comes_last(&self, pos: (u32, u32)) -> bool
        ensures { result ≡ comes_after position_cmp (last_key (kept_cells self.now)) pos }
    {
        match self.last_position() {
            Some(last) => last < pos,
            None => true,
        }
    }

    /// Puts a cell behind the others, at a position, a row and a column counted from 0, that comes
    /// after theirs. Where memory is wanting, the cells stay as they were.
    pub fn push(&mut self, pos: (u32, u32), val: T) -> Result<(), AllocError>
    where
        T: Drop,
        requires { comes_after position_cmp (last_key (kept_cells self.old)) pos ≡ true }
        ensures ok { OnOk result (kept_cells self.new ≡ kept_cells self.old ++ (pos, val) ∷ []) }
        ensures err { OnErr result (kept_cells self.new ≡ kept_cells self.old) }
    {
        self.cells.reserve(1)?;
        begin_row(&mut self.rows, pos.0, self.cells.len())?;
        self.cells.push(ColumnCell { column: pos.1, val })?;
        Ok(())
    }

    /// The cells of this row, by its place in the list of rows.
    fn row_cells(&self, row: usize) -> &[ColumnCell<T>]
        requires { row < length self.now.rows.items }
        ensures { result.now ≡ cells_of_row row self.now.rows.items self.now.cells.items }
    {
        let first = self.rows[row].first;
        let end = rows_end(&self.rows, row + 1, self.cells.len());
        &self.cells[first..end]
    }

    /// The value of the cell at a row and a column, counted from 0; none where there is no cell.
    pub fn get(&self, pos: (u32, u32)) -> Option<&T>
        ensures { option_copied result ≡ find position_cmp pos (kept_cells self.now) }
    {
        match self.rows.binary_search_by_key(&pos.0, |row| row.number) {
            Ok(row) => value_in(self.row_cells(row), pos.1),
            Err(_) => None,
        }
    }

    /// The cells with their positions, row by row.
    pub fn iter(&self) -> PlacedCells<'_, T>
        ensures cells { placed_left result ≡ kept_cells self.now }
        ensures rising { is_rising (kept_cells self.now) ≡ true }
        ensures fits { length (kept_cells self.now) < 2 ^ 64 }
    {
        PlacedCells::new(&self.rows, &self.cells)
    }

    /// The cells with their positions, row by row, each handed out.
    pub fn into_iter(self) -> OwnedCells<T>
        ensures cells { owned_left result ≡ kept_cells self }
        ensures rising { is_rising (kept_cells self) ≡ true }
    {
        OwnedCells::new(self.rows, self.cells)
    }

    /// The cells between a first and a last position, rows and columns counted from 0, with their
    /// positions, row by row. Its rows and, in each of these, its columns are found by halving. It
    /// takes no memory.
    pub fn cells_in(&self, start: (u32, u32), end: (u32, u32)) -> AreaCells<'_, T>
        ensures { area_left result ≡ filter
            (λ cell. is_in_area (record { start = start; end = end }) cell.0)
            (kept_cells self.now) }
    {
        let (rows, cells) = rows_between(&self.rows, &self.cells, start.0, end.0);
        AreaCells::new(rows, cells, start.1, end.1)
    }

    /// The cells between a first and a last position, rows and columns counted from 0: each of them
    /// has a row between theirs and a column between theirs. It takes no memory.
    pub fn keep_area(self, start: (u32, u32), end: (u32, u32)) -> SortedCells<T>
    where
        T: Drop,
        ensures { kept_cells result ≡ filter
            (λ cell. is_in_area (record { start = start; end = end }) cell.0) (kept_cells self) }
    {
        let SortedCells {
            mut rows,
            mut cells,
            ..
        } = self;
        cut_behind(&mut rows, &mut cells, end.0);
        cut_before(&mut rows, &mut cells, start.0);
        keep_columns(&mut rows, &cells, start.1, end.1);
        cells.retain(|cell| is_between(start.1, end.1, cell.column));
        SortedCells { rows, cells }
    }
}
