ghost use Rattle.std.specs.Prelude.{IsTrue, length};
ghost use Rattle.sorted_cells.specs.Rows.{are_rows, first_of_rows};

use crate::row::{ColumnCell, Row, row_size};
use std::alloc::AllocError;

/// Cells with their positions, a row and a column counted from 0, row by row.
pub struct PlacedCells<'a, T> {
    number: u32,
    own: &'a [ColumnCell<T>],
    rows: &'a [Row],
    behind: &'a [ColumnCell<T>],
    ghost shared: { IsTrue (are_rows (first_of_rows rows.now) rows.now (length behind.now)) },
}

impl<'a, T> PlacedCells<'a, T> {
    ghost use Rattle.std.specs.Prelude.{◌≡◌, [], true, length};
    ghost use Rattle.std.specs.Option.{option_copied};
    ghost use Rattle.sorted_cells.specs.Rows.{are_rows, cells_by};
    ghost use Rattle.sorted_cells.specs.Placed.{placed_left, first_position, value_first};
    ghost use Rattle.sorted_cells.specs.Placed.{left_behind, past_row};

    /// The cells of these rows, of which none was taken yet.
    pub(crate) fn new(rows: &'a [Row], cells: &'a [ColumnCell<T>]) -> PlacedCells<'a, T>
        requires { are_rows 0 rows.now (length cells.now) ≡ true }
        ensures { placed_left result ≡ cells_by rows.now cells.now }
    {
        let (own, behind) = cells.split_at(0);
        PlacedCells {
            number: 0,
            own,
            rows,
            behind,
        }
    }

    /// Goes on to the next row, where all cells of the row were taken.
    fn enter_row(&mut self)
        ensures left { placed_left self.new ≡ placed_left self.old }
        ensures none { length self.new.own.now ≡ 0 → placed_left self.new ≡ [] }
    {
        if !self.own.is_empty() {
            return;
        }
        let Some((row, rows)) = self.rows.split_first() else {
            return;
        };
        let (own, behind) = self.behind.split_at(row_size(row, rows, self.behind.len()));
        self.number = row.number;
        self.own = own;
        self.rows = rows;
        self.behind = behind;
    }

    /// The row and the column of the next cell, counted from 0, and it stays the next one; none
    /// where all were taken.
    pub fn next_position(&self) -> Option<(u32, u32)>
        ensures { result ≡ first_position (placed_left self.now) }
    {
        if let Some(cell) = self.own.first() {
            return Some((self.number, cell.column));
        }
        let row = self.rows.first()?;
        let cell = self.behind.first()?;
        Some((row.number, cell.column))
    }

    /// The value of the next cell where it stands at this row and this column, counted from 0, and
    /// the cell is taken; else nothing, and it stays the next one.
    pub fn next_at(&mut self, pos: (u32, u32)) -> Option<&'a T>
        ensures value { option_copied result ≡ value_first pos (placed_left self.old) }
        ensures left { placed_left self.new ≡ left_behind pos (placed_left self.old) }
    {
        self.enter_row();
        let (cell, own) = self.own.split_first()?;
        if (self.number, cell.column) != pos {
            return None;
        }
        self.own = own;
        Some(&cell.val)
    }

    /// Takes the cells of this row, counted from 0, where they are the next ones.
    pub fn pass_row(&mut self, row: u32)
        ensures { placed_left self.new ≡ past_row row (placed_left self.old) }
    {
        self.enter_row();
        'rows: while self.number == row && !self.own.is_empty() {
            self.own = &[];
            self.enter_row();
        }
    }
}

impl<'a, T> Clone for PlacedCells<'a, T> {
    ghost use Rattle.std.specs.Prelude.{◌≡◌, ⊤};

    ghost is_clone = { λ cells copy. copy ≡ cells };

    ghost is_infallible = { λ _. ⊤ };

    fn clone(&self) -> Result<PlacedCells<'a, T>, AllocError> {
        Ok(*self)
    }
}

impl<'a, T> Copy for PlacedCells<'a, T> {}

impl<'a, T> Iterator for PlacedCells<'a, T> {
    ghost use Rattle.std.specs.Iterator.{YieldsFirstBy, item_count};
    ghost use Rattle.sorted_cells.specs.Placed.{placed_left, given_cell};

    type Item = ((u32, u32), &'a T);

    ghost next_gives = { YieldsFirstBy given_cell placed_left };

    ghost remaining = { item_count placed_left };

    fn next(&mut self) -> Option<Self::Item> {
        self.enter_row();
        let (cell, own) = self.own.split_first()?;
        self.own = own;
        Some(((self.number, cell.column), &cell.val))
    }
}
