ghost use Rattle.std.specs.Prelude.{IsTrue, length};
ghost use Rattle.sorted_cells.specs.Rows.{are_rows, first_of_rows, cells_by};
ghost use Rattle.cell_refs.specs.Words.{is_rising};

use crate::row::{ColumnCell, Row, columns_between, row_size};

/// The cells of an area with their positions, a row and a column counted from 0, row by row.
#[derive(Drop)]
pub struct AreaCells<'a, T> {
    number: u32,
    own: &'a [ColumnCell<T>],
    rows: &'a [Row],
    behind: &'a [ColumnCell<T>],
    first: u32,
    last: u32,
    ghost shared: { IsTrue (are_rows (first_of_rows rows.now) rows.now (length behind.now)) },
    ghost rising: { IsTrue (is_rising (cells_by rows.now behind.now)) },
}

impl<'a, T> AreaCells<'a, T> {
    ghost use Rattle.std.specs.Prelude.{◌≡◌, [], true, length};
    ghost use Rattle.sorted_cells.specs.Rows.{are_rows, first_of_rows, cells_by};
    ghost use Rattle.sorted_cells.specs.Area.{area_left, entries_between};
    ghost use Rattle.cell_refs.specs.Words.{is_rising};

    /// The cells of these rows whose columns lie between these, of which none was taken yet.
    pub(crate) fn new(
        rows: &'a [Row],
        cells: &'a [ColumnCell<T>],
        first: u32,
        last: u32,
    ) -> AreaCells<'a, T>
        requires shared { are_rows (first_of_rows rows.now) rows.now (length cells.now) ≡ true }
        requires rising { is_rising (cells_by rows.now cells.now) ≡ true }
        ensures { area_left result ≡ entries_between first last (cells_by rows.now cells.now) }
    {
        AreaCells {
            number: 0,
            own: &[],
            rows,
            behind: cells,
            first,
            last,
        }
    }

    /// Goes on to the next row with a cell between the columns, where all cells of the row were
    /// taken.
    fn enter_row(&mut self)
        ensures left { area_left self.new ≡ area_left self.old }
        ensures none { length self.new.own.now ≡ 0 → area_left self.new ≡ [] }
    {
        'rows: while self.own.is_empty() {
            let Some((row, rows)) = self.rows.split_first() else {
                return;
            };
            let (own, behind) = self.behind.split_at(row_size(row, rows, self.behind.len()));
            self.number = row.number;
            self.own = columns_between(own, self.first, self.last);
            self.rows = rows;
            self.behind = behind;
        }
    }
}

impl<'a, T> Iterator for AreaCells<'a, T> {
    ghost use Rattle.std.specs.Iterator.{YieldsFirstBy, item_count};
    ghost use Rattle.sorted_cells.specs.Placed.{given_cell};
    ghost use Rattle.sorted_cells.specs.Area.{area_left};

    type Item = ((u32, u32), &'a T);

    ghost next_gives = { YieldsFirstBy given_cell area_left };

    ghost remaining = { item_count area_left };

    fn next(&mut self) -> Option<Self::Item> {
        self.enter_row();
        let (cell, own) = self.own.split_first()?;
        self.own = own;
        Some(((self.number, cell.column), &cell.val))
    }
}
