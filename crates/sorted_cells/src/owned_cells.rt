ghost use Rattle.std.specs.Prelude.{IsTrue, ◌≡◌, ◌≤◌, ◌++◌, length, drop, reverse, IsNone};
ghost use Rattle.std.specs.Option.{option_to_list};
ghost use Rattle.sorted_cells.specs.Rows.{are_rows, first_of_rows};

use crate::row::{ColumnCell, Row, row_size};
/// After so many cells the memory of those that were handed out is given back.
const GIVEN_BACK: usize = 4_096;

/// Cells with their positions, a row and a column counted from 0, row by row, each handed out.
///
/// The cells that are left stand with the last one first, so that the next one leaves at the end,
/// and the memory behind it can be given back while whoever takes the cells keeps them anew.
#[derive(Drop)]
pub struct OwnedCells<T> {
    number: u32,
    own: usize,
    rows: Vec<Row>,
    entered: usize,
    cells: Vec<ColumnCell<T>>,
    ghost within: { own ≤ length (reverse cells.items) },
    ghost behind: { entered ≤ length rows.items },
    ghost shared: { IsTrue (are_rows (first_of_rows (drop entered rows.items))
        (drop entered rows.items) (length (drop own (reverse cells.items)))) },
}

impl<T> OwnedCells<T> {
    ghost use Rattle.std.specs.Prelude.{[], true};
    ghost use Rattle.sorted_cells.specs.Rows.{are_rows, cells_by};
    ghost use Rattle.sorted_cells.specs.Owned.{owned_left};

    /// The cells of these rows, of which none was taken yet.
    pub(crate) fn new(rows: Vec<Row>, cells: Vec<ColumnCell<T>>) -> OwnedCells<T>
        requires { are_rows 0 rows.items (length cells.items) ≡ true }
        ensures { owned_left result ≡ cells_by rows.items cells.items }
    {
        let mut cells = cells;
        cells.reverse();
        OwnedCells {
            number: 0,
            own: 0,
            rows,
            entered: 0,
            cells,
        }
    }

    /// Goes on to the next row, where all cells of the row were taken.
    fn enter_row(&mut self)
        ensures left { owned_left self.new ≡ owned_left self.old }
        ensures none { self.new.own ≡ 0 → owned_left self.new ≡ [] }
    {
        if self.own > 0 {
            return;
        }
        let (_, rows) = self.rows.split_at(self.entered);
        let Some((row, behind)) = rows.split_first() else {
            return;
        };
        let own = row_size(row, behind, self.cells.len());
        self.number = row.number;
        self.own = own;
        self.entered += 1;
    }
}

/// Takes the last cell, if there is one, and gives memory back now and then.
#[tactic(auto, using(crate::proofs::Handing::none_left))]
fn take_last<T>(cells: &mut Vec<ColumnCell<T>>) -> Option<ColumnCell<T>>
    ensures left { reverse cells.old.items ≡ option_to_list result ++ reverse cells.new.items }
    ensures none { IsNone result → length (reverse cells.old.items) ≡ 0 }
{
    let last = cells.pop();
    if cells.len() % GIVEN_BACK == 0 {
        cells.shrink_to_fit();
    }
    last
}

impl<T: Drop> Iterator for OwnedCells<T> {
    ghost use Rattle.std.specs.Iterator.{YieldsFirst, item_count};
    ghost use Rattle.sorted_cells.specs.Owned.{owned_left};

    type Item = ((u32, u32), T);

    ghost next_gives = { YieldsFirst owned_left };

    ghost remaining = { item_count owned_left };

    fn next(&mut self) -> Option<Self::Item> {
        self.enter_row();
        if self.own == 0 {
            return None;
        }
        let cell = take_last(&mut self.cells)?;
        self.own -= 1;
        Some(((self.number, cell.column), cell.val))
    }
}
