ghost use Rattle.std.specs.Prelude.{◌≡◌, ◌+◌, ◌<◌, ◌/◌, ◌%◌, IsTrue};
ghost use Rattle.std.specs.FinMap.{find};
ghost use Rattle.std.specs.Option.{unwrap_or};
ghost use Rattle.cell_refs.specs.Words.{position_cmp, lie_from};
ghost use Rattle.cell_data.specs.CellsLeft.{AreLeftFrom, AreLeftAt, position_of};
ghost use Rattle.cell_data.specs.Range.{cells_of, bounds_of, blank_of, width_of};
ghost use Rattle.sorted_cells.specs.Words.{placed_left};

use crate::range::Range;
use sorted_cells::PlacedCells;

/// Takes the value at a position from the cells of a range that are left from there on.
fn take_value<'a, T>(range: &'a Range<T>, left: &mut PlacedCells<'a, T>, pos: (u32, u32)) -> &'a T
    requires { AreLeftFrom (bounds_of range.now) pos (cells_of range.now) (placed_left left.old) }
    ensures value { result.now
        ≡ unwrap_or (find position_cmp pos (cells_of range.now)) (blank_of range.now) }
    ensures left { AreLeftFrom (bounds_of range.now) (pos.0, pos.1 + 1) (cells_of range.now)
        (placed_left left.new) }
{
    left.next_at(pos).unwrap_or(range.blank())
}

/// The used cells of a range, row by row: the row and the column, counted from the first ones of
/// the area, and the value.
#[derive(Drop)]
pub struct UsedCells<'a, T> {
    left: PlacedCells<'a, T>,
    start: (u32, u32),
    ghost behind: { IsTrue (lie_from start (placed_left left)) },
}

impl<'a, T> UsedCells<'a, T> {
    ghost use Rattle.std.specs.Prelude.{◌^◌, length};
    ghost use Rattle.cell_data.specs.RangeItems.{used_left, used_items};

    /// The used cells of this range, of which none was taken yet.
    pub fn new(range: &'a Range<T>) -> UsedCells<'a, T>
        ensures cells { used_left result ≡ used_items range.now }
        ensures fits { length (used_items range.now) < 2 ^ 64 }
    {
        UsedCells {
            left: range.used(),
            start: range.start().unwrap_or((0, 0)),
        }
    }
}

impl<'a, T> Iterator for UsedCells<'a, T> {
    ghost use Rattle.std.specs.Iterator.{YieldsFirstBy, item_count};
    ghost use Rattle.cell_data.specs.RangeItems.{used_left, given_item};

    type Item = (usize, usize, &'a T);

    ghost next_gives = { YieldsFirstBy given_item used_left };

    ghost remaining = { item_count used_left };

    fn next(&mut self) -> Option<Self::Item> {
        let (pos, val) = self.left.next()?;
        let row = pos.0 - self.start.0;
        let column = pos.1 - self.start.1;
        Some((row as usize, column as usize, val))
    }
}

/// All cells of the area of a range, row by row: the row and the column, counted from the first
/// ones of the area, and the value.
#[derive(Drop)]
pub struct Cells<'a, T> {
    left: PlacedCells<'a, T>,
    range: &'a Range<T>,
    next: usize,
    ghost from: { AreLeftAt range.now
        (next / width_of (bounds_of range.now), next % width_of (bounds_of range.now))
        (placed_left left) },
}

impl<'a, T> Cells<'a, T> {
    ghost use Rattle.cell_data.specs.RangeItems.{cells_left, box_items};

    /// The cells of this range's area, of which none was taken yet.
    pub fn new(range: &'a Range<T>) -> Cells<'a, T>
        ensures { cells_left result ≡ box_items range.now }
    {
        Cells {
            left: range.used(),
            range,
            next: 0,
        }
    }
}

impl<'a, T> Iterator for Cells<'a, T> {
    ghost use Rattle.std.specs.Iterator.{YieldsFirstBy, item_count};
    ghost use Rattle.cell_data.specs.RangeItems.{cells_left, given_item};

    type Item = (usize, usize, &'a T);

    ghost next_gives = { YieldsFirstBy given_item cells_left };

    ghost remaining = { item_count cells_left };

    fn next(&mut self) -> Option<Self::Item> {
        if self.next >= self.range.cell_count() {
            return None;
        }
        let (row, column) = self.range.place_of(self.next);
        let pos = self.range.position_of((row, column));
        let val = take_value(self.range, &mut self.left, pos);
        self.next += 1;
        Some((row, column, val))
    }
}

/// The values of one row of the area of a range, from the first column to the last.
#[derive(Drop)]
pub struct RowCells<'a, T> {
    left: PlacedCells<'a, T>,
    range: &'a Range<T>,
    row: usize,
    next: usize,
    width: usize,
    pos: (u32, u32),
    ghost columns: { width ≡ width_of (bounds_of range.now) },
    ghost place: { pos ≡ position_of (bounds_of range.now) (row, next) },
    ghost from: { AreLeftAt range.now (row, next) (placed_left left) },
}

impl<'a, T> Iterator for RowCells<'a, T> {
    ghost use Rattle.std.specs.Iterator.{YieldsFirstRef, item_count};
    ghost use Rattle.cell_data.specs.RangeItems.{row_left};

    type Item = &'a T;

    ghost next_gives = { YieldsFirstRef row_left };

    ghost remaining = { item_count row_left };

    fn next(&mut self) -> Option<Self::Item> {
        if self.next >= self.width {
            return None;
        }
        let val = take_value(self.range, &mut self.left, self.pos);
        self.next += 1;
        self.pos.1 += 1;
        Some(val)
    }
}

/// The rows of the area of a range, from the first to the last.
#[derive(Drop)]
pub struct Rows<'a, T> {
    left: PlacedCells<'a, T>,
    range: &'a Range<T>,
    next: usize,
    ghost from: { AreLeftAt range.now (next, 0) (placed_left left) },
}

impl<'a, T> Rows<'a, T> {
    ghost use Rattle.cell_data.specs.RangeItems.{rows_left, row_items};

    /// The rows of this range's area, of which none was taken yet.
    pub fn new(range: &'a Range<T>) -> Rows<'a, T>
        ensures { rows_left result ≡ row_items range.now }
    {
        Rows {
            left: range.used(),
            range,
            next: 0,
        }
    }
}

impl<'a, T> Iterator for Rows<'a, T> {
    ghost use Rattle.std.specs.Iterator.{YieldsFirstBy, item_count};
    ghost use Rattle.cell_data.specs.RangeItems.{rows_left, row_left};

    type Item = RowCells<'a, T>;

    ghost next_gives = { YieldsFirstBy row_left rows_left };

    ghost remaining = { item_count rows_left };

    fn next(&mut self) -> Option<Self::Item> {
        if self.next >= self.range.height() {
            return None;
        }
        let row = self.next;
        let pos = self.range.row_start(row);
        let left = self.left;
        self.left.pass_row(pos.0);
        self.next += 1;
        Some(RowCells {
            left,
            range: self.range,
            row,
            next: 0,
            width: self.range.width(),
            pos,
        })
    }
}
