ghost use Rattle.std.specs.Prelude.{◌≡◌, IsTrue};
ghost use Rattle.cell_data.specs.Cells.{placed_cells};
ghost use Rattle.cell_refs.specs.Words.{is_rising, lie_inside, are_sheet_bounds, is_in_area};
ghost use Rattle.sorted_cells.specs.Words.{kept_cells};

use crate::area::{are_same, least_area};
use crate::cell::Cell;
use crate::gathered::gathered;
use crate::range_iterators::{Cells, Rows, UsedCells};
use cell_refs::{Dimensions, MAX_COLUMNS, MAX_ROWS};
use sorted_cells::{AreaCells, PlacedCells, SortedCells};
use std::alloc::{AllocError, Global};

/// An area of a sheet and its used cells, with a value that every other cell of the area has.
///
/// It takes memory by the number of its used cells, whatever its area.
#[derive(Drop)]
pub struct Range<T> {
    cells: SortedCells<T>,
    bounds: Option<Dimensions>,
    blank: T,
    ghost inside: { IsTrue (lie_inside bounds (kept_cells cells)) },
    ghost limits: { IsTrue (are_sheet_bounds bounds) },
}

/// Whether a position lies in the area with these first and last positions.
fn is_between(start: (u32, u32), end: (u32, u32), pos: (u32, u32)) -> bool
    ensures { result ≡ is_in_area (record { start = start; end = end }) pos }
{
    (start.0 <= pos.0 && pos.0 <= end.0) && (start.1 <= pos.1 && pos.1 <= end.1)
}

impl<T> Range<T> {
    ghost use Rattle.std.specs.Prelude.{◌≡◌, ◌+◌, ◌-◌, ◌<◌, is_none, IfOk, IfSome, All, true, ◌↔◌};
    ghost use Rattle.std.specs.Prelude.{IsTrue, length, ◌^◌, ◌/◌, ◌%◌, ◌≤◌};
    ghost use Rattle.cell_data.specs.Range.{IsLeast, cells_of, bounds_of, blank_of, width_of};
    ghost use Rattle.cell_data.specs.Range.{height_of, value_at, relative_value, start_of};
    ghost use Rattle.std.specs.FinMap.{find};
    ghost use Rattle.std.specs.Option.{option_map, option_copied, unwrap_or};
    ghost use Rattle.cell_data.specs.CellsLeft.{position_of};
    ghost use Rattle.cell_data.specs.RangeItems.{box_count, used_items, box_items, row_items};
    ghost use Rattle.cell_data.specs.RangeItems.{used_left, cells_left, rows_left};
    ghost use Rattle.std.specs.List.{filter};
    ghost use Rattle.cell_refs.specs.Words.{lie_from, position_cmp, last_of_each, least_area};
    ghost use Rattle.cell_refs.specs.Words.{is_in_bounds};
    ghost use Rattle.cell_data.specs.Cells.{IsInSheet, AreInSheet};
    ghost use Rattle.sorted_cells.specs.Words.{area_left, placed_left};

    /// The range of these cells: the last of them at each position, in the least area that has them
    /// all. Without a cell the range is empty.
    ///
    /// # Examples
    ///
    /// Two cells, as far apart as a worksheet has them:
    ///
    /// ```
    /// let ends = [Cell::new((0, 0), 1), Cell::new((1_048_575, 16_383), 2)];
    /// let range: Range<u8> = Range::from_sparse(alloc, Vec::from_array(alloc, ends)?, 0)?;
    /// assert!(rt; range.used_count() == 2);
    /// assert!(rt; range.used_cells().count() == 2);
    /// assert!(rt; range.get_size() == (1_048_576, 16_384));
    /// assert!(rt; range.get((1_048_575, 16_383)) == Some(&2));
    /// ```
    pub fn from_sparse(alloc: Global, cells: Vec<Cell<T>>, blank: T) -> Result<Range<T>, AllocError>
    where
        T: Drop,
        requires { All IsInSheet cells.items }
        ensures cells { IfOk result
            (λ range. cells_of range ≡ last_of_each (placed_cells cells.items)) }
        ensures bounds { IfOk result
            (λ range. bounds_of range ≡ least_area (placed_cells cells.items)) }
        ensures blank { IfOk result (λ range. blank_of range ≡ blank) }
    {
        let cells = gathered(alloc, cells)?.into_sorted(alloc)?;
        let bounds = least_area(&cells);
        Ok(Range::in_area(cells, bounds, blank))
    }

    /// The range of these cells in an area that has them all, on a sheet.
    pub fn in_area(cells: SortedCells<T>, bounds: Option<Dimensions>, blank: T) -> Range<T>
        requires inside { lie_inside bounds (kept_cells cells) ≡ true }
        requires sheet { are_sheet_bounds bounds ≡ true }
        ensures cells { cells_of result ≡ kept_cells cells }
        ensures bounds { bounds_of result ≡ bounds }
        ensures blank { blank_of result ≡ blank }
    {
        Range {
            cells,
            bounds,
            blank,
        }
    }

    /// The first row and the first column, counted from 0, or none where there is no cell.
    pub fn start(&self) -> Option<(u32, u32)>
        ensures { result ≡ option_map (λ area. area.start) (bounds_of self.now) }
    {
        self.bounds.map(|area| area.start)
    }

    /// The last row and the last column, counted from 0, or none where there is no cell.
    pub fn end(&self) -> Option<(u32, u32)>
        ensures { result ≡ option_map (λ area. area.end) (bounds_of self.now) }
    {
        self.bounds.map(|area| area.end)
    }

    /// The area, on a sheet, or none where there is no cell.
    pub fn bounds(&self) -> Option<Dimensions>
        ensures value { result ≡ bounds_of self.now }
        ensures rows { IfSome result
            (λ area. (area.start.0 ≤ area.end.0) × (area.end.0 < MAX_ROWS)) }
        ensures columns { IfSome result
            (λ area. (area.start.1 ≤ area.end.1) × (area.end.1 < MAX_COLUMNS)) }
    {
        self.bounds
    }

    /// Whether the area is the least one that has all used cells. It takes no memory.
    pub fn is_least(&self) -> bool
        ensures { IsTrue result ↔ IsLeast self.now }
    {
        are_same(self.bounds, least_area(&self.cells))
    }

    /// The value that every cell of the area has that is not a used one.
    pub fn blank(&self) -> &T
        ensures { result.now ≡ blank_of self.now }
    {
        &self.blank
    }

    /// Whether the range has no area.
    pub fn is_empty(&self) -> bool
        ensures { result ≡ is_none (bounds_of self.now) }
    {
        self.bounds.is_none()
    }

    /// How many columns the area has.
    pub fn width(&self) -> usize
        ensures { result ≡ width_of (bounds_of self.now) }
    {
        match self.bounds {
            Some(area) => (area.end.1 - area.start.1) as usize + 1,
            None => 0,
        }
    }

    /// How many rows the area has.
    pub fn height(&self) -> usize
        ensures { result ≡ height_of (bounds_of self.now) }
    {
        match self.bounds {
            Some(area) => (area.end.0 - area.start.0) as usize + 1,
            None => 0,
        }
    }

    /// How many rows and how many columns the area has.
    pub fn get_size(&self) -> (usize, usize)
        ensures { result ≡ (height_of (bounds_of self.now), width_of (bounds_of self.now)) }
    {
        (self.height(), self.width())
    }

    fn is_inside(&self, pos: (u32, u32)) -> bool
        ensures { result ≡ is_in_bounds (bounds_of self.now) pos }
    {
        match self.bounds {
            Some(Dimensions { start, end }) => is_between(start, end, pos),
            None => false,
        }
    }

    /// The value of the used cell at a row and a column, counted from 0 on the sheet; none where
    /// there is no such cell.
    pub fn used_value(&self, pos: (u32, u32)) -> Option<&T>
        ensures { option_copied result ≡ find position_cmp pos (cells_of self.now) }
    {
        self.cells.get(pos)
    }

    /// The value of the cell at a position, or else the blank.
    fn value_or_blank(&self, pos: (u32, u32)) -> &T
        ensures { result.now ≡
            unwrap_or (find position_cmp pos (cells_of self.now)) (blank_of self.now) }
    {
        self.used_value(pos).unwrap_or(&self.blank)
    }

    /// The value at a row and a column, counted from 0 on the sheet; none outside the area.
    ///
    /// # Examples
    ///
    /// Of A2 with 1 and B4 with 2, the value of B4, and none of A1, which lies outside their area:
    ///
    /// ```
    /// assert!(rt; range.get_value((3, 1)) == Some(&2));
    /// assert!(rt; range.get_value((0, 0)) == None);
    /// ```
    pub fn get_value(&self, pos: (u32, u32)) -> Option<&T>
        ensures { option_copied result ≡ value_at self.now pos }
    {
        if !self.is_inside(pos) {
            return None;
        }
        Some(self.value_or_blank(pos))
    }

    /// The position on the sheet of a row and a column, counted from the first ones of the area.
    pub(crate) fn position_of(&self, place: (usize, usize)) -> (u32, u32)
        requires row { place.0 < height_of (bounds_of self.now) }
        requires column { place.1 < width_of (bounds_of self.now) }
        ensures { result ≡ position_of (bounds_of self.now) place }
    {
        let (row, column) = self.start().unwrap();
        (row + place.0 as u32, column + place.1 as u32)
    }

    /// The position on the sheet of the first column of a row, counted from the first one of the
    /// area.
    pub(crate) fn row_start(&self, row: usize) -> (u32, u32)
        requires { row < height_of (bounds_of self.now) }
        ensures { result ≡ position_of (bounds_of self.now) (row, 0) }
    {
        let (first, column) = self.start().unwrap();
        (first + row as u32, column)
    }

    /// The value at a row and a column, counted from the first ones of the area; none outside it.
    pub fn get(&self, pos: (usize, usize)) -> Option<&T>
        ensures { option_copied result ≡ relative_value self.now pos }
    {
        if pos.0 >= self.height() || pos.1 >= self.width() {
            return None;
        }
        Some(self.value_or_blank(self.position_of(pos)))
    }

    /// The used cells with their positions on the sheet, a row and a column counted from 0, row by
    /// row.
    pub fn used(&self) -> PlacedCells<'_, T>
        ensures cells { placed_left result ≡ cells_of self.now }
        ensures rising { is_rising (cells_of self.now) ≡ true }
        ensures fits { length (cells_of self.now) < 2 ^ 64 }
        ensures sheet { AreInSheet (cells_of self.now) }
        ensures from { IsTrue (lie_from (start_of (bounds_of self.now)) (cells_of self.now)) }
        ensures inside { IsTrue (lie_inside (bounds_of self.now) (cells_of self.now)) }
    {
        self.cells.iter()
    }

    /// The used cells between a first and a last position of the sheet, each a row and a column
    /// counted from 0, with their positions, row by row. They are found by halving.
    pub fn used_in(&self, start: (u32, u32), end: (u32, u32)) -> AreaCells<'_, T>
        ensures { area_left result ≡ filter
            (λ cell. is_in_area (record { start = start; end = end }) cell.0)
            (cells_of self.now) }
    {
        self.cells.cells_in(start, end)
    }

    /// How many used cells there are.
    pub fn used_count(&self) -> usize
        ensures { result ≡ length (cells_of self.now) }
    {
        self.cells.len()
    }

    /// How many cells the area has.
    pub fn cell_count(&self) -> usize
        ensures { result ≡ box_count self.now }
    {
        self.height() * self.width()
    }

    /// The row and the column of the cell with this number, counted row by row.
    pub(crate) fn place_of(&self, cell: usize) -> (usize, usize)
        requires { cell < box_count self.now }
        ensures row { result.0 ≡ cell / width_of (bounds_of self.now) }
        ensures column { result.1 ≡ cell % width_of (bounds_of self.now) }
        ensures in_rows { result.0 < height_of (bounds_of self.now) }
        ensures in_columns { result.1 < width_of (bounds_of self.now) }
    {
        let width = self.width();
        (cell / width, cell % width)
    }

    /// The used cells: their row and column, counted from the first ones of the area, and their
    /// value, row by row.
    ///
    /// # Examples
    ///
    /// Of J1 with 4 and F6 with 3, in the area from F1 to J6:
    ///
    /// ```
    /// for (row, column, value) in range.used_cells() {
    ///     write!(out, "{row} {column} {value};")?;
    /// }
    /// assert_text(&out, "0 4 4;5 0 3;", "used cells")?;
    /// ```
    pub fn used_cells(&self) -> UsedCells<'_, T>
        ensures cells { used_left result ≡ used_items self.now }
        ensures fits { length (used_items self.now) < 2 ^ 64 }
    {
        UsedCells::new(self)
    }

    /// All cells of the area: their row and column, counted from the first ones, and their value,
    /// row by row.
    pub fn cells(&self) -> Cells<'_, T>
        ensures { cells_left result ≡ box_items self.now }
    {
        Cells::new(self)
    }

    /// The rows of the area, with the values of all their cells.
    ///
    /// # Examples
    ///
    /// Of A2 with 1 and B4 with 2, else 0, these are ` 1 0; 0 0; 0 2;`:
    ///
    /// ```
    /// for row in range.rows() {
    ///     for value in row {
    ///         write!(out, " {value}")?;
    ///     }
    ///     write!(out, ";")?;
    /// }
    /// ```
    pub fn rows(&self) -> Rows<'_, T>
        ensures { rows_left result ≡ row_items self.now }
    {
        Rows::new(self)
    }

    /// The same cells in another area, with the blank in its other places. Cells outside it are
    /// dropped. It takes no memory.
    pub fn range(self, start: (u32, u32), end: (u32, u32)) -> Range<T>
    where
        T: Drop,
        requires rows { start.0 ≤ end.0 }
        requires columns { start.1 ≤ end.1 }
        requires in_rows { end.0 < MAX_ROWS }
        requires in_columns { end.1 < MAX_COLUMNS }
        ensures cells { cells_of result ≡ filter
            (λ cell. is_in_area (record { start = start; end = end }) cell.0) (cells_of self) }
        ensures bounds { bounds_of result ≡ Some (record { start = start; end = end }) }
        ensures blank { blank_of result ≡ blank_of self }
    {
        let Range { cells, blank, .. } = self;
        Range {
            cells: cells.keep_area(start, end),
            bounds: Some(Dimensions { start, end }),
            blank,
        }
    }
}
