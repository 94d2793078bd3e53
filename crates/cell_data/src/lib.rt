//! What the cells of a workbook hold: values, number formats, ranges.
//!
//! Rooms: `format` (number formats), `value` (`Data`, `DataRef` and what they hold, `HeaderRow`),
//! `equality` (what their `==`, a copy and a default are), `cell`, `gathered` (cells as they come,
//! and then in order), `area` (the least area of cells), `range` (`Range`), `range_iterators`,
//! `steps` (`earlier`), `table` (`Table`).
//!
//! **Cells are gathered, and then in order.** `GatheredCells` has sorted cells and a list beside
//! them. A cell that comes behind the last sorted one is put there at once. From the first on that
//! doesn't, cells wait in the list, as they came. At the end, if any wait, all cells go through an
//! ordered map, which keeps the last of each position; if none does, the cells stay where they are,
//! and no memory is asked for. Contracts see one list, in the order in which the cells came
//! (`cells_gathered`), and then the last cell of each position (`last_of_each`).
//!
//! **A range is sorted cells, an area that has them all, and a blank.** `Range::from_sparse`
//! gathers a list and takes the least area (`least_area`); `Range::in_area` takes sorted cells and
//! any area of a sheet that has them. `range` cuts another area out of the cells where they lie
//! (`keep_area`), and takes no memory. `cells_of` is what the sorted cells say (`kept_cells`), so
//! that no clause of a range speaks of how they are kept.
//!
//! A value is found by halving (`used_value`). `used` and `used_cells` go along the cells, and so
//! do `cells` and `rows`: at a place the cells left are those of the range that stand there or
//! behind it (`AreLeftAt`), so the first of them has the value, or the blank has it. A row takes a
//! copy of where `rows` stands, and `rows` passes its cells at once. What goes through several
//! lists steps along `used` by `next_at`, from the earliest of their next positions (`earlier`),
//! and looks none up.
//!
//! Its lemma files: `Areas` and `LeastAreas` (the areas of cells), `Placing` and `Passing` (the
//! last of each position, also among those that pass a test), `Splitting` (a step through cells in
//! order), `Stepping` (one through several lists of them) and `CellSteps` (which cells are left a
//! column and a row further).
#![tactic(auto)]

mod area;
mod cell;
mod equality;
mod format;
mod gathered;
mod range;
mod range_iterators;
mod steps;
mod table;
mod value;

pub use area::least_area;
pub use cell::Cell;
pub use decimals::Decimal;
pub use equality::{
    cells_are_equal_by_both_fields, copies_are_the_same, equality_is_by_all_fields,
    the_first_row_with_a_value_is_the_default,
};
pub use format::{
    CellFormat, builtin_format_by_id, builtin_format_code_by_id, detect_custom_number_format,
};
pub use gathered::GatheredCells;
pub use range::Range;
pub use range_iterators::{Cells, RowCells, Rows, UsedCells};
pub use steps::earlier;
pub use table::Table;
pub use value::{
    CellErrorType, Data, DataRef, ExcelDateTime, ExcelDateTimeType, HeaderRow, UnknownCellError,
};
