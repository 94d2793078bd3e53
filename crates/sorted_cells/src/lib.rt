//! Cells of a worksheet in the order of positions, kept by rows.
//!
//! A position is a pair of a row and a column, each counted from 0, as in `(0, 2)` for `C1`.
//!
//! Rooms: `sorted` (`SortedCells`), `row` (a row, a cell of it, and what is asked of lists of
//! these), `placed_cells`, `area_cells` and `owned_cells` (the iterators, over cells that are lent,
//! those of them that lie in an area, and cells that are handed out), `keeping` (the rows and the
//! cells of an area). `cell_data` stands on it, and `sheet_listing` and `xlsx_core` do by
//! themselves, too.
//!
//! **The number of a row is kept once.** One list has the rows, each with its number and the place
//! of its first cell, and another the columns and the values of all cells. The rows share the
//! cells, each of them has one, and their numbers rise; contracts see none of this, but one list of
//! cells with their positions (`kept_cells`). A cell is put behind the others alone, and room for
//! it is asked for before its row is begun, so that a refusal leaves no row without a cell. A value
//! is found by halving over the rows, and then over the columns of one. An area is cut where the
//! cells lie: the rows behind it and before it go, what is left is counted anew row by row, and the
//! cells go last.
//!
//! **Who goes along the cells searches nothing.** `PlacedCells` stands in both lists, at the next
//! cell, and contracts see the cells that are left (`placed_left`). `next_position` tells where the
//! next one stands, `next_at` takes it if it stands at a position, and `pass_row` passes those of a
//! row at once. It is `Copy`, so that one way begins where another stands. `OwnedCells` hands each
//! cell out. `AreaCells` gives the cells of an area: its rows are found by halving once, and in
//! each of them its columns by halving twice, so that a long row is not walked for a few of its
//! columns.
//!
//! Its lemma files for the crates above: `Rising` (what is known of all sorted cells), `Handing`
//! (how they are handed out), `Orders` and `Finding` (entries in the order of their keys, and what
//! a search finds among them).
#![tactic(auto)]

mod area_cells;
mod equality;
mod keeping;
mod owned_cells;
mod placed_cells;
mod row;
mod sorted;

pub use area_cells::AreaCells;
pub use equality::copies_are_the_same;
pub use owned_cells::OwnedCells;
pub use placed_cells::PlacedCells;
pub use sorted::SortedCells;
