//! The cells of a worksheet, read as its part's events come.
//!
//! Rooms: `head` (what stands before a sheet's data), `counters` (rows and columns), `finding` (the
//! next cell), `children` (what stands in a cell), `cell_read` (a cell, whole), `sheet_cursor`
//! (what is kept of the data), `sheet_cells` (all cells), `styled_cells` (all values with their
//! style ids), `covered_cells` (all formulas with the areas that they cover).
//!
//! **Marks.** Of a sheet's data only cells count, and the starts and ends of rows outside them.
//! `marks` cuts the events of the data into these, and what a sheet says is said over marks: which
//! values (`values_in`), and which formulas (`formulas_written`, `formulas_along`).
//!
//! **Looking back.** The position of a cell without a reference depends on all that stands before
//! it. It is said by looking back over the marks: to the last row that has a number, to the last
//! cell that has a reference, to the last end of a row (`row_counter`, `column_counter`). The code
//! has two counters in its place, and `AreKept` says that they are what looking back finds, up to
//! the limits of a sheet.
//!
//! **What is said of a step holds behind anything.** `SheetCursor::next` is told for every list of
//! marks and every list of formulas behind which reading stands (`StandsBehind`), in place of
//! keeping these lists as ghosts. At the start of the data both are empty, and each step says
//! behind which lists it leaves reading. So a step is a fact by itself, and a loop over steps gives
//! the whole by one induction.
//!
//! **One pass for what is wanted.** `Wants` says which of values, formulas and style ids are read.
//! What isn't wanted is skipped, refuses nothing, and its clauses have as premise that it was
//! wanted. Where neither values nor formulas are, a cell is skipped whole, and its start is looked
//! up for `s` alone.
//!
//! **One step for all calls.** A step reads the last formula of a cell as it is written, and a
//! switch says whether the formulas of groups are kept (`keeps_masters`). Which formula that is in
//! the cell is told by the masters behind it (`next_with_formula`), and its text is made by whoever
//! wants text (`next_text`); both are seen as one cell (`WrittenCell`). What a formula tells with
//! none written out needs no masters. What any of the ten calls does, whatever it takes, is one
//! record (`TakesStep`), and what it takes of a cell one definition with the call's fact as its
//! argument (`TakesNext`), so that mixing calls is said by each call's clause alone: where one
//! leaves reading is what the next asks for.
//!
//! **Style ids.** `SheetCursor::next_styled` is a loop over `next` with style ids alone, up to the
//! next id that counts; what it passes are rows and unstyled cells (`IsUnstyled`). `collect` keeps
//! the ids that count beside values and formulas. Which style of a position stands is no matter
//! here: the range of styles takes the first.
//!
//! **Cells are gathered.** Values and formulas go into `GatheredCells` as they come, by rows from
//! the start on, so that of cells in the order of their positions no list with positions is made.
//! Contracts see them in the order in which they came (`cells_gathered`).
//!
//! **Why data are refused** is the same for all of it (`DataCause`): the nesting breaks, the part
//! ends, or a mark is refused by the marks before it, where all rows before it and the positions of
//! all cells before it could be read (`IsMarkRefused`). A single step narrows it to the marks that
//! it takes.
//!
//! The lemmas `SoundSheet` says that a sound sheet has no cause of either.
//!
//! - A `SheetCursor` knows whether the data have ended and whether a call was refused.
//! `cells_reader` is `XlsxCellReader`, which holds one beside the reader of the part that it is
//! lent: the public way to take cells one by one. `cell_records` has what its calls answer.
#![tactic(auto)]

mod cell_read;
mod cell_records;
mod cells_reader;
mod children;
mod counters;
mod covered_cells;
mod equality;
mod finding;
mod head;
mod laws;
mod sheet_cells;
mod sheet_cursor;
mod styled_cells;

pub use cell_read::{CellRead, CellText, CellWithFormula};
pub use cell_records::{XlsxCellFormula, XlsxCellFormulaMetadataRecord};
pub use cells_reader::XlsxCellReader;
pub use children::{Asked, Wants};
pub use covered_cells::{CoveredFormula, collect_covered};
pub use equality::{copies_are_the_same, equality_is_by_all_fields};
pub use head::enter_data;
pub use laws::readings_have_the_same_values;
pub use sheet_cells::{SheetCells, collect};
pub use sheet_cursor::{SheetCursor, open_data};
pub use styled_cells::{StyledValue, collect_styled};
