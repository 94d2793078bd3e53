//! What is written of a sheet reads back: laws over the definitions of the writer and of the
//! reading, which meet in nothing else. It has no code, and no law speaks of a step of any.
//!
//! Rooms: `groups` (formulas that are written in groups), `data` (what the cells of a written sheet
//! say, each wherever it stands) and `packages` (a written package reads as its values and its
//! formulas).
//!
//! The lemmas of proofs/ go piece by piece, and each needs only what stands before it. *Groups*:
//! `GroupHeads` (a formula is its head's, moved), `GroupIndices` (an index belongs to one group),
//! `PlacedAmong` and `WrittenPositions` (what stands at the positions that are written is all
//! there is), `GroupsRead` (along the positions a derived formula finds the master of its group).
//! *Cells*: `CellPairs` and `WrittenBytes` (attributes and bytes), `ValuesRead` (a value by its
//! kind), `FormulaTexts` (a formula by its sharing), `CellsRead` (a cell, whatever stands before
//! it). *Data*: `DataRead` (what each cell gives by itself is what the data give), `SheetBounds`
//! (what lies on a sheet, and fits), `SheetRead`, `ValuesPlaced`. *The sheet's part*:
//! `SheetPartRead`, `SheetHeld`. *The package*: `RootsRead`, `PackageRead`, `DerivedWritten`
//! (which formulas of the sheet's part are derived ones), `WorkbookRead`, `StylesRead`,
//! `SharedRead`, and with the values that are writable (`CellsValued`) and what
//! ranges keep (`RangesPlaced`) all of it (`WholeRead`).
#![tactic(auto)]

mod data;
mod groups;
mod packages;

pub use data::written_cells_say_what_was_written;
pub use groups::{derived_formulas_have_another_head, groups_read_back};
pub use packages::written_packages_read_back;
