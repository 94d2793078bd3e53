//! Pivot tables: which ones the sheets have, and where their caches lie (ECMA-376 part 1, section
//! 18.10).
//!
//! Rooms: `single` (what a pivot table has exactly one of), `pivot_parts` (the name in its part),
//! `targets` (where its definitions and their records lie), `pivots` (those of sheets),
//! `pivot_tables` and `names` (what is kept, and the iterators over its names), `laws`.
//!
//! **A name, definitions and records are each said as none or one** (`name_said`,
//! `single_target_in`), and needed: a second one is a refusal of its start, and none is told of
//! what was read to its end (`TellsLack`). So a part that ends in its section is refused for its
//! end, and never for what it lacks. The walk that keeps one text is the same for all three
//! (`single_kept_by`).
//!
//! Its lemma file `PivotsRead` says which refusals of the layers below are refusals of pivot tables.
#![tactic(auto)]

mod laws;
mod names;
mod pivot_parts;
mod pivot_tables;
mod pivots;
mod single;
mod targets;

pub use laws::pivots_have_no_cause_of_a_refusal;
pub use names::{PivotNames, PivotNamesInSheet};
pub use pivot_tables::PivotTables;
pub use pivots::{find_pivot_tables, read_sheet_pivots};
