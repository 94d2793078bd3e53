//! The formulas that cells write, those of shared groups among them (ECMA-376 part 1,
//! section 18.3.1.40).
//!
//! Rooms: `formula` (an `f`, and whose formula it writes), `shared_formulas` (the groups of a
//! sheet), `cell_formula` (a cell's formula, and its text), `covers` (the cells that have its
//! values), `metadata` (what a formula tells with none of a group written out), `equality` (`==`
//! and copies).
//!
//! **A formula is seen by those that stand before it in the sheet**, the latest first. `master_of`
//! looks back to the last master of an index, and `formula_of` is a formula's text by it. The code
//! keeps a map from indices to masters instead, and `AreMasters` says that the map has what looking
//! back finds, for any list of earlier formulas. So no clause speaks of a map, and no reader of the
//! definition needs to know of it. An index is a key of the map and no place in a list: no memory
//! goes by how large it is. A master is kept as a `CutFormula`, and a derived formula moved along
//! the places of its pieces.
//!
//! **A derived formula is its master, shared, and a position** (`CellFormula`), until its text is
//! asked for. So what it takes doesn't go by how long the master is. `text_of_formula` is its text,
//! and every clause speaks of that. It is empty exactly where the master's is, so that nothing is
//! written out to see whether there is one.
//!
//! Its lemma files: `Cells` (the formula of a cell is that of its last `f`, behind all that it
//! writes), `Groups` (what is kept of groups is kept of some formulas) and `Emptiness` (a moved
//! text is empty where it was).
#![tactic(auto)]

mod cell_formula;
mod covers;
mod equality;
mod formula;
mod metadata;
mod shared_formulas;

pub use cell_formula::CellFormula;
pub use covers::covered_area;
pub use equality::{copies_are_the_same, equality_is_by_all_fields};
pub use formula::{Formula, FormulaAttributes, covers_of, read_formula, share_of};
pub use metadata::{XlsxFormulaMetadata, metadata_of};
pub use shared_formulas::{Master, SharedFormulas};
