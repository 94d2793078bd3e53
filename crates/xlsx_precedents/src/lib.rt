//! What formulas name: the areas of a formula, and the cells whose formulas name a cell.
//!
//! Rooms: `areas` (the areas of one formula), `named_areas` (all areas, and the cell of each),
//! `spans` (all areas by their rows), `index` (`DependencyIndex`), `lines` (what is printed of both
//! questions), `laws` (the areas of a moved text).
//!
//! A formula is cut once, and no list of its pieces is kept: beside a piece stand the last byte of
//! the one before and the first of the text behind, which decide whether it names a cell of its own
//! sheet.
//!
//! **An index is seen as a list** of each used cell with its areas, row by row. It keeps all areas
//! in one list, the cell of each beside it, and for each cell where its areas begin and end, so
//! that `precedents` is a slice.
//!
//! Beside them the areas stand by their first rows, each with its number. The area in the middle of
//! a stretch keeps the greatest last row of the stretch, and so down. A search goes into a stretch
//! only where that is not above the row that is asked for, and to the right of a middle only where
//! it begins at the row or above: of stretches that begin by the row it sees none in vain, and of
//! others one a halving. What it finds is sorted by the numbers of the areas, so it comes cell by
//! cell, and a cell that came last isn't put again.
//!
//! A look at a middle is the only one that a search has, and ticks; `dependents` is
//! `dependents_counted` with a counter that takes no bytes. The bound speaks of the areas, and of
//! no list that is kept: how many there are, and how many have cells of the row.
//!
//! Its lemma file for the crates above is `Standing`: where the cells of formulas stand in a
//! worksheet, so do the dependents.
#![tactic(auto)]

mod areas;
mod index;
mod laws;
mod lines;
mod named_areas;
mod spans;

pub use areas::areas_of;
pub use counted_steps::Steps;
pub use index::DependencyIndex;
pub use laws::areas_of_a_shifted_text_are_shifted;
pub use lines::{push_dependents, push_precedents};
