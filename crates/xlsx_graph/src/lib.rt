//! What the formulas of a workbook name: areas on its sheets, and the words that are left open.
//!
//! Rooms: `named` (areas, open words, cells), `findings` (what is found, within limits), `word`
//! (texts of open words), `before` (what stands before an item), `range` (two areas around a
//! colon), `reader` (how a text is read), `sheets` (the sheets of a place), `functions` (names of
//! functions), `meaning` (what a mention means), `naming` (all that a text names), `naming_laws`
//! (what holds of all that is named), `workbook_graph` (all formulas of a workbook), `leaves`
//! (their order along a tree), `hulls` (what the forks of a tree cover), `tree`, `links` (what
//! formulas need, by way of a tree), `graph_laws` (what holds of all graphs), `reference` (places
//! as texts), `graph_lines`, `order_marks` (marks of formulas in an order), `order_lines` (what is
//! printed), `equality`, `error`.
//!
//! A text is read once, from the left, and that of a defined name as often as it is named, one
//! level of calls for each name within another. What is found is counted as it is appended, so a
//! formula whose names double is refused as soon as there is no room.
#![tactic(auto)]

mod before;
mod equality;
mod error;
mod findings;
mod functions;
mod graph_laws;
mod graph_lines;
mod hulls;
mod leaves;
mod links;
mod meaning;
mod named;
mod naming;
mod naming_laws;
mod order_lines;
mod order_marks;
mod range;
mod reader;
mod reference;
mod sheets;
mod tree;
mod word;
mod workbook_graph;

pub use equality::copies_are_the_same;
pub use error::NamingError;
pub use findings::Findings;
pub use graph_laws::{formulas_are_refused_together, needed_are_within};
pub use graph_lines::push_graph;
pub use named::{BookArea, Cause, OpenWord, Standing};
pub use naming::push_named;
pub use naming_laws::formulas_without_names_ask_for_none;
pub use order_lines::{push_cycles, push_dependents_at, push_order};
pub use workbook_graph::{MAX_COVERED, MAX_NAMED, MAX_READ, WorkbookGraph};
