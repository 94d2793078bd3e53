//! A package that is written of the values and the formulas of one sheet, so that they read back
//! (docs/FORMAT.md, "A sheet that is written").
//!
//! Rooms: `form` (for whom a package is written), `writable` (which values and formulas are written
//! so, and where a character 0 would be left), `escaping` (which bytes aren't written as they are),
//! `texts` (texts as events, between quotes and with underscores escaped), `least_escapes` (texts
//! with no more escapes than they need), `values` (a cell's type, style and value), `groups` (which
//! formulas are those of a group), `cells` (formulas, cells and rows), `sheet` (the rows, along
//! values and formulas), `parts` (the parts beside the sheet), `package` (all of them) and
//! `equality` (copies).
//!
//! **What is written is said first** (`written_parts`): each part as its events, the sheet's by its
//! values and formulas alone. That it reads back is no step of the code, and no step of the reading
//! is here.
//!
//! **A formula is compared with the head of the formula above it**, in its column: where the head's
//! text, moved, is its own, both have one head, and else it is its own head. So a group runs down
//! one column without a gap. The heads are found in one pass, in which a second place follows a row
//! behind (`pass`): positions rise, and so does what is looked for above them. Each formula keeps
//! the place of its head, and nothing is kept by column. A second pass finds the last row of each
//! group, and a third counts masters.
//!
//! **The rows go along values and formulas at once**, each from where it stands (`earlier` and
//! `next_at` of `cell_data`); the open row is kept, and ended where another begins.
#![tactic(auto)]

mod cells;
mod equality;
mod escaping;
mod form;
mod groups;
mod least_escapes;
mod package;
mod parts;
mod sheet;
mod texts;
mod values;
mod writable;

pub use equality::copies_are_the_same;
pub use form::WrittenForm;
pub use package::write_package;
pub use writable::{has_zero_left, is_writable};
