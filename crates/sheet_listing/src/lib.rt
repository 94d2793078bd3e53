//! The lines of a worksheet: one for each cell with a value, a formula or a style (docs/FORMAT.md).
//!
//! Rooms: `lines` (one for each position that has a value, a formula or a style, in either form),
//! `objects` (the object of JSON of a position), `fill` (the color that a style shows),
//! `styled_left` (the styled positions that lie ahead of them) and `sample_lines` (how many there
//! are of each, and one formula). It knows a sheet as two ranges and a `StyleRange`, and not where
//! they were read from.
//!
//! **The lines go along three lists at once**: the values, the formulas and the runs of style ids.
//! The earliest of the three next positions has the next line (`first_position`), and each list
//! gives what it has there, if anything (`next_at`). So the id of a position is at hand when its
//! line is written, and its style is not searched (`style_named`).
#![tactic(auto)]

mod fill;
mod lines;
mod objects;
mod sample_lines;
mod styled_left;

pub use lines::{listing_of, object_listing_of, push_listing, push_row_line, value_lines_of};
pub use sample_lines::sample_lines_of;
