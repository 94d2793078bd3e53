//! The rows of a range as JSON: an array or an object for each row, in a line (docs/FORMAT.md).
//!
//! Rooms: `item` (the value at a position), `keys` (those of a header, and the first of two that
//! are equal), `rows` (a row, all rows, and what is written of a range) and `error`
//! (`ObjectsError`).
//! Numbers, dates, the fields of a header and the limit of an area are those of the rows as CSV
//! (`csv_rows`), and the tokens are written by the kit's `json`.
#![tactic(auto)]

mod error;
mod item;
mod keys;
mod rows;

pub use error::ObjectsError;
pub use rows::{headed_rows_json, keyed_rows_json, rows_json};
