//! The graph of an open workbook: the names in which the words of its formulas are looked up, and
//! its formulas with what they name.
//!
//! Rooms: `error`, `book` (the names of a workbook), `reading` (`read_graph`).
//!
//! The tables of all sheets are read first, then the formulas of all worksheets, each sheet by its
//! own part. Of two sheets of one name words find the first.
#![tactic(auto)]

mod book;
mod error;
mod reading;

pub use error::GraphError;
pub use reading::{BookGraph, read_graph};
