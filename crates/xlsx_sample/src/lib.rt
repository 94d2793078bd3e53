//! A workbook of any number of rows, made in memory (docs/FORMAT.md).
//!
//! Rooms: `fixed_parts` (the parts that are the same for every number of rows), `rows` (cells and
//! rows) and `sample` (the sheet, and all parts).
//!
//! Each element is a function of its own, which appends its events to a builder of written_markup.
#![tactic(auto)]

mod fixed_parts;
mod rows;
mod sample;

pub use sample::sample_package;
