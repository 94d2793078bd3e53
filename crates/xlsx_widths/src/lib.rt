//! The widths of a sheet's columns, and which columns and rows are hidden (ECMA-376 part 1,
//! sections 18.3.1.13, 18.3.1.17 and 18.3.1.73).
//!
//! Rooms: `band` (columns or rows side by side, and those of a sheet), `starts` (what one start
//! says, and what is kept of several), `widths` (those of a sheet). Columns and rows stand in two
//! sections of the sheet's part, each of which it may lack, so it is looked at twice. A row without
//! a number lies behind the one that begins before it.
#![tactic(auto)]

mod band;
mod starts;
mod widths;

pub use band::{Band, Widths};
pub use widths::read_sheet_widths;
