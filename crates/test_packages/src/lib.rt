//! Packages written as markup, for the crates of tests.
//!
//! Rooms: `markup` (markup as events, a part or its front, a package of parts) and `minimal` (the
//! parts of the smallest workbook, and packages with a part in front of these).
#![tactic(auto)]

mod markup;
mod minimal;

pub use markup::{Part, events_of, package_front, package_of};
pub use minimal::{SHEET_NAME, package_with, sheet_part};
