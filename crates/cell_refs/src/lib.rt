//! A1 texts: the position of a cell, the area between two cells, and the names of columns.
//!
//! A position is a pair of a row and a column, each counted from 0, as in `(0, 2)` for `C1`.
//!
//! Rooms: `column` (names), `position` (positions, rows), `dimensions` (areas), `error`
//! (`RefError`), `reference_text` (the texts of positions, rows and columns, and laws on them),
//! `equality` (`==` of areas and refusals).
//!
//! One pass over the text (`scan_text`) keeps a column, the number of letters and a row, in numbers
//! that stop one past the limits; `get_row_column` and `get_row` then test in the stated order.
//! `get_dimension` splits at the first two colons, and counts what stands behind the second.
//!
//! The lemma file is `PositionOrder`: the order of positions, row by row, is a total order.
//! Whatever keeps cells in order rests on it.
#![tactic(auto)]

mod column;
mod dimensions;
mod equality;
mod error;
mod position;
mod reference_text;

pub use column::{ColumnName, column_names_read_back, column_number_to_name};
pub use dimensions::{Dimensions, get_dimension};
pub use equality::{copies_are_the_same, equality_is_by_all_fields};
pub use error::RefError;
pub use position::{get_row, get_row_column};
pub use reference_text::{
    push_column_name, push_reference, push_row_reference, references_lie_inside,
    references_read_back,
};

/// The number of rows of a worksheet.
pub const MAX_ROWS: u32 = 1_048_576;

/// The number of columns of a worksheet.
pub const MAX_COLUMNS: u32 = 16_384;
