//! The values of cells (ECMA-376 part 1, section 18.3.1.4).
//!
//! Rooms: `types` (the type of a cell, by its `t`), `context` (what values rest on), `text_value`
//! (the value of a text, by the type), `value` (a `v` and an `is`), `resolving` (shared strings by
//! their texts).
//!
//! A type decides two things: whether a `v` counts, and whether its text is that of its first event
//! or of all. Numbers, places, booleans and errors are read from the first event, where that is
//! a text, and what follows it is skipped. Texts, dates and unknown types are joined. The value of
//! a cell is that of its last child that counts; which child that is, is said here (`value_in`) and
//! done in xlsx_cells, where the children are taken one by one.
//!
//! A shared string stays its place until a range is made of it (`DataRef::SharedString`). So taking
//! a cell copies no shared string, and collecting cells none.
#![tactic(auto)]

mod context;
mod equality;
mod resolving;
mod text_value;
mod types;
mod value;

pub use context::{ValueContext, format_of_style, style_number};
pub use equality::{copies_are_the_same, equality_is_by_all_fields};
pub use resolving::to_data;
pub use types::{CellType, cell_type};
pub use value::{read_inline, read_value};
