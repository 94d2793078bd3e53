//! Laws over what is written as JSON and what is read of it; no code but theirs.
//!
//! One room, `laws`: that the text of each line, read by the grammar of the kit's `json`, is the
//! value that the line's definition names, with its numbers by their exact digits, and that lines
//! are one for each value.
#![tactic(auto)]

mod laws;

pub use laws::{
    cell_objects_are_read_back, list_lines_are_read_back, row_lines_are_read_back,
    values_have_a_line_each,
};
