//! The lines of lists, from plain values (docs/FORMAT.md).
//!
//! Rooms: `content` (what fields hold, and the two forms of a line), `field` and `keyed` (a key and
//! what stands there), `text` and `value` (a line as text, and as an object of JSON), and `lines`
//! (`push_line`, and a line for each kind of list). `equality` says what a copy is.
//!
//! **A line is a list of fields, each with a key** (`Fields`), so that one definition serves both
//! forms: the text has tabs between the fields, and the object has their keys. A position and an
//! area lie in a worksheet by the type of a field.
#![tactic(auto)]

mod content;
mod equality;
mod field;
mod keyed;
mod lines;
mod text;
mod value;

pub use content::{Content, LineForm, Listed};
pub use equality::copies_are_the_same;
pub use field::Field;
pub use lines::{
    push_area_line, push_comment_line, push_custom_line, push_line, push_link_line, push_name_line,
    push_pivot_line, push_position_areas_line, push_position_line, push_property_line,
    push_sheet_line, push_table_line, push_text_line,
};
pub use value::reference_in;

#[cfg(test)]
mod tests;
