//! String elements, and the shared strings of a workbook (ECMA-376 part 1, section 18.4).
//!
//! Rooms: `string_element` (the text of an `si` or an `is`), `trim` (blanks at the ends of a text),
//! `shared` (the part of shared strings). A text is read into a buffer that its caller lends, cut
//! at its blanks, and appended without its escapes. A shared string takes the bytes of its text.
//!
//! The lemma file is `Sound`.
#![tactic(auto)]

mod shared;
mod string_element;
mod trim;

pub use attr_text::unescaped;
pub use shared::read_shared_strings;
pub use string_element::read_string;
