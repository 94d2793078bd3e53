//! Values of JSON, each as a line of text (docs/FORMAT.md).
//!
//! Rooms: `line` (the end of a line, and exact decimals as numbers of JSON) and `laws`. The kit's
//! `json` writes the tokens of a line, with its escapes, and keeps the text of a number; here its
//! line ends, and a decimal's text is shown to be a number (RFC 8259, section 6).
#![tactic(auto)]

mod laws;
mod line;

pub use laws::json_lines_are_read_back;
pub use line::{end_line, write_decimal, write_text};
