//! What the words of formulas are looked up in: the sheets, defined names and tables of a workbook.
//!
//! Rooms: `key` (names as they are looked up), `numbers` (for names the number of the first of
//! each), `indexed` (the same of sheets, tables and columns), `book` (all of a workbook), `rows`
//! (which rows of a table are meant), `parts` (the parts of what stands in brackets), `selection`
//! (what they select), `area` (the area that it is), `equality`.
//!
//! Names are kept in ordered maps, once, so a question takes as many steps as a name has bytes,
//! times the binary digits of the number of names. A question asks for no memory: the name that is
//! asked for stands in a key of its own, which is set anew.
#![tactic(auto)]

mod area;
mod book;
mod equality;
mod indexed;
mod key;
mod numbers;
mod parts;
mod rows;
mod selection;

pub use area::TableArea;
pub use book::{BookNames, DefinedName, TableShape};
pub use equality::copies_are_the_same;
pub use key::NameKey;
