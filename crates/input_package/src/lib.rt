//! The package that a command is given, and how it is read from the bytes of an input.
//!
//! Rooms: `input` (`InputPackage`), `reading` (`read_package`, how inputs begin, and how long they
//! may be).
#![tactic(auto)]

mod input;
mod reading;

pub use input::InputPackage;
pub use reading::{InputError, begins_as_file, longest_input, read_package};
