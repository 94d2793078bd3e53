//! A package over the bytes of a workbook file, a zip archive: its parts are unpacked and cut into
//! events when they are opened.
//!
//! Rooms: `workbook_file` (`WorkbookFile`), `open_part` (the part that is open), `in_memory` (parts
//! that are unpacked into a package in memory), `laws`.
//!
//! What the parts are is a definition of the archive (`file_parts`): for each entry that can be
//! one, in the order of the directory, the events of what the last entry of that very name holds.
//! An entry that can't be opened is a part of one flaw, which says why. So a file can be read as
//! far as its entries can, and what no one asks for is not unpacked.
//!
//! One part is held at a time. A part that is opened again is unpacked again. `into_memory` unpacks
//! each of them once, into a package that holds them all.
#![tactic(auto)]

mod in_memory;
mod laws;
mod open_part;
mod workbook_file;

pub use laws::a_part_is_what_its_entry_holds;
pub use workbook_file::WorkbookFile;
