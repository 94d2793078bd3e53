//! The properties of a workbook: those of its core part and of its program's (ECMA-376 part 2,
//! section 11, and part 1, section 22.2), and those that users named (section 22.3).
//!
//! Rooms: `property` (the names of properties), `workbook_properties` (`WorkbookProperties`),
//! `laws`, `keeping_texts` (a whole part is read event by event), `open_property` (what an event of
//! the core part or of the program's gives), `open_custom` (what one of the users' own part gives),
//! `read` (the three parts). What is said by keys, of which the last text stands, has one loop for
//! both kinds of parts: a keeper (`KeepsTexts`) says by a ghost function what the events that
//! follow say. Its invariant and three lemmas on it are in `EventsSaid`. The refusals of reading
//! are one for all keys (`AreRefused`).
#![tactic(auto)]

mod equality;
mod keeping_texts;
mod laws;
mod open_custom;
mod open_property;
mod property;
mod read;
mod workbook_properties;

pub use equality::{copies_are_the_same, equality_is_by_all_fields};
pub use laws::properties_have_no_cause_of_a_refusal;
pub use property::{Property, named_properties};
pub use read::read_properties;
pub use workbook_properties::WorkbookProperties;
