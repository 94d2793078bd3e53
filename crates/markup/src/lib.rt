//! Markup of a part cut into events, one after the other.
//!
//! Rooms: `marks` (searches for bytes), `doctype` (the end of a document type), `found` (what
//! stands first in a text), `cutter` (`Cutter`, where cutting stands), `spelling` (events as they
//! are written), `laws`.
//!
//! **What stands first in a text is told by sizes**: a piece, and how many bytes it takes
//! (`front_of`). So the events of a text are a recursion over its bytes, and the code finds the
//! same sizes, each with where the bytes of markup stand around its texts (`Stands`): these are
//! ASCII, so every text of an event lies between characters. A cutter keeps places and no slices,
//! and is lent the text at each call; it makes no list of events, copies nothing and asks for no
//! memory.
//!
//! Each byte is looked at twice at most: texts, references and ends by a search for the bytes at
//! which they stop, a tag byte by byte. Behind a flaw nothing is looked at.
//!
//! Lemma files: `Searches`, `Places`, `TagEnds`, `Doctypes` and `Spans` say of the searches what
//! they find, `FirstBytes` and `InOrder` take a text apart, `Steps` has a step of a cutter,
//! `FlawPlaces` where the flaw stands behind it, `Fronts` what every front tells, and `Runs` and
//! `CutBack` that what is written is cut back.
#![tactic(auto)]

mod cutter;
mod doctype;
mod found;
mod laws;
mod marks;
mod spelling;

pub use cutter::{Cutter, flaw_place};
pub use laws::{
    a_flaw_is_last, copies_are_the_same, events_are_bounded, events_come_in_order,
    spelled_markup_is_cut_back,
};
pub use marks::place_of;
pub use spelling::{push_spelled, push_spelled_empty};
