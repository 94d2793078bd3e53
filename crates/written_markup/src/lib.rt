//! Markup that is written so that it reads back: elements, attributes and texts as events.
//!
//! Rooms: `builder` (a package whose last part is being written), `laws` (what is written reads
//! back).
//!
//! **A builder has a part**: this is its type's own fact, so that no call asks for it, and what it
//! holds is seen as a package in memory. A caller writes each element by a function of its own,
//! which appends its events. Lemma files: `Drafted` joins events that were appended;
//! `TextsReadBack`, `PairsReadBack` and `EventsReadBack` have what written texts and attributes
//! say, and `Nested` what passes over written elements.
#![tactic(auto)]

mod builder;
mod laws;

pub use builder::{PackageBuilder, start};
pub use laws::{
    nested_events_are_passed_over, written_attributes_are_read_back, written_texts_are_read_back,
};
