//! A package whose parts are held as text, and cut into events as they are read.
//!
//! Rooms: `decoding` (`part_text`, the text that a part's bytes are), `part` (`TextPart`, a part
//! that is held), `reading` (`Reading`, where reading stands in a part), `package` (`TextPackage`),
//! `laws`.
//!
//! A part whose bytes are no text is held, too: it has one event, a flaw. So a package can be read
//! as far as it is text, and whatever a part holds refuses what is read of that part alone.
//!
//! **How many events a part still gives is no count of its bytes that are left**: it begins at the
//! number of its bytes, and each event takes one off. A part has no more events than bytes
//! (`parts_are_bounded`), so it is never too small. No list of events is kept, and an event takes
//! no memory.
#![tactic(auto)]

mod decoding;
mod laws;
mod package;
mod part;
mod reading;

pub use decoding::part_text;
pub use laws::{copies_are_the_same, parts_are_bounded, spelled_parts_are_cut_back};
pub use package::TextPackage;
pub use part::TextPart;
pub use reading::Reading;
