//! Sections of parts: how they are entered and read on, and why one can't be taken.
//!
//! Rooms: `section` (entering a section, and its next start or event), `keeping` and
//! `keeping_lists` (what the starts of a section give is kept), `elements` (a section's next
//! element or child, its text, its end), `element_lists` (what its elements say is kept), `decode`
//! (a text of attributes, decoded), `numbers` (a text of digits).
//!
//! A section is seen as what is left of it (`PartSection`): the events of its part, the number of
//! the first that is left, and what is ahead. Why it can't be taken is `SectionCause`: the nesting
//! breaks, the part ends, or an element is refused. `PlainRefusal` says why an element is refused,
//! and `plain_told` which error tells of it: these two are what a new section adds to. When a call
//! on a package is refused is one relation for all of them (`FailsBy`), over its cause.
//!
//! **A list has no loop of its own.** A keeper (`Keeps`) says by a ghost function what a start
//! makes of what is held, and `keep_starts` is the one loop over starts. `Reads` says what one
//! start gives: of these `keep_all` keeps all, and `keep_last` the last. `ReadsEach` says what one
//! element says, and `keep_elements_in` is the loop over these. A loop that keeps more than that
//! asks for the next start, event or element, hands it on, and has one invariant: what is kept,
//! with what the rest says, is what the whole says.
//!
//! **Where a part ends is told by what stands in the section.** The text of `XmlEof` is a function
//! of that (`Ending`): the name of the section, or, inside an element that is read, the text that
//! this element's own function gives (`end_among`). It gives none inside an element that is
//! skipped, and then the refusal is `Unclosed` with the number of the part's events.
//!
//! **A section is read to its end and no further.** `section_events` is the number of events up to
//! that end. `EntersSection` says how many of them were taken where a section begins, the function
//! of the section where its end is (`section_end`), and the call that reads the part the sum
//! (`ReadsToEnd`).
//!
//! **Refusals carry places.** A reference without a character is told with how many events stand
//! behind it. In an element that number counts the element's own events, and `in_element` and
//! `further` turn it into one of the section. So what an element says is a function of its start
//! and what stands in it, wherever it stands, and `RefusedAs` alone turns the number into one of
//! the part.
//!
//! Its lemma files: `SectionsRead` (how a section is read on), `ElementsRead` (how its elements are
//! read, each to its end), `StartsSaid` (what starts say is kept start by start), `StartsKept`
//! (what is kept of starts is what they give), `ElementsSaid` (what elements say, element by
//! element), `ListsRead` (how a list of elements is kept), `Refused` (how a refusal passes from an
//! element to its section), `Failing` (how a cause is handed on), `Kept` (what is kept of many
//! elements) and `Sound` (a closed section without a refused element has no cause).
#![tactic(auto)]

mod decode;
mod element_lists;
mod elements;
mod keeping;
mod keeping_lists;
mod numbers;
mod section;

pub use decode::{decode_at, name_by, push_text_at};
pub use element_lists::{ReadsEach, keep_elements, keep_elements_in};
pub use elements::{
    next_child_in, next_element_in, read_element_text, read_to_end, skip_element_in,
};
pub use keeping::{Keeps, keep_in_element, keep_starts};
pub use keeping_lists::{Reads, keep_all, keep_last};
pub use numbers::number_text;
pub use section::{enter, enter_part, next_event_in, next_start_among, next_start_in, start_tag};
