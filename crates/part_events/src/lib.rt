//! Markup events of a package's parts.
//!
//! Rooms: `event` (`PartEvent`, `StartTag`), `package` (the trait `Package`), `stored` (how a part
//! keeps its events), `part_names` (an ordered map from folded names to parts), `memory`
//! (`MemoryPackage`), `failing` (`FailingPackage`), `quiet` (`QuietPackage`), `open_names` (the
//! names of the open elements), `reader` (`XlReader`), `text` (an element's text), `walk` (the step
//! through a section, and the loop to its next wanted start), `flaw` (`Flaw`), `fault`
//! (`XmlFault`, `BreakCause`, `StreamError`), `equality` (`==` and copies), `laws`.
//!
//! The trait `Package` has one ghost member, `state`: what the package is to its reader
//! (`PackageState`). Whether a package tells its content to proofs is its own choice
//! (`is_visible`). Clauses on content have that as their premise; those on the counts, on the
//! current event and on faults hold always. So a package over a file may keep its content to itself
//! and still be read safely, and a package in memory tells all.
//!
//! A part in memory keeps the texts of its events in one text, and for each event where its texts
//! lie in it, so that an event takes no allocation of its own.
//!
//! An event is a start, an end, or a leaf, which nests nothing (text, character data, a reference,
//! a flaw, anything else): what is said of nesting has three equations. **A flaw** is told where
//! nothing more can be told of a part. The events before it are read as ever, no element goes on
//! behind it, and who needs more is refused there, as at an end of another name (`Break`). A start
//! and an element carry how many events of their list stand behind them. That number stays the same
//! while a loop takes events, so a refusal can tell the very event that is at fault.
//!
//! **What every reading call keeps is one record by its answer**, `Reads`: `ReadsOn` where it is
//! Ok, `StopsReading` where it is refused. What a call means, and when it is refused, are clauses
//! of their own.
//!
//! **An event's way to a kept value.** `Package::advance` and `event` give it; `XlReader::next`
//! counts it and keeps the names of the open elements; `XlReader::next_inside`, by which every
//! section is read, tells whether it lies in the section, or closes it; `XlReader::walk` goes by
//! this step, and passes it or answers it as a wanted start; the element's own function, in a crate
//! above, reads what it keeps. What a reader answers is said of `ahead`: what is to come up to the
//! first end that breaks the nesting, or the first flaw.
//!
//! **A reader owns its package**, and is seen by contracts as where it stands (`Reading`): the
//! state of the package, the names of the open elements, how many events of the part were taken,
//! and whether a call was refused. So a clause of what reads speaks of `xml.old` and `xml.new`, and
//! what became of the package is said by it at a refusal, too; `into_package` gives it back. The
//! names of open elements are kept in one text and a list of lengths, so that opening an element
//! seldom asks for memory. No event is copied.
//!
//! Its lemma files: `Onward` (how calls follow one another), `Walking` (a walk's way over a
//! section), `Sections` (how a section and an element in it go together) and `Nested` (wholeness,
//! from one event to the next).
#![tactic(auto)]

mod equality;
mod event;
mod failing;
mod fault;
mod flaw;
mod laws;
mod memory;
mod open_names;
mod package;
mod part_names;
mod quiet;
mod reader;
mod stored;
mod text;
mod walk;

pub use equality::{copies_are_the_same, equality_is_by_all_fields};
pub use event::{PartEvent, StartTag};
pub use failing::FailingPackage;
pub use fault::{BreakCause, StreamError, XmlFault};
pub use flaw::Flaw;
pub use laws::{
    children_are_at_depth_one, content_is_by_match, innermost_open_is_by_depth,
    outermost_is_in_order, whole_is_longest,
};
pub use memory::MemoryPackage;
pub use package::{Package, PackageError};
pub use part_names::PartNames;
pub use quiet::QuietPackage;
pub use reader::XlReader;
pub use text::push_text;
pub use walk::Step;
