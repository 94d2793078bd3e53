//! Number format codes, cut into sections of pieces, and which section shows a value (ECMA-376 part
//! 1, sections 18.8.30 and 18.8.31).
//!
//! Rooms: `piece` (the pieces of a code), `text` (words of a text, and what stands behind its
//! characters), `group` (what stands in brackets), `cutting` (a code from its left end), `timing`
//! (which pieces of a date are minutes, and which digits of a second), `kind` (what a section is),
//! `condition` (which numbers meet a condition), `shown_format` (`ShownFormat`: a code that is cut
//! once), `equality` (what `==` and a copy are), `laws`.
//!
//! **A code is cut from its left end.** What stands first tells its pieces and how many bytes
//! belong to them (`pieces_in_front`), and the others are those of what stands behind
//! (`pieces_behind`). So each byte is looked at once for its piece, and once more for each word
//! that a letter may begin.
//! A text that stands for itself is a piece for each character, so that no piece has memory of its
//! own; an empty one is a piece, too, since a section with it isn't empty.
//!
//! **The enums of pieces are what definitions speak of.** No other data says the same, and a slice
//! of pieces is the list of a definition.
//!
//! **What is kept of a code is what it shows by** (`IsFormatOf`): the pieces of its sections, those
//! of dates with their minutes told, their kinds and conditions; nothing of a code that isn't
//! supported. Two numbers are compared by what the one with the greater power of ten is over the
//! lesser power, and no further than 128 bits (`scaled`).
//!
//! Its lemma files: `Words` and `Boundaries` (where words and characters end), `Literals` (the
//! characters of a text), `CodesCut` (a step along a code), `TimesTold` (one along a section of
//! dates), `Orders` (numbers by their signs and sizes), `Divided` (sections), `TextsTaken` (the
//! section of texts), `NumbersKept` and `Kept` (what is kept, and chosen).
#![tactic(auto)]

mod condition;
mod cutting;
mod equality;
mod group;
mod kind;
mod laws;
mod piece;
mod shown_format;
mod text;
mod timing;

pub use equality::{copies_are_the_same, equality_is_by_all_fields};
pub use kind::{SectionKind, denominator_in, is_fixed};
pub use laws::texts_want_a_section;
pub use piece::{CodePiece, Comparison, Condition, Filler, HalfDay, TimeUnit};
pub use shown_format::{ChosenSection, ShownFormat};
