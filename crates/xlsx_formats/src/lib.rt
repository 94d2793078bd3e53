//! Number formats and cell formats: what the elements of the styles part say of them.
//!
//! Rooms: `format_codes` (the codes that are kept), `kept_code` (a code, with what it makes of
//! numbers), `number_formats` (the element that writes them), `settings` (the alignment and the
//! protection in a cell format), `formatting` (what a cell format names, and the whole of it).
//!
//! Codes are kept in a map by the texts of their ids, and contracts speak of the list of all
//! formats that were written, of which the last of an id stands (`AreCodes`). What a code makes of
//! numbers is found once, when the code is kept, since any number of cell formats may name it; that
//! it is `custom_format` of the code is an invariant of `KeptCode`. So a second element of number
//! formats goes on where the first ended. Nothing is taken in advance by a `count`. Fonts, fills
//! and borders are named by numbers, and number formats by texts: `014` names no built-in format of
//! dates, and has the code of number 14 all the same.
//!
//! Its lemma files: `CodesRead`, `CodesWritten` (the codes that are kept are those of some formats)
//! and `FormattingsRead` (all formats with these codes make the same of a cell format).
#![tactic(auto)]

mod equality;
mod format_codes;
mod formatting;
mod kept_code;
mod number_formats;
mod settings;

pub use equality::copies_are_the_same;
pub use format_codes::FormatCodes;
pub use formatting::{Formatting, NamedLists, read_format};
pub use number_formats::read_number_formats;
