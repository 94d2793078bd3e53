//! The styles part of a workbook: the formats and the styles that cells name by number (ECMA-376
//! part 1, section 18.8).
//!
//! Rooms: `lists` (the elements of fonts, fills, borders and cell formats, each appended to its
//! list), `style_lists` (the lists of the section of styles, in the order of the part),
//! `style_sheet` (the part). The lists are lent to each cell format, and its style takes copies of
//! what it names. A cell format is kept with its style, and the two are parted at the end.
//!
//! **A list is what its elements say, one behind the other** (`list_said`): an item for each
//! outermost element of its name, or the first refusal. All four are read by one loop
//! (`keep_elements` of xlsx_sections). The numbers of cell formats name the codes that are kept
//! (`named_kept`), and by all lists of written formats with these codes they say the same
//! (`formattings_same`). The section is a chain of changes (`list_change`) of five lists, so that a
//! second element of a name makes its list longer, and a cell format sees what stands before it.
//!
//! The lemma file is `Sound`.
#![tactic(auto)]

mod lists;
mod style_lists;
mod style_sheet;

pub use style_sheet::{StyleSheet, read_styles};
