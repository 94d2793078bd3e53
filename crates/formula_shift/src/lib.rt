//! Formulas of cells: their pieces, the references in them, and their text moved to another cell.
//!
//! Rooms: `piece` (the cutting), `corner` and `reference` (reading, displacing, spelling),
//! `spelling` (rows and columns with their `$` into a buffer, and how many bytes they take),
//! `expand` (both expansions and the length), `cut_formula` (a formula that keeps where its pieces
//! end), `areas` (the area that a reference names), `equality`, `laws`.
//!
//! There is one pass over the text: each piece is found by one scan of its bytes and copied as a
//! run; only a Word is read a second time, as a reference. Nothing is allocated but the growth of
//! the result.
//!
//! A formula that is moved to many cells is cut once: a `CutFormula` keeps the places behind its
//! pieces. Contracts see its text alone, and its invariant is that the places are those of that
//! text (`piece_ends`). So moving it scans for no end, and what is done with one piece is the same
//! function as before (`push_piece`).
#![tactic(auto)]

mod areas;
mod corner;
mod cut_formula;
mod equality;
mod expand;
mod laws;
mod piece;
mod reference;
mod spelling;

pub use corner::Corner;
pub use cut_formula::CutFormula;
pub use equality::{copies_are_the_same, equality_is_by_all_fields};
pub use expand::{expand_shared_formula, expand_shared_formula_into, expanded_len};
pub use laws::{
    apostrophe_takes_a_character, corners_are_positions,
    expansion_and_back_is_the_canonical_spelling, expansions_compose, pieces_by_the_first,
    pieces_joined_are_the_text, references_of_a_shifted_text_are_shifted,
    shifted_text_is_cut_into_the_shifted_pieces, spelling_reads_back, text_without_reference_stays,
};
pub use piece::{Piece, Pieces};
pub use reference::Reference;
