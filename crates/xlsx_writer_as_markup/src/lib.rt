//! What is written of a sheet is markup: each part is spelled, and its bytes, read as a part, are
//! its events. Laws over the definitions of the writer, of markup and of parts held as text, which
//! meet in nothing else. It has no code, and no law speaks of a step of any.
//!
//! Of the lemmas of proofs/, `Texts` says which bytes are the text of a part, `AttributesFit` which
//! attribute texts a start can have, `EventsFit` which events are spelled one behind the other, and
//! `WordsWritten` that numbers and positions are ASCII; `PartsFit` goes through what is written.
#![tactic(auto)]

mod laws;

pub use laws::{written_parts_are_cut_back, written_parts_are_spelled};
