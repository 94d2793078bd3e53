//! What formulas mention, in order: cells, names, tables, functions, each with the place where it
//! is looked for.
//!
//! Rooms: `token` (the cutting of a text into tokens), `ends` (where words, blanks, texts in
//! apostrophes and groups in brackets end), `item` (places and what is named there), `prefix` (the
//! place that tokens begin with), `word` (what a word is), `items` (the iterator), `equality`,
//! `laws`.
//!
//! There is one pass over the text. An item is told by the tokens in front, of which at most nine
//! are looked at, so each byte is looked at a bounded number of times. Nothing is allocated: items
//! lend the text.
#![tactic(auto)]

mod ends;
mod equality;
mod item;
mod items;
mod laws;
mod prefix;
mod token;
mod word;

pub use ends::{is_blank_byte, is_same_name};
pub use equality::copies_are_the_same;
pub use item::{Item, Name, Named, Place};
pub use items::Items;
pub use laws::items_by_the_first;
pub use token::behind_blanks;
