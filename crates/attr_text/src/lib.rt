//! The text of XML attributes and of character data: attribute items and lookups, references, line
//! ends and `_xHHHH_`.
//!
//! Rooms: `fault` (the two fault types), `cuts` (a text cut at its first mark or at white space, in
//! the words of the definitions), `items` (one item, the iterator), `lookup` (local names, one key,
//! the trait `RawAttributes`), `values` (several keys in one reading; `get_attrs!`), `uses` (a use
//! of each of the macro's lines), `entity` (characters of names, `decode_attr`, `push_entity`),
//! `line_ends`, `escapes` (`_xHHHH_`), `equality` (`==` and copies).
//!
//! A use of `get_attrs!` expands to one of `two_values` to `six_values` over `attributes_raw()`, so
//! that a caller gets `lookup` of its keys without a proof.
#![tactic(auto)]

mod cuts;
mod entity;
mod equality;
mod escapes;
mod fault;
mod items;
mod line_ends;
mod lookup;
mod values;

pub use entity::{decode_attr, decoded_in_order, entity_char, push_entity};
pub use equality::{copies_are_the_same, equality_is_by_all_fields};
pub use escapes::{push_unescaped, unescape_hex, unescaped, unescaped_in_order};
pub use fault::{AttrFault, TextFault};
pub use items::{RawAttrIter, items_in_order};
pub use line_ends::{line_ends_in_order, push_line_ends};
pub use lookup::{RawAttributes, local_name, local_name_matches, lookups_go_by_key};
pub use values::{AttrValue, five_values, four_values, six_values, three_values, two_values};
