//! The styles of a workbook: the theme's colors, tints, and what the elements of the styles part
//! say.
//!
//! Rooms: `theme`, `tint`, `laws`, `texts` (booleans and small numbers), `color_text` (the
//! color of a start), `alignment` (alignments and protections), `fill`, `font` and `font_parts`,
//! `border` (a side, then its border). A tint is read in parts of 10^20 (`size_of`), and each
//! channel is one fraction of whole numbers of 128 bits, divided once at the end (`nearest`).
//!
//! **An element is a chain of changes.** What stands in a font, a fill or a border changes it one
//! by one (`all_changes`): a later start of a kind takes the place of an earlier one, and one that
//! says nothing changes nothing. Starts in a font and a fill count at any depth; the sides of a
//! border are its outermost ones, and the color of a side is that of the last start in it that
//! names one. A loop keeps that what is left makes of what is kept is what the whole makes of the
//! default. What a call does that reads an element is one record (`ReadsInside`, `ReadsWithStart`).
//!
//! The lemma file is `ElementsTold`: what such a call says, by the call whose answer it hands on.
#![tactic(auto)]

mod alignment;
mod border;
mod color_text;
mod fill;
mod font;
mod font_parts;
mod laws;
mod texts;
mod theme;
mod tint;

pub use alignment::{parse_alignment, parse_protection};
pub use border::parse_border;
pub use color_text::{hex_color, parse_color};
pub use fill::parse_fill;
pub use font::parse_font;
pub use laws::{one_number_is_nearest, short_tints_are_exact, tints_keep_the_order};
pub use texts::truth_or;
pub use theme::default_theme_colors;
pub use tint::apply_tint;
