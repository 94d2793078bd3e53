//! The theme of a workbook: the colors that the color scheme of its part says.
//!
//! Rooms: `slot` (one color of a scheme), `color_scheme` (its slots, and how colors are numbered),
//! `theme_part` (the theme of the part that is read, and at a path). A slot is read to its end, and
//! behind the start that gives its color no start is looked up, so that a fault there refuses
//! nothing. The end of the part is told by the number of its events wherever it comes in a scheme.
//!
//! `read_theme_colors` leaves its reader behind the scheme's end (`behind_scheme`).
//!
//! What `read_theme` leaves aside are refusals of markup and of attributes alone; behind one the
//! package is as after any other call, and its next part can be opened.
#![tactic(auto)]

mod color_scheme;
mod slot;
mod theme_part;

pub use theme_part::{ThemeColors, read_theme, read_theme_colors};
