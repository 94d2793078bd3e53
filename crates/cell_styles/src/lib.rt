//! The style of cells: colors, borders, fonts, alignment, fills, number formats and protection, and
//! which style each cell of a worksheet has.
//!
//! Rooms: `color`, `border`, `font`, `alignment`, `fill`, `number_format`, `protection`, `style` (a
//! type or family each, with its questions), `laws` (equalities, copies, defaults, colors as
//! numbers), `style_runs` (ids kept as runs), `filling` (from entries to ids), `style_range`,
//! `style_cells` and `styled_cells` (its iterators).
//!
//! Runs are known to `style_runs` alone, which is seen as the list of ids; none is empty and
//! neighbours differ, so that equal lists have equal runs. `from_style_ids` sorts the entries by
//! place with std's stable sort and puts each id behind zeros, so it keeps memory by entries and
//! never by the area. `get_counted` searches by halves, and its only comparison with a run's end is
//! the one that ticks; `get` is that search with a counter that takes no bytes. The counter is
//! `Steps` of `counted_steps`.
//!
//! Fonts and number formats are seen with their texts as bytes, so that capacity is no part of what
//! is compared.
#![tactic(auto)]

mod alignment;
mod border;
mod color;
mod fill;
mod filling;
mod font;
mod laws;
mod number_format;
mod protection;
mod style;
mod style_cells;
mod style_range;
mod style_runs;
mod styled_cells;

pub use alignment::{Alignment, HorizontalAlignment, TextRotation, VerticalAlignment};
pub use border::{Border, BorderStyle, Borders};
pub use color::Color;
pub use counted_steps::Steps;
pub use fill::{Fill, FillPattern};
pub use font::{Font, FontStyle, FontWeight, UnderlineStyle};
pub use laws::{
    colors_read_back, copies_are_the_same, defaults_are_these, each_position_has_one_place,
    equality_is_by_all_fields, ranges_go_by_first_ids,
};
pub use number_format::NumberFormat;
pub use protection::Protection;
pub use style::Style;
pub use style_cells::StyleRangeCells;
pub use style_range::{StyleRange, copied_palette};
pub use styled_cells::StyledCells;
