//! The areas that a sheet's part lists beside its cells: merged cells and hyperlinks (ECMA-376 part
//! 1, sections 18.3.1.55 and 18.3.1.48).
//!
//! Rooms: `merged_cells` (a start, its section, a whole part), `merged_parts` (the part at a path),
//! `regions` (merged cells with their sheets), `hyperlink` (`Hyperlink`), `hyperlinks` (a start and
//! its section), `link_parts` (the part at a path and the relationships beside it), `equality`,
//! `laws`. Where a faulty section counts for none, the refusals of the package and of memory go on
//! by their names, and all others give the empty list (`merges_or_none`). The lemma files are
//! `MergesRead`, `LinksRead` and `LinkEquality`.
//!
//! **Links are said over a function from Ids to targets**, so that a section of links is one
//! definition whoever has the targets: the pairs that the relationships give (`target_in`), or the
//! map that a call is handed (`target_held`).
//!
//! **The sheet's part is asked for first** (`has_part`), then its relationships are read, and then
//! the part: a sheet that isn't there is told before any relationship is read.
#![tactic(auto)]

mod equality;
mod hyperlink;
mod hyperlinks;
mod laws;
mod link_parts;
mod merged_cells;
mod merged_parts;
mod regions;

pub use equality::equality_is_by_all_fields;
pub use hyperlink::Hyperlink;
pub use hyperlinks::read_hyperlinks;
pub use laws::{
    links_have_no_cause_of_a_refusal, merges_have_no_cause_of_a_refusal,
    targets_have_no_cause_of_a_refusal,
};
pub use link_parts::read_sheet_links;
pub use merged_cells::read_merge_cells;
pub use merged_parts::{read_merges, read_merges_or_none, read_regions};
pub use regions::{MergedRegion, MergedRegions, read_sheet_regions};
