//! The cache of a pivot table: its fields, and the items that records share (ECMA-376 part 1,
//! section 18.10).
//!
//! Rooms: `item` (what an element says), `contents` (the items of a field), `field` (one
//! `cacheField`), `fields` (those of the definitions), `record` (one `r`), `rows` (the next one,
//! and the names), `pivot_cursor` (`PivotCursor`), `cache_iter` (`PivotCacheIter`), `laws`.
//!
//! **A field is looked at event by event**, once: a `groupItems` counts at any depth, also inside
//! an item, and items are the children of the first `sharedItems` alone. What the events give that
//! are left is said by the place of reading (`items_from_place`), and is the definition at the
//! start.
//!
//! **A cursor is said by the rows that it has left** (`cache_rows_left`): the names and the rows of
//! the records' part before their start, those that are ahead in their section, and none behind its
//! end or a refusal. A step takes the first of them, and one record says what it does, for a cursor
//! and for the iterator (`GivesRow`). Of a refusal the cause is one of the whole part of the
//! records, since what is left of a section is tied to it (`IsLeftOf`); the lemmas
//! `CacheRead` hand it on to the two parts of the cache (`CacheCause`). `PivotCacheIter` holds the
//! reader beside such a cursor; its bound is the events that its package still gives
//! (`rows_count`).
#![tactic(auto)]

mod cache_iter;
mod contents;
mod field;
mod fields;
mod item;
mod laws;
mod pivot_cursor;
mod record;
mod rows;

pub use cache_iter::PivotCacheIter;
pub use field::CacheField;
pub use fields::read_fields;
pub use laws::caches_have_no_cause_of_a_refusal;
pub use pivot_cursor::PivotCursor;
