//! Tables: the areas of cells that have a name (ECMA-376 part 1, section 18.5).
//!
//! Rooms: `table_start` (what the start of a table says), `table_part` (a table's part), `loaded`
//! (a table that is kept), `tables` (those of a sheet), `laws`. A table is told by its own start,
//! so its part is read by its first element, and not by a section. Which parts are read for the
//! tables of a sheet, and what they say, is a look (`tables_look`). What is kept of a table has an
//! area that lies in a worksheet, which its type knows; the lemmas `AreasInside` say so of what a
//! text names, `TablesRead` which refusals are those of tables, and `TablesKept` that the tables of
//! each part are those of the sheet.
#![tactic(auto)]

mod laws;
mod loaded;
mod table_part;
mod table_start;
mod tables;

pub use laws::tables_have_no_cause_of_a_refusal;
pub use loaded::LoadedTable;
pub use table_part::{TablePart, read_table_at, read_table_part};
pub use tables::read_sheet_tables;
