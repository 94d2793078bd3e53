//! Code of one's own that calls the reader, with a contract that stands on the reader's. The README
//! quotes it.
//!
//! Six rooms. `apart` reads a sheet by a reader and then a table of the same workbook, whose tables
//! are still loaded; its contract stands on that of `Workbook`. `counting` is a count of formulas,
//! whose contract stands on that of `read_sheet`; README.md and docs/USING.md quote it. `taking`
//! takes cells one by one, by one call to the end and by two calls in turn, or up to the first
//! error; its contracts stand on those of `XlsxCellReader` and on the lemmas `WholeReadings` of
//! `xlsx_cells`; its own are `FirstErrors` and `Through`. `in_memory` shows that no call that lends
//! the reader of a package in memory answers `Io`, and `whole_cells` takes all that a cell has in
//! one pass. `shown` has the examples of calls of an open workbook: functions of a few lines, whose
//! contracts hand on what the calls say, by the definitions `Shown` and the lemmas `FirstAnswers`.
#![tactic(auto)]

mod apart;
mod counting;
mod in_memory;
mod shown;
mod taking;
mod whole_cells;

pub use apart::first_place_and_table;
pub use counting::formula_count;
pub use in_memory::{
    cells_in_memory, part_in_memory, pivot_rows_in_memory, rows_in_memory, sheet_in_memory,
};
pub use shown::{
    all_are_read, comment_texts, count_of_formulas, fill_color_at, first_cell, first_row,
    formula_total, link_count, opened_from_row, size_of_values, table_total, title,
};
pub use taking::{first_error, formulas_taken, two_taken};
pub use whole_cells::full_cells;

#[cfg(test)]
mod call_tests;
#[cfg(test)]
mod text_part_tests;
