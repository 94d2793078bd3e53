//! What a workbook's worksheets hold.
//!
//! Rooms: `xlsx` (`Xlsx`, `OpenFailure`), `workbook` (`Workbook`, an open workbook apart from its
//! package), `worksheets` (the calls of `Xlsx` that read a worksheet), `worksheet_list` (the one
//! that reads all), `placed_sheet` (the sheet of a name, and its part), `standing` (the last cell
//! of each position, from the header row on), `ranges` (cells as ranges), `as_read` (the cells of a
//! sheet as they came, and the ranges of them), `sheet_reading` (`read_sheet`, `read_sheet_values`,
//! `SheetReading`, `SheetAnswer`), `shown_codes` (the codes of styles, each cut once),
//! `shown_sheet` (`read_sheet_shown`), `shown_table` (the call on the data of a table as they are
//! shown), `shown_laws`, `merges` (the calls on merged cells), `links` (those on hyperlinks),
//! `comments` (the one on comments), `widths` (the one on widths), `formula_list` (the one on the
//! formulas of all sheets), `formula_laws`, `properties` (the one on properties), `sheet_lists`
//! (the loop over what the sheets say), `numbered_tables` (the tables of all sheets by the numbers
//! of these), `table_list` (tables that are loaded and listed), `table_data` (their data by their
//! names), `pivots` (the call on pivot tables), `lists` (what was loaded), `laws`.
//!
//! A cause is one of opening or one of the sheet's part (`SheetPartCause`), so that each layer
//! below says its own half.
//!
//! `read_sheet` takes the package and hands it back, whatever it answers. It is one reading,
//! `read_cells`, and then ranges of the cells; `read_sheet_values` makes that of the values alone.
//! The logic of the reading is a call of `Xlsx` on its open workbook; what it says, it says of the
//! paths and strings that are kept, and `HoldsOpening` makes them those of the parts. Cells that
//! were gathered become a range by `last_below` and so by `last_of_each`, which goes with what the
//! values mean.
//!
//! All calls that read a sheet are one, `read_placed`, with another `Wants`. It answers values,
//! formulas and style ids as they came, and `HoldsWanted` says of each what it is where it was
//! wanted, so that a sheet whose formulas are at fault has values. It takes no more events than the
//! part has (`Uses`, `placed_events`), and each call above hands that on, `read_sheet` behind what
//! opening takes (`TakesSheet`). The public calls make a range of one of the three, and take a part
//! that is no worksheet for one without cells. `worksheet_cells_reader` is two calls:
//! `enter_worksheet` opens the part in the same way (`open_placed`) and lends nothing, so it says
//! what a refusal leaves; `resume_worksheet` hands the cursor to a reader, and can't fail.
//!
//! Values are kept with shared strings by their places, and a range is made of them as they are, or
//! behind a loop that puts the texts in; formulas go through one that writes them out. Both loops
//! take what stands at last and no other cell, so that a long text that many cells of one position
//! name is made once. Each puts its values into new sorted cells, which lie in an area exactly
//! where the old ones do (`HaveSamePlaces`). Then `range_of` takes the least area, or that which
//! begins with the header row, and `Range::in_area` makes the range. What stands above a header row
//! was cut off before (`last_below`, by `keep_area`), so that no text is made of it, and of the
//! data of a table all that lies outside its area (`last_in_area`). That this gives the range of
//! all cells is the lemmas `StandingRanges`. Every range is said by a meaning of its cells
//! (`IsRangeOf`), so that the two ranges of values, and that of formulas, have one definition and
//! one lemma. `worksheets` finds the first sheet of each name in an ordered map, which is filled
//! from the last sheet to the first.
//!
//! `read_formulas` takes the sheets by their numbers and their paths alone, so that two of one name
//! are two. Its cells are those of a pass of their own, `collect_covered`, over no context at all:
//! formulas rest on nothing but their part.
//!
//! A table that is loaded keeps the number of its sheet, and is said with that sheet's name
//! (`loaded_tables`), by which its data are read: where two sheets have one name, those of the
//! first. Its texts are copied before its sheet is read, since the reading is lent the whole
//! workbook.
//!
//! Styles are said of every palette, the list that `Xlsx` keeps. `IsPaletteOf` ties it to the
//! styles of the opening. `read_sheet` moves the styles of its workbook into the range.
//! `worksheet_style`, which is lent the workbook, copies them, and only where a cell has a style.
#![tactic(auto)]

mod as_read;
mod comments;
mod formula_laws;
mod formula_list;
mod laws;
mod links;
mod lists;
mod merges;
mod numbered_tables;
mod pivots;
mod placed_sheet;
mod properties;
mod ranges;
mod sheet_lists;
mod sheet_reading;
mod shown_codes;
mod shown_laws;
mod shown_sheet;
mod shown_table;
mod standing;
mod table_data;
mod table_list;
mod widths;
mod workbook;
mod worksheet_list;
mod worksheets;
mod xlsx;

pub use as_read::{ReadCells, read_cells};
pub use formula_laws::{
    formulas_of_all_sheets_are_those_of_each, formulas_that_are_said_are_not_refused,
};
pub use formula_list::SheetFormula;
pub use laws::{
    links_that_are_taken_are_not_refused, ranges_differ_by_texts, readable_sheets_are_not_refused,
    sheets_are_read_alike, sheets_go_by_their_parts, table_data_that_are_read_are_not_refused,
    worksheets_are_listed_or_left_out, worksheets_that_are_read_are_not_refused,
};
pub use sheet_reading::{SheetAnswer, SheetReading, ValuesAnswer, read_sheet, read_sheet_values};
pub use shown_laws::{areas_are_shown_as_their_sheets, sheets_are_shown_alike};
pub use shown_sheet::read_sheet_shown;
pub use table_list::TableNames;
pub use workbook::Workbook;
pub use xlsx::{OpenFailure, Xlsx};
pub use xlsx_areas::{Hyperlink, MergedRegion, MergedRegions};
pub use xlsx_cells::{SheetCursor, XlsxCellFormula, XlsxCellFormulaMetadataRecord, XlsxCellReader};
pub use xlsx_comments::{Comment, Comments};
pub use xlsx_error::XlsxError;
pub use xlsx_formulas::XlsxFormulaMetadata;
pub use xlsx_open::{Metadata, NameScope, Sheet, SheetType, SheetVisible};
pub use xlsx_pivot_cache::PivotCacheIter;
pub use xlsx_pivots::PivotTables;
pub use xlsx_properties::{Property, WorkbookProperties};
pub use xlsx_widths::{Band, Widths};
