//! The commands: which words ask for one, what each prints of a package, and why it can't
//! (docs/FORMAT.md).
//!
//! Rooms: `command` (the words that ask for a command), `asked_rows` (the words that ask more of
//! rows), `cell_lines`, `book_lists`, `merge_lines`, `link_lines`, `comment_lines`, `width_lines`,
//! `property_lines`, `table_lines`, `pivot_lines`, `pivot_rows`, `sheet_rows`, `table_rows`,
//! `row_arrays`, `row_objects`, `table_objects`, `formula_lines`, `graph_lines`, `part_line`,
//! `upgraded_text`, `resaved_text`, `resaved_file` and `sample_lines` (what each command prints),
//! `named_sheet` (what is asked of the first sheet of a name), `output` (each command's own
//! package, where it has one, and its output), `request` and `sheet_choice` (what words ask for
//! that choose a sheet and tell no name), `chosen_sheet` (the sheet that is chosen, and the
//! answer), `laws`, `chosen_laws`, and `error` (`ToolError`).
//!
//! **A command is a row of a few tables**: of the words that ask for it (`command_of`), of the
//! package that it works on where it reads no input (`own_parts`), of its output (`IsOutput`), of
//! why its workbook refuses it (`RefusedWorkbookCause`), of why an area does that has too many
//! cells (`IsTooLarge`), or a graph that is too large (`HasLargeGraph`), of why keys are missing or
//! one is given twice (`HasNoKeys`, `HasTwoColumns`), of the law that an output and a cause exclude
//! each other (`causes_leave_no_output`), and of the law that two outputs are one
//! (`commands_have_one_output`). The tables are closed to what stands above, so that a further
//! command changes none of its clauses, definitions and proofs.
//!
//! What a command asks of the first sheet of a name is said by the path of its part (`OpensAt`),
//! and why it isn't had by one relation over what refuses it there (`NamedCause`), so that a list
//! of a sheet adds its own half alone: an `impl` of `OfSheet`, by a call of the open workbook, and
//! `of_sheet` opens it and asks. The lemmas `NamedSheets` join the two halves, `AreasInside`
//! and `LinksInside` say that areas lie in a worksheet, where their lines may be asked for, and
//! `PropertiesListed` that an ordered map is a list by name. What is asked of all sheets has one
//! relation of causes, too (`ListedCause`), and `SheetsOpened` its lemmas; `TablesListed`,
//! `TablesNamed`, `PivotsListed` and `GraphsListed` say what an open workbook has of tables, pivot
//! tables and formulas, by the parts alone.
//!
//! **Rows are said by values and an area** (`rows_placed`), and not by a range, so that a sheet
//! that is read has one text of rows, or too many cells for it, whatever range its values were put
//! in. That the rows of a range are these is the lemma `rows_meant` of `RowsPlaced`. The rows of a
//! table are said so too, by the area that its part says and behind a header of that width
//! (`table_records`), and `TablesPlaced` brings the range that was read to them. `ObjectsPlaced`
//! does the same where rows are objects under keys (`objects_placed`).
//!
//! That what is read can be written is said here, where it is needed, and not among the laws on
//! what is written (`ReadsWritable`): of a cell comes no value that a written cell can't have.
#![tactic(auto)]

mod asked_rows;
mod book_lists;
mod cell_lines;
mod chosen_laws;
mod chosen_sheet;
mod command;
mod comment_lines;
mod equality;
mod error;
mod formula_lines;
mod graph_lines;
mod laws;
mod link_lines;
mod merge_lines;
mod named_sheet;
mod output;
mod part_line;
mod pivot_lines;
mod pivot_rows;
mod property_lines;
mod request;
mod resaved_file;
mod resaved_text;
mod row_arrays;
mod row_objects;
mod sample_lines;
mod sheet_choice;
mod sheet_rows;
mod table_lines;
mod table_objects;
mod table_rows;
mod upgraded_text;
mod width_lines;

pub use asked_rows::AskedRows;
pub use chosen_laws::{causes_leave_no_answer, chosen_sheets_answer_by_their_names};
pub use chosen_sheet::{answer_of, package_of_request};
pub use command::{Command, GraphList, command_of};
pub use equality::{copies_are_the_same, equality_is_by_all_fields};
pub use error::ToolError;
pub use laws::{
    causes_leave_no_output, commands_have_one_output, readable_sheets_have_lines,
    readable_sheets_have_rows, sheets_have_one_listing, sheets_have_one_text_of_rows,
    sheets_that_are_read_can_be_written, tables_with_values_have_rows,
    workbooks_that_open_have_lists,
};
pub use output::{output_of, own_package};
pub use request::{Request, request_of};
pub use sheet_choice::{SheetChoice, SheetFault};
