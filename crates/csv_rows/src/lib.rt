//! The rows of a range as CSV.
//!
//! Rooms: `delimiter` (`Delimiter` and `Digits`), `options` (how rows are written), `field` (the
//! field of a value), `record` (a field, the end of a record and a header, by the writer of the
//! kit's `csv`), `rows` (a row, all rows, `rows_csv`), `error` (`CsvError`).
//!
//! **Each row goes along the used cells**, by the range's own iterators. No list of fields is made
//! and no field is allocated: a text is lent to the writer as it is, and anything else is printed
//! into one text that is cleared. The writer is seen as the text that it took (`IsBetweenRecords`)
//! and, within a record, the fields behind that (`IsInRecord`).
#![tactic(auto)]

mod delimiter;
mod equality;
mod error;
mod field;
mod options;
mod record;
mod rows;

pub use delimiter::{Delimiter, Digits};
pub use equality::{copies_are_the_same, equality_is_by_all_fields};
pub use error::CsvError;
pub use field::{push_field, shown_number};
pub use options::CsvOptions;
pub use rows::{MOST_CELLS, rows_csv};
