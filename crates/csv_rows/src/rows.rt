//! The rows of a range.
ghost use Rattle.std.specs.Prelude.{◌≡◌, ◌<◌, ◌++◌, ◌↔◌, ℕ, List, length, map, OnOk, IfOk, IfSome};
ghost use Rattle.std.specs.Prelude.{Some, Err};
ghost use Rattle.std.specs.Option.{option_copied, option_map};
ghost use Rattle.std.specs.List.{flat_map};
ghost use Rattle.cell_data.specs.Words.{bounds_of, width_of, box_count, row_items, row_left};
ghost use Rattle.csv_rows.specs.RowsText.{data_field, header_fields, header_text, record_text};
ghost use Rattle.csv_rows.specs.RowsText.{bom_text, rows_text};
ghost use Rattle.csv_rows.specs.declared.options.CsvOptions.{CsvOptions as Options};
ghost use Rattle.csv_rows.specs.RowSteps.{IsBetweenRecords, WritesRecord};
ghost use Rattle.csv_rows.specs.declared.error.CsvError.TheVariants.{BoxTooLarge};

use crate::error::CsvError;
use crate::options::CsvOptions;
use crate::record::{end_record, write_header, write_value};
use cell_data::{Data, Range, RowCells};
use csv::Writer;
use std::alloc::{AllocError, Global};

/// The most cells of an area whose rows are written.
pub const MOST_CELLS: usize = 16_777_216;

/// U+FEFF in UTF-8.
const BYTE_ORDER_MARK: [u8; 3] = [0xEF, 0xBB, 0xBF];

/// Writes the values of a row that are left.
fn write_row(
    writer: &mut Writer<Vec<u8>>,
    scratch: &mut String,
    row: RowCells<'_, Data>,
    options: &CsvOptions,
) -> Result<(), AllocError>
    ensures { OnOk result (WritesRecord options.now
        (map (data_field options.now) (row_left row.entry)) writer.old writer.new) }
{
    for value in row {
        write_value(writer, scratch, value, options)?;
    }
    end_record(writer)
}

fn write_rows(
    writer: &mut Writer<Vec<u8>>,
    scratch: &mut String,
    range: &Range<Data>,
    options: &CsvOptions,
) -> Result<(), AllocError>
    ensures { OnOk result ((before : List ℕ) → IsBetweenRecords options.now before writer.old
        → IsBetweenRecords options.now
        (before ++ flat_map (record_text options.now) (row_items range.now)) writer.new) }
{
    for row in range.rows() {
        write_row(writer, scratch, row, options)?;
    }
    Ok(())
}

fn names_given(header: Option<&[String]>) -> &[String]
    ensures { (options : Options) → header_text options (Some (header_fields result.now))
        ≡ header_text options (option_map header_fields (option_copied header.entry)) }
{
    match header {
        Some(names) => names,
        None => &[],
    }
}

/// The bytes in front of the first record.
fn front(alloc: Global, options: &CsvOptions) -> Result<Vec<u8>, AllocError>
    ensures { IfOk result (λ bytes. bytes.items ≡ bom_text options.now.bom) }
{
    if options.bom {
        Vec::from_slice(alloc, &BYTE_ORDER_MARK)
    } else {
        Ok(Vec::new(alloc))
    }
}

/// The records of a header that has a field and of the rows of a range.
fn written_rows(
    alloc: Global,
    names: &[String],
    range: &Range<Data>,
    options: &CsvOptions,
) -> Result<Vec<u8>, AllocError>
    ensures { IfOk result (λ bytes. bytes.items
        ≡ (bom_text options.now.bom ++ header_text options.now (Some (header_fields names.now)))
        ++ flat_map (record_text options.now) (row_items range.now)) }
{
    let mut writer = options.writer(front(alloc, options)?);
    let mut scratch = String::new(alloc);
    write_header(&mut writer, names)?;
    write_rows(&mut writer, &mut scratch, range, options)?;
    match writer.into_inner() {
        Ok(bytes) => Ok(bytes),
        Err(_) => Err(AllocError),
    }
}

/// The rows of a range as CSV, a field for each column of its area, behind the record of a header
/// where one is given that has a field. A field has quotes where it has the delimiter, a quotation
/// mark, a CR or an LF, and a quotation mark in it is doubled. A record of one empty field is `""`.
/// The plain options have commas between fields and an LF at the end of each record (RFC 4180 but
/// for its line ends).
///
/// An area of more than 16,777,216 cells is refused as `BoxTooLarge` before a row is written.
pub fn rows_csv(
    alloc: Global,
    header: Option<&[String]>,
    range: &Range<Data>,
    options: &CsvOptions,
) -> Result<Vec<u8>, CsvError>
    requires header { IfSome header (λ names. IfSome (bounds_of range.now)
        (λ area. length names.now ≡ width_of (Some area))) }
    ensures rows { IfOk result (λ bytes. bytes.items
        ≡ rows_text options.now (option_map header_fields (option_copied header.entry)) range.now) }
    ensures large { (16777216 < box_count range.now) ↔ (result ≡ Err BoxTooLarge) }
{
    if range.cell_count() > MOST_CELLS {
        return Err(CsvError::BoxTooLarge);
    }
    Ok(written_rows(alloc, names_given(header), range, options)?)
}
