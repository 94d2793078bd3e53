//! Fields and records of a writer into memory, whose only errors are of memory.
ghost use Rattle.std.specs.Prelude.{ℕ, List, ◌++◌, OnOk, Some};
ghost use Rattle.csv.specs.Writing.{row_text};
ghost use Rattle.csv_rows.specs.RowsText.{data_field, header_fields, header_text, writer_of};
ghost use Rattle.csv_rows.specs.declared.options.CsvOptions.{CsvOptions};
ghost use Rattle.csv_rows.specs.RowSteps.{IsInRecord, IsBetweenRecords, TakesField, WritesRecord};

use crate::field::push_field;
use crate::options::CsvOptions as Options;
use cell_data::Data;
use csv::Writer;
use std::alloc::AllocError;

pub fn write_bytes(writer: &mut Writer<Vec<u8>>, field: &[u8]) -> Result<(), AllocError>
    ensures { OnOk result ((options : CsvOptions)
        → TakesField options field.now writer.old writer.new) }
{
    match writer.write_field(field) {
        Ok(()) => Ok(()),
        Err(_) => Err(AllocError),
    }
}

pub fn end_record(writer: &mut Writer<Vec<u8>>) -> Result<(), AllocError>
    ensures { OnOk result ((options : CsvOptions) (before : List ℕ) (fields : List (List ℕ))
        → IsInRecord options before fields writer.old
        → IsBetweenRecords options (before ++ row_text (writer_of options) fields) writer.new) }
{
    match writer.end_record() {
        Ok(()) => Ok(()),
        Err(_) => Err(AllocError),
    }
}

/// Writes the field of a value by its text, which is made in the scratch.
fn write_printed(
    writer: &mut Writer<Vec<u8>>,
    scratch: &mut String,
    value: &Data,
    options: &Options,
) -> Result<(), AllocError>
    ensures { OnOk result
        (TakesField options.now (data_field options.now value.now) writer.old writer.new) }
{
    scratch.clear();
    push_field(scratch, value, options)?;
    write_bytes(writer, scratch.as_bytes())
}

/// Writes the field of a value: a text as it is, and anything else by the scratch.
pub fn write_value(
    writer: &mut Writer<Vec<u8>>,
    scratch: &mut String,
    value: &Data,
    options: &Options,
) -> Result<(), AllocError>
    ensures { OnOk result
        (TakesField options.now (data_field options.now value.now) writer.old writer.new) }
{
    match value {
        Data::String(text) => write_bytes(writer, text.as_bytes()),
        Data::DateTimeIso(text) => write_bytes(writer, text.as_bytes()),
        Data::Empty => write_bytes(writer, b""),
        _ => write_printed(writer, scratch, value, options),
    }
}

fn write_names(writer: &mut Writer<Vec<u8>>, names: &[String]) -> Result<(), AllocError>
    ensures { OnOk result ((options : CsvOptions)
        → WritesRecord options (header_fields names.now) writer.old writer.new) }
{
    'names: for i in 0..names.len() {
        write_bytes(writer, names[i].as_bytes())?;
    }
    end_record(writer)
}

/// Writes the record of a header that has a field.
pub fn write_header(writer: &mut Writer<Vec<u8>>, names: &[String]) -> Result<(), AllocError>
    ensures { OnOk result ((options : CsvOptions) (before : List ℕ)
        → IsBetweenRecords options before writer.old
        → IsBetweenRecords options
        (before ++ header_text options (Some (header_fields names.now))) writer.new) }
{
    if names.is_empty() {
        return Ok(());
    }
    write_names(writer, names)
}
