//! The value at a position.
ghost use Rattle.std.specs.Prelude.{◌≡◌, ◌++◌, OnOk, pos};
ghost use Rattle.std.specs.Fmt.{signed_decimal};
ghost use Rattle.cell_data.specs.Words.{value_of_data, time_value};
ghost use Rattle.decimals.specs.Words.{number_of, printed, decimal_from};
ghost use Rattle.json.specs.Json.{number};
ghost use Rattle.json.specs.Tree.{json_tokens};
ghost use Rattle.json_rows.specs.RowValues.{item_json};
ghost use Rattle.csv_rows.specs.RowsText.{shown_number, integer_field, rounded_or};

use cell_data::{Data, Decimal, ExcelDateTime};
use csv_rows::{CsvOptions, shown_number};
use excel_dates::ExcelDates;
use json::Writer;
use json_lines::write_decimal;
use std::alloc::AllocError;

/// Writes a number, rounded where digits are asked for.
fn write_number(
    writer: &mut Writer,
    scratch: &mut String,
    own: &Decimal,
    digits: Option<u8>,
) -> Result<(), AllocError>
    ensures ok { let value = number (printed (shown_number digits (number_of own.now))) in
        OnOk result (writer.new.tokens ≡ writer.old.tokens ++ json_tokens value) }
    ensures before { writer.new.before ≡ writer.old.before }
{
    let shown = shown_number(own, digits);
    write_decimal(writer, scratch, &shown)
}

/// Writes a whole number that is rounded.
fn write_rounded(
    writer: &mut Writer,
    scratch: &mut String,
    own: i64,
    digits: u8,
) -> Result<(), AllocError>
    ensures ok { let value = number (rounded_or (signed_decimal own) digits
        (decimal_from (own, pos 0))) in
        OnOk result (writer.new.tokens ≡ writer.old.tokens ++ json_tokens value) }
    ensures before { writer.new.before ≡ writer.old.before }
{
    match Decimal::from_parts(i128::from(own), 0) {
        Some(decimal) => write_number(writer, scratch, &decimal, Some(digits)),
        None => writer.i64(own),
    }
}

/// Writes a whole number, rounded where digits are asked for.
fn write_integer(
    writer: &mut Writer,
    scratch: &mut String,
    own: i64,
    digits: Option<u8>,
) -> Result<(), AllocError>
    ensures ok { let value = number (integer_field digits own) in
        OnOk result (writer.new.tokens ≡ writer.old.tokens ++ json_tokens value) }
    ensures before { writer.new.before ≡ writer.old.before }
{
    match digits {
        Some(digits) => write_rounded(writer, scratch, own, digits),
        None => writer.i64(own),
    }
}

/// Writes a date or a time that has passed: by its text where dates are asked for and it has one.
fn write_time(
    writer: &mut Writer,
    scratch: &mut String,
    time: &ExcelDateTime,
    options: &CsvOptions,
) -> Result<(), AllocError>
    ensures ok { let value = item_json options.now (time_value time.now) in
        OnOk result (writer.new.tokens ≡ writer.old.tokens ++ json_tokens value) }
    ensures before { writer.new.before ≡ writer.old.before }
{
    if !options.dates {
        return write_number(writer, scratch, &time.value, options.digit_count());
    }
    if !time.has_moment() {
        return write_decimal(writer, scratch, &time.value);
    }
    scratch.clear();
    time.push_iso(scratch)?;
    writer.string(scratch.as_str())
}

/// Writes a value: a number, a text, `true` or `false`, the text of an error, or `null` where there
/// is none.
pub fn write_item(
    writer: &mut Writer,
    scratch: &mut String,
    value: &Data,
    options: &CsvOptions,
) -> Result<(), AllocError>
    ensures ok { let value = item_json options.now (value_of_data value.now) in
        OnOk result (writer.new.tokens ≡ writer.old.tokens ++ json_tokens value) }
    ensures before { writer.new.before ≡ writer.old.before }
{
    match value {
        Data::Int(own) => write_integer(writer, scratch, *own, options.digit_count()),
        Data::Decimal(own) => write_number(writer, scratch, own, options.digit_count()),
        Data::String(text) => writer.string(text.as_str()),
        Data::Bool(holds) => writer.boolean(*holds),
        Data::DateTime(time) => write_time(writer, scratch, time, options),
        Data::DateTimeIso(text) => writer.string(text.as_str()),
        Data::Error(error) => writer.string(error.as_str()),
        Data::Empty => writer.null(),
    }
}
