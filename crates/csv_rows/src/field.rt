//! The field of a value.
ghost use Rattle.std.specs.Prelude.{◌≡◌, ◌++◌, OnOk, OnErr, string_bytes, pos};
ghost use Rattle.std.specs.Fmt.{signed_decimal};
ghost use Rattle.cell_data.specs.Words.{time_value};
ghost use Rattle.decimals.specs.Words.{number_of, printed, decimal_from};
ghost use Rattle.csv_rows.specs.RowsText.{truth_field, field_of, data_field, shown_number};
ghost use Rattle.csv_rows.specs.RowsText.{integer_field, rounded_or};

use crate::options::CsvOptions;
use cell_data::{Data, Decimal, ExcelDateTime};
use excel_dates::ExcelDates;
use itoa::Buffer;
use std::alloc::AllocError;

fn truth_field(holds: bool) -> &'static str
    ensures { result.now ≡ truth_field holds }
{
    if holds { "true" } else { "false" }
}

/// The number that a number is written as, rounded where digits are asked for.
pub fn shown_number(number: &Decimal, digits: Option<u8>) -> Decimal
    ensures { number_of result ≡ shown_number digits (number_of number.now) }
{
    match digits {
        Some(digits) => number.rounded(digits).unwrap_or(*number),
        None => *number,
    }
}

fn push_number(out: &mut String, number: &Decimal, digits: Option<u8>) -> Result<(), AllocError>
    ensures ok { OnOk result (string_bytes out.new
        ≡ string_bytes out.old ++ printed (shown_number digits (number_of number.now))) }
    ensures err { OnErr result (string_bytes out.new ≡ string_bytes out.old) }
{
    shown_number(number, digits).push_to(out)
}

/// Appends a whole number as it is.
fn push_whole(out: &mut String, number: i64) -> Result<(), AllocError>
    ensures ok { OnOk result
        (string_bytes out.new ≡ string_bytes out.old ++ signed_decimal number) }
    ensures err { OnErr result (string_bytes out.new ≡ string_bytes out.old) }
{
    let mut buffer = Buffer::new();
    out.push_str(buffer.format(number))
}

/// Appends a whole number that is rounded.
fn push_rounded(out: &mut String, number: i64, digits: u8) -> Result<(), AllocError>
    ensures ok { OnOk result (string_bytes out.new ≡ string_bytes out.old
        ++ rounded_or (signed_decimal number) digits (decimal_from (number, pos 0))) }
    ensures err { OnErr result (string_bytes out.new ≡ string_bytes out.old) }
{
    match Decimal::from_parts(i128::from(number), 0) {
        Some(decimal) => push_number(out, &decimal, Some(digits)),
        None => push_whole(out, number),
    }
}

/// Appends a whole number, rounded where digits are asked for.
fn push_integer(out: &mut String, number: i64, digits: Option<u8>) -> Result<(), AllocError>
    ensures ok { OnOk result
        (string_bytes out.new ≡ string_bytes out.old ++ integer_field digits number) }
    ensures err { OnErr result (string_bytes out.new ≡ string_bytes out.old) }
{
    match digits {
        Some(digits) => push_rounded(out, number, digits),
        None => push_whole(out, number),
    }
}

/// Appends a date or a time that has passed.
fn push_time(out: &mut String, time: &ExcelDateTime, options: &CsvOptions) -> Result<(), AllocError>
    ensures ok { OnOk result (string_bytes out.new
        ≡ string_bytes out.old ++ field_of options.now (time_value time.now)) }
    ensures err { OnErr result (string_bytes out.new ≡ string_bytes out.old) }
{
    if options.dates {
        time.push_iso(out)
    } else {
        push_number(out, &time.value, options.digit_count())
    }
}

/// Appends the field of a value: a number in decimal, a text as it is, a boolean as `true` or
/// `false`, a date or a time that has passed as the number of its days or by its text, the text of
/// an error, and nothing of an empty value.
///
/// A refusal leaves the text as it was.
pub fn push_field(out: &mut String, value: &Data, options: &CsvOptions) -> Result<(), AllocError>
    ensures ok { OnOk result
        (string_bytes out.new ≡ string_bytes out.old ++ data_field options.now value.now) }
    ensures err { OnErr result (string_bytes out.new ≡ string_bytes out.old) }
{
    match value {
        Data::Int(number) => push_integer(out, *number, options.digit_count()),
        Data::Decimal(number) => push_number(out, number, options.digit_count()),
        Data::String(text) => out.push_str(text.as_str()),
        Data::Bool(holds) => out.push_str(truth_field(*holds)),
        Data::DateTime(time) => push_time(out, time, options),
        Data::DateTimeIso(text) => out.push_str(text.as_str()),
        Data::Error(error) => out.push_str(error.as_str()),
        Data::Empty => Ok(()),
    }
}
