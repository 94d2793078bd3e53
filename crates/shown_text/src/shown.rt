//! The text of a value under a code. A refusal may leave a front of what is appended behind.
ghost use Rattle.std.specs.Prelude.{◌≡◌, ◌++◌, ℕ, List, string_bytes, pos, OnOk, OnErr};
ghost use Rattle.escaped_text.specs.Escaped.{AddsBehind};
ghost use Rattle.decimals.specs.Words.{number_of, decimal_from};
ghost use Rattle.cell_data.specs.Words.{value_of_data};
ghost use Rattle.excel_dates.specs.Words.{moment_of, has_moment, iso_text};
ghost use Rattle.format_codes.specs.Words.{number_section, text_section_in, IsFormatOf};
ghost use Rattle.shown_text.specs.ShownText.{text_in_section, number_or_general, integer_shown};
ghost use Rattle.shown_text.specs.ShownText.{text_shown, days_otherwise, number_shown, shown_text};

use crate::general::push_general;
use crate::sections::{push_in_section, push_text_pieces, truth_word};
use cell_data::{Data, Decimal, ExcelDateTime};
use excel_dates::ExcelDates;
use format_codes::ShownFormat;
use itoa::Buffer;
use std::alloc::AllocError;

/// Appends a number in the section that shows it, and under General where none does.
fn push_in_its_section(
    out: &mut String,
    format: &ShownFormat,
    is_1904: bool,
    number: &Decimal,
) -> Result<(), AllocError>
    ensures ok { OnOk result ((code : List ℕ) → IsFormatOf code format.now
        → string_bytes out.new ≡ string_bytes out.old ++ text_in_section is_1904
        (number_of number.now) (number_section code (number_of number.now))) }
    ensures err { OnErr result (AddsBehind (string_bytes out.old) (string_bytes out.new)) }
{
    match format.section_for(*number) {
        Some(section) => push_in_section(out, is_1904, &section, number),
        None => push_general(out, number),
    }
}

/// Appends a number under a code, and under General where it isn't supported.
fn push_number_shown(
    out: &mut String,
    format: &ShownFormat,
    is_1904: bool,
    number: &Decimal,
) -> Result<(), AllocError>
    ensures ok { OnOk result ((code : List ℕ) → IsFormatOf code format.now
        → string_bytes out.new ≡ string_bytes out.old
        ++ number_or_general is_1904 code (number_of number.now)) }
    ensures err { OnErr result (AddsBehind (string_bytes out.old) (string_bytes out.new)) }
{
    if !format.is_supported() {
        return push_general(out, number);
    }
    push_in_its_section(out, format, is_1904, number)
}

/// Appends a whole number under a code.
fn push_integer_shown(
    out: &mut String,
    format: &ShownFormat,
    is_1904: bool,
    number: i64,
) -> Result<(), AllocError>
    ensures ok { OnOk result ((code : List ℕ) → IsFormatOf code format.now
        → string_bytes out.new ≡ string_bytes out.old
        ++ integer_shown is_1904 code number (decimal_from (number, pos 0))) }
    ensures err { OnErr result (AddsBehind (string_bytes out.old) (string_bytes out.new)) }
{
    match Decimal::from_parts(i128::from(number), 0) {
        Some(decimal) => push_number_shown(out, format, is_1904, &decimal),
        None => {
            let mut buffer = Buffer::new();
            out.push_str(buffer.format(number))
        }
    }
}

/// Appends days as ISO 8601 has them, and under General where they stand for no moment.
fn push_days_otherwise(out: &mut String, date: &ExcelDateTime) -> Result<(), AllocError>
    ensures ok { OnOk result (string_bytes out.new ≡ string_bytes out.old
        ++ days_otherwise (number_of date.now.value) date.now.kind date.now.is_1904) }
    ensures err { OnErr result (AddsBehind (string_bytes out.old) (string_bytes out.new)) }
{
    if date.has_moment() {
        return date.push_iso(out);
    }
    push_general(out, &date.value)
}

/// Appends days under a code, and as ISO 8601 has them where it isn't supported.
fn push_days_shown(
    out: &mut String,
    format: &ShownFormat,
    date: &ExcelDateTime,
) -> Result<(), AllocError>
    ensures ok { OnOk result ((code : List ℕ) → IsFormatOf code format.now
        → string_bytes out.new ≡ string_bytes out.old
        ++ number_shown date.now.is_1904 code (number_of date.now.value)
        (days_otherwise (number_of date.now.value) date.now.kind date.now.is_1904)) }
    ensures err { OnErr result (AddsBehind (string_bytes out.old) (string_bytes out.new)) }
{
    if !format.is_supported() {
        return push_days_otherwise(out, date);
    }
    push_in_its_section(out, format, date.is_1904, &date.value)
}

/// Appends a text under a code.
fn push_text_shown(out: &mut String, format: &ShownFormat, text: &str) -> Result<(), AllocError>
    ensures ok { OnOk result ((code : List ℕ) → IsFormatOf code format.now
        → string_bytes out.new ≡ string_bytes out.old ++ text_shown code text.now) }
    ensures err { OnErr result (AddsBehind (string_bytes out.old) (string_bytes out.new)) }
{
    match format.text_section() {
        Some(pieces) => push_text_pieces(out, text, pieces),
        None => out.push_str(text),
    }
}

/// Appends the text that a spreadsheet program shows of a value under the code that the format was
/// cut from, in the language en-US and in a column of any width.
///
/// A number counts days from 1904 where `is_1904` says so, and a date as it says itself. Under a
/// code that isn't supported a number is shown under General, a date as ISO 8601 has it, and a text
/// as it is; an error is its own text under any code. A refusal may leave a front of the text
/// behind what was there.
#[tactic(auto, unfolding(crate::specs::ShownText::shown_text))]
pub fn push_shown(
    out: &mut String,
    format: &ShownFormat,
    value: &Data,
    is_1904: bool,
) -> Result<(), AllocError>
    ensures ok { OnOk result ((code : List ℕ) → IsFormatOf code format.now
        → string_bytes out.new ≡ string_bytes out.old
        ++ shown_text is_1904 code (value_of_data value.now)) }
    ensures err { OnErr result (AddsBehind (string_bytes out.old) (string_bytes out.new)) }
{
    match value {
        Data::Int(number) => push_integer_shown(out, format, is_1904, *number),
        Data::Decimal(number) => push_number_shown(out, format, is_1904, number),
        Data::String(text) => push_text_shown(out, format, text),
        Data::Bool(truth) => push_text_shown(out, format, truth_word(*truth)),
        Data::DateTime(date) => push_days_shown(out, format, date),
        Data::DateTimeIso(text) => out.push_str(text),
        Data::Error(error) => out.push_str(error.as_str()),
        Data::Empty => Ok(()),
    }
}
