//! Which values and formulas are written so that they read back.
ghost use Rattle.std.specs.Prelude.{◌≡◌, ◌↔◌, IsTrue, map, not, length, ◌==◌, true};
ghost use Rattle.std.specs.List.{list_all, list_any};
ghost use Rattle.cell_data.specs.Words.{value_of_data, value_pairs, formula_pairs};
ghost use Rattle.decimals.specs.Words.{number_of};
ghost use Rattle.xlsx_writer.specs.Writable.{is_decimal, is_kept, is_writable_value, counts_from};
ghost use Rattle.xlsx_writer.specs.Writable.{have_one_epoch, are_writable_values};
ghost use Rattle.xlsx_writer.specs.Writable.{are_writable_formulas, IsWritable, text_has_zero};
ghost use Rattle.xlsx_writer.specs.Writable.{has_zero, has_zero_left};
ghost use Rattle.xlsx_writer.specs.WrittenSheet.{is_from_1904};
ghost use Rattle.written_markup.specs.Words.{has_byte};

use crate::form::WrittenForm;
use cell_data::{CellErrorType, Data, Range};
use decimals::Decimal;

/// A decimal is in its one form, as its parts fit their types.
fn decimals_have_one_form(number: Decimal)
    ensures { is_decimal (number_of number) ≡ true }
{
    let (_mantissa, _exponent) = (number.mantissa(), number.exponent());
}

fn is_written(value: &Data) -> bool
    ensures { result ≡ is_writable_value (value_of_data value.now) }
{
    match value {
        Data::Int(_) | Data::Empty => false,
        Data::Error(error) => !matches!(error, CellErrorType::GettingData),
        Data::Decimal(number) => {
            decimals_have_one_form(*number);
            true
        }
        Data::DateTime(time) => {
            decimals_have_one_form(time.value);
            true
        }
        _ => true,
    }
}

/// Whether the time of a value counts from 1904, or from 1900, where it is one.
fn counts_from(is_1904: bool, value: &Data) -> bool
    ensures { result ≡ counts_from is_1904 (value_of_data value.now) }
{
    match value {
        Data::DateTime(time) => time.is_1904 == is_1904,
        _ => true,
    }
}

fn are_written(values: &Range<Data>) -> bool
    ensures { result ≡ list_all (λ entry. is_writable_value entry.1) (value_pairs values.now) }
{
    for (_, value) in values.used() {
        if !is_written(value) {
            return false;
        }
    }
    true
}

/// Whether all times count from 1904, or from 1900.
fn all_count_from(is_1904: bool, values: &Range<Data>) -> bool
    ensures { result ≡ list_all (λ entry. counts_from is_1904 entry.1) (value_pairs values.now) }
{
    for (_, value) in values.used() {
        if !counts_from(is_1904, value) {
            return false;
        }
    }
    true
}

fn are_writable_values(values: &Range<Data>) -> bool
    ensures { result ≡ are_writable_values (value_pairs values.now) }
{
    are_written(values) && (all_count_from(true, values) || all_count_from(false, values))
}

fn are_writable_formulas(formulas: &Range<String>) -> bool
    ensures { result ≡ are_writable_formulas (formula_pairs formulas.now) }
{
    for (_, formula) in formulas.used() {
        if formula.is_empty() {
            return false;
        }
    }
    true
}

/// Whether values and formulas are written so that they read back: each area is the least that has
/// the used cells, no value is `Empty`, an `Int` or the error `GettingData`, all dates and
/// durations count from the same first year, and no formula is empty. It takes no memory.
pub fn is_writable(values: &Range<Data>, formulas: &Range<String>) -> bool
    ensures { IsTrue result ↔ IsWritable values.now formulas.now }
{
    (values.is_least() && formulas.is_least())
        && (are_writable_values(values) && are_writable_formulas(formulas))
}

fn is_from_1904(value: &Data) -> bool
    ensures { result ≡ is_from_1904 (value_of_data value.now) }
{
    match value {
        Data::DateTime(time) => time.is_1904,
        _ => false,
    }
}

/// Whether some date or duration counts from 1904.
pub fn has_time_from_1904(values: &Range<Data>) -> bool
    ensures { result ≡ list_any (λ entry. is_from_1904 entry.1) (value_pairs values.now) }
{
    for (_, value) in values.used() {
        if is_from_1904(value) {
            return true;
        }
    }
    false
}

// ---- characters 0

fn has_zero(text: &[u8]) -> bool
    ensures { result ≡ has_byte 0 text.now }
{
    text.iter().any(|byte| *byte == 0)
}

/// Whether the text of a value has a character 0 that isn't written as an escape.
fn text_has_zero(form: WrittenForm, text: &[u8]) -> bool
    ensures { result ≡ text_has_zero form text.now }
{
    match form {
        WrittenForm::PackageText => has_zero(text),
        WrittenForm::WorkbookFile => false,
    }
}

fn value_has_zero(form: WrittenForm, value: &Data) -> bool
    ensures { result ≡ has_zero form (value_of_data value.now) }
{
    match value {
        Data::String(text) => text_has_zero(form, text.as_str().as_bytes()),
        Data::DateTimeIso(text) => has_zero(text.as_str().as_bytes()),
        _ => false,
    }
}

fn values_have_zero(form: WrittenForm, values: &Range<Data>) -> bool
    ensures { result ≡ list_any (λ entry. has_zero form entry.1) (value_pairs values.now) }
{
    for (_, value) in values.used() {
        if value_has_zero(form, value) {
            return true;
        }
    }
    false
}

fn formulas_have_zero(formulas: &Range<String>) -> bool
    ensures { result ≡ list_any (λ entry. has_byte 0 entry.1) (formula_pairs formulas.now) }
{
    for (_, formula) in formulas.used() {
        if has_zero(formula.as_str().as_bytes()) {
            return true;
        }
    }
    false
}

/// Whether a character 0 is left in what is written in a form of a sheet of this name with these
/// values and formulas, which no markup has (XML 1.0, 2.2). It takes no memory.
pub fn has_zero_left(
    form: WrittenForm,
    sheet_name: &str,
    values: &Range<Data>,
    formulas: &Range<String>,
) -> bool
    ensures { result ≡
        has_zero_left form sheet_name.now (value_pairs values.now) (formula_pairs formulas.now) }
{
    has_zero(sheet_name.as_bytes())
        || values_have_zero(form, values)
        || formulas_have_zero(formulas)
}
