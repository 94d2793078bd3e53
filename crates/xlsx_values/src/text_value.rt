ghost use Rattle.std.specs.Prelude.{◌≡◌, ℕ, List, ◌∷◌, Ok, map, string_bytes, IfOk, IfErr};
ghost use Rattle.std.specs.Str.{str_to_ascii_lowercase, str_eq_ignore_ascii_case};
ghost use Rattle.part_events.specs.Words.{Event, event_of};
ghost use Rattle.cell_data.specs.Words.{value_of_data_ref};
ghost use Rattle.decimals.specs.Words.{number_of};
ghost use Rattle.xlsx_sections.specs.Words.{ElementFails};
ghost use Rattle.xlsx_values.specs.ValueContext.{kind_of, context_of, IsTextValueError};
ghost use Rattle.xlsx_values.specs.Value.{shared_value, lower_truth, truth_value, error_value};
ghost use Rattle.xlsx_values.specs.Value.{formatted, number_value, value_of_first, value_of_joined};
ghost use Rattle.xlsx_values.specs.Value.{of_first, first_text};

use crate::context::ValueContext;
use crate::types::CellType;
use cell_data::{CellErrorType, CellFormat, DataRef, Decimal, ExcelDateTime, ExcelDateTimeType};
use part_events::PartEvent;
use std::alloc::Global;
use xlsx_error::XlsxError;
use xlsx_sections::number_text;
use xlsx_strings::unescaped;

/// The value of the text of a shared string, which is its place, counted from 0.
fn shared_value(strings: &[String], text: &str) -> Result<DataRef, XlsxError>
    ensures ok { IfOk result (λ own.
        shared_value (map string_bytes strings.now) text.now ≡ Ok (value_of_data_ref own)) }
    ensures err { IfErr result (λ error. (at behind : ℕ) →
        ElementFails (shared_value (map string_bytes strings.now) text.now) at behind error) }
    ensures kind { IfErr result IsTextValueError }
{
    if text.is_empty() {
        return Ok(DataRef::Empty);
    }
    let place = number_text(text).unwrap_or(0) as usize;
    if place < strings.len() {
        return Ok(DataRef::SharedString(place));
    }
    Err(XlsxError::Unexpected("Cell string index not found in shared strings table"))
}

/// Whether a text is this one, in small letters or capitals.
#[tactic(auto, using(crate::proofs::TextValues::decided))]
fn is_same(text: &str, other: &str) -> bool
    ensures { result ≡ str_eq_ignore_ascii_case text.now other.now }
{
    text.eq_ignore_ascii_case(other)
}

/// The boolean of a text, in small letters or capitals.
fn truth_of(text: &str) -> Option<bool>
    ensures { result ≡ lower_truth (str_to_ascii_lowercase text.now) }
{
    if is_same(text, "0") || is_same(text, "false") {
        Some(false)
    } else if is_same(text, "1") || is_same(text, "true") {
        Some(true)
    } else {
        None
    }
}

/// The value of the text of a boolean.
fn truth_value(alloc: Global, text: &str) -> Result<DataRef, XlsxError>
    ensures ok { IfOk result (λ own. truth_value text.now ≡ Ok (value_of_data_ref own)) }
    ensures err { IfErr result (λ error. (at behind : ℕ) →
        ElementFails (truth_value text.now) at behind error) }
    ensures kind { IfErr result IsTextValueError }
{
    let trimmed = text.trim();
    if trimmed.is_empty() {
        return Ok(DataRef::Empty);
    }
    match truth_of(trimmed) {
        Some(truth) => Ok(DataRef::Bool(truth)),
        None => Err(XlsxError::Unrecognized {
            typ: "boolean cell value",
            val: String::from_str(alloc, text)?,
        }),
    }
}

/// The value of the text of an error.
fn error_value(alloc: Global, text: &str) -> Result<DataRef, XlsxError>
    ensures ok { IfOk result (λ own. error_value text.now ≡ Ok (value_of_data_ref own)) }
    ensures err { IfErr result (λ error. (at behind : ℕ) →
        ElementFails (error_value text.now) at behind error) }
    ensures kind { IfErr result IsTextValueError }
{
    match text.parse::<CellErrorType>() {
        Ok(error) => Ok(DataRef::Error(error)),
        Err(_) => Err(XlsxError::CellError(String::from_str(alloc, text)?)),
    }
}

/// The number of a cell in a format: a date or a time that has passed, where the format says so.
fn formatted(is_1904: bool, format: CellFormat, number: Decimal) -> DataRef
    ensures { value_of_data_ref result ≡ formatted is_1904 format (number_of number) }
{
    let kind = match format {
        CellFormat::Other => return DataRef::Decimal(number),
        CellFormat::DateTime => ExcelDateTimeType::DateTime,
        CellFormat::TimeDelta => ExcelDateTimeType::TimeDelta,
    };
    DataRef::DateTime(ExcelDateTime {
        value: number,
        kind,
        is_1904,
    })
}

/// The value of the text of a number, which is typed as one, or has no type. One that has none is
/// itself the value, where it is no number.
fn number_value(
    alloc: Global,
    is_1904: bool,
    format: CellFormat,
    is_typed: bool,
    text: &str,
) -> Result<DataRef, XlsxError>
    ensures ok { IfOk result (λ own.
        number_value is_1904 format is_typed text.now ≡ Ok (value_of_data_ref own)) }
    ensures err { IfErr result (λ error. (at behind : ℕ) →
        ElementFails (number_value is_1904 format is_typed text.now) at behind error) }
    ensures kind { IfErr result IsTextValueError }
{
    if text.is_empty() {
        return Ok(DataRef::Empty);
    }
    match Decimal::parse(text) {
        Some(number) => Ok(formatted(is_1904, format, number)),
        None if is_typed => Err(XlsxError::ParseFloat(String::from_str(alloc, text)?)),
        None => Ok(DataRef::String(String::from_str(alloc, text)?)),
    }
}

/// The value of the text of a `v` whose text is one event, by the type of its cell. Other types
/// have none.
pub(crate) fn value_of_text(
    alloc: Global,
    book: ValueContext<'_>,
    format: CellFormat,
    typ: &CellType,
    text: &str,
) -> Result<DataRef, XlsxError>
    ensures ok { let answer = value_of_first (context_of book.entry) format (kind_of typ.now) in
        IfOk result (λ own. answer text.now ≡ Ok (value_of_data_ref own)) }
    ensures err { let answer = value_of_first (context_of book.entry) format (kind_of typ.now) in
        IfErr result (λ error. (at behind : ℕ) →
        ElementFails (answer text.now) at behind error) }
    ensures kind { IfErr result IsTextValueError }
{
    match typ {
        CellType::Untyped => number_value(alloc, book.is_1904, format, false, text),
        CellType::Number => number_value(alloc, book.is_1904, format, true, text),
        CellType::Shared => shared_value(book.strings, text),
        CellType::Truth => truth_value(alloc, text),
        CellType::Error => error_value(alloc, text),
        CellType::Text | CellType::Date | CellType::Inline | CellType::Unknown(_) => {
            Ok(DataRef::Empty)
        }
    }
}

/// The value of the first event in a `v` whose text is one event.
pub(crate) fn value_of_event(
    alloc: Global,
    book: ValueContext<'_>,
    format: CellFormat,
    typ: &CellType,
    event: PartEvent<'_>,
) -> Result<DataRef, XlsxError>
    ensures ok { let read = value_of_first (context_of book.entry) format (kind_of typ.now) in
        IfOk result (λ own. (others : List Event) →
        of_first read (first_text (event_of event.entry ∷ others)) ≡ Ok (value_of_data_ref own)) }
    ensures err { let read = value_of_first (context_of book.entry) format (kind_of typ.now) in
        IfErr result (λ error. (at behind : ℕ) (others : List Event) →
        ElementFails (of_first read (first_text (event_of event.entry ∷ others))) at behind error) }
    ensures kind { IfErr result IsTextValueError }
{
    match event {
        PartEvent::Text(text) => value_of_text(alloc, book, format, typ, text),
        PartEvent::Start(_)
        | PartEvent::End(_)
        | PartEvent::CharData(_)
        | PartEvent::EntityRef(_)
        | PartEvent::Flaw(_)
        | PartEvent::Other => Ok(DataRef::Empty),
    }
}

/// The value of the joined text of a `v`, by the type of its cell. Other types have none.
pub(crate) fn value_of_joined(
    alloc: Global,
    typ: &CellType,
    text: String,
) -> Result<DataRef, XlsxError>
    ensures ok { let answer = value_of_joined (kind_of typ.now) (string_bytes text) in
        IfOk result (λ own. answer ≡ Ok (value_of_data_ref own)) }
    ensures err { let answer = value_of_joined (kind_of typ.now) (string_bytes text) in
        IfErr result (λ error. (at behind : ℕ) → ElementFails answer at behind error) }
    ensures kind { IfErr result IsTextValueError }
{
    match typ {
        CellType::Text => Ok(DataRef::String(unescaped(alloc, text)?)),
        CellType::Date => Ok(DataRef::DateTimeIso(text)),
        CellType::Unknown(own) => Err(XlsxError::CellTAttribute(String::from_str(
            alloc,
            own.as_str(),
        )?)),
        CellType::Untyped
        | CellType::Number
        | CellType::Shared
        | CellType::Truth
        | CellType::Error
        | CellType::Inline => Ok(DataRef::Empty),
    }
}
