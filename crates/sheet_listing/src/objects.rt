//! The line of a cell as an object of JSON.
ghost use Rattle.std.specs.Prelude.{◌≡◌, ◌++◌, ◌<◌, ◌∷◌, [], string_bytes, option_and_then, OnOk};
ghost use Rattle.std.specs.Prelude.{codes};
ghost use Rattle.std.specs.Option.{option_copied};
ghost use Rattle.cell_data.specs.Words.{value_of_data, time_value};
ghost use Rattle.decimals.specs.Words.{number_of};
ghost use Rattle.json.specs.Json.{Members};
ghost use Rattle.json.specs.Tree.{members_tokens, json_tokens};
ghost use Rattle.json_lines.specs.JsonLines.{json_line, optional_member};
ghost use Rattle.sheet_listing.specs.CellObjects.{kind_word, type_word, value_members, date_json};
ghost use Rattle.sheet_listing.specs.CellObjects.{other_members, formula_json, fill_json};
ghost use Rattle.sheet_listing.specs.CellObjects.{cell_object};
ghost use Rattle.sheet_listing.specs.SheetListing.{value_given, formula_given};

use crate::fill::fill_shown;
use cell_data::{Data, ExcelDateTime, ExcelDateTimeType};
use cell_refs::{MAX_COLUMNS, MAX_ROWS};
use cell_styles::Style;
use excel_dates::ExcelDates;
use json::Writer;
use json_lines::{end_line, write_decimal, write_text};
use list_lines::reference_in;
use std::alloc::{AllocError, Global};
use std::mem;

/// What lines are made in: the bytes of one, and a text in it.
#[derive(Drop)]
pub struct LineScratch {
    line: Vec<u8>,
    text: String,
}

impl LineScratch {
    pub fn new(alloc: Global) -> LineScratch {
        LineScratch {
            line: Vec::new(alloc),
            text: String::new(alloc),
        }
    }
}

fn kind_word(kind: ExcelDateTimeType) -> &'static str
    ensures { result.now ≡ kind_word kind }
{
    match kind {
        ExcelDateTimeType::DateTime => "date",
        ExcelDateTimeType::TimeDelta => "duration",
    }
}

fn type_word(value: Option<&Data>) -> &'static str
    ensures { result.now ≡ type_word (value_given (option_copied value.entry)) }
{
    match value {
        Some(Data::Int(_)) => "number",
        Some(Data::Decimal(_)) => "number",
        Some(Data::String(_)) => "text",
        Some(Data::Bool(_)) => "boolean",
        Some(Data::DateTime(time)) => kind_word(time.kind),
        Some(Data::DateTimeIso(_)) => "date",
        Some(Data::Error(_)) => "error",
        Some(Data::Empty) => "none",
        None => "none",
    }
}

/// Writes the member of the text of a date, where there is one.
fn write_date(
    writer: &mut Writer,
    scratch: &mut String,
    time: &ExcelDateTime,
) -> Result<(), AllocError>
    ensures ok { OnOk result ((members : Members) →
        writer.new.tokens ++ members_tokens members ≡ writer.old.tokens
        ++ members_tokens
        (optional_member (codes "date") (date_json (time_value time.now)) members)) }
    ensures before { writer.new.before ≡ writer.old.before }
{
    if !time.has_moment() {
        return Ok(());
    }
    scratch.clear();
    time.push_iso(scratch)?;
    write_text(writer, "date", scratch.as_str())
}

/// Writes the members of a date or of a time that has passed: its days, and its text.
fn write_time(
    writer: &mut Writer,
    scratch: &mut String,
    time: &ExcelDateTime,
) -> Result<(), AllocError>
    ensures ok { OnOk result ((members : Members) →
        writer.new.tokens ++ members_tokens members ≡ writer.old.tokens
        ++ members_tokens (value_members (time_value time.now) members)) }
    ensures before { writer.new.before ≡ writer.old.before }
{
    writer.key("value")?;
    write_decimal(writer, scratch, &time.value)?;
    write_date(writer, scratch, time)
}

/// Writes the members of a value.
fn write_data(writer: &mut Writer, scratch: &mut String, value: &Data) -> Result<(), AllocError>
    ensures ok { OnOk result ((members : Members) →
        writer.new.tokens ++ members_tokens members ≡ writer.old.tokens
        ++ members_tokens (value_members (value_of_data value.now) members)) }
    ensures before { writer.new.before ≡ writer.old.before }
{
    match value {
        Data::Int(number) => {
            writer.key("value")?;
            writer.i64(*number)
        }
        Data::Decimal(number) => {
            writer.key("value")?;
            write_decimal(writer, scratch, number)
        }
        Data::String(text) => write_text(writer, "value", text.as_str()),
        Data::Bool(holds) => {
            writer.key("value")?;
            writer.boolean(*holds)
        }
        Data::DateTime(time) => write_time(writer, scratch, time),
        Data::DateTimeIso(text) => {
            write_text(writer, "value", text.as_str())?;
            write_text(writer, "date", text.as_str())
        }
        Data::Error(error) => write_text(writer, "value", error.as_str()),
        Data::Empty => Ok(()),
    }
}

/// Writes the members of a value, where there is one.
fn write_value(
    writer: &mut Writer,
    scratch: &mut String,
    value: Option<&Data>,
) -> Result<(), AllocError>
    ensures ok { OnOk result ((members : Members) →
        writer.new.tokens ++ members_tokens members ≡ writer.old.tokens
        ++ members_tokens (value_members (value_given (option_copied value.entry)) members)) }
    ensures before { writer.new.before ≡ writer.old.before }
{
    match value {
        Some(value) => write_data(writer, scratch, value),
        None => Ok(()),
    }
}

/// Writes the member of a formula, where there is one.
fn write_formula(writer: &mut Writer, formula: Option<&String>) -> Result<(), AllocError>
    ensures ok { OnOk result ((members : Members) →
        writer.new.tokens ++ members_tokens members ≡ writer.old.tokens
        ++ members_tokens (optional_member (codes "formula")
        (formula_json (formula_given (option_copied formula.entry))) members)) }
    ensures before { writer.new.before ≡ writer.old.before }
{
    match formula {
        Some(formula) => {
            if formula.is_empty() {
                return Ok(());
            }
            write_text(writer, "formula", formula.as_str())
        }
        None => Ok(()),
    }
}

/// Writes the member of the color that a fill shows, where there is one.
fn write_fill(
    writer: &mut Writer,
    scratch: &mut String,
    style: Option<&Style>,
) -> Result<(), AllocError>
    ensures ok { OnOk result ((members : Members) →
        writer.new.tokens ++ members_tokens members ≡ writer.old.tokens
        ++ members_tokens (optional_member (codes "fill")
        (fill_json (option_copied style.entry)) members)) }
    ensures before { writer.new.before ≡ writer.old.before }
{
    match fill_shown(style) {
        Some(color) => {
            scratch.clear();
            write!(scratch, "{color}")?;
            write_text(writer, "fill", scratch.as_str())
        }
        None => Ok(()),
    }
}

/// Writes the object of a position, counted from 0.
fn write_object(
    writer: &mut Writer,
    scratch: &mut String,
    position: (u32, u32),
    value: Option<&Data>,
    formula: Option<&String>,
    style: Option<&Style>,
) -> Result<(), AllocError>
    requires in_rows { position.0 < MAX_ROWS }
    requires in_columns { position.1 < MAX_COLUMNS }
    ensures ok { let own = cell_object position (value_given (option_copied value.entry))
        (formula_given (option_copied formula.entry)) (option_copied style.entry) in
        OnOk result (writer.new.tokens ≡ writer.old.tokens ++ json_tokens own) }
    ensures before { writer.new.before ≡ writer.old.before }
{
    writer.begin_object()?;
    write_text(writer, "cell", reference_in(scratch, position)?)?;
    write_text(writer, "type", type_word(value))?;
    write_value(writer, scratch, value)?;
    write_formula(writer, formula)?;
    write_fill(writer, scratch, style)?;
    writer.end_object()
}

/// Appends the line of a position, counted from 0, as an object of JSON.
pub fn push_object(
    out: &mut String,
    scratch: &mut LineScratch,
    position: (u32, u32),
    value: Option<&Data>,
    formula: Option<&String>,
    style: Option<&Style>,
) -> Result<(), AllocError>
    requires in_rows { position.0 < MAX_ROWS }
    requires in_columns { position.1 < MAX_COLUMNS }
    ensures { let own = cell_object position (value_given (option_copied value.entry))
        (formula_given (option_copied formula.entry)) (option_copied style.entry) in
        OnOk result (string_bytes out.new ≡ string_bytes out.old ++ json_line own) }
{
    let empty = Vec::new(*out.allocator());
    let mut bytes = mem::replace(&mut scratch.line, empty);
    bytes.clear();
    let mut writer = Writer::new(bytes);
    write_object(
        &mut writer,
        &mut scratch.text,
        position,
        value,
        formula,
        style,
    )?;
    let line = end_line(writer)?;
    // Safety: what the writer of JSON writes is UTF-8.
    out.push_str(unsafe { str::from_utf8_unchecked(&line) })?;
    scratch.line = line;
    Ok(())
}
