//! The value of a cell as it is written: its type, its style and its text.
ghost use Rattle.std.specs.Prelude.{◌≡◌, ◌++◌, [], codes, string_bytes, OnOk};
ghost use Rattle.std.specs.Option.{option_copied};
ghost use Rattle.cell_data.specs.Words.{value_of_data};
ghost use Rattle.written_markup.specs.Words.{with_events, element, attribute, attribute_if};
ghost use Rattle.written_markup.specs.Words.{text_events};
ghost use Rattle.xlsx_writer.specs.WrittenSheet.{type_written, style_written, value_written};
ghost use Rattle.xlsx_writer.specs.WrittenSheet.{value_events, time_style, text_written};
ghost use Rattle.xlsx_writer.specs.WrittenSheet.{has_outer_space, text_attributes};
ghost use Rattle.xlsx_writer.specs.WrittenSheet.{value_attributes};
ghost use Rattle.xlsx_writer.specs.Writing.{value_to_write};

use crate::form::WrittenForm;
use crate::least_escapes::push_least_escaped;
use crate::texts::{push_text, push_underscores_escaped};
use cell_data::{Data, ExcelDateTimeType};
use std::alloc::AllocError;
use written_markup::PackageBuilder;

/// The attribute of the type of a cell with a value.
pub fn type_attribute(value: Option<&Data>) -> &'static str
    ensures { let kind = type_written (value_to_write (option_copied value.entry)) in
        result.now ≡ attribute_if (codes "t") kind }
{
    match value {
        Some(Data::String(_)) => " t=\"str\"",
        Some(Data::Bool(_)) => " t=\"b\"",
        Some(Data::DateTimeIso(_)) => " t=\"d\"",
        Some(Data::Error(_)) => " t=\"e\"",
        _ => "",
    }
}

fn time_style(kind: ExcelDateTimeType) -> &'static str
    ensures { result.now ≡ attribute (codes "s") (time_style kind) }
{
    match kind {
        ExcelDateTimeType::DateTime => " s=\"1\"",
        ExcelDateTimeType::TimeDelta => " s=\"2\"",
    }
}

/// The attribute of the style of a cell with a value: that of dates, that of durations, or none.
pub fn style_attribute(value: Option<&Data>) -> &'static str
    ensures { let style = style_written (value_to_write (option_copied value.entry)) in
        result.now ≡ attribute_if (codes "s") style }
{
    match value {
        Some(Data::DateTime(time)) => time_style(time.kind),
        _ => "",
    }
}

/// Appends a text as it is written in a `v`.
fn push_text_written(out: &mut String, form: WrittenForm, text: &str) -> Result<(), AllocError>
    ensures { OnOk result
        (string_bytes out.new ≡ string_bytes out.old ++ text_written form text.now) }
{
    match form {
        WrittenForm::PackageText => push_underscores_escaped(out, text),
        WrittenForm::WorkbookFile => push_least_escaped(out, text),
    }
}

/// Appends the text of a value.
fn push_value_text(out: &mut String, form: WrittenForm, value: &Data) -> Result<(), AllocError>
    ensures { let text = value_written form (value_of_data value.now) in
        OnOk result (string_bytes out.new ≡ string_bytes out.old ++ text) }
{
    match value {
        Data::Decimal(number) => number.push_to(out),
        Data::String(text) => push_text_written(out, form, text.as_str()),
        Data::Bool(true) => out.push_str("1"),
        Data::Bool(false) => out.push_str("0"),
        Data::DateTime(time) => time.value.push_to(out),
        Data::DateTimeIso(text) => out.push_str(text.as_str()),
        Data::Error(error) => out.push_str(error.as_str()),
        Data::Int(_) | Data::Empty => Ok(()),
    }
}

/// Whether a text begins or ends with white space.
fn has_outer_space(text: &[u8]) -> bool
    ensures { result ≡ has_outer_space text.now }
{
    if text.is_empty() {
        return false;
    }
    text[0].is_ascii_whitespace() || text[text.len() - 1].is_ascii_whitespace()
}

/// The attributes of a `v` with a text.
fn text_attributes(form: WrittenForm, text: &[u8]) -> &'static str
    ensures { result.now ≡ text_attributes form text.now }
{
    match form {
        WrittenForm::PackageText => "",
        WrittenForm::WorkbookFile => {
            if has_outer_space(text) {
                " xml:space=\"preserve\""
            } else {
                ""
            }
        }
    }
}

/// The attributes of the `v` of a value.
fn value_attributes(form: WrittenForm, value: &Data) -> &'static str
    ensures { result.now ≡ value_attributes form (value_of_data value.now) }
{
    match value {
        Data::String(text) => text_attributes(form, text.as_str().as_bytes()),
        _ => "",
    }
}

/// Appends the `v` of a value, whose text is made in `buffer`.
fn push_some_value(
    builder: &mut PackageBuilder,
    buffer: &mut String,
    form: WrittenForm,
    value: &Data,
) -> Result<(), AllocError>
    ensures { let text = value_written form (value_of_data value.now) in
        let attributes = value_attributes form (value_of_data value.now) in
        let written = element (codes "v") attributes (text_events text) in
        OnOk result (builder.new ≡ with_events builder.old written) }
{
    buffer.clear();
    push_value_text(buffer, form, value)?;
    builder.open("v", value_attributes(form, value))?;
    push_text(builder, buffer.as_str())?;
    builder.close("v")
}

/// Appends the `v` of a cell, where it has a value; the value's text is made in `buffer`.
pub fn push_value(
    builder: &mut PackageBuilder,
    buffer: &mut String,
    form: WrittenForm,
    value: Option<&Data>,
) -> Result<(), AllocError>
    ensures { let events = value_events form (value_to_write (option_copied value.entry)) in
        OnOk result (builder.new ≡ with_events builder.old events) }
{
    match value {
        None | Some(Data::Empty) => Ok(()),
        Some(value) => push_some_value(builder, buffer, form, value),
    }
}
