//! A line as text.
ghost use Rattle.std.specs.Prelude.{◌≡◌, ◌++◌, map, string_bytes, OnOk, OnErr, true};
ghost use Rattle.std.specs.List.{flat_map, list_all};
ghost use Rattle.std.specs.Option.{option_copied};
ghost use Rattle.cell_refs.specs.Words.{is_sheet_area};
ghost use Rattle.escaped_text.specs.Escaped.{AddsBehind, escaped};
ghost use Rattle.list_lines.specs.Fields.{value_text, further_texts, field_texts, series_text};
ghost use Rattle.list_lines.specs.Fields.{value_meant, field_meant, series_meant, text_line};
ghost use Rattle.list_lines.specs.Fields.{optional_field, area_field, next_field};
ghost use Rattle.list_lines.specs.Inside.{LiesInWorksheet, LiesInside, AreInside};

use crate::content::{Content, Listed};
use crate::field::Field;
use cell_refs::{Dimensions, push_reference};
use escaped_text::push_escaped;
use std::alloc::AllocError;

/// Appends a text behind a mark.
fn push_marked(out: &mut String, mark: &str, text: &str) -> Result<(), AllocError>
    ensures ok { OnOk result
        (string_bytes out.new ≡ string_bytes out.old ++ (mark.now ++ escaped text.now)) }
    ensures err { OnErr result (AddsBehind (string_bytes out.old) (string_bytes out.new)) }
{
    out.push_str(mark)?;
    push_escaped(out, text)
}

/// Appends a text behind `=`, or `-` where there is none.
fn push_optional(out: &mut String, text: Option<&str>) -> Result<(), AllocError>
    ensures ok { OnOk result (string_bytes out.new
        ≡ string_bytes out.old ++ optional_field (option_copied text.entry)) }
    ensures err { OnErr result (AddsBehind (string_bytes out.old) (string_bytes out.new)) }
{
    match text {
        Some(text) => push_marked(out, "=", text),
        None => out.push_str("-"),
    }
}

/// Appends the references of two corners, with a colon between them.
pub fn push_area(out: &mut String, area: Dimensions) -> Result<(), AllocError>
    requires { LiesInWorksheet area }
    ensures ok { OnOk result
        (string_bytes out.new ≡ string_bytes out.old ++ area_field area) }
    ensures err { OnErr result (AddsBehind (string_bytes out.old) (string_bytes out.new)) }
{
    push_reference(out, area.start.0, area.start.1)?;
    out.push_str(":")?;
    push_reference(out, area.end.0, area.end.1)
}

/// Appends what a field holds.
fn push_content(out: &mut String, content: Content<'_>) -> Result<(), AllocError>
    requires { LiesInside content }
    ensures ok { OnOk result (string_bytes out.new
        ≡ string_bytes out.old ++ value_text (value_meant content.entry)) }
    ensures err { OnErr result (AddsBehind (string_bytes out.old) (string_bytes out.new)) }
{
    match content {
        Content::Word(word) => out.push_str(word),
        Content::Text(text) => push_escaped(out, text),
        Content::Marked(mark, text) => push_marked(out, mark, text),
        Content::Optional(text) => push_optional(out, text),
        Content::Position(position) => push_reference(out, position.0, position.1),
        Content::Area(area) => push_area(out, area),
        Content::OptionalArea(Some(area)) => push_area(out, area),
        Content::OptionalArea(None) => out.push_str("-"),
    }
}

/// Appends fields, each behind a tab.
fn push_further(out: &mut String, fields: &[Field<'_>]) -> Result<(), AllocError>
    ensures ok { let printed = further_texts (map field_meant fields.now) in
        OnOk result (string_bytes out.new ≡ string_bytes out.old ++ printed) }
    ensures err { OnErr result (AddsBehind (string_bytes out.old) (string_bytes out.new)) }
{
    for field in fields {
        out.push_str("\t")?;
        push_content(out, field.content)?;
    }
    Ok(())
}

/// Appends fields, with tabs between them.
fn push_fields(out: &mut String, fields: &[Field<'_>]) -> Result<(), AllocError>
    ensures ok { let printed = field_texts (map field_meant fields.now) in
        OnOk result (string_bytes out.new ≡ string_bytes out.old ++ printed) }
    ensures err { OnErr result (AddsBehind (string_bytes out.old) (string_bytes out.new)) }
{
    match fields {
        [first, others @ ..] => {
            push_content(out, first.content)?;
            push_further(out, others)
        }
        [] => Ok(()),
    }
}

/// Appends texts, each behind a tab.
fn push_texts(out: &mut String, texts: &[String]) -> Result<(), AllocError>
    ensures ok { let printed = flat_map (λ one. next_field (escaped one))
        (map string_bytes texts.now) in
        OnOk result (string_bytes out.new ≡ string_bytes out.old ++ printed) }
    ensures err { OnErr result (AddsBehind (string_bytes out.old) (string_bytes out.new)) }
{
    for text in texts {
        out.push_str("\t")?;
        push_escaped(out, text.as_str())?;
    }
    Ok(())
}

/// Appends areas, each behind a tab.
fn push_areas(out: &mut String, areas: &[Dimensions]) -> Result<(), AllocError>
    requires { list_all is_sheet_area areas.now ≡ true }
    ensures ok { let printed = flat_map (λ one. next_field (area_field one)) areas.now in
        OnOk result (string_bytes out.new ≡ string_bytes out.old ++ printed) }
    ensures err { OnErr result (AddsBehind (string_bytes out.old) (string_bytes out.new)) }
{
    for area in areas {
        out.push_str("\t")?;
        push_area(out, *area)?;
    }
    Ok(())
}

fn push_listed(out: &mut String, listed: Listed<'_>) -> Result<(), AllocError>
    requires { AreInside listed }
    ensures ok { OnOk result (string_bytes out.new
        ≡ string_bytes out.old ++ series_text (series_meant listed.entry)) }
    ensures err { OnErr result (AddsBehind (string_bytes out.old) (string_bytes out.new)) }
{
    match listed {
        Listed::Nothing => Ok(()),
        Listed::Texts(_, texts) => push_texts(out, texts),
        Listed::Areas(_, areas) => push_areas(out, areas),
    }
}

/// Appends a line of fields as text. A refusal may leave a front of it behind.
pub fn push_text_form(
    out: &mut String,
    fields: &[Field<'_>],
    listed: Listed<'_>,
) -> Result<(), AllocError>
    requires { AreInside listed }
    ensures ok { let printed = text_line (map field_meant fields.now) (series_meant listed.entry) in
        OnOk result (string_bytes out.new ≡ string_bytes out.old ++ printed) }
    ensures err { OnErr result (AddsBehind (string_bytes out.old) (string_bytes out.new)) }
{
    push_fields(out, fields)?;
    push_listed(out, listed)?;
    out.push_str("\n")
}
