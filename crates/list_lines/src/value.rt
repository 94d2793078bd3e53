//! A line as an object of JSON.
ghost use Rattle.std.specs.Prelude.{◌≡◌, ◌++◌, [], ◌∷◌, map, string_bytes, IfOk, OnOk, OnErr, true};
ghost use Rattle.std.specs.List.{list_all};
ghost use Rattle.cell_refs.specs.Words.{is_sheet_area, reference};
ghost use Rattle.escaped_text.specs.Escaped.{AddsBehind};
ghost use Rattle.json.specs.Json.{Members};
ghost use Rattle.json.specs.Token.{key, string, begin_array};
ghost use Rattle.json.specs.Tree.{members_tokens, items_tokens};
ghost use Rattle.json_lines.specs.JsonLines.{json_line, optional_member};
ghost use Rattle.list_lines.specs.Fields.{value_json, field_members, string_items, series_members};
ghost use Rattle.list_lines.specs.Fields.{line_value, area_field, value_meant, field_meant};
ghost use Rattle.list_lines.specs.Fields.{series_meant};
ghost use Rattle.list_lines.specs.Inside.{LiesInWorksheet, IsCellOfWorksheet, AreInside};
ghost use Rattle.std.specs.Str.{IsUtf8};

use crate::content::{Content, Listed};
use crate::field::Field;
use crate::text::push_area;
use cell_refs::{Dimensions, push_reference};
use json::Writer;
use json_lines::{end_line, write_text};
use std::alloc::{AllocError, Global};

/// The reference of a position, counted from 0, made in the scratch.
pub fn reference_in(scratch: &mut String, position: (u32, u32)) -> Result<&str, AllocError>
    requires { IsCellOfWorksheet position }
    ensures { IfOk result (λ text. text.now ≡ reference position) }
{
    scratch.clear();
    push_reference(scratch, position.0, position.1)?;
    Ok(scratch.as_str())
}

/// The references of two corners, made in the scratch.
fn area_in(scratch: &mut String, area: Dimensions) -> Result<&str, AllocError>
    requires { LiesInWorksheet area }
    ensures { IfOk result (λ text. text.now ≡ area_field area) }
{
    scratch.clear();
    push_area(scratch, area)?;
    Ok(scratch.as_str())
}

/// Writes the member of a field, where it isn't missing.
fn write_field(
    writer: &mut Writer,
    scratch: &mut String,
    field: &Field<'_>,
) -> Result<(), AllocError>
    ensures ok { OnOk result ((members : Members) →
        writer.new.tokens ++ members_tokens members ≡ writer.old.tokens
        ++ members_tokens (optional_member field.now.key.now
        (value_json (value_meant field.now.content)) members)) }
    ensures before { writer.new.before ≡ writer.old.before }
{
    let name = field.key;
    match field.content {
        Content::Word(text) => write_text(writer, name, text),
        Content::Text(text) => write_text(writer, name, text),
        Content::Marked(_, text) => write_text(writer, name, text),
        Content::Optional(Some(text)) => write_text(writer, name, text),
        Content::Position(position) => write_text(writer, name, reference_in(scratch, position)?),
        Content::Area(area) => write_text(writer, name, area_in(scratch, area)?),
        Content::OptionalArea(Some(area)) => write_text(writer, name, area_in(scratch, area)?),
        Content::Optional(None) | Content::OptionalArea(None) => Ok(()),
    }
}

/// Writes the members of fields.
fn write_fields(
    writer: &mut Writer,
    scratch: &mut String,
    fields: &[Field<'_>],
) -> Result<(), AllocError>
    ensures ok { OnOk result ((members : Members) →
        writer.new.tokens ++ members_tokens members ≡ writer.old.tokens
        ++ members_tokens (field_members (map field_meant fields.now) members)) }
    ensures before { writer.new.before ≡ writer.old.before }
{
    for field in fields {
        write_field(writer, scratch, field)?;
    }
    Ok(())
}

/// Writes texts as the items of an array.
fn write_texts(writer: &mut Writer, texts: &[String]) -> Result<(), AllocError>
    ensures ok { OnOk result (writer.new.tokens ≡ writer.old.tokens
        ++ begin_array ∷ items_tokens (string_items (map string_bytes texts.now))) }
    ensures before { writer.new.before ≡ writer.old.before }
{
    writer.begin_array()?;
    for text in texts {
        writer.string(text.as_str())?;
    }
    writer.end_array()
}

/// Writes areas as the items of an array.
fn write_areas(
    writer: &mut Writer,
    scratch: &mut String,
    areas: &[Dimensions],
) -> Result<(), AllocError>
    requires { list_all is_sheet_area areas.now ≡ true }
    ensures ok { OnOk result (writer.new.tokens ≡ writer.old.tokens
        ++ begin_array ∷ items_tokens (string_items (map area_field areas.now))) }
    ensures before { writer.new.before ≡ writer.old.before }
{
    writer.begin_array()?;
    for area in areas {
        writer.string(area_in(scratch, *area)?)?;
    }
    writer.end_array()
}

/// Writes the member of what ends a line, and the end of the object.
fn write_listed(
    writer: &mut Writer,
    scratch: &mut String,
    listed: Listed<'_>,
) -> Result<(), AllocError>
    requires { AreInside listed }
    ensures ok { OnOk result (writer.new.tokens ≡ writer.old.tokens
        ++ members_tokens (series_members (series_meant listed.entry))) }
    ensures before { writer.new.before ≡ writer.old.before }
{
    match listed {
        Listed::Nothing => {}
        Listed::Texts(name, texts) => {
            writer.key(name)?;
            write_texts(writer, texts)?;
        }
        Listed::Areas(name, areas) => {
            writer.key(name)?;
            write_areas(writer, scratch, areas)?;
        }
    }
    writer.end_object()
}

/// The line of fields as JSON.
fn value_line(
    alloc: Global,
    fields: &[Field<'_>],
    listed: Listed<'_>,
) -> Result<Vec<u8>, AllocError>
    requires { AreInside listed }
    ensures line { let value = line_value (map field_meant fields.now)
        (series_meant listed.entry) in
        IfOk result (λ out. out.items ≡ json_line value) }
    ensures utf8 { IfOk result (λ out. IsUtf8 out.items) }
{
    let mut writer = Writer::new(Vec::new(alloc));
    let mut scratch = String::new(alloc);
    writer.begin_object()?;
    write_fields(&mut writer, &mut scratch, fields)?;
    write_listed(&mut writer, &mut scratch, listed)?;
    end_line(writer)
}

/// Appends a line of fields as JSON. A refusal may leave a front of it behind.
pub fn push_json_form(
    out: &mut String,
    fields: &[Field<'_>],
    listed: Listed<'_>,
) -> Result<(), AllocError>
    requires { AreInside listed }
    ensures ok { let value = line_value (map field_meant fields.now) (series_meant listed.entry) in
        OnOk result (string_bytes out.new ≡ string_bytes out.old ++ json_line value) }
    ensures err { OnErr result (AddsBehind (string_bytes out.old) (string_bytes out.new)) }
{
    let bytes = value_line(*out.allocator(), fields, listed)?;
    // Safety: what the writer of JSON writes is UTF-8.
    let line = unsafe { String::from_utf8_unchecked(bytes) };
    out.push_str(line.as_str())
}
