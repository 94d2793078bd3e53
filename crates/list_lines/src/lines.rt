ghost use Rattle.std.specs.Prelude.{◌≡◌, ◌++◌, map, string_bytes, OnOk, OnErr, IfSome, true};
ghost use Rattle.std.specs.Option.{option_copied};
ghost use Rattle.std.specs.List.{list_all};
ghost use Rattle.cell_refs.specs.Words.{is_sheet_area};
ghost use Rattle.escaped_text.specs.Escaped.{AddsBehind};
ghost use Rattle.list_lines.specs.Fields.{field_meant, series_meant, line};
ghost use Rattle.list_lines.specs.Inside.{IsCellOfWorksheet, LiesInWorksheet, AreInside};
ghost use Rattle.list_lines.specs.Lines.{sheet_line, name_line, pivot_line, area_line, link_line};
ghost use Rattle.list_lines.specs.Lines.{comment_line, property_line, custom_line, table_line};
ghost use Rattle.list_lines.specs.Lines.{position_line, position_areas_line, lone_text_line};

use crate::content::{LineForm, Listed};
use crate::field::Field;
use crate::text::push_text_form;
use crate::value::push_json_form;
use cell_refs::Dimensions;
use escaped_text::or_cut_back;
use std::alloc::AllocError;

/// Appends a line of fields in its form. A refusal may leave a front of it behind.
fn push_form(
    out: &mut String,
    form: LineForm,
    fields: &[Field<'_>],
    listed: Listed<'_>,
) -> Result<(), AllocError>
    requires { AreInside listed }
    ensures ok { let printed = line form (map field_meant fields.now) (series_meant listed.entry) in
        OnOk result (string_bytes out.new ≡ string_bytes out.old ++ printed) }
    ensures err { OnErr result (AddsBehind (string_bytes out.old) (string_bytes out.new)) }
{
    match form {
        LineForm::Text => push_text_form(out, fields, listed),
        LineForm::Json => push_json_form(out, fields, listed),
    }
}

/// Appends the line of fields, and of what is listed behind them, in its form. As text it has tabs
/// between the fields; as JSON it is an object of their keys, without those that are missing. A
/// refusal leaves the text as it was.
#[tactic(auto, using(escaped_text::proofs::Extending::cut_back))]
pub fn push_line(
    out: &mut String,
    form: LineForm,
    fields: &[Field<'_>],
    listed: Listed<'_>,
) -> Result<(), AllocError>
    requires { AreInside listed }
    ensures ok { let printed = line form (map field_meant fields.now) (series_meant listed.entry) in
        OnOk result (string_bytes out.new ≡ string_bytes out.old ++ printed) }
    ensures err { OnErr result (string_bytes out.new ≡ string_bytes out.old) }
{
    let len = out.len();
    let appended = push_form(out, form, fields, listed);
    or_cut_back(out, len, appended)
}

/// Appends the line of a sheet: its name, then its type and its state, in words. A refusal leaves
/// the text as it was.
pub fn push_sheet_line(
    out: &mut String,
    form: LineForm,
    name: &str,
    typ: &str,
    state: &str,
) -> Result<(), AllocError>
    ensures ok { let printed = sheet_line form name.now typ.now state.now in
        OnOk result (string_bytes out.new ≡ string_bytes out.old ++ printed) }
    ensures err { OnErr result (string_bytes out.new ≡ string_bytes out.old) }
{
    let fields = [
        Field::text("name", name),
        Field::word("type", typ),
        Field::word("state", state),
    ];
    push_line(out, form, &fields, Listed::Nothing)
}

/// Appends the line of a text alone: of the name of a part. A refusal leaves the text as it was.
pub fn push_text_line(out: &mut String, text: &str) -> Result<(), AllocError>
    ensures ok { OnOk result (string_bytes out.new ≡ string_bytes out.old
        ++ lone_text_line text.now) }
    ensures err { OnErr result (string_bytes out.new ≡ string_bytes out.old) }
{
    let fields = [Field::text("text", text)];
    push_line(out, LineForm::Text, &fields, Listed::Nothing)
}

/// Appends the line of a defined name: the name and what it stands for. A refusal leaves the text
/// as it was.
pub fn push_name_line(
    out: &mut String,
    form: LineForm,
    name: &str,
    formula: &str,
) -> Result<(), AllocError>
    ensures ok { let printed = name_line form name.now formula.now in
        OnOk result (string_bytes out.new ≡ string_bytes out.old ++ printed) }
    ensures err { OnErr result (string_bytes out.new ≡ string_bytes out.old) }
{
    let fields = [Field::text("name", name), Field::text("formula", formula)];
    push_line(out, form, &fields, Listed::Nothing)
}

/// Appends the line of a pivot table: the name of its sheet and its own. A refusal leaves the text
/// as it was.
pub fn push_pivot_line(
    out: &mut String,
    form: LineForm,
    sheet: &str,
    name: &str,
) -> Result<(), AllocError>
    ensures ok { let printed = pivot_line form sheet.now name.now in
        OnOk result (string_bytes out.new ≡ string_bytes out.old ++ printed) }
    ensures err { OnErr result (string_bytes out.new ≡ string_bytes out.old) }
{
    let fields = [Field::text("sheet", sheet), Field::text("name", name)];
    push_line(out, form, &fields, Listed::Nothing)
}

/// Appends the line of an area: the references of its two corners, as they were written, with a
/// colon between them. A refusal leaves the text as it was.
pub fn push_area_line(out: &mut String, form: LineForm, area: Dimensions) -> Result<(), AllocError>
    requires { LiesInWorksheet area }
    ensures ok { OnOk result (string_bytes out.new ≡ string_bytes out.old ++ area_line form area) }
    ensures err { OnErr result (string_bytes out.new ≡ string_bytes out.old) }
{
    let fields = [Field::area("area", area)];
    push_line(out, form, &fields, Listed::Nothing)
}

/// Appends the line of a link: its area, its target, its location, its displayed text and its
/// tooltip, of which each but the area may be missing. A refusal leaves the text as it was.
pub fn push_link_line(
    out: &mut String,
    form: LineForm,
    area: Dimensions,
    target: Option<&str>,
    location: Option<&str>,
    displayed: Option<&str>,
    tooltip: Option<&str>,
) -> Result<(), AllocError>
    requires { LiesInWorksheet area }
    ensures ok { let printed = link_line form area (option_copied target.entry)
        (option_copied location.entry) (option_copied displayed.entry)
        (option_copied tooltip.entry) in
        OnOk result (string_bytes out.new ≡ string_bytes out.old ++ printed) }
    ensures err { OnErr result (string_bytes out.new ≡ string_bytes out.old) }
{
    let fields = [
        Field::area("area", area),
        Field::optional("target", target),
        Field::optional("location", location),
        Field::optional("displayed", displayed),
        Field::optional("tooltip", tooltip),
    ];
    push_line(out, form, &fields, Listed::Nothing)
}

/// Appends the line of a comment: the position of its cell, whose row and column are counted from
/// 0, its author, which may be missing, and its text. A refusal leaves the text as it was.
pub fn push_comment_line(
    out: &mut String,
    form: LineForm,
    pos: (u32, u32),
    author: Option<&str>,
    text: &str,
) -> Result<(), AllocError>
    requires { IsCellOfWorksheet pos }
    ensures ok { let printed = comment_line form pos (option_copied author.entry) text.now in
        OnOk result (string_bytes out.new ≡ string_bytes out.old ++ printed) }
    ensures err { OnErr result (string_bytes out.new ≡ string_bytes out.old) }
{
    let fields = [
        Field::position("cell", pos),
        Field::optional("author", author),
        Field::marked("text", "=", text),
    ];
    push_line(out, form, &fields, Listed::Nothing)
}

/// Appends the line of a property, by the name of its field and its text. A refusal leaves the text
/// as it was.
pub fn push_property_line(
    out: &mut String,
    form: LineForm,
    name: &str,
    text: &str,
) -> Result<(), AllocError>
    ensures ok { let printed = property_line form name.now text.now in
        OnOk result (string_bytes out.new ≡ string_bytes out.old ++ printed) }
    ensures err { OnErr result (string_bytes out.new ≡ string_bytes out.old) }
{
    let fields = [Field::word("name", name), Field::marked("text", "=", text)];
    push_line(out, form, &fields, Listed::Nothing)
}

/// Appends the line of a property that a user named: as text the name stands behind `custom:`. A
/// refusal leaves the text as it was.
pub fn push_custom_line(
    out: &mut String,
    form: LineForm,
    name: &str,
    text: &str,
) -> Result<(), AllocError>
    ensures ok { let printed = custom_line form name.now text.now in
        OnOk result (string_bytes out.new ≡ string_bytes out.old ++ printed) }
    ensures err { OnErr result (string_bytes out.new ≡ string_bytes out.old) }
{
    let fields = [
        Field::marked("custom", "custom:", name),
        Field::marked("text", "=", text),
    ];
    push_line(out, form, &fields, Listed::Nothing)
}

/// Appends the line of a table: its name and that of its sheet, the area of its data, which it may
/// lack, and the names of its columns. A refusal leaves the text as it was.
pub fn push_table_line(
    out: &mut String,
    form: LineForm,
    name: &str,
    sheet: &str,
    area: Option<Dimensions>,
    columns: &[String],
) -> Result<(), AllocError>
    requires { IfSome area LiesInWorksheet }
    ensures ok { let printed = table_line form name.now sheet.now area
        (map string_bytes columns.now) in
        OnOk result (string_bytes out.new ≡ string_bytes out.old ++ printed) }
    ensures err { OnErr result (string_bytes out.new ≡ string_bytes out.old) }
{
    let fields = [
        Field::text("name", name),
        Field::text("sheet", sheet),
        Field::optional_area("area", area),
    ];
    push_line(out, form, &fields, Listed::Texts("columns", columns))
}

/// Appends the line of a position alone, whose row and column are counted from 0. A refusal leaves
/// the text as it was.
pub fn push_position_line(out: &mut String, pos: (u32, u32)) -> Result<(), AllocError>
    requires { IsCellOfWorksheet pos }
    ensures ok { OnOk result (string_bytes out.new ≡ string_bytes out.old ++ position_line pos) }
    ensures err { OnErr result (string_bytes out.new ≡ string_bytes out.old) }
{
    let fields = [Field::position("cell", pos)];
    push_line(out, LineForm::Text, &fields, Listed::Nothing)
}

/// Appends the line of a position, whose row and column are counted from 0, and of areas, each by
/// the references of its two corners with a colon between them. A refusal leaves the text as it
/// was.
pub fn push_position_areas_line(
    out: &mut String,
    pos: (u32, u32),
    areas: &[Dimensions],
) -> Result<(), AllocError>
    requires position { IsCellOfWorksheet pos }
    requires areas { list_all is_sheet_area areas.now ≡ true }
    ensures ok { OnOk result
        (string_bytes out.new ≡ string_bytes out.old ++ position_areas_line pos areas.now) }
    ensures err { OnErr result (string_bytes out.new ≡ string_bytes out.old) }
{
    let fields = [Field::position("cell", pos)];
    push_line(out, LineForm::Text, &fields, Listed::Areas("areas", areas))
}
