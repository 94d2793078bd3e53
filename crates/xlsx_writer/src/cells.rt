//! Rows and cells as they are written.
ghost use Rattle.std.specs.Prelude.{◌≡◌, ◌<◌, ◌++◌, codes, string_bytes, OnOk, IfSome};
ghost use Rattle.std.specs.Option.{option_copied, option_map};
ghost use Rattle.cell_refs.specs.Words.{row_reference};
ghost use Rattle.written_markup.specs.Words.{with_events, element, attribute, text_events};
ghost use Rattle.xlsx_writer.specs.WrittenSheet.{cell_attributes, master_attributes, value_events};
ghost use Rattle.xlsx_writer.specs.WrittenSheet.{group_text, derived_attributes, formula_events};
ghost use Rattle.xlsx_writer.specs.Writing.{value_to_write, given_formula, written_of};
ghost use Rattle.xlsx_writer.specs.Writing.{cell_to_write, is_open_row, entering, leaving};
ghost use Rattle.xlsx_writer.specs.Writing.{IsFormInSheet};

use crate::form::WrittenForm;
use crate::groups::{FormulaForm, GroupedFormula};
use crate::texts::push_text;
use crate::values::{push_value, style_attribute, type_attribute};
use cell_data::Data;
use cell_refs::{MAX_COLUMNS, MAX_ROWS, push_reference, push_row_reference};
use itoa::Buffer;
use std::alloc::AllocError;
use written_markup::PackageBuilder;

// ---- formulas

/// Appends the area of a group from its first formula, at a position counted from 0, down to a row.
fn push_group_text(out: &mut String, position: (u32, u32), last: u32) -> Result<(), AllocError>
    requires in_rows { position.0 < MAX_ROWS }
    requires in_columns { position.1 < MAX_COLUMNS }
    requires last { last < MAX_ROWS }
    ensures { OnOk result
        (string_bytes out.new ≡ string_bytes out.old ++ group_text position last) }
{
    push_reference(out, position.0, position.1)?;
    out.push_str(":")?;
    push_reference(out, last, position.1)
}

/// Puts the attributes of a group's first formula, at a position counted from 0, in place of what
/// the buffer holds.
fn put_master_attributes(
    buffer: &mut String,
    position: (u32, u32),
    last: u32,
    index: usize,
) -> Result<(), AllocError>
    requires in_rows { position.0 < MAX_ROWS }
    requires in_columns { position.1 < MAX_COLUMNS }
    requires last { last < MAX_ROWS }
    ensures { OnOk result (string_bytes buffer.new ≡ master_attributes position last index) }
{
    let mut digits = Buffer::new();
    buffer.clear();
    buffer.push_str(" t=\"shared\" ref=\"")?;
    push_group_text(buffer, position, last)?;
    buffer.push_str("\" si=\"")?;
    buffer.push_str(digits.format(index))?;
    buffer.push_str("\"")
}

/// Puts the attributes of another formula of a group in place of what the buffer holds.
fn put_derived_attributes(buffer: &mut String, index: usize) -> Result<(), AllocError>
    ensures { OnOk result (string_bytes buffer.new ≡ derived_attributes index) }
{
    let mut digits = Buffer::new();
    buffer.clear();
    buffer.push_str(" t=\"shared\" si=\"")?;
    buffer.push_str(digits.format(index))?;
    buffer.push_str("\"")
}

/// Appends an `f` with these attributes and this text.
fn push_with_text(
    builder: &mut PackageBuilder,
    attributes: &str,
    text: &str,
) -> Result<(), AllocError>
    ensures { OnOk result (builder.new ≡ with_events builder.old
        (element (codes "f") attributes.now (text_events text.now))) }
{
    builder.open("f", attributes)?;
    push_text(builder, text)?;
    builder.close("f")
}

/// Appends the `f` of a formula, at a position counted from 0; its attributes are made in `buffer`.
fn push_some_formula(
    builder: &mut PackageBuilder,
    buffer: &mut String,
    position: (u32, u32),
    formula: GroupedFormula<'_>,
) -> Result<(), AllocError>
    requires in_rows { position.0 < MAX_ROWS }
    requires in_columns { position.1 < MAX_COLUMNS }
    requires last { IsFormInSheet formula }
    ensures { let events = formula_events position (written_of formula.entry) in
        OnOk result (builder.new ≡ with_events builder.old events) }
{
    match formula.form {
        FormulaForm::Plain => push_with_text(builder, "", formula.text),
        FormulaForm::Master { last, index } => {
            put_master_attributes(buffer, position, last, index)?;
            push_with_text(builder, buffer.as_str(), formula.text)
        }
        FormulaForm::Derived { index } => {
            put_derived_attributes(buffer, index)?;
            builder.push_empty("f", buffer.as_str())
        }
    }
}

/// Appends the `f` of a cell, at a position counted from 0, where it has a formula; its attributes
/// are made in `buffer`.
fn push_formula(
    builder: &mut PackageBuilder,
    buffer: &mut String,
    position: (u32, u32),
    formula: Option<GroupedFormula<'_>>,
) -> Result<(), AllocError>
    requires in_rows { position.0 < MAX_ROWS }
    requires in_columns { position.1 < MAX_COLUMNS }
    requires last { IfSome formula IsFormInSheet }
    ensures { let events =
        given_formula position (option_map written_of formula.entry) in
        OnOk result (builder.new ≡ with_events builder.old events) }
{
    match formula {
        Some(formula) => push_some_formula(builder, buffer, position, formula),
        None => Ok(()),
    }
}

// ---- cells

/// Puts the attributes of the cell of a position, counted from 0, in place of what the buffer
/// holds.
fn put_cell_attributes(
    buffer: &mut String,
    position: (u32, u32),
    value: Option<&Data>,
) -> Result<(), AllocError>
    requires in_rows { position.0 < MAX_ROWS }
    requires in_columns { position.1 < MAX_COLUMNS }
    ensures { let attributes =
        cell_attributes position (value_to_write (option_copied value.entry)) in
        OnOk result (string_bytes buffer.new ≡ attributes) }
{
    buffer.clear();
    buffer.push_str(" r=\"")?;
    push_reference(buffer, position.0, position.1)?;
    buffer.push_str("\"")?;
    buffer.push_str(style_attribute(value))?;
    buffer.push_str(type_attribute(value))
}

/// Appends what stands in the cell of a position: its formula and its value. Attributes and texts
/// are made in `buffer`.
fn push_inside(
    builder: &mut PackageBuilder,
    buffer: &mut String,
    form: WrittenForm,
    position: (u32, u32),
    value: Option<&Data>,
    formula: Option<GroupedFormula<'_>>,
) -> Result<(), AllocError>
    requires in_rows { position.0 < MAX_ROWS }
    requires in_columns { position.1 < MAX_COLUMNS }
    requires last { IfSome formula IsFormInSheet }
    ensures { let inside =
        given_formula position (option_map written_of formula.entry)
        ++ value_events form (value_to_write (option_copied value.entry)) in
        OnOk result (builder.new ≡ with_events builder.old inside) }
{
    push_formula(builder, buffer, position, formula)?;
    push_value(builder, buffer, form, value)
}

/// Appends the cell of a position, counted from 0. Attributes and texts are made in `buffer`.
pub fn push_cell(
    builder: &mut PackageBuilder,
    buffer: &mut String,
    form: WrittenForm,
    position: (u32, u32),
    value: Option<&Data>,
    formula: Option<GroupedFormula<'_>>,
) -> Result<(), AllocError>
    requires in_rows { position.0 < MAX_ROWS }
    requires in_columns { position.1 < MAX_COLUMNS }
    requires last { IfSome formula IsFormInSheet }
    ensures { let cell = cell_to_write form position (value_to_write (option_copied value.entry))
        (option_map written_of formula.entry) in
        OnOk result (builder.new ≡ with_events builder.old cell) }
{
    put_cell_attributes(buffer, position, value)?;
    builder.open("c", buffer.as_str())?;
    push_inside(builder, buffer, form, position, value, formula)?;
    builder.close("c")
}

// ---- rows

/// Puts the attributes of a row, counted from 0, in place of what the buffer holds.
fn put_row_attributes(buffer: &mut String, row: u32) -> Result<(), AllocError>
    requires { row < MAX_ROWS }
    ensures { OnOk result
        (string_bytes buffer.new ≡ attribute (codes "r") (row_reference row)) }
{
    buffer.clear();
    buffer.push_str(" r=\"")?;
    push_row_reference(buffer, row)?;
    buffer.push_str("\"")
}

/// Ends the open row, if one is open.
pub fn leave_row(builder: &mut PackageBuilder, current: Option<u32>) -> Result<(), AllocError>
    ensures { OnOk result (builder.new ≡ with_events builder.old (leaving current)) }
{
    match current {
        Some(_) => builder.close("row"),
        None => Ok(()),
    }
}

fn is_open(current: Option<u32>, row: u32) -> bool
    ensures { result ≡ is_open_row current row }
{
    match current {
        Some(open) => open == row,
        None => false,
    }
}

/// Begins a row, counted from 0, behind the one that is open, where it isn't that one. Its
/// attributes are made in `buffer`.
pub fn enter_row(
    builder: &mut PackageBuilder,
    buffer: &mut String,
    current: Option<u32>,
    row: u32,
) -> Result<(), AllocError>
    requires { row < MAX_ROWS }
    ensures { OnOk result (builder.new ≡ with_events builder.old (entering current row)) }
{
    if is_open(current, row) {
        return Ok(());
    }
    leave_row(builder, current)?;
    put_row_attributes(buffer, row)?;
    builder.open("row", buffer.as_str())
}
