ghost use Rattle.std.specs.Prelude.{◌≡◌, ◌<◌, ◌++◌, ◌||◌, [], is_some, MatchOption, IfOk, OnOk};
ghost use Rattle.std.specs.Prelude.{codes, string_bytes, nat_lt, None, OnErr, map};
ghost use Rattle.std.specs.Fmt.{signed_decimal};
ghost use Rattle.std.specs.Option.{option_copied};
ghost use Rattle.cell_data.specs.Words.{value_of_data, time_value, IsPlacedInSheet, cells_of};
ghost use Rattle.cell_data.specs.Words.{AreInOrder};
ghost use Rattle.cell_refs.specs.Words.{reference};
ghost use Rattle.cell_styles.specs.Words.{style_named, style_at};
ghost use Rattle.escaped_text.specs.Escaped.{escaped};
ghost use Rattle.sorted_cells.specs.Words.{placed_left};
ghost use Rattle.sheet_listing.specs.CellObjects.{line_in, lines_in, object_listing};
ghost use Rattle.sheet_listing.specs.SheetListing.{kind_text, calendar_text, value_field};
ghost use Rattle.sheet_listing.specs.SheetListing.{formula_field, field, position_fields, listing};
ghost use Rattle.sheet_listing.specs.SheetListing.{cell_values, cell_formulas, value_given};
ghost use Rattle.sheet_listing.specs.SheetListing.{formula_given, IsFirstOf, fill_field, id_given};
ghost use Rattle.sheet_listing.specs.SheetListing.{ids_left, placed_ids, value_line, value_lines};
ghost use Rattle.sheet_listing.specs.SheetListing.{row_line, further_fields};

use crate::fill::fill_shown;
use crate::objects::{LineScratch, push_object};
use crate::styled_left::StyledLeft;
use cell_data::{Data, ExcelDateTime, ExcelDateTimeType, Range, earlier};
use cell_refs::{MAX_COLUMNS, MAX_ROWS, push_reference};
use cell_styles::{Style, StyleRange};
use escaped_text::push_escaped;
use itoa::Buffer;
use list_lines::LineForm;
use sorted_cells::PlacedCells;
use std::alloc::{AllocError, Global};

fn kind_text(kind: ExcelDateTimeType) -> &'static str
    ensures { result.now ≡ kind_text kind }
{
    match kind {
        ExcelDateTimeType::DateTime => " date",
        ExcelDateTimeType::TimeDelta => " duration",
    }
}

fn calendar_text(is_1904: bool) -> &'static str
    ensures { result.now ≡ calendar_text is_1904 }
{
    if is_1904 { " 1904" } else { " 1900" }
}

fn push_time(out: &mut String, time: &ExcelDateTime) -> Result<(), AllocError>
    ensures { OnOk result (string_bytes out.new
        ≡ string_bytes out.old ++ field (value_field (time_value time.now))) }
{
    out.push_str("t:")?;
    time.value.push_to(out)?;
    out.push_str(kind_text(time.kind))?;
    out.push_str(calendar_text(time.is_1904))
}

fn push_text(out: &mut String, mark: &str, text: &str) -> Result<(), AllocError>
    ensures { OnOk result
        (string_bytes out.new ≡ string_bytes out.old ++ (mark.now ++ escaped text.now)) }
{
    out.push_str(mark)?;
    push_escaped(out, text)
}

fn push_integer(out: &mut String, number: i64) -> Result<(), AllocError>
    ensures { OnOk result
        (string_bytes out.new ≡ string_bytes out.old ++ (codes "n:" ++ signed_decimal number)) }
{
    let mut buffer = Buffer::new();
    out.push_str("n:")?;
    out.push_str(buffer.format(number))
}

fn push_data(out: &mut String, value: &Data) -> Result<(), AllocError>
    ensures { OnOk result (string_bytes out.new
        ≡ string_bytes out.old ++ field (value_field (value_of_data value.now))) }
{
    match value {
        Data::Int(number) => push_integer(out, *number),
        Data::Decimal(number) => {
            out.push_str("n:")?;
            number.push_to(out)
        }
        Data::String(text) => push_text(out, "s:", text.as_str()),
        Data::Bool(true) => out.push_str("b:true"),
        Data::Bool(false) => out.push_str("b:false"),
        Data::DateTime(time) => push_time(out, time),
        Data::DateTimeIso(text) => push_text(out, "i:", text.as_str()),
        Data::Error(error) => {
            out.push_str("e:")?;
            out.push_str(error.as_str())
        }
        Data::Empty => out.push_str("-"),
    }
}

fn push_value(out: &mut String, value: Option<&Data>) -> Result<(), AllocError>
    ensures { let printed = field (value_field (value_given (option_copied value.entry))) in
        OnOk result (string_bytes out.new ≡ string_bytes out.old ++ printed) }
{
    match value {
        Some(value) => push_data(out, value),
        None => out.push_str("-"),
    }
}

fn push_formula_text(out: &mut String, formula: &str) -> Result<(), AllocError>
    ensures { OnOk result (string_bytes out.new
        ≡ string_bytes out.old ++ field (formula_field formula.now)) }
{
    if formula.is_empty() {
        out.push_str("-")
    } else {
        push_text(out, "=", formula)
    }
}

fn push_formula(out: &mut String, formula: Option<&String>) -> Result<(), AllocError>
    ensures { let printed = field (formula_field (formula_given (option_copied formula.entry))) in
        OnOk result (string_bytes out.new ≡ string_bytes out.old ++ printed) }
{
    match formula {
        Some(formula) => push_formula_text(out, formula.as_str()),
        None => out.push_str("-"),
    }
}

fn has_value(value: Option<&Data>) -> bool
    ensures { result ≡ is_some (value_field (value_given (option_copied value.entry))) }
{
    match value {
        Some(value) => !matches!(value, Data::Empty),
        None => false,
    }
}

fn has_formula(formula: Option<&String>) -> bool
    ensures { result ≡ is_some (formula_field (formula_given (option_copied formula.entry))) }
{
    match formula {
        Some(formula) => !formula.is_empty(),
        None => false,
    }
}

fn has_id(id: Option<usize>) -> bool
    ensures { result ≡ nat_lt 0 (id_given id) }
{
    match id {
        Some(id) => id > 0,
        None => false,
    }
}

fn push_fill(out: &mut String, style: Option<&Style>) -> Result<(), AllocError>
    ensures { let printed = field (fill_field (option_copied style.entry)) in
        OnOk result (string_bytes out.new ≡ string_bytes out.old ++ printed) }
{
    match fill_shown(style) {
        Some(color) => write!(out, "{color}"),
        None => out.push_str("-"),
    }
}

fn has_line(value: Option<&Data>, formula: Option<&String>, id: Option<usize>) -> bool
    ensures { let has_value = is_some (value_field (value_given (option_copied value.entry))) in
        let has_formula = is_some (formula_field (formula_given (option_copied formula.entry))) in
        let has_id = nat_lt 0 (id_given id) in
        result ≡ (has_value || (has_formula || has_id)) }
{
    has_value(value) || has_formula(formula) || has_id(id)
}

/// Appends a position, counted from 0, a tab and the value there.
fn push_placed(
    out: &mut String,
    position: (u32, u32),
    value: Option<&Data>,
) -> Result<(), AllocError>
    requires in_rows { position.0 < MAX_ROWS }
    requires in_columns { position.1 < MAX_COLUMNS }
    ensures { let printed = field (value_field (value_given (option_copied value.entry))) in
        OnOk result (string_bytes out.new ≡ string_bytes out.old
        ++ (reference position ++ (codes "\t" ++ printed))) }
{
    push_reference(out, position.0, position.1)?;
    out.push_str("\t")?;
    push_value(out, value)
}

/// Appends a position, counted from 0, and the value there, each with a tab behind it.
fn push_front(
    out: &mut String,
    position: (u32, u32),
    value: Option<&Data>,
) -> Result<(), AllocError>
    requires in_rows { position.0 < MAX_ROWS }
    requires in_columns { position.1 < MAX_COLUMNS }
    ensures { let printed = field (value_field (value_given (option_copied value.entry))) in
        OnOk result (string_bytes out.new ≡ string_bytes out.old
        ++ (reference position ++ (codes "\t" ++ (printed ++ codes "\t")))) }
{
    push_placed(out, position, value)?;
    out.push_str("\t")
}

/// Appends the line of a cell's value, its position counted from 0.
fn push_value_line(out: &mut String, position: (u32, u32), value: &Data) -> Result<(), AllocError>
    requires { IsPlacedInSheet (position, value.now) }
    ensures { let printed = value_line (position, value_of_data value.now) in
        OnOk result (string_bytes out.new ≡ string_bytes out.old ++ printed) }
{
    push_placed(out, position, Some(value))?;
    out.push_str("\n")
}

/// The lines of values: one for each used cell, its position and its value, row by row
/// (docs/FORMAT.md).
pub fn value_lines_of(alloc: Global, values: &Range<Data>) -> Result<String, AllocError>
    ensures { let printed = value_lines (cell_values (cells_of values.now)) in
        IfOk result (λ out. string_bytes out ≡ printed) }
{
    let mut out = String::new(alloc);
    for (position, value) in values.used() {
        push_value_line(&mut out, position, value)?;
    }
    Ok(out)
}

/// Appends values, each behind a tab.
fn push_further(out: &mut String, values: &[Data]) -> Result<(), AllocError>
    ensures { let printed = further_fields (map value_of_data values.now) in
        OnOk result (string_bytes out.new ≡ string_bytes out.old ++ printed) }
{
    for value in values {
        out.push_str("\t")?;
        push_data(out, value)?;
    }
    Ok(())
}

/// Appends the line of a row of values, with tabs between them (docs/FORMAT.md). That of an empty
/// row is empty.
pub fn push_row_line(out: &mut String, row: &[Data]) -> Result<(), AllocError>
    ensures { let printed = row_line (map value_of_data row.now) in
        OnOk result (string_bytes out.new ≡ string_bytes out.old ++ printed) }
{
    if let Some((first, others)) = row.split_first() {
        push_data(out, first)?;
        push_further(out, others)?;
    }
    out.push_str("\n")
}

/// Appends the fields of a position, counted from 0, with tabs between them.
fn push_fields(
    out: &mut String,
    position: (u32, u32),
    value: Option<&Data>,
    formula: Option<&String>,
    style: Option<&Style>,
) -> Result<(), AllocError>
    requires in_rows { position.0 < MAX_ROWS }
    requires in_columns { position.1 < MAX_COLUMNS }
    ensures { let printed =
        position_fields position (value_field (value_given (option_copied value.entry)))
        (formula_field (formula_given (option_copied formula.entry)))
        (fill_field (option_copied style.entry)) in
        OnOk result (string_bytes out.new ≡ string_bytes out.old ++ printed) }
{
    push_front(out, position, value)?;
    push_formula(out, formula)?;
    out.push_str("\t")?;
    push_fill(out, style)?;
    out.push_str("\n")
}

/// Appends the line of a position, counted from 0, in its form, where it has a value, a formula or
/// a style id above 0.
fn push_line(
    out: &mut String,
    form: LineForm,
    scratch: &mut LineScratch,
    position: (u32, u32),
    value: Option<&Data>,
    formula: Option<&String>,
    id: Option<usize>,
    style: Option<&Style>,
) -> Result<(), AllocError>
    requires in_rows { position.0 < MAX_ROWS }
    requires in_columns { position.1 < MAX_COLUMNS }
    ensures { let printed = line_in form position (value_given (option_copied value.entry))
        (formula_given (option_copied formula.entry)) (id_given id)
        (option_copied style.entry) in
        OnOk result (string_bytes out.new ≡ string_bytes out.old ++ printed) }
{
    if !has_line(value, formula, id) {
        return Ok(());
    }
    match form {
        LineForm::Text => push_fields(out, position, value, formula, style),
        LineForm::Json => push_object(out, scratch, position, value, formula, style),
    }
}

/// The first position that some list has.
fn first_position(
    values: &PlacedCells<'_, Data>,
    formulas: &PlacedCells<'_, String>,
    ids: &StyledLeft<'_>,
) -> Option<(u32, u32)>
    requires values { AreInOrder (placed_left values.now) }
    requires formulas { AreInOrder (placed_left formulas.now) }
    requires ids { AreInOrder (ids_left ids.now) }
    ensures { MatchOption result ((placed_left values.now ≡ [])
        × (placed_left formulas.now ≡ []) × (ids_left ids.now ≡ []))
        (IsFirstOf (placed_left values.now) (placed_left formulas.now) (ids_left ids.now)) }
{
    let behind_values = earlier(formulas.next_position(), ids.next_position());
    earlier(values.next_position(), behind_values)
}

/// Appends the lines of the positions that some list has, row by row.
fn push_lines(
    out: &mut String,
    form: LineForm,
    values: PlacedCells<'_, Data>,
    formulas: PlacedCells<'_, String>,
    ids: StyledLeft<'_>,
    styles: &StyleRange,
) -> Result<(), AllocError>
    requires values { AreInOrder (placed_left values) }
    requires formulas { AreInOrder (placed_left formulas) }
    requires ids { AreInOrder (ids_left ids) }
    ensures { let printed = lines_in form (style_named styles.now)
        (cell_values (placed_left values.entry)) (cell_formulas (placed_left formulas.entry))
        (ids_left ids.entry) in
        OnOk result (string_bytes out.new ≡ string_bytes out.old ++ printed) }
{
    let mut scratch = LineScratch::new(*out.allocator());
    let mut values_left = values;
    let mut formulas_left = formulas;
    let mut ids_left = ids;
    'positions: while let Some(position) = first_position(&values_left, &formulas_left, &ids_left) {
        let value = values_left.next_at(position);
        let formula = formulas_left.next_at(position);
        let id = ids_left.next_at(position);
        let style = styles.style_with_id(position, id.unwrap_or(0));
        push_line(out, form, &mut scratch, position, value, formula, id, style)?;
    }
    Ok(())
}

/// The lines of a sheet's values, formulas and styles in their form.
fn lines_listed(
    alloc: Global,
    form: LineForm,
    values: &Range<Data>,
    formulas: &Range<String>,
    styles: &StyleRange,
) -> Result<String, AllocError>
    ensures { let printed = lines_in form (λ position id. style_at styles.now position)
        (cell_values (cells_of values.now)) (cell_formulas (cells_of formulas.now))
        (placed_ids styles.now) in
        IfOk result (λ out. string_bytes out ≡ printed) }
{
    let ids = StyledLeft::new(styles.styled());
    let mut out = String::new(alloc);
    push_lines(&mut out, form, values.used(), formulas.used(), ids, styles)?;
    Ok(out)
}

/// The lines of a sheet's values, formulas and styles: one for each position that has a value, a
/// formula or a style id above 0, row by row (docs/FORMAT.md). It goes once over what is used of
/// the ranges and over the runs of styles.
#[tactic(auto, using(crate::proofs::SheetListingLemmas::as_text))]
pub fn listing_of(
    alloc: Global,
    values: &Range<Data>,
    formulas: &Range<String>,
    styles: &StyleRange,
) -> Result<String, AllocError>
    ensures { let printed = listing (cell_values (cells_of values.now))
        (cell_formulas (cells_of formulas.now)) styles.now in
        IfOk result (λ out. string_bytes out ≡ printed) }
{
    lines_listed(alloc, LineForm::Text, values, formulas, styles)
}

/// The same lines as objects of JSON, one for each of these positions.
pub fn object_listing_of(
    alloc: Global,
    values: &Range<Data>,
    formulas: &Range<String>,
    styles: &StyleRange,
) -> Result<String, AllocError>
    ensures { let printed = object_listing (cell_values (cells_of values.now))
        (cell_formulas (cells_of formulas.now)) styles.now in
        IfOk result (λ out. string_bytes out ≡ printed) }
{
    lines_listed(alloc, LineForm::Json, values, formulas, styles)
}

/// Appends the lines of a sheet's values, formulas and styles. A refusal leaves the text as it was.
pub fn push_listing(
    out: &mut String,
    values: &Range<Data>,
    formulas: &Range<String>,
    styles: &StyleRange,
) -> Result<(), AllocError>
    ensures ok { let printed = listing (cell_values (cells_of values.now))
        (cell_formulas (cells_of formulas.now)) styles.now in
        OnOk result (string_bytes out.new ≡ string_bytes out.old ++ printed) }
    ensures err { OnErr result (string_bytes out.new ≡ string_bytes out.old) }
{
    let lines = listing_of(*out.allocator(), values, formulas, styles)?;
    out.push_str(lines.as_str())
}
