//! The rows of a range.
ghost use Rattle.std.specs.Prelude.{◌≡◌, ◌≢◌, ◌<◌, ◌++◌, ◌↔◌, length, map, string_bytes, None};
ghost use Rattle.std.specs.Prelude.{OnOk, IfOk, IfErr, IfSome, Some, Err};
ghost use Rattle.std.specs.List.{flat_map};
ghost use Rattle.cell_data.specs.Words.{value_of_data, bounds_of, height_of, width_of, box_count};
ghost use Rattle.cell_data.specs.Words.{row_items, row_left, rows_left};
ghost use Rattle.json.specs.Tree.{items_tokens, members_tokens, json_tokens};
ghost use Rattle.json_rows.specs.RowForms.{form_json, form_line};
ghost use Rattle.json_rows.specs.RowObjects.{row_members, first_double, object_lines, keys_over};
ghost use Rattle.json_rows.specs.RowObjects.{headed_lines, IsOfKeys};
ghost use Rattle.json_rows.specs.RowValues.{row_json, array_lines};
ghost use Rattle.json_rows.specs.declared.error.ObjectsError.TheVariants.{BoxTooLarge, NoHeader};
ghost use Rattle.csv_rows.specs.declared.error.CsvError.TheVariants as csv;

use crate::error::ObjectsError;
use crate::item::write_item;
use crate::keys::{check_keys, header_keys};
use cell_data::{Data, Range, RowCells, Rows};
use csv_rows::{CsvError, CsvOptions, MOST_CELLS};
use json::Writer;
use json_lines::end_line;
use std::alloc::{AllocError, Global};
use std::mem;

/// What lines are made in: the bytes of one, and a text in it.
#[derive(Drop)]
struct RowScratch {
    line: Vec<u8>,
    text: String,
}

/// What a row is written as.
#[derive(Clone, Copy)]
enum RowForm<'a> {
    /// An array.
    Array,
    /// An object under these keys.
    Object(&'a [String]),
}

/// Writes the values of a row that are left as items, and the end of their array.
fn write_items(
    writer: &mut Writer,
    scratch: &mut String,
    row: RowCells<'_, Data>,
    options: &CsvOptions,
) -> Result<(), AllocError>
    ensures ok { let values = map value_of_data (row_left row.entry) in
        OnOk result (writer.new.tokens
        ≡ writer.old.tokens ++ items_tokens (row_json options.now values)) }
    ensures before { writer.new.before ≡ writer.old.before }
{
    for value in row {
        write_item(writer, scratch, value, options)?;
    }
    writer.end_array()
}

/// Writes the values of a row that are left as members under these keys, and the end of their
/// object.
fn write_members(
    writer: &mut Writer,
    scratch: &mut String,
    row: RowCells<'_, Data>,
    keys: &[String],
    options: &CsvOptions,
) -> Result<(), AllocError>
    ensures ok { let values = map value_of_data (row_left row.entry) in
        OnOk result (writer.new.tokens ≡ writer.old.tokens
        ++ members_tokens (row_members options.now (map string_bytes keys.now) values)) }
    ensures before { writer.new.before ≡ writer.old.before }
{
    let mut left = keys;
    for value in row {
        if let [key, others @ ..] = left {
            writer.key(key.as_str())?;
            write_item(writer, scratch, value, options)?;
            left = others;
        }
    }
    writer.end_object()
}

/// Writes a row in its form.
fn write_row(
    writer: &mut Writer,
    scratch: &mut String,
    row: RowCells<'_, Data>,
    form: RowForm<'_>,
    options: &CsvOptions,
) -> Result<(), AllocError>
    ensures ok { let values = map value_of_data (row_left row.entry) in
        OnOk result (writer.new.tokens ≡ writer.old.tokens
        ++ json_tokens (form_json form.entry options.now values)) }
    ensures before { writer.new.before ≡ writer.old.before }
{
    match form {
        RowForm::Array => {
            writer.begin_array()?;
            write_items(writer, scratch, row, options)
        }
        RowForm::Object(keys) => {
            writer.begin_object()?;
            write_members(writer, scratch, row, keys, options)
        }
    }
}

/// Appends the line of a row.
fn push_row(
    out: &mut Vec<u8>,
    scratch: &mut RowScratch,
    row: RowCells<'_, Data>,
    form: RowForm<'_>,
    options: &CsvOptions,
) -> Result<(), AllocError>
    ensures { OnOk result (out.new.items
        ≡ out.old.items ++ form_line form.entry options.now (row_left row.entry)) }
{
    let empty = Vec::new(*out.allocator());
    let mut bytes = mem::replace(&mut scratch.line, empty);
    bytes.clear();
    let mut writer = Writer::new(bytes);
    write_row(&mut writer, &mut scratch.text, row, form, options)?;
    let line = end_line(writer)?;
    out.extend_from_slice(&line)?;
    scratch.line = line;
    Ok(())
}

/// The lines of the rows that are left.
fn lines_of(
    alloc: Global,
    rows: Rows<'_, Data>,
    form: RowForm<'_>,
    options: &CsvOptions,
) -> Result<Vec<u8>, AllocError>
    ensures { IfOk result (λ out. out.items
        ≡ flat_map (form_line form.entry options.now) (rows_left rows.entry)) }
{
    let mut out = Vec::new(alloc);
    let mut scratch = RowScratch {
        line: Vec::new(alloc),
        text: String::new(alloc),
    };
    for row in rows {
        push_row(&mut out, &mut scratch, row, form, options)?;
    }
    Ok(out)
}

/// The lines of the rows of a range as JSON: an array for each row, with an item for each column of
/// the area, `null` where it is empty. Numbers have the digits that they have as CSV, and dates are
/// asked for as there; the other options say nothing of JSON.
///
/// An area of more than 16,777,216 cells is refused as `BoxTooLarge` before a row is written.
#[tactic(auto, unfolding(crate::specs::RowValues::array_lines))]
pub fn rows_json(
    alloc: Global,
    range: &Range<Data>,
    options: &CsvOptions,
) -> Result<Vec<u8>, CsvError>
    ensures rows { IfOk result (λ bytes. bytes.items ≡ array_lines options.now range.now) }
    ensures large { (16777216 < box_count range.now) ↔ (result ≡ Err csv.BoxTooLarge) }
{
    if range.cell_count() > MOST_CELLS {
        return Err(CsvError::BoxTooLarge);
    }
    Ok(lines_of(alloc, range.rows(), RowForm::Array, options)?)
}

/// The lines of rows under keys of which no two are equal.
#[tactic(auto, unfolding(crate::specs::RowObjects::object_lines))]
fn keyed_lines(
    alloc: Global,
    rows: Rows<'_, Data>,
    keys: &[String],
    options: &CsvOptions,
) -> Result<Vec<u8>, ObjectsError>
    ensures rows { IfOk result (λ bytes. bytes.items
        ≡ object_lines options.now (map string_bytes keys.now) (rows_left rows.entry)) }
    ensures apart { OnOk result (first_double (map string_bytes keys.now) ≡ None) }
    ensures err { IfErr result (IsOfKeys (map string_bytes keys.now)) }
    ensures large { result ≢ Err BoxTooLarge }
    ensures none { result ≢ Err NoHeader }
{
    check_keys(alloc, keys)?;
    Ok(lines_of(alloc, rows, RowForm::Object(keys), options)?)
}

/// The lines of the rows of a range as JSON: an object for each row, with a member for each column
/// of the area, in their order, under the key of the column. Values are as in `rows_json`.
///
/// Before a row is written, an area of more than 16,777,216 cells is refused as `BoxTooLarge`, and
/// keys of which two are equal as `TwoColumns`.
pub fn keyed_rows_json(
    alloc: Global,
    keys: &[String],
    range: &Range<Data>,
    options: &CsvOptions,
) -> Result<Vec<u8>, ObjectsError>
    requires keys { IfSome (bounds_of range.now)
        (λ area. length keys.now ≡ width_of (Some area)) }
    ensures rows { IfOk result (λ bytes. bytes.items
        ≡ object_lines options.now (map string_bytes keys.now) (row_items range.now)) }
    ensures apart { OnOk result (first_double (map string_bytes keys.now) ≡ None) }
    ensures twice { IfErr result (IsOfKeys (map string_bytes keys.now)) }
    ensures large { (16777216 < box_count range.now) ↔ (result ≡ Err BoxTooLarge) }
    ensures none { result ≢ Err NoHeader }
{
    if range.cell_count() > MOST_CELLS {
        return Err(ObjectsError::BoxTooLarge);
    }
    keyed_lines(alloc, range.rows(), keys, options)
}

/// The lines of the rows of a range behind the first, whose fields as CSV are the keys: an object
/// for each of them, as of `keyed_rows_json`. An empty field is the key of no character.
///
/// Before a row is written, an area of more than 16,777,216 cells is refused as `BoxTooLarge`, one
/// without a row as `NoHeader`, and keys of which two are equal as `TwoColumns`.
pub fn headed_rows_json(
    alloc: Global,
    range: &Range<Data>,
    options: &CsvOptions,
) -> Result<Vec<u8>, ObjectsError>
    ensures rows { IfOk result (λ bytes. bytes.items
        ≡ headed_lines options.now (row_items range.now)) }
    ensures apart { let keys = keys_over options.now (row_items range.now) in
        OnOk result (first_double keys ≡ None) }
    ensures twice { IfErr result (IsOfKeys (keys_over options.now (row_items range.now))) }
    ensures large { (16777216 < box_count range.now) ↔ (result ≡ Err BoxTooLarge) }
    ensures none { (height_of (bounds_of range.now) ≡ 0) ↔ (result ≡ Err NoHeader) }
{
    if range.cell_count() > MOST_CELLS {
        return Err(ObjectsError::BoxTooLarge);
    }
    let mut rows = range.rows();
    match rows.next() {
        Some(header) => {
            let keys = header_keys(alloc, header, options)?;
            keyed_lines(alloc, rows, &keys, options)
        }
        None => Err(ObjectsError::NoHeader),
    }
}
