//! Tables, those of a part and those of an open workbook.

use crate::areas::{push_area, push_bounds};
use crate::ranges::push_cells;
use crate::runs::Opened;
use crate::values::{Told, push_done, push_refusal};
use crate::words::word;
use anyhow::Result;
use cell_data::{Range, Table};
use cell_refs::Dimensions;
use part_events::FailingPackage;
use xlsx_core::{Xlsx, XlsxError};

/// The area of a table and the names of its columns.
pub fn push_shape(out: &mut String, area: Option<Dimensions>, columns: &[String]) -> Result<()> {
    push_bounds(out, area)?;
    for column in columns {
        write!(out, " {column}")?;
    }
    Ok(out.push_str(";")?)
}

/// The names of the tables, then the sheet, the area and the columns of each.
fn push_tables(out: &mut String, xlsx: &Xlsx<FailingPackage>) -> Result<()> {
    if !xlsx.tables_loaded() {
        return Ok(out.push_str("not loaded")?);
    }
    for name in xlsx.table_names() {
        write!(out, "{name} ")?;
    }
    for index in 0..xlsx.table_count() {
        out.push_str(xlsx.table_sheet(index))?;
        push_shape(out, xlsx.table_area(index), xlsx.table_columns(index))?;
    }
    Ok(())
}

/// The whole area of a table, and its rows of headers and of totals.
pub fn push_whole(out: &mut String, whole: Dimensions, headers: u32, totals: u32) -> Result<()> {
    push_area(out, whole)?;
    Ok(write!(out, " {headers} {totals};")?)
}

/// The number of the sheet of each table, its whole area, and its rows of headers and of totals.
fn push_shapes(out: &mut String, xlsx: &Xlsx<FailingPackage>) -> Result<()> {
    if !xlsx.tables_loaded() {
        return Ok(out.push_str("not loaded")?);
    }
    for index in 0..xlsx.table_count() {
        write!(out, "{} ", xlsx.table_sheet_number(index))?;
        let (headers, totals) = (xlsx.table_headers(index), xlsx.table_totals(index));
        push_whole(out, xlsx.table_whole(index), headers, totals)?;
    }
    Ok(())
}

/// The names of the tables on the sheets of this name.
fn push_names(out: &mut String, xlsx: &Xlsx<FailingPackage>, name: &str) -> Result<()> {
    if !xlsx.tables_loaded() {
        return Ok(out.push_str("not loaded")?);
    }
    for own in xlsx.table_names_in_sheet(name) {
        write!(out, "{own} ")?;
    }
    Ok(())
}

/// A table with its data, or why they are not read.
fn push_table<T: Told + Drop>(out: &mut String, answer: Result<Table<T>, XlsxError>) -> Result<()> {
    match answer {
        Ok(table) => {
            write!(out, "{} {}", table.name(), table.sheet_name())?;
            let range: &Range<T> = table.data();
            push_shape(out, range.bounds(), table.columns())?;
            push_cells(out, range)
        }
        Err(error) => push_refusal(out, &error),
    }
}

/// The data of a table, with shared strings as texts or by their places, or as they are shown.
fn push_data(out: &mut String, xlsx: &mut Xlsx<FailingPackage>, words: &[&str]) -> Result<()> {
    if !xlsx.tables_loaded() {
        return Ok(out.push_str("not loaded")?);
    }
    let name = word(words, 1);
    match word(words, 0) {
        "table" => push_table(out, xlsx.table_by_name(name)),
        "table_ref" => push_table(out, xlsx.table_by_name_ref(name)),
        _ => push_table(out, xlsx.table_by_name_shown(name)),
    }
}

/// Whether this is a call for tables, which is answered then.
pub fn push_table_answer(out: &mut String, opened: &mut Opened, words: &[&str]) -> Result<bool> {
    let xlsx = &mut opened.xlsx;
    match word(words, 0) {
        "load_tables" => push_done(out, xlsx.load_tables())?,
        "tables" => push_tables(out, xlsx)?,
        "table_shapes" => push_shapes(out, xlsx)?,
        "table_names" => push_names(out, xlsx, word(words, 1))?,
        "table" | "table_ref" | "table_shown" => push_data(out, xlsx, words)?,
        _ => return Ok(false),
    }
    Ok(true)
}
