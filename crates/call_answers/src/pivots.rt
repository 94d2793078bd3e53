//! Pivot tables, and the rows of their caches.

use crate::runs::Opened;
use crate::values::{Told, push_refusal};
use crate::words::word;
use anyhow::Result;
use cell_data::Data;
use part_events::FailingPackage;
use xlsx_core::{PivotTables, Xlsx, XlsxError};

/// The pivot tables, each with its sheet's name, its own, and the paths of its cache.
pub fn push_pivots(out: &mut String, pivots: &PivotTables) -> Result<()> {
    for (sheet, name) in pivots.get_pivot_tables_by_name_and_sheet() {
        push_paths(out, pivots, sheet, name)?;
    }
    Ok(())
}

/// A sheet and a pivot table, with the paths of its cache where there is one.
fn push_paths(out: &mut String, pivots: &PivotTables, sheet: &str, name: &str) -> Result<()> {
    write!(out, "{sheet} {name}")?;
    if let Some((definitions, records)) = pivots.cache_paths(sheet, name) {
        write!(out, " {definitions} {records}")?;
    }
    Ok(out.push_str(";")?)
}

/// Values, each with a blank behind it.
pub fn push_values(out: &mut String, values: &[Data]) -> Result<()> {
    for value in values {
        value.push_to(out)?;
        out.push_str(" ")?;
    }
    Ok(out.push_str(";")?)
}

/// A row, or why it is not read.
pub fn push_row(out: &mut String, row: Result<Vec<Data>, XlsxError>) -> Result<()> {
    match row {
        Ok(values) => push_values(out, &values),
        Err(error) => push_refusal(out, &error),
    }
}

/// The rows of a pivot table that was found, or why they are not opened.
fn push_rows(
    out: &mut String,
    xlsx: &mut Xlsx<FailingPackage>,
    pivots: &PivotTables,
    (sheet, name): (&str, &str),
) -> Result<()> {
    match xlsx.pivot_table_data(pivots, sheet, name) {
        Ok(rows) => {
            for row in rows {
                push_row(out, row)?;
            }
            Ok(())
        }
        Err(error) => push_refusal(out, &error),
    }
}

/// Keeps the pivot tables that are found, and answers them.
fn push_found(out: &mut String, opened: &mut Opened) -> Result<()> {
    match opened.xlsx.pivot_tables() {
        Ok(pivots) => {
            push_pivots(out, &pivots)?;
            opened.pivots = Some(pivots);
            Ok(())
        }
        Err(error) => push_refusal(out, &error),
    }
}

/// What is asked of the pivot tables that were found.
fn push_asked(out: &mut String, opened: &mut Opened, words: &[&str]) -> Result<()> {
    let Opened { xlsx, pivots } = opened;
    let Some(pivots) = pivots else {
        return Ok(out.push_str("not found")?);
    };
    let (sheet, name) = (word(words, 1), word(words, 2));
    match word(words, 0) {
        "pivot_rows" => push_rows(out, xlsx, pivots, (sheet, name))?,
        "pivot_paths" => push_paths(out, pivots, sheet, name)?,
        _ => {
            for own in pivots.pivot_tables_by_sheet(sheet) {
                write!(out, "{own};")?;
            }
        }
    }
    Ok(())
}

/// Whether this is a call for pivot tables, which is answered then.
pub fn push_pivot_answer(out: &mut String, opened: &mut Opened, words: &[&str]) -> Result<bool> {
    match word(words, 0) {
        "pivots" => push_found(out, opened)?,
        "pivot_rows" | "pivot_paths" | "pivot_names" => push_asked(out, opened, words)?,
        _ => return Ok(false),
    }
    Ok(true)
}
