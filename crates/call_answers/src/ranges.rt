//! The ranges of sheets.

use crate::areas::push_area;
use crate::runs::Opened;
use crate::values::{Told, push_refusal};
use crate::words::word;
use anyhow::Result;
use cell_data::{Data, HeaderRow, Range};
use cell_styles::StyleRange;
use xlsx_core::{SheetFormula, XlsxError};

/// The used cells of a range, each by its row and column.
pub fn push_cells<T: Told>(out: &mut String, range: &Range<T>) -> Result<()> {
    for (position, value) in range.used() {
        write!(out, "({},{} ", position.0, position.1)?;
        value.push_to(out)?;
        out.push_str(")")?;
    }
    Ok(())
}

/// The area and the cells of a range.
fn push_range<T: Told>(out: &mut String, range: &Range<T>) -> Result<()> {
    if let Some(area) = range.bounds() {
        push_area(out, area)?;
        out.push_str(":")?;
    }
    push_cells(out, range)
}

/// A range, or why it is not read.
fn push_read<T: Told + Drop>(out: &mut String, answer: Result<Range<T>, XlsxError>) -> Result<()> {
    match answer {
        Ok(range) => push_range(out, &range),
        Err(error) => push_refusal(out, &error),
    }
}

/// The corners of a range of styles, and its positions with an id above 0.
fn push_styles(out: &mut String, range: &StyleRange) -> Result<()> {
    if let (Some(start), Some(end)) = (range.start(), range.end()) {
        write!(out, "({},{})-({},{}):", start.0, start.1, end.0, end.1)?;
    }
    for (row, column, id) in range.styled() {
        write!(out, "({row},{column} {id})")?;
    }
    Ok(())
}

fn push_style_answer(out: &mut String, answer: Result<StyleRange, XlsxError>) -> Result<()> {
    match answer {
        Ok(range) => push_styles(out, &range),
        Err(error) => push_refusal(out, &error),
    }
}

/// Each sheet with its name and its range, or why none are read.
fn push_worksheets(
    out: &mut String,
    answer: Result<Vec<(String, Range<Data>)>, XlsxError>,
) -> Result<()> {
    match answer {
        Ok(sheets) => {
            for (name, range) in &sheets {
                write!(out, "{name} ")?;
                push_range(out, range)?;
                out.push_str(";")?;
            }
            Ok(())
        }
        Err(error) => push_refusal(out, &error),
    }
}

/// Each formula of all sheets with the number of its sheet, its cell and the area that it covers,
/// or why none are read.
fn push_formulas(out: &mut String, answer: Result<Vec<SheetFormula>, XlsxError>) -> Result<()> {
    match answer {
        Ok(formulas) => {
            for own in &formulas {
                write!(
                    out,
                    "{} ({},{}) ",
                    own.sheet, own.position.0, own.position.1
                )?;
                push_area(out, own.covers)?;
                write!(out, " ={};", own.text)?;
            }
            Ok(())
        }
        Err(error) => push_refusal(out, &error),
    }
}

/// The area that a sheet tells of its cells.
fn push_entered(out: &mut String, opened: &mut Opened, name: &str) -> Result<()> {
    match opened.xlsx.enter_worksheet(name) {
        Ok((_, dimensions)) => push_area(out, dimensions),
        Err(error) => push_refusal(out, &error),
    }
}

/// The header row of this number, or the first with a value.
fn header_row(row: &str) -> HeaderRow {
    match row.parse::<u32>() {
        Ok(row) => HeaderRow::Row(row),
        Err(_) => HeaderRow::FirstNonEmptyRow,
    }
}

/// Whether this is a call for a range, which is answered then.
pub fn push_range_answer(out: &mut String, opened: &mut Opened, words: &[&str]) -> Result<bool> {
    let xlsx = &mut opened.xlsx;
    let name = word(words, 1);
    match word(words, 0) {
        "range" => push_read(out, xlsx.worksheet_range(name))?,
        "range_ref" => push_read(out, xlsx.worksheet_range_ref(name))?,
        "formula" => push_read(out, xlsx.worksheet_formula(name))?,
        "style" => push_style_answer(out, xlsx.worksheet_style(name))?,
        "worksheets" => push_worksheets(out, xlsx.worksheets())?,
        "formulas" => push_formulas(out, xlsx.read_formulas())?,
        "enter" => push_entered(out, opened, name)?,
        "header" => {
            xlsx.with_header_row(header_row(name));
        }
        _ => return Ok(false),
    }
    Ok(true)
}
