//! The calls on a package that is not opened as a workbook.

use crate::areas::push_areas;
use crate::cells::{Strings, count_cells, push_calls};
use crate::links::push_links;
use crate::pivots::{push_pivots, push_row, push_values};
use crate::tables::push_shape;
use crate::values::push_refusal;
use crate::words::{number, word, words_behind};
use anyhow::Result;
use cell_data::{CellFormat, Data};
use cell_refs::Dimensions;
use cell_styles::{Style, StyleRange};
use part_events::{FailingPackage, Package, PartEvent, XlReader};
use sheet_listing::listing_of;
use std::alloc::Global;
use std::collections::BTreeMap;
use xlsx_areas::{read_hyperlinks, read_merge_cells};
use xlsx_cells::XlsxCellReader;
use xlsx_core::{Hyperlink, PivotCacheIter, SheetAnswer, SheetReading, XlsxError, read_sheet};
use xlsx_pivot_cache::{CacheField, read_fields};
use xlsx_pivots::find_pivot_tables;
use xlsx_tables::{TablePart, read_sheet_tables, read_table_part};

/// The number formats of the styles 0, 1 and 2 of a reader of cells.
const FORMATS: [CellFormat; 3] = [
    CellFormat::Other,
    CellFormat::DateTime,
    CellFormat::TimeDelta,
];

/// The lines of a sheet that is read with its opening, or why it is refused, and the package that
/// is handed back.
pub fn push_reading<P: Package + Drop>(
    out: &mut String,
    alloc: Global,
    package: P,
    name: &str,
) -> Result<P> {
    let SheetAnswer { result, package } = read_sheet(alloc, package, name);
    match result {
        Ok(reading) => {
            let SheetReading {
                values,
                formulas,
                styles,
            } = reading;
            out.push_str(&listing_of(alloc, &values, &formulas, &styles)?)?;
        }
        Err(error) => push_refusal(out, &error)?,
    }
    Ok(package)
}

/// How many positions have a style id above 0.
fn styled_count(styles: &StyleRange) -> u64 {
    let mut count = 0u64;
    for _ in styles.styled() {
        count = count.saturating_add(1);
    }
    count
}

/// How many values, formulas, styled positions and runs of styles a sheet has, or why it is
/// refused, and the package that is handed back.
pub fn push_counts<P: Package + Drop>(
    out: &mut String,
    alloc: Global,
    package: P,
    name: &str,
) -> Result<P> {
    let SheetAnswer { result, package } = read_sheet(alloc, package, name);
    match result {
        Ok(reading) => {
            let (values, formulas) = (reading.values.used_count(), reading.formulas.used_count());
            let styled = styled_count(&reading.styles);
            let runs = reading.styles.run_count();
            write!(out, "{values} {formulas} {styled} {runs}")?;
        }
        Err(error) => push_refusal(out, &error)?,
    }
    Ok(package)
}

/// The pivot tables of sheets, whose names and paths are the words in turn behind the folder.
fn push_found(out: &mut String, xml: &mut XlReader<FailingPackage>, words: &[&str]) -> Result<()> {
    let alloc = xml.alloc();
    let mut sheets = Vec::new(alloc);
    for pair in words_behind(words, 2) {
        let (name, path) = pair.split_once(':').unwrap_or((pair, ""));
        sheets.push((
            String::from_str(alloc, name)?,
            String::from_str(alloc, path)?,
        ))?;
    }
    match find_pivot_tables(xml, &sheets, word(words, 1)) {
        Ok(pivots) => push_pivots(out, &pivots),
        Err(error) => push_refusal(out, &error),
    }
}

/// The fields of a cache, each with its items, or why they are not read.
fn push_fields(out: &mut String, answer: Result<Vec<CacheField>, XlsxError>) -> Result<()> {
    match answer {
        Ok(fields) => {
            for field in &fields {
                write!(out, "{} ", field.name)?;
                push_values(out, &field.items)?;
            }
            Ok(())
        }
        Err(error) => push_refusal(out, &error),
    }
}

/// The rows of a cache, or why they are not opened.
fn push_cache_rows(
    out: &mut String,
    xml: &mut XlReader<FailingPackage>,
    words: &[&str],
) -> Result<()> {
    match PivotCacheIter::open(xml, word(words, 1), word(words, 2)) {
        Ok(rows) => {
            for row in rows {
                push_row(out, row)?;
            }
            Ok(())
        }
        Err(error) => push_refusal(out, &error),
    }
}

/// What so many calls of the iterator over the rows of a cache give.
fn push_next_rows(
    out: &mut String,
    xml: &mut XlReader<FailingPackage>,
    words: &[&str],
) -> Result<()> {
    let mut rows = match PivotCacheIter::open(xml, word(words, 1), word(words, 2)) {
        Ok(rows) => rows,
        Err(error) => return push_refusal(out, &error),
    };
    for _ in 0..number(words, 3) {
        match rows.next() {
            Some(row) => push_row(out, row)?,
            None => out.push_str(".")?,
        }
    }
    Ok(())
}

/// How many rows of a cache are collected, those that are refused among them.
fn push_collected(
    out: &mut String,
    xml: &mut XlReader<FailingPackage>,
    words: &[&str],
) -> Result<()> {
    let alloc = xml.alloc();
    match PivotCacheIter::open(xml, word(words, 1), word(words, 2)) {
        Ok(rows) => {
            let rows: Vec<Result<Vec<Data>, XlsxError>> = rows.collect(alloc)?;
            Ok(write!(out, "{}", rows.len())?)
        }
        Err(error) => push_refusal(out, &error),
    }
}

/// A table of a part.
fn push_table_part(out: &mut String, table: &TablePart) -> Result<()> {
    out.push_str(table.display_name.as_str())?;
    push_shape(out, table.area, &table.columns)
}

/// The tables of a sheet, or why they are not read.
fn push_sheet_tables(
    out: &mut String,
    xml: &mut XlReader<FailingPackage>,
    path: &str,
) -> Result<()> {
    let mut tables = Vec::new(xml.alloc());
    if let Err(error) = read_sheet_tables(xml, &mut tables, 0, path) {
        return push_refusal(out, &error);
    }
    for table in &tables {
        out.push_str(table.name())?;
        push_shape(out, table.area(), table.columns())?;
    }
    Ok(())
}

/// The table of a part, by a reader that took nothing of it.
fn table_in(xml: &mut XlReader<FailingPackage>, path: &str) -> Result<TablePart, XlsxError> {
    if !xml.open(path)? {
        return Err(XlsxError::Failed);
    }
    read_table_part(xml)
}

/// The links in the section with which a part begins, whose targets are the words behind its path.
fn links_in(
    xml: &mut XlReader<FailingPackage>,
    words: &[&str],
) -> Result<Vec<Hyperlink>, XlsxError> {
    let alloc = xml.alloc();
    let mut targets = BTreeMap::new(alloc);
    let target = String::from_str(alloc, word(words, 3))?;
    targets.insert(String::from_str(alloc, word(words, 2))?, target)?;
    if !xml.open(word(words, 1))? {
        return Err(XlsxError::Failed);
    }
    if xml.next()? {
        if let PartEvent::Start(_) = xml.event() {
            return read_hyperlinks(xml, &targets);
        }
    }
    Err(XlsxError::Failed)
}

/// The areas in the section with which a part begins.
fn areas_in(xml: &mut XlReader<FailingPackage>, path: &str) -> Result<Vec<Dimensions>, XlsxError> {
    if !xml.open(path)? {
        return Err(XlsxError::Failed);
    }
    if xml.next()? {
        if let PartEvent::Start(_) = xml.event() {
            return read_merge_cells(xml);
        }
    }
    Err(XlsxError::Failed)
}

/// What the calls of one reader over three styles answer, whose dates count from 1904 and whose one
/// shared string is `zero`, or why it can't be made.
fn push_part_cells(
    out: &mut String,
    xml: &mut XlReader<FailingPackage>,
    words: &[&str],
) -> Result<()> {
    let alloc = xml.alloc();
    let texts = vec![in alloc; String::from_str(alloc, "zero")?]?;
    match xml.open(word(words, 1)) {
        Ok(true) => {}
        Ok(false) => return Ok(()),
        Err(error) => return push_refusal(out, &error),
    }
    let styles = Vec::from_array(
        alloc,
        [Style::default(), Style::default(), Style::default()],
    )?;
    let strings = Strings {
        alloc,
        texts: &texts,
    };
    match XlsxCellReader::new(xml, &texts, &FORMATS, &styles, true) {
        Ok(mut reader) => push_calls(out, strings, &mut reader, words_behind(words, 2)),
        Err(error) => push_refusal(out, &error),
    }
}

fn push_counted(out: &mut String, answer: Result<u64, XlsxError>) -> Result<()> {
    match answer {
        Ok(count) => Ok(write!(out, "{count}")?),
        Err(error) => push_refusal(out, &error),
    }
}

/// Answers a call on a reader of a package.
fn push_reader_answer(
    out: &mut String,
    xml: &mut XlReader<FailingPackage>,
    words: &[&str],
) -> Result<()> {
    let path = word(words, 1);
    match word(words, 0) {
        "find_pivots" => push_found(out, xml, words),
        "cache_fields" => push_fields(out, read_fields(xml, path)),
        "cache_rows" => push_cache_rows(out, xml, words),
        "cache_collected" => push_collected(out, xml, words),
        "cache_next" => push_next_rows(out, xml, words),
        "sheet_tables" => push_sheet_tables(out, xml, path),
        "table_part" => match table_in(xml, path) {
            Ok(table) => push_table_part(out, &table),
            Err(error) => push_refusal(out, &error),
        },
        "link_section" => push_links(out, links_in(xml, words)),
        "merge_section" => push_areas(out, areas_in(xml, path)),
        "part_cells" => push_part_cells(out, xml, words),
        "count_cells" => push_counted(out, count_cells(xml, path)),
        other => Ok(write!(out, "no call of a package is {other}")?),
    }
}

/// Answers a call on a package that leaves it one, which is handed back.
pub fn push_package_answer(
    out: &mut String,
    alloc: Global,
    package: FailingPackage,
    words: &[&str],
) -> Result<FailingPackage> {
    match word(words, 0) {
        "faults" => write!(out, "{}", package.faults())?,
        "taken" => write!(out, "{}", package.taken())?,
        _ => {
            let mut xml = XlReader::new(alloc, package);
            push_reader_answer(out, &mut xml, words)?;
            return Ok(xml.into_package());
        }
    }
    Ok(package)
}
