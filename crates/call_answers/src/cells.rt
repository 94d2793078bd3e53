//! The cells of a sheet, asked for one by one.

ghost use Rattle.std.specs.Prelude.{◌≡◌, OnOk};
ghost use Rattle.part_events.specs.Words.{SameParts};
ghost use Rattle.xlsx_cells.specs.Words.{stream_by, IsStreaming};

use crate::areas::push_area;
use crate::values::{Told, push_refusal};
use anyhow::Result;
use cell_data::{Cell, DataRef};
use part_events::{Package, XlReader};
use std::alloc::Global;
use xlsx_cells::{XlsxCellFormula, XlsxCellFormulaMetadataRecord, XlsxCellReader, open_data};
use xlsx_core::XlsxError;
use xlsx_formulas::XlsxFormulaMetadata;
use xlsx_values::to_data;

/// Shared strings by their places.
#[derive(Clone, Copy)]
pub struct Strings<'a> {
    pub alloc: Global,
    pub texts: &'a [String],
}

/// Where a cell stands, and its value, a shared string as its text where the strings are known.
fn push_placed(
    out: &mut String,
    strings: Strings<'_>,
    pos: (u32, u32),
    value: DataRef,
) -> Result<()> {
    write!(out, "({},{} ", pos.0, pos.1)?;
    if strings.texts.is_empty() {
        return value.push_to(out);
    }
    to_data(strings.alloc, value, strings.texts)?.push_to(out)
}

fn push_cell_value(
    out: &mut String,
    strings: Strings<'_>,
    found: Result<Option<Cell<DataRef>>, XlsxError>,
) -> Result<()> {
    match found {
        Ok(Some(cell)) => {
            push_placed(out, strings, cell.pos, cell.val)?;
            Ok(out.push_str(")")?)
        }
        Ok(None) => Ok(out.push_str(".")?),
        Err(error) => push_refused(out, &error),
    }
}

fn push_refused(out: &mut String, error: &XlsxError) -> Result<()> {
    push_refusal(out, error)?;
    Ok(out.push_str(";")?)
}

fn push_value_and_style(
    out: &mut String,
    strings: Strings<'_>,
    found: Result<Option<(Cell<DataRef>, usize)>, XlsxError>,
) -> Result<()> {
    match found {
        Ok(Some((cell, id))) => {
            push_placed(out, strings, cell.pos, cell.val)?;
            Ok(write!(out, " style {id})")?)
        }
        Ok(None) => Ok(out.push_str(".")?),
        Err(error) => push_refused(out, &error),
    }
}

fn push_value_and_formula(
    out: &mut String,
    strings: Strings<'_>,
    found: Result<Option<XlsxCellFormula>, XlsxError>,
) -> Result<()> {
    match found {
        Ok(Some(cell)) => {
            push_placed(out, strings, cell.pos, cell.value)?;
            match cell.formula {
                Some(formula) => write!(out, " ={formula})")?,
                None => out.push_str(" -)")?,
            }
            Ok(())
        }
        Ok(None) => Ok(out.push_str(".")?),
        Err(error) => push_refused(out, &error),
    }
}

/// A formula alone, the first of a group with its area, or a member of one.
fn push_metadata(out: &mut String, told: &XlsxFormulaMetadata) -> Result<()> {
    match told {
        XlsxFormulaMetadata::Normal { formula } => write!(out, " own {formula}")?,
        XlsxFormulaMetadata::Shared {
            shared_index,
            range,
            formula,
        } => {
            write!(out, " group {shared_index} ")?;
            match range {
                Some(area) => push_area(out, *area)?,
                None => out.push_str("without area")?,
            }
            write!(out, " {formula}")?;
        }
        XlsxFormulaMetadata::SharedDerived { shared_index } => {
            write!(out, " of group {shared_index}")?;
        }
    }
    Ok(())
}

/// What is told is a copy's, behind which stands the group that both have.
fn push_described(out: &mut String, strings: Strings<'_>, own: &XlsxFormulaMetadata) -> Result<()> {
    let copy = own.clone_in(strings.alloc)?;
    push_metadata(out, &copy)?;
    if let (Some(group), true) = (copy.shared_index(), copy == *own) {
        write!(out, " {group}")?;
    }
    Ok(())
}

fn push_value_and_metadata(
    out: &mut String,
    strings: Strings<'_>,
    found: Result<Option<XlsxCellFormulaMetadataRecord>, XlsxError>,
) -> Result<()> {
    match found {
        Ok(Some(cell)) => {
            push_placed(out, strings, cell.pos, cell.value)?;
            match &cell.formula {
                Some(own) => push_described(out, strings, own)?,
                None => out.push_str(" -")?,
            }
            Ok(out.push_str(")")?)
        }
        Ok(None) => Ok(out.push_str(".")?),
        Err(error) => push_refused(out, &error),
    }
}

fn push_cell_formula(
    out: &mut String,
    found: Result<Option<Cell<String>>, XlsxError>,
) -> Result<()> {
    match found {
        Ok(Some(cell)) => Ok(write!(out, "({},{} ={})", cell.pos.0, cell.pos.1, cell.val)?),
        Ok(None) => Ok(out.push_str(".")?),
        Err(error) => push_refused(out, &error),
    }
}

fn push_cell_style(
    out: &mut String,
    found: Result<Option<(u32, u32, usize)>, XlsxError>,
) -> Result<()> {
    match found {
        Ok(Some((row, column, id))) => Ok(write!(out, "({row},{column} style {id})")?),
        Ok(None) => Ok(out.push_str(".")?),
        Err(error) => push_refused(out, &error),
    }
}

/// Appends what the reader answers to the call that this word names.
fn push_given<P: Package>(
    out: &mut String,
    strings: Strings<'_>,
    reader: &mut XlsxCellReader<'_, P>,
    call: &str,
) -> Result<()>
    requires { IsStreaming (stream_by reader.old) }
    ensures { IsStreaming (stream_by reader.new) }
{
    match call {
        "value" => push_cell_value(out, strings, reader.next_cell()),
        "value+style" => push_value_and_style(out, strings, reader.next_cell_with_style_id()),
        "formula" => push_cell_formula(out, reader.next_formula()),
        "value+formula" => push_value_and_formula(out, strings, reader.next_cell_with_formula()),
        "metadata" => {
            push_value_and_metadata(out, strings, reader.next_cell_with_formula_metadata())
        }
        "style" => push_cell_style(out, reader.next_style_id()),
        "styles" => Ok(write!(out, "{} styles;", reader.styles().len())?),
        other => Ok(write!(out, "no call is {other}")?),
    }
}

/// What these calls of one reader answer, or why it can't be made.
pub fn push_calls<P: Package>(
    out: &mut String,
    strings: Strings<'_>,
    reader: &mut XlsxCellReader<'_, P>,
    calls: &[&str],
) -> Result<()>
    requires { IsStreaming (stream_by reader.old) }
{
    'calls: for call in calls {
        push_given(out, strings, reader, call)?;
    }
    Ok(())
}

/// How many cells the sheet at this path has, as a reader counts them that goes on behind its head.
pub fn count_cells<P: Package>(xml: &mut XlReader<P>, path: &str) -> Result<u64, XlsxError>
    ensures keeps { SameParts xml.old.source xml.new.source }
    ensures faults { OnOk result (xml.new.source.faults ≡ xml.old.source.faults) }
{
    let Some((sheet, dimensions)) = open_data(xml, path)? else {
        return Ok(0);
    };
    let mut reader = XlsxCellReader::resume(xml, &[], &[], &[], false, sheet, dimensions);
    let mut count = 0u64;
    'cells: while let Some(_cell) = reader.next_cell()? {
        count = count.saturating_add(1);
    }
    Ok(count)
}
