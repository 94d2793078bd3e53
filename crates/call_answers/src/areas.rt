//! Areas, and the merged cells of sheets.

use crate::runs::Opened;
use crate::values::{push_done, push_refusal};
use crate::words::{number, word};
use anyhow::Result;
use cell_refs::Dimensions;
use xlsx_core::{MergedRegion, XlsxError};

/// An area by its corners, their rows and columns counted from 0.
pub fn push_area(out: &mut String, area: Dimensions) -> Result<()> {
    let (start, end) = (area.start, area.end);
    Ok(write!(out, "({},{})-({},{})", start.0, start.1, end.0, end.1)?)
}

/// An area, or `-` where there is none.
pub fn push_bounds(out: &mut String, bounds: Option<Dimensions>) -> Result<()> {
    match bounds {
        Some(area) => push_area(out, area),
        None => Ok(out.push_str("-")?),
    }
}

/// The areas, or why they are not read.
pub fn push_areas(out: &mut String, answer: Result<Vec<Dimensions>, XlsxError>) -> Result<()> {
    match answer {
        Ok(areas) => {
            for area in &areas {
                push_area(out, *area)?;
            }
            Ok(())
        }
        Err(error) => push_refusal(out, &error),
    }
}

/// The same of a sheet that may have none.
fn push_some_areas(
    out: &mut String,
    answer: Option<Result<Vec<Dimensions>, XlsxError>>,
) -> Result<()> {
    match answer {
        Some(answer) => push_areas(out, answer),
        None => Ok(out.push_str("None")?),
    }
}

/// A region behind the name of its sheet.
fn push_region(out: &mut String, region: &MergedRegion) -> Result<()> {
    out.push_str(region.sheet.as_str())?;
    push_area(out, region.dimensions)
}

/// The regions that are loaded, all or those of the sheets of a name.
fn push_regions(out: &mut String, opened: &Opened, words: &[&str]) -> Result<()> {
    let xlsx = &opened.xlsx;
    if !xlsx.merged_regions_loaded() {
        return Ok(out.push_str("not loaded")?);
    }
    if word(words, 0) == "regions" {
        for region in xlsx.merged_regions() {
            push_region(out, region)?;
        }
        return Ok(());
    }
    for region in xlsx.merged_regions_by_sheet(word(words, 1)) {
        push_region(out, region)?;
    }
    Ok(())
}

/// Whether this is a call for merged cells, which is answered then.
pub fn push_merge_answer(out: &mut String, opened: &mut Opened, words: &[&str]) -> Result<bool> {
    let xlsx = &mut opened.xlsx;
    let name = word(words, 1);
    match word(words, 0) {
        "merges" => push_areas(out, xlsx.merge_cells_by_sheet_name(name))?,
        "merges_at" => push_areas(out, xlsx.merge_cells_by_sheet_id(number(words, 1)))?,
        "lenient" => push_some_areas(out, xlsx.worksheet_merge_cells(name))?,
        "lenient_at" => push_some_areas(out, xlsx.worksheet_merge_cells_at(number(words, 1)))?,
        "load_regions" => push_done(out, xlsx.load_merged_regions())?,
        "regions" | "regions_of" => push_regions(out, opened, words)?,
        _ => return Ok(false),
    }
    Ok(true)
}
