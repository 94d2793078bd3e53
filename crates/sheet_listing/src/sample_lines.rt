ghost use Rattle.std.specs.Prelude.{◌≡◌, ◌++◌, IfOk, OnOk, string_bytes};
ghost use Rattle.cell_data.specs.Words.{cells_of};
ghost use Rattle.sorted_cells.specs.Words.{kept_cells};
ghost use Rattle.sheet_listing.specs.SampleLines.{count_line, last_line, sample_lines};
ghost use Rattle.sheet_listing.specs.SheetListing.{cell_values, cell_formulas, formula_placed};
ghost use Rattle.sheet_listing.specs.SheetListing.{placed_ids};

use cell_data::{Data, Range};
use cell_styles::StyleRange;
use escaped_text::push_escaped;
use sorted_cells::SortedCells;
use std::alloc::{AllocError, Global};

/// Appends a word, a blank and a count.
fn push_count(out: &mut String, word: &str, count: usize) -> Result<(), AllocError>
    ensures { OnOk result
        (string_bytes out.new ≡ string_bytes out.old ++ count_line word.now count) }
{
    writeln!(out, "{word} {count}")
}

/// Appends the formula of column B in a row that is counted from 1.
fn push_last(out: &mut String, row: u32, formula: &str) -> Result<(), AllocError>
    ensures { OnOk result
        (string_bytes out.new ≡ string_bytes out.old ++ last_line row formula.now) }
{
    write!(out, "last B{row} =")?;
    push_escaped(out, formula)?;
    out.push_str("\n")
}

/// The formula at a row and a column, counted from 0; the empty text where there is none.
fn formula_there(formulas: &Range<String>, position: (u32, u32)) -> &str
    ensures { result.now ≡ formula_placed position (cell_formulas (cells_of formulas.now)) }
{
    match formulas.used_value(position) {
        Some(formula) => formula.as_str(),
        None => "",
    }
}

/// The positions that have a style id above 0, with that id, row by row.
fn styled_cells(alloc: Global, styles: &StyleRange) -> Result<SortedCells<usize>, AllocError>
    ensures { IfOk result (λ cells. kept_cells cells ≡ placed_ids styles.now) }
{
    let mut cells = SortedCells::new(alloc);
    for (row, column, id) in styles.styled() {
        cells.push((row, column), id)?;
    }
    Ok(cells)
}

/// The lines of a sheet with so many rows: how many values, formulas, positions with a style id
/// above 0 and groups of equal style ids it has, and the formula of column B in its last row
/// (docs/FORMAT.md).
pub fn sample_lines_of(
    alloc: Global,
    rows: u32,
    values: &Range<Data>,
    formulas: &Range<String>,
    styles: &StyleRange,
) -> Result<String, AllocError>
    ensures { let printed = sample_lines rows (cell_values (cells_of values.now))
        (cell_formulas (cells_of formulas.now)) styles.now in
        IfOk result (λ out. string_bytes out ≡ printed) }
{
    let styled = styled_cells(alloc, styles)?.len();
    let last = (rows.saturating_sub(1), 1);
    let mut out = String::new(alloc);
    push_count(&mut out, "cells", values.used_count())?;
    push_count(&mut out, "formulas", formulas.used_count())?;
    push_count(&mut out, "styled", styled)?;
    push_count(&mut out, "runs", styles.run_count())?;
    push_last(&mut out, rows, formula_there(formulas, last))?;
    Ok(out)
}
