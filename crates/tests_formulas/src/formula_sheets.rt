//! Sheets of formulas, and areas as texts.
ghost use Rattle.std.specs.Prelude.{◌<◌, All, IfOk};
ghost use Rattle.cell_data.specs.Words.{IsInSheet};
ghost use Rattle.cell_refs.specs.Words.{row_limit, column_limit};

use cell_data::{Cell, Range};
use cell_refs::{Dimensions, get_dimension, get_row_column};
use std::alloc::{AllocError, Global};
use std::test::Fail;

/// The formulas of a text: on each of its lines a cell, a blank and the cell's formula.
pub fn sheet(alloc: Global, text: &str) -> Result<Range<String>, Fail> {
    let cells = cells_of(alloc, text)?;
    Ok(Range::from_sparse(alloc, cells, String::new(alloc))?)
}

fn cells_of(alloc: Global, text: &str) -> Result<Vec<Cell<String>>, Fail>
    ensures { IfOk result (λ cells. All IsInSheet cells.items) }
{
    let mut cells = Vec::new(alloc);
    for line in text.split('\n') {
        let (reference, formula) = line.split_once(' ').unwrap_or((line, ""));
        push_cell(&mut cells, reference, String::from_str(alloc, formula)?)?;
    }
    Ok(cells)
}

fn push_cell(cells: &mut Vec<Cell<String>>, reference: &str, formula: String) -> Result<(), Fail>
    requires { All IsInSheet cells.old.items }
    ensures { All IsInSheet cells.new.items }
{
    let pos = position_of(reference)?;
    cells.push(Cell::new(pos, formula))?;
    Ok(())
}

/// The position of a reference.
pub fn position_of(reference: &str) -> Result<(u32, u32), Fail>
    ensures { IfOk result (λ pos. (pos.0 < row_limit) × (pos.1 < column_limit)) }
{
    match get_row_column(reference) {
        Ok(pos) => Ok(pos),
        Err(error) => Err(Fail::new(format_args!("{reference}: {error}"))),
    }
}

/// The areas that a text names, with a blank between two of them.
pub fn areas_in(alloc: Global, text: &str) -> Result<Vec<Dimensions>, Fail> {
    let mut areas = Vec::new(alloc);
    for part in text.split(' ') {
        if part.is_empty() {
            continue;
        }
        match get_dimension(part) {
            Ok(area) => areas.push(area)?,
            Err(error) => return Err(Fail::new(format_args!("{part}: {error}"))),
        }
    }
    Ok(areas)
}

/// The corners of areas, rows and columns counted from 0.
pub fn told_areas(alloc: Global, areas: &[Dimensions]) -> Result<String, AllocError> {
    let mut out = String::new(alloc);
    for area in areas {
        write!(
            out,
            "{} {} to {} {};",
            area.start.0, area.start.1, area.end.0, area.end.1
        )?;
    }
    Ok(out)
}

/// Cells, rows and columns counted from 0.
pub fn told_cells(alloc: Global, cells: &[(u32, u32)]) -> Result<String, AllocError> {
    let mut out = String::new(alloc);
    for (row, column) in cells {
        write!(out, "{row} {column};")?;
    }
    Ok(out)
}
