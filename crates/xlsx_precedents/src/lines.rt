//! The lines of what formulas name (docs/FORMAT.md).
ghost use Rattle.std.specs.Prelude.{◌≡◌, ◌++◌, map, string_bytes, All, OnOk, OnErr};
ghost use Rattle.std.specs.List.{flat_map};
ghost use Rattle.cell_data.specs.Words.{cells_of};
ghost use Rattle.escaped_text.specs.Escaped.{AddsBehind};
ghost use Rattle.list_lines.specs.Inside.{IsCellOfWorksheet};
ghost use Rattle.list_lines.specs.Lines.{position_line};
ghost use Rattle.xlsx_precedents.specs.Lines.{precedents_lines, dependents_lines};
ghost use Rattle.xlsx_precedents.specs.Precedents.{formula_of_cell};

use crate::areas::push_areas;
use crate::index::DependencyIndex;
use cell_data::Range;
use escaped_text::or_cut_back;
use list_lines::{push_position_areas_line, push_position_line};
use std::alloc::AllocError;

/// Appends those lines. A refusal may leave a front of them behind.
fn push_precedents_lines(out: &mut String, formulas: &Range<String>) -> Result<(), AllocError>
    ensures ok { let printed = precedents_lines (map formula_of_cell (cells_of formulas.now)) in
        OnOk result (string_bytes out.new ≡ string_bytes out.old ++ printed) }
    ensures err { OnErr result (AddsBehind (string_bytes out.old) (string_bytes out.new)) }
{
    let mut areas = Vec::new(*out.allocator());
    for (pos, formula) in formulas.used() {
        areas.clear();
        push_areas(&mut areas, formula.as_str())?;
        push_position_areas_line(out, pos, &areas)?;
    }
    Ok(())
}

/// Appends a line for each used cell, row by row: its reference, and the areas that its formula
/// names, each behind a tab. No index is built. A refusal leaves the text as it was.
#[tactic(auto, using(escaped_text::proofs::Extending::cut_back))]
pub fn push_precedents(out: &mut String, formulas: &Range<String>) -> Result<(), AllocError>
    ensures ok { let printed = precedents_lines (map formula_of_cell (cells_of formulas.now)) in
        OnOk result (string_bytes out.new ≡ string_bytes out.old ++ printed) }
    ensures err { OnErr result (string_bytes out.new ≡ string_bytes out.old) }
{
    let len = out.len();
    let appended = push_precedents_lines(out, formulas);
    or_cut_back(out, len, appended)
}

/// Appends a line for each of these positions. A refusal may leave a front of them behind.
fn push_positions(out: &mut String, cells: &[(u32, u32)]) -> Result<(), AllocError>
    requires { All IsCellOfWorksheet cells.now }
    ensures ok { OnOk result
        (string_bytes out.new ≡ string_bytes out.old ++ flat_map position_line cells.now) }
    ensures err { OnErr result (AddsBehind (string_bytes out.old) (string_bytes out.new)) }
{
    for pos in cells {
        push_position_line(out, *pos)?;
    }
    Ok(())
}

/// Appends a line for each used cell whose formula names a position, a row and a column counted
/// from 0: the cell's reference, row by row. A refusal leaves the text as it was.
#[tactic(auto, using(escaped_text::proofs::Extending::cut_back))]
pub fn push_dependents(
    out: &mut String,
    formulas: &Range<String>,
    pos: (u32, u32),
) -> Result<(), AllocError>
    ensures ok { let printed = dependents_lines (map formula_of_cell (cells_of formulas.now)) pos in
        OnOk result (string_bytes out.new ≡ string_bytes out.old ++ printed) }
    ensures err { OnErr result (string_bytes out.new ≡ string_bytes out.old) }
{
    let alloc = *out.allocator();
    let index = DependencyIndex::build(alloc, formulas)?;
    let found = index.dependents(alloc, pos)?;
    let len = out.len();
    let appended = push_positions(out, &found);
    or_cut_back(out, len, appended)
}
