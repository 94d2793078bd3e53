ghost use Rattle.std.specs.Prelude.{IfOk, IfErr};
ghost use Rattle.cell_data.specs.Words.{value_pairs, formula_pairs};
ghost use Rattle.xlsx_core.specs.Words.{HoldsCells, LieOnSheet, SheetCause, ReadsAs, ReadsValuesAs};
ghost use Rattle.xlsx_core.specs.Words.{ShownAs, HasLeastRange, HasLeastRanges};
ghost use Rattle.xlsx_commands.specs.Outputs.{AreLinesOf, AreObjectsOf, AreCellLines, CallFails};

use crate::error::ToolError;
use cell_data::{Data, Range};
use input_package::InputPackage;
use list_lines::LineForm;
use sheet_listing::{listing_of, object_listing_of};
use std::alloc::Global;
use xlsx_core::{ReadCells, SheetAnswer, SheetReading, read_cells, read_sheet_shown};

/// The cells of the sheet of this name as they came, without the package.
fn cells_of(alloc: Global, package: InputPackage, name: &str) -> Result<ReadCells, ToolError>
    ensures inside { IfOk result LieOnSheet }
    ensures reading { IfOk result (HoldsCells «package».parts name.now) }
    ensures err { IfErr result (CallFails (SheetCause «package».parts name.now)) }
{
    let SheetAnswer { result, package } = read_cells(alloc, package, name);
    // What is made of the cells needs the package no more, and its part may be as large as they.
    drop(package);
    let cells = result?;
    Ok(cells)
}

/// What is read of the sheet of this name.
pub(crate) fn reading_of(
    alloc: Global,
    package: InputPackage,
    name: &str,
) -> Result<SheetReading, ToolError>
    ensures ok { IfOk result (λ found. ReadsAs «package».parts name.now
        (value_pairs found.values) (formula_pairs found.formulas) found.styles) }
    ensures ranges { IfOk result HasLeastRanges }
    ensures err { IfErr result (CallFails (SheetCause «package».parts name.now)) }
{
    let cells = cells_of(alloc, package, name)?;
    let reading = cells.into_ranges(alloc)?;
    Ok(reading)
}

/// The values of the sheet of this name.
pub(crate) fn values_of(
    alloc: Global,
    package: InputPackage,
    name: &str,
) -> Result<Range<Data>, ToolError>
    ensures ok { IfOk result (λ values.
        ReadsValuesAs «package».parts name.now (value_pairs values)) }
    ensures range { IfOk result HasLeastRange }
    ensures err { IfErr result (CallFails (SheetCause «package».parts name.now)) }
{
    let cells = cells_of(alloc, package, name)?;
    let values = cells.into_values(alloc)?;
    Ok(values)
}

/// The values of the sheet of this name, each as a spreadsheet program shows it.
pub(crate) fn shown_values_of(
    alloc: Global,
    package: InputPackage,
    name: &str,
) -> Result<Range<Data>, ToolError>
    ensures ok { IfOk result (λ values. ShownAs «package».parts name.now (value_pairs values)) }
    ensures range { IfOk result HasLeastRange }
    ensures err { IfErr result (CallFails (SheetCause «package».parts name.now)) }
{
    let SheetAnswer { result, package } = read_sheet_shown(alloc, package, name);
    drop(package);
    let values = result?;
    Ok(values)
}

/// The lines of the sheet of this name.
fn text_lines(alloc: Global, package: InputPackage, name: &str) -> Result<Vec<u8>, ToolError>
    ensures ok { IfOk result (λ output. AreLinesOf «package».parts name.now output.items) }
    ensures err { IfErr result (CallFails (SheetCause «package».parts name.now)) }
{
    let reading = reading_of(alloc, package, name)?;
    let lines = listing_of(alloc, &reading.values, &reading.formulas, &reading.styles)?;
    Ok(lines.into_bytes())
}

/// The objects of JSON of the sheet of this name, each in a line.
fn object_lines(alloc: Global, package: InputPackage, name: &str) -> Result<Vec<u8>, ToolError>
    ensures ok { IfOk result (λ output. AreObjectsOf «package».parts name.now output.items) }
    ensures err { IfErr result (CallFails (SheetCause «package».parts name.now)) }
{
    let reading = reading_of(alloc, package, name)?;
    let lines = object_listing_of(alloc, &reading.values, &reading.formulas, &reading.styles)?;
    Ok(lines.into_bytes())
}

/// The lines of the sheet of this name, in their form.
pub fn cell_lines(
    alloc: Global,
    package: InputPackage,
    form: LineForm,
    name: &str,
) -> Result<Vec<u8>, ToolError>
    ensures ok { IfOk result (λ output. AreCellLines form «package».parts name.now output.items) }
    ensures err { IfErr result (CallFails (SheetCause «package».parts name.now)) }
{
    match form {
        LineForm::Text => text_lines(alloc, package, name),
        LineForm::Json => object_lines(alloc, package, name),
    }
}
