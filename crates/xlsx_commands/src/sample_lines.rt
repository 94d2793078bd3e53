ghost use Rattle.std.specs.Prelude.{IfOk, IfErr};
ghost use Rattle.xlsx_core.specs.Words.{SheetCause};
ghost use Rattle.xlsx_commands.specs.Outputs.{CallFails};
ghost use Rattle.xlsx_commands.specs.SampleLines.{AreSampleLines, sample_name};

use crate::error::ToolError;
use input_package::InputPackage;
use sheet_listing::sample_lines_of;
use std::alloc::Global;
use xlsx_core::{SheetAnswer, read_sheet};

/// The lines of a sample of so many rows: how much is read of its sheet, and the formula of the
/// last row.
pub fn sample_lines(alloc: Global, package: InputPackage, rows: u32) -> Result<Vec<u8>, ToolError>
    ensures ok { IfOk result (λ output. AreSampleLines rows «package».parts output.items) }
    ensures err { IfErr result (CallFails (SheetCause «package».parts sample_name)) }
{
    let SheetAnswer { result, package } = read_sheet(alloc, package, "Sample");
    // What is read needs the package no more.
    drop(package);
    let reading = result?;
    let lines = sample_lines_of(
        alloc,
        rows,
        &reading.values,
        &reading.formulas,
        &reading.styles,
    )?;
    Ok(lines.into_bytes())
}
