ghost use Rattle.std.specs.Prelude.{IfOk, IfErr};
ghost use Rattle.xlsx_core.specs.Words.{SheetCause};
ghost use Rattle.xlsx_commands.specs.FormulaLists.{ArePrecedentLines, AreDependentLines};
ghost use Rattle.xlsx_commands.specs.FormulaLists.{AreCheckLines};
ghost use Rattle.xlsx_commands.specs.Outputs.{CallFails};

use crate::cell_lines::reading_of;
use crate::error::ToolError;
use input_package::InputPackage;
use std::alloc::Global;
use xlsx_check::push_checks;
use xlsx_precedents::{push_dependents, push_precedents};

/// A line for each formula of the sheet of this name: its cell and the areas that it names.
pub fn precedent_lines(
    alloc: Global,
    package: InputPackage,
    name: &str,
) -> Result<Vec<u8>, ToolError>
    ensures ok { IfOk result (λ output. ArePrecedentLines «package».parts name.now output.items) }
    ensures err { IfErr result (CallFails (SheetCause «package».parts name.now)) }
{
    let reading = reading_of(alloc, package, name)?;
    let mut out = String::new(alloc);
    push_precedents(&mut out, &reading.formulas)?;
    Ok(out.into_bytes())
}

/// A line for each cell of the sheet of this name whose formula names the cell at a position, a row
/// and a column counted from 0.
pub fn dependent_lines(
    alloc: Global,
    package: InputPackage,
    name: &str,
    position: (u32, u32),
) -> Result<Vec<u8>, ToolError>
    ensures ok { IfOk result
        (λ output. AreDependentLines «package».parts name.now position output.items) }
    ensures err { IfErr result (CallFails (SheetCause «package».parts name.now)) }
{
    let reading = reading_of(alloc, package, name)?;
    let mut out = String::new(alloc);
    push_dependents(&mut out, &reading.formulas, position)?;
    Ok(out.into_bytes())
}

/// A line for each formula of the sheet of this name: its cell, and how what it comes to stands to
/// the value of the cell.
pub fn check_lines(alloc: Global, package: InputPackage, name: &str) -> Result<Vec<u8>, ToolError>
    ensures ok { IfOk result (λ output. AreCheckLines «package».parts name.now output.items) }
    ensures err { IfErr result (CallFails (SheetCause «package».parts name.now)) }
{
    let reading = reading_of(alloc, package, name)?;
    let mut out = String::new(alloc);
    push_checks(&mut out, &reading.values, &reading.formulas)?;
    Ok(out.into_bytes())
}
