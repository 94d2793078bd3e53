ghost use Rattle.std.specs.Prelude.{◌≡◌, string_bytes, IfOk, IfErr};
ghost use Rattle.xlsx_pivots.specs.Words.{pairs_of, pivots_kept, PivotsCause};
ghost use Rattle.xlsx_commands.specs.Outputs.{CallFails};
ghost use Rattle.xlsx_commands.specs.PivotLists.{HasPivots, ListedPivotsCause, pivot_lines};
ghost use Rattle.xlsx_commands.specs.PivotLists.{ArePivotLines};
ghost use Rattle.xlsx_commands.specs.SheetsRefused.{ListingFails};

use crate::error::ToolError;
use input_package::InputPackage;
use list_lines::{LineForm, push_pivot_line};
use std::alloc::{AllocError, Global};
use xlsx_core::{PivotTables, Xlsx};

fn lines_of_pivots(
    alloc: Global,
    form: LineForm,
    pivots: &PivotTables,
) -> Result<String, AllocError>
    ensures { IfOk result (λ out.
        string_bytes out ≡ pivot_lines form (pairs_of (pivots_kept pivots.now))) }
{
    let mut out = String::new(alloc);
    'pivots: for pair in pivots.get_pivot_tables_by_name_and_sheet() {
        push_pivot_line(&mut out, form, pair.0, pair.1)?;
    }
    Ok(out)
}

/// The pivot tables of the workbook, and its package.
pub fn find_pivots(
    alloc: Global,
    package: InputPackage,
) -> Result<(PivotTables, InputPackage), ToolError>
    ensures ok { IfOk result (λ found. HasPivots «package».parts (pivots_kept found.0)) }
    ensures same { IfOk result (λ found. found.1.parts ≡ «package».parts) }
    ensures err { IfErr result (ListingFails PivotsCause «package».parts) }
{
    let mut xlsx = Xlsx::new(alloc, package)?;
    let pivots = xlsx.pivot_tables();
    let package = xlsx.into_package();
    Ok((pivots?, package))
}

/// A line for each pivot table of the workbook.
pub fn pivot_lines(
    alloc: Global,
    package: InputPackage,
    form: LineForm,
) -> Result<Vec<u8>, ToolError>
    ensures ok { IfOk result (λ output. ArePivotLines form «package».parts output.items) }
    ensures err { IfErr result (CallFails (ListedPivotsCause «package».parts)) }
{
    let (pivots, _package) = find_pivots(alloc, package)?;
    Ok(lines_of_pivots(alloc, form, &pivots)?.into_bytes())
}
