ghost use Rattle.std.specs.Prelude.{◌≡◌, string_bytes, All, IfOk, IfErr, Some};
ghost use Rattle.list_lines.specs.Inside.{LiesInWorksheet};
ghost use Rattle.xlsx_core.specs.Words.{merges_placed};
ghost use Rattle.xlsx_commands.specs.Outputs.{CallFails};
ghost use Rattle.xlsx_commands.specs.SheetLists.{MergesPathCause, NamedMergesCause, merge_lines};
ghost use Rattle.xlsx_commands.specs.SheetLists.{AreMergeLines};

use crate::error::ToolError;
use crate::named_sheet::{OfSheet, of_sheet};
use cell_refs::Dimensions;
use input_package::InputPackage;
use list_lines::{LineForm, push_area_line};
use std::alloc::{AllocError, Global};
use xlsx_core::Xlsx;
use xlsx_error::XlsxError;

/// The merged cells of a sheet.
impl OfSheet for Vec<Dimensions> {
    ghost has = { λ areas name path parts. merges_placed path parts ≡ Some areas.items };

    ghost cause = { MergesPathCause };

    fn ask(xlsx: &mut Xlsx<InputPackage>, name: &str) -> Result<Vec<Dimensions>, XlsxError> {
        xlsx.merge_cells_by_sheet_name(name)
    }
}

fn lines_of_areas(alloc: Global, form: LineForm, areas: &[Dimensions]) -> Result<String, AllocError>
    requires { All LiesInWorksheet areas.now }
    ensures { IfOk result (λ out. string_bytes out ≡ merge_lines form areas.now) }
{
    let mut out = String::new(alloc);
    for area in areas {
        push_area_line(&mut out, form, *area)?;
    }
    Ok(out)
}

/// A line for each area of merged cells of the first sheet of this name.
pub fn merge_lines(
    alloc: Global,
    package: InputPackage,
    form: LineForm,
    name: &str,
) -> Result<Vec<u8>, ToolError>
    ensures ok { IfOk result (λ output. AreMergeLines form «package».parts name.now output.items) }
    ensures err { IfErr result (CallFails (NamedMergesCause «package».parts name.now)) }
{
    let areas: Vec<Dimensions> = of_sheet(alloc, package, name)?;
    Ok(lines_of_areas(alloc, form, &areas)?.into_bytes())
}
