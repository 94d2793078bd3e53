ghost use Rattle.std.specs.Prelude.{◌≡◌, Some, string_bytes, IfOk, IfErr};
ghost use Rattle.xlsx_commands.specs.Outputs.{CallFails};
ghost use Rattle.xlsx_commands.specs.PartNames.{IsPartLine, NamedPartCause, PartPathCause};

use crate::error::ToolError;
use crate::named_sheet::{OfSheet, of_sheet};
use input_package::InputPackage;
use list_lines::push_text_line;
use std::alloc::Global;
use xlsx_core::Xlsx;
use xlsx_error::XlsxError;

/// The name of the part that a sheet is read from.
impl OfSheet for String {
    ghost has = { λ told name path parts. path ≡ Some (string_bytes told) };

    ghost cause = { PartPathCause };

    #[tactic(auto, using(crate::proofs::PartsNamed::path_fails))]
    fn ask(xlsx: &mut Xlsx<InputPackage>, name: &str) -> Result<String, XlsxError> {
        xlsx.worksheet_path(name)
    }
}

/// The line with the name of the part that the first sheet of this name is read from, whether the
/// package has that part or not.
pub fn part_line(alloc: Global, package: InputPackage, name: &str) -> Result<Vec<u8>, ToolError>
    ensures ok { IfOk result (λ output. IsPartLine «package».parts name.now output.items) }
    ensures err { IfErr result (CallFails (NamedPartCause «package».parts name.now)) }
{
    let path: String = of_sheet(alloc, package, name)?;
    let mut out = String::new(alloc);
    push_text_line(&mut out, path.as_str())?;
    Ok(out.into_bytes())
}
