ghost use Rattle.std.specs.Prelude.{IfOk, IfErr};
ghost use Rattle.xlsx_core.specs.Words.{SheetCause};
ghost use Rattle.xlsx_commands.specs.Outputs.{IsResaved, CallFails};

use crate::cell_lines::reading_of;
use crate::error::ToolError;
use crate::laws::sheets_that_are_read_can_be_written;
use crate::upgraded_text::text_of;
use input_package::InputPackage;
use std::alloc::Global;
use xlsx_writer::{WrittenForm, write_package};

/// The text of the package that is written of what is read of the sheet of this name, in version 2,
/// and a line feed.
pub fn resaved_text(alloc: Global, package: InputPackage, name: &str) -> Result<Vec<u8>, ToolError>
    ensures ok { IfOk result (λ output. IsResaved «package».parts name.now output.items) }
    ensures err { IfErr result (CallFails (SheetCause «package».parts name.now)) }
{
    sheets_that_are_read_can_be_written();
    let reading = reading_of(alloc, package, name)?;
    let form = WrittenForm::PackageText;
    let written = write_package(alloc, form, name, &reading.values, &reading.formulas)?;
    // What is written needs the reading no more.
    drop(reading);
    let text = text_of(alloc, &written)?;
    Ok(text)
}
