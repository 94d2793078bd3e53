ghost use Rattle.std.specs.Prelude.{◌≡◌, ◌≤◌, length, IfOk, IfErr};
ghost use Rattle.package_file.specs.PackageFile.{package_file, longest_file};
ghost use Rattle.xlsx_core.specs.Words.{SheetCause};
ghost use Rattle.xlsx_commands.specs.Outputs.{FileFails};
ghost use Rattle.xlsx_commands.specs.ResavedFile.{IsResavedFile, HasNoFile, MakingFails};

use crate::cell_lines::reading_of;
use crate::error::ToolError;
use crate::laws::sheets_that_are_read_can_be_written;
use input_package::InputPackage;
use package_file::write_package_file;
use part_events::MemoryPackage;
use std::alloc::Global;
use xlsx_writer::{WrittenForm, has_zero_left, write_package};
use zip_writer::WriteError;

/// The most bytes that a workbook file may have.
const LONGEST_FILE: usize = 268_435_456;

/// The workbook file of a package. One that would be too long is refused as `Unwritable`.
fn file_of(alloc: Global, package: &MemoryPackage) -> Result<Vec<u8>, ToolError>
    ensures file { IfOk result (λ file. file.items ≡ package_file «package».now.parts) }
    ensures size { IfOk result (λ file. length file.items ≤ longest_file) }
    ensures err { IfErr result (MakingFails «package».now.parts) }
{
    match write_package_file(alloc, package) {
        Ok(file) => {
            if file.len() <= LONGEST_FILE {
                return Ok(file);
            }
            Err(ToolError::Unwritable)
        }
        Err(WriteError::TooLarge | WriteError::Ambiguous) => Err(ToolError::Unwritable),
        Err(WriteError::OutOfMemory) => Err(ToolError::OutOfMemory),
    }
}

/// The workbook file that is written of what is read of the sheet of this name. Where a character 0
/// is left in it, or it would be too long, it is refused as `Unwritable`.
pub fn resaved_file(alloc: Global, package: InputPackage, name: &str) -> Result<Vec<u8>, ToolError>
    ensures ok { IfOk result (λ output. IsResavedFile «package».parts name.now output.items) }
    ensures err { let none = HasNoFile «package».parts name.now in
        IfErr result (FileFails (SheetCause «package».parts name.now) none) }
{
    sheets_that_are_read_can_be_written();
    let reading = reading_of(alloc, package, name)?;
    let form = WrittenForm::WorkbookFile;
    if has_zero_left(form, name, &reading.values, &reading.formulas) {
        return Err(ToolError::Unwritable);
    }
    let written = write_package(alloc, form, name, &reading.values, &reading.formulas)?;
    // What is written needs the reading no more.
    drop(reading);
    file_of(alloc, &written)
}
