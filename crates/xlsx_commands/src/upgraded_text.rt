ghost use Rattle.std.specs.Prelude.{IfOk, IfErr};
ghost use Rattle.xlsx_commands.specs.Outputs.{IsUpgrade, CallFails};

use crate::error::ToolError;
use input_package::InputPackage;
use package_text::push_package_text;
use part_events::MemoryPackage;
use std::alloc::{AllocError, Global};

/// The text of a package in version 2, and a line feed.
pub(crate) fn text_of(alloc: Global, package: &MemoryPackage) -> Result<Vec<u8>, AllocError>
    ensures { IfOk result (λ output. IsUpgrade «package».now.parts output.items) }
{
    let mut out = String::new(alloc);
    push_package_text(alloc, &mut out, package)?;
    out.push_str("\n")?;
    Ok(out.into_bytes())
}

/// The text of the package in version 2, and a line feed. Only want of memory refuses it.
pub fn upgraded_text(alloc: Global, package: InputPackage) -> Result<Vec<u8>, ToolError>
    ensures ok { IfOk result (λ output. IsUpgrade «package».parts output.items) }
    ensures err { IfErr result (CallFails (λ error. ⊥)) }
{
    let Ok(held) = package.into_memory(alloc) else {
        return Err(ToolError::OutOfMemory);
    };
    let text = text_of(alloc, &held)?;
    Ok(text)
}
