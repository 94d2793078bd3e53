ghost use Rattle.std.specs.Prelude.{◌≡◌, ℕ, List, Option, true, IfOk, IfErr};
ghost use Rattle.part_events.specs.Words.{Part};
ghost use Rattle.xlsx_sections.specs.Words.{FailsBy};
ghost use Rattle.xlsx_core.specs.Words.{path_of};
ghost use Rattle.xlsx_commands.specs.Outputs.{CallFails};
ghost use Rattle.xlsx_commands.specs.SheetLists.{HasNamed, NamedCause, PathCause};

use crate::error::ToolError;
use input_package::InputPackage;
use std::alloc::Global;
use xlsx_core::Xlsx;
use xlsx_error::XlsxError;

/// What an open workbook has of its first sheet of a name.
pub trait OfSheet: Drop {
    ghost has: { Self → List ℕ → Option (List ℕ) → List Part → Type 0 };

    ghost cause: { List ℕ → PathCause };

    /// Asks the workbook for it.
    fn ask(xlsx: &mut Xlsx<InputPackage>, name: &str) -> Result<Self, XlsxError>
        ensures ok { let old = xlsx.old.xml.source in
            old.is_visible ≡ true → IfOk result (λ found.
            has found name.now (path_of xlsx.old name.now) old.parts) }
        ensures err { let old = xlsx.old.xml.source in
            let why = cause name.now (path_of xlsx.old name.now) old.parts in
            IfErr result (FailsBy why old xlsx.new.xml.source) };
}

/// What the first sheet of this name has, by the workbook of a package that is needed no more.
pub fn of_sheet<T: OfSheet>(
    alloc: Global,
    package: InputPackage,
    name: &str,
) -> Result<T, ToolError>
    ensures ok { IfOk result (λ found. HasNamed (T.has found name.now) «package».parts name.now) }
    ensures err { IfErr result (CallFails (
        NamedCause (T.cause name.now) «package».parts name.now)) }
{
    let mut xlsx = Xlsx::new(alloc, package)?;
    let found = T::ask(&mut xlsx, name);
    drop(xlsx.into_package());
    Ok(found?)
}
