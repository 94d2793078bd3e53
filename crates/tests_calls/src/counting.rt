ghost use Rattle.std.specs.Prelude.{IfOk, IfErr};
ghost use Rattle.tests_calls.specs.Counting.{CountsFormulas, CountFails};

use part_events::MemoryPackage;
use std::alloc::Global;
use xlsx_core::{SheetAnswer, XlsxError, read_sheet};

/// How many positions of the first sheet of this name have a formula. It is refused as `read_sheet`
/// is.
#[tactic(auto, using(crate::proofs::Counted::counts, crate::proofs::Counted::count_fails))]
pub fn formula_count(alloc: Global, package: MemoryPackage, name: &str) -> Result<usize, XlsxError>
    ensures ok { IfOk result (CountsFormulas «package».parts name.now) }
    ensures err { IfErr result (CountFails «package».parts name.now) }
{
    let SheetAnswer { result, package } = read_sheet(alloc, package, name);
    drop(package);
    match result {
        Ok(reading) => Ok(reading.formulas.used_count()),
        Err(error) => Err(error),
    }
}
