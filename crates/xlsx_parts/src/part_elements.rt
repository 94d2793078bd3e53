ghost use Rattle.std.specs.Prelude.{[], ◌∷◌, IfOk, IfErr};
ghost use Rattle.part_events.specs.Words.{Reading, IsReading, ReadsPart, is_named};
ghost use Rattle.xlsx_error.specs.declared.error.XlsxError.TheVariants.{Io};
ghost use Rattle.xlsx_sections.specs.Words.{KeepsElements};
ghost use Rattle.xlsx_parts.specs.WholePart.{StandsInPart, StepFails, IsBreakError};
ghost use Rattle.xlsx_parts.specs.PartElements.{StepsToPartElement};

use part_events::{Package, Step, XlReader};
use xlsx_error::XlsxError;

/// Reads on to the next element of this local name in a part. Answers the number of its start in
/// the part, counted from 0, and None at the part's end. An element that is found has to be read to
/// its end before the next one is asked for.
///
/// An end that breaks the nesting, or a flaw, is `Xml(Break)` with its number in the part, counted
/// from 0.
pub fn next_element_of_part<P: Package>(
    xml: &mut XlReader<P>,
    name: &str,
) -> Result<Option<u64>, XlsxError>
    requires reading { IsReading xml.old }
    ensures reads { ReadsPart Io result xml.old xml.new }
    ensures stands { IfOk result
        (λ found. StandsInPart (is_named (name.now ∷ [])) found xml.old xml.new) }
    ensures step { let wanted = is_named (name.now ∷ []) in
        IfOk result (λ found. (first : Reading) → KeepsElements wanted 0 first xml.old →
        StepsToPartElement wanted found first xml.old xml.new) }
    ensures refused { let wanted = is_named (name.now ∷ []) in
        IfErr result (λ error. (first : Reading) → KeepsElements wanted 0 first xml.old →
        StepFails first xml.new error) }
    ensures kind { IfErr result IsBreakError }
{
    match xml.next_element(0, &[name])? {
        Step::Found => Ok(Some(xml.at() - 1)),
        Step::Ended => Ok(None),
        Step::Closed => unreachable!(),
    }
}
