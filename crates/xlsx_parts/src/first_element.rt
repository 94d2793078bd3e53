ghost use Rattle.std.specs.Prelude.{◌≡◌, [], ◌∷◌, true, IfOk, IfErr};
ghost use Rattle.part_events.specs.Words.{IsReading, ReadsPart, is_named};
ghost use Rattle.xlsx_error.specs.declared.error.XlsxError.TheVariants.{Io};
ghost use Rattle.xlsx_parts.specs.FirstElement.{FindsFirst};
ghost use Rattle.xlsx_parts.specs.WholePart.{FindSectionFails, StandsInPart, IsBreakError};

use part_events::{Package, Step, XlReader};
use xlsx_error::XlsxError;

/// Reads on behind the start of the first element of this local name in a part of which nothing was
/// taken. Answers the number of the start in its part, counted from 0, and None where there is
/// none. A part without one is read to its end.
///
/// An end that breaks the nesting, or a flaw, before is `Xml(Break)` with its number in the part,
/// counted from 0.
pub fn find_element<P: Package>(xml: &mut XlReader<P>, name: &str) -> Result<Option<u64>, XlsxError>
    requires reading { IsReading xml.old }
    requires first { xml.old.at ≡ 0 }
    ensures reads { ReadsPart Io result xml.old xml.new }
    ensures stands { IfOk result
        (λ found. StandsInPart (is_named (name.now ∷ [])) found xml.old xml.new) }
    ensures found { xml.old.source.is_visible ≡ true →
        IfOk result (λ found. FindsFirst name.now found xml.old xml.new) }
    ensures err { IfErr result (FindSectionFails name.now xml.old xml.new) }
    ensures kind { IfErr result IsBreakError }
{
    match xml.next_start(0, &[name])? {
        Step::Found => Ok(Some(xml.at() - 1)),
        Step::Ended => Ok(None),
        Step::Closed => unreachable!(),
    }
}
