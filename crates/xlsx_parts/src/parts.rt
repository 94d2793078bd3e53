ghost use Rattle.std.specs.Prelude.{◌≡◌, [], ◌∷◌, true, false, IfOk, IfErr};
ghost use Rattle.part_events.specs.Words.{LeavesPackage, Reading, IsReading, IsAtElement};
ghost use Rattle.part_events.specs.Words.{ReadsPart, is_named};
ghost use Rattle.xlsx_error.specs.declared.error.XlsxError.TheVariants.{Io};
ghost use Rattle.xlsx_sections.specs.Words.{KeepsStarts, SoundFails, HasNoPart, KeepsSection};
ghost use Rattle.xlsx_parts.specs.WholePart.{OpensPart, FindsSection, FindSectionFails};
ghost use Rattle.xlsx_parts.specs.WholePart.{StandsInPart, StepsInPart, StandsAtPartEvent};
ghost use Rattle.xlsx_parts.specs.WholePart.{StepsToPartEvent, StepFails, IsOpenError};
ghost use Rattle.xlsx_parts.specs.WholePart.{IsBreakError};

use part_events::{Package, Step, XlReader};
use xlsx_error::XlsxError;

/// Opens the part at this path, and stands before its first event. Answers false where there is no
/// such part. Its refusals are `Io` and `OutOfMemory`.
pub fn open_part<P: Package>(xml: &mut XlReader<P>, path: &str) -> Result<bool, XlsxError>
    ensures absent { IfOk result (λ found. found ≡ false →
        HasNoPart path.now xml.old.source xml.new.source) }
    ensures opens { IfOk result (λ found. found ≡ true →
        OpensPart path.now xml.old.source xml.new) }
    ensures leaves { IfErr result (LeavesPackage 0 Io xml.old.source xml.new.source) }
    ensures err { IfErr result (SoundFails xml.old.source xml.new.source) }
    ensures kind { IfErr result IsOpenError }
{
    let found = xml.open(path)?;
    Ok(found)
}

/// Reads on behind the first start of this local name in a part of which nothing was taken, and
/// answers whether there is one. A part without one is read to its end.
///
/// An end that breaks the nesting, or a flaw, before is `Xml(Break)` with its number in the part,
/// counted from 0.
pub fn find_section<P: Package>(xml: &mut XlReader<P>, name: &str) -> Result<bool, XlsxError>
    requires reading { IsReading xml.old }
    requires first { xml.old.at ≡ 0 }
    ensures reads { ReadsPart Io result xml.old xml.new }
    ensures element { IfOk result (λ found. found ≡ true → IsAtElement xml.new) }
    ensures found { xml.old.source.is_visible ≡ true →
        IfOk result (λ found. FindsSection name.now found xml.old xml.new) }
    ensures err { IfErr result (FindSectionFails name.now xml.old xml.new) }
    ensures kind { IfErr result IsBreakError }
{
    match xml.next_start(0, &[name])? {
        Step::Found => Ok(true),
        Step::Ended => Ok(false),
        Step::Closed => unreachable!(),
    }
}

/// Reads on to the next start of this local name in a part, at any depth. Answers the number of the
/// start in its part, counted from 0, and None at the part's end.
///
/// An end that breaks the nesting, or a flaw, is `Xml(Break)` with its number in the part, counted
/// from 0.
pub fn next_start_of_part<P: Package>(
    xml: &mut XlReader<P>,
    name: &str,
) -> Result<Option<u64>, XlsxError>
    requires reading { IsReading xml.old }
    ensures reads { ReadsPart Io result xml.old xml.new }
    ensures stands { IfOk result
        (λ found. StandsInPart (is_named (name.now ∷ [])) found xml.old xml.new) }
    ensures step { IfOk result (λ found. (first : Reading) → KeepsStarts 0 first xml.old →
        StepsInPart (is_named (name.now ∷ [])) found first xml.old xml.new) }
    ensures refused { IfErr result (λ error. (first : Reading) → KeepsStarts 0 first xml.old →
        StepFails first xml.new error) }
    ensures kind { IfErr result IsBreakError }
{
    match xml.next_start(0, &[name])? {
        Step::Found => Ok(Some(xml.at() - 1)),
        Step::Ended => Ok(None),
        Step::Closed => unreachable!(),
    }
}

/// Takes the next event of a part. Answers its number, counted from 0, and None at the part's end.
///
/// An end that breaks the nesting, or a flaw, is `Xml(Break)` with its number in the part, counted
/// from 0.
pub fn next_event_of_part<P: Package>(xml: &mut XlReader<P>) -> Result<Option<u64>, XlsxError>
    requires reading { IsReading xml.old }
    ensures reads { ReadsPart Io result xml.old xml.new }
    ensures stands { IfOk result (λ found. StandsAtPartEvent found xml.old xml.new) }
    ensures step { IfOk result (λ found. (first : Reading) → KeepsSection 0 first xml.old →
        StepsToPartEvent found first xml.old xml.new) }
    ensures refused { IfErr result (λ error. (first : Reading) → KeepsSection 0 first xml.old →
        StepFails first xml.new error) }
    ensures kind { IfErr result IsBreakError }
{
    match xml.next_inside(0)? {
        Step::Found => Ok(Some(xml.at() - 1)),
        Step::Ended => Ok(None),
        Step::Closed => unreachable!(),
    }
}
