ghost use Rattle.std.specs.Prelude.{◌≡◌, ◌≤◌, [], ◌∷◌, length, map, true, false, Some, IfOk, OnOk};
ghost use Rattle.std.specs.Prelude.{IfErr};
ghost use Rattle.part_events.specs.Words.{tag_of, start, is_start, LeavesPackage, event_count};
ghost use Rattle.part_events.specs.Words.{Reading, IsReading, IsAtElement, ReadsPart, ahead};
ghost use Rattle.part_events.specs.Words.{is_named, behind_start};
ghost use Rattle.xlsx_error.specs.declared.error.XlsxError.TheVariants.{Io};
ghost use Rattle.xlsx_sections.specs.PartSection.{always, Never, IsStepError, EntersSection};
ghost use Rattle.xlsx_sections.specs.PartSection.{HasNoPart, EnterFails, SectionFails, StartFails};
ghost use Rattle.xlsx_sections.specs.PartSection.{StandsAtEvent, FindsEvent, StandsAtStart};
ghost use Rattle.xlsx_sections.specs.PartSection.{FindsStartIn};
ghost use Rattle.xlsx_sections.specs.Elements.{KeepsStarts};
ghost use Rattle.xlsx_sections.specs.Steps.{StepsToStart};

use part_events::{Package, PartEvent, StartTag, Step, XlReader};
use xlsx_error::XlsxError;

/// The start at which the reader stands.
pub fn start_tag<P: Package>(xml: &XlReader<P>) -> StartTag<'_>
    requires event { xml.now.source.has_current ≡ true }
    requires starts { is_start xml.now.source.current ≡ true }
    ensures { start (tag_of result) ≡ xml.now.source.current }
{
    match xml.event() {
        PartEvent::Start(tag) => tag,
        _ => unreachable!(),
    }
}

/// Reads on behind the first start of this local name in a part.
///
/// A part that ends before is `XmlEof(name)`, and an end that breaks the nesting, or a flaw, is
/// `Xml(Break)` with its number in the part, counted from 0.
pub fn enter<P: Package>(xml: &mut XlReader<P>, name: &'static str) -> Result<(), XlsxError>
    requires reading { IsReading xml.old }
    ensures reads { ReadsPart Io result xml.old xml.new }
    ensures element { OnOk result (IsAtElement xml.new) }
    ensures found { xml.old.source.is_visible ≡ true →
        OnOk result
        (behind_start (is_named (name.now ∷ [])) (ahead xml.old) ≡ Some (ahead xml.new)) }
    ensures err { IfErr result (StartFails name.now xml.old xml.new) }
    ensures kind { IfErr result (IsStepError name.now) }
{
    match xml.next_start(0, &[name])? {
        Step::Found => Ok(()),
        Step::Ended => Err(XlsxError::XmlEof(name)),
        Step::Closed => unreachable!(),
    }
}

/// Reads on to the next start of one of these local names in a section, whose element is number
/// `base` of the open ones, counted from 1. Answers the number of the start in its part, counted
/// from 0, and None at the section's end.
///
/// A part that ends in the section is `XmlEof(section)`, and an end that breaks the nesting, or a
/// flaw, is `Xml(Break)` with its number in the part, counted from 0.
pub fn next_start_among<P: Package>(
    xml: &mut XlReader<P>,
    base: usize,
    names: &[&str],
    section: &'static str,
) -> Result<Option<u64>, XlsxError>
    requires reading { IsReading xml.old }
    requires within { base ≤ length xml.old.names }
    ensures reads { ReadsPart Io result xml.old xml.new }
    ensures stands { let wanted = is_named (map (λ name. name.now) names.now) in
        IfOk result (λ found. StandsAtStart wanted base found xml.old xml.new) }
    ensures found { let wanted = is_named (map (λ name. name.now) names.now) in
        xml.old.source.is_visible ≡ true →
        IfOk result (λ found. FindsStartIn wanted base found xml.old xml.new) }
    ensures step { let wanted = is_named (map (λ name. name.now) names.now) in
        IfOk result (λ found. (first : Reading) → KeepsStarts base first xml.old →
        StepsToStart wanted base found first xml.old xml.new) }
    ensures err { IfErr result (SectionFails (always section.now) Never base xml.old xml.new) }
    ensures refused { IfErr result (λ error. (first : Reading) → KeepsStarts base first xml.old →
        SectionFails (always section.now) Never base first xml.new error) }
    ensures kind { IfErr result (IsStepError section.now) }
{
    match xml.next_start(base, names)? {
        Step::Found => Ok(Some(xml.at() - 1)),
        Step::Closed => Ok(None),
        Step::Ended => Err(XlsxError::XmlEof(section)),
    }
}

/// Reads on to the next start of this local name in a section, whose element is number `base` of
/// the open ones, counted from 1. Answers the number of the start in its part, counted from 0, and
/// None at the section's end.
///
/// A part that ends in the section is `XmlEof(section)`, and an end that breaks the nesting, or a
/// flaw, is `Xml(Break)` with its number in the part, counted from 0.
pub fn next_start_in<P: Package>(
    xml: &mut XlReader<P>,
    base: usize,
    name: &str,
    section: &'static str,
) -> Result<Option<u64>, XlsxError>
    requires reading { IsReading xml.old }
    requires within { base ≤ length xml.old.names }
    ensures reads { ReadsPart Io result xml.old xml.new }
    ensures stands { IfOk result (λ found. StandsAtStart (is_named (name.now ∷ [])) base found
        xml.old xml.new) }
    ensures found { xml.old.source.is_visible ≡ true →
        IfOk result (λ found. FindsStartIn (is_named (name.now ∷ [])) base found xml.old xml.new) }
    ensures step { let wanted = is_named (name.now ∷ []) in
        IfOk result (λ found. (first : Reading) → KeepsStarts base first xml.old →
        StepsToStart wanted base found first xml.old xml.new) }
    ensures err { IfErr result (SectionFails (always section.now) Never base xml.old xml.new) }
    ensures refused { IfErr result (λ error. (first : Reading) → KeepsStarts base first xml.old →
        SectionFails (always section.now) Never base first xml.new error) }
    ensures kind { IfErr result (IsStepError section.now) }
{
    next_start_among(xml, base, &[name], section)
}

/// Takes the next event of a section, whose element is number `base` of the open ones, counted from
/// 1. Answers the number of the event in its part, counted from 0, and None where that was the
/// section's end.
///
/// A part that ends in the section is `XmlEof(section)`, and an end that breaks the nesting, or a
/// flaw, is `Xml(Break)` with its number in the part, counted from 0.
pub fn next_event_in<P: Package>(
    xml: &mut XlReader<P>,
    base: usize,
    section: &'static str,
) -> Result<Option<u64>, XlsxError>
    requires reading { IsReading xml.old }
    requires within { base ≤ length xml.old.names }
    ensures reads { ReadsPart Io result xml.old xml.new }
    ensures stands { IfOk result (λ found. StandsAtEvent base found xml.old xml.new) }
    ensures found { xml.old.source.is_visible ≡ true → IfOk result (λ found. FindsEvent base found
        xml.old xml.new) }
    ensures err { IfErr result (SectionFails (always section.now) Never base xml.old xml.new) }
    ensures kind { IfErr result (IsStepError section.now) }
{
    match xml.next_inside(base)? {
        Step::Found => Ok(Some(xml.at() - 1)),
        Step::Closed => Ok(None),
        Step::Ended => Err(XlsxError::XmlEof(section)),
    }
}

/// Opens the part at this path, and reads on behind the start of its first section of this local
/// name. Answers false where there is no such part.
///
/// A part that has no such section is `XmlEof(name)`, and one whose nesting breaks before is
/// `Xml(Break)` with the number of the event that breaks it, counted from 0.
pub fn enter_part<P: Package>(
    xml: &mut XlReader<P>,
    path: &str,
    name: &'static str,
) -> Result<bool, XlsxError>
    ensures absent { IfOk result (λ found. found ≡ false →
        HasNoPart path.now xml.old.source xml.new.source) }
    ensures enters { IfOk result (λ found. found ≡ true →
        EntersSection name.now path.now xml.old.source xml.new) }
    ensures leaves { IfErr result (LeavesPackage (event_count xml.old.source.parts path.now) Io
        xml.old.source xml.new.source) }
    ensures err { IfErr result (EnterFails name.now path.now xml.old.source xml.new.source) }
    ensures kind { IfErr result (IsStepError name.now) }
{
    if !xml.open(path)? {
        return Ok(false);
    }
    enter(xml, name)?;
    Ok(true)
}
