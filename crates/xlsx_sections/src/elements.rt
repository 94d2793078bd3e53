ghost use Rattle.std.specs.Prelude.{◌≡◌, ◌≤◌, ◌++◌, List, [], ℕ, suc, length, true, Ok, Option};
ghost use Rattle.std.specs.Prelude.{option_map, string_bytes, IfOk, OnOk, IfErr, OnErr};
ghost use Rattle.part_events.specs.Words.{joined_text, IsFrontOf, PutsFront, Reading, IsReading};
ghost use Rattle.part_events.specs.Words.{IsReadingElement, ReadsElement, ReadsPart, ahead};
ghost use Rattle.part_events.specs.Words.{Element, content, outermost, is_any, section_ahead};
ghost use Rattle.xlsx_error.specs.declared.error.XlsxError.TheVariants.{Io};
ghost use Rattle.xlsx_sections.specs.Elements.{end_among, named_end, ElementReadFails, named_among};
ghost use Rattle.xlsx_sections.specs.Elements.{FindsElementIn, IsTextError, IsEndError, ReachesEnd};
ghost use Rattle.xlsx_sections.specs.Elements.{KeepsElements, IfCutOff};
ghost use Rattle.xlsx_sections.specs.ElementText.{element_text};
ghost use Rattle.xlsx_sections.specs.PartSection.{always, Never, IsStepError, SectionFails};
ghost use Rattle.xlsx_sections.specs.PartSection.{StandsAtStart};
ghost use Rattle.xlsx_sections.specs.Steps.{StepsToElement, StepsFromAny, ElementStepFails};
ghost use Rattle.xlsx_sections.specs.Steps.{ElementStepRefused};

use part_events::{Package, Step, XlReader, XmlFault};
use xlsx_error::XlsxError;

/// Reads on to the next element with one of these local names in a section, whose element is number
/// `base` of the open ones, counted from 1. Answers the number of its start in the part, counted
/// from 0, and None at the section's end.
///
/// An element that is found has to be read to its end before the next one is asked for.
///
/// A part that ends in the section is `XmlEof(section)`, and an end that breaks the nesting, or a
/// flaw, is `Xml(Break)` with its number in the part, counted from 0. Neither comes while such an
/// element is left.
pub fn next_element_in<P: Package>(
    xml: &mut XlReader<P>,
    base: usize,
    names: &[&str],
    section: &'static str,
) -> Result<Option<u64>, XlsxError>
    requires reading { IsReading xml.old }
    requires within { base ≤ length xml.old.names }
    ensures reads { ReadsPart Io result xml.old xml.new }
    ensures stands { IfOk result (λ found. StandsAtStart (named_among names.now) base found xml.old
        xml.new) }
    ensures found { xml.old.source.is_visible ≡ true → IfOk result
        (λ found. FindsElementIn (named_among names.now) base found xml.old xml.new) }
    ensures err { IfErr result (ElementStepFails (named_among names.now) section.now base xml.old
        xml.new) }
    ensures step { IfOk result (λ found. StepsFromAny (named_among names.now) base found xml.old
        xml.new) }
    ensures refused { IfErr result (ElementStepRefused (named_among names.now) section.now base
        xml.old xml.new) }
    ensures cut { let left = outermost (named_among names.now) (section_ahead base xml.old) in
        IfErr result (IfCutOff (xml.old.source.is_visible ≡ true → left ≡ [])) }
    ensures kind { IfErr result (IsStepError section.now) }
{
    match xml.next_element(base, names)? {
        Step::Found => Ok(Some(xml.at() - 1)),
        Step::Closed => Ok(None),
        Step::Ended => Err(XlsxError::XmlEof(section)),
    }
}

/// Reads on to the next child of an element, which is number `base` of the open ones, counted from
/// 1. Answers the number of its start in the part, counted from 0, and None at the element's end.
///
/// A child that is found has to be read to its end before the next one is asked for.
///
/// A part that ends in the element is `XmlEof(section)`, and an end that breaks the nesting, or a
/// flaw, is `Xml(Break)` with its number in the part, counted from 0.
pub fn next_child_in<P: Package>(
    xml: &mut XlReader<P>,
    base: usize,
    section: &'static str,
) -> Result<Option<u64>, XlsxError>
    requires reading { IsReading xml.old }
    requires within { base ≤ length xml.old.names }
    ensures reads { ReadsPart Io result xml.old xml.new }
    ensures stands { IfOk result (λ found. StandsAtStart is_any base found xml.old xml.new) }
    ensures found { xml.old.source.is_visible ≡ true → IfOk result
        (λ found. FindsElementIn is_any base found xml.old xml.new) }
    ensures err { IfErr result (λ error. (inner : Element → Option (List ℕ)) →
        SectionFails (end_among is_any section.now inner) Never base xml.old xml.new error) }
    ensures step { IfOk result (λ found. (first : Reading) → KeepsElements is_any base first xml.old
        →
        StepsToElement is_any base found first xml.old xml.new) }
    ensures refused { IfErr result (λ error. (first : Reading) (inner : Element → Option (List ℕ)) →
        KeepsElements is_any base first xml.old →
        SectionFails (end_among is_any section.now inner) Never base first xml.new error) }
    ensures kind { IfErr result (IsStepError section.now) }
{
    match xml.next_child(base)? {
        Step::Found => Ok(Some(xml.at() - 1)),
        Step::Closed => Ok(None),
        Step::Ended => Err(XlsxError::XmlEof(section)),
    }
}

/// Appends the text of the element of this name at whose start the reader stands: each Text, each
/// CharData where `char_data` says so, with their line ends as LF, and the character of each
/// reference. Reads to the element's end. After a refusal the texts of some of its first events are
/// appended.
///
/// A part that ends in the element is `XmlEof(name)`. A reference without a character is
/// `Xml(Entity)`, and an end that breaks the nesting, or a flaw, is `Xml(Break)`, each with its
/// number in the part, counted from 0.
pub fn read_element_text<P: Package>(
    xml: &mut XlReader<P>,
    out: &mut String,
    char_data: bool,
    name: &'static str,
) -> Result<(), XlsxError>
    requires element { IsReadingElement xml.old }
    ensures reads { ReadsElement Io result xml.old xml.new }
    ensures text { let inside = content 0 (ahead xml.old) in
        let text = joined_text char_data inside in
        xml.old.source.is_visible ≡ true → OnOk result ((element_text char_data inside ≡ Ok text)
        × (string_bytes out.new ≡ string_bytes out.old ++ text)) }
    ensures kept { IsFrontOf (string_bytes out.old) (string_bytes out.new) }
    ensures front { let texts : List ℕ × List ℕ = (string_bytes out.old, string_bytes out.new) in
        xml.old.source.is_visible ≡ true → OnErr result
        (PutsFront char_data (content 0 (ahead xml.old)) texts) }
    ensures err { IfErr result (ElementReadFails (always name.now) (element_text char_data) xml.old
        xml.new) }
    ensures kind { IfErr result (IsTextError name.now) }
{
    if !xml.read_text(out, char_data)? {
        return Err(XlsxError::XmlEof(name));
    }
    Ok(())
}

/// Reads on to the end of the element that is number `base` of the open ones, counted from 1. Where
/// the part ends before, the refusal is `XmlEof` with this name, and without one `Xml(Unclosed)`
/// with the number of the part's events. An end that breaks the nesting, or a flaw, is `Xml(Break)`
/// with its number in the part, counted from 0.
pub fn read_to_end<P: Package>(
    xml: &mut XlReader<P>,
    base: usize,
    name: Option<&'static str>,
) -> Result<(), XlsxError>
    requires reading { IsReading xml.old }
    requires within { base ≤ length xml.old.names }
    ensures reads { ReadsPart Io result xml.old xml.new }
    ensures depth { OnOk result (suc (length xml.new.names) ≡ base) }
    ensures reaches { xml.old.source.is_visible ≡ true →
        OnOk result (ReachesEnd base xml.old xml.new) }
    ensures err { let ending = named_end (option_map (λ n. n.now) name.entry) in
        IfErr result (SectionFails ending Never base xml.old xml.new) }
    ensures kind { IfErr result (IsEndError (option_map (λ n. n.now) name.entry)) }
{
    match xml.next_start(base, &[])? {
        Step::Closed => Ok(()),
        Step::Ended => match name {
            Some(name) => Err(XlsxError::XmlEof(name)),
            None => Err(XlsxError::Xml(XmlFault::Unclosed { at: xml.at() })),
        },
        Step::Found => unreachable!(),
    }
}

/// Reads to the end of the element at whose start the reader stands. Where the part ends before,
/// the refusal is `XmlEof` with this name, and without one `Xml(Unclosed)` with the number of the
/// part's events. An end that breaks the nesting, or a flaw, is `Xml(Break)` with its number in the
/// part, counted from 0.
pub fn skip_element_in<P: Package>(
    xml: &mut XlReader<P>,
    name: Option<&'static str>,
) -> Result<(), XlsxError>
    requires element { IsReadingElement xml.old }
    ensures reads { ReadsElement Io result xml.old xml.new }
    ensures err { let ending = named_end (option_map (λ n. n.now) name.entry) in
        IfErr result (SectionFails ending Never (length xml.old.names) xml.old xml.new) }
    ensures kind { IfErr result (IsEndError (option_map (λ n. n.now) name.entry)) }
{
    let base = xml.depth();
    read_to_end(xml, base, name)
}
