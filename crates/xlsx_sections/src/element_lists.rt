ghost use Rattle.std.specs.Prelude.{◌≡◌, ◌≤◌, ℕ, List, length, map, suc, true, Ok, Result, Option};
ghost use Rattle.std.specs.Prelude.{IfOk, OnOk, IfErr};
ghost use Rattle.part_events.specs.Words.{Tag, Event, start, IsReading, ReadsPart};
ghost use Rattle.part_events.specs.Words.{IsReadingElement, ReadsElement, ahead, content};
ghost use Rattle.part_events.specs.Words.{section_ahead};
ghost use Rattle.xlsx_error.specs.declared.error.XlsxError.{XlsxError};
ghost use Rattle.xlsx_error.specs.declared.error.XlsxError.TheVariants.{Io};
ghost use Rattle.xlsx_sections.specs.Answers.{prepended};
ghost use Rattle.xlsx_sections.specs.ElementLists.{list_said, end_in_elements};
ghost use Rattle.xlsx_sections.specs.Elements.{ElementReadFails, IsInsideRefused, ReachesEnd};
ghost use Rattle.xlsx_sections.specs.Elements.{named_among};
ghost use Rattle.xlsx_sections.specs.PartSection.{IsStepError, SectionFails};
ghost use Rattle.xlsx_sections.specs.Refusal.{Refusal};

use crate::elements::next_element_in;
use part_events::{Package, XlReader};
use xlsx_error::XlsxError;

/// Reads one element of a list.
pub trait ReadsEach {
    type Item: Drop;

    ghost Kept: { Type 0 };

    ghost said: { Self.Item → Kept };

    ghost meaning: { Self → Tag → List Event → Result Kept Refusal };

    ghost ending: { Tag → List Event → Option (List ℕ) };

    ghost section: { List ℕ };

    ghost Kind: { XlsxError → Type 0 };

    /// The element at whose start the reader stands, which is read to its end.
    fn read<P: Package>(&self, xml: &mut XlReader<P>) -> Result<Self::Item, XlsxError>
        requires element { IsReadingElement xml.old }
        ensures reads { ReadsElement Io result xml.old xml.new }
        ensures said { xml.old.source.is_visible ≡ true → IfOk result (λ item. (tag : Tag) →
            start tag ≡ xml.old.source.current →
            meaning self.now tag (content 0 (ahead xml.old)) ≡ Ok (said item)) }
        ensures err { IfErr result (λ error. (tag : Tag) → start tag ≡ xml.old.source.current →
            ElementReadFails (ending tag) (meaning self.now tag) xml.old xml.new error) }
        ensures kind { IfErr result Kind };

    ghost kinds: { (error : XlsxError) → IsStepError section error → Kind error };
}

/// Appends what the outermost elements of these local names say in a section, whose element is
/// number `base` of the open ones, counted from 1. Reads to the section's end.
///
/// A part that ends between them is `XmlEof(section)`, and an end that breaks the nesting, or a
/// flaw, is `Xml(Break)` with its number in the part, counted from 0.
pub fn keep_elements_in<P: Package, R: ReadsEach>(
    xml: &mut XlReader<P>,
    base: usize,
    names: &[&str],
    section: &'static str,
    by: &R,
    items: &mut Vec<R::Item>,
) -> Result<(), XlsxError>
    requires reading { IsReading xml.old }
    requires within { base ≤ length xml.old.names }
    requires section { section.now ≡ R.section }
    ensures reads { ReadsPart Io result xml.old xml.new }
    ensures depth { OnOk result (suc (length xml.new.names) ≡ base) }
    ensures reaches { xml.old.source.is_visible ≡ true →
        OnOk result (ReachesEnd base xml.old xml.new) }
    ensures kept { let list = list_said (named_among names.now) (R.meaning by.now) (section_ahead
        base xml.old) in
        xml.old.source.is_visible ≡ true → OnOk result
        (prepended (map R.said items.old.items) list ≡ Ok (map R.said items.new.items)) }
    ensures err { let wanted = named_among names.now in
        IfErr result (SectionFails (end_in_elements wanted section.now R.ending)
        (IsInsideRefused (list_said wanted (R.meaning by.now))) base xml.old xml.new) }
    ensures kind { IfErr result R.Kind }
{
    'elements: while let Some(_at) = next_element_in(xml, base, names, section)? {
        items.push(by.read(xml)?)?;
    }
    Ok(())
}

/// Appends what the outermost elements of these local names say in the element at whose start the
/// reader stands, which is read to its end. Is refused as `keep_elements_in`.
pub fn keep_elements<P: Package, R: ReadsEach>(
    xml: &mut XlReader<P>,
    names: &[&str],
    section: &'static str,
    by: &R,
    items: &mut Vec<R::Item>,
) -> Result<(), XlsxError>
    requires element { IsReadingElement xml.old }
    requires section { section.now ≡ R.section }
    ensures reads { ReadsElement Io result xml.old xml.new }
    ensures kept { let list = list_said (named_among names.now) (R.meaning by.now) (content 0 (ahead
        xml.old)) in
        xml.old.source.is_visible ≡ true → OnOk result
        (prepended (map R.said items.old.items) list ≡ Ok (map R.said items.new.items)) }
    ensures err { let wanted = named_among names.now in
        IfErr result (ElementReadFails (end_in_elements wanted section.now R.ending)
        (list_said wanted (R.meaning by.now)) xml.old xml.new) }
    ensures kind { IfErr result R.Kind }
{
    let base = xml.depth();
    keep_elements_in(xml, base, names, section, by, items)
}
