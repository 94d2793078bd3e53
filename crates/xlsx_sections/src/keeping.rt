ghost use Rattle.std.specs.Prelude.{◌≡◌, ◌≤◌, ℕ, List, length, map, suc, true, Ok, Result, OnOk};
ghost use Rattle.std.specs.Prelude.{IfErr};
ghost use Rattle.part_events.specs.Words.{tag_of, IsReading, ReadsPart, IsReadingElement};
ghost use Rattle.part_events.specs.Words.{ReadsElement, ahead, PlacedTag, is_named, content};
ghost use Rattle.part_events.specs.Words.{section_ahead};
ghost use Rattle.xlsx_error.specs.declared.error.XlsxError.{XlsxError};
ghost use Rattle.xlsx_error.specs.declared.error.XlsxError.TheVariants.{Io};
ghost use Rattle.xlsx_sections.specs.Elements.{IsInsideRefused, ReachesEnd, ElementReadFails};
ghost use Rattle.xlsx_sections.specs.Keeping.{changed_in};
ghost use Rattle.xlsx_sections.specs.PartSection.{always, IsStepError, SectionFails};
ghost use Rattle.xlsx_sections.specs.Refusal.{Refusal, ElementFails, placed_at};

use crate::section::{next_start_among, start_tag};
use part_events::{Package, StartTag, XlReader};
use xlsx_error::XlsxError;

/// Keeps what the starts of a section give.
///
/// What is held is seen by an index, as a map by its keys; where it is one value, the index is `⊤`.
pub trait Keeps {
    ghost Index: { Type 0 };

    ghost Held: { Type 0 };

    ghost held: { Self → Index → Held };

    ghost change: { Self → Index → PlacedTag → Held → Result Held Refusal };

    ghost section: { List ℕ };

    ghost Kind: { XlsxError → Type 0 };

    /// Keeps what a start gives, which is event number `at` of its part.
    fn take(&mut self, tag: StartTag<'_>, at: u64) -> Result<(), XlsxError>
        ensures same { change self.new ≡ change self.old }
        ensures ok { OnOk result ((i : Index) (behind : ℕ) →
            change self.old i (placed_at (tag_of tag.entry) behind) (held self.old i)
            ≡ Ok (held self.new i)) }
        ensures err { IfErr result (λ error. (i : Index) (behind : ℕ) → ElementFails
            (change self.old i (placed_at (tag_of tag.entry) behind) (held self.old i))
            at behind error) }
        ensures kind { IfErr result Kind };

    ghost kinds: { (error : XlsxError) → IsStepError section error → Kind error };
}

/// Keeps what the starts of these local names give in a section, whose element is number `base` of
/// the open ones, counted from 1. Reads to the section's end.
///
/// A part that ends in the section is `XmlEof(section)`, and an end that breaks the nesting, or a
/// flaw, is `Xml(Break)` with its number in the part, counted from 0.
pub fn keep_starts<P: Package, K: Keeps>(
    xml: &mut XlReader<P>,
    base: usize,
    names: &[&str],
    section: &'static str,
    keeper: &mut K,
) -> Result<(), XlsxError>
    requires reading { IsReading xml.old }
    requires within { base ≤ length xml.old.names }
    requires section { section.now ≡ K.section }
    ensures reads { ReadsPart Io result xml.old xml.new }
    ensures depth { OnOk result (suc (length xml.new.names) ≡ base) }
    ensures reaches { xml.old.source.is_visible ≡ true →
        OnOk result (ReachesEnd base xml.old xml.new) }
    ensures kept { let wanted = is_named (map (λ name. name.now) names.now) in
        xml.old.source.is_visible ≡ true → OnOk result ((i : K.Index) →
        changed_in wanted (K.change keeper.old i) (K.held keeper.old i) (section_ahead base xml.old)
        ≡ Ok (K.held keeper.new i)) }
    ensures err { let wanted = is_named (map (λ name. name.now) names.now) in
        let meaning = λ (i : K.Index). changed_in wanted (K.change keeper.old i)
        (K.held keeper.old i) in
        IfErr result (λ error. (i : K.Index) → SectionFails (always section.now)
        (IsInsideRefused (meaning i)) base xml.old xml.new error) }
    ensures kind { IfErr result K.Kind }
{
    'starts: while let Some(at) = next_start_among(xml, base, names, section)? {
        keeper.take(start_tag(xml), at)?;
    }
    Ok(())
}

/// Keeps what the starts of these local names give in the element at whose start the reader
/// stands. Reads to the element's end, and is refused as `keep_starts`.
pub fn keep_in_element<P: Package, K: Keeps>(
    xml: &mut XlReader<P>,
    names: &[&str],
    section: &'static str,
    keeper: &mut K,
) -> Result<(), XlsxError>
    requires element { IsReadingElement xml.old }
    requires section { section.now ≡ K.section }
    ensures reads { ReadsElement Io result xml.old xml.new }
    ensures kept { let wanted = is_named (map (λ name. name.now) names.now) in
        xml.old.source.is_visible ≡ true → OnOk result ((i : K.Index) →
        changed_in wanted (K.change keeper.old i) (K.held keeper.old i) (content 0 (ahead xml.old))
        ≡ Ok (K.held keeper.new i)) }
    ensures err { let wanted = is_named (map (λ name. name.now) names.now) in
        let meaning = λ (i : K.Index). changed_in wanted (K.change keeper.old i)
        (K.held keeper.old i) in
        IfErr result (λ error. (i : K.Index) →
        ElementReadFails (always section.now) (meaning i) xml.old xml.new error) }
    ensures kind { IfErr result K.Kind }
{
    let base = xml.depth();
    keep_starts(xml, base, names, section, keeper)
}
