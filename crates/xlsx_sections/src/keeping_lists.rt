ghost use Rattle.std.specs.Prelude.{◌≡◌, ◌≤◌, ℕ, List, ⊤, length, map, suc, true, Ok, Result};
ghost use Rattle.std.specs.Prelude.{Option, IfOk, OnOk, IfErr, option_map};
ghost use Rattle.part_events.specs.Words.{tag_of, IsReading, ReadsPart, PlacedTag, is_named};
ghost use Rattle.part_events.specs.Words.{section_ahead};
ghost use Rattle.xlsx_error.specs.declared.error.XlsxError.{XlsxError};
ghost use Rattle.xlsx_error.specs.declared.error.XlsxError.TheVariants.{Io};
ghost use Rattle.xlsx_sections.specs.Elements.{IsInsideRefused, ReachesEnd};
ghost use Rattle.xlsx_sections.specs.Keeping.{some_in, last_in, put_behind, or_before};
ghost use Rattle.xlsx_sections.specs.PartSection.{always, IsStepError, SectionFails};
ghost use Rattle.xlsx_sections.specs.Refusal.{Refusal, ElementFails, placed_at};

use crate::keeping::{Keeps, keep_starts};
use part_events::{Package, StartTag, XlReader};
use xlsx_error::XlsxError;

/// Reads what a start gives, if anything.
pub trait Reads {
    type Item: Drop;

    ghost Kept: { Type 0 };

    ghost said: { Self.Item → Kept };

    ghost meaning: { Self → PlacedTag → Result (Option Kept) Refusal };

    ghost section: { List ℕ };

    ghost Kind: { XlsxError → Type 0 };

    /// What a start gives, which is event number `at` of its part.
    fn read(&self, tag: StartTag<'_>, at: u64) -> Result<Option<Self::Item>, XlsxError>
        ensures ok { IfOk result (λ own. (behind : ℕ) →
            meaning self.now (placed_at (tag_of tag.entry) behind) ≡ Ok (option_map said own)) }
        ensures err { IfErr result (λ error. (behind : ℕ) → ElementFails
            (meaning self.now (placed_at (tag_of tag.entry) behind)) at behind error) }
        ensures kind { IfErr result Kind };

    ghost kinds: { (error : XlsxError) → IsStepError section error → Kind error };
}

/// Keeps all that is read.
#[derive(Drop)]
struct All<R: Reads> {
    by: R,
    items: Vec<R::Item>,
}

impl<R: Reads> Keeps for All<R> {
    ghost Index = { ⊤ };

    ghost Held = { List R.Kept };

    ghost held = { λ k i. map R.said k.items.items };

    ghost change = { λ k i. put_behind (R.meaning k.by) };

    ghost section = { R.section };

    ghost Kind = { R.Kind };

    ghost kinds = { R.kinds };

    fn take(&mut self, tag: StartTag<'_>, at: u64) -> Result<(), XlsxError> {
        if let Some(item) = self.by.read(tag, at)? {
            self.items.push(item)?;
        }
        Ok(())
    }
}

/// What the starts of these local names give in a section, whose element is number `base` of the
/// open ones, in order. Reads to the section's end, and is refused as `keep_starts`.
pub fn keep_all<P: Package, R: Reads + Drop>(
    xml: &mut XlReader<P>,
    base: usize,
    names: &[&str],
    section: &'static str,
    by: R,
) -> Result<Vec<R::Item>, XlsxError>
    requires reading { IsReading xml.old }
    requires within { base ≤ length xml.old.names }
    requires section { section.now ≡ R.section }
    ensures reads { ReadsPart Io result xml.old xml.new }
    ensures depth { OnOk result (suc (length xml.new.names) ≡ base) }
    ensures reaches { xml.old.source.is_visible ≡ true →
        OnOk result (ReachesEnd base xml.old xml.new) }
    ensures kept { let wanted = is_named (map (λ name. name.now) names.now) in
        xml.old.source.is_visible ≡ true → IfOk result (λ items.
        some_in wanted (R.meaning by) (section_ahead base xml.old) ≡ Ok (map R.said items.items)) }
    ensures err { let meaning = some_in (is_named (map (λ name. name.now) names.now)) (R.meaning by)
        in
        IfErr result (SectionFails (always section.now) (IsInsideRefused meaning) base xml.old
        xml.new) }
    ensures kind { IfErr result R.Kind }
{
    let alloc = xml.alloc();
    let items = Vec::new(alloc);
    let mut keeper = All { by, items };
    keep_starts(xml, base, names, section, &mut keeper)?;
    Ok(keeper.items)
}

/// Keeps the last that is read.
#[derive(Drop)]
struct Last<R: Reads> {
    by: R,
    item: Option<R::Item>,
}

impl<R: Reads> Keeps for Last<R> {
    ghost Index = { ⊤ };

    ghost Held = { Option R.Kept };

    ghost held = { λ k i. option_map R.said k.item };

    ghost change = { λ k i. or_before (R.meaning k.by) };

    ghost section = { R.section };

    ghost Kind = { R.Kind };

    ghost kinds = { R.kinds };

    fn take(&mut self, tag: StartTag<'_>, at: u64) -> Result<(), XlsxError> {
        if let Some(item) = self.by.read(tag, at)? {
            self.item = Some(item);
        }
        Ok(())
    }
}

/// What the last of the starts of these local names gives that gives something, in a section whose
/// element is number `base` of the open ones. Reads to the section's end, and is refused as
/// `keep_starts`.
pub fn keep_last<P: Package, R: Reads + Drop>(
    xml: &mut XlReader<P>,
    base: usize,
    names: &[&str],
    section: &'static str,
    by: R,
) -> Result<Option<R::Item>, XlsxError>
    requires reading { IsReading xml.old }
    requires within { base ≤ length xml.old.names }
    requires section { section.now ≡ R.section }
    ensures reads { ReadsPart Io result xml.old xml.new }
    ensures depth { OnOk result (suc (length xml.new.names) ≡ base) }
    ensures reaches { xml.old.source.is_visible ≡ true →
        OnOk result (ReachesEnd base xml.old xml.new) }
    ensures kept { let wanted = is_named (map (λ name. name.now) names.now) in
        xml.old.source.is_visible ≡ true → IfOk result (λ item.
        last_in wanted (R.meaning by) (section_ahead base xml.old) ≡ Ok (option_map R.said item)) }
    ensures err { let meaning = last_in (is_named (map (λ name. name.now) names.now)) (R.meaning by)
        in
        IfErr result (SectionFails (always section.now) (IsInsideRefused meaning) base xml.old
        xml.new) }
    ensures kind { IfErr result R.Kind }
{
    let mut keeper = Last { by, item: None };
    keep_starts(xml, base, names, section, &mut keeper)?;
    Ok(keeper.item)
}
