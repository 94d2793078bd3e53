ghost use Rattle.std.specs.Prelude.{◌≡◌, ◌||◌, ◌≤◌, ◌<◌, ◌-◌, ℕ, suc, List, [], ◌∷◌, length, map};
ghost use Rattle.std.specs.Prelude.{true, false, Ok, Result, codes, IfOk, OnOk, IfErr};
ghost use Rattle.part_events.specs.Words.{Event, start, end, tag_of, event_of, IsReading};
ghost use Rattle.part_events.specs.Words.{ReadsPart, section_ahead};
ghost use Rattle.cell_data.specs.Words.{CellValue, value_of_data};
ghost use Rattle.xlsx_error.specs.declared.error.XlsxError.TheVariants.{Io};
ghost use Rattle.xlsx_sections.specs.Words.{prepended, and_others_if, IsInsideRefused, ReachesEnd};
ghost use Rattle.xlsx_sections.specs.Words.{always, SectionFails, Refusal, ElementFails};
ghost use Rattle.xlsx_pivot_cache.specs.CacheErrors.{IsItemError, IsFieldsError};
ghost use Rattle.xlsx_pivot_cache.specs.CacheFields.{item_said, is_shared, is_group, items_in};
ghost use Rattle.xlsx_pivot_cache.specs.CacheFields.{groups_items};
ghost use Rattle.xlsx_pivot_cache.specs.FieldEvents.{items_from_place, LiesWithin, depth_before};
ghost use Rattle.xlsx_pivot_cache.specs.FieldEvents.{IsOpened};
ghost use Rattle.xlsx_pivot_cache.specs.declared.contents.ItemsPlace.TheVariants.{Before};

use crate::item::{item_kind, item_of};
use cell_data::Data;
use part_events::{Package, PartEvent, StartTag, XlReader};
use std::alloc::Global;
use xlsx_error::XlsxError;
use xlsx_sections::next_event_in;

/// Where reading stands in a field.
#[derive(Clone, Copy, Debug)]
pub enum ItemsPlace {
    /// Before its first `sharedItems`.
    Before,
    /// In it: the element is number this of the open ones, counted from 1.
    Within(usize),
    Behind,
}

/// What was read of a field.
#[derive(Debug, Drop)]
pub struct FieldContents {
    /// The items of the first `sharedItems`, in order.
    pub items: Vec<Data>,
    /// Whether there was a `groupItems`.
    pub groups: bool,
    place: ItemsPlace,
}

/// Appends the item of a start, if the element is one.
fn push_item(alloc: Global, items: &mut Vec<Data>, tag: StartTag<'_>) -> Result<(), XlsxError>
    ensures ok { OnOk result ((others : Result (List CellValue) Refusal) →
        prepended (map value_of_data items.new.items) others
        ≡ prepended (map value_of_data items.old.items)
        (and_others_if (item_said (tag_of tag.entry)) others)) }
    ensures err { IfErr result (λ error. (at behind : ℕ) →
        ElementFails (item_said (tag_of tag.entry)) at behind error) }
    ensures kind { IfErr result IsItemError }
{
    if let Some(kind) = item_kind(tag) {
        items.push(item_of(alloc, kind, tag)?)?;
    }
    Ok(())
}

fn is_shared(tag: StartTag<'_>) -> bool
    ensures { result ≡ is_shared (tag_of tag.entry) }
{
    tag.local_name() == "sharedItems"
}

fn is_group(tag: StartTag<'_>) -> bool
    ensures { result ≡ is_group (tag_of tag.entry) }
{
    tag.local_name() == "groupItems"
}

impl ItemsPlace {
    /// The place behind an end, where so many elements are open.
    fn behind_end(self, depth: usize) -> ItemsPlace
        requires { LiesWithin self (suc depth) }
        ensures within { LiesWithin result depth }
        ensures items { (name : List ℕ) (events : List Event) → items_from_place result depth events
            ≡ items_from_place self (suc depth) (end name ∷ events) }
    {
        match self {
            ItemsPlace::Within(base) if depth < base => ItemsPlace::Behind,
            place => place,
        }
    }
}

impl FieldContents {
    /// Nothing was read of a field.
    fn new(alloc: Global) -> FieldContents
        ensures items { result.items.items ≡ [] }
        ensures groups { result.groups ≡ false }
        ensures place { result.place ≡ Before }
    {
        FieldContents {
            items: Vec::new(alloc),
            groups: false,
            place: ItemsPlace::Before,
        }
    }

    /// Takes a start for its item, behind which so many elements are open.
    fn take_start(
        &mut self,
        alloc: Global,
        tag: StartTag<'_>,
        depth: usize,
    ) -> Result<(), XlsxError>
        requires opened { 0 < depth }
        requires within { LiesWithin self.old.place (depth - 1) }
        ensures within { OnOk result (LiesWithin self.new.place depth) }
        ensures items { OnOk result ((events : List Event) →
            prepended (map value_of_data self.new.items.items)
            (items_from_place self.new.place depth events)
            ≡ prepended (map value_of_data self.old.items.items)
            (items_from_place self.old.place (depth - 1) (start (tag_of tag.entry) ∷ events))) }
        ensures groups { self.new.groups ≡ self.old.groups }
        ensures err { IfErr result (λ error. (at behind : ℕ) (events : List Event) →
            ElementFails
            (items_from_place self.old.place (depth - 1) (start (tag_of tag.entry) ∷ events))
            at behind error) }
        ensures kind { IfErr result IsItemError }
    {
        match self.place {
            ItemsPlace::Before if is_shared(tag) => {
                self.place = ItemsPlace::Within(depth);
                Ok(())
            }
            ItemsPlace::Within(base) if depth - base == 1 => push_item(alloc, &mut self.items, tag),
            _ => Ok(()),
        }
    }

    /// Takes an event of the field, behind which so many elements are open.
    fn take_event(
        &mut self,
        alloc: Global,
        event: PartEvent<'_>,
        depth: usize,
    ) -> Result<(), XlsxError>
        requires opened { IsOpened (event_of event) depth }
        requires within { LiesWithin self.old.place (depth_before (event_of event) depth) }
        ensures within { OnOk result (LiesWithin self.new.place depth) }
        ensures items { let event = event_of event.entry in
            OnOk result ((events : List Event) →
            prepended (map value_of_data self.new.items.items)
            (items_from_place self.new.place depth events)
            ≡ prepended (map value_of_data self.old.items.items)
            (items_from_place self.old.place (depth_before event depth) (event ∷ events))) }
        ensures groups { let event = event_of event.entry in
            OnOk result ((events : List Event) → (self.new.groups || groups_items events)
            ≡ (self.old.groups || groups_items (event ∷ events))) }
        ensures err { let event = event_of event.entry in
            IfErr result (λ error. (at behind : ℕ) (events : List Event) → ElementFails
            (items_from_place self.old.place (depth_before event depth) (event ∷ events))
            at behind error) }
        ensures kind { IfErr result IsItemError }
    {
        match event {
            PartEvent::Start(tag) => {
                self.groups = self.groups || is_group(tag);
                self.take_start(alloc, tag, depth)
            }
            PartEvent::End(_) => {
                self.place = self.place.behind_end(depth);
                Ok(())
            }
            PartEvent::Text(_)
            | PartEvent::CharData(_)
            | PartEvent::EntityRef(_)
            | PartEvent::Flaw(_)
            | PartEvent::Other => Ok(()),
        }
    }
}

/// What is in a field, whose element is number `base` of the open ones, counted from 1, behind
/// whose start reading stands.
#[tactic(auto, using(crate::proofs::CacheErrors::contents_errors))]
pub(crate) fn contents_in<P: Package>(
    xml: &mut XlReader<P>,
    base: usize,
) -> Result<FieldContents, XlsxError>
    requires reading { IsReading xml.old }
    requires within { base ≤ length xml.old.names }
    ensures reads { ReadsPart Io result xml.old xml.new }
    ensures depth { OnOk result (suc (length xml.new.names) ≡ base) }
    ensures reaches { xml.old.source.is_visible ≡ true →
        OnOk result (ReachesEnd base xml.old xml.new) }
    ensures items { xml.old.source.is_visible ≡ true → IfOk result (λ contents.
        items_in (section_ahead base xml.old) ≡ Ok (map value_of_data contents.items.items)) }
    ensures groups { xml.old.source.is_visible ≡ true →
        IfOk result (λ contents. groups_items (section_ahead base xml.old) ≡ contents.groups) }
    ensures err { IfErr result
        (SectionFails (always (codes "cacheField")) (IsInsideRefused items_in) base
        xml.old xml.new) }
    ensures kind { IfErr result IsFieldsError }
{
    let alloc = xml.alloc();
    let mut contents = FieldContents::new(alloc);
    'events: while let Some(_at) = next_event_in(xml, base, "cacheField")? {
        contents.take_event(alloc, xml.event(), xml.depth())?;
    }
    Ok(contents)
}
