ghost use Rattle.std.specs.Prelude.{◌≡◌, ◌<◌, ◌≤◌, List, ◌∷◌, ◌++◌, suc, codes, length, map, true};
ghost use Rattle.std.specs.Prelude.{false, None, Ok, option_map, option_to_list, string_bytes};
ghost use Rattle.std.specs.Prelude.{IfOk, OnOk, IfErr, MatchOption, IsSomeAnd};
ghost use Rattle.std.specs.Arc.{arc_str_bytes};
ghost use Rattle.part_events.specs.Words.{Event, start, tag_of, event_of, event_text, is_unknown};
ghost use Rattle.part_events.specs.Words.{Uses, part_of, event_count, IsReading, ReadsElement};
ghost use Rattle.part_events.specs.Words.{ReadsPart, ahead, content, section_ahead};
ghost use Rattle.part_events.specs.Words.{is_closed_ahead, section_end};
ghost use Rattle.xlsx_error.specs.declared.error.XlsxError.TheVariants.{Io, OutOfMemory};
ghost use Rattle.xlsx_sections.specs.Words.{always, KeepsSection, SectionFails, OptionalPartFails};
ghost use Rattle.xlsx_sections.specs.Words.{closed_section_of, RefusedAt, ReadsToEnd};
ghost use Rattle.xlsx_relationships.specs.Words.{related_by_id};
ghost use Rattle.xlsx_workbook.specs.DefinedNames.{is_defined_name};
ghost use Rattle.xlsx_workbook.specs.KeptContents.{pair_of};
ghost use Rattle.xlsx_workbook.specs.Workbook.{KeepsSheets, AreSheetsRefused, names_of};
ghost use Rattle.xlsx_workbook.specs.Workbook.{TextRefused, KeepsName, is_name_start, IsContents};
ghost use Rattle.xlsx_workbook.specs.Workbook.{AreContentsRefused, KeepsSheetsAt, IsNameRefusedAt};
ghost use Rattle.xlsx_workbook.specs.Workbook.{IsContentsAt, AreContentsRefusedAt};
ghost use Rattle.xlsx_workbook.specs.WorkbookErrors.{IsWorkbookError};

use crate::name_scope::{NameScope, push_scope, scope_of};
use crate::sheet::SheetEntry;
use crate::sheet_element::{keep_epoch, push_sheet};
use part_events::{Package, PartEvent, StartTag, XlReader};
use std::alloc::Global;
use std::collections::BTreeMap;
use std::sync::ArcStr;
use xlsx_error::XlsxError;
use xlsx_relationships::Relationship;
use xlsx_sections::{enter_part, name_by, next_event_in, push_text_at};

/// What was read of a workbook's section.
#[derive(Debug, Drop)]
pub struct WorkbookContents {
    pub entries: Vec<SheetEntry>,
    /// The defined names, with their texts.
    pub names: Vec<(String, String)>,
    /// The scope of each defined name, in the order of the names.
    pub scopes: Vec<NameScope>,
    /// Whether dates count from 1904, where it was said.
    pub epoch: Option<bool>,
}

/// Where the sheets of a workbook are looked for.
#[derive(Clone, Copy)]
pub struct SheetPlaces<'a> {
    pub folder: &'a ArcStr,
    pub relationships: &'a BTreeMap<String, Relationship>,
}

/// Takes a start of the section, which is event number `at` of its part: that of a sheet, or of the
/// workbook's properties.
fn take_start(
    alloc: Global,
    found: &mut WorkbookContents,
    places: SheetPlaces<'_>,
    tag: StartTag<'_>,
    at: u64,
) -> Result<(), XlsxError>
    ensures ok { let folder = arc_str_bytes places.entry.folder.now in
        let related = related_by_id places.entry.relationships.now in
        OnOk result ((others : List Event) →
        KeepsSheets folder related found.old (start (tag_of tag.entry) ∷ others)
        found.new others) }
    ensures names { OnOk result (names_of found.new ≡ names_of found.old) }
    ensures scopes { OnOk result (found.new.scopes ≡ found.old.scopes) }
    ensures err { let folder = arc_str_bytes places.entry.folder.now in
        let related = related_by_id places.entry.relationships.now in
        IfErr result (λ error. (others : List Event) →
        RefusedAt
        (AreSheetsRefused folder related found.old (start (tag_of tag.entry) ∷ others))
        at (length others) error) }
    ensures kind { IfErr result IsWorkbookError }
{
    let name = tag.local_name();
    if name == "sheet" {
        push_sheet(
            alloc,
            &mut found.entries,
            places.folder,
            places.relationships,
            tag,
            at,
        )
    } else if name == "workbookPr" {
        Ok(keep_epoch(&mut found.epoch, tag)?)
    } else {
        Ok(())
    }
}

/// Takes an event of the section, which is number `at` of its part.
fn take_event(
    alloc: Global,
    found: &mut WorkbookContents,
    places: SheetPlaces<'_>,
    event: PartEvent<'_>,
    at: u64,
) -> Result<(), XlsxError>
    ensures ok { let folder = arc_str_bytes places.entry.folder.now in
        let related = related_by_id places.entry.relationships.now in
        OnOk result ((others : List Event) →
        KeepsSheets folder related found.old (event_of event.entry ∷ others) found.new others) }
    ensures names { OnOk result (names_of found.new ≡ names_of found.old) }
    ensures scopes { OnOk result (found.new.scopes ≡ found.old.scopes) }
    ensures err { let folder = arc_str_bytes places.entry.folder.now in
        let related = related_by_id places.entry.relationships.now in
        IfErr result (λ error. (others : List Event) →
        RefusedAt
        (AreSheetsRefused folder related found.old (event_of event.entry ∷ others))
        at (length others) error) }
    ensures kind { IfErr result IsWorkbookError }
{
    match event {
        PartEvent::Start(tag) => take_start(alloc, found, places, tag, at),
        PartEvent::End(_)
        | PartEvent::Text(_)
        | PartEvent::CharData(_)
        | PartEvent::EntityRef(_)
        | PartEvent::Flaw(_)
        | PartEvent::Other => Ok(()),
    }
}

/// Appends the text of an event, number `at` of its part, where it is wanted.
fn push_wanted(
    out: &mut String,
    wanted: bool,
    event: PartEvent<'_>,
    at: u64,
) -> Result<(), XlsxError>
    ensures text { let text = event_text false (event_of event.entry) in
        OnOk result (wanted ≡ true → string_bytes out.new ≡ string_bytes out.old ++ text) }
    ensures known { OnOk result (wanted ≡ true → is_unknown (event_of event.entry) ≡ false) }
    ensures err { IfErr result (TextRefused wanted (event_of event.entry) at) }
    ensures kind { IfErr result IsWorkbookError }
{
    if !wanted {
        return Ok(());
    }
    push_text_at(out, event, at)?;
    Ok(())
}

/// Appends a defined name with its text, where it has a name.
fn push_name(
    names: &mut Vec<(String, String)>,
    name: Option<String>,
    text: String,
) -> Result<(), XlsxError>
    ensures ok { let pair = option_map (λ own. (string_bytes own, string_bytes text)) name in
        OnOk result (map pair_of names.new.items
        ≡ map pair_of names.old.items ++ option_to_list pair) }
    ensures err { IfErr result (λ error. error ≡ OutOfMemory) }
{
    if let Some(name) = name {
        names.push((name, text))?;
    }
    Ok(())
}

/// Reads on to the end of a defined name, at whose start reading stands, in the section whose
/// element is number `base` of the open ones. Takes the starts inside it, and keeps its text where
/// it has a name.
#[tactic(auto, using(crate::proofs::WorkbookErrors::workbook_step))]
fn read_name<P: Package>(
    xml: &mut XlReader<P>,
    found: &mut WorkbookContents,
    places: SheetPlaces<'_>,
    base: usize,
    name: Option<String>,
) -> Result<(), XlsxError>
    requires reading { IsReading xml.old }
    requires within { base < length xml.old.names }
    ensures reads { ReadsElement Io result xml.old xml.new }
    ensures section { OnOk result (KeepsSection base xml.old xml.new) }
    ensures sheets { xml.old.source.is_visible ≡ true →
        OnOk result (KeepsSheetsAt places.entry
        found.old (section_ahead base xml.old) found.new (section_ahead base xml.new)) }
    ensures names { let inside = content 0 (ahead xml.old) in
        xml.old.source.is_visible ≡ true →
        OnOk result (KeepsName (option_map string_bytes name) inside
        (length (section_ahead base xml.old)) (names_of found.old) (names_of found.new)) }
    ensures scopes { OnOk result (found.new.scopes ≡ found.old.scopes) }
    ensures err { let name = option_map string_bytes name in
        let refused = IsNameRefusedAt places.entry found.old name in
        IfErr result (SectionFails (always (codes "workbook")) refused base xml.old xml.new) }
    ensures kind { IfErr result IsWorkbookError }
{
    let alloc = xml.alloc();
    let depth = xml.depth();
    let wanted = name.is_some();
    let mut text = String::new(alloc);
    'events: while let Some(at) = next_event_in(xml, depth, "workbook")? {
        let event = xml.event();
        take_event(alloc, found, places, event, at)?;
        push_wanted(&mut text, wanted, event, at)?;
    }
    push_name(&mut found.names, name, text)?;
    Ok(())
}

/// The start of a defined name that an event is.
fn name_start(event: PartEvent<'_>) -> Option<StartTag<'_>>
    ensures { MatchOption result (is_name_start (event_of event.entry) ≡ false) (λ tag.
        (event_of event.entry ≡ start (tag_of tag)) × (is_defined_name (tag_of tag) ≡ true)) }
{
    match event {
        PartEvent::Start(tag) if tag.local_name() == "definedName" => Some(tag),
        _ => None,
    }
}

/// What a workbook's section holds whose element is number `base` of the open ones, behind whose
/// start reading stands.
#[tactic(auto, using(crate::proofs::WorkbookErrors::workbook_step))]
fn contents_in<P: Package>(
    xml: &mut XlReader<P>,
    places: SheetPlaces<'_>,
    base: usize,
) -> Result<WorkbookContents, XlsxError>
    requires reading { IsReading xml.old }
    requires within { base ≤ length xml.old.names }
    ensures reads { ReadsPart Io result xml.old xml.new }
    ensures closed { xml.old.source.is_visible ≡ true →
        OnOk result (is_closed_ahead base xml.old ≡ true) }
    ensures ends { xml.old.source.is_visible ≡ true →
        OnOk result (xml.new.at ≡ suc (section_end base xml.old)) }
    ensures contents { xml.old.source.is_visible ≡ true →
        IfOk result (IsContentsAt places.entry (section_ahead base xml.old)) }
    ensures err { let refused = AreContentsRefusedAt places.entry in
        IfErr result (SectionFails (always (codes "workbook")) refused base xml.old xml.new) }
    ensures kind { IfErr result IsWorkbookError }
{
    let alloc = xml.alloc();
    let mut found = WorkbookContents {
        entries: Vec::new(alloc),
        names: Vec::new(alloc),
        scopes: Vec::new(alloc),
        epoch: None,
    };
    'events: while let Some(at) = next_event_in(xml, base, "workbook")? {
        let event = xml.event();
        take_event(alloc, &mut found, places, event, at)?;
        if let Some(tag) = name_start(event) {
            let name = name_by(alloc, tag, at)?;
            let (is_named, scope) = (name.is_some(), scope_of(tag));
            read_name(xml, &mut found, places, base, name)?;
            push_scope(&mut found.scopes, is_named, scope)?;
        }
    }
    Ok(found)
}

/// What the workbook's part at this path holds. A part that is absent holds nothing.
///
/// Fails with `RelationshipNotFound` where a sheet is in no relationship, and with `Unrecognized`
/// where the state or the type of a sheet is none. A part that has no section `workbook`, or ends
/// in it, is `XmlEof("workbook")`. A reference without a character in a name, or in the text of a
/// defined name, is `Xml(Entity)` with the number of its event, counted from 0.
#[tactic(auto, using(crate::proofs::WorkbookErrors::workbook_step))]
pub fn read_contents<P: Package>(
    xml: &mut XlReader<P>,
    part: &str,
    places: SheetPlaces<'_>,
) -> Result<Option<WorkbookContents>, XlsxError>
    ensures uses { Uses (event_count xml.old.source.parts part.now) Io result
        xml.old.source xml.new.source }
    ensures to_end { ReadsToEnd (codes "workbook") part.now result xml.old.source xml.new.source }
    ensures contents { let old = xml.old.source in
        let folder = arc_str_bytes places.entry.folder.now in
        let related = related_by_id places.entry.relationships.now in
        let inside = closed_section_of (codes "workbook") part.now old.parts in
        old.is_visible ≡ true → IfOk result (λ found. MatchOption found
        (part_of old.parts part.now ≡ None)
        (λ contents. IsSomeAnd inside (λ inside. IsContents folder related inside contents))) }
    ensures err { let folder = arc_str_bytes places.entry.folder.now in
        let related = related_by_id places.entry.relationships.now in
        let name = codes "workbook" in
        let refused = AreContentsRefused folder related in
        IfErr result (OptionalPartFails name (always name) refused part.now
        xml.old.source xml.new.source) }
    ensures kind { IfErr result IsWorkbookError }
{
    if !enter_part(xml, part, "workbook")? {
        return Ok(None);
    }
    let base = xml.depth();
    Ok(Some(contents_in(xml, places, base)?))
}
