ghost use Rattle.std.specs.Prelude.{◌≡◌, ℕ, List, Bool, map, Option, Result, Ok, Err, option_map};
ghost use Rattle.std.specs.Prelude.{string_bytes, IfOk, OnOk, IfErr, MatchResult};
ghost use Rattle.std.specs.Arc.{arc_str_bytes};
ghost use Rattle.std.specs.Option.{option_copied};
ghost use Rattle.part_events.specs.Words.{tag_of};
ghost use Rattle.xlsx_sections.specs.Words.{and_others, prepended, or_earlier, or_later, Refusal};
ghost use Rattle.xlsx_sections.specs.Words.{plain, ElementFails, lookup_fault, placed_at};
ghost use Rattle.xlsx_relationships.specs.Words.{relationship_of, related_by_id};
ghost use Rattle.xlsx_workbook.specs.KeptContents.{sheet_of_entry};
ghost use Rattle.xlsx_workbook.specs.Sheets.{PlacedSheet, state_named, type_named, sheet_of};
ghost use Rattle.xlsx_workbook.specs.Sheets.{related_sheet, is_true_text, epoch_of};
ghost use Rattle.xlsx_workbook.specs.WorkbookErrors.{IsWorkbookError};

use crate::paths::PartPath;
use crate::sheet::{Sheet, SheetEntry, SheetType, SheetVisible};
use attr_text::{AttrFault, RawAttributes, get_attrs};
use part_events::StartTag;
use std::alloc::Global;
use std::collections::BTreeMap;
use std::sync::ArcStr;
use xlsx_error::XlsxError;
use xlsx_relationships::{Relationship, find_relationship, last_piece, text_or};
use xlsx_sections::decode_at;

fn state_named(text: &str) -> Option<SheetVisible>
    ensures { result ≡ state_named text.now }
{
    match text {
        "visible" => Some(SheetVisible::Visible),
        "hidden" => Some(SheetVisible::Hidden),
        "veryHidden" => Some(SheetVisible::VeryHidden),
        _ => None,
    }
}

fn type_named(text: &str) -> Option<SheetType>
    ensures { result ≡ type_named text.now }
{
    match text {
        "worksheet" => Some(SheetType::WorkSheet),
        "chartsheet" => Some(SheetType::ChartSheet),
        "dialogsheet" => Some(SheetType::DialogSheet),
        _ => None,
    }
}

fn related_sheet(
    alloc: Global,
    folder: &ArcStr,
    name: String,
    visible: SheetVisible,
    relationship: Option<&Relationship>,
) -> Result<SheetEntry, XlsxError>
    ensures ok { let related = option_map relationship_of (option_copied relationship.entry) in
        let folder = arc_str_bytes folder.now in
        IfOk result (λ entry. related_sheet folder (string_bytes name) visible related
        ≡ Ok (sheet_of_entry entry)) }
    ensures err { let related = option_map relationship_of (option_copied relationship.entry) in
        let folder = arc_str_bytes folder.now in
        IfErr result (λ error. (at behind : ℕ) →
        ElementFails (related_sheet folder (string_bytes name) visible related)
        at behind error) }
    ensures kind { IfErr result IsWorkbookError }
{
    let Some(relationship) = relationship else {
        return Err(XlsxError::RelationshipNotFound);
    };
    let path = PartPath::new(folder, &relationship.target)?;
    match type_named(last_piece(relationship.typ.as_str())) {
        Some(typ) => Ok(SheetEntry {
            sheet: Sheet { name, typ, visible },
            path,
        }),
        None => Err(XlsxError::Unrecognized {
            typ: "sheet:type",
            val: path.joined(alloc)?,
        }),
    }
}

/// The sheet of a start, which is event number `at` of its part, in the folder of its workbook and
/// by the workbook's relationships.
#[tactic(auto, using(crate::proofs::WorkbookErrors::decoding))]
pub fn sheet_of(
    alloc: Global,
    folder: &ArcStr,
    relationships: &BTreeMap<String, Relationship>,
    tag: StartTag<'_>,
    at: u64,
) -> Result<SheetEntry, XlsxError>
    ensures ok { let folder = arc_str_bytes folder.now in
        let related = related_by_id relationships.now in
        IfOk result (λ entry. (behind : ℕ) →
        sheet_of folder related (placed_at (tag_of tag.entry) behind)
        ≡ Ok (sheet_of_entry entry)) }
    ensures err { let folder = arc_str_bytes folder.now in
        let related = related_by_id relationships.now in
        IfErr result (λ error. (behind : ℕ) →
        ElementFails (sheet_of folder related (placed_at (tag_of tag.entry) behind))
        at behind error) }
    ensures kind { IfErr result IsWorkbookError }
{
    let (name, state) = get_attrs!(tag, "name" => name, "state" => state)?;
    let id = tag.raw_attr_local("id")?;
    let name = decode_at(alloc, text_or(name, ""), at)?;
    let state = text_or(state, "visible");
    let Some(visible) = state_named(state) else {
        return Err(XlsxError::Unrecognized {
            typ: "sheet:state",
            val: String::from_str(alloc, state)?,
        });
    };
    let related = find_relationship(relationships, text_or(id, ""));
    related_sheet(alloc, folder, name, visible, related)
}

fn is_true_text(text: &str) -> bool
    ensures { result ≡ is_true_text text.now }
{
    text == "1" || text == "true"
}

/// Whether a start says that dates count from 1904.
pub fn epoch_of(tag: StartTag<'_>) -> Result<Option<bool>, AttrFault>
    ensures { MatchResult result
        (λ epoch. (behind : ℕ) → epoch_of (placed_at (tag_of tag.entry) behind) ≡ Ok epoch)
        (λ fault. (behind : ℕ) →
        epoch_of (placed_at (tag_of tag.entry) behind) ≡ Err (plain (lookup_fault fault))) }
{
    match tag.raw_attr("date1904")? {
        Some(text) => Ok(Some(is_true_text(text))),
        None => Ok(None),
    }
}

/// Appends the sheet of a start.
pub fn push_sheet(
    alloc: Global,
    sheets: &mut Vec<SheetEntry>,
    folder: &ArcStr,
    relationships: &BTreeMap<String, Relationship>,
    tag: StartTag<'_>,
    at: u64,
) -> Result<(), XlsxError>
    ensures ok { let folder = arc_str_bytes folder.now in
        let related = related_by_id relationships.now in
        let first = map sheet_of_entry sheets.old.items in
        let last = map sheet_of_entry sheets.new.items in
        OnOk result ((behind : ℕ) (others : Result (List PlacedSheet) Refusal) →
        prepended last others
        ≡ prepended first (and_others
        (sheet_of folder related (placed_at (tag_of tag.entry) behind)) others)) }
    ensures err { let folder = arc_str_bytes folder.now in
        let related = related_by_id relationships.now in
        IfErr result (λ error. (behind : ℕ) →
        ElementFails (sheet_of folder related (placed_at (tag_of tag.entry) behind))
        at behind error) }
    ensures kind { IfErr result IsWorkbookError }
{
    let entry = sheet_of(alloc, folder, relationships, tag, at)?;
    sheets.push(entry)?;
    Ok(())
}

/// Keeps what a start says of the dates, in place of what an earlier one said.
pub fn keep_epoch(kept: &mut Option<bool>, tag: StartTag<'_>) -> Result<(), AttrFault>
    ensures ok { OnOk result ((behind : ℕ) (others : Result (Option Bool) Refusal) →
        or_earlier kept.new others
        ≡ or_earlier kept.old
        (or_later (epoch_of (placed_at (tag_of tag.entry) behind)) others)) }
    ensures err { IfErr result (λ fault. (behind : ℕ) →
        epoch_of (placed_at (tag_of tag.entry) behind) ≡ Err (plain (lookup_fault fault))) }
{
    match epoch_of(tag)? {
        Some(epoch) => *kept = Some(epoch),
        None => {}
    }
    Ok(())
}
