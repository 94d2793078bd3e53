ghost use Rattle.std.proofs.Common.{rules};
ghost use Rattle.std.specs.Prelude.{◌≡◌, ℕ, List, Ok, Some, Option, codes, option_map, unwrap_or};
ghost use Rattle.std.specs.Prelude.{string_bytes, if◌then◌else◌, IfOk, OnOk, IfErr};
ghost use Rattle.std.specs.Option.{option_copied};
ghost use Rattle.std.specs.Str.{bytes_eq};
ghost use Rattle.part_events.specs.Words.{tag_of};
ghost use Rattle.xlsx_error.specs.declared.error.XlsxError.TheVariants.{OutOfMemory};
ghost use Rattle.xlsx_sections.specs.Words.{or_earlier, or_before, ElementFails, placed_at};
ghost use Rattle.xlsx_relationships.specs.KeptRelationships.{relationship_of, related_by_id};
ghost use Rattle.xlsx_relationships.specs.Relationships.{is_office_document, target_of, related_of};
ghost use Rattle.xlsx_relationships.specs.Relationships.{Related};
ghost use Rattle.xlsx_relationships.specs.RelationshipErrors.{IsRelationshipsError};

use attr_text::{RawAttributes, get_attrs};
use part_events::StartTag;
use std::alloc::Global;
use std::collections::BTreeMap;
use std::sync::ArcStr;
use xlsx_error::XlsxError;
use xlsx_sections::{Keeps, Reads, decode_at};

/// What a relationship leads to, and its type, both as written. The text of the target is shared by
/// all that keep it.
#[derive(Debug, Drop)]
pub struct Relationship {
    pub target: ArcStr,
    pub typ: String,
}

fn is_office_document(typ: &str) -> bool
    ensures { result ≡ is_office_document typ.now }
{
    typ.as_bytes().ends_with(b"/relationships/officeDocument")
}

#[tactic(auto, using(crate::proofs::RelationshipErrors::decoding))]
fn office_target(alloc: Global, tag: StartTag<'_>, at: u64) -> Result<Option<String>, XlsxError>
    ensures ok { IfOk result (λ target. (behind : ℕ) →
        target_of (placed_at (tag_of tag.entry) behind) ≡ Ok (option_map string_bytes target)) }
    ensures err { IfErr result (λ error. (behind : ℕ) →
        ElementFails (target_of (placed_at (tag_of tag.entry) behind)) at behind error) }
    ensures kind { IfErr result IsRelationshipsError }
{
    let (typ, target) = get_attrs!(tag, "Type" => typ, "Target" => target)?;
    match (typ, target) {
        (Some(typ), Some(target)) if is_office_document(typ) => {
            Ok(Some(decode_at(alloc, target, at)?))
        }
        _ => Ok(None),
    }
}

/// Reads the targets of relationships to an office document.
#[derive(Drop)]
pub struct OfficeTargets {
    pub alloc: Global,
}

impl Reads for OfficeTargets {
    type Item = String;

    ghost Kept = { List ℕ };

    ghost said = { λ target. string_bytes target };

    ghost meaning = { λ r. target_of };

    ghost section = { codes "Relationships" };

    ghost Kind = { IsRelationshipsError };

    ghost kinds = { Prim.search rules };

    fn read(&self, tag: StartTag<'_>, at: u64) -> Result<Option<String>, XlsxError> {
        office_target(self.alloc, tag, at)
    }
}

/// The value of a lookup, or another text where there is none.
pub fn text_or<'a>(value: Option<&'a str>, other: &'a str) -> &'a str
    ensures { result.now ≡ unwrap_or (option_copied value.entry) other.now }
{
    match value {
        Some(text) => text,
        None => other,
    }
}

#[tactic(auto, using(std::proofs::lemmas::Map::Text::text_keys))]
fn put(
    map: &mut BTreeMap<String, Relationship>,
    id: String,
    relationship: Relationship,
) -> Result<(), XlsxError>
    ensures ok { OnOk result ((q : List ℕ) →
        related_by_id map.new q
        ≡ (if bytes_eq q (string_bytes id) then Some (relationship_of relationship)
        else related_by_id map.old q)) }
    ensures err { IfErr result (λ e. e ≡ OutOfMemory) }
{
    map.insert(id, relationship)?;
    Ok(())
}

/// The relationship that is kept for an Id.
pub fn find_relationship<'m>(
    map: &'m BTreeMap<String, Relationship>,
    id: &str,
) -> Option<&'m Relationship>
    ensures { option_map relationship_of (option_copied result) ≡ related_by_id map.now id.now }
{
    map.get(id)
}

/// Keeps the relationship of a start by its Id, in place of an earlier one. One without Id is
/// passed over.
fn keep_relationship(
    alloc: Global,
    map: &mut BTreeMap<String, Relationship>,
    tag: StartTag<'_>,
) -> Result<(), XlsxError>
    ensures ok { OnOk result ((id : List ℕ) (behind : ℕ) →
        or_earlier (related_by_id map.old id)
        (related_of id (placed_at (tag_of tag.entry) behind))
        ≡ Ok (related_by_id map.new id)) }
    ensures err { IfErr result (λ error. (id : List ℕ) (at behind : ℕ) →
        ElementFails (related_of id (placed_at (tag_of tag.entry) behind)) at behind error) }
    ensures kind { IfErr result IsRelationshipsError }
{
    let (id, typ, target) = get_attrs!(tag, "Id" => id, "Type" => typ, "Target" => target)?;
    let Some(id) = id else {
        return Ok(());
    };
    let relationship = Relationship {
        target: ArcStr::from_str(alloc, text_or(target, ""))?,
        typ: String::from_str(alloc, text_or(typ, ""))?,
    };
    put(map, String::from_str(alloc, id)?, relationship)
}

/// Keeps relationships by their Ids.
#[derive(Drop)]
pub struct KeepsRelated {
    pub alloc: Global,
    pub map: BTreeMap<String, Relationship>,
}

impl Keeps for KeepsRelated {
    ghost Index = { List ℕ };

    ghost Held = { Option Related };

    ghost held = { λ k. related_by_id k.map };

    ghost change = { λ k id. or_before (related_of id) };

    ghost section = { codes "Relationships" };

    ghost Kind = { IsRelationshipsError };

    ghost kinds = { Prim.search rules };

    fn take(&mut self, tag: StartTag<'_>, _at: u64) -> Result<(), XlsxError> {
        keep_relationship(self.alloc, &mut self.map, tag)
    }
}
