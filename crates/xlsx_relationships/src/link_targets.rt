ghost use Rattle.std.proofs.Common.{rules};
ghost use Rattle.std.specs.Prelude.{◌≡◌, ℕ, List, Ok, Some, codes, true, if◌then◌else◌, option_map};
ghost use Rattle.std.specs.Prelude.{string_bytes, Option, IfOk, OnOk, IfErr, IsSomeAnd};
ghost use Rattle.std.specs.Str.{bytes_eq};
ghost use Rattle.part_events.specs.Words.{tag_of, Uses, event_count};
ghost use Rattle.xlsx_error.specs.declared.error.XlsxError.TheVariants.{OutOfMemory, Io};
ghost use Rattle.xlsx_sections.specs.Words.{FailsBy, ElementFails, IsDecodeError, placed_at};
ghost use Rattle.xlsx_sections.specs.Words.{ReadsToEnd};
ghost use Rattle.xlsx_relationships.specs.LinkTargets.{link_text, is_hyperlink_type};
ghost use Rattle.xlsx_relationships.specs.LinkTargets.{link_target_of, put_later, link_targets};
ghost use Rattle.xlsx_relationships.specs.LinkTargets.{LinkTargetsCause, target_held, HoldsTargets};
ghost use Rattle.xlsx_relationships.specs.LinkTargets.{link_target_said};
ghost use Rattle.xlsx_relationships.specs.Paths.{relationships_beside};
ghost use Rattle.xlsx_relationships.specs.RelationshipErrors.{IsRelatedError};

use crate::paths::relationships_beside;
use crate::relationships::text_or;
use attr_text::{RawAttributes, get_attrs, unescaped};
use part_events::{Package, StartTag, XlReader};
use std::alloc::Global;
use std::collections::BTreeMap;
use xlsx_error::XlsxError;
use xlsx_sections::{Keeps, decode_at, enter_part, keep_starts};

/// A text of a hyperlink, decoded, and then with each `_xHHHH_` replaced by its character. Its
/// start is event number `at` of its part, counted from 0. A reference without a character is
/// `Xml(Entity)` with that number.
pub fn link_text(alloc: Global, text: &str, at: u64) -> Result<String, XlsxError>
    ensures ok { IfOk result (λ out. (behind : ℕ) →
        link_text behind text.now ≡ Ok (string_bytes out)) }
    ensures err { IfErr result (λ error. (behind : ℕ) →
        ElementFails (link_text behind text.now) at behind error) }
    ensures kind { IfErr result IsDecodeError }
{
    let decoded = decode_at(alloc, text, at)?;
    Ok(unescaped(alloc, decoded)?)
}

fn is_hyperlink_type(typ: &str) -> bool
    ensures { result ≡ is_hyperlink_type typ.now }
{
    typ.as_bytes().ends_with(b"/relationships/hyperlink")
}

/// The Id and the target of a relationship of hyperlinks, where it has an Id that isn't empty.
#[tactic(auto, using(crate::proofs::RelationshipErrors::related_decoding))]
fn link_target_of(
    alloc: Global,
    tag: StartTag<'_>,
    at: u64,
) -> Result<Option<(String, String)>, XlsxError>
    ensures ok { IfOk result (λ found. (behind : ℕ) →
        link_target_of (placed_at (tag_of tag.entry) behind)
        ≡ Ok (option_map link_target_said found)) }
    ensures err { IfErr result (λ error. (behind : ℕ) →
        ElementFails (link_target_of (placed_at (tag_of tag.entry) behind)) at behind error) }
    ensures kind { IfErr result IsRelatedError }
{
    let (id, typ, target) = get_attrs!(tag, "Id" => id, "Type" => typ, "Target" => target)?;
    match (id, typ) {
        (Some(id), Some(typ)) if is_hyperlink_type(typ) && !id.is_empty() => {
            let target = link_text(alloc, text_or(target, ""), at)?;
            Ok(Some((String::from_str(alloc, id)?, target)))
        }
        _ => Ok(None),
    }
}

#[tactic(auto, using(std::proofs::lemmas::Map::Text::text_keys))]
fn put_target(
    targets: &mut BTreeMap<String, String>,
    id: String,
    target: String,
) -> Result<(), XlsxError>
    ensures ok { OnOk result ((own : List ℕ) → target_held targets.new own
        ≡ (if bytes_eq own (string_bytes id) then Some (string_bytes target)
        else target_held targets.old own)) }
    ensures err { IfErr result (λ error. error ≡ OutOfMemory) }
{
    targets.insert(id, target)?;
    Ok(())
}

/// Keeps the target of a start by its Id, in place of an earlier one.
fn keep_link_target(
    alloc: Global,
    targets: &mut BTreeMap<String, String>,
    tag: StartTag<'_>,
    at: u64,
) -> Result<(), XlsxError>
    ensures ok { OnOk result ((id : List ℕ) (behind : ℕ) →
        put_later id (placed_at (tag_of tag.entry) behind) (target_held targets.old id)
        ≡ Ok (target_held targets.new id)) }
    ensures err { IfErr result (λ error. (behind : ℕ) →
        ElementFails (link_target_of (placed_at (tag_of tag.entry) behind)) at behind error) }
    ensures kind { IfErr result IsRelatedError }
{
    match link_target_of(alloc, tag, at)? {
        Some((id, target)) => put_target(targets, id, target),
        None => Ok(()),
    }
}

/// Keeps the targets of hyperlinks by their Ids.
#[derive(Drop)]
struct KeepsTargets {
    alloc: Global,
    targets: BTreeMap<String, String>,
}

impl Keeps for KeepsTargets {
    ghost Index = { List ℕ };

    ghost Held = { Option (List ℕ) };

    ghost held = { λ k. target_held k.targets };

    ghost change = { λ k. put_later };

    ghost section = { codes "Relationships" };

    ghost Kind = { IsRelatedError };

    ghost kinds = { Prim.search rules };

    fn take(&mut self, tag: StartTag<'_>, at: u64) -> Result<(), XlsxError> {
        keep_link_target(self.alloc, &mut self.targets, tag, at)
    }
}

/// The targets of the hyperlinks of the sheet whose part is at this path, by the Ids of the
/// relationships beside it (ECMA-376 part 2, section 9.3): of those whose type ends in
/// `/relationships/hyperlink` and whose Id isn't empty, decoded, and then with each `_xHHHH_`
/// replaced. Of an Id the last stands, and one without a target has the empty one. A part of
/// relationships that is absent has none.
///
/// A part of relationships that has no section `Relationships`, or ends in it, is
/// `XmlEof("Relationships")`. A target with a reference without a character is `Xml(Entity)` with
/// the number of its start, counted from 0, and attributes that end in a fault are `XmlAttr`, where
/// `Id`, `Type` or `Target` isn't before it.
pub fn read_sheet_hyperlink_rels<P: Package>(
    xml: &mut XlReader<P>,
    sheet_path: &str,
) -> Result<BTreeMap<String, String>, XlsxError>
    ensures uses { let part = relationships_beside sheet_path.now in
        Uses (event_count xml.old.source.parts part) Io result xml.old.source xml.new.source }
    ensures to_end { let part = relationships_beside sheet_path.now in
        ReadsToEnd (codes "Relationships") part result xml.old.source xml.new.source }
    ensures targets { xml.old.source.is_visible ≡ true → IfOk result (λ kept.
        IsSomeAnd (link_targets xml.old.source.parts sheet_path.now) (λ targets.
        HoldsTargets targets kept)) }
    ensures err { IfErr result
        (FailsBy (LinkTargetsCause xml.old.source.parts sheet_path.now)
        xml.old.source xml.new.source) }
    ensures kind { IfErr result IsRelatedError }
{
    let alloc = xml.alloc();
    let part = relationships_beside(alloc, sheet_path)?;
    if !enter_part(xml, part.as_str(), "Relationships")? {
        return Ok(BTreeMap::new(alloc));
    }
    let base = xml.depth();
    let targets = BTreeMap::new(alloc);
    let mut keeper = KeepsTargets { alloc, targets };
    keep_starts(xml, base, &["Relationship"], "Relationships", &mut keeper)?;
    Ok(keeper.targets)
}
