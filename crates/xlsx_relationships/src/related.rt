ghost use Rattle.std.proofs.Common.{rules};
ghost use Rattle.std.specs.Prelude.{◌≡◌, ℕ, List, Ok, Some, codes, map, option_map, string_bytes};
ghost use Rattle.std.specs.Prelude.{IfOk, IfErr};
ghost use Rattle.part_events.specs.Words.{tag_of};
ghost use Rattle.xlsx_sections.specs.Words.{Answers, ElementFails, placed_at};
ghost use Rattle.xlsx_relationships.specs.RelatedLook.{related_ask};
ghost use Rattle.xlsx_relationships.specs.RelatedParts.{typed_target, leads_to};
ghost use Rattle.xlsx_relationships.specs.RelationshipErrors.{IsRelatedError};

use crate::paths::relationships_beside;
use crate::relationships::text_or;
use crate::targets::target_path;
use attr_text::{RawAttributes, get_attrs};
use part_events::{Package, StartTag, XlReader};
use std::alloc::Global;
use xlsx_error::XlsxError;
use xlsx_sections::{Reads, decode_at, enter_part, keep_all};

/// The target, decoded, of the relationship of a start, if it is of exactly this type. The start is
/// event number `at` of its part, counted from 0. One without a target has the empty one.
///
/// A target of this type with a reference without a character is `Xml(Entity)` with that number,
/// and attributes that end in a fault and lack `Type` or `Target` are `XmlAttr`.
#[tactic(auto, using(crate::proofs::RelationshipErrors::related_decoding))]
pub fn typed_target(
    alloc: Global,
    tag: StartTag<'_>,
    at: u64,
    wanted: &str,
) -> Result<Option<String>, XlsxError>
    ensures ok { IfOk result (λ target. (behind : ℕ) →
        typed_target wanted.now (placed_at (tag_of tag.entry) behind)
        ≡ Ok (option_map string_bytes target)) }
    ensures err { IfErr result (λ error. (behind : ℕ) → ElementFails
        (typed_target wanted.now (placed_at (tag_of tag.entry) behind)) at behind error) }
    ensures kind { IfErr result IsRelatedError }
{
    let (typ, target) = get_attrs!(tag, "Type" => typ, "Target" => target)?;
    if text_or(typ, "") != wanted {
        return Ok(None);
    }
    Ok(Some(decode_at(alloc, text_or(target, ""), at)?))
}

/// Where the relationship of a start leads, if it is of this type. It is one of the part at `path`,
/// and its start event number `at` of the part that names it.
fn leads_to(
    alloc: Global,
    tag: StartTag<'_>,
    at: u64,
    path: &str,
    wanted: &str,
) -> Result<Option<String>, XlsxError>
    ensures ok { IfOk result (λ there. (behind : ℕ) →
        leads_to path.now wanted.now (placed_at (tag_of tag.entry) behind)
        ≡ Ok (option_map string_bytes there)) }
    ensures err { IfErr result (λ error. (behind : ℕ) → ElementFails
        (leads_to path.now wanted.now (placed_at (tag_of tag.entry) behind)) at behind error) }
    ensures kind { IfErr result IsRelatedError }
{
    match typed_target(alloc, tag, at, wanted)? {
        Some(target) => Ok(target_path(alloc, path, target.as_str())?),
        None => Ok(None),
    }
}

/// Reads where the relationships of the part at `path` lead that are of this type.
#[derive(Drop)]
struct Leads<'a> {
    alloc: Global,
    path: &'a str,
    wanted: &'a str,
}

impl Reads for Leads<'_> {
    type Item = String;

    ghost Kept = { List ℕ };

    ghost said = { λ there. string_bytes there };

    ghost meaning = { λ r. leads_to r.path.now r.wanted.now };

    ghost section = { codes "Relationships" };

    ghost Kind = { IsRelatedError };

    ghost kinds = { Prim.search rules };

    fn read(&self, tag: StartTag<'_>, at: u64) -> Result<Option<String>, XlsxError> {
        leads_to(self.alloc, tag, at, self.path, self.wanted)
    }
}

/// The paths of the parts that the relationships of exactly this type lead to, which the part at
/// `path` has, in order (ECMA-376 part 2, section 9.3). One that two of them name comes twice. A
/// part without a part of relationships leads nowhere.
///
/// A part of relationships that has no section `Relationships`, or ends in it, is
/// `XmlEof("Relationships")`, and an end that breaks the nesting, or a flaw, before the section's
/// end `Xml(Break)` with its number, counted from 0. Attributes that end in a fault and lack `Type`
/// or `Target` are `XmlAttr`. A target of this type with a reference without a character is
/// `Xml(Entity)` with the number of its start, counted from 0.
#[tactic(auto, using(crate::proofs::RelationshipErrors::related_step))]
pub fn related_parts<P: Package>(
    xml: &mut XlReader<P>,
    path: &str,
    typ: &str,
) -> Result<Vec<String>, XlsxError>
    ensures answers { let ask = related_ask typ.now path.now in
        Answers ask (λ paths. map string_bytes paths.items) result
        xml.old.source xml.new.source }
{
    let alloc = xml.alloc();
    let part = relationships_beside(alloc, path)?;
    if !enter_part(xml, part.as_str(), "Relationships")? {
        return Ok(Vec::new(alloc));
    }
    let base = xml.depth();
    let by = Leads {
        alloc,
        path,
        wanted: typ,
    };
    keep_all(xml, base, &["Relationship"], "Relationships", by)
}
