ghost use Rattle.std.specs.Prelude.{◌≡◌, ℕ, List, Ok, Some, codes, true, string_bytes, IfOk, IfErr};
ghost use Rattle.std.specs.Prelude.{IsSomeAnd};
ghost use Rattle.part_events.specs.Words.{Uses, event_count};
ghost use Rattle.xlsx_error.specs.declared.error.XlsxError.TheVariants.{Io};
ghost use Rattle.xlsx_sections.specs.Words.{always, PartFails, closed_section_of, ReadsToEnd};
ghost use Rattle.xlsx_relationships.specs.KeptRelationships.{related_by_id};
ghost use Rattle.xlsx_relationships.specs.Relationships.{path_in, related_in, IsPathRefused};
ghost use Rattle.xlsx_relationships.specs.Relationships.{AreRelationshipsRefused};
ghost use Rattle.xlsx_relationships.specs.RelationshipErrors.{IsRelationshipsError};

use crate::relationships::{KeepsRelated, OfficeTargets, Relationship};
use part_events::{Package, XlReader};
use std::collections::BTreeMap;
use xlsx_error::XlsxError;
use xlsx_sections::{enter_part, keep_last, keep_starts};

/// The path of the workbook, by the relationships in the part at this path.
///
/// Fails with `FileNotFound` where there is no such part, and with `RelationshipNotFound` where no
/// relationship to an office document has a target. A part that has no section `Relationships`, or
/// ends in it, is `XmlEof("Relationships")`. Such a target with a reference without a character is
/// `Xml(Entity)` with the number of its start, counted from 0.
#[tactic(auto, using(crate::proofs::RelationshipErrors::relationships_step))]
pub fn read_path<P: Package>(xml: &mut XlReader<P>, part: &str) -> Result<String, XlsxError>
    ensures uses { Uses (event_count xml.old.source.parts part.now) Io result
        xml.old.source xml.new.source }
    ensures to_end { ReadsToEnd (codes "Relationships") part.now result
        xml.old.source xml.new.source }
    ensures path { let old = xml.old.source in
        let inside = closed_section_of (codes "Relationships") part.now old.parts in
        old.is_visible ≡ true → IfOk result (λ path.
        IsSomeAnd inside (λ inside. path_in inside ≡ Ok (Some (string_bytes path)))) }
    ensures err { let name = codes "Relationships" in
        IfErr result (PartFails name (always name) IsPathRefused part.now
        xml.old.source xml.new.source) }
    ensures kind { IfErr result IsRelationshipsError }
{
    let alloc = xml.alloc();
    if !enter_part(xml, part, "Relationships")? {
        return Err(XlsxError::FileNotFound(String::from_str(alloc, part)?));
    }
    let base = xml.depth();
    let by = OfficeTargets { alloc };
    match keep_last(xml, base, &["Relationship"], "Relationships", by)? {
        Some(path) => Ok(path),
        None => Err(XlsxError::RelationshipNotFound),
    }
}

/// The relationships in the part at this path, by their Ids.
///
/// Fails with `FileNotFound` where there is no such part. A part that has no section
/// `Relationships`, or ends in it, is `XmlEof("Relationships")`.
#[tactic(auto, using(crate::proofs::RelationshipErrors::relationships_step))]
pub fn read_relationships<P: Package>(
    xml: &mut XlReader<P>,
    part: &str,
) -> Result<BTreeMap<String, Relationship>, XlsxError>
    ensures uses { Uses (event_count xml.old.source.parts part.now) Io result
        xml.old.source xml.new.source }
    ensures to_end { ReadsToEnd (codes "Relationships") part.now result
        xml.old.source xml.new.source }
    ensures related { let old = xml.old.source in
        let inside = closed_section_of (codes "Relationships") part.now old.parts in
        old.is_visible ≡ true → IfOk result (λ map. IsSomeAnd inside (λ inside. (id : List ℕ) →
        related_in inside id ≡ Ok (related_by_id map id))) }
    ensures err { let name = codes "Relationships" in
        IfErr result (PartFails name (always name) AreRelationshipsRefused part.now
        xml.old.source xml.new.source) }
    ensures kind { IfErr result IsRelationshipsError }
{
    let alloc = xml.alloc();
    if !enter_part(xml, part, "Relationships")? {
        return Err(XlsxError::FileNotFound(String::from_str(alloc, part)?));
    }
    let base = xml.depth();
    let map = BTreeMap::new(alloc);
    let mut keeper = KeepsRelated { alloc, map };
    keep_starts(xml, base, &["Relationship"], "Relationships", &mut keeper)?;
    Ok(keeper.map)
}
