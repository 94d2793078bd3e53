ghost use Rattle.std.proofs.Common.{rules};
ghost use Rattle.std.specs.Prelude.{◌≡◌, ⊤, ℕ, List, Option, Ok, Some, codes, option_map};
ghost use Rattle.std.specs.Prelude.{string_bytes, IfOk, OnOk, IfErr};
ghost use Rattle.part_events.specs.Words.{tag_of};
ghost use Rattle.xlsx_sections.specs.Words.{Answers, ElementFails, placed_at};
ghost use Rattle.looks.specs.Words.{look_ask};
ghost use Rattle.xlsx_pivots.specs.PivotErrors.{IsPivotsError};
ghost use Rattle.xlsx_pivots.specs.Targets.{counted, HasText, HasText-prop, target_kept};
ghost use Rattle.xlsx_pivots.specs.Targets.{target_look, definitions_look, records_path};
ghost use Rattle.xlsx_pivots.specs.Targets.{records_look};

use crate::single::Single;
use part_events::{Package, StartTag, XlReader};
use std::alloc::{AllocError, Global};
use xlsx_error::XlsxError;
use xlsx_relationships::{behind_slash, joined, relationships_beside, target_path, typed_target};
use xlsx_sections::{Keeps, enter_part, keep_starts};

const DEFINITIONS_TYPE: &str =
    "http://schemas.openxmlformats.org/officeDocument/2006/relationships/pivotCacheDefinition";

const RECORDS_TYPE: &str =
    "http://schemas.openxmlformats.org/officeDocument/2006/relationships/pivotCacheRecords";

/// What counts of a target. An empty one doesn't before the first that isn't empty.
fn counted(kept: &Option<String>, target: Option<String>) -> Option<String>
    ensures { option_map string_bytes result
        ≡ counted (option_map string_bytes kept.now) (option_map string_bytes target) }
{
    if kept.is_some() {
        return target;
    }
    match target {
        Some(target) if !target.is_empty() => Some(target),
        _ => None,
    }
}

/// Keeps the target of a start, if it is of this type. The start is event number `at` of its part.
#[tactic(auto, using(crate::proofs::PivotsRead::related_error))]
fn keep_target(
    alloc: Global,
    kept: &mut Option<String>,
    tag: StartTag<'_>,
    at: u64,
    wanted: &str,
    single: Single,
) -> Result<(), XlsxError>
    requires written { HasText (option_map string_bytes kept.old) }
    ensures written { HasText (option_map string_bytes kept.new) }
    ensures ok { OnOk result ((behind : ℕ) →
        target_kept wanted.now single (placed_at (tag_of tag.entry) behind)
        (option_map string_bytes kept.old) ≡ Ok (option_map string_bytes kept.new)) }
    ensures err { IfErr result (λ error. (behind : ℕ) → ElementFails
        (target_kept wanted.now single (placed_at (tag_of tag.entry) behind)
        (option_map string_bytes kept.old)) at behind error) }
    ensures kind { IfErr result IsPivotsError }
{
    let target = typed_target(alloc, tag, at, wanted)?;
    let target = counted(kept, target);
    single.keep(kept, target)
}

/// Keeps the only target of a type.
#[derive(Drop)]
struct TargetKeeper<'a> {
    alloc: Global,
    wanted: &'a str,
    single: Single,
    kept: Option<String>,
    ghost written: { HasText (option_map string_bytes kept) } by { HasText-prop _ },
}

impl Keeps for TargetKeeper<'_> {
    ghost Index = { ⊤ };

    ghost Held = { Option (List ℕ) };

    ghost held = { λ k i. option_map string_bytes k.kept };

    ghost change = { λ k i. target_kept k.wanted.now k.single };

    ghost section = { codes "Relationships" };

    ghost Kind = { IsPivotsError };

    ghost kinds = { Prim.search rules };

    fn take(&mut self, tag: StartTag<'_>, at: u64) -> Result<(), XlsxError> {
        keep_target(
            self.alloc,
            &mut self.kept,
            tag,
            at,
            self.wanted,
            self.single,
        )
    }
}

/// The only target of the relationships of this type which the part at this path has.
#[tactic(auto, using(crate::proofs::PivotsRead::relationships_step))]
fn target_beside<P: Package>(
    xml: &mut XlReader<P>,
    path: &str,
    wanted: &str,
    single: Single,
) -> Result<String, XlsxError>
    ensures answers { Answers (look_ask IsPivotsError (target_look wanted.now single path.now))
        string_bytes result xml.old.source xml.new.source }
    ensures written { IfOk result (λ target. HasText (Some (string_bytes target))) }
{
    let alloc = xml.alloc();
    let part = relationships_beside(alloc, path)?;
    if !enter_part(xml, part.as_str(), "Relationships")? {
        return Err(XlsxError::FileNotFound(part));
    }
    let base = xml.depth();
    let names = ["Relationship"];
    let mut by = TargetKeeper {
        alloc,
        wanted,
        single,
        kept: None,
    };
    keep_starts(xml, base, &names, "Relationships", &mut by)?;
    let kept = by.kept;
    match kept {
        Some(target) => Ok(target),
        None => Err(single.lacking()),
    }
}

/// The path of the definitions of the pivot table whose part is at this path: where the only
/// relationship leads that its part has of the type for them.
///
/// Relationships that are absent are `FileNotFound` of their path, and a part that has no section
/// `Relationships`, or ends in it, is `XmlEof("Relationships")`. Where no such target is found that
/// isn't empty, or one more behind the first, it is `Unexpected` of the text that says so.
pub fn definitions_at<P: Package>(xml: &mut XlReader<P>, path: &str) -> Result<String, XlsxError>
    ensures answers { Answers (look_ask IsPivotsError (definitions_look path.now)) string_bytes
        result xml.old.source xml.new.source }
{
    let target = target_beside(xml, path, DEFINITIONS_TYPE, Single::Definitions)?;
    match target_path(xml.alloc(), path, target.as_str())? {
        Some(there) => Ok(there),
        None => unreachable!(),
    }
}

/// The path to which a target of records leads, where `folder` is the workbook's.
fn records_path(alloc: Global, folder: &str, target: &str) -> Result<String, AllocError>
    ensures { IfOk result (λ path. string_bytes path ≡ records_path folder.now target.now) }
{
    let target = match behind_slash(target) {
        Some(rest) => rest,
        None => target,
    };
    let mut path = joined(alloc, folder, "pivotCache")?;
    if target.as_bytes().starts_with(path.as_bytes()) {
        return String::from_str(alloc, target);
    }
    path.push_str("/")?;
    path.push_str(target)?;
    Ok(path)
}

/// The path of the records of the definitions whose part is at this path, where `folder` is the
/// workbook's, with the slash at its end.
///
/// Fails as `definitions_at`.
pub fn records_at<P: Package>(
    xml: &mut XlReader<P>,
    path: &str,
    folder: &str,
) -> Result<String, XlsxError>
    ensures answers { Answers (look_ask IsPivotsError (records_look folder.now path.now))
        string_bytes result xml.old.source xml.new.source }
{
    let target = target_beside(xml, path, RECORDS_TYPE, Single::Records)?;
    Ok(records_path(xml.alloc(), folder, target.as_str())?)
}
