ghost use Rattle.std.specs.Prelude.{◌≡◌, map, true, Some, IfOk, OnOk, IfErr};
ghost use Rattle.part_events.specs.Words.{IsReading, ReadsPart, events_of};
ghost use Rattle.xlsx_error.specs.declared.error.XlsxError.TheVariants.{Io};
ghost use Rattle.xlsx_parts.specs.Words.{IsOpenError};
ghost use Rattle.xlsx_sections.specs.Words.{Answers, FailsBy};
ghost use Rattle.looks.specs.Words.{asks, is_there, look_ask};
ghost use Rattle.xlsx_relationships.specs.Words.{IsRelatedError, target_held};
ghost use Rattle.xlsx_areas.specs.Hyperlinks.{link_said, links_ask, links_found, linked_look};
ghost use Rattle.xlsx_areas.specs.Hyperlinks.{part_links, part_links_look, targets_look};
ghost use Rattle.xlsx_areas.specs.LinkErrors.{IsLinksError, IsSheetLinksError};

use crate::hyperlink::Hyperlink;
use crate::hyperlinks::read_hyperlinks;
use part_events::{Package, XlReader};
use std::collections::BTreeMap;
use xlsx_error::XlsxError;
use xlsx_parts::{find_section, open_part};
use xlsx_relationships::read_sheet_hyperlink_rels;

/// The links in the first section of hyperlinks of a part of which nothing was taken.
#[tactic(auto, using(crate::proofs::LinksRead::break_links))]
fn links_of<P: Package>(
    xml: &mut XlReader<P>,
    targets: &BTreeMap<String, String>,
) -> Result<Vec<Hyperlink>, XlsxError>
    requires reading { IsReading xml.old }
    requires first { xml.old.at ≡ 0 }
    ensures reads { ReadsPart Io result xml.old xml.new }
    ensures ends { let ask = part_links (target_held targets.now) in
        xml.old.source.is_visible ≡ true →
        OnOk result (xml.new.at ≡ ask.exact (events_of xml.old)) }
    ensures links { let ask = part_links (target_held targets.now) in
        xml.old.source.is_visible ≡ true →
        IfOk result (λ links. ask.said (events_of xml.old) ≡ Some (map link_said links.items)) }
    ensures err { let ask = part_links (target_held targets.now) in
        IfErr result (FailsBy (ask.cause (events_of xml.old)) xml.old.source xml.new.source) }
    ensures kind { IfErr result IsLinksError }
{
    let alloc = xml.alloc();
    if !find_section(xml, "hyperlinks")? {
        return Ok(Vec::new(alloc));
    }
    read_hyperlinks(xml, targets)
}

/// The links of the sheet whose part is at this path, where these are the targets by their Ids: of
/// its first `hyperlinks`, and none where it has none. Answers None where the part is absent.
fn read_links<P: Package>(
    xml: &mut XlReader<P>,
    path: &str,
    targets: &BTreeMap<String, String>,
) -> Result<Option<Vec<Hyperlink>>, XlsxError>
    ensures answers { let look = part_links_look path.now (target_held targets.now) in
        Answers (look_ask IsLinksError look) links_found result xml.old.source xml.new.source }
{
    if !open_part(xml, path)? {
        return Ok(None);
    }
    Ok(Some(links_of(xml, targets)?))
}

/// The targets of the hyperlinks of the sheet whose part is at this path, by their Ids.
#[tactic(auto, using(crate::proofs::LinksRead::targets_kept))]
fn read_targets<P: Package>(
    xml: &mut XlReader<P>,
    path: &str,
) -> Result<BTreeMap<String, String>, XlsxError>
    ensures answers { Answers (look_ask IsRelatedError (targets_look path.now)) target_held result
        xml.old.source xml.new.source }
{
    read_sheet_hyperlink_rels(xml, path)
}

/// The links of the sheet whose part is at this path, by the relationships beside it. Answers None
/// where the part is absent.
fn read_linked<P: Package>(
    xml: &mut XlReader<P>,
    path: &str,
) -> Result<Option<Vec<Hyperlink>>, XlsxError>
    ensures answers { Answers (look_ask IsSheetLinksError (linked_look path.now)) links_found result
        xml.old.source xml.new.source }
{
    let targets = read_targets(xml, path)?;
    read_links(xml, path, &targets)
}

/// Whether there is a part at this path. Its refusals are `Io` and `OutOfMemory`.
fn has_part<P: Package>(xml: &mut XlReader<P>, path: &str) -> Result<bool, XlsxError>
    ensures answers { Answers (look_ask IsOpenError (asks path.now is_there)) (λ found. found)
        result xml.old.source xml.new.source }
{
    Ok(xml.open(path)?)
}

/// The hyperlinks of the sheet whose part is at this path (ECMA-376 part 1, section 18.3.1.48), by
/// the relationships beside it: those of its first `hyperlinks`, and none where it has none, in
/// order. Answers None where the part is absent, before any relationship is read. Nothing else in
/// the part is looked up.
///
/// Fails as `read_sheet_hyperlink_rels` and as `read_hyperlinks`, and by an end that breaks the
/// nesting of the part before its section.
pub fn read_sheet_links<P: Package>(
    xml: &mut XlReader<P>,
    path: &str,
) -> Result<Option<Vec<Hyperlink>>, XlsxError>
    ensures answers { Answers (links_ask path.now) links_found result
        xml.old.source xml.new.source }
{
    if !has_part(xml, path)? {
        return Ok(None);
    }
    read_linked(xml, path)
}
