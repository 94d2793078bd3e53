ghost use Rattle.std.proofs.Common.{rules};
ghost use Rattle.std.specs.Prelude.{◌≡◌, ℕ, map, true, Ok, option_map, option_and_then, IfOk};
ghost use Rattle.std.specs.Prelude.{IfErr, codes, string_bytes};
ghost use Rattle.std.specs.Option.{option_copied};
ghost use Rattle.std.specs.Result.{is_err};
ghost use Rattle.cell_refs.specs.Words.{area};
ghost use Rattle.part_events.specs.Words.{tag_of, IsReadingElement, ReadsElement, ahead, content};
ghost use Rattle.xlsx_error.specs.declared.error.XlsxError.TheVariants.{Io};
ghost use Rattle.xlsx_sections.specs.Words.{ElementReadFails, always, placed, ElementFails};
ghost use Rattle.xlsx_sections.specs.Words.{IsDecodeError, placed_at};
ghost use Rattle.xlsx_relationships.specs.Words.{target_held};
ghost use Rattle.xlsx_areas.specs.Hyperlinks.{Link, optional_text, linked, link_of, links_in};
ghost use Rattle.xlsx_areas.specs.Hyperlinks.{link_said};
ghost use Rattle.xlsx_areas.specs.LinkErrors.{IsLinksError};

use crate::hyperlink::Hyperlink;
use attr_text::{RawAttributes, get_attrs};
use cell_refs::get_dimension;
use part_events::{Package, StartTag, XlReader};
use std::alloc::{AllocError, Global};
use std::collections::BTreeMap;
use xlsx_error::XlsxError;
use xlsx_relationships::link_text;
use xlsx_sections::{Reads, keep_all};

/// A text of a start that may have none.
fn optional_text(alloc: Global, text: Option<&str>, at: u64) -> Result<Option<String>, XlsxError>
    ensures ok { IfOk result (λ out. (behind : ℕ) →
        optional_text behind (option_copied text.entry) ≡ Ok (option_map string_bytes out)) }
    ensures err { IfErr result (λ error. (behind : ℕ) →
        ElementFails (optional_text behind (option_copied text.entry)) at behind error) }
    ensures kind { IfErr result IsDecodeError }
{
    match text {
        Some(text) => Ok(Some(link_text(alloc, text, at)?)),
        None => Ok(None),
    }
}

/// The target of an Id, where there is one.
fn target_of(
    alloc: Global,
    targets: &BTreeMap<String, String>,
    id: Option<&str>,
) -> Result<Option<String>, AllocError>
    ensures { IfOk result (λ target. option_map string_bytes target
        ≡ option_and_then (target_held targets.now) (option_copied id.entry)) }
{
    let Some(id) = id else {
        return Ok(None);
    };
    match targets.get(id) {
        Some(target) => Ok(Some(String::from_str(alloc, target.as_str())?)),
        None => Ok(None),
    }
}

/// The link to this target of the cells that `range` names, with its texts as written. Its start is
/// event number `at` of its part.
#[tactic(auto, using(crate::proofs::LinksRead::link_decoding))]
fn linked(
    alloc: Global,
    target: Option<String>,
    range: &str,
    location: Option<&str>,
    shown: Option<&str>,
    tip: Option<&str>,
    at: u64,
) -> Result<Hyperlink, XlsxError>
    ensures ok { let to = option_map string_bytes target in
        IfOk result (λ link. (behind : ℕ) →
        linked to (placed (area range.now))
        (optional_text behind (option_copied location.entry))
        (optional_text behind (option_copied shown.entry))
        (optional_text behind (option_copied tip.entry)) ≡ Ok (link_said link)) }
    ensures err { let to = option_map string_bytes target in
        IfErr result (λ error. (behind : ℕ) →
        ElementFails (linked to (placed (area range.now))
        (optional_text behind (option_copied location.entry))
        (optional_text behind (option_copied shown.entry))
        (optional_text behind (option_copied tip.entry))) at behind error) }
    ensures kind { IfErr result IsLinksError }
{
    let range = get_dimension(range)?;
    let location = optional_text(alloc, location, at)?;
    let displayed_text = optional_text(alloc, shown, at)?;
    let tooltip = optional_text(alloc, tip, at)?;
    Ok(Hyperlink {
        range,
        target,
        location,
        displayed_text,
        tooltip,
    })
}

/// The link of a start, where these are the targets by their Ids.
fn link_of(
    alloc: Global,
    targets: &BTreeMap<String, String>,
    tag: StartTag<'_>,
    at: u64,
) -> Result<Option<Hyperlink>, XlsxError>
    ensures ok { let by = target_held targets.now in
        IfOk result (λ link. (behind : ℕ) →
        link_of by (placed_at (tag_of tag.entry) behind) ≡ Ok (option_map link_said link)) }
    ensures err { let by = target_held targets.now in
        IfErr result (λ error. (behind : ℕ) →
        ElementFails (link_of by (placed_at (tag_of tag.entry) behind)) at behind error) }
    ensures kind { IfErr result IsLinksError }
{
    let (range, location, shown, tip) = get_attrs!(
        tag,
        "ref" => range,
        "location" => location,
        "display" => shown,
        "tooltip" => tip,
    )?;
    let id = tag.raw_attr_local("id")?;
    let Some(range) = range else {
        return Ok(None);
    };
    let target = target_of(alloc, targets, id)?;
    let link = linked(alloc, target, range, location, shown, tip, at)?;
    Ok(Some(link))
}

/// Reads the links of starts, where these are the targets by their Ids.
#[derive(Drop)]
struct LinkReader<'a> {
    alloc: Global,
    targets: &'a BTreeMap<String, String>,
}

impl Reads for LinkReader<'_> {
    type Item = Hyperlink;

    ghost Kept = { Link };

    ghost said = { link_said };

    ghost meaning = { λ r. link_of (target_held r.targets.now) };

    ghost section = { codes "hyperlinks" };

    ghost Kind = { IsLinksError };

    ghost kinds = { Prim.search rules };

    fn read(&self, tag: StartTag<'_>, at: u64) -> Result<Option<Hyperlink>, XlsxError> {
        link_of(self.alloc, self.targets, tag, at)
    }
}

/// Reads the hyperlinks at whose start the reader stands, to its end (ECMA-376 part 1, section
/// 18.3.1.48), where these are the targets of the sheet's relationships by their Ids: of each
/// `hyperlink` in it that has a `ref` its link, in order. Its texts are decoded, and then each
/// `_xHHHH_` is replaced. Its target is that of the `id`, whatever stands before its colon.
///
/// A part that ends before is `XmlEof("hyperlinks")`, and an end that breaks the nesting, or a
/// flaw, is `Xml(Break)` with its number in the part, counted from 0. Attributes that end in a
/// fault are `XmlAttr`, where `ref`, `location`, `display`, `tooltip` or an `id` isn't before it.
/// Of a start with `ref`, one that names no area has the refusal of its text, and a reference
/// without a character in one of the texts is `Xml(Entity)` with the number of the start.
pub fn read_hyperlinks<P: Package>(
    xml: &mut XlReader<P>,
    rels: &BTreeMap<String, String>,
) -> Result<Vec<Hyperlink>, XlsxError>
    requires element { IsReadingElement xml.old }
    ensures reads { ReadsElement Io result xml.old xml.new }
    ensures links { let by = target_held rels.now in
        xml.old.source.is_visible ≡ true → IfOk result (λ links.
        links_in by (content 0 (ahead xml.old)) ≡ Ok (map link_said links.items)) }
    ensures failed { xml.new.is_failed ≡ is_err result }
    ensures err { let meaning = links_in (target_held rels.now) in
        IfErr result (ElementReadFails (always (codes "hyperlinks")) meaning xml.old xml.new) }
    ensures kind { IfErr result IsLinksError }
{
    let alloc = xml.alloc();
    let base = xml.depth();
    let by = LinkReader {
        alloc,
        targets: rels,
    };
    let read = keep_all(xml, base, &["hyperlink"], "hyperlinks", by);
    if read.is_err() {
        xml.give_up();
    }
    read
}
