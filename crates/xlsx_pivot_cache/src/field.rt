ghost use Rattle.std.specs.Prelude.{◌≡◌, suc, List, length, true, Ok, option_map, string_bytes};
ghost use Rattle.std.specs.Prelude.{codes, IfOk, IfErr, MatchOption};
ghost use Rattle.part_events.specs.Words.{Event, Tag, start, tag_of, ahead, IsReadingElement};
ghost use Rattle.part_events.specs.Words.{ReadsElement, content};
ghost use Rattle.xlsx_error.specs.declared.error.XlsxError.TheVariants.{Io};
ghost use Rattle.xlsx_sections.specs.Words.{ElementReadFails, IsNameError, always, ElementFails};
ghost use Rattle.xlsx_pivot_cache.specs.CacheErrors.{IsFieldsError};
ghost use Rattle.xlsx_pivot_cache.specs.CacheFields.{field_said, unless_grouped, groups_items};
ghost use Rattle.xlsx_pivot_cache.specs.CacheFields.{items_in, field_kept};

use crate::contents::contents_in;
use attr_text::{RawAttributes, get_attrs};
use cell_data::Data;
use part_events::{Package, StartTag, XlReader};
use std::alloc::Global;
use xlsx_error::XlsxError;
use xlsx_sections::{decode_at, skip_element_in, start_tag};

/// A field of a pivot table's cache: its name, and the items that records name by their places,
/// counted from 0.
#[derive(Debug, Drop)]
pub struct CacheField {
    pub name: String,
    pub items: Vec<Data>,
}

/// The name, decoded, that a start gives its field, which is event number `at` of its part. None
/// where the element is no field by its start.
#[tactic(auto, using(crate::proofs::CacheErrors::decoding))]
fn field_name(alloc: Global, tag: StartTag<'_>, at: u64) -> Result<Option<String>, XlsxError>
    ensures ok { let tag = tag_of tag.entry in
        IfOk result (λ name. (inside : List Event) →
        MatchOption name (field_said tag inside ≡ Ok None) (λ own. field_said tag inside
        ≡ unless_grouped (string_bytes own) (groups_items inside) (items_in inside))) }
    ensures err { IfErr result (λ error. (inside : List Event) →
        ElementFails (field_said (tag_of tag.entry) inside) at (length inside) error) }
    ensures kind { IfErr result IsNameError }
{
    let (name, formula) = get_attrs!(tag, "name" => name, "formula" => formula)?;
    let Some(name) = name else {
        return Ok(None);
    };
    let name = decode_at(alloc, name, at)?;
    if formula.is_some() {
        return Ok(None);
    }
    Ok(Some(name))
}

/// Reads the `cacheField` at whose start the reader stands, to its end (ECMA-376 part 1, section
/// 18.10.1.3). The start is event number `at` of its part, counted from 0. None where the element
/// is no field: it has no name, or a formula, or it groups items of others.
#[tactic(auto, using(crate::proofs::CacheErrors::field_errors))]
pub(crate) fn read_field<P: Package>(
    xml: &mut XlReader<P>,
    at: u64,
) -> Result<Option<CacheField>, XlsxError>
    requires element { IsReadingElement xml.old }
    requires place { suc at ≡ xml.old.at }
    ensures reads { ReadsElement Io result xml.old xml.new }
    ensures field { xml.old.source.is_visible ≡ true → IfOk result (λ field. (tag : Tag) →
        start tag ≡ xml.old.source.current →
        field_said tag (content 0 (ahead xml.old)) ≡ Ok (option_map field_kept field)) }
    ensures err { IfErr result (λ error. (tag : Tag) → start tag ≡ xml.old.source.current →
        ElementReadFails (always (codes "cacheField")) (field_said tag) xml.old xml.new error) }
    ensures kind { IfErr result IsFieldsError }
{
    let Some(name) = field_name(xml.alloc(), start_tag(xml), at)? else {
        skip_element_in(xml, Some("cacheField"))?;
        return Ok(None);
    };
    let base = xml.depth();
    let contents = contents_in(xml, base)?;
    if contents.groups {
        return Ok(None);
    }
    Ok(Some(CacheField {
        name,
        items: contents.items,
    }))
}
