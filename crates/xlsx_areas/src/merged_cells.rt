ghost use Rattle.std.proofs.Common.{rules};
ghost use Rattle.std.specs.Prelude.{◌≡◌, ℕ, [], length, true, Some, Ok, IfOk, OnOk, IfErr};
ghost use Rattle.std.specs.Result.{is_err};
ghost use Rattle.cell_refs.specs.declared.dimensions.Dimensions.{Dimensions};
ghost use Rattle.part_events.specs.Words.{tag_of, IsReading, ReadsPart, events_of};
ghost use Rattle.part_events.specs.Words.{IsReadingElement, ReadsElement, ahead, content};
ghost use Rattle.xlsx_error.specs.declared.error.XlsxError.TheVariants.{Io};
ghost use Rattle.xlsx_sections.specs.Words.{ElementReadFails, put_behind, always, ElementFails};
ghost use Rattle.xlsx_sections.specs.Words.{placed_at};
ghost use Rattle.xlsx_parts.specs.Words.{IsMeaningRefused, WholePartFails};
ghost use Rattle.xlsx_areas.specs.MergeErrors.{IsRegionsError, IsMergesError};
ghost use Rattle.xlsx_areas.specs.MergedCells.{merge_of, merges_in, regions_of};

use attr_text::RawAttributes;
use cell_refs::{Dimensions, get_dimension};
use part_events::{Package, StartTag, XlReader};
use xlsx_error::XlsxError;
use xlsx_parts::next_start_of_part;
use xlsx_sections::{Reads, keep_all, start_tag};

/// The area that the start of merged cells names.
fn merge_of(tag: StartTag<'_>) -> Result<Option<Dimensions>, XlsxError>
    ensures ok { IfOk result (λ area. (behind : ℕ) →
        merge_of (placed_at (tag_of tag.entry) behind) ≡ Ok area) }
    ensures err { IfErr result (λ error. (at behind : ℕ) →
        ElementFails (merge_of (placed_at (tag_of tag.entry) behind)) at behind error) }
    ensures kind { IfErr result IsRegionsError }
{
    match tag.raw_attr("ref")? {
        Some(text) => Ok(Some(get_dimension(text)?)),
        None => Ok(None),
    }
}

/// Appends the area of a start that names one.
fn push_merge(areas: &mut Vec<Dimensions>, tag: StartTag<'_>) -> Result<(), XlsxError>
    ensures ok { OnOk result ((behind : ℕ) →
        put_behind merge_of (placed_at (tag_of tag.entry) behind) areas.old.items
        ≡ Ok areas.new.items) }
    ensures err { IfErr result (λ error. (at behind : ℕ) →
        ElementFails (merge_of (placed_at (tag_of tag.entry) behind)) at behind error) }
    ensures kind { IfErr result IsRegionsError }
{
    match merge_of(tag)? {
        Some(area) => Ok(areas.push(area)?),
        None => Ok(()),
    }
}

/// Reads the areas of merged cells.
#[derive(Drop)]
struct MergeReader;

impl Reads for MergeReader {
    type Item = Dimensions;

    ghost Kept = { Dimensions };

    ghost said = { λ area. area };

    ghost meaning = { λ r. merge_of };

    ghost section = { [] };

    ghost Kind = { IsMergesError };

    ghost kinds = { Prim.search rules };

    #[tactic(auto, using(crate::proofs::MergesRead::own_error))]
    fn read(&self, tag: StartTag<'_>, _at: u64) -> Result<Option<Dimensions>, XlsxError> {
        merge_of(tag)
    }
}

/// Reads the merged cells at whose start the reader stands, to its end (ECMA-376 part 1, section
/// 18.3.1.55): the area of each `mergeCell` in it that has a `ref`, in order.
///
/// A part that ends before is `XmlEof("")`, and an end that breaks the nesting, or a flaw, is
/// `Xml(Break)` with its number in the part, counted from 0. Attributes that end in a fault and
/// have no `ref` are `XmlAttr`, and a `ref` that names no area has the refusal of its text.
pub fn read_merge_cells<P: Package>(xml: &mut XlReader<P>) -> Result<Vec<Dimensions>, XlsxError>
    requires element { IsReadingElement xml.old }
    ensures reads { ReadsElement Io result xml.old xml.new }
    ensures merges { xml.old.source.is_visible ≡ true →
        IfOk result (λ areas. merges_in (content 0 (ahead xml.old)) ≡ Ok areas.items) }
    ensures failed { xml.new.is_failed ≡ is_err result }
    ensures err { IfErr result (ElementReadFails (always []) merges_in xml.old xml.new) }
    ensures kind { IfErr result IsMergesError }
{
    let base = xml.depth();
    let read = keep_all(xml, base, &["mergeCell"], "", MergeReader);
    if read.is_err() {
        xml.give_up();
    }
    read
}

/// The areas of all merged cells of a part of which nothing was taken, wherever they stand in it.
#[tactic(auto, using(crate::proofs::MergesRead::regions_step))]
pub fn regions_in<P: Package>(xml: &mut XlReader<P>) -> Result<Vec<Dimensions>, XlsxError>
    requires reading { IsReading xml.old }
    requires first { xml.old.at ≡ 0 }
    ensures reads { ReadsPart Io result xml.old xml.new }
    ensures ends { xml.old.source.is_visible ≡ true →
        OnOk result (xml.new.at ≡ length (events_of xml.old)) }
    ensures regions { xml.old.source.is_visible ≡ true → IfOk result (λ areas.
        regions_of (events_of xml.old) ≡ Some areas.items) }
    ensures err { IfErr result
        (WholePartFails (IsMeaningRefused merges_in) xml.old xml.new.source) }
    ensures kind { IfErr result IsRegionsError }
{
    let alloc = xml.alloc();
    let mut areas = Vec::new(alloc);
    'starts: while let Some(_at) = next_start_of_part(xml, "mergeCell")? {
        push_merge(&mut areas, start_tag(xml))?;
    }
    Ok(areas)
}
