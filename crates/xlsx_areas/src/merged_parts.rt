ghost use Rattle.std.specs.Prelude.{◌≡◌, codes, true, None, Some, IfOk, OnOk, IfErr, IsSome};
ghost use Rattle.std.specs.Prelude.{MatchOption};
ghost use Rattle.part_events.specs.Words.{Uses, CountsUp, part_of, event_count, IsReading};
ghost use Rattle.part_events.specs.Words.{ReadsPart, MovesForward, events_of};
ghost use Rattle.xlsx_error.specs.declared.error.XlsxError.TheVariants.{Io};
ghost use Rattle.xlsx_sections.specs.Words.{FailsBy, ReadsToEnd, section_events};
ghost use Rattle.xlsx_parts.specs.Words.{IsBreakError};
ghost use Rattle.xlsx_areas.specs.MergeErrors.{IsRegionsError, IsMergesError, MergesCause};
ghost use Rattle.xlsx_areas.specs.MergeErrors.{MergesFail, RegionsFail, BreaksBefore};
ghost use Rattle.xlsx_areas.specs.MergeErrors.{BreaksBeforeMerges, LeavesFaults};
ghost use Rattle.xlsx_areas.specs.MergedCells.{merges_of, merges_at, regions_at, merges_or_none_of};
ghost use Rattle.xlsx_areas.specs.MergedCells.{merges_or_none_at};

use crate::merged_cells::{read_merge_cells, regions_in};
use cell_refs::Dimensions;
use part_events::{Package, XlReader};
use xlsx_error::XlsxError;
use xlsx_parts::{find_section, open_part};

/// The areas in the first section of merged cells of a part of which nothing was taken.
#[tactic(auto, using(crate::proofs::MergesRead::break_merges))]
fn merges_of<P: Package>(xml: &mut XlReader<P>) -> Result<Vec<Dimensions>, XlsxError>
    requires reading { IsReading xml.old }
    requires first { xml.old.at ≡ 0 }
    ensures reads { ReadsPart Io result xml.old xml.new }
    ensures ends { let count = section_events (codes "mergeCells") (events_of xml.old) in
        xml.old.source.is_visible ≡ true → OnOk result (xml.new.at ≡ count) }
    ensures merges { xml.old.source.is_visible ≡ true →
        IfOk result (λ areas. merges_of (events_of xml.old) ≡ Some areas.items) }
    ensures err { IfErr result
        (FailsBy (MergesCause (events_of xml.old)) xml.old.source xml.new.source) }
    ensures kind { IfErr result IsMergesError }
{
    let alloc = xml.alloc();
    if !find_section(xml, "mergeCells")? {
        return Ok(Vec::new(alloc));
    }
    read_merge_cells(xml)
}

/// The areas of the merged cells of the sheet whose part is at this path (ECMA-376 part 1, section
/// 18.3.1.55), in order: those of its first `mergeCells`, and none where it has none. Answers None
/// where the part is absent. Nothing else in the part is looked up.
///
/// Fails as `read_merge_cells`, and by an end that breaks the nesting before.
pub fn read_merges<P: Package>(
    xml: &mut XlReader<P>,
    path: &str,
) -> Result<Option<Vec<Dimensions>>, XlsxError>
    ensures uses { Uses (event_count xml.old.source.parts path.now) Io result
        xml.old.source xml.new.source }
    ensures to_end { ReadsToEnd (codes "mergeCells") path.now result xml.old.source xml.new.source }
    ensures merges { let old = xml.old.source in
        old.is_visible ≡ true → IfOk result (λ found. MatchOption found
        (part_of old.parts path.now ≡ None)
        (λ areas. merges_at old.parts path.now ≡ Some areas.items)) }
    ensures err { IfErr result (MergesFail path.now xml.old.source xml.new.source) }
    ensures kind { IfErr result IsMergesError }
{
    if !open_part(xml, path)? {
        return Ok(None);
    }
    Ok(Some(merges_of(xml)?))
}

/// The areas of all `mergeCell` starts of the sheet whose part is at this path, wherever they stand
/// in it, in order. Answers None where the part is absent, and reads it to its end.
///
/// Fails by an end that breaks the nesting, and by a `mergeCell` as `read_merge_cells`.
pub fn read_regions<P: Package>(
    xml: &mut XlReader<P>,
    path: &str,
) -> Result<Option<Vec<Dimensions>>, XlsxError>
    ensures uses { Uses (event_count xml.old.source.parts path.now) Io result
        xml.old.source xml.new.source }
    ensures to_end { let old = xml.old.source in
        old.is_visible ≡ true →
        OnOk result (CountsUp (event_count old.parts path.now) old.taken xml.new.source.taken) }
    ensures regions { let old = xml.old.source in
        old.is_visible ≡ true → IfOk result (λ found. MatchOption found
        (part_of old.parts path.now ≡ None)
        (λ areas. regions_at old.parts path.now ≡ Some areas.items)) }
    ensures err { IfErr result (RegionsFail path.now xml.old.source xml.new.source) }
    ensures kind { IfErr result IsRegionsError }
{
    if !open_part(xml, path)? {
        return Ok(None);
    }
    Ok(Some(regions_in(xml)?))
}

/// The areas in the first section of merged cells, and none where a fault of that section refuses
/// them, which isn't one of the package nor want of memory.
fn merges_or_none<P: Package>(xml: &mut XlReader<P>) -> Result<Vec<Dimensions>, XlsxError>
    requires reading { IsReading xml.old }
    requires first { xml.old.at ≡ 0 }
    ensures moves { MovesForward xml.old xml.new }
    ensures merges { xml.old.source.is_visible ≡ true →
        IfOk result (λ areas. merges_or_none_of (events_of xml.old) ≡ Some areas.items) }
    ensures ends { let count = section_events (codes "mergeCells") (events_of xml.old) in
        xml.old.source.is_visible ≡ true → IsSome (merges_of (events_of xml.old)) →
        OnOk result (xml.new.at ≡ count) }
    ensures faults { LeavesFaults result xml.old.source xml.new.source }
    ensures err { IfErr result
        (FailsBy (BreaksBefore (events_of xml.old)) xml.old.source xml.new.source) }
    ensures kind { IfErr result IsBreakError }
{
    let alloc = xml.alloc();
    if !find_section(xml, "mergeCells")? {
        return Ok(Vec::new(alloc));
    }
    match read_merge_cells(xml) {
        Ok(areas) => Ok(areas),
        Err(XlsxError::Io) => Err(XlsxError::Io),
        Err(XlsxError::OutOfMemory) => Err(XlsxError::OutOfMemory),
        Err(refusal) => {
            drop(refusal);
            Ok(Vec::new(alloc))
        }
    }
}

/// The merged cells of the sheet whose part is at this path, as `read_merges` has them, but none
/// where what stands in their section refuses them, or the part ends or its nesting breaks there.
///
/// Fails by an end that breaks the nesting before that section, or anywhere in a part without one.
pub fn read_merges_or_none<P: Package>(
    xml: &mut XlReader<P>,
    path: &str,
) -> Result<Option<Vec<Dimensions>>, XlsxError>
    ensures uses { Uses (event_count xml.old.source.parts path.now) Io result
        xml.old.source xml.new.source }
    ensures to_end { IsSome (merges_at xml.old.source.parts path.now) →
        ReadsToEnd (codes "mergeCells") path.now result xml.old.source xml.new.source }
    ensures merges { let old = xml.old.source in
        old.is_visible ≡ true → IfOk result (λ found. MatchOption found
        (part_of old.parts path.now ≡ None)
        (λ areas. merges_or_none_at old.parts path.now ≡ Some areas.items)) }
    ensures err { IfErr result (BreaksBeforeMerges path.now xml.old.source xml.new.source) }
    ensures kind { IfErr result IsBreakError }
{
    if !open_part(xml, path)? {
        return Ok(None);
    }
    Ok(Some(merges_or_none(xml)?))
}
