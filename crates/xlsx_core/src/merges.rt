ghost use Rattle.std.specs.Prelude.{◌≡◌, true, map, IfOk, OnOk, OnErr, IfErr, IfSome, IfNone};
ghost use Rattle.std.specs.Prelude.{codes, IsSome, IsSomeAnd, MatchOption, None, Some, is_some};
ghost use Rattle.std.specs.List.{filter};
ghost use Rattle.part_events.specs.Words.{Uses, UsesPackage};
ghost use Rattle.xlsx_error.specs.declared.error.XlsxError.TheVariants.{Io};
ghost use Rattle.xlsx_sections.specs.Words.{Answers, ReadsToEnd};
ghost use Rattle.xlsx_parts.specs.Words.{IsBreakError};
ghost use Rattle.xlsx_areas.specs.MergeErrors.{IsRegionsError};
ghost use Rattle.xlsx_areas.specs.MergedCells.{merges_at};
ghost use Rattle.xlsx_areas.specs.Regions.{Region, region_of, regions_look, all_regions_ask};
ghost use Rattle.xlsx_areas.specs.Regions.{regions_left, is_of_sheet};
ghost use Rattle.xlsx_core.specs.Merges.{sheets_of_book, sheet_name_at, path_at, merges_placed};
ghost use Rattle.xlsx_core.specs.Merges.{merges_or_none_placed, PlacedMergesFail};
ghost use Rattle.xlsx_core.specs.Merges.{IsPlacedMergesError, IsIndexError, NumberedMergesFail};
ghost use Rattle.xlsx_core.specs.Merges.{PlacedBreaks, regions_held};
ghost use Rattle.xlsx_core.specs.Opened.{path_lent};
ghost use Rattle.xlsx_core.specs.SheetReading.{events_at, placed_events};
ghost use Rattle.xlsx_core.specs.Worksheets.{path_of, KeepsBook, KeepsWorkbook};

use crate::placed_sheet::{numbered_sheet, path_named};
use crate::sheet_lists::{ReadsSheets, read_sheets};
use crate::table_list::sheet_name;
use crate::xlsx::Xlsx;
use cell_refs::Dimensions;
use part_events::{Package, XlReader};
use xlsx_areas::{
    MergedRegion, MergedRegions, read_merges, read_merges_or_none, read_sheet_regions,
};
use xlsx_error::XlsxError;
use xlsx_open::{PartPath, Sheet};

/// The merged cells of the sheet of this name, whose part is at this path.
fn placed_merges<P: Package>(
    xml: &mut XlReader<P>,
    path: Option<&PartPath>,
    name: &str,
) -> Result<Vec<Dimensions>, XlsxError>
    ensures uses { Uses (placed_events (path_lent path.entry) xml.old.source.parts) Io result
        xml.old.source xml.new.source }
    ensures to_end { IfSome (path_lent path.entry) (λ there.
        ReadsToEnd (codes "mergeCells") there result xml.old.source xml.new.source) }
    ensures merges { xml.old.source.is_visible ≡ true → IfOk result (λ areas.
        merges_placed (path_lent path.entry) xml.old.source.parts ≡ Some areas.items) }
    ensures err { IfErr result (PlacedMergesFail name.now (path_lent path.entry)
        xml.old.source xml.new.source) }
    ensures kind { IfErr result (IsPlacedMergesError name.now) }
{
    let alloc = xml.alloc();
    if let Some(path) = path {
        let path = path.joined(alloc)?;
        if let Some(areas) = read_merges(xml, path.as_str())? {
            return Ok(areas);
        }
    }
    Err(XlsxError::WorksheetNotFound(String::from_str(alloc, name)?))
}

/// The merged cells of the sheet whose part is at this path, and none where what stands in their
/// section refuses them. None where there is no path, or no part at it.
fn placed_merges_or_none<P: Package>(
    xml: &mut XlReader<P>,
    path: Option<&PartPath>,
) -> Option<Result<Vec<Dimensions>, XlsxError>>
    ensures uses { let old = xml.old.source in
        let new = xml.new.source in
        MatchOption result (UsesPackage 0 old new) (λ answer.
        Uses (placed_events (path_lent path.entry) old.parts) Io answer old new) }
    ensures to_end { IfSome (path_lent path.entry) (λ there. IfSome result (λ answer.
        IsSome (merges_at xml.old.source.parts there) →
        ReadsToEnd (codes "mergeCells") there answer xml.old.source xml.new.source)) }
    ensures absent { IfNone result (xml.old.source.is_visible ≡ true →
        events_at (path_lent path.entry) xml.old.source.parts ≡ None) }
    ensures merges { xml.old.source.is_visible ≡ true → IfSome result (λ answer.
        IfOk answer (λ areas.
        merges_or_none_placed (path_lent path.entry) xml.old.source.parts ≡ Some areas.items)) }
    ensures err { IfSome result (λ answer. IfErr answer (PlacedBreaks (path_lent path.entry)
        xml.old.source xml.new.source)) }
    ensures kind { IfSome result (λ answer. IfErr answer IsBreakError) }
{
    let alloc = xml.alloc();
    let path = match path?.joined(alloc) {
        Ok(path) => path,
        Err(error) => return Some(Err(XlsxError::from(error))),
    };
    match read_merges_or_none(xml, path.as_str()) {
        Ok(Some(areas)) => Some(Ok(areas)),
        Ok(None) => None,
        Err(error) => Some(Err(error)),
    }
}

/// Reads the regions of sheets.
#[derive(Drop)]
struct RegionLists;

impl ReadsSheets for RegionLists {
    type Items = Vec<MergedRegion>;

    ghost Kept = { Region };

    ghost held = { λ sheets regions. map region_of regions.items };

    ghost look = { λ r. regions_look };

    ghost Kind = { IsRegionsError };

    ghost memory = { tt };

    fn keep<P: Package>(
        &self,
        xml: &mut XlReader<P>,
        regions: &mut Vec<MergedRegion>,
        sheets: &[Sheet],
        number: usize,
        path: &str,
    ) -> Result<(), XlsxError> {
        read_sheet_regions(xml, regions, sheet_name(sheets, number), path)
    }
}

/// The merged cells of an open workbook.
impl<P: Package> Xlsx<P> {
    /// The merged cells of the first sheet of this name (ECMA-376 part 1, section 18.3.1.55): the
    /// area of each `mergeCell` in the first `mergeCells` of its part that has a `ref`, in order.
    /// Rows and columns are counted from 0. A part without that section has none.
    ///
    /// Fails with `WorksheetNotFound` where no sheet has the name or the first such sheet has no
    /// part. Else an end that breaks the nesting, or a flaw, up to the section's end is
    /// `Xml(Break)`, a part that ends in the section `XmlEof("")`, and a start in it that can't be
    /// looked up, or whose `ref` names no area, has its refusal.
    ///
    /// # Examples
    ///
    /// A line for each of the `areas` that are answered:
    ///
    /// ```
    /// for area in areas {
    ///     push_area_line(&mut out, form, *area)?;
    /// }
    /// ```
    pub fn merge_cells_by_sheet_name(&mut self, name: &str) -> Result<Vec<Dimensions>, XlsxError>
        ensures uses { Uses (placed_events (path_of self.old name.now) self.old.xml.source.parts)
            Io result self.old.xml.source self.new.xml.source }
        ensures to_end { IfSome (path_of self.old name.now) (λ there.
            ReadsToEnd (codes "mergeCells") there result self.old.xml.source self.new.xml.source) }
        ensures rest { KeepsWorkbook self.old self.new }
        ensures merges { self.old.xml.source.is_visible ≡ true → IfOk result (λ areas.
            merges_placed (path_of self.old name.now) self.old.xml.source.parts
            ≡ Some areas.items) }
        ensures err { IfErr result (PlacedMergesFail name.now (path_of self.old name.now)
            self.old.xml.source self.new.xml.source) }
        ensures kind { IfErr result (IsPlacedMergesError name.now) }
    {
        let path = path_named(&self.workbook.metadata.sheets, &self.workbook.paths, name);
        placed_merges(&mut self.xml, path, name)
    }

    /// The merged cells of the sheet at this index, counted from 0, by its name: those of the first
    /// sheet of that name.
    ///
    /// Fails with `WorksheetNotFound("Sheet index N out of range")` past the last sheet, and else
    /// as `merge_cells_by_sheet_name` of the sheet's name.
    pub fn merge_cells_by_sheet_id(&mut self, id: usize) -> Result<Vec<Dimensions>, XlsxError>
        ensures uses { Uses (placed_events (path_at self.old id) self.old.xml.source.parts)
            Io result self.old.xml.source self.new.xml.source }
        ensures to_end { IfSome (path_at self.old id) (λ there.
            ReadsToEnd (codes "mergeCells") there result self.old.xml.source self.new.xml.source) }
        ensures rest { KeepsWorkbook self.old self.new }
        ensures merges { self.old.xml.source.is_visible ≡ true → IfOk result (λ areas.
            merges_placed (path_at self.old id) self.old.xml.source.parts ≡ Some areas.items) }
        ensures err { IfErr result (NumberedMergesFail self.old id self.old.xml.source
            self.new.xml.source) }
        ensures kind { IfErr result (λ error.
            MatchOption (sheet_name_at self.old id) (IsIndexError id error)
            (λ name. IsPlacedMergesError name error)) }
    {
        let sheet = numbered_sheet(self.xml.alloc(), &self.workbook.metadata.sheets, id)?;
        let name = sheet.name.as_str();
        let path = path_named(&self.workbook.metadata.sheets, &self.workbook.paths, name);
        placed_merges(&mut self.xml, path, name)
    }

    /// The merged cells as `merge_cells_by_sheet_name` has them, and none where what stands in
    /// their section refuses them, the part ends in it, or the nesting breaks there. None where no
    /// sheet has the name or the first such sheet has no part.
    ///
    /// Its refusals are `Io`, `OutOfMemory`, and `Xml(Break)` by an end that breaks the nesting, or
    /// a flaw, before the section, or anywhere in a part without one.
    pub fn worksheet_merge_cells(
        &mut self,
        name: &str,
    ) -> Option<Result<Vec<Dimensions>, XlsxError>>
        ensures uses { let old = self.old.xml.source in
            let new = self.new.xml.source in
            MatchOption result (UsesPackage 0 old new) (λ answer.
            Uses (placed_events (path_of self.old name.now) old.parts) Io answer old new) }
        ensures to_end { IfSome (path_of self.old name.now) (λ there. IfSome result (λ answer.
            IsSome (merges_at self.old.xml.source.parts there) →
            ReadsToEnd (codes "mergeCells") there answer self.old.xml.source self.new.xml.source)) }
        ensures absent { IfNone result (self.old.xml.source.is_visible ≡ true →
            events_at (path_of self.old name.now) self.old.xml.source.parts ≡ None) }
        ensures rest { KeepsWorkbook self.old self.new }
        ensures merges { self.old.xml.source.is_visible ≡ true →
            IfSome result (λ answer. IfOk answer (λ areas.
            merges_or_none_placed (path_of self.old name.now) self.old.xml.source.parts ≡ Some
            areas.items)) }
        ensures err { IfSome result (λ answer. IfErr answer
            (PlacedBreaks (path_of self.old name.now) self.old.xml.source self.new.xml.source)) }
        ensures kind { IfSome result (λ answer. IfErr answer IsBreakError) }
    {
        let path = path_named(&self.workbook.metadata.sheets, &self.workbook.paths, name);
        placed_merges_or_none(&mut self.xml, path)
    }

    /// The merged cells of the sheet at this index, counted from 0, by its name, as
    /// `worksheet_merge_cells` has them. None also past the last sheet.
    pub fn worksheet_merge_cells_at(
        &mut self,
        sheet_index: usize,
    ) -> Option<Result<Vec<Dimensions>, XlsxError>>
        ensures uses { let old = self.old.xml.source in
            let new = self.new.xml.source in
            MatchOption result (UsesPackage 0 old new) (λ answer.
            Uses (placed_events (path_at self.old sheet_index) old.parts) Io answer old new) }
        ensures to_end { IfSome (path_at self.old sheet_index) (λ there. IfSome result (λ answer.
            IsSome (merges_at self.old.xml.source.parts there) →
            ReadsToEnd (codes "mergeCells") there answer self.old.xml.source self.new.xml.source)) }
        ensures absent { IfNone result (self.old.xml.source.is_visible ≡ true →
            events_at (path_at self.old sheet_index) self.old.xml.source.parts ≡ None) }
        ensures rest { KeepsWorkbook self.old self.new }
        ensures merges { self.old.xml.source.is_visible ≡ true →
            IfSome result (λ answer. IfOk answer (λ areas.
            merges_or_none_placed (path_at self.old sheet_index) self.old.xml.source.parts
            ≡ Some areas.items)) }
        ensures err { IfSome result (λ answer. IfErr answer
            (PlacedBreaks (path_at self.old sheet_index) self.old.xml.source self.new.xml.source)) }
        ensures kind { IfSome result (λ answer. IfErr answer IsBreakError) }
    {
        let sheet = self.workbook.metadata.sheets.get(sheet_index)?;
        let path = path_named(
            &self.workbook.metadata.sheets,
            &self.workbook.paths,
            sheet.name.as_str(),
        );
        placed_merges_or_none(&mut self.xml, path)
    }

    /// Loads the regions of all sheets in their order: the area of each `mergeCell` start of each
    /// sheet's part (18.3.1.54), wherever it stands there, with the sheet's name and its path. Each
    /// part is read to its end. A sheet whose part is absent has none. What was loaded before is
    /// replaced.
    ///
    /// Fails by an end that breaks the nesting of a part, and by a start that can't be looked up or
    /// whose `ref` names no area. A refusal leaves what was loaded as it was.
    pub fn load_merged_regions(&mut self) -> Result<(), XlsxError>
        ensures answers { let ask = all_regions_ask (sheets_of_book self.old) in
            Answers ask (λ _. regions_held self.new.workbook.lists.regions) result
            self.old.xml.source self.new.xml.source }
        ensures book { KeepsBook self.old self.new }
        ensures loaded { OnOk result (IsSome self.new.workbook.lists.regions) }
        ensures properties { self.new.workbook.lists.properties ≡
            self.old.workbook.lists.properties }
        ensures tables { self.new.workbook.lists.tables ≡ self.old.workbook.lists.tables }
        ensures unchanged { OnErr result (KeepsWorkbook self.old self.new) }
    {
        let sheets = &self.workbook.metadata.sheets;
        let regions = Vec::new(self.xml.alloc());
        let regions = read_sheets(
            &mut self.xml,
            regions,
            sheets,
            &self.workbook.paths,
            &RegionLists,
        )?;
        self.workbook.lists.regions = Some(regions);
        Ok(())
    }

    /// Whether the regions were loaded.
    pub fn merged_regions_loaded(&self) -> bool
        ensures { result ≡ is_some self.now.workbook.lists.regions }
    {
        self.workbook.lists.regions.is_some()
    }

    /// The regions that were loaded, in order. It can be called once `merged_regions_loaded`.
    pub fn merged_regions(&self) -> &[MergedRegion]
        requires { IsSome self.now.workbook.lists.regions }
        ensures { IsSomeAnd self.now.workbook.lists.regions (λ kept. result.now ≡ kept.items) }
    {
        match &self.workbook.lists.regions {
            Some(regions) => regions,
            None => unreachable!(),
        }
    }

    /// Those of the sheets of this name. It can be called once `merged_regions_loaded`.
    ///
    /// # Examples
    ///
    /// Each region of the sheets whose name is the second word:
    ///
    /// ```
    /// for region in xlsx.merged_regions_by_sheet(word(words, 1)) {
    ///     push_region(out, region)?;
    /// }
    /// ```
    pub fn merged_regions_by_sheet<'a>(&'a self, name: &'a str) -> MergedRegions<'a>
        requires { IsSome self.now.workbook.lists.regions }
        ensures { IsSomeAnd self.now.workbook.lists.regions (λ kept.
            regions_left result ≡ filter (is_of_sheet name.now) kept.items) }
    {
        MergedRegions::new(self.merged_regions(), name)
    }
}
