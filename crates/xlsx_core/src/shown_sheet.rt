//! A sheet as a spreadsheet program shows its cells.
ghost use Rattle.std.specs.Prelude.{◌≡◌, true, map, IfOk, IfErr, IsSomeAnd};
ghost use Rattle.cell_data.specs.Words.{value_of_data, AreInSheet, cells_gathered, with_meaning};
ghost use Rattle.cell_data.specs.Words.{value_pairs};
ghost use Rattle.cell_data.specs.declared.value.HeaderRow.TheVariants.{FirstNonEmptyRow};
ghost use Rattle.part_events.specs.Words.{Uses, CountsUp};
ghost use Rattle.sorted_cells.specs.Words.{kept_cells};
ghost use Rattle.xlsx_error.specs.declared.error.XlsxError.TheVariants.{Io};
ghost use Rattle.xlsx_values.specs.Words.{context_of};
ghost use Rattle.xlsx_cells.specs.Words.{IfNoWorksheet, styled_entries};
ghost use Rattle.xlsx_open.specs.Words.{shared_said};
ghost use Rattle.xlsx_core.specs.Opened.{path_lent};
ghost use Rattle.xlsx_core.specs.SheetReading.{AnswersSheet, all_wanted, events_at, placed_events};
ghost use Rattle.xlsx_core.specs.SheetReading.{data_events, TakesExactly, PlacedSheetFails};
ghost use Rattle.xlsx_core.specs.SheetReading.{IsPlacedError};
ghost use Rattle.xlsx_core.specs.ShownSheet.{shown_cells, HasStyledValues, ShowsPlaced, ShownAs};
ghost use Rattle.xlsx_core.specs.Worksheets.{path_of, context_of_book, KeepsWorkbook};
ghost use Rattle.xlsx_core.specs.Worksheets.{HaveSamePlaces, IsValueRange, HasLeastRange};

use crate::placed_sheet::{asked_of, open_placed, path_named};
use crate::ranges::range_of;
use crate::sheet_reading::{SheetAnswer, ValuesAnswer};
use crate::shown_codes::{cell_text, uncut};
use crate::standing::last_below;
use crate::xlsx::{OpenFailure, Xlsx};
use cell_data::{Data, GatheredCells, HeaderRow, Range};
use part_events::{Package, XlReader};
use sorted_cells::SortedCells;
use std::alloc::{AllocError, Global};
use xlsx_cells::{Asked, StyledValue, Wants, collect_styled};
use xlsx_error::XlsxError;
use xlsx_open::{PartPath, SharedParts};

/// The cells with the texts that are shown of them, under the codes of their styles.
pub fn shown_texts(
    alloc: Global,
    cells: SortedCells<StyledValue>,
    shared: &SharedParts,
    is_1904: bool,
) -> Result<SortedCells<Data>, AllocError>
    ensures texts { IfOk result (λ own. map (with_meaning value_of_data) (kept_cells own)
        ≡ shown_cells (shared_said shared.now) is_1904 (styled_entries (kept_cells cells))) }
    ensures places { IfOk result (λ own. HaveSamePlaces (kept_cells cells) (kept_cells own)) }
{
    let mut cut = uncut(alloc, shared)?;
    let mut own = SortedCells::with_capacity(alloc, cells.len())?;
    'cells: for (pos, val) in cells.into_iter() {
        let text = cell_text(alloc, &mut cut, shared, is_1904, val)?;
        own.push(pos, Data::String(text))?;
    }
    Ok(own)
}

/// The range of what is shown of cells. A value in whose place a later one stands isn't shown.
fn shown_range(
    alloc: Global,
    cells: GatheredCells<StyledValue>,
    shared: &SharedParts,
    is_1904: bool,
) -> Result<Range<Data>, AllocError>
    requires { AreInSheet (cells_gathered cells) }
    ensures { IfOk result (IsValueRange FirstNonEmptyRow
        (shown_cells (shared_said shared.now) is_1904 (styled_entries (cells_gathered cells)))) }
{
    let kept = last_below(alloc, cells, HeaderRow::FirstNonEmptyRow)?;
    let own = shown_texts(alloc, kept, shared, is_1904)?;
    Ok(range_of(own, HeaderRow::FirstNonEmptyRow, Data::Empty))
}

/// The values of the sheet of this name, whose part is at this path, each with the style id of its
/// cell. It is refused as `read_placed` is.
pub fn read_styled<P: Package>(
    xml: &mut XlReader<P>,
    path: Option<&PartPath>,
    name: &str,
    asked: Asked<'_>,
) -> Result<GatheredCells<StyledValue>, XlsxError>
    requires values { asked.wants.values ≡ true }
    requires styles { asked.wants.styles ≡ true }
    ensures uses { Uses (placed_events (path_lent path.entry) xml.old.source.parts) Io result
        xml.old.source xml.new.source }
    ensures to_end { let count = data_events (path_lent path.entry) xml.old.source.parts in
        TakesExactly count result xml.old.source xml.new.source }
    ensures inside { IfOk result (λ cells. AreInSheet (cells_gathered cells)) }
    ensures reads { let context = context_of asked.entry.book in
        xml.old.source.is_visible ≡ true → IfOk result (λ cells.
        IsSomeAnd (events_at (path_lent path.entry) xml.old.source.parts) (λ events.
        HasStyledValues asked.entry.wants context events
        (styled_entries (cells_gathered cells)))) }
    ensures err { IfErr result (PlacedSheetFails name.now asked.entry.wants
        (context_of asked.entry.book) (path_lent path.entry) xml.old.source xml.new.source) }
    ensures lacks { let old = xml.old.source in
        let all = placed_events (path_lent path.entry) old.parts in
        old.is_visible ≡ true →
        IfErr result (IfNoWorksheet (CountsUp all old.taken xml.new.source.taken)) }
    ensures kind { IfErr result (IsPlacedError name.now) }
{
    let (sheet, _) = open_placed(xml, path, name)?;
    let mut sheet = sheet;
    collect_styled(xml, &mut sheet, asked)
}

impl<P: Package> Xlsx<P> {
    /// What is shown of the first sheet of this name.
    #[tactic(auto, using(crate::proofs::LeastAreas::least_values))]
    fn shown_values(&mut self, name: &str) -> Result<Range<Data>, XlsxError>
        ensures uses { Uses (placed_events (path_of self.old name.now) self.old.xml.source.parts)
            Io result self.old.xml.source self.new.xml.source }
        ensures to_end { let count = data_events (path_of self.old name.now)
            self.old.xml.source.parts in
            TakesExactly count result self.old.xml.source self.new.xml.source }
        ensures rest { KeepsWorkbook self.old self.new }
        ensures range { IfOk result HasLeastRange }
        ensures shows { let path = path_of self.old name.now in
            self.old.xml.source.is_visible ≡ true → IfOk result (λ range.
            ShowsPlaced all_wanted (context_of_book self.old) (shared_said self.old.workbook.shared)
            self.old.workbook.is_1904 path self.old.xml.source.parts (value_pairs range)) }
        ensures err { IfErr result (PlacedSheetFails name.now all_wanted
            (context_of_book self.old) (path_of self.old name.now) self.old.xml.source
            self.new.xml.source) }
        ensures kind { IfErr result (IsPlacedError name.now) }
    {
        let path = path_named(&self.workbook.metadata.sheets, &self.workbook.paths, name);
        let asked = asked_of(&self.workbook.shared, self.workbook.is_1904, Wants::ALL);
        let cells = read_styled(&mut self.xml, path, name, asked)?;
        Ok(shown_range(
            self.xml.alloc(),
            cells,
            &self.workbook.shared,
            self.workbook.is_1904,
        )?)
    }
}

/// The values that `read_sheet_values` reads, each that isn't empty as the text that a spreadsheet
/// program shows of it: under the code of the number format of its cell's style, and under
/// `General` where the style id names no style or the style no number format (ECMA-376 part 1,
/// sections 18.8.30 and 18.8.31). Of a position the last value stands, under the style of its own
/// cell. A text that is shown may be empty, and its cell is used all the same.
///
/// It is refused where `read_sheet_values` is.
pub fn read_sheet_shown<P: Package>(alloc: Global, package: P, name: &str) -> ValuesAnswer<P>
    ensures answers { AnswersSheet (λ parts values. ShownAs parts name.now (value_pairs values))
        name.now result.result (P.state «package») (P.state result.package) }
    ensures range { IfOk result.result HasLeastRange }
{
    match Xlsx::new(alloc, package) {
        Ok(xlsx) => {
            let mut xlsx = xlsx;
            SheetAnswer {
                result: xlsx.shown_values(name),
                package: xlsx.into_package(),
            }
        }
        Err(OpenFailure { error, package }) => SheetAnswer {
            result: Err(error),
            package,
        },
    }
}
