ghost use Rattle.std.specs.Prelude.{◌≡◌, true, false, IfOk, IfErr, IsSomeAnd, length, map};
ghost use Rattle.std.specs.Prelude.{string_bytes, slice_get, Some, None};
ghost use Rattle.part_events.specs.Words.{Uses, CountsUp};
ghost use Rattle.xlsx_error.specs.declared.error.XlsxError.TheVariants.{Io};
ghost use Rattle.xlsx_values.specs.Words.{context_of};
ghost use Rattle.cell_data.specs.Words.{cells_gathered};
ghost use Rattle.xlsx_cells.specs.Words.{EntersData, value_entries, formula_entries, LieInSheet};
ghost use Rattle.xlsx_cells.specs.Words.{values_alone, reads_children, IfNoWorksheet, stream};
ghost use Rattle.xlsx_core.specs.Merges.{IsIndexError};
ghost use Rattle.xlsx_core.specs.Opened.{path_listed, path_lent};
ghost use Rattle.xlsx_core.specs.SheetReading.{events_at, placed_events, context_with, data_events};
ghost use Rattle.xlsx_core.specs.SheetReading.{TakesExactly, PlacedHeadFails, PlacedSheetFails};
ghost use Rattle.xlsx_core.specs.SheetReading.{IsPlacedHeadError, IsPlacedError};
ghost use Rattle.xlsx_core.specs.Worksheets.{HoldsWanted, IsStyleRangeError, AnswersCells};
ghost use Rattle.xlsx_core.specs.Worksheets.{ReadsValues, RangeFails, IsRangeError};

use crate::ranges::value_range;
use cell_data::{Data, HeaderRow, Range};
use cell_refs::Dimensions;
use part_events::{Package, XlReader};
use std::alloc::Global;
use xlsx_cells::{Asked, SheetCells, SheetCursor, Wants, collect, open_data};
use xlsx_error::XlsxError;
use xlsx_open::{PartPath, SharedParts, Sheet};
use xlsx_values::ValueContext;

/// The path of the part of the first sheet of this name.
pub fn path_named<'a>(sheets: &[Sheet], paths: &'a [PartPath], name: &str) -> Option<&'a PartPath>
    ensures { path_lent result ≡ path_listed name.now sheets.now paths.now }
{
    let mut rest = paths;
    for sheet in sheets {
        let (path, others) = rest.split_first()?;
        if sheet.name.as_str() == name {
            return Some(path);
        }
        rest = others;
    }
    None
}

/// The sheet at this index, counted from 0.
///
/// Fails with `WorksheetNotFound("Sheet index N out of range")` past the last one.
pub fn numbered_sheet(alloc: Global, sheets: &[Sheet], index: usize) -> Result<&Sheet, XlsxError>
    ensures found { IfOk result (λ sheet. slice_get sheets.now index ≡ Some sheet.now) }
    ensures err { IfErr result (λ error. slice_get sheets.now index ≡ None) }
    ensures kind { IfErr result (IsIndexError index) }
{
    match sheets.get(index) {
        Some(sheet) => Ok(sheet),
        None => {
            let text = format!(in alloc; "Sheet index {index} out of range")?;
            Err(XlsxError::WorksheetNotFound(text))
        }
    }
}

/// Opens the part of the sheet of this name at its path, and reads on behind the start of its
/// data. Answers where reading stands then, and the sheet's dimensions.
///
/// Fails with `WorksheetNotFound` where there is no path, or no part at it.
pub fn open_placed<P: Package>(
    xml: &mut XlReader<P>,
    path: Option<&PartPath>,
    name: &str,
) -> Result<(SheetCursor, Dimensions), XlsxError>
    ensures uses { Uses (placed_events (path_lent path.entry) xml.old.source.parts) Io result
        xml.old.source xml.new.source }
    ensures enters { IfOk result (λ entered. IsSomeAnd (path_lent path.entry) (λ there.
        EntersData there entered.1 xml.old.source (stream xml.new entered.0))) }
    ensures err { IfErr result (PlacedHeadFails name.now (path_lent path.entry)
        xml.old.source xml.new.source) }
    ensures lacks { let old = xml.old.source in
        let all = placed_events (path_lent path.entry) old.parts in
        old.is_visible ≡ true →
        IfErr result (IfNoWorksheet (CountsUp all old.taken xml.new.source.taken)) }
    ensures kind { IfErr result (IsPlacedHeadError name.now) }
{
    let alloc = xml.alloc();
    if let Some(path) = path {
        let path = path.joined(alloc)?;
        if let Some(entered) = open_data(xml, path.as_str())? {
            return Ok(entered);
        }
    }
    Err(XlsxError::WorksheetNotFound(String::from_str(alloc, name)?))
}

/// What is asked for of the sheet of this name, whose part is at this path.
pub fn read_placed<P: Package>(
    xml: &mut XlReader<P>,
    path: Option<&PartPath>,
    name: &str,
    asked: Asked<'_>,
) -> Result<SheetCells, XlsxError>
    ensures uses { Uses (placed_events (path_lent path.entry) xml.old.source.parts) Io result
        xml.old.source xml.new.source }
    ensures to_end { let count = data_events (path_lent path.entry) xml.old.source.parts in
        TakesExactly count result xml.old.source xml.new.source }
    ensures inside { IfOk result (λ cells.
        LieInSheet (cells_gathered cells.values) (cells_gathered cells.formulas)
        cells.style_ids.items) }
    ensures reads { let wants = asked.entry.wants in
        let context = context_of asked.entry.book in
        let path = path_lent path.entry in
        let count = asked.entry.style_count in
        xml.old.source.is_visible ≡ true →
        IfOk result (λ cells. IsSomeAnd (events_at path xml.old.source.parts)
        (λ events. let values = value_entries (cells_gathered cells.values) in
        HoldsWanted wants context count events values
        (formula_entries (cells_gathered cells.formulas)) cells.style_ids.items)) }
    ensures err { IfErr result (PlacedSheetFails name.now asked.entry.wants
        (context_of asked.entry.book) (path_lent path.entry) xml.old.source xml.new.source) }
    ensures lacks { let old = xml.old.source in
        let all = placed_events (path_lent path.entry) old.parts in
        old.is_visible ≡ true →
        IfErr result (IfNoWorksheet (CountsUp all old.taken xml.new.source.taken)) }
    ensures kind { IfErr result (IsPlacedError name.now) }
    ensures plain { reads_children asked.entry.wants ≡ false →
        IfErr result (IsStyleRangeError name.now) }
{
    let (sheet, _) = open_placed(xml, path, name)?;
    let mut sheet = sheet;
    collect(xml, &mut sheet, asked)
}

/// What is asked for of a sheet, over what the sheets share.
pub fn asked_of(shared: &SharedParts, is_1904: bool, wants: Wants) -> Asked<'_>
    ensures context { context_of result.book ≡ context_with
        (map string_bytes shared.now.strings.items) shared.now.style_sheet.formats.items is_1904 }
    ensures wants { result.wants ≡ wants }
    ensures count { result.style_count ≡ length shared.now.style_sheet.styles.items }
    ensures keeps { result.keeps_masters ≡ true }
{
    let book = ValueContext {
        strings: &shared.strings,
        formats: &shared.style_sheet.formats,
        is_1904,
    };
    Asked {
        wants,
        book,
        style_count: shared.style_sheet.styles.len(),
        keeps_masters: true,
    }
}

/// The same as `read_placed`, and nothing where the part is no worksheet.
pub fn read_range<P: Package>(
    xml: &mut XlReader<P>,
    path: Option<&PartPath>,
    name: &str,
    asked: Asked<'_>,
) -> Result<SheetCells, XlsxError>
    ensures uses { Uses (placed_events (path_lent path.entry) xml.old.source.parts) Io result
        xml.old.source xml.new.source }
    ensures to_end { let count = data_events (path_lent path.entry) xml.old.source.parts in
        TakesExactly count result xml.old.source xml.new.source }
    ensures inside { IfOk result (λ cells.
        LieInSheet (cells_gathered cells.values) (cells_gathered cells.formulas)
        cells.style_ids.items) }
    ensures reads { let wants = asked.entry.wants in
        let context = context_of asked.entry.book in
        let path = path_lent path.entry in
        let count = asked.entry.style_count in
        xml.old.source.is_visible ≡ true →
        IfOk result (λ cells. IsSomeAnd (events_at path xml.old.source.parts)
        (AnswersCells wants context count (value_entries (cells_gathered cells.values))
        (formula_entries (cells_gathered cells.formulas)) cells.style_ids.items)) }
    ensures err { IfErr result (RangeFails name.now asked.entry.wants
        (context_of asked.entry.book) (path_lent path.entry) xml.old.source xml.new.source) }
    ensures kind { IfErr result (IsRangeError name.now) }
{
    let alloc = xml.alloc();
    match read_placed(xml, path, name, asked) {
        Ok(cells) => Ok(cells),
        Err(XlsxError::NotAWorksheet(_)) => Ok(SheetCells::new(alloc)),
        Err(error) => Err(error),
    }
}

/// The range of values of the sheet of this name, whose part is at this path.
pub fn read_values<P: Package>(
    xml: &mut XlReader<P>,
    path: Option<&PartPath>,
    name: &str,
    asked: Asked<'_>,
    header_row: HeaderRow,
) -> Result<Range<Data>, XlsxError>
    requires { asked.wants ≡ values_alone }
    ensures uses { Uses (placed_events (path_lent path.entry) xml.old.source.parts) Io result
        xml.old.source xml.new.source }
    ensures to_end { let count = data_events (path_lent path.entry) xml.old.source.parts in
        TakesExactly count result xml.old.source xml.new.source }
    ensures reads { let path = path_lent path.entry in
        xml.old.source.is_visible ≡ true → IfOk result
        (ReadsValues (context_of asked.entry.book) header_row path xml.old.source.parts) }
    ensures err { IfErr result (RangeFails name.now values_alone (context_of asked.entry.book)
        (path_lent path.entry) xml.old.source xml.new.source) }
    ensures kind { IfErr result (IsRangeError name.now) }
{
    let alloc = xml.alloc();
    let cells = read_range(xml, path, name, asked)?;
    Ok(value_range(alloc, cells.values, asked.book.strings, header_row)?)
}
