//! The data of tables as a spreadsheet program shows them.
ghost use Rattle.std.specs.Prelude.{◌≡◌, true, None, IfOk, IfErr, IsSome, IsSomeAnd};
ghost use Rattle.cell_data.specs.Words.{nothing, value_of_data, AreInSheet, cells_gathered};
ghost use Rattle.cell_data.specs.Words.{bounds_of, table_data};
ghost use Rattle.cell_refs.specs.Words.{are_sheet_bounds, is_sheet_area};
ghost use Rattle.part_events.specs.Words.{Uses};
ghost use Rattle.xlsx_error.specs.declared.error.XlsxError.TheVariants.{Io};
ghost use Rattle.xlsx_values.specs.Words.{context_of};
ghost use Rattle.xlsx_cells.specs.Words.{values_and_styles, styled_entries};
ghost use Rattle.xlsx_open.specs.Words.{shared_said};
ghost use Rattle.xlsx_core.specs.Opened.{path_lent};
ghost use Rattle.xlsx_core.specs.SheetReading.{events_at, placed_events, data_events, TakesExactly};
ghost use Rattle.xlsx_core.specs.ShownSheet.{shown_cells};
ghost use Rattle.xlsx_core.specs.ShownTable.{AnswersStyledValues, ShowsValuesIn};
ghost use Rattle.xlsx_core.specs.TableData.{table_of_book, area_of_book, IsOfTable, IsRangeIn};
ghost use Rattle.xlsx_core.specs.TableData.{AreaFails, TableDataFails, IsTableDataError};
ghost use Rattle.xlsx_core.specs.TableData.{area_events, table_data_events, area_data_events};
ghost use Rattle.xlsx_core.specs.TableData.{table_ends};
ghost use Rattle.xlsx_core.specs.Worksheets.{path_of, context_of_book, KeepsWorkbook, RangeFails};
ghost use Rattle.xlsx_core.specs.Worksheets.{IsRangeError};

use crate::placed_sheet::{asked_of, path_named};
use crate::shown_sheet::{read_styled, shown_texts};
use crate::standing::last_in_area;
use crate::xlsx::Xlsx;
use cell_data::{Data, GatheredCells, HeaderRow, Range, Table};
use cell_refs::Dimensions;
use part_events::{Package, XlReader};
use std::alloc::{AllocError, Global};
use xlsx_cells::{Asked, StyledValue, Wants};
use xlsx_error::XlsxError;
use xlsx_open::{PartPath, SharedParts};

/// What is shown in an area, of which the header row cuts off what stands above it. A value that
/// stands elsewhere, or in whose place a later one stands, isn't shown.
fn shown_in_area(
    alloc: Global,
    cells: GatheredCells<StyledValue>,
    shared: &SharedParts,
    is_1904: bool,
    header_row: HeaderRow,
    area: Dimensions,
) -> Result<Range<Data>, AllocError>
    requires sheet { AreInSheet (cells_gathered cells) }
    requires area { is_sheet_area area ≡ true }
    ensures { IfOk result (IsRangeIn value_of_data header_row area
        (shown_cells (shared_said shared.now) is_1904 (styled_entries (cells_gathered cells)))
        nothing) }
{
    let kept = last_in_area(alloc, cells, header_row, area)?;
    let own = shown_texts(alloc, kept, shared, is_1904)?;
    Ok(Range::in_area(own, Some(area), Data::Empty))
}

/// The same as `read_styled`, and nothing where the part is no worksheet.
fn read_styled_range<P: Package>(
    xml: &mut XlReader<P>,
    path: Option<&PartPath>,
    name: &str,
    asked: Asked<'_>,
) -> Result<GatheredCells<StyledValue>, XlsxError>
    requires values { asked.wants.values ≡ true }
    requires styles { asked.wants.styles ≡ true }
    ensures uses { Uses (placed_events (path_lent path.entry) xml.old.source.parts) Io result
        xml.old.source xml.new.source }
    ensures to_end { let count = data_events (path_lent path.entry) xml.old.source.parts in
        TakesExactly count result xml.old.source xml.new.source }
    ensures inside { IfOk result (λ cells. AreInSheet (cells_gathered cells)) }
    ensures reads { let context = context_of asked.entry.book in
        xml.old.source.is_visible ≡ true → IfOk result (λ cells.
        IsSomeAnd (events_at (path_lent path.entry) xml.old.source.parts) (λ events.
        AnswersStyledValues asked.entry.wants context events
        (styled_entries (cells_gathered cells)))) }
    ensures err { IfErr result (RangeFails name.now asked.entry.wants
        (context_of asked.entry.book) (path_lent path.entry) xml.old.source xml.new.source) }
    ensures kind { IfErr result (IsRangeError name.now) }
{
    let alloc = xml.alloc();
    match read_styled(xml, path, name, asked) {
        Ok(cells) => Ok(cells),
        Err(XlsxError::NotAWorksheet(_)) => Ok(GatheredCells::new(alloc)),
        Err(error) => Err(error),
    }
}

/// The data of tables, as they are shown.
impl<P: Package> Xlsx<P> {
    /// The values of the first sheet of this name, each with the style id of its cell, and none
    /// where its part is no worksheet.
    fn worksheet_styled(&mut self, name: &str) -> Result<GatheredCells<StyledValue>, XlsxError>
        ensures uses { Uses (placed_events (path_of self.old name.now) self.old.xml.source.parts)
            Io result self.old.xml.source self.new.xml.source }
        ensures to_end { let count = data_events (path_of self.old name.now)
            self.old.xml.source.parts in
            TakesExactly count result self.old.xml.source self.new.xml.source }
        ensures rest { KeepsWorkbook self.old self.new }
        ensures inside { IfOk result (λ cells. AreInSheet (cells_gathered cells)) }
        ensures reads { let path = path_of self.old name.now in
            let context = context_of_book self.old in
            self.old.xml.source.is_visible ≡ true →
            IfOk result (λ cells. IsSomeAnd (events_at path self.old.xml.source.parts)
            (λ events. AnswersStyledValues values_and_styles context events
            (styled_entries (cells_gathered cells)))) }
        ensures err { IfErr result (RangeFails name.now values_and_styles
            (context_of_book self.old) (path_of self.old name.now) self.old.xml.source
            self.new.xml.source) }
        ensures kind { IfErr result (IsRangeError name.now) }
    {
        let path = path_named(&self.workbook.metadata.sheets, &self.workbook.paths, name);
        let asked = asked_of(
            &self.workbook.shared,
            self.workbook.is_1904,
            Wants::VALUES_AND_STYLES,
        );
        read_styled_range(&mut self.xml, path, name, asked)
    }

    /// What is shown in this area of the first sheet of this name. Without an area nothing is
    /// read.
    fn shown_in(&mut self, sheet: &str, area: Option<Dimensions>) -> Result<Range<Data>, XlsxError>
        requires { are_sheet_bounds area ≡ true }
        ensures uses { let most = area_events area (path_of self.old sheet.now)
            self.old.xml.source.parts in
            Uses most Io result self.old.xml.source self.new.xml.source }
        ensures to_end { let count = area_data_events area (path_of self.old sheet.now)
            self.old.xml.source.parts in
            TakesExactly count result self.old.xml.source self.new.xml.source }
        ensures rest { KeepsWorkbook self.old self.new }
        ensures unread { area ≡ None → self.new.xml.source ≡ self.old.xml.source }
        ensures bounds { IfOk result (λ range. bounds_of range ≡ area) }
        ensures shows { self.old.xml.source.is_visible ≡ true →
            IfOk result (ShowsValuesIn (context_of_book self.old)
            (shared_said self.old.workbook.shared) self.old.workbook.is_1904
            self.old.workbook.header_row area (path_of self.old sheet.now)
            self.old.xml.source.parts) }
        ensures err { IfErr result (AreaFails values_and_styles self.old sheet.now area
            self.old.xml.source self.new.xml.source) }
        ensures kind { IfErr result (IsRangeError sheet.now) }
    {
        let Some(area) = area else {
            return Ok(Range::from_sparse(
                self.xml.alloc(),
                Vec::new(self.xml.alloc()),
                Data::Empty,
            )?);
        };
        let cells = self.worksheet_styled(sheet)?;
        let alloc = self.xml.alloc();
        let header_row = self.workbook.header_row;
        Ok(shown_in_area(
            alloc,
            cells,
            &self.workbook.shared,
            self.workbook.is_1904,
            header_row,
            area,
        )?)
    }

    /// The table that `table_by_name` answers, each value that isn't empty as the text that a
    /// spreadsheet program shows of it, as `read_sheet_shown` has it for the table's sheet. It can
    /// be called once `tables_loaded`.
    ///
    /// It is refused as `table_by_name` is: a style id that is no number counts for none.
    pub fn table_by_name_shown(&mut self, table_name: &str) -> Result<Table<Data>, XlsxError>
        requires { IsSome self.old.workbook.lists.tables }
        ensures uses { let most = table_data_events self.old table_name.now
            self.old.xml.source.parts in
            Uses most Io result self.old.xml.source self.new.xml.source }
        ensures to_end { let count = table_ends self.old table_name.now self.old.xml.source.parts in
            TakesExactly count result self.old.xml.source self.new.xml.source }
        ensures rest { KeepsWorkbook self.old self.new }
        ensures unread { area_of_book self.old table_name.now ≡ None →
            self.new.xml.source ≡ self.old.xml.source }
        ensures table { IfOk result (λ table.
            IsSomeAnd (table_of_book self.old table_name.now) (λ own. IsOfTable own table)) }
        ensures shows { self.old.xml.source.is_visible ≡ true → IfOk result (λ table.
            IsSomeAnd (table_of_book self.old table_name.now) (λ own.
            ShowsValuesIn (context_of_book self.old) (shared_said self.old.workbook.shared)
            self.old.workbook.is_1904 self.old.workbook.header_row own.table.area
            (path_of self.old own.sheet) self.old.xml.source.parts (table_data table))) }
        ensures err { IfErr result (TableDataFails values_and_styles self.old table_name.now
            self.old.xml.source self.new.xml.source) }
        ensures kind { IfErr result (IsTableDataError self.old table_name.now) }
    {
        let head = self.table_head(table_name)?;
        let data = self.shown_in(head.sheet.as_str(), head.area)?;
        Ok(Table::new(head.name, head.sheet, head.columns, data))
    }
}
