ghost use Rattle.std.specs.Prelude.{◌≡◌, true, false, length, IfOk, IfErr, IsSomeAnd, Some};
ghost use Rattle.std.specs.Prelude.{string_bytes};
ghost use Rattle.part_events.specs.Words.{LentFails, Uses};
ghost use Rattle.xlsx_error.specs.declared.error.XlsxError.TheVariants.{Io};
ghost use Rattle.xlsx_cells.specs.Words.{values_alone, formulas_alone, area_held, stream_by};
ghost use Rattle.xlsx_cells.specs.Words.{context_by, styles_held, styles_alone, reads_children};
ghost use Rattle.xlsx_cells.specs.Words.{value_entries, formula_entries, LieInSheet, stream};
ghost use Rattle.xlsx_cells.specs.Words.{IsStreaming};
ghost use Rattle.cell_data.specs.Words.{cells_gathered};
ghost use Rattle.xlsx_core.specs.ReadCells.{LieOnSheet, ReadsCells};
ghost use Rattle.xlsx_core.specs.SheetReading.{all_wanted, events_at, placed_events, data_events};
ghost use Rattle.xlsx_core.specs.SheetReading.{TakesExactly, PlacedSheetFails, PlacedHeadFails};
ghost use Rattle.xlsx_core.specs.SheetReading.{IsPlacedHeadError, IsPlacedError};
ghost use Rattle.xlsx_core.specs.Worksheets.{path_of, context_of_book, KeepsWorkbook, HoldsWanted};
ghost use Rattle.xlsx_core.specs.Worksheets.{AnswersCells, ReadsValues, ReadsPlaces, LacksPath};
ghost use Rattle.xlsx_core.specs.Worksheets.{ReadsFormulas, RangeFails, IsRangeError, EntersSheet};
ghost use Rattle.xlsx_core.specs.Worksheets.{ReaderFails, ReadsStyles, IsStyleRangeError};
ghost use Rattle.xlsx_core.specs.Worksheets.{palette_of_book};

use crate::as_read::ReadCells;
use crate::placed_sheet::{asked_of, path_named, read_placed, read_range, read_values};
use crate::ranges::{copied_style_range, formula_range, place_range};
use crate::sheet_reading::SheetAnswer;
use crate::workbook::Workbook;
use crate::xlsx::Xlsx;
use cell_data::{Data, DataRef, Range};
use cell_refs::Dimensions;
use cell_styles::StyleRange;
use part_events::Package;
use xlsx_cells::{SheetCells, SheetCursor, Wants, XlsxCellReader};
use xlsx_error::XlsxError;

/// Reading the worksheets of an open workbook.
impl<P: Package> Xlsx<P> {
    /// What is wanted of the first sheet of this name.
    fn placed_cells(&mut self, name: &str, wants: Wants) -> Result<SheetCells, XlsxError>
        ensures uses { Uses (placed_events (path_of self.old name.now) self.old.xml.source.parts)
            Io result self.old.xml.source self.new.xml.source }
        ensures to_end { let count = data_events (path_of self.old name.now)
            self.old.xml.source.parts in
            TakesExactly count result self.old.xml.source self.new.xml.source }
        ensures rest { KeepsWorkbook self.old self.new }
        ensures inside { IfOk result (λ cells.
            LieInSheet (cells_gathered cells.values) (cells_gathered cells.formulas)
            cells.style_ids.items) }
        ensures reads { let path = path_of self.old name.now in
            let context = context_of_book self.old in
            let count = length (palette_of_book self.old) in
            self.old.xml.source.is_visible ≡ true →
            IfOk result (λ cells. IsSomeAnd (events_at path self.old.xml.source.parts)
            (λ events. let values = value_entries (cells_gathered cells.values) in
            HoldsWanted wants context count events values
            (formula_entries (cells_gathered cells.formulas)) cells.style_ids.items)) }
        ensures err { IfErr result (PlacedSheetFails name.now wants (context_of_book self.old)
            (path_of self.old name.now) self.old.xml.source self.new.xml.source) }
        ensures kind { IfErr result (IsPlacedError name.now) }
        ensures plain { reads_children wants ≡ false → IfErr result (IsStyleRangeError name.now) }
    {
        let path = path_named(&self.workbook.metadata.sheets, &self.workbook.paths, name);
        let asked = asked_of(&self.workbook.shared, self.workbook.is_1904, wants);
        read_placed(&mut self.xml, path, name, asked)
    }

    /// What was read of the first sheet of this name, beside what the sheets of the workbook share,
    /// and the package. The workbook is given up.
    pub(crate) fn into_cells(self, name: &str) -> SheetAnswer<P, ReadCells>
        ensures uses { let old = self.xml.source in
            let new = P.state result.package in
            Uses (placed_events (path_of self name.now) old.parts) Io result.result old new }
        ensures to_end { let old = self.xml.source in
            let count = data_events (path_of self name.now) old.parts in
            TakesExactly count result.result old (P.state result.package) }
        ensures inside { IfOk result.result LieOnSheet }
        ensures shared { IfOk result.result (λ read. read.shared ≡ self.workbook.shared) }
        ensures reads { self.xml.source.is_visible ≡ true → IfOk result.result
            (ReadsCells (context_of_book self) (palette_of_book self) (path_of self name.now)
            self.xml.source.parts) }
        ensures err { IfErr result.result (PlacedSheetFails name.now all_wanted
            (context_of_book self) (path_of self name.now) self.xml.source
            (P.state result.package)) }
        ensures kind { IfErr result.result (IsPlacedError name.now) }
    {
        let mut xlsx = self;
        let found = xlsx.placed_cells(name, Wants::ALL);
        let Xlsx { xml, workbook } = xlsx;
        let Workbook { shared, .. } = workbook;
        let result = match found {
            Ok(cells) => Ok(ReadCells { cells, shared }),
            Err(error) => Err(error),
        };
        SheetAnswer {
            result,
            package: xml.into_package(),
        }
    }

    /// What is wanted of the first sheet of this name, and nothing where its part is no worksheet.
    pub(crate) fn worksheet_cells(
        &mut self,
        name: &str,
        wants: Wants,
    ) -> Result<SheetCells, XlsxError>
        ensures uses { Uses (placed_events (path_of self.old name.now) self.old.xml.source.parts)
            Io result self.old.xml.source self.new.xml.source }
        ensures to_end { let count = data_events (path_of self.old name.now)
            self.old.xml.source.parts in
            TakesExactly count result self.old.xml.source self.new.xml.source }
        ensures rest { KeepsWorkbook self.old self.new }
        ensures inside { IfOk result (λ cells.
            LieInSheet (cells_gathered cells.values) (cells_gathered cells.formulas)
            cells.style_ids.items) }
        ensures reads { let path = path_of self.old name.now in
            let context = context_of_book self.old in
            let count = length (palette_of_book self.old) in
            self.old.xml.source.is_visible ≡ true →
            IfOk result (λ cells. IsSomeAnd (events_at path self.old.xml.source.parts)
            (AnswersCells wants context count (value_entries (cells_gathered cells.values))
            (formula_entries (cells_gathered cells.formulas)) cells.style_ids.items)) }
        ensures err { IfErr result (RangeFails name.now wants (context_of_book self.old)
            (path_of self.old name.now) self.old.xml.source self.new.xml.source) }
        ensures kind { IfErr result (IsRangeError name.now) }
    {
        let path = path_named(&self.workbook.metadata.sheets, &self.workbook.paths, name);
        let asked = asked_of(&self.workbook.shared, self.workbook.is_1904, wants);
        read_range(&mut self.xml, path, name, asked)
    }

    /// The values of the first sheet of this name (ECMA-376 part 1, 18.3.1.80) that aren't empty:
    /// the last one of each position, counted from 0. Under `HeaderRow::Row` only the rows from
    /// that one on count, and a range with a value begins with it. Formulas are not read.
    ///
    /// A part that is no worksheet, as that of a chart sheet, has the empty range. Fails with
    /// `WorksheetNotFound` where no sheet has the name or the first such sheet has no part. Else
    /// the first start, row or cell that can't be read gives the refusal.
    ///
    /// # Examples
    ///
    /// How many rows and how many columns the values take:
    ///
    /// ```
    /// let range = xlsx.worksheet_range(name)?;
    /// Ok(range.get_size())
    /// ```
    pub fn worksheet_range(&mut self, name: &str) -> Result<Range<Data>, XlsxError>
        ensures uses { Uses (placed_events (path_of self.old name.now) self.old.xml.source.parts)
            Io result self.old.xml.source self.new.xml.source }
        ensures to_end { let count = data_events (path_of self.old name.now)
            self.old.xml.source.parts in
            TakesExactly count result self.old.xml.source self.new.xml.source }
        ensures rest { KeepsWorkbook self.old self.new }
        ensures reads { let path = path_of self.old name.now in
            self.old.xml.source.is_visible ≡ true → IfOk result
            (ReadsValues (context_of_book self.old) self.old.workbook.header_row path
            self.old.xml.source.parts) }
        ensures err { IfErr result (RangeFails name.now values_alone (context_of_book self.old)
            (path_of self.old name.now) self.old.xml.source self.new.xml.source) }
        ensures kind { IfErr result (IsRangeError name.now) }
    {
        let path = path_named(&self.workbook.metadata.sheets, &self.workbook.paths, name);
        let asked = asked_of(&self.workbook.shared, self.workbook.is_1904, Wants::VALUES);
        let header_row = self.workbook.header_row;
        read_values(&mut self.xml, path, name, asked, header_row)
    }

    /// The values that `worksheet_range` answers, with shared strings by their places, whose texts
    /// `shared_string` has. Refused as `worksheet_range` is.
    pub fn worksheet_range_ref(&mut self, name: &str) -> Result<Range<DataRef>, XlsxError>
        ensures uses { Uses (placed_events (path_of self.old name.now) self.old.xml.source.parts)
            Io result self.old.xml.source self.new.xml.source }
        ensures to_end { let count = data_events (path_of self.old name.now)
            self.old.xml.source.parts in
            TakesExactly count result self.old.xml.source self.new.xml.source }
        ensures rest { KeepsWorkbook self.old self.new }
        ensures reads { let path = path_of self.old name.now in
            self.old.xml.source.is_visible ≡ true → IfOk result
            (ReadsPlaces (context_of_book self.old) self.old.workbook.header_row path
            self.old.xml.source.parts) }
        ensures err { IfErr result (RangeFails name.now values_alone (context_of_book self.old)
            (path_of self.old name.now) self.old.xml.source self.new.xml.source) }
        ensures kind { IfErr result (IsRangeError name.now) }
    {
        let cells = self.worksheet_cells(name, Wants::VALUES)?;
        Ok(place_range(self.xml.alloc(), cells.values, self.workbook.header_row)?)
    }

    /// The formulas of the first sheet of this name (18.3.1.40) that aren't empty, without `=`: the
    /// last one of each position, counted from 0. One of a group is that of its master, moved to
    /// the cell. Values are not read, and the header row doesn't count.
    ///
    /// A part that is no worksheet has the empty range. Refused as `worksheet_range` is, but by
    /// what formulas say in place of values.
    ///
    /// # Examples
    ///
    /// How many cells have a formula:
    ///
    /// ```
    /// let formulas = xlsx.worksheet_formula(name)?;
    /// Ok(formulas.used_count())
    /// ```
    pub fn worksheet_formula(&mut self, name: &str) -> Result<Range<String>, XlsxError>
        ensures uses { Uses (placed_events (path_of self.old name.now) self.old.xml.source.parts)
            Io result self.old.xml.source self.new.xml.source }
        ensures to_end { let count = data_events (path_of self.old name.now)
            self.old.xml.source.parts in
            TakesExactly count result self.old.xml.source self.new.xml.source }
        ensures rest { KeepsWorkbook self.old self.new }
        ensures reads { self.old.xml.source.is_visible ≡ true → IfOk result
            (ReadsFormulas (path_of self.old name.now) self.old.xml.source.parts) }
        ensures err { IfErr result (RangeFails name.now formulas_alone (context_of_book self.old)
            (path_of self.old name.now) self.old.xml.source self.new.xml.source) }
        ensures kind { IfErr result (IsRangeError name.now) }
    {
        let cells = self.worksheet_cells(name, Wants::FORMULAS)?;
        Ok(formula_range(self.xml.alloc(), cells.formulas)?)
    }

    /// The styles of the first sheet of this name, over those of the workbook: the style id of a
    /// position, counted from 0, is the first one there that is above 0 and below the number of
    /// styles (the `s` of 18.3.1.4). What stands in cells is not read, and the header row doesn't
    /// count.
    ///
    /// Fails with `WorksheetNotFound` where no sheet has the name or the first such sheet has no
    /// part, with `NotAWorksheet` where its part is none, and else as
    /// `XlsxCellReader::next_style_id`.
    ///
    /// # Examples
    ///
    /// The color that fills the cell at a position, a row and a column counted from 0:
    ///
    /// ```
    /// let styles = xlsx.worksheet_style(name)?;
    /// let Some(style) = styles.get(position) else {
    ///     return Ok(None);
    /// };
    /// match &style.fill {
    ///     Some(fill) => Ok(fill.get_color()),
    ///     None => Ok(None),
    /// }
    /// ```
    pub fn worksheet_style(&mut self, name: &str) -> Result<StyleRange, XlsxError>
        ensures uses { Uses (placed_events (path_of self.old name.now) self.old.xml.source.parts)
            Io result self.old.xml.source self.new.xml.source }
        ensures to_end { let count = data_events (path_of self.old name.now)
            self.old.xml.source.parts in
            TakesExactly count result self.old.xml.source self.new.xml.source }
        ensures rest { KeepsWorkbook self.old self.new }
        ensures reads { self.old.xml.source.is_visible ≡ true →
            IfOk result (ReadsStyles (palette_of_book self.old)
            (path_of self.old name.now) self.old.xml.source.parts) }
        ensures err { IfErr result (PlacedSheetFails name.now styles_alone
            (context_of_book self.old) (path_of self.old name.now) self.old.xml.source
            self.new.xml.source) }
        ensures kind { IfErr result (IsStyleRangeError name.now) }
    {
        let found = self.placed_cells(name, Wants::STYLES)?;
        let styles = &self.workbook.shared.style_sheet.styles;
        Ok(copied_style_range(self.xml.alloc(), found.style_ids, styles)?)
    }

    /// The name of the part that the first sheet of this name is read from, by the relationships of
    /// the workbook (ECMA-376 part 1, section 18.2.19), whether the package has that part or not.
    ///
    /// Fails with `WorksheetNotFound` where no sheet has the name.
    pub fn worksheet_path(&self, name: &str) -> Result<String, XlsxError>
        ensures path { IfOk result (λ path. path_of self.now name.now ≡ Some (string_bytes path)) }
        ensures err { IfErr result (LacksPath name.now (path_of self.now name.now)) }
    {
        match path_named(&self.workbook.metadata.sheets, &self.workbook.paths, name) {
            Some(path) => Ok(path.joined(self.xml.alloc())?),
            None => Err(XlsxError::WorksheetNotFound(String::from_str(self.xml.alloc(), name)?)),
        }
    }

    /// Enters the data of the first sheet of this name (18.3.1.80), and answers where reading
    /// stands behind their start, and the sheet's dimensions. The workbook is lent for this call
    /// alone, so its clauses say what a refusal leaves. `resume_worksheet` goes on from there.
    ///
    /// Fails with `WorksheetNotFound` where no sheet has the name or the first such sheet has no
    /// part, with `NotAWorksheet` where its part is none, and else as `XlsxCellReader::new`.
    ///
    /// # Examples
    ///
    /// The dimensions of a sheet, none of whose cells is read:
    ///
    /// ```
    /// match opened.xlsx.enter_worksheet(name) {
    ///     Ok((_, dimensions)) => push_area(out, dimensions),
    ///     Err(error) => push_refusal(out, &error),
    /// }
    /// ```
    pub fn enter_worksheet(&mut self, name: &str) -> Result<(SheetCursor, Dimensions), XlsxError>
        ensures uses { Uses (placed_events (path_of self.old name.now) self.old.xml.source.parts)
            Io result self.old.xml.source self.new.xml.source }
        ensures rest { KeepsWorkbook self.old self.new }
        ensures enters { IfOk result (λ entered. EntersSheet (path_of self.old name.now) entered.1
            self.old.xml.source (stream self.new.xml entered.0)) }
        ensures err { IfErr result (PlacedHeadFails name.now (path_of self.old name.now)
            self.old.xml.source self.new.xml.source) }
        ensures kind { IfErr result (IsPlacedHeadError name.now) }
    {
        self.workbook.enter_worksheet(&mut self.xml, name)
    }

    /// A reader of the cells of a sheet of this workbook with these dimensions, that goes on where
    /// reading stands.
    pub fn resume_worksheet<'a>(
        &'a mut self,
        sheet: SheetCursor,
        dimensions: Dimensions,
    ) -> XlsxCellReader<'a, P>
        requires { IsStreaming (stream self.old.xml sheet) }
        ensures context { context_by result ≡ context_of_book self.old }
        ensures styles { styles_held result ≡ palette_of_book self.old }
        ensures dimensions { area_held result ≡ dimensions }
        ensures stream { stream_by result ≡ stream self.old.xml sheet }
    {
        let Xlsx { xml, workbook } = self;
        workbook.resume_worksheet(xml, sheet, dimensions)
    }

    /// A reader of the cells of the first sheet of this name, which stands behind the start of its
    /// data and has taken nothing of them: `enter_worksheet` and then `resume_worksheet`. Whoever
    /// has to know what a refusal leaves makes these two calls.
    ///
    /// It is refused as `enter_worksheet` is.
    ///
    /// # Examples
    ///
    /// The first cell of a sheet, behind which nothing is read:
    ///
    /// ```
    /// let mut reader = xlsx.worksheet_cells_reader(name)?;
    /// reader.next_cell()
    /// ```
    pub fn worksheet_cells_reader<'a>(
        &'a mut self,
        name: &str,
    ) -> Result<XlsxCellReader<'a, P>, XlsxError>
        ensures enters { IfOk result (λ reader. EntersSheet (path_of self.old name.now)
            (area_held reader) self.old.xml.source (stream_by reader)) }
        ensures context { IfOk result (λ reader. context_by reader ≡ context_of_book self.old) }
        ensures styles { IfOk result (λ reader. styles_held reader ≡ palette_of_book self.old) }
        ensures err { IfErr result (ReaderFails name.now (path_of self.old name.now)
            self.old.xml.source) }
        ensures fault { IfErr result (LentFails Io P.state self.old.xml.source) }
        ensures kind { IfErr result (IsPlacedHeadError name.now) }
    {
        let Xlsx { xml, workbook } = self;
        workbook.worksheet_cells_reader(xml, name)
    }
}
