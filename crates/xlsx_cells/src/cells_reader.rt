ghost use Rattle.std.specs.Prelude.{◌≡◌, map, string_bytes, true, false, IfOk, IfErr, IfSome};
ghost use Rattle.std.specs.Prelude.{length, option_map, slice_get};
ghost use Rattle.part_events.specs.Words.{LentFails, IsReading};
ghost use Rattle.cell_styles.specs.Words.{is_explicit};
ghost use Rattle.xlsx_error.specs.declared.error.XlsxError.TheVariants.{Io};
ghost use Rattle.xlsx_values.specs.Words.{context_of};
ghost use Rattle.xlsx_cells.specs.CellErrors.{IsStreamError, IsStyledStreamError};
ghost use Rattle.xlsx_cells.specs.CellsReader.{written_text};
ghost use Rattle.xlsx_cells.specs.Head.{IsHeadError};
ghost use Rattle.xlsx_cells.specs.Position.{NoCell};
ghost use Rattle.xlsx_cells.specs.Steps.{TakesStep, TakesNext};
ghost use Rattle.xlsx_cells.specs.Stream.{stream, IsStreaming, NextCellFails};

use crate::cell_read::{CellRead, CellText};
use crate::cell_records::{XlsxCellFormula, XlsxCellFormulaMetadataRecord};
use crate::children::{Asked, Wants};
use crate::head::enter_data;
use crate::sheet_cursor::SheetCursor;
use cell_data::{Cell, CellFormat, DataRef};
use cell_refs::Dimensions;
use cell_styles::Style;
use part_events::{Package, XlReader};
use xlsx_error::XlsxError;
use xlsx_formulas::metadata_of;
use xlsx_values::ValueContext;

/// A text that isn't empty.
fn written_text(text: String) -> Option<String>
    ensures { option_map string_bytes result ≡ written_text (string_bytes text) }
{
    if text.is_empty() {
        return None;
    }
    Some(text)
}

/// Reads the cells of a sheet, in the order of its data (ECMA-376 part 1, 18.3.1.80).
///
/// What it keeps beside what it borrows is a type parameter, so that a caller knows what became of
/// the reader of the part once the reader of its cells is gone.
///
/// # Examples
///
/// Each cell that is left, with its value and its formula:
///
/// ```
/// let mut cells = Vec::new(alloc);
/// 'cells: while let Some(cell) = reader.next_cell_with_formula()? {
///     cells.push(cell)?;
/// }
/// ```
pub struct XlsxCellReader<'a, P: Package, S: Drop = SheetCursor> {
    xml: &'a mut XlReader<P>,
    strings: &'a [String],
    formats: &'a [CellFormat],
    styles: &'a [Style],
    is_1904: bool,
    dimensions: Dimensions,
    sheet: S,
}

impl<P: Package, S: Drop> Drop for XlsxCellReader<'_, P, S> {
    fn drop(self)
        ensures { self.exit.0.now ≡ self.entry.xml.now }
    {
        let XlsxCellReader {
            xml: _,
            strings: _,
            formats: _,
            styles: _,
            is_1904: _,
            dimensions: _,
            sheet: _,
        } = self;
    }
}

impl<'a, P: Package> XlsxCellReader<'a, P> {
    ghost use Rattle.xlsx_cells.specs.CellsReader.{stream_by, reference_of, context_by, area_held};
    ghost use Rattle.xlsx_cells.specs.CellsReader.{KeepsHold, EntersCells, EnterCellsFails};
    ghost use Rattle.xlsx_cells.specs.CellsReader.{IsValued, IsFormula, values_alone};
    ghost use Rattle.xlsx_cells.specs.CellsReader.{formulas_alone, styles_held, values_and_styles};
    ghost use Rattle.xlsx_cells.specs.CellsReader.{values_and_formulas, IsValuedStyle};
    ghost use Rattle.xlsx_cells.specs.CellsReader.{IsValuedFormula, IsValuedMetadata};
    ghost use Rattle.xlsx_cells.specs.StyleSteps.{IsUnstyled, IsStyled, styled_position};
    ghost use Rattle.xlsx_cells.specs.StyleSteps.{StyledFails};

    /// A reader of the cells of the part that `xml` reads, of which it has taken nothing yet. It
    /// reads on behind the first start of the sheet's data. The values of cells rest on the shared
    /// strings by their places, on the number formats by the numbers of the styles, and on whether
    /// dates count from 1904. A style id counts where it is above 0 and one of the styles has it.
    ///
    /// A `dimension` without `ref` is refused as UnexpectedNode, one whose `ref` names no area by
    /// the fault of that text. Where the part ends before the data, the refusal is NotAWorksheet
    /// with the local name of the part's first start that is no `dimension`, and XmlEof where there
    /// is none; where the nesting breaks before, it is Xml with the number of the end.
    pub fn new(
        xml: &'a mut XlReader<P>,
        strings: &'a [String],
        formats: &'a [CellFormat],
        styles: &'a [Style],
        is_1904: bool,
    ) -> Result<XlsxCellReader<'a, P>, XlsxError>
        requires reading { IsReading xml.old }
        requires first { xml.old.at ≡ 0 }
        ensures same_reference { IfOk result (λ reader.
            reference_of reader ≡ xml.entry.ghost_name) }
        ensures context { IfOk result (λ reader. context_by reader ≡ (record {
          strings = map string_bytes strings.now;
          formats = formats.now;
          is_1904 = is_1904;
        })) }
        ensures styles { IfOk result (λ reader. styles_held reader ≡ styles.now) }
        ensures enters { IfOk result (λ reader.
            EntersCells (area_held reader) xml.old (stream_by reader)) }
        ensures err { IfErr result (EnterCellsFails xml.old) }
        ensures fault { IfErr result (LentFails Io P.state xml.old.source) }
        ensures kind { IfErr result IsHeadError }
    {
        let dimensions = match enter_data(xml) {
            Ok(dimensions) => dimensions,
            Err(error) => {
                // Where it is a fault, this package is the one that met it.
                xml.holds_package();
                return Err(error);
            }
        };
        let sheet = SheetCursor::new(xml);
        Ok(XlsxCellReader {
            xml,
            strings,
            formats,
            styles,
            is_1904,
            dimensions,
            sheet,
        })
    }

    /// A reader of the cells of a sheet with these dimensions, that goes on where reading stands.
    pub fn resume(
        xml: &'a mut XlReader<P>,
        strings: &'a [String],
        formats: &'a [CellFormat],
        styles: &'a [Style],
        is_1904: bool,
        sheet: SheetCursor,
        dimensions: Dimensions,
    ) -> XlsxCellReader<'a, P>
        requires { IsStreaming (stream xml.old sheet) }
        ensures same_reference { reference_of result ≡ xml.entry.ghost_name }
        ensures same { result.xml.now ≡ xml.old }
        ensures context { context_by result ≡ (record {
          strings = map string_bytes strings.now;
          formats = formats.now;
          is_1904 = is_1904;
        }) }
        ensures styles { styles_held result ≡ styles.now }
        ensures dimensions { area_held result ≡ dimensions }
        ensures stream { stream_by result ≡ stream xml.old sheet }
    {
        XlsxCellReader {
            xml,
            strings,
            formats,
            styles,
            is_1904,
            dimensions,
            sheet,
        }
    }

    /// The area of the last `dimension` (18.3.1.35) before the sheet's data, and without one both
    /// ends at row 0 and column 0. Rows and columns count from 0.
    pub fn dimensions(&self) -> Dimensions
        ensures { result ≡ area_held self.now }
    {
        self.dimensions
    }

    /// The styles that the style ids of cells name.
    pub fn styles(&self) -> &[Style]
        ensures { result.now ≡ styles_held self.now }
    {
        self.styles
    }

    /// The shared string at this index, counted from 0.
    pub fn shared_string(&self, index: usize) -> Option<&'a str>
        ensures { option_map (λ text. text.now) result
            ≡ slice_get (context_by self.now).strings index }
    {
        Some(self.strings.get(index)?.as_str())
    }

    /// What the values of cells rest on.
    fn book(&self) -> ValueContext<'a>
        ensures { context_of result ≡ context_by self.now }
    {
        ValueContext {
            strings: self.strings,
            formats: self.formats,
            is_1904: self.is_1904,
        }
    }

    /// What is asked for by a call that wants this.
    fn asked(&self, wants: Wants, keeps_masters: bool) -> Asked<'a>
        ensures wants { result.wants ≡ wants }
        ensures context { context_of result.book ≡ context_by self.now }
        ensures keeps { result.keeps_masters ≡ keeps_masters }
    {
        Asked {
            wants,
            book: self.book(),
            style_count: self.styles.len(),
            keeps_masters,
        }
    }

    /// How often a call of the package failed.
    pub fn faults(&self) -> u64
        ensures { result ≡ (stream_by self.now).reading.source.faults }
    {
        self.xml.faults()
    }

    /// Takes the next cell (18.3.1.4), and answers its position, counted from 0, and its value. A
    /// shared string is its place. Answers None at the end of the sheet's data and from then on.
    /// The formula of a cell that is taken so is no other cell's master.
    ///
    /// An `r` that names nothing is refused by the fault of its text, a cell without one past the
    /// last row or column as RowNumberOverflow or ColumnNumberOverflow, a child other than `v`, `f`
    /// and `is` as UnexpectedNode. A value is refused as CellTAttribute, ParseFloat, CellError,
    /// Unrecognized or Unexpected, by its type. Where the part ends before the data do, the refusal
    /// is XmlEof with the name of an open element, or Xml. After a refusal it is Failed.
    pub fn next_cell(&mut self) -> Result<Option<Cell<DataRef>>, XlsxError>
        requires { IsStreaming (stream_by self.old) }
        ensures hold { KeepsHold self.old self.new }
        ensures step { TakesStep (λ own. own.pos) result (stream_by self.old) (stream_by self.new) }
        ensures takes { TakesNext NoCell (λ earlier. IsValued (context_by self.old)) result
            (stream_by self.old) (stream_by self.new) }
        ensures err { IfErr result (NextCellFails values_alone (context_by self.old)
            (stream_by self.old) (stream_by self.new).reading) }
        ensures kind { IfErr result IsStreamError }
    {
        let asked = self.asked(Wants::VALUES, false);
        let Some(read) = self.sheet.next(self.xml, asked)? else {
            return Ok(None);
        };
        let CellRead { pos, value, .. } = read;
        Ok(Some(Cell::new(pos, value)))
    }

    /// Takes the next cell, and answers its position, counted from 0, and its formula (18.3.1.40),
    /// empty where it has none. A formula of a group is that of its master, moved to the cell.
    /// Answers None at the end of the sheet's data and from then on.
    ///
    /// Positions, children and the end of the part are refused as by `next_cell`; values are not
    /// read. An `si` that is missing or no number is refused as Unexpected, the `ref` of a master
    /// by the fault of its text. After a refusal the refusal is Failed.
    pub fn next_formula(&mut self) -> Result<Option<Cell<String>>, XlsxError>
        requires { IsStreaming (stream_by self.old) }
        ensures hold { KeepsHold self.old self.new }
        ensures step { TakesStep (λ own. own.pos) result (stream_by self.old) (stream_by self.new) }
        ensures takes { TakesNext NoCell IsFormula result
            (stream_by self.old) (stream_by self.new) }
        ensures err { IfErr result (NextCellFails formulas_alone (context_by self.old)
            (stream_by self.old) (stream_by self.new).reading) }
        ensures kind { IfErr result IsStreamError }
    {
        let asked = self.asked(Wants::FORMULAS, true);
        let Some(found) = self.sheet.next_text(self.xml, asked)? else {
            return Ok(None);
        };
        let CellText { pos, text, .. } = found;
        Ok(Some(Cell::new(pos, text)))
    }

    /// Takes the next cell as `next_cell` does, and answers its style id beside it: the number of
    /// its `s`, and 0 without one, whether or not there is such a style.
    ///
    /// It is refused as `next_cell` is.
    pub fn next_cell_with_style_id(&mut self) -> Result<Option<(Cell<DataRef>, usize)>, XlsxError>
        requires { IsStreaming (stream_by self.old) }
        ensures hold { KeepsHold self.old self.new }
        ensures step { TakesStep (λ own. own.0.pos) result
            (stream_by self.old) (stream_by self.new) }
        ensures takes { TakesNext NoCell (λ earlier. IsValuedStyle (context_by self.old)) result
            (stream_by self.old) (stream_by self.new) }
        ensures err { IfErr result (NextCellFails values_and_styles (context_by self.old)
            (stream_by self.old) (stream_by self.new).reading) }
        ensures kind { IfErr result IsStreamError }
    {
        let asked = self.asked(Wants::VALUES_AND_STYLES, false);
        let Some(read) = self.sheet.next(self.xml, asked)? else {
            return Ok(None);
        };
        let CellRead {
            pos,
            value,
            style_id,
            ..
        } = read;
        Ok(Some((Cell::new(pos, value), style_id)))
    }

    /// Takes the next cell, and answers its position, its value and its formula, without `=`: that
    /// of `next_formula`, and None where it is empty.
    ///
    /// It is refused as `next_cell` and `next_formula` are.
    pub fn next_cell_with_formula(&mut self) -> Result<Option<XlsxCellFormula>, XlsxError>
        requires { IsStreaming (stream_by self.old) }
        ensures hold { KeepsHold self.old self.new }
        ensures step { TakesStep (λ own. own.pos) result (stream_by self.old) (stream_by self.new) }
        ensures takes { TakesNext NoCell (IsValuedFormula (context_by self.old)) result
            (stream_by self.old) (stream_by self.new) }
        ensures err { IfErr result (NextCellFails values_and_formulas (context_by self.old)
            (stream_by self.old) (stream_by self.new).reading) }
        ensures kind { IfErr result IsStreamError }
    {
        let asked = self.asked(Wants::VALUES_AND_FORMULAS, true);
        let Some(found) = self.sheet.next_text(self.xml, asked)? else {
            return Ok(None);
        };
        let CellText {
            pos,
            value,
            text,
            ..
        } = found;
        Ok(Some(XlsxCellFormula {
            pos,
            value,
            formula: written_text(text),
        }))
    }

    /// Takes the next cell, and answers its position, its value and what its last `f` says, with no
    /// formula of a group written out. The formulas of a cell that is taken so are no other cell's
    /// masters.
    ///
    /// It is refused as `next_cell` and `next_formula` are.
    pub fn next_cell_with_formula_metadata(
        &mut self,
    ) -> Result<Option<XlsxCellFormulaMetadataRecord>, XlsxError>
        requires { IsStreaming (stream_by self.old) }
        ensures hold { KeepsHold self.old self.new }
        ensures step { TakesStep (λ own. own.pos) result (stream_by self.old) (stream_by self.new) }
        ensures takes { TakesNext NoCell (λ earlier. IsValuedMetadata (context_by self.old)) result
            (stream_by self.old) (stream_by self.new) }
        ensures err { IfErr result (NextCellFails values_and_formulas (context_by self.old)
            (stream_by self.old) (stream_by self.new).reading) }
        ensures kind { IfErr result IsStreamError }
    {
        let asked = self.asked(Wants::VALUES_AND_FORMULAS, false);
        let Some(read) = self.sheet.next(self.xml, asked)? else {
            return Ok(None);
        };
        let CellRead {
            pos,
            value,
            formula,
            ..
        } = read;
        Ok(Some(XlsxCellFormulaMetadataRecord {
            pos,
            value,
            formula: metadata_of(formula),
        }))
    }

    /// Takes the next cell whose style id counts, and answers its row and its column, counted from
    /// 0, and this id: the number of its `s` (18.3.1.4), above 0 and below the number of styles.
    /// Other cells are passed. Answers None where no such cell is left before the end of the
    /// sheet's data, and from then on.
    ///
    /// Rows and positions are refused as by `next_cell`, and attributes that can't be read up to
    /// `s` as XmlAttr. What stands in cells is not read: an end that breaks the nesting is
    /// refused in it too, and a part that ends there as XmlEof. After a refusal the refusal is
    /// Failed.
    pub fn next_style_id(&mut self) -> Result<Option<(u32, u32, usize)>, XlsxError>
        requires { IsStreaming (stream_by self.old) }
        ensures hold { KeepsHold self.old self.new }
        ensures step { TakesStep styled_position result (stream_by self.old) (stream_by self.new) }
        ensures counts { let count = length (styles_held self.old) in
            IfOk result (λ found. IfSome found (λ own. is_explicit count own ≡ true)) }
        ensures takes { let count = length (styles_held self.old) in
            TakesNext (IsUnstyled count) (λ earlier. IsStyled) result
            (stream_by self.old) (stream_by self.new) }
        ensures err { IfErr result (StyledFails (length (styles_held self.old))
            (stream_by self.old) (stream_by self.new).reading) }
        ensures kind { IfErr result IsStyledStreamError }
    {
        let book = self.book();
        self.sheet.next_styled(self.xml, book, self.styles.len())
    }
}
