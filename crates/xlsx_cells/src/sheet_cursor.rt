ghost use Rattle.std.specs.Prelude.{◌≡◌, [], length, true, false, IfOk, IfErr, IfSome, IfNone};
ghost use Rattle.part_events.specs.Words.{LeavesPackage, CountsUp, event_count};
ghost use Rattle.xlsx_cells.specs.Head.{IsHeadError, IfNoWorksheet};
ghost use Rattle.xlsx_cells.specs.SheetPart.{EntersData, OpenDataFails};
ghost use Rattle.cell_styles.specs.Words.{is_explicit};
ghost use Rattle.xlsx_error.specs.declared.error.XlsxError.TheVariants.{Io};
ghost use Rattle.xlsx_sections.specs.Words.{HasNoPart};
ghost use Rattle.xlsx_values.specs.Words.{context_of};
ghost use Rattle.xlsx_formulas.specs.Words.{AreMasters};
ghost use Rattle.xlsx_cells.specs.Counting.{AreKept};
ghost use Rattle.xlsx_cells.specs.Ends.{reads_children};
ghost use Rattle.xlsx_cells.specs.CellErrors.{IsStreamError, IsStyledStreamError};
ghost use Rattle.xlsx_cells.specs.Position.{NoCell};
ghost use Rattle.xlsx_cells.specs.Steps.{TakesStep, TakesNext, AskedStepFails};
ghost use Rattle.xlsx_cells.specs.Stream.{stream, IsStreaming, IsRead, IsWritten, LacksUnwanted};
ghost use Rattle.xlsx_cells.specs.Stream.{LacksUnwantedText, seen_with_text, seen_with_formula};
ghost use Rattle.xlsx_cells.specs.StyleSteps.{IsUnstyled, IsStyled, styled_position, StyledFails};

use crate::cell_read::{CellRead, CellText, CellWithFormula, read_cell};
use crate::children::{Asked, Wants};
use crate::counters::Counters;
use crate::finding::find_cell;
use crate::head::enter_data;
use cell_refs::Dimensions;
use part_events::{Package, XlReader};
use xlsx_error::XlsxError;
use xlsx_formulas::{SharedFormulas, covered_area};
use xlsx_values::ValueContext;

/// What reading keeps of a sheet's data beside the reader that stands in them: what counts of the
/// cells that were taken. After the end of the data each call answers None, and after a refusal
/// `Failed`.
///
/// # Examples
///
/// How many of the cells that are left have all that a cell can have:
///
/// ```
/// let mut count = 0u64;
/// 'cells: while let Some(cell) = sheet.next(xml, asked)? {
///     if is_full(&cell) {
///         count = count.saturating_add(1);
///     }
/// }
/// Ok(count)
/// ```
#[derive(Drop)]
pub struct SheetCursor {
    base: usize,
    counters: Counters,
    masters: SharedFormulas,
    done: bool,
    /// Whether a call was refused, or is under way.
    failed: bool,
}

impl SheetCursor {
    /// What is kept where the reader stands behind the start of a sheet's data.
    pub(crate) fn new<P: Package>(xml: &XlReader<P>) -> SheetCursor
        ensures base { result.base ≡ length xml.now.names }
        ensures counters { AreKept [] result.counters }
        ensures masters { AreMasters [] result.masters }
        ensures done { result.done ≡ false }
        ensures failed { result.failed ≡ false }
    {
        SheetCursor {
            base: xml.depth(),
            counters: Counters::new(),
            masters: SharedFormulas::new(xml.alloc()),
            done: false,
            failed: false,
        }
    }

    /// Takes the next cell of the sheet's data, with what is asked for. Answers None at the end of
    /// the data and from then on, and `Failed` after a refusal.
    ///
    /// An `r` that names nothing is refused by the fault of its text. A cell without one past the
    /// last row or column is `RowNumberOverflow` or `ColumnNumberOverflow`. Attributes that end in
    /// a fault before what is looked up in them are `XmlAttr`. Where values or formulas are asked
    /// for, a child other than `v`, `f` and `is` is `UnexpectedNode`. A value that is asked for is
    /// refused as by `read_value` and `read_inline`, and a formula as by `read_formula`.
    ///
    /// Where the part ends before the data do, the refusal is `XmlEof` with the name of an open
    /// element or the empty text, or `Xml(Unclosed)` in an element that is skipped. An end that
    /// breaks the nesting, or a flaw, is `Xml(Break)`. Neither is told where a whole cell is left.
    pub fn next<P: Package>(
        &mut self,
        xml: &mut XlReader<P>,
        asked: Asked<'_>,
    ) -> Result<Option<CellRead>, XlsxError>
        requires { IsStreaming (stream xml.old self.old) }
        ensures step { TakesStep (λ read. read.pos) result
            (stream xml.old self.old) (stream xml.new self.new) }
        ensures takes { let wants = asked.entry.wants in
            let fact = IsRead wants asked.entry.keeps_masters (context_of asked.entry.book) in
            TakesNext NoCell (λ earlier. fact) result
            (stream xml.old self.old) (stream xml.new self.new) }
        ensures unwanted { IfOk result (λ found. IfSome found (LacksUnwanted asked.entry.wants)) }
        ensures err { IfErr result (AskedStepFails asked.entry
            (stream xml.old self.old) (stream xml.new self.new)) }
        ensures kind { IfErr result IsStreamError }
        ensures plain { reads_children asked.entry.wants ≡ false →
            IfErr result IsStyledStreamError }
    {
        if self.failed {
            return Err(XlsxError::Failed);
        }
        if self.done {
            return Ok(None);
        }
        self.failed = true;
        let found = find_cell(xml, self.base, &mut self.counters)?;
        let Some(pos) = found else {
            self.done = true;
            self.failed = false;
            return Ok(None);
        };
        let read = read_cell(xml, asked, pos, &mut self.masters)?;
        self.failed = false;
        Ok(Some(read))
    }

    /// Takes the next cell as `next` does, with its formula and the area that this covers: a
    /// derived one is that of its group, moved to the cell, and isn't written out. The formulas of
    /// groups are kept for later cells.
    pub fn next_with_formula<P: Package>(
        &mut self,
        xml: &mut XlReader<P>,
        asked: Asked<'_>,
    ) -> Result<Option<CellWithFormula>, XlsxError>
        requires { IsStreaming (stream xml.old self.old) }
        ensures step { TakesStep (λ own. own.pos) result
            (stream xml.old self.old) (stream xml.new self.new) }
        ensures takes { let fact = IsWritten asked.entry.wants (context_of asked.entry.book) in
            TakesNext NoCell (λ earlier own. fact earlier (seen_with_formula own)) result
            (stream xml.old self.old) (stream xml.new self.new) }
        ensures unwanted { IfOk result (λ found.
            IfSome found (λ own. LacksUnwantedText asked.entry.wants (seen_with_formula own))) }
        ensures err { IfErr result (AskedStepFails asked.entry
            (stream xml.old self.old) (stream xml.new self.new)) }
        ensures kind { IfErr result IsStreamError }
        ensures plain { reads_children asked.entry.wants ≡ false →
            IfErr result IsStyledStreamError }
    {
        let mut asked = asked;
        asked.keeps_masters = true;
        let Some(read) = self.next(xml, asked)? else {
            return Ok(None);
        };
        let CellRead {
            pos,
            value,
            formula,
            style_id,
        } = read;
        let covers = covered_area(&formula, pos);
        self.failed = true;
        let formula = self.masters.cell_formula(xml.alloc(), formula, pos)?;
        self.failed = false;
        Ok(Some(CellWithFormula {
            pos,
            value,
            formula,
            covers,
            style_id,
        }))
    }

    /// Takes the next cell as `next_with_formula` does, with the text of its formula.
    pub fn next_text<P: Package>(
        &mut self,
        xml: &mut XlReader<P>,
        asked: Asked<'_>,
    ) -> Result<Option<CellText>, XlsxError>
        requires { IsStreaming (stream xml.old self.old) }
        ensures step { TakesStep (λ own. own.pos) result
            (stream xml.old self.old) (stream xml.new self.new) }
        ensures takes { let fact = IsWritten asked.entry.wants (context_of asked.entry.book) in
            TakesNext NoCell (λ earlier own. fact earlier (seen_with_text own)) result
            (stream xml.old self.old) (stream xml.new self.new) }
        ensures unwanted { IfOk result (λ found.
            IfSome found (λ own. LacksUnwantedText asked.entry.wants (seen_with_text own))) }
        ensures err { IfErr result (AskedStepFails asked.entry
            (stream xml.old self.old) (stream xml.new self.new)) }
        ensures kind { IfErr result IsStreamError }
        ensures plain { reads_children asked.entry.wants ≡ false →
            IfErr result IsStyledStreamError }
    {
        let Some(found) = self.next_with_formula(xml, asked)? else {
            return Ok(None);
        };
        let CellWithFormula {
            pos,
            value,
            formula,
            covers,
            style_id,
        } = found;
        self.failed = true;
        let text = formula.into_text(xml.alloc())?;
        self.failed = false;
        Ok(Some(CellText {
            pos,
            value,
            text,
            covers,
            style_id,
        }))
    }

    /// Takes the next cell of the sheet's data whose style id is above 0 and below the number of
    /// styles, and answers its row, its column and this id. Answers None at the end of the data and
    /// from then on, and `Failed` after a refusal.
    ///
    /// Rows and positions are refused as by `next`, and attributes that end in a fault and have no
    /// `s` as `XmlAttr`. What stands in cells is not read. A part that ends in a cell is
    /// `XmlEof("c")`, and one that ends elsewhere in the data `XmlEof("sheetData")`. An end that
    /// breaks the nesting, or a flaw, is `Xml(Break)`, in a cell too. None of these is told where a
    /// whole cell is left whose id counts.
    pub fn next_styled<P: Package>(
        &mut self,
        xml: &mut XlReader<P>,
        book: ValueContext<'_>,
        style_count: usize,
    ) -> Result<Option<(u32, u32, usize)>, XlsxError>
        requires { IsStreaming (stream xml.old self.old) }
        ensures step { TakesStep styled_position result
            (stream xml.old self.old) (stream xml.new self.new) }
        ensures counts { IfOk result (λ found.
            IfSome found (λ own. is_explicit style_count own ≡ true)) }
        ensures takes { TakesNext (IsUnstyled style_count) (λ earlier. IsStyled) result
            (stream xml.old self.old) (stream xml.new self.new) }
        ensures err { IfErr result (StyledFails style_count (stream xml.old self.old) xml.new) }
        ensures kind { IfErr result IsStyledStreamError }
    {
        if self.failed {
            return Err(XlsxError::Failed);
        }
        if self.done {
            return Ok(None);
        }
        let asked = Asked {
            wants: Wants::STYLES,
            book,
            style_count,
            keeps_masters: false,
        };
        'cells: while let Some(read) = self.next(xml, asked)? {
            let CellRead { pos, style_id, .. } = read;
            if 0 < style_id && style_id < style_count {
                return Ok(Some((pos.0, pos.1, style_id)));
            }
        }
        Ok(None)
    }
}

/// Opens the part of a sheet at this path, and reads on behind the start of its data. Answers what
/// is kept of them there, and the sheet's dimensions; None where there is no such part. The head of
/// the part is refused as by `enter_data`.
pub fn open_data<P: Package>(
    xml: &mut XlReader<P>,
    path: &str,
) -> Result<Option<(SheetCursor, Dimensions)>, XlsxError>
    ensures absent { IfOk result (λ found. IfNone found
        (HasNoPart path.now xml.old.source xml.new.source)) }
    ensures enters { IfOk result (λ found. IfSome found (λ entered.
        EntersData path.now entered.1 xml.old.source (stream xml.new entered.0))) }
    ensures leaves { let count = event_count xml.old.source.parts path.now in
        IfErr result (LeavesPackage count Io xml.old.source xml.new.source) }
    ensures err { IfErr result (OpenDataFails path.now xml.old.source xml.new.source) }
    ensures lacks { let old = xml.old.source in
        let all = event_count old.parts path.now in
        old.is_visible ≡ true →
        IfErr result (IfNoWorksheet (CountsUp all old.taken xml.new.source.taken)) }
    ensures kind { IfErr result IsHeadError }
{
    if !xml.open(path)? {
        return Ok(None);
    }
    let dimensions = enter_data(xml)?;
    let sheet = SheetCursor::new(xml);
    Ok(Some((sheet, dimensions)))
}
