ghost use Rattle.std.specs.Prelude.{◌≡◌, ◌++◌, true, map, codes, Some, IfOk, OnOk, IfErr};
ghost use Rattle.cell_data.specs.Words.{AreInSheet, cells_gathered};
ghost use Rattle.part_events.specs.Words.{Uses, CountsUp, event_count, part_of};
ghost use Rattle.sorted_cells.specs.Words.{kept_cells};
ghost use Rattle.xlsx_error.specs.declared.error.XlsxError.TheVariants.{Io};
ghost use Rattle.xlsx_sections.specs.Words.{Answers, FailsBy, section_events_of};
ghost use Rattle.xlsx_parts.specs.Words.{Appends, IfThere};
ghost use Rattle.xlsx_values.specs.Words.{context_of};
ghost use Rattle.xlsx_cells.specs.Words.{formulas_alone, covered_entries, IfNoWorksheet};
ghost use Rattle.xlsx_cells.specs.Words.{SheetPartCause};
ghost use Rattle.xlsx_core.specs.FormulaList.{NumberedSheet, formula_on, formula_read};
ghost use Rattle.xlsx_core.specs.FormulaList.{path_formulas, formulas_ask, all_formulas_ask};
ghost use Rattle.xlsx_core.specs.FormulaList.{no_context, IsFormulasError};
ghost use Rattle.xlsx_core.specs.Merges.{sheets_of_book, sheet_paths};
ghost use Rattle.xlsx_core.specs.SheetReading.{TakesExactly, IsPartError};
ghost use Rattle.xlsx_core.specs.Worksheets.{KeepsWorkbook, RangePartCause};

use crate::standing::last_below;
use crate::xlsx::Xlsx;
use cell_data::{GatheredCells, HeaderRow};
use cell_refs::Dimensions;
use part_events::{Package, XlReader};
use sorted_cells::SortedCells;
use std::alloc::{AllocError, Global};
use xlsx_cells::{Asked, CoveredFormula, Wants, collect_covered, open_data};
use xlsx_error::XlsxError;
use xlsx_open::{PartPath, Sheet};
use xlsx_values::ValueContext;

/// A formula of a workbook.
#[derive(Debug, Drop)]
pub struct SheetFormula {
    /// The number of its sheet among those of the workbook, counted from 0.
    pub sheet: usize,
    /// The row and the column of its cell, counted from 0.
    pub position: (u32, u32),
    /// The cells that have its values: those of an array, where they have its own cell, and else
    /// that cell alone (ECMA-376 part 1, 18.3.1.40).
    pub covers: Dimensions,
    /// Without `=`, and not empty. One of a group is that of its master, moved to the cell.
    pub text: String,
}

/// What is asked for of a sheet whose formulas alone are wanted, which rest on nothing else.
fn formulas_asked() -> Asked<'static>
    ensures wants { result.wants ≡ formulas_alone }
    ensures context { context_of result.book ≡ no_context }
{
    let book = ValueContext {
        strings: &[],
        formats: &[],
        is_1904: false,
    };
    Asked {
        wants: Wants::FORMULAS,
        book,
        style_count: 0,
        keeps_masters: true,
    }
}

/// The formulas of the sheet whose part is at this path, each with the area that it covers, and
/// none where there is no part.
fn covered_cells<P: Package>(
    xml: &mut XlReader<P>,
    path: &str,
) -> Result<GatheredCells<CoveredFormula>, XlsxError>
    ensures uses { Uses (event_count xml.old.source.parts path.now) Io result
        xml.old.source xml.new.source }
    ensures to_end { let count = section_events_of (codes "sheetData") xml.old.source.parts path.now
        in TakesExactly count result xml.old.source xml.new.source }
    ensures inside { IfOk result (λ cells. AreInSheet (cells_gathered cells)) }
    ensures reads { xml.old.source.is_visible ≡ true → IfOk result (λ cells.
        path_formulas xml.old.source.parts path.now
        ≡ Some (covered_entries (cells_gathered cells))) }
    ensures err { let part = part_of xml.old.source.parts path.now in
        IfErr result (FailsBy (IfThere (SheetPartCause formulas_alone no_context) part)
        xml.old.source xml.new.source) }
    ensures lacks { let old = xml.old.source in
        let all = event_count old.parts path.now in
        old.is_visible ≡ true →
        IfErr result (IfNoWorksheet (CountsUp all old.taken xml.new.source.taken)) }
    ensures kind { IfErr result IsPartError }
{
    let Some((sheet, _)) = open_data(xml, path)? else {
        return Ok(GatheredCells::new(xml.alloc()));
    };
    let mut sheet = sheet;
    collect_covered(xml, &mut sheet, formulas_asked())
}

/// The same, and none where the part is no worksheet.
fn read_covered<P: Package>(
    xml: &mut XlReader<P>,
    path: &str,
) -> Result<GatheredCells<CoveredFormula>, XlsxError>
    ensures uses { Uses (event_count xml.old.source.parts path.now) Io result
        xml.old.source xml.new.source }
    ensures to_end { let count = section_events_of (codes "sheetData") xml.old.source.parts path.now
        in TakesExactly count result xml.old.source xml.new.source }
    ensures inside { IfOk result (λ cells. AreInSheet (cells_gathered cells)) }
    ensures reads { xml.old.source.is_visible ≡ true → IfOk result (λ cells.
        path_formulas xml.old.source.parts path.now
        ≡ Some (covered_entries (cells_gathered cells))) }
    ensures err { let part = part_of xml.old.source.parts path.now in
        IfErr result (FailsBy (IfThere (RangePartCause formulas_alone no_context) part)
        xml.old.source xml.new.source) }
    ensures kind { IfErr result IsFormulasError }
{
    let alloc = xml.alloc();
    match covered_cells(xml, path) {
        Ok(cells) => Ok(cells),
        Err(XlsxError::NotAWorksheet(_)) => Ok(GatheredCells::new(alloc)),
        Err(error) => Err(error),
    }
}

/// Puts formulas of the sheet of this number behind others, each with its text written out.
fn put_formulas(
    alloc: Global,
    items: &mut Vec<SheetFormula>,
    cells: SortedCells<CoveredFormula>,
    number: usize,
) -> Result<(), AllocError>
    ensures { let found = map (formula_on number) (covered_entries (kept_cells cells)) in
        OnOk result (map formula_read items.new.items
        ≡ map formula_read items.old.items ++ found) }
{
    'cells: for (pos, own) in cells.into_iter() {
        let CoveredFormula { formula, covers } = own;
        items.push(SheetFormula {
            sheet: number,
            position: pos,
            covers,
            text: formula.into_text(alloc)?,
        })?;
    }
    Ok(())
}

/// Puts the formulas of the sheet of this number, whose part is at this path, behind others: the
/// last one of each position, row by row. One in whose place a later one stands isn't written out.
fn read_sheet_formulas<P: Package>(
    xml: &mut XlReader<P>,
    items: &mut Vec<SheetFormula>,
    number: usize,
    path: &str,
) -> Result<(), XlsxError>
    ensures { let sheet : NumberedSheet = record { number = number; path = path.now } in
        Appends (formulas_ask sheet) (map formula_read items.old.items)
        (map formula_read items.new.items) result xml.old.source xml.new.source }
{
    let alloc = xml.alloc();
    let cells = read_covered(xml, path)?;
    let kept = last_below(alloc, cells, HeaderRow::FirstNonEmptyRow)?;
    put_formulas(alloc, items, kept, number)?;
    Ok(())
}

/// The formulas of these sheets, whose parts are at these paths, in their order.
fn formulas_listed<P: Package>(
    xml: &mut XlReader<P>,
    sheets: &[Sheet],
    paths: &[PartPath],
) -> Result<Vec<SheetFormula>, XlsxError>
    ensures { let ask = all_formulas_ask (sheet_paths sheets.now paths.now) in
        Answers ask (λ all. map formula_read all.items) result xml.old.source xml.new.source }
{
    let alloc = xml.alloc();
    let mut items = Vec::new(alloc);
    let mut number = 0;
    let mut left = sheets;
    let mut rest = paths;
    'sheets: while let Some((_, others)) = left.split_first() {
        let Some((path, more)) = rest.split_first() else {
            return Ok(items);
        };
        let path = path.joined(alloc)?;
        read_sheet_formulas(xml, &mut items, number, path.as_str())?;
        number += 1;
        left = others;
        rest = more;
    }
    Ok(items)
}

/// The formulas of an open workbook.
impl<P: Package> Xlsx<P> {
    /// The formulas of all sheets (ECMA-376 part 1, 18.3.1.40) that aren't empty, sheet by sheet in
    /// the order of the workbook, and row by row in a sheet: the last one of each position. One of
    /// a group is that of its master, moved to the cell. Each has the area that it covers: that of
    /// its `ref` where its `t` is `array` and `ref` names an area with its cell, and else its cell
    /// alone. Values are not read, and the header row doesn't count.
    ///
    /// Sheets are read by their own parts, also where two have one name. A sheet whose part is
    /// absent, or is no worksheet, as that of a chart sheet, has none.
    ///
    /// Fails by the first start, row or cell that can't be read of the first sheet that has one, as
    /// `worksheet_formula` does of a sheet.
    ///
    /// # Examples
    ///
    /// How many formulas there are:
    ///
    /// ```
    /// let formulas = xlsx.read_formulas()?;
    /// Ok(formulas.len())
    /// ```
    pub fn read_formulas(&mut self) -> Result<Vec<SheetFormula>, XlsxError>
        ensures answers { let ask = all_formulas_ask (sheets_of_book self.old) in
            Answers ask (λ all. map formula_read all.items) result self.old.xml.source
            self.new.xml.source }
        ensures rest { KeepsWorkbook self.old self.new }
    {
        formulas_listed(
            &mut self.xml,
            &self.workbook.metadata.sheets,
            &self.workbook.paths,
        )
    }
}
