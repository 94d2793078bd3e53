ghost use Rattle.std.specs.Prelude.{◌≡◌, ◌<◌, ◌++◌, [], ◌∷◌, true, false, IfOk, OnOk, IfErr, All};
ghost use Rattle.std.specs.Prelude.{filter};
ghost use Rattle.cell_refs.specs.declared.TheConstants.{MAX_ROWS, MAX_COLUMNS};
ghost use Rattle.cell_data.specs.Words.{value_of_data_ref, AreInSheet, cells_gathered};
ghost use Rattle.xlsx_cells.specs.Sheet.{used_values, used_formulas};
ghost use Rattle.part_events.specs.Words.{ReadsPart};
ghost use Rattle.xlsx_error.specs.declared.error.XlsxError.TheVariants.{Io, OutOfMemory};
ghost use Rattle.xlsx_sections.specs.Words.{ReachesEnd};
ghost use Rattle.cell_styles.specs.Words.{IsOnSheet, is_explicit};
ghost use Rattle.xlsx_values.specs.Words.{context_of};
ghost use Rattle.xlsx_formulas.specs.Words.{text_of_formula};
ghost use Rattle.xlsx_cells.specs.Ends.{reads_children};
ghost use Rattle.xlsx_cells.specs.CellErrors.{IsCellError, IsStyledError};
ghost use Rattle.xlsx_cells.specs.SheetPart.{DataFails, CollectsCells, value_entries};
ghost use Rattle.xlsx_cells.specs.SheetPart.{formula_entries};
ghost use Rattle.xlsx_cells.specs.Stream.{stream, IsGoing, StandsBehind};

use crate::cell_read::CellWithFormula;
use crate::children::Asked;
use crate::sheet_cursor::SheetCursor;
use cell_data::{DataRef, GatheredCells};
use part_events::{Package, XlReader};
use std::alloc::Global;
use xlsx_error::XlsxError;
use xlsx_formulas::CellFormula;

/// The cells of a sheet's data that hold something, in their order there.
#[derive(Drop)]
pub struct SheetCells {
    /// Those with a value, where values were asked for. Shared strings are told by their places.
    pub values: GatheredCells<DataRef>,
    /// Those with a formula, where formulas were asked for. Derived ones aren't written out.
    pub formulas: GatheredCells<CellFormula>,
    /// The rows, the columns and the style ids of those whose id is above 0 and below the number of
    /// styles, where style ids were asked for.
    pub style_ids: Vec<(u32, u32, usize)>,
}

impl SheetCells {
    /// No cells: nothing was read yet.
    pub fn new(alloc: Global) -> SheetCells
        ensures values { cells_gathered result.values ≡ [] }
        ensures formulas { cells_gathered result.formulas ≡ [] }
        ensures styles { result.style_ids.items ≡ [] }
    {
        SheetCells {
            values: GatheredCells::new(alloc),
            formulas: GatheredCells::new(alloc),
            style_ids: Vec::new(alloc),
        }
    }
}

/// Keeps the value of a cell where it holds one.
fn keep_value(
    cells: &mut GatheredCells<DataRef>,
    pos: (u32, u32),
    value: DataRef,
) -> Result<(), XlsxError>
    requires row { pos.0 < MAX_ROWS }
    requires column { pos.1 < MAX_COLUMNS }
    requires inside { AreInSheet (cells_gathered cells.old) }
    ensures value { let found = used_values ((pos, value_of_data_ref value) ∷ []) in
        OnOk result (value_entries (cells_gathered cells.new)
        ≡ value_entries (cells_gathered cells.old) ++ found) }
    ensures inside { OnOk result (AreInSheet (cells_gathered cells.new)) }
    ensures err { IfErr result (λ error. error ≡ OutOfMemory) }
{
    if matches!(value, DataRef::Empty) {
        return Ok(());
    }
    cells.push(pos, value)?;
    Ok(())
}

/// Keeps the formula of a cell where it has one.
fn keep_formula(
    cells: &mut GatheredCells<CellFormula>,
    pos: (u32, u32),
    formula: CellFormula,
) -> Result<(), XlsxError>
    requires row { pos.0 < MAX_ROWS }
    requires column { pos.1 < MAX_COLUMNS }
    requires inside { AreInSheet (cells_gathered cells.old) }
    ensures formula { let found = used_formulas ((pos, text_of_formula formula) ∷ []) in
        OnOk result (formula_entries (cells_gathered cells.new)
        ≡ formula_entries (cells_gathered cells.old) ++ found) }
    ensures inside { OnOk result (AreInSheet (cells_gathered cells.new)) }
    ensures err { IfErr result (λ error. error ≡ OutOfMemory) }
{
    if formula.is_empty() {
        return Ok(());
    }
    cells.push(pos, formula)?;
    Ok(())
}

/// Keeps the style id of a cell where it counts.
fn keep_id(
    cells: &mut Vec<(u32, u32, usize)>,
    pos: (u32, u32),
    style_id: usize,
    style_count: usize,
) -> Result<(), XlsxError>
    requires row { pos.0 < MAX_ROWS }
    requires column { pos.1 < MAX_COLUMNS }
    requires inside { All IsOnSheet cells.old.items }
    ensures id { let found = filter (is_explicit style_count) ((pos.0, pos.1, style_id) ∷ []) in
        OnOk result (cells.new.items ≡ cells.old.items ++ found) }
    ensures inside { OnOk result (All IsOnSheet cells.new.items) }
    ensures err { IfErr result (λ error. error ≡ OutOfMemory) }
{
    if style_id == 0 || style_count <= style_id {
        return Ok(());
    }
    cells.push((pos.0, pos.1, style_id))?;
    Ok(())
}

/// Reads the rest of a sheet's data, of which nothing was taken yet, to their end. Rows, cells and
/// the end of the part are refused as by `SheetCursor::next`.
pub fn collect<P: Package>(
    xml: &mut XlReader<P>,
    sheet: &mut SheetCursor,
    asked: Asked<'_>,
) -> Result<SheetCells, XlsxError>
    requires going { IsGoing (stream xml.old sheet.old) }
    requires fresh { StandsBehind [] [] (stream xml.old sheet.old) }
    ensures reads { ReadsPart Io result xml.old xml.new }
    ensures ends { let base = (stream xml.old sheet.old).base in
        xml.old.source.is_visible ≡ true → OnOk result (ReachesEnd base xml.old xml.new) }
    ensures cells { IfOk result (CollectsCells asked.entry (stream xml.old sheet.old)) }
    ensures err { let context = context_of asked.entry.book in
        IfErr result (DataFails asked.entry.wants context
        (stream xml.old sheet.old) (stream xml.new sheet.new)) }
    ensures kind { IfErr result IsCellError }
    ensures plain { reads_children asked.entry.wants ≡ false → IfErr result IsStyledError }
{
    let mut cells = SheetCells::new(xml.alloc());
    'cells: while let Some(found) = sheet.next_with_formula(xml, asked)? {
        let CellWithFormula {
            pos,
            value,
            formula,
            style_id,
            ..
        } = found;
        keep_value(&mut cells.values, pos, value)?;
        keep_formula(&mut cells.formulas, pos, formula)?;
        keep_id(&mut cells.style_ids, pos, style_id, asked.style_count)?;
    }
    Ok(cells)
}
