ghost use Rattle.std.specs.Prelude.{◌≡◌, ◌<◌, ◌++◌, [], ◌∷◌, filter, true, IfOk, OnOk, IfErr};
ghost use Rattle.cell_refs.specs.declared.TheConstants.{MAX_ROWS, MAX_COLUMNS};
ghost use Rattle.cell_data.specs.Words.{value_of_data_ref, AreInSheet, cells_gathered};
ghost use Rattle.part_events.specs.Words.{ReadsPart};
ghost use Rattle.xlsx_error.specs.declared.error.XlsxError.TheVariants.{Io, OutOfMemory};
ghost use Rattle.xlsx_sections.specs.Words.{ReachesEnd};
ghost use Rattle.xlsx_values.specs.Words.{context_of};
ghost use Rattle.xlsx_cells.specs.CellErrors.{IsCellError};
ghost use Rattle.xlsx_cells.specs.SheetPart.{DataFails};
ghost use Rattle.xlsx_cells.specs.Stream.{stream, IsGoing, StandsBehind, data_ahead};
ghost use Rattle.xlsx_cells.specs.StyledValues.{is_used, styled_entries, HoldsStyledValues};

use crate::cell_read::CellRead;
use crate::children::Asked;
use crate::sheet_cursor::SheetCursor;
use cell_data::{DataRef, GatheredCells};
use part_events::{Package, XlReader};
use xlsx_error::XlsxError;

/// A value with the style id of its cell.
#[derive(Debug, Drop)]
pub struct StyledValue {
    /// A shared string is told by its place.
    pub value: DataRef,
    /// The number of the cell's `s` (ECMA-376 part 1, 18.3.1.4), and 0 without one, whether or not
    /// there is such a style.
    pub style_id: usize,
}

/// Keeps the value of a cell with its style id where it holds one.
fn keep_styled(
    cells: &mut GatheredCells<StyledValue>,
    pos: (u32, u32),
    own: StyledValue,
) -> Result<(), XlsxError>
    requires row { pos.0 < MAX_ROWS }
    requires column { pos.1 < MAX_COLUMNS }
    requires inside { AreInSheet (cells_gathered cells.old) }
    ensures value { let found = filter is_used ((pos, (value_of_data_ref own.value, own.style_id))
        ∷ []) in
        OnOk result (styled_entries (cells_gathered cells.new)
        ≡ styled_entries (cells_gathered cells.old) ++ found) }
    ensures inside { OnOk result (AreInSheet (cells_gathered cells.new)) }
    ensures err { IfErr result (λ error. error ≡ OutOfMemory) }
{
    if matches!(own.value, DataRef::Empty) {
        return Ok(());
    }
    cells.push(pos, own)?;
    Ok(())
}

/// Reads the rest of a sheet's data as `collect` does where values and style ids are asked for, and
/// keeps the values that aren't empty, each with the style id of its cell. Formulas are read where
/// they are asked for, and not kept.
pub fn collect_styled<P: Package>(
    xml: &mut XlReader<P>,
    sheet: &mut SheetCursor,
    asked: Asked<'_>,
) -> Result<GatheredCells<StyledValue>, XlsxError>
    requires values { asked.wants.values ≡ true }
    requires styles { asked.wants.styles ≡ true }
    requires going { IsGoing (stream xml.old sheet.old) }
    requires fresh { StandsBehind [] [] (stream xml.old sheet.old) }
    ensures reads { ReadsPart Io result xml.old xml.new }
    ensures ends { let base = (stream xml.old sheet.old).base in
        xml.old.source.is_visible ≡ true → OnOk result (ReachesEnd base xml.old xml.new) }
    ensures inside { IfOk result (λ cells. AreInSheet (cells_gathered cells)) }
    ensures cells { let old = stream xml.old sheet.old in
        let context = context_of asked.entry.book in
        xml.old.source.is_visible ≡ true → IfOk result (λ cells.
        HoldsStyledValues asked.entry.wants context (data_ahead old)
        (styled_entries (cells_gathered cells))) }
    ensures err { let context = context_of asked.entry.book in
        IfErr result (DataFails asked.entry.wants context
        (stream xml.old sheet.old) (stream xml.new sheet.new)) }
    ensures kind { IfErr result IsCellError }
{
    let mut cells = GatheredCells::new(xml.alloc());
    'cells: while let Some(read) = sheet.next(xml, asked)? {
        let CellRead {
            pos,
            value,
            formula,
            style_id,
        } = read;
        drop(formula);
        keep_styled(&mut cells, pos, StyledValue { value, style_id })?;
    }
    Ok(cells)
}
