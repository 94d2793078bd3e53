ghost use Rattle.std.specs.Prelude.{◌≡◌, ◌<◌, ◌++◌, [], ◌∷◌, filter, true, Ok, IfOk, OnOk, IfErr};
ghost use Rattle.cell_refs.specs.declared.TheConstants.{MAX_ROWS, MAX_COLUMNS};
ghost use Rattle.cell_data.specs.Words.{AreInSheet, cells_gathered};
ghost use Rattle.part_events.specs.Words.{ReadsPart};
ghost use Rattle.xlsx_error.specs.declared.error.XlsxError.TheVariants.{Io, OutOfMemory};
ghost use Rattle.xlsx_sections.specs.Words.{ReachesEnd};
ghost use Rattle.xlsx_values.specs.Words.{context_of};
ghost use Rattle.xlsx_cells.specs.CellErrors.{IsCellError};
ghost use Rattle.xlsx_cells.specs.CoveredFormulas.{is_written, covered_in, covered_meaning};
ghost use Rattle.xlsx_cells.specs.CoveredFormulas.{covered_entries};
ghost use Rattle.xlsx_cells.specs.SheetPart.{DataFails};
ghost use Rattle.xlsx_cells.specs.Stream.{stream, IsGoing, StandsBehind, data_ahead};

use crate::cell_read::CellWithFormula;
use crate::children::Asked;
use crate::sheet_cursor::SheetCursor;
use cell_data::GatheredCells;
use cell_refs::Dimensions;
use part_events::{Package, XlReader};
use xlsx_error::XlsxError;
use xlsx_formulas::CellFormula;

/// A formula with the area that it covers.
#[derive(Debug, Drop)]
pub struct CoveredFormula {
    /// A derived one isn't written out.
    pub formula: CellFormula,
    /// The cells that have its values: those of an array that has the formula's cell, and else that
    /// cell alone (ECMA-376 part 1, 18.3.1.40).
    pub covers: Dimensions,
}

/// Keeps the formula of a cell with the area that it covers where it isn't empty.
fn keep_covered(
    cells: &mut GatheredCells<CoveredFormula>,
    pos: (u32, u32),
    own: CoveredFormula,
) -> Result<(), XlsxError>
    requires row { pos.0 < MAX_ROWS }
    requires column { pos.1 < MAX_COLUMNS }
    requires inside { AreInSheet (cells_gathered cells.old) }
    ensures formula { let found = filter is_written ((pos, covered_meaning own) ∷ []) in
        OnOk result (covered_entries (cells_gathered cells.new)
        ≡ covered_entries (cells_gathered cells.old) ++ found) }
    ensures inside { OnOk result (AreInSheet (cells_gathered cells.new)) }
    ensures err { IfErr result (λ error. error ≡ OutOfMemory) }
{
    if own.formula.is_empty() {
        return Ok(());
    }
    cells.push(pos, own)?;
    Ok(())
}

/// Reads the rest of a sheet's data as `collect` does where formulas are asked for, and keeps the
/// formulas that aren't empty, each with the area that it covers. Values and style ids are read
/// where they are asked for, and not kept.
pub fn collect_covered<P: Package>(
    xml: &mut XlReader<P>,
    sheet: &mut SheetCursor,
    asked: Asked<'_>,
) -> Result<GatheredCells<CoveredFormula>, XlsxError>
    requires formulas { asked.wants.formulas ≡ true }
    requires going { IsGoing (stream xml.old sheet.old) }
    requires fresh { StandsBehind [] [] (stream xml.old sheet.old) }
    ensures reads { ReadsPart Io result xml.old xml.new }
    ensures ends { let base = (stream xml.old sheet.old).base in
        xml.old.source.is_visible ≡ true → OnOk result (ReachesEnd base xml.old xml.new) }
    ensures inside { IfOk result (λ cells. AreInSheet (cells_gathered cells)) }
    ensures cells { let old = stream xml.old sheet.old in
        xml.old.source.is_visible ≡ true → IfOk result (λ cells.
        covered_in (data_ahead old) ≡ Ok (covered_entries (cells_gathered cells))) }
    ensures err { let context = context_of asked.entry.book in
        IfErr result (DataFails asked.entry.wants context
        (stream xml.old sheet.old) (stream xml.new sheet.new)) }
    ensures kind { IfErr result IsCellError }
{
    let mut cells = GatheredCells::new(xml.alloc());
    'cells: while let Some(found) = sheet.next_with_formula(xml, asked)? {
        let CellWithFormula {
            pos,
            value,
            formula,
            covers,
            ..
        } = found;
        drop(value);
        keep_covered(&mut cells, pos, CoveredFormula { formula, covers })?;
    }
    Ok(cells)
}
