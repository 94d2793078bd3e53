//! The cells of a sheet as they came, beside what the sheets of their workbook share.
ghost use Rattle.std.specs.Prelude.{◌≡◌, List, IfOk, filter, length};
ghost use Rattle.cell_data.specs.Words.{cells_gathered};
ghost use Rattle.cell_data.specs.declared.value.HeaderRow.TheVariants.{FirstNonEmptyRow};
ghost use Rattle.cell_styles.specs.Words.{StyledCell, is_explicit, styles_of};
ghost use Rattle.xlsx_cells.specs.Words.{with_texts, value_entries, formula_entries};
ghost use Rattle.xlsx_core.specs.ReadCells.{HoldsCells, LieOnSheet, strings_beside, palette_beside};
ghost use Rattle.xlsx_core.specs.SheetReading.{AnswersSheet};
ghost use Rattle.xlsx_core.specs.Worksheets.{IsValueRange, IsFormulaRange, HasLeastRange};
ghost use Rattle.xlsx_core.specs.Worksheets.{HasLeastRanges};

use crate::ranges::{formula_range, style_range, value_range};
use crate::sheet_reading::{SheetAnswer, SheetReading};
use crate::xlsx::{OpenFailure, Xlsx};
use cell_data::{Data, HeaderRow, Range};
use part_events::Package;
use std::alloc::{AllocError, Global};
use xlsx_cells::SheetCells;
use xlsx_open::SharedParts;

/// The values, the formulas and the style ids of a sheet as they came, and the strings and styles
/// that they name.
#[derive(Drop)]
pub struct ReadCells {
    pub cells: SheetCells,
    pub shared: SharedParts,
}

impl ReadCells {
    /// The cells as ranges: the last value and the last formula of each position, and its first
    /// style id.
    pub fn into_ranges(self, alloc: Global) -> Result<SheetReading, AllocError>
        requires { LieOnSheet self }
        ensures values { IfOk result (λ found. IsValueRange FirstNonEmptyRow
            (with_texts (strings_beside self) (value_entries (cells_gathered self.cells.values)))
            found.values) }
        ensures formulas { IfOk result (λ found.
            IsFormulaRange (formula_entries (cells_gathered self.cells.formulas)) found.formulas) }
        ensures styles { let palette = palette_beside self in
            (all : List StyledCell) →
            self.cells.style_ids.items ≡ filter (is_explicit (length palette)) all →
            IfOk result (λ found. found.styles ≡ styles_of palette all) }
        ensures ranges { IfOk result HasLeastRanges }
    {
        let ReadCells { cells, shared } = self;
        let SharedParts {
            strings,
            style_sheet,
            ..
        } = shared;
        Ok(SheetReading {
            values: value_range(alloc, cells.values, &strings, HeaderRow::FirstNonEmptyRow)?,
            formulas: formula_range(alloc, cells.formulas)?,
            styles: style_range(alloc, cells.style_ids, style_sheet.styles)?,
        })
    }

    /// The range of their values alone.
    #[tactic(auto, using(crate::proofs::LeastAreas::least_values))]
    pub fn into_values(self, alloc: Global) -> Result<Range<Data>, AllocError>
        requires { LieOnSheet self }
        ensures values { IfOk result (IsValueRange FirstNonEmptyRow
            (with_texts (strings_beside self) (value_entries (cells_gathered self.cells.values)))) }
        ensures range { IfOk result HasLeastRange }
    {
        let ReadCells { cells, shared } = self;
        value_range(
            alloc,
            cells.values,
            &shared.strings,
            HeaderRow::FirstNonEmptyRow,
        )
    }
}

/// The cells of the first sheet of this name, read in one pass over its part. It is refused as
/// `read_sheet` is.
pub fn read_cells<P: Package>(alloc: Global, package: P, name: &str) -> SheetAnswer<P, ReadCells>
    ensures answers { AnswersSheet (λ parts. HoldsCells parts name.now)
        name.now result.result (P.state «package») (P.state result.package) }
    ensures inside { IfOk result.result LieOnSheet }
{
    match Xlsx::new(alloc, package) {
        Ok(xlsx) => xlsx.into_cells(name),
        Err(OpenFailure { error, package }) => SheetAnswer {
            result: Err(error),
            package,
        },
    }
}
