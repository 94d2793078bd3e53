ghost use Rattle.std.specs.Prelude.{IfOk};
ghost use Rattle.cell_data.specs.Words.{value_pairs, formula_pairs};
ghost use Rattle.xlsx_core.specs.SheetReading.{AnswersSheet, ReadsAs, ReadsValuesAs};
ghost use Rattle.xlsx_core.specs.Worksheets.{HasLeastRange, HasLeastRanges};

use crate::as_read::read_cells;
use cell_data::{Data, Range};
use cell_styles::StyleRange;
use part_events::Package;
use std::alloc::Global;
use xlsx_error::XlsxError;

/// What the cells of a sheet hold, each at its row and column, counted from 0.
#[derive(Drop)]
pub struct SheetReading {
    /// The values, in the least area that has them, with `Data::Empty` where a cell has none.
    pub values: Range<Data>,
    /// The formulas, without `=`, in the least area that has them, and empty texts where a cell
    /// has none.
    pub formulas: Range<String>,
    /// The styles, over those of the workbook.
    pub styles: StyleRange,
}

/// What was read of a sheet, or why it was not read, with the package that was handed in.
#[derive(Drop)]
pub struct SheetAnswer<P: Package, T: Drop = SheetReading> {
    pub result: Result<T, XlsxError>,
    pub package: P,
}

/// The values of a sheet, or why they were not read, with the package.
pub type ValuesAnswer<P> = SheetAnswer<P, Range<Data>>;

/// The values, the formulas and the styles of the first sheet of this name, read in one pass over
/// its part (ECMA-376 part 1, section 18.3.1.80).
///
/// Fails as `Xlsx::new` where the workbook doesn't open, and with `WorksheetNotFound` where it has
/// no sheet of this name or the first such sheet no part. Else the first start, row or cell of the
/// part that can't be read gives the refusal. The package is handed back, with the same parts.
/// Where nothing is refused, each section was read to its end and no further.
///
/// # Examples
///
/// How many positions of a sheet have a formula:
///
/// ```
/// let SheetAnswer { result, package } = read_sheet(alloc, package, name);
/// drop(package);
/// match result {
///     Ok(reading) => Ok(reading.formulas.used_count()),
///     Err(error) => Err(error),
/// }
/// ```
pub fn read_sheet<P: Package>(alloc: Global, package: P, name: &str) -> SheetAnswer<P>
    ensures answers { AnswersSheet (λ parts found. ReadsAs parts name.now
        (value_pairs found.values) (formula_pairs found.formulas) found.styles)
        name.now result.result (P.state «package») (P.state result.package) }
    ensures ranges { IfOk result.result HasLeastRanges }
{
    let SheetAnswer { result, package } = read_cells(alloc, package, name);
    let read = match result {
        Ok(read) => read,
        Err(error) => return SheetAnswer {
            result: Err(error),
            package,
        },
    };
    match read.into_ranges(alloc) {
        Ok(found) => SheetAnswer {
            result: Ok(found),
            package,
        },
        Err(error) => SheetAnswer {
            result: Err(XlsxError::from(error)),
            package,
        },
    }
}

/// The values that `read_sheet` reads, which is refused where it is: formulas and styles are read
/// with them in the same pass, and nothing is made of these.
pub fn read_sheet_values<P: Package>(alloc: Global, package: P, name: &str) -> ValuesAnswer<P>
    ensures answers { AnswersSheet
        (λ parts values. ReadsValuesAs parts name.now (value_pairs values))
        name.now result.result (P.state «package») (P.state result.package) }
    ensures range { IfOk result.result HasLeastRange }
{
    let SheetAnswer { result, package } = read_cells(alloc, package, name);
    let read = match result {
        Ok(read) => read,
        Err(error) => return SheetAnswer {
            result: Err(error),
            package,
        },
    };
    match read.into_values(alloc) {
        Ok(values) => SheetAnswer {
            result: Ok(values),
            package,
        },
        Err(error) => SheetAnswer {
            result: Err(XlsxError::from(error)),
            package,
        },
    }
}
