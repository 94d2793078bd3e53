//! All that a cell has, in one pass.

ghost use Rattle.std.specs.Prelude.{◌≡◌, OnOk, IfErr};
ghost use Rattle.part_events.specs.Words.{SameParts, KeepsFaults};
ghost use Rattle.xlsx_error.specs.declared.error.XlsxError.TheVariants.{Io};

use cell_data::DataRef;
use part_events::{Package, XlReader};
use xlsx_cells::{Asked, CellRead, Wants, open_data};
use xlsx_error::XlsxError;
use xlsx_values::ValueContext;

/// Whether a cell has a value, a formula and a style other than the first.
fn is_full(cell: &CellRead) -> bool {
    !matches!(cell.value, DataRef::Empty) && cell.formula.is_some() && 0 < cell.style_id
}

/// How many cells of the part at this path have all that a cell can have. A path without a part has
/// none. The reader is lent for this call alone, so it is known what a refusal leaves; the count
/// is tested, and no clause says it.
pub fn full_cells<P: Package>(
    xml: &mut XlReader<P>,
    path: &str,
    book: ValueContext<'_>,
) -> Result<u64, XlsxError>
    ensures keeps { SameParts xml.old.source xml.new.source }
    ensures faults { OnOk result (xml.new.source.faults ≡ xml.old.source.faults) }
    ensures counts { IfErr result (KeepsFaults Io xml.old.source xml.new.source) }
{
    let Some((sheet, _)) = open_data(xml, path)? else {
        return Ok(0);
    };
    let mut sheet = sheet;
    let asked = Asked {
        wants: Wants::ALL,
        book,
        style_count: book.formats.len(),
        keeps_masters: false,
    };
    let mut count = 0u64;
    'cells: while let Some(cell) = sheet.next(xml, asked)? {
        if is_full(&cell) {
            count = count.saturating_add(1);
        }
    }
    Ok(count)
}
