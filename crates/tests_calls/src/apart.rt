//! A sheet by a reader of its cells, and then a table, of one open workbook that is taken apart.

ghost use Rattle.std.specs.Prelude.{IsSome, IsSomeAnd, IfOk};
ghost use Rattle.xlsx_core.specs.Words.{table_of_book, IsOfTable, KeepsWorkbook};

use cell_data::{Data, Table};
use part_events::{Package, XlReader};
use xlsx_core::{Workbook, Xlsx};
use xlsx_error::XlsxError;

/// Where the first cell of the first sheet of this name is, a row and a column counted from 0. The
/// place is tested, and no clause says it.
fn first_place<P: Package>(
    xml: &mut XlReader<P>,
    workbook: &Workbook,
    name: &str,
) -> Result<Option<(u32, u32)>, XlsxError> {
    let mut reader = workbook.worksheet_cells_reader(xml, name)?;
    match reader.next_cell()? {
        Some(cell) => Ok(Some(cell.pos)),
        None => Ok(None),
    }
}

/// Where the first cell of the first sheet of a name is, and then the first table of a name, whose
/// tables were loaded before. The reader borrows what is known of the workbook, so the tables are
/// still loaded once it is gone, and nothing is asked for again. The workbook is handed back, as it
/// was but for how its package was read.
pub fn first_place_and_table<P: Package>(
    xlsx: Xlsx<P>,
    sheet_name: &str,
    table_name: &str,
) -> (
    Xlsx<P>,
    Result<(Option<(u32, u32)>, Table<Data>), XlsxError>,
)
    requires { IsSome xlsx.workbook.lists.tables }
    ensures kept { KeepsWorkbook xlsx result.0 }
    ensures table { IfOk result.1 (λ read.
        IsSomeAnd (table_of_book xlsx table_name.now) (λ own. IsOfTable own read.1)) }
{
    let (mut xml, workbook) = xlsx.into_parts();
    let place = first_place(&mut xml, &workbook, sheet_name);
    let mut xlsx = Xlsx::from_parts(xml, workbook);
    let table = xlsx.table_by_name(table_name);
    let read = match (place, table) {
        (Ok(place), Ok(table)) => Ok((place, table)),
        (Err(error), _) | (_, Err(error)) => Err(error),
    };
    (xlsx, read)
}
