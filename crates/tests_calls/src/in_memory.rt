//! A package in memory has no faults and takes no memory, so that each part opens, and no call that
//! lends its reader answers `Io`.

ghost use Rattle.std.specs.Prelude.{◌≡◌, IfErr, IsOk};
ghost use Rattle.part_events.specs.Words.{IsReading};
ghost use Rattle.xlsx_error.specs.declared.error.XlsxError.TheVariants.{Io};

use cell_data::CellFormat;
use cell_styles::Style;
use part_events::{MemoryPackage, StreamError, XlReader};
use xlsx_core::{PivotCacheIter, PivotTables, Xlsx, XlsxCellReader, XlsxError};

/// Opens the part of this name, and answers false where there is none.
#[tactic(auto, using(crate::proofs::InMemory::never_failed))]
pub fn part_in_memory(xml: &mut XlReader<MemoryPackage>, name: &str) -> Result<bool, StreamError>
    ensures { IsOk result }
{
    let found = xml.open(name);
    // What it reads is a package in memory still, whose count of faults is 0.
    xml.holds_package();
    found
}

/// A reader of the cells of the part that `xml` reads.
pub fn cells_in_memory<'a>(
    xml: &'a mut XlReader<MemoryPackage>,
    strings: &'a [String],
    formats: &'a [CellFormat],
    styles: &'a [Style],
) -> Result<XlsxCellReader<'a, MemoryPackage>, XlsxError>
    requires reading { IsReading xml.old }
    requires first { xml.old.at ≡ 0 }
    ensures { IfErr result (λ error. error ≡ Io → ⊥) }
{
    XlsxCellReader::new(xml, strings, formats, styles, false)
}

/// A reader of the cells of the first sheet of this name.
pub fn sheet_in_memory<'a>(
    xlsx: &'a mut Xlsx<MemoryPackage>,
    name: &str,
) -> Result<XlsxCellReader<'a, MemoryPackage>, XlsxError>
    ensures { IfErr result (λ error. error ≡ Io → ⊥) }
{
    xlsx.worksheet_cells_reader(name)
}

/// The rows of the cache whose definitions and records are the parts of these names.
pub fn rows_in_memory<'a>(
    xml: &'a mut XlReader<MemoryPackage>,
    definitions: &str,
    records: &str,
) -> Result<PivotCacheIter<'a, MemoryPackage>, XlsxError>
    ensures { IfErr result (λ error. error ≡ Io → ⊥) }
{
    PivotCacheIter::open(xml, definitions, records)
}

/// The rows of the cache of the first of these pivot tables that has this name on this sheet.
pub fn pivot_rows_in_memory<'a>(
    xlsx: &'a mut Xlsx<MemoryPackage>,
    pivots: &PivotTables,
    sheet: &str,
    name: &str,
) -> Result<PivotCacheIter<'a, MemoryPackage>, XlsxError>
    ensures { IfErr result (λ error. error ≡ Io → ⊥) }
{
    xlsx.pivot_table_data(pivots, sheet, name)
}
