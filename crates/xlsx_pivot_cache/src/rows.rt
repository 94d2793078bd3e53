ghost use Rattle.std.specs.Prelude.{◌≡◌, ◌≤◌, length, true, IfOk, IfErr, IfSome, MatchOption};
ghost use Rattle.part_events.specs.Words.{IsReading, ReadsPart};
ghost use Rattle.xlsx_error.specs.declared.error.XlsxError.TheVariants.{Io};
ghost use Rattle.xlsx_sections.specs.Words.{FailsBy};
ghost use Rattle.xlsx_pivot_cache.specs.CacheErrors.{IsRowError};
ghost use Rattle.xlsx_pivot_cache.specs.CacheFields.{fields_kept};
ghost use Rattle.xlsx_pivot_cache.specs.CacheRecords.{names_row, row_kept};
ghost use Rattle.xlsx_pivot_cache.specs.PivotRows.{TakesRecord, EndsRecords, IsFewer};
ghost use Rattle.xlsx_pivot_cache.specs.PivotRows.{NextRecordCause};

use crate::field::CacheField;
use crate::record::read_record;
use cell_data::Data;
use part_events::{Package, XlReader};
use std::alloc::{AllocError, Global};
use xlsx_error::XlsxError;
use xlsx_sections::next_element_in;

/// The row of the names of fields.
pub(crate) fn names_row(alloc: Global, fields: &[CacheField]) -> Result<Vec<Data>, AllocError>
    ensures { IfOk result (λ row. row_kept row.items ≡ names_row (fields_kept fields.now)) }
{
    let mut row = Vec::new(alloc);
    for field in fields {
        row.push(Data::String(String::from_str(alloc, &field.name)?))?;
    }
    Ok(row)
}

/// Reads the next record of a section of records, whose element is number `base` of the open ones,
/// counted from 1, to its end. None at the section's end.
#[tactic(auto, using(crate::proofs::CacheErrors::row_step))]
pub(crate) fn next_record<P: Package>(
    xml: &mut XlReader<P>,
    base: usize,
    fields: &[CacheField],
) -> Result<Option<Vec<Data>>, XlsxError>
    requires reading { IsReading xml.old }
    requires within { base ≤ length xml.old.names }
    ensures reads { ReadsPart Io result xml.old xml.new }
    ensures within { IfOk result (λ found.
        MatchOption found (Unit {0}) (λ row. base ≤ length xml.new.names)) }
    ensures row { let said = fields_kept fields.now in
        IfOk result (λ found. MatchOption found
        (xml.old.source.is_visible ≡ true → EndsRecords base xml.old xml.new)
        (λ row. TakesRecord said base (row_kept row.items) xml.old xml.new)) }
    ensures step { IfOk result (λ found. IfSome found (λ row. IsFewer xml.old xml.new)) }
    ensures err { IfErr result
        (FailsBy (NextRecordCause (fields_kept fields.now) base xml.old)
        xml.old.source xml.new.source) }
    ensures kind { IfErr result IsRowError }
{
    let Some(_at) = next_element_in(xml, base, &["r"], "pivotCacheRecords")? else {
        return Ok(None);
    };
    let row = read_record(xml, fields)?;
    Ok(Some(row))
}
