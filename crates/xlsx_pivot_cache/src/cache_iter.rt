ghost use Rattle.std.specs.Prelude.{◌≡◌};

use crate::pivot_cursor::PivotCursor;
use cell_data::Data;
use part_events::{Package, XlReader};
use xlsx_error::XlsxError;

/// The rows of a pivot table's cache, one at a time (ECMA-376 part 1, section 18.10.1.69): the
/// names of its fields first, and then a row for each record. After a refusal it gives None.
///
/// What it keeps beside the reader is a type parameter, so that a caller knows what became of the
/// reader once the iterator is gone. A caller who has to know what became of the reader where a
/// cache can't be opened calls `PivotCursor::open`.
///
/// # Examples
///
/// How many rows there are, those that are refused among them:
///
/// ```
/// match PivotCacheIter::open(xml, word(words, 1), word(words, 2)) {
///     Ok(rows) => {
///         let rows: Vec<Result<Vec<Data>, XlsxError>> = rows.collect(alloc)?;
///         Ok(write!(out, "{}", rows.len())?)
///     }
///     Err(error) => push_refusal(out, &error),
/// }
/// ```
pub struct PivotCacheIter<'a, P: Package, C: Drop = PivotCursor> {
    xml: &'a mut XlReader<P>,
    rows: C,
}

impl<P: Package, C: Drop> Drop for PivotCacheIter<'_, P, C> {
    fn drop(self)
        ensures { self.exit.0.now ≡ self.entry.xml.now }
    {
        let PivotCacheIter { xml: _, rows: _ } = self;
    }
}

impl<'a, P: Package> PivotCacheIter<'a, P> {
    ghost use Rattle.std.specs.Prelude.{IfOk, IfErr};
    ghost use Rattle.part_events.specs.Words.{LentFails};
    ghost use Rattle.xlsx_error.specs.declared.error.XlsxError.TheVariants.{Io};
    ghost use Rattle.xlsx_pivot_cache.specs.CacheErrors.{IsCacheFieldsError};
    ghost use Rattle.xlsx_pivot_cache.specs.CacheIter.{rows_by, rows_reference, OpenCacheFails};
    ghost use Rattle.xlsx_pivot_cache.specs.PivotRows.{OpensRows};

    /// Reads the fields of a cache, whose definitions are the part at the first path, and opens the
    /// part of its records at the second one, as `PivotCursor::open` does, and fails as that does.
    pub fn open(
        xml: &'a mut XlReader<P>,
        definitions: &str,
        records: &str,
    ) -> Result<PivotCacheIter<'a, P>, XlsxError>
        ensures same_reference { IfOk result
            (λ rows. rows_reference rows ≡ xml.entry.ghost_name) }
        ensures opens { IfOk result (λ rows.
            OpensRows definitions.now records.now xml.old.source (rows_by rows)) }
        ensures err { IfErr result (OpenCacheFails definitions.now records.now xml.old.source) }
        ensures fault { IfErr result (LentFails Io P.state xml.old.source) }
        ensures kind { IfErr result IsCacheFieldsError }
    {
        match PivotCursor::open(xml, definitions, records) {
            Ok(rows) => Ok(PivotCacheIter { xml, rows }),
            Err(error) => {
                // Where it is a fault, this package is the one that met it.
                xml.holds_package();
                Err(error)
            }
        }
    }
}

impl<'a, P: Package> Iterator for PivotCacheIter<'a, P> {
    ghost use Rattle.xlsx_pivot_cache.specs.CacheIter.{rows_by, rows_reference, rows_count};
    ghost use Rattle.xlsx_pivot_cache.specs.PivotRows.{IsAtRecords, GivesRow};

    type Item = Result<Vec<Data>, XlsxError>;

    ghost can_next = { λ s. IsAtRecords (rows_by s) };

    ghost next_gives = { λ s result t. (rows_reference t ≡ rows_reference s)
        × GivesRow result (rows_by s) (rows_by t) };

    ghost remaining = { λ s. rows_count (rows_by s) };

    fn next(&mut self) -> Option<Result<Vec<Data>, XlsxError>> {
        self.rows.next(self.xml)
    }
}
