ghost use Rattle.std.specs.Prelude.{◌≡◌, Some, IfOk, IfErr};
ghost use Rattle.part_events.specs.Words.{LeavesPackage, event_count, ReadsPart};
ghost use Rattle.xlsx_error.specs.declared.error.XlsxError.TheVariants.{Io};
ghost use Rattle.xlsx_sections.specs.Words.{FailsBy};
ghost use Rattle.xlsx_pivot_cache.specs.CacheErrors.{IsCacheFieldsError};
ghost use Rattle.xlsx_pivot_cache.specs.CacheRecords.{OpenRowsCause};
ghost use Rattle.xlsx_pivot_cache.specs.PivotRows.{pivot_rows, IsAtRecords, OpensRows, GivesRow};
ghost use Rattle.xlsx_pivot_cache.specs.PivotRows.{row_answer};
ghost use Rattle.xlsx_pivot_cache.specs.declared.pivot_cursor.RecordsPlace.TheVariants.{Before};
ghost use Rattle.xlsx_pivot_cache.specs.declared.pivot_cursor.RecordsPlace.TheVariants.{Within};

use crate::field::CacheField;
use crate::fields::read_fields;
use crate::rows::{names_row, next_record};
use cell_data::Data;
use part_events::{Package, XlReader};
use xlsx_error::XlsxError;
use xlsx_parts::{find_element, open_part};

/// Where reading stands in the records of a cache.
#[derive(Clone, Copy, Debug)]
pub enum RecordsPlace {
    /// Before their start: nothing was taken of their part.
    Before,
    /// In them: their element is number this of the open ones, counted from 1.
    Within(usize),
    /// Behind their end, or behind a refusal.
    Done,
}

/// The rows of a pivot table's cache, and where reading stands in its records (ECMA-376 part 1,
/// section 18.10.1.69): the names of the fields first, and then a row for each record.
///
/// # Examples
///
/// The reader is lent for this call alone, and gives the package back behind a refusal:
///
/// ```
/// let mut xml = XlReader::new(alloc, package);
/// let mut cursor = match PivotCursor::open(&mut xml, definitions, records) {
///     Ok(cursor) => cursor,
///     Err(error) => {
///         drop(xml.into_package());
///         return Err(ToolError::from(error));
///     }
/// };
/// ```
#[derive(Debug, Drop)]
pub struct PivotCursor {
    fields: Vec<CacheField>,
    place: RecordsPlace,
}

impl PivotCursor {
    /// Reads the fields of a cache, whose definitions are the part at the first path, and opens the
    /// part of its records at the second one, of which nothing is taken.
    ///
    /// The fields are refused as by `read_fields`. A part of records that is absent is
    /// `FileNotFound` of its path.
    pub fn open<P: Package>(
        xml: &mut XlReader<P>,
        definitions: &str,
        records: &str,
    ) -> Result<PivotCursor, XlsxError>
        ensures opens { IfOk result (λ rows.
            OpensRows definitions.now records.now xml.old.source (pivot_rows xml.new rows)) }
        ensures leaves { IfErr result
            (LeavesPackage (event_count xml.old.source.parts definitions.now) Io
            xml.old.source xml.new.source) }
        ensures err { let cause = OpenRowsCause xml.old.source.parts definitions.now records.now in
            IfErr result (FailsBy cause xml.old.source xml.new.source) }
        ensures kind { IfErr result IsCacheFieldsError }
    {
        let fields = read_fields(xml, definitions)?;
        if !open_part(xml, records)? {
            return Err(XlsxError::FileNotFound(String::from_str(xml.alloc(), records)?));
        }
        Ok(PivotCursor {
            fields,
            place: RecordsPlace::Before,
        })
    }

    /// Reads on behind the start of the records, and gives the row of the names.
    fn take_names<P: Package>(&mut self, xml: &mut XlReader<P>) -> Result<Vec<Data>, XlsxError>
        requires at { IsAtRecords (pivot_rows xml.old self.old) }
        requires place { self.old.place ≡ Before }
        ensures at { IsAtRecords (pivot_rows xml.new self.new) }
        ensures fields { self.new.fields ≡ self.old.fields }
        ensures reads { ReadsPart Io result xml.old xml.new }
        ensures gives { GivesRow (Some result) (pivot_rows xml.old self.old)
            (pivot_rows xml.new self.new) }
    {
        // Each refusal leaves it so.
        self.place = RecordsPlace::Done;
        let names = names_row(xml.alloc(), &self.fields)?;
        let Some(_at) = find_element(xml, "pivotCacheRecords")? else {
            return Err(XlsxError::XmlEof("pivotCacheRecords"));
        };
        self.place = RecordsPlace::Within(xml.depth());
        Ok(names)
    }

    /// Gives the row of the next record, whose section is number `base` of the open elements. None
    /// at the section's end.
    fn take_record<P: Package>(
        &mut self,
        xml: &mut XlReader<P>,
        base: usize,
    ) -> Result<Option<Vec<Data>>, XlsxError>
        requires at { IsAtRecords (pivot_rows xml.old self.old) }
        requires place { self.old.place ≡ Within base }
        ensures at { IsAtRecords (pivot_rows xml.new self.new) }
        ensures fields { self.new.fields ≡ self.old.fields }
        ensures reads { ReadsPart Io result xml.old xml.new }
        ensures gives { GivesRow (row_answer result) (pivot_rows xml.old self.old)
            (pivot_rows xml.new self.new) }
    {
        self.place = RecordsPlace::Done;
        let Some(row) = next_record(xml, base, &self.fields)? else {
            return Ok(None);
        };
        self.place = RecordsPlace::Within(base);
        Ok(Some(row))
    }

    /// Gives the next row: that of the names of the fields, as texts, and then a row for each
    /// outermost `r` of the first `pivotCacheRecords`, made from its children. An `x` with `v` is
    /// the item of this number, counted from 0, of the field at its place, and without `v` it is
    /// empty. The elements `s`, `n`, `m`, `e`, `b` and `d` are items themselves, and others take no
    /// place. None behind the end of the records, and behind a refusal, where nothing is read.
    ///
    /// A part without that section, and one that ends in it, is `XmlEof("pivotCacheRecords")`. An
    /// end that breaks the nesting, or a flaw, is `Xml(Break)` with its number in the part, counted
    /// from 0. Attributes that end in a fault and have no `v` are `XmlAttr`. A `v` of an `x` that
    /// is no number of 64 bits, one where no field stands, and one past the items of its field is
    /// `Unexpected` of the text that says so.
    pub fn next<P: Package>(
        &mut self,
        xml: &mut XlReader<P>,
    ) -> Option<Result<Vec<Data>, XlsxError>>
        requires { IsAtRecords (pivot_rows xml.old self.old) }
        ensures at { IsAtRecords (pivot_rows xml.new self.new) }
        ensures fields { self.new.fields ≡ self.old.fields }
        ensures gives { GivesRow result (pivot_rows xml.old self.old)
            (pivot_rows xml.new self.new) }
    {
        match self.place {
            RecordsPlace::Before => Some(self.take_names(xml)),
            RecordsPlace::Within(base) => match self.take_record(xml, base) {
                Ok(Some(row)) => Some(Ok(row)),
                Ok(None) => None,
                Err(error) => Some(Err(error)),
            },
            RecordsPlace::Done => None,
        }
    }
}
