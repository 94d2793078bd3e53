ghost use Rattle.std.specs.Prelude.{IfOk, IfErr, IsSomeAnd};
ghost use Rattle.std.specs.Arc.{arc_str_bytes};
ghost use Rattle.part_events.specs.Words.{LentFails};
ghost use Rattle.xlsx_error.specs.declared.error.XlsxError.TheVariants.{Io};
ghost use Rattle.xlsx_sections.specs.Words.{Answers};
ghost use Rattle.xlsx_pivots.specs.Words.{IsPivotsError, pivots_kept, paths_of, PivotSaid};
ghost use Rattle.xlsx_pivots.specs.Words.{pivots_ask, pivots_on_look};
ghost use Rattle.xlsx_core.specs.Merges.{sheets_of_book};
ghost use Rattle.xlsx_pivot_cache.specs.Words.{rows_by, OpensRows};
ghost use Rattle.xlsx_core.specs.PivotList.{PivotDataFails, IsPivotDataError};
ghost use Rattle.xlsx_core.specs.Worksheets.{KeepsWorkbook};

use crate::sheet_lists::{ReadsSheets, read_sheets};
use crate::table_list::sheet_name;
use crate::xlsx::Xlsx;
use part_events::{Package, XlReader};
use xlsx_error::XlsxError;
use xlsx_open::Sheet;
use xlsx_pivot_cache::PivotCacheIter;
use xlsx_pivots::{PivotTables, read_sheet_pivots};

/// Reads the pivot tables of sheets, in the workbook's folder.
#[derive(Drop)]
struct PivotLists<'a> {
    folder: &'a str,
}

impl ReadsSheets for PivotLists<'_> {
    type Items = PivotTables;

    ghost Kept = { PivotSaid };

    ghost held = { λ sheets pivots. pivots_kept pivots };

    ghost look = { λ r. pivots_on_look r.folder.now };

    ghost Kind = { IsPivotsError };

    ghost memory = { tt };

    fn keep<P: Package>(
        &self,
        xml: &mut XlReader<P>,
        pivots: &mut PivotTables,
        sheets: &[Sheet],
        number: usize,
        path: &str,
    ) -> Result<(), XlsxError> {
        let name = sheet_name(sheets, number);
        read_sheet_pivots(xml, pivots, name, path, self.folder)
    }
}

/// The pivot tables of an open workbook.
impl<P: Package> Xlsx<P> {
    /// Finds the pivot tables of all sheets in their order, as `find_pivot_tables` of `xlsx_pivots`
    /// does: those of the parts that the relationships of a sheet of the type for pivot tables lead
    /// to, in order. No sheet is read, nor are definitions and records. The workbook keeps none of
    /// them.
    ///
    /// Fails as `find_pivot_tables`. A pivot table whose cache keeps no records refuses all.
    ///
    /// # Examples
    ///
    /// What is found, kept beside the workbook:
    ///
    /// ```
    /// match opened.xlsx.pivot_tables() {
    ///     Ok(pivots) => {
    ///         push_pivots(out, &pivots)?;
    ///         opened.pivots = Some(pivots);
    ///         Ok(())
    ///     }
    ///     Err(error) => push_refusal(out, &error),
    /// }
    /// ```
    pub fn pivot_tables(&mut self) -> Result<PivotTables, XlsxError>
        ensures answers { let folder = arc_str_bytes self.old.workbook.folder in
            Answers (pivots_ask folder (sheets_of_book self.old)) pivots_kept result
            self.old.xml.source self.new.xml.source }
        ensures workbook { KeepsWorkbook self.old self.new }
    {
        let folder = self.workbook.folder.as_str();
        let by = PivotLists { folder };
        let pivots = PivotTables::new(self.xml.alloc());
        let sheets = &self.workbook.metadata.sheets;
        read_sheets(&mut self.xml, pivots, sheets, &self.workbook.paths, &by)
    }

    /// The rows of the cache of the first of these pivot tables that has this name and is on a
    /// sheet of this name, as `PivotCacheIter` of `xlsx_pivot_cache` gives them.
    ///
    /// Fails with `PivotTableNotFound` of the name where there is none, and else as
    /// `PivotCacheIter::open`.
    ///
    /// # Examples
    ///
    /// The first row of a pivot table, which has the names of its fields:
    ///
    /// ```
    /// let pivots = xlsx.pivot_tables()?;
    /// let mut rows = xlsx.pivot_table_data(&pivots, sheet, name)?;
    /// match rows.next() {
    ///     Some(row) => Ok(Some(row?)),
    ///     None => Ok(None),
    /// }
    /// ```
    pub fn pivot_table_data(
        &mut self,
        pivot_tables: &PivotTables,
        sheet_name: &str,
        pivot_table_name: &str,
    ) -> Result<PivotCacheIter<'_, P>, XlsxError>
        ensures opens { let kept = pivots_kept pivot_tables.now in
            IfOk result (λ rows. IsSomeAnd (paths_of kept sheet_name.now pivot_table_name.now)
            (λ paths. OpensRows paths.0 paths.1 self.old.xml.source (rows_by rows))) }
        ensures err { let kept = pivots_kept pivot_tables.now in
            let paths = paths_of kept sheet_name.now pivot_table_name.now in
            IfErr result (PivotDataFails pivot_table_name.now paths self.old.xml.source) }
        ensures fault { IfErr result (LentFails Io P.state self.old.xml.source) }
        ensures kind { let kept = pivots_kept pivot_tables.now in
            let paths = paths_of kept sheet_name.now pivot_table_name.now in
            IfErr result (IsPivotDataError pivot_table_name.now paths) }
    {
        match pivot_tables.cache_paths(sheet_name, pivot_table_name) {
            Some((definitions, records)) => {
                PivotCacheIter::open(&mut self.xml, definitions, records)
            }
            None => {
                let name = String::from_str(self.xml.alloc(), pivot_table_name)?;
                Err(XlsxError::PivotTableNotFound(name))
            }
        }
    }
}
