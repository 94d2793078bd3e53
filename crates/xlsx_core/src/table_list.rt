ghost use Rattle.std.proofs.Common.{inl};
ghost use Rattle.std.specs.Prelude.{◌≡◌, ◌<◌, map, length, slice_get, OnOk, OnErr, IsSome, is_some};
ghost use Rattle.std.specs.Prelude.{None, Some, true, option_map, string_bytes};
ghost use Rattle.std.specs.Option.{option_copied};
ghost use Rattle.cell_refs.specs.Words.{are_sheet_bounds};
ghost use Rattle.xlsx_sections.specs.Words.{Answers};
ghost use Rattle.xlsx_tables.specs.Tables.{SheetTable, IsTablesError, tables_on_look};
ghost use Rattle.xlsx_tables.specs.Tables.{all_tables_ask};
ghost use Rattle.xlsx_core.specs.Merges.{sheets_of_book};
ghost use Rattle.xlsx_core.specs.TableList.{sheet_name, table_held, tables_held, loaded_tables};
ghost use Rattle.xlsx_core.specs.TableList.{is_wanted, table_names_of};
ghost use Rattle.xlsx_core.specs.Worksheets.{KeepsBook, KeepsWorkbook};

use crate::sheet_lists::{ReadsSheets, read_sheets};
use crate::xlsx::Xlsx;
use cell_refs::Dimensions;
use part_events::{Package, XlReader};
use xlsx_error::XlsxError;
use xlsx_open::Sheet;
use xlsx_tables::{LoadedTable, read_sheet_tables};

/// The name of the sheet of this number, counted from 0, and no text where there is no such sheet.
pub(crate) fn sheet_name(sheets: &[Sheet], number: usize) -> &str
    ensures { result.now ≡ sheet_name sheets.now number }
{
    match sheets.get(number) {
        Some(sheet) => sheet.name.as_str(),
        None => "",
    }
}

/// Whether the tables of a sheet of this name are wanted.
fn is_wanted(wanted: Option<&str>, sheet: &str) -> bool
    ensures { result ≡ is_wanted (option_copied wanted.entry) sheet.now }
{
    match wanted {
        Some(name) => sheet == name,
        None => true,
    }
}

/// Reads the tables of sheets, and keeps them with the numbers of these.
#[derive(Drop)]
struct TableLists;

impl ReadsSheets for TableLists {
    type Items = Vec<LoadedTable>;

    ghost Kept = { SheetTable };

    ghost held = { λ sheets tables. tables_held sheets tables.items };

    ghost look = { λ r. tables_on_look };

    ghost Kind = { IsTablesError };

    ghost memory = { inl tt };

    fn keep<P: Package>(
        &self,
        xml: &mut XlReader<P>,
        tables: &mut Vec<LoadedTable>,
        sheets: &[Sheet],
        number: usize,
        path: &str,
    ) -> Result<(), XlsxError> {
        read_sheet_tables(xml, tables, number, path)
    }
}

/// The names of tables, in their order.
#[derive(Drop)]
pub struct TableNames<'a> {
    left: &'a [LoadedTable],
    sheets: &'a [Sheet],
    sheet: Option<&'a str>,
}

impl<'a> TableNames<'a> {
    ghost use Rattle.xlsx_core.specs.TableList.{table_names_left};

    /// The names of these tables that stand on the sheets of this name, or of all of them, of which
    /// none was taken yet.
    fn new(tables: &'a [LoadedTable], sheets: &'a [Sheet], sheet: Option<&'a str>) -> TableNames<'a>
        ensures { table_names_left result
            ≡ table_names_of (option_copied sheet.entry) (tables_held sheets.now tables.now) }
    {
        TableNames {
            left: tables,
            sheets,
            sheet,
        }
    }
}

impl<'a> Iterator for TableNames<'a> {
    ghost use Rattle.std.specs.Iterator.{YieldsFirstRef, item_count};
    ghost use Rattle.xlsx_core.specs.TableList.{table_names_left};

    type Item = &'a str;

    ghost next_gives = { YieldsFirstRef table_names_left };

    ghost remaining = { item_count table_names_left };

    fn next(&mut self) -> Option<&'a str> {
        'tables: while let Some((first, left)) = self.left.split_first() {
            self.left = left;
            if is_wanted(self.sheet, sheet_name(self.sheets, first.sheet())) {
                return Some(first.name());
            }
        }
        None
    }
}

/// The tables of an open workbook.
impl<P: Package> Xlsx<P> {
    ghost use Rattle.xlsx_core.specs.TableList.{table_names_left};

    /// Loads the tables of all sheets in their order (ECMA-376 part 1, section 18.5.1.2): those of
    /// the parts that the relationships of a sheet of the type for tables lead to, in order. A part
    /// that is absent has none, and no more has a sheet whose relationships are absent. No sheet is
    /// read. What was loaded before is replaced.
    ///
    /// Fails by the relationships of a sheet or by the part of a table, as `read_sheet_tables`. A
    /// refusal leaves what was loaded as it was.
    ///
    /// # Examples
    ///
    /// A workbook whose tables are loaded:
    ///
    /// ```
    /// let mut xlsx = Xlsx::new(alloc, package)?;
    /// match xlsx.load_tables() {
    ///     Ok(()) => Ok(xlsx),
    ///     Err(error) => {
    ///         drop(xlsx.into_package());
    ///         Err(ToolError::from(error))
    ///     }
    /// }
    /// ```
    pub fn load_tables(&mut self) -> Result<(), XlsxError>
        ensures answers { let ask = all_tables_ask (sheets_of_book self.old) in
            Answers ask (λ _. loaded_tables self.new) result self.old.xml.source
            self.new.xml.source }
        ensures book { KeepsBook self.old self.new }
        ensures loaded { OnOk result (IsSome self.new.workbook.lists.tables) }
        ensures regions { self.new.workbook.lists.regions ≡ self.old.workbook.lists.regions }
        ensures properties { self.new.workbook.lists.properties ≡
            self.old.workbook.lists.properties }
        ensures unchanged { OnErr result (KeepsWorkbook self.old self.new) }
    {
        let sheets = &self.workbook.metadata.sheets;
        let tables = Vec::new(self.xml.alloc());
        let tables = read_sheets(
            &mut self.xml,
            tables,
            sheets,
            &self.workbook.paths,
            &TableLists,
        )?;
        self.workbook.lists.tables = Some(tables);
        Ok(())
    }

    /// Whether the tables were loaded.
    pub fn tables_loaded(&self) -> bool
        ensures { result ≡ is_some self.now.workbook.lists.tables }
    {
        self.workbook.lists.tables.is_some()
    }

    /// The tables that were loaded.
    pub(crate) fn kept_tables(&self) -> &[LoadedTable]
        requires { IsSome self.now.workbook.lists.tables }
        ensures { tables_held self.now.workbook.metadata.sheets.items result.now
            ≡ loaded_tables self.now }
    {
        match &self.workbook.lists.tables {
            Some(tables) => tables,
            None => unreachable!(),
        }
    }

    /// How many tables were loaded. It can be called once `tables_loaded`.
    pub fn table_count(&self) -> usize
        requires { IsSome self.now.workbook.lists.tables }
        ensures { result ≡ length (loaded_tables self.now) }
    {
        self.kept_tables().len()
    }

    /// The table at this index, counted from 0.
    fn numbered_table(&self, index: usize) -> &LoadedTable
        requires loaded { IsSome self.now.workbook.lists.tables }
        requires index { index < length (loaded_tables self.now) }
        ensures { slice_get (loaded_tables self.now) index
            ≡ Some (table_held self.now.workbook.metadata.sheets.items result.now) }
    {
        &self.kept_tables()[index]
    }

    /// The area of the data of the table at this index, counted from 0, without headers and totals.
    /// Its rows and columns are counted from 0. None where it has no cell.
    ///
    /// It can be called once `tables_loaded`, with an index below `table_count`.
    pub fn table_area(&self, index: usize) -> Option<Dimensions>
        requires loaded { IsSome self.now.workbook.lists.tables }
        requires index { index < length (loaded_tables self.now) }
        ensures area { Some result ≡ option_map (λ (own : SheetTable). own.table.area)
            (slice_get (loaded_tables self.now) index) }
        ensures inside { are_sheet_bounds result ≡ true }
    {
        self.numbered_table(index).area()
    }

    /// The area of the table at this index, counted from 0, with headers and totals, as its `ref`
    /// names it. Its rows and columns are counted from 0.
    ///
    /// It can be called once `tables_loaded`, with an index below `table_count`.
    pub fn table_whole(&self, index: usize) -> Dimensions
        requires loaded { IsSome self.now.workbook.lists.tables }
        requires index { index < length (loaded_tables self.now) }
        ensures { Some result ≡ option_map (λ (own : SheetTable). own.table.whole)
            (slice_get (loaded_tables self.now) index) }
    {
        self.numbered_table(index).whole()
    }

    /// How many rows of headers the table at this index has, counted from 0, whether its area has
    /// them or not.
    ///
    /// It can be called once `tables_loaded`, with an index below `table_count`.
    pub fn table_headers(&self, index: usize) -> u32
        requires loaded { IsSome self.now.workbook.lists.tables }
        requires index { index < length (loaded_tables self.now) }
        ensures { Some result ≡ option_map (λ (own : SheetTable). own.table.headers)
            (slice_get (loaded_tables self.now) index) }
    {
        self.numbered_table(index).headers()
    }

    /// How many rows of totals the table at this index has, counted from 0, whether its area has
    /// them or not.
    ///
    /// It can be called once `tables_loaded`, with an index below `table_count`.
    pub fn table_totals(&self, index: usize) -> u32
        requires loaded { IsSome self.now.workbook.lists.tables }
        requires index { index < length (loaded_tables self.now) }
        ensures { Some result ≡ option_map (λ (own : SheetTable). own.table.totals)
            (slice_get (loaded_tables self.now) index) }
    {
        self.numbered_table(index).totals()
    }

    /// The names of the columns of the table at this index, counted from 0, in order.
    ///
    /// It can be called once `tables_loaded`, with an index below `table_count`.
    pub fn table_columns(&self, index: usize) -> &[String]
        requires loaded { IsSome self.now.workbook.lists.tables }
        requires index { index < length (loaded_tables self.now) }
        ensures { Some (map string_bytes result.now)
            ≡ option_map (λ (own : SheetTable). own.table.columns)
            (slice_get (loaded_tables self.now) index) }
    {
        self.numbered_table(index).columns()
    }

    /// The name of the sheet of the table at this index, counted from 0.
    ///
    /// It can be called once `tables_loaded`, with an index below `table_count`.
    pub fn table_sheet(&self, index: usize) -> &str
        requires loaded { IsSome self.now.workbook.lists.tables }
        requires index { index < length (loaded_tables self.now) }
        ensures { Some result.now ≡ option_map (λ (own : SheetTable). own.sheet)
            (slice_get (loaded_tables self.now) index) }
    {
        sheet_name(
            &self.workbook.metadata.sheets,
            self.numbered_table(index).sheet(),
        )
    }

    /// The number of the sheet of the table at this index, both counted from 0.
    ///
    /// It can be called once `tables_loaded`, with an index below `table_count`.
    pub fn table_sheet_number(&self, index: usize) -> usize
        requires loaded { IsSome self.now.workbook.lists.tables }
        requires index { index < length (loaded_tables self.now) }
        ensures { Some (sheet_name self.now.workbook.metadata.sheets.items result)
            ≡ option_map (λ (own : SheetTable). own.sheet)
            (slice_get (loaded_tables self.now) index) }
    {
        self.numbered_table(index).sheet()
    }

    /// The names of the tables, in order. It can be called once `tables_loaded`.
    ///
    /// # Examples
    ///
    /// The names, where the tables were loaded:
    ///
    /// ```
    /// if !xlsx.tables_loaded() {
    ///     return Ok(out.push_str("not loaded")?);
    /// }
    /// for name in xlsx.table_names() {
    ///     write!(out, "{name} ")?;
    /// }
    /// ```
    pub fn table_names(&self) -> TableNames<'_>
        requires { IsSome self.now.workbook.lists.tables }
        ensures { table_names_left result
            ≡ map (λ (own : SheetTable). own.table.name) (loaded_tables self.now) }
    {
        TableNames::new(self.kept_tables(), &self.workbook.metadata.sheets, None)
    }

    /// The names of those on the sheets of this name. It can be called once `tables_loaded`.
    pub fn table_names_in_sheet<'a>(&'a self, sheet_name: &'a str) -> TableNames<'a>
        requires { IsSome self.now.workbook.lists.tables }
        ensures { table_names_left result
            ≡ table_names_of (Some sheet_name.now) (loaded_tables self.now) }
    {
        TableNames::new(
            self.kept_tables(),
            &self.workbook.metadata.sheets,
            Some(sheet_name),
        )
    }
}
