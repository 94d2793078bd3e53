ghost use Rattle.std.specs.Prelude.{◌≡◌, List, true, None, Some, map, string_bytes, option_map};
ghost use Rattle.std.specs.Prelude.{IfOk, IfErr, IsSome, IsSomeAnd};
ghost use Rattle.std.specs.Option.{option_copied};
ghost use Rattle.cell_data.specs.Words.{bounds_of, table_data};
ghost use Rattle.cell_refs.specs.Words.{are_sheet_bounds};
ghost use Rattle.part_events.specs.Words.{Uses};
ghost use Rattle.xlsx_error.specs.declared.error.XlsxError.TheVariants.{Io};
ghost use Rattle.xlsx_cells.specs.Words.{values_alone};
ghost use Rattle.xlsx_core.specs.TableData.{first_table, table_of_book, area_of_book, head_said};
ghost use Rattle.xlsx_core.specs.TableData.{IsOfTable, ReadsValuesIn, ReadsPlacesIn, AreaFails};
ghost use Rattle.xlsx_core.specs.TableData.{TableDataFails, IsTableDataError, LacksTable};
ghost use Rattle.xlsx_core.specs.TableData.{area_events, table_data_events, area_data_events};
ghost use Rattle.xlsx_core.specs.TableData.{table_ends};
ghost use Rattle.xlsx_core.specs.SheetReading.{TakesExactly};
ghost use Rattle.xlsx_core.specs.TableList.{table_held, tables_held, loaded_tables};
ghost use Rattle.xlsx_core.specs.Worksheets.{path_of, context_of_book, KeepsWorkbook, IsRangeError};
ghost use Rattle.xlsx_workbook.specs.declared.sheet.Sheet.{Sheet};

use crate::ranges::{places_in_area, values_in_area};
use crate::table_list::sheet_name;
use crate::xlsx::Xlsx;
use cell_data::{Data, DataRef, Range, Table};
use cell_refs::Dimensions;
use part_events::Package;
use std::alloc::{AllocError, Global};
use xlsx_cells::Wants;
use xlsx_error::XlsxError;
use xlsx_open::Sheet;
use xlsx_tables::LoadedTable;

/// What a table says beside its data, in memory of its own.
#[derive(Drop)]
pub(crate) struct TableHead {
    pub name: String,
    pub sheet: String,
    pub columns: Vec<String>,
    pub whole: Dimensions,
    pub headers: u32,
    pub totals: u32,
    pub area: Option<Dimensions>,
}

/// The first of these tables that has this name.
fn first_named<'a>(tables: &'a [LoadedTable], name: &str) -> Option<&'a LoadedTable>
    ensures { (sheets : List Sheet) → first_table name.now (tables_held sheets tables.now)
        ≡ option_map (table_held sheets) (option_copied result) }
{
    'tables: for table in tables {
        if table.name() == name {
            return Some(table);
        }
    }
    None
}

/// A copy of these texts in memory of its own.
fn copied_texts(alloc: Global, texts: &[String]) -> Result<Vec<String>, AllocError>
    ensures { IfOk result (λ copy. map string_bytes copy.items ≡ map string_bytes texts.now) }
{
    let mut copy = Vec::new(alloc);
    'texts: for text in texts {
        copy.push(String::from_str(alloc, text.as_str())?)?;
    }
    Ok(copy)
}

/// The data of tables.
impl<P: Package> Xlsx<P> {
    /// What the first loaded table of this name says beside its data.
    ///
    /// Fails with `TableNotFound` where none has the name.
    pub(crate) fn table_head(&self, name: &str) -> Result<TableHead, XlsxError>
        requires { IsSome self.now.workbook.lists.tables }
        ensures found { IfOk result (λ head.
            table_of_book self.now name.now ≡ Some (head_said head)) }
        ensures inside { IfOk result (λ head. are_sheet_bounds head.area ≡ true) }
        ensures err { IfErr result (LacksTable name.now (loaded_tables self.now)) }
    {
        let Some(table) = first_named(self.kept_tables(), name) else {
            let name = String::from_str(self.xml.alloc(), name)?;
            return Err(XlsxError::TableNotFound(name));
        };
        let sheet = sheet_name(&self.workbook.metadata.sheets, table.sheet());
        Ok(TableHead {
            name: String::from_str(self.xml.alloc(), table.name())?,
            sheet: String::from_str(self.xml.alloc(), sheet)?,
            columns: copied_texts(self.xml.alloc(), table.columns())?,
            whole: table.whole(),
            headers: table.headers(),
            totals: table.totals(),
            area: table.area(),
        })
    }

    /// The values in this area of the first sheet of this name, as `worksheet_range` has them. No
    /// text is copied of those that stand elsewhere, and without an area none are read.
    fn values_in(&mut self, sheet: &str, area: Option<Dimensions>) -> Result<Range<Data>, XlsxError>
        requires { are_sheet_bounds area ≡ true }
        ensures uses { let most = area_events area (path_of self.old sheet.now)
            self.old.xml.source.parts in
            Uses most Io result self.old.xml.source self.new.xml.source }
        ensures to_end { let count = area_data_events area (path_of self.old sheet.now)
            self.old.xml.source.parts in
            TakesExactly count result self.old.xml.source self.new.xml.source }
        ensures rest { KeepsWorkbook self.old self.new }
        ensures unread { area ≡ None → self.new.xml.source ≡ self.old.xml.source }
        ensures bounds { IfOk result (λ range. bounds_of range ≡ area) }
        ensures reads { self.old.xml.source.is_visible ≡ true →
            IfOk result (ReadsValuesIn (context_of_book self.old)
            self.old.workbook.header_row area (path_of self.old sheet.now)
            self.old.xml.source.parts) }
        ensures err { IfErr result (AreaFails values_alone self.old sheet.now area
            self.old.xml.source
            self.new.xml.source) }
        ensures kind { IfErr result (IsRangeError sheet.now) }
    {
        let Some(area) = area else {
            return Ok(Range::from_sparse(
                self.xml.alloc(),
                Vec::new(self.xml.alloc()),
                Data::Empty,
            )?);
        };
        let cells = self.worksheet_cells(sheet, Wants::VALUES)?;
        let strings = &self.workbook.shared.strings;
        let header_row = self.workbook.header_row;
        Ok(values_in_area(self.xml.alloc(), cells.values, strings, header_row, area)?)
    }

    /// The same, with shared strings by their places.
    fn places_in(
        &mut self,
        sheet: &str,
        area: Option<Dimensions>,
    ) -> Result<Range<DataRef>, XlsxError>
        requires { are_sheet_bounds area ≡ true }
        ensures uses { let most = area_events area (path_of self.old sheet.now)
            self.old.xml.source.parts in
            Uses most Io result self.old.xml.source self.new.xml.source }
        ensures to_end { let count = area_data_events area (path_of self.old sheet.now)
            self.old.xml.source.parts in
            TakesExactly count result self.old.xml.source self.new.xml.source }
        ensures rest { KeepsWorkbook self.old self.new }
        ensures unread { area ≡ None → self.new.xml.source ≡ self.old.xml.source }
        ensures bounds { IfOk result (λ range. bounds_of range ≡ area) }
        ensures reads { self.old.xml.source.is_visible ≡ true →
            IfOk result (ReadsPlacesIn (context_of_book self.old)
            self.old.workbook.header_row area (path_of self.old sheet.now)
            self.old.xml.source.parts) }
        ensures err { IfErr result (AreaFails values_alone self.old sheet.now area
            self.old.xml.source
            self.new.xml.source) }
        ensures kind { IfErr result (IsRangeError sheet.now) }
    {
        let Some(area) = area else {
            return Ok(Range::from_sparse(
                self.xml.alloc(),
                Vec::new(self.xml.alloc()),
                DataRef::Empty,
            )?);
        };
        let cells = self.worksheet_cells(sheet, Wants::VALUES)?;
        Ok(places_in_area(
            self.xml.alloc(),
            cells.values,
            self.workbook.header_row,
            area,
        )?)
    }

    /// The first loaded table of this name, with its data (ECMA-376 part 1, section 18.5.1.2):
    /// what `worksheet_range` answers for the name of its sheet, under the header row that is set,
    /// cut to the table's area. It can be called once `tables_loaded`.
    ///
    /// Where two sheets have the name of the table's, its data are those of the first. Where the
    /// area has no cell, the range of its data is empty, and nothing of the sheet is read.
    ///
    /// Fails with `TableNotFound` where no loaded table has the name. Else it is refused as
    /// `worksheet_range` of its sheet's name is, where the area has a cell.
    ///
    /// # Examples
    ///
    /// A table, by a workbook whose tables were loaded and which is needed no more:
    ///
    /// ```
    /// let mut xlsx = with_tables(alloc, package)?;
    /// let table = xlsx.table_by_name(name);
    /// drop(xlsx.into_package());
    /// Ok(table?)
    /// ```
    pub fn table_by_name(&mut self, table_name: &str) -> Result<Table<Data>, XlsxError>
        requires { IsSome self.old.workbook.lists.tables }
        ensures uses { let most = table_data_events self.old table_name.now
            self.old.xml.source.parts in
            Uses most Io result self.old.xml.source self.new.xml.source }
        ensures to_end { let count = table_ends self.old table_name.now self.old.xml.source.parts in
            TakesExactly count result self.old.xml.source self.new.xml.source }
        ensures rest { KeepsWorkbook self.old self.new }
        ensures unread { area_of_book self.old table_name.now ≡ None →
            self.new.xml.source ≡ self.old.xml.source }
        ensures table { IfOk result (λ table.
            IsSomeAnd (table_of_book self.old table_name.now) (λ own. IsOfTable own table)) }
        ensures data { self.old.xml.source.is_visible ≡ true → IfOk result (λ table.
            IsSomeAnd (table_of_book self.old table_name.now) (λ own.
            ReadsValuesIn (context_of_book self.old) self.old.workbook.header_row own.table.area
            (path_of self.old own.sheet) self.old.xml.source.parts (table_data table))) }
        ensures err { IfErr result (TableDataFails values_alone self.old table_name.now
            self.old.xml.source self.new.xml.source) }
        ensures kind { IfErr result (IsTableDataError self.old table_name.now) }
    {
        let head = self.table_head(table_name)?;
        let data = self.values_in(head.sheet.as_str(), head.area)?;
        Ok(Table::new(head.name, head.sheet, head.columns, data))
    }

    /// The table that `table_by_name` answers, with shared strings by their places, whose texts
    /// `shared_string` has. It can be called once `tables_loaded`, and is refused as
    /// `table_by_name` is.
    pub fn table_by_name_ref(&mut self, table_name: &str) -> Result<Table<DataRef>, XlsxError>
        requires { IsSome self.old.workbook.lists.tables }
        ensures uses { let most = table_data_events self.old table_name.now
            self.old.xml.source.parts in
            Uses most Io result self.old.xml.source self.new.xml.source }
        ensures to_end { let count = table_ends self.old table_name.now self.old.xml.source.parts in
            TakesExactly count result self.old.xml.source self.new.xml.source }
        ensures rest { KeepsWorkbook self.old self.new }
        ensures unread { area_of_book self.old table_name.now ≡ None →
            self.new.xml.source ≡ self.old.xml.source }
        ensures table { IfOk result (λ table.
            IsSomeAnd (table_of_book self.old table_name.now) (λ own. IsOfTable own table)) }
        ensures data { self.old.xml.source.is_visible ≡ true → IfOk result (λ table.
            IsSomeAnd (table_of_book self.old table_name.now) (λ own.
            ReadsPlacesIn (context_of_book self.old) self.old.workbook.header_row own.table.area
            (path_of self.old own.sheet) self.old.xml.source.parts (table_data table))) }
        ensures err { IfErr result (TableDataFails values_alone self.old table_name.now
            self.old.xml.source self.new.xml.source) }
        ensures kind { IfErr result (IsTableDataError self.old table_name.now) }
    {
        let head = self.table_head(table_name)?;
        let data = self.places_in(head.sheet.as_str(), head.area)?;
        Ok(Table::new(head.name, head.sheet, head.columns, data))
    }
}
