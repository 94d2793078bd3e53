//! The sheets, defined names and tables of a workbook.
use crate::area::{TableArea, table_area};
use crate::indexed::{column_numbers, numbers_of_strings, numbers_of_tables};
use crate::key::NameKey;
use crate::numbers::{Numbers, number_of, scoped_numbers};
use cell_refs::Dimensions;
use std::alloc::{AllocError, Global};
use std::marker::Model;

/// A defined name.
#[derive(Debug, Drop)]
pub struct DefinedName {
    pub name: String,
    /// The number of the sheet, counted from 0, that alone sees it; none where all do.
    pub scope: Option<u32>,
    /// The formula that it stands for.
    pub text: String,
}

/// Where a table stands, and the names of its columns.
#[derive(Debug, Drop)]
pub struct TableShape {
    pub name: String,
    /// The number of its sheet, counted from 0.
    pub sheet: usize,
    /// Its area with headers and totals, rows and columns counted from 0.
    pub whole: Dimensions,
    /// How many rows of headers it has.
    pub headers: u32,
    /// How many rows of totals it has.
    pub totals: u32,
    pub columns: Vec<String>,
}

/// The names of a workbook's sheets, its defined names and its tables, to be asked for words of
/// formulas. ASCII letters are the same in both cases, and of equal names the first is meant.
#[derive(Debug, Drop)]
pub struct BookNames {
    sheets: Vec<String>,
    defined: Vec<DefinedName>,
    shapes: Vec<TableShape>,
    sheet_numbers: Numbers,
    defined_numbers: Vec<Numbers>,
    table_numbers: Numbers,
    column_numbers: Vec<Numbers>,
}

impl Model for BookNames {
    ghost use Rattle.std.specs.Prelude.{map, string_bytes};
    ghost use Rattle.book_names.specs.Book.{Book};
    ghost use Rattle.book_names.specs.Numbers.{IsIndexed};
    ghost use Rattle.book_names.specs.Told.{name_told, table_told};

    ghost Value = { Book };

    ghost view = { λ b. record {
      sheets = map string_bytes b.sheets.items;
      names = map name_told b.defined.items;
      tables = map table_told b.shapes.items;
    } };

    ghost invariant = { λ b. IsIndexed (record {
      sheets = map string_bytes b.sheets.items;
      names = map name_told b.defined.items;
      tables = map table_told b.shapes.items;
    }) b.sheet_numbers b.table_numbers b.defined_numbers.items b.column_numbers.items };
}

impl BookNames {
    ghost use Rattle.std.specs.Prelude.{◌≡◌, ◌<◌, ℕ, List, IfOk, None, Some, length, map};
    ghost use Rattle.std.specs.Prelude.{string_bytes};
    ghost use Rattle.std.specs.List.{slice_get};
    ghost use Rattle.book_names.specs.Book.{sheet_numbered, name_in_scope, name_numbered, lowered};
    ghost use Rattle.book_names.specs.Book.{table_numbered, BookTable};
    ghost use Rattle.book_names.specs.Structured.{table_area};
    ghost use Rattle.book_names.specs.Told.{name_told, table_told, area_told};

    /// Sheets, defined names and tables, each in their order. Beside them a copy of each name is
    /// kept.
    pub fn new(
        alloc: Global,
        sheets: Vec<String>,
        names: Vec<DefinedName>,
        tables: Vec<TableShape>,
    ) -> Result<BookNames, AllocError>
        ensures { IfOk result (λ book. book ≡ record {
          sheets = map string_bytes sheets.items;
          names = map name_told names.items;
          tables = map table_told tables.items;
        }) }
    {
        let sheet_numbers = numbers_of_strings(alloc, &sheets)?;
        let defined_numbers = scoped_numbers(alloc, sheets.len() + 1, &names)?;
        let table_numbers = numbers_of_tables(alloc, &tables)?;
        let column_numbers = column_numbers(alloc, &tables)?;
        Ok(BookNames {
            sheets,
            defined: names,
            shapes: tables,
            sheet_numbers,
            defined_numbers,
            table_numbers,
            column_numbers,
        })
    }

    /// The names of the sheets.
    pub fn sheet_names(&self) -> &[String]
        ensures { map string_bytes result.now ≡ self.now.sheets }
    {
        &self.sheets
    }

    /// The defined names.
    pub fn defined_names(&self) -> &[DefinedName]
        ensures { map name_told result.now ≡ self.now.names }
    {
        &self.defined
    }

    /// The tables.
    pub fn tables(&self) -> &[TableShape]
        ensures { map table_told result.now ≡ self.now.tables }
    {
        &self.shapes
    }

    /// The number of the first sheet of a name, counted from 0.
    pub fn sheet(&self, name: &NameKey) -> Option<usize>
        ensures { (text : List ℕ) → name.now ≡ lowered text →
            result ≡ sheet_numbered self.now text }
    {
        number_of(&self.sheet_numbers, name)
    }

    /// The number of the defined name that a word is on a sheet, both counted from 0: the sheet's
    /// own goes before the workbook's.
    pub fn name(&self, sheet: usize, name: &NameKey) -> Option<usize>
        requires { sheet < length self.now.sheets }
        ensures { (text : List ℕ) → name.now ≡ lowered text →
            result ≡ name_numbered self.now sheet text }
    {
        match number_of(&self.defined_numbers[sheet + 1], name) {
            Some(own) => Some(own),
            None => self.book_name(name),
        }
    }

    /// The number of the first defined name of the workbook, counted from 0.
    pub fn book_name(&self, name: &NameKey) -> Option<usize>
        ensures { (text : List ℕ) → name.now ≡ lowered text →
            result ≡ name_in_scope self.now None text }
    {
        number_of(&self.defined_numbers[0], name)
    }

    /// The number of the first table of a name, counted from 0.
    pub fn table(&self, name: &NameKey) -> Option<usize>
        ensures { (text : List ℕ) → name.now ≡ lowered text →
            result ≡ table_numbered self.now text }
    {
        number_of(&self.table_numbers, name)
    }

    /// What brackets behind the name of a table are in a formula on a row; the table is told by its
    /// number, and all are counted from 0. The key takes the names of columns.
    pub fn area<'a>(
        &self,
        table: usize,
        row: u32,
        inside: &'a str,
        key: &mut NameKey,
    ) -> Result<TableArea<'a>, AllocError>
        requires { table < length self.now.tables }
        ensures { (shape : BookTable) → slice_get self.now.tables table ≡ Some shape →
            IfOk result (λ area. area_told area ≡ table_area shape row inside.now) }
    {
        table_area(
            &self.shapes[table],
            &self.column_numbers[table],
            row,
            inside,
            key,
        )
    }
}
