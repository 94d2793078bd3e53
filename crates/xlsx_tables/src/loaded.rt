ghost use Rattle.std.specs.Prelude.{IsTrue};
ghost use Rattle.cell_refs.specs.Words.{are_sheet_bounds};

use crate::table_part::TablePart;
use cell_refs::Dimensions;

/// A table, and the number of its sheet, counted from 0.
#[derive(Debug, Drop)]
pub struct LoadedTable {
    sheet: usize,
    part: TablePart,
    ghost inside: { IsTrue (are_sheet_bounds part.area) },
}

impl LoadedTable {
    ghost use Rattle.std.specs.Prelude.{◌≡◌, map, string_bytes, true};
    ghost use Rattle.cell_refs.specs.Words.{are_sheet_bounds};
    ghost use Rattle.xlsx_tables.specs.TableParts.{table_kept};
    ghost use Rattle.xlsx_tables.specs.Tables.{loaded_of};

    /// The table of this part, on the sheet of this number.
    pub fn new(sheet: usize, part: TablePart) -> LoadedTable
        requires { are_sheet_bounds part.area ≡ true }
        ensures { loaded_of result ≡ (sheet, table_kept part) }
    {
        LoadedTable { sheet, part }
    }

    /// The number of its sheet, counted from 0.
    pub fn sheet(&self) -> usize
        ensures { result ≡ (loaded_of self.now).0 }
    {
        self.sheet
    }

    /// Its name.
    pub fn name(&self) -> &str
        ensures { result.now ≡ (loaded_of self.now).1.name }
    {
        self.part.display_name.as_str()
    }

    /// The names of its columns, in order.
    pub fn columns(&self) -> &[String]
        ensures { map string_bytes result.now ≡ (loaded_of self.now).1.columns }
    {
        &self.part.columns
    }

    /// Its area with headers and totals, as `ref` names it, its rows and columns counted from 0.
    pub fn whole(&self) -> Dimensions
        ensures { result ≡ (loaded_of self.now).1.whole }
    {
        self.part.whole
    }

    /// How many rows of headers it has, whether its area has them or not.
    pub fn headers(&self) -> u32
        ensures { result ≡ (loaded_of self.now).1.headers }
    {
        self.part.headers
    }

    /// How many rows of totals it has, whether its area has them or not.
    pub fn totals(&self) -> u32
        ensures { result ≡ (loaded_of self.now).1.totals }
    {
        self.part.totals
    }

    /// The area of its data, without headers and totals, its rows and columns counted from 0. None
    /// where it has no cell.
    pub fn area(&self) -> Option<Dimensions>
        ensures area { result ≡ (loaded_of self.now).1.area }
        ensures inside { are_sheet_bounds result ≡ true }
    {
        self.part.area
    }
}
