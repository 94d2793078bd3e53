ghost use Rattle.std.specs.Prelude.{◌≡◌, map, string_bytes};
ghost use Rattle.cell_data.specs.Table.{table_name, table_sheet, table_columns, table_data};

use crate::range::Range;

/// A table: its name, that of its sheet, the names of its columns, and the range of its data, which
/// has neither headers nor totals.
#[derive(Drop)]
pub struct Table<T> {
    name: String,
    sheet_name: String,
    columns: Vec<String>,
    data: Range<T>,
}

impl<T> Table<T> {
    /// The table of this name on the sheet of this one.
    pub fn new(name: String, sheet_name: String, columns: Vec<String>, data: Range<T>) -> Table<T>
        ensures name { table_name result ≡ string_bytes name }
        ensures sheet { table_sheet result ≡ string_bytes sheet_name }
        ensures columns { table_columns result ≡ map string_bytes columns.items }
        ensures range { table_data result ≡ «data» }
    {
        Table {
            name,
            sheet_name,
            columns,
            data,
        }
    }

    /// The name of the table.
    pub fn name(&self) -> &str
        ensures { result.now ≡ table_name self.now }
    {
        self.name.as_str()
    }

    /// The name of its sheet.
    pub fn sheet_name(&self) -> &str
        ensures { result.now ≡ table_sheet self.now }
    {
        self.sheet_name.as_str()
    }

    /// The names of its columns, in order.
    pub fn columns(&self) -> &[String]
        ensures { map string_bytes result.now ≡ table_columns self.now }
    {
        &self.columns
    }

    /// The range of its data.
    pub fn data(&self) -> &Range<T>
        ensures { result.now ≡ table_data self.now }
    {
        &self.data
    }
}
