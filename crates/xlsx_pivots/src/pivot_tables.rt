use crate::names::{PivotNames, PivotNamesInSheet};
use std::alloc::Global;

/// A pivot table: its name and its sheet's, and the paths of the parts of its cache.
#[derive(Debug, Drop)]
pub struct PivotTable {
    pub name: String,
    pub sheet: String,
    pub definitions: String,
    pub records: String,
}

/// The pivot tables of some sheets, in the order found.
#[derive(Debug, Drop)]
pub struct PivotTables {
    pub(crate) pivots: Vec<PivotTable>,
}

impl PivotTables {
    ghost use Rattle.std.specs.Prelude.{◌≡◌, [], option_map};
    ghost use Rattle.xlsx_pivots.specs.PivotTables.{pivots_kept, pairs_of, names_on, paths_of};
    ghost use Rattle.xlsx_pivots.specs.PivotTables.{pairs_left, pivot_names_left, pair_given};

    /// None yet.
    pub fn new(alloc: Global) -> PivotTables
        ensures { pivots_kept result ≡ [] }
    {
        PivotTables {
            pivots: Vec::new(alloc),
        }
    }

    /// The names of all, each behind the name of its sheet, in the order found.
    pub fn get_pivot_tables_by_name_and_sheet(&self) -> PivotNames<'_>
        ensures { pairs_left result ≡ pairs_of (pivots_kept self.now) }
    {
        PivotNames::new(&self.pivots)
    }

    /// The names of those on the sheets of this name, in the order found.
    pub fn pivot_tables_by_sheet<'a>(&'a self, sheet_name: &'a str) -> PivotNamesInSheet<'a>
        ensures { pivot_names_left result ≡ names_on sheet_name.now (pivots_kept self.now) }
    {
        PivotNamesInSheet::new(&self.pivots, sheet_name)
    }

    /// The paths of the definitions and of the records of the first pivot table of this name that
    /// is on a sheet of this name. None exactly where there is none.
    pub fn cache_paths(&self, sheet_name: &str, pivot_table_name: &str) -> Option<(&str, &str)>
        ensures { option_map pair_given result
            ≡ paths_of (pivots_kept self.now) sheet_name.now pivot_table_name.now }
    {
        let mut left: &[PivotTable] = &self.pivots;
        'pivots: while let Some((first, others)) = left.split_first() {
            if first.sheet.as_str() == sheet_name && first.name.as_str() == pivot_table_name {
                return Some((first.definitions.as_str(), first.records.as_str()));
            }
            left = others;
        }
        None
    }
}
