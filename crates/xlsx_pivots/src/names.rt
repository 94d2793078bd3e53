use crate::pivot_tables::PivotTable;

/// The names of pivot tables, each behind the name of its sheet, in the order found.
#[derive(Drop)]
pub struct PivotNames<'a> {
    left: &'a [PivotTable],
}

impl<'a> PivotNames<'a> {
    ghost use Rattle.std.specs.Prelude.{◌≡◌, map};
    ghost use Rattle.xlsx_pivots.specs.PivotTables.{pairs_left, pairs_of, pivot_kept};

    /// The names of these, of which none was taken yet.
    pub(crate) fn new(pivots: &'a [PivotTable]) -> PivotNames<'a>
        ensures { pairs_left result ≡ pairs_of (map pivot_kept pivots.now) }
    {
        PivotNames { left: pivots }
    }
}

impl<'a> Iterator for PivotNames<'a> {
    ghost use Rattle.std.specs.Iterator.{YieldsFirstBy, item_count};
    ghost use Rattle.xlsx_pivots.specs.PivotTables.{pair_given, pairs_left};

    type Item = (&'a str, &'a str);

    ghost next_gives = { YieldsFirstBy pair_given pairs_left };

    ghost remaining = { item_count pairs_left };

    fn next(&mut self) -> Option<(&'a str, &'a str)> {
        let (first, left) = self.left.split_first()?;
        self.left = left;
        Some((first.sheet.as_str(), first.name.as_str()))
    }
}

/// The names of the pivot tables on the sheets of one name, in the order found.
#[derive(Drop)]
pub struct PivotNamesInSheet<'a> {
    left: &'a [PivotTable],
    sheet: &'a str,
}

impl<'a> PivotNamesInSheet<'a> {
    ghost use Rattle.std.specs.Prelude.{◌≡◌, map};
    ghost use Rattle.xlsx_pivots.specs.PivotTables.{pivot_names_left, names_on, pivot_kept};

    /// The names of those among these, of which none was taken yet.
    pub(crate) fn new(pivots: &'a [PivotTable], sheet: &'a str) -> PivotNamesInSheet<'a>
        ensures { pivot_names_left result ≡ names_on sheet.now (map pivot_kept pivots.now) }
    {
        PivotNamesInSheet {
            left: pivots,
            sheet,
        }
    }
}

impl<'a> Iterator for PivotNamesInSheet<'a> {
    ghost use Rattle.std.specs.Iterator.{YieldsFirstRef, item_count};
    ghost use Rattle.xlsx_pivots.specs.PivotTables.{pivot_names_left};

    type Item = &'a str;

    ghost next_gives = { YieldsFirstRef pivot_names_left };

    ghost remaining = { item_count pivot_names_left };

    fn next(&mut self) -> Option<&'a str> {
        'pivots: while let Some((first, left)) = self.left.split_first() {
            self.left = left;
            if first.sheet.as_str() == self.sheet {
                return Some(first.name.as_str());
            }
        }
        None
    }
}
