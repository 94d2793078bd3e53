ghost use Rattle.std.specs.Prelude.{◌≡◌, None};

use xlsx_areas::MergedRegion;
use xlsx_properties::WorkbookProperties;
use xlsx_tables::LoadedTable;

/// What was loaded of a workbook's lists.
#[derive(Drop)]
pub struct Lists {
    pub(crate) regions: Option<Vec<MergedRegion>>,
    pub(crate) properties: Option<WorkbookProperties>,
    pub(crate) tables: Option<Vec<LoadedTable>>,
}

impl Lists {
    /// Nothing was loaded yet.
    pub fn new() -> Lists
        ensures regions { result.regions ≡ None }
        ensures properties { result.properties ≡ None }
        ensures tables { result.tables ≡ None }
    {
        Lists {
            regions: None,
            properties: None,
            tables: None,
        }
    }
}
