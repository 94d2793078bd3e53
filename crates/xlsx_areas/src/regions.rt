ghost use Rattle.std.specs.Prelude.{◌≡◌, ◌++◌, List, map, OnOk, OnErr};
ghost use Rattle.std.specs.List.{filter};
ghost use Rattle.xlsx_parts.specs.Words.{Appends, sheet_at};
ghost use Rattle.xlsx_areas.specs.Regions.{region_in, region_of, is_of_sheet, regions_ask};
ghost use Rattle.xlsx_areas.specs.declared.regions.MergedRegion.{MergedRegion};

use crate::merged_parts::read_regions;
use cell_refs::Dimensions;
use part_events::{Package, XlReader};
use std::alloc::{AllocError, Global};
use xlsx_error::XlsxError;

/// An area of merged cells, with the name of its sheet and the path of the sheet's part.
#[derive(Debug, Drop)]
pub struct MergedRegion {
    pub sheet: String,
    pub path: String,
    pub dimensions: Dimensions,
}

/// Appends the regions of these areas in a sheet.
fn push_regions(
    alloc: Global,
    regions: &mut Vec<MergedRegion>,
    sheet: &str,
    path: &str,
    areas: Vec<Dimensions>,
) -> Result<(), AllocError>
    ensures ok { let own = sheet_at sheet.now path.now in
        OnOk result (map region_of regions.new.items
        ≡ map region_of regions.old.items ++ map (region_in own) areas.items) }
    ensures err { OnErr result ((more : List MergedRegion)
        × (regions.new.items ≡ regions.old.items ++ more)) }
{
    for dimensions in areas {
        regions.push(MergedRegion {
            sheet: String::from_str(alloc, sheet)?,
            path: String::from_str(alloc, path)?,
            dimensions,
        })?;
    }
    Ok(())
}

/// Appends the regions of the sheet of this name, whose part is at this path, in order: the area of
/// each `mergeCell` start wherever it stands in the part (ECMA-376 part 1, section 18.3.1.54). The
/// part is read to its end. A part that is absent has none.
///
/// Fails as `read_regions`. After a refusal some of them may be appended, behind those that were
/// there.
pub fn read_sheet_regions<P: Package>(
    xml: &mut XlReader<P>,
    regions: &mut Vec<MergedRegion>,
    sheet: &str,
    path: &str,
) -> Result<(), XlsxError>
    ensures answers { let before = map region_of regions.old.items in
        let after = map region_of regions.new.items in
        Appends (regions_ask (sheet_at sheet.now path.now)) before after result
        xml.old.source xml.new.source }
    ensures kept { OnErr result ((more : List MergedRegion)
        × (regions.new.items ≡ regions.old.items ++ more)) }
{
    let alloc = xml.alloc();
    if let Some(areas) = read_regions(xml, path)? {
        push_regions(alloc, regions, sheet, path, areas)?;
    }
    Ok(())
}

/// The regions among some that are of the sheets of one name, in order.
#[derive(Drop)]
pub struct MergedRegions<'a> {
    left: &'a [MergedRegion],
    name: &'a str,
}

impl<'a> MergedRegions<'a> {
    ghost use Rattle.xlsx_areas.specs.Regions.{regions_left};

    /// Those of the sheets of this name, of which none was taken yet.
    pub fn new(regions: &'a [MergedRegion], name: &'a str) -> MergedRegions<'a>
        ensures { regions_left result ≡ filter (is_of_sheet name.now) regions.now }
    {
        MergedRegions {
            left: regions,
            name,
        }
    }
}

impl<'a> Iterator for MergedRegions<'a> {
    ghost use Rattle.std.specs.Iterator.{YieldsFirstRef, item_count};
    ghost use Rattle.xlsx_areas.specs.Regions.{regions_left};

    type Item = &'a MergedRegion;

    ghost next_gives = { YieldsFirstRef regions_left };

    ghost remaining = { item_count regions_left };

    fn next(&mut self) -> Option<&'a MergedRegion> {
        'regions: while let Some((first, left)) = self.left.split_first() {
            self.left = left;
            if first.sheet.as_str() == self.name {
                return Some(first);
            }
        }
        None
    }
}
