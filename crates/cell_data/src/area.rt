//! The area that cells have, and whether two are one.
ghost use Rattle.std.specs.Prelude.{◌≡◌, ◌↔◌, IsTrue};
ghost use Rattle.cell_refs.specs.Words.{area_with, least_area};
ghost use Rattle.sorted_cells.specs.Words.{kept_cells};

use cell_refs::Dimensions;
use sorted_cells::SortedCells;

fn area_with(pos: (u32, u32), area: Option<Dimensions>) -> Dimensions
    ensures { result ≡ area_with pos area }
{
    let Some(Dimensions { start, end }) = area else {
        return Dimensions {
            start: pos,
            end: pos,
        };
    };
    Dimensions {
        start: (pos.0.min(start.0), pos.1.min(start.1)),
        end: (pos.0.max(end.0), pos.1.max(end.1)),
    }
}

/// The least area that has these cells, with rows and columns counted from 0; none without a cell.
pub fn least_area<T>(cells: &SortedCells<T>) -> Option<Dimensions>
    ensures { result ≡ least_area (kept_cells cells.now) }
{
    let mut area = None;
    for (pos, _) in cells.iter() {
        area = Some(area_with(pos, area));
    }
    area
}

/// Whether both are the same area, or both none.
pub(crate) fn are_same(one: Option<Dimensions>, other: Option<Dimensions>) -> bool
    ensures { IsTrue result ↔ (one ≡ other) }
{
    match (one, other) {
        (None, None) => true,
        (Some(one), Some(other)) => one.start == other.start && one.end == other.end,
        _ => false,
    }
}
