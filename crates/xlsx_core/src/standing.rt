//! Which cells of those that were gathered stand in a range: of each position the last one.
ghost use Rattle.std.specs.Prelude.{◌≡◌, IfOk, Some, true};
ghost use Rattle.std.specs.List.{filter};
ghost use Rattle.cell_data.specs.Words.{AreInSheet, cells_gathered};
ghost use Rattle.cell_refs.specs.Words.{last_of_each, lie_inside, is_in_area};
ghost use Rattle.sorted_cells.specs.Words.{kept_cells};
ghost use Rattle.xlsx_core.specs.Worksheets.{below_header, area_below};

use cell_data::{GatheredCells, HeaderRow};
use cell_refs::{Dimensions, MAX_COLUMNS, MAX_ROWS};
use sorted_cells::SortedCells;
use std::alloc::{AllocError, Global};

/// The last cell of each position from the header row on, in the order of positions. Cells that
/// came in that order stay where they are.
pub fn last_below<T: Drop>(
    alloc: Global,
    cells: GatheredCells<T>,
    header_row: HeaderRow,
) -> Result<SortedCells<T>, AllocError>
    requires { AreInSheet (cells_gathered cells) }
    ensures last { IfOk result (λ kept. kept_cells kept
        ≡ last_of_each (below_header header_row (cells_gathered cells))) }
    ensures inside { IfOk result (λ kept.
        lie_inside (Some (area_below header_row)) (kept_cells kept) ≡ true) }
{
    let kept = cells.into_sorted(alloc)?;
    let HeaderRow::Row(first) = header_row else {
        return Ok(kept);
    };
    Ok(kept.keep_area((first, 0), (MAX_ROWS - 1, MAX_COLUMNS - 1)))
}

/// Those of them that lie in an area.
pub fn last_in_area<T: Drop>(
    alloc: Global,
    cells: GatheredCells<T>,
    header_row: HeaderRow,
    area: Dimensions,
) -> Result<SortedCells<T>, AllocError>
    requires { AreInSheet (cells_gathered cells) }
    ensures last { IfOk result (λ kept. kept_cells kept ≡ filter
        (λ cell. is_in_area area cell.0)
        (last_of_each (below_header header_row (cells_gathered cells)))) }
    ensures inside { IfOk result (λ kept. lie_inside (Some area) (kept_cells kept) ≡ true) }
{
    let kept = last_below(alloc, cells, header_row)?;
    Ok(kept.keep_area(area.start, area.end))
}
