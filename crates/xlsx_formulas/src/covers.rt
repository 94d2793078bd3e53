ghost use Rattle.std.specs.Prelude.{◌≡◌};
ghost use Rattle.xlsx_formulas.specs.Formula.{covered};
ghost use Rattle.xlsx_formulas.specs.Kept.{covers_seen};

use crate::formula::Formula;
use cell_refs::Dimensions;

/// The area of the cell at a position alone, and the other where that is one with the cell.
fn with_cell(position: (u32, u32), said: Option<Dimensions>) -> Dimensions
    ensures { result ≡ covered position said }
{
    if let Some(area) = said {
        if area.contains(position.0, position.1) {
            return area;
        }
    }
    Dimensions {
        start: position,
        end: position,
    }
}

/// The area that the last `f` of the cell at a position covers: the cells that have its values
/// (ECMA-376 part 1, section 18.3.1.40). That is the area of an array, where it has the cell, and
/// else the cell alone. Rows and columns are counted from 0.
pub fn covered_area(last: &Option<Formula>, position: (u32, u32)) -> Dimensions
    ensures { result ≡ covered position (covers_seen last.now) }
{
    match last {
        Some(formula) => with_cell(position, formula.covers),
        None => with_cell(position, None),
    }
}
