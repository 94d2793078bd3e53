//! The areas that references name.
ghost use Rattle.std.specs.Prelude.{◌≡◌, true};
ghost use Rattle.formula_shift.specs.References.{IsInWorksheet};
ghost use Rattle.formula_shift.specs.Areas.{first_named, last_named, area_between, area_named};
ghost use Rattle.cell_refs.specs.Words.{is_sheet_area};

use crate::corner::Corner;
use crate::reference::Reference;
use cell_refs::{Dimensions, MAX_COLUMNS, MAX_ROWS};

/// The first position that a corner names, a row and a column counted from 0.
fn first_named(corner: Corner) -> (u32, u32)
    ensures { result ≡ first_named corner }
{
    match corner {
        Corner::Cell { row, col, .. } => (row, col),
        Corner::Row { row, .. } => (row, 0),
        Corner::Column { col, .. } => (0, col),
    }
}

/// The last position that a corner names, a row and a column counted from 0.
fn last_named(corner: Corner) -> (u32, u32)
    ensures { result ≡ last_named corner }
{
    match corner {
        Corner::Cell { row, col, .. } => (row, col),
        Corner::Row { row, .. } => (row, MAX_COLUMNS - 1),
        Corner::Column { col, .. } => (MAX_ROWS - 1, col),
    }
}

/// The least area that has what two corners name.
fn area_between(a: Corner, b: Corner) -> Dimensions
    ensures { result ≡ area_between a b }
{
    let (first, other_first) = (first_named(a), first_named(b));
    let (last, other_last) = (last_named(a), last_named(b));
    Dimensions {
        start: (first.0.min(other_first.0), first.1.min(other_first.1)),
        end: (last.0.max(other_last.0), last.1.max(other_last.1)),
    }
}

impl Reference {
    /// The area that the reference names, its first corner upper left, rows and columns counted
    /// from 0: the cells between its two corners, or the one that it names. A row has all columns
    /// of a worksheet, and a column all rows.
    #[tactic(auto, unfolding(crate::specs::Areas::area_named))]
    pub fn area_named(self) -> Dimensions
        ensures value { result ≡ area_named self }
        ensures on_sheet { IsInWorksheet self → is_sheet_area result ≡ true }
    {
        match self.second {
            Some(second) => area_between(self.first, second),
            None => area_between(self.first, self.first),
        }
    }
}
