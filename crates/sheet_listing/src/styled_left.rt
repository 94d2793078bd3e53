//! The styled positions that a listing has still to pass.
ghost use Rattle.std.specs.Prelude.{◌≡◌, map};
ghost use Rattle.cell_styles.specs.Words.{styled_entry};
ghost use Rattle.sorted_cells.specs.Words.{first_position, left_behind, value_first};
ghost use Rattle.sheet_listing.specs.SheetListing.{ids_left};

use cell_styles::StyledCells;

/// The positions with a style id above 0 that are left, of which the first is known.
#[derive(Drop)]
pub struct StyledLeft<'a> {
    first: Option<(u32, u32, usize)>,
    behind: StyledCells<'a>,
}

impl<'a> StyledLeft<'a> {
    /// All of these positions.
    pub fn new(cells: StyledCells<'a>) -> StyledLeft<'a>
        ensures { ids_left result ≡ map styled_entry cells.entry }
    {
        let mut behind = cells;
        let first = behind.next();
        StyledLeft { first, behind }
    }

    /// The row and the column of the next one, counted from 0, and it stays the next one.
    pub fn next_position(&self) -> Option<(u32, u32)>
        ensures { result ≡ first_position (ids_left self.now) }
    {
        let (row, column, _) = self.first?;
        Some((row, column))
    }

    /// The id of the next one where it stands at this row and this column, counted from 0, and it
    /// is passed; else nothing, and it stays the next one.
    pub fn next_at(&mut self, pos: (u32, u32)) -> Option<usize>
        ensures value { result ≡ value_first pos (ids_left self.old) }
        ensures left { ids_left self.new ≡ left_behind pos (ids_left self.old) }
    {
        let (row, column, id) = self.first?;
        if (row, column) != pos {
            return None;
        }
        self.first = self.behind.next();
        Some(id)
    }
}
