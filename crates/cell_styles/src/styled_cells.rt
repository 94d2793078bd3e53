ghost use Rattle.std.specs.Prelude.{◌≡◌, ◌<◌, length};
ghost use Rattle.std.specs.Iterator.{YieldsFirst, item_count};
ghost use Rattle.cell_styles.specs.StyleRuns.{IsCanonical};
ghost use Rattle.cell_styles.specs.StyleItems.{PassesBlank};

use crate::filling::position_in;
use crate::style_runs::{StyleRun, behind_first};
use cell_refs::Dimensions;
use std::marker::Model;

/// The positions of an area that have an id above 0, with that id, row by row. A contract sees what
/// is left of them.
#[derive(Drop)]
pub struct StyledCells<'a> {
    area: Dimensions,
    runs: &'a [StyleRun],
    place: usize,
}

impl<'a> Model for StyledCells<'a> {
    ghost use Rattle.std.specs.Prelude.{List};
    ghost use Rattle.cell_styles.specs.StyleMap.{StyledCell};
    ghost use Rattle.cell_styles.specs.StyleRuns.{numbers_along};
    ghost use Rattle.cell_styles.specs.StyleItems.{LieWithin, styled_along};

    ghost Value = { List StyledCell };

    ghost view = { λ cells.
        styled_along cells.area cells.place (numbers_along cells.place cells.runs.now) };

    ghost invariant = { λ cells. LieWithin cells.area cells.place cells.runs.now };
}

impl<'a> StyledCells<'a> {
    ghost use Rattle.cell_styles.specs.StyleRuns.{numbers_along};
    ghost use Rattle.cell_styles.specs.StyleItems.{LieWithin, styled_along};

    /// The positions of this area with an id above 0, of which none was taken yet. The runs give
    /// the ids of the positions, in order.
    pub fn new(area: Dimensions, runs: &'a [StyleRun]) -> StyledCells<'a>
        requires { LieWithin area 0 runs.now }
        ensures { result ≡ styled_along area 0 (numbers_along 0 runs.now) }
    {
        StyledCells {
            area,
            runs,
            place: 0,
        }
    }
}

impl<'a> Iterator for StyledCells<'a> {
    type Item = (u32, u32, usize);

    ghost next_gives = { YieldsFirst (λ left. left) };

    ghost remaining = { item_count (λ left. left) };

    fn next(&mut self) -> Option<(u32, u32, usize)> {
        let (place, runs) = behind_blank(self.runs, self.place);
        let id = runs.first()?.id;
        let (row, column) = position_in(self.area, place);
        self.runs = behind_first(runs, place);
        self.place = place + 1;
        Some((row, column, id))
    }
}

/// The first place and the runs behind a run without style, where one comes first.
fn behind_blank(runs: &[StyleRun], place: usize) -> (usize, &[StyleRun])
    requires { IsCanonical place runs.now }
    ensures { PassesBlank place runs.now result.0 result.1.now }
{
    match runs.split_first() {
        Some((run, others)) if run.id == 0 => (run.end, others),
        _ => (place, runs),
    }
}
