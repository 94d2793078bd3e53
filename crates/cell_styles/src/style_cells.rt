ghost use Rattle.std.specs.Prelude.{◌≡◌, ◌<◌, length, slice_get, Some};
ghost use Rattle.std.specs.Iterator.{YieldsFirstBy, item_count};

use crate::Style;
use crate::filling::position_in;
use crate::style_runs::{StyleRun, behind_first};
use cell_refs::Dimensions;
use std::marker::Model;

/// The positions of an area with their styles, row by row. A contract sees what is left of them.
#[derive(Drop)]
pub struct StyleRangeCells<'a> {
    area: Dimensions,
    palette: &'a [Style],
    runs: &'a [StyleRun],
    place: usize,
}

impl<'a> Model for StyleRangeCells<'a> {
    ghost use Rattle.std.specs.Prelude.{List, length};
    ghost use Rattle.cell_styles.specs.StyleRuns.{numbers_along};
    ghost use Rattle.cell_styles.specs.StyleItems.{CellStyle, LieAhead, cells_along};

    ghost Value = { List CellStyle };

    ghost view = { λ cells.
        cells_along cells.area cells.palette.now cells.place
        (numbers_along cells.place cells.runs.now) };

    ghost invariant = { λ cells.
        LieAhead cells.area (length cells.palette.now) cells.place cells.runs.now };
}

impl<'a> StyleRangeCells<'a> {
    ghost use Rattle.cell_styles.specs.StyleRuns.{numbers_along};
    ghost use Rattle.cell_styles.specs.StyleItems.{LieAhead, cells_along};

    /// The positions of this area with their styles, of which none was taken yet. The runs give the
    /// ids of the positions, in order. An id is a place in the palette, counted from 0.
    pub fn new(area: Dimensions, palette: &'a [Style], runs: &'a [StyleRun]) -> StyleRangeCells<'a>
        requires { LieAhead area (length palette.now) 0 runs.now }
        ensures { result ≡ cells_along area palette.now 0 (numbers_along 0 runs.now) }
    {
        StyleRangeCells {
            area,
            palette,
            runs,
            place: 0,
        }
    }
}

impl<'a> Iterator for StyleRangeCells<'a> {
    ghost use Rattle.std.specs.Prelude.{Some};

    type Item = (u32, u32, &'a Style);

    ghost next_gives = { YieldsFirstBy (λ item. (item.0, item.1, Some item.2.now)) (λ left. left) };

    ghost remaining = { item_count (λ left. left) };

    fn next(&mut self) -> Option<(u32, u32, &'a Style)> {
        let run = self.runs.first()?;
        let (row, column) = position_in(self.area, self.place);
        let style = style_of(self.palette, run.id);
        self.runs = behind_first(self.runs, self.place);
        self.place += 1;
        Some((row, column, style))
    }
}

fn style_of(palette: &[Style], id: usize) -> &Style
    requires { id < length palette.now }
    ensures { slice_get palette.now id ≡ Some result.now }
{
    &palette[id]
}
