ghost use Rattle.std.specs.Prelude.{◌≡◌, ◌+◌, ◌-◌, ◌*◌, ◌^◌, ◌<◌, ◌≤◌, ◌↔◌, None, IfOk, IsTrue, ℕ};
ghost use Rattle.std.specs.Prelude.{IsSome, All, nat_lt, count_by};
ghost use Rattle.std.specs.Option.{option_map, option_map_or, option_copied};
ghost use Rattle.cell_styles.specs.Groups.{group_count};
ghost use Rattle.cell_styles.specs.StyleItems.{position_styles, styled_of, RiseOnSheet, id_among};
ghost use Rattle.cell_styles.specs.StyleItems.{style_named};
ghost use Rattle.cell_styles.specs.StyleMap.{IsOnSheet, IsInBounds, no_styles, place_in_area};
ghost use Rattle.cell_styles.specs.StyleMap.{styles_of, style_at, width_in, height_in};

use crate::filling::{covering_area, explicit, filled, height, in_order, place_in, width};
use crate::style_runs::StyleRuns;
use crate::{Steps, Style, StyleRangeCells, StyledCells};
use cell_refs::Dimensions;
use std::alloc::{AllocError, Global};
use std::marker::{Brand, Model};
use std::sync::ledger::{Blank, Ledger};

/// Which style each position of a worksheet has, in memory that grows with the number of styled
/// cells.
///
/// Positions are a row and a column, counted from 0 in the worksheet. A position of the area that
/// has no style of its own has entry 0 of the palette.
///
/// # Examples
///
/// Three positions with a style, and what is told of them: the corners of the area, how many rows
/// and columns it has, and how many runs:
///
/// ```
/// let cells = vec![in alloc; (3, 1, 2), (1, 3, 1), (1, 1, 1)]?;
/// let range = StyleRange::from_style_ids(alloc, cells, palette(alloc)?)?;
/// let told = area_told(alloc, &range)?;
/// assert_text(&told, "1,1 to 3,3: 3 by 3 in 6", "told")?;
/// ```
#[derive(Debug, Drop)]
pub struct StyleRange {
    bounds: Option<Dimensions>,
    palette: Vec<Style>,
    ids: StyleRuns,
}

impl Model for StyleRange {
    ghost use Rattle.std.specs.Prelude.{length};
    ghost use Rattle.cell_styles.specs.StyleMap.{StyleMap, IsSound};

    ghost Value = { StyleMap };

    ghost view = { λ range. record {
      bounds = range.bounds;
      palette = range.palette.items;
      ids = range.ids;
    } };

    ghost invariant = { λ range. IsSound range.bounds (length range.palette.items) range.ids };
}

impl StyleRange {
    /// The range without an area.
    pub fn empty(alloc: Global) -> StyleRange
        ensures { result ≡ no_styles }
    {
        StyleRange {
            bounds: None,
            palette: Vec::new(alloc),
            ids: StyleRuns::new(alloc),
        }
    }

    /// The styles of the entries, each a row, a column and an index into the palette.
    ///
    /// An entry whose index is 0, or at or past the palette's length, is left out. Of several
    /// entries of one position the first stands. The area spans the entries that are left; without
    /// one the range is empty. Only want of memory is refused.
    pub fn from_style_ids(
        alloc: Global,
        cells: Vec<(u32, u32, usize)>,
        palette: Vec<Style>,
    ) -> Result<StyleRange, AllocError>
        requires { All IsOnSheet cells.items }
        ensures { IfOk result (λ range. range ≡ styles_of palette.items cells.items) }
    {
        let cells = explicit(cells, palette.len());
        match covering_area(&cells) {
            None => Ok(StyleRange::empty(alloc)),
            Some(bounds) => {
                let cells = in_order(cells, bounds)?;
                let ids = filled(alloc, &cells, bounds)?;
                Ok(StyleRange {
                    bounds: Some(bounds),
                    palette,
                    ids,
                })
            }
        }
    }

    /// A copy in memory of its own.
    pub fn clone_in(&self, alloc: Global) -> Result<StyleRange, AllocError>
        ensures { IfOk result (λ copy. copy ≡ self.now) }
    {
        Ok(StyleRange {
            bounds: self.bounds,
            palette: copied_palette(alloc, &self.palette)?,
            ids: self.ids.clone_in(alloc)?,
        })
    }

    /// The upper left corner of the area.
    pub fn start(&self) -> Option<(u32, u32)>
        ensures { result ≡ option_map (λ area. area.start) self.now.bounds }
    {
        self.bounds.map(|bounds| bounds.start)
    }

    /// The lower right corner of the area.
    pub fn end(&self) -> Option<(u32, u32)>
        ensures { result ≡ option_map (λ area. area.end) self.now.bounds }
    {
        self.bounds.map(|bounds| bounds.end)
    }

    /// Whether there is no area.
    pub fn is_empty(&self) -> bool
        ensures { IsTrue result ↔ (self.now.bounds ≡ None) }
    {
        self.bounds.is_none()
    }

    /// The number of columns of the area.
    pub fn width(&self) -> usize
        ensures { result ≡ option_map_or width_in self.now.bounds 0 }
    {
        match self.bounds {
            Some(bounds) => width(bounds),
            None => 0,
        }
    }

    /// The number of rows of the area.
    pub fn height(&self) -> usize
        ensures { result ≡ option_map_or height_in self.now.bounds 0 }
    {
        match self.bounds {
            Some(bounds) => height(bounds),
            None => 0,
        }
    }

    /// How many groups of equal neighbours the ids have, row by row.
    pub fn run_count(&self) -> usize
        ensures count { result ≡ group_count self.now.ids }
        ensures bound { result ≤ 2 * count_by (λ id. nat_lt 0 id) self.now.ids + 1 }
    {
        self.ids.count()
    }

    /// The style of a position of the area: that of its id, or entry 0 of the palette.
    pub fn get(&self, pos: (u32, u32)) -> Option<&Style>
        ensures value { option_copied result ≡ style_at self.now pos }
        ensures inside { IsSome result ↔ IsInBounds self.now.bounds pos }
    {
        self.get_uncounted::<Brand>(pos, Blank::new(1))
    }

    /// The answer of `get`, found in as many steps as the number of runs has binary digits. A step
    /// is a comparison with the end of a run.
    pub fn get_counted<L: Ledger>(&self, pos: (u32, u32), steps: &mut Steps<L>) -> Option<&Style>
        ensures value { option_copied result ≡ style_at self.now pos }
        ensures inside { IsSome result ↔ IsInBounds self.now.bounds pos }
        ensures counted { steps.old ≤ steps.new }
        ensures cost { 2 ^ (steps.new - steps.old) ≤ 2 * group_count self.now.ids + 1 }
    {
        let bounds = self.bounds?;
        if !bounds.contains(pos.0, pos.1) {
            return None;
        }
        let id = self.ids.id_at(place_in(bounds, pos.0, pos.1), steps);
        Some(&self.palette[id])
    }

    /// The style of a position whose id is known, without a search: that of the id inside the area,
    /// and none outside.
    pub fn style_with_id(&self, pos: (u32, u32), id: usize) -> Option<&Style>
        ensures { option_copied result ≡ style_named self.now pos id }
    {
        let bounds = self.bounds?;
        if !bounds.contains(pos.0, pos.1) {
            return None;
        }
        self.palette.get(id)
    }

    /// The positions of the area with their styles, row by row.
    pub fn cells(&self) -> StyleRangeCells<'_>
        ensures { result ≡ position_styles self.now }
    {
        match self.bounds {
            Some(area) => StyleRangeCells::new(area, &self.palette, self.ids.as_slice()),
            None => StyleRangeCells::new(Dimensions::default(), &[], &[]),
        }
    }

    /// The positions of the area that have an id above 0, with that id, row by row.
    pub fn styled(&self) -> StyledCells<'_>
        ensures cells { result ≡ styled_of self.now }
        ensures order { RiseOnSheet result }
        ensures ids { (position : ℕ × ℕ) →
            style_named self.now position (id_among result position) ≡ style_at self.now position }
    {
        match self.bounds {
            Some(area) => StyledCells::new(area, self.ids.as_slice()),
            None => StyledCells::new(Dimensions::default(), &[]),
        }
    }

    /// The search, by a counter that nobody reads.
    fn get_uncounted<L: Ledger>(&self, pos: (u32, u32), blank: Blank) -> Option<&Style>
        requires name { blank.name ≡ L.name }
        requires parts { blank.parts ≡ L.parts }
        requires some { 0 < blank.parts }
        ensures value { option_copied result ≡ style_at self.now pos }
        ensures inside { IsSome result ↔ IsInBounds self.now.bounds pos }
    {
        let mut steps = Steps::<L>::new(blank);
        self.get_counted(pos, &mut steps)
    }
}

/// A copy of these styles in memory of its own.
pub fn copied_palette(alloc: Global, palette: &[Style]) -> Result<Vec<Style>, AllocError>
    ensures { IfOk result (λ copy. copy.items ≡ palette.now) }
{
    let mut copy = Vec::new(alloc);
    for style in palette {
        copy.push(style.clone_in(alloc)?)?;
    }
    Ok(copy)
}
