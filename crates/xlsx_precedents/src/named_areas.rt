//! All areas that formulas name, and the cell of each.
ghost use Rattle.std.specs.Prelude.{◌≡◌, ◌≤◌, ◌++◌, [], length, replicate, true, OnOk};
ghost use Rattle.std.specs.List.{list_all, slice_get, slice_range};
ghost use Rattle.cell_refs.specs.Words.{is_sheet_area};
ghost use Rattle.xlsx_precedents.specs.Precedents.{areas};

use crate::areas::push_areas;
use cell_refs::Dimensions;
use std::alloc::{AllocError, Global};

/// Areas in the order in which formulas name them, and for each of them the cell of its formula, a
/// row and a column counted from 0.
#[derive(Debug, Drop)]
pub(crate) struct NamedAreas {
    areas: Vec<Dimensions>,
    cells: Vec<(u32, u32)>,
}

impl NamedAreas {
    /// No areas.
    pub(crate) fn new(alloc: Global) -> NamedAreas
        ensures areas { result.areas.items ≡ [] }
        ensures cells { result.cells.items ≡ [] }
    {
        NamedAreas {
            areas: Vec::new(alloc),
            cells: Vec::new(alloc),
        }
    }

    /// How many areas there are.
    pub(crate) fn len(&self) -> usize
        ensures { result ≡ length self.now.areas.items }
    {
        self.areas.len()
    }

    /// All areas.
    pub(crate) fn as_slice(&self) -> &[Dimensions]
        ensures { result.now ≡ self.now.areas.items }
    {
        &self.areas
    }

    /// The areas from one number up to another.
    pub(crate) fn between(&self, first: usize, end: usize) -> &[Dimensions]
        requires order { first ≤ end }
        requires within { end ≤ length self.now.areas.items }
        ensures { result.now ≡ slice_range self.now.areas.items first end }
    {
        &self.areas[first..end]
    }

    /// Appends the areas that the formula of a cell names. On `Err` some of them may be there.
    pub(crate) fn push_formula(&mut self, pos: (u32, u32), formula: &str) -> Result<(), AllocError>
        requires { length self.old.cells.items ≡ length self.old.areas.items }
        ensures areas { OnOk result
            (self.new.areas.items ≡ self.old.areas.items ++ areas formula.now) }
        ensures cells { OnOk result (self.new.cells.items
            ≡ self.old.cells.items ++ replicate (length (areas formula.now)) pos) }
        ensures on_sheet { OnOk result (list_all is_sheet_area self.old.areas.items ≡ true →
            list_all is_sheet_area self.new.areas.items ≡ true) }
    {
        push_areas(&mut self.areas, formula)?;
        self.cells.resize(self.areas.len(), pos)?;
        Ok(())
    }

    /// The cell of the formula that names the area of a number.
    pub(crate) fn cell(&self, number: usize) -> Option<(u32, u32)>
        ensures { result ≡ slice_get self.now.cells.items number }
    {
        self.cells.get(number).copied()
    }
}
