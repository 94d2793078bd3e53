//! The index of the formulas of a sheet by the cells that they name.
ghost use Rattle.std.specs.Prelude.{◌≡◌, ◌+◌, ◌^◌, ◌<◌, ◌≤◌, ℕ, [], map, length, IfOk, OnOk};
ghost use Rattle.std.specs.FinMap.{find};
ghost use Rattle.std.specs.List.{slice_get};
ghost use Rattle.std.specs.Option.{unwrap_or};
ghost use Rattle.cell_data.specs.Words.{AreInSheet, cells_of};
ghost use Rattle.cell_refs.specs.Words.{position_cmp};
ghost use Rattle.sorted_cells.specs.Words.{kept_cells};
ghost use Rattle.xlsx_precedents.specs.Kept.{entry_in, AreCellsGathered};
ghost use Rattle.xlsx_precedents.specs.Numbers.{put_once, is_this, last_cell, found_by};
ghost use Rattle.xlsx_precedents.specs.Precedents.{areas_named_by, formula_of_cell};
ghost use Rattle.xlsx_precedents.specs.Precedents.{direct_dependents, all_named, steps_within};

use crate::named_areas::NamedAreas;
use crate::spans::{Span, numbers_at, spans_of};
use cell_data::Range;
use cell_refs::Dimensions;
use counted_steps::Steps;
use sorted_cells::SortedCells;
use std::alloc::{AllocError, Global};
use std::marker::{Brand, Model};
use std::sync::ledger::{Blank, Ledger};

/// The formulas of a sheet, each by its cell and the areas that it names, for the question which
/// formulas name a cell.
///
/// The areas are kept once more by their first rows, as a tree by halving, so that a search goes
/// where an area has the row that is asked for, and to few others.
#[derive(Drop)]
pub struct DependencyIndex {
    cells: SortedCells<(usize, usize)>,
    named: NamedAreas,
    spans: Vec<Span>,
}

impl Model for DependencyIndex {
    ghost use Rattle.std.specs.Prelude.{ℕ, List, map};
    ghost use Rattle.cell_refs.specs.declared.dimensions.Dimensions.{Dimensions};
    ghost use Rattle.sorted_cells.specs.Words.{kept_cells};
    ghost use Rattle.xlsx_precedents.specs.Kept.{entry_in, AreCellsGathered};
    ghost use Rattle.xlsx_precedents.specs.Spans.{AreSpans};

    ghost Value = { List ((ℕ × ℕ) × List Dimensions) };

    ghost view = { λ index. map (entry_in index.named.areas.items) (kept_cells index.cells) };

    ghost invariant = { λ index. AreCellsGathered (kept_cells index.cells) index.named
        × AreSpans index.named.areas.items index.spans.items };
}

impl DependencyIndex {
    /// The index of the used cells, each with the areas that its formula names.
    ///
    /// It takes memory by the number of the areas that formulas name: for each its corners twice,
    /// its cell, its number and a row.
    pub fn build(alloc: Global, formulas: &Range<String>) -> Result<DependencyIndex, AllocError>
        ensures entries { IfOk result
            (λ index. index ≡ map areas_named_by (map formula_of_cell (cells_of formulas.now))) }
        ensures sheet { IfOk result AreInSheet }
    {
        let (cells, named) = gather(alloc, formulas)?;
        let spans = spans_of(alloc, named.as_slice())?;
        Ok(DependencyIndex {
            cells,
            named,
            spans,
        })
    }

    /// The areas that the formula at a position names, a row and a column counted from 0, in order;
    /// none where there is no formula. It takes no memory.
    pub fn precedents(&self, pos: (u32, u32)) -> &[Dimensions]
        ensures { result.now ≡ unwrap_or (find position_cmp pos self.now) [] }
    {
        match self.cells.get(pos) {
            Some(&(first, end)) => self.named.between(first, end),
            None => &[],
        }
    }

    /// The cells whose formulas name the cell at a position, each once, row by row, as rows and
    /// columns counted from 0.
    pub fn dependents(&self, alloc: Global, pos: (u32, u32)) -> Result<Vec<(u32, u32)>, AllocError>
        ensures { IfOk result (λ found. found.items ≡ direct_dependents self.now pos) }
    {
        self.dependents_uncounted::<Brand>(alloc, pos, Blank::new(1))
    }

    /// The answer of `dependents`. Where the number of all areas has so many binary digits, it is
    /// found in at most two steps for each digit, and two more for each digit and each area that
    /// has cells of the row that is asked for. A step is a look at an area.
    pub fn dependents_counted<L: Ledger>(
        &self,
        alloc: Global,
        pos: (u32, u32),
        steps: &mut Steps<L>,
    ) -> Result<Vec<(u32, u32)>, AllocError>
        ensures value { IfOk result (λ found. found.items ≡ direct_dependents self.now pos) }
        ensures counted { steps.old ≤ steps.new }
        ensures cost { (digits : ℕ) → length (all_named self.now) < 2 ^ digits →
            steps.new ≤ steps.old + steps_within self.now pos digits }
    {
        let numbers = numbers_at(alloc, self.named.as_slice(), &self.spans, pos, steps)?;
        found_by(alloc, &self.named, &numbers)
    }

    /// The search, by a counter that nobody reads.
    fn dependents_uncounted<L: Ledger>(
        &self,
        alloc: Global,
        pos: (u32, u32),
        blank: Blank,
    ) -> Result<Vec<(u32, u32)>, AllocError>
        requires name { blank.name ≡ L.name }
        requires parts { blank.parts ≡ L.parts }
        requires some { 0 < blank.parts }
        ensures { IfOk result (λ found. found.items ≡ direct_dependents self.now pos) }
    {
        let mut steps = Steps::<L>::new(blank);
        self.dependents_counted(alloc, pos, &mut steps)
    }
}

/// The used cells with the places of their areas, and all areas with their cells.
fn gather(
    alloc: Global,
    formulas: &Range<String>,
) -> Result<(SortedCells<(usize, usize)>, NamedAreas), AllocError>
    ensures gathered { IfOk result (λ all. AreCellsGathered (kept_cells all.0) all.1) }
    ensures entries { IfOk result
        (λ all. map (entry_in all.1.areas.items) (kept_cells all.0)
        ≡ map areas_named_by (map formula_of_cell (cells_of formulas.now))) }
    ensures sheet { IfOk result
        (λ all. AreInSheet (map (entry_in all.1.areas.items) (kept_cells all.0))) }
{
    let mut cells = SortedCells::with_capacity(alloc, formulas.used_count())?;
    let mut named = NamedAreas::new(alloc);
    for (pos, formula) in formulas.used() {
        let first = named.len();
        named.push_formula(pos, formula.as_str())?;
        cells.push(pos, (first, named.len()))?;
    }
    Ok((cells, named))
}

/// The cells whose formulas name the areas of these numbers. One that came last isn't put again.
fn found_by(
    alloc: Global,
    named: &NamedAreas,
    numbers: &[usize],
) -> Result<Vec<(u32, u32)>, AllocError>
    ensures { IfOk result (λ found. found.items
        ≡ found_by (λ n. slice_get named.now.cells.items n) [] numbers.now) }
{
    let mut found = Vec::new(alloc);
    for number in numbers {
        if let Some(cell) = named.cell(*number) {
            put_once(&mut found, cell)?;
        }
    }
    Ok(found)
}

/// Puts a cell behind those that were found, unless it is the last of them.
fn put_once(found: &mut Vec<(u32, u32)>, cell: (u32, u32)) -> Result<(), AllocError>
    ensures { OnOk result (found.new.items ≡ put_once found.old.items cell) }
{
    if !is_last(found, cell) {
        found.push(cell)?;
    }
    Ok(())
}

/// Whether a cell is the last of those that were found.
fn is_last(found: &[(u32, u32)], cell: (u32, u32)) -> bool
    ensures { result ≡ is_this cell (last_cell found.now) }
{
    match found.last() {
        Some(last) => last.0 == cell.0 && last.1 == cell.1,
        None => false,
    }
}
