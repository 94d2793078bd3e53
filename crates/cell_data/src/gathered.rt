ghost use Rattle.std.specs.Prelude.{◌≡◌, ℕ, List, ◌++◌, ◌∷◌, [], true, OnOk, OnErr, IfOk};
ghost use Rattle.cell_refs.specs.Words.{is_rising, last_of_each};
ghost use Rattle.sorted_cells.specs.Words.{kept_cells};
ghost use Rattle.cell_data.specs.Cells.{placed_cells};
ghost use Rattle.cell_data.specs.Gathered.{cells_gathered};

use crate::cell::Cell;
use sorted_cells::SortedCells;
use std::alloc::{AllocError, Global};
use std::collections::BTreeMap;

/// Cells as they come: sorted ones, and from the first on that doesn't come after those before it,
/// the others as they are.
#[derive(Drop)]
pub struct GatheredCells<T> {
    sorted: SortedCells<T>,
    others: Vec<Cell<T>>,
}

impl<T> GatheredCells<T> {
    /// No cells.
    pub fn new(alloc: Global) -> GatheredCells<T>
        ensures { cells_gathered result ≡ [] }
    {
        GatheredCells {
            sorted: SortedCells::new(alloc),
            others: Vec::new(alloc),
        }
    }

    /// Puts a cell behind the others, at a row and a column counted from 0. Where memory is
    /// wanting, the cells stay as they were.
    pub fn push(&mut self, pos: (u32, u32), val: T) -> Result<(), AllocError>
    where
        T: Drop,
        ensures ok { OnOk result
            (cells_gathered self.new ≡ cells_gathered self.old ++ (pos, val) ∷ []) }
        ensures err { OnErr result (cells_gathered self.new ≡ cells_gathered self.old) }
    {
        if self.others.is_empty() && self.sorted.comes_last(pos) {
            return self.sorted.push(pos, val);
        }
        self.others.push(Cell::new(pos, val))?;
        Ok(())
    }

    /// The last cell of each position, in the order of positions: row by row. Cells that came in
    /// that order stay where they are.
    pub fn into_sorted(self, alloc: Global) -> Result<SortedCells<T>, AllocError>
    where
        T: Drop,
        ensures { IfOk result (λ kept. kept_cells kept ≡ last_of_each (cells_gathered self)) }
    {
        let GatheredCells { sorted, others } = self;
        if others.is_empty() {
            return Ok(sorted);
        }
        let map = with_others(by_position(alloc, sorted)?, others)?;
        sorted_of(alloc, map)
    }
}

/// The cells of a list, as they come.
pub fn gathered<T: Drop>(alloc: Global, cells: Vec<Cell<T>>) -> Result<GatheredCells<T>, AllocError>
    ensures { IfOk result (λ all. cells_gathered all ≡ placed_cells cells.items) }
{
    let mut all = GatheredCells::new(alloc);
    for cell in cells {
        all.push(cell.pos, cell.val)?;
    }
    Ok(all)
}

/// The cells by their positions.
fn by_position<T: Drop>(
    alloc: Global,
    sorted: SortedCells<T>,
) -> Result<BTreeMap<(u32, u32), T>, AllocError>
    ensures { IfOk result (λ map. map.entries ≡ last_of_each (kept_cells sorted)) }
{
    let mut map = BTreeMap::new(alloc);
    for (pos, val) in sorted.into_iter() {
        map.insert(pos, val)?;
    }
    Ok(map)
}

/// The same with further cells: the last of each position stands.
fn with_others<T: Drop>(
    map: BTreeMap<(u32, u32), T>,
    others: Vec<Cell<T>>,
) -> Result<BTreeMap<(u32, u32), T>, AllocError>
    ensures { (front : List ((ℕ × ℕ) × T)) → map.entries ≡ last_of_each front →
        IfOk result (λ all. all.entries ≡ last_of_each (front ++ placed_cells others.items)) }
{
    let mut all = map;
    for cell in others {
        all.insert(cell.pos, cell.val)?;
    }
    Ok(all)
}

/// The cells of a map, in the order of positions.
fn sorted_of<T: Drop>(
    alloc: Global,
    map: BTreeMap<(u32, u32), T>,
) -> Result<SortedCells<T>, AllocError>
    requires { is_rising map.entries ≡ true }
    ensures { IfOk result (λ kept. kept_cells kept ≡ map.entries) }
{
    let mut kept = SortedCells::with_capacity(alloc, map.len())?;
    let mut left = map.into_iter();
    while let Some((pos, val)) = left.next() {
        kept.push(pos, val)?;
    }
    Ok(kept)
}
