//! The order of the leaves of a tree over formulas: those near each other on a sheet stand near
//! each other.
ghost use Rattle.std.specs.Prelude.{◌≡◌, ◌<◌, ◌≤◌, length, IfOk};
ghost use Rattle.std.specs.Bool.{OnTrue};
ghost use Rattle.std.specs.List.{slice_get};
ghost use Rattle.calculation_order.specs.Edges.{numbers_below};
ghost use Rattle.xlsx_graph.specs.Tree.{AreNumbers};

use crate::workbook_graph::Placed;
use cell_refs::Dimensions;
use std::alloc::{AllocError, Global};

/// Where a formula stands, and its number.
#[derive(Clone, Copy, Debug)]
struct Leaf {
    sheet: usize,
    covers: Dimensions,
    number: usize,
}

/// How many of so many leaves stand under the left son of the root, where all levels of the tree
/// but the last one are full, and the last one is filled from the left.
fn left_count(leaves: usize) -> usize
    requires { 2 ≤ leaves }
    ensures some { 0 < result }
    ensures others { result < leaves }
{
    let full = full_count(leaves);
    let half = full / 2;
    let last = leaves.saturating_sub(full).min(half);
    half.saturating_add(last).max(1).min(leaves - 1)
}

/// The greatest power of two that is not above a number.
fn full_count(leaves: usize) -> usize {
    let mut full: usize = 1;
    let mut rest = leaves / 2;
    while rest > 0 {
        full = full.saturating_mul(2);
        rest /= 2;
    }
    full
}

/// By the rows of what is covered first: its first and last row, its first and last column.
fn rows_first(covers: Dimensions) -> (u32, u32, u32, u32) {
    let Dimensions { start, end } = covers;
    (start.0, end.0, start.1, end.1)
}

/// By its columns first.
fn columns_first(covers: Dimensions) -> (u32, u32, u32, u32) {
    let Dimensions { start, end } = covers;
    (start.1, end.1, start.0, end.0)
}

/// Halves the leaves by their rows and by their columns in turn, those of several sheets by their
/// sheets first.
fn arrange(leaves: &mut [Leaf], is_by_rows: bool) {
    if leaves.len() < 2 {
        return;
    }
    if is_by_rows {
        leaves.sort_unstable_by_key(|leaf| (leaf.sheet, rows_first(leaf.covers)));
    } else {
        leaves.sort_unstable_by_key(|leaf| (leaf.sheet, columns_first(leaf.covers)));
    }
    let left = left_count(leaves.len());
    arrange(&mut leaves[..left], !is_by_rows);
    arrange(&mut leaves[left..], !is_by_rows);
}

/// The formulas by where they stand.
fn places(alloc: Global, placed: &[Placed]) -> Result<Vec<Leaf>, AllocError> {
    let mut leaves = Vec::with_capacity(alloc, placed.len())?;
    for (number, own) in placed.iter().enumerate() {
        leaves.push(Leaf {
            sheet: own.cell.sheet,
            covers: own.covers,
            number,
        })?;
    }
    Ok(leaves)
}

/// Appends the numbers of leaves.
fn push_numbers(order: &mut Vec<usize>, leaves: &[Leaf]) -> Result<(), AllocError> {
    for leaf in leaves {
        order.push(leaf.number)?;
    }
    Ok(())
}

/// The formulas as they are to stand: the leaves of the last level behind those of the level above,
/// since the nodes are counted level by level.
fn arranged(alloc: Global, placed: &[Placed]) -> Result<Vec<usize>, AllocError> {
    let mut leaves = places(alloc, placed)?;
    arrange(&mut leaves, true);
    let over = leaves.len().saturating_sub(full_count(leaves.len()));
    let last = over.saturating_mul(2).min(leaves.len());
    let mut order = Vec::with_capacity(alloc, leaves.len())?;
    push_numbers(&mut order, &leaves[last..])?;
    push_numbers(&mut order, &leaves[..last])?;
    Ok(order)
}

/// The number of the formula of a leaf, if there is one.
pub(crate) fn number_at(order: &[usize], leaf: usize) -> Option<usize>
    ensures { result ≡ slice_get order.now leaf }
{
    order.get(leaf).copied()
}

/// The formula of a number, if there is one.
pub(crate) fn placed_at(placed: &[Placed], number: usize) -> Option<Placed>
    ensures { result ≡ slice_get placed.now number }
{
    placed.get(number).copied()
}

/// Whether all numbers of as many formulas are there.
fn are_numbers(alloc: Global, order: &[usize]) -> Result<bool, AllocError>
    ensures { IfOk result (λ are. OnTrue are (AreNumbers order.now)) }
{
    let mut seen = vec![in alloc; false; order.len()]?;
    for number in order {
        if *number >= seen.len() {
            return Ok(false);
        }
        seen[*number] = true;
    }
    Ok(seen.iter().all(|is_seen| *is_seen))
}

/// So many formulas by their numbers.
fn by_numbers(alloc: Global, count: usize) -> Result<Vec<usize>, AllocError>
    ensures { IfOk result (λ order. order.items ≡ numbers_below count) }
{
    let mut order = Vec::with_capacity(alloc, count)?;
    for number in 0..count {
        order.push(number)?;
    }
    Ok(order)
}

/// The formulas in an order in which those near each other stand near each other. What is arranged
/// has all of them, and no other number; if it hadn't, they would stand by their numbers.
pub(crate) fn leaves_of(alloc: Global, placed: &[Placed]) -> Result<Vec<usize>, AllocError>
    ensures size { IfOk result (λ order. length order.items ≡ length placed.now) }
    ensures numbers { IfOk result (λ order. AreNumbers order.items) }
{
    let order = arranged(alloc, placed)?;
    if order.len() == placed.len() && are_numbers(alloc, &order)? {
        return Ok(order);
    }
    by_numbers(alloc, placed.len())
}
