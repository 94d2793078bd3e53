//! The first formula on cycles with each, by what each vertex reaches: as plain as the definition,
//! and far slower than the search, for answers of it that aren't seen to be right.
ghost use Rattle.std.specs.Prelude.{◌≡◌, map, IfOk, OnOk};
ghost use Rattle.std.specs.List.{flat_map};
ghost use Rattle.calculation_order.specs.Edges.{are_together, is_number_of, needs_of};
ghost use Rattle.calculation_order.specs.Edges.{numbers_below, first_of, reached, with_number};
ghost use Rattle.calculation_order.specs.Edges.{with_numbers};
ghost use Rattle.calculation_order.specs.Components.{first_among};

use crate::links::Links;
use std::alloc::{AllocError, Global};

/// Whether a number is one of these.
fn is_number_of(numbers: &[usize], number: usize) -> bool
    ensures { result ≡ is_number_of numbers.now number }
{
    numbers.iter().any(|own| *own == number)
}

/// Adds a number, if it isn't there.
fn push_number(numbers: &mut Vec<usize>, number: usize) -> Result<(), AllocError>
    ensures { OnOk result (numbers.new.items ≡ with_number numbers.old.items number) }
{
    if !is_number_of(numbers, number) {
        numbers.push(number)?;
    }
    Ok(())
}

/// Adds those numbers that aren't there.
fn push_numbers(numbers: &mut Vec<usize>, more: &[usize]) -> Result<(), AllocError>
    ensures { OnOk result (numbers.new.items ≡ with_numbers numbers.old.items more.now) }
{
    for number in more {
        push_number(numbers, *number)?;
    }
    Ok(())
}

/// Adds what those that are there lead to.
fn push_targets(links: &Links, numbers: &mut Vec<usize>) -> Result<(), AllocError>
    ensures { OnOk result (numbers.new.items ≡ with_numbers numbers.old.items
        (flat_map (needs_of links.now.links) numbers.old.items)) }
{
    let old = numbers.clone()?;
    for vertex in &old {
        push_numbers(numbers, links.of(*vertex))?;
    }
    Ok(())
}

/// What a vertex reaches.
fn reached(alloc: Global, links: &Links, vertex: usize) -> Result<Vec<usize>, AllocError>
    ensures { IfOk result (λ numbers. numbers.items ≡ reached links.now.links vertex) }
{
    let mut numbers = Vec::new(alloc);
    numbers.extend_from_slice(links.of(vertex))?;
    for _ in 0..links.len() {
        push_targets(links, &mut numbers)?;
    }
    Ok(numbers)
}

/// Whether two vertices reach each other.
fn are_together(
    alloc: Global,
    links: &Links,
    vertex: usize,
    other: usize,
) -> Result<bool, AllocError>
    ensures { IfOk result (λ are. are ≡ are_together links.now.links vertex other) }
{
    Ok(
        is_number_of(&reached(alloc, links, vertex)?, other)
            && is_number_of(&reached(alloc, links, other)?, vertex),
    )
}

/// The first formula that a vertex reaches and that reaches it.
fn first_among(alloc: Global, links: &Links, vertex: usize) -> Result<Option<usize>, AllocError>
    ensures { IfOk result (λ first. first ≡ first_among links.now vertex) }
{
    for formula in 0..links.formulas() {
        if are_together(alloc, links, vertex, formula)? {
            return Ok(Some(formula));
        }
    }
    Ok(None)
}

/// For each formula the first one on cycles with it.
pub(crate) fn firsts_plainly(alloc: Global, links: &Links) -> Result<Vec<Option<usize>>, AllocError>
    ensures { IfOk result (λ firsts. firsts.items
        ≡ map (first_among links.now) (numbers_below links.now.formulas)) }
{
    let mut firsts = Vec::with_capacity(alloc, links.formulas())?;
    for formula in 0..links.formulas() {
        firsts.push(first_among(alloc, links, formula)?)?;
    }
    Ok(firsts)
}
