//! The first formula on cycles with each, by the components of links.
ghost use Rattle.std.specs.Prelude.{◌≡◌, ◌<◌, map, true, IfOk, None};
ghost use Rattle.std.specs.List.{slice_index_or};
ghost use Rattle.calculation_order.specs.Components.{are_certain, first_around, HasHeads};
ghost use Rattle.calculation_order.specs.Edges.{numbers_below};
ghost use Rattle.calculation_order.specs.Links.{AreGrouped};

use crate::components::Components;
use crate::links::Links;
use std::alloc::{AllocError, Global};

/// For each component, by its number, its first formula that leads around.
fn heads(alloc: Global, links: &Links, found: &Components) -> Result<Vec<Option<usize>>, AllocError>
    requires grouped { AreGrouped links.now }
    requires certain { are_certain links.now.links found.now ≡ true }
    ensures { IfOk result (λ heads. HasHeads links.now found.now 0 heads.items) }
{
    let mut heads = vec![in alloc; None; found.len()]?;
    let mut vertex = links.formulas();
    while vertex > 0 {
        vertex -= 1;
        if found.leads_around(links, vertex) {
            heads[found.rank(vertex)] = Some(vertex);
        }
    }
    Ok(heads)
}

/// The first formula of a component.
fn head_of(heads: &[Option<usize>], rank: usize) -> Option<usize>
    ensures { result ≡ slice_index_or heads.now rank None }
{
    match heads.get(rank) {
        Some(head) => *head,
        None => None,
    }
}

/// The first formula of the component of one that leads around.
fn first_around(
    links: &Links,
    found: &Components,
    heads: &[Option<usize>],
    vertex: usize,
) -> Option<usize>
    requires grouped { AreGrouped links.now }
    requires certain { are_certain links.now.links found.now ≡ true }
    requires heads { HasHeads links.now found.now 0 heads.now }
    requires below { vertex < links.now.formulas }
    ensures { result ≡ first_around links.now.links found.now links.now.formulas vertex }
{
    if found.leads_around(links, vertex) {
        head_of(heads, found.rank(vertex))
    } else {
        None
    }
}

/// For each formula the first one of its component, where it leads around.
pub(crate) fn firsts_around(
    alloc: Global,
    links: &Links,
    found: &Components,
) -> Result<Vec<Option<usize>>, AllocError>
    requires grouped { AreGrouped links.now }
    requires certain { are_certain links.now.links found.now ≡ true }
    ensures { IfOk result (λ firsts. firsts.items
        ≡ map (first_around links.now.links found.now links.now.formulas)
        (numbers_below links.now.formulas)) }
{
    let heads = heads(alloc, links, found)?;
    let mut firsts = Vec::with_capacity(alloc, links.formulas())?;
    for vertex in 0..links.formulas() {
        firsts.push(first_around(links, found, &heads, vertex))?;
    }
    Ok(firsts)
}
