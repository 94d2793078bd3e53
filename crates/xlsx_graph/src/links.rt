//! Which formulas of a workbook need which, by links.
ghost use Rattle.std.specs.Prelude.{◌≡◌, ◌∷◌, ◌++◌, ℕ, [], IfOk, List, OnOk, length, map, true};
ghost use Rattle.std.specs.List.{list_all};
ghost use Rattle.calculation_order.specs.Links.{AreGrouped, AreLinked};
ghost use Rattle.xlsx_graph.specs.Gathered.{formula_in, lies_in_areas};
ghost use Rattle.xlsx_graph.specs.Graph.{needed};
ghost use Rattle.xlsx_graph.specs.Naming.{OpenText};
ghost use Rattle.xlsx_graph.specs.Tree.{AreWatched, IsTree};
ghost use Rattle.xlsx_graph.specs.declared.workbook_graph.Placed.{Placed};

use crate::named::BookArea;
use crate::tree::Tree;
use crate::workbook_graph::Placed;
use calculation_order::Links;
use std::alloc::{AllocError, Global};

/// Closes a formula by its links to the nodes of a tree that tell what it needs.
fn push_formula(
    links: &mut Links,
    tree: &Tree,
    placed: &[Placed],
    areas: &[BookArea],
    own: Placed,
) -> Result<(), AllocError>
    requires tree { IsTree placed.now tree.now.order.items tree.now.hulls.items }
    requires within { lies_in_areas (length areas.now) own ≡ true }
    ensures { OnOk result ((count : ℕ) (asking : List Placed) →
        AreWatched areas.now placed.now tree.now.order.items count asking links.old →
        AreWatched areas.now placed.now tree.now.order.items count (asking ++ own ∷ []) links.new) }
{
    tree.watch(links, placed, &areas[own.areas.0..own.areas.1])?;
    links.close()
}

/// The formulas, each by its links to the nodes of a tree that tell what it needs.
pub(crate) fn formula_links(
    alloc: Global,
    tree: &Tree,
    placed: &[Placed],
    areas: &[BookArea],
) -> Result<Links, AllocError>
    requires tree { IsTree placed.now tree.now.order.items tree.now.hulls.items }
    requires within { list_all (lies_in_areas (length areas.now)) placed.now ≡ true }
    ensures { IfOk result (λ links. AreWatched areas.now placed.now tree.now.order.items
        (length placed.now) placed.now links) }
{
    let mut links = Links::new(alloc, placed.len());
    for own in placed {
        push_formula(&mut links, tree, placed, areas, *own)?;
    }
    Ok(links)
}

/// Which formulas need which: first the formulas, each by its links to the nodes of a tree over
/// them, and behind them the forks of the tree.
pub(crate) fn links_of(
    alloc: Global,
    placed: &[Placed],
    areas: &[BookArea],
) -> Result<Links, AllocError>
    requires { list_all (lies_in_areas (length areas.now)) placed.now ≡ true }
    ensures grouped { IfOk result AreGrouped }
    ensures linked { IfOk result (λ links. (words : List OpenText) →
        AreLinked (needed (map (formula_in areas.now words) placed.now)) links) }
{
    let tree = Tree::new(alloc, placed)?;
    let mut links = formula_links(alloc, &tree, placed, areas)?;
    tree.push_forks(&mut links)?;
    Ok(links)
}
