//! A tree over the formulas of a workbook, by the cells that they cover.
//!
//! The formulas stand in an order in which those whose cells lie near each other stand near each
//! other, and are the leaves. A fork keeps what its leaves cover. An area is told by the nodes of
//! which it meets all, so that it needs no link for each of its cells.
ghost use Rattle.std.specs.Prelude.{◌≡◌, ◌≤◌, ◌*◌, ◌++◌, [], length, map, filter, IfOk, IfSome};
ghost use Rattle.std.specs.Prelude.{◌<◌, OnOk, option_to_list};
ghost use Rattle.std.specs.List.{flat_map};
ghost use Rattle.xlsx_graph.specs.Tree.{IsTree, Watches, asked_of, fork_links, meets_at, under};
ghost use Rattle.xlsx_graph.specs.Tree.{leaf_at, vertex_of, fork_count};

use crate::hulls::{Hull, hulls_of, may_meet, meets, meets_all};
use crate::leaves::{leaves_of, number_at, placed_at};
use crate::named::BookArea;
use crate::workbook_graph::Placed;
use calculation_order::Links;
use std::alloc::{AllocError, Global};

/// The leaves of a tree over formulas, by the numbers of these, and the hulls of its forks.
#[derive(Debug, Drop)]
pub(crate) struct Tree {
    order: Vec<usize>,
    hulls: Vec<Hull>,
}

impl Tree {
    /// A tree over these formulas.
    pub(crate) fn new(alloc: Global, placed: &[Placed]) -> Result<Tree, AllocError>
        ensures { IfOk result (λ tree. IsTree placed.now tree.order.items tree.hulls.items) }
    {
        let order = leaves_of(alloc, placed)?;
        let hulls = hulls_of(alloc, placed, &order)?;
        Ok(Tree { order, hulls })
    }

    /// The formula of a leaf, where an area meets it.
    fn met_at(&self, placed: &[Placed], area: BookArea, leaf: usize) -> Option<usize>
        requires tree { IsTree placed.now self.now.order.items self.now.hulls.items }
        requires leaf { fork_count self.now.order.items ≤ leaf }
        ensures met { filter (meets_at placed.now area) (leaf_at self.now.order.items leaf)
            ≡ option_to_list result }
        ensures below { IfSome result (λ n. n < length self.now.order.items) }
    {
        let number = number_at(&self.order, leaf - self.hulls.len())?;
        let own = placed_at(placed, number)?;
        if meets(area, own) { Some(number) } else { None }
    }

    /// Links to the formula of a leaf, where an area meets it.
    fn watch_leaf(
        &self,
        links: &mut Links,
        placed: &[Placed],
        area: BookArea,
        leaf: usize,
    ) -> Result<(), AllocError>
        requires tree { IsTree placed.now self.now.order.items self.now.hulls.items }
        requires leaf { fork_count self.now.order.items ≤ leaf }
        ensures { OnOk result (Watches self.now.order.items links.old links.new
            (filter (meets_at placed.now area) (under self.now.order.items leaf))) }
    {
        match self.met_at(placed, area, leaf) {
            Some(number) => links.push(number),
            None => Ok(()),
        }
    }

    /// Links to the nodes under a node that tell the formulas that an area meets.
    fn watch_under(
        &self,
        links: &mut Links,
        placed: &[Placed],
        area: BookArea,
        node: usize,
    ) -> Result<(), AllocError>
        requires { IsTree placed.now self.now.order.items self.now.hulls.items }
        ensures { OnOk result (Watches self.now.order.items links.old links.new
            (filter (meets_at placed.now area) (under self.now.order.items node))) }
    {
        if node >= self.hulls.len() {
            return self.watch_leaf(links, placed, area, node);
        }
        let hull = self.hulls[node];
        if !may_meet(area, hull) {
            return Ok(());
        }
        if meets_all(area, hull) {
            return links.push(self.order.len() + node);
        }
        self.watch_under(links, placed, area, 2 * node + 1)?;
        self.watch_under(links, placed, area, 2 * node + 2)
    }

    /// Links to the nodes that tell the formulas that an area meets, where its values are asked
    /// for.
    fn watch_area(
        &self,
        links: &mut Links,
        placed: &[Placed],
        area: BookArea,
    ) -> Result<(), AllocError>
        requires { IsTree placed.now self.now.order.items self.now.hulls.items }
        ensures { OnOk result (Watches self.now.order.items links.old links.new
            (asked_of placed.now self.now.order.items area)) }
    {
        if !area.is_valued {
            return Ok(());
        }
        self.watch_under(links, placed, area, 0)
    }

    /// Links to the nodes that tell the formulas that areas meet whose values are asked for.
    pub(crate) fn watch(
        &self,
        links: &mut Links,
        placed: &[Placed],
        areas: &[BookArea],
    ) -> Result<(), AllocError>
        requires { IsTree placed.now self.now.order.items self.now.hulls.items }
        ensures { OnOk result (Watches self.now.order.items links.old links.new
            (flat_map (asked_of placed.now self.now.order.items) areas.now)) }
    {
        for area in areas {
            self.watch_area(links, placed, *area)?;
        }
        Ok(())
    }

    /// The vertex of a node: a fork stands behind the formulas, and a leaf is its formula.
    fn vertex_of(&self, node: usize) -> usize
        requires count { length self.now.hulls.items ≡ fork_count self.now.order.items }
        requires there { node ≤ 2 * fork_count self.now.order.items }
        ensures { result ≡ vertex_of self.now.order.items node }
    {
        if node < self.hulls.len() {
            return self.order.len() + node;
        }
        number_at(&self.order, node - self.hulls.len()).unwrap_or(0)
    }

    /// Closes the forks, each by its links to its two sons.
    pub(crate) fn push_forks(&self, links: &mut Links) -> Result<(), AllocError>
        requires count { length self.now.hulls.items ≡ fork_count self.now.order.items }
        requires closed { links.old.begun ≡ [] }
        ensures formulas { OnOk result (links.new.formulas ≡ links.old.formulas) }
        ensures links { OnOk result (links.new.links
            ≡ links.old.links ++ fork_links self.now.order.items) }
        ensures closed { OnOk result (links.new.begun ≡ []) }
    {
        for fork in 0..self.hulls.len() {
            links.push(self.vertex_of(2 * fork + 1))?;
            links.push(self.vertex_of(2 * fork + 2))?;
            links.close()?;
        }
        Ok(())
    }
}
