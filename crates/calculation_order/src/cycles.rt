//! The cycles of formulas that need each other.
ghost use Rattle.std.specs.Prelude.{◌≡◌, ◌==◌, ℕ, List, map, true, IfOk, None, OnOk};
ghost use Rattle.std.specs.List.{slice_index_or};
ghost use Rattle.calculation_order.specs.Cycles.{with_kept, with_next};
ghost use Rattle.calculation_order.specs.Edges.{cycles_of, firsts_of};
ghost use Rattle.calculation_order.specs.Links.{AreGrouped, AreLinked};
ghost use Rattle.calculation_order.specs.OrderLaws.{are_within, is_on_cycle};

use crate::firsts::firsts_around;
use crate::links::Links;
use crate::plain_cycles::firsts_plainly;
use crate::search::search_components;
use crate::turns::number_or;
use std::alloc::{AllocError, Global};
use std::marker::Model;

/// Which formulas are on cycles together: for each formula, by its number counted from 0, the first
/// one on cycles with it.
#[derive(Debug, Drop)]
pub struct Cycles {
    firsts: Vec<Option<usize>>,
}

impl Model for Cycles {
    ghost use Rattle.std.specs.Prelude.{List, Option, ℕ};

    ghost Value = { List (Option ℕ) };

    ghost view = { λ cycles. cycles.firsts.items };
}

impl Links {
    /// Which formulas are on cycles together. It takes time and memory by the number of vertices
    /// and of links.
    pub fn cycles(&self, alloc: Global) -> Result<Cycles, AllocError>
        requires { AreGrouped self.now }
        ensures { IfOk result (λ cycles. (edges : List (List ℕ)) → AreLinked edges self.now →
            cycles ≡ firsts_of edges) }
    {
        let found = search_components(alloc, self)?;
        if found.are_certain(self) {
            return Ok(Cycles {
                firsts: firsts_around(alloc, self, &found)?,
            });
        }
        Ok(Cycles {
            firsts: firsts_plainly(alloc, self)?,
        })
    }
}

impl Cycles {
    /// The first formula on cycles with one.
    fn first(&self, formula: usize) -> Option<usize>
        ensures { result ≡ slice_index_or self.now formula None }
    {
        match self.firsts.get(formula) {
            Some(first) => *first,
            None => None,
        }
    }

    /// Whether a formula is on a cycle: it needs itself, at once or through others.
    pub fn is_on_cycle(&self, formula: usize) -> bool
        ensures { (edges : List (List ℕ)) → are_within edges ≡ true →
            self.now ≡ firsts_of edges → result ≡ is_on_cycle edges formula }
    {
        self.first(formula).is_some()
    }

    /// The cycles, by their first formulas, each as its formulas in order.
    pub fn lists(&self, alloc: Global) -> Result<Vec<Vec<usize>>, AllocError>
        ensures { IfOk result (λ lists. (edges : List (List ℕ)) → are_within edges ≡ true →
            self.now ≡ firsts_of edges → map (λ list. list.items) lists.items ≡ cycles_of edges) }
    {
        let mut lists = Vec::new(alloc);
        let mut places = Vec::with_capacity(alloc, self.firsts.len())?;
        for formula in 0..self.firsts.len() {
            places.push(lists.len())?;
            keep_next(alloc, &mut lists, &places, self.first(formula), formula)?;
        }
        Ok(lists)
    }
}

/// Keeps a formula on the cycle of its first one, if it has one; `places` tells how many cycles
/// begin before each formula.
fn keep_next(
    alloc: Global,
    lists: &mut Vec<Vec<usize>>,
    places: &[usize],
    first: Option<usize>,
    formula: usize,
) -> Result<(), AllocError>
    ensures { OnOk result (map (λ list. list.items) lists.new.items
        ≡ with_next (map (λ list. list.items) lists.old.items) places.now first formula) }
{
    match first {
        Some(first) => keep(alloc, lists, number_or(places, first, 0), first, formula),
        None => Ok(()),
    }
}

/// Keeps a formula on the cycle at a place, or on a new one where it is the first.
fn keep(
    alloc: Global,
    lists: &mut Vec<Vec<usize>>,
    place: usize,
    first: usize,
    formula: usize,
) -> Result<(), AllocError>
    ensures { OnOk result (map (λ list. list.items) lists.new.items
        ≡ with_kept (map (λ list. list.items) lists.old.items) place (first == formula) formula) }
{
    if first == formula {
        lists.push(vec![in alloc; formula]?)?;
        return Ok(());
    }
    if place < lists.len() {
        lists[place].push(formula)?;
    }
    Ok(())
}
