//! Links between formulas and groups of them.
ghost use Rattle.std.specs.Prelude.{◌≡◌, ◌<◌, ◌≤◌, true, [], ◌∷◌, length, slice_index, ◌↔◌, IsTrue};
ghost use Rattle.std.specs.Prelude.{OnOk, OnErr};
ghost use Rattle.std.specs.List.{list_all, slice_range};
ghost use Rattle.calculation_order.specs.Edges.{needs_of};
ghost use Rattle.calculation_order.specs.KeptLinks.{cut_at, rise_within};
ghost use Rattle.calculation_order.specs.Links.{AreGrouped, may_lead_to, with_link, with_closed};

use std::alloc::{AllocError, Global};
use std::marker::Model;

/// What each vertex of a graph leads to. The first vertices are formulas, by their numbers, and
/// each other one is a group, which stands for all formulas that it leads to, at once or through
/// further groups. A formula needs those that it leads to, at once or through groups.
///
/// The vertices are written in the order of their numbers, counted from 0: each by its links, and
/// then closed. A link takes eight bytes, and a vertex eight; up to twice that, as lists grow by
/// doubling.
#[derive(Drop)]
pub struct Links {
    formulas: usize,
    targets: Vec<usize>,
    ends: Vec<usize>,
}

impl Model for Links {
    ghost use Rattle.std.specs.Prelude.{◌≡◌, drop, length, true};
    ghost use Rattle.calculation_order.specs.KeptLinks.{cut_at, last_link_end, rise_within};
    ghost use Rattle.calculation_order.specs.Links.{Linked};

    ghost Value = { Linked };

    ghost view = { λ kept. record {
      formulas = kept.formulas;
      links = cut_at kept.targets.items 0 kept.ends.items;
      begun = drop (last_link_end 0 kept.ends.items) kept.targets.items;
    } };

    ghost invariant = { λ kept.
        rise_within (length kept.targets.items) 0 kept.ends.items ≡ true };
}

impl Links {
    /// No vertices yet, of which the first ones, as many as this, are to be formulas.
    pub fn new(alloc: Global, formulas: usize) -> Links
        ensures { result ≡ record { formulas = formulas; links = []; begun = [] } }
    {
        Links {
            formulas,
            targets: Vec::new(alloc),
            ends: Vec::new(alloc),
        }
    }

    /// Adds a link to a vertex, by its number counted from 0, from the one that is not closed yet.
    pub fn push(&mut self, vertex: usize) -> Result<(), AllocError>
        ensures ok { OnOk result (self.new ≡ with_link self.old vertex) }
        ensures err { OnErr result (self.new ≡ self.old) }
    {
        self.targets.push(vertex)?;
        Ok(())
    }

    /// Closes a vertex: the links that are added later are those of the next one.
    pub fn close(&mut self) -> Result<(), AllocError>
        ensures ok { OnOk result (self.new ≡ with_closed self.old) }
        ensures err { OnErr result (self.new ≡ self.old) }
    {
        self.ends.push(self.targets.len())?;
        Ok(())
    }

    /// How many vertices are closed.
    pub fn len(&self) -> usize
        ensures { result ≡ length self.now.links }
    {
        self.ends.len()
    }

    /// How many links there are, those of the vertex that isn't closed yet among them.
    pub(crate) fn link_count(&self) -> usize {
        self.targets.len()
    }

    /// How many vertices are formulas, of those that there are to be.
    pub fn formulas(&self) -> usize
        ensures { result ≡ self.now.formulas }
    {
        self.formulas
    }

    /// Whether the formulas are vertices, each vertex leads to vertices alone, and a group to
    /// formulas and to groups behind it, so that none stands in itself.
    pub fn is_grouped(&self) -> bool
        ensures { IsTrue result ↔ AreGrouped self.now }
    {
        if self.formulas() > self.len() {
            return false;
        }
        for vertex in 0..self.len() {
            if !self.leads_on(vertex) {
                return false;
            }
        }
        true
    }

    /// Whether a vertex leads to vertices, and a group to formulas and to groups behind it.
    fn leads_on(&self, vertex: usize) -> bool
        ensures { result ≡ list_all
            (may_lead_to self.now.formulas (length self.now.links) vertex)
            (needs_of self.now.links vertex) }
    {
        all_go_on(self.formulas(), self.len(), vertex, self.of(vertex))
    }

    /// The vertices that a closed vertex leads to, in the order in which they were added; none for
    /// one that isn't closed. It takes no memory.
    pub fn of(&self, vertex: usize) -> &[usize]
        ensures { result.now ≡ needs_of self.now.links vertex }
    {
        list_of(&self.targets, &self.ends, vertex)
    }
}

/// The list of a number, among lists that end at these places.
fn list_of<'t>(targets: &'t [usize], ends: &[usize], number: usize) -> &'t [usize]
    requires { rise_within (length targets.now) 0 ends.now ≡ true }
    ensures { result.now ≡ needs_of (cut_at targets.now 0 ends.now) number }
{
    match ends.get(number) {
        Some(end) => between(targets, begin_of(ends, number), *end),
        None => &[],
    }
}

/// Where the list of a number begins, among lists that end at these places.
fn begin_of(ends: &[usize], number: usize) -> usize
    requires { number < length ends.now }
    ensures { result ≡ slice_index (0 ∷ ends.now) number }
{
    if number == 0 { 0 } else { ends[number - 1] }
}

/// What stands between two places.
fn between(targets: &[usize], first: usize, end: usize) -> &[usize]
    requires order { first ≤ end }
    requires within { end ≤ length targets.now }
    ensures { result.now ≡ slice_range targets.now first end }
{
    &targets[first..end]
}

/// Whether a vertex may lead to each of these.
fn all_go_on(formulas: usize, most: usize, vertex: usize, targets: &[usize]) -> bool
    ensures { result ≡ list_all (may_lead_to formulas most vertex) targets.now }
{
    for target in targets {
        if !goes_on(formulas, most, vertex, *target) {
            return false;
        }
    }
    true
}

/// Whether a vertex may lead to another.
fn goes_on(formulas: usize, most: usize, vertex: usize, target: usize) -> bool
    ensures { result ≡ may_lead_to formulas most vertex target }
{
    target < most && (vertex < formulas || (target < formulas || vertex < target))
}
