//! Components of links: vertices that lead to each other.
ghost use Rattle.std.specs.Prelude.{◌≡◌, ◌++◌, ◌∷◌, [], length, map, slice_get, true, IfOk, OnOk};
ghost use Rattle.std.specs.Prelude.{OnErr};
ghost use Rattle.calculation_order.specs.Edges.{needs_of};
ghost use Rattle.calculation_order.specs.Components.{are_certain, falls, have_one_rank, is_certain};
ghost use Rattle.calculation_order.specs.Components.{has_root, is_in_component, is_led_to};
ghost use Rattle.calculation_order.specs.Components.{is_nearer, is_this_vertex, leads_around};
ghost use Rattle.calculation_order.specs.Components.{mark_of, rank_of, root_of, unmarked};

use crate::links::Links;
use std::alloc::{AllocError, Global};
use std::marker::Model;

/// Where a vertex stands among the components.
#[derive(Clone, Copy, Debug)]
pub(crate) struct Mark {
    /// The number of its component.
    pub(crate) rank: usize,
    /// How many links a search took to it.
    pub(crate) depth: usize,
    /// The vertex from which the search came, and by which of its links, counted from 0.
    pub(crate) from: usize,
    pub(crate) by: usize,
    /// Which of its own links leads nearer to the root of its component, counted from 0.
    pub(crate) next: usize,
    /// A number that falls on the way to the root.
    pub(crate) back: usize,
}

impl Mark {
    /// Where a search begins, and that of a vertex that none came to.
    pub(crate) const START: Mark = Mark {
        rank: 0,
        depth: 0,
        from: 0,
        by: 0,
        next: 0,
        back: 0,
    };

    /// What a search came to so deep, from a vertex by one of its links.
    pub(crate) fn led_to(depth: usize, from: usize, by: usize) -> Mark {
        Mark {
            depth,
            from,
            by,
            ..Mark::START
        }
    }
}

/// What was found of components: a mark for each vertex, and the root of each component. It may be
/// wrong: `are_certain` tells.
#[derive(Debug, Drop)]
pub(crate) struct Components {
    vertices: Vec<Mark>,
    begins: Vec<usize>,
}

impl Model for Components {
    ghost use Rattle.calculation_order.specs.Components.{FoundComponents};

    ghost Value = { FoundComponents };

    ghost view = { λ found. record {
      marks = found.vertices.items;
      roots = found.begins.items;
    } };
}

impl Components {
    /// Nothing of so many vertices.
    pub(crate) fn unmarked(alloc: Global, count: usize) -> Result<Components, AllocError> {
        Ok(Components {
            vertices: vec![in alloc; Mark::START; count]?,
            begins: Vec::new(alloc),
        })
    }

    /// How many components were found.
    pub(crate) fn len(&self) -> usize
        ensures { result ≡ length self.now.roots }
    {
        self.begins.len()
    }

    /// The mark of a vertex.
    pub(crate) fn mark(&self, vertex: usize) -> Mark
        ensures { result ≡ mark_of self.now vertex }
    {
        match self.vertices.get(vertex) {
            Some(mark) => *mark,
            None => Mark::START,
        }
    }

    /// The number of a vertex's component.
    pub(crate) fn rank(&self, vertex: usize) -> usize
        ensures { result ≡ rank_of self.now vertex }
    {
        self.mark(vertex).rank
    }

    /// Keeps the mark of a vertex.
    pub(crate) fn set_mark(&mut self, vertex: usize, mark: Mark) {
        if let Some(kept) = self.vertices.get_mut(vertex) {
            *kept = mark;
        }
    }

    /// Keeps which link leads nearer to the root.
    pub(crate) fn set_next(&mut self, vertex: usize, place: usize) {
        let mark = self.mark(vertex);
        self.set_mark(
            vertex,
            Mark {
                next: place,
                ..mark
            },
        );
    }

    /// Keeps the number that falls on the way to the root.
    pub(crate) fn set_back(&mut self, vertex: usize, back: usize) {
        let mark = self.mark(vertex);
        self.set_mark(vertex, Mark { back, ..mark });
    }

    /// Keeps the number of a vertex's component.
    pub(crate) fn set_rank(&mut self, vertex: usize, rank: usize) {
        let mark = self.mark(vertex);
        self.set_mark(vertex, Mark { rank, ..mark });
    }

    /// Keeps the root of one component more, and tells its number.
    pub(crate) fn push_root(&mut self, root: usize) -> Result<usize, AllocError> {
        let rank = self.begins.len();
        self.begins.push(root)?;
        Ok(rank)
    }

    /// The root of a vertex's component.
    fn root(&self, vertex: usize) -> usize
        ensures { result ≡ root_of self.now vertex }
    {
        match self.begins.get(self.rank(vertex)) {
            Some(root) => *root,
            None => 0,
        }
    }

    /// Whether two vertices have one component.
    fn have_one_rank(&self, vertex: usize, other: usize) -> bool
        ensures { result ≡ have_one_rank self.now vertex other }
    {
        self.rank(other) == self.rank(vertex)
    }

    /// Whether a vertex leads to one of its component, itself or another.
    pub(crate) fn leads_around(&self, links: &Links, vertex: usize) -> bool
        ensures { result ≡ leads_around links.now.links self.now vertex }
    {
        links
            .of(vertex)
            .iter()
            .any(|target| self.have_one_rank(vertex, *target))
    }

    /// Whether a vertex leads to no component of a greater number.
    fn falls(&self, links: &Links, vertex: usize) -> bool
        ensures { result ≡ falls links.now.links self.now vertex }
    {
        let rank = self.rank(vertex);
        links
            .of(vertex)
            .iter()
            .all(|target| self.rank(*target) <= rank)
    }

    /// Whether the link by which the search came to a vertex is one, from its component.
    fn is_led_to(&self, links: &Links, vertex: usize) -> bool
        ensures { result ≡ is_led_to links.now.links self.now vertex }
    {
        let mark = self.mark(vertex);
        is_link(links, mark.from, mark.by, vertex)
            && self.have_one_rank(vertex, mark.from)
            && self.mark(mark.from).depth < mark.depth
    }

    /// Whether the link that leads nearer to the root does.
    fn is_nearer(&self, links: &Links, vertex: usize) -> bool
        ensures { result ≡ is_nearer self.now vertex
            (slice_get (needs_of links.now.links vertex) (mark_of self.now vertex).next) }
    {
        let mark = self.mark(vertex);
        match links.of(vertex).get(mark.next) {
            Some(target) => {
                self.have_one_rank(vertex, *target) && self.mark(*target).back < mark.back
            }
            None => false,
        }
    }

    /// Whether a vertex is a root, or its root leads to it and it to the root.
    fn is_joined(&self, links: &Links, vertex: usize) -> bool
        ensures { result ≡ is_in_component links.now.links self.now vertex }
    {
        self.root(vertex) == vertex
            || (self.is_led_to(links, vertex) && self.is_nearer(links, vertex))
    }

    /// Whether it is seen of a vertex that its component is the right one.
    fn is_certain(&self, links: &Links, vertex: usize) -> bool
        ensures { result ≡ is_certain links.now.links self.now vertex }
    {
        self.falls(links, vertex)
            && self.is_joined(links, vertex)
            && self.rank(vertex) < self.begins.len()
    }

    /// Whether it is seen of each vertex that its component is the right one. Each link is looked
    /// at once.
    pub(crate) fn are_certain(&self, links: &Links) -> bool
        ensures { result ≡ are_certain links.now.links self.now }
    {
        (0..links.len()).all(|vertex| self.is_certain(links, vertex))
    }
}

/// Whether a link of a vertex, by its place, leads to another.
fn is_link(links: &Links, from: usize, by: usize, vertex: usize) -> bool
    ensures { result ≡ is_this_vertex (slice_get (needs_of links.now.links from) by) vertex }
{
    match links.of(from).get(by) {
        Some(target) => *target == vertex,
        None => false,
    }
}
