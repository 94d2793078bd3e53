//! A search for the components of links.
//!
//! It is Tarjan's: it goes down links from vertex to vertex, and keeps those that it came to open
//! until it has seen all that their component leads to. Nothing is proved of what it finds, since
//! each answer is checked (`components`).
use crate::components::{Components, Mark};
use crate::links::Links;
use std::alloc::{AllocError, Global};

/// How far the search is with a vertex.
#[derive(Clone, Copy)]
struct Visit {
    /// The search came to it.
    is_seen: bool,
    /// Its component isn't known yet.
    is_open: bool,
    /// How many vertices were seen before it.
    index: usize,
    /// The least index of an open vertex that it is known to lead to.
    low: usize,
    /// The place of the link that is to be looked at next.
    place: usize,
}

const UNSEEN: Visit = Visit {
    is_seen: false,
    is_open: false,
    index: 0,
    low: 0,
    place: 0,
};

/// A search: what it found, how far it is with each vertex, the open vertices as they were seen,
/// and the way down to where it is.
#[derive(Drop)]
struct Search<'l> {
    links: &'l Links,
    found: Components,
    visits: Vec<Visit>,
    seen: usize,
    start: usize,
    open: Vec<usize>,
    way: Vec<usize>,
}

/// What such a search finds. It takes time by the number of vertices and of links, and keeps a few
/// words for each vertex.
pub(crate) fn search_components(alloc: Global, links: &Links) -> Result<Components, AllocError> {
    let count = links.len();
    let mut search = Search {
        links,
        found: Components::unmarked(alloc, count)?,
        visits: vec![in alloc; UNSEEN; count]?,
        seen: 0,
        start: 0,
        open: Vec::new(alloc),
        way: Vec::new(alloc),
    };
    let steps = count.saturating_mul(2).saturating_add(links.link_count());
    for _ in 0..=steps {
        search.step()?;
    }
    Ok(search.found)
}

impl<'l> Search<'l> {
    /// Looks at the next link of where the search is, or leaves it; at the next vertex to begin
    /// with, where it is nowhere.
    fn step(&mut self) -> Result<(), AllocError> {
        let Some(&vertex) = self.way.last() else {
            return self.begin();
        };
        let place = self.visit(vertex).place;
        match self.links.of(vertex).get(place) {
            Some(&target) => self.look(vertex, place, target),
            None => self.leave(vertex),
        }
    }

    /// Begins at the next vertex, if the search didn't come to it.
    fn begin(&mut self) -> Result<(), AllocError> {
        let start = self.start;
        self.start = start.saturating_add(1);
        if start < self.visits.len() && !self.visit(start).is_seen {
            self.enter(start, Mark::START)?;
        }
        Ok(())
    }

    /// How far the search is with a vertex.
    fn visit(&self, vertex: usize) -> Visit {
        match self.visits.get(vertex) {
            Some(visit) => *visit,
            None => UNSEEN,
        }
    }

    /// Looks at a link: goes down where the target wasn't seen.
    fn look(&mut self, vertex: usize, place: usize, target: usize) -> Result<(), AllocError> {
        if let Some(visit) = self.visits.get_mut(vertex) {
            visit.place = place.saturating_add(1);
        }
        let there = self.visit(target);
        if !there.is_seen {
            let depth = self.found.mark(vertex).depth.saturating_add(1);
            return self.enter(target, Mark::led_to(depth, vertex, place));
        }
        if there.is_open {
            self.lower(vertex, there.index, place);
        }
        Ok(())
    }

    /// Comes to a vertex.
    fn enter(&mut self, vertex: usize, mark: Mark) -> Result<(), AllocError> {
        self.open.push(vertex)?;
        self.way.push(vertex)?;
        self.found.set_mark(vertex, mark);
        if let Some(visit) = self.visits.get_mut(vertex) {
            *visit = Visit {
                is_seen: true,
                is_open: true,
                index: self.seen,
                low: self.seen,
                place: 0,
            };
        }
        self.seen = self.seen.saturating_add(1);
        Ok(())
    }

    /// A vertex leads by a link to an open one of this index.
    fn lower(&mut self, vertex: usize, index: usize, place: usize) {
        if let Some(visit) = self.visits.get_mut(vertex) {
            if index < visit.low {
                visit.low = index;
                self.found.set_next(vertex, place);
            }
        }
    }

    /// Leaves a vertex all of whose links were looked at, and closes its component where it is the
    /// root.
    fn leave(&mut self, vertex: usize) -> Result<(), AllocError> {
        self.way.pop();
        let visit = self.visit(vertex);
        if visit.low == visit.index {
            return self.close(vertex);
        }
        let mark = self.found.mark(vertex);
        let count = self.visits.len();
        // It falls along a link to an open vertex, and along the way down to one.
        let back = visit.low.saturating_mul(count);
        self.found.set_back(
            vertex,
            back.saturating_add(count.saturating_sub(mark.depth)),
        );
        self.lower(mark.from, visit.low, mark.by);
        Ok(())
    }

    /// Closes the component of a root: all that is open from it on.
    fn close(&mut self, root: usize) -> Result<(), AllocError> {
        let rank = self.found.push_root(root)?;
        for _ in 0..self.open.len() {
            let Some(vertex) = self.open.pop() else {
                break;
            };
            self.found.set_rank(vertex, rank);
            if let Some(visit) = self.visits.get_mut(vertex) {
                visit.is_open = false;
            }
            if vertex == root {
                break;
            }
        }
        Ok(())
    }
}
