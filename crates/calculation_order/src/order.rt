//! An order in which formulas can be computed.
ghost use Rattle.std.specs.Prelude.{◌≡◌, ℕ, List, IfOk};
ghost use Rattle.calculation_order.specs.Edges.{order_of};
ghost use Rattle.calculation_order.specs.Links.{AreGrouped, AreLinked};

use crate::chains::by_turns;
use crate::links::Links;
use crate::turns::Waiting;
use std::alloc::{AllocError, Global};

impl Links {
    /// The numbers of the formulas that can be computed, counted from 0, in an order in which all
    /// that a formula needs stands before it: round by round those that need none but of earlier
    /// rounds, in each round in order of their numbers. The others are on cycles or need one that
    /// is.
    ///
    /// The links are those of any edges that they tell. It takes time by the number of vertices and
    /// links, and some words of memory for each vertex.
    pub fn order(&self, alloc: Global) -> Result<Vec<usize>, AllocError>
        requires { AreGrouped self.now }
        ensures { (edges : List (List ℕ)) → AreLinked edges self.now
            → IfOk result (λ order. order.items ≡ order_of edges) }
    {
        let turns = self.turns(alloc, Waiting::ForAll, &[])?;
        by_turns(alloc, &turns)
    }
}
