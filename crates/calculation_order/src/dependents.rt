//! The formulas that ask for something, themselves or through others.
ghost use Rattle.std.specs.Prelude.{◌≡◌, ◌<◌, ◌++◌, ◌∷◌, [], ℕ, List, false, nat_lt, filter};
ghost use Rattle.std.specs.Prelude.{length, if◌then◌else◌, IfOk, OnOk};
ghost use Rattle.std.specs.List.{slice_index_or};
ghost use Rattle.calculation_order.specs.Edges.{dependents_of, numbers_below};
ghost use Rattle.calculation_order.specs.Links.{AreGrouped, AreLinked};
ghost use Rattle.calculation_order.specs.Turns.{turn_at};

use crate::links::Links;
use crate::turns::Waiting;
use std::alloc::{AllocError, Global};

impl Links {
    /// The numbers of the formulas that ask for something or need one that does, at once or through
    /// others, counted from 0, in order. Which formulas ask is told by their numbers; those behind
    /// the end of the list don't.
    ///
    /// The links are those of any edges that they tell. It takes time by the number of vertices and
    /// links, and some words of memory for each vertex.
    pub fn dependents(&self, alloc: Global, asks: &[bool]) -> Result<Vec<usize>, AllocError>
        requires { AreGrouped self.now }
        ensures { (edges : List (List ℕ)) → AreLinked edges self.now
            → IfOk result (λ numbers. numbers.items
            ≡ dependents_of (λ n. slice_index_or asks.now n false) edges) }
    {
        let turns = self.turns(alloc, Waiting::ForAny, asks)?;
        found_numbers(alloc, &turns)
    }
}

/// The numbers of those that have a turn below their number.
fn found_numbers(alloc: Global, turns: &[usize]) -> Result<Vec<usize>, AllocError>
    ensures { IfOk result (λ numbers. numbers.items
        ≡ filter (λ n. nat_lt (turn_at (length turns.now) turns.now n) (length turns.now))
        (numbers_below (length turns.now))) }
{
    let mut numbers = Vec::new(alloc);
    for number in 0..turns.len() {
        push_found(&mut numbers, turns, number)?;
    }
    Ok(numbers)
}

/// Appends a number that has a turn below their number.
fn push_found(numbers: &mut Vec<usize>, turns: &[usize], number: usize) -> Result<(), AllocError>
    requires { number < length turns.now }
    ensures { OnOk result (numbers.new.items ≡ numbers.old.items
        ++ (if nat_lt (turn_at (length turns.now) turns.now number) (length turns.now)
        then number ∷ [] else [])) }
{
    if turns[number] < turns.len() {
        numbers.push(number)?;
    }
    Ok(())
}
