//! In which turn each formula is found, by links.
ghost use Rattle.std.specs.Prelude.{◌≡◌, ◌≤◌, ℕ, if◌then◌else◌, length, map, replicate, IfOk};
ghost use Rattle.std.specs.List.{slice_index_or};
ghost use Rattle.calculation_order.specs.Edges.{needs_of, numbers_below};
ghost use Rattle.calculation_order.specs.Links.{AreGrouped, told_edges};
ghost use Rattle.calculation_order.specs.Turns.{AreJoined, AreTurns, asks_at, behind_at, joined};
ghost use Rattle.calculation_order.specs.Turns.{joined_of, turn_after, turn_at, turn_behind};
ghost use Rattle.calculation_order.specs.Turns.{turn_of_none, turns_after};

use crate::links::Links;
use std::alloc::{AllocError, Global};

/// What a formula waits for until it is found.
#[derive(Clone, Copy)]
pub(crate) enum Waiting {
    /// All that it needs.
    ForAll,
    /// One of those that it needs.
    ForAny,
}

/// The turn in which all of none are found, and that in which one of none is.
fn turn_of_none(waiting: Waiting, most: usize) -> usize
    ensures { result ≡ turn_of_none waiting most }
{
    match waiting {
        Waiting::ForAll => 0,
        Waiting::ForAny => most,
    }
}

/// The later of two turns, or the earlier.
fn joined(waiting: Waiting, a: usize, b: usize) -> usize
    ensures { result ≡ joined waiting a b }
{
    match waiting {
        Waiting::ForAll => a.max(b),
        Waiting::ForAny => a.min(b),
    }
}

/// A number of a list, or another behind its end.
pub(crate) fn number_or(numbers: &[usize], place: usize, other: usize) -> usize
    ensures { result ≡ slice_index_or numbers.now place other }
{
    match numbers.get(place) {
        Some(number) => *number,
        None => other,
    }
}

/// The turn behind one.
fn turn_behind(turn: usize, most: usize) -> usize
    ensures { result ≡ turn_behind most turn }
{
    if turn < most { turn + 1 } else { most }
}

/// Of each formula the first turn in which what needs it can be found for its sake.
fn behind_formulas(alloc: Global, turns: &[usize], most: usize) -> Result<Vec<usize>, AllocError>
    ensures { IfOk result
        (λ behind. behind.items ≡ map (behind_at most turns.now) (numbers_below most)) }
{
    let mut behind = Vec::new(alloc);
    for number in 0..most {
        behind.push(turn_behind(number_or(turns, number, most), most))?;
    }
    Ok(behind)
}

/// The turns of several numbers, joined.
fn joined_of(waiting: Waiting, most: usize, turns: &[usize], numbers: &[usize]) -> usize
    ensures { result ≡ joined_of waiting most (turn_at most turns.now) numbers.now }
{
    let mut turn = turn_of_none(waiting, most);
    for number in numbers {
        turn = joined(waiting, turn, number_or(turns, *number, most));
    }
    turn
}

/// No turn for each of so many formulas.
pub(crate) fn no_turns(alloc: Global, most: usize) -> Result<Vec<usize>, AllocError>
    ensures { IfOk result (λ turns. turns.items ≡ replicate most most) }
{
    let mut turns = Vec::with_capacity(alloc, most)?;
    for _number in 0..most {
        turns.push(most)?;
    }
    Ok(turns)
}

/// Whether a formula asks, by a list that tells false of numbers behind its end.
pub(crate) fn asks_at(asks: &[bool], number: usize) -> bool
    ensures { result ≡ asks_at asks.now number }
{
    match asks.get(number) {
        Some(is_asking) => *is_asking,
        None => false,
    }
}

impl Links {
    /// Joins the turns that are told of formulas for each group, from the last one to the first.
    fn join_groups(&self, waiting: Waiting, behind: &mut [usize])
        requires grouped { AreGrouped self.now }
        requires size { length behind.old ≡ length self.now.links }
        requires below { (n : ℕ) →
            turn_at self.now.formulas behind.old n ≤ self.now.formulas }
        ensures { AreJoined waiting self.now (turn_at self.now.formulas behind.old) behind.new
            self.now.formulas }
    {
        let mut vertex = behind.len();
        while vertex > self.formulas() {
            vertex -= 1;
            let turn = joined_of(waiting, self.formulas(), behind, self.of(vertex));
            behind[vertex] = turn;
        }
    }

    /// Of each vertex the turns of those for which it stands, joined: the first turn in which what
    /// leads to it can be found for its sake. A look at each link of a group.
    fn behind_vertices(
        &self,
        alloc: Global,
        waiting: Waiting,
        turns: &[usize],
    ) -> Result<Vec<usize>, AllocError>
        requires { AreGrouped self.now }
        ensures { IfOk result (λ behind. AreJoined waiting self.now
            (behind_at self.now.formulas turns.now) behind.items self.now.formulas) }
    {
        let mut behind = behind_formulas(alloc, turns, self.formulas())?;
        behind.resize(self.len(), self.formulas())?;
        self.join_groups(waiting, &mut behind);
        Ok(behind)
    }

    /// The turn of a formula, by what is told of vertices.
    fn turn_after(&self, waiting: Waiting, asks: &[bool], behind: &[usize], number: usize) -> usize
        ensures { result ≡ (if asks_at asks.now number then 0
            else joined_of waiting self.now.formulas (turn_at self.now.formulas behind.now)
            (needs_of self.now.links number)) }
    {
        if asks_at(asks, number) {
            0
        } else {
            joined_of(waiting, self.formulas(), behind, self.of(number))
        }
    }

    /// The turn of each formula by the turns of those that it needs. A look at each link.
    fn turns_after(
        &self,
        alloc: Global,
        waiting: Waiting,
        asks: &[bool],
        turns: &[usize],
    ) -> Result<Vec<usize>, AllocError>
        requires { AreGrouped self.now }
        ensures { IfOk result (λ after. after.items
            ≡ turns_after waiting (asks_at asks.now) (told_edges self.now) turns.now) }
    {
        let behind = self.behind_vertices(alloc, waiting, turns)?;
        let mut after = Vec::new(alloc);
        for number in 0..self.formulas() {
            after.push(self.turn_after(waiting, asks, &behind, number))?;
        }
        Ok(after)
    }
    /// The turns of all formulas, found anew again and again, from none. It looks at each link as
    /// often as there are formulas.
    fn plain_turns(
        &self,
        alloc: Global,
        waiting: Waiting,
        asks: &[bool],
    ) -> Result<Vec<usize>, AllocError>
        requires { AreGrouped self.now }
        ensures { IfOk result (λ turns.
            AreTurns waiting (asks_at asks.now) (told_edges self.now) turns.items) }
    {
        let mut turns = no_turns(alloc, self.formulas())?;
        for _time in 0..self.formulas() {
            turns = self.turns_after(alloc, waiting, asks, &turns)?;
        }
        Ok(turns)
    }
    /// The turn of each formula, where those that ask are found first. Turns are guessed and
    /// checked, by a look at each link; those that fail would be found plainly, which takes longer,
    /// but no tests know such links.
    pub(crate) fn turns(
        &self,
        alloc: Global,
        waiting: Waiting,
        asks: &[bool],
    ) -> Result<Vec<usize>, AllocError>
        requires { AreGrouped self.now }
        ensures { IfOk result (λ turns.
            AreTurns waiting (asks_at asks.now) (told_edges self.now) turns.items) }
    {
        let guess = self.guessed_turns(alloc, waiting, asks)?;
        let after = self.turns_after(alloc, waiting, asks, &guess)?;
        if guess.as_slice() == after.as_slice() {
            Ok(guess)
        } else {
            self.plain_turns(alloc, waiting, asks)
        }
    }
}
