ghost use Rattle.std.specs.Prelude.{◌≡◌, ◌++◌, ◌+◌, ◌-◌, ◌*◌, ◌^◌, ◌<◌, ◌≤◌, [], ◌↔◌, IsTrue, IfOk};
ghost use Rattle.std.specs.Prelude.{OnOk, OnErr, length, replicate, slice_index};
ghost use Rattle.cell_styles.specs.Groups.{group_count};
ghost use Rattle.cell_styles.specs.StyleRuns.{end_along, last_is, numbers_along, IsCanonical};
ghost use Rattle.cell_styles.specs.StyleRuns.{PassesOne};

use crate::Steps;
use std::alloc::{AllocError, Global};
use std::marker::Model;
use std::sync::ledger::Ledger;

/// Neighbouring cells of one style id.
#[derive(Clone, Copy, Debug)]
pub struct StyleRun {
    /// The place behind the last of them.
    pub end: usize,
    pub id: usize,
}

impl StyleRun {
    /// Whether the place lies behind the run. It is the only comparison with a run's end, and a
    /// step.
    fn ends_by<L: Ledger>(&self, place: usize, steps: &mut Steps<L>) -> bool
        ensures answer { IsTrue result ↔ (self.now.end ≤ place) }
        ensures step { steps.new ≡ steps.old + 1 }
    {
        steps.tick();
        self.end <= place
    }
}

/// The style ids of cells in order, kept as runs of equal neighbours.
#[derive(Debug, Drop)]
pub struct StyleRuns {
    runs: Vec<StyleRun>,
}

impl Model for StyleRuns {
    ghost use Rattle.std.specs.Prelude.{ℕ, List};

    ghost Value = { List ℕ };

    ghost use Rattle.cell_styles.specs.StyleRuns.{numbers_along, IsCanonical};

    ghost view = { λ ids. numbers_along 0 ids.runs.items };

    ghost invariant = { λ ids. IsCanonical 0 ids.runs.items };
}

impl StyleRuns {
    /// The ids of no cell.
    pub fn new(alloc: Global) -> StyleRuns
        ensures { result ≡ [] }
    {
        StyleRuns {
            runs: Vec::new(alloc),
        }
    }

    /// A copy in memory of its own.
    pub fn clone_in(&self, alloc: Global) -> Result<StyleRuns, AllocError>
        ensures { IfOk result (λ copy. copy ≡ self.now) }
    {
        Ok(StyleRuns {
            runs: self.runs.as_slice().to_vec(alloc)?,
        })
    }

    /// How many ids there are.
    pub fn len(&self) -> usize
        ensures { result ≡ length self.now }
    {
        end_of(&self.runs)
    }

    /// How many runs there are.
    pub fn count(&self) -> usize
        ensures { result ≡ group_count self.now }
    {
        self.runs.len()
    }

    /// The runs in order.
    pub fn as_slice(&self) -> &[StyleRun]
        ensures ids { numbers_along 0 result.now ≡ self.now }
        ensures canonical { IsCanonical 0 result.now }
    {
        &self.runs
    }

    /// The id at a place, found in as many steps as the number of runs has binary digits.
    pub fn id_at<L: Ledger>(&self, place: usize, steps: &mut Steps<L>) -> usize
        requires { place < length self.now }
        ensures id { result ≡ slice_index self.now place }
        ensures counted { steps.old ≤ steps.new }
        ensures cost { 2 ^ (steps.new - steps.old) ≤ 2 * group_count self.now + 1 }
    {
        found_id(&self.runs, place, steps)
    }

    /// Puts the id behind the last one, so often that there are `end`.
    pub fn extend_to(&mut self, end: usize, id: usize) -> Result<(), AllocError>
        requires { length self.old ≤ end }
        ensures ok { OnOk result (self.new ≡ self.old ++ replicate (end - length self.old) id) }
        ensures err { OnErr result (self.new ≡ self.old) }
    {
        if end_of(&self.runs) == end {
            return Ok(());
        }
        if is_last(&self.runs, id) {
            let last = self.runs.len() - 1;
            self.runs[last] = StyleRun { end, id };
            return Ok(());
        }
        self.runs.push(StyleRun { end, id })?;
        Ok(())
    }
}

/// The place behind the last run.
fn end_of(runs: &[StyleRun]) -> usize
    ensures { result ≡ end_along 0 runs.now }
{
    match runs.last() {
        Some(run) => run.end,
        None => 0,
    }
}

/// Whether there is a last run, and it has this id.
fn is_last(runs: &[StyleRun], id: usize) -> bool
    ensures { result ≡ last_is id runs.now }
{
    match runs.last() {
        Some(run) => run.id == id,
        None => false,
    }
}

/// The id of the first run that ends behind the place.
fn found_id<L: Ledger>(runs: &[StyleRun], place: usize, steps: &mut Steps<L>) -> usize
    requires canonical { IsCanonical 0 runs.now }
    requires there { place < length (numbers_along 0 runs.now) }
    ensures id { result ≡ slice_index (numbers_along 0 runs.now) place }
    ensures counted { steps.old ≤ steps.new }
    ensures cost { 2 ^ (steps.new - steps.old) ≤ 2 * length runs.now + 1 }
{
    let mut low = 0;
    let mut high = runs.len();
    while low < high {
        let middle = low + (high - low) / 2;
        if runs[middle].ends_by(place, steps) {
            low = middle + 1;
        } else {
            high = middle;
        }
    }
    runs[low].id
}

/// The runs behind the first of their places.
pub fn behind_first(runs: &[StyleRun], place: usize) -> &[StyleRun]
    requires canonical { IsCanonical place runs.now }
    requires some { 0 < length runs.now }
    ensures { PassesOne place runs.now result.now }
{
    match runs.split_first() {
        Some((run, others)) if run.end == place + 1 => others,
        _ => runs,
    }
}
