//! The formulas of a workbook, and what they name.
ghost use Rattle.std.specs.Prelude.{◌≡◌, ◌+◌, ◌<◌, ◌≤◌, [], length, map, IfOk, OnErr, Some, false};
ghost use Rattle.std.specs.Prelude.{ℕ};
ghost use Rattle.std.specs.List.{list_any, slice_get, slice_index_or};
ghost use Rattle.calculation_order.specs.Edges.{cycles_of, firsts_of, order_of};
ghost use Rattle.calculation_order.specs.Links.{AreGrouped, AreLinked};
ghost use Rattle.xlsx_graph.specs.Gathered.{GathersOr, Stays, gathered_formula, nothing_gathered};
ghost use Rattle.xlsx_graph.specs.Graph.{GraphFormula, asks_area, asks_for_cell, dependents_at};
ghost use Rattle.xlsx_graph.specs.Graph.{needed};
ghost use Rattle.xlsx_graph.specs.Told.{open_told};

use crate::error::NamingError;
use crate::findings::Findings;
use crate::links::links_of;
use crate::named::{BookArea, OpenWord, Standing};
use crate::naming::push_named;
use book_names::BookNames;
use calculation_order::{Cycles, Links};
use cell_refs::Dimensions;
use std::alloc::{AllocError, Global};
use std::marker::Model;

/// How much the formulas of a workbook may name: areas, each as often as it has sheets, and words
/// that are left open.
pub const MAX_NAMED: u64 = 16_777_216;

/// How much the texts of defined names may weigh that are read for the formulas of a workbook, each
/// as often as it is read: its bytes and 64 more.
pub const MAX_READ: u64 = 402_653_184;

/// How many cells the formulas of a workbook may cover, a cell as often as it is covered.
pub const MAX_COVERED: u64 = 1_073_741_824;

/// A formula: its cell, the cells that have its values, where what it names begins and ends among
/// all areas and among all open words, and how much was read of defined names for it.
#[derive(Clone, Copy, Debug)]
pub(crate) struct Placed {
    pub cell: Standing,
    pub covers: Dimensions,
    pub areas: (usize, usize),
    pub words: (usize, usize),
    pub read: u64,
}

/// The formulas of a workbook, by their numbers from 0, and what they name.
#[derive(Debug, Drop)]
pub struct WorkbookGraph {
    placed: Vec<Placed>,
    findings: Findings,
    covered: u64,
}

impl Model for WorkbookGraph {
    ghost use Rattle.xlsx_graph.specs.Gathered.{AreGathered, Gathered, gathered_of};

    ghost Value = { Gathered };

    ghost view = { λ g. gathered_of g.findings g.placed.items g.covered };

    ghost invariant = { λ g. AreGathered g.findings g.placed.items g.covered };
}

impl WorkbookGraph {
    /// No formulas yet, and room for those of a workbook.
    pub fn new(alloc: Global, book: &BookNames) -> Result<WorkbookGraph, AllocError>
        ensures { IfOk result (λ graph. graph ≡ nothing_gathered (length book.now.names)) }
    {
        Ok(WorkbookGraph {
            placed: Vec::new(alloc),
            findings: Findings::new(alloc, book, MAX_NAMED, MAX_READ)?,
            covered: MAX_COVERED,
        })
    }

    /// Appends a formula by its cell, the cells that have its values (its own, or those of an
    /// array), and its text; `book` is the workbook's that the graph was made for.
    ///
    /// # Errors
    ///
    /// `TooLarge` exactly where there is less room than the formula takes: for each area that it
    /// names, as often as that has sheets, and each open word; for each text of a defined name that
    /// is read, by its bytes and 64 more; and for the cells that it covers. Otherwise only want of
    /// memory is refused. After a refusal the formulas stay, and there may be less room for more.
    pub fn push(
        &mut self,
        book: &BookNames,
        cell: Standing,
        covers: Dimensions,
        formula: &str,
    ) -> Result<(), NamingError>
        requires sheet { cell.sheet < length book.now.sheets }
        requires names { self.old.names ≡ length book.now.names }
        ensures gives { GathersOr result self.old self.new
            (gathered_formula book.now cell covers formula.now) }
        ensures stays { OnErr result (Stays self.old self.new) }
    {
        let cells = covers.len();
        if self.covered < cells {
            return Err(NamingError::TooLarge);
        }
        let (areas, words, read) = self.findings.counts();
        push_named(&mut self.findings, book, cell, formula)?;
        let (areas_end, words_end, read_end) = self.findings.counts();
        self.placed.push(Placed {
            cell,
            covers,
            areas: (areas, areas_end),
            words: (words, words_end),
            read: read.saturating_sub(read_end),
        })?;
        self.covered -= cells;
        Ok(())
    }

    /// How many formulas there are.
    pub fn len(&self) -> usize
        ensures { result ≡ length self.now.formulas }
    {
        self.placed.len()
    }

    /// The cell of the formula of a number.
    pub fn cell(&self, n: usize) -> Standing
        requires { n < length self.now.formulas }
        ensures { (f : GraphFormula) → slice_get self.now.formulas n ≡ Some f → result ≡ f.cell }
    {
        self.placed[n].cell
    }

    /// What the formula of a number names: areas and the words that are left open, in order. It
    /// takes no memory.
    pub fn named(&self, n: usize) -> (&[BookArea], &[OpenWord])
        requires { n < length self.now.formulas }
        ensures areas { (f : GraphFormula) → slice_get self.now.formulas n ≡ Some f
            → result.0.now ≡ f.found.areas }
        ensures words { (f : GraphFormula) → slice_get self.now.formulas n ≡ Some f
            → map open_told result.1.now ≡ f.found.words }
    {
        let placed = self.placed[n];
        (
            &self.findings.areas()[placed.areas.0..placed.areas.1],
            &self.findings.words()[placed.words.0..placed.words.1],
        )
    }

    /// Which formulas need which, by way of groups of formulas: a formula's links are those to the
    /// nodes of a tree over all formulas that lie in what it names, and so it takes time and memory
    /// by these, and not by the formulas in them.
    pub fn links(&self, alloc: Global) -> Result<Links, AllocError>
        ensures grouped { IfOk result AreGrouped }
        ensures linked { IfOk result (AreLinked (needed self.now.formulas)) }
    {
        links_of(alloc, &self.placed, self.findings.areas())
    }

    /// The numbers of the formulas that can be computed, counted from 0, in an order in which all
    /// that a formula needs stands before it: round by round those that need none but of earlier
    /// rounds, in each round in order of their numbers. The others are on cycles or need one that
    /// is.
    pub fn order(&self, alloc: Global) -> Result<Vec<usize>, AllocError>
        ensures { IfOk result (λ order. order.items ≡ order_of (needed self.now.formulas)) }
    {
        self.links(alloc)?.order(alloc)
    }

    /// Which formulas are on cycles together: each of them needs all of them, itself or through
    /// others.
    pub fn cycles(&self, alloc: Global) -> Result<Cycles, AllocError>
        ensures { IfOk result (λ cycles. cycles ≡ firsts_of (needed self.now.formulas)) }
    {
        self.links(alloc)?.cycles(alloc)
    }

    /// The cycles, by their first formulas, each as its formulas in order.
    pub fn cycle_lists(&self, alloc: Global) -> Result<Vec<Vec<usize>>, AllocError>
        ensures { IfOk result (λ lists. map (λ list. list.items) lists.items
            ≡ cycles_of (needed self.now.formulas)) }
    {
        let cycles = self.cycles(alloc)?;
        let lists = cycles.lists(alloc)?;
        Ok(lists)
    }

    /// Whether the formula of a number asks for the value of a cell.
    fn asks_for(&self, number: usize, cell: Standing) -> bool
        requires { number < length self.now.formulas }
        ensures { result ≡ asks_for_cell cell self.now.formulas number }
    {
        any_asks(self.named(number).0, cell)
    }

    /// For each formula whether it asks for the value of a cell.
    fn asking(&self, alloc: Global, cell: Standing) -> Result<Vec<bool>, AllocError>
        ensures { IfOk result (λ asking. (n : ℕ) →
            slice_index_or asking.items n false ≡ asks_for_cell cell self.now.formulas n) }
    {
        let mut asking = Vec::with_capacity(alloc, self.len())?;
        for number in 0..self.len() {
            asking.push(self.asks_for(number, cell))?;
        }
        Ok(asking)
    }

    /// The numbers of the formulas that need the value of a cell, themselves or through others,
    /// counted from 0, in order.
    pub fn dependents(&self, alloc: Global, cell: Standing) -> Result<Vec<usize>, AllocError>
        ensures { IfOk result (λ numbers. numbers.items
            ≡ dependents_at self.now.formulas cell) }
    {
        let asking = self.asking(alloc, cell)?;
        self.links(alloc)?.dependents(alloc, &asking)
    }
}

/// Whether an area asks for the value of a cell.
fn asks(area: BookArea, cell: Standing) -> bool
    ensures { result ≡ asks_area cell area }
{
    area.is_valued
        && (area.first <= cell.sheet && cell.sheet <= area.last)
        && area.area.contains(cell.row, cell.column)
}

/// Whether one of these areas asks for the value of a cell.
fn any_asks(areas: &[BookArea], cell: Standing) -> bool
    ensures { result ≡ list_any (asks_area cell) areas.now }
{
    areas.iter().any(|area| asks(*area, cell))
}
