//! Searches that count their steps, and how many the bound of one allows.
ghost use Rattle.std.specs.Prelude.{◌≡◌, ◌*◌, ◌<◌, ℕ, IfOk};
ghost use Rattle.xlsx_precedents.specs.Precedents.{direct_dependents, steps_within};
ghost use Rattle.tests_formulas.specs.FormulaSheets.{two_formulas, first_cells};

use std::alloc::{AllocError, Global};
use std::marker::Brand;
use std::sync::ledger::{Blank, Ledger};
use xlsx_precedents::{DependencyIndex, Steps};

/// The cells whose formulas name a cell, by a search that counts.
pub fn counted_dependents(
    alloc: Global,
    index: &DependencyIndex,
    pos: (u32, u32),
) -> Result<Vec<(u32, u32)>, AllocError>
    ensures { IfOk result (λ found. found.items ≡ direct_dependents index.now pos) }
{
    counted_by::<Brand>(alloc, index, pos, Blank::new(1))
}

fn counted_by<L: Ledger>(
    alloc: Global,
    index: &DependencyIndex,
    pos: (u32, u32),
    blank: Blank,
) -> Result<Vec<(u32, u32)>, AllocError>
    requires name { blank.name ≡ L.name }
    requires parts { blank.parts ≡ L.parts }
    requires some { 0 < blank.parts }
    ensures { IfOk result (λ found. found.items ≡ direct_dependents index.now pos) }
{
    let mut steps = Steps::<L>::new(blank);
    index.dependents_counted(alloc, pos, &mut steps)
}

/// The number of three areas has two binary digits, and one of them has cells of row 7.
pub fn a_search_of_a_sheet_takes_eight_steps()
    ensures { steps_within two_formulas (6, 0) 2 ≡ 8 }
{}

/// Where no area has cells of the row there are two steps for each binary digit, however many areas
/// there are.
pub fn a_search_passes_other_rows()
    ensures { (count digits : ℕ) → steps_within (first_cells count) (1, 0) digits ≡ 2 * digits }
{}
