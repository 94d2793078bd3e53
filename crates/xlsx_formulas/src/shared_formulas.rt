ghost use Rattle.std.specs.Prelude.{◌≡◌, [], ◌∷◌, List, IfOk, OnOk, OnErr};
ghost use Rattle.xlsx_formulas.specs.Formula.{FormulaText, formula_of_last};
ghost use Rattle.xlsx_formulas.specs.Kept.{formula_seen, last_seen, AreMasters, text_of_formula};

use crate::cell_formula::CellFormula;
use crate::formula::{Formula, FormulaAttributes};
use formula_shift::CutFormula;
use std::alloc::{AllocError, Global};
use std::collections::BTreeMap;
use std::rc::Rc;

/// The formula of a group, and the first written corner of the group's area.
#[derive(Debug, Drop)]
pub struct Master {
    pub(crate) formula: CutFormula,
    pub(crate) corner: (u32, u32),
}

/// The formulas of the groups of a sheet, by their indices: of each group the last one that was
/// written.
#[derive(Debug, Drop)]
pub struct SharedFormulas {
    groups: BTreeMap<u64, Rc<Master>>,
}

impl SharedFormulas {
    /// No groups.
    pub fn new(alloc: Global) -> SharedFormulas
        ensures { AreMasters [] result }
    {
        SharedFormulas {
            groups: BTreeMap::new(alloc),
        }
    }

    /// Keeps the formula that a group is written by, also where it is empty, in place of an earlier
    /// one of its index. Of another formula nothing is kept.
    ///
    /// Where memory is wanting the groups stay as they were.
    pub fn keep(&mut self, formula: &Formula) -> Result<(), AllocError>
        ensures masters { OnOk result ((earlier : List FormulaText) →
            AreMasters earlier self.old →
            AreMasters (formula_seen formula.now ∷ earlier) self.new) }
        ensures err { OnErr result ((earlier : List FormulaText) → AreMasters earlier self.old →
            AreMasters earlier self.new) }
    {
        let FormulaAttributes::Master { index, area } = formula.share else {
            return Ok(());
        };
        let alloc = *formula.text.allocator();
        let formula = CutFormula::new(alloc, &formula.text)?;
        let corner = area.start;
        let master = Rc::new(alloc, Master { formula, corner })?;
        self.groups.insert(index, master)?;
        Ok(())
    }

    /// The formula of the cell at `position`, a row and a column counted from 0, by its last `f`,
    /// and empty without one. A formula that is derived from that of a group is moved by the way
    /// from the first written corner of the group's area to the cell; where no such group is kept,
    /// it is empty. It takes no memory.
    pub fn cell_formula(
        &self,
        alloc: Global,
        last: Option<Formula>,
        position: (u32, u32),
    ) -> Result<CellFormula, AllocError>
        ensures { IfOk result (λ found. (earlier : List FormulaText) →
            AreMasters earlier self.now →
            text_of_formula found ≡ formula_of_last earlier position (last_seen last)) }
    {
        let Some(formula) = last else {
            return Ok(CellFormula::Text(String::new(alloc)));
        };
        let FormulaAttributes::Derived { index } = formula.share else {
            return Ok(CellFormula::Text(formula.text));
        };
        let Some(master) = self.groups.get(&index) else {
            return Ok(CellFormula::Text(String::new(alloc)));
        };
        Ok(CellFormula::Derived {
            master: master.clone()?,
            position,
        })
    }
}
