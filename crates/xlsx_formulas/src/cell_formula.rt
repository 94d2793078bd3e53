ghost use Rattle.std.specs.Prelude.{◌≡◌, ◌==◌, length, string_bytes, IfOk};
ghost use Rattle.xlsx_formulas.specs.Kept.{text_of_formula};

use crate::shared_formulas::Master;
use std::alloc::{AllocError, Global};
use std::rc::Rc;

/// The formula of a cell, without `=`. One that is derived from the formula of a group isn't
/// written out before its text is asked for, and shares the group's formula with the others.
#[derive(Debug, Drop)]
pub enum CellFormula {
    /// The text that the cell writes itself.
    Text(String),
    /// That of a group, as it stands at a position: a row and a column, counted from 0.
    Derived {
        master: Rc<Master>,
        position: (u32, u32),
    },
}

impl CellFormula {
    /// Whether its text is empty. A derived one isn't written out for it.
    pub fn is_empty(&self) -> bool
        ensures { result ≡ (length (text_of_formula self.now) == 0) }
    {
        match self {
            CellFormula::Text(text) => text.is_empty(),
            CellFormula::Derived { master, .. } => master.formula.text().is_empty(),
        }
    }

    /// Its text: a derived one is moved by the way from the first written corner of the group's
    /// area to its position.
    pub fn into_text(self, alloc: Global) -> Result<String, AllocError>
        ensures { IfOk result (λ text. string_bytes text ≡ text_of_formula self) }
    {
        match self {
            CellFormula::Text(text) => Ok(text),
            CellFormula::Derived { master, position } => {
                let mut text = String::new(alloc);
                master
                    .formula
                    .expand_into(master.corner, position, &mut text)?;
                Ok(text)
            }
        }
    }
}
