ghost use Rattle.std.specs.Prelude.{◌≡◌, option_map, IfOk};
ghost use Rattle.xlsx_formulas.specs.Kept.{last_seen};
ghost use Rattle.xlsx_formulas.specs.Described.{description_seen, group_of, described};

use crate::formula::{Formula, FormulaAttributes};
use cell_refs::Dimensions;
use std::alloc::{AllocError, Global};

/// What the `f` of a cell says (ECMA-376 part 1, section 18.3.1.40), with no formula written out.
#[derive(Debug, PartialEq, Eq, Drop)]
pub enum XlsxFormulaMetadata {
    /// A formula of its cell's own.
    Normal {
        formula: String,
    },
    /// The master of a group of shared formulas, also where its text is empty.
    Shared {
        /// The number of `si`.
        shared_index: usize,
        /// The area that the group is written for. Always there.
        range: Option<Dimensions>,
        formula: String,
    },
    /// A formula that is derived from the master of its group.
    SharedDerived {
        /// The number of `si`.
        shared_index: usize,
    },
}

impl XlsxFormulaMetadata {
    /// The index of the formula's group, if it has one.
    pub fn shared_index(&self) -> Option<usize>
        ensures { result ≡ group_of (description_seen self.now) }
    {
        match self {
            XlsxFormulaMetadata::Normal { .. } => None,
            XlsxFormulaMetadata::Shared { shared_index, .. }
            | XlsxFormulaMetadata::SharedDerived { shared_index } => Some(*shared_index),
        }
    }

    /// A copy, with texts of its own.
    pub fn clone_in(&self, alloc: Global) -> Result<XlsxFormulaMetadata, AllocError>
        ensures { IfOk result (λ copy. description_seen copy ≡ description_seen self.now) }
    {
        Ok(match self {
            XlsxFormulaMetadata::Normal { formula } => XlsxFormulaMetadata::Normal {
                formula: String::from_str(alloc, formula)?,
            },
            XlsxFormulaMetadata::Shared {
                shared_index,
                range,
                formula,
            } => XlsxFormulaMetadata::Shared {
                shared_index: *shared_index,
                range: *range,
                formula: String::from_str(alloc, formula)?,
            },
            XlsxFormulaMetadata::SharedDerived { shared_index } => {
                XlsxFormulaMetadata::SharedDerived {
                    shared_index: *shared_index,
                }
            }
        })
    }
}

/// What the last `f` of a cell says, and None where it says nothing.
pub fn metadata_of(last: Option<Formula>) -> Option<XlsxFormulaMetadata>
    ensures { option_map description_seen result ≡ described (last_seen last) }
{
    let Formula { share, text, .. } = last?;
    match share {
        FormulaAttributes::Own => {
            if text.is_empty() {
                return None;
            }
            Some(XlsxFormulaMetadata::Normal { formula: text })
        }
        FormulaAttributes::Master { index, area } => Some(XlsxFormulaMetadata::Shared {
            shared_index: index as usize,
            range: Some(area),
            formula: text,
        }),
        FormulaAttributes::Derived { index } => Some(XlsxFormulaMetadata::SharedDerived {
            shared_index: index as usize,
        }),
    }
}
