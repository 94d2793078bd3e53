//! What `==` and a copy of the types of this crate are.
ghost use Rattle.equalities.specs.Equality.{IsEquality, IsEqualityBy, CopiesItself};
ghost use Rattle.xlsx_cells.specs.Records.{formula_cell, metadata_cell};

use crate::cell_records::{XlsxCellFormula, XlsxCellFormulaMetadataRecord};
use crate::children::{Asked, Wants};

/// `a == b` exactly where all fields are the same, at each type of this crate, texts by their
/// bytes.
pub fn equality_is_by_all_fields()
    ensures formula { IsEqualityBy formula_cell ⟦<XlsxCellFormula as PartialEq>⟧.eq }
    ensures metadata { IsEqualityBy metadata_cell
        ⟦<XlsxCellFormulaMetadataRecord as PartialEq>⟧.eq }
    ensures wants { IsEquality ⟦<Wants as PartialEq>⟧.eq }
{}

/// A copy of a value is that value, at each type of this crate that is `Copy`.
pub fn copies_are_the_same<'a>()
    ensures wants { CopiesItself ⟦<Wants as Clone>⟧.is_clone ⟦<Wants as Clone>⟧.is_infallible }
    ensures asked { CopiesItself ⟦<Asked<'a> as Clone>⟧.is_clone
        ⟦<Asked<'a> as Clone>⟧.is_infallible }
{}
