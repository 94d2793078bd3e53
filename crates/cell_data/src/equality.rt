//! What `==`, a copy and a default of what cells hold are. Texts are the same by their bytes, and
//! anything else is by what it is.
ghost use Rattle.std.specs.Prelude.{◌≡◌, ◌↔◌, true};
ghost use Rattle.equalities.specs.Equality.{IsEquality, CopiesItself};
ghost use Rattle.cell_data.specs.CellValue.{value_of_data, value_of_data_ref};
ghost use Rattle.cell_data.specs.declared.cell.Cell.{Cell};
ghost use Rattle.cell_data.specs.declared.value.Data.{Data};
ghost use Rattle.cell_data.specs.declared.value.DataRef.{DataRef};
ghost use Rattle.cell_data.specs.declared.value.HeaderRow.{HeaderRow};

use crate::cell::Cell;
use crate::format::CellFormat;
use crate::value::{
    CellErrorType, Data, DataRef, ExcelDateTime, ExcelDateTimeType, HeaderRow, UnknownCellError,
};

/// `a == b` exactly where both are the same, at each type of values.
pub fn equality_is_by_all_fields()
    ensures data { (a b : Data) → (⟦<Data as PartialEq>⟧.eq a b ≡ true)
        ↔ (value_of_data a ≡ value_of_data b) }
    ensures data_ref { (a b : DataRef) → (⟦<DataRef as PartialEq>⟧.eq a b ≡ true)
        ↔ (value_of_data_ref a ≡ value_of_data_ref b) }
    ensures date { IsEquality ⟦<ExcelDateTime as PartialEq>⟧.eq }
    ensures kind { IsEquality ⟦<ExcelDateTimeType as PartialEq>⟧.eq }
    ensures failure { IsEquality ⟦<CellErrorType as PartialEq>⟧.eq }
    ensures format { IsEquality ⟦<CellFormat as PartialEq>⟧.eq }
    ensures header_row { IsEquality ⟦<HeaderRow as PartialEq>⟧.eq }
    ensures unknown { IsEquality ⟦<UnknownCellError as PartialEq>⟧.eq }
{}

/// `a == b` exactly where both cells have the same position, and `==` holds of their values.
pub fn cells_are_equal_by_both_fields<T: PartialEq>()
    ensures { (a b : Cell T) → (⟦<Cell<T> as PartialEq>⟧.eq a b ≡ true)
        ↔ ((a.pos ≡ b.pos) × (⟦<T as PartialEq>⟧.eq a.val b.val ≡ true)) }
{}

/// A copy of a value is that value, at each type of this crate that is `Copy`.
pub fn copies_are_the_same()
    ensures date { CopiesItself ⟦<ExcelDateTime as Clone>⟧.is_clone
        ⟦<ExcelDateTime as Clone>⟧.is_infallible }
    ensures kind { CopiesItself ⟦<ExcelDateTimeType as Clone>⟧.is_clone
        ⟦<ExcelDateTimeType as Clone>⟧.is_infallible }
    ensures failure { CopiesItself ⟦<CellErrorType as Clone>⟧.is_clone
        ⟦<CellErrorType as Clone>⟧.is_infallible }
    ensures unknown { CopiesItself ⟦<UnknownCellError as Clone>⟧.is_clone
        ⟦<UnknownCellError as Clone>⟧.is_infallible }
    ensures format { CopiesItself ⟦<CellFormat as Clone>⟧.is_clone
        ⟦<CellFormat as Clone>⟧.is_infallible }
    ensures header_row { CopiesItself ⟦<HeaderRow as Clone>⟧.is_clone
        ⟦<HeaderRow as Clone>⟧.is_infallible }
{}

/// A range begins by default with the first row that has a value.
pub fn the_first_row_with_a_value_is_the_default()
    ensures { (row : HeaderRow) → ⟦<HeaderRow as Default>⟧.is_default row
        → row ≡ HeaderRow.FirstNonEmptyRow }
{}
