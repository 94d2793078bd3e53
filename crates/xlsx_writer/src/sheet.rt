//! The sheet's data, written along its values and its formulas.
ghost use Rattle.std.specs.Prelude.{◌≡◌, [], All, None, MatchOption, OnOk};
ghost use Rattle.cell_data.specs.Words.{value_of_data, AreInOrder};
ghost use Rattle.cell_data.proofs.Stepping.{meant};
ghost use Rattle.sorted_cells.specs.Words.{placed_left};
ghost use Rattle.written_markup.specs.Words.{with_events};
ghost use Rattle.xlsx_writer.specs.Writing.{left_of, forms_left, IsFormInSheet, IsFirstOfBoth};
ghost use Rattle.xlsx_writer.specs.Writing.{data_left};

use crate::cells::{enter_row, leave_row, push_cell};
use crate::form::WrittenForm;
use crate::groups::GroupedFormula;
use cell_data::{Data, earlier};
use sorted_cells::PlacedCells;
use std::alloc::AllocError;
use written_markup::PackageBuilder;

/// Formulas that are left to write, row by row.
#[derive(Drop)]
pub struct FormsLeft<'a> {
    all: &'a [GroupedFormula<'a>],
    next: usize,
}

impl<'a> FormsLeft<'a> {
    ghost use Rattle.std.specs.Prelude.{◌≡◌, IfSome, All};
    ghost use Rattle.std.specs.Option.{option_map};
    ghost use Rattle.sorted_cells.specs.Words.{first_position, value_first, left_behind};
    ghost use Rattle.xlsx_writer.specs.Writing.{form_entries, left_of, forms_left, written_of};
    ghost use Rattle.xlsx_writer.specs.Writing.{IsFormInSheet};

    /// All of these formulas.
    pub fn new(formulas: &'a [GroupedFormula<'a>]) -> FormsLeft<'a>
        ensures forms { forms_left result ≡ form_entries formulas.now }
        ensures fits { All IsFormInSheet formulas.now → All IsFormInSheet (left_of result) }
    {
        FormsLeft {
            all: formulas,
            next: 0,
        }
    }

    /// The position of the next formula, counted from 0, and it stays the next one.
    fn next_position(&self) -> Option<(u32, u32)>
        ensures { result ≡ first_position (forms_left self.now) }
    {
        match self.all.get(self.next) {
            Some(formula) => Some(formula.position),
            None => None,
        }
    }

    /// The next formula where it stands at this position, and it is taken; else nothing.
    fn next_at(&mut self, position: (u32, u32)) -> Option<GroupedFormula<'a>>
        ensures value { option_map written_of result ≡ value_first position (forms_left self.old) }
        ensures left { forms_left self.new ≡ left_behind position (forms_left self.old) }
        ensures fits { All IsFormInSheet (left_of self.old) → IfSome result IsFormInSheet }
        ensures left_fits { All IsFormInSheet (left_of self.old) →
            All IsFormInSheet (left_of self.new) }
    {
        let formula = *self.all.get(self.next)?;
        if formula.position != position {
            return None;
        }
        self.next += 1;
        Some(formula)
    }
}

/// The first position that has a value or a formula, counted from 0.
fn first_of_both(values: &PlacedCells<'_, Data>, formulas: &FormsLeft<'_>) -> Option<(u32, u32)>
    requires values { AreInOrder (placed_left values.now) }
    requires formulas { AreInOrder (forms_left formulas.now) }
    ensures { MatchOption result
        ((placed_left values.now ≡ []) × (forms_left formulas.now ≡ []))
        (IsFirstOfBoth (placed_left values.now) (forms_left formulas.now)) }
{
    earlier(values.next_position(), formulas.next_position())
}

/// Appends the rows of values and formulas. Attributes and texts are made in `buffer`.
pub fn push_rows(
    builder: &mut PackageBuilder,
    buffer: &mut String,
    form: WrittenForm,
    values: PlacedCells<'_, Data>,
    formulas: FormsLeft<'_>,
) -> Result<(), AllocError>
    requires values { AreInOrder (placed_left values) }
    requires formulas { AreInOrder (forms_left formulas) }
    requires sheet { All IsFormInSheet (left_of formulas) }
    ensures { let rows = data_left form None (meant value_of_data (placed_left values.entry))
        (forms_left formulas.entry) in
        OnOk result (builder.new ≡ with_events builder.old rows) }
{
    let mut values_left = values;
    let mut formulas_left = formulas;
    let mut row = None;
    'positions: while let Some(position) = first_of_both(&values_left, &formulas_left) {
        let value = values_left.next_at(position);
        let formula = formulas_left.next_at(position);
        enter_row(builder, buffer, row, position.0)?;
        push_cell(builder, buffer, form, position, value, formula)?;
        row = Some(position.0);
    }
    leave_row(builder, row)
}
