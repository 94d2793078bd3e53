ghost use Rattle.std.specs.Prelude.{◌≡◌, [], List, map, true, Ok, IfOk, IfErr, IfSome, IfNone};
ghost use Rattle.std.specs.Prelude.{option_map};
ghost use Rattle.xlsx_formulas.specs.Words.{FormulaText};
ghost use Rattle.xlsx_cells.specs.Words.{stream_by, context_by, values_alone, values_and_formulas};
ghost use Rattle.xlsx_cells.specs.Words.{Mark, values_in, IsStreaming, IsGoing, StandsBehind};
ghost use Rattle.xlsx_cells.specs.Words.{data_ahead, DataFails, IsValuedFormula, TakesAll};
ghost use Rattle.xlsx_cells.specs.Words.{cell_value_entry, formula_value_entry};
ghost use Rattle.tests_calls.specs.Taking.{TakesBoth, LacksTwo, TwoFail, has_error, IsFirstError};
ghost use Rattle.tests_calls.specs.Taking.{StopsAtError, FailsBeforeError};

use cell_data::{Cell, DataRef};
use part_events::Package;
use std::alloc::Global;
use xlsx_cells::{XlsxCellFormula, XlsxCellReader};
use xlsx_error::XlsxError;

/// The cells of a sheet with their values and their formulas, of which the reader has taken none.
pub fn formulas_taken<P: Package>(
    alloc: Global,
    reader: &mut XlsxCellReader<'_, P>,
) -> Result<Vec<XlsxCellFormula>, XlsxError>
    requires going { IsGoing (stream_by reader.old) }
    requires fresh { StandsBehind [] [] (stream_by reader.old) }
    ensures values { let old = stream_by reader.old in
        old.reading.source.is_visible ≡ true → IfOk result (λ cells.
        values_in (context_by reader.old) (data_ahead old)
        ≡ Ok (map formula_value_entry cells.items)) }
    ensures formulas { let old = stream_by reader.old in
        old.reading.source.is_visible ≡ true → IfOk result (λ cells.
        TakesAll (IsValuedFormula (context_by reader.old)) [] [] old cells.items) }
    ensures err { IfErr result (DataFails values_and_formulas (context_by reader.old)
        (stream_by reader.old) (stream_by reader.new)) }
{
    let mut cells = Vec::new(alloc);
    'cells: while let Some(cell) = reader.next_cell_with_formula()? {
        cells.push(cell)?;
    }
    Ok(cells)
}

/// Whether the value of a cell is an error.
fn is_error(cell: &Cell<DataRef>) -> bool
    ensures { result ≡ has_error cell.now }
{
    matches!(cell.val, DataRef::Error(_))
}

/// The first cell whose value is an error, where there is one. Nothing behind it is read, and so
/// refuses nothing: of what was taken up to it no value is an error, and a refusal comes of the
/// next cell behind such ones.
pub fn first_error<P: Package>(
    reader: &mut XlsxCellReader<'_, P>,
) -> Result<Option<Cell<DataRef>>, XlsxError>
    requires going { IsGoing (stream_by reader.old) }
    requires fresh { StandsBehind [] [] (stream_by reader.old) }
    ensures found { let old = stream_by reader.old in
        old.reading.source.is_visible ≡ true → IfOk result (λ found. IsFirstError
        (option_map cell_value_entry found) (values_in (context_by reader.old) (data_ahead old))) }
    ensures stops { let old = stream_by reader.old in
        let new = stream_by reader.new in
        old.reading.source.is_visible ≡ true → IfOk result (λ found.
        IfSome found (StopsAtError (context_by reader.old) old new)) }
    ensures before { let old = stream_by reader.old in
        let new = stream_by reader.new in
        old.reading.source.is_visible ≡ true →
        IfErr result (FailsBeforeError (context_by reader.old) old new) }
    ensures err { IfErr result (DataFails values_alone (context_by reader.old)
        (stream_by reader.old) (stream_by reader.new)) }
{
    'cells: while let Some(cell) = reader.next_cell()? {
        if is_error(&cell) {
            return Ok(Some(cell));
        }
        drop(cell);
    }
    Ok(None)
}

/// The value of the next cell, and the value and the formula of the one behind it, where there are
/// two. Nothing behind them is read.
pub fn two_taken<P: Package>(
    reader: &mut XlsxCellReader<'_, P>,
) -> Result<Option<(Cell<DataRef>, XlsxCellFormula)>, XlsxError>
    requires { IsStreaming (stream_by reader.old) }
    ensures streaming { IsStreaming (stream_by reader.new) }
    ensures takes { let old = stream_by reader.old in
        let new = stream_by reader.new in
        old.reading.source.is_visible ≡ true → (before : List Mark) (earlier : List FormulaText) →
        StandsBehind before earlier old → IfOk result
        (λ found. IfSome found (TakesBoth (context_by reader.old) before earlier old new)) }
    ensures none { let old = stream_by reader.old in
        let new = stream_by reader.new in
        old.reading.source.is_visible ≡ true → (before : List Mark) (earlier : List FormulaText) →
        StandsBehind before earlier old → IfOk result
        (λ found. IfNone found (LacksTwo (context_by reader.old) before earlier old new)) }
    ensures err { let old = stream_by reader.old in
        let new = stream_by reader.new in
        IfErr result (TwoFail (context_by reader.old) old new) }
{
    let Some(first) = reader.next_cell()? else {
        return Ok(None);
    };
    let Some(second) = reader.next_cell_with_formula()? else {
        return Ok(None);
    };
    Ok(Some((first, second)))
}
