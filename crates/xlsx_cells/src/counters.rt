ghost use Rattle.std.specs.Prelude.{◌≡◌, ◌+◌, ◌<◌, ℕ, [], ◌∷◌, List, Option, Some, None, Ok, Err};
ghost use Rattle.std.specs.Prelude.{IfOk, OnOk, IfErr};
ghost use Rattle.cell_refs.specs.declared.TheConstants.{MAX_ROWS, MAX_COLUMNS};
ghost use Rattle.part_events.specs.Words.{tag_of, Element};
ghost use Rattle.xlsx_cells.specs.Counting.{AreKept, IsGiven, IsRefused, IsPositionError};
ghost use Rattle.xlsx_cells.specs.Marks.{Mark, row_start, row_end, cell};
ghost use Rattle.xlsx_cells.specs.Position.{row_named, position_named, column_counter};
ghost use Rattle.xlsx_cells.specs.Position.{implied_position, cell_position};

use attr_text::RawAttributes;
use cell_refs::{MAX_COLUMNS, MAX_ROWS, get_row, get_row_column};
use part_events::StartTag;
use xlsx_error::XlsxError;

/// The row that the start of a row names.
fn row_named(tag: StartTag<'_>) -> Result<Option<u32>, XlsxError>
    ensures ok { IfOk result (λ row. row_named (tag_of tag.entry) ≡ Ok row) }
    ensures inside { IfOk result (λ row. (n : ℕ) → row ≡ Some n → n < MAX_ROWS) }
    ensures err { IfErr result (IsRefused (λ refusal. row_named (tag_of tag.entry) ≡ Err refusal)) }
    ensures kind { IfErr result IsPositionError }
{
    match tag.raw_attr("r")? {
        Some(text) => Ok(Some(get_row(text)?)),
        None => Ok(None),
    }
}

/// The position that the start of a cell names.
fn position_named(tag: StartTag<'_>) -> Result<Option<(u32, u32)>, XlsxError>
    ensures ok { IfOk result (λ position. position_named (tag_of tag.entry) ≡ Ok position) }
    ensures inside { IfOk result (λ position. (p : ℕ × ℕ) → position ≡ Some p →
        (p.0 < MAX_ROWS) × (p.1 < MAX_COLUMNS)) }
    ensures err { IfErr result
        (IsRefused (λ refusal. position_named (tag_of tag.entry) ≡ Err refusal)) }
    ensures kind { IfErr result IsPositionError }
{
    match tag.raw_attr("r")? {
        Some(text) => Ok(Some(get_row_column(text)?)),
        None => Ok(None),
    }
}

fn implied_position(row: u32, column: u32) -> Result<(u32, u32), XlsxError>
    ensures ok { IfOk result (λ position. implied_position row column ≡ Ok position) }
    ensures same { IfOk result (λ position.
        (position ≡ (row, column)) × (row < MAX_ROWS) × (column < MAX_COLUMNS)) }
    ensures err { IfErr result (IsRefused (λ refusal. implied_position row column ≡ Err refusal)) }
    ensures kind { IfErr result IsPositionError }
{
    if column >= MAX_COLUMNS {
        return Err(XlsxError::ColumnNumberOverflow);
    }
    if row >= MAX_ROWS {
        return Err(XlsxError::RowNumberOverflow);
    }
    Ok((row, column))
}

/// Where the next cell stands that names no position, its row and column counted from 0. The
/// counters stop behind the last row and the last column.
#[derive(Clone, Copy, Debug)]
pub struct Counters {
    row: u32,
    column: u32,
}

impl Counters {
    /// The counters at the start of a sheet's data, at row 0 and column 0.
    pub fn new() -> Counters
        ensures { AreKept [] result }
    {
        Counters { row: 0, column: 0 }
    }

    /// Passes the end of a row.
    pub fn end_row(&mut self)
        ensures { (before : List Mark) → AreKept before self.old →
            AreKept (row_end ∷ before) self.new }
    {
        self.row = self.row.saturating_add(1).min(MAX_ROWS);
        self.column = 0;
    }

    /// Passes the start of a row.
    pub fn start_row(&mut self, tag: StartTag<'_>) -> Result<(), XlsxError>
        ensures ok { OnOk result ((before : List Mark) → AreKept before self.old →
            AreKept (row_start (tag_of tag.entry) ∷ before) self.new) }
        ensures sound { OnOk result (IsGiven (row_named (tag_of tag.entry))) }
        ensures err { IfErr result
            (IsRefused (λ refusal. row_named (tag_of tag.entry) ≡ Err refusal)) }
        ensures kind { IfErr result IsPositionError }
    {
        if let Some(row) = row_named(tag)? {
            self.row = row;
        }
        Ok(())
    }

    /// The position of a cell.
    fn position(self, tag: StartTag<'_>) -> Result<(u32, u32), XlsxError>
        ensures position { IfOk result (λ position. (before : List Mark) →
            AreKept before self → cell_position before (tag_of tag.entry) ≡ Ok position) }
        ensures behind { IfOk result (λ position. (before : List Mark) (element : Element) →
            AreKept before self → element.tag ≡ tag_of tag.entry →
            column_counter 0 (cell element ∷ before) ≡ position.1 + 1) }
        ensures inside { IfOk result (λ position.
            (position.0 < MAX_ROWS) × (position.1 < MAX_COLUMNS)) }
        ensures err { IfErr result (IsRefused (λ refusal. (before : List Mark) →
            AreKept before self → cell_position before (tag_of tag.entry) ≡ Err refusal)) }
        ensures kind { IfErr result IsPositionError }
    {
        match position_named(tag)? {
            Some(position) => Ok(position),
            None => implied_position(self.row, self.column),
        }
    }

    /// The position of a cell, which is passed.
    pub fn place(&mut self, tag: StartTag<'_>) -> Result<(u32, u32), XlsxError>
        ensures position { IfOk result (λ position. (before : List Mark) →
            AreKept before self.old → cell_position before (tag_of tag.entry) ≡ Ok position) }
        ensures counts { OnOk result ((before : List Mark) (element : Element) →
            AreKept before self.old → element.tag ≡ tag_of tag.entry →
            AreKept (cell element ∷ before) self.new) }
        ensures inside { IfOk result (λ position.
            (position.0 < MAX_ROWS) × (position.1 < MAX_COLUMNS)) }
        ensures err { IfErr result (IsRefused (λ refusal. (before : List Mark) →
            AreKept before self.old → cell_position before (tag_of tag.entry) ≡ Err refusal)) }
        ensures kind { IfErr result IsPositionError }
    {
        let position = self.position(tag)?;
        self.column = position.1 + 1;
        Ok(position)
    }
}
