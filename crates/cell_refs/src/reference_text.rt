ghost use Rattle.std.specs.Prelude.{◌≡◌, ℕ, ◌+◌, ◌<◌, ◌≤◌, ◌++◌, List, length, OnOk, OnErr};
ghost use Rattle.std.specs.Prelude.{string_bytes, string_len, string_capacity};
ghost use Rattle.cell_refs.specs.A1.{row_limit, column_limit, column_name, corner, row_of};
ghost use Rattle.cell_refs.specs.Reference.{reference, row_reference};

use crate::column_number_to_name;
use itoa::Buffer;
use std::alloc::AllocError;

// Each call below is refused only where the capacity has no room for what it appends, and the text
// is then as it was.

/// Appends the text of a row, which is counted from 0: its number, counted from 1.
pub fn push_row_reference(out: &mut String, row: u32) -> Result<(), AllocError>
    requires { row < row_limit }
    ensures ok { OnOk result (string_bytes out.new ≡ string_bytes out.old ++ row_reference row) }
    ensures len { OnOk result
        (string_len out.new ≡ string_len out.old + length (row_reference row)) }
    ensures err { OnErr result (string_bytes out.new ≡ string_bytes out.old) }
    ensures capacity { string_capacity out.old ≤ string_capacity out.new }
    ensures full { OnErr result
        (string_capacity out.old < string_len out.old + length (row_reference row)) }
{
    let mut buffer = Buffer::new();
    out.push_str(buffer.format(row + 1))
}

/// Appends the name of a column, which is counted from 0.
pub fn push_column_name(out: &mut String, column: u32) -> Result<(), AllocError>
    requires { column < column_limit }
    ensures ok { OnOk result (string_bytes out.new ≡ string_bytes out.old ++ column_name column) }
    ensures len { OnOk result
        (string_len out.new ≡ string_len out.old + length (column_name column)) }
    ensures err { OnErr result (string_bytes out.new ≡ string_bytes out.old) }
    ensures capacity { string_capacity out.old ≤ string_capacity out.new }
    ensures full { OnErr result
        (string_capacity out.old < string_len out.old + length (column_name column)) }
{
    out.push_str(column_number_to_name(column).unwrap().as_str())
}

/// Appends the A1 text of a position, whose row and column are counted from 0.
pub fn push_reference(out: &mut String, row: u32, column: u32) -> Result<(), AllocError>
    requires in_rows { row < row_limit }
    requires in_columns { column < column_limit }
    ensures ok { OnOk result
        (string_bytes out.new ≡ string_bytes out.old ++ reference (row, column)) }
    ensures err { OnErr result (string_bytes out.new ≡ string_bytes out.old) }
    ensures capacity { string_capacity out.old ≤ string_capacity out.new }
    ensures full { OnErr result
        (string_capacity out.old < string_len out.old + length (reference (row, column))) }
{
    let name = column_number_to_name(column).unwrap();
    let name = name.as_str();
    let mut buffer = Buffer::new();
    let number = buffer.format(row + 1);
    out.reserve(name.len() + number.len())?;
    // There is room now.
    out.push_str(name)?;
    out.push_str(number)
}

/// The text of a position is read as that position, and the text of a row as that row.
#[tactic(auto, using(crate::proofs::References::read_back))]
pub fn references_read_back()
    ensures position { (row column : ℕ) → row < row_limit → column < column_limit →
        corner (reference (row, column)) ≡ Ok (row, column) }
    ensures row { (row : ℕ) → row < row_limit → row_of (row_reference row) ≡ Ok row }
{}

/// What a text names lies inside a worksheet.
#[tactic(auto, using(crate::proofs::Inside::corner_inside, crate::proofs::Inside::row_inside))]
pub fn references_lie_inside()
    ensures position { (text : List ℕ) (position : ℕ × ℕ) → corner text ≡ Ok position →
        (position.0 < row_limit) × (position.1 < column_limit) }
    ensures row { (text : List ℕ) (row : ℕ) → row_of text ≡ Ok row → row < row_limit }
{}
