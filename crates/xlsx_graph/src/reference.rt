//! The A1 text of a position, wherever it is.
ghost use Rattle.std.specs.Prelude.{◌≡◌, ◌+◌, ◌<◌, ◌≤◌, ◌∷◌, ◌++◌, [], ℕ, string_bytes, OnErr};
ghost use Rattle.std.specs.Prelude.{OnOk};
ghost use Rattle.cell_refs.specs.Words.{capitals_with_fuel, column_name, reference, row_reference};
ghost use Rattle.escaped_text.specs.Escaped.{AddsBehind};
ghost use Rattle.list_lines.specs.Fields.{area_field};

use cell_refs::Dimensions;
use itoa::Buffer;
use std::alloc::AllocError;

// What formulas name lies in a worksheet, but where the areas of tables don't, as their parts may
// say. Such a text is written all the same.

/// Appends the capital at a place in the alphabet, counted from 0.
fn push_capital(out: &mut String, place: u64) -> Result<(), AllocError>
    requires { place < 26 }
    ensures ok { OnOk result
        (string_bytes out.new ≡ string_bytes out.old ++ (65 + place) ∷ []) }
    ensures err { OnErr result (string_bytes out.new ≡ string_bytes out.old) }
{
    out.push(char::from(b'A' + place as u8))
}

/// Appends the capitals that write a number in base 26, where no letter is 0.
fn push_capitals(out: &mut String, number: u64) -> Result<(), AllocError>
    ensures ok { OnOk result ((turns : ℕ) → number ≤ turns →
        string_bytes out.new ≡ string_bytes out.old ++ capitals_with_fuel turns number) }
    ensures err { OnErr result (AddsBehind (string_bytes out.old) (string_bytes out.new)) }
{
    if number == 0 {
        return Ok(());
    }
    push_capitals(out, (number - 1) / 26)?;
    push_capital(out, (number - 1) % 26)
}

/// Appends the name of a column, which is counted from 0.
fn push_column(out: &mut String, column: u32) -> Result<(), AllocError>
    ensures ok { OnOk result (string_bytes out.new ≡ string_bytes out.old ++ column_name column) }
    ensures err { OnErr result (AddsBehind (string_bytes out.old) (string_bytes out.new)) }
{
    push_capitals(out, u64::from(column) + 1)
}

/// Appends the number of a row, which is counted from 0.
fn push_row(out: &mut String, row: u32) -> Result<(), AllocError>
    ensures ok { OnOk result (string_bytes out.new ≡ string_bytes out.old ++ row_reference row) }
    ensures err { OnErr result (string_bytes out.new ≡ string_bytes out.old) }
{
    let mut buffer = Buffer::new();
    out.push_str(buffer.format(u64::from(row) + 1))
}

/// Appends the A1 text of a position, a row and a column counted from 0.
pub(crate) fn push_position(out: &mut String, row: u32, column: u32) -> Result<(), AllocError>
    ensures ok { OnOk result
        (string_bytes out.new ≡ string_bytes out.old ++ reference (row, column)) }
    ensures err { OnErr result (AddsBehind (string_bytes out.old) (string_bytes out.new)) }
{
    push_column(out, column)?;
    push_row(out, row)
}

/// Appends the texts of two corners, with a colon between them.
pub(crate) fn push_corners(out: &mut String, area: Dimensions) -> Result<(), AllocError>
    ensures ok { OnOk result (string_bytes out.new ≡ string_bytes out.old ++ area_field area) }
    ensures err { OnErr result (AddsBehind (string_bytes out.old) (string_bytes out.new)) }
{
    push_position(out, area.start.0, area.start.1)?;
    out.push_str(":")?;
    push_position(out, area.end.0, area.end.1)
}
