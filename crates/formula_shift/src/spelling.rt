ghost use Rattle.std.specs.Prelude.{◌≡◌, ◌+◌, ◌<◌, ◌≤◌, ◌++◌, length, decimal, OnOk, OnErr};
ghost use Rattle.std.specs.Prelude.{string_bytes, string_len, string_capacity};
ghost use Rattle.cell_refs.specs.Words.{row_limit, column_limit, column_name};
ghost use Rattle.formula_shift.specs.References.{dollar};

use cell_refs::{push_column_name, push_row_reference};
use std::alloc::AllocError;

// The canonical spelling of parts of references. A call fails only where the buffer has no room for
// what it appends, and then leaves it open how much of that was appended.

fn push_dollar(out: &mut String, absolute: bool) -> Result<(), AllocError>
    ensures ok { OnOk result (string_bytes out.new ≡ string_bytes out.old ++ dollar absolute) }
    ensures len { OnOk result (string_len out.new ≡ string_len out.old + length (dollar absolute)) }
    ensures capacity { string_capacity out.old ≤ string_capacity out.new }
    ensures full { OnErr result
        (string_capacity out.old < string_len out.old + length (dollar absolute)) }
{
    if absolute {
        out.push('$')?;
    }
    Ok(())
}

/// Appends a row's number, with a `$` before it where it is absolute.
pub(crate) fn push_row(out: &mut String, row: u32, absolute: bool) -> Result<(), AllocError>
    requires { row < row_limit }
    ensures ok { OnOk result
        (string_bytes out.new ≡ string_bytes out.old ++ (dollar absolute ++ decimal (row + 1))) }
    ensures len { OnOk result
        (string_len out.new ≡ string_len out.old + length (dollar absolute ++ decimal (row + 1))) }
    ensures capacity { string_capacity out.old ≤ string_capacity out.new }
    ensures full { OnErr result
        (string_capacity out.old
        < string_len out.old + length (dollar absolute ++ decimal (row + 1))) }
{
    push_dollar(out, absolute)?;
    push_row_reference(out, row)?;
    Ok(())
}

/// Appends a column's name, with a `$` before it where it is absolute.
pub(crate) fn push_column(out: &mut String, col: u32, absolute: bool) -> Result<(), AllocError>
    requires { col < column_limit }
    ensures ok { OnOk result
        (string_bytes out.new ≡ string_bytes out.old ++ (dollar absolute ++ column_name col)) }
    ensures len { OnOk result
        (string_len out.new ≡ string_len out.old + length (dollar absolute ++ column_name col)) }
    ensures capacity { string_capacity out.old ≤ string_capacity out.new }
    ensures full { OnErr result
        (string_capacity out.old
        < string_len out.old + length (dollar absolute ++ column_name col)) }
{
    push_dollar(out, absolute)?;
    push_column_name(out, col)?;
    Ok(())
}

/// How many bytes `push_row` appends.
#[tactic(auto, using(crate::proofs::Numbers::lengths))]
pub(crate) fn row_len(row: u32, absolute: bool) -> usize
    requires { row < row_limit }
    ensures value { result ≡ length (dollar absolute ++ decimal (row + 1)) }
    ensures short { result ≤ 11 }
{
    usize::from(absolute) + number_len(row + 1)
}

/// How many bytes `push_column` appends.
#[tactic(auto, using(crate::proofs::Numbers::lengths))]
pub(crate) fn column_len(col: u32, absolute: bool) -> usize
    requires { col < column_limit }
    ensures value { result ≡ length (dollar absolute ++ column_name col) }
    ensures short { result ≤ 4 }
{
    usize::from(absolute) + name_len(col)
}

#[tactic(auto, using(crate::proofs::Numbers::lengths))]
fn number_len(mut number: u32) -> usize
    ensures value { result ≡ length (decimal number) }
    ensures short { result ≤ 10 }
{
    let mut digits = 1;
    while number >= 10 {
        number /= 10;
        digits += 1;
    }
    digits
}

#[tactic(auto, using(crate::proofs::Numbers::lengths))]
fn name_len(col: u32) -> usize
    requires { col < column_limit }
    ensures value { result ≡ length (column_name col) }
    ensures short { result ≤ 3 }
{
    if col < 26 {
        1
    } else if col < 26 + 26 * 26 {
        2
    } else {
        3
    }
}
