ghost use Rattle.std.specs.Prelude.{◌≡◌, ℕ, ◌+◌, ◌<◌, ◌≤◌, List, length, take, ◌++◌, codes, All};
ghost use Rattle.std.specs.Prelude.{if◌then◌else◌, nat_lt};
ghost use Rattle.cell_refs.specs.A1.{column_limit, column_name, corner, IsCapital};

use crate::{MAX_COLUMNS, RefError};
use std::marker::Model;
use std::str;

/// The name of a column of a worksheet: one to three capitals, as `A` or `XFD`.
#[derive(Debug, Drop)]
pub struct ColumnName {
    letters: [u8; 3],
    len: usize,
}

impl Model for ColumnName {
    ghost Value = { List ℕ };

    ghost view = { λ name. take name.len name.letters };

    ghost invariant = { λ name. (1 ≤ name.len) × (name.len ≤ 3)
        × All IsCapital (take name.len name.letters) };
}

impl ColumnName {
    /// The letters of the name.
    pub fn as_str(&self) -> &str
        ensures value { result.now ≡ self.now }
        ensures capitals { All IsCapital result.now }
        ensures not_empty { 1 ≤ length result.now }
        ensures short { length result.now ≤ 3 }
    {
        str::from_utf8(&self.letters[..self.len]).unwrap()
    }
}

/// The name of a column, which is counted from 0, as `A` for 0.
///
/// Fails with `ColumnNumberOverflow` past the last column of a worksheet.
///
/// # Examples
///
/// Columns, counted from 0, with their names, and one past the last:
///
/// ```
/// let names = [(0, "A"), (25, "Z"), (26, "AA"), (27, "AB"), (16_383, "XFD")];
/// for (num, want) in names {
///     assert!(rt; column_number_to_name(num)?.as_str() == want, "of {num}");
/// }
/// assert!(rt; column_number_to_name(MAX_COLUMNS).is_err());
/// ```
pub fn column_number_to_name(num: u32) -> Result<ColumnName, RefError>
    ensures { result ≡ (if nat_lt num column_limit then Ok (column_name num)
        else Err RefError.ColumnNumberOverflow) }
{
    if num >= MAX_COLUMNS {
        return Err(RefError::ColumnNumberOverflow);
    }
    Ok(name_of(num))
}

/// The capital at a place in the alphabet, counted from 0.
fn capital(place: u32) -> u8
    requires { place < 26 }
    ensures { result ≡ 65 + place }
{
    b'A' + place as u8
}

#[tactic(auto, using(crate::proofs::Names::name_steps))]
fn name_of(num: u32) -> ColumnName
    requires { num < column_limit }
    ensures { result ≡ column_name num }
{
    let last = capital(num % 26);
    if num < 26 {
        return ColumnName {
            letters: [last, 0, 0],
            len: 1,
        };
    }
    let front = num / 26 - 1;
    let middle = capital(front % 26);
    if front < 26 {
        return ColumnName {
            letters: [middle, last, 0],
            len: 2,
        };
    }
    let first = capital(front / 26 - 1);
    ColumnName {
        letters: [first, middle, last],
        len: 3,
    }
}

/// A column's name with `1` behind it is the text of the column's first cell.
#[tactic(auto, using(crate::proofs::ReadBack::corner_of_name))]
pub fn column_names_read_back()
    ensures { (column : ℕ) → column < column_limit
        → corner (column_name column ++ codes "1") ≡ Ok (0, column) }
{}
