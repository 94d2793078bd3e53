ghost use Rattle.std.specs.Prelude.{◌≡◌, ◌+◌, ◌<◌, ◌≤◌, ◌++◌, length, IfSome, OnOk, OnErr};
ghost use Rattle.std.specs.Prelude.{string_bytes, string_len, string_capacity};
ghost use Rattle.std.specs.List.{AllPass, prefix_len};
ghost use Rattle.std.specs.Char.{is_ascii_alphabetic};
ghost use Rattle.formula_shift.specs.References.{corner_of, corner_by, column_of_letters};
ghost use Rattle.formula_shift.specs.References.{row_of_digits, has_dollar, behind_dollar};
ghost use Rattle.formula_shift.specs.References.{same_kind, shifted_place, shifted_corner};
ghost use Rattle.formula_shift.specs.References.{corner_spelling, IsCornerInside};
ghost use Rattle.cell_refs.specs.Words.{letters_of, behind_letters};

use crate::spelling::{column_len, push_column, push_row, row_len};
use cell_refs::{MAX_COLUMNS, MAX_ROWS};
use std::alloc::AllocError;

/// A cell, a row or a column, counted from 0. An absolute part has a `$`: it stays where others
/// move.
#[derive(Clone, Copy, Debug, PartialEq, Eq)]
pub enum Corner {
    Cell {
        row: u32,
        col: u32,
        absolute_row: bool,
        absolute_col: bool,
    },
    Row {
        row: u32,
        absolute: bool,
    },
    Column {
        col: u32,
        absolute: bool,
    },
}

impl Corner {
    /// The corner that a text names: letters for a column, a number from 1 for a row, both for a
    /// cell, each with or without a `$` before it. `None` where it names none, or none in a
    /// worksheet.
    pub fn parse(text: &str) -> Option<Corner>
        ensures value { result ≡ corner_of text.now }
        ensures inside { IfSome result IsCornerInside }
    {
        Corner::parse_bytes(text.as_bytes())
    }

    pub(crate) fn parse_bytes(text: &[u8]) -> Option<Corner>
        ensures value { result ≡ corner_of text.now }
        ensures inside { IfSome result IsCornerInside }
    {
        let (absolute, text) = cut_dollar(text);
        let (letters, behind) = cut_letters(text);
        corner_by(absolute, letters, behind)
    }

    pub(crate) fn same_kind(self, other: Corner) -> bool
        ensures { result ≡ same_kind self other }
    {
        match self {
            Corner::Cell { .. } => matches!(other, Corner::Cell { .. }),
            Corner::Row { .. } => matches!(other, Corner::Row { .. }),
            Corner::Column { .. } => matches!(other, Corner::Column { .. }),
        }
    }

    pub(crate) fn shifted(self, offset: (i64, i64)) -> Option<Corner>
        requires { IsCornerInside self }
        ensures value { result ≡ shifted_corner offset self }
        ensures inside { IfSome result IsCornerInside }
    {
        match self {
            Corner::Cell {
                row,
                col,
                absolute_row,
                absolute_col,
            } => {
                let row = shifted_place(MAX_ROWS, offset.0, absolute_row, row)?;
                let col = shifted_place(MAX_COLUMNS, offset.1, absolute_col, col)?;
                Some(Corner::Cell {
                    row,
                    col,
                    absolute_row,
                    absolute_col,
                })
            }
            Corner::Row { row, absolute } => {
                let row = shifted_place(MAX_ROWS, offset.0, absolute, row)?;
                Some(Corner::Row { row, absolute })
            }
            Corner::Column { col, absolute } => {
                let col = shifted_place(MAX_COLUMNS, offset.1, absolute, col)?;
                Some(Corner::Column { col, absolute })
            }
        }
    }

    /// Appends the canonical spelling. On `Err` the buffer had no room for it, and may hold a part.
    pub(crate) fn push_to(self, out: &mut String) -> Result<(), AllocError>
        requires { IsCornerInside self }
        ensures ok { OnOk result
            (string_bytes out.new ≡ string_bytes out.old ++ corner_spelling self) }
        ensures len { OnOk result
            (string_len out.new ≡ string_len out.old + length (corner_spelling self)) }
        ensures capacity { string_capacity out.old ≤ string_capacity out.new }
        ensures full { OnErr result
            (string_capacity out.old < string_len out.old + length (corner_spelling self)) }
    {
        match self {
            Corner::Cell {
                row,
                col,
                absolute_row,
                absolute_col,
            } => {
                push_column(out, col, absolute_col)?;
                push_row(out, row, absolute_row)?;
            }
            Corner::Row { row, absolute } => push_row(out, row, absolute)?,
            Corner::Column { col, absolute } => push_column(out, col, absolute)?,
        }
        Ok(())
    }

    /// How many bytes the canonical spelling has.
    pub(crate) fn spelled_len(self) -> usize
        requires { IsCornerInside self }
        ensures value { result ≡ length (corner_spelling self) }
        ensures short { result ≤ 15 }
    {
        match self {
            Corner::Cell {
                row,
                col,
                absolute_row,
                absolute_col,
            } => column_len(col, absolute_col) + row_len(row, absolute_row),
            Corner::Row { row, absolute } => row_len(row, absolute),
            Corner::Column { col, absolute } => column_len(col, absolute),
        }
    }
}

/// A place with a `$` stays, another one is added the offset; `None` where it leaves the limit.
fn shifted_place(limit: u32, offset: i64, absolute: bool, place: u32) -> Option<u32>
    ensures { result ≡ shifted_place limit offset absolute place }
{
    if absolute {
        return Some(place);
    }
    let moved = i64::from(place).checked_add(offset)?;
    if moved < 0 || moved >= i64::from(limit) {
        return None;
    }
    Some(moved as u32)
}

/// The corner of letters and what stands behind them, where a `$` stands before them or not.
fn corner_by(absolute: bool, letters: &[u8], behind: &[u8]) -> Option<Corner>
    requires { AllPass is_ascii_alphabetic letters.now }
    ensures { result ≡ corner_by absolute letters.now behind.now }
{
    if letters.is_empty() {
        let row = row_of_digits(behind)?;
        return Some(Corner::Row { row, absolute });
    }
    let col = column_of_letters(letters)?;
    if behind.is_empty() {
        return Some(Corner::Column { col, absolute });
    }
    let (absolute_row, digits) = cut_dollar(behind);
    let row = row_of_digits(digits)?;
    Some(Corner::Cell {
        row,
        col,
        absolute_row,
        absolute_col: absolute,
    })
}

/// Whether the text begins with a `$`, and the text without it.
fn cut_dollar(text: &[u8]) -> (bool, &[u8])
    ensures dollar { result.0 ≡ has_dollar text.now }
    ensures behind { result.1.now ≡ behind_dollar text.now }
{
    match text.split_first() {
        Some((b'$', behind)) => (true, behind),
        _ => (false, text),
    }
}

/// The letters that the text begins with, and what follows them.
fn cut_letters(text: &[u8]) -> (&[u8], &[u8])
    ensures letters { result.0.now ≡ letters_of text.now }
    ensures behind { result.1.now ≡ behind_letters text.now }
    ensures all { AllPass is_ascii_alphabetic result.0.now }
{
    text.split_at(letter_count(text))
}

fn letter_count(text: &[u8]) -> usize
    ensures { result ≡ prefix_len is_ascii_alphabetic text.now }
{
    text.iter().take_while(|b| b.is_ascii_alphabetic()).count()
}

/// The column that letters name, if any.
fn column_of_letters(letters: &[u8]) -> Option<u32>
    requires { AllPass is_ascii_alphabetic letters.now }
    ensures { result ≡ column_of_letters letters.now }
{
    let mut number = 0;
    for b in letters {
        number = number * 26 + u32::from(b.to_ascii_uppercase() - b'@');
        if number > MAX_COLUMNS {
            return None;
        }
    }
    number.checked_sub(1)
}

/// The row that digits name, if any. Other bytes name none.
fn row_of_digits(digits: &[u8]) -> Option<u32>
    ensures { result ≡ row_of_digits digits.now }
{
    let mut number = 0;
    for b in digits {
        if !b.is_ascii_digit() {
            return None;
        }
        number = number * 10 + u32::from(*b - b'0');
        if number > MAX_ROWS {
            return None;
        }
    }
    number.checked_sub(1)
}
