ghost use Rattle.std.specs.Prelude.{◌≡◌, ◌+◌, ◌-◌, ◌<◌, min, IfOk};
ghost use Rattle.std.specs.Char.{is_ascii_alphabetic};
ghost use Rattle.std.specs.List.{prefix_len};
ghost use Rattle.std.specs.Str.Parse.{digits_value};
ghost use Rattle.cell_refs.specs.A1.{row_limit, column_limit, letter_value, letters_value};
ghost use Rattle.cell_refs.specs.A1.{letters_of, behind_letters, stray_byte, unless_stray, corner};
ghost use Rattle.cell_refs.specs.A1.{row_of};
ghost use Rattle.cell_refs.specs.Scan.{scan_of};

use crate::{MAX_COLUMNS, MAX_ROWS, RefError};

/// Numbers stop one past the last column or row, which is enough to refuse a text of any length.
const PAST_COLUMNS: u32 = MAX_COLUMNS + 1;

const PAST_ROWS: u32 = MAX_ROWS + 1;

/// What a text has: a column and a row, counted from 1, and how many letters.
#[derive(Drop)]
struct Scan {
    column: u32,
    letters: usize,
    row: u32,
}

/// The number of a letter, A = 1.
fn letter_value(letter: u8) -> u32
    ensures { result ≡ letter_value letter }
{
    u32::from(letter.to_ascii_uppercase().saturating_sub(64))
}

/// The column that the letters in front of a text write, counted from 1, and the number of letters.
#[tactic(auto, using(crate::proofs::Scans::letter_steps))]
fn leading_column(text: &[u8]) -> (u32, usize)
    ensures number { result.0 ≡ min (letters_value (letters_of text.now)) PAST_COLUMNS }
    ensures len { result.1 ≡ prefix_len is_ascii_alphabetic text.now }
{
    let mut number = 0;
    for (i, byte) in text.iter().enumerate() {
        if !byte.is_ascii_alphabetic() {
            return (number, i);
        }
        number = (number * 26 + letter_value(*byte)).min(PAST_COLUMNS);
    }
    (number, text.len())
}

/// The row that digits write, counted from 1.
#[tactic(auto, using(crate::proofs::Scans::digit_steps))]
fn row_number(digits: &[u8]) -> Result<u32, RefError>
    ensures { result ≡ unless_stray (stray_byte digits.now)
        (Ok (min (digits_value 10 digits.now) PAST_ROWS)) }
{
    let mut number = 0;
    for byte in digits {
        if !byte.is_ascii_digit() {
            return Err(RefError::Alphanumeric(*byte));
        }
        number = (number * 10 + u32::from(*byte - b'0')).min(PAST_ROWS);
    }
    Ok(number)
}

fn scan_text(range: &str) -> Result<Scan, RefError>
    ensures { result ≡ unless_stray (stray_byte (behind_letters range.now))
        (Ok (scan_of range.now)) }
{
    let text = range.as_bytes();
    let (column, letters) = leading_column(text);
    let (_, digits) = text.split_at(letters);
    let row = row_number(digits)?;
    Ok(Scan {
        column,
        letters,
        row,
    })
}

/// The position that a text such as `C107` names, a row and a column counted from 0.
///
/// The text is letters of either case, then decimal digits; see `RefError` for what is refused.
///
/// # Examples
///
/// Texts, and what is answered:
///
/// ```
/// ("A1", Ok((0, 0))),
/// ("C107", Ok((106, 2))),
/// ("a01", Ok((0, 0))),
/// ("XFD1048576", Ok((1_048_575, 16_383))),
/// ("XFE1", Err(RefError::ColumnNumberOverflow)),
/// ("A1048577", Err(RefError::RowNumberOverflow)),
/// ```
#[tactic(auto, unfolding(crate::specs::A1::corner), using(crate::proofs::Scans::whole_scan))]
pub fn get_row_column(range: &str) -> Result<(u32, u32), RefError>
    ensures value { result ≡ corner range.now }
    ensures inside { IfOk result
        (λ position. (position.0 < row_limit) × (position.1 < column_limit)) }
{
    let Scan {
        column,
        letters,
        row,
    } = scan_text(range)?;
    if row == 0 {
        return Err(RefError::RangeWithoutRowComponent);
    }
    if letters == 0 {
        return Err(RefError::RangeWithoutColumnComponent);
    }
    if column > MAX_COLUMNS {
        return Err(RefError::ColumnNumberOverflow);
    }
    if row > MAX_ROWS {
        return Err(RefError::RowNumberOverflow);
    }
    Ok((row - 1, column - 1))
}

/// The row, counted from 0, that a text such as `107` or `C107` names, whatever its column.
///
/// The text is decimal digits, behind letters of either case or none. It is refused as
/// `Alphanumeric`, `RangeWithoutRowComponent` or `RowNumberOverflow`; see `RefError`.
#[tactic(auto, unfolding(crate::specs::A1::row_of), using(crate::proofs::Scans::whole_scan))]
pub fn get_row(range: &str) -> Result<u32, RefError>
    ensures value { result ≡ row_of range.now }
    ensures inside { IfOk result (λ row. row < row_limit) }
{
    let row = scan_text(range)?.row;
    if row == 0 {
        return Err(RefError::RangeWithoutRowComponent);
    }
    if row > MAX_ROWS {
        return Err(RefError::RowNumberOverflow);
    }
    Ok(row - 1)
}
