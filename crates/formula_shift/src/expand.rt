ghost use Rattle.std.specs.Prelude.{◌≡◌, ◌+◌, ◌<◌, ◌≤◌, ◌++◌, [], length, IfOk, OnOk, OnErr, IsOk};
ghost use Rattle.std.specs.Prelude.{string_bytes, string_len, string_capacity};
ghost use Rattle.formula_shift.specs.Pieces.{piece_text, joined_pieces};
ghost use Rattle.formula_shift.specs.ShiftedReference.{pieces_found, IsFoundInside};
ghost use Rattle.formula_shift.specs.Relocation.{offset_between, first_byte, shifted_piece, moved};

use crate::piece::{Piece, Pieces, first_byte};
use crate::reference::Reference;
use std::alloc::{AllocError, Global};

/// What stands for a reference that leaves the worksheet.
const LOST: &str = "#REF!";

/// What a piece is where a formula is moved.
enum ShiftedReference {
    NoReference,
    Moved(Reference),
    /// A reference of which a part leaves the worksheet.
    Leaves,
}

/// The formula of the cell at `start`, a row and a column counted from 0, as it stands in the cell
/// at `end`: each reference is moved by the way between them and spelled anew, or becomes `#REF!`
/// where a part of it leaves the worksheet. All else stays.
///
/// # Examples
///
/// Formulas, the cells that they stand in and are moved to, and what they are there:
///
/// ```
/// ("B3+$B$3", (4, 2), (5, 1), "A4+$B$3"),
/// ("B3:C4", (7, 7), (5, 6), "A1:B2"),
/// ("A1", (3, 0), (2, 0), "#REF!"),
/// ("A1:B3", (3, 0), (2, 0), "#REF!"),
/// ("Sheet1!A1*$A$1", (1, 0), (0, 0), "Sheet1!#REF!*$A$1"),
/// ```
pub fn expand_shared_formula(
    alloc: Global,
    formula: &str,
    start: (u32, u32),
    end: (u32, u32),
) -> Result<String, AllocError>
    ensures { IfOk result
        (λ text. string_bytes text ≡ moved formula.now (offset_between start end)) }
{
    let mut out = String::new(alloc);
    expand_shared_formula_into(formula, start, end, &mut out)?;
    Ok(out)
}

/// `expand_shared_formula` into a buffer, whose old text is dropped. It succeeds where the buffer's
/// capacity is at least `expanded_len`. After an `Err` the buffer is empty.
pub fn expand_shared_formula_into(
    formula: &str,
    start: (u32, u32),
    end: (u32, u32),
    out: &mut String,
) -> Result<(), AllocError>
    ensures ok { OnOk result (string_bytes out.new ≡ moved formula.now (offset_between start end)) }
    ensures err { OnErr result (string_bytes out.new ≡ []) }
    ensures room { length (moved formula.now (offset_between start end)) ≤ string_capacity out.old →
        IsOk result }
    ensures capacity { string_capacity out.old ≤ string_capacity out.new }
{
    out.clear();
    match push_moved(out, formula, offset_between(start, end)) {
        Ok(()) => Ok(()),
        Err(error) => {
            out.clear();
            Err(error)
        }
    }
}

/// How many bytes the expanded formula has.
pub fn expanded_len(formula: &str, start: (u32, u32), end: (u32, u32)) -> u128
    ensures { result ≡ length (moved formula.now (offset_between start end)) }
{
    let offset = offset_between(start, end);
    let mut len = 0u128;
    let mut pieces = Pieces::new(formula);
    while let Some(piece) = pieces.next() {
        len += shifted_len(piece, pieces.as_str(), offset) as u128;
    }
    len
}

/// The rows and the columns from one position to another.
pub(crate) fn offset_between(start: (u32, u32), end: (u32, u32)) -> (i64, i64)
    ensures { result ≡ offset_between start end }
{
    (
        i64::from(end.0) - i64::from(start.0),
        i64::from(end.1) - i64::from(start.1),
    )
}

/// Appends the moved text of a formula. On `Err` the buffer had no room for it, and may hold a
/// part.
fn push_moved(out: &mut String, formula: &str, offset: (i64, i64)) -> Result<(), AllocError>
    ensures ok { OnOk result
        (string_bytes out.new ≡ string_bytes out.old ++ moved formula.now offset) }
    ensures capacity { string_capacity out.old ≤ string_capacity out.new }
    ensures full { OnErr result
        (string_capacity out.old < string_len out.old + length (moved formula.now offset)) }
{
    let mut pieces = Pieces::new(formula);
    while let Some(piece) = pieces.next() {
        push_piece(out, piece, pieces.as_str(), offset)?;
    }
    Ok(())
}

/// Appends a piece, or what a reference becomes. `rest` is what stands behind it.
pub(crate) fn push_piece(
    out: &mut String,
    piece: Piece<'_>,
    rest: &str,
    offset: (i64, i64),
) -> Result<(), AllocError>
    ensures ok { OnOk result (string_bytes out.new ≡ string_bytes out.old ++ joined_pieces
        (shifted_piece offset (piece_text piece.entry) (first_byte rest.now))) }
    ensures len { OnOk result (string_len out.new ≡ string_len out.old + length (joined_pieces
        (shifted_piece offset (piece_text piece.entry) (first_byte rest.now)))) }
    ensures capacity { string_capacity out.old ≤ string_capacity out.new }
    ensures full { OnErr result (string_capacity out.old < string_len out.old + length
        (joined_pieces (shifted_piece offset (piece_text piece.entry) (first_byte rest.now)))) }
{
    match shifted_reference(piece, rest, offset) {
        ShiftedReference::NoReference => out.push_str(piece.as_str())?,
        ShiftedReference::Moved(reference) => reference.push_to(out)?,
        ShiftedReference::Leaves => out.push_str(LOST)?,
    }
    Ok(())
}

/// How many bytes `push_piece` appends.
fn shifted_len(piece: Piece<'_>, rest: &str, offset: (i64, i64)) -> usize
    ensures { result ≡ length (joined_pieces
        (shifted_piece offset (piece_text piece.entry) (first_byte rest.now))) }
{
    match shifted_reference(piece, rest, offset) {
        ShiftedReference::NoReference => piece.as_str().len(),
        ShiftedReference::Moved(reference) => reference.spelled_len(),
        ShiftedReference::Leaves => LOST.len(),
    }
}

/// The reference that a piece is, moved, where it is one that stays in the worksheet.
fn shifted_reference(piece: Piece<'_>, rest: &str, offset: (i64, i64)) -> ShiftedReference
    ensures pieces { pieces_found (piece_text piece.entry) result
        ≡ shifted_piece offset (piece_text piece.entry) (first_byte rest.now) }
    ensures inside { IsFoundInside result }
{
    let Some(reference) = piece.reference(first_byte(rest)) else {
        return ShiftedReference::NoReference;
    };
    match reference.shifted(offset) {
        Some(moved) => ShiftedReference::Moved(moved),
        None => ShiftedReference::Leaves,
    }
}
