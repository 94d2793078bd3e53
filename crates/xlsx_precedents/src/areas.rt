//! The areas that a formula names.
ghost use Rattle.std.specs.Prelude.{◌≡◌, ◌++◌, true, map, IfOk, OnOk};
ghost use Rattle.std.specs.List.{list_all};
ghost use Rattle.cell_refs.specs.Words.{is_sheet_area};
ghost use Rattle.formula_shift.specs.Words.{last_byte, is_elsewhere, area_named, piece_text};
ghost use Rattle.xlsx_precedents.specs.Kept.{own_reference};
ghost use Rattle.xlsx_precedents.specs.Precedents.{areas};

use cell_refs::Dimensions;
use formula_shift::{Piece, Pieces};
use std::alloc::{AllocError, Global};

/// The areas that a formula names on its own sheet, in order, each by its first and its last cell,
/// rows and columns counted from 0. A reference directly behind `!` is another sheet's, and a name
/// is none.
pub fn areas_of(alloc: Global, formula: &str) -> Result<Vec<Dimensions>, AllocError>
    ensures value { IfOk result (λ named. named.items ≡ areas formula.now) }
    ensures on_sheet { IfOk result (λ named. list_all is_sheet_area named.items ≡ true) }
{
    let mut named = Vec::new(alloc);
    push_areas(&mut named, formula)?;
    Ok(named)
}

/// Appends the areas that a formula names. On `Err` some of them may be there.
pub(crate) fn push_areas(out: &mut Vec<Dimensions>, formula: &str) -> Result<(), AllocError>
    ensures ok { OnOk result (out.new.items ≡ out.old.items ++ areas formula.now) }
    ensures on_sheet { OnOk result (list_all is_sheet_area out.old.items ≡ true →
        list_all is_sheet_area out.new.items ≡ true) }
{
    let mut before = None;
    let mut pieces = Pieces::new(formula);
    while let Some(piece) = pieces.next() {
        let text = piece.as_str();
        push_own(out, before, piece, pieces.first_byte())?;
        before = last_byte(before, text);
    }
    Ok(())
}

/// Appends the area that a piece names, if it is a reference of its own sheet, where these bytes
/// are before it and behind it.
fn push_own(
    out: &mut Vec<Dimensions>,
    before: Option<u8>,
    piece: Piece<'_>,
    behind: Option<u8>,
) -> Result<(), AllocError>
    ensures ok { OnOk result (out.new.items ≡ out.old.items ++ map area_named
        (own_reference before (piece_text piece.entry) behind)) }
    ensures on_sheet { OnOk result (list_all is_sheet_area out.old.items ≡ true →
        list_all is_sheet_area out.new.items ≡ true) }
{
    if is_elsewhere(before) {
        return Ok(());
    }
    if let Some(reference) = piece.reference(behind) {
        out.push(reference.area_named())?;
    }
    Ok(())
}

/// Whether what stands behind this byte is another sheet's.
fn is_elsewhere(before: Option<u8>) -> bool
    ensures { result ≡ is_elsewhere before }
{
    before == Some(b'!')
}

/// The last byte of a text, or the byte before it where it is empty.
fn last_byte(before: Option<u8>, text: &str) -> Option<u8>
    ensures { result ≡ last_byte before text.now }
{
    match text.as_bytes().last() {
        Some(&b) => Some(b),
        None => before,
    }
}
