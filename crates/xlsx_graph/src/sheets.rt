//! The sheets of a place.
ghost use Rattle.std.specs.Prelude.{◌≡◌, IfOk};
ghost use Rattle.book_names.specs.Book.{sheet_numbered};
ghost use Rattle.formula_tokens.specs.Told.{name_text, place_told};
ghost use Rattle.xlsx_graph.specs.Naming.{sheets_of_place, two_sheets};
ghost use Rattle.xlsx_graph.specs.Told.{sheets_told};

use crate::word::Word;
use book_names::{BookNames, NameKey};
use formula_tokens::{Name, Place};
use std::alloc::AllocError;

/// The sheets of a place: the first and the last, by their numbers from 0; or the word that is no
/// sheet; or another file.
#[derive(Clone, Copy, Debug)]
pub(crate) enum Sheets<'a> {
    FromTo(usize, usize),
    Unknown(Word<'a>),
    OtherFile(Word<'a>),
}

/// The number of the sheet of a name.
fn sheet_of(
    book: &BookNames,
    name: Name<'_>,
    key: &mut NameKey,
) -> Result<Option<usize>, AllocError>
    ensures { IfOk result (λ number. number ≡ sheet_numbered book.now (name_text name.entry)) }
{
    key.set(name)?;
    Ok(book.sheet(key))
}

/// The sheets from one to another, or from the other to the one.
fn sheets_between<'a>(
    book: &BookNames,
    first: Name<'a>,
    last: Name<'a>,
    key: &mut NameKey,
) -> Result<Sheets<'a>, AllocError>
    ensures { IfOk result (λ sheets. sheets_told sheets
        ≡ two_sheets (name_text first.entry) (name_text last.entry)
        (sheet_numbered book.now (name_text first.entry))
        (sheet_numbered book.now (name_text last.entry))) }
{
    let Some(a) = sheet_of(book, first, key)? else {
        return Ok(Sheets::Unknown(Word::Name(first)));
    };
    let Some(b) = sheet_of(book, last, key)? else {
        return Ok(Sheets::Unknown(Word::Name(last)));
    };
    Ok(Sheets::FromTo(a.min(b), a.max(b)))
}

/// The sheets of a place, where the formula's own are read on a sheet of this number.
pub(crate) fn sheets_of<'a>(
    book: &BookNames,
    sheet: usize,
    place: Place<'a>,
    key: &mut NameKey,
) -> Result<Sheets<'a>, AllocError>
    ensures { IfOk result (λ sheets. sheets_told sheets
        ≡ sheets_of_place book.now sheet (place_told place.entry)) }
{
    match place {
        Place::Here | Place::InBook => Ok(Sheets::FromTo(sheet, sheet)),
        Place::OnSheet(name) => match sheet_of(book, name, key)? {
            Some(number) => Ok(Sheets::FromTo(number, number)),
            None => Ok(Sheets::Unknown(Word::Name(name))),
        },
        Place::OnSheets(first, last) => sheets_between(book, first, last, key),
        Place::InFile { book, sheet } => Ok(Sheets::OtherFile(Word::InFile { book, sheet })),
        Place::Elsewhere(name) => Ok(Sheets::OtherFile(Word::Name(name))),
    }
}
