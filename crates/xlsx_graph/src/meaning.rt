//! What mentions mean.
ghost use Rattle.std.specs.Prelude.{◌≡◌, ◌<◌, ℕ, List, IfOk, length, map, position, option_map};
ghost use Rattle.std.specs.Prelude.{slice_get};
ghost use Rattle.formula_shift.specs.Words.{area_between};
ghost use Rattle.formula_tokens.specs.Told.{place_told, named_told};
ghost use Rattle.book_names.specs.Book.{lowered};
ghost use Rattle.book_names.specs.Told.{table_told};
ghost use Rattle.xlsx_graph.specs.Naming.{turned, turned_corner, corner_here, stands_in};
ghost use Rattle.xlsx_graph.specs.Naming.{in_numbered, name_placed, word_on, HasSheets};
ghost use Rattle.xlsx_graph.specs.Naming.{word_meaning, named_meaning, mention_meaning};
ghost use Rattle.xlsx_graph.specs.Naming.{function_meaning, cells_on, open_on};
ghost use Rattle.xlsx_graph.specs.Told.{meaning_told, sheets_told, word_text};

use crate::functions::{is_computed, is_parameter};
use crate::named::{BookArea, Cause, Standing};
use crate::reader::Reader;
use crate::sheets::{Sheets, sheets_of};
use crate::word::Word;
use book_names::{BookNames, NameKey, TableArea, TableShape};
use cell_refs::{Dimensions, MAX_COLUMNS, MAX_ROWS};
use formula_shift::{Corner, Reference};
use formula_tokens::{Name, Named, Place};
use std::alloc::AllocError;

/// What a mention means before the texts of defined names are read.
#[derive(Clone, Copy, Debug)]
pub(crate) enum Meaning<'a> {
    Nothing,
    Area(BookArea),
    Open(Cause, Word<'a>),
    /// A defined name by its number, the number of the sheet on which its text is read, both
    /// counted from 0, and the word that it is.
    Name(usize, usize, &'a str),
}

/// A place moved round the sheet's edge, where it isn't held.
fn turned(limit: u32, by: u32, is_held: bool, place: u32) -> u32
    requires { 0 < limit }
    ensures { result ≡ turned limit by is_held place }
{
    if is_held {
        return place;
    }
    let moved = (u64::from(place) + u64::from(by)) % u64::from(limit);
    moved as u32
}

/// A corner that is told from A1, in the formula of a cell.
fn turned_corner(cell: Standing, corner: Corner) -> Corner
    ensures { result ≡ turned_corner cell corner }
{
    match corner {
        Corner::Cell {
            row,
            col,
            absolute_row,
            absolute_col,
        } => Corner::Cell {
            row: turned(MAX_ROWS, cell.row, absolute_row, row),
            col: turned(MAX_COLUMNS, cell.column, absolute_col, col),
            absolute_row,
            absolute_col,
        },
        Corner::Row { row, absolute } => Corner::Row {
            row: turned(MAX_ROWS, cell.row, absolute, row),
            absolute,
        },
        Corner::Column { col, absolute } => Corner::Column {
            col: turned(MAX_COLUMNS, cell.column, absolute, col),
            absolute,
        },
    }
}

/// References of a defined name are told from A1.
fn corner_here(reader: Reader, corner: Corner) -> Corner
    ensures { result ≡ corner_here reader corner }
{
    if reader.is_name {
        turned_corner(reader.cell, corner)
    } else {
        corner
    }
}

/// The least area that has what two corners name.
#[tactic(auto, unfolding(formula_shift::specs::Areas::area_named))]
fn area_between(first: Corner, second: Corner) -> Dimensions
    ensures { result ≡ area_between first second }
{
    let reference = Reference {
        first,
        second: Some(second),
    };
    reference.area_named()
}

/// An area of sheets.
fn cells_on<'a>(sheets: Sheets<'a>, area: Dimensions) -> Meaning<'a>
    ensures { meaning_told result ≡ cells_on (sheets_told sheets.entry) area }
{
    match sheets {
        Sheets::FromTo(first, last) => Meaning::Area(BookArea {
            first,
            last,
            area,
            is_valued: true,
        }),
        Sheets::Unknown(word) => Meaning::Open(Cause::NoSheet, word),
        Sheets::OtherFile(word) => Meaning::Open(Cause::External, word),
    }
}

/// A word on sheets that names no cells there.
fn open_on<'a>(sheets: Sheets<'a>, cause: Cause, word: &'a str) -> Meaning<'a>
    ensures { meaning_told result ≡ open_on (sheets_told sheets.entry) cause word.now }
{
    match sheets {
        Sheets::FromTo(_, _) => Meaning::Open(cause, Word::Name(Name::Plain(word))),
        Sheets::Unknown(word) => Meaning::Open(Cause::NoSheet, word),
        Sheets::OtherFile(word) => Meaning::Open(Cause::External, word),
    }
}

/// The table of a number, counted from 0.
fn table_at(book: &BookNames, number: usize) -> Option<&TableShape>
    ensures { option_map (λ table. table_told table.now) result
        ≡ slice_get book.now.tables number }
{
    book.tables().get(number)
}

/// What brackets behind a table of this number mean in a formula on a row; without a table a word
/// is left open.
fn in_numbered<'a>(
    book: &'a BookNames,
    row: u32,
    otherwise: (Cause, Word<'a>),
    inside: &'a str,
    number: Option<usize>,
    key: &mut NameKey,
) -> Result<Meaning<'a>, AllocError>
    ensures { IfOk result (λ meaning. meaning_told meaning
        ≡ in_numbered book.now row otherwise.entry.0 (word_text otherwise.entry.1) inside.now
        number) }
{
    let Some(number) = number else {
        return Ok(Meaning::Open(otherwise.0, otherwise.1));
    };
    let Some(table) = table_at(book, number) else {
        return Ok(Meaning::Open(otherwise.0, otherwise.1));
    };
    let meaning = match book.area(number, row, inside, key)? {
        TableArea::Found(area) => Meaning::Area(BookArea {
            first: table.sheet,
            last: table.sheet,
            area,
            is_valued: true,
        }),
        TableArea::NoColumn(column) => {
            Meaning::Open(Cause::NoColumn, Word::Name(Name::Quoted(column)))
        }
        TableArea::NoRows => Meaning::Open(
            Cause::Gone,
            Word::Brackets {
                table: &table.name,
                inside,
            },
        ),
        TableArea::NotRead => Meaning::Open(Cause::NotRead, Word::Brackets { table: "", inside }),
    };
    Ok(meaning)
}

/// Whether a cell stands in a table.
fn stands_in(cell: Standing, table: &TableShape) -> bool
    ensures { result ≡ stands_in cell (table_told table.now) }
{
    table.sheet == cell.sheet && table.whole.contains(cell.row, cell.column)
}

/// The place of the first table around a cell.
fn place_around(tables: &[TableShape], cell: Standing) -> Option<usize>
    ensures { result ≡ position (λ table. stands_in cell (table_told table)) tables.now }
{
    tables.iter().position(|table| stands_in(cell, table))
}

/// The number of the first table around a cell.
#[tactic(auto, using(crate::proofs::Opening::position_told))]
fn table_around(tables: &[TableShape], cell: Standing) -> Option<usize>
    ensures { result ≡ position (stands_in cell) (map table_told tables.now) }
{
    place_around(tables, cell)
}

/// The number of the defined name that the key is, in a place on a sheet.
fn name_placed(book: &BookNames, place: Place<'_>, sheet: usize, key: &NameKey) -> Option<usize>
    requires { sheet < length book.now.sheets }
    ensures { (text : List ℕ) → key.now ≡ lowered text →
        result ≡ name_placed book.now (place_told place.entry) sheet text }
{
    match place {
        Place::InBook => book.book_name(key),
        _ => book.name(sheet, key),
    }
}

/// A word on sheets: a defined name of the first of them, or what else it means.
fn word_on<'a>(
    book: &BookNames,
    place: Place<'a>,
    word: &'a str,
    other: Meaning<'a>,
    sheets: Sheets<'a>,
    key: &mut NameKey,
) -> Result<Meaning<'a>, AllocError>
    requires { HasSheets book.now (sheets_told sheets) }
    ensures { IfOk result (λ meaning. meaning_told meaning
        ≡ word_on book.now (place_told place.entry) word.now (meaning_told other.entry)
        (sheets_told sheets.entry)) }
{
    let Sheets::FromTo(first, _) = sheets else {
        return Ok(open_on(sheets, Cause::NoName, word));
    };
    key.set(Name::Plain(word))?;
    match name_placed(book, place, first, key) {
        Some(number) => Ok(Meaning::Name(number, first, word)),
        None => Ok(other),
    }
}

/// A word in a place: a parameter, a defined name or a table.
fn word_meaning<'a>(
    book: &'a BookNames,
    reader: Reader,
    place: Place<'a>,
    word: &'a str,
    key: &mut NameKey,
) -> Result<Meaning<'a>, AllocError>
    requires { reader.sheet < length book.now.sheets }
    ensures { IfOk result (λ meaning. meaning_told meaning
        ≡ word_meaning book.now reader (place_told place.entry) word.now) }
{
    if is_parameter(word.as_bytes()) {
        return Ok(Meaning::Nothing);
    }
    let sheets = sheets_of(book, reader.sheet, place, key)?;
    key.set(Name::Plain(word))?;
    let number = book.table(key);
    let otherwise = (Cause::NoName, Word::Name(Name::Plain(word)));
    let other = in_numbered(book, reader.cell.row, otherwise, "", number, key)?;
    word_on(book, place, word, other, sheets, key)
}

/// What is named in a place of this workbook.
fn named_meaning<'a>(
    book: &'a BookNames,
    reader: Reader,
    place: Place<'a>,
    named: Named<'a>,
    key: &mut NameKey,
) -> Result<Meaning<'a>, AllocError>
    requires { reader.sheet < length book.now.sheets }
    ensures { IfOk result (λ meaning. meaning_told meaning
        ≡ named_meaning book.now reader (place_told place.entry) (named_told named.entry)) }
{
    let row = reader.cell.row;
    match named {
        Named::Cells(a, b) => {
            let area = area_between(corner_here(reader, a), corner_here(reader, b));
            Ok(cells_on(sheets_of(book, reader.sheet, place, key)?, area))
        }
        Named::Lost => Ok(Meaning::Open(Cause::Gone, Word::Name(Name::Plain("#REF!")))),
        Named::Name(word) => match place {
            Place::OnSheets(_, _) => {
                let sheets = sheets_of(book, reader.sheet, place, key)?;
                Ok(open_on(sheets, Cause::NoName, word))
            }
            _ => word_meaning(book, reader, place, word, key),
        },
        Named::Table { name, inside } => {
            key.set(Name::Plain(name))?;
            let number = book.table(key);
            let otherwise = (Cause::NoTable, Word::Name(Name::Plain(name)));
            in_numbered(book, row, otherwise, inside, number, key)
        }
        Named::OwnTable(inside) => {
            let number = table_around(book.tables(), reader.cell);
            let otherwise = (Cause::NoTable, Word::Brackets { table: "", inside });
            in_numbered(book, row, otherwise, inside, number, key)
        }
    }
}

/// What a mention means.
pub(crate) fn mention_meaning<'a>(
    book: &'a BookNames,
    reader: Reader,
    place: Place<'a>,
    named: Named<'a>,
    key: &mut NameKey,
) -> Result<Meaning<'a>, AllocError>
    requires { reader.sheet < length book.now.sheets }
    ensures { IfOk result (λ meaning. meaning_told meaning
        ≡ mention_meaning book.now reader (place_told place.entry) (named_told named.entry)) }
{
    match place {
        Place::InFile { book, sheet } => {
            Ok(Meaning::Open(Cause::External, Word::InFile { book, sheet }))
        }
        Place::Elsewhere(name) => Ok(Meaning::Open(Cause::External, Word::Name(name))),
        _ => named_meaning(book, reader, place, named, key),
    }
}

/// What the name of a function means: mostly nothing that names cells.
pub(crate) fn function_meaning<'a>(
    book: &BookNames,
    reader: Reader,
    place: Place<'a>,
    word: &'a str,
    key: &mut NameKey,
) -> Result<Meaning<'a>, AllocError>
    requires { reader.sheet < length book.now.sheets }
    ensures { IfOk result (λ meaning. meaning_told meaning
        ≡ function_meaning book.now reader (place_told place.entry) word.now) }
{
    let sheets = sheets_of(book, reader.sheet, place, key)?;
    if is_computed(word.as_bytes()) {
        return Ok(open_on(sheets, Cause::Computed, word));
    }
    word_on(book, place, word, Meaning::Nothing, sheets, key)
}
