use book_names::{BookNames, DefinedName, NameKey, TableArea, TableShape};
use cell_refs::Dimensions;
use formula_tokens::Name;
use std::alloc::{AllocError, Global};
use std::test::Fail;
use test_tables::{assert_text, cases, cut};

/// The strings of a text, a blank between two of them.
fn strings(alloc: Global, text: &str) -> Result<Vec<String>, AllocError> {
    let mut found = Vec::new(alloc);
    for part in text.split(' ') {
        found.push(String::from_str(alloc, part)?)?;
    }
    Ok(found)
}

fn defined(alloc: Global, name: &str, scope: Option<u32>) -> Result<DefinedName, AllocError> {
    Ok(DefinedName {
        name: String::from_str(alloc, name)?,
        scope,
        text: String::new(alloc),
    })
}

/// The table Sales in D1:F5 of the first sheet, with a row of headers and one of totals.
fn sales(alloc: Global) -> Result<TableShape, AllocError> {
    Ok(TableShape {
        name: String::from_str(alloc, "Sales")?,
        sheet: 0,
        whole: Dimensions {
            start: (0, 3),
            end: (4, 5),
        },
        headers: 1,
        totals: 1,
        columns: strings(alloc, "Item Amount a'b")?,
    })
}

fn book(alloc: Global) -> Result<BookNames, AllocError> {
    let sheets = strings(alloc, "S It's Größe 2019 s")?;
    let mut names = Vec::new(alloc);
    names.push(defined(alloc, "Rate", None)?)?;
    names.push(defined(alloc, "Rate", Some(1))?)?;
    names.push(defined(alloc, "Only", Some(2))?)?;
    names.push(defined(alloc, "rate", None)?)?;
    names.push(defined(alloc, "Lost", Some(9))?)?;
    let mut tables = Vec::new(alloc);
    tables.push(sales(alloc)?)?;
    BookNames::new(alloc, sheets, names, tables)
}

/// The name that a text has, in apostrophes where it begins with one.
fn name_of(text: &str) -> Name<'_> {
    match text.strip_prefix('\'') {
        Some(text) => Name::Quoted(text),
        None => Name::Plain(text),
    }
}

fn number_told(alloc: Global, number: Option<usize>) -> Result<String, AllocError> {
    match number {
        Some(number) => format!(in alloc; "{number}"),
        None => String::from_str(alloc, "-"),
    }
}

/// A word, and the numbers of the sheet, of the defined name on each of the first three sheets and
/// of the table that it is.
const ASKED: &str = r#"
S
= 0 - - - -

s
= 0 - - - -

'It''s
= 1 - - - -

größe
= 2 - - - -

GRÖßE
= - - - - -

2019
= 3 - - - -

RATE
= - 0 1 0 -

only
= - - - 2 -

Lost
= - - - - -

sales
= - - - - 0
"#;

fn asked(alloc: Global, book: &BookNames, key: &NameKey) -> Result<String, AllocError> {
    let mut out = number_told(alloc, book.sheet(key))?;
    for sheet in 0..3 {
        let number = if sheet < book.sheet_names().len() {
            book.name(sheet, key)
        } else {
            None
        };
        let number = number_told(alloc, number)?;
        write!(out, " {number}")?;
    }
    let table = number_told(alloc, book.table(key))?;
    write!(out, " {table}")?;
    Ok(out)
}

#[test]
fn words_are_looked_up(rt: HostRuntime) -> Result<(), Fail> {
    let alloc = rt.alloc();
    let book = book(alloc)?;
    let mut key = NameKey::new(alloc);
    for case in cases(ASKED) {
        let (word, wanted) = cut(case);
        key.set(name_of(word))?;
        assert_text(&asked(alloc, &book, &key)?, wanted, word)?;
    }
    Ok(())
}

/// What stands in brackets behind Sales, and its area in a formula of row 2 and in one of row 9, by
/// the first row, the first column, the last row and the last column, counted from 0.
const AREAS: &str = r#"
Amount
= 1 4 3 4
= 1 4 3 4


= 1 3 3 5
= 1 3 3 5

[#This Row],[amount]
= 1 4 1 4
= no rows

a''b
= 1 5 3 5
= 1 5 3 5

@Amount
= 1 4 1 4
= no rows

@
= 1 3 1 5
= no rows

[#Headers],[#Data],[Item]:[Amount]
= 0 3 3 4
= 0 3 3 4

 [ #Headers ] , [ #Data ] , [ Amount ] : [ Item ]
= 0 3 3 4
= 0 3 3 4

#All
= 0 3 4 5
= 0 3 4 5

#Headers
= 0 3 0 5
= 0 3 0 5

#Totals
= 4 3 4 5
= 4 3 4 5

[Item]:[a''b]
= 1 3 3 5
= 1 3 3 5

None
= no None
= no None

[Item],[Amount]
= not read
= not read

@[#Totals]
= not read
= not read
"#;

fn area_told(alloc: Global, area: TableArea<'_>) -> Result<String, AllocError> {
    match area {
        TableArea::Found(area) => {
            let (start, end) = (area.start, area.end);
            format!(in alloc; "{} {} {} {}", start.0, start.1, end.0, end.1)
        }
        TableArea::NoColumn(column) => format!(in alloc; "no {column}"),
        TableArea::NoRows => String::from_str(alloc, "no rows"),
        TableArea::NotRead => String::from_str(alloc, "not read"),
    }
}

/// The area of the first table that brackets name in a formula on a row.
fn area_in(
    alloc: Global,
    book: &BookNames,
    key: &mut NameKey,
    row: u32,
    inside: &str,
) -> Result<String, AllocError> {
    if book.tables().is_empty() {
        return String::from_str(alloc, "no table");
    }
    area_told(alloc, book.area(0, row, inside, key)?)
}

#[test]
fn brackets_name_areas_of_tables(rt: HostRuntime) -> Result<(), Fail> {
    let alloc = rt.alloc();
    let book = book(alloc)?;
    let mut key = NameKey::new(alloc);
    for case in cases(AREAS) {
        let (inside, rest) = cut(case);
        let (in_row_2, in_row_9) = cut(rest);
        assert_text(
            &area_in(alloc, &book, &mut key, 1, inside)?,
            in_row_2,
            inside,
        )?;
        assert_text(
            &area_in(alloc, &book, &mut key, 8, inside)?,
            in_row_9,
            inside,
        )?;
    }
    Ok(())
}
