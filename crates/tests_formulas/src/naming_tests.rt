use book_names::{BookNames, DefinedName, TableShape};
use cell_refs::{Dimensions, MAX_COLUMNS, MAX_ROWS, get_row_column, push_reference};
use formula_shift::expand_shared_formula;
use std::alloc::{AllocError, Global};
use std::test::Fail;
use test_tables::{assert_text, cases, cut};
use xlsx_graph::{BookArea, Cause, Findings, NamingError, OpenWord, Standing, push_named};

/// Defined names, each with the number of the sheet that alone sees it, if there is one, and its
/// text.
const NAMES: &str = r#"
Rate
= -
= S!$B$1

Rate
= 1
= 'It''s'!$B$2

Left
= -
= S!XFD1

Up
= -
= !A1048576

Both
= -
= Rate+S!$C$1:$C$3

Loop
= -
= Pool+S!$A$1

Pool
= -
= Loop

Gone
= -
= S!#REF!

Twice
= -
= _xlfn.LAMBDA(_xlpm.x,_xlpm.x*Rate)

Only
= 2
= S!$A$9

Maß
= -
= S!$A$8

Amounts
= -
= Sales[Amount]

Off
= -
= OFFSET(S!$A$1,0,1)
"#;

/// The strings of a text, a blank between two of them.
fn strings(alloc: Global, text: &str) -> Result<Vec<String>, AllocError> {
    let mut found = Vec::new(alloc);
    for part in text.split(' ') {
        found.push(String::from_str(alloc, part)?)?;
    }
    Ok(found)
}

fn defined(
    alloc: Global,
    name: &str,
    scope: Option<u32>,
    text: &str,
) -> Result<DefinedName, AllocError> {
    Ok(DefinedName {
        name: String::from_str(alloc, name)?,
        scope,
        text: String::from_str(alloc, text)?,
    })
}

fn defined_names(alloc: Global, table: &str) -> Result<Vec<DefinedName>, AllocError> {
    let mut names = Vec::new(alloc);
    for case in cases(table) {
        let (name, rest) = cut(case);
        let (scope, text) = cut(rest);
        names.push(defined(alloc, name, scope.parse::<u32>().ok(), text)?)?;
    }
    Ok(names)
}

/// The table Sales in D1:F5 of the first sheet, with a row of headers and one of totals.
fn sales(alloc: Global) -> Result<TableShape, AllocError> {
    Ok(TableShape {
        name: String::from_str(alloc, "Sales")?,
        sheet: 0,
        whole: Dimensions {
            start: (0, 3),
            end: (4, 5),
        },
        headers: 1,
        totals: 1,
        columns: strings(alloc, "Item Amount a'b")?,
    })
}

fn book(alloc: Global) -> Result<BookNames, AllocError> {
    let sheets = strings(alloc, "S It's Größe 2019")?;
    let mut tables = Vec::new(alloc);
    tables.push(sales(alloc)?)?;
    BookNames::new(alloc, sheets, defined_names(alloc, NAMES)?, tables)
}

/// A cell of the first sheet and its formula, and what this names: areas with the names of their
/// sheets in apostrophes, behind `~` where the place alone is asked for, and behind `?` the words
/// that are left open, each behind its cause.
const NAMED: &str = r#"
B2 SUM(A1:C2)+$D$4
= 'S'!A1:C2  'S'!D4:D4

B2 C2:A1
= 'S'!A1:C2

B2 A:A+$2:3
= 'S'!A1:A1048576  'S'!A2:XFD3

B2 S!A1+'It''s'!A1:B2
= 'S'!A1:A1  'It''s'!A1:B2

B2 'größe'!A1+Größe!A1
= 'Größe'!A1:A1  'Größe'!A1:A1

B2 s!a1
= 'S'!A1:A1

B2 Nope!A1+A1
= 'S'!A1:A1  ?sheet Nope

B2 S:Größe!A1
= 'S':'Größe'!A1:A1

B2 'Größe:It''s'!A1:B2
= 'It''s':'Größe'!A1:B2

B2 S:Nope!A1
= ?sheet Nope

B2 A1:Größe!A1
= 'S'!A1:A1  'Größe'!A1:A1  ?range :

B2 S!A1:S!B2
= 'S'!A1:B2

B2 A1:'It''s'!B2
= 'S'!A1:A1  'It''s'!B2:B2  ?range :

B2 A1:B2:C3
= 'S'!A1:C3

B2 A1 : B2
= 'S'!A1:B2

B2 A1:C3 B2:D4
= 'S'!A1:C3  'S'!B2:D4

B2 (A1,C1:C3)
= 'S'!A1:A1  'S'!C1:C3

B2 A1#+@A:A
= 'S'!A1:A1  'S'!A1:A1048576

B2 _xlfn.ANCHORARRAY(A1)+_xlfn.SINGLE(A:A)
= 'S'!A1:A1  'S'!A1:A1048576

B2 [1]S!A1+'[b.xlsx]S'!A1+[1]!Rate
= ?external [1]S  ?external [b.xlsx]S  ?external [1]

B2 [0]!Rate+[0]S!A1
= 'S'!B1:B1  'S'!A1:A1

B2 2019!A1
= '2019'!A1:A1

B2 !A1
= 'S'!A1:A1

B2 #REF!+S!#REF!+#N/A
= ?gone #REF!  ?gone #REF!

B2 Rate+RATE
= 'S'!B1:B1  'S'!B1:B1

B2 It's!Rate
= ?name It  ?text '

B2 'It''s'!Rate
= 'It''s'!B2:B2

B2 Größe!Rate
= 'S'!B1:B1

B2 Only
= ?name Only

B2 Größe!Only
= 'S'!A9:A9

B2 Left+Up
= 'S'!A2:A2  'S'!B1:B1

A1 Left+Up
= 'S'!XFD1:XFD1  'S'!A1048576:A1048576

B2 'It''s'!Up
= 'It''s'!B1:B1

B2 Both
= 'S'!B1:B1  'S'!C1:C3

B2 Loop
= 'S'!A1:A1  ?endless Loop

B2 Gone
= ?gone #REF!

B2 Twice(A1)
= 'S'!B1:B1  'S'!A1:A1

B2 Maß+MAß
= 'S'!A8:A8  'S'!A8:A8

B2 GRÖßE!A1
= ?sheet GRÖßE

B2 Amounts
= 'S'!E2:E4

B2 Off
= 'S'!A1:A1  ?computed OFFSET

B2 Sales[Amount]
= 'S'!E2:E4

B2 Sales
= 'S'!D2:F4

B2 sales[[#This Row],[amount]]
= 'S'!E2:E2

B9 Sales[[#This Row],[Amount]]
= ?gone Sales[[#This Row],[Amount]]

B2 Sales[@Amount]+Sales[@]
= 'S'!E2:E2  'S'!D2:F2

B2 Sales[#All]+Sales[#Headers]+Sales[#Totals]
= 'S'!D1:F5  'S'!D1:F1  'S'!D5:F5

B2 Sales[[#Headers],[#Data],[Item]:[Amount]]
= 'S'!D1:E4

B2 Sales[a''b]
= 'S'!F2:F4

B2 Sales[[Item]:[a''b]]
= 'S'!D2:F4

B2 Sales[None]+None[Item]
= ?column None  ?table None

B2 Sales['#n]
= ?column #n

B2 Sales[[Item],[Amount]]
= ?text [[Item],[Amount]]

E2 [Amount]+[@Item]
= 'S'!E2:E4  'S'!D2:D2

B2 [Amount]
= ?table [Amount]

B2 INDIRECT("A1")+OFFSET(A1,1,0)
= 'S'!A1:A1  ?computed INDIRECT  ?computed OFFSET

B2 A1:INDEX(C:C,3)
= 'S'!A1:A1  'S'!C1:C1048576  ?range :

B2 A1:LOG10(B1)
= 'S'!A1:A1  'S'!B1:B1  ?range :

B2 ROW(B2)+ROWS(B$1:B2)
= ~'S'!B2:B2  ~'S'!B1:B2

B2 SUM(ROW(B2):C3)
= ~'S'!B2:B2  'S'!C3:C3  ?range :

B2 ROW(B2:C3,A1)
= 'S'!B2:C3  'S'!A1:A1

B2 _xlfn.LET(_xlpm.x,A1,_xlpm.x+1)
= 'S'!A1:A1

B2 LOG10(A1)+A1.b+A1b+XFE1+A0
= 'S'!A1:A1  ?name A1.b  ?name A1b  ?name XFE1  ?name A0

B2 "A1"&'A1
= ?text '

B2 SUM(A1)1.5E+3+TRUE+12ab
= 'S'!A1:A1  ?name 12ab

B2 {1,2;3,4}+1:1
= 'S'!A1:XFD1

B2 f[A1
= ?name f  ?text [
"#;

fn push_cell(out: &mut String, cell: (u32, u32)) -> Result<(), AllocError> {
    if cell.0 < MAX_ROWS && cell.1 < MAX_COLUMNS {
        push_reference(out, cell.0, cell.1)
    } else {
        out.push_str("no cell")
    }
}

fn push_sheet(out: &mut String, book: &BookNames, sheet: usize) -> Result<(), AllocError> {
    out.push('\'')?;
    if let Some(name) = book.sheet_names().get(sheet) {
        for c in name.as_str().chars() {
            if c == '\'' {
                out.push(c)?;
            }
            out.push(c)?;
        }
    }
    out.push('\'')?;
    Ok(())
}

fn push_area(out: &mut String, book: &BookNames, area: &BookArea) -> Result<(), AllocError> {
    out.push_str(if area.is_valued { "" } else { "~" })?;
    push_sheet(out, book, area.first)?;
    if area.first != area.last {
        out.push(':')?;
        push_sheet(out, book, area.last)?;
    }
    out.push('!')?;
    push_cell(out, area.area.start)?;
    out.push(':')?;
    push_cell(out, area.area.end)
}

fn cause_told(cause: Cause) -> &'static str {
    match cause {
        Cause::Computed => "computed",
        Cause::External => "external",
        Cause::Gone => "gone",
        Cause::NoSheet => "sheet",
        Cause::NoName => "name",
        Cause::NoTable => "table",
        Cause::NoColumn => "column",
        Cause::Endless => "endless",
        Cause::NoRange => "range",
        Cause::NotRead => "text",
    }
}

fn push_word(out: &mut String, word: &OpenWord) -> Result<(), AllocError> {
    let cause = cause_told(word.cause);
    let text = word.text.as_str();
    write!(out, "?{cause} {text}")
}

/// What was found, two blanks between two fields.
fn told(alloc: Global, book: &BookNames, found: &Findings) -> Result<String, AllocError> {
    let mut out = String::new(alloc);
    for area in found.areas() {
        if !out.is_empty() {
            out.push_str("  ")?;
        }
        push_area(&mut out, book, area)?;
    }
    for word in found.words() {
        if !out.is_empty() {
            out.push_str("  ")?;
        }
        push_word(&mut out, word)?;
    }
    Ok(out)
}

fn refusal_told(refusal: NamingError) -> &'static str {
    match refusal {
        NamingError::TooLarge => "too large",
        NamingError::OutOfMemory => "out of memory",
    }
}

/// What a formula of a cell of the first sheet names, where there is room for so much.
fn named_told(
    alloc: Global,
    book: &BookNames,
    cell: &str,
    formula: &str,
    room: (u64, u64),
) -> Result<String, AllocError> {
    let Ok((row, column)) = get_row_column(cell) else {
        return String::from_str(alloc, "no cell");
    };
    if book.sheet_names().is_empty() {
        return String::from_str(alloc, "no sheet");
    }
    let mut found = Findings::new(alloc, book, room.0, room.1)?;
    let standing = Standing {
        sheet: 0,
        row,
        column,
    };
    match push_named(&mut found, book, standing, formula) {
        Ok(()) => told(alloc, book, &found),
        Err(refusal) => String::from_str(alloc, refusal_told(refusal)),
    }
}

#[test]
fn formulas_name_areas_and_open_words(rt: HostRuntime) -> Result<(), Fail> {
    let alloc = rt.alloc();
    let book = book(alloc)?;
    for case in cases(NAMED) {
        let (asked, wanted) = cut(case);
        let (cell, formula) = asked.split_once(' ').unwrap_or((asked, ""));
        let found = named_told(alloc, &book, cell, formula, (99, 999))?;
        assert_text(&found, wanted, asked)?;
    }
    Ok(())
}

/// The cell of the first sheet to which a formula of B2 is moved, the formula, and what it names
/// there.
const MOVED: &str = r#"
C3 SUM(A1:C2)+$D$4
= 'S'!B2:D3  'S'!D4:D4

B3 C2:A1
= 'S'!A2:C3

C3 A:A+$2:3
= 'S'!B1:B1048576  'S'!A2:XFD4

B4 S!A1+'It''s'!A1:B2
= 'S'!A3:A3  'It''s'!A3:B4

C3 Größe!A1+$A1+A$1+$A$1:B2
= 'Größe'!B2:B2  'S'!A2:A2  'S'!B1:B1  'S'!A1:C3

B1 A1+B2
= 'S'!B1:B1  ?gone #REF!

A2 S!A1:B2+$A1
= 'S'!A1:A1  ?gone #REF!

C2 'It''s'!XFD1+A:XFD
= ?gone #REF!  ?gone #REF!

B3 ROW(B2)+ROWS(B2:B$5)+LOG10(A1)
= ~'S'!B3:B3  ~'S'!B3:B5  'S'!A2:A2

C3 IF(ISNA(A1),#N/A,'S'!B2:C3)
= 'S'!B2:B2  'S'!C3:D4

B3 "A1"&A1#+#REF!
= 'S'!A2:A2  ?gone #REF!

B3 [1]S!A1+Nope!A1+A1
= 'S'!A2:A2  ?external [1]S  ?sheet Nope

B3 INDIRECT(A1)+Nope+A1
= 'S'!A2:A2  'S'!A2:A2  ?computed INDIRECT  ?name Nope

E3 Sales[Amount]+[@Item]+A1
= 'S'!E2:E4  'S'!D3:D3  'S'!D2:D2
"#;

#[test]
fn moved_formulas_name_shifted_areas(rt: HostRuntime) -> Result<(), Fail> {
    let alloc = rt.alloc();
    let book = book(alloc)?;
    for case in cases(MOVED) {
        let (asked, wanted) = cut(case);
        let (cell, formula) = asked.split_once(' ').unwrap_or((asked, ""));
        let end = get_row_column(cell).unwrap_or((1, 1));
        let moved = expand_shared_formula(alloc, formula, (1, 1), end)?;
        let found = named_told(alloc, &book, cell, moved.as_str(), (99, 999))?;
        assert_text(&found, wanted, asked)?;
    }
    Ok(())
}

/// Room for areas and open words and for names' texts, each by its bytes and 64 more, then the
/// formula of B2, and what it names.
const WITHIN: &str = r#"
2 0 A1+B1
= 'S'!A1:A1  'S'!B1:B1

1 0 A1+B1
= too large

3 0 S:Größe!A1
= 'S':'Größe'!A1:A1

2 0 S:Größe!A1
= too large

1 0 S!A1:S!B2:S!C3
= 'S'!A1:C3

3 0 A1:INDEX(C:C,3)
= 'S'!A1:A1  'S'!C1:C1048576  ?range :

2 0 A1:INDEX(C:C,3)
= too large

1 0 Nope
= ?name Nope

0 0 Nope
= too large

1 70 Rate
= 'S'!B1:B1

1 69 Rate
= too large

2 150 Both
= 'S'!B1:B1  'S'!C1:C3

2 149 Both
= too large

2 143 Loop
= 'S'!A1:A1  ?endless Loop

2 142 Loop
= too large
"#;

#[test]
fn room_is_kept(rt: HostRuntime) -> Result<(), Fail> {
    let alloc = rt.alloc();
    let book = book(alloc)?;
    for case in cases(WITHIN) {
        let (asked, wanted) = cut(case);
        let (named, rest) = asked.split_once(' ').unwrap_or((asked, ""));
        let (read, formula) = rest.split_once(' ').unwrap_or((rest, ""));
        let room = (
            named.parse::<u64>().unwrap_or(0),
            read.parse::<u64>().unwrap_or(0),
        );
        let found = named_told(alloc, &book, "B2", formula, room)?;
        assert_text(&found, wanted, asked)?;
    }
    Ok(())
}

/// A workbook of one sheet with names that double 50 times over, and the text of the last.
fn doubling(alloc: Global, last: &str) -> Result<BookNames, AllocError> {
    let mut names = Vec::new(alloc);
    for n in 0..50u32 {
        let name = format!(in alloc; "n_{n}")?;
        let next = n + 1;
        let text = format!(in alloc; "n_{next}+n_{next}")?;
        names.push(defined(alloc, &name, None, &text)?)?;
    }
    names.push(defined(alloc, "n_50", None, last)?)?;
    BookNames::new(alloc, strings(alloc, "S")?, names, Vec::new(alloc))
}

#[test]
fn names_that_double_end_soon(rt: HostRuntime) -> Result<(), Fail> {
    let alloc = rt.alloc();
    for last in ["S!$A$1", "1"] {
        let book = doubling(alloc, last)?;
        let found = named_told(alloc, &book, "B2", "n_0", (9, 9_999))?;
        assert_text(&found, "too large", last)?;
        let found = named_told(alloc, &book, "B2", "n_48", (4, 9_999))?;
        let areas = "'S'!A1:A1  'S'!A1:A1  'S'!A1:A1  'S'!A1:A1";
        assert_text(&found, if last == "1" { "" } else { areas }, last)?;
    }
    Ok(())
}
