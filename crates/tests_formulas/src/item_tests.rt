use formula_shift::Corner;
use formula_tokens::{Item, Items, Name, Named, Place};
use std::alloc::{AllocError, Global};
use std::test::Fail;
use test_tables::{assert_text, cases, cut};

/// A formula, and its items with a blank behind each. A place is told as `here`, `on NAME`,
/// `from NAME to NAME`, `book`, `file BOOK NAME` or `elsewhere NAME`, where an apostrophe begins
/// the text of a name that stands in apostrophes. A corner is told by its row and its column from
/// 0, a row or a column that has none by `-`.
const MENTIONED: &str = r#"
SUM(A1:C2)+$D$4
= call here SUM; open; cells here 0 0 1 2; close; apart; cells here 3 3 3 3;

C2:A1
= cells here 1 2 0 0;

A:A+$2:3
= cells here - 0 - 0; apart; cells here 1 - 2 -;

S!A1+'It''s'!A1:B2
= cells on S 0 0 0 0; apart; cells on 'It''s 0 0 1 1;

S:Größe!A1
= cells from S to Größe 0 0 0 0;

'Größe:It''s'!A1:B2
= cells from 'Größe to 'It''s 0 0 1 1;

A1:Größe!A1
= cells here 0 0 0 0; colon; cells on Größe 0 0 0 0;

S!A1:S!B2
= cells on S 0 0 0 0; colon; cells on S 1 1 1 1;

A1:B2:C3
= cells here 0 0 1 1; colon; cells here 2 2 2 2;

A1 : B2
= cells here 0 0 1 1;

A1:C3 B2:D4
= cells here 0 0 2 2; apart; cells here 1 1 3 3;

A1#+@A:A
= cells here 0 0 0 0; apart; apart; apart; cells here - 0 - 0;

[1]S!A1+'[b.xlsx]S'!A1+[1]!Rate
= cells file 1 S 0 0 0 0; apart; cells elsewhere '[b.xlsx]S 0 0 0 0; apart; name file 1  Rate;

[0]!Rate+[0]S!A1
= name book Rate; apart; cells on S 0 0 0 0;

2019!A1
= cells on 2019 0 0 0 0;

!A1
= cells here 0 0 0 0;

#REF!+S!#REF!+#N/A
= lost here; apart; lost on S; apart; apart;

It's!Rate
= name here It; unread ';

Sales[a''b]+Sales[[#This Row],[Amount]]
= table here Sales a''b; apart; table here Sales [#This Row],[Amount];

[@Item]
= own @Item;

A1:LOG10(B1)
= cells here 0 0 0 0; colon; call here LOG10; open; cells here 0 1 0 1; close;

LOG10(A1)+A1.b+A0
= call here LOG10; open; cells here 0 0 0 0; close; apart; name here A1.b; apart; name here A0;

XFE1
= name here XFE1;

"A1"&'A1
= apart; apart; unread ';

SUM(A1)1.5E+3+TRUE
= call here SUM; open; cells here 0 0 0 0; close; apart; apart; apart; apart; apart;

12ab
= name here 12ab;

f[A1
= name here f; unread [;

S!+'It''s'
= alone on S; apart; unread 'It''s;

'S'!1.5
= name on 'S 1.5;
"#;

fn push_name(out: &mut String, name: Name<'_>) -> Result<(), AllocError> {
    match name {
        Name::Plain(text) => write!(out, "{text}"),
        Name::Quoted(text) => write!(out, "'{text}"),
    }
}

fn push_place(out: &mut String, place: Place<'_>) -> Result<(), AllocError> {
    match place {
        Place::Here => out.push_str("here"),
        Place::OnSheet(sheet) => {
            out.push_str("on ")?;
            push_name(out, sheet)
        }
        Place::OnSheets(first, last) => {
            out.push_str("from ")?;
            push_name(out, first)?;
            out.push_str(" to ")?;
            push_name(out, last)
        }
        Place::InBook => out.push_str("book"),
        Place::InFile { book, sheet } => {
            write!(out, "file {book} ")?;
            push_name(out, sheet)
        }
        Place::Elsewhere(name) => {
            out.push_str("elsewhere ")?;
            push_name(out, name)
        }
    }
}

fn push_corner(out: &mut String, corner: Corner) -> Result<(), AllocError> {
    match corner {
        Corner::Cell { row, col, .. } => write!(out, " {row} {col}"),
        Corner::Row { row, .. } => write!(out, " {row} -"),
        Corner::Column { col, .. } => write!(out, " - {col}"),
    }
}

fn push_named(out: &mut String, place: Place<'_>, named: Named<'_>) -> Result<(), AllocError> {
    match named {
        Named::Cells(first, last) => {
            out.push_str("cells ")?;
            push_place(out, place)?;
            push_corner(out, first)?;
            push_corner(out, last)
        }
        Named::Lost => {
            out.push_str("lost ")?;
            push_place(out, place)
        }
        Named::Name(name) => {
            out.push_str("name ")?;
            push_place(out, place)?;
            write!(out, " {name}")
        }
        Named::Table { name, inside } => {
            out.push_str("table ")?;
            push_place(out, place)?;
            write!(out, " {name} {inside}")
        }
        Named::OwnTable(inside) => write!(out, "own {inside}"),
    }
}

fn push_item(out: &mut String, item: Item<'_>) -> Result<(), AllocError> {
    match item {
        Item::Says(place, named) => push_named(out, place, named)?,
        Item::Calls(place, function) => {
            out.push_str("call ")?;
            push_place(out, place)?;
            write!(out, " {function}")?;
        }
        Item::Opens => out.push_str("open")?,
        Item::Closes => out.push_str("close")?,
        Item::Colon => out.push_str("colon")?,
        Item::Apart => out.push_str("apart")?,
        Item::Unread(name) => {
            out.push_str("unread ")?;
            push_name(out, name)?;
        }
        Item::Alone(place) => {
            out.push_str("alone ")?;
            push_place(out, place)?;
        }
    }
    out.push(';')?;
    Ok(())
}

fn items_told(alloc: Global, formula: &str) -> Result<String, AllocError> {
    let mut out = String::new(alloc);
    let mut items = Items::new(formula);
    while let Some(item) = items.next() {
        if !out.is_empty() {
            out.push(' ')?;
        }
        push_item(&mut out, item)?;
    }
    Ok(out)
}

#[test]
fn formulas_have_their_items(rt: HostRuntime) -> Result<(), Fail> {
    let alloc = rt.alloc();
    for case in cases(MENTIONED) {
        let (formula, wanted) = cut(case);
        assert_text(&items_told(alloc, formula)?, wanted, formula)?;
    }
    Ok(())
}
