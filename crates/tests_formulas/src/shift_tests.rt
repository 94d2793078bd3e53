use formula_shift::{
    Corner, CutFormula, Piece, Pieces, Reference, expand_shared_formula,
    expand_shared_formula_into, expanded_len,
};
use std::alloc::Global;
use std::test::Fail;
use test_tables::{assert_text, cases, cut};

/// The position whose row and column a text has, counted from 0.
fn place_of(text: &str) -> Result<(u32, u32), Fail> {
    let (row, column) = text.split_once(' ').unwrap_or((text, ""));
    Ok((row.parse::<u32>()?, column.parse::<u32>()?))
}

/// A formula of A1, where it is moved to, and what it is there.
const MOVED: &str = r#"
A1+$B1+C$1+$D$1
= 2 3
= D3+$B3+F$1+$D$1

SUM(Sheet1!A1,'My Sheet'!$B2)
= 1 1
= SUM(Sheet1!B2,'My Sheet'!$B3)

'Q1'!A1
= 1 0
= 'Q1'!A2

T[Q1]+Q1
= 0 1
= T[Q1]+R1

SUM(A1:XFE1)
= 1 1
= SUM(A1:XFE1)

A1:A1048576
= 1 1
= #REF!

Valid: A1 Invalid: A1B1 A1$ $$A1 $A$$1 A$$1 A:1 1:A 1 A A1:1 A1:B A$A1 A1$2 $1 $A Valid: C1:D1
= 1 1
= Valid: B2 Invalid: A1B1 A1$ $$A1 $A$$1 A$$1 A:1 1:A 1 A A1:1 A1:B A$A1 A1$2 $1 $A Valid: D2:E2

A4294967297
= 1 0
= A4294967297

0E5
= 1 0
= 0E5

a01
= 0 0
= A1

A1
= 4294967295 0
= #REF!

A1
= 4294967295 4294967295
= #REF!

éA1
= 0 1
= éB1

"A1
= 0 1
= "A1

[x'[A1]+A1
= 0 1
= [x'[A1]+B1

'It''s A1'!A1
= 0 1
= 'It''s A1'!B1

LOG10(A1)
= 0 1
= LOG10(B1)

$E:F
= 0 1
= $E:G

CONCATENATE(A1, "A1", Table1[Column1])
= 1 0
= CONCATENATE(A2, "A1", Table1[Column1])

한글 A1 テスト
= 0 1
= 한글 B1 テスト

ABS(AND(Q1934;AA1_SOMETHING))
= 0 1
= ABS(AND(R1934;AA1_SOMETHING))

Z1+A3B
= 0 1
= AA1+A3B

A6+NO1.VARIABLE+\NO1
= 1 0
= A7+NO1.VARIABLE+\NO1

SUM($E:F,5:$6)
= 1 1
= SUM($E:G,6:$6)

Z9+3
= 1 0
= Z10+3

A1!B2
= 1 0
= A1!B3

NO1..VARIABLE+A1
= 0 1
= NO1..VARIABLE+B1
"#;

/// As `MOVED`, with references that leave the worksheet.
const LEAVING: &str = r##"
SUM(A1:A1048576)+B2
= 1 0
= SUM(#REF!)+B3

A1048576
= 1 0
= #REF!

XFD1+A1
= 0 1
= #REF!+B1

A1+XFD1
= 0 1
= B1+#REF!

XFD1,XFD1
= 0 1
= #REF!,#REF!

A1 A1
= 4294967295 0
= #REF! #REF!

"x"A1"y"
= 4294967295 0
= "x"#REF!"y"

A1"x A1
= 4294967295 0
= #REF!"x A1

'n'A1'm'
= 4294967295 0
= 'n'#REF!'m'

A1'n A1
= 4294967295 0
= #REF!'n A1

[g]A1[h]
= 4294967295 0
= [g]#REF![h]

A1[g A1
= 4294967295 0
= #REF![g A1

(A1)
= 4294967295 0
= (#REF!)

'S'!A1
= 4294967295 0
= 'S'!#REF!

S!A1
= 4294967295 0
= S!#REF!

S!A1!B2
= 4294967295 0
= S!A1!#REF!

A1(
= 4294967295 0
= A1(

A1!
= 4294967295 0
= A1!

A1:XFD3
= 0 1
= #REF!

$A1:B$2
= 0 16383
= #REF!

1:1+A:A
= 4294967295 0
= #REF!+A:A

XFD:XFD+1:1
= 0 1
= #REF!+1:1

A$1+$A$1+$1:$1
= 4294967295 0
= A$1+$A$1+$1:$1

Sheet1!#REF!*$A$1
= 1 0
= Sheet1!#REF!*$A$1

éXFD1é
= 0 1
= é#REF!é
"##;

/// The formulas of a table are moved by each call, and their length is known.
fn assert_moved(alloc: Global, table: &str) -> Result<(), Fail> {
    let mut out = String::new(alloc);
    let mut out_of_cut = String::from_str(alloc, "what the buffer holds")?;
    for case in cases(table) {
        let (formula, place) = cut(case);
        let (place, expanded) = cut(place);
        let end = place_of(place)?;
        let text = expand_shared_formula(alloc, formula, (0, 0), end)?;
        assert_text(&text, expanded, formula)?;
        expand_shared_formula_into(formula, (0, 0), end, &mut out)?;
        assert_text(&out, expanded, formula)?;
        CutFormula::new(alloc, formula)?.expand_into((0, 0), end, &mut out_of_cut)?;
        assert_text(&out_of_cut, expanded, formula)?;
        let length = expanded_len(formula, (0, 0), end);
        if length != expanded.len() as u128 {
            return Err(Fail::new(format_args!("{formula}: {length} bytes")));
        }
    }
    Ok(())
}

#[test]
fn references_move_and_all_else_stays(rt: HostRuntime) -> Result<(), Fail> {
    assert_moved(rt.alloc(), MOVED)
}

#[test]
fn references_that_leave_become_an_error(rt: HostRuntime) -> Result<(), Fail> {
    assert_moved(rt.alloc(), LEAVING)
}

#[test]
fn an_error_stays_however_often_it_stands(rt: HostRuntime) -> Result<(), Fail> {
    let mut formula = String::new(rt.alloc());
    for _ in 0..1_000_000 {
        formula.push_str("#REF!")?;
    }
    let text = expand_shared_formula(rt.alloc(), &formula, (0, 0), (1, 1))?;
    assert!(rt; text == formula);
    Ok(())
}

#[test]
fn formulas_move_by_the_way_from_start_to_end(rt: HostRuntime) -> Result<(), Fail> {
    let ways = [
        ("B3+$B$3", (4, 2), (5, 1), "A4+$B$3"),
        ("B3:C4", (7, 7), (5, 6), "A1:B2"),
        ("A1", (3, 0), (2, 0), "#REF!"),
        ("A1:B3", (3, 0), (2, 0), "#REF!"),
        ("Sheet1!A1*$A$1", (1, 0), (0, 0), "Sheet1!#REF!*$A$1"),
        (
            "XFD1048576+$B$2",
            (4_294_967_295, 4_294_967_295),
            (0, 0),
            "#REF!+$B$2",
        ),
    ];
    for (formula, start, end, expanded) in ways {
        let text = expand_shared_formula(rt.alloc(), formula, start, end)?;
        assert_text(&text, expanded, formula)?;
    }
    Ok(())
}

#[test]
fn corners_are_parsed(rt: HostRuntime) {
    let cell = |row, col, absolute_row, absolute_col| {
        Some(Corner::Cell {
            row,
            col,
            absolute_row,
            absolute_col,
        })
    };
    let corners = [
        ("A1", cell(0, 0, false, false)),
        ("$A1", cell(0, 0, false, true)),
        ("A$1", cell(0, 0, true, false)),
        ("$A$1", cell(0, 0, true, true)),
        ("XFD1048576", cell(1_048_575, 16_383, false, false)),
        (
            "XFD",
            Some(Corner::Column {
                col: 16_383,
                absolute: false,
            }),
        ),
        (
            "$1",
            Some(Corner::Row {
                row: 0,
                absolute: true,
            }),
        ),
        ("A1B2", None),
        ("XFE1", None),
        ("1048577", None),
        ("A99999999999999999999", None),
    ];
    for (text, corner) in corners {
        assert!(rt; Corner::parse(text) == corner, "at {text}");
    }
    assert!(rt; Reference::parse("E") == None);
}

#[test]
fn references_are_displaced_and_spelled(rt: HostRuntime) -> Result<(), Fail> {
    let words = [
        ("A1", (1, 1), Some("B2")),
        ("$A$1:$B$2", (1, 1), Some("$A$1:$B$2")),
        ("E:F", (1, 0), Some("E:F")),
        ("5:6", (1, 0), Some("6:7")),
        ("XFD:XFD", (0, 1), None),
        ("A1", (i64::MAX, i64::MIN), None),
    ];
    for (word, offset, spelled) in words {
        let moved = match Reference::parse(word) {
            Some(reference) => reference.shifted(offset),
            None => None,
        };
        let mut out = String::new(rt.alloc());
        if let Some(reference) = moved {
            reference.push_to(&mut out)?;
        }
        assert_text(&out, spelled.unwrap_or(""), word)?;
    }
    Ok(())
}

#[test]
fn a_formula_is_cut_by_the_first_byte_of_the_rest(rt: HostRuntime) -> Result<(), Fail> {
    let cut = [
        Piece::Word("SUM"),
        Piece::Other("("),
        Piece::Quoted("'It''s'"),
        Piece::Other("!"),
        Piece::Word("$A$1:B2"),
        Piece::Other(" + é, "),
        Piece::Group("[a[b]'']"),
        Piece::String("\"A1\""),
        Piece::Other(")"),
        Piece::Quoted("'open"),
    ];
    let mut pieces = Pieces::new("SUM('It''s'!$A$1:B2 + é, [a[b]'']\"A1\")'open");
    for piece in cut {
        assert!(rt; pieces.next() == Some(piece));
    }
    assert!(rt; pieces.next() == None);
    assert_text(Pieces::new("A1").as_str(), "A1", "pieces")?;
    assert_text(Piece::Group("[x]").as_str(), "[x]", "a group")?;
    assert!(rt; Pieces::new("A1+B2").count() == 3);
    Ok(())
}

#[test]
fn a_cut_formula_keeps_the_places_behind_its_pieces(rt: HostRuntime) -> Result<(), Fail> {
    let alloc = rt.alloc();
    let formulas = [
        ("A1+\"x\"", "[2, 3, 6]"),
        ("", "[]"),
        ("é", "[2]"),
        ("\"", "[1]"),
        ("[x'", "[3]"),
        ("'It''s'!A1", "[7, 8, 10]"),
    ];
    for (formula, ends) in formulas {
        let cut = CutFormula::new(alloc, formula)?;
        assert_text(cut.text(), formula, "a text")?;
        assert_text(&format!(in alloc; "{:?}", cut.ends())?, ends, formula)?;
    }
    Ok(())
}
