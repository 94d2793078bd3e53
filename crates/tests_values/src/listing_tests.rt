ghost use Rattle.std.specs.Prelude.{All};
ghost use Rattle.cell_data.specs.Words.{IsInSheet};

use cell_data::{Cell, CellErrorType, Data, Decimal, ExcelDateTime, ExcelDateTimeType, Range};
use cell_styles::{Color, Fill, FillPattern, Style, StyleRange};
use sheet_listing::{push_listing, push_row_line, sample_lines_of, value_lines_of};
use std::alloc::{AllocError, Global};
use std::test::Fail;
use test_tables::assert_text;

fn number(text: &str) -> Data {
    match Decimal::parse(text) {
        Some(number) => Data::Decimal(number),
        None => Data::Empty,
    }
}

fn time(text: &str, kind: ExcelDateTimeType, is_1904: bool) -> Data {
    match Decimal::parse(text) {
        Some(value) => Data::DateTime(ExcelDateTime {
            value,
            kind,
            is_1904,
        }),
        None => Data::Empty,
    }
}

fn text(alloc: Global, content: &str) -> Result<Data, AllocError> {
    Ok(Data::String(String::from_str(alloc, content)?))
}

fn values(alloc: Global, cells: Vec<Cell<Data>>) -> Result<Range<Data>, AllocError>
    requires { All IsInSheet cells.items }
{
    Range::from_sparse(alloc, cells, Data::Empty)
}

fn formulas(alloc: Global, cells: Vec<Cell<String>>) -> Result<Range<String>, AllocError>
    requires { All IsInSheet cells.items }
{
    Range::from_sparse(alloc, cells, String::new(alloc))
}

fn push_unstyled(
    out: &mut String,
    values: &Range<Data>,
    formulas: &Range<String>,
) -> Result<(), AllocError> {
    let styles = StyleRange::empty(*out.allocator());
    push_listing(out, values, formulas, &styles)
}

/// The lines of one value, at C5, and no formula.
fn lines_of_value(alloc: Global, value: Data) -> Result<String, AllocError> {
    let cells = Vec::from_array(alloc, [Cell::new((4, 2), value)])?;
    let none = formulas(alloc, Vec::new(alloc))?;
    let mut out = String::new(alloc);
    push_unstyled(&mut out, &values(alloc, cells)?, &none)?;
    Ok(out)
}

/// A style with a fill of this pattern and these colors.
fn filled(pattern: FillPattern, foreground: Option<Color>, background: Option<Color>) -> Style {
    let fill = Fill {
        pattern,
        foreground_color: foreground,
        background_color: background,
    };
    Style {
        fill: Some(fill),
        ..Style::default()
    }
}

/// The lines of values of each kind, of which the last has none.
const VALUE_LINES: &str = "C5\tn:2\t-\t-
C5\tn:-10.5\t-\t-
C5\tn:-7\t-\t-
C5\ts:zero\t-\t-
C5\ts:a<A\t-\t-
C5\ts:a\\\\b\\tc\\nd\\re\t-\t-
C5\tb:true\t-\t-
C5\tb:false\t-\t-
C5\tt:45292 date 1900\t-\t-
C5\tt:0.5 duration 1904\t-\t-
C5\ti:2024-01-01\t-\t-
C5\te:#DIV/0!\t-\t-
C5\te:#N/A\t-\t-
C5\te:#NAME?\t-\t-
C5\te:#NULL!\t-\t-
C5\te:#NUM!\t-\t-
C5\te:#REF!\t-\t-
C5\te:#VALUE!\t-\t-
";

#[test]
fn each_kind_of_value_has_its_mark(rt: HostRuntime) -> Result<(), Fail> {
    let alloc = rt.alloc();
    let date = ExcelDateTimeType::DateTime;
    let duration = ExcelDateTimeType::TimeDelta;
    let iso = String::from_str(alloc, "2024-01-01")?;
    let values = [
        number("2"),
        number("-10.5"),
        Data::Int(-7),
        text(alloc, "zero")?,
        text(alloc, "a<A")?,
        text(alloc, "a\\b\tc\nd\re")?,
        Data::Bool(true),
        Data::Bool(false),
        time("45292", date, false),
        time("0.5", duration, true),
        Data::DateTimeIso(iso),
        Data::Error(CellErrorType::Div0),
        Data::Error(CellErrorType::NA),
        Data::Error(CellErrorType::Name),
        Data::Error(CellErrorType::Null),
        Data::Error(CellErrorType::Num),
        Data::Error(CellErrorType::Ref),
        Data::Error(CellErrorType::Value),
        Data::Empty,
    ];
    let mut lines = String::new(alloc);
    for value in values {
        lines.push_str(&lines_of_value(alloc, value)?)?;
    }
    assert_text(&lines, VALUE_LINES, "values")?;
    Ok(())
}

#[test]
fn formulas_stand_beside_their_values(rt: HostRuntime) -> Result<(), Fail> {
    let alloc = rt.alloc();
    let sums = Vec::from_array(
        alloc,
        [
            Cell::new((1, 2), String::from_str(alloc, "SUM(B$2:B2)")?),
            Cell::new((2, 2), String::from_str(alloc, "SUM(B$2:B3)")?),
        ],
    )?;
    let date = ExcelDateTimeType::DateTime;
    let sales = Vec::from_array(
        alloc,
        [
            Cell::new((0, 0), text(alloc, "Date")?),
            Cell::new((0, 1), text(alloc, "Amount")?),
            Cell::new((0, 2), text(alloc, " Total")?),
            Cell::new((1, 0), time("45292", date, false)),
            Cell::new((1, 1), number("10.5")),
            Cell::new((1, 2), number("10.5")),
            Cell::new((2, 0), time("45293", date, false)),
            Cell::new((2, 1), number("4")),
            Cell::new((2, 2), number("14.5")),
        ],
    )?;
    let mut out = String::new(alloc);
    let (sales, sums) = (values(alloc, sales)?, formulas(alloc, sums)?);
    push_unstyled(&mut out, &sales, &sums)?;
    let wanted = "A1\ts:Date\t-\t-\nB1\ts:Amount\t-\t-\nC1\ts: Total\t-\t-\n\
        A2\tt:45292 date 1900\t-\t-\nB2\tn:10.5\t-\t-\nC2\tn:10.5\t=SUM(B$2:B2)\t-\n\
        A3\tt:45293 date 1900\t-\t-\nB3\tn:4\t-\t-\nC3\tn:14.5\t=SUM(B$2:B3)\t-\n";
    assert_text(&out, wanted, "lines")?;
    Ok(())
}

#[test]
fn positions_of_both_lists_are_listed_row_by_row(rt: HostRuntime) -> Result<(), Fail> {
    let alloc = rt.alloc();
    let numbers = Vec::from_array(
        alloc,
        [
            Cell::new((1, 3), number("2")),
            Cell::new((4, 2), number("1")),
            Cell::new((1_048_575, 0), number("1")),
        ],
    )?;
    let texts = Vec::from_array(
        alloc,
        [
            Cell::new((0, 2), String::from_str(alloc, "A1")?),
            Cell::new((1, 2), String::from_str(alloc, "B2")?),
            Cell::new((4, 2), String::from_str(alloc, "1\t1")?),
            Cell::new((5, 16_383), String::new(alloc)),
        ],
    )?;
    let mut out = String::from_str(alloc, "lines:\n")?;
    let (numbers, texts) = (values(alloc, numbers)?, formulas(alloc, texts)?);
    push_unstyled(&mut out, &numbers, &texts)?;
    let wanted = "lines:\nC1\t-\t=A1\t-\nC2\t-\t=B2\t-\nD2\tn:2\t-\t-\n\
        C5\tn:1\t=1\\t1\t-\nA1048576\tn:1\t-\t-\n";
    assert_text(&out, wanted, "lines")?;
    Ok(())
}

/// Styles without a fill, with a fill that can't be seen, with a color behind another one, with a
/// color behind none, and with a pattern alone.
fn styles(alloc: Global) -> Result<Vec<Style>, AllocError> {
    let color = Color::new(128, 221, 217, 195);
    let behind = Color::rgb(0, 0, 1);
    Ok(Vec::from_array(
        alloc,
        [
            filled(FillPattern::Gray125, Some(behind), None),
            Style::default(),
            filled(FillPattern::None, Some(color), None),
            filled(FillPattern::Solid, Some(color), Some(behind)),
            filled(FillPattern::LightGrid, None, Some(behind)),
            filled(FillPattern::Solid, None, None),
        ],
    )?)
}

#[test]
fn fills_are_told(rt: HostRuntime) -> Result<(), Fail> {
    let alloc = rt.alloc();
    let numbers = [
        Cell::new((0, 0), number("1")),
        Cell::new((1, 1), number("2")),
        Cell::new((2, 1), number("3")),
    ];
    let texts = [
        Cell::new((1, 2), String::from_str(alloc, "A1")?),
        Cell::new((2, 2), String::from_str(alloc, "A1")?),
    ];
    let ids = [
        (2, 3, 1),
        (1, 0, 2),
        (1, 1, 3),
        (2, 0, 4),
        (3, 3, 5),
        (3, 1, 6),
    ];
    let numbers = values(alloc, Vec::from_array(alloc, numbers)?)?;
    let texts = formulas(alloc, Vec::from_array(alloc, texts)?)?;
    let ids = Vec::from_array(alloc, ids)?;
    let styles = StyleRange::from_style_ids(alloc, ids, styles(alloc)?)?;
    let mut out = String::new(alloc);
    push_listing(&mut out, &numbers, &texts, &styles)?;
    let wanted = "A1\tn:1\t-\t-\nA2\t-\t-\t-\nB2\tn:2\t-\t#DDD9C3\nC2\t-\t=A1\t#000001\n\
        A3\t-\t-\t#000001\nB3\tn:3\t-\t#000001\nC3\t-\t=A1\t#000001\nD3\t-\t-\t-\n\
        D4\t-\t-\t-\n";
    assert_text(&out, wanted, "lines")?;
    Ok(())
}

#[test]
fn values_have_lines_of_their_own(rt: HostRuntime) -> Result<(), Fail> {
    let alloc = rt.alloc();
    let cells = [
        Cell::new((4, 2), text(alloc, "tab\there")?),
        Cell::new((0, 3), number("-10.50")),
        Cell::new((0, 1), time("45292", ExcelDateTimeType::DateTime, false)),
        Cell::new((2, 2), Data::Empty),
    ];
    let cells = values(alloc, Vec::from_array(alloc, cells)?)?;
    let lines = value_lines_of(alloc, &cells)?;
    let wanted = "B1\tt:45292 date 1900\nD1\tn:-10.5\nC3\t-\nC5\ts:tab\\there\n";
    assert_text(&lines, wanted, "lines")?;
    Ok(())
}

#[test]
fn a_sample_has_five_lines(rt: HostRuntime) -> Result<(), Fail> {
    let alloc = rt.alloc();
    let numbers = [
        Cell::new((0, 0), number("1")),
        Cell::new((1, 0), number("2")),
        Cell::new((1, 1), number("4")),
    ];
    let texts = [
        Cell::new((0, 1), String::from_str(alloc, "A1*2")?),
        Cell::new((1, 1), String::from_str(alloc, "\"a\tb\"")?),
    ];
    let numbers = values(alloc, Vec::from_array(alloc, numbers)?)?;
    let texts = formulas(alloc, Vec::from_array(alloc, texts)?)?;
    let ids = Vec::from_array(alloc, [(0, 2, 1), (2, 2, 1)])?;
    let styles = StyleRange::from_style_ids(alloc, ids, styles(alloc)?)?;
    let lines = sample_lines_of(alloc, 2, &numbers, &texts, &styles)?;
    let wanted = "cells 3\nformulas 2\nstyled 2\nruns 3\nlast B2 =\"a\\tb\"\n";
    assert_text(&lines, wanted, "lines")?;
    Ok(())
}

#[test]
fn a_row_of_values_has_one_line(rt: HostRuntime) -> Result<(), Fail> {
    let alloc = rt.alloc();
    let row = [
        text(alloc, "bolt")?,
        Data::Int(-3),
        Data::Empty,
        number("2.50"),
    ];
    let mut out = String::new(alloc);
    push_row_line(&mut out, &row)?;
    push_row_line(&mut out, &row[..1])?;
    push_row_line(&mut out, &row[..0])?;
    assert_text(&out, "s:bolt\tn:-3\t-\tn:2.5\ns:bolt\n\n", "lines")?;
    Ok(())
}
