//! Rows of ranges as CSV.
ghost use Rattle.std.specs.Prelude.{◌<◌};
ghost use Rattle.cell_refs.specs.declared.TheConstants.{MAX_ROWS, MAX_COLUMNS};

use cell_data::{Cell, CellErrorType, Data, Decimal, ExcelDateTime, ExcelDateTimeType, Range};
use cell_refs::{MAX_COLUMNS, MAX_ROWS};
use csv::{ReaderBuilder, StringRecord};
use csv_rows::{CsvError, CsvOptions, Delimiter, Digits, push_field, rows_csv};
use std::alloc::{AllocError, Global};
use std::process::Abort;
use std::test::Fail;
use test_tables::assert_text;

fn number(text: &str) -> Data {
    match Decimal::parse(text) {
        Some(number) => Data::Decimal(number),
        None => Data::Empty,
    }
}

fn days(text: &str, kind: ExcelDateTimeType, is_1904: bool) -> Data {
    match Decimal::parse(text) {
        Some(value) => Data::DateTime(ExcelDateTime {
            value,
            kind,
            is_1904,
        }),
        None => Data::Empty,
    }
}

/// The fields of values of each kind, each with a mark behind it.
const FIELDS: &str = "10.5|1E30|-7|=A1, \t|true|false|45292|0.5|2024-01-01|#DIV/0!|#DATA!||";

#[test]
fn each_kind_of_value_has_its_field(rt: HostRuntime) -> Result<(), Fail> {
    let alloc = rt.alloc();
    let date = ExcelDateTimeType::DateTime;
    let duration = ExcelDateTimeType::TimeDelta;
    let iso = String::from_str(alloc, "2024-01-01")?;
    let values = [
        number("10.5"),
        number("1e30"),
        Data::Int(-7),
        Data::String(String::from_str(alloc, "=A1, \t")?),
        Data::Bool(true),
        Data::Bool(false),
        days("45292", date, false),
        days("0.5", duration, true),
        Data::DateTimeIso(iso),
        Data::Error(CellErrorType::Div0),
        Data::Error(CellErrorType::GettingData),
        Data::Empty,
    ];
    let mut fields = String::new(alloc);
    for value in values {
        push_field(&mut fields, &value, &CsvOptions::PLAIN)?;
        fields.push_str("|")?;
    }
    assert_text(&fields, FIELDS, "values")?;
    Ok(())
}

fn text(alloc: Global, content: &str) -> Result<Data, AllocError> {
    Ok(Data::String(String::from_str(alloc, content)?))
}

/// A text in A1 and another at a place, which may be the same.
fn two_texts(
    alloc: Global,
    first: &str,
    second: &str,
    place: (u16, u8),
) -> Result<Range<Data>, AllocError> {
    let place = (place.0 as u32, place.1 as u32);
    let cells = [
        Cell::new((0, 0), text(alloc, first)?),
        Cell::new(place, text(alloc, second)?),
    ];
    Range::from_sparse(alloc, Vec::from_array(alloc, cells)?, Data::Empty)
}

#[test]
fn rows_have_a_field_for_each_column(rt: HostRuntime) -> Result<(), Fail> {
    let alloc = rt.alloc();
    for (first, second, place, wanted) in [
        ("a,b", "say \"x\"", (0, 1), "\"a,b\",\"say \"\"x\"\"\"\n"),
        ("a\rb", "a\nb", (0, 1), "\"a\rb\",\"a\nb\"\n"),
        ("", "", (0, 1), ",\n"),
        ("x", "", (0, 0), "\"\"\n"),
        ("a", "b", (2, 0), "a\n\"\"\nb\n"),
        ("x", "y", (1, 2), "x,,\n,,y\n"),
        (" a ", "007", (1, 0), " a \n007\n"),
        ("=A1", "", (1, 0), "=A1\n\"\"\n"),
    ] {
        let range = two_texts(alloc, first, second, place)?;
        let rows = rows_csv(alloc, None, &range, &CsvOptions::PLAIN)?;
        assert_text(std::str::from_utf8(&rows)?, wanted, "rows")?;
    }
    Ok(())
}

/// A reader gives these records of two fields back, and no further one.
fn assert_read(rt: &impl Abort, alloc: Global, text: &[u8], wanted: &[(&str, &str)]) {
    let mut reader = ReaderBuilder::new()
        .has_headers(false)
        .from_reader(alloc, text);
    let mut row = StringRecord::new(alloc);
    for (first, second) in wanted {
        assert!(rt; reader.read_record(&mut row).unwrap_or(false));
        assert!(rt; row.len() == 2);
        assert!(rt; row.get(0) == Some(*first));
        assert!(rt; row.get(1) == Some(*second));
    }
    assert!(rt; !reader.read_record(&mut row).unwrap_or(true));
}

#[test]
fn a_reader_gives_the_rows_back(rt: HostRuntime) -> Result<(), Fail> {
    let alloc = rt.alloc();
    let cells = [
        Cell::new((0, 0), text(alloc, "a,b")?),
        Cell::new((0, 1), text(alloc, "say \"x\"")?),
        Cell::new((1, 1), number("1")),
    ];
    let range = Range::from_sparse(alloc, Vec::from_array(alloc, cells)?, Data::Empty)?;
    let rows = rows_csv(alloc, None, &range, &CsvOptions::PLAIN)?;
    let wanted = "\"a,b\",\"say \"\"x\"\"\"\n,1\n";
    assert_text(std::str::from_utf8(&rows)?, wanted, "rows")?;
    assert_read(&rt, alloc, &rows, &[("a,b", "say \"x\""), ("", "1")]);
    Ok(())
}

#[test]
fn a_header_stands_before_the_rows(rt: HostRuntime) -> Result<(), Fail> {
    let alloc = rt.alloc();
    let header = [
        String::from_str(alloc, "Name")?,
        String::from_str(alloc, "Qty")?,
    ];
    let cells = [
        Cell::new((1, 0), text(alloc, "nut")?),
        Cell::new((1, 1), number("3")),
    ];
    let used = Range::from_sparse(alloc, Vec::from_array(alloc, cells)?, Data::Empty)?;
    let table = used.range((1, 0), (2, 1));
    let rows = rows_csv(alloc, Some(&header), &table, &CsvOptions::PLAIN)?;
    assert_text(std::str::from_utf8(&rows)?, "Name,Qty\nnut,3\n,\n", "rows")?;
    assert_read(
        &rt,
        alloc,
        &rows,
        &[("Name", "Qty"), ("nut", "3"), ("", "")],
    );
    Ok(())
}

#[test]
fn a_header_stands_alone_where_no_row_is(rt: HostRuntime) -> Result<(), Fail> {
    let alloc = rt.alloc();
    let header = [
        String::from_str(alloc, "Name")?,
        String::from_str(alloc, "Qty")?,
    ];
    let none = Range::from_sparse(alloc, Vec::new(alloc), Data::Empty)?;
    let names = rows_csv(alloc, Some(&header), &none, &CsvOptions::PLAIN)?;
    assert_text(std::str::from_utf8(&names)?, "Name,Qty\n", "rows")?;
    assert!(rt; rows_csv(alloc, Some(&[]), &none, &CsvOptions::PLAIN)?.is_empty());
    assert!(rt; rows_csv(alloc, None, &none, &CsvOptions::PLAIN)?.is_empty());
    Ok(())
}

#[test]
fn a_blank_fills_places_without_a_cell(rt: HostRuntime) -> Result<(), Fail> {
    let alloc = rt.alloc();
    let cells = [
        Cell::new((4, 2), number("1")),
        Cell::new((5, 3), Data::Empty),
    ];
    let range = Range::from_sparse(alloc, Vec::from_array(alloc, cells)?, Data::Bool(false))?;
    let rows = rows_csv(alloc, None, &range, &CsvOptions::PLAIN)?;
    assert_text(std::str::from_utf8(&rows)?, "1,false\nfalse,\n", "rows")?;
    Ok(())
}

/// Numbers of one digit in A1 and at a place.
fn two_numbers(alloc: Global, place: (u32, u32)) -> Result<Range<Data>, AllocError>
    requires row { place.0 < MAX_ROWS }
    requires column { place.1 < MAX_COLUMNS }
{
    let cells = [
        Cell::new((0, 0), number("1")),
        Cell::new(place, number("2")),
    ];
    Range::from_sparse(alloc, Vec::from_array(alloc, cells)?, Data::Empty)
}

fn length_of_rows(alloc: Global, place: (u32, u32)) -> Result<usize, CsvError>
    requires row { place.0 < MAX_ROWS }
    requires column { place.1 < MAX_COLUMNS }
{
    let range = two_numbers(alloc, place)?;
    Ok(rows_csv(alloc, None, &range, &CsvOptions::PLAIN)?.len())
}

#[test]
fn all_columns_of_1024_rows_are_written(rt: HostRuntime) -> Result<(), Fail> {
    let place = (1_023, MAX_COLUMNS - 1);
    assert!(rt; length_of_rows(rt.alloc(), place) == Ok(16_777_218));
    Ok(())
}

#[test]
fn all_rows_of_16_columns_are_written(rt: HostRuntime) -> Result<(), Fail> {
    let place = (MAX_ROWS - 1, 15);
    assert!(rt; length_of_rows(rt.alloc(), place) == Ok(16_777_218));
    Ok(())
}

#[test]
fn a_box_of_more_than_the_most_cells_is_too_large(rt: HostRuntime) -> Result<(), Fail> {
    let alloc = rt.alloc();
    let last = (MAX_ROWS - 1, MAX_COLUMNS - 1);
    assert!(rt; length_of_rows(alloc, (1_024, last.1)) == Err(CsvError::BoxTooLarge));
    assert!(rt; length_of_rows(alloc, (last.0, 16)) == Err(CsvError::BoxTooLarge));
    assert!(rt; length_of_rows(alloc, last) == Err(CsvError::BoxTooLarge));
    let none: Range<Data> = Range::from_sparse(alloc, Vec::new(alloc), Data::Empty)?;
    let table = none.range((0, 0), (1_024, last.1));
    assert!(rt; rows_csv(alloc, None, &table, &CsvOptions::PLAIN) == Err(CsvError::BoxTooLarge));
    Ok(())
}

#[test]
fn refusals_of_rows_have_texts(rt: HostRuntime) -> Result<(), Fail> {
    let alloc = rt.alloc();
    let mut told = String::new(alloc);
    for error in [CsvError::BoxTooLarge, CsvError::OutOfMemory] {
        write!(told, "{error};")?;
    }
    assert_text(&told, "box too large;out of memory;", "refusals")?;
    Ok(())
}

/// Two texts in a row, with a semicolon between them and CR LF behind them.
#[test]
fn rows_of_another_form_are_read_back(rt: HostRuntime) -> Result<(), Fail> {
    let alloc = rt.alloc();
    let options = CsvOptions {
        delimiter: Delimiter::new(b';'),
        crlf: true,
        ..CsvOptions::PLAIN
    };
    let range = two_texts(alloc, "a;b", "c,d", (0, 1))?;
    let rows = rows_csv(alloc, None, &range, &options)?;
    assert_text(std::str::from_utf8(&rows)?, "\"a;b\";c,d\r\n", "a row")?;
    let mut reader = ReaderBuilder::new()
        .has_headers(false)
        .delimiter(b';')
        .from_reader(alloc, rows.as_slice());
    let mut record = StringRecord::new(alloc);
    assert!(rt; reader.read_record(&mut record)?);
    assert!(rt; record.get(0) == Some("a;b") && record.get(1) == Some("c,d"));
    Ok(())
}

/// A date with a time of day, and a number of more digits than are asked for.
#[test]
fn dates_and_digits_are_shown(rt: HostRuntime) -> Result<(), Fail> {
    let alloc = rt.alloc();
    let options = CsvOptions {
        dates: true,
        digits: Digits::new(3),
        bom: true,
        ..CsvOptions::PLAIN
    };
    let cells = [
        Cell::new((0, 0), days("45292.5", ExcelDateTimeType::DateTime, false)),
        Cell::new((0, 1), number("1234.5")),
        Cell::new((0, 2), Data::Int(-98765)),
    ];
    let range = Range::from_sparse(alloc, Vec::from_array(alloc, cells)?, Data::Empty)?;
    let rows = rows_csv(alloc, None, &range, &options)?;
    assert_text(
        std::str::from_utf8(&rows)?,
        "\u{FEFF}2024-01-01T12:00:00,1230,-98800\n",
        "a row",
    )
}

/// Which bytes are delimiters, and how many digits there are.
#[test]
fn no_other_delimiters_and_digits_are_made(rt: HostRuntime) -> Result<(), Fail> {
    for byte in [b'"', b'\r', b'\n', 128, 255] {
        assert!(rt; Delimiter::new(byte).is_none());
    }
    for byte in [0, b'\t', b',', 127] {
        assert!(rt; matches!(Delimiter::new(byte), Some(own) if own.byte() == byte));
    }
    assert!(rt; Delimiter::TAB.byte() == b'\t');
    for count in [0, 39, 255] {
        assert!(rt; Digits::new(count).is_none());
    }
    for count in [1, 38] {
        assert!(rt; matches!(Digits::new(count), Some(own) if own.count() == count));
    }
    Ok(())
}
