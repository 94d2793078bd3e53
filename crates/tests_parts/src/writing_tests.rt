use cell_data::{Cell, CellErrorType, Data, Decimal, ExcelDateTime, ExcelDateTimeType, Range};
use std::alloc::{AllocError, Global};
use std::test::Fail;
use test_tables::{assert_text, cases, cut};
use xlsx_writer::{WrittenForm, has_zero_left, is_writable, write_package};

fn time(is_1904: bool) -> Data {
    match Decimal::parse("0.5") {
        Some(value) => Data::DateTime(ExcelDateTime {
            value,
            kind: ExcelDateTimeType::TimeDelta,
            is_1904,
        }),
        None => Data::Int(0),
    }
}

/// The value of a mark; a text for each other one.
fn value(alloc: Global, mark: &str) -> Result<Data, AllocError> {
    match mark {
        "empty" => Ok(Data::Empty),
        "int" => Ok(Data::Int(1)),
        "getting" => Ok(Data::Error(CellErrorType::GettingData)),
        "1900" => Ok(time(false)),
        "1904" => Ok(time(true)),
        _ => Ok(Data::String(String::from_str(alloc, mark)?)),
    }
}

fn formula_range(alloc: Global, text: &str) -> Result<Range<String>, AllocError> {
    let mut cells = Vec::new(alloc);
    cells.push(Cell::new((0, 0), String::from_str(alloc, text)?))?;
    Range::from_sparse(alloc, cells, String::new(alloc))
}

/// The values of two marks, in A1 and B2.
fn value_range(alloc: Global, one: &str, other: &str) -> Result<Range<Data>, AllocError> {
    let mut cells = Vec::new(alloc);
    cells.push(Cell::new((0, 0), value(alloc, one)?))?;
    cells.push(Cell::new((1, 1), value(alloc, other)?))?;
    Range::from_sparse(alloc, cells, Data::Empty)
}

/// Two values, a formula, and whether they can be written.
const WRITABLE: &str = "
text
= text
= A1
= yes

1900
= 1900
= A1
= yes

1904
= text
= A1
= yes

1900
= 1904
= A1
= no

empty
= text
= A1
= no

text
= int
= A1
= no

getting
= text
= A1
= no

text
= text
=
= no
";

#[test]
fn what_can_be_written_is_told(rt: HostRuntime) -> Result<(), Fail> {
    let alloc = rt.alloc();
    for case in cases(WRITABLE) {
        let (one, rest) = cut(case);
        let (other, rest) = cut(rest);
        let (formula, wanted) = cut(rest);
        let values = value_range(alloc, one, other)?;
        let formulas = formula_range(alloc, formula)?;
        let found = if is_writable(&values, &formulas) {
            "yes"
        } else {
            "no"
        };
        assert_text(found, wanted, case)?;
    }
    Ok(())
}

/// How many parts a package of two values and a formula has.
fn written_parts(alloc: Global, form: WrittenForm) -> Result<usize, Fail> {
    let values = value_range(alloc, "a", "b")?;
    let formulas = formula_range(alloc, "B2")?;
    if is_writable(&values, &formulas) {
        let written = write_package(alloc, form, "S", &values, &formulas)?;
        return Ok(written.part_count());
    }
    Err(Fail::new(format_args!("they can be written")))
}

/// A package text has five parts, and a workbook file that of their types, too.
#[test]
fn a_sheet_is_written(rt: HostRuntime) -> Result<(), Fail> {
    assert!(rt; written_parts(rt.alloc(), WrittenForm::PackageText)? == 5);
    assert!(rt; written_parts(rt.alloc(), WrittenForm::WorkbookFile)? == 6);
    Ok(())
}

/// A character 0 of a value is written as an escape in a workbook file, and else is left.
#[test]
fn characters_0_are_told(rt: HostRuntime) -> Result<(), Fail> {
    let alloc = rt.alloc();
    let values = value_range(alloc, "a\0", "b")?;
    let formulas = formula_range(alloc, "B2")?;
    let bad = formula_range(alloc, "B\0")?;
    assert!(rt; has_zero_left(WrittenForm::PackageText, "S", &values, &formulas));
    assert!(rt; !has_zero_left(WrittenForm::WorkbookFile, "S", &values, &formulas));
    assert!(rt; has_zero_left(WrittenForm::WorkbookFile, "S\0", &values, &formulas));
    assert!(rt; has_zero_left(WrittenForm::WorkbookFile, "S", &values, &bad));
    Ok(())
}

#[test]
fn an_area_wider_than_its_cells_is_not_written(rt: HostRuntime) -> Result<(), Fail> {
    let alloc = rt.alloc();
    let values = value_range(alloc, "a", "b")?.range((0, 0), (1, 2));
    let formulas = formula_range(alloc, "B2")?;
    assert!(rt; !is_writable(&values, &formulas));
    Ok(())
}
