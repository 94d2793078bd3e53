//! What cells hold.

use cell_data::{
    CellErrorType, Data, DataRef, ExcelDateTime, ExcelDateTimeType, HeaderRow, UnknownCellError,
};
use decimals::Decimal;
use std::alloc::{AllocError, Global};
use std::test::Fail;
use test_tables::{assert_text, cases, cut};

/// Texts, and the errors that they name.
const ERRORS: &str = "
#DIV/0!
= Div0

#N/A
= NA

#NAME?
= Name

#NULL!
= Null

#NUM!
= Num

#REF!
= Ref

#VALUE!
= Value

#value!
= no error


= no error
";

fn error_told(alloc: Global, text: &str) -> Result<String, AllocError> {
    match text.parse::<CellErrorType>() {
        Ok(error) => format!(in alloc; "{error:?}"),
        Err(_) => String::from_str(alloc, "no error"),
    }
}

#[test]
fn texts_name_errors(rt: HostRuntime) -> Result<(), Fail> {
    let alloc = rt.alloc();
    for case in cases(ERRORS) {
        let (text, wanted) = cut(case);
        let told = error_told(alloc, text)?;
        assert_text(&told, wanted, text)?;
    }
    Ok(())
}

#[test]
fn a_text_of_no_error_is_unknown(rt: HostRuntime) -> Result<(), Fail> {
    assert!(rt; "#value!".parse::<CellErrorType>() == Err(UnknownCellError));
    let shown = UnknownCellError.to_string(rt.alloc())?;
    assert_text(&shown, "unknown cell error", "#value!")?;
    Ok(())
}

fn has_equal_copy(alloc: Global, value: &Data) -> Result<bool, AllocError> {
    Ok(value.clone_in(alloc)? == *value)
}

#[test]
fn a_copy_is_the_same_value(rt: HostRuntime) -> Result<(), Fail> {
    let alloc = rt.alloc();
    let value = Data::String(String::from_str(alloc, "a b")?);
    assert!(rt; has_equal_copy(alloc, &value)?);
    let date = Data::DateTimeIso(String::from_str(alloc, "a b")?);
    assert!(rt; has_equal_copy(alloc, &date)?);
    assert!(rt; date != value);
    Ok(())
}

#[test]
fn values_of_two_kinds_differ(rt: HostRuntime) -> Result<(), Fail> {
    let days = Decimal::parse("1.5").ok_or("no decimal")?;
    let time = ExcelDateTime {
        value: days,
        kind: ExcelDateTimeType::DateTime,
        is_1904: false,
    };
    let later = ExcelDateTime {
        is_1904: true,
        ..time
    };
    assert!(rt; has_equal_copy(rt.alloc(), &Data::DateTime(time))?);
    assert!(rt; Data::Decimal(days) != Data::DateTime(time));
    assert!(rt; Data::DateTime(later) != Data::DateTime(time));
    assert!(rt; DataRef::SharedString(1) != DataRef::SharedString(2));
    assert!(rt; HeaderRow::default() == HeaderRow::FirstNonEmptyRow);
    Ok(())
}
