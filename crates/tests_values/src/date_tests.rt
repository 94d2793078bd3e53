//! Dates of serials.

use cell_data::{Decimal, ExcelDateTime, ExcelDateTimeType};
use excel_dates::ExcelDates;
use std::alloc::{AllocError, Global};
use std::test::Fail;
use test_tables::{assert_text, cases, cut};

/// Serials, the calendar from 1900 or from 1904, and the parts and the text of their dates.
const DATES: &str = "
45292.5
1900
= 2024 1 1 12 0 0 0
= 2024-01-01T12:00:00

0
1904
= 1904 1 1 0 0 0 0
= 1904-01-01

60.25
1900
= 1900 2 29 6 0 0 0
= 1900-02-29T06:00:00

0.5
1900
= none
= 12:00:00

2958465.999999999
1900
= none
= 2958465.999999999

-1
1904
= none
= -1
";

fn serial(text: &str, kind: ExcelDateTimeType, is_1904: bool) -> Option<ExcelDateTime> {
    let value = Decimal::parse(text)?;
    Some(ExcelDateTime {
        value,
        kind,
        is_1904,
    })
}

/// The parts of a date with blanks between them, and its text.
fn told(alloc: Global, date: &ExcelDateTime) -> Result<(String, String), AllocError> {
    let parts = match date.to_ymd_hms_milli() {
        Some((year, month, day, hour, minute, second, milli)) => {
            format!(in alloc; "{year} {month} {day} {hour} {minute} {second} {milli}")?
        }
        None => String::from_str(alloc, "none")?,
    };
    let mut text = String::new(alloc);
    date.push_iso(&mut text)?;
    Ok((parts, text))
}

#[test]
fn dates_have_their_parts(rt: HostRuntime) -> Result<(), Fail> {
    let alloc = rt.alloc();
    for case in cases(DATES) {
        let (asked, rest) = cut(case);
        let (wanted_parts, wanted_text) = cut(rest);
        let (text, calendar) = asked.split_once('\n').ok_or("no calendar")?;
        let date = serial(text, ExcelDateTimeType::DateTime, calendar == "1904");
        let date = date.ok_or("no number")?;
        let (parts, told_text) = told(alloc, &date)?;
        assert_text(&parts, wanted_parts, text)?;
        assert_text(&told_text, wanted_text, text)?;
    }
    Ok(())
}

#[test]
fn durations_are_no_dates(rt: HostRuntime) -> Result<(), Fail> {
    let date = serial("1.5", ExcelDateTimeType::TimeDelta, false).ok_or("no number")?;
    assert!(rt; date.is_duration() && !date.is_datetime());
    let (parts, text) = told(rt.alloc(), &date)?;
    assert_text(&parts, "none", "a duration")?;
    assert_text(&text, "36:00:00", "a duration")
}
