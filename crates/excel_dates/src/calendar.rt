//! The date of a day.
ghost use Rattle.std.specs.Prelude.{◌≡◌, ◌≤◌, ◌+ℤ◌, ◌≤ℤ◌, Some, pos};
ghost use Rattle.jiff_core.specs.Calendar.{days_from_civil};
ghost use Rattle.excel_dates.specs.CalendarDates.{date_behind, date_of_day, first_day, last_day};

use jiff_core::civil::Date;

/// The day numbers of 1900-01-01 and of 1904-01-01, where 1970-01-01 is 0.
const FIRST_OF_1900: i64 = -25_567;

const FIRST_OF_1904: i64 = -24_107;

/// The day 1900-02-29 of the calendar from 1900, which no other calendar has.
const LEAP_DAY: u32 = 60;

/// The year, the month and the day of the date that comes so many days behind the first of January
/// of a year, which has this day number.
fn date_behind(year: u16, first: i64, days: u32) -> Option<(u16, u8, u8)>
    requires first { first ≡ days_from_civil (pos year) 1 1 }
    requires low { pos 0 ≤ℤ (first +ℤ pos 25567) }
    requires high { (first +ℤ pos days) ≤ℤ pos 2932896 }
    ensures { result ≡ Some (date_behind year days) }
{
    match Date::from_unix_epoch_day(first + i64::from(days)) {
        Ok(date) => Some((date.year.unsigned_abs(), date.month, date.day)),
        Err(_) => None,
    }
}

/// The year, the month and the day of a day that has a date.
pub fn date_of_day(day: u32, is_1904: bool) -> Option<(u16, u8, u8)>
    requires first { first_day is_1904 ≤ day }
    requires last { day ≤ last_day is_1904 }
    ensures { result ≡ Some (date_of_day is_1904 day) }
{
    if is_1904 {
        return date_behind(1904, FIRST_OF_1904, day);
    }
    if day == LEAP_DAY {
        return Some((1900, 2, 29));
    }
    if day < LEAP_DAY {
        return date_behind(1900, FIRST_OF_1900, day - 1);
    }
    date_behind(1900, FIRST_OF_1900, day - 2)
}
