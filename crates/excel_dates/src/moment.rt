//! What a serial stands for.
ghost use Rattle.std.specs.Prelude.{◌≡◌};
ghost use Rattle.decimals.specs.Words.{number_of};
ghost use Rattle.excel_dates.specs.Moments.{moment_at, moment_of, IsOfDay};
ghost use Rattle.excel_dates.specs.Serials.{milliseconds_of, is_below};

use crate::calendar::date_of_day;
use crate::milliseconds::milliseconds_of;
use cell_data::{Decimal, ExcelDateTime, ExcelDateTimeType};

/// The milliseconds of a day.
const DAY: u128 = 86_400_000;

/// What a serial stands for. Times are in milliseconds.
#[derive(Clone, Copy, Drop)]
pub enum Moment {
    /// The year, the month and the day of a date, and the time since its midnight.
    Dated((u16, u8, u8), u32),
    /// A time since midnight, of no date.
    TimeOfDay(u32),
    /// A time that has passed, and whether it is below 0.
    Passed(bool, u128),
    /// Nothing that has a date: only the number is left.
    Untold,
}

/// The moment of so many milliseconds since day 0.
fn moment_at(milliseconds: u128, is_1904: bool) -> Moment
    ensures value { result ≡ moment_at is_1904 milliseconds }
    ensures time { IsOfDay result }
{
    let day = milliseconds / DAY;
    let time = (milliseconds % DAY) as u32;
    let last = if is_1904 { 2_957_003 } else { 2_958_465 };
    if day > last {
        return Moment::Untold;
    }
    if !is_1904 && day == 0 {
        return Moment::TimeOfDay(time);
    }
    match date_of_day(day as u32, is_1904) {
        Some(date) => Moment::Dated(date, time),
        None => Moment::Untold,
    }
}

/// Whether days are below 0 by a millisecond or more.
fn is_below(days: &Decimal, milliseconds: u128) -> bool
    requires { milliseconds ≡ milliseconds_of (number_of days.now) }
    ensures { result ≡ is_below (number_of days.now) }
{
    days.mantissa() < 0 && milliseconds != 0
}

/// What a date or a time that has passed stands for.
pub fn moment_of(date: &ExcelDateTime) -> Moment
    ensures value { result
        ≡ moment_of (number_of date.now.value) date.now.kind date.now.is_1904 }
    ensures time { IsOfDay result }
{
    let Some(milliseconds) = milliseconds_of(&date.value) else {
        return Moment::Untold;
    };
    let is_below = is_below(&date.value, milliseconds);
    match date.kind {
        ExcelDateTimeType::TimeDelta => Moment::Passed(is_below, milliseconds),
        ExcelDateTimeType::DateTime if is_below => Moment::Untold,
        ExcelDateTimeType::DateTime => moment_at(milliseconds, date.is_1904),
    }
}
