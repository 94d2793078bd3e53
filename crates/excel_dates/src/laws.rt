//! What the dates of days say.
ghost use Rattle.std.specs.Prelude.{◌≡◌, ◌+◌, ◌≤◌, ◌≤ℤ◌, ℕ, ℤ, pos, Bool, true, false};
ghost use Rattle.decimals.specs.Words.{IsAtMost};
ghost use Rattle.excel_dates.specs.Serials.{milliseconds_of};
ghost use Rattle.excel_dates.specs.CalendarDates.{date_of_day, day_of_date, first_day, last_day};
ghost use Rattle.excel_dates.specs.CalendarDates.{IsDateOf, IsNoLater};

/// The day of a date has that date, and the date of a day that day, in both calendars.
pub fn days_and_dates_agree()
    ensures date { (is_1904 : Bool) (date : ℕ × ℕ × ℕ) → IsDateOf is_1904 date
        → date_of_day is_1904 (day_of_date is_1904 date) ≡ date }
    ensures day { (is_1904 : Bool) (day : ℕ) → first_day is_1904 ≤ day → day ≤ last_day is_1904
        → day_of_date is_1904 (date_of_day is_1904 day) ≡ day }
{}

/// A day has the date from 1904 that the day has from 1900 that comes 1,462 days later.
pub fn calendars_differ_by_1462_days()
    ensures { (day : ℕ) → day ≤ last_day true
        → date_of_day false (day + 1462) ≡ date_of_day true day }
{}

/// A later day has no earlier date.
pub fn later_days_have_no_earlier_dates()
    ensures { (is_1904 : Bool) (one other : ℕ) → first_day is_1904 ≤ one → one ≤ other
        → other ≤ last_day is_1904
        → IsNoLater (date_of_day is_1904 one) (date_of_day is_1904 other) }
{}

/// A later serial from 0 on has no fewer milliseconds.
pub fn later_serials_have_no_fewer_milliseconds()
    ensures { (one other : ℤ × ℤ) → pos 0 ≤ℤ one.0 → pos 0 ≤ℤ other.0 → IsAtMost one other
        → milliseconds_of one ≤ milliseconds_of other }
{}
