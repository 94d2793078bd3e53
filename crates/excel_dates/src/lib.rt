//! The dates of serials: what the number of days of a date cell stands for (ECMA-376 part 1,
//! section 18.17.4).
//!
//! Rooms: `dates` (the calls on an `ExcelDateTime`), `milliseconds` (how many a serial is),
//! `calendar` (the date of a day), `moment` (what a serial stands for), `text` (how it is printed),
//! `laws` (what the dates of days say).
//!
//! **A serial is so many milliseconds**, the nearest whole number, by its exact decimal and without
//! a float; of these the whole days give a date and the rest a time of day. The calendar is that of
//! the kit's `jiff_core`; only the day 1900-02-29, which spreadsheet programs show and no calendar
//! has, is told apart.
#![tactic(auto)]

mod calendar;
mod dates;
mod laws;
mod milliseconds;
mod moment;
mod text;

pub use calendar::date_of_day;
pub use dates::ExcelDates;
pub use laws::{
    calendars_differ_by_1462_days, days_and_dates_agree, later_days_have_no_earlier_dates,
    later_serials_have_no_fewer_milliseconds,
};
pub use milliseconds::{milliseconds_of, nearest};
pub use text::{push_padded, push_zeros};
