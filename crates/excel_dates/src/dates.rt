//! The calls on a date.
ghost use Rattle.std.specs.Prelude.{◌≡◌, ◌++◌, string_bytes, OnOk, OnErr, IsTrue, ◌↔◌};
ghost use Rattle.decimals.specs.Words.{number_of};
ghost use Rattle.cell_data.specs.declared.value.ExcelDateTimeType.TheVariants.{DateTime, TimeDelta};
ghost use Rattle.excel_dates.specs.IsoText.{iso_text};
ghost use Rattle.excel_dates.specs.Moments.{moment_of, has_moment, moment_parts};

use crate::moment::{Moment, moment_of};
use crate::text::push_moment;
use cell_data::{ExcelDateTime, ExcelDateTimeType};
use escaped_text::or_cut_back;
use std::alloc::AllocError;

/// What is asked of the number of days of a date cell.
///
/// # Examples
///
/// The parts of a date and its text: of the serial 45292.5 from 1900 on `2024 1 1 12 0 0 0` and
/// `2024-01-01T12:00:00`:
///
/// ```
/// let parts = match date.to_ymd_hms_milli() {
///     Some((year, month, day, hour, minute, second, milli)) => {
///         format!(in alloc; "{year} {month} {day} {hour} {minute} {second} {milli}")?
///     }
///     None => String::from_str(alloc, "none")?,
/// };
/// let mut text = String::new(alloc);
/// date.push_iso(&mut text)?;
/// ```
pub trait ExcelDates {
    /// Whether the days are counted from the first day of a calendar.
    fn is_datetime(&self) -> bool;

    /// Whether the days have passed.
    fn is_duration(&self) -> bool;

    /// Whether the days stand for a date, a time of day or a time that has passed.
    fn has_moment(&self) -> bool;

    /// The year, month, day, hour, minute, second and millisecond.
    fn to_ymd_hms_milli(&self) -> Option<(u16, u8, u8, u8, u8, u8, u16)>;

    /// Appends the text of the date.
    fn push_iso(&self, out: &mut String) -> Result<(), AllocError>;
}

/// The calls on a date, by calamine's names.
impl ExcelDates for ExcelDateTime {
    /// Whether the days are counted from the first day of a calendar.
    fn is_datetime(&self) -> bool
        ensures { IsTrue result ↔ (self.now.kind ≡ DateTime) }
    {
        self.kind == ExcelDateTimeType::DateTime
    }

    /// Whether the days have passed.
    fn is_duration(&self) -> bool
        ensures { IsTrue result ↔ (self.now.kind ≡ TimeDelta) }
    {
        self.kind == ExcelDateTimeType::TimeDelta
    }

    /// Whether the days stand for a date, a time of day or a time that has passed. Nothing is told
    /// of days below 0 that haven't passed, past the year 9999, or too many for 128 bits of
    /// milliseconds.
    fn has_moment(&self) -> bool
        ensures { result ≡ has_moment
            (moment_of (number_of self.now.value) self.now.kind self.now.is_1904) }
    {
        !matches!(moment_of(self), Moment::Untold)
    }

    /// The year, month, day, hour, minute, second and millisecond of a date.
    ///
    /// There are none of days that have passed, below 0, past the year 9999, and of day 0 of the
    /// calendar from 1900, which is a time of day alone. It takes no memory.
    fn to_ymd_hms_milli(&self) -> Option<(u16, u8, u8, u8, u8, u8, u16)>
        ensures { result ≡ moment_parts
            (moment_of (number_of self.now.value) self.now.kind self.now.is_1904) }
    {
        let Moment::Dated((year, month, day), time) = moment_of(self) else {
            return None;
        };
        Some((
            year,
            month,
            day,
            (time / 3_600_000) as u8,
            (time / 60_000 % 60) as u8,
            (time / 1_000 % 60) as u8,
            (time % 1_000) as u16,
        ))
    }

    /// Appends the date as `2024-01-01`, with a time of day behind it as `T13:30:00` and `.250`
    /// where there is one; a time of day alone as `13:30:00`; days that have passed as `36:30:00`;
    /// and of what has no date the number.
    ///
    /// A refusal leaves the text as it was.
    #[tactic(auto, using(crate::proofs::WholeText::whole_text))]
    fn push_iso(&self, out: &mut String) -> Result<(), AllocError>
        ensures ok { OnOk result (string_bytes out.new ≡ string_bytes out.old
            ++ iso_text (number_of self.now.value) self.now.kind self.now.is_1904) }
        ensures err { OnErr result (string_bytes out.new ≡ string_bytes out.old) }
    {
        let len = out.len();
        let appended = push_moment(out, &self.value, moment_of(self));
        or_cut_back(out, len, appended)
    }
}
