//! Sections of dates, times of day and times that have passed. A refusal may leave a front of what
//! is appended behind.
ghost use Rattle.std.specs.Prelude.{◌≡◌, ◌<◌, ◌≤◌, ◌++◌, take, min, string_bytes, OnOk, OnErr};
ghost use Rattle.std.specs.Str.{IsAscii};
ghost use Rattle.escaped_text.specs.Escaped.{AddsBehind};
ghost use Rattle.decimals.specs.Words.{number_of};
ghost use Rattle.excel_dates.specs.Words.{last_day, padded, is_below};
ghost use Rattle.format_codes.specs.Words.{has, is_half_day, is_passed, second_places};
ghost use Rattle.shown_text.specs.DateTexts.{dropped_places, is_clock, is_date_part};
ghost use Rattle.shown_text.specs.DateTexts.{told_milliseconds, shown_date, month_name, day_name};
ghost use Rattle.shown_text.specs.DateTexts.{year_text, month_text, weekday_text, date_part_text};
ghost use Rattle.shown_text.specs.DateTexts.{shown_hour, is_passed_in, is_unit, piece_shown};
ghost use Rattle.shown_text.specs.DateTexts.{pieces_at, second_digits_text, half_text, has_time};
ghost use Rattle.shown_text.specs.DateTexts.{shown_with_sign, date_shown};

use crate::digits::push_own;
use crate::general::{push_general, push_sign};
use cell_data::Decimal;
use excel_dates::{date_of_day, milliseconds_of, nearest, push_padded, push_zeros};
use format_codes::{CodePiece, HalfDay, TimeUnit};
use itoa::Buffer;
use std::alloc::AllocError;

/// The milliseconds of a day.
const DAY: u128 = 86_400_000;

/// The milliseconds of a morning.
const NOON: u128 = 43_200_000;

/// The longest time that is shown.
const LONGEST_TIME: u128 = 1 << 127;

/// What the pieces of a date are shown at.
#[derive(Clone, Copy)]
pub struct ShownTime {
    pub is_1904: bool,
    /// Since day 0.
    pub milliseconds: u128,
    /// Whether hours count to twelve.
    pub is_in_halves: bool,
    /// Whether hours are all that have passed, and so on.
    pub has_passed_hours: bool,
    pub has_passed_minutes: bool,
    pub has_passed_seconds: bool,
}

/// How many places of a second are rounded away.
fn dropped_places(pieces: &[CodePiece]) -> u32
    ensures value { result ≡ dropped_places pieces.now }
    ensures few { result ≤ 3 }
{
    if has_clock(pieces) {
        3u32.saturating_sub(second_places(pieces))
    } else {
        0
    }
}

/// Whether a piece is a part of a time of day.
fn has_clock(pieces: &[CodePiece]) -> bool
    ensures { result ≡ has is_clock pieces.now }
{
    pieces.iter().any(|piece| is_clock(*piece))
}

/// Whether a piece is an hour, minutes, seconds, a half of a day or a time that has passed.
fn is_clock(piece: CodePiece) -> bool
    ensures { result ≡ is_clock piece }
{
    piece.is_passed()
        || piece.is_half_day()
        || matches!(
            piece.unit(),
            Some(TimeUnit::Hour) | Some(TimeUnit::Minute) | Some(TimeUnit::Second)
        )
}

/// Whether a piece is a part of a date.
fn is_date_part(piece: CodePiece) -> bool
    ensures { result ≡ is_date_part piece }
{
    matches!(
        piece.unit(),
        Some(TimeUnit::Year) | Some(TimeUnit::Month) | Some(TimeUnit::Day)
    )
}

/// How many digits of a second pieces show, of three at most.
fn second_places(pieces: &[CodePiece]) -> u32
    ensures { result ≡ min 3 (second_places pieces.now) }
{
    let mut places = 0;
    for piece in pieces {
        if let CodePiece::SecondDigits(count) = piece {
            places = (places + (*count).min(3)).min(3);
        }
    }
    places as u32
}

/// The milliseconds that are shown of so many days, if they aren't too many.
fn told_milliseconds(pieces: &[CodePiece], days: &Decimal) -> Option<u128>
    ensures { result ≡ told_milliseconds pieces.now (number_of days.now) }
{
    let time = milliseconds_of(days)?;
    if time > LONGEST_TIME {
        return None;
    }
    let dropped = dropped_places(pieces);
    Some(nearest(time, dropped) * 10u128.pow(dropped))
}

/// The date of a day up to the end of 9999.
fn shown_date(is_1904: bool, day: u128) -> Option<(u16, u8, u8)>
    ensures { result ≡ shown_date is_1904 day }
{
    if day > last_day(is_1904) {
        return None;
    }
    if !is_1904 && day == 0 {
        return Some((1900, 1, 0));
    }
    date_of_day(day as u32, is_1904)
}

/// The name of a month, from 1.
fn month_name(month: u8) -> &'static str
    ensures value { result.now ≡ month_name month }
    ensures ascii { IsAscii result.now }
{
    match month {
        0 | 1 => "January",
        2 => "February",
        3 => "March",
        4 => "April",
        5 => "May",
        6 => "June",
        7 => "July",
        8 => "August",
        9 => "September",
        10 => "October",
        11 => "November",
        12 => "December",
        _ => "",
    }
}

/// The name of the day of the week.
fn day_name(is_1904: bool, day: u128) -> &'static str
    ensures value { result.now ≡ day_name is_1904 day }
    ensures ascii { IsAscii result.now }
{
    let shift = if is_1904 { 1462 } else { 0 };
    match (day % 7 + shift) % 7 {
        0 => "Saturday",
        1 => "Sunday",
        2 => "Monday",
        3 => "Tuesday",
        4 => "Wednesday",
        5 => "Thursday",
        _ => "Friday",
    }
}

/// The first characters of a name.
fn first_letters(name: &str, count: usize) -> &str
    requires { IsAscii name.now }
    ensures { result.now ≡ take count name.now }
{
    let (front, _) = name.split_at(count.min(name.len()));
    front
}

/// Appends a year in two digits or in four.
fn push_year(out: &mut String, year: u16, count: usize) -> Result<(), AllocError>
    ensures ok { OnOk result
        (string_bytes out.new ≡ string_bytes out.old ++ year_text count year) }
    ensures err { OnErr result (AddsBehind (string_bytes out.old) (string_bytes out.new)) }
{
    if count < 3 {
        return push_padded(out, u32::from(year % 100), 2);
    }
    push_padded(out, u32::from(year), 4)
}

/// Appends a month as a number, as three letters, as its name, or as a letter.
fn push_month(out: &mut String, month: u8, count: usize) -> Result<(), AllocError>
    ensures ok { OnOk result
        (string_bytes out.new ≡ string_bytes out.old ++ month_text count month) }
    ensures err { OnErr result (AddsBehind (string_bytes out.old) (string_bytes out.new)) }
{
    if count < 3 {
        return push_padded(out, u32::from(month), count);
    }
    let name = month_name(month);
    if count == 3 {
        return out.push_str(first_letters(name, 3));
    }
    if count == 5 {
        return out.push_str(first_letters(name, 1));
    }
    out.push_str(name)
}

/// Appends a day of the week as three letters or as its name.
fn push_weekday(out: &mut String, name: &str, count: usize) -> Result<(), AllocError>
    requires { IsAscii name.now }
    ensures ok { OnOk result
        (string_bytes out.new ≡ string_bytes out.old ++ weekday_text count name.now) }
    ensures err { OnErr result (AddsBehind (string_bytes out.old) (string_bytes out.new)) }
{
    out.push_str(if count == 3 {
        first_letters(name, 3)
    } else {
        name
    })
}

/// Appends a part of a date, and nothing where there is none.
fn push_date_part(
    out: &mut String,
    date: Option<(u16, u8, u8)>,
    unit: TimeUnit,
    count: usize,
) -> Result<(), AllocError>
    ensures ok { OnOk result
        (string_bytes out.new ≡ string_bytes out.old ++ date_part_text date unit count) }
    ensures err { OnErr result (AddsBehind (string_bytes out.old) (string_bytes out.new)) }
{
    let Some((year, month, day)) = date else {
        return Ok(());
    };
    match unit {
        TimeUnit::Year => push_year(out, year, count),
        TimeUnit::Month => push_month(out, month, count),
        _ => push_padded(out, u32::from(day), count),
    }
}

/// Appends a number with zeros in front of it up to so many digits.
fn push_count(out: &mut String, number: u128, width: usize) -> Result<(), AllocError>
    ensures ok { OnOk result
        (string_bytes out.new ≡ string_bytes out.old ++ padded width number) }
    ensures err { OnErr result (AddsBehind (string_bytes out.old) (string_bytes out.new)) }
{
    let mut buffer = Buffer::new();
    let digits = buffer.format(number);
    push_zeros(out, width.saturating_sub(digits.len()))?;
    out.push_str(digits)
}

/// The hour of a day, of twelve or of 24.
fn shown_hour(twelve: bool, hour: u128) -> u128
    requires { hour < 24 }
    ensures { result ≡ shown_hour twelve hour }
{
    if twelve { (hour + 11) % 12 + 1 } else { hour }
}

impl ShownTime {
    ghost use Rattle.shown_text.specs.DateTexts.{shown_time, clock_number, part_shown};

    /// What pieces are shown at.
    fn of(is_1904: bool, pieces: &[CodePiece], milliseconds: u128) -> ShownTime
        ensures { result ≡ shown_time is_1904 pieces.now milliseconds }
    {
        ShownTime {
            is_1904,
            milliseconds,
            is_in_halves: shows_half(pieces),
            has_passed_hours: has_passed(pieces, TimeUnit::Hour),
            has_passed_minutes: has_passed(pieces, TimeUnit::Minute),
            has_passed_seconds: has_passed(pieces, TimeUnit::Second),
        }
    }

    /// How many hours, minutes or seconds there are.
    fn clock_number(&self, unit: TimeUnit) -> u128
        ensures { result ≡ clock_number self.now unit }
    {
        match unit {
            TimeUnit::Hour if self.has_passed_hours => self.milliseconds / 3_600_000,
            TimeUnit::Hour => shown_hour(self.is_in_halves, self.milliseconds % DAY / 3_600_000),
            TimeUnit::Minute if self.has_passed_minutes => self.milliseconds / 60_000,
            TimeUnit::Minute => self.milliseconds / 60_000 % 60,
            _ if self.has_passed_seconds => self.milliseconds / 1_000,
            _ => self.milliseconds / 1_000 % 60,
        }
    }

    /// Appends a part of a date or of a time of day.
    fn push_part(&self, out: &mut String, unit: TimeUnit, count: usize) -> Result<(), AllocError>
        ensures ok { OnOk result
            (string_bytes out.new ≡ string_bytes out.old ++ part_shown self.now unit count) }
        ensures err { OnErr result (AddsBehind (string_bytes out.old) (string_bytes out.new)) }
    {
        let day = self.milliseconds / DAY;
        match unit {
            TimeUnit::Hour | TimeUnit::Minute | TimeUnit::Second => {
                push_count(out, self.clock_number(unit), count.min(2))
            }
            TimeUnit::Day if count > 2 => { push_weekday(out, day_name(self.is_1904, day), count) }
            _ => push_date_part(out, shown_date(self.is_1904, day), unit, count),
        }
    }

    /// Appends a piece at the time.
    fn push_piece(&self, out: &mut String, piece: CodePiece) -> Result<(), AllocError>
        ensures ok { OnOk result
            (string_bytes out.new ≡ string_bytes out.old ++ piece_shown self.now piece) }
        ensures err { OnErr result (AddsBehind (string_bytes out.old) (string_bytes out.new)) }
    {
        match piece {
            CodePiece::TimePart(unit, count) => self.push_part(out, unit, count),
            CodePiece::Passed(unit, count) => push_count(out, self.clock_number(unit), count),
            CodePiece::SecondDigits(count) => {
                push_second_digits(out, count, (self.milliseconds % 1_000) as u32)
            }
            CodePiece::HalfDay(half) => push_half(out, half, self.milliseconds % DAY < NOON),
            other => push_own(out, other),
        }
    }

    /// Appends pieces at the time.
    fn push_pieces(&self, out: &mut String, pieces: &[CodePiece]) -> Result<(), AllocError>
        ensures ok { OnOk result
            (string_bytes out.new ≡ string_bytes out.old ++ pieces_at self.now pieces.now) }
        ensures err { OnErr result (AddsBehind (string_bytes out.old) (string_bytes out.new)) }
    {
        for piece in pieces {
            self.push_piece(out, *piece)?;
        }
        Ok(())
    }
}

/// Whether a time that has passed is told in this unit.
fn has_passed(pieces: &[CodePiece], unit: TimeUnit) -> bool
    ensures { result ≡ has (is_passed_in unit) pieces.now }
{
    pieces.iter().any(|piece| is_passed_in(unit, *piece))
}

/// Whether a piece is a time that has passed, in this unit.
fn is_passed_in(unit: TimeUnit, piece: CodePiece) -> bool
    ensures { result ≡ is_passed_in unit piece }
{
    match piece {
        CodePiece::Passed(other, _) => is_unit(other, unit),
        _ => false,
    }
}

/// Whether two units are one.
fn is_unit(unit: TimeUnit, other: TimeUnit) -> bool
    ensures { result ≡ is_unit unit other }
{
    unit == other
}

/// Appends a point and so many digits of a second.
#[tactic(auto, using(decimals::proofs::Rounded::unit_some))]
fn push_second_digits(out: &mut String, count: usize, milliseconds: u32) -> Result<(), AllocError>
    ensures ok { OnOk result
        (string_bytes out.new ≡ string_bytes out.old ++ second_digits_text count milliseconds) }
    ensures err { OnErr result (AddsBehind (string_bytes out.old) (string_bytes out.new)) }
{
    let places = count.min(3);
    out.push_str(".")?;
    push_padded(out, milliseconds / 10u32.pow(3 - places as u32), places)
}

/// Appends a half of a day.
fn push_half(out: &mut String, half: HalfDay, is_morning: bool) -> Result<(), AllocError>
    ensures ok { OnOk result
        (string_bytes out.new ≡ string_bytes out.old ++ half_text half is_morning) }
    ensures err { OnErr result (AddsBehind (string_bytes out.old) (string_bytes out.new)) }
{
    match half {
        HalfDay::Words => out.push_str(if is_morning { "AM" } else { "PM" }),
        HalfDay::Letters(morning, evening) => out.push(if is_morning { morning } else { evening }),
    }
}

/// The last day that has a date: 9999-12-31.
fn last_day(is_1904: bool) -> u128
    ensures { result ≡ last_day is_1904 }
{
    if is_1904 { 2_957_003 } else { 2_958_465 }
}

/// Whether a time that has passed is shown.
fn shows_passed(pieces: &[CodePiece]) -> bool
    ensures { result ≡ has is_passed pieces.now }
{
    pieces.iter().any(|piece| piece.is_passed())
}

/// Whether a half of a day is shown.
fn shows_half(pieces: &[CodePiece]) -> bool
    ensures { result ≡ has is_half_day pieces.now }
{
    pieces.iter().any(|piece| piece.is_half_day())
}

/// Whether pieces show such a time.
fn has_time(is_1904: bool, pieces: &[CodePiece], is_below: bool, milliseconds: u128) -> bool
    ensures { result ≡ has_time is_1904 pieces.now is_below milliseconds }
{
    let passed = shows_passed(pieces);
    let dated = has_date_part(pieces);
    let ends = milliseconds / DAY <= last_day(is_1904);
    (passed && !dated) || ((is_1904 || (passed || !is_below)) && ends)
}

/// Whether a piece is a part of a date.
fn has_date_part(pieces: &[CodePiece]) -> bool
    ensures { result ≡ has is_date_part pieces.now }
{
    pieces.iter().any(|piece| is_date_part(*piece))
}

/// Whether days are below 0 by a millisecond or more.
fn is_below(days: &Decimal) -> bool
    ensures { result ≡ is_below (number_of days.now) }
{
    days.mantissa() < 0 && milliseconds_of(days) != Some(0)
}

/// Appends pieces at a time with its sign, and the days under General where they don't show it.
fn push_at(
    out: &mut String,
    is_1904: bool,
    pieces: &[CodePiece],
    is_below: bool,
    days: &Decimal,
    milliseconds: u128,
) -> Result<(), AllocError>
    ensures ok { OnOk result (string_bytes out.new ≡ string_bytes out.old
        ++ shown_with_sign is_1904 pieces.now is_below (number_of days.now) milliseconds) }
    ensures err { OnErr result (AddsBehind (string_bytes out.old) (string_bytes out.new)) }
{
    if !has_time(is_1904, pieces, is_below, milliseconds) {
        return push_general(out, days);
    }
    push_sign(out, is_below)?;
    ShownTime::of(is_1904, pieces, milliseconds).push_pieces(out, pieces)
}

/// Appends so many days in the pieces of a section of dates, and under General where they have no
/// text there.
#[tactic(auto, unfolding(crate::specs::DateTexts::date_shown))]
pub fn push_date(
    out: &mut String,
    is_1904: bool,
    pieces: &[CodePiece],
    is_unsigned: bool,
    days: &Decimal,
) -> Result<(), AllocError>
    ensures ok { OnOk result (string_bytes out.new ≡ string_bytes out.old
        ++ date_shown is_1904 pieces.now is_unsigned (number_of days.now)) }
    ensures err { OnErr result (AddsBehind (string_bytes out.old) (string_bytes out.new)) }
{
    let has_sign = is_below(days) && !is_unsigned;
    match told_milliseconds(pieces, days) {
        Some(time) => push_at(out, is_1904, pieces, has_sign, days, time),
        None => push_general(out, days),
    }
}
