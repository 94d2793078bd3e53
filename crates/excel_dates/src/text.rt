//! The pieces of a date's text. A refusal may leave a front of what is appended behind.
ghost use Rattle.std.specs.Prelude.{◌≡◌, ◌++◌, string_bytes, replicate, OnOk, OnErr};
ghost use Rattle.decimals.specs.Words.{number_of};
ghost use Rattle.escaped_text.specs.Escaped.{AddsBehind};
ghost use Rattle.excel_dates.specs.IsoText.{padded, date_text, fraction_text, part_text};
ghost use Rattle.excel_dates.specs.IsoText.{minutes_text, clock_text, passed_text, time_text};
ghost use Rattle.excel_dates.specs.IsoText.{moment_text};

use crate::moment::Moment;
use cell_data::Decimal;
use itoa::Buffer;
use std::alloc::AllocError;

/// Appends so many zeros.
pub fn push_zeros(out: &mut String, count: usize) -> Result<(), AllocError>
    ensures ok { OnOk result (string_bytes out.new ≡ string_bytes out.old ++ replicate count 48) }
    ensures err { OnErr result (AddsBehind (string_bytes out.old) (string_bytes out.new)) }
{
    for _ in 0..count {
        out.push_str("0")?;
    }
    Ok(())
}

/// Appends the digits of a number, with zeros in front of them up to so many.
pub fn push_padded(out: &mut String, number: u32, width: usize) -> Result<(), AllocError>
    ensures ok { OnOk result
        (string_bytes out.new ≡ string_bytes out.old ++ padded width number) }
    ensures err { OnErr result (AddsBehind (string_bytes out.old) (string_bytes out.new)) }
{
    let mut buffer = Buffer::new();
    let digits = buffer.format(number);
    push_zeros(out, width.saturating_sub(digits.len()))?;
    out.push_str(digits)
}

fn push_date(out: &mut String, date: (u16, u8, u8)) -> Result<(), AllocError>
    ensures ok { OnOk result (string_bytes out.new ≡ string_bytes out.old ++ date_text date) }
    ensures err { OnErr result (AddsBehind (string_bytes out.old) (string_bytes out.new)) }
{
    let (year, month, day) = date;
    push_padded(out, u32::from(year), 4)?;
    out.push_str("-")?;
    push_padded(out, u32::from(month), 2)?;
    out.push_str("-")?;
    push_padded(out, u32::from(day), 2)
}

fn push_fraction(out: &mut String, milliseconds: u32) -> Result<(), AllocError>
    ensures ok { OnOk result
        (string_bytes out.new ≡ string_bytes out.old ++ fraction_text milliseconds) }
    ensures err { OnErr result (AddsBehind (string_bytes out.old) (string_bytes out.new)) }
{
    if milliseconds == 0 {
        return Ok(());
    }
    out.push_str(".")?;
    push_padded(out, milliseconds, 3)
}

/// Appends a colon and two digits.
fn push_part(out: &mut String, number: u32) -> Result<(), AllocError>
    ensures ok { OnOk result (string_bytes out.new ≡ string_bytes out.old ++ part_text number) }
    ensures err { OnErr result (AddsBehind (string_bytes out.old) (string_bytes out.new)) }
{
    out.push_str(":")?;
    push_padded(out, number, 2)
}

/// Appends what stands behind the hours of a time.
fn push_minutes(out: &mut String, time: u128) -> Result<(), AllocError>
    ensures ok { OnOk result (string_bytes out.new ≡ string_bytes out.old ++ minutes_text time) }
    ensures err { OnErr result (AddsBehind (string_bytes out.old) (string_bytes out.new)) }
{
    push_part(out, (time / 60_000 % 60) as u32)?;
    push_part(out, (time / 1_000 % 60) as u32)?;
    push_fraction(out, (time % 1_000) as u32)
}

fn push_clock(out: &mut String, time: u32) -> Result<(), AllocError>
    ensures ok { OnOk result (string_bytes out.new ≡ string_bytes out.old ++ clock_text time) }
    ensures err { OnErr result (AddsBehind (string_bytes out.old) (string_bytes out.new)) }
{
    push_padded(out, time / 3_600_000, 2)?;
    push_minutes(out, u128::from(time))
}

fn push_time(out: &mut String, time: u32) -> Result<(), AllocError>
    ensures ok { OnOk result (string_bytes out.new ≡ string_bytes out.old ++ time_text time) }
    ensures err { OnErr result (AddsBehind (string_bytes out.old) (string_bytes out.new)) }
{
    if time == 0 {
        return Ok(());
    }
    out.push_str("T")?;
    push_clock(out, time)
}

fn push_passed(out: &mut String, is_below: bool, time: u128) -> Result<(), AllocError>
    ensures ok { OnOk result
        (string_bytes out.new ≡ string_bytes out.old ++ passed_text is_below time) }
    ensures err { OnErr result (AddsBehind (string_bytes out.old) (string_bytes out.new)) }
{
    if is_below {
        out.push_str("-")?;
    }
    let mut buffer = Buffer::new();
    out.push_str(buffer.format(time / 3_600_000))?;
    push_minutes(out, time)
}

/// Appends the text of a moment, and the number of days of one that has none.
pub fn push_moment(out: &mut String, days: &Decimal, moment: Moment) -> Result<(), AllocError>
    ensures ok { OnOk result (string_bytes out.new
        ≡ string_bytes out.old ++ moment_text (number_of days.now) moment) }
    ensures err { OnErr result (AddsBehind (string_bytes out.old) (string_bytes out.new)) }
{
    match moment {
        Moment::Dated(date, time) => {
            push_date(out, date)?;
            push_time(out, time)
        }
        Moment::TimeOfDay(time) => push_clock(out, time),
        Moment::Passed(is_below, time) => push_passed(out, is_below, time),
        Moment::Untold => days.push_to(out),
    }
}
