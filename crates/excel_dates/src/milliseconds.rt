//! How many milliseconds a serial is.
ghost use Rattle.std.specs.Prelude.{◌≡◌, ◌+◌, ◌-◌, ◌*◌, ◌/◌, ◌^◌, ◌<◌, ◌≤◌, SomeIff};
ghost use Rattle.decimals.specs.Words.{number_of, nearest};
ghost use Rattle.excel_dates.specs.Serials.{day_length, milliseconds_of};

use cell_data::Decimal;
use decimals::scaled;

/// The milliseconds of a day.
const DAY: u128 = 86_400_000;

/// How many places of a number are left out where it has more, which no rounding needs.
const SPARE_PLACES: u32 = 20;

/// The whole number that is nearest to this one over ten to the power, halves upward.
pub fn nearest(number: u128, places: u32) -> u128
    requires places { places < 39 }
    requires room { number ≤ 2 ^ 127 }
    ensures { result ≡ nearest places number }
{
    let unit = 10u128.pow(places);
    (number + unit / 2) / unit
}

/// The milliseconds of a number of days times ten to the power, where they fit.
fn of_whole_days(days: u128, power: u32) -> Option<u128>
    ensures { SomeIff result (days * day_length * 10 ^ power < 2 ^ 128)
        (days * day_length * 10 ^ power) }
{
    scaled(days.checked_mul(DAY)?, power as usize)
}

/// The milliseconds of a number of days with so few places behind its point, where they fit.
fn of_few_places(days: u128, places: u32) -> Option<u128>
    requires { places ≤ 20 }
    ensures { SomeIff result (nearest places (days * day_length) < 2 ^ 128)
        (nearest places (days * day_length)) }
{
    let unit = 10u128.pow(places);
    let whole = (days / unit).checked_mul(DAY)?;
    whole.checked_add(nearest(days % unit * DAY, places))
}

/// The milliseconds of a number of days with more places behind its point. Those past the first
/// `SPARE_PLACES` from the end decide it, since half of a millisecond is a whole number of these.
fn of_many_places(days: u128, places: u32) -> u128
    requires { 20 < places }
    ensures { result ≡ nearest places (days * day_length) }
{
    let spare = 10u128.pow(SPARE_PLACES);
    let number = days / spare * DAY + days % spare * DAY / spare;
    let left = places - SPARE_PLACES;
    if left < 39 { nearest(number, left) } else { 0 }
}

/// The milliseconds of so many days by their size, where they fit 128 bits. It takes no memory, and
/// a few steps whatever the number is.
pub fn milliseconds_of(days: &Decimal) -> Option<u128>
    ensures { SomeIff result (milliseconds_of (number_of days.now) < 2 ^ 128)
        (milliseconds_of (number_of days.now)) }
{
    let size = days.mantissa().unsigned_abs();
    let power = days.exponent();
    let places = power.unsigned_abs();
    if power >= 0 {
        return of_whole_days(size, places);
    }
    if places <= SPARE_PLACES {
        return of_few_places(size, places);
    }
    Some(of_many_places(size, places))
}
