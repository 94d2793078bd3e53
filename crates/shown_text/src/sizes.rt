//! A number without its sign, by fifteen significant digits.
ghost use Rattle.std.specs.Prelude.{◌≡◌, ◌+◌, ◌^◌, ◌<◌, ◌≤◌, length, nat_abs, SomeIff};
ghost use Rattle.decimals.specs.Words.{number_of, digit_count, digits_behind, nearest};
ghost use Rattle.excel_dates.specs.Words.{nearest_at};
ghost use Rattle.shown_text.specs.Digits.{digits_above_0, nearest_digits};
ghost use Rattle.shown_text.specs.GeneralText.{shown_digits, first_power};

use cell_data::Decimal;
use decimals::scaled;
use excel_dates::nearest;
use itoa::Buffer;

/// How many significant digits of a number are shown.
const SHOWN_DIGITS: usize = 15;

/// The least number with more digits.
const TOO_LONG: u128 = 1_000_000_000_000_000;

/// A whole number of at most fifteen digits, or ten to the power 15, times ten to a power.
#[derive(Clone, Copy)]
pub struct Size {
    pub number: u128,
    pub power: i64,
    pub ghost few: { number ≤ 10 ^ 15 },
    pub ghost near: { nat_abs power < 2 ^ 32 },
}

/// How many decimal digits write the number. One writes 0.
#[tactic(auto, using(decimals::proofs::Rounded::few_digits, crate::proofs::SizeSteps::some_digits))]
pub fn digit_count(number: u128) -> usize
    ensures value { result ≡ digit_count number }
    ensures some { 0 < result }
    ensures few { result ≤ 39 }
{
    let mut buffer = Buffer::new();
    buffer.format(number).len()
}

/// The whole number that is nearest to a size times ten to a power, halves upward, where it fits.
pub fn nearest_at(number: u128, power: i64) -> Option<u128>
    requires { number ≤ 10 ^ 15 }
    ensures { SomeIff result (nearest_at number power < 2 ^ 128) (nearest_at number power) }
{
    let places = power.unsigned_abs();
    if power >= 0 {
        return scaled(number, places as usize);
    }
    if places < 39 {
        Some(nearest(number, places as u32))
    } else {
        Some(0)
    }
}

/// The whole number that is nearest to a size times ten to a power, halves upward, without the
/// zeros behind it, and how many these are.
pub fn nearest_whole(number: u128, power: i64) -> (u128, usize)
    requires few { number ≤ 10 ^ 15 }
    requires near { nat_abs power < 2 ^ 62 }
    ensures value { digits_above_0 result.0 result.1 ≡ nearest_digits number power }
    ensures few { result.1 < 2 ^ 62 }
    ensures small { result.0 ≤ 10 ^ 15 }
{
    let places = power.unsigned_abs();
    if power >= 0 {
        return (number, places as usize);
    }
    if places < 39 {
        (nearest(number, places as u32), 0)
    } else {
        (0, 0)
    }
}

/// How many digits the whole number has that is nearest to a size times ten to a power; 0 has none.
pub fn nearest_len(number: u128, power: i64) -> usize
    requires few { number ≤ 10 ^ 15 }
    requires near { nat_abs power < 2 ^ 62 }
    ensures { result ≡ length (nearest_digits number power) }
{
    let (whole, zeros) = nearest_whole(number, power);
    if whole == 0 {
        0
    } else {
        digit_count(whole) + zeros
    }
}

/// How many digits stand behind the first fifteen.
#[tactic(auto, using(crate::proofs::SizeSteps::none_behind))]
fn digits_behind(whole: u128) -> u32
    ensures value { result ≡ digits_behind 15 whole }
    ensures few { result ≤ 24 }
{
    // Most numbers are known to have no more without their digits being written.
    if whole < TOO_LONG {
        return 0;
    }
    digit_count(whole).saturating_sub(SHOWN_DIGITS) as u32
}

/// The nearest whole number without so many digits, halves upward.
#[tactic(auto, using(crate::proofs::SizeSteps::nearest_itself))]
fn without_digits(whole: u128, digits: u32) -> u128
    requires few { digits ≤ 24 }
    requires room { whole ≤ 2 ^ 127 }
    ensures { result ≡ nearest digits whole }
{
    if digits == 0 {
        return whole;
    }
    nearest(whole, digits)
}

impl Size {
    /// The nearest number of fifteen digits, halves away from 0, without its sign.
    pub fn of(number: &Decimal) -> Size
        ensures number { result.number ≡ nat_abs (shown_digits (number_of number.now)).0 }
        ensures power { result.power ≡ (shown_digits (number_of number.now)).1 }
    {
        let whole = number.mantissa().unsigned_abs();
        let behind = digits_behind(whole);
        Size {
            number: without_digits(whole, behind),
            power: i64::from(number.exponent()) + i64::from(behind),
        }
    }

    /// The power of ten of the first digit.
    pub fn first_power(&self) -> i64
        ensures value { result ≡ first_power self.now.number self.now.power }
        ensures near { nat_abs result < 2 ^ 33 }
    {
        let digits = digit_count(self.number);
        self.power + digits as i64 - 1
    }
}
