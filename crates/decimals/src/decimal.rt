ghost use Rattle.std.specs.Prelude.{◌≡◌, ◌%◌, ◌==◌, ◌++◌, string_bytes, OnOk, OnErr, if◌then◌else◌};
ghost use Rattle.std.specs.Prelude.{Some, pos, SomeIff, FitsSigned};
ghost use Rattle.std.specs.Int.{w128};
ghost use Rattle.decimals.specs.Canonical.{IsTrimmed};
ghost use Rattle.decimals.specs.Decimals.{with_sign};

use crate::decimal_printing::{push_digits, push_sign};
use crate::decimal_text::{behind_sign, moved_power, read_fraction, read_power};
use crate::rounding::{digit_count, nearest};
use crate::significand::{Significand, without_zeros};
use itoa::Buffer;
use std::alloc::AllocError;

/// No text of a number is longer: a sign, the digits of 128 bits and twenty zeros.
const LONGEST_TEXT: usize = 61;

/// An exact decimal number: a whole number, times ten to a power.
///
/// The whole number has no trailing zeros, and zero has the power 0, so that equal numbers have one
/// form, and `==` compares numbers.
///
/// # Examples
///
/// The number that `-120.500e-3` writes:
///
/// ```
/// assert!(rt; number.mantissa() == -1205);
/// assert!(rt; number.exponent() == -4);
/// assert!(rt; Decimal::parse("-0.1205") == Some(number));
/// ```
#[derive(Debug, Clone, Copy, PartialEq, Eq)]
pub struct Decimal {
    mantissa: i128,
    exponent: i32,
    pub ghost zero: { mantissa ≡ pos 0 → exponent ≡ pos 0 },
    pub ghost trimmed: { IsTrimmed mantissa },
}

/// The number with its sign, where it fits.
fn signed(is_negative: bool, number: u128) -> Option<i128>
    ensures { SomeIff result (FitsSigned w128 (with_sign is_negative number))
        (with_sign is_negative number) }
{
    if is_negative {
        0i128.checked_sub_unsigned(number)
    } else {
        0i128.checked_add_unsigned(number)
    }
}

impl Decimal {
    ghost use Rattle.std.specs.Option.{option_map};
    ghost use Rattle.decimals.specs.Decimals.{fitting, decimal_from, decimal_of, printed};
    ghost use Rattle.decimals.specs.Decimal.{number_of};
    ghost use Rattle.decimals.specs.Rounding.{rounded_number};

    /// The number times ten to the power, where both fit. It has no zeros at its end.
    fn fitting(is_negative: bool, number: u128, power: i128) -> Option<Decimal>
        requires { number % 10 ≡ 0 → number ≡ 0 }
        ensures { option_map number_of result ≡ (if number == 0 then Some (pos 0, pos 0)
            else fitting (with_sign is_negative number, power)) }
    {
        if number == 0 {
            return Some(Decimal {
                mantissa: 0,
                exponent: 0,
            });
        }
        let mantissa = signed(is_negative, number)?;
        let exponent = i32::try_from(power).ok()?;
        Some(Decimal { mantissa, exponent })
    }

    /// The whole number times ten to the power.
    ///
    /// There is none where the power, without the zeros at the end of the whole number, does not
    /// fit 32 bits. Zero is there at every power. It takes no memory.
    pub fn from_parts(mantissa: i128, exponent: i64) -> Option<Decimal>
        ensures { option_map number_of result ≡ decimal_from (mantissa, exponent) }
    {
        let (number, zeros) = without_zeros(mantissa.unsigned_abs());
        let power = i128::from(exponent) + i128::from(zeros);
        Decimal::fitting(mantissa < 0, number, power)
    }

    /// The number that a text writes: a sign or none, digits with at most one point, and an
    /// exponent or none.
    ///
    /// Any other text has none, and neither has a number whose whole number, without its trailing
    /// zeros, does not fit 128 bits, or whose power then does not fit 32. The text is read once,
    /// from the left, however long it is.
    pub fn parse(text: &str) -> Option<Decimal>
        ensures { option_map number_of result ≡ decimal_of text.now }
    {
        let (is_negative, unsigned) = behind_sign(text.as_bytes());
        let (whole, behind) = Significand::NONE.read(unsigned)?;
        let (digits, behind) = read_fraction(whole, behind)?;
        if digits.count == 0 {
            return None;
        }
        let power = read_power(behind)?;
        let places = digits.count - whole.count;
        let power = moved_power(power, digits.zeros, places);
        Decimal::fitting(is_negative, digits.number, power)
    }

    /// Appends the text of the number: its digits, with zeros behind them or a point between them
    /// where the power is from -20 to 20, and with the power as an exponent elsewhere.
    ///
    /// A refusal leaves the text as it was.
    #[tactic(auto, using(crate::proofs::Printed::digits_short))]
    pub fn push_to(&self, out: &mut String) -> Result<(), AllocError>
        ensures ok { OnOk result
            (string_bytes out.new ≡ string_bytes out.old ++ printed (number_of self.now)) }
        ensures err { OnErr result (string_bytes out.new ≡ string_bytes out.old) }
        ensures back { decimal_of (printed (number_of self.now)) ≡ Some (number_of self.now) }
    {
        let power = self.exponent;
        let mut buffer = Buffer::new();
        let digits = buffer.format(self.mantissa.unsigned_abs());
        out.reserve(LONGEST_TEXT)?;
        push_sign(out, self.mantissa < 0)?;
        push_digits(out, digits, power)
    }

    /// The nearest number of so many significant digits, halves away from 0.
    ///
    /// There is none where its power no longer fits 32 bits. A number that has no more digits is
    /// itself, and of no digits there is 0 alone. No float is made, and it takes no memory.
    pub fn rounded(self, digits: u8) -> Option<Decimal>
        ensures { option_map number_of result
            ≡ decimal_from (rounded_number digits (number_of self)) }
    {
        if digits == 0 {
            return Decimal::fitting(false, 0, 0);
        }
        let number = self.mantissa.unsigned_abs();
        let behind = digit_count(number).saturating_sub(u32::from(digits));
        if behind == 0 {
            return Some(self);
        }
        let (number, zeros) = without_zeros(nearest(number, behind));
        let power = i128::from(self.exponent) + i128::from(behind) + i128::from(zeros);
        Decimal::fitting(self.mantissa < 0, number, power)
    }

    /// The whole number.
    pub fn mantissa(&self) -> i128
        ensures { result ≡ (number_of self.now).0 }
    {
        self.mantissa
    }

    /// The power of ten.
    pub fn exponent(&self) -> i32
        ensures { result ≡ (number_of self.now).1 }
    {
        self.exponent
    }
}
