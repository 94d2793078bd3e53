//! The pieces of a decimal's text, in the order in which they stand.
ghost use Rattle.std.specs.Prelude.{◌≡◌, ◌+◌, ◌-◌, ◌^◌, ◌≤◌, ◌≤ℤ◌, ◌+ℤ◌, ◌-ℤ◌, pos, negsuc, length};
ghost use Rattle.std.specs.Prelude.{min, if◌then◌else◌, Some, None, IfSome, IfNone};
ghost use Rattle.std.specs.Option.{option_map};
ghost use Rattle.std.specs.Str.{all_ascii_digits};
ghost use Rattle.std.specs.Str.Parse.{digits_value, starts_with_minus, without_leading_sign};
ghost use Rattle.decimals.specs.Decimals.{fraction_digits, behind_fraction, power_of};
ghost use Rattle.decimals.specs.Powers.{near};
ghost use Rattle.decimals.specs.Significand.{digits_added};

use crate::significand::Significand;

/// A power of ten that is too large for any number that can be held, however many digits it has.
const PAST_POWERS: u128 = 1 << 100;

/// Whether a minus stands first, and what stands behind a sign or none.
pub fn behind_sign(text: &[u8]) -> (bool, &[u8])
    ensures minus { result.0 ≡ starts_with_minus text.now }
    ensures rest { result.1.now ≡ without_leading_sign text.now }
{
    let Some((first, rest)) = text.split_first() else {
        return (false, text);
    };
    match first {
        b'-' => (true, rest),
        b'+' => (false, rest),
        _ => (false, text),
    }
}

/// A point and the digits behind it more, where a point stands first, and what stands behind them.
pub fn read_fraction(digits: Significand, text: &[u8]) -> Option<(Significand, &[u8])>
    requires zeros { digits.zeros ≤ digits.count }
    requires room { digits.count + length text.now ≤ usize.MAX }
    ensures some { IfSome result (λ r. (r.0 ≡ digits_added digits (fraction_digits text.now))
        × (r.1.now ≡ behind_fraction text.now)) }
    ensures none { IfNone result
        (2 ^ 128 ≤ (digits_added digits (fraction_digits text.now)).number) }
    ensures room { IfSome result (λ r. (r.0.zeros ≤ r.0.count) × (digits.count ≤ r.0.count)) }
{
    match text.split_first() {
        Some((b'.', rest)) => digits.read(rest),
        _ => Some((digits, text)),
    }
}

/// The number that digits write, up to the limit of powers.
#[tactic(auto, using(crate::proofs::PowerLemmas::power_steps))]
fn power_number(digits: &[u8]) -> Option<u128>
    ensures { result ≡ (if all_ascii_digits digits.now
        then Some (min (digits_value 10 digits.now) (2 ^ 100)) else None) }
{
    let mut number = 0;
    for byte in digits {
        if !byte.is_ascii_digit() {
            return None;
        }
        number = (number * 10 + u128::from(*byte - b'0')).min(PAST_POWERS);
    }
    Some(number)
}

/// The power that an exponent writes, or that nothing writes, up to the limit of powers.
pub fn read_power(text: &[u8]) -> Option<i128>
    ensures power { result ≡ option_map near (power_of text.now) }
    ensures limit { IfSome result
        (λ power. (negsuc (2 ^ 100 - 1) ≤ℤ power) × (power ≤ℤ pos (2 ^ 100))) }
{
    let Some((mark, rest)) = text.split_first() else {
        return Some(0);
    };
    if *mark != b'e' && *mark != b'E' {
        return None;
    }
    let (is_negative, digits) = behind_sign(rest);
    if digits.is_empty() {
        return None;
    }
    let power = power_number(digits)? as i128;
    Some(if is_negative { -power } else { power })
}

/// The power of the whole number, where the digits had this power, so many zeros at their end and
/// so many places behind the point.
pub fn moved_power(power: i128, zeros: usize, places: usize) -> i128
    requires low { negsuc (2 ^ 100 - 1) ≤ℤ power }
    requires high { power ≤ℤ pos (2 ^ 100) }
    ensures { result ≡ (power +ℤ pos zeros) -ℤ pos places }
{
    power + zeros as i128 - places as i128
}
