//! Numbers under General. A refusal may leave a front of what is appended behind.
ghost use Rattle.std.specs.Prelude.{◌≡◌, ◌++◌, ◌≤◌, ◌<◌, ◌^◌, string_bytes, OnOk, OnErr, IfSome};
ghost use Rattle.std.specs.Prelude.{length, nat_abs};
ghost use Rattle.std.specs.Fmt.{sign_text};
ghost use Rattle.std.specs.Str.{IsAscii};
ghost use Rattle.escaped_text.specs.Escaped.{AddsBehind};
ghost use Rattle.decimals.specs.Words.{number_of, without_trailing_zeros};
ghost use Rattle.excel_dates.specs.Words.{padded};
ghost use Rattle.shown_text.specs.GeneralText.{behind_point, exponent_text, scientific, with_power};
ghost use Rattle.shown_text.specs.GeneralText.{with_places, general_places, has_nine_places};
ghost use Rattle.shown_text.specs.GeneralText.{first_power, general_size, general_text};

use crate::given_digits::without_trailing_zeros;
use crate::sizes::{Size, digit_count, nearest_at};
use cell_data::Decimal;
use excel_dates::{nearest, push_padded, push_zeros};
use itoa::Buffer;
use std::alloc::AllocError;

/// How many significant digits a size has that is scientific.
const SCIENTIFIC_DIGITS: usize = 6;

/// Appends `-` where the number is below 0, and nothing elsewhere.
pub fn push_sign(out: &mut String, is_negative: bool) -> Result<(), AllocError>
    ensures ok { OnOk result
        (string_bytes out.new ≡ string_bytes out.old ++ sign_text is_negative) }
    ensures err { OnErr result (AddsBehind (string_bytes out.old) (string_bytes out.new)) }
{
    if is_negative {
        out.push_str("-")?;
    }
    Ok(())
}

/// Appends digits behind a point, and nothing where there are none.
fn push_behind_point(out: &mut String, digits: &str) -> Result<(), AllocError>
    ensures ok { OnOk result
        (string_bytes out.new ≡ string_bytes out.old ++ behind_point digits.now) }
    ensures err { OnErr result (AddsBehind (string_bytes out.old) (string_bytes out.new)) }
{
    if digits.is_empty() {
        return Ok(());
    }
    out.push_str(".")?;
    out.push_str(digits)
}

fn push_exponent(out: &mut String, power: i64) -> Result<(), AllocError>
    ensures ok { OnOk result
        (string_bytes out.new ≡ string_bytes out.old ++ exponent_text power) }
    ensures err { OnErr result (AddsBehind (string_bytes out.old) (string_bytes out.new)) }
{
    out.push_str(if power < 0 { "E-" } else { "E+" })?;
    let mut buffer = Buffer::new();
    let digits = buffer.format(power.unsigned_abs());
    push_zeros(out, 2usize.saturating_sub(digits.len()))?;
    out.push_str(digits)
}

/// Appends digits with a point behind the first, and the power of ten of the first.
fn push_with_power(out: &mut String, digits: &str, power: i64) -> Result<(), AllocError>
    requires ascii { IsAscii digits.now }
    requires some { 0 < length digits.now }
    requires few { length digits.now ≤ 39 }
    requires near { nat_abs power < 2 ^ 33 }
    ensures ok { OnOk result
        (string_bytes out.new ≡ string_bytes out.old ++ with_power digits.now power) }
    ensures err { OnErr result (AddsBehind (string_bytes out.old) (string_bytes out.new)) }
{
    let (first, others) = digits.split_at(1);
    out.push_str(first)?;
    push_behind_point(out, without_trailing_zeros(others))?;
    push_exponent(out, power + others.len() as i64)
}

/// Appends a size of six digits at most, as `1.23457E+11`.
#[tactic(auto, using(crate::proofs::SizeSteps::some_digits))]
fn push_scientific(out: &mut String, size: Size) -> Result<(), AllocError>
    ensures ok { OnOk result (string_bytes out.new
        ≡ string_bytes out.old ++ scientific size.number size.power) }
    ensures err { OnErr result (AddsBehind (string_bytes out.old) (string_bytes out.new)) }
{
    let behind = digit_count(size.number).saturating_sub(SCIENTIFIC_DIGITS);
    let mut buffer = Buffer::new();
    let digits = buffer.format(nearest(size.number, behind as u32));
    push_with_power(out, digits, size.power + behind as i64)
}

/// Appends a point and so many places, without the zeros at their end.
fn push_places(out: &mut String, rest: u128, places: usize) -> Result<(), AllocError>
    ensures ok { OnOk result (string_bytes out.new
        ≡ string_bytes out.old ++ behind_point (without_trailing_zeros (padded places rest))) }
    ensures err { OnErr result (AddsBehind (string_bytes out.old) (string_bytes out.new)) }
{
    if rest == 0 {
        return Ok(());
    }
    let mut buffer = Buffer::new();
    let digits = buffer.format(rest);
    out.push_str(".")?;
    push_zeros(out, places.saturating_sub(digits.len()))?;
    out.push_str(without_trailing_zeros(digits))
}

/// Appends a whole number over ten to so many places.
#[tactic(auto, using(decimals::proofs::Rounded::unit_some))]
fn push_with_places(out: &mut String, number: u128, places: u32) -> Result<(), AllocError>
    requires { places ≤ 9 }
    ensures ok { OnOk result
        (string_bytes out.new ≡ string_bytes out.old ++ with_places places number) }
    ensures err { OnErr result (AddsBehind (string_bytes out.old) (string_bytes out.new)) }
{
    let unit = 10u128.pow(places);
    let mut buffer = Buffer::new();
    out.push_str(buffer.format(number / unit))?;
    push_places(out, number % unit, places as usize)
}

/// Whether nothing stands behind the ninth place of a size.
#[tactic(auto, using(decimals::proofs::Rounded::unit_some, decimals::proofs::Rounded::unit_fits))]
fn has_nine_places(size: Size) -> bool
    requires { 0 < size.number }
    ensures { result ≡ has_nine_places size.number size.power }
{
    let behind = if size.power < -9 {
        (-9 - size.power) as u64
    } else {
        0
    };
    behind < 39 && size.number % 10u128.pow(behind as u32) == 0
}

/// The most places of a size that isn't scientific.
fn general_places(size: Size) -> Option<u32>
    requires { 0 < size.number }
    ensures value { result ≡ general_places size.number size.power
        (first_power size.number size.power) }
    ensures few { IfSome result (λ places. places ≤ 9) }
{
    let first = size.first_power();
    if first > 10 {
        return None;
    }
    if first >= 0 {
        return Some(9u32.saturating_sub(first as u32));
    }
    if first >= -4 || (first >= -10 && has_nine_places(size)) {
        return Some(9);
    }
    None
}

/// Appends a size.
#[tactic(auto, using(crate::proofs::SizeSteps::limit_small))]
pub fn push_size(out: &mut String, size: Size) -> Result<(), AllocError>
    ensures ok { OnOk result (string_bytes out.new
        ≡ string_bytes out.old ++ general_size size.number size.power) }
    ensures err { OnErr result (AddsBehind (string_bytes out.old) (string_bytes out.new)) }
{
    if size.number == 0 {
        return out.push_str("0");
    }
    let Some(places) = general_places(size) else {
        return push_scientific(out, size);
    };
    let Some(number) = nearest_at(size.number, size.power + i64::from(places)) else {
        return push_scientific(out, size);
    };
    if number < 10u128.pow(11 + places) {
        return push_with_places(out, number, places);
    }
    push_scientific(out, size)
}

/// Appends the text of a number under General: its first fifteen digits, in eleven characters and a
/// sign.
#[tactic(auto, unfolding(crate::specs::GeneralText::general_text))]
pub fn push_general(out: &mut String, number: &Decimal) -> Result<(), AllocError>
    ensures ok { OnOk result (string_bytes out.new
        ≡ string_bytes out.old ++ general_text (number_of number.now)) }
    ensures err { OnErr result (AddsBehind (string_bytes out.old) (string_bytes out.new)) }
{
    push_sign(out, number.mantissa() < 0)?;
    push_size(out, Size::of(number))
}
