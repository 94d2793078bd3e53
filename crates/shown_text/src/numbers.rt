//! Sections of numbers, and those of numbers with a power of ten. A refusal may leave a front of
//! what is appended behind.
ghost use Rattle.std.specs.Prelude.{◌≡◌, ◌+◌, ◌<◌, ◌≤◌, ◌^◌, ◌++◌, ◌==◌, length, nat_abs, drop};
ghost use Rattle.std.specs.Prelude.{string_bytes, OnOk, OnErr, count_by, ◌+ℤ◌};
ghost use Rattle.std.specs.List.{before_first, position_or_len};
ghost use Rattle.escaped_text.specs.Escaped.{AddsBehind};
ghost use Rattle.format_codes.specs.Words.{is_exponent, is_percent};
ghost use Rattle.shown_text.specs.Digits.{laid_out, nearest_digits, digits_above_0};
ghost use Rattle.shown_text.specs.GivenDigits.{digits_in};
ghost use Rattle.shown_text.specs.NumberTexts.{commas_behind, thousands, scale, number_power};
ghost use Rattle.shown_text.specs.NumberTexts.{whole_steps, front_places, power_over, overflows};
ghost use Rattle.shown_text.specs.NumberTexts.{shown_power, power_sign, power_behind, size_shown};
ghost use Rattle.shown_text.specs.NumberTexts.{power_in, power_front, power_parts, power_text};

use crate::digits::{
    after_point, before_point, has_places, last_place, place_count, push_laid_out, push_with_digits,
};
use crate::given_digits::Digits;
use crate::sizes::{Size, nearest_len, nearest_whole};
use format_codes::CodePiece;
use itoa::Buffer;
use std::alloc::AllocError;

/// How many commas stand behind the last place.
fn commas_behind(pieces: &[CodePiece]) -> usize
    ensures value { result ≡ commas_behind pieces.now }
    ensures few { result ≤ length pieces.now }
{
    let (_, behind) = pieces.split_at(last_place(pieces));
    behind.iter().filter(|piece| piece.is_comma()).count()
}

/// How many times a thousand a number is divided by.
fn thousands(section: &[CodePiece]) -> usize
    requires { length section.now ≤ 2 ^ 32 }
    ensures value { result ≡ thousands section.now }
    ensures few { result ≤ 2 ^ 33 }
{
    let before = before_point(section);
    let front = if has_places(before) {
        commas_behind(before)
    } else {
        0
    };
    let behind = if has_places(section) {
        commas_behind(after_point(section))
    } else {
        0
    };
    front + behind
}

/// The power of ten that a section multiplies a number by.
fn scale(section: &[CodePiece]) -> i64
    requires { length section.now ≤ 2 ^ 32 }
    ensures value { result ≡ scale section.now }
    ensures near { nat_abs result ≤ 2 ^ 35 }
{
    let percents = section.iter().filter(|piece| piece.is_percent()).count();
    2 * percents as i64 - 3 * thousands(section) as i64
}

/// Appends a section with the digits of the whole number that is nearest to a size times ten to a
/// power.
fn push_nearest(
    out: &mut String,
    forced: bool,
    number: u128,
    power: i64,
    section: &[CodePiece],
) -> Result<(), AllocError>
    requires few { number ≤ 10 ^ 15 }
    requires near { nat_abs power < 2 ^ 62 }
    ensures ok { OnOk result (string_bytes out.new ≡ string_bytes out.old
        ++ laid_out forced (nearest_digits number power) section.now) }
    ensures err { OnErr result (AddsBehind (string_bytes out.old) (string_bytes out.new)) }
{
    let (whole, zeros) = nearest_whole(number, power);
    if whole == 0 {
        return push_laid_out(out, forced, &Digits { text: "", zeros: 0 }, section);
    }
    let mut buffer = Buffer::new();
    // A number of 64 bits is written in fewer steps.
    let text = buffer.format(whole as u64);
    push_laid_out(out, forced, &Digits { text, zeros }, section)
}

/// The power of ten of a size that a section scales.
fn scaled(section: &[CodePiece], power: i64) -> i64
    requires few { length section.now ≤ 2 ^ 32 }
    requires near { nat_abs power < 2 ^ 32 }
    ensures value { result ≡ power +ℤ scale section.now }
    ensures near { nat_abs result < 2 ^ 36 }
{
    power + scale(section)
}

/// The power of ten of a size in a section of numbers, with the places behind the point.
fn number_power(section: &[CodePiece], power: i64) -> i64
    requires few { length section.now ≤ 2 ^ 32 }
    requires near { nat_abs power < 2 ^ 32 }
    ensures value { result ≡ number_power section.now power }
    ensures near { nat_abs result < 2 ^ 62 }
{
    scaled(section, power) + place_count(after_point(section)) as i64
}

/// Appends a size in a section of numbers.
#[tactic(auto, unfolding(crate::specs::NumberTexts::size_shown))]
pub fn push_number(out: &mut String, section: &[CodePiece], size: Size) -> Result<(), AllocError>
    requires { length section.now ≤ 2 ^ 32 }
    ensures ok { OnOk result (string_bytes out.new ≡ string_bytes out.old
        ++ size_shown section.now size.number size.power) }
    ensures err { OnErr result (AddsBehind (string_bytes out.old) (string_bytes out.new)) }
{
    push_nearest(
        out,
        false,
        size.number,
        number_power(section, size.power),
        section,
    )
}

/// The greatest multiple of `step` that is no greater.
fn whole_steps(step: usize, power: i64) -> i64
    requires some { 0 < step }
    requires few { step ≤ 2 ^ 33 }
    requires near { nat_abs power < 2 ^ 33 }
    ensures value { result ≡ whole_steps step power }
    ensures near { nat_abs result < 2 ^ 34 }
{
    let step = step as u64;
    if power >= 0 {
        return (power as u64 / step * step) as i64;
    }
    let steps = (-1 - power) as u64 / step + 1;
    -((steps * step) as i64)
}

/// The places before the point, and one where there is none.
fn front_places(front: &[CodePiece]) -> usize
    ensures value { result ≡ front_places front.now }
    ensures some { 0 < result }
    ensures few { result ≤ length front.now + 1 }
{
    place_count(before_point(front)).max(1)
}

/// The power of a size over a power of ten, with the places behind the point.
fn power_over(front: &[CodePiece], power: i64, over: i64) -> i64
    requires few { length front.now ≤ 2 ^ 32 }
    requires near { nat_abs power < 2 ^ 35 }
    requires over { nat_abs over < 2 ^ 35 }
    ensures value { result ≡ power_over front.now power over }
    ensures near { nat_abs result < 2 ^ 37 }
{
    power - over + place_count(after_point(front)) as i64
}

/// Whether a size over a power of ten has more digits than there are places.
fn overflows(front: &[CodePiece], size: Size, over: i64) -> bool
    requires few { length front.now ≤ 2 ^ 32 }
    requires over { nat_abs over < 2 ^ 35 }
    ensures { result ≡ overflows front.now size.number size.power over }
{
    let places = front_places(front) + place_count(after_point(front));
    places < nearest_len(size.number, power_over(front, size.power, over))
}

/// The power of ten that is shown.
fn shown_power(front: &[CodePiece], size: Size) -> i64
    requires few { length front.now ≤ 2 ^ 32 }
    ensures value { result ≡ shown_power front.now size.number size.power }
    ensures near { nat_abs result < 2 ^ 35 }
{
    let places = front_places(front);
    let least = whole_steps(places, size.first_power());
    if overflows(front, size, least) {
        least + places as i64
    } else {
        least
    }
}

/// The sign in front of the digits of a power.
fn power_sign(plus: bool, power: i64) -> &'static str
    ensures { result.now ≡ power_sign plus power }
{
    if power < 0 {
        "-"
    } else if plus {
        "+"
    } else {
        ""
    }
}

/// Appends the letter of a power, its sign and its digits in the places behind.
fn push_power_behind(out: &mut String, pieces: &[CodePiece], power: i64) -> Result<(), AllocError>
    ensures ok { OnOk result
        (string_bytes out.new ≡ string_bytes out.old ++ power_behind pieces.now power) }
    ensures err { OnErr result (AddsBehind (string_bytes out.old) (string_bytes out.new)) }
{
    let Some((CodePiece::Exponent(letter, plus), behind)) = pieces.split_first() else {
        return Ok(());
    };
    let mut buffer = Buffer::new();
    let text = buffer.format(power.unsigned_abs());
    out.push(*letter)?;
    let digits = Digits { text, zeros: 0 };
    push_with_digits(out, false, false, power_sign(*plus, power), &digits, behind)
}

/// How many pieces stand before the letter of a power.
fn exponent_place(section: &[CodePiece]) -> usize
    ensures value { result ≡ position_or_len is_exponent section.now }
    ensures within { result ≤ length section.now }
{
    let mut place = 0;
    while place < section.len() && !section[place].is_exponent() {
        place += 1;
    }
    place
}

/// The power of ten over which a size is shown.
fn power_in(front: &[CodePiece], size: Size) -> i64
    requires few { length front.now ≤ 2 ^ 32 }
    ensures value { result ≡ power_in front.now size.number size.power }
    ensures near { nat_abs result < 2 ^ 35 }
{
    if size.number == 0 {
        0
    } else {
        shown_power(front, size)
    }
}

/// Appends what stands before the letter of a power, with a size over that power.
fn push_power_front(
    out: &mut String,
    front: &[CodePiece],
    size: Size,
    over: i64,
) -> Result<(), AllocError>
    requires few { length front.now ≤ 2 ^ 32 }
    requires over { nat_abs over < 2 ^ 35 }
    ensures ok { OnOk result (string_bytes out.new ≡ string_bytes out.old
        ++ power_front front.now size.number size.power over) }
    ensures err { OnErr result (AddsBehind (string_bytes out.old) (string_bytes out.new)) }
{
    let power = power_over(front, size.power, over);
    push_nearest(out, size.number == 0, size.number, power, front)
}

/// Appends a size in what stands before the letter of a power, and its power from there on.
fn push_power_parts(
    out: &mut String,
    front: &[CodePiece],
    behind: &[CodePiece],
    size: Size,
) -> Result<(), AllocError>
    requires { length front.now ≤ 2 ^ 32 }
    ensures ok { OnOk result (string_bytes out.new ≡ string_bytes out.old
        ++ power_parts front.now behind.now size.number size.power) }
    ensures err { OnErr result (AddsBehind (string_bytes out.old) (string_bytes out.new)) }
{
    let power = power_in(front, size);
    push_power_front(out, front, size, power)?;
    push_power_behind(out, behind, power)
}

/// Appends a size in a section with a power of ten.
#[tactic(auto, unfolding(crate::specs::NumberTexts::power_text))]
pub fn push_power(out: &mut String, section: &[CodePiece], size: Size) -> Result<(), AllocError>
    requires { length section.now ≤ 2 ^ 32 }
    ensures ok { OnOk result (string_bytes out.new ≡ string_bytes out.old
        ++ power_text section.now size.number size.power) }
    ensures err { OnErr result (AddsBehind (string_bytes out.old) (string_bytes out.new)) }
{
    let (front, behind) = section.split_at(exponent_place(section));
    push_power_parts(out, front, behind, size)
}
