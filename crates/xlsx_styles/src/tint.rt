ghost use Rattle.std.specs.Prelude.{◌≡◌, ◌+◌, ◌-◌, ◌*◌, ◌/◌, ◌^◌, ◌<◌, ◌≤◌, min, pos};
ghost use Rattle.xlsx_styles.specs.Tint.{IsNearest, unit, is_negative, tint_size, room_of};
ghost use Rattle.xlsx_styles.specs.Tint.{tinted_sum, shade, tint_fraction};

use cell_styles::Color;
use decimals::Decimal;

const UNIT: u128 = 100_000_000_000_000_000_000;

/// The color, made darker by a negative tint and lighter by a positive one, from -1 for black to 1
/// for white. Its hue and saturation stay, and so does its alpha.
///
/// The tint is cut toward zero after 20 decimals and limited to -1 and 1. Each channel is the whole
/// number nearest to its exact value, halves upward (ECMA-376, 18.8.3).
pub fn apply_tint(color: Color, tint: &Decimal) -> Color
    ensures alpha { result.alpha ≡ color.alpha }
    ensures red { IsNearest result.red (tint_fraction color tint.now color.red) }
    ensures green { IsNearest result.green (tint_fraction color tint.now color.green) }
    ensures blue { IsNearest result.blue (tint_fraction color tint.now color.blue) }
    ensures zero { tint.now.mantissa ≡ pos 0 → result ≡ color }
{
    let largest = color.red.max(color.green.max(color.blue));
    let smallest = color.red.min(color.green.min(color.blue));
    let sum = u128::from(largest) + u128::from(smallest);
    let tinted = tinted(tint, sum);
    Color::new(
        color.alpha,
        channel(sum, tinted, color.red),
        channel(sum, tinted, color.green),
        channel(sum, tinted, color.blue),
    )
}

/// The sum of the tinted color's largest and smallest channel, in parts of the unit.
fn tinted(tint: &Decimal, sum: u128) -> u128
    requires { sum ≤ 510 }
    ensures value { result ≡ tinted_sum (is_negative tint.now.mantissa) (tint_size tint.now) sum }
    ensures bound { result ≤ 510 * unit }
{
    let size = size_of(tint);
    let kept = sum * (UNIT - size);
    if tint.mantissa() < 0 {
        kept
    } else {
        kept + 510 * size
    }
}

/// How large the tint is, in parts of the unit.
fn size_of(tint: &Decimal) -> u128
    ensures value { result ≡ tint_size tint.now }
    ensures bound { result ≤ unit }
{
    let size = tint.mantissa().unsigned_abs();
    let places = tint.exponent().unsigned_abs();
    if tint.exponent() >= 0 {
        if size == 0 { 0 } else { UNIT }
    } else if places <= 20 {
        few_places(size, places)
    } else {
        many_places(size, places)
    }
}

/// The size of a number with at most 20 decimals.
fn few_places(size: u128, places: u32) -> u128
    requires { places ≤ 20 }
    ensures { result ≡ min (size * unit / 10 ^ places) unit }
{
    if size >= 10u128.pow(places) {
        UNIT
    } else {
        size * 10u128.pow(20 - places)
    }
}

/// The size of a number with more than 20 decimals. Past 58 nothing is left of a number of 128
/// bits.
fn many_places(size: u128, places: u32) -> u128
    requires { 20 < places }
    ensures { result ≡ min (size * unit / 10 ^ places) unit }
{
    if places > 58 {
        return 0;
    }
    (size / 10u128.pow(places - 20)).min(UNIT)
}

/// A channel of the tinted color.
fn channel(sum: u128, tinted: u128, channel: u8) -> u8
    requires sum { sum ≤ 510 }
    requires tinted { tinted ≤ 510 * unit }
    requires low { sum ≤ 2 * channel + room_of sum }
    requires high { 2 * channel ≤ sum + room_of sum }
    ensures { IsNearest result (shade sum tinted (room_of sum) channel) }
{
    let room = sum.min(510 - sum);
    if room == 0 {
        return nearest(tinted, 2 * UNIT);
    }
    let swing = tinted.min(510 * UNIT - tinted);
    let above = tinted * room + swing * (2 * u128::from(channel));
    nearest(above - swing * sum, 2 * UNIT * room)
}

/// The whole number nearest to a fraction, halves upward.
fn nearest(numerator: u128, divisor: u128) -> u8
    requires some { 0 < divisor }
    requires small { divisor < 2 ^ 80 }
    requires fits { numerator ≤ 255 * divisor }
    ensures { IsNearest result (record { numerator = numerator; divisor = divisor }) }
{
    ((2 * numerator + divisor) / (2 * divisor)) as u8
}
