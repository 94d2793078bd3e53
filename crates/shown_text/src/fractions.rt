//! Sections of fractions. A refusal may leave a front of what is appended behind.
ghost use Rattle.std.specs.Prelude.{◌≡◌, ◌+◌, ◌-◌, ◌*◌, ◌<◌, ◌≤◌, ◌^◌, ◌++◌, take, min, ℕ};
ghost use Rattle.std.specs.Prelude.{string_bytes, false, [], OnOk, OnErr};
ghost use Rattle.std.specs.Fmt.{decimal};
ghost use Rattle.std.specs.List.{fold};
ghost use Rattle.escaped_text.specs.Escaped.{AddsBehind};
ghost use Rattle.format_codes.specs.Words.{is_fixed, has, is_zero_place};
ghost use Rattle.shown_text.specs.Digits.{with_digits};
ghost use Rattle.shown_text.specs.FractionPlaces.{is_space_place, is_empty_place, has_width, width};
ghost use Rattle.shown_text.specs.FractionPlaces.{spaces, texts_between, filled_text};
ghost use Rattle.shown_text.specs.FractionPlaces.{denominator_text};
ghost use Rattle.shown_text.specs.FractionArithmetic.{nearest_over, distance, figure_value};
ghost use Rattle.shown_text.specs.FractionArithmetic.{fixed_denominator, most_denominator};

use crate::digits::{push_among_places, push_with_digits};
use crate::given_digits::Digits;
use format_codes::{CodePiece, Filler};
use itoa::Buffer;
use std::alloc::AllocError;

/// A fraction.
#[derive(Clone, Copy)]
pub struct Fraction {
    pub over: u128,
    pub under: u128,
}

/// The numerator of the fraction of this denominator that is nearest to a number over a unit, the
/// greater of two that are as near.
fn nearest_over(number: u128, unit: u128, under: u128) -> u128
    requires number { number ≤ 10 ^ 15 }
    requires some { 0 < unit }
    requires unit { unit ≤ 10 ^ 30 }
    requires under { under < 2 ^ 40 }
    ensures value { result ≡ nearest_over number unit under }
    ensures near { result * unit ≤ number * under + unit }
{
    (2 * number * under + unit) / (2 * unit)
}

/// How far a fraction is from a number over a unit, over its denominator and the unit.
fn distance(number: u128, unit: u128, over: u128, under: u128) -> u128
    requires number { number ≤ 10 ^ 15 }
    requires unit { unit ≤ 10 ^ 30 }
    requires under { under ≤ 9999 }
    requires near { over * unit ≤ number * under + unit }
    ensures value { result ≡ distance number unit over under }
    ensures few { result ≤ 10 ^ 31 }
{
    (number * under).abs_diff(over * unit)
}

impl Fraction {
    ghost use Rattle.shown_text.specs.FractionTexts.{fraction_over, nearer, nearest_fraction};
    ghost use Rattle.shown_text.specs.FractionTexts.{found_fraction, empty_fraction};

    /// The fraction of this denominator that is nearest to a number over a unit.
    fn over(number: u128, unit: u128, under: u128) -> Fraction
        requires number { number ≤ 10 ^ 15 }
        requires some { 0 < unit }
        requires unit { unit ≤ 10 ^ 30 }
        requires under { under < 2 ^ 40 }
        ensures value { result ≡ fraction_over number unit under }
        ensures near { result.over * unit ≤ number * under + unit }
    {
        Fraction {
            over: nearest_over(number, unit, under),
            under,
        }
    }

    /// The nearer of two fractions, and the first where they are as near.
    fn nearer(self, other: Fraction, number: u128, unit: u128) -> Fraction
        requires number { number ≤ 10 ^ 15 }
        requires unit { unit ≤ 10 ^ 30 }
        requires under { self.under ≤ 9999 }
        requires other_under { other.under ≤ 9999 }
        requires near { self.over * unit ≤ number * self.under + unit }
        requires other_near { other.over * unit ≤ number * other.under + unit }
        ensures value { result ≡ nearer number unit self other }
        ensures under { result.under ≤ 9999 }
        ensures near { result.over * unit ≤ number * result.under + unit }
    {
        let far = distance(number, unit, self.over, self.under);
        let other_far = distance(number, unit, other.over, other.under);
        if other_far * self.under < far * other.under {
            other
        } else {
            self
        }
    }

    /// The nearest fraction with a denominator up to `most`, of those that are as near the one with
    /// the least denominator.
    fn nearest(number: u128, unit: u128, most: u128) -> Fraction
        requires number { number ≤ 10 ^ 15 }
        requires some { 0 < unit }
        requires unit { unit ≤ 10 ^ 30 }
        requires most { most ≤ 9999 }
        ensures value { result ≡ nearest_fraction number unit most }
        ensures under { result.under ≤ 9999 }
    {
        let mut best = Fraction::over(number, unit, 1);
        let mut under = 2;
        while under <= most {
            best = best.nearer(Fraction::over(number, unit, under), number, unit);
            under += 1;
        }
        best
    }

    /// The fraction that is shown of a number over a unit.
    pub fn found(under: &[CodePiece], number: u128, unit: u128) -> Fraction
        requires number { number ≤ 10 ^ 15 }
        requires some { 0 < unit }
        requires unit { unit ≤ 10 ^ 30 }
        ensures value { result ≡ found_fraction under.now number unit }
        ensures few { result.under < 2 ^ 40 }
    {
        if is_fixed(under) {
            return Fraction::over(number, unit, fixed_denominator(under));
        }
        Fraction::nearest(number, unit, most_denominator(under))
    }

    /// The fraction of a whole number.
    pub fn empty(under: &[CodePiece]) -> Fraction
        ensures value { result ≡ empty_fraction under.now }
        ensures few { result.under < 2 ^ 40 }
    {
        Fraction {
            over: 0,
            under: if is_fixed(under) {
                fixed_denominator(under)
            } else {
                1
            },
        }
    }
}

/// Whether a denominator is given.
pub fn is_fixed(under: &[CodePiece]) -> bool
    ensures { result ≡ is_fixed under.now }
{
    match under {
        [first, ..] => first.is_figure(),
        [] => false,
    }
}

/// The value of a digit of a denominator that is given.
fn figure_value(piece: CodePiece) -> u128
    ensures value { result ≡ figure_value piece }
    ensures few { result < 2 ^ 21 }
{
    match piece {
        CodePiece::Figure(c) => u128::from(u32::from(c).saturating_sub(48)),
        _ => 0,
    }
}

/// The number that is given as the denominator.
#[tactic(auto, using(std::proofs::lemmas::Grind::pow_more))]
fn fixed_denominator(under: &[CodePiece]) -> u128
    ensures value { result ≡ fixed_denominator under.now }
    ensures few { result < 2 ^ 40 }
{
    let (digits, _) = under.split_at(under.len().min(4));
    let mut number = 0;
    for digit in digits {
        number = number * 10 + figure_value(*digit);
    }
    number
}

/// The greatest denominator that has so many places, four at most.
fn most_denominator(under: &[CodePiece]) -> u128
    ensures value { result ≡ most_denominator under.now }
    ensures few { result ≤ 9999 }
{
    match under.len() {
        0 => 0,
        1 => 9,
        2 => 99,
        3 => 999,
        _ => 9999,
    }
}

/// Whether a piece is a place `?`.
fn is_space_place(piece: CodePiece) -> bool
    ensures { result ≡ is_space_place piece }
{
    matches!(piece, CodePiece::Digit(Filler::Space))
}

/// Whether a piece is a place `#`.
fn is_empty_place(piece: CodePiece) -> bool
    ensures { result ≡ is_empty_place piece }
{
    matches!(piece, CodePiece::Digit(Filler::Nothing))
}

/// Whether a place is `?`.
pub fn has_space(pieces: &[CodePiece]) -> bool
    ensures { result ≡ has is_space_place pieces.now }
{
    pieces.iter().any(|piece| is_space_place(*piece))
}

/// Whether a place is `#`.
pub fn has_empty(pieces: &[CodePiece]) -> bool
    ensures { result ≡ has is_empty_place pieces.now }
{
    pieces.iter().any(|piece| is_empty_place(*piece))
}

/// Whether a place is `0`.
pub fn has_zero(pieces: &[CodePiece]) -> bool
    ensures { result ≡ has is_zero_place pieces.now }
{
    pieces.iter().any(|piece| piece.is_zero())
}

/// Whether a piece is as wide as a character.
fn has_width(piece: CodePiece) -> bool
    ensures { result ≡ has_width piece }
{
    matches!(
        piece,
        CodePiece::Literal(_)
            | CodePiece::Figure(_)
            | CodePiece::Digit(_)
            | CodePiece::Point
            | CodePiece::Percent
            | CodePiece::Slash
    )
}

/// Appends so many spaces.
pub fn push_spaces(out: &mut String, count: usize) -> Result<(), AllocError>
    ensures ok { OnOk result (string_bytes out.new ≡ string_bytes out.old ++ spaces count) }
    ensures err { OnErr result (AddsBehind (string_bytes out.old) (string_bytes out.new)) }
{
    for _ in 0..count {
        out.push_str(" ")?;
    }
    Ok(())
}

/// Appends as many spaces as pieces are wide.
pub fn push_width(out: &mut String, pieces: &[CodePiece]) -> Result<(), AllocError>
    ensures ok { OnOk result
        (string_bytes out.new ≡ string_bytes out.old ++ spaces (width pieces.now)) }
    ensures err { OnErr result (AddsBehind (string_bytes out.old) (string_bytes out.new)) }
{
    push_spaces(
        out,
        pieces.iter().filter(|piece| has_width(**piece)).count(),
    )
}

/// Appends the texts of pieces between places.
pub fn push_between(out: &mut String, pieces: &[CodePiece]) -> Result<(), AllocError>
    ensures ok { OnOk result
        (string_bytes out.new ≡ string_bytes out.old ++ texts_between pieces.now) }
    ensures err { OnErr result (AddsBehind (string_bytes out.old) (string_bytes out.new)) }
{
    for piece in pieces {
        push_among_places(out, *piece)?;
    }
    Ok(())
}

/// Appends places with the digits of a number.
pub fn push_decimal(out: &mut String, number: u128, pieces: &[CodePiece]) -> Result<(), AllocError>
    ensures ok { OnOk result (string_bytes out.new ≡ string_bytes out.old
        ++ with_digits false false [] (decimal number) pieces.now) }
    ensures err { OnErr result (AddsBehind (string_bytes out.old) (string_bytes out.new)) }
{
    let mut buffer = Buffer::new();
    let text = buffer.format(number);
    push_with_digits(out, false, false, "", &Digits { text, zeros: 0 }, pieces)
}

/// Appends the digits of a denominator, with spaces behind them in places that are left.
fn push_filled(out: &mut String, under: &[CodePiece], number: u128) -> Result<(), AllocError>
    ensures ok { OnOk result (string_bytes out.new ≡ string_bytes out.old
        ++ filled_text under.now number) }
    ensures err { OnErr result (AddsBehind (string_bytes out.old) (string_bytes out.new)) }
{
    let places = under.iter().filter(|piece| is_space_place(**piece)).count();
    let mut buffer = Buffer::new();
    let digits = buffer.format(number);
    out.push_str(digits)?;
    push_spaces(out, places.saturating_sub(digits.len()))
}

/// Appends a denominator.
pub fn push_denominator(
    out: &mut String,
    under: &[CodePiece],
    number: u128,
) -> Result<(), AllocError>
    ensures ok { OnOk result (string_bytes out.new ≡ string_bytes out.old
        ++ denominator_text under.now number) }
    ensures err { OnErr result (AddsBehind (string_bytes out.old) (string_bytes out.new)) }
{
    if is_fixed(under) {
        let mut buffer = Buffer::new();
        return out.push_str(buffer.format(number));
    }
    if has_zero(under) {
        return push_decimal(out, number, under);
    }
    push_filled(out, under, number)
}
