ghost use Rattle.std.specs.Prelude.{◌≡◌, ◌≤ℤ◌, ◌<◌, ◌^◌, pos, SomeIff, FitsSigned};
ghost use Rattle.std.specs.Int.{w128};
ghost use Rattle.std.specs.Ordering.{int_cmp};
ghost use Rattle.decimals.specs.Words.{number_of, decimal_from};
ghost use Rattle.xlsx_check.specs.Denoting.{denoted_by, is_unsupported, joined_result};
ghost use Rattle.xlsx_check.specs.TokenView.{token_of};
ghost use Rattle.xlsx_check.specs.Evaluation.{number_or_past, from_whole, lower, taken_to};
ghost use Rattle.xlsx_check.specs.Evaluation.{negative_of, holds_by, sum_of, difference_of};
ghost use Rattle.xlsx_check.specs.Evaluation.{product_of, gap, of_one, a_number, number_past};

use crate::token::{Comparison, Token};
use cell_data::Decimal;
use decimals::scaled;
use std::cmp::Ordering;

/// What a formula comes to: a number or a boolean, either of them perhaps past the limits, or
/// nothing, where something in it isn't computed.
#[derive(Clone, Copy)]
pub enum Denotation {
    Number(Decimal),
    Truth(bool),
    NumberPast,
    TruthPast,
    Unsupported,
}

/// The number of a whole number and a power, where both fit.
pub fn number_from(whole: i128, power: i64) -> Denotation
    ensures { denoted_by result ≡ number_or_past (decimal_from (whole, power)) }
{
    match Decimal::from_parts(whole, power) {
        Some(number) => Denotation::Number(number),
        None => Denotation::NumberPast,
    }
}

/// Ten to a power as a factor, where it fits.
fn tens(power: usize) -> Option<i128>
    ensures { SomeIff result (10 ^ power < 2 ^ 127) (pos (10 ^ power)) }
{
    i128::try_from(scaled(1, power)?).ok()
}

/// The whole number that takes ten to this power, which is no higher than its own, where it fits
/// 128 bits.
fn taken_to(power: i32, number: Decimal) -> Option<i128>
    requires { power ≤ℤ (number_of number).1 }
    ensures { SomeIff result (FitsSigned w128 (taken_to power (number_of number)))
        (taken_to power (number_of number)) }
{
    if number.mantissa() == 0 {
        return Some(0);
    }
    let steps = i64::from(number.exponent()) - i64::from(power);
    number
        .mantissa()
        .checked_mul(tens(steps.unsigned_abs() as usize)?)
}

/// The lower power of two numbers.
fn lower(a: Decimal, b: Decimal) -> i32
    ensures value { result ≡ lower (number_of a).1 (number_of b).1 }
    ensures first { result ≤ℤ (number_of a).1 }
    ensures second { result ≤ℤ (number_of b).1 }
{
    if a.exponent() < b.exponent() {
        a.exponent()
    } else {
        b.exponent()
    }
}

/// The number of a whole number and a power, where the whole number is one and both fit.
fn number_of_whole(whole: Option<i128>, power: i64) -> Denotation
    ensures { denoted_by result ≡ from_whole whole power }
{
    match whole {
        Some(whole) => number_from(whole, power),
        None => Denotation::NumberPast,
    }
}

/// The sum of two numbers.
pub fn sum_of(a: Decimal, b: Decimal) -> Denotation
    ensures { denoted_by result ≡ sum_of (number_of a) (number_of b) }
{
    if b.mantissa() == 0 {
        return Denotation::Number(a);
    }
    if a.mantissa() == 0 {
        return Denotation::Number(b);
    }
    let power = lower(a, b);
    let Some(first) = taken_to(power, a) else {
        return Denotation::NumberPast;
    };
    let Some(second) = taken_to(power, b) else {
        return Denotation::NumberPast;
    };
    number_of_whole(first.checked_add(second), i64::from(power))
}

/// The first number less the second.
pub fn difference_of(a: Decimal, b: Decimal) -> Denotation
    ensures { denoted_by result ≡ difference_of (number_of a) (number_of b) }
{
    if b.mantissa() == 0 {
        return Denotation::Number(a);
    }
    if a.mantissa() == 0 {
        return negative_of(b);
    }
    let power = lower(a, b);
    let Some(first) = taken_to(power, a) else {
        return Denotation::NumberPast;
    };
    let Some(second) = taken_to(power, b) else {
        return Denotation::NumberPast;
    };
    number_of_whole(first.checked_sub(second), i64::from(power))
}

/// The product of two numbers.
pub fn product_of(a: Decimal, b: Decimal) -> Denotation
    ensures { denoted_by result ≡ product_of (number_of a) (number_of b) }
{
    let power = i64::from(a.exponent()) + i64::from(b.exponent());
    number_of_whole(a.mantissa().checked_mul(b.mantissa()), power)
}

/// How a number stands to another, whatever their powers: where the one that is taken to the lower
/// power is past the limit, its sign decides.
pub fn compare_numbers(a: Decimal, b: Decimal) -> Ordering
    ensures { result ≡ int_cmp (gap (number_of a) (number_of b)) (pos 0) }
{
    let power = lower(a, b);
    let Some(first) = taken_to(power, a) else {
        return a.mantissa().cmp(&0);
    };
    let Some(second) = taken_to(power, b) else {
        return 0.cmp(&b.mantissa());
    };
    first.cmp(&second)
}

/// Whether a comparison holds of two numbers of which the first stands so to the second.
pub fn holds(comparison: Comparison, order: Ordering) -> bool
    ensures { result ≡ holds_by comparison order }
{
    match comparison {
        Comparison::Equal => order.is_eq(),
        Comparison::Unequal => order.is_ne(),
        Comparison::Below => order.is_lt(),
        Comparison::Above => order.is_gt(),
        Comparison::UpTo => order.is_le(),
        Comparison::From => order.is_ge(),
    }
}

/// The negative of a number.
fn negative_of(number: Decimal) -> Denotation
    ensures { denoted_by result ≡ negative_of (number_of number) }
{
    match number.mantissa().checked_neg() {
        Some(whole) => number_from(whole, i64::from(number.exponent())),
        None => Denotation::NumberPast,
    }
}

impl Denotation {
    /// Whether something in it isn't computed.
    pub fn is_unsupported(self) -> bool
        ensures { result ≡ is_unsupported (denoted_by self) }
    {
        matches!(self, Denotation::Unsupported)
    }

    /// The negative of a number.
    pub fn negated(self) -> Denotation
        ensures { denoted_by result ≡ of_one (denoted_by self) }
    {
        match self {
            Denotation::Number(number) => negative_of(number),
            Denotation::NumberPast => Denotation::NumberPast,
            _ => Denotation::Unsupported,
        }
    }

    /// What two results come to that an operator joins.
    pub fn joined(self, token: Token, other: Denotation) -> Denotation
        ensures { denoted_by result
            ≡ joined_result (token_of token) (denoted_by self) (denoted_by other) }
    {
        match (self, other) {
            (Denotation::Number(a), Denotation::Number(b)) => joined_numbers(token, a, b),
            (
                Denotation::Number(_) | Denotation::NumberPast,
                Denotation::Number(_) | Denotation::NumberPast,
            ) => joined_past(token),
            _ => Denotation::Unsupported,
        }
    }
}

/// What two numbers come to that an operator joins.
fn joined_numbers(token: Token, a: Decimal, b: Decimal) -> Denotation
    ensures { denoted_by result
        ≡ joined_result (token_of token) (a_number (number_of a)) (a_number (number_of b)) }
{
    match token {
        Token::Plus => sum_of(a, b),
        Token::Minus => difference_of(a, b),
        Token::Times => product_of(a, b),
        Token::Compares(comparison) => {
            Denotation::Truth(holds(comparison, compare_numbers(a, b)))
        }
        _ => Denotation::Unsupported,
    }
}

/// What an operator gives where a number past the limits is among its two.
fn joined_past(token: Token) -> Denotation
    ensures { denoted_by result ≡ joined_result (token_of token) number_past number_past }
{
    match token {
        Token::Plus | Token::Minus | Token::Times => Denotation::NumberPast,
        Token::Compares(_) => Denotation::TruthPast,
        _ => Denotation::Unsupported,
    }
}
