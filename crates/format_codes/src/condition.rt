//! Conditions of sections, and which numbers meet them.
ghost use Rattle.std.specs.Prelude.{◌≡◌, ◌*◌, ◌^◌, ◌-ℤ◌};
ghost use Rattle.std.specs.Int.{is_negative};
ghost use Rattle.std.specs.Ordering.{nat_cmp};
ghost use Rattle.format_codes.specs.Conditions.{condition_in, positive_part, number_cmp};
ghost use Rattle.format_codes.specs.Conditions.{condition_holds, signed_cmp, meets_condition};
ghost use Rattle.format_codes.specs.Conditions.{takes, holds_below_0, leaves_sign_out};

use crate::piece::{CodePiece, Comparison, Condition};
use decimals::scaled;
use std::cmp::Ordering;

/// The condition of a section: its first one.
pub fn condition_in(section: &[CodePiece]) -> Option<Condition>
    ensures { result ≡ condition_in section.now }
{
    let mut rest = section;
    while let Some((first, others)) = rest.split_first() {
        if let Some(condition) = first.condition() {
            return Some(condition);
        }
        rest = others;
    }
    None
}

/// How a size times ten to a power stands to another size. A product above 128 bits is above all.
fn scaled_cmp(size: u128, zeros: usize, other: u128) -> Ordering
    ensures { result ≡ nat_cmp (size * 10 ^ zeros) other }
{
    match scaled(size, zeros) {
        Some(product) => product.cmp(&other),
        None => Ordering::Greater,
    }
}

/// How a size times ten to a power stands to another one, both over the lesser of their powers.
#[tactic(auto, using(crate::proofs::Orders::reversed))]
fn size_cmp(size: u128, power: i32, other: u128, other_power: i32) -> Ordering
    ensures { result ≡ nat_cmp (size * 10 ^ positive_part (power -ℤ other_power))
        (other * 10 ^ positive_part (other_power -ℤ power)) }
{
    if power >= other_power {
        let zeros = i64::from(power) - i64::from(other_power);
        scaled_cmp(size, zeros as usize, other)
    } else {
        let zeros = i64::from(other_power) - i64::from(power);
        scaled_cmp(other, zeros as usize, size).reverse()
    }
}

/// How two numbers stand, by which of them are below 0 and how their sizes stand.
fn signed_cmp(is_below: bool, is_other_below: bool, by_size: Ordering) -> Ordering
    ensures { result ≡ signed_cmp is_below is_other_below by_size }
{
    match (is_below, is_other_below) {
        (true, true) => by_size.reverse(),
        (true, false) => Ordering::Less,
        (false, true) => Ordering::Greater,
        (false, false) => by_size,
    }
}

/// Whether a number is below 0.
fn is_below_0(number: i128) -> bool
    ensures { result ≡ is_negative number }
{
    number < 0
}

/// How a whole number times ten to a power stands to another one.
#[tactic(auto, using(crate::proofs::Orders::by_signs))]
fn whole_cmp(whole: i128, power: i32, other: i128, other_power: i32) -> Ordering
    ensures { result ≡ number_cmp (whole, power) (other, other_power) }
{
    let by_size = size_cmp(
        whole.unsigned_abs(),
        power,
        other.unsigned_abs(),
        other_power,
    );
    signed_cmp(is_below_0(whole), is_below_0(other), by_size)
}

/// How a number stands to another; each is a whole number, and the power of ten that it is taken
/// times.
fn number_cmp(number: (i128, i32), other: (i128, i32)) -> Ordering
    ensures { result ≡ number_cmp number other }
{
    whole_cmp(number.0, number.1, other.0, other.1)
}

/// Whether a comparison holds of two numbers, by how the first stands to the second.
fn holds_by(comparison: Comparison, order: Ordering) -> bool
    ensures { result ≡ condition_holds comparison order }
{
    match comparison {
        Comparison::Below => order.is_lt(),
        Comparison::UpTo => order.is_le(),
        Comparison::Above => order.is_gt(),
        Comparison::From => order.is_ge(),
        Comparison::Equal => order.is_eq(),
        Comparison::Unequal => order.is_ne(),
    }
}

/// Whether a section takes a number: by its condition, or else as its place says.
pub fn takes(number: (i128, i32), else_takes: bool, condition: Option<Condition>) -> bool
    ensures { result ≡ takes number else_takes condition }
{
    match condition {
        Some(condition) => { holds_by(condition.comparison, number_cmp(number, condition.number)) }
        None => else_takes,
    }
}

/// Whether a comparison with a number of this sign holds of numbers below 0 alone.
fn holds_below_0(comparison: Comparison, number: i128) -> bool
    ensures { result ≡ holds_below_0 comparison number }
{
    match comparison {
        Comparison::Below => number <= 0,
        Comparison::UpTo | Comparison::Equal => number < 0,
        Comparison::Above | Comparison::From | Comparison::Unequal => false,
    }
}

/// Whether a section leaves the sign out: its condition holds of numbers below 0 alone, or its
/// place says so.
pub fn leaves_sign_out(else_out: bool, condition: Option<Condition>) -> bool
    ensures { result ≡ leaves_sign_out else_out condition }
{
    match condition {
        Some(condition) => holds_below_0(condition.comparison, condition.number.0),
        None => else_out,
    }
}
