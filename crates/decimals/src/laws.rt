ghost use Rattle.std.specs.Prelude.{◌≡◌, ◌*◌, ◌%◌, ◌^◌, ◌<◌, ◌+ℤ◌, ◌*ℤ◌, ℕ, pos, List, true, Some};
ghost use Rattle.std.specs.Prelude.{nat_abs};
ghost use Rattle.std.specs.Str.{all_ascii_digits};
ghost use Rattle.std.specs.Str.Parse.{digits_value};
ghost use Rattle.decimals.specs.Decimal.{number_of};
ghost use Rattle.decimals.specs.Decimals.{decimal_from, trailing_zeros, without_trailing_zeros};
ghost use Rattle.decimals.specs.Rounding.{rounded_number, IsAtMost, IsWithinHalfAUnit};
ghost use Rattle.decimals.specs.Rounding.{NoneIsNearer};
ghost use Rattle.equalities.specs.Equality.{IsEquality, CopiesItself};
ghost use Rattle.decimals.specs.declared.decimal.Decimal.{Decimal};

use crate::Decimal;

/// Digits write the number that they write without the zeros at their end, times ten for each of
/// these, and no zero ends that number but 0.
#[tactic(auto, using(crate::proofs::OneForm::value_kept, crate::proofs::OneForm::zeros_gone))]
pub fn zeros_at_the_end_are_powers_of_ten()
    ensures value { (digits : List ℕ) → all_ascii_digits digits ≡ true
        → digits_value 10 (without_trailing_zeros digits) * 10 ^ trailing_zeros digits
        ≡ digits_value 10 digits }
    ensures trimmed { (digits : List ℕ) → all_ascii_digits digits ≡ true
        → digits_value 10 (without_trailing_zeros digits) % 10 ≡ 0
        → digits_value 10 digits ≡ 0 }
{}

/// Decimals that are the same number have the same whole number and the same power.
#[tactic(auto, using(crate::proofs::OneForm::one_form))]
pub fn equal_numbers_have_one_form()
    ensures { (a b : Decimal) (shift : ℕ) → a.exponent +ℤ pos shift ≡ b.exponent
        → a.mantissa ≡ b.mantissa *ℤ pos (10 ^ shift) → number_of a ≡ number_of b }
{}

/// `a == b` exactly where both are the same whole number and the same power.
#[tactic(auto, using(crate::proofs::Equality::of_decimal))]
pub fn equality_is_by_all_fields()
    ensures { IsEquality ⟦<Decimal as PartialEq>⟧.eq }
{}

/// A copy of a decimal is that decimal.
pub fn copies_are_the_same()
    ensures { CopiesItself ⟦<Decimal as Clone>⟧.is_clone ⟦<Decimal as Clone>⟧.is_infallible }
{}

/// A number is rounded to one of at most so many digits, and that stays as it is where it is
/// rounded again.
pub fn rounding_twice_is_rounding_once(number: Decimal, digits: u8)
    ensures few { (once : Decimal)
        → decimal_from (rounded_number digits (number_of number)) ≡ Some (number_of once)
        → nat_abs once.mantissa < 10 ^ digits }
    ensures again { (once : Decimal)
        → decimal_from (rounded_number digits (number_of number)) ≡ Some (number_of once)
        → decimal_from (rounded_number digits (number_of once)) ≡ Some (number_of once) }
{}

/// A number that is no greater than another is no greater once both are rounded.
pub fn rounding_keeps_the_order(one: Decimal, other: Decimal, digits: u8)
    ensures { IsAtMost (number_of one) (number_of other)
        → IsAtMost (rounded_number digits (number_of one))
        (rounded_number digits (number_of other)) }
{}

/// No number of so many digits is nearer than the one that a number is rounded to.
pub fn no_number_of_so_many_digits_is_nearer(number: Decimal, digits: u8)
    ensures { NoneIsNearer digits (number_of number) }
{}

/// A number is rounded by half a unit of its last digit at most.
pub fn rounding_moves_by_half_a_unit_at_most(number: Decimal, digits: u8)
    ensures { 0 < digits → IsWithinHalfAUnit digits (number_of number) }
{}
