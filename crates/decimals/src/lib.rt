//! Exact decimal numbers: a whole number, times ten to a power.
//!
//! Rooms: `decimal` (`Decimal`), `significand` (the digits read so far), `decimal_text` (the other
//! pieces of a decimal's text), `decimal_printing`, `rounding` (the steps to so many significant
//! digits), `laws` (what the form of a decimal says, and what `==` and a copy are).
//!
//! **A decimal's digits are read once.** `Significand` keeps the number without the zeros at its
//! end, and their count. A zero is only counted; another digit brings the zeros before it into the
//! number, or the number doesn't fit and reading ends. So no number grows beyond 128 bits, and each
//! zero is brought in once. A power stops at 2^100, which no text is long enough to bring back.
#![tactic(auto)]

mod decimal;
mod decimal_printing;
mod decimal_text;
mod laws;
mod rounding;
mod significand;

pub use decimal::Decimal;
pub use laws::{
    copies_are_the_same, equal_numbers_have_one_form, equality_is_by_all_fields,
    no_number_of_so_many_digits_is_nearer, rounding_keeps_the_order,
    rounding_moves_by_half_a_unit_at_most, rounding_twice_is_rounding_once,
    zeros_at_the_end_are_powers_of_ten,
};
pub use significand::scaled;
