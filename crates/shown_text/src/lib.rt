//! The text that a spreadsheet program shows of a value under the code of its number format
//! (ECMA-376 part 1, sections 18.8.30 and 18.8.31).
//!
//! Rooms: `sizes` (a number by its fifteen digits), `general` (numbers under General),
//! `given_digits` (digits as they are held), `digits` (digits in the places of a section),
//! `numbers` (places, commas and percents, and powers of ten), `fraction_parts`, `fractions` and
//! `fraction_texts` (fractions), `date_texts` (dates, times of day and times that have passed),
//! `sections` (a value in a section), `shown` (a value under a code), `laws` (what the definitions
//! say).
//!
//! **A number is rounded to fifteen digits first**, as programs do that keep so many. From there on
//! it is a whole number of at most sixteen digits and a power of ten: zeros behind it are only
//! counted, so that no number grows beyond 128 bits, and no float is made.
#![tactic(auto)]

mod date_texts;
mod digits;
mod fraction_parts;
mod fraction_texts;
mod fractions;
mod general;
mod given_digits;
mod laws;
mod numbers;
mod sections;
mod shown;
mod sizes;

pub use general::push_general;
pub use laws::{
    codes_that_are_not_supported_show_the_value, errors_are_themselves, general_of_whole_numbers,
    texts_without_a_section,
};
pub use shown::push_shown;
