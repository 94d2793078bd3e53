//! What values are and how they are shown: tests of decimals, dates, number formats, cells kept by
//! rows, ranges, styles and their lines and rows, of number format codes (`format_codes`) and of
//! values under them (`shown_text`), by their public calls.
//!
//! Tests alone: `decimal_tests`, `date_tests`, `value_tests`, `number_format_tests`,
//! `sorted_tests`, `range_tests`, `style_tests`, `listing_tests` and `row_tests`; of what is shown
//! `format_code_tests`, `shown_tests` and `odd_shown_tests`.
#![tactic(auto)]

#[cfg(test)]
mod date_tests;
#[cfg(test)]
mod decimal_tests;
#[cfg(test)]
mod format_code_tests;
#[cfg(test)]
mod listing_tests;
#[cfg(test)]
mod number_format_tests;
#[cfg(test)]
mod odd_shown_tests;
#[cfg(test)]
mod range_tests;
#[cfg(test)]
mod row_tests;
#[cfg(test)]
mod shown_tests;
#[cfg(test)]
mod sorted_tests;
#[cfg(test)]
mod style_tests;
#[cfg(test)]
mod value_tests;
