//! What packages and their parts are and say: tests of attributes and character data, events,
//! package texts and refusals, of which values and formulas of a sheet can be written and of a
//! package that is, and of the crates that read styles and themes, by their public calls; those of
//! styles are over packages that are written as markup.
//!
//! Rooms: `attribute_uses` (uses of `get_attrs!` under contracts), `slow_attributes` (a plain slow
//! reader of attribute items). Else tests alone: `attribute_tests`, `event_tests`,
//! `package_text_tests`, `refusal_tests` and `sample_tests`; `writing_tests`; of styles
//! `style_element_tests`, `style_format_tests`, `style_sheet_tests`, `theme_tests` and
//! `tint_tests`.
#![tactic(auto)]

#[cfg(test)]
mod attribute_tests;
mod attribute_uses;
#[cfg(test)]
mod event_tests;
#[cfg(test)]
mod package_text_tests;
#[cfg(test)]
mod refusal_tests;
#[cfg(test)]
mod sample_tests;
mod slow_attributes;
#[cfg(test)]
mod style_element_tests;
#[cfg(test)]
mod style_format_tests;
#[cfg(test)]
mod style_sheet_tests;
#[cfg(test)]
mod theme_tests;
#[cfg(test)]
mod tint_tests;
#[cfg(test)]
mod writing_tests;
