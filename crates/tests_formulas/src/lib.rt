//! What formulas say: tests of A1 texts and of formulas that are moved (`cell_refs`,
//! `formula_shift`), of what formulas mention, what their words are and what they name
//! (`formula_tokens`, `book_names`, `xlsx_precedents`, `xlsx_graph`), of the order in which they
//! can be computed and of those that are on cycles (`calculation_order`), and of what they come to,
//! and what is said of that beside the values of their cells (`xlsx_check`), by their public calls.
//!
//! Rooms: `formula_sheets` (sheets of formulas, areas and cells as texts), `counted_search`
//! (searches that count, and what the bound of one allows, as laws). Else tests alone:
//! `reference_tests` and `shift_tests` of texts; `area_tests` and `index_tests` of
//! `xlsx_precedents`; `item_tests`, `book_tests`, `naming_tests`, `order_tests`, `cycle_tests` and
//! `graph_tests` of a workbook's graph, from its words up; `check_tests`.
#![tactic(auto)]

#[cfg(test)]
mod area_tests;
#[cfg(test)]
mod book_tests;
#[cfg(test)]
mod check_tests;
mod counted_search;
#[cfg(test)]
mod cycle_tests;
mod formula_sheets;
#[cfg(test)]
mod graph_tests;
#[cfg(test)]
mod index_tests;
#[cfg(test)]
mod item_tests;
#[cfg(test)]
mod naming_tests;
#[cfg(test)]
mod order_tests;
#[cfg(test)]
mod reference_tests;
#[cfg(test)]
mod shift_tests;

pub use counted_search::{a_search_of_a_sheet_takes_eight_steps, a_search_passes_other_rows};
