//! What formulas name, by their references and by their items, where they stand and where they are
//! moved to: laws over definitions, and no code.
#![tactic(auto)]

mod laws;

pub use laws::{
    items_of_a_moved_formula_are_moved, moved_formulas_move_on,
    moved_formulas_name_what_moved_items_mean, own_areas_are_those_of_references,
    plain_formulas_name_what_items_mean,
};
