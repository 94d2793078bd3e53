//! The text that is shown of a value: laws over its definitions, and no code.
#![tactic(auto)]

mod laws;

pub use laws::{
    cut_at_dividers, general_is_short, no_fraction_is_nearer, percents_and_thousands,
    powers_show_the_number, sections_go_by_sign, shown_dates_are_dates, shown_places_read_back,
    texts_stand_at_their_place,
};
