//! Formulas that need each other: an order in which they can be computed, and their cycles.
//!
//! Rooms: `links` (what formulas need, told by way of groups), `guess`, `turns` (in which turn each
//! formula is found), `chains` (formulas turn by turn), `order`, `dependents`; `search` (a search
//! for components), `components` (what it finds, and whether that is right), `firsts` (the first
//! formula of each component), `plain_cycles` (the same, plainly), `cycles` (which formulas are on
//! cycles together); `laws` (what holds of the order and of the cycles of all edges).
//!
//! **Turns are guessed and checked.** A formula is found in a turn when all that it needs are found
//! before, or when one of those is (`Waiting`). `guessed_turns` walks along the links turned round,
//! and nothing is proved of what it finds. `turns_after` makes of turns those that formulas get by
//! the turns of what they need: for each group those of the formulas for which it stands are
//! joined, from the last group to the first, so it looks at each link once. Turns that it leaves as
//! they are are the right ones.
//!
//! **So are components.** `search_components` goes down the links, and nothing is proved of what it
//! finds. `are_certain` sees by one look at each link that numbers never rise along a link, and
//! that in each component a root leads to each vertex and each vertex to the root. Where it isn't
//! seen, `firsts_plainly` answers as plainly as the definition.
#![tactic(auto)]

mod chains;
mod components;
mod cycles;
mod dependents;
mod firsts;
mod guess;
mod laws;
mod links;
mod order;
mod plain_cycles;
mod search;
mod turns;

pub use cycles::Cycles;
pub use laws::{each_stands_once, needs_stand_before, others_have_cycles, reached_is_all_needed};
pub use links::Links;
