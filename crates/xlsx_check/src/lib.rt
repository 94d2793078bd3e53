//! A checker of cached values: a formula computed once, exactly, from the values that its cells
//! hold.
//!
//! Rooms: `token` (tokens, and which text is one), `tokens` (those of a formula, from the left),
//! `ahead` (with the next one looked at), `denotation` (numbers and booleans that may be past
//! the limits, and what operators make of two), `values` (what cells bring in), `descent` (the
//! formula read once), `checking` (`compute` and `verdict`), `outcome` (what they answer),
//! `lines` (what is printed of it), `laws`.
//!
//! **The tree is said by splitting, and read by descent.** The definition cuts tokens at the
//! comparison, else at the last `+` or `-`, else at the last `*`, outside parentheses
//! (`formula_tree`). The code has no tree: it goes once from the left, with what was computed so
//! far in its place, and a chain takes no depth. That both are one is proved by what trees are
//! *spelled* as: what either gives is spelled as the tokens and takes from the left, and of what
//! such a tree is spelled as either gives that tree (`proofs/Splitting`, `proofs/Descending`). So
//! where one has no tree, the other has none.
//!
//! **What isn't computed ends the reading, what is past the limits doesn't.** An overflow is
//! carried on with its kind, since something that isn't computed may follow, and a boolean that
//! overflows is still no number. The loops keep that the whole goes on from some tree that comes to
//! what was computed so far (`Goes` of `proofs/Going`).
//!
//! **No number is rounded, and none is scaled past the limits.** Two numbers are taken to the lower
//! power by a factor that stops at the first step past 128 bits (`scaled` of `decimals`). A
//! comparison of a number that is past them then goes by its sign.
#![tactic(auto)]

mod ahead;
mod checking;
mod denotation;
mod descent;
mod equality;
mod laws;
mod lines;
mod outcome;
mod token;
mod tokens;
mod values;

pub use checking::{compute, verdict};
pub use equality::{copies_are_the_same, equality_is_by_all_fields};
pub use laws::{
    descent_reads_the_tree_that_is_split, leftmost_trees_are_those_of_their_tokens,
    trees_are_spelled_as_their_tokens,
};
pub use lines::push_checks;
pub use outcome::{Computed, Outcome, Verdict};
pub use token::Comparison;
