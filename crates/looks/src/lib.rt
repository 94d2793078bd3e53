//! Readings of the parts of a package, said once, as data.
//!
//! No code: `Look` (which parts are looked up, what they say, and how to go on) and `Leaves` (what
//! is asked of one part). What is said, why it isn't, how many events are taken and which parts are
//! looked up are folds of a look. Its lemma files: `Sound` (what is said has no cause of a
//! refusal), `Alike` (packages that have the same parts where a look goes say the same by it),
//! `Called` (how calls that were answered by looks answer another one) and `Answered` (how an answer
//! is put in another way).
#![tactic(auto)]
