//! What `==` and a copy of any type are to be: the words and the lemmas that the laws of all crates
//! share. It has no code.
#![tactic(auto)]
