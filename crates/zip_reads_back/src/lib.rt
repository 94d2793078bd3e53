//! What is written of files reads back: laws over the definitions of the writer of archives and of
//! their reading, which meet in nothing else. It has no code.
#![tactic(auto)]

mod laws;

pub use laws::written_archives_read_back;
