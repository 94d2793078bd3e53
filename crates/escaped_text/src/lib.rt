//! Texts as they are printed: on one line, without tabs (docs/FORMAT.md).
//!
//! One room, `escaping`: `push_escaped`, which appends a text as it is printed (`escaped`).
#![tactic(auto)]

mod escaping;

pub use escaping::{or_cut_back, push_escaped};
