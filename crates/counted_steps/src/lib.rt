//! Steps that are counted, for a bound on how many a search takes.
#![tactic(auto)]

mod steps;

pub use steps::Steps;
