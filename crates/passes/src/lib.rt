// The points of the levels, by four passes over each.
#![tactic(auto)]

pub mod level;
pub mod refine;
