// The levels of a cage's tables, end to end.
#![tactic(auto)]

pub mod refine;
