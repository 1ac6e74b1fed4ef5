// The crease table: its checks, and its levels.
#![tactic(auto)]

pub mod check;
pub mod levels;
