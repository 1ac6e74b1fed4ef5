// The points: the four rules, and what a level's points are.
#![tactic(auto)]

pub mod cells;
pub mod rules;
pub mod weights;
