// The first three passes over a level: sums over every vertex's spokes, and the new places inside.
#![tactic(auto)]

pub mod fours;
pub mod spokes;
pub mod sums;
pub mod vertices;
