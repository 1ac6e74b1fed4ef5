// One level of the tables to the next: every triangle is split into four.
#![tactic(auto)]

mod above;
pub mod halves;
pub mod level;
mod split;
