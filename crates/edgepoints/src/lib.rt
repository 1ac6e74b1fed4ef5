// The fourth pass over a level: the points of its edges, and the places on a border.
#![tactic(auto)]

pub mod edges;
