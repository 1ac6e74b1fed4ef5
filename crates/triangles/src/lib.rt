// The tables of a cage that comes as plain triangles: TWIN and EDGE from VERT alone.
#![tactic(auto)]

pub mod edges;
pub mod twins;
