// The cage's three tables: rules 1 to 7, and the check of them.
#![tactic(auto)]

pub mod cells;
pub mod check;
pub mod fans;
pub mod rules;

// The three tables of a cage or of a level, which go together: TWIN, VERT and EDGE of each halfedge.
#[derive(Clone, Copy)]
pub struct Tables<'a> {
    pub twin: &'a [u32],
    pub vert: &'a [u32],
    pub edge: &'a [u32],
}
