// Edges that stay sharp: how many a vertex has, and the pass over a level that corrects what they change.
#![tactic(auto)]

pub mod seams;
pub mod sharp;
pub mod tally;
