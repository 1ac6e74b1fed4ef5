// The halfedge table in document 01's words: its constants, its way round a triangle, the
// refusals, the count question and the corner question.
#![tactic(auto)]

pub mod corners;
pub mod refusal;
pub mod table;
