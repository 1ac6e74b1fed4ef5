// The cage file's fields, and numbers as its bytes.
#![tactic(auto)]

pub mod fields;
pub mod numbers;
