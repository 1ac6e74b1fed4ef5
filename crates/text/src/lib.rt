// What the programs that people run share: lines of words and decimal numbers, numbers in a text, replies with their statuses, and
// the standard streams.
#![tactic(auto)]

pub mod lines;
pub mod numbers;
pub mod replies;
pub mod streams;
